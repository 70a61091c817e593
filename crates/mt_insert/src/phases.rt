//! The phases, each a file of its own.

pub mod fill;
pub mod insert_child;
pub mod interior_split;
pub mod judge;
pub mod lock_parent;
pub mod publish;
pub mod reparent;
pub mod root_grow;
pub mod split_move;
pub mod split_prev;
pub mod split_start;
pub mod store;
pub mod unlock;
