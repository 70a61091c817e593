//! The phases of a removal, each in a file of its own.

pub mod clean_layer;
pub mod collapse;
pub mod drop_key;
pub mod fix_next;
pub mod follow;
pub mod judge;
pub mod lock;
pub mod lock_above;
pub mod lock_prev;
pub mod unlink;
pub mod unlock;
