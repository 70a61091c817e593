//! The phases, each a file of its own.

pub mod child;
pub mod confirm;
pub mod enter;
pub mod forward;
pub mod load;
pub mod lock;
pub mod pick;
pub mod search;
pub mod verify;
