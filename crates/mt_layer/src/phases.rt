//! The phases, each a file of its own.

pub mod leave;
pub mod link;
pub mod make_layer;
pub mod mark_layer;
pub mod mark_unstable;
