//! The phases, each a file of its own.

pub mod check;
pub mod hop;
pub mod snap;
