//! Interior nodes: up to fifteen separators in order, and one child more.
#![tactic(auto)]

pub mod laws;
pub mod node;

pub use node::{Interior, SEPARATORS};
