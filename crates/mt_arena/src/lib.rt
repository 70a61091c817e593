//! The arena: all nodes and trees of the index, named by number.
//!
//! A tree is a B+tree over the slices of one layer; its record names the bytes with which all its
//! keys begin, and its root. What holds of all nodes and trees after every step of every operation
//! is said in `specs/Nodes.antt`, `specs/Forests.antt` and `specs/Layers.antt`, fact by fact, each of
//! one node or of two; what one step may change, in `specs/Guarantee.antt`. Start with `arena.rt`.
#![tactic(auto)]

pub mod arena;
pub mod laws;
mod layering;
pub mod node;
mod removal;
pub mod retired;
pub mod tree;

pub use arena::Arena;
pub use node::Node;
pub use retired::{Idle, IdlePlaces, Retired};
pub use tree::{Prefix, Standing, Tree};
