//! An operation whose long key meets another one at its slice: how it makes the layer below for both.
//!
//! Each phase is one call over the arena, the key and what the operation remembers, its `Walk`, in a file
//! named as the phase: `make_layer` makes the tree of the next layer with the other key's pair,
//! `mark_unstable`, `link` and `mark_layer` make its slot a link, and `leave` gives the lock back and goes
//! on in the tree. What is kept of the operation by its next phase stands in
//! `specs/KeptLayers.antt`, and what each step does in `specs/Builds.antt`.
//!
//! A step changes at most the node that the operation holds and the tree that it makes. Errors:
//! `AllocError`, from `make_layer` alone, which then gives its lock back. Units: nodes, slots and trees by
//! their numbers.
#![tactic(auto)]

mod below;
pub mod laws;
pub mod phases;

pub use phases::leave::leave;
pub use phases::link::link;
pub use phases::make_layer::make_layer;
pub use phases::mark_layer::mark_layer;
pub use phases::mark_unstable::mark_unstable;
