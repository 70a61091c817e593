//! The store as one state: all nodes and trees, the tape of their changes, and the operations that are open.
//!
//! A get, a put or a remove is an operation: it is begun, and then run by single steps, each one access to a
//! node. Steps of different operations fall between each other in any order. `state.rt` has the
//! state and its calls. A step finds the operation, and lets the call of its phase make the step of it
//! in its place (`looks.rt`, `writes.rt`). What a step may do is said in `mt_state`, by
//! `specs/Promises.antt`.
#![tactic(auto)]

pub mod answers;
pub mod begins;
mod climbs;
pub mod displaced;
mod drains;
pub mod events;
mod inner;
mod layers;
mod looks;
mod removals;
mod restore;
pub mod shape;
pub mod state;
mod writes;

pub use answers::Ticket;
pub use begins::{Opening, prepare, prepare_in};
pub use displaced::Displaced;
pub use events::{Roster, ToldList, run_events, tell};
pub use inner::MAX_STEPS;
pub use shape::{Edge, Separators, ShapeLine};
pub use state::State;
