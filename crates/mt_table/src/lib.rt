//! The table of all operations that are open, and the step of one of them in its place.
//!
//! It stands above the crates that have the phases: none of them calls it. Start with `table`.
#![tactic(auto)]

mod queue;
pub mod steps;
pub mod table;

pub use steps::{Made, Stepped};
pub use table::Operations;
