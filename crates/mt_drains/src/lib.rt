//! The next batch of a worker's log, out of the tape of all changes.
//!
//! `batch_after` gives a worker's changes after a step: the first 4,096, or all. Of the tape it walks what was placed after that
//! step, and finds where that begins by a search. `specs/Drains` says what the batch is.
#![tactic(auto)]

mod drains;

pub use drains::{DrainedBatch, batch_after};
