//! A walk over all pairs of some tenants, by scans of 64 pairs a page.
//!
//! `PageWalk` tells which scan comes next, and takes what it showed. It runs nothing itself: a server and a store in
//! memory run its scans beside other commands, and a checkpoint gets its pairs. `specs/Walked.antt` says what a walk has found,
//! whatever is changed meanwhile.
#![tactic(auto)]

pub mod laws;
mod walk;

pub use walk::PageWalk;
