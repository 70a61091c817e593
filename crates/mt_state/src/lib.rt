//! What a store over the arena is, step by step: what its state shows, what a step of an operation
//! promises, what the state keeps of each operation, and what a step leaves to all others.
//!
//! Definitions and laws; the state itself, with its calls, stands above. `specs/Promises.antt` says
//! what each step may do, `specs/Invariant.antt` what a state keeps.
//! `specs/Histories.antt` says what each event of a run may answer; from that alone the run has one order.
#![tactic(auto)]

pub mod histories;
pub mod laws;
pub mod layers;
pub mod moves;
pub mod removals;
pub mod scans;
pub mod splits;
pub mod tenants;
pub mod writes;

pub use moves::Move;
