//! A worker's log in a running store, over its three files, and the parts of a checkpoint's turn that change which of them
//! has its last log.
//!
//! `specs/Turns.antt` says what each call does, and `specs/Shows.antt` what a crash may leave of the files.
#![tactic(auto)]

mod by_generation;
pub mod laws;
mod log_owner;
mod worker_log;

pub use log_owner::LogOwner;
pub use worker_log::WorkerLog;
