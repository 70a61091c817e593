//! From which generation on a store is recovered, and each worker's chain from there on.
#![tactic(auto)]

mod apart;
mod bases;
mod choosing;
mod ends;
mod joining;
mod last;
pub mod laws;
mod owners;
mod worker_logs;

pub use apart::first_apart;
pub use bases::can_begin;
pub use choosing::choose;
pub use joining::chains_from;
pub use last::last_generation;
pub use owners::are_owned;
pub use worker_logs::WorkerLogs;
