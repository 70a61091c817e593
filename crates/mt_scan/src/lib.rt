//! The phases of a scan, each one call over the arena and what the scan remembers.
//!
//! `snap` reads a border node from the reached fence on, up to the first link; `check` compares the node's
//! version, and keeps what was read; `hop` goes on behind it. None changes a node or holds one. A call that
//! answers a number changes nothing: the operation of that number is in the way, and the step is to be
//! made again. Errors: `AllocError`, where a growth was refused; the scan ends then.
#![tactic(auto)]

mod behind;
mod collect;
mod fence;
pub mod laws;
mod looks;
pub mod phases;

pub use phases::check::check;
pub use phases::hop::hop;
pub use phases::snap::snap;
