//! The numbered log files of a store: a header of format 3 after an outer gate, begun, read and given up.
//!
//! `specs/Headers.antt` spells the header and says what such a file is. `specs/Calls.antt` says what each call leaves.
#![tactic(auto)]

mod fault;
mod header;
mod header_file;
pub mod laws;
mod log_generation;

pub use fault::HeaderFault;
pub use header::{Header, Parity, header_of};
pub use header_file::read_header;
pub use log_generation::{begin_generation, create_spare, give_up};
