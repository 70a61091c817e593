//! The log files of all workers of a store, opened, and the chains with which a recovery begins.
//!
//! `specs/Numbered.antt` and `specs/Plain.antt` say what becomes of the files. `specs/Chosen.antt` says which chains there
//! are then, and why an opening stops. `laws` say that a store's own files are never refused.
#![tactic(auto)]

mod begun;
mod chain_reader;
mod fault;
mod headers;
pub mod laws;
mod numbered;
mod opening;
mod plain;
mod watching;

pub use chain_reader::ChainReader;
pub use fault::FilesFault;
pub use headers::Told;
pub use numbered::open_numbered_files;
pub use opening::{Chains, open_chains};
pub use plain::open_plain_files;
pub use watching::{NoWatch, Watch};
