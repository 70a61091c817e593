//! Scripts of single node steps: from the bytes that are read to the bytes that are written.
//!
//! The language is in `docs/FORMATS.md`, and as definitions in `specs/`. `specs/Scripts.antt` says of a
//! whole script what is written for what is read; `run_script` keeps it over any reader and any writer.
#![tactic(auto)]

mod buffer;
mod fault;
pub mod line;
pub mod names;
pub mod program;
pub mod response;
pub mod script;
pub mod session;
pub mod store;
mod words;

pub use program::{Ending, Purpose, run_program};
pub use script::{ScriptFault, run_script};
