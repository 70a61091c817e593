//! The server's options, as they are read from the words of its command line.
//!
//! `specs/CommandLine.antt` says what the program takes, in the words of the crate `clap`, and which
//! of a command line's words name tenants.
#![tactic(auto)]

mod command;
pub mod faults;
mod reading;

pub use command::VERSION;
pub use faults::{OptionsFault, remedy};
pub use reading::read_options;
