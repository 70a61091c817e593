//! Sessions of the second protocol: what a connection is told for the commands that its bytes spell, over any caller.
//!
//! `specs/Transcripts.antt` says what a session tells; `answer` does a part of one, and can stop anywhere.
#![tactic(auto)]

pub mod laws;
pub mod session;

pub use mt_resp_commands::{Knows, Link};
pub use session::{Session, Stop, answer};
