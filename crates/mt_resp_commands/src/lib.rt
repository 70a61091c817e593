//! What the commands of the second protocol ask of the store, and what they are told, over any caller.
//!
//! `specs/Answers.antt` is the table: one line for each thing that is asked.
#![tactic(auto)]

pub mod answers;
pub mod changes;
pub mod clears;
pub mod knowing;
pub mod link;
pub mod lists;
pub mod scans;

pub use answers::answer;
pub use changes::ROUNDS;
pub use knowing::Knows;
pub use link::Link;
