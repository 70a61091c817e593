//! Settle: each log of a store is brought up to date, one after the other, and the least of what they
//! reach is told.
//!
//! `Logs` are a store's logs as a trait, with a function for a turn of one; `settle` gives each a turn. What a
//! settled number says is in `laws`, over any logs. `begin_all` and `give_up_all` are the other parts of a turn of all
//! logs: the next logs are begun, and the older ones are given up. `next_generation` is to which generation a turn goes.
//!
//! Units: steps, as records are stamped with them.
#![tactic(auto)]

pub mod laws;
pub mod logs;
pub mod next;
pub mod parts;
pub mod settling;

pub use logs::Logs;
pub use next::next_generation;
pub use parts::{begin_all, give_up_all};
pub use settling::settle;
