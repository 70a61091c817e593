//! One state for many threads: the book under a lock, and calls that go through it period by period.
//!
//! A period is what one thread does between taking the lock and giving it back: it begins a command,
//! makes one step, or takes an answer. `specs/Periods.antt` says what a period is, `specs/Calls.antt`
//! of which periods a call is made, `specs/Books.antt` what holds whenever the lock is free.
#![tactic(auto)]

pub mod baton;
pub mod baton_lock;
pub mod births;
pub mod books;
pub mod calls;
pub mod desks;
pub mod gates;
pub mod happenings;
pub mod kept;
pub mod laws;
pub mod names;
pub mod passes;
mod shared;

pub use baton::{Baton, Runner};
pub use books::Book;
pub use calls::{CallFault, call};
pub use desks::{Admission, Admitted, Desk, Look, Stepping, Taken, Taking};
pub use gates::{Gate, NoGate, Turned, passed};
pub use happenings::Periods;
pub use kept::Kept;
pub use laws::{nothing_was_asked_at_first, one_run_has_all_that_was_told};
pub use names::Names;
pub use passes::Pass;
pub use shared::{BookLock, Callers, Clerk, drain, gather, open_clerk, open_pass};
