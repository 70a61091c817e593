//! What all phases of an operation share: its task, its walk down the index, its outcome, and what it has
//! made ready to write.
//!
//! Each step of an operation is one phase. The crates above have the phases, and `mt_table` has all
//! operations that are open; here stands what an operation remembers from one step to the next. Start
//! with `operation`.
#![tactic(auto)]

pub mod operation;
pub mod outcome;
pub mod phase;
pub mod prepared;
pub mod removal;
pub mod scan;
pub mod seen;
pub mod spare;
pub mod splits;
pub mod task;
pub mod walk;

pub use operation::Operation;
pub use outcome::Outcome;
pub use phase::{PHASES, Phase};
pub use prepared::Prepared;
pub use removal::Removal;
pub use scan::{Scan, Stop};
pub use seen::Seen;
pub use spare::Spare;
pub use splits::{Halves, Splits};
pub use task::{Request, Task};
pub use walk::{Aim, Place, Taken, Walk};
