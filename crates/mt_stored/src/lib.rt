//! A state and the logs of its workers: how a store is made and recovered, how its logs are brought up to
//! date and its checkpoints written, and when.
//!
//! A `Store` is owned alone; `SharedLogs` are the same behind locks, one for each log and one for the
//! book. Both are `Logs` of `mt_settle`. A `Keeper` is what a worker keeps its answers in. A `LogChange` is what
//! is warned of. `write_checkpoint` writes a checkpoint while the book is in use; `Checks` tell when one is due.
//! `write_turn` makes a whole turn of all logs, with a checkpoint in it, and asks `Digests` to keep those of their files.
#![tactic(auto)]

mod beginning;
pub mod changes;
pub mod checkpoints;
pub mod checks;
pub mod digests;
pub mod keeping;
pub mod laws;
pub mod shared;
pub mod source;
pub mod stores;
pub mod turns;

pub use beginning::bring_up_and_begin;
pub use changes::{LogChange, change_of};
pub use checkpoints::{CheckpointStop, write_checkpoint};
pub use checks::{Checks, DueTurn};
pub use digests::{Digested, Digests, NoDigests};
pub use keeping::{FLUSH_ANSWERS, Keeper, Learns};
pub use shared::{SharedLogs, locked_logs, unlocked_logs};
pub use stores::Store;
pub use turns::{TurnStop, write_turn};
