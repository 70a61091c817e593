//! A store that comes back: operations by single steps, the logs of their workers on disks in memory, and
//! crashes at any moment, in whatever order a list of events names.
//!
//! `run_store_events` is where the promises meet: `specs/Lives.antt` says what a list of events with its
//! notes may be, whatever the disks do.
//!
//! Units: steps, as records are stamped with them; pairs.
#![tactic(auto)]

mod beginnings;
mod checks;
mod crashes;
pub mod events;
pub mod laws;
pub mod live_slots;
mod operations;
pub mod running;
mod serving;
mod settles;
mod turns;

pub use events::{CrashImages, StoreEvent, StoreNote};
pub use live_slots::{Check, CheckStage, LiveSlots, Turn, TurnStage};
pub use running::{NoteList, Store, run_store_events};
