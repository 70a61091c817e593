//! The two slots of a store. A checkpoint is written in the slot that doesn't have the newest one.
//!
//! `StoreSlots` are both at rest. `Checkpointing` is a checkpoint that is being written in one of them.
//! `specs/Calls.antt` says what each call does, and `specs/Keeps.antt` what a crash may leave of both.
#![tactic(auto)]

mod checkpointing;
mod fault;
pub mod laws;
mod slot;
mod store_slots;

pub use checkpointing::Checkpointing;
pub use fault::SlotFault;
pub use mt_checkpoint::{FaultCause, FileDigest};
pub use slot::Slot;
pub use store_slots::StoreSlots;
