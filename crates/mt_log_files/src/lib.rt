//! The places of a worker's log files: the plain one, and two numbered ones of which each has a log or is spare.
//!
//! `specs/Slots.antt` says what each call makes of a place. `specs/Shows.antt` and `specs/Files.antt` say what a crash may
//! leave of it, and `laws` that each call keeps to that.
#![tactic(auto)]

pub mod laws;
mod looking;
mod numbered;
mod plain;
mod worker;

pub use looking::look;
pub use numbered::{begin, give_up, open_numbered};
pub use plain::{open_disk, open_plain, open_slot, take_disk};
pub use worker::WorkerFiles;
