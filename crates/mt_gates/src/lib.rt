//! Files behind a gate: one that counts whole or not at all, and one that is given up.
//!
//! `specs/Gates.antt` says what counts of such a file, and what each call leaves. `specs/Beginnings.antt` says over which
//! file another is begun.
#![tactic(auto)]

mod gate;
mod gated;
pub mod laws;

pub use gate::{OPEN, SHUT, close_gate, open_gate, stage, synced_gate, write_head};
pub use gated::{BeginFault, begin_file, give_up};
