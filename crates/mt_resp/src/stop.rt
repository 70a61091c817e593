//! Why reading a command stops.

ghost use Rattle.std.specs.Prelude.{◌≡◌};
ghost use Rattle.mt_resp.specs.declared.stop.Stop.TheVariants.{Memory};

use std::alloc::{AllocError, AllocFailed};

/// Why no command begins so.
#[derive(Clone, Copy, Debug)]
pub enum Fault {
    /// The bytes begin neither an array of bulk strings nor a line.
    Spelling,
    /// The command has over 1,024 words.
    ManyWords,
    /// The command has over 65,536 bytes.
    Long,
}

/// Why reading a command stops.
#[derive(Drop)]
pub enum Stop {
    /// A growth was refused.
    Memory,
    /// The bytes are a beginning, and more are wanted.
    Partial,
    /// No command begins so.
    Bad(Fault),
}

impl From<AllocError> for Stop {
    ghost from_gives = { λ _ e. e ≡ Memory };

    fn from(_e: AllocError) -> Stop {
        Stop::Memory
    }
}

impl<T: Drop> From<AllocFailed<T>> for Stop {
    ghost from_gives = { λ _ e. e ≡ Memory };

    fn from(_e: AllocFailed<T>) -> Stop {
        Stop::Memory
    }
}
