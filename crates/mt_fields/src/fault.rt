//! Why bytes could not be read as a field.

ghost use Rattle.std.specs.Prelude.{◌≡◌};
ghost use Rattle.mt_fields.specs.declared.fault.DecodeFault.TheVariants.{Memory};

use std::alloc::{AllocError, AllocFailed};

/// Why bytes could not be read as a field, or as what is made of fields.
#[derive(Drop)]
pub enum DecodeFault {
    /// A growth was refused.
    Memory,
    /// They aren't in the format.
    Bad,
}

impl From<AllocError> for DecodeFault {
    ghost from_gives = { λ _ e. e ≡ Memory };

    fn from(_e: AllocError) -> DecodeFault {
        DecodeFault::Memory
    }
}

impl<T: Drop> From<AllocFailed<T>> for DecodeFault {
    ghost from_gives = { λ _ e. e ≡ Memory };

    fn from(_e: AllocFailed<T>) -> DecodeFault {
        DecodeFault::Memory
    }
}
