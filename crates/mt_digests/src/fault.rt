//! Why a file was not compared with its digest.

ghost use Rattle.std.specs.Prelude.{◌≡◌};
ghost use Rattle.mt_digests.specs.declared.fault.DigestFault.TheVariants.{Device, Memory};

use mt_disk::DeviceFailed;
use std::alloc::AllocError;

/// Why a file was not compared with its digest.
#[derive(Clone, Copy, Debug, PartialEq, Eq)]
pub enum DigestFault {
    /// The disk of the file failed.
    Device,
    /// The disk of its digest file failed.
    DigestDevice,
    /// A growth was refused.
    Memory,
}

impl From<DeviceFailed> for DigestFault {
    ghost from_gives = { λ _ e. e ≡ Device };

    fn from(_e: DeviceFailed) -> DigestFault {
        DigestFault::Device
    }
}

impl From<AllocError> for DigestFault {
    ghost from_gives = { λ _ e. e ≡ Memory };

    fn from(_e: AllocError) -> DigestFault {
        DigestFault::Memory
    }
}
