//! Why a header was not read.

ghost use Rattle.std.specs.Prelude.{◌≡◌};

use mt_disk::DeviceFailed;

/// Why a header was not read.
#[derive(Clone, Copy, Debug, PartialEq, Eq)]
pub enum HeaderFault {
    /// The disk failed.
    Device,
    /// No header of a log follows the open outer gate. The number is the worker that it names, 0 if there is no header.
    Bad(u8),
}

impl From<DeviceFailed> for HeaderFault {
    ghost use Rattle.mt_log_generations.specs.declared.fault.HeaderFault.TheVariants.{Device};

    ghost from_gives = { λ _ e. e ≡ Device };

    fn from(_e: DeviceFailed) -> HeaderFault {
        HeaderFault::Device
    }
}
