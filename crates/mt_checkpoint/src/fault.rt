//! Why a slot was not written, or not read.

ghost use Rattle.std.specs.Prelude.{◌≡◌};
ghost use Rattle.mt_checkpoint.specs.Faults.{refusal_for, told_as};

use mt_disk::{DeviceFailed, Disk, SystemError};
use mt_rows::Refusal;
use std::alloc::{AllocError, AllocFailed};

/// Why a call on a slot failed.
#[derive(Clone, Copy, Debug, PartialEq, Eq)]
pub enum FaultCause {
    /// The disk failed.
    Device,
    /// A growth was refused, to the call or to its disk, or the file has 2^60 bytes.
    Memory,
    /// What was to be written is no walk: its pairs don't rise, its steps are not in order or past the greatest,
    /// or a stamp is over its last step.
    NotAWalk,
    /// What was read back is not what was written.
    NotReadBack,
}

impl FaultCause {
    /// The refusal that tells it.
    pub fn refusal(self) -> Refusal
        ensures { result ≡ refusal_for self }
    {
        match self {
            FaultCause::Memory => Refusal::Memory,
            FaultCause::Device | FaultCause::NotAWalk | FaultCause::NotReadBack => Refusal::Device,
        }
    }

    /// The cause as a disk tells it that failed: memory if it was refused to the disk. Any other cause stays.
    pub fn told_by<D: Disk>(self, disk: &D) -> FaultCause
        ensures { result ≡ told_as (D.was_refused disk.now) self }
    {
        match self {
            FaultCause::Device => match disk.last_error() {
                Some(SystemError::OutOfMemory) => FaultCause::Memory,
                _ => FaultCause::Device,
            },
            FaultCause::Memory | FaultCause::NotAWalk | FaultCause::NotReadBack => self,
        }
    }
}

impl From<DeviceFailed> for FaultCause {
    ghost use Rattle.mt_checkpoint.specs.declared.fault.FaultCause.TheVariants.{Device};

    ghost from_gives = { λ _ e. e ≡ Device };

    fn from(_e: DeviceFailed) -> FaultCause {
        FaultCause::Device
    }
}

impl From<AllocError> for FaultCause {
    ghost use Rattle.mt_checkpoint.specs.declared.fault.FaultCause.TheVariants.{Memory};

    ghost from_gives = { λ _ e. e ≡ Memory };

    fn from(_e: AllocError) -> FaultCause {
        FaultCause::Memory
    }
}

impl<T: Drop> From<AllocFailed<T>> for FaultCause {
    ghost use Rattle.mt_checkpoint.specs.declared.fault.FaultCause.TheVariants.{Memory};

    ghost from_gives = { λ _ e. e ≡ Memory };

    fn from(_e: AllocFailed<T>) -> FaultCause {
        FaultCause::Memory
    }
}

/// A checkpoint was not written, and was given up. The disk comes back: the slot may be read, or another one begun
/// in it.
#[derive(Drop)]
pub struct WriteFault<D: Disk> {
    pub cause: FaultCause,
    pub disk: D,
}

/// Why a slot was not read.
#[derive(Drop)]
pub enum ReadFault {
    /// The disk failed.
    Device,
    /// A growth was refused.
    Memory,
}

impl From<DeviceFailed> for ReadFault {
    ghost use Rattle.mt_checkpoint.specs.declared.fault.ReadFault.TheVariants.{Device};

    ghost from_gives = { λ _ e. e ≡ Device };

    fn from(_e: DeviceFailed) -> ReadFault {
        ReadFault::Device
    }
}

impl From<AllocError> for ReadFault {
    ghost use Rattle.mt_checkpoint.specs.declared.fault.ReadFault.TheVariants.{Memory};

    ghost from_gives = { λ _ e. e ≡ Memory };

    fn from(_e: AllocError) -> ReadFault {
        ReadFault::Memory
    }
}

impl<T: Drop> From<AllocFailed<T>> for ReadFault {
    ghost use Rattle.mt_checkpoint.specs.declared.fault.ReadFault.TheVariants.{Memory};

    ghost from_gives = { λ _ e. e ≡ Memory };

    fn from(_e: AllocFailed<T>) -> ReadFault {
        ReadFault::Memory
    }
}
