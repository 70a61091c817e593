//! Why a turn of all logs was stopped, or a digest was not kept, in the words of a warning.

use mt_disk::SystemError;
use mt_slots::FaultCause;
use mt_store_files::{StoreFault, StoreFile};
use mt_stored::{CheckpointStop, Digested, TurnStop};
use std::fmt;

/// A turn that was stopped, and why the last call failed of the disk in whose slot it wrote, if the system told it.
#[derive(Clone, Copy)]
pub(crate) struct TurnWarning {
    pub stop: TurnStop,
    pub error: Option<SystemError>,
}

// Why a slot's file was not written.
#[derive(Clone, Copy)]
struct Cause(FaultCause, Option<SystemError>);

impl fmt::Display for Cause {
    fn fmt<W: fmt::Write>(&self, f: &mut fmt::Formatter<W>) -> fmt::Result {
        match *self {
            Cause(FaultCause::Memory, _) => f.write_str("out of memory"),
            Cause(FaultCause::NotAWalk, _) => f.write_str("its pairs are not in order"),
            Cause(FaultCause::NotReadBack, _) => f.write_str("it is not read as it was written"),
            Cause(FaultCause::Device, Some(error)) => write!(f, "{error}"),
            Cause(FaultCause::Device, None) => f.write_str("its disk failed"),
        }
    }
}

impl fmt::Display for TurnWarning {
    fn fmt<W: fmt::Write>(&self, f: &mut fmt::Formatter<W>) -> fmt::Result {
        match self.stop {
            TurnStop::Checkpoint(CheckpointStop::Slot(fault)) => {
                let file = StoreFile::Slot(fault.slot);
                let why = Cause(fault.cause, self.error);
                let refusal = fault.cause.refusal();
                write!(f, "a checkpoint was given up: {file}: {why} ({refusal})")
            }
            TurnStop::Checkpoint(CheckpointStop::Scan(refusal)) => {
                write!(f, "a checkpoint was given up: {refusal}")
            }
            TurnStop::Digest(Digested::OfSlot(slot), refusal) => {
                let file = StoreFile::Slot(slot);
                write!(
                    f,
                    "a turn of the logs was not finished: the digest of {file}: {refusal}"
                )
            }
            TurnStop::Digest(Digested::OfLogs(generation), refusal) => write!(
                f,
                "a turn of the logs was not finished: the digests of generation {generation}: {refusal}"
            ),
            TurnStop::Logs(refusal) => write!(f, "a turn of the logs was not finished: {refusal}"),
        }
    }
}

/// A digest was not cleared or not kept, and why: the file of the folder at which the system failed, if it did at one.
#[derive(Clone, Copy)]
pub(crate) struct DigestWarning<'a>(pub &'a StoreFault);

impl fmt::Display for DigestWarning<'_> {
    fn fmt<W: fmt::Write>(&self, f: &mut fmt::Formatter<W>) -> fmt::Result {
        f.write_str("a digest was not kept: ")?;
        match self.0 {
            StoreFault::Device(file, Some(error)) => write!(f, "{file}: {error}"),
            StoreFault::Device(file, None) => write!(f, "{file}: its disk failed"),
            StoreFault::System(Some(file), error) => write!(f, "{file}: {error}"),
            StoreFault::System(None, error) => write!(f, "the folder: {error}"),
            StoreFault::Memory => f.write_str("out of memory"),
            fault => write!(f, "{}", fault.refusal()),
        }
    }
}
