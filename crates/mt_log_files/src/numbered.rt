//! The place of a numbered file: its log opened, begun and given up.

ghost use Rattle.std.specs.Prelude.{◌≡◌, Some, IfOk, IfErr, OnOk, OnErr};
ghost use Rattle.mt_log_generations.specs.Headers.{header_with, IsHeader};
ghost use Rattle.mt_log_files.specs.Slots.{disk_in, OpensNumbered, FailsToOpenNumbered, Begins, FailsToBeginAt, GivesUp, NotGivenUp};

use crate::plain::{parts_of, take_disk};
use mt_disk::{DeviceFailed, Disk};
use mt_gates::BeginFault;
use mt_log::{Front, LogFile, Numbered};
use mt_log_generations::{Header, Parity};
use mt_recover::LogSlot;
use mt_rows::Refusal;
use std::alloc::Global;

/// Opens the numbered file of this parity, whatever its place was. If it has a log, its front is given; else the place is
/// closed, as it is at an error.
pub fn open_numbered<D: Disk + Drop>(
    alloc: Global,
    slot: &mut LogSlot<D>,
    parity: Parity,
) -> Result<Option<Front>, Refusal>
    ensures ok { IfOk result (OpensNumbered D.is_honest D.state D.failures parity (disk_in slot.old) slot.new) }
    ensures err { IfErr result (λ e. FailsToOpenNumbered D.is_honest D.state D.failures parity e (disk_in slot.old) slot.new) }
{
    let Some(disk) = take_disk(slot) else {
        return Err(Refusal::Device);
    };
    match LogFile::open_numbered(alloc, disk, parity) {
        Ok(Numbered::Log(log, front)) => {
            *slot = LogSlot::Open(log);
            Ok(Some(front))
        }
        Ok(Numbered::NoLog(disk)) => {
            *slot = LogSlot::Closed(disk);
            Ok(None)
        }
        Err(fault) => {
            let (disk, refusal) = parts_of(fault);
            *slot = LogSlot::Closed(disk);
            Err(refusal)
        }
    }
}

/// Begins the log of a generation in a spare file. An error closes the place. `Device`: the log may be there or not, or there
/// is no disk. `NotShut`: the first byte of the file isn't 00, and the file is as it was.
pub fn begin<D: Disk + Drop>(slot: &mut LogSlot<D>, header: Header) -> Result<(), BeginFault>
    requires { IsHeader header }
    ensures ok { OnOk result (Begins D.is_honest D.state D.failures header (disk_in slot.old) slot.new) }
    ensures err { IfErr result (λ e. FailsToBeginAt D.is_honest D.state D.failures e header (disk_in slot.old) slot.new) }
{
    let Some(disk) = take_disk(slot) else {
        return Err(BeginFault::Device);
    };
    match LogFile::begin(
        disk,
        header.worker,
        header.logs,
        header.generation,
        header.start,
    ) {
        Ok(log) => {
            *slot = LogSlot::Open(log);
            Ok(())
        }
        Err((fault, disk)) => {
            *slot = LogSlot::Closed(disk);
            Err(fault)
        }
    }
}

/// Gives a file up, whatever it has: it is spare then. An error is of the disk: a log may be there or not.
pub fn give_up<D: Disk + Drop>(slot: &mut LogSlot<D>) -> Result<(), DeviceFailed>
    ensures ok { OnOk result (GivesUp D.is_honest D.state D.failures (disk_in slot.old) slot.new) }
    ensures err { OnErr result (NotGivenUp D.is_honest D.state D.failures (disk_in slot.old) slot.new) }
{
    let Some(mut disk) = take_disk(slot) else {
        return Err(DeviceFailed);
    };
    let given_up = mt_log_generations::give_up(&mut disk);
    *slot = LogSlot::Closed(disk);
    given_up
}
