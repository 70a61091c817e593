//! The place of a log's file, and a plain file in it.

ghost use Rattle.std.specs.Prelude.{◌≡◌, ◌↔◌, IsTrue, Option, Some, IfOk, IfErr};
ghost use Rattle.mt_disk.specs.Disk.{CountsFailure};
ghost use Rattle.mt_log.specs.Numbered.{disk_in as disk_of_fault};
ghost use Rattle.mt_recover.specs.declared.resuming.LogSlot.{LogSlot};
ghost use Rattle.mt_log_files.specs.Slots.{disk_in, refusal_of, IsNoPlainLog, Opens, FailsToOpen, OpensPlain, FailsToOpenPlain};

use mt_disk::{DeviceFailed, Disk};
use mt_gates::SHUT;
use mt_log::{Front, LogFile, OpenFault};
use mt_recover::LogSlot;
use mt_rows::Refusal;
use std::alloc::Global;
use std::mem;

/// The disk of a place, which is away then.
pub fn take_disk<D: Disk + Drop>(slot: &mut LogSlot<D>) -> Option<D>
    ensures disk { result ≡ disk_in slot.old }
    ensures away { slot.new ≡ LogSlot.Away }
{
    match mem::replace(slot, LogSlot::Away) {
        LogSlot::Open(log) => Some(log.into_disk()),
        LogSlot::Failed(log) => Some(log.into_disk()),
        LogSlot::Closed(disk) => Some(disk),
        LogSlot::Away => None,
    }
}

/// Opens a plain file, whatever its place was, and gives its front. An empty file and one that begins with 00 have no log:
/// the place is closed then, as it is at an error.
pub fn open_plain<D: Disk + Drop>(
    alloc: Global,
    slot: &mut LogSlot<D>,
) -> Result<Option<Front>, Refusal>
    ensures ok { IfOk result (OpensPlain D.is_honest D.state D.failures (disk_in slot.old) slot.new) }
    ensures err { IfErr result (λ e. FailsToOpenPlain D.is_honest D.state D.failures e (disk_in slot.old) slot.new) }
{
    match open_slot(alloc, slot) {
        Ok(front) => Ok(Some(front)),
        Err(Refusal::BadLog { number, offset }) => none_or_bad(slot, number, offset),
        Err(refusal) => Err(refusal),
    }
}

// Whether a plain file that was refused is no log, or a bad one.
fn none_or_bad<D: Disk + Drop>(
    slot: &mut LogSlot<D>,
    number: u8,
    offset: u64,
) -> Result<Option<Front>, Refusal>
    ensures ok { (old : Option D) → FailsToOpen D.is_honest D.state D.failures (Refusal.BadLog number offset) old slot.old
        → IfOk result (OpensPlain D.is_honest D.state D.failures old slot.new) }
    ensures err { (old : Option D) → FailsToOpen D.is_honest D.state D.failures (Refusal.BadLog number offset) old slot.old
        → IfErr result (λ e. FailsToOpenPlain D.is_honest D.state D.failures e old slot.new) }
{
    let LogSlot::Closed(disk) = slot else {
        return Err(Refusal::Device);
    };
    match is_no_log(disk) {
        Ok(true) => Ok(None),
        Ok(false) => Err(Refusal::BadLog { number, offset }),
        Err(_) => Err(Refusal::Device),
    }
}

// Whether a plain file is empty, or begins with 00.
fn is_no_log<D: Disk>(disk: &mut D) -> Result<bool, DeviceFailed>
    ensures told { IsTrue (D.is_honest disk.old) → IfOk result (λ is. IsTrue is ↔ IsNoPlainLog (D.state disk.old).image) }
    ensures same { IsTrue (D.is_honest disk.old) → D.state disk.new ≡ D.state disk.old }
    ensures count { CountsFailure result (D.failures disk.old) (D.failures disk.new) }
    ensures honest { D.is_honest disk.new ≡ D.is_honest disk.old }
{
    if disk.len()? == 0 {
        return Ok(true);
    }
    let mut first = [0];
    disk.read(0, &mut first)?;
    Ok(first[0] == SHUT)
}

/// Opens a plain file that has a log, whatever its place was, and gives its front. An error closes it.
pub fn open_slot<D: Disk + Drop>(alloc: Global, slot: &mut LogSlot<D>) -> Result<Front, Refusal>
    ensures ok { IfOk result (λ front. Opens D.is_honest D.state D.failures (disk_in slot.old) slot.new front) }
    ensures err { IfErr result (λ e. FailsToOpen D.is_honest D.state D.failures e (disk_in slot.old) slot.new) }
{
    match take_disk(slot) {
        Some(disk) => open_disk(alloc, disk, slot),
        None => Err(Refusal::Device),
    }
}

/// Opens the disk of a plain file into an empty place. An error closes it there.
pub fn open_disk<D: Disk + Drop>(
    alloc: Global,
    disk: D,
    slot: &mut LogSlot<D>,
) -> Result<Front, Refusal>
    ensures ok { IfOk result (λ front. Opens D.is_honest D.state D.failures (Some disk) slot.new front) }
    ensures err { IfErr result (λ e. FailsToOpen D.is_honest D.state D.failures e (Some disk) slot.new) }
{
    match LogFile::open(alloc, disk) {
        Ok((log, front)) => {
            *slot = LogSlot::Open(log);
            Ok(front)
        }
        Err(fault) => {
            let (disk, refusal) = parts_of(fault);
            *slot = LogSlot::Closed(disk);
            Err(refusal)
        }
    }
}

/// The disk of a fault, and the refusal.
pub(crate) fn parts_of<D: Disk + Drop>(fault: OpenFault<D>) -> (D, Refusal)
    ensures disk { result.0 ≡ disk_of_fault fault }
    ensures refusal { result.1 ≡ refusal_of fault }
{
    match fault {
        OpenFault::Device(disk) => (disk, Refusal::Device),
        OpenFault::Memory(disk) => (disk, Refusal::Memory),
        OpenFault::BadLog {
            disk,
            number,
            offset,
        } => (disk, Refusal::BadLog { number, offset }),
    }
}
