//! The log of a generation, in a numbered file: opened, begun and given up.

ghost use Rattle.std.specs.Prelude.{◌≡◌, ◌<◌, ◌≤◌, ◌^◌, IsTrue, IfOk, IfErr, MatchResult};
ghost use Rattle.mt_log_generations.specs.Headers.{header_with, IsHeader};
ghost use Rattle.mt_log.specs.{Logs.fault_with, Numbered.{Begun, IsNotBegun, GivenUp, FailsToGiveUp, OpensNumbered, GivesNumberedBack, StillLeavesText, disk_in, disk_of}, Settling.{FindsNumbered, IsSyncedOrNone, FailsToSettle}};

use crate::batch::Front;
use crate::fault::{OpenFault, ReadFault};
use crate::log_end::set_right;
use crate::log_file::{LENGTH_LIMIT, LogFile};
use crate::reader::{FileKind, NUMBERED_BYTES};
use crate::windows::{Found, read_front};
use mt_disk::{DeviceFailed, Disk};
use mt_gates::{BeginFault, OPEN, SHUT, close_gate, synced_gate};
use mt_log_generations::{Parity, begin_generation};
use std::alloc::Global;

/// What a numbered file has.
#[derive(Drop)]
pub enum Numbered<D: Disk> {
    /// The log of a generation, with its front.
    Log(LogFile<D>, Front),
    /// No log: the file is empty, or its outer gate is closed.
    NoLog(D),
}

impl<D: Disk> LogFile<D> {
    /// Opens the numbered file of this parity. It has a log if its outer gate is open. A gate that a crash left torn is
    /// closed.
    pub fn open_numbered(
        alloc: Global,
        mut disk: D,
        parity: Parity,
    ) -> Result<Numbered<D>, OpenFault<D>>
        ensures ok { IfOk result (OpensNumbered parity D.is_honest D.state D.failures disk) }
        ensures err { IfErr result (GivesNumberedBack parity D.is_honest D.state D.failures disk) }
        ensures text { MatchResult result (λ r. StillLeavesText D.is_honest D.state D.failures disk (disk_of r)) (λ e. StillLeavesText D.is_honest D.state D.failures disk (disk_in e)) }
    {
        match open_numbered_file(alloc, &mut disk, parity) {
            Ok(Some(found)) => {
                let log = LogFile::at(disk, found.end, found.mark);
                Ok(Numbered::Log(log, found.front))
            }
            Ok(None) => Ok(Numbered::NoLog(disk)),
            Err(ReadFault::Device) => Err(OpenFault::Device(disk)),
            Err(ReadFault::Memory) => Err(OpenFault::Memory(disk)),
            Err(ReadFault::Bad { number, offset }) => Err(OpenFault::BadLog {
                disk,
                number,
                offset,
            }),
        }
    }

    /// Begins the log of a generation, without batches, over a file whose outer gate is closed. What the file had after it is
    /// lost. A file whose outer gate isn't closed is refused: it is synced and not written. At each moment a crash leaves the
    /// outer gate closed, or the whole log without batches after any outer gate.
    pub fn begin(
        mut disk: D,
        worker: u8,
        logs: u8,
        generation: u64,
        start: u64,
    ) -> Result<LogFile<D>, (BeginFault, D)>
        requires { IsHeader (header_with worker logs generation start) }
        ensures ok { IfOk result (Begun D.is_honest D.state D.failures disk (header_with worker logs generation start)) }
        ensures err { IfErr result (λ e. IsNotBegun D.is_honest D.state D.failures e.0 disk (header_with worker logs generation start) e.1) }
    {
        match begin_generation(&mut disk, worker, logs, generation, start) {
            Ok(()) => Ok(LogFile::at(disk, NUMBERED_BYTES, start)),
            Err(fault) => Err((fault, disk)),
        }
    }

    /// Gives a log up: its file is spare then. At each moment a crash leaves the log as it was, or no log.
    pub fn give_up(self) -> Result<D, (DeviceFailed, D)>
        ensures ok { IfOk result (GivenUp D.is_honest D.state D.failures self) }
        ensures err { IfErr result (λ e. FailsToGiveUp D.is_honest D.state D.failures self e.1) }
    {
        let mut disk = self.into_disk();
        match mt_log_generations::give_up(&mut disk) {
            Ok(()) => Ok(disk),
            Err(failed) => Err((failed, disk)),
        }
    }
}

// Syncs a numbered file, and tells its length if its outer gate is open. A torn gate is closed.
fn settled_len<D: Disk>(disk: &mut D) -> Result<Option<usize>, ReadFault>
    ensures ok { IfOk result (IsSyncedOrNone D.is_honest D.state D.failures disk.old disk.new) }
    ensures err { IfErr result (FailsToSettle D.is_honest D.state D.failures disk.old disk.new) }
    ensures text { StillLeavesText D.is_honest D.state D.failures disk.old disk.new }
{
    let (len, gate) = synced_gate(disk)?;
    let Some(gate) = gate else {
        return Ok(None);
    };
    if gate == SHUT {
        return Ok(None);
    }
    if gate != OPEN {
        close_gate(disk)?;
        return Ok(None);
    }
    if len >= LENGTH_LIMIT {
        return Err(ReadFault::Memory);
    }
    Ok(Some(len))
}

// Opens a numbered file on its disk.
fn open_numbered_file<D: Disk>(
    alloc: Global,
    disk: &mut D,
    parity: Parity,
) -> Result<Option<Found>, ReadFault>
    ensures ok { IfOk result (FindsNumbered parity D.is_honest D.state D.failures disk.old disk.new) }
    ensures err { IfErr result (λ e. GivesNumberedBack parity D.is_honest D.state D.failures disk.old (fault_with disk.new e)) }
    ensures text { StillLeavesText D.is_honest D.state D.failures disk.old disk.new }
{
    let Some(len) = settled_len(disk)? else {
        return Ok(None);
    };
    let found = read_front(alloc, disk, FileKind::Numbered(parity), len)?;
    set_right(disk, found.end, found.gate)?;
    Ok(Some(found))
}
