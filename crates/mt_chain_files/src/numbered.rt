//! The numbered files of all workers, opened if they count.

ghost use Rattle.std.specs.{Prelude.{◌≡◌, ◌<◌, ◌≤◌, [], map, length, vec_capacity, IfOk, IfErr, OnOk}, Option.option_map};
ghost use Rattle.mt_recover.specs.Pairs.{view_of};
ghost use Rattle.mt_chain_files.specs.Numbered.{OpensFrom, FailsFrom, OpensWorker, FailsToOpenWorker, OpensNumberedFiles, StopsNumberedFiles};
ghost use Rattle.mt_chain_files.specs.Rounds.{OpensCounting, StopsCounting, ReadsNumbered, StopsNumbered};

use crate::fault::FilesFault;
use crate::headers::{Told, first_counting, look_at_files};
use crate::watching::Watch;
use mt_chains::{WorkerLogs, choose};
use mt_checkpoint::SeenCheckpoint;
use mt_disk::Disk;
use mt_log::Front;
use mt_log_files::{WorkerFiles, open_numbered};
use mt_log_generations::Parity;
use mt_recover::LogSlot;
use mt_rows::Refusal;
use std::alloc::Global;

/// Opens the numbered files of each worker that count, in the order of the workers, and gives what they have. The headers of
/// all are read first. At first a file counts if its log is not older than the latest log of some worker. All files count
/// if there is no choice by these. Of a file that does not count the header alone is read. No plain file is opened. `watch`
/// is told of each worker whose files are open.
///
/// An error is `Memory` of no worker if there is no room for what is read. Else it tells the worker with the file that was
/// not opened, and why. The files of those after it are as they were before. No disk is lost.
pub fn open_numbered_files<D: Disk + Drop, W: Watch>(
    alloc: Global,
    files: &mut [WorkerFiles<D>],
    checkpoints: &[Option<SeenCheckpoint>],
    watch: &mut W,
) -> Result<Vec<WorkerLogs>, FilesFault>
    requires { 0 < length files.old }
    ensures ok { IfOk result (λ logs. ReadsNumbered D.is_honest D.state D.failures (map (option_map view_of) checkpoints.now) files.old files.new logs.items) }
    ensures err { IfErr result (λ e. StopsNumbered D.is_honest D.state D.failures (map (option_map view_of) checkpoints.now) e files.old files.new) }
{
    let told = look_at_files(alloc, files)?;
    open_counting(alloc, files, &told, checkpoints, watch)
}

// Opens those that count, by what all headers tell.
fn open_counting<D: Disk + Drop, W: Watch>(
    alloc: Global,
    files: &mut [WorkerFiles<D>],
    told: &[Told],
    checkpoints: &[Option<SeenCheckpoint>],
    watch: &mut W,
) -> Result<Vec<WorkerLogs>, FilesFault>
    requires some { 0 < length files.old }
    requires count { length told.now ≡ length files.old }
    ensures ok { IfOk result (λ logs. OpensCounting D.is_honest D.state D.failures (map (option_map view_of) checkpoints.now) told.now files.old files.new logs.items) }
    ensures err { IfErr result (λ e. StopsCounting D.is_honest D.state D.failures (map (option_map view_of) checkpoints.now) told.now e files.old files.new) }
{
    let from = first_counting(told);
    let logs = open_from(alloc, files, told, from, watch)?;
    if from <= 1 || choose(&logs, checkpoints).is_some() {
        return Ok(logs);
    }
    drop(logs);
    open_from(alloc, files, told, 0, watch)
}

// Opens those that count if files do from a generation on. An error is `Memory` of no worker, and nothing has changed, or
// tells the worker with the file that was not opened.
fn open_from<D: Disk + Drop, W: Watch>(
    alloc: Global,
    files: &mut [WorkerFiles<D>],
    told: &[Told],
    from: u64,
    watch: &mut W,
) -> Result<Vec<WorkerLogs>, FilesFault>
    requires { length told.now ≡ length files.old }
    ensures ok { IfOk result (λ logs. OpensNumberedFiles D.is_honest D.state D.failures from told.now files.old files.new logs.items) }
    ensures err { IfErr result (λ e. StopsNumberedFiles D.is_honest D.state D.failures from told.now e files.old files.new) }
{
    let mut logs = match Vec::with_capacity(alloc, files.len()) {
        Ok(logs) => logs,
        Err(_) => return Err(FilesFault::of_all(Refusal::Memory)),
    };
    match open_all(alloc, files, told, from, &mut logs, watch) {
        Ok(()) => Ok(logs),
        Err(fault) => Err(fault),
    }
}

// The same, into a list with room for all.
fn open_all<D: Disk + Drop, W: Watch>(
    alloc: Global,
    files: &mut [WorkerFiles<D>],
    told: &[Told],
    from: u64,
    logs: &mut Vec<WorkerLogs>,
    watch: &mut W,
) -> Result<(), FilesFault>
    requires told { length told.now ≡ length files.old }
    requires none { logs.old.items ≡ [] }
    requires room { length files.old ≤ vec_capacity logs.old }
    ensures ok { OnOk result (OpensNumberedFiles D.is_honest D.state D.failures from told.now files.old files.new logs.new.items) }
    ensures err { IfErr result (λ e. StopsNumberedFiles D.is_honest D.state D.failures from told.now e files.old files.new) }
{
    for place in 0..files.len() {
        match open_both(alloc, &mut files[place], &told[place], from) {
            Ok(worker) => logs.push_reserved(worker),
            Err(refusal) => return Err(FilesFault::at(place, refusal)),
        }
        watch.opened_numbered(place + 1, files.len());
    }
    Ok(())
}

// Opens the numbered files of one worker that count.
fn open_both<D: Disk + Drop>(
    alloc: Global,
    files: &mut WorkerFiles<D>,
    told: &Told,
    from: u64,
) -> Result<WorkerLogs, Refusal>
    ensures ok { IfOk result (OpensWorker D.is_honest D.state D.failures from told.now files.old files.new) }
    ensures err { IfErr result (λ e. FailsToOpenWorker D.is_honest D.state D.failures from told.now e files.old files.new) }
{
    let even = open_told(alloc, &mut files.even, Parity::Even, told.even, from)?;
    let odd = open_told(alloc, &mut files.odd, Parity::Odd, told.odd, from)?;
    Ok(WorkerLogs {
        plain: None,
        numbered: [even, odd],
    })
}

// Opens a file if it counts.
fn open_told<D: Disk + Drop>(
    alloc: Global,
    slot: &mut LogSlot<D>,
    parity: Parity,
    told: u64,
    from: u64,
) -> Result<Option<Front>, Refusal>
    ensures ok { IfOk result (OpensFrom D.is_honest D.state D.failures from told parity slot.old slot.new) }
    ensures err { IfErr result (λ e. FailsFrom D.is_honest D.state D.failures from told parity e slot.old slot.new) }
{
    if 0 < told && told < from && Parity::of(told) == parity {
        return Ok(None);
    }
    open_numbered(alloc, slot, parity)
}
