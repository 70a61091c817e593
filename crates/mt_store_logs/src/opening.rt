//! The logs of a store made anew, or opened.

ghost use Rattle.std.specs.Prelude.{◌≡◌, ◌<◌, ◌≤◌, ◌^◌, length, vec_len, IfOk, IfErr, OnOk, OnErr};
ghost use Rattle.mt_store_logs.specs.{Opens.AreClosedOn, Places.{disk_in, worker_of, workers_of}, Recovers.slots_of, Taking.{OpensLogs, StopsOpening}};
ghost use Rattle.mt_store_logs.specs.Opens.{Makes, FailsToMake, MakesSpare, MakesFiles, FailsToMakeFiles, MakesLog, FailsToMakeLog, MakesAll, StopsMaking};

use crate::fault::LogRefusal;
use crate::store_log::StoreLog;
use crate::taking::{put_all, take_all};
use mt_chain_files::{Chains, Watch, open_chains};
use mt_checkpoint::SeenCheckpoint;
use mt_disk::{DeviceFailed, Disk};
use mt_log::LogFile;
use mt_log_files::{WorkerFiles, take_disk};
use mt_log_generations::create_spare;
use mt_recover::LogSlot;
use mt_rows::Refusal;
use mt_turns::WorkerLog;
use std::alloc::{AllocError, Global};

/// Closed logs on these files, one for each worker, in their order. Which generation is the last one is found when they are
/// opened: till then it is 0. An error, which is of memory, drops the files.
pub fn closed_logs<D: Disk + Drop>(
    alloc: Global,
    files: Vec<WorkerFiles<D>>,
) -> Result<Vec<StoreLog<D>>, AllocError>
    requires { vec_len files ≤ 64 }
    ensures logs { IfOk result (λ logs. AreClosedOn (vec_len files) files.items logs.items) }
    ensures count { IfOk result (λ logs. vec_len logs ≡ vec_len files) }
{
    let count = files.len() as u8;
    let mut logs = Vec::new(alloc);
    for one in files {
        let worker = logs.len() as u8;
        logs.push(StoreLog::new(WorkerLog::new(worker, count, 0, one)))?;
    }
    Ok(logs)
}

/// Makes the logs of a new store, each a plain file without batches and two spare files; whatever their disks held is lost.
/// An error is `Device`: one file of the log that it tells was not made, and is closed. Its files before that one are made,
/// and those after it are as they were. So it is with the logs before and after.
pub fn create_logs<D: Disk + Drop>(logs: &mut [StoreLog<D>]) -> Result<(), LogRefusal>
    requires some { 0 < length logs.old }
    requires few { length logs.old ≤ 64 }
    ensures workers { workers_of logs.new ≡ workers_of logs.old }
    ensures ok { OnOk result (MakesAll D.is_honest D.state D.failures logs.old logs.new) }
    ensures err { IfErr result (λ e. StopsMaking D.is_honest D.state D.failures e logs.old logs.new) }
{
    let count = logs.len();
    for place in 0..count {
        if let Err(_failed) = create_log(&mut logs[place], place as u8, count as u8) {
            return Err(LogRefusal::at(place, Refusal::Device));
        }
    }
    Ok(())
}

// Makes the log of one worker.
fn create_log<D: Disk + Drop>(
    log: &mut StoreLog<D>,
    worker: u8,
    count: u8,
) -> Result<(), DeviceFailed>
    requires worker { worker < count }
    requires few { count ≤ 64 }
    ensures worker { worker_of log.new ≡ worker_of log.old }
    ensures ok { OnOk result (MakesLog D.is_honest D.state D.failures worker count log.old log.new) }
    ensures err { OnErr result (FailsToMakeLog D.is_honest D.state D.failures worker count log.old log.new) }
{
    let mut files = log.take_files();
    let made = create_files(&mut files, worker, count);
    log.put_files(0, files);
    made
}

// Makes a plain log without batches, and two spare files.
fn create_files<D: Disk + Drop>(
    files: &mut WorkerFiles<D>,
    worker: u8,
    count: u8,
) -> Result<(), DeviceFailed>
    requires worker { worker < count }
    requires few { count ≤ 64 }
    ensures ok { OnOk result (MakesFiles D.is_honest D.state D.failures worker count files.old files.new) }
    ensures err { OnErr result (FailsToMakeFiles D.is_honest D.state D.failures worker count files.old files.new) }
{
    create_plain(&mut files.plain, worker, count)?;
    create_spare_in(&mut files.even)?;
    create_spare_in(&mut files.odd)
}

// Makes a spare file.
fn create_spare_in<D: Disk + Drop>(slot: &mut LogSlot<D>) -> Result<(), DeviceFailed>
    ensures ok { OnOk result (MakesSpare D.is_honest D.state D.failures (disk_in slot.old) slot.new) }
    ensures err { OnErr result (FailsToMake D.is_honest D.state D.failures (disk_in slot.old) slot.new) }
{
    match take_disk(slot) {
        Some(mut disk) => {
            let made = create_spare(&mut disk);
            *slot = LogSlot::Closed(disk);
            made
        }
        None => Err(DeviceFailed),
    }
}

// Makes a plain log.
fn create_plain<D: Disk + Drop>(
    slot: &mut LogSlot<D>,
    worker: u8,
    count: u8,
) -> Result<(), DeviceFailed>
    requires worker { worker < count }
    requires few { count ≤ 64 }
    ensures ok { OnOk result (Makes D.is_honest D.state D.failures worker count (disk_in slot.old) slot.new) }
    ensures err { OnErr result (FailsToMake D.is_honest D.state D.failures (disk_in slot.old) slot.new) }
{
    match take_disk(slot) {
        Some(disk) => create_on(disk, slot, worker, count),
        None => Err(DeviceFailed),
    }
}

// Makes a log on a disk, into an empty place.
fn create_on<D: Disk + Drop>(
    disk: D,
    slot: &mut LogSlot<D>,
    worker: u8,
    count: u8,
) -> Result<(), DeviceFailed>
    requires worker { worker < count }
    requires few { count ≤ 64 }
    ensures ok { OnOk result (Makes D.is_honest D.state D.failures worker count (Some disk) slot.new) }
    ensures err { OnErr result (FailsToMake D.is_honest D.state D.failures (Some disk) slot.new) }
{
    match LogFile::create(disk, worker, count) {
        Ok(log) => {
            *slot = LogSlot::Open(log);
            Ok(())
        }
        Err((failed, disk)) => {
            *slot = LogSlot::Closed(disk);
            Err(failed)
        }
    }
}

/// Opens the files of all logs, and gives the chains with which a recovery begins. It knows what was read of both slots, and
/// `mt_chain_files` says in which order the files are opened. The last log of each worker is the one that was read last. It is
/// open then. A batch that was kept is given up. `watch` is told how far that is.
///
/// An error is `Memory` of no log if there is no room for a list of files: then nothing has changed. It is `LogCount` of no
/// log if there are none, or more than 64: then too nothing has changed. Else it is that of `open_chains`, and tells the log
/// that is the cause, if it is one. Then it isn't known which log of each worker is the last one. No disk is lost, so it can
/// be called again.
pub fn open_logs<D: Disk + Drop, W: Watch>(
    alloc: Global,
    logs: &mut [StoreLog<D>],
    checkpoints: &[Option<SeenCheckpoint>; 2],
    watch: &mut W,
) -> Result<Chains, LogRefusal>
    ensures workers { workers_of logs.new ≡ workers_of logs.old }
    ensures ok { IfOk result (λ chains. OpensLogs D.is_honest D.state D.failures (slots_of checkpoints.now) logs.old logs.new chains) }
    ensures last { IfOk result (λ chains. chains.generation ≤ 2 ^ 59) }
    ensures err { IfErr result (λ e. StopsOpening D.is_honest D.state D.failures (slots_of checkpoints.now) e logs.old logs.new) }
{
    if logs.is_empty() || logs.len() > 64 {
        return Err(LogRefusal::of_all(Refusal::LogCount));
    }
    let mut files = match Vec::with_capacity(alloc, logs.len()) {
        Ok(files) => files,
        Err(_) => return Err(LogRefusal::of_all(Refusal::Memory)),
    };
    take_all(logs, &mut files);
    match open_chains(alloc, &mut files, checkpoints, watch) {
        Ok(chains) => {
            put_all(logs, files, chains.generation, &chains.begun);
            Ok(chains)
        }
        Err(fault) => {
            put_all(logs, files, 0, &[]);
            Err(LogRefusal::from(fault))
        }
    }
}
