//! Logs in memory that crash.

ghost use Rattle.std.specs.Prelude.{◌≡◌, ◌↔◌, true, false, IsTrue, IfOk, OnOk, OnErr};
ghost use Rattle.mt_disk.specs.{Disk.MayLeave, Mem.mem_state};
ghost use Rattle.mt_store_logs.specs.Places.{disk_in, worker_of, workers_of};
ghost use Rattle.mt_store_logs.specs.Crashes.{MayLeaveOn, MayLeaveLog, MayLeaveLogs, IsCrashedTo, IsCrashedOn, IsLeftOn, EachFile, IsCrashed, IsLeftOrCrashed, AreCrashed, AreLeftOrCrashed};

use crate::store_log::StoreLog;
use mt_disk::MemDisk;
use mt_log_files::{WorkerFiles, take_disk};
use mt_recover::LogSlot;
use std::alloc::{AllocError, Global};

/// What is found of a worker's three files after a crash.
#[derive(Debug, Drop)]
pub struct FileImages {
    pub plain: Vec<u8>,
    pub even: Vec<u8>,
    pub odd: Vec<u8>,
}

/// Crashes all disks of logs in memory: each is found with its image, its file is closed, and no batch is kept. False if
/// there are not as many images, or one is none that a crash may leave now: then nothing has changed. After an error some
/// files have crashed, and the others have the disks that they had.
pub fn crash_logs(
    alloc: Global,
    logs: &mut [StoreLog<MemDisk>],
    images: &[FileImages],
) -> Result<bool, AllocError>
    ensures workers { workers_of logs.new ≡ workers_of logs.old }
    ensures crashed { IfOk result (λ crashed. crashed ≡ true → AreCrashed images.now logs.old logs.new) }
    ensures unchanged { IfOk result (λ crashed. crashed ≡ false → (logs.new ≡ logs.old) × (¬ MayLeaveLogs images.now logs.old)) }
    ensures err { OnErr result (AreLeftOrCrashed images.now logs.old logs.new) }
{
    if !may_leave(logs, images) {
        return Ok(false);
    }
    for place in 0..logs.len() {
        crash_log(alloc, &mut logs[place], &images[place])?;
    }
    Ok(true)
}

// Whether a crash now may leave these images.
fn may_leave(logs: &[StoreLog<MemDisk>], images: &[FileImages]) -> bool
    ensures { IsTrue result ↔ MayLeaveLogs images.now logs.now }
{
    if logs.len() != images.len() {
        return false;
    }
    for place in 0..logs.len() {
        if !may_leave_log(&logs[place], &images[place]) {
            return false;
        }
    }
    true
}

// Whether a crash now may leave these images of a worker's files.
fn may_leave_log(log: &StoreLog<MemDisk>, images: &FileImages) -> bool
    ensures { IsTrue result ↔ MayLeaveLog images.now log.now }
{
    let files = log.log().files();
    may_leave_file(&files.plain, &images.plain)
        && may_leave_file(&files.even, &images.even)
        && may_leave_file(&files.odd, &images.odd)
}

// Whether a crash now may leave this image of a file.
fn may_leave_file(file: &LogSlot<MemDisk>, image: &[u8]) -> bool
    ensures { IsTrue result ↔ MayLeaveOn image.now (disk_in file.now) }
{
    match file {
        LogSlot::Open(log) => log.disk().may_leave(image),
        LogSlot::Failed(log) => log.disk().may_leave(image),
        LogSlot::Closed(disk) => disk.may_leave(image),
        LogSlot::Away => false,
    }
}

// Crashes the files of one worker.
fn crash_log(
    alloc: Global,
    log: &mut StoreLog<MemDisk>,
    images: &FileImages,
) -> Result<(), AllocError>
    requires { MayLeaveLog images.now log.old }
    ensures worker { worker_of log.new ≡ worker_of log.old }
    ensures ok { OnOk result (IsCrashed images.now log.old log.new) }
    ensures err { OnErr result (IsLeftOrCrashed images.now log.old log.new) }
{
    let generation = log.generation();
    let mut files = log.take_files();
    let crashed = crash_files(alloc, &mut files, images);
    log.put_files(generation, files);
    crashed
}

// Crashes three files.
fn crash_files(
    alloc: Global,
    files: &mut WorkerFiles<MemDisk>,
    images: &FileImages,
) -> Result<(), AllocError>
    requires plain { MayLeaveOn images.now.plain.items (disk_in files.old.plain) }
    requires even { MayLeaveOn images.now.even.items (disk_in files.old.even) }
    requires odd { MayLeaveOn images.now.odd.items (disk_in files.old.odd) }
    ensures ok { OnOk result (EachFile (λ image was is. IsCrashedOn image (disk_in was) is) images.now files.old files.new) }
    ensures err { OnErr result (EachFile IsLeftOn images.now files.old files.new) }
{
    crash_file(alloc, &mut files.plain, &images.plain)?;
    crash_file(alloc, &mut files.even, &images.even)?;
    crash_file(alloc, &mut files.odd, &images.odd)
}

// Crashes one file.
fn crash_file(alloc: Global, file: &mut LogSlot<MemDisk>, image: &[u8]) -> Result<(), AllocError>
    requires { MayLeaveOn image.now (disk_in file.old) }
    ensures ok { OnOk result (IsCrashedOn image.now (disk_in file.old) file.new) }
    ensures err { OnErr result (disk_in file.new ≡ disk_in file.old) }
{
    let image = image.to_vec(alloc)?;
    match take_disk(file) {
        Some(disk) => crash_disk(disk, image, file),
        None => unreachable!(),
    }
}

// Crashes a disk, into an empty place.
fn crash_disk(
    mut disk: MemDisk,
    image: Vec<u8>,
    slot: &mut LogSlot<MemDisk>,
) -> Result<(), AllocError>
    requires { MayLeave (mem_state disk).now image.items }
    ensures ok { OnOk result (IsCrashedTo image.items disk slot.new) }
    ensures err { OnErr result (slot.new ≡ LogSlot.Closed disk) }
{
    let crashed = disk.crash(image);
    *slot = LogSlot::Closed(disk);
    crashed
}
