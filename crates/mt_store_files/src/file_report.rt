//! What a file of a store has, as it is printed.

ghost use Rattle.std.specs.Prelude.{◌≡◌, IsTrue, IfOk, IfSome, slice_index_or};
ghost use Rattle.mt_store_files.specs.Reports.{OnlyLooks, HoldsIn, HoldsCheckpoint, HoldsNumbered, HoldsPlain, IsReported, Compares};

use crate::fault::StoreFault;
use crate::names::{FolderFile, StoreFile};
use crate::system::FolderSystem;
use mt_checkpoint::look_at;
use mt_digests::{agrees, read_digest};
use mt_disk::{DeviceFailed, Disk};
use mt_log_generations::{Header, HeaderFault, read_header};
use std::alloc::Global;
use std::fmt;
use std::fs::File;
use std::rt::Files;

/// A file that is there, with what it has, and its length.
#[derive(Clone, Copy, Debug)]
pub struct FileReport {
    file: StoreFile,
    holding: Holding,
    bytes: usize,
    digest: Comparison,
}

/// What comes of comparing a file with its digest.
#[derive(Clone, Copy, Debug)]
pub enum Comparison {
    /// There is none, or it can't be read.
    NoDigest,
    Agrees,
    Differs,
}

/// What a file has. What stands in a log isn't looked at.
#[derive(Clone, Copy, Debug)]
pub enum Holding {
    Checkpoint { first: u64, last: u64 },
    NoCheckpoint,
    /// What a plain file has that wasn't given up: the first log of this worker.
    FirstLog(usize),
    Log(Header),
    NoLog,
    /// Its gate is open, and no header follows.
    NoHeader,
    Unread,
}

impl fmt::Display for Holding {
    fn fmt<W: fmt::Write>(&self, f: &mut fmt::Formatter<W>) -> fmt::Result {
        match self {
            Holding::Checkpoint { first, last } => {
                write!(f, "a checkpoint of steps {first} to {last}")
            }
            Holding::NoCheckpoint => f.write_str("no checkpoint"),
            Holding::FirstLog(worker) => write!(f, "the first log of worker {worker}"),
            Holding::Log(
                Header {
                    worker,
                    generation,
                    start,
                    ..
                },
            ) => write!(
                f,
                "the log of worker {worker}, generation {generation}, from step {start}"
            ),
            Holding::NoLog => f.write_str("no log"),
            Holding::NoHeader => f.write_str("no header after an open gate"),
            Holding::Unread => f.write_str("it can't be read"),
        }
    }
}

impl fmt::Display for Comparison {
    fn fmt<W: fmt::Write>(&self, f: &mut fmt::Formatter<W>) -> fmt::Result {
        f.write_str(match self {
            Comparison::NoDigest => "has no digest",
            Comparison::Agrees => "agrees with its digest",
            Comparison::Differs => "isn't what was written, by its digest",
        })
    }
}

impl fmt::Display for FileReport {
    fn fmt<W: fmt::Write>(&self, f: &mut fmt::Formatter<W>) -> fmt::Result {
        let FileReport {
            file,
            holding,
            bytes,
            digest,
        } = *self;
        match holding {
            Holding::NoCheckpoint | Holding::NoLog | Holding::Unread => {
                write!(f, "{file}: {holding}")
            }
            _ => write!(f, "{file}: {holding}, {bytes} bytes, {digest}"),
        }
    }
}

/// What a file of a folder has, if it is there.
pub fn report_on<R: Files<File = File>, S: FolderSystem>(
    system: &mut S,
    rt: &R,
    alloc: Global,
    file: StoreFile,
) -> Option<FileReport>
    ensures looks { OnlyLooks (S.calls system.old) (S.calls system.new) }
    ensures told { IfSome result (IsReported S.File.is_honest S.File.state S.File.failures file (S.calls system.old) (S.calls system.new)) }
{
    match find_report(system, rt, alloc, file) {
        Ok(report) => report,
        Err(_) => Some(FileReport {
            file,
            holding: Holding::Unread,
            bytes: 0,
            digest: Comparison::NoDigest,
        }),
    }
}

// What a file has, if it is there. The fault is that it can't be opened, or its digest file.
fn find_report<R: Files<File = File>, S: FolderSystem>(
    system: &mut S,
    rt: &R,
    alloc: Global,
    file: StoreFile,
) -> Result<Option<FileReport>, StoreFault>
    ensures looks { OnlyLooks (S.calls system.old) (S.calls system.new) }
    ensures told { IfOk result (λ report. IfSome report (IsReported S.File.is_honest S.File.state S.File.failures file (S.calls system.old) (S.calls system.new))) }
{
    let Some(mut disk) = system.open(rt, alloc, FolderFile::Store(file))? else {
        return Ok(None);
    };
    let holding = holding_of(alloc, file, &mut disk);
    let bytes = disk.len().unwrap_or(0);
    let digest = find_comparison(system, rt, alloc, file, &mut disk)?;
    Ok(Some(FileReport {
        file,
        holding,
        bytes,
        digest,
    }))
}

// What comes of comparing a file with its digest file, if that is there.
fn find_comparison<R: Files<File = File>, S: FolderSystem>(
    system: &mut S,
    rt: &R,
    alloc: Global,
    file: StoreFile,
    disk: &mut S::File,
) -> Result<Comparison, StoreFault>
    ensures { OnlyLooks (S.calls system.old) (S.calls system.new) }
{
    let Some(mut digests) = system.open(rt, alloc, FolderFile::Digest(file))? else {
        return Ok(Comparison::NoDigest);
    };
    Ok(compare(alloc, disk, &mut digests))
}

// What a file has that stands on this disk.
fn holding_of<D: Disk>(alloc: Global, file: StoreFile, disk: &mut D) -> Holding
    ensures { HoldsIn D.is_honest D.state D.failures file disk.old disk.new result }
{
    match file {
        StoreFile::Slot(_) => slot_holding(alloc, disk),
        StoreFile::Numbered(_, _) => numbered_holding(disk),
        StoreFile::Log(worker) => plain_holding(worker, disk),
    }
}

// What the file of a slot has.
fn slot_holding<D: Disk>(alloc: Global, disk: &mut D) -> Holding
    ensures { HoldsCheckpoint D.is_honest D.state D.failures disk.old disk.new result }
{
    match look_at(alloc, disk) {
        Ok(Some(seen)) => Holding::Checkpoint {
            first: seen.first(),
            last: seen.last(),
        },
        Ok(None) => Holding::NoCheckpoint,
        Err(_) => Holding::Unread,
    }
}

// What a numbered file has.
fn numbered_holding<D: Disk>(disk: &mut D) -> Holding
    ensures { HoldsNumbered D.is_honest D.state D.failures disk.old disk.new result }
{
    match read_header(disk) {
        Ok(Some(header)) => Holding::Log(header),
        Ok(None) => Holding::NoLog,
        Err(HeaderFault::Bad(_)) => Holding::NoHeader,
        Err(HeaderFault::Device) => Holding::Unread,
    }
}

// What the plain file of a worker has: no log, if it has no byte or was given up.
fn plain_holding<D: Disk>(worker: usize, disk: &mut D) -> Holding
    ensures { HoldsPlain worker result }
{
    match first_byte(disk) {
        Ok(0) => Holding::NoLog,
        Ok(_) => Holding::FirstLog(worker),
        Err(DeviceFailed) => Holding::Unread,
    }
}

/// The first byte of a file, 0 if it has none.
pub(crate) fn first_byte<D: Disk>(disk: &mut D) -> Result<u8, DeviceFailed>
    ensures told { IsTrue (D.is_honest disk.old) → IfOk result (λ byte. byte ≡ slice_index_or (D.state disk.old).image 0 0) }
    ensures same { IsTrue (D.is_honest disk.old) → D.state disk.new ≡ D.state disk.old }
    ensures honest { D.is_honest disk.new ≡ D.is_honest disk.old }
{
    let mut first = [0];
    if disk.len()? != 0 {
        disk.read(0, &mut first)?;
    }
    Ok(first[0])
}

// A file compared with its digest file.
fn compare<D: Disk>(alloc: Global, disk: &mut D, digests: &mut D) -> Comparison
    ensures { Compares D.is_honest D.state disk.old digests.old result }
{
    let has_digest = matches!(read_digest(digests), Ok(Some(_)));
    match agrees(alloc, disk, digests) {
        Ok(true) if has_digest => Comparison::Agrees,
        Ok(false) => Comparison::Differs,
        _ => Comparison::NoDigest,
    }
}
