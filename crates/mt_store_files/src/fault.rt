//! Why a store isn't served.

ghost use Rattle.std.specs.Prelude.{◌≡◌};
ghost use Rattle.mt_store_files.specs.{Faults.{refusal_of, status_of, IsOfDisk}, declared.fault.StoreFault.TheVariants.{Memory as MemoryFault}};

use crate::labels::{StrangeLog, Suspects};
use crate::names::{FolderFile, StoreFile};
use mt_disk::{Disk, SystemError};
use mt_log_generations::Parity;
use mt_rows::Refusal;
use std::alloc::{AllocError, AllocFailed};
use std::error::Error;
use std::{fmt, io};

/// How many logs a folder has, and for how many workers they were asked for.
#[derive(Clone, Copy, Debug, PartialEq, Eq)]
pub struct LogCounts {
    pub logs: u8,
    pub workers: u8,
}

/// Why the store of a folder isn't served. It is printed with the folder, as a `FolderFault`.
#[derive(Debug, Drop)]
pub enum StoreFault {
    /// Another server has the folder open.
    InUse,
    /// There is no such folder.
    NoFolder,
    /// The file of this worker's log is missing.
    NoLog(u8, LogCounts),
    /// The system failed, at this file or else at the folder.
    System(Option<FolderFile>, io::Error),
    /// A growth was refused.
    Memory,
    /// The logs aren't those that they name themselves.
    LogCount(LogCounts),
    /// The same, and this is the first file whose header names another log than the one of its place.
    Strange(StrangeLog, LogCounts),
    /// The same, of a store in which these files were missing.
    Missing(Vec<StoreFile>),
    /// What stands in this file was refused, or that of all logs together.
    Refused(Option<StoreFile>, Refusal),
    /// The log of a worker was refused, in one of these files.
    RefusedLog(Suspects, Refusal),
    /// The device failed at this file, for this cause if the system told it.
    Device(FolderFile, Option<SystemError>),
    /// This file isn't what was written, by its digest.
    Spoiled(StoreFile),
}

impl StoreFault {
    /// The refusal by whose number it is told.
    pub fn refusal(&self) -> Refusal
        ensures { result ≡ refusal_of self.now }
    {
        match self {
            StoreFault::InUse | StoreFault::System(_, _) | StoreFault::Device(_, _) => {
                Refusal::Device
            }
            StoreFault::NoFolder
            | StoreFault::NoLog(_, _)
            | StoreFault::LogCount(_)
            | StoreFault::Strange(_, _)
            | StoreFault::Missing(_)
            | StoreFault::Spoiled(_) => Refusal::LogCount,
            StoreFault::Memory => Refusal::Memory,
            StoreFault::Refused(_, refusal) | StoreFault::RefusedLog(_, refusal) => *refusal,
        }
    }

    /// Why a disk failed on which this file stands: for want of memory, or its device.
    pub(crate) fn of_disk<D: Disk>(file: FolderFile, disk: &D) -> StoreFault
        ensures { IsOfDisk (D.was_refused disk.now) file result }
    {
        match disk.last_error() {
            Some(SystemError::OutOfMemory) => StoreFault::Memory,
            error => StoreFault::Device(file, error),
        }
    }

    /// The exit status: 1 where the device or memory failed, 3 where the store is refused.
    pub fn status(&self) -> u8
        ensures { result ≡ status_of self.now }
    {
        match self {
            StoreFault::System(_, _)
            | StoreFault::Memory
            | StoreFault::Device(_, _)
            | StoreFault::Refused(_, Refusal::Device | Refusal::Memory)
            | StoreFault::RefusedLog(_, Refusal::Device | Refusal::Memory) => 1,
            StoreFault::InUse
            | StoreFault::NoFolder
            | StoreFault::NoLog(_, _)
            | StoreFault::LogCount(_)
            | StoreFault::Strange(_, _)
            | StoreFault::Missing(_)
            | StoreFault::Refused(_, _)
            | StoreFault::RefusedLog(_, _)
            | StoreFault::Spoiled(_) => 3,
        }
    }
}

/// Why the store of this folder isn't served. It is printed as its refusal's number, which file or folder it
/// is, and what to do.
#[derive(Debug, Drop)]
pub struct FolderFault {
    pub folder: String,
    pub fault: StoreFault,
}

// So many of this.
#[derive(Clone, Copy)]
struct Count(u8, &'static str);

impl fmt::Display for Count {
    fn fmt<W: fmt::Write>(&self, f: &mut fmt::Formatter<W>) -> fmt::Result {
        let Count(count, of) = *self;
        if count == 1 {
            write!(f, "1 {of}")
        } else {
            write!(f, "{count} {of}s")
        }
    }
}

impl fmt::Display for LogCounts {
    fn fmt<W: fmt::Write>(&self, f: &mut fmt::Formatter<W>) -> fmt::Result {
        let (logs, workers) = (Count(self.logs, "log"), Count(self.workers, "worker"));
        write!(f, "the folder has {logs} for {workers}")
    }
}

// A file, one of the files of a worker's log, or the folder.
#[derive(Clone, Copy)]
enum Place<'a> {
    File(&'a str, FolderFile),
    Log(&'a str, Suspects),
    Folder(&'a str),
}

impl<'a> Place<'a> {
    // A file of the store.
    fn of(folder: &'a str, file: StoreFile) -> Self {
        Place::File(folder, FolderFile::Store(file))
    }
}

impl fmt::Display for Place<'_> {
    fn fmt<W: fmt::Write>(&self, f: &mut fmt::Formatter<W>) -> fmt::Result {
        match *self {
            Place::File(folder, file) => write!(f, "'{folder}/{file}'"),
            Place::Log(folder, suspects) => write_suspects(f, folder, suspects),
            Place::Folder(folder) => write!(f, "the folder '{folder}'"),
        }
    }
}

// The files of a worker's log in which the cause may be; or the log, if none of them is known to be it.
fn write_suspects<W: fmt::Write>(
    f: &mut fmt::Formatter<W>,
    folder: &str,
    suspects: Suspects,
) -> fmt::Result {
    let Suspects {
        worker,
        plain,
        even,
        odd,
    } = suspects;
    let mut before = "";
    for (is_one, file) in [
        (plain, StoreFile::Log(worker)),
        (even, StoreFile::Numbered(worker, Parity::Even)),
        (odd, StoreFile::Numbered(worker, Parity::Odd)),
    ] {
        if is_one {
            write!(f, "{before}'{folder}/{file}'")?;
            before = " or ";
        }
    }
    if before.is_empty() {
        write!(f, "the log of worker {worker} in '{folder}'")?;
    }
    Ok(())
}

// Files that are missing, which a store had.
#[derive(Clone, Copy)]
struct MissingFiles<'a>(&'a str, &'a [StoreFile]);

impl fmt::Display for MissingFiles<'_> {
    fn fmt<W: fmt::Write>(&self, f: &mut fmt::Formatter<W>) -> fmt::Result {
        let MissingFiles(folder, files) = *self;
        let mut before = "";
        for file in files {
            write!(f, "{before}{}", Place::of(folder, *file))?;
            before = ", ";
        }
        let is = if files.len() == 1 { "is" } else { "are" };
        write!(f, " {is} missing, which this store had")
    }
}

// A file of the store, or else the folder.
fn place_of(folder: &str, file: Option<StoreFile>) -> Place<'_> {
    match file {
        Some(file) => Place::of(folder, file),
        None => Place::Folder(folder),
    }
}

impl fmt::Display for FolderFault {
    fn fmt<W: fmt::Write>(&self, f: &mut fmt::Formatter<W>) -> fmt::Result {
        let number = self.fault.refusal();
        let folder = self.folder.as_str();
        match &self.fault {
            StoreFault::InUse => write!(
                f,
                "{number}: another server has '{folder}' open: end that one, or name another folder"
            ),
            StoreFault::NoFolder => write!(
                f,
                "{number}: there is no folder '{folder}': name the store's, or make a new store by --create"
            ),
            StoreFault::NoLog(worker, counts) => {
                let place = Place::of(folder, StoreFile::Log(usize::from(*worker)));
                write!(
                    f,
                    "{number}: {place} is missing; {counts}: {}",
                    remedy(*counts)
                )
            }
            StoreFault::System(None, error) => {
                write!(f, "{number}: {}: {error}", Place::Folder(folder))
            }
            StoreFault::System(Some(file), error) => {
                write!(f, "{number}: {}: {error}", Place::File(folder, *file))
            }
            StoreFault::Memory => write!(f, "{number}: out of memory"),
            StoreFault::LogCount(counts) => write!(
                f,
                "{number}: the logs of '{folder}' aren't all of one store; {counts}: {}",
                remedy(*counts)
            ),
            StoreFault::Strange(
                StrangeLog {
                    file,
                    found,
                    expected,
                },
                counts,
            ) => {
                let place = Place::of(folder, *file);
                write!(
                    f,
                    "{number}: {place} is {found}, and {expected} was expected there: {}",
                    remedy(*counts)
                )
            }
            StoreFault::Missing(files) => {
                let missing = MissingFiles(folder, files.as_slice());
                write!(f, "{number}: {missing}: {ALL_BACK}")
            }
            StoreFault::Refused(file, refusal) => {
                told(f, folder, place_of(folder, *file), *refusal)
            }
            StoreFault::RefusedLog(suspects, refusal) => {
                told(f, folder, Place::Log(folder, *suspects), *refusal)
            }
            StoreFault::Device(file, None) => {
                told(f, folder, Place::File(folder, *file), number)
            }
            StoreFault::Device(file, Some(error)) => {
                let place = Place::File(folder, *file);
                write!(f, "{number}: {place}: the device failed: {error}")
            }
            StoreFault::Spoiled(file) => {
                let digest = Place::File(folder, FolderFile::Digest(*file));
                let file = Place::of(folder, *file);
                write!(
                    f,
                    "{number}: {file} isn't what was written, by its digest in {digest}: {ALL_BACK}, or remove the digest to serve what is there"
                )
            }
        }
    }
}

// What to do about a store of which a file is lost.
const ALL_BACK: &str = "put all files back from one backup";

// What to do about logs that are missing, or that aren't those of one store.
fn remedy(counts: LogCounts) -> &'static str {
    if counts.logs == 0 {
        "name the store's folder, or make a new store by --create"
    } else if counts.logs == counts.workers {
        ALL_BACK
    } else {
        "start with as many --workers as the store was made with, or put all files back from one backup"
    }
}

// Which file, log or folder it is, and what to do.
fn told<W: fmt::Write>(
    f: &mut fmt::Formatter<W>,
    folder: &str,
    place: Place<'_>,
    refusal: Refusal,
) -> fmt::Result {
    match refusal {
        Refusal::Memory => write!(f, "{refusal}: out of memory"),
        Refusal::NoTenant(tenant) => write!(
            f,
            "{refusal}: the store in '{folder}' has pairs of tenant {tenant}, which isn't named: name each of its tenants"
        ),
        Refusal::Device => write!(
            f,
            "{refusal}: {place}: the device failed: see what the system says of it, and start again"
        ),
        Refusal::BadLog { offset, .. } => write!(
            f,
            "{refusal}: {place} is no log from byte {offset} on: put all files back from one backup"
        ),
        Refusal::StampsFall { stamp, .. } => write!(
            f,
            "{refusal}: {place} doesn't go with the other logs at step {stamp}: put all files back from one backup"
        ),
        Refusal::OverQuota(tenant) => write!(
            f,
            "{refusal}: tenant {tenant} has more pairs in '{folder}' than its quota: give it a greater one"
        ),
        Refusal::LogCount => write!(
            f,
            "{refusal}: the logs of '{folder}' aren't all of one store: start with as many --workers as it was made with"
        ),
        _ => write!(f, "{refusal}: {place} is refused"),
    }
}

impl Error for FolderFault {}

impl From<AllocError> for StoreFault {
    ghost from_gives = { λ _ e. e ≡ MemoryFault };

    fn from(_e: AllocError) -> StoreFault {
        StoreFault::Memory
    }
}

impl<T: Drop> From<AllocFailed<T>> for StoreFault {
    ghost from_gives = { λ _ e. e ≡ MemoryFault };

    fn from(_e: AllocFailed<T>) -> StoreFault {
        StoreFault::Memory
    }
}
