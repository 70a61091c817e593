//! Which logs a store's files say that they are, as a store is refused.

ghost use Rattle.std.specs.Prelude.{◌≡◌, ◌∷◌, [], IsTrue, IfOk, IfSome};
ghost use Rattle.mt_store_files.specs.{Labels.{IsLabelText, BeginsPlain, BeginsNumbered, Begins, LooksAt}, Strange.ComparesHeaders, Suspects.{has_no_header, is_suspect, no_suspects, suspects_of, Suspected}};
ghost use Rattle.mt_store_files.specs.{Faults.IsFileOf, FoundLogs.{files_of, files_up_to}};

use crate::file_report::first_byte;
use crate::folder::StoreFolder;
use crate::names::{FolderFile, StoreFile};
use crate::system::FolderSystem;
use mt_disk::{DeviceFailed, Disk};
use mt_gates::{OPEN, SHUT};
use mt_log_generations::{Parity, header_of};
use mt_rows::Refusal;
use std::alloc::Global;
use std::fmt;
use std::fs::File;
use std::rt::Files;

// So many logs a store may have.
const MAX_LOGS: u8 = 64;

/// Which log a file's header says that it is: of which worker, of how many logs.
#[derive(Clone, Copy, Debug, PartialEq, Eq)]
pub struct Label {
    pub worker: u8,
    pub logs: u8,
}

/// A file with the log of another worker, or of another number of them, than is expected there.
#[derive(Clone, Copy, Debug, PartialEq, Eq)]
pub struct StrangeLog {
    pub file: StoreFile,
    pub found: Label,
    pub expected: Label,
}

/// Those of the files of a worker's log in one of which the cause of a refusal is. If none is, it isn't known.
#[derive(Clone, Copy, Debug, PartialEq, Eq)]
pub struct Suspects {
    pub worker: usize,
    pub plain: bool,
    pub even: bool,
    pub odd: bool,
}

/// What a file of a log begins with.
#[derive(Clone, Copy, Debug, PartialEq, Eq)]
pub enum Beginning {
    /// No log: no byte, or a gate that isn't open; of a plain file a first byte 00.
    NoLog,
    /// The header of a log.
    Log(Label),
    /// Neither.
    NoHeader,
    /// It can't be read.
    Unread,
}

impl fmt::Display for Label {
    fn fmt<W: fmt::Write>(&self, f: &mut fmt::Formatter<W>) -> fmt::Result {
        let Label { worker, logs } = *self;
        write!(f, "log {worker} of {logs}")
    }
}

impl Suspects {
    /// No file of a worker's log.
    pub fn none(worker: usize) -> Suspects
        ensures { result ≡ no_suspects worker }
    {
        Suspects {
            worker,
            plain: false,
            even: false,
            odd: false,
        }
    }
}

impl<S: FolderSystem + Drop> StoreFolder<S> {
    /// Compares the headers in the files of so many workers' logs with what is expected there. The first that differs is the
    /// error. A file that has no log, or can't be read, is passed over. Nothing is made, written or removed.
    pub fn compare_headers<R: Files<File = File>>(
        &mut self,
        rt: &R,
        alloc: Global,
        logs: u8,
    ) -> Result<(), StrangeLog>
        ensures compared { ComparesHeaders S.File.is_honest S.File.state logs (files_up_to logs) result (S.calls self.old.system) (S.calls self.new.system) }
        ensures made { self.new.made ≡ self.old.made }
    {
        compare_logs(&mut self.system, rt, alloc, logs)
    }

    /// In which files of a worker's log the cause of a refusal may be: those that have a log, or can't be read. If a header
    /// is refused, and one of them has none, it is those without. Nothing is made, written or removed.
    pub fn suspects<R: Files<File = File>>(
        &mut self,
        rt: &R,
        alloc: Global,
        worker: usize,
        refusal: Refusal,
    ) -> Suspects
        ensures told { Suspected S.File.is_honest S.File.state worker refusal result (S.calls self.old.system) (S.calls self.new.system) }
        ensures made { self.new.made ≡ self.old.made }
    {
        let system = &mut self.system;
        let plain = look_at(system, rt, alloc, StoreFile::Log(worker));
        let even = look_at(system, rt, alloc, StoreFile::Numbered(worker, Parity::Even));
        let odd = look_at(system, rt, alloc, StoreFile::Numbered(worker, Parity::Odd));
        suspects_of(worker, refusal, plain, even, odd)
    }
}

// Compares the files of so many workers' logs.
fn compare_logs<R: Files<File = File>, S: FolderSystem>(
    system: &mut S,
    rt: &R,
    alloc: Global,
    logs: u8,
) -> Result<(), StrangeLog>
    ensures { ComparesHeaders S.File.is_honest S.File.state logs (files_up_to logs) result (S.calls system.old) (S.calls system.new) }
{
    for worker in 0..logs {
        compare_log(system, rt, alloc, Label { worker, logs })?;
    }
    Ok(())
}

// Compares the files of the log that is expected.
fn compare_log<R: Files<File = File>, S: FolderSystem>(
    system: &mut S,
    rt: &R,
    alloc: Global,
    expected: Label,
) -> Result<(), StrangeLog>
    ensures { ComparesHeaders S.File.is_honest S.File.state expected.logs (files_of expected.worker) result (S.calls system.old) (S.calls system.new) }
{
    let worker = usize::from(expected.worker);
    compare_file(system, rt, alloc, StoreFile::Log(worker), expected)?;
    compare_file(
        system,
        rt,
        alloc,
        StoreFile::Numbered(worker, Parity::Even),
        expected,
    )?;
    compare_file(
        system,
        rt,
        alloc,
        StoreFile::Numbered(worker, Parity::Odd),
        expected,
    )
}

// Compares the header in a file with the log that is expected there.
fn compare_file<R: Files<File = File>, S: FolderSystem>(
    system: &mut S,
    rt: &R,
    alloc: Global,
    file: StoreFile,
    expected: Label,
) -> Result<(), StrangeLog>
    requires { IsFileOf expected.worker file }
    ensures { ComparesHeaders S.File.is_honest S.File.state expected.logs (file ∷ []) result (S.calls system.old) (S.calls system.new) }
{
    match look_at(system, rt, alloc, file) {
        Beginning::Log(found) if found != expected => Err(StrangeLog {
            file,
            found,
            expected,
        }),
        _ => Ok(()),
    }
}

// What a file of the folder begins with.
fn look_at<R: Files<File = File>, S: FolderSystem>(
    system: &mut S,
    rt: &R,
    alloc: Global,
    file: StoreFile,
) -> Beginning
    ensures { LooksAt S.File.is_honest S.File.state file result (S.calls system.old) (S.calls system.new) }
{
    match system.open(rt, alloc, FolderFile::Store(file)) {
        Ok(Some(mut disk)) => beginning_of(file, &mut disk),
        Ok(None) => Beginning::NoLog,
        Err(_) => Beginning::Unread,
    }
}

// What a file begins with that stands on this disk.
fn beginning_of<D: Disk>(file: StoreFile, disk: &mut D) -> Beginning
    ensures { IsTrue (D.is_honest disk.old) → Begins file result (D.state disk.old).image }
{
    let read = match file {
        StoreFile::Log(_) => plain_beginning(disk),
        StoreFile::Numbered(_, parity) => numbered_beginning(parity, disk),
        StoreFile::Slot(_) => Ok(Beginning::NoLog),
    };
    read.unwrap_or(Beginning::Unread)
}

// What a plain file begins with.
fn plain_beginning<D: Disk>(disk: &mut D) -> Result<Beginning, DeviceFailed>
    ensures { IsTrue (D.is_honest disk.old) → IfOk result (λ beginning. BeginsPlain beginning (D.state disk.old).image) }
{
    if first_byte(disk)? == SHUT {
        return Ok(Beginning::NoLog);
    }
    let mut bytes = [0; 8];
    if disk.len()? < bytes.len() {
        return Ok(Beginning::NoHeader);
    }
    disk.read(0, &mut bytes)?;
    match plain_label(bytes) {
        Some(label) => Ok(Beginning::Log(label)),
        None => Ok(Beginning::NoHeader),
    }
}

// Which log a header of format 1 or 2 names.
fn plain_label(bytes: [u8; 8]) -> Option<Label>
    ensures { IfSome result (λ label. IsLabelText label bytes) }
{
    let (version, worker, logs) = (bytes[5], bytes[6], bytes[7]);
    let is_header = bytes == [b'M', b'T', b'L', b'O', b'G', version, worker, logs];
    if is_header && (1..=2).contains(&version) && worker < logs && logs <= MAX_LOGS {
        Some(Label { worker, logs })
    } else {
        None
    }
}

// What a numbered file of this parity begins with.
fn numbered_beginning<D: Disk>(parity: Parity, disk: &mut D) -> Result<Beginning, DeviceFailed>
    ensures { IsTrue (D.is_honest disk.old) → IfOk result (λ beginning. BeginsNumbered beginning (D.state disk.old).image) }
{
    if first_byte(disk)? != OPEN {
        return Ok(Beginning::NoLog);
    }
    let mut bytes = [0; 24];
    if disk.len()? <= bytes.len() {
        return Ok(Beginning::NoHeader);
    }
    disk.read(1, &mut bytes)?;
    match header_of(&bytes) {
        Ok(header) if Parity::of(header.generation) == parity => Ok(Beginning::Log(Label {
            worker: header.worker,
            logs: header.logs,
        })),
        _ => Ok(Beginning::NoHeader),
    }
}

// In which files the cause of a refusal may be, by what they begin with.
fn suspects_of(
    worker: usize,
    refusal: Refusal,
    plain: Beginning,
    even: Beginning,
    odd: Beginning,
) -> Suspects
    ensures { result ≡ suspects_of worker refusal plain even odd }
{
    let is_of_header = matches!(refusal, Refusal::BadLog { offset: 0, .. });
    let only = is_of_header && (has_no_header(plain) || has_no_header(even) || has_no_header(odd));
    Suspects {
        worker,
        plain: is_suspect(only, plain),
        even: is_suspect(only, even),
        odd: is_suspect(only, odd),
    }
}

// Whether a file begins with no header of a log, and isn't without a log.
fn has_no_header(beginning: Beginning) -> bool
    ensures { result ≡ has_no_header beginning }
{
    matches!(beginning, Beginning::NoHeader)
}

// Whether the cause may be in a file that begins so, or it is in those without a header alone.
fn is_suspect(only_headers: bool, beginning: Beginning) -> bool
    ensures { result ≡ is_suspect only_headers beginning }
{
    match beginning {
        Beginning::NoLog => false,
        Beginning::NoHeader => true,
        Beginning::Log(_) | Beginning::Unread => !only_headers,
    }
}
