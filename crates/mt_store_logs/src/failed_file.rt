//! The file of a worker's log whose disk failed, and why.

ghost use Rattle.std.specs.Prelude.{◌≡◌, ◌+◌};
ghost use Rattle.mt_log_files.specs.Slots.{disk_in};
ghost use Rattle.mt_store_logs.specs.{Kinds.kind_of, FailedFiles.{is_refusal, told_by, was_refused_at, was_refused_to}};

use mt_disk::{Disk, SystemError};
use mt_log::FileKind;
use mt_log_files::WorkerFiles;
use mt_log_generations::Parity;
use mt_recover::LogSlot;
use mt_rows::Refusal;

/// A file of a worker's log, and why the last call that failed of its disk did so, if the system told it.
#[derive(Clone, Copy)]
pub struct FailedFile {
    pub kind: FileKind,
    pub error: Option<SystemError>,
}

impl FailedFile {
    // The file of a generation.
    pub(crate) fn of<D: Disk>(files: &WorkerFiles<D>, generation: u64) -> FailedFile
        ensures kind { result.kind ≡ kind_of generation }
        ensures refused { is_refusal result.error ≡ was_refused_at D.was_refused generation files.now }
    {
        if generation == 0 {
            return FailedFile::at(&files.plain, FileKind::Plain);
        }
        if generation % 2 == 0 {
            FailedFile::at(&files.even, FileKind::Numbered(Parity::Even))
        } else {
            FailedFile::at(&files.odd, FileKind::Numbered(Parity::Odd))
        }
    }

    // The file of the generation after this one.
    pub(crate) fn after<D: Disk>(files: &WorkerFiles<D>, generation: u64) -> FailedFile
        ensures kind { result.kind ≡ kind_of (generation + 1) }
        ensures refused { is_refusal result.error ≡ was_refused_at D.was_refused (generation + 1) files.now }
    {
        if generation % 2 == 0 {
            FailedFile::at(&files.odd, FileKind::Numbered(Parity::Odd))
        } else {
            FailedFile::at(&files.even, FileKind::Numbered(Parity::Even))
        }
    }

    // The file of a kind, at its place.
    fn at<D: Disk>(slot: &LogSlot<D>, kind: FileKind) -> FailedFile
        ensures kind { result.kind ≡ kind }
        ensures refused { is_refusal result.error ≡ was_refused_to D.was_refused (disk_in slot.now) }
    {
        let error = match slot {
            LogSlot::Open(log) => log.disk().last_error(),
            LogSlot::Failed(log) => log.disk().last_error(),
            LogSlot::Closed(disk) => disk.last_error(),
            LogSlot::Away => None,
        };
        FailedFile { kind, error }
    }

    /// What is told of a call that failed at it: `Memory` in place of `Device` if memory was refused to its disk.
    pub fn tell<T: Drop>(self, told: Result<T, Refusal>) -> Result<T, Refusal>
        ensures { result ≡ told_by (is_refusal self.error) told }
    {
        match (told, self.error) {
            (Err(Refusal::Device), Some(SystemError::OutOfMemory)) => Err(Refusal::Memory),
            (told, _) => told,
        }
    }
}
