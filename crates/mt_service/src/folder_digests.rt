//! The digests of a store's files, in its folder.

ghost use Rattle.std.specs.Prelude.{◌≡◌};
ghost use Rattle.mt_service.specs.FolderDigests.{log_file};
ghost use Rattle.mt_store_files.specs.Faults.{refusal_of};

use crate::warnings::DigestWarning;
use log::{Log, warn};
use mt_log_generations::Parity;
use mt_rows::Refusal;
use mt_slots::{FileDigest, Slot};
use mt_store_files::{StoreFault, StoreFile, StoreFolder};
use mt_stored::Digests;
use std::alloc::Global;
use std::fs::File;
use std::rt::Files;

/// The digests of a store's files, each in a file beside its own. Without a folder none are kept. It warns of a file that
/// fails, and why.
#[derive(Drop)]
pub struct FolderDigests<'a, R: Files<File = File> + Log> {
    rt: &'a R,
    alloc: Global,
    folder: &'a mut Option<StoreFolder>,
}

impl<'a, R: Files<File = File> + Log> FolderDigests<'a, R> {
    pub fn new(rt: &'a R, alloc: Global, folder: &'a mut Option<StoreFolder>) -> Self {
        FolderDigests { rt, alloc, folder }
    }
}

impl<R: Files<File = File> + Log> FolderDigests<'_, R> {
    // The digest of a file is cleared.
    fn clear(&mut self, file: StoreFile) -> Result<(), Refusal> {
        let Some(folder) = self.folder.as_mut() else {
            return Ok(());
        };
        match folder.clear_digest(self.rt, self.alloc, file) {
            Ok(_) => Ok(()),
            Err(fault) => Err(warned_of(self.rt, &fault)),
        }
    }

    // The digest of a file is kept as that stands.
    fn keep(&mut self, file: StoreFile) -> Result<(), Refusal> {
        let Some(folder) = self.folder.as_mut() else {
            return Ok(());
        };
        match folder.keep_digest_of(self.rt, self.alloc, file) {
            Ok(_) => Ok(()),
            Err(fault) => Err(warned_of(self.rt, &fault)),
        }
    }
}

// Warns of a digest that was not cleared or kept, and gives the refusal by which that is told.
fn warned_of<R: Log>(rt: &R, fault: &StoreFault) -> Refusal
    ensures { result ≡ refusal_of fault.now }
{
    let warning = DigestWarning(fault);
    warn!(rt; "{warning}");
    fault.refusal()
}

impl<R: Files<File = File> + Log> Digests for FolderDigests<'_, R> {
    ghost does = { λ old call new. Unit {0} };

    fn clear_logs(&mut self, logs: u8, generation: u64) -> Result<(), Refusal> {
        for worker in 0..logs {
            self.clear(log_file(worker, generation))?;
        }
        Ok(())
    }

    fn keep_logs(&mut self, logs: u8, generation: u64) -> Result<(), Refusal> {
        for worker in 0..logs {
            self.keep(log_file(worker, generation))?;
        }
        Ok(())
    }

    fn clear_slot(&mut self, slot: Slot) -> Result<(), Refusal> {
        self.clear(StoreFile::Slot(slot))
    }

    fn keep_slot(&mut self, slot: Slot, digest: FileDigest) -> Result<(), Refusal> {
        let Some(folder) = self.folder.as_mut() else {
            return Ok(());
        };
        match folder.keep_digest(self.rt, self.alloc, StoreFile::Slot(slot), digest) {
            Ok(_) => Ok(()),
            Err(fault) => Err(warned_of(self.rt, &fault)),
        }
    }
}

/// The file in which a worker's log of a generation stands.
fn log_file(worker: u8, generation: u64) -> StoreFile
    ensures { result ≡ log_file worker generation }
{
    let worker = usize::from(worker);
    if generation == 0 {
        return StoreFile::Log(worker);
    }
    StoreFile::Numbered(worker, Parity::of(generation))
}
