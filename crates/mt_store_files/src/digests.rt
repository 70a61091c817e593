//! The digests of a store's files: cleared, kept and compared.

ghost use Rattle.std.specs.Prelude.{◌≡◌, ◌⊎◌, ◌+◌, ◌∷◌, [], IfOk, IfErr};
ghost use Rattle.mt_store_files.specs.{declared.names.FolderFile.TheVariants.{Store as StoreName, Digest as DigestName}};
ghost use Rattle.mt_store_files.specs.{Faults.{IsOfFile, IsOfSync, IsOfCheck, IsOfDisk}, FoundLogs.{files_of, files_up_to}};
ghost use Rattle.mt_store_files.specs.{Digests.{Clears, Keeps, KeepsFound, FindsDigest, IsCleared, IsWritten}, Checks.{Checks, IsOfFileCheck, IsOfDigestFault, files_to_check}};

use crate::fault::StoreFault;
use crate::folder::StoreFolder;
use crate::names::{FolderFile, StoreFile};
use crate::system::FolderSystem;
use mt_digests::{DigestFault, FileDigest, agrees, clear_digest, digest_of, write_digest};
use mt_disk::Disk;
use mt_log_generations::Parity;
use mt_slots::Slot;
use std::alloc::Global;
use std::fs::File;
use std::rt::Files;

impl<S: FolderSystem + Drop> StoreFolder<S> {
    /// Leaves the digest file of a file without a digest, durably, if it is there. It comes back as it was left.
    pub fn clear_digest<R: Files<File = File>>(
        &mut self,
        rt: &R,
        alloc: Global,
        file: StoreFile,
    ) -> Result<Option<S::File>, StoreFault>
        ensures fault { IfErr result (IsOfFile (DigestName file)) }
        ensures cleared { IfOk result (λ left. Clears S.File.is_honest S.File.state file left (S.calls self.old.system) (S.calls self.new.system)) }
        ensures made { self.new.made ≡ self.old.made }
    {
        match self.system.open(rt, alloc, FolderFile::Digest(file))? {
            Some(disk) => Ok(Some(cleared(disk, file)?)),
            None => Ok(None),
        }
    }

    /// Writes this digest of a file, durably. Its digest file is made if it isn't there, and then the folder is synced. It comes
    /// back as it was left.
    pub fn keep_digest<R: Files<File = File>>(
        &mut self,
        rt: &R,
        alloc: Global,
        file: StoreFile,
        digest: FileDigest,
    ) -> Result<S::File, StoreFault>
        ensures fault { IfErr result (λ e. IsOfFile (DigestName file) e ⊎ IsOfSync e) }
        ensures kept { IfOk result (λ left. Keeps S.File.is_honest S.File.state file digest left (S.calls self.old.system) (S.calls self.new.system)) }
        ensures made { self.new.made ≡ self.old.made }
    {
        let name = FolderFile::Digest(file);
        match self.system.open(rt, alloc, name)? {
            Some(disk) => written(disk, file, digest),
            None => {
                let disk = self.system.make(rt, alloc, name)?;
                let disk = written(disk, file, digest)?;
                self.system.sync(&self.lock)?;
                Ok(disk)
            }
        }
    }

    /// The same, of the digest that the file has, if it is there and its gate is open. Else nothing is written. The file is
    /// opened by a handle of its own.
    pub fn keep_digest_of<R: Files<File = File>>(
        &mut self,
        rt: &R,
        alloc: Global,
        file: StoreFile,
    ) -> Result<Option<S::File>, StoreFault>
        ensures fault { IfErr result (λ e. IsOfFile (StoreName file) e ⊎ IsOfFile (DigestName file) e ⊎ IsOfSync e) }
        ensures kept { IfOk result (λ left. KeepsFound S.File.is_honest S.File.state file left (S.calls self.old.system) (S.calls self.new.system)) }
        ensures made { self.new.made ≡ self.old.made }
    {
        match find_digest(&mut self.system, rt, alloc, file)? {
            Some(digest) => Ok(Some(self.keep_digest(rt, alloc, file, digest)?)),
            None => Ok(None),
        }
    }

    /// Compares the files of both slots and of so many workers with their digests. The first that does not agree is the fault.
    /// A file that isn't there, or whose digest file isn't, is passed over. Nothing is made, written or removed.
    pub fn check_digests<R: Files<File = File>>(
        &mut self,
        rt: &R,
        alloc: Global,
        logs: u8,
    ) -> Result<(), StoreFault>
        ensures fault { IfErr result (IsOfCheck logs) }
        ensures checked { Checks S.File.is_honest S.File.state (files_to_check logs) result (S.calls self.old.system) (S.calls self.new.system) }
        ensures made { self.new.made ≡ self.old.made }
    {
        check_file(&mut self.system, rt, alloc, StoreFile::Slot(Slot::First))?;
        check_file(&mut self.system, rt, alloc, StoreFile::Slot(Slot::Second))?;
        check_logs(&mut self.system, rt, alloc, logs)
    }
}

// The digest file of a file, without a digest.
fn cleared<D: Disk + Drop>(mut disk: D, file: StoreFile) -> Result<D, StoreFault>
    ensures fault { IfErr result (IsOfFile (DigestName file)) }
    ensures told { IfErr result (λ e. (left : D) × IsOfDisk (D.was_refused left) (DigestName file) e) }
    ensures cleared { IfOk result (IsCleared D.is_honest D.state (D.state disk)) }
{
    match clear_digest(&mut disk) {
        Ok(()) => Ok(disk),
        Err(_) => Err(StoreFault::of_disk(FolderFile::Digest(file), &disk)),
    }
}

// A digest file with this digest of a file.
fn written<D: Disk + Drop>(
    mut disk: D,
    file: StoreFile,
    digest: FileDigest,
) -> Result<D, StoreFault>
    ensures fault { IfErr result (IsOfFile (DigestName file)) }
    ensures told { IfErr result (λ e. (left : D) × IsOfDisk (D.was_refused left) (DigestName file) e) }
    ensures written { IfOk result (IsWritten D.is_honest D.state digest (D.state disk)) }
{
    match write_digest(&mut disk, digest) {
        Ok(()) => Ok(disk),
        Err(_) => Err(StoreFault::of_disk(FolderFile::Digest(file), &disk)),
    }
}

// The digest of a file, if it is there and its gate is open.
fn find_digest<R: Files<File = File>, S: FolderSystem>(
    system: &mut S,
    rt: &R,
    alloc: Global,
    file: StoreFile,
) -> Result<Option<FileDigest>, StoreFault>
    ensures fault { IfErr result (IsOfFile (StoreName file)) }
    ensures found { IfOk result (λ digest. FindsDigest S.File.is_honest S.File.state file digest (S.calls system.old) (S.calls system.new)) }
{
    let Some(mut disk) = system.open(rt, alloc, FolderFile::Store(file))? else {
        return Ok(None);
    };
    match digest_of(alloc, &mut disk) {
        Ok(digest) => Ok(digest),
        Err(DigestFault::Memory) => Err(StoreFault::Memory),
        Err(DigestFault::Device | DigestFault::DigestDevice) => {
            Err(StoreFault::of_disk(FolderFile::Store(file), &disk))
        }
    }
}

// Compares the files of the logs of so many workers with their digests.
fn check_logs<R: Files<File = File>, S: FolderSystem>(
    system: &mut S,
    rt: &R,
    alloc: Global,
    logs: u8,
) -> Result<(), StoreFault>
    ensures fault { IfErr result (IsOfCheck logs) }
    ensures checked { Checks S.File.is_honest S.File.state (files_up_to logs) result (S.calls system.old) (S.calls system.new) }
{
    for worker in 0..logs {
        check_log(system, rt, alloc, usize::from(worker))?;
    }
    Ok(())
}

// Compares the files of a worker's log with their digests.
fn check_log<R: Files<File = File>, S: FolderSystem>(
    system: &mut S,
    rt: &R,
    alloc: Global,
    worker: usize,
) -> Result<(), StoreFault>
    ensures fault { IfErr result (IsOfCheck (worker + 1)) }
    ensures checked { Checks S.File.is_honest S.File.state (files_of worker) result (S.calls system.old) (S.calls system.new) }
{
    check_file(system, rt, alloc, StoreFile::Log(worker))?;
    check_file(system, rt, alloc, StoreFile::Numbered(worker, Parity::Even))?;
    check_file(system, rt, alloc, StoreFile::Numbered(worker, Parity::Odd))
}

// Compares a file with its digest, if both are there.
fn check_file<R: Files<File = File>, S: FolderSystem>(
    system: &mut S,
    rt: &R,
    alloc: Global,
    file: StoreFile,
) -> Result<(), StoreFault>
    ensures fault { IfErr result (IsOfFileCheck file) }
    ensures checked { Checks S.File.is_honest S.File.state (file ∷ []) result (S.calls system.old) (S.calls system.new) }
{
    let Some(mut digests) = system.open(rt, alloc, FolderFile::Digest(file))? else {
        return Ok(());
    };
    let Some(mut disk) = system.open(rt, alloc, FolderFile::Store(file))? else {
        return Ok(());
    };
    match agrees(alloc, &mut disk, &mut digests) {
        Ok(true) => Ok(()),
        Ok(false) => Err(StoreFault::Spoiled(file)),
        Err(fault) => Err(told_of(file, fault, &disk, &digests)),
    }
}

// Why a file was not compared with its digest. One of these disks failed, unless memory was refused elsewhere.
fn told_of<D: Disk>(file: StoreFile, fault: DigestFault, disk: &D, digests: &D) -> StoreFault
    ensures told { IsOfDigestFault (D.was_refused disk.now) (D.was_refused digests.now) file fault result }
    ensures check { IsOfFileCheck file result }
{
    match fault {
        DigestFault::Device => StoreFault::of_disk(FolderFile::Store(file), disk),
        DigestFault::DigestDevice => StoreFault::of_disk(FolderFile::Digest(file), digests),
        DigestFault::Memory => StoreFault::Memory,
    }
}
