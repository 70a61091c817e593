//! A store's folder, and its files as disks.

ghost use Rattle.std.specs.Prelude.{◌≡◌, ◌⊎◌, ◌+◌, ◌++◌, ◌∷◌, [], ◌≤◌, map, IsTrue, IfOk, IfErr, OnOk, vec_len};
ghost use Rattle.mt_checkpoint.specs.Checkpoints.{IsClosedAtRest};
ghost use Rattle.mt_gates.specs.Gates.{IsGivenUp};
ghost use Rattle.std.specs.List.{flat_map};
ghost use Rattle.mt_store_files.specs.declared.names.{FolderFile.TheVariants.{Store as StoreName, Digest as DigestName}, StoreFile.TheVariants.{Numbered as NumberedFile, Slot as SlotFile}};
ghost use Rattle.mt_store_files.specs.Faults.{IsOfFolder, IsOfFiles, IsOfLog, IsOfSlots, IsOfDigests, IsOfFile, IsOfSync};
ghost use Rattle.mt_store_files.specs.{Made.IsMadeIfEmpty, Calls.{MadeFolder, SyncedParent, Locked, Synced, Adds, removal, removals, Looks, Makes, Tries}, Changes.{CreatesLogs, CreatesSlots, IsToldWith}};
ghost use Rattle.mt_store_files.specs.{Found.{IsFoundFile, IsFoundMade, OpensSlots}, FoundLogs.{files_of, files_up_to, IsFoundLog, AreFound, OpensLogs}};

use crate::fault::{LogCounts, StoreFault};
use crate::names::{FolderFile, StoreFile};
use crate::os_folder::OsFolder;
use crate::system::FolderSystem;
use mt_checkpoint::create_slot;
use mt_disk::{DeviceFailed, Disk};
use mt_log_files::WorkerFiles;
use mt_log_generations::{HeaderFault, Parity, create_spare, read_header};
use mt_slots::{Slot, StoreSlots};
use std::alloc::{AllocError, Global};
use std::fs::File;
use std::mem;
use std::rt::Files;

/// So many workers a store may have, each with a log.
const MAX_LOGS: u8 = 64;

/// A store's folder. No other server has it open while this lives. It remembers the files that it made because they were
/// missing.
#[derive(Drop)]
pub struct StoreFolder<S: FolderSystem = OsFolder> {
    pub(crate) system: S,
    pub(crate) lock: S::Lock,
    made: Vec<StoreFile>,
}

impl<S: FolderSystem + Drop> StoreFolder<S> {
    /// Opens a folder that is there, and locks it.
    pub fn open<R: Files<File = File>>(
        rt: &R,
        alloc: Global,
        mut system: S,
    ) -> Result<Self, StoreFault>
        ensures calls { IfOk result (λ folder. Adds (S.calls system) (S.calls folder.system) (Locked ∷ [])) }
        ensures made { IfOk result (λ folder. folder.made.items ≡ []) }
        ensures fault { IfErr result IsOfFolder }
    {
        let lock = system.lock(rt)?;
        Ok(StoreFolder {
            system,
            lock,
            made: Vec::new(alloc),
        })
    }

    /// The same, of a folder that is made first if there is none. The folder that holds it is synced, also
    /// if it was there: whoever made it may not have done so.
    pub fn make<R: Files<File = File>>(
        rt: &R,
        alloc: Global,
        mut system: S,
    ) -> Result<Self, StoreFault>
        ensures calls { IfOk result (λ folder. Adds (S.calls system) (S.calls folder.system) (MadeFolder ∷ SyncedParent ∷ Locked ∷ [])) }
        ensures fault { IfErr result IsOfFolder }
    {
        system.make_folder(rt)?;
        system.sync_parent(rt, alloc)?;
        StoreFolder::open(rt, alloc, system)
    }

    /// The system whose folder this is, to be looked at.
    pub fn system(&self) -> &S
        ensures { result.now ≡ self.now.system }
    {
        &self.system
    }

    /// The files of so many logs, in the order of their workers. Each worker's plain file has to be there, unless a numbered
    /// one of its files has a log: then it is made without a byte. A numbered file that isn't there, or has no byte, is made a
    /// spare one. A crash in that may leave anything of it.
    pub fn open_logs<R: Files<File = File>>(
        &mut self,
        rt: &R,
        alloc: Global,
        logs: u8,
    ) -> Result<Vec<WorkerFiles<S::File>>, StoreFault>
        ensures all { IfOk result (λ files. vec_len files ≡ logs) }
        ensures fault { IfErr result (IsOfFiles logs) }
        ensures opened { IfOk result (λ files.
            OpensLogs S.File.is_honest S.File.state logs files.items (S.calls self.old.system) (S.calls self.new.system) self.old.made.items self.new.made.items) }
    {
        self.find_logs(rt, alloc, logs)?;
        let files = open_each(&mut self.system, &mut self.made, rt, alloc, logs)?;
        self.system.sync(&self.lock)?;
        Ok(files)
    }

    // Whether each of so many workers has a log. The fault is of the first one that has none.
    fn find_logs<R: Files<File = File>>(
        &mut self,
        rt: &R,
        alloc: Global,
        logs: u8,
    ) -> Result<(), StoreFault>
        ensures fault { IfErr result (IsOfFiles logs) }
        ensures looks { OnOk result (Looks (S.calls self.old.system) (S.calls self.new.system)) }
        ensures made { self.new.made ≡ self.old.made }
    {
        for worker in 0..logs {
            if !has_log(&mut self.system, rt, alloc, usize::from(worker))? {
                let counts = self.count_logs(rt, alloc, logs)?;
                return Err(StoreFault::NoLog(worker, counts));
            }
        }
        Ok(())
    }

    /// How many logs the folder has for so many workers, of the 64 that it may have, by their plain files. One that
    /// can't be looked at isn't counted.
    pub fn count_logs<R: Files<File = File>>(
        &mut self,
        rt: &R,
        alloc: Global,
        workers: u8,
    ) -> Result<LogCounts, AllocError>
        ensures workers { IfOk result (λ counts. counts.workers ≡ workers) }
        ensures few { IfOk result (λ counts. counts.logs ≤ 64) }
        ensures made { self.new.made ≡ self.old.made }
    {
        let mut logs = 0;
        for worker in 0..MAX_LOGS {
            let plain = FolderFile::Store(StoreFile::Log(usize::from(worker)));
            if self.system.has(rt, alloc, plain).unwrap_or(false) {
                logs += 1;
            }
        }
        Ok(LogCounts { logs, workers })
    }

    /// The files of so many logs made anew, without a byte, in the order of their workers. All logs that
    /// stood in the folder are lost, with their digests. After an error the folder may have any of the files.
    pub fn create_logs<R: Files<File = File>>(
        &mut self,
        rt: &R,
        alloc: Global,
        logs: u8,
    ) -> Result<Vec<WorkerFiles<S::File>>, StoreFault>
        requires { logs ≤ 64 }
        ensures all { IfOk result (λ files. vec_len files ≡ logs) }
        ensures fault { IfErr result (λ e. IsOfFiles 64 e ⊎ IsOfDigests 64 e) }
        ensures created { OnOk result (CreatesLogs logs (S.calls self.old.system) (S.calls self.new.system)) }
    {
        remove_logs(&mut self.system, rt, alloc)?;
        let files = create_each(&mut self.system, rt, alloc, logs)?;
        self.system.sync(&self.lock)?;
        Ok(files)
    }

    /// The files of both slots made anew, without a byte. What stood in them is lost, with their digests. After
    /// an error the folder may have any of the files.
    pub fn create_slots<R: Files<File = File>>(
        &mut self,
        rt: &R,
        alloc: Global,
    ) -> Result<StoreSlots<S::File>, StoreFault>
        ensures fault { IfErr result (λ e. IsOfSlots e ⊎ IsOfDigests 0 e) }
        ensures created { IfOk result (λ slots. CreatesSlots S.File.state slots (S.calls self.old.system) (S.calls self.new.system)) }
    {
        let (first, second) = (StoreFile::Slot(Slot::First), StoreFile::Slot(Slot::Second));
        remove_file(&mut self.system, rt, alloc, first)?;
        remove_file(&mut self.system, rt, alloc, second)?;
        let first = self.system.make(rt, alloc, FolderFile::Store(first))?;
        let second = self.system.make(rt, alloc, FolderFile::Store(second))?;
        self.system.sync(&self.lock)?;
        Ok(StoreSlots::found(first, second))
    }

    /// The files of both slots, as they are found. One that isn't there, or has no byte, is made a slot without a
    /// checkpoint. A crash in that may leave anything of it.
    pub fn open_slots<R: Files<File = File>>(
        &mut self,
        rt: &R,
        alloc: Global,
    ) -> Result<StoreSlots<S::File>, StoreFault>
        ensures fault { IfErr result IsOfSlots }
        ensures opened { IfOk result (λ slots.
            OpensSlots S.File.is_honest S.File.state slots (S.calls self.old.system) (S.calls self.new.system) self.old.made.items self.new.made.items) }
    {
        let first = open_slot(&mut self.system, &mut self.made, rt, alloc, Slot::First)?;
        let second = open_slot(&mut self.system, &mut self.made, rt, alloc, Slot::Second)?;
        self.system.sync(&self.lock)?;
        Ok(StoreSlots::found(first, second))
    }

    /// Leaves the folder as it was, since its store is refused: removes the files that were made because they were missing.
    /// What that can't remove stays. They are named if the fault may be that they were lost.
    pub fn refused<R: Files<File = File>>(
        &mut self,
        rt: &R,
        alloc: Global,
        fault: StoreFault,
    ) -> StoreFault
        ensures removed { Tries (map removal self.old.made.items ++ Synced ∷ []) (S.calls self.old.system) (S.calls self.new.system) }
        ensures none_left { self.new.made.items ≡ [] }
        ensures told { IsToldWith self.old.made.items fault result }
    {
        let made = mem::replace(&mut self.made, Vec::new(alloc));
        remove_each(&mut self.system, rt, alloc, made.as_slice());
        let _ = self.system.sync(&self.lock);
        told_with(made, fault)
    }
}

// A fault as it is told of a store in which these files were missing. If some numbered file or slot is there the store had all
// of them, and else it may be of an older server.
fn told_with(missing: Vec<StoreFile>, fault: StoreFault) -> StoreFault
    ensures { IsToldWith missing.items fault result }
{
    match fault {
        StoreFault::LogCount(counts) => {
            let spares = count_spares(missing.as_slice());
            if counts.logs == counts.workers
                && !missing.is_empty()
                && spares < 2 * usize::from(counts.workers) + 2
            {
                StoreFault::Missing(missing)
            } else {
                StoreFault::LogCount(counts)
            }
        }
        fault => fault,
    }
}

// How many of these files are numbered ones or slots.
fn count_spares(files: &[StoreFile]) -> usize {
    let mut spares: usize = 0;
    for file in files {
        if !matches!(file, StoreFile::Log(_)) {
            spares = spares.saturating_add(1);
        }
    }
    spares
}

// Removes these files, each though others fail.
fn remove_each<R: Files<File = File>, S: FolderSystem>(
    system: &mut S,
    rt: &R,
    alloc: Global,
    files: &[StoreFile],
)
    ensures { Tries (map removal files.now) (S.calls system.old) (S.calls system.new) }
{
    for file in files {
        let _ = system.remove(rt, alloc, FolderFile::Store(*file));
    }
}

// A file, which is made without a byte and remembered if it isn't there.
fn open_or_make<R: Files<File = File>, S: FolderSystem>(
    system: &mut S,
    made: &mut Vec<StoreFile>,
    rt: &R,
    alloc: Global,
    file: StoreFile,
) -> Result<S::File, StoreFault>
    ensures fault { IfErr result (IsOfFile (StoreName file)) }
    ensures found { IfOk result (λ disk. IsFoundFile file (S.File.state disk) (S.calls system.old) (S.calls system.new) made.old.items made.new.items) }
{
    let name = FolderFile::Store(file);
    match system.open(rt, alloc, name)? {
        Some(disk) => Ok(disk),
        None => {
            made.reserve(1)?;
            let fresh = system.make(rt, alloc, name)?;
            made.push_reserved(file);
            Ok(fresh)
        }
    }
}

// Whether a worker has a log: its plain file is there, or a numbered one has a log.
fn has_log<R: Files<File = File>, S: FolderSystem>(
    system: &mut S,
    rt: &R,
    alloc: Global,
    worker: usize,
) -> Result<bool, StoreFault>
    ensures fault { IfErr result (IsOfLog worker) }
    ensures looks { OnOk result (Looks (S.calls system.old) (S.calls system.new)) }
{
    if system.has(rt, alloc, FolderFile::Store(StoreFile::Log(worker)))? {
        return Ok(true);
    }
    has_numbered(system, rt, alloc, worker)
}

// Whether a numbered file of a worker has a log, or an open gate before no header.
fn has_numbered<R: Files<File = File>, S: FolderSystem>(
    system: &mut S,
    rt: &R,
    alloc: Global,
    worker: usize,
) -> Result<bool, StoreFault>
    ensures fault { IfErr result (IsOfLog worker) }
    ensures looks { OnOk result (Looks (S.calls system.old) (S.calls system.new)) }
{
    if is_log(system, rt, alloc, worker, Parity::Even)? {
        return Ok(true);
    }
    is_log(system, rt, alloc, worker, Parity::Odd)
}

// Whether this numbered file of a worker has a log, or an open gate before no header.
fn is_log<R: Files<File = File>, S: FolderSystem>(
    system: &mut S,
    rt: &R,
    alloc: Global,
    worker: usize,
    parity: Parity,
) -> Result<bool, StoreFault>
    ensures fault { IfErr result (IsOfLog worker) }
    ensures looks { OnOk result (Looks (S.calls system.old) (S.calls system.new)) }
{
    let name = FolderFile::Store(StoreFile::Numbered(worker, parity));
    let Some(mut disk) = system.open(rt, alloc, name)? else {
        return Ok(false);
    };
    match read_header(&mut disk) {
        Ok(None) => Ok(false),
        Ok(Some(_)) | Err(HeaderFault::Bad(_)) => Ok(true),
        Err(HeaderFault::Device) => Err(StoreFault::of_disk(name, &disk)),
    }
}

// The files of each of so many workers' logs, in their order.
fn open_each<R: Files<File = File>, S: FolderSystem>(
    system: &mut S,
    made: &mut Vec<StoreFile>,
    rt: &R,
    alloc: Global,
    logs: u8,
) -> Result<Vec<WorkerFiles<S::File>>, StoreFault>
    ensures all { IfOk result (λ files. vec_len files ≡ logs) }
    ensures fault { IfErr result (IsOfFiles logs) }
    ensures found { IfOk result (λ files.
        AreFound S.File.is_honest S.File.state logs files.items (S.calls system.old) (S.calls system.new) made.old.items made.new.items) }
{
    let mut files = Vec::new(alloc);
    for worker in 0..logs {
        files.push(open_log(system, made, rt, alloc, usize::from(worker))?)?;
    }
    Ok(files)
}

// The files of a worker's log. A plain one that isn't there is made without a byte; a numbered one that isn't there, or
// has no byte, is made a spare one.
fn open_log<R: Files<File = File>, S: FolderSystem>(
    system: &mut S,
    made: &mut Vec<StoreFile>,
    rt: &R,
    alloc: Global,
    worker: usize,
) -> Result<WorkerFiles<S::File>, StoreFault>
    ensures fault { IfErr result (IsOfLog worker) }
    ensures found { IfOk result (λ files.
        IsFoundLog S.File.is_honest S.File.state worker files (S.calls system.old) (S.calls system.new) made.old.items made.new.items) }
{
    let plain = open_or_make(system, made, rt, alloc, StoreFile::Log(worker))?;
    let even = open_numbered(system, made, rt, alloc, worker, Parity::Even)?;
    let odd = open_numbered(system, made, rt, alloc, worker, Parity::Odd)?;
    Ok(WorkerFiles::closed(plain, even, odd))
}

// A numbered file, which is made a spare one if it isn't there, or has no byte.
fn open_numbered<R: Files<File = File>, S: FolderSystem>(
    system: &mut S,
    made: &mut Vec<StoreFile>,
    rt: &R,
    alloc: Global,
    worker: usize,
    parity: Parity,
) -> Result<S::File, StoreFault>
    ensures fault { IfErr result (IsOfFile (StoreName (NumberedFile worker parity))) }
    ensures found { IfOk result (λ disk.
        IsFoundMade IsGivenUp S.File.is_honest S.File.state (NumberedFile worker parity) disk (S.calls system.old) (S.calls system.new) made.old.items made.new.items) }
{
    let name = StoreFile::Numbered(worker, parity);
    let mut disk = open_or_make(system, made, rt, alloc, name)?;
    match spare_if_empty(&mut disk) {
        Ok(()) => Ok(disk),
        Err(_) => Err(StoreFault::of_disk(FolderFile::Store(name), &disk)),
    }
}

// Makes a spare file of a disk that has no byte.
fn spare_if_empty<D: Disk>(disk: &mut D) -> Result<(), DeviceFailed>
    ensures made { IsTrue (D.is_honest disk.old) → OnOk result (IsMadeIfEmpty IsGivenUp (D.state disk.old) (D.state disk.new)) }
    ensures honest { D.is_honest disk.new ≡ D.is_honest disk.old }
{
    match disk.len()? {
        0 => create_spare(disk),
        _ => Ok(()),
    }
}

// The files of each of so many workers' logs, made in their order without a byte.
fn create_each<R: Files<File = File>, S: FolderSystem>(
    system: &mut S,
    rt: &R,
    alloc: Global,
    logs: u8,
) -> Result<Vec<WorkerFiles<S::File>>, StoreFault>
    requires { logs ≤ 64 }
    ensures all { IfOk result (λ files. vec_len files ≡ logs) }
    ensures fault { IfErr result (IsOfFiles 64) }
    ensures made { OnOk result (Makes (files_up_to logs) (S.calls system.old) (S.calls system.new)) }
{
    let mut files = Vec::new(alloc);
    for worker in 0..logs {
        files.push(create_log(system, rt, alloc, usize::from(worker))?)?;
    }
    Ok(files)
}

// The files of a worker's log, made without a byte.
fn create_log<R: Files<File = File>, S: FolderSystem>(
    system: &mut S,
    rt: &R,
    alloc: Global,
    worker: usize,
) -> Result<WorkerFiles<S::File>, StoreFault>
    ensures fault { IfErr result (IsOfLog worker) }
    ensures made { OnOk result (Makes (files_of worker) (S.calls system.old) (S.calls system.new)) }
{
    let (plain, even, odd) = (
        StoreFile::Log(worker),
        StoreFile::Numbered(worker, Parity::Even),
        StoreFile::Numbered(worker, Parity::Odd),
    );
    let plain = system.make(rt, alloc, FolderFile::Store(plain))?;
    let even = system.make(rt, alloc, FolderFile::Store(even))?;
    let odd = system.make(rt, alloc, FolderFile::Store(odd))?;
    Ok(WorkerFiles::closed(plain, even, odd))
}

// Removes the files of all logs that a folder may have, with their digests.
fn remove_logs<R: Files<File = File>, S: FolderSystem>(
    system: &mut S,
    rt: &R,
    alloc: Global,
) -> Result<(), StoreFault>
    ensures fault { IfErr result (λ e. IsOfFiles 64 e ⊎ IsOfDigests 64 e) }
    ensures removed { OnOk result (Adds (S.calls system.old) (S.calls system.new) (flat_map removals (files_up_to 64))) }
{
    for worker in 0..MAX_LOGS {
        remove_log(system, rt, alloc, usize::from(worker))?;
    }
    Ok(())
}

// Removes the files of a worker's log with their digests, if there are any.
fn remove_log<R: Files<File = File>, S: FolderSystem>(
    system: &mut S,
    rt: &R,
    alloc: Global,
    worker: usize,
) -> Result<(), StoreFault>
    ensures fault { IfErr result (λ e. IsOfLog worker e ⊎ IsOfDigests (worker + 1) e) }
    ensures removed { OnOk result (Adds (S.calls system.old) (S.calls system.new) (flat_map removals (files_of worker))) }
{
    remove_file(system, rt, alloc, StoreFile::Log(worker))?;
    remove_file(system, rt, alloc, StoreFile::Numbered(worker, Parity::Even))?;
    remove_file(system, rt, alloc, StoreFile::Numbered(worker, Parity::Odd))
}

// Removes the digest file of a file, and then the file, if they are there.
fn remove_file<R: Files<File = File>, S: FolderSystem>(
    system: &mut S,
    rt: &R,
    alloc: Global,
    file: StoreFile,
) -> Result<(), StoreFault>
    ensures fault { IfErr result (λ e. IsOfFile (StoreName file) e ⊎ IsOfFile (DigestName file) e) }
    ensures removed { OnOk result (Adds (S.calls system.old) (S.calls system.new) (removals file)) }
{
    system.remove(rt, alloc, FolderFile::Digest(file))?;
    system.remove(rt, alloc, FolderFile::Store(file))
}

// The file of a slot, which is made a slot if it isn't there, or has no byte.
fn open_slot<R: Files<File = File>, S: FolderSystem>(
    system: &mut S,
    made: &mut Vec<StoreFile>,
    rt: &R,
    alloc: Global,
    slot: Slot,
) -> Result<S::File, StoreFault>
    ensures fault { IfErr result (IsOfFile (StoreName (SlotFile slot))) }
    ensures found { IfOk result (λ disk.
        IsFoundMade IsClosedAtRest S.File.is_honest S.File.state (SlotFile slot) disk (S.calls system.old) (S.calls system.new) made.old.items made.new.items) }
{
    let name = StoreFile::Slot(slot);
    let mut disk = open_or_make(system, made, rt, alloc, name)?;
    match make_if_empty(&mut disk) {
        Ok(()) => Ok(disk),
        Err(_) => Err(StoreFault::of_disk(FolderFile::Store(name), &disk)),
    }
}

// Makes a slot, without a checkpoint, of a disk that has no byte.
fn make_if_empty<D: Disk>(disk: &mut D) -> Result<(), DeviceFailed>
    ensures made { IsTrue (D.is_honest disk.old) → OnOk result (IsMadeIfEmpty IsClosedAtRest (D.state disk.old) (D.state disk.new)) }
    ensures honest { D.is_honest disk.new ≡ D.is_honest disk.old }
{
    if disk.len()? == 0 {
        create_slot(disk)
    } else {
        Ok(())
    }
}
