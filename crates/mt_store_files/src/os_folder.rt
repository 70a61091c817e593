//! A folder of the operating system. Contracts see none of its calls.

ghost use Rattle.std.specs.Prelude.{◌≡◌, None, IfOk, IfErr};
ghost use Rattle.mt_store_files.specs.Faults.{IsOfFile, IsOfSync};

use crate::fault::StoreFault;
use crate::names::{FolderFile, file_path, parent_path};
use crate::system::FolderSystem;
use mt_disk::{CachedDisk, FileDisk, OsFile, SystemError, SystemFile};
use std::alloc::{AllocError, Global};
use std::fs::{self, File, OpenOptions, TryLockError};
use std::io::{self, ErrorKind};
use std::rt::Files;

/// The folder at a path. Its lock is an open file of the folder itself, and ends with the process, however that ends.
#[derive(Drop)]
pub struct OsFolder {
    pub(crate) path: String,
}

impl OsFolder {
    pub fn at(alloc: Global, path: &str) -> Result<OsFolder, AllocError>
        ensures { IfOk result (λ folder. folder.path.bytes.items ≡ path.now) }
    {
        Ok(OsFolder {
            path: String::from_str(alloc, path)?,
        })
    }
}

// What the system answered of the folder.
fn of_folder(answer: io::Result<()>) -> Result<(), StoreFault>
    ensures { IfErr result IsOfSync }
{
    match answer {
        Ok(()) => Ok(()),
        Err(error) => Err(StoreFault::System(None, error)),
    }
}

// How a file is opened.
fn for_files() -> OpenOptions {
    let mut options = File::options();
    options.read(true).write(true);
    options
}

/// A file as a disk: as the device has it, and not as another process left it in the memory of the system.
pub(crate) fn disk_on<F: SystemFile + Drop>(
    alloc: Global,
    name: FolderFile,
    file: F,
) -> Result<CachedDisk<F>, StoreFault>
    ensures { IfErr result (IsOfFile name) }
{
    match CachedDisk::found(alloc, file) {
        Ok(disk) => Ok(disk),
        Err((_, file)) => {
            let error = file.last_error().map(SystemError::Number);
            Err(StoreFault::Device(name, error))
        }
    }
}

impl FolderSystem for OsFolder {
    type File = FileDisk;

    type Lock = File;

    ghost calls = { λ _. None };

    fn make_folder<R: Files<File = File>>(&mut self, rt: &R) -> Result<(), StoreFault> {
        match fs::create_dir(rt, self.path.as_str()) {
            Err(error) if error.kind() != ErrorKind::AlreadyExists => {
                Err(StoreFault::System(None, error))
            }
            _ => Ok(()),
        }
    }

    fn sync_parent<R: Files<File = File>>(
        &mut self,
        rt: &R,
        alloc: Global,
    ) -> Result<(), StoreFault> {
        let path = parent_path(alloc, self.path.as_str())?;
        let synced = match File::open(rt, path.as_str()) {
            Ok(parent) => parent.sync_all(),
            Err(error) => Err(error),
        };
        of_folder(synced)
    }

    fn lock<R: Files<File = File>>(&mut self, rt: &R) -> Result<File, StoreFault> {
        let lock = match File::open(rt, self.path.as_str()) {
            Ok(lock) => lock,
            Err(error) if error.kind() == ErrorKind::NotFound => return Err(StoreFault::NoFolder),
            Err(error) => return Err(StoreFault::System(None, error)),
        };
        match lock.try_lock() {
            Ok(()) => Ok(lock),
            Err(TryLockError::WouldBlock) => Err(StoreFault::InUse),
            Err(TryLockError::Error(error)) => Err(StoreFault::System(None, error)),
        }
    }

    fn sync(&mut self, lock: &File) -> Result<(), StoreFault> {
        of_folder(lock.sync_all())
    }

    fn has<R: Files<File = File>>(
        &mut self,
        rt: &R,
        alloc: Global,
        file: FolderFile,
    ) -> Result<bool, StoreFault> {
        let path = file_path(alloc, self.path.as_str(), file)?;
        match fs::exists(rt, path.as_str()) {
            Ok(is_there) => Ok(is_there),
            Err(error) => Err(StoreFault::System(Some(file), error)),
        }
    }

    fn open<R: Files<File = File>>(
        &mut self,
        rt: &R,
        alloc: Global,
        file: FolderFile,
    ) -> Result<Option<FileDisk>, StoreFault> {
        let path = file_path(alloc, self.path.as_str(), file)?;
        match for_files().open(rt, path.as_str()) {
            Ok(opened) => Ok(Some(disk_on(alloc, file, OsFile::new(opened))?)),
            Err(error) if error.kind() == ErrorKind::NotFound => Ok(None),
            Err(error) => Err(StoreFault::System(Some(file), error)),
        }
    }

    fn make<R: Files<File = File>>(
        &mut self,
        rt: &R,
        alloc: Global,
        file: FolderFile,
    ) -> Result<FileDisk, StoreFault> {
        let path = file_path(alloc, self.path.as_str(), file)?;
        match for_files().create_new(true).open(rt, path.as_str()) {
            Ok(made) => match disk_on(alloc, file, OsFile::new(made)) {
                Ok(disk) => Ok(disk),
                Err(fault) => {
                    let _ = fs::remove_file(rt, path.as_str());
                    Err(fault)
                }
            },
            Err(error) => Err(StoreFault::System(Some(file), error)),
        }
    }

    fn remove<R: Files<File = File>>(
        &mut self,
        rt: &R,
        alloc: Global,
        file: FolderFile,
    ) -> Result<(), StoreFault> {
        let path = file_path(alloc, self.path.as_str(), file)?;
        match fs::remove_file(rt, path.as_str()) {
            Err(error) if error.kind() != ErrorKind::NotFound => {
                Err(StoreFault::System(Some(file), error))
            }
            _ => Ok(()),
        }
    }
}
