//! A folder of the operating system that is only read. What a start makes of its files stays in memory.

ghost use Rattle.std.specs.Prelude.{◌≡◌, None, IfOk};

use crate::fault::StoreFault;
use crate::names::{FolderFile, file_path};
use crate::os_folder::{OsFolder, disk_on};
use crate::read_file::ReadFile;
use crate::system::FolderSystem;
use mt_disk::CachedDisk;
use std::alloc::{AllocError, Global};
use std::fs::File;
use std::io::ErrorKind;
use std::rt::Files;

/// The folder at a path, to be read alone. Files that are made stand in memory, none of the others is removed, and nothing is
/// synced. It is locked as one that is served from.
#[derive(Drop)]
pub struct ReadFolder {
    folder: OsFolder,
    made: Vec<FolderFile>,
}

impl ReadFolder {
    pub fn at(alloc: Global, path: &str) -> Result<ReadFolder, AllocError>
        ensures { IfOk result (λ read. read.folder.path.bytes.items ≡ path.now) }
    {
        Ok(ReadFolder {
            folder: OsFolder::at(alloc, path)?,
            made: Vec::new(alloc),
        })
    }
}

impl FolderSystem for ReadFolder {
    type File = CachedDisk<ReadFile>;

    type Lock = File;

    ghost calls = { λ _. None };

    fn make_folder<R: Files<File = File>>(&mut self, _rt: &R) -> Result<(), StoreFault> {
        Ok(())
    }

    fn sync_parent<R: Files<File = File>>(
        &mut self,
        _rt: &R,
        _alloc: Global,
    ) -> Result<(), StoreFault> {
        Ok(())
    }

    fn lock<R: Files<File = File>>(&mut self, rt: &R) -> Result<File, StoreFault> {
        self.folder.lock(rt)
    }

    fn sync(&mut self, _lock: &File) -> Result<(), StoreFault> {
        Ok(())
    }

    fn has<R: Files<File = File>>(
        &mut self,
        rt: &R,
        alloc: Global,
        file: FolderFile,
    ) -> Result<bool, StoreFault> {
        if self.made.contains(&file) {
            return Ok(true);
        }
        self.folder.has(rt, alloc, file)
    }

    fn open<R: Files<File = File>>(
        &mut self,
        rt: &R,
        alloc: Global,
        file: FolderFile,
    ) -> Result<Option<CachedDisk<ReadFile>>, StoreFault> {
        let path = file_path(alloc, self.folder.path.as_str(), file)?;
        let found = match File::open(rt, path.as_str()) {
            Ok(opened) => ReadFile::found(alloc, opened),
            Err(error) => Err(error),
        };
        match found {
            Ok(found) => Ok(Some(disk_on(alloc, file, found)?)),
            Err(error) if error.kind() == ErrorKind::NotFound => Ok(None),
            Err(error) => Err(StoreFault::System(Some(file), error)),
        }
    }

    fn make<R: Files<File = File>>(
        &mut self,
        _rt: &R,
        alloc: Global,
        file: FolderFile,
    ) -> Result<CachedDisk<ReadFile>, StoreFault> {
        self.made.push(file)?;
        disk_on(alloc, file, ReadFile::made(alloc))
    }

    fn remove<R: Files<File = File>>(
        &mut self,
        _rt: &R,
        _alloc: Global,
        file: FolderFile,
    ) -> Result<(), StoreFault> {
        self.made.retain(|made| *made != file);
        Ok(())
    }
}
