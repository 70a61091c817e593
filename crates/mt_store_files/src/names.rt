//! The files of a store, and their names.

ghost use Rattle.std.specs.Prelude.{◌≡◌, ◌++◌, codes, IfOk};
ghost use Rattle.mt_store_files.specs.Names.{file_name, folder_file_name};

use mt_log_generations::Parity;
use mt_slots::Slot;
use std::alloc::{AllocError, Global};
use std::fmt;

/// A file of a store. It is printed as its name.
#[derive(Clone, Copy, Debug, PartialEq, Eq)]
pub enum StoreFile {
    /// The plain file of a worker's log, which has generation 0: `wal-` and the worker in two digits.
    Log(usize),
    /// A numbered file of a worker's log, which has even or odd generations after that: the plain file's name, and `-0`
    /// or `-1`.
    Numbered(usize, Parity),
    /// A slot of the store's checkpoints: `check-0` or `check-1`.
    Slot(Slot),
}

impl fmt::Display for StoreFile {
    ghost use Rattle.std.specs.Prelude.{Some};

    ghost output = { λ file. Some (file_name file) };

    fn fmt<W: fmt::Write>(&self, f: &mut fmt::Formatter<W>) -> fmt::Result {
        match self {
            StoreFile::Log(worker) => {
                let (tens, ones) = (worker / 10, worker % 10);
                write!(f, "wal-{tens}{ones}")
            }
            StoreFile::Numbered(worker, Parity::Even) => {
                let (tens, ones) = (worker / 10, worker % 10);
                write!(f, "wal-{tens}{ones}-0")
            }
            StoreFile::Numbered(worker, Parity::Odd) => {
                let (tens, ones) = (worker / 10, worker % 10);
                write!(f, "wal-{tens}{ones}-1")
            }
            StoreFile::Slot(Slot::First) => f.write_str("check-0"),
            StoreFile::Slot(Slot::Second) => f.write_str("check-1"),
        }
    }
}

/// A file of a store's folder. It is printed as its name.
#[derive(Clone, Copy, Debug, PartialEq, Eq)]
pub enum FolderFile {
    /// A file of the store.
    Store(StoreFile),
    /// The digest file of one: its name, and `.sha256`.
    Digest(StoreFile),
}

impl fmt::Display for FolderFile {
    ghost use Rattle.std.specs.Prelude.{Some};

    ghost output = { λ file. Some (folder_file_name file) };

    fn fmt<W: fmt::Write>(&self, f: &mut fmt::Formatter<W>) -> fmt::Result {
        match self {
            FolderFile::Store(file) => write!(f, "{file}"),
            FolderFile::Digest(file) => write!(f, "{file}.sha256"),
        }
    }
}

/// The path of a file, in the folder.
pub(crate) fn file_path(alloc: Global, folder: &str, file: FolderFile) -> Result<String, AllocError>
    ensures { IfOk result (λ path. path.bytes.items ≡ folder.now ++ codes "/" ++ folder_file_name file) }
{
    Ok(format!(in alloc; "{folder}/{file}")?)
}

/// The path of the folder in which a folder stands.
pub(crate) fn parent_path(alloc: Global, folder: &str) -> Result<String, AllocError>
    ensures { IfOk result (λ path. path.bytes.items ≡ folder.now ++ codes "/..") }
{
    Ok(format!(in alloc; "{folder}/..")?)
}
