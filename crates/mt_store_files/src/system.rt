//! A system's calls on the folder of a store, as a trait.

ghost use Rattle.std.specs.Prelude.{◌∷◌, [], Option, List, IfErr};
ghost use Rattle.mt_store_files.specs.{Faults.{IsOfFolder, IsOfFile, IsOfSync}, Calls.{FolderCall, MadeFolder, SyncedParent, Locked, Looked, Made, Removed, Synced, Adds, call_of, open_call}};

use crate::fault::StoreFault;
use crate::names::FolderFile;
use mt_disk::Disk;
use std::alloc::Global;
use std::fs::File;
use std::rt::Files;

/// The calls on one folder. Contracts see all that were made, if the system tells them.
pub trait FolderSystem {
    /// A file of the folder.
    type File: Disk + Drop;

    /// What keeps other servers out of the folder as long as it lives.
    type Lock: Drop;

    /// The calls so far, the oldest first, if they are told.
    ghost calls: { Self → Option (List FolderCall) };

    /// Makes the folder, if there is none.
    fn make_folder<R: Files<File = File>>(&mut self, rt: &R) -> Result<(), StoreFault>
        ensures calls { Adds (calls self.old) (calls self.new) (call_of (λ _. MadeFolder) result ∷ []) }
        ensures fault { IfErr result IsOfFolder };

    /// Makes durable what the folder above this one has.
    fn sync_parent<R: Files<File = File>>(
        &mut self,
        rt: &R,
        alloc: Global,
    ) -> Result<(), StoreFault>
        ensures calls { Adds (calls self.old) (calls self.new) (call_of (λ _. SyncedParent) result ∷ []) }
        ensures fault { IfErr result IsOfFolder };

    /// Keeps other servers out of the folder.
    fn lock<R: Files<File = File>>(&mut self, rt: &R) -> Result<Self::Lock, StoreFault>
        ensures calls { Adds (calls self.old) (calls self.new) (call_of (λ _. Locked) result ∷ []) }
        ensures fault { IfErr result IsOfFolder };

    /// Makes durable which files the folder has.
    fn sync(&mut self, lock: &Self::Lock) -> Result<(), StoreFault>
        ensures calls { Adds (calls self.old) (calls self.new) (call_of (λ _. Synced) result ∷ []) }
        ensures fault { IfErr result IsOfSync };

    /// Whether a file is there.
    fn has<R: Files<File = File>>(
        &mut self,
        rt: &R,
        alloc: Global,
        file: FolderFile,
    ) -> Result<bool, StoreFault>
        ensures calls { Adds (calls self.old) (calls self.new) (call_of (λ _. Looked file) result ∷ []) }
        ensures fault { IfErr result (IsOfFile file) };

    /// Opens a file, if it is there.
    fn open<R: Files<File = File>>(
        &mut self,
        rt: &R,
        alloc: Global,
        file: FolderFile,
    ) -> Result<Option<Self::File>, StoreFault>
        ensures calls { Adds (calls self.old) (calls self.new) (call_of (open_call Self.File.state file) result ∷ []) }
        ensures fault { IfErr result (IsOfFile file) };

    /// Makes a file without a byte, which isn't there yet. After an error it isn't there either, if the system can
    /// remove it.
    fn make<R: Files<File = File>>(
        &mut self,
        rt: &R,
        alloc: Global,
        file: FolderFile,
    ) -> Result<Self::File, StoreFault>
        ensures calls { Adds (calls self.old) (calls self.new) (call_of (λ disk. Made file (Self.File.state disk)) result ∷ []) }
        ensures fault { IfErr result (IsOfFile file) };

    /// Removes a file, if it is there.
    fn remove<R: Files<File = File>>(
        &mut self,
        rt: &R,
        alloc: Global,
        file: FolderFile,
    ) -> Result<(), StoreFault>
        ensures calls { Adds (calls self.old) (calls self.new) (call_of (λ _. Removed file) result ∷ []) }
        ensures fault { IfErr result (IsOfFile file) };
}
