//! A file of the operating system, by its calls. Which calls are made, and in which order, is proved. What
//! they do isn't: that a real file keeps the rules of a `SystemFile` is the premise on which a store on a
//! real disk rests.

ghost use Rattle.std.specs.Prelude.{◌≡◌, [], false, None, IfOk, IfErr, IsErrAnd};
ghost use Rattle.std.specs.IoError.{raw_os_error};
ghost use Rattle.mt_disk.specs.declared.system.FileFault.TheVariants.{Failed as FailedCall};
ghost use Rattle.mt_disk.specs.{Disk.found_with, Files.at_rest};
ghost use Rattle.mt_disk.specs.FileCalls.{Measured, Read, Wrote, SetLength, Calls, WritesLength, SyncsAll, DropsCache};

use crate::cached::CachedDisk;
use crate::calls::FileCalls;
use crate::system::{FileFault, SystemFile};
use std::fs::File;
use std::io;
use std::marker::Model;

/// A file of the system, opened for reading and writing. No code can tell whether the system and the
/// device under it keep their rules, so contracts see no bytes of it. They see its calls.
#[derive(Drop)]
pub struct OsFile<C: FileCalls = File> {
    calls: C,
    is_doubtful: bool,
    last_error: Option<i32>,
}

impl<C: FileCalls> Model for OsFile<C> {
    ghost use Rattle.mt_disk.specs.FileCalls.{OsFileState};

    ghost Value = { OsFileState };

    ghost view = { λ f. record { made = C.made f.calls; is_doubtful = f.is_doubtful; last_error = f.last_error } };
}

/// A disk on a file of the system.
pub type FileDisk = CachedDisk<OsFile>;

impl<C: FileCalls> OsFile<C> {
    pub fn new(calls: C) -> Self
        ensures { result ≡ record { made = C.made calls; is_doubtful = false; last_error = None } }
    {
        OsFile {
            calls,
            is_doubtful: false,
            last_error: None,
        }
    }

    /// What the calls are made on, to be looked at.
    pub fn calls(&self) -> &C
        ensures { C.made result.now ≡ self.now.made }
    {
        &self.calls
    }

    // Makes the system write the file's length again.
    fn write_length(&mut self) -> Result<(), FileFault>
        ensures { WritesLength result self.old self.new }
    {
        let len = self.len()?;
        self.cut(len)
    }
}

// What the system answered. The number of an error is kept.
fn told<T>(last_error: &mut Option<i32>, answer: io::Result<T>) -> Result<T, FileFault>
    ensures ok { IfOk result (λ value. (answer ≡ Ok value) × (last_error.new ≡ last_error.old)) }
    ensures err { IfErr result (λ fault. (fault ≡ FailedCall) × IsErrAnd answer (λ error. last_error.new ≡ raw_os_error error)) }
{
    match answer {
        Ok(value) => Ok(value),
        Err(error) => {
            *last_error = error.raw_os_error();
            Err(FileFault::Failed)
        }
    }
}

// Its clauses say which calls are made. Those of `SystemFile` say nothing of a file that isn't honest.
impl<C: FileCalls> SystemFile for OsFile<C> {
    ghost is_honest = { λ _. false };

    ghost state = { λ _. at_rest (found_with []) };

    fn len(&mut self) -> Result<usize, FileFault>
        ensures { Calls Measured result self.old self.new }
    {
        let len = self.calls.len();
        told(&mut self.last_error, len)
    }

    fn read_at(&mut self, at: usize, out: &mut [u8]) -> Result<(), FileFault>
        ensures { Calls (λ _. Read at out.new) result self.old self.new }
    {
        let read = self.calls.read_exact_at(at, out);
        told(&mut self.last_error, read)
    }

    fn write_at(&mut self, at: usize, bytes: &[u8]) -> Result<(), FileFault>
        ensures { Calls (λ _. Wrote at bytes.now) result self.old self.new }
    {
        let written = self.calls.write_all_at(at, bytes);
        told(&mut self.last_error, written)
    }

    fn cut(&mut self, len: usize) -> Result<(), FileFault>
        ensures { Calls (λ _. SetLength len) result self.old self.new }
    {
        let cut = self.calls.set_len(len);
        told(&mut self.last_error, cut)
    }

    fn cut_again(&mut self, len: usize) -> Result<(), FileFault>
        ensures { Calls (λ _. SetLength len) result self.old self.new }
    {
        self.cut(len)
    }

    fn sync(&mut self) -> Result<(), FileFault>
        ensures { SyncsAll self.old.is_doubtful result self.old self.new }
    {
        if self.is_doubtful {
            self.write_length()?;
        }
        let synced = self.calls.sync_all();
        self.is_doubtful = synced.is_err();
        told(&mut self.last_error, synced)
    }

    fn drop_cache(&mut self) -> Result<(), FileFault>
        ensures { DropsCache self.old.is_doubtful result self.old self.new }
    {
        self.sync()?;
        let dropped = match self.calls.drop_cache() {
            0 => Ok(()),
            number => Err(io::Error::from_raw_os_error(number)),
        };
        told(&mut self.last_error, dropped)
    }

    fn last_error(&self) -> Option<i32>
        ensures { result ≡ self.now.last_error }
    {
        self.last_error
    }
}
