//! A system's calls on an open file, as a trait.

ghost use Rattle.std.specs.Prelude.{◌∷◌, [], Option, List};
ghost use Rattle.mt_disk.specs.FileCalls.{FileCall, Measured, Read, Wrote, SetLength, Synced, Adds, advice_of, call_of};

use std::fs::File;
use std::io;
use std::os::fd::AsRawFd;
use std::os::unix::fs::FileExt;

/// The calls on one open file. Contracts see all that were made, if the system tells them.
pub trait FileCalls {
    /// The calls so far, the oldest first, if they are told.
    ghost made: { Self → Option (List FileCall) };

    /// The number of bytes.
    fn len(&mut self) -> io::Result<usize>
        ensures { Adds (made self.old) (made self.new) (call_of Measured result ∷ []) };

    /// Fills `out` with the bytes from `at` on.
    fn read_exact_at(&mut self, at: usize, out: &mut [u8]) -> io::Result<()>
        ensures { Adds (made self.old) (made self.new) (call_of (λ _. Read at out.new) result ∷ []) };

    /// Writes over what is there, and past the end.
    fn write_all_at(&mut self, at: usize, bytes: &[u8]) -> io::Result<()>
        ensures { Adds (made self.old) (made self.new) (call_of (λ _. Wrote at bytes.now) result ∷ []) };

    /// Sets the number of bytes.
    fn set_len(&mut self, len: usize) -> io::Result<()>
        ensures { Adds (made self.old) (made self.new) (call_of (λ _. SetLength len) result ∷ []) };

    /// Makes durable what was changed.
    fn sync_all(&mut self) -> io::Result<()>
        ensures { Adds (made self.old) (made self.new) (call_of (λ _. Synced) result ∷ []) };

    /// Advises the system to drop its copy of the file. Gives 0, or the number of the error.
    fn drop_cache(&mut self) -> i32
        ensures { Adds (made self.old) (made self.new) (advice_of result ∷ []) };
}

/// A file of the operating system, which tells contracts no calls.
impl FileCalls for File {
    ghost use Rattle.std.specs.Prelude.{None};

    ghost made = { λ _. None };

    fn len(&mut self) -> io::Result<usize> {
        self.metadata().map(|metadata| metadata.len() as usize)
    }

    fn read_exact_at(&mut self, at: usize, out: &mut [u8]) -> io::Result<()> {
        FileExt::read_exact_at(self, out, at as u64)
    }

    fn write_all_at(&mut self, at: usize, bytes: &[u8]) -> io::Result<()> {
        FileExt::write_all_at(self, bytes, at as u64)
    }

    fn set_len(&mut self, len: usize) -> io::Result<()> {
        File::set_len(self, len as u64)
    }

    fn sync_all(&mut self) -> io::Result<()> {
        File::sync_all(self)
    }

    fn drop_cache(&mut self) -> i32 {
        libc::posix_fadvise(self.as_raw_fd(), 0, 0, libc::POSIX_FADV_DONTNEED)
    }
}
