//! A file that is only read: what is written to it, and what is cut off, stays in memory.

ghost use Rattle.std.specs.Prelude.{[], false};
ghost use Rattle.mt_disk.specs.{Disk.found_with, Files.at_rest};

use mt_disk::{FileFault, SystemFile};
use std::alloc::Global;
use std::fs::File;
use std::io;
use std::os::fd::AsRawFd;
use std::os::unix::fs::FileExt;

/// A file of the system that was opened for reading alone, or one of no bytes that the system doesn't have. What is written
/// stands in memory, for a few small changes. Contracts see no state of it, as of an `OsFile`.
#[derive(Drop)]
pub struct ReadFile {
    alloc: Global,
    file: Option<File>,
    // So many of the file's first bytes were never cut off.
    kept: usize,
    len: usize,
    writes: Vec<Written>,
    last_error: Option<i32>,
}

// Bytes that were written at a place.
#[derive(Drop)]
struct Written {
    at: usize,
    bytes: Vec<u8>,
}

impl Written {
    // Lets go of what stands from a place on. Whether anything is left.
    fn cut_to(&mut self, len: usize) -> bool {
        self.bytes.truncate(len.saturating_sub(self.at));
        !self.bytes.is_empty()
    }

    // Puts its bytes into a window that begins at a place, as far as they lie in it.
    fn show_in(&self, at: usize, window: &mut [u8]) {
        for (offset, byte) in self.bytes.iter().enumerate() {
            let place = self.at.saturating_add(offset);
            if let Some(shown) = window.get_mut(place.wrapping_sub(at)) {
                *shown = *byte;
            }
        }
    }
}

impl ReadFile {
    /// A file that is there.
    pub fn found(alloc: Global, file: File) -> io::Result<Self> {
        let len = file.metadata()?.len() as usize;
        Ok(ReadFile {
            alloc,
            file: Some(file),
            kept: len,
            len,
            writes: Vec::new(alloc),
            last_error: None,
        })
    }

    /// One that the system doesn't have.
    pub fn made(alloc: Global) -> Self {
        ReadFile {
            alloc,
            file: None,
            kept: 0,
            len: 0,
            writes: Vec::new(alloc),
            last_error: None,
        }
    }

    // Fills a window with what the system has from a place on.
    fn read_found(&mut self, at: usize, window: &mut [u8]) -> Result<(), FileFault> {
        let Some(file) = &self.file else {
            return Ok(());
        };
        match file.read_exact_at(window, at as u64) {
            Ok(()) => Ok(()),
            Err(error) => {
                self.last_error = error.raw_os_error();
                Err(FileFault::Failed)
            }
        }
    }
}

impl SystemFile for ReadFile {
    ghost is_honest = { λ _. false };

    ghost state = { λ _. at_rest (found_with []) };

    fn len(&mut self) -> Result<usize, FileFault> {
        Ok(self.len)
    }

    fn read_at(&mut self, at: usize, out: &mut [u8]) -> Result<(), FileFault> {
        if self.len.saturating_sub(at) < out.len() {
            return Err(FileFault::Failed);
        }
        let found = self.kept.saturating_sub(at).min(out.len());
        let (front, rest) = out.split_at_mut(found);
        self.read_found(at, front)?;
        rest.fill(0);
        for written in &self.writes {
            written.show_in(at, out);
        }
        Ok(())
    }

    fn write_at(&mut self, at: usize, bytes: &[u8]) -> Result<(), FileFault> {
        let bytes = bytes.to_vec(self.alloc)?;
        let end = at.saturating_add(bytes.len());
        self.writes.push(Written { at, bytes })?;
        self.len = self.len.max(end);
        Ok(())
    }

    fn cut(&mut self, len: usize) -> Result<(), FileFault> {
        self.writes.retain_mut(|written| written.cut_to(len));
        self.kept = self.kept.min(len);
        self.len = len;
        Ok(())
    }

    fn cut_again(&mut self, len: usize) -> Result<(), FileFault> {
        self.cut(len)
    }

    fn sync(&mut self) -> Result<(), FileFault> {
        Ok(())
    }

    /// What is read next comes from the device, as at a start, if the system has nothing of the file to write.
    fn drop_cache(&mut self) -> Result<(), FileFault> {
        let Some(file) = &self.file else {
            return Ok(());
        };
        let advised = libc::posix_fadvise(file.as_raw_fd(), 0, 0, libc::POSIX_FADV_DONTNEED);
        if advised != 0 {
            self.last_error = Some(advised);
            return Err(FileFault::Failed);
        }
        Ok(())
    }

    fn last_error(&self) -> Option<i32> {
        self.last_error
    }
}
