//! A log on which an append failed. It knows where its front ends, with the batch and without.

ghost use Rattle.std.specs.Prelude.{◌≡◌, ◌+◌, ◌<◌, ◌^◌, false, IsTrue, IfOk, IfErr};
ghost use Rattle.mt_log.specs.Failures.{Reopened, StaysFailed};

use crate::log_end::set_right_at;
use crate::log_file::LogFile;
use mt_disk::{DeviceFailed, Disk};
use std::marker::Model;

/// Where a front ends. Seen as the place of its end gate, in bytes, and the step up to which it goes.
#[derive(Drop)]
pub(crate) struct End {
    place: usize,
    mark: u64,
}

impl Model for End {
    ghost use Rattle.std.specs.Prelude.{ℕ, ◌+◌, ◌<◌, ◌^◌};

    ghost Value = { ℕ × ℕ };

    ghost view = { λ e. (e.place, e.mark) };

    ghost invariant = { λ e. e.place + 1 < 2 ^ 64 };
}

impl End {
    pub(crate) fn new(place: usize, mark: u64) -> End
        requires { place + 1 < 2 ^ 64 }
        ensures { result ≡ (place, mark) }
    {
        End { place, mark }
    }
}

/// A log whose disk failed while a batch was appended: the file has the batch whole or not at all. The log
/// knows where its front ends either way, so it is opened again without being read.
#[derive(Drop)]
pub struct FailedLog<D: Disk> {
    disk: D,
    before: End,
    after: End,
}

impl<D: Disk> FailedLog<D> {
    pub(crate) fn new(disk: D, before: End, after: End) -> Self
        ensures { result ≡ record { disk = disk; before = before; after = after } }
    {
        FailedLog {
            disk,
            before,
            after,
        }
    }

    /// Opens the log again: its end is set right, and then the batch counts, or it is gone. If the disk fails,
    /// the log comes back, and may be reopened. A crash at any moment leaves the batch whole or not at all.
    pub fn reopen(mut self) -> Result<LogFile<D>, FailedLog<D>>
        ensures ok { IfOk result (Reopened D.is_honest D.state D.failures self) }
        ensures err { IfErr result (StaysFailed D.is_honest D.state D.failures self) }
    {
        let (before, after) = (self.before.place, self.after.place);
        match set_right_at(&mut self.disk, before, after) {
            Ok(true) => Ok(LogFile::at(self.disk, after, self.after.mark)),
            Ok(false) => Ok(LogFile::at(self.disk, before, self.before.mark)),
            Err(DeviceFailed) => Err(self),
        }
    }

    /// Its disk, to be looked at.
    pub fn disk(&self) -> &D
        ensures { result.now ≡ self.now.disk }
    {
        &self.disk
    }

    /// Its disk.
    pub fn into_disk(self) -> D
        ensures { result ≡ self.disk }
    {
        self.disk
    }
}
