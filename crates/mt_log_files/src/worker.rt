//! The files of one worker.

ghost use Rattle.std.specs.Prelude.{◌≡◌};
ghost use Rattle.mt_recover.specs.declared.resuming.LogSlot.{LogSlot};
ghost use Rattle.mt_log_files.specs.Slots.{closed_files, file_of, with_file};

use mt_disk::Disk;
use mt_recover::LogSlot;
use std::mem;

/// The places of a worker's files: of the plain one, `wal-WW`, and of the two numbered ones, `wal-WW-0` and `wal-WW-1`.
#[derive(Drop)]
pub struct WorkerFiles<D: Disk> {
    pub plain: LogSlot<D>,
    pub even: LogSlot<D>,
    pub odd: LogSlot<D>,
}

impl<D: Disk + Drop> WorkerFiles<D> {
    /// The files on these disks, which have to be opened or made.
    pub fn closed(plain: D, even: D, odd: D) -> Self
        ensures { result ≡ closed_files plain even odd }
    {
        WorkerFiles {
            plain: LogSlot::Closed(plain),
            even: LogSlot::Closed(even),
            odd: LogSlot::Closed(odd),
        }
    }

    /// Puts another place for the file that has a generation's log, and gives what was there.
    pub fn replace(&mut self, generation: u64, slot: LogSlot<D>) -> LogSlot<D>
        ensures was { result ≡ file_of generation self.old }
        ensures is { self.new ≡ with_file generation slot self.old }
    {
        if generation == 0 {
            return mem::replace(&mut self.plain, slot);
        }
        if generation % 2 == 0 {
            mem::replace(&mut self.even, slot)
        } else {
            mem::replace(&mut self.odd, slot)
        }
    }
}
