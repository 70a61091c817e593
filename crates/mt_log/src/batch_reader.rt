//! The batches of a log, read from its disk one after the other.

ghost use Rattle.std.specs.Prelude.{◌≤◌, ◌<◌, ◌^◌};

use crate::batch::ReadBatch;
use crate::fault::ReadFault;
use crate::log_file::{LENGTH_LIMIT, LogFile};
use crate::reader::{FileKind, Head, Start, batch_of};
use crate::windows::{HEAD_BYTES, read_start, read_window};
use mt_disk::Disk;
use std::alloc::Global;

/// Reads the batches of a log one after the other. It has no disk. It knows the log's format, how many bytes the file
/// has, at which of them the next gate is, and what stands there.
#[derive(Clone, Copy)]
pub struct BatchReader {
    version: u8,
    len: usize,
    pub(crate) place: usize,
    pub(crate) head: Head,
    ghost within: { place ≤ len },
    ghost short: { len < 2 ^ 63 },
}

impl BatchReader {
    ghost use Rattle.std.specs.Prelude.{◌≡◌, List, drop, IsTrue, IfOk, IfErr, IfSome, OnErr, MatchResult};
    ghost use Rattle.mt_log.specs.declared.batch.{LogBatch.LogBatch};
    ghost use Rattle.mt_log.specs.{Contents.{Contents, IsLogBatch}, Fronts.IsOfKind, Logs.IsLogOf};
    ghost use Rattle.mt_log.specs.Rereading.{AreAhead, GivesFirst, IsOnlyRead, CountsReads, IsNotBad};
    ghost use Rattle.mt_log.specs.Stops.{OfImage, IsHead, IsGivenBy, IsFoundBy};

    /// At the first gate of a log that begins so, in a file of this length.
    pub(crate) fn new(start: Start, len: usize) -> BatchReader
        requires within { start.place ≤ len }
        requires short { len < 2 ^ 63 }
        ensures version { result.version ≡ start.version }
        ensures len { result.len ≡ len }
        ensures place { result.place ≡ start.place }
        ensures head { result.head ≡ start.head }
    {
        BatchReader {
            version: start.version,
            len,
            place: start.place,
            head: start.head,
        }
    }

    /// The batch at the gate. None if no batch in the log's format stands there.
    pub(crate) fn step<D: Disk>(
        &mut self,
        alloc: Global,
        disk: &mut D,
    ) -> Result<Option<ReadBatch>, ReadFault>
        ensures version { self.new.version ≡ self.old.version }
        ensures len { self.new.len ≡ self.old.len }
        ensures given { IfOk result (λ given. IsGivenBy self.old given self.new) }
        ensures told { IfOk result (λ given. OfImage D.is_honest D.state disk.old self.old.len (λ image. IsHead (drop self.old.place image) self.old.head → IsFoundBy image self.old given self.new)) }
        ensures stays { OnErr result (self.new ≡ self.old) }
        ensures err { IfErr result IsNotBad }
        ensures same { IsTrue (D.is_honest disk.old) → D.state disk.new ≡ D.state disk.old }
        ensures honest { D.is_honest disk.new ≡ D.is_honest disk.old }
        ensures count { CountsReads result (D.failures disk.old) (D.failures disk.new) }
    {
        let Head::Open(size) = self.head else {
            return Ok(None);
        };
        let size = size as usize;
        if self.len - self.place < HEAD_BYTES + size {
            return Ok(None);
        }
        let place = self.place + HEAD_BYTES;
        let bytes = read_window(alloc, disk, self.len, place, size + HEAD_BYTES)?;
        let Some((read, head)) = batch_of(alloc, self.version, size, &bytes)? else {
            return Ok(None);
        };
        self.place = place + size;
        self.head = head;
        Ok(Some(read))
    }

    /// Begins to read a log again that is at rest, in a file of this kind.
    pub fn begin<D: Disk>(
        alloc: Global,
        log: &mut LogFile<D>,
        kind: FileKind,
    ) -> Result<BatchReader, ReadFault>
        ensures all { IsTrue (D.is_honest log.old.disk) → (c : Contents) → IsLogOf D.state c log.old → IsOfKind kind c.generation
            → MatchResult result (λ reader. AreAhead c.batches (D.state log.old.disk).image reader) IsNotBad }
        ensures log { IsOnlyRead D.is_honest D.state log.old log.new }
        ensures count { CountsReads result (D.failures log.old.disk) (D.failures log.new.disk) }
    {
        if log.end() >= LENGTH_LIMIT - 1 {
            return Err(ReadFault::Memory);
        }
        let len = log.end() + 1;
        let start = read_start(alloc, &mut log.disk, kind, len)?;
        Ok(BatchReader::new(start, len))
    }

    /// Reads the next batch of that log. None if no batch in its format stands at the gate: over a disk that keeps its
    /// rules, after the last one.
    pub fn next<D: Disk>(
        &mut self,
        alloc: Global,
        log: &mut LogFile<D>,
    ) -> Result<Option<ReadBatch>, ReadFault>
        ensures first { IsTrue (D.is_honest log.old.disk) → (batches : List LogBatch) → AreAhead batches (D.state log.old.disk).image self.old
            → IfOk result (λ given. GivesFirst batches (D.state log.old.disk).image given self.new) }
        ensures format { IfOk result (λ given. IfSome given (λ read. IsLogBatch self.old.version read.batch)) }
        ensures version { self.new.version ≡ self.old.version }
        ensures stays { OnErr result (self.new ≡ self.old) }
        ensures err { IfErr result IsNotBad }
        ensures log { IsOnlyRead D.is_honest D.state log.old log.new }
        ensures count { CountsReads result (D.failures log.old.disk) (D.failures log.new.disk) }
    {
        self.step(alloc, &mut log.disk)
    }
}
