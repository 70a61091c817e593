//! What a log says: its batches, as they were read or are appended.
//!
//! Units: steps are numbered from 1; a batch goes over step `from` and up to step `to`.

ghost use Rattle.std.specs.Prelude.{◌≡◌, ◌++◌, IfOk};
ghost use Rattle.mt_log.specs.Voids.{records_in};

use crate::order::fall_in;
use mt_rows::Record;
use std::alloc::{AllocError, Global};
use std::fmt;
use std::marker::Model;
use std::snapshot::Snapshot;

/// The greatest number of a step.
pub const MAX_STEP: u64 = 1 << 59;

/// A batch of records as it stands in a log. It is in the format, and seen as a `Batch`; but its steps
/// and its stamps may be any, so that no `Batch` is made of it. In memory it has none of its records: only its steps,
/// and its first stamp that falls.
#[derive(Drop)]
pub struct LoggedBatch {
    from: u64,
    to: u64,
    fall: Option<u64>,
    records: Snapshot<Vec<Record>>,
}

impl Model for LoggedBatch {
    ghost use Rattle.std.specs.Prelude.{◌≡◌, map};
    ghost use Rattle.mt_rows.specs.{declared.record.Batch.Batch, declared.record.Record.Record};
    ghost use Rattle.mt_log.specs.Falls.{fall_in};

    ghost Value = { Batch };

    ghost view = { λ b. record { from = b.from; to = b.to; records = b.records.value.items } };

    ghost invariant = { λ b. b.fall ≡ fall_in b.from b.to (map (λ (r : Record). r.stamp) b.records.value.items) };
}

impl LoggedBatch {
    ghost use Rattle.std.specs.Prelude.{map};
    ghost use Rattle.mt_rows.specs.declared.record.Record.{Record as AnyRecord};
    ghost use Rattle.mt_log.specs.Falls.{fall_in};

    // A batch of these records.
    fn new(from: u64, to: u64, records: &Vec<Record>) -> LoggedBatch
        ensures { result ≡ record { from = from; to = to; records = records.now.items } }
    {
        LoggedBatch {
            from,
            to,
            fall: fall_in(from, to, records),
            records: Snapshot::of(records),
        }
    }

    /// The step over which it is to go.
    pub fn from(&self) -> u64
        ensures { result ≡ self.now.from }
    {
        self.from
    }

    /// The step up to which it goes, at most 2^59.
    pub fn to(&self) -> u64
        ensures { result ≡ self.now.to }
    {
        self.to
    }

    /// Its first stamp that isn't over the one before it, or is past its end; the first one is to be over `from`.
    pub fn fall(&self) -> Option<u64>
        ensures { result ≡ fall_in self.now.from self.now.to (map (λ (r : AnyRecord). r.stamp) self.now.records) }
    {
        self.fall
    }
}

// A batch is printed with what it has in memory.
impl fmt::Debug for LoggedBatch {
    fn fmt<W: fmt::Write>(&self, f: &mut fmt::Formatter<W>) -> fmt::Result {
        f.debug_struct("LoggedBatch")
            .field("from", &self.from)
            .field("to", &self.to)
            .field("fall", &self.fall)
            .finish()
    }
}

/// A batch as it stands in a log: in the format, whatever its steps and its stamps say.
#[derive(Debug, Drop)]
pub enum LogBatch {
    /// A worker's placed changes.
    Records(LoggedBatch),
    /// The same, as format 1 has them: no record tells of changed columns. It is read, and not written.
    OldRecords(LoggedBatch),
    /// After a recovery: records of any log with a stamp over `kept` and at most `to` are void.
    Resume { from: u64, to: u64, kept: u64 },
}

impl LogBatch {
    ghost use Rattle.mt_log.specs.Contents.{from_of, to_of};

    /// The step over which it goes.
    pub fn from(&self) -> u64
        ensures { result ≡ from_of self.now }
    {
        match self {
            LogBatch::Records(batch) | LogBatch::OldRecords(batch) => batch.from(),
            LogBatch::Resume { from, .. } => *from,
        }
    }

    /// The step up to which it goes.
    pub fn to(&self) -> u64
        ensures { result ≡ to_of self.now }
    {
        match self {
            LogBatch::Records(batch) | LogBatch::OldRecords(batch) => batch.to(),
            LogBatch::Resume { to, .. } => *to,
        }
    }
}

/// A batch with its records, as it was read.
#[derive(Debug, Drop)]
pub struct ReadBatch {
    pub batch: LogBatch,
    pub records: Vec<Record>,
    pub ghost whole: { records.items ≡ records_in batch },
}

impl ReadBatch {
    ghost use Rattle.mt_log.specs.{declared.batch.LogBatch.LogBatch, Reading.read_as};

    /// A batch of these records: an old one, or not.
    pub(crate) fn of_records(old: bool, from: u64, to: u64, records: Vec<Record>) -> ReadBatch
        ensures { result.batch ≡ read_as old (record { from = from; to = to; records = records.items }) }
    {
        let batch = LoggedBatch::new(from, to, &records);
        let batch = if old {
            LogBatch::OldRecords(batch)
        } else {
            LogBatch::Records(batch)
        };
        ReadBatch { batch, records }
    }

    /// A resume batch.
    pub(crate) fn resume(alloc: Global, from: u64, to: u64, kept: u64) -> ReadBatch
        ensures { result.batch ≡ LogBatch.Resume from to kept }
    {
        ReadBatch {
            batch: LogBatch::Resume { from, to, kept },
            records: Vec::new(alloc),
        }
    }
}

/// What was read of a log: the number of its format, its worker, of how many logs it is, its generation, the step after
/// which it begins, and its batches. Generation and start are 0 for formats 1 and 2.
#[derive(Debug, Drop)]
pub struct Front {
    pub version: u8,
    pub worker: u8,
    pub logs: u8,
    pub generation: u64,
    pub start: u64,
    pub batches: Vec<LogBatch>,
}

impl Front {
    ghost use Rattle.mt_log.specs.Contents.{contents_of};

    /// This log with that of the next generation after it: its own beginning, and the batches of both. Whether the next
    /// one begins where this one ends is not asked.
    pub fn join(mut self, next: Front) -> Result<Front, AllocError>
        ensures { IfOk result (λ whole. contents_of whole ≡ record (contents_of self) { batches = self.batches.items ++ next.batches.items }) }
    {
        let mut batches = next.batches;
        self.batches.append(&mut batches)?;
        Ok(self)
    }
}
