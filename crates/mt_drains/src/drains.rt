//! The next batch of a worker's log.

ghost use Rattle.std.specs.{Prelude.{ℕ, ◌≡◌, ◌++◌, ◌≤◌, ◌^◌, [], ◌∷◌, length, IfOk, OnOk}, List.All};
ghost use Rattle.mt_rows.specs.Commands.{IsKey};
ghost use Rattle.mt_batches.specs.Batches.{IsRecord, IsBounded, BringsOn, IsWrite};
ghost use Rattle.mt_tape.specs.{Tapes.{RisesOver, last_write}, Histories.logged};
ghost use Rattle.mt_drains.specs.Drains.{record_of, records_of, IsNextBatch, Gathers};

use mt_batches::MAX_RECORDS;
use mt_rows::{Batch, Record, Records, Write};
use mt_tape::{Entry, Tape};
use std::alloc::{AllocError, Global};

/// The next batch of a worker's log, with the worker's number. Only `batch_after` makes one, so no other
/// worker's changes can pass for these.
#[derive(Debug, Drop)]
pub struct DrainedBatch {
    worker: u8,
    batch: Batch,
}

impl DrainedBatch {
    /// Whose changes it has.
    pub fn worker(&self) -> u8
        ensures { result ≡ self.now.worker }
    {
        self.worker
    }

    /// The changes.
    pub fn batch(&self) -> &Batch
        ensures { result.now ≡ self.now.batch }
    {
        &self.batch
    }

    /// The changes alone.
    pub fn into_batch(self) -> Batch
        ensures { result ≡ self.batch }
    {
        let DrainedBatch { worker: _, batch } = self;
        batch
    }
}

/// The next batch of a worker's log that has the worker's changes up to a step: the changes after that, the
/// oldest first, all of them up to `steps`, the last step that was made, or the first 4,096. `after` and `steps`
/// are steps, as records are stamped with them. An error comes if memory is refused.
pub fn batch_after(
    alloc: Global,
    tape: &Tape,
    worker: u8,
    after: u64,
    steps: u64,
) -> Result<DrainedBatch, AllocError>
    requires keys { All (λ e. IsKey e.key) tape.now.entries }
    requires made { last_write tape.now ≤ steps }
    requires order { after ≤ steps }
    requires few { steps ≤ 2 ^ 59 }
    ensures worker { IfOk result (λ drained. drained.worker ≡ worker) }
    ensures is { IfOk result (λ drained. IsNextBatch worker after steps tape.now.entries drained.batch) }
    ensures bounded { IfOk result (λ drained. IsBounded drained.batch) }
    ensures brings { (upto : ℕ) → upto ≤ steps → IfOk result (λ drained. BringsOn upto drained.batch) }
{
    let first = tape.count_upto(after);
    let mut records = Vec::new(alloc);
    let full = gather(&mut records, tape, worker, first)?;
    let batch = Batch {
        from: after,
        to: full.unwrap_or(steps),
        records: Records::new(records),
    };
    Ok(DrainedBatch { worker, batch })
}

// Takes a worker's changes from a place on, up to 4,096 of them; the step of the last one if there are so many.
fn gather(
    records: &mut Vec<Record>,
    tape: &Tape,
    worker: u8,
    first: usize,
) -> Result<Option<u64>, AllocError>
    requires none { records.old.items ≡ [] }
    requires rises { RisesOver tape.now.floor tape.now.entries }
    ensures gathers { IfOk result (Gathers worker first tape.now.entries records.new.items) }
    ensures few { IfOk result (λ _. length records.new.items ≤ 4096) }
    ensures limits { IfOk result (λ _. All (λ r. IsKey r.key → IsRecord r) records.new.items) }
{
    for place in first..tape.len() {
        let Some(entry) = tape.entry(place) else {
            unreachable!()
        };
        take(records, entry, worker)?;
        if records.len() == MAX_RECORDS {
            return Ok(Some(entry.step));
        }
    }
    Ok(None)
}

// Takes a placed change, if it is one of this worker's operations.
fn take(records: &mut Vec<Record>, entry: &Entry, worker: u8) -> Result<(), AllocError>
    ensures given { OnOk result (records.new.items ≡ records.old.items ++ records_of worker (entry.now ∷ [])) }
    ensures limits { All (λ r. IsKey r.key → IsRecord r) records.old.items → OnOk result (All (λ r. IsKey r.key → IsRecord r) records.new.items) }
{
    if entry.worker == worker {
        records.push(recorded(entry)?)?;
    }
    Ok(())
}

// A placed change, as it is logged.
fn recorded(entry: &Entry) -> Result<Record, AllocError>
    ensures is { IfOk result (λ r. r ≡ record_of entry.now) }
    ensures limits { IfOk result (λ r. IsKey r.key → IsRecord r) }
{
    let write = logged(entry)?;
    let key = entry.key.clone()?;
    let (stamp, tenant) = (entry.step, entry.tenant);
    Ok(Record {
        stamp,
        tenant,
        key,
        write,
    })
}

// What a log tells of a placed change. It shares the row, or the columns that were changed.
fn logged(entry: &Entry) -> Result<Write, AllocError>
    ensures is { IfOk result (λ write. write ≡ logged entry.now) }
    ensures limits { IfOk result IsWrite }
{
    match (&entry.after, &entry.before, &entry.change) {
        (None, _, _) => Ok(Write::Removed),
        (Some(_), Some(_), Some(change)) => {
            // For the proof: a change is within its limits.
            let _columns = change.columns();
            Ok(Write::Changed(change.share()?))
        }
        (Some(row), _, _) => {
            // For the proof: a row is within its limits.
            let _columns = row.columns();
            Ok(Write::Whole(row.share()?))
        }
    }
}
