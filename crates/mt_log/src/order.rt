//! Which batches an append takes, which steps a batch may have, and which of its stamps falls.

ghost use Rattle.std.specs.Prelude.{◌≡◌, ◌↔◌, map, IsTrue};
ghost use Rattle.mt_rows.specs.declared.record.Record.{Record as AnyRecord};
ghost use Rattle.mt_log.specs.{Contents.IsBatch, Falls.fall_in, Reading.{are_steps, is_step, rise_within}};

use crate::batch::MAX_STEP;
use crate::writer::{BODY_LIMIT, RECORDS_HEAD, records_len};
use mt_rows::key::USER_KEY_BYTES;
use mt_rows::{Batch, Record};

/// Whether an append takes a batch: its steps are in order and at most 2^59, its stamps lie over
/// `from` and up to `to`, and both its number of records and its length in bytes fit four bytes.
pub fn fits(batch: &Batch) -> bool
    ensures { IsTrue result ↔ IsBatch batch.now }
{
    let records = batch.records.as_slice();
    if !are_steps(batch.from, batch.to) {
        return false;
    }
    if !rise_within(batch.from, batch.to, records) {
        return false;
    }
    if records.len() >= BODY_LIMIT {
        return false;
    }
    RECORDS_HEAD + records_len(records) < BODY_LIMIT
}

// Whether steps are in order, and not past the greatest.
fn are_steps(from: u64, to: u64) -> bool
    ensures { result ≡ are_steps from to }
{
    from <= to && to <= MAX_STEP
}

// Whether a step is none past the greatest.
pub(crate) fn is_step(to: u64) -> bool
    ensures { result ≡ is_step to }
{
    to <= MAX_STEP
}

// Whether stamps rise strictly over `from` and up to `to`, and keys are user keys.
fn rise_within(from: u64, to: u64, records: &[Record]) -> bool
    ensures { result ≡ rise_within from to records.now }
{
    let mut last = from;
    for record in records {
        if record.stamp <= last
            || record.stamp > to
            || record.key.as_bytes().len() > USER_KEY_BYTES
        {
            return false;
        }
        last = record.stamp;
    }
    true
}

/// The first stamp of records that isn't over the one before it, or is over `to`. The first one is to be over `from`.
pub(crate) fn fall_in(from: u64, to: u64, records: &[Record]) -> Option<u64>
    ensures { result ≡ fall_in from to (map (λ (r : AnyRecord). r.stamp) records.now) }
{
    let mut last = from;
    for record in records {
        if record.stamp <= last || record.stamp > to {
            return Some(record.stamp);
        }
        last = record.stamp;
    }
    None
}
