//! A log that is read again, batch by batch, until it has a record to give.

ghost use Rattle.std.specs.Prelude.{◌≡◌, ◌<◌, ◌≤◌, ◌+◌, [], length, IfErr, OnOk, OnErr};
ghost use Rattle.mt_log.specs.{Contents.contents_of, Voids.records_in};
ghost use Rattle.mt_recover.specs.{Falls.fall_of, Outlines.{is_again, rises_again, Agrees, with_batch_at}, Lanes.{IsFull, work, ReadsOn, StopsReading}};
ghost use Rattle.mt_rows.specs.declared.refusal.Refusal.TheVariants.{Device};

use crate::source::Source;
use mt_log::{Front, LogBatch, LoggedBatch, ReadBatch};
use mt_rows::{Record, Refusal};
use std::alloc::Global;
use std::collections::VecDeque;

/// How many batches of a log were read again, and the records of the last of these that were not taken yet.
#[derive(Drop)]
pub(crate) struct Lane {
    pub read: usize,
    pub left: VecDeque<Record>,
}

impl Lane {
    /// None were read.
    pub(crate) fn new(alloc: Global) -> Lane
        ensures read { result.read ≡ 0 }
        ensures left { result.left.items ≡ [] }
    {
        Lane {
            read: 0,
            left: VecDeque::new(alloc),
        }
    }
}

/// Reads on until records of a log are left, or it is at its end. Each batch comes into the place of the one that was
/// read first, and `Device` tells that they don't agree.
pub(crate) fn fill<S: Source>(
    alloc: Global,
    source: &mut S,
    log: usize,
    front: &mut Front,
    lane: &mut Lane,
) -> Result<(), Refusal>
    requires log { log < S.logs source.old }
    requires within { lane.old.read ≤ length front.old.batches.items }
    requires rises { fall_of (contents_of front.old) ≡ None }
    ensures on { OnOk result (ReadsOn S.logs S.follows S.left log source.old (contents_of front.old) lane.old source.new (contents_of front.new) lane.new) }
    ensures full { OnOk result (IsFull (contents_of front.new) lane.new) }
    ensures work { OnOk result (work (contents_of front.new) lane.new ≤ work (contents_of front.old) lane.old) }
    ensures stops { IfErr result (StopsReading S.logs S.follows S.left S.refused log source.old (contents_of front.old) lane.old source.new (contents_of front.new)) }
{
    while lane.left.len() == 0 {
        match source.next(alloc, log)? {
            Some(again) => take(front, lane, again)?,
            None => return check_end(front, lane),
        }
    }
    Ok(())
}

// Whether all batches were read again.
fn check_end(front: &Front, lane: &Lane) -> Result<(), Refusal>
    ensures ok { OnOk result (length front.now.batches.items ≤ lane.now.read) }
    ensures err { IfErr result (λ e. (e ≡ Device) × (lane.now.read < length front.now.batches.items)) }
{
    if lane.read < front.batches.len() {
        return Err(Refusal::Device);
    }
    Ok(())
}

// Puts a batch into the place of the one that was read first, if they agree.
fn take(front: &mut Front, lane: &mut Lane, again: ReadBatch) -> Result<(), Refusal>
    ensures agree { OnOk result (Agrees again.batch front.old.batches.items lane.old.read) }
    ensures batches { OnOk result (contents_of front.new ≡ with_batch_at (contents_of front.old) lane.old.read again.batch) }
    ensures read { OnOk result (lane.new.read ≡ lane.old.read + 1) }
    ensures left { OnOk result (lane.new.left.items ≡ records_in again.batch) }
    ensures err { IfErr result (λ e. (e ≡ Device) × ¬ Agrees again.batch front.old.batches.items lane.old.read) }
    ensures same { OnErr result (contents_of front.new ≡ contents_of front.old) }
{
    let ReadBatch { batch, records } = again;
    let place = lane.read;
    if place >= front.batches.len() || !is_again(&front.batches[place], &batch) {
        return Err(Refusal::Device);
    }
    front.batches[place] = batch;
    lane.read = place + 1;
    lane.left = VecDeque::from(records);
    Ok(())
}

// Whether a batch is what it was but for its records, and its stamps rise.
fn is_again(first: &LogBatch, again: &LogBatch) -> bool
    ensures { result ≡ is_again first.now again.now }
{
    match (first, again) {
        (LogBatch::Records(first), LogBatch::Records(again))
        | (LogBatch::OldRecords(first), LogBatch::OldRecords(again)) => rises_again(first, again),
        (
            LogBatch::Resume { from, to, kept },
            LogBatch::Resume {
                from: from_again,
                to: to_again,
                kept: kept_again,
            },
        ) => from == from_again && to == to_again && kept == kept_again,
        _ => false,
    }
}

// The same of two batches of records.
fn rises_again(first: &LoggedBatch, again: &LoggedBatch) -> bool
    ensures { result ≡ rises_again first.now again.now }
{
    first.from() == again.from() && first.to() == again.to() && again.fall().is_none()
}
