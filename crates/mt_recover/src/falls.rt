//! Whether each log by itself rises and joins, as its own appends leave it.

ghost use Rattle.std.specs.Prelude.{◌≡◌, map, Option};
ghost use Rattle.mt_log.specs.Contents.{contents_of};
ghost use Rattle.mt_recover.specs.Falls.{goes_on, batch_fall, fall_of, first_fall};

use mt_log::{Front, LogBatch};

/// The first number that falls in a log, and the log's worker; of several logs the one that is given
/// first.
pub(crate) fn first_fall(fronts: &[Front]) -> Option<(u8, u64)>
    ensures { result ≡ first_fall (map contents_of fronts.now) }
{
    for front in fronts {
        if let Some(number) = fall_of(front) {
            return Some((front.worker, number));
        }
    }
    None
}

// The first number that falls in a log.
fn fall_of(front: &Front) -> Option<u64>
    ensures { result ≡ fall_of (contents_of front.now) }
{
    let mut mark = front.start;
    for batch in &front.batches {
        if let Some(number) = batch_fall(mark, batch) {
            return Some(number);
        }
        mark = batch.to();
    }
    None
}

// The first number that falls in a batch behind a mark.
fn batch_fall(mark: u64, batch: &LogBatch) -> Option<u64>
    ensures { result ≡ batch_fall mark batch.now }
{
    if batch.from() != mark || !goes_on(batch) {
        return Some(batch.from());
    }
    match batch {
        LogBatch::Records(batch) | LogBatch::OldRecords(batch) => batch.fall(),
        LogBatch::Resume { .. } => None,
    }
}

// Whether a batch doesn't go back, and keeps no more than it ends at.
fn goes_on(batch: &LogBatch) -> bool
    ensures { result ≡ goes_on batch.now }
{
    match batch {
        LogBatch::Records(batch) | LogBatch::OldRecords(batch) => batch.from() <= batch.to(),
        LogBatch::Resume { from, to, kept } => from <= to && kept <= to,
    }
}
