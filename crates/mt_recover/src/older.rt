//! Whether a log is older than the others, as a copy is that was put back, or a log that was made anew.

ghost use Rattle.std.specs.Prelude.{◌≡◌, ◌≤◌, map, Option, None, MatchOption};
ghost use Rattle.mt_log.specs.Contents.{contents_of};
ghost use Rattle.mt_generations.specs.Chains.{NoneOlderOver};
ghost use Rattle.mt_recover.specs.Older.{IsFirstOlder, served_in, last_served, holds_resume, lacks_resume, lower, least_without};

use mt_log::{Front, LogBatch};

/// The last number from which the store has served, as any of the logs tells, and the least worker whose
/// log lacks the resume batch up to there. None if no log lacks it, as none does if that number is 0.
pub(crate) fn first_older(fronts: &[Front]) -> Option<(u8, u64)>
    ensures { MatchOption result (NoneOlderOver (map contents_of fronts.now)) (λ f. IsFirstOlder (map contents_of fronts.now) f.0 f.1) }
{
    let served = last_served(fronts);
    match least_without(fronts, served) {
        Some(worker) => Some((worker, served)),
        None => None,
    }
}

// The last number from which the store has served, as any of the logs tells, 0 of none.
fn last_served(fronts: &[Front]) -> u64
    ensures { result ≡ last_served (map contents_of fronts.now) }
{
    let mut last = 0;
    for front in fronts {
        last = last.max(served_in(front));
    }
    last
}

// The same of one log: how far the resume batches go that records follow.
fn served_in(front: &Front) -> u64
    ensures { result ≡ served_in 0 front.now.batches.items }
{
    let mut resumed = 0;
    let mut served = 0;
    for batch in &front.batches {
        match batch {
            LogBatch::Records(_) | LogBatch::OldRecords(_) => served = resumed,
            LogBatch::Resume { to, .. } => resumed = resumed.max(*to),
        }
    }
    served
}

// The least worker whose log lacks the resume batch up to a number.
fn least_without(fronts: &[Front], number: u64) -> Option<u8>
    ensures { result ≡ least_without number None (map contents_of fronts.now) }
{
    let mut least = None;
    for front in fronts {
        if lacks_resume(front, number) {
            least = lower(least, front.worker);
        }
    }
    least
}

// Whether a log lacks the resume batch up to a number. One that begins there or later doesn't: it may have
// been given up.
fn lacks_resume(front: &Front, number: u64) -> bool
    ensures { result ≡ lacks_resume number (contents_of front.now) }
{
    front.start < number && !holds_resume(front, number)
}

// Whether a log has a resume batch up to a number.
fn holds_resume(front: &Front, number: u64) -> bool
    ensures { result ≡ holds_resume number front.now.batches.items }
{
    front.batches.iter().any(|batch| matches!(batch, LogBatch::Resume { to, .. } if *to == number))
}

// The lower of two workers, if there are two.
fn lower(least: Option<u8>, worker: u8) -> Option<u8>
    ensures { result ≡ lower least worker }
{
    match least {
        Some(other) => Some(other.min(worker)),
        None => Some(worker),
    }
}
