//! Stores with a log that is older than the others: a copy that was put back, or a log made anew.
//! What is refused of three logs in which one or two bytes are changed, each cause before the next.

ghost use Rattle.std.specs.Prelude.{◌<◌};

use self::Want::{Falls, Pairs, Told};
use super::slots::resume;
use super::*;

// What is appended to the log of each of three workers, a word a batch. `STEP` is what its worker placed since its mark, up to
// that step. `KEPT>STEP` is a resume batch up to a step, and the step that it keeps. Then the step up to which the store is
// recovered, or the worker and the step of its refusal.
type Case = ([&'static str; 3], Result<u64, (u8, u64)>);

// The first recovery found a log that ended at 5, and the store went on from 8.
pub const WHOLE: &str = "6 5>8 9";

const RESUMED: &str = "6 5>8";

const BEFORE: &str = "5";

const NEW: &str = "";

// After a clean end, where all logs went up to 9, the store was started again.
const STARTED: &str = "6 5>8 9 9>9 13";

const CASES: [Case; 19] = [
    // No log is older.
    ([WHOLE, WHOLE, WHOLE], Ok(9)),
    // Each log, put back from before the recovery.
    ([BEFORE, WHOLE, WHOLE], Err((0, 8))),
    ([WHOLE, BEFORE, WHOLE], Err((1, 8))),
    ([WHOLE, WHOLE, BEFORE], Err((2, 8))),
    // A log made anew, and the first of two.
    ([WHOLE, WHOLE, NEW], Err((2, 8))),
    ([WHOLE, BEFORE, NEW], Err((1, 8))),
    // One log alone tells that the store has served, by a batch of no records.
    ([RESUMED, WHOLE, BEFORE], Err((2, 8))),
    // A copy of a log that was made since the recovery can't be told.
    ([WHOLE, RESUMED, WHOLE], Ok(8)),
    // Two recoveries, after each of which the store served: the later one is told.
    (["6 5>8 9 9>12 13", WHOLE, "6 5>8 10 9>12 13"], Err((1, 12))),
    // Of the second recovery one log has its resume batch.
    (["6 5>8 9 9>12", WHOLE, RESUMED], Ok(8)),
    // Two recoveries one after the other, each of which has some of its resume batches.
    (["6 5>8 5>9", "5 5>8", BEFORE], Ok(5)),
    // And the store served after both.
    (["6 5>8 5>9 10", "5 5>8 5>9", "5 5>9"], Ok(9)),
    (["6 5>8 5>9 10", "5 5>8", "5 5>9"], Err((1, 9))),
    // A log from before the clean end goes as far as the start's resume batches, and has none of them.
    ([STARTED, STARTED, STARTED], Ok(13)),
    ([WHOLE, STARTED, STARTED], Err((0, 9))),
    ([STARTED, WHOLE, WHOLE], Err((1, 9))),
    // One that goes past them has none of them either.
    (["9 9>9 13", "10", "9 9>9"], Err((1, 9))),
    // Up to 0 nothing was placed, so no log is told for want of such a resume batch.
    (["0>0 9", "9", "0>0 10"], Ok(9)),
    // A copy, and a log made anew, of a store that never was recovered can't be told.
    (["6 9", BEFORE, NEW], Ok(0)),
];

// What three workers placed, each a put of its own key. Since the first recovery worker 1 has placed nothing, so its batches have no records.
fn placed() -> [Change; 5] {
    [(1, 0), (2, 1), (3, 2), (9, 0), (13, 2)].map(|(stamp, worker)| put(stamp, worker, worker, 1))
}

fn step(text: &str) -> u64 {
    text.parse().unwrap_or(u64::MAX)
}

/// The files of a worker whose log has these batches of what was placed.
pub fn image_with(
    alloc: Global,
    placed: &[Change],
    worker: u8,
    batches: &str,
) -> Result<FileImages, Refusal>
    requires { worker < 3 }
{
    let mut log = new_log(alloc, worker, 3)?;
    for batch in batches.split_whitespace() {
        log = match batch.split_once('>') {
            Some((kept, to)) => resume(alloc, log, step(kept), step(to))?,
            None => append(alloc, log, placed, worker, step(batch))?,
        };
    }
    Ok(image_of_log(alloc, &log)?)
}

// The step up to which a store with these logs is recovered.
fn cutoff_of(alloc: Global, store: [&str; 3]) -> Result<u64, Refusal> {
    let mut images = Vec::new(alloc);
    for worker in 0..3 {
        images.push(image_with(alloc, &placed(), worker, store[usize::from(worker)])?)?;
    }
    let (store, _) = recover_over(alloc, &images, [None, None], 8)?;
    Ok(store.recovered.cutoff)
}

#[test]
fn a_log_that_is_older_than_the_others_is_refused(rt: HostRuntime) {
    for &(store, want) in &CASES {
        let told = cutoff_of(rt.alloc(), store);
        let want = want.map_err(|(number, stamp)| Refusal::StampsFall { number, stamp });
        assert!(rt; told == want, "{store:?}: {told:?}");
    }
}

// Where the last byte of a number stands. The log of worker 0 has a batch from 0 to 6 with puts at 1 and 4; a
// resume batch from 6 to 8 that keeps 5; and a batch from 8 to 9 without records. That of worker 1 has puts at
// 2 and 5, that of worker 2 at 3 and 6. Each put is of another key.
#[derive(Clone, Copy, Debug)]
enum At {
    Worker = 6,
    Logs = 7,
    From = 21,
    To = 29,
    Stamp = 41,
    Tenant = 45,
    Stamp2 = 61,
    Tenant2 = 65,
    Gate = 74,
    ResumeFrom = 87,
    ResumeTo = 95,
    Kept = 103,
    LastTo = 125,
}

// A log, a place in it, and the byte that is put there.
type Edit = (u8, At, u8);

// None, since there is no such log.
const SAME: Edit = (9, At::Worker, 0);

// What is told of logs: so many pairs, that one falls, or another refusal.
#[derive(Clone, Copy)]
enum Want {
    Pairs(usize),
    Falls(u8, u64),
    Told(Refusal),
}

// The files of the first of three workers, changed.
fn images_with(alloc: Global, given: u8, edits: [Edit; 2]) -> Result<Vec<FileImages>, Refusal> {
    let mut images = Vec::new(alloc);
    for worker in 0..given.min(3) {
        let placed = [worker + 1, worker + 4].map(|key| put(u64::from(key), worker, key, 1));
        let mut image = image_with(alloc, &placed, worker, WHOLE)?;
        for (log, place, byte) in edits {
            if log == worker {
                if let Some(old) = image.plain.get_mut(place as usize) {
                    *old = byte;
                }
            }
        }
        images.push(image)?;
    }
    Ok(images)
}

// How many pairs are recovered of these logs.
fn count_of(alloc: Global, given: u8, quota: u32, edits: [Edit; 2]) -> Result<usize, Refusal> {
    let images = images_with(alloc, given, edits)?;
    let (store, _) = recover_over(alloc, &images, [None, None], quota)?;
    Ok(store.recovered.pairs.len())
}

// How many logs are given, the quota of tenant 7, what is changed, and what is told.
const CHANGED: [(u8, u32, Edit, Edit, Want); 34] = [
    (3, 5, SAME, SAME, Pairs(5)),
    // No set: no logs, one of them missing, two of worker 0, one that names four logs.
    (0, 5, SAME, SAME, Told(Refusal::LogCount)),
    (2, 5, SAME, SAME, Told(Refusal::LogCount)),
    (3, 5, (1, At::Worker, 0), SAME, Told(Refusal::LogCount)),
    (3, 5, (2, At::Logs, 4), SAME, Told(Refusal::LogCount)),
    (2, 5, (0, At::Stamp, 0), SAME, Told(Refusal::LogCount)),
    // A resume batch that keeps less.
    (3, 5, (1, At::Kept, 4), SAME, Pairs(4)),
    (3, 5, (1, At::Kept, 0), SAME, Pairs(0)),
    // Batches that don't join, or go back, and one that keeps more than it ends at.
    (3, 5, (1, At::From, 1), SAME, Falls(1, 1)),
    (3, 5, (1, At::To, 7), SAME, Falls(1, 6)),
    (3, 5, (1, At::ResumeFrom, 5), SAME, Falls(1, 5)),
    (3, 5, (1, At::ResumeTo, 5), SAME, Falls(1, 6)),
    (3, 5, (1, At::LastTo, 7), SAME, Falls(1, 8)),
    (3, 5, (1, At::Kept, 9), SAME, Falls(1, 6)),
    // Stamps that don't rise in their batch, or are not over its beginning, or over its end; the first log given.
    (3, 5, (1, At::Stamp2, 2), SAME, Falls(1, 2)),
    (3, 5, (1, At::Stamp2, 1), SAME, Falls(1, 1)),
    (3, 5, (1, At::Stamp, 0), SAME, Falls(1, 0)),
    (3, 5, (1, At::Stamp2, 7), SAME, Falls(1, 7)),
    (3, 5, (2, At::Stamp, 0), (1, At::Stamp2, 7), Falls(1, 7)),
    // A log that is older than the others, after a fall in a single log, and before a stamp in two.
    (3, 5, (1, At::Gate, 0), SAME, Falls(1, 8)),
    (3, 5, (1, At::Gate, 0), (2, At::Stamp, 0), Falls(2, 0)),
    (3, 5, (1, At::Gate, 0), (2, At::Stamp, 1), Falls(1, 8)),
    (3, 5, (1, At::Gate, 0), (0, At::Tenant, 8), Falls(1, 8)),
    // A stamp in two or three logs, the highest of these, also one that is void; the least stamp.
    (3, 5, (1, At::Stamp, 1), SAME, Falls(1, 1)),
    (3, 5, (2, At::Stamp, 1), SAME, Falls(2, 1)),
    (3, 5, (1, At::Stamp, 1), (2, At::Stamp, 1), Falls(2, 1)),
    (3, 5, (0, At::Stamp2, 6), SAME, Falls(2, 6)),
    (3, 5, (1, At::Stamp2, 6), (2, At::Stamp, 1), Falls(2, 1)),
    (3, 5, (0, At::Stamp2, 2), (2, At::Stamp, 0), Falls(2, 0)),
    // Another tenant, behind a fall, and not where it is void.
    (3, 5, (0, At::Tenant, 8), SAME, Told(Refusal::NoTenant(8))),
    (3, 5, (0, At::Tenant, 8), (1, At::Stamp, 0), Falls(1, 0)),
    (3, 5, (2, At::Tenant2, 8), SAME, Pairs(5)),
    // Five pairs where four may be, behind another tenant.
    (3, 4, SAME, SAME, Told(Refusal::OverQuota(7))),
    (3, 1, (2, At::Tenant, 8), SAME, Told(Refusal::NoTenant(8))),
];

#[test]
fn each_refusal_comes_before_the_next(rt: HostRuntime) {
    for &(given, quota, first, second, want) in &CHANGED {
        let want = match want {
            Pairs(pairs) => Ok(pairs),
            Falls(number, stamp) => Err(Refusal::StampsFall { number, stamp }),
            Told(refusal) => Err(refusal),
        };
        let told = count_of(rt.alloc(), given, quota, [first, second]);
        assert!(rt; told == want, "{first:?}, {second:?}: {told:?}");
    }
}
