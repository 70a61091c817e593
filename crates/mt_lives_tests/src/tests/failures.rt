//! Lists of events stopped at every call of a disk, with each call failing once, with two calls failing, and with
//! a growth refused.

use super::runs::settles_as;
use super::*;

// Two workers and two crashes, the second followed by another; the last Settle stands behind all.
const CRASHES: &str =
    "put 1 0 a 1, put 2 1 b 1, flush 0, settle, next, put 3 0 c 1, next, put 4 1 a 2, flush 1, open 5 0 d 1 2, flush 0, \
    crash, put 1 1 e 1, flush 1, settle, next, next, put 2 0 b 2, flush 0, crash, crash, get 1 a, put 2 0 g 1, settle, \
    next, next, get 3 g";

// Flushes, and behind them each log opened again, twice since that may fail too, and a Settle.
const FLUSHES: &str =
    "put 1 0 a 1, put 2 1 b 1, flush 0, put 3 0 c 1, flush 1, flush 0, put 4 1 b 2, flush 1, flush 0, reopen 0, \
    reopen 1, reopen 0, reopen 1, settle, next, next, get 5 a";

// Whether the store comes back with what was settled, and serves on: the last Settle ends with a number, and the last get
// finds its pair.
fn comes_back(rt: &impl Abort, alloc: Global, fate: Fate) -> bool {
    let Some(noted) = run(rt, alloc, fate, CRASHES) else {
        return fate.makes_none();
    };
    recovers(&noted, &[11, 19, 20]) && tells(&noted, 25, "settled") && tells(&noted, 26, "found")
}

#[test]
fn a_store_stopped_at_any_call_comes_back(rt: HostRuntime) -> Result<(), Fail> {
    let alloc = rt.alloc();
    let fates = fates_of(&rt, alloc, CRASHES, 20);
    for fate in &fates {
        let fate = fate.stops();
        assert!(rt; comes_back(&rt, alloc, fate), "{fate:?}");
    }
    Ok(())
}

// Whether a Settle ends with the number of the last step, behind flushes of which one may have failed.
fn settles(rt: &impl Abort, alloc: Global, fate: Fate) -> bool {
    match run(rt, alloc, fate, FLUSHES) {
        Some(noted) => settles_as(&noted, 15, 6),
        None => fate.makes_none(),
    }
}

#[test]
fn a_settle_ends_behind_a_call_that_failed(rt: HostRuntime) -> Result<(), Fail> {
    let alloc = rt.alloc();
    let fates = fates_of(&rt, alloc, FLUSHES, 13);
    for fate in &fates {
        assert!(rt; settles(&rt, alloc, *fate), "{fate:?}");
    }
    Ok(())
}

// What is noted of two flushes of a worker's log, each with the log opened again behind it, and a Settle.
fn again(rt: &impl Abort, alloc: Global, worker: u8, fate: Fate) -> Option<Vec<Noted>> {
    let story = format!(in alloc;
        "put 1 {worker} a 1, flush {worker}, reopen {worker}, put 2 {worker} b 1, flush {worker}, reopen {worker}, \
        settle, next, next, get 3 b"
    );
    run(rt, alloc, fate, story.expect(rt, "memory").as_str())
}

// Whether the Settle ends with the number of the last step, behind two calls that failed.
fn settles_again(noted: &[Noted]) -> bool {
    let failed = tells(noted, 1, "device")
        && (tells(noted, 2, "device") || tells(noted, 4, "device"));
    failed && settles_as(noted, 8, 3) && tells(noted, 9, "found")
}

// The first flush makes the calls 4 to 7. A later one fails in the reopening behind it, or in the flush behind that.
#[test]
fn a_settle_ends_behind_two_calls_that_failed(rt: HostRuntime) -> Result<(), Fail> {
    let alloc = rt.alloc();
    for worker in [0, 1] {
        for first in 4..8 {
            // After the last of them the batch counts, and isn't appended again.
            let last = if first == 7 { 15 } else { first + 12 };
            for second in first + 1..last + 1 {
                let fate = Fate(DiskOf::Plain(worker), [first, second], 0);
                let noted = again(&rt, alloc, worker, fate);
                let is_settled = noted.is_some_and(|noted| settles_again(&noted));
                assert!(rt; is_settled, "{fate:?}");
            }
        }
    }
    Ok(())
}

// What is noted of a flush of a worker's log, and a Settle, with no event that opens the log again.
fn unopened(rt: &impl Abort, alloc: Global, worker: u8, fate: Fate) -> Option<Vec<Noted>> {
    let story = format!(in alloc;
        "put 1 {worker} a 1, flush {worker}, put 2 {worker} b 1, settle, next, next"
    );
    run(rt, alloc, fate, story.expect(rt, "memory").as_str())
}

// The Settle opens the log again, and ends with the number of the last step. The flush makes the calls 4 to 7.
#[test]
fn a_settle_opens_a_log_again(rt: HostRuntime) -> Result<(), Fail> {
    let alloc = rt.alloc();
    for worker in [0, 1] {
        for first in 4..8 {
            let fate = Fate(DiskOf::Plain(worker), [first, 0], 0);
            let noted = unopened(&rt, alloc, worker, fate);
            let is_opened = noted.is_some_and(|noted| tells(&noted, 1, "device")
                && settles_as(&noted, 5, 2));
            assert!(rt; is_opened, "{fate:?}");
        }
    }
    Ok(())
}

// With a growth refused in a flush the same is so; elsewhere the test tells of memory. The growths are refused one after
// the other by `tools/refuse-growths/tests-of mt_lives_tests`.
#[test]
fn a_settle_ends_behind_a_growth_that_was_refused(rt: HostRuntime) -> Result<(), Fail> {
    assert!(rt; settles(&rt, rt.alloc(), AMPLE));
    Ok(())
}
