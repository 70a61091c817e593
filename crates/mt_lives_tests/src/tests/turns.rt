//! Turns in lists of events stopped at every call of a disk, and with each call failing once.

use super::runs::{Ran, standing};
use super::*;

// Two workers. Two turns, the first with a put in its walk; a third one with a crash in it; a turn of the next life; a
// crash followed by another; and two turns more.
const TURNS: &str =
    "put 1 0 a 1, put 2 1 b 1, check, walk 5, put 3 0 c 1, ends, put 4 1 a 2, settle, next, next, check, ends, \
    put 5 0 d 1, check, walk 5, crash, put 1 1 e 1, settle, next, next, check, ends, crash, crash, get 1 a, get 2 b, \
    get 3 c, get 4 e, put 5 0 g 1, settle, next, next, get 6 g, check, ends, check, ends";

// The crashes. All calls up to the last one may fail.
const CRASHED: [usize; 3] = [15, 22, 23];

// A Settle, and a get of what was put before it.
const FOUND: [(usize, usize); 5] = [(9, 24), (9, 25), (9, 26), (19, 27), (31, 32)];

// The ends of the turns before the last crash.
const EARLIER: [usize; 3] = [5, 11, 21];

// So many rows end with a turn, which leaves this generation. The third turn is made in the second life. After the later
// crashes one generation stands, so the next turn begins another.
const LEAVES: [(usize, u64); 5] = [(6, 1), (12, 2), (22, 3), (35, 4), (37, 5)];

// Whether the store comes back with what was settled, and serves on: a Settle and two turns end.
fn comes_back(noted: &[Noted]) -> bool {
    let found = FOUND.iter().all(|row| !tells(noted, row.0, "settled")
        || tells(noted, row.1, "found"));
    recovers(noted, &CRASHED)
        && found
        && tells(noted, 31, "settled")
        && tells(noted, 34, "turn ended")
        && tells(noted, 36, "turn ended")
}

// How many turns ended before the last crash.
fn ended(noted: &[Noted]) -> usize {
    EARLIER
        .iter()
        .filter(|place| tells(noted, **place, "turn ended"))
        .count()
}

// Whether that is so, and one generation stands then, which is later than all before the last crash. If one call fails
// alone, one of the turns at most doesn't end.
fn turns_on(rt: &impl Abort, fate: Fate, ran: &Ran) -> bool {
    comes_back(&ran.noted)
        && standing(rt, &ran.store).is_some_and(|generation| generation > ran.before)
        && (fate.2 > 0 || ended(&ran.noted) >= 2)
}

fn holds(rt: &impl Abort, alloc: Global, fate: Fate) -> bool {
    let rows = rows_of(rt, alloc, TURNS);
    match run_store(rt, alloc, &one_tenant(alloc), fate, &rows) {
        Some(ran) => turns_on(rt, fate, &ran),
        None => fate.makes_none(),
    }
}

#[test]
fn a_store_with_turns_stopped_at_any_call_comes_back(rt: HostRuntime) -> Result<(), Fail> {
    let alloc = rt.alloc();
    let fates = fates_of(&rt, alloc, TURNS, 23);
    for fate in &fates {
        let fate = fate.stops();
        assert!(rt; holds(&rt, alloc, fate), "{fate:?}");
    }
    Ok(())
}

#[test]
fn a_turn_goes_on_after_a_call_that_failed(rt: HostRuntime) -> Result<(), Fail> {
    let alloc = rt.alloc();
    let fates = fates_of(&rt, alloc, TURNS, 23);
    for fate in &fates {
        assert!(rt; holds(&rt, alloc, *fate), "{fate:?}");
    }
    Ok(())
}

// The generation that the first rows leave.
fn left_by(rt: &impl Abort, alloc: Global, count: usize) -> Option<u64> {
    let rows = rows_of(rt, alloc, TURNS);
    let rows = rows.get(..count).unwrap_or(&[]);
    let ran = run_store(rt, alloc, &one_tenant(alloc), AMPLE, rows)?;
    standing(rt, &ran.store)
}

#[test]
fn one_generation_stands_after_a_turn(rt: HostRuntime) -> Result<(), Fail> {
    let alloc = rt.alloc();
    for &(count, generation) in &LEAVES {
        let left = left_by(&rt, alloc, count);
        assert!(rt; left == Some(generation), "{count}: {left:?}");
    }
    Ok(())
}
