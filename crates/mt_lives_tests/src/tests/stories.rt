//! Stories with what is noted of each row.

ghost use Rattle.mt_state.specs.Begins.{HaveNoPairs};

use super::asked::no_tenants;
use super::runs::calls_in;
use super::*;

// Two workers; a Settle between whose turns a change falls; a crash with an operation in mid-step and a change that is
// in no log; a Settle that a crash ends; a name that is free again in the next life; and a second crash.
const STORY: &str =
    "put 1 0 a 1: new 6, put 2 1 b 1: new 12, settle: begun 12, settle: no such, next: turned, put 3 0 c 1: new 18, \
    next: settled 12, next: no such, put 4 1 b 2: replaced 23, flush 1: flushed 23, flush 2: no such, reopen 0: no such, \
    open 5 0 d 1 2: moved, settle: begun 25, next: turned, crash: recovered 23, next: no such, end 5: nothing, \
    get 1 a: found 29, get 2 c: found 33, get 3 d: absent 36, put 4 1 e 1: new 42, put 5 0 f 1: new 48, \
    flush 0: flushed 48, crash: recovered 25, get 1 b: found 52, get 2 e: absent 55, get 3 f: absent 58, \
    settle: begun 58, next: turned, next: settled 58";

// Two workers; a turn between whose parts a change falls, and one that a crash gives up; each recovery has all that was settled.
const CHECKED: &str =
    "put 1 0 a 1: new 6, put 2 1 b 1: new 12, walk 1: no such, check: check begun 12, check: no such, \
    walk 1: check turned, walk 1: check turned, walk 1: check writes 12, walk 1: begun, walk 1: moved, \
    put 3 0 c 1: new 19, walk 1: moved, walk 1: pairs 3, walk 1: check added, walk 1: check ended 21, check: no such, \
    walk 1: check turned, walk 1: check turned, walk 1: check turned, walk 1: turn ended, walk 1: no such, \
    settle: begun 21, next: turned, next: settled 21, check: check begun 21, walk 5: moved, crash: recovered 21, \
    walk 1: no such, get 1 c: found 25, check: check begun 25, ends: turn ended, get 2 a: found 32";

// Two workers; tidyings before and after flushes, with an operation in mid-step, with answers that wait to be taken, and with
// none; and a crash, which ends an answer that waits, and after which all that was flushed is found.
const TIDIED: &str =
    "tidy: tidied, leave 1 0 a 1: finished, tidy: tidied, put 2 1 b 1: new 12, take 1: new 6, take 1: no such, \
    flush 0: flushed 12, flush 1: flushed 12, tidy: tidied, put 3 0 a 2: replaced 17, open 4 1 d 1 2: moved, take 4: no such, \
    tidy: tidied, end 4: new 23, leave 5 0 c 1: finished, flush 0: flushed 29, flush 1: flushed 29, tidy: tidied, \
    crash: recovered 29, take 5: no such, tidy: tidied, get 1 a: found 33, get 2 b: found 37, get 3 c: found 41, \
    get 4 d: found 45, tidy: tidied, leave 5 0 e 1: finished, settle: begun 51, next: turned, next: settled 51, \
    take 5: new 51, tidy: tidied, get 6 a: found 55";

// A turn in whose Settle the first log's disk fails. None begins before the other log too has all up to the checkpoint's end.
const UNSETTLED: &str =
    "put 1 0 a 1: new 6, put 2 1 b 1: new 12, check: check begun 12, walk 9: check ended 15, walk 1: device, \
    check: no such, settle: begun 15, next: turned, check: no such, next: settled 15, check: check begun 15, \
    ends: turn ended";

// Each row of the story is noted as stands behind it.
fn holds_row_by_row(rt: &impl Abort, alloc: Global, tenants: &Tenants, fate: Fate, story: &str)
    requires { HaveNoPairs tenants.now }
{
    let rows = rows_of(rt, alloc, story);
    let ran = run_store(rt, alloc, tenants, fate, &rows).expect(rt, "logs");
    for (row, noted) in story.split(", ").zip(&ran.noted) {
        let told = text_of(rt, alloc, *noted);
        let (_, wanted) = row.split_once(": ").expect(rt, "a row has two parts");
        assert!(rt; told.as_str() == wanted, "{row}, {told}");
    }
}

fn text_of(rt: &impl Abort, alloc: Global, (word, number): Noted) -> String {
    let text = if number == 0 {
        format!(in alloc; "{word}")
    } else {
        format!(in alloc; "{word} {number}")
    };
    text.expect(rt, "memory")
}

#[test]
fn each_event_is_noted_as_its_row_says(rt: HostRuntime) -> Result<(), Fail> {
    let alloc = rt.alloc();
    let tenants = one_tenant(alloc);
    holds_row_by_row(&rt, alloc, &tenants, AMPLE, STORY);
    holds_row_by_row(&rt, alloc, &tenants, AMPLE, CHECKED);
    holds_row_by_row(&rt, alloc, &tenants, AMPLE, TIDIED);
    // Without tenants there is nothing to walk over.
    let none = "check: no such, ends: no such";
    holds_row_by_row(&rt, alloc, &no_tenants(alloc), AMPLE, none);
    Ok(())
}

#[test]
fn no_turn_begins_before_the_last_checkpoint_is_settled(rt: HostRuntime) -> Result<(), Fail> {
    let alloc = rt.alloc();
    // The disk that has the log of generation 1 fails at its first call after the checkpoint has ended.
    let call = calls_in(&rt, alloc, UNSETTLED, 4)[2];
    let fate = Fate(DiskOf::Odd(0), [call.saturating_add(1), 0], 0);
    holds_row_by_row(&rt, alloc, &one_tenant(alloc), fate, UNSETTLED);
    Ok(())
}

// A stamp that no row has.
const NO_STAMP: u64 = u64::MAX;

// What is noted of puts on condition, with two crashes between. The first of each key tells the stamp that its row has.
fn on_condition(rt: &impl Abort, alloc: Global, stamp: u64) -> Vec<Noted> {
    let story = format!(in alloc;
        "put 1 0 a 1, put_if 2 1 a {NO_STAMP} 2, settle, next, next, crash, put_if 1 0 a {NO_STAMP} 2, put_if 2 0 a {stamp} 2, \
        put_if 3 1 a {stamp} 3, put_if 4 0 b 0 1, put_if 5 1 b 0 2, settle, next, next, crash, put_if 1 1 a {NO_STAMP} 4, \
        put_if 2 1 b {NO_STAMP} 4"
    );
    run(rt, alloc, AMPLE, story.expect(rt, "memory").as_str()).expect(rt, "logs")
}

// The stamp that made a put stale.
fn stale_at(rt: &impl Abort, noted: &[Noted], place: usize) -> u64 {
    match noted.get(place) {
        Some(("stale", stamp)) => *stamp,
        told => panic!(rt; "{place}: {told:?}"),
    }
}

// A put on condition of the first row's stamp, read before a crash, is made after it, once; and a key is made once. The
// rows then keep their stamps over another crash.
fn expect_stamps_kept(rt: &impl Abort, alloc: Global) {
    let noted = on_condition(rt, alloc, NO_STAMP);
    let stamp = stale_at(rt, &noted, 1);
    assert_eq!(rt; stale_at(rt, &noted, 6), stamp);
    let noted = on_condition(rt, alloc, stamp);
    assert!(rt; noted.get(7).is_some_and(|told| told.0 == "replaced"));
    assert!(rt; noted.get(9).is_some_and(|told| told.0 == "new"));
    let (first, second) = (stale_at(rt, &noted, 8), stale_at(rt, &noted, 10));
    let are_later = stamp < first && first < second;
    assert!(rt; are_later, "{stamp}, {first}, {second}");
    assert_eq!(rt; stale_at(rt, &noted, 15), first);
    assert_eq!(rt; stale_at(rt, &noted, 16), second);
}

#[test]
fn stamps_outlive_crashes(rt: HostRuntime) -> Result<(), Fail> {
    expect_stamps_kept(&rt, rt.alloc());
    Ok(())
}
