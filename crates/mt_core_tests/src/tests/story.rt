//! One store, call by call.
//! Places of nodes that were taken out are used again, once every operation that was begun before has ended.

use super::asked::taken;
use super::*;
use mt_core::prepare;
use mt_operation::Phase;
use mt_rows::Write;

// The answer to a put that nobody is in the way of, by a worker.
fn put_by(rt: &impl Abort, alloc: Global, state: &mut State, worker: u8, key: &str) -> Answer {
    run(rt, state, worker, 7, put(rt, alloc, key, "v"))
}

// The numbers of the first step, the one of the answer and the last.
fn numbers_of(answer: &Answer) -> (u64, u64, u64) {
    (answer.first, answer.at, answer.last)
}

fn a_get_goes_by_steps(rt: &impl Abort, alloc: Global, state: &mut State) {
    let opening = prepare(alloc, 0, 7, get(rt, alloc, "k", &[]));
    let ticket = state.admit(opening).expect(rt, "the get is taken");
    for phase in [Phase::Enter, Phase::Search, Phase::Load] {
        assert!(rt; state.phase(&ticket) == Some(phase));
        assert!(rt; state.step(&ticket) == Move::Moved);
    }
    assert!(rt; state.noted(&ticket).is_some());
    assert!(rt; state.step(&ticket) == Move::Done);
    assert_eq!(rt; numbers_of(&taken(rt, state, ticket)), (7, 7, 10));
}

#[test]
fn a_put_and_a_get_of_it(rt: HostRuntime) {
    let alloc = rt.alloc();
    let mut state = new_store(&rt, alloc, 0, 2);
    let told = put_by(&rt, alloc, &mut state, 0, "k");
    assert_eq!(rt; numbers_of(&told), (1, 5, 6));
    a_get_goes_by_steps(&rt, alloc, &mut state);
    state.tidy();
    state.facts();
    let numbers = (state.steps(), state.answers(), state.logs());
    assert_eq!(rt; numbers, (10, 2, 0));
}

// A put's stamp, its key, and whether it tells of a row that was there.
type Put = (u64, &'static str, bool);

// The batch that a worker's log is given: the step over which it goes, and its puts.
fn expect_batch(rt: &impl Abort, state: &mut State, worker: u8, from: u64, records: &[Put]) {
    let to = state.steps();
    let batch = drained(rt, state, worker);
    assert_eq!(rt; (batch.from, batch.to), (from, to));
    let told = batch.records.as_slice();
    assert_eq!(rt; told.len(), records.len());
    for (record, (stamp, key, was_there)) in told.iter().zip(records) {
        assert_eq!(rt; (record.stamp, record.tenant), (*stamp, 7));
        assert!(rt; record.key.as_bytes() == key.as_bytes());
        assert!(rt; is_of_put(&record.write, *was_there));
    }
}

// Whether a write is a put's: of changed columns where a row was there, else of the whole row.
fn is_of_put(write: &Write, was_there: bool) -> bool {
    match write {
        Write::Whole(_) => !was_there,
        Write::Changed(_) => was_there,
        Write::Removed => false,
    }
}

#[test]
fn each_log_is_given_its_own_workers_changes_once(rt: HostRuntime) {
    let alloc = rt.alloc();
    let mut state = new_store(&rt, alloc, 2, 100);
    for (worker, key) in [(0, "a"), (1, "b"), (0, "c")] {
        put_by(&rt, alloc, &mut state, worker, key);
    }
    expect_batch(&rt, &mut state, 0, 0, &[(5, "a", false), (17, "c", false)]);
    state.tidy();
    put_by(&rt, alloc, &mut state, 0, "b");
    expect_batch(&rt, &mut state, 1, 0, &[(11, "b", false)]);
    expect_batch(&rt, &mut state, 0, 18, &[(22, "b", true)]);
    expect_batch(&rt, &mut state, 0, 23, &[]);
}

#[test]
fn a_full_batch_ends_at_its_last_change(rt: HostRuntime) {
    let alloc = rt.alloc();
    let mut state = new_store(&rt, alloc, 2, 100);
    put_by(&rt, alloc, &mut state, 1, "a");
    for _ in 0..4_100 {
        put_by(&rt, alloc, &mut state, 0, "a");
    }
    let full = drained(&rt, &mut state, 0);
    let records = full.records.as_slice();
    let last = records.last().map(|record| record.stamp);
    assert_eq!(rt; (full.from, records.len(), last), (0, 4_096, Some(full.to)));
    let rest = drained(&rt, &mut state, 0);
    assert_eq!(rt; (rest.from, rest.to), (full.to, state.steps()));
    assert_eq!(rt; rest.records.as_slice().len(), 4);
}

pub const SIXTEEN_KEYS: [&str; 16] = [
    "a", "b", "c", "d", "e", "f", "g", "h", "i", "j", "k", "l", "m", "n", "o", "p",
];

// Puts, which end not before all of them are begun.
fn put_together(rt: &impl Abort, alloc: Global, state: &mut State, keys: &[&str]) {
    let mut tickets = Vec::new(alloc);
    for key in keys {
        let opening = prepare(alloc, 0, 7, put(rt, alloc, key, "v"));
        let ticket = state.admit(opening).expect(rt, "the put is taken");
        tickets.push(ticket).expect(rt, "memory");
    }
    for ticket in tickets {
        end(rt, state, ticket);
    }
}

#[test]
fn operations_are_begun_in_places_that_were_made(rt: HostRuntime) {
    let alloc = rt.alloc();
    let mut state = new_store(&rt, alloc, 0, 100);
    for more in [0, 3, 1, 40] {
        state.reserve(more).expect(&rt, "memory");
        put_together(&rt, alloc, &mut state, &SIXTEEN_KEYS);
    }
    assert_eq!(rt; state.answers(), 64);
}

// A tenant, columns of a get, and why it is refused.
const REFUSED: [(u32, &[u8], Refusal); 3] = [
    (8, &[16], Refusal::NoTenant(8)),
    (7, &[16], Refusal::Column),
    (7, &[1, 0], Refusal::Column),
];

#[test]
fn the_first_cause_is_told_and_a_begin_is_cancelled(rt: HostRuntime) {
    let alloc = rt.alloc();
    let mut state = new_store(&rt, alloc, 0, 2);
    for &(tenant, columns, cause) in &REFUSED {
        let refused = state.begin(0, tenant, get(&rt, alloc, "k", columns)).err();
        assert_eq!(rt; refused, Some(cause));
    }
    let ticket = state.begin(0, 7, get(&rt, alloc, "k", &[0]));
    let cancelled = state.cancel(ticket.expect(&rt, "the get is taken")).is_ok();
    assert!(rt; cancelled);
}

// Keys that are put and removed, all alone, and how many places there are after 1,000 such cycles: if nothing else is
// open, and if an operation has been open since before the first one.
struct Row {
    put: &'static [&'static str],
    removed: &'static [&'static str],
    alone: u64,
    held: u64,
}

static ROWS: [Row; 2] = [
    // The 16th key splits the border node, and makes a root over both. The removal takes both out.
    Row {
        put: &SIXTEEN_KEYS,
        removed: &["i", "j", "k", "l", "m", "n", "o", "p"],
        alone: 3,
        held: 2_001,
    },
    // The second key makes a layer, whose root the removal takes out with its tree.
    Row {
        put: &["one slice1", "one slice2"],
        removed: &["one slice1", "one slice2"],
        alone: 2,
        held: 1_001,
    },
];

fn cycle(rt: &impl Abort, alloc: Global, state: &mut State, row: &Row) {
    for key in row.put {
        run(rt, state, 0, 7, put(rt, alloc, key, "v"));
    }
    for key in row.removed {
        run(rt, state, 0, 7, remove(rt, alloc, key));
    }
}

#[test]
fn a_store_stays_as_large_as_one_cycle_makes_it(rt: HostRuntime) {
    let alloc = rt.alloc();
    for row in &ROWS {
        let mut state = new_store(&rt, alloc, 0, 100);
        for _ in 0..1_000 {
            cycle(&rt, alloc, &mut state, row);
            assert_eq!(rt; state.places(), row.alone);
        }
    }
}

#[test]
fn no_place_is_used_again_while_an_earlier_operation_is_open(rt: HostRuntime) {
    let alloc = rt.alloc();
    for row in &ROWS {
        let mut state = new_store(&rt, alloc, 0, 100);
        let held = state.begin(0, 7, get(&rt, alloc, row.put[0], &[]));
        let held = held.expect(&rt, "the get is taken");
        assert!(rt; state.step(&held) == Move::Moved);
        for _ in 0..1_000 {
            cycle(&rt, alloc, &mut state, row);
        }
        assert_eq!(rt; state.places(), row.held);
        end(&rt, &mut state, held);
        cycle(&rt, alloc, &mut state, row);
        assert_eq!(rt; state.places(), row.held);
    }
}
