//! Runs of events, with what each event is told. More of them are scripts of `mt_script_tests`.

ghost use Rattle.std.specs.List.{All};
ghost use Rattle.mt_state.specs.Histories.{IsServed};

use super::asked::one_tenant;
use super::*;
use mt_core::run_events;
use mt_runs::{Event, Told};

// An operation's name, what happens to it, and what it is told by that and by each step behind it. It is a get of a key, a put
// of a key, `=` and a value, a remove of a key and `-`, or a step if nothing stands.
type Row = (u64, &'static str, &'static str);

// A get finds no pair, and before it compares the version a put makes the pair. It stands before the put. A second
// put of another key waits for the lock of the first.
const A_GET_STANDS_BEFORE_A_PUT: [Row; 10] = [
    (1, "k", "begun, moved, moved"),
    (2, "k=v", "begun"),
    (3, "l=w", "begun"),
    (2, "", "moved, moved, moved"),
    (3, "", "moved, again 2"),
    (1, "k", "no such"),
    (2, "", "moved, moved"),
    (1, "", "absent"),
    (2, "", "new, no such"),
    (3, "", "moved, moved, moved, moved, new"),
];

// A get has found a pair, and before it compares the version a remove takes the pair out. It stands before the
// remove. A second remove finds none. A name is given once.
const A_REMOVE_IS_MET: [Row; 9] = [
    (1, "k=v", "begun, moved, moved, moved, moved, moved, new"),
    (3, "k", "begun, moved, moved"),
    (2, "k-", "begun, moved, moved, moved"),
    (3, "", "moved"),
    (2, "", "moved"),
    (3, "", "found"),
    (2, "", "removed"),
    (4, "k-", "begun, moved, moved, absent, no such"),
    (2, "k", "no such"),
];

// The events of a run, by the only worker, for tenant 7.
fn events_of(rt: &impl Abort, alloc: Global, rows: &[Row]) -> Vec<Event>
    ensures { All (IsServed 0) result.items }
{
    let mut events = Vec::new(alloc);
    for row in rows {
        assert!(rt; events.push(event_of(rt, alloc, row)).is_ok());
        push_steps(rt, &mut events, row);
    }
    events
}

// The steps of a row, behind other events.
fn push_steps(rt: &impl Abort, events: &mut Vec<Event>, row: &Row)
    requires { All (IsServed 0) events.old.items }
    ensures { All (IsServed 0) events.new.items }
{
    for _ in row.2.split(", ").skip(1) {
        assert!(rt; events.push(Event::Step { op: row.0 }).is_ok());
    }
}

fn event_of(rt: &impl Abort, alloc: Global, row: &Row) -> Event
    ensures { IsServed 0 result }
{
    let op = row.0;
    if row.1.is_empty() {
        return Event::Step { op };
    }
    let command = match (row.1.split_once('='), row.1.split_once('-')) {
        (Some((key, value)), _) => put(rt, alloc, key, value),
        (None, Some((key, _))) => remove(rt, alloc, key),
        (None, None) => get(rt, alloc, row.1, &[]),
    };
    Event::Begin {
        op,
        worker: 0,
        tenant: 7,
        command,
    }
}

// Lets the events of the rows happen to a new store, and compares what each is told.
fn expect_run(rt: &impl Abort, alloc: Global, rows: &[Row]) {
    let events = events_of(rt, alloc, rows);
    let (_, told) = run_events(alloc, 0, one_tenant(alloc, 2), &events).expect(rt, "memory");
    let mut told = told.as_slice().iter();
    for row in rows {
        for wanted in row.2.split(", ") {
            let told = told.next().map_or("none", |told| text_of(told));
            assert_eq!(rt; told, wanted);
        }
    }
}

// What an event is told, as a row says it.
fn text_of(told: &Told) -> &'static str {
    match told {
        Told::Begun => "begun",
        Told::NoSuch => "no such",
        Told::Moved => "moved",
        Told::Again(2) => "again 2",
        Told::Done(answer) => match &answer.reply {
            Reply::Absent => "absent",
            Reply::Found(_) => "found",
            Reply::New => "new",
            Reply::Removed => "removed",
            _ => "another reply",
        },
        _ => "another",
    }
}

#[test]
fn each_event_is_told_what_its_row_says(rt: HostRuntime) {
    expect_run(&rt, rt.alloc(), &A_GET_STANDS_BEFORE_A_PUT);
    expect_run(&rt, rt.alloc(), &A_REMOVE_IS_MET);
}
