//! What is asked of a store: the rows of a story, and the events that they stand for.
//!
//! A row is a word and what it needs, of two workers, 0 and 1, and of one Settle. An operation of tenant 7 has a number:
//!
//! - `put OP WORKER KEY VALUE`, with all its steps; `put_if OP WORKER KEY STAMP VALUE`, on condition of a stamp;
//! - `open OP WORKER KEY VALUE STEPS`, a put that makes some steps and stays open; `end OP`, its other steps;
//! - `leave OP WORKER KEY VALUE`, a put with all its steps, whose answer waits; `take OP`, that answer;
//! - `get OP KEY`, with all its steps;
//! - `flush WORKER`, `reopen WORKER`, `tidy`, `settle`, `next` and `crash`;
//! - `check`: the turn of a checkpoint begins; `walk PARTS`: it goes on by so many; `ends`: by all.

ghost use Rattle.std.specs.{Prelude.{◌≡◌}, List.All};
ghost use Rattle.mt_state.specs.Begins.{HaveNoPairs};
ghost use Rattle.mt_lives.specs.Steps.{IsServedBy};

use super::*;
use mt_rows::{Column, ColumnIndexes, Command, Key, NamedColumns};
use mt_runs::Event;

/// As many steps as any operation here needs; a step behind the last one is none.
const ENOUGH: u64 = 9;

/// As many parts as any turn here needs.
const ENOUGH_FOR_CHECK: u64 = 40;

/// No tenants.
pub(crate) fn no_tenants(alloc: Global) -> Tenants
    ensures { HaveNoPairs result }
{
    Tenants::new(alloc)
}

/// Tenant 7, which may have a hundred pairs.
pub(crate) fn one_tenant(alloc: Global) -> Tenants
    ensures { HaveNoPairs result }
{
    let mut tenants = no_tenants(alloc);
    let _ = tenants.add(7, 100);
    tenants
}

fn put(rt: &impl Abort, alloc: Global, key: &str, value: &str) -> Command {
    let change = change_of(rt, alloc, value);
    let key = key_of(rt, alloc, key);
    Command::Put { key, change }
}

fn put_if(rt: &impl Abort, alloc: Global, key: &str, stamp: u64, value: &str) -> Command {
    let change = change_of(rt, alloc, value);
    let key = key_of(rt, alloc, key);
    Command::PutIf { key, stamp, change }
}

fn change_of(rt: &impl Abort, alloc: Global, value: &str) -> NamedColumns {
    let column = Column::from_slice(alloc, value.as_bytes()).expect(rt, "memory");
    let mut columns = Vec::new(alloc);
    assert!(rt; columns.push((0, column)).is_ok());
    NamedColumns::new(columns)
}

fn get(rt: &impl Abort, alloc: Global, key: &str) -> Command {
    let key = key_of(rt, alloc, key);
    let columns = ColumnIndexes::new(Vec::new(alloc));
    Command::Get { key, columns }
}

fn key_of(rt: &impl Abort, alloc: Global, key: &str) -> Key {
    Key::new(Vec::from_slice(alloc, key.as_bytes()).expect(rt, "memory"))
}

fn number(text: &str) -> u64 {
    text.parse().unwrap_or(0)
}

fn worker_of(text: &str) -> u8 {
    text.parse().unwrap_or(0)
}

/// The rows of a story, one behind the other with a comma between. What is noted of a row may stand behind it and a colon.
pub(crate) fn rows_of<'a>(rt: &impl Abort, alloc: Global, story: &'a str) -> Vec<&'a str> {
    let mut rows = Vec::new(alloc);
    for row in story.split(", ") {
        let (row, _) = row.split_once(": ").unwrap_or((row, ""));
        assert!(rt; rows.push(row).is_ok());
    }
    rows
}

fn words_of<'a>(rt: &impl Abort, alloc: Global, row: &'a str) -> Vec<&'a str> {
    let mut words = Vec::new(alloc);
    for word in row.split(' ') {
        assert!(rt; words.push(word).is_ok());
    }
    words
}

/// The events of a row, and the one that tells most of them last. A crash leaves these images.
pub(crate) fn events_of(
    rt: &impl Abort,
    alloc: Global,
    row: &str,
    images: Option<&CrashImages>,
    events: &mut Vec<StoreEvent>,
)
    requires { All (IsServedBy 2) events.old.items }
    ensures { All (IsServedBy 2) events.new.items }
{
    let words = words_of(rt, alloc, row);
    match words.as_slice() {
        ["put", op, worker, key, value] => {
            let command = put(rt, alloc, key, value);
            begin(rt, events, op, worker, command, ENOUGH);
        }
        ["put_if", op, worker, key, stamp, value] => {
            let command = put_if(rt, alloc, key, number(stamp), value);
            begin(rt, events, op, worker, command, ENOUGH);
        }
        ["open", op, worker, key, value, steps] => {
            let command = put(rt, alloc, key, value);
            begin(rt, events, op, worker, command, number(steps));
        }
        ["end", op] => step(rt, events, number(op), true, ENOUGH),
        ["leave", op, worker, key, value] => {
            let command = put(rt, alloc, key, value);
            begin(rt, events, op, worker, command, 0);
            step(rt, events, number(op), false, ENOUGH);
        }
        ["take", op] => push(rt, events, StoreEvent::Take { op: number(op) }),
        ["get", op, key] => begin(rt, events, op, "0", get(rt, alloc, key), ENOUGH),
        ["flush", worker] => {
            let worker = worker_of(worker);
            push(rt, events, StoreEvent::Flush { worker });
        }
        ["reopen", worker] => {
            let worker = worker_of(worker);
            push(rt, events, StoreEvent::Reopen { worker });
        }
        ["tidy"] => push(rt, events, StoreEvent::Tidy),
        ["settle"] => push(rt, events, StoreEvent::SettleBegin { id: 1 }),
        ["next"] => push(rt, events, StoreEvent::SettleNext { id: 1 }),
        ["check"] => push(rt, events, StoreEvent::CheckBegin),
        ["walk", parts] => walk(rt, events, number(parts)),
        ["ends"] => walk(rt, events, ENOUGH_FOR_CHECK),
        ["crash"] => push(rt, events, crash(rt, alloc, images)),
        _ => panic!(rt; "{row}: no such row"),
    }
}

// An operation of tenant 7 begins, and makes so many steps. Of another worker than 1 it is worker 0.
fn begin(
    rt: &impl Abort,
    events: &mut Vec<StoreEvent>,
    op: &str,
    worker: &str,
    command: Command,
    steps: u64,
)
    requires { All (IsServedBy 2) events.old.items }
    ensures { All (IsServedBy 2) events.new.items }
{
    let begun = Event::Begin {
        op: number(op),
        worker: if worker == "1" { 1 } else { 0 },
        tenant: 7,
        command,
    };
    push(rt, events, StoreEvent::Core(begun));
    step(rt, events, number(op), true, steps);
}

fn push(rt: &impl Abort, events: &mut Vec<StoreEvent>, event: StoreEvent)
    requires all { All (IsServedBy 2) events.old.items }
    requires one { IsServedBy 2 event }
    ensures { All (IsServedBy 2) events.new.items }
{
    assert!(rt; events.push(event).is_ok());
}

// It makes so many steps, and its answer is taken with the last one, or waits.
fn step(rt: &impl Abort, events: &mut Vec<StoreEvent>, op: u64, taken: bool, steps: u64)
    requires { All (IsServedBy 2) events.old.items }
    ensures { All (IsServedBy 2) events.new.items }
{
    for _ in 0..steps {
        push(rt, events, step_of(op, taken));
    }
}

fn step_of(op: u64, taken: bool) -> StoreEvent
    ensures { IsServedBy 2 result }
{
    if taken {
        StoreEvent::Core(Event::Step { op })
    } else {
        StoreEvent::Move { op }
    }
}

fn walk(rt: &impl Abort, events: &mut Vec<StoreEvent>, parts: u64)
    requires { All (IsServedBy 2) events.old.items }
    ensures { All (IsServedBy 2) events.new.items }
{
    for _ in 0..parts {
        push(rt, events, StoreEvent::CheckStep);
    }
}

fn crash(rt: &impl Abort, alloc: Global, images: Option<&CrashImages>) -> StoreEvent
    ensures { IsServedBy 2 result }
{
    let images = images.expect(rt, "what the crash leaves");
    let mut logs = Vec::new(alloc);
    for log in &images.logs {
        assert!(rt; logs.push(files_copied(rt, alloc, log)).is_ok());
    }
    StoreEvent::Crash(CrashImages {
        logs,
        first: copied(rt, alloc, &images.first),
        second: copied(rt, alloc, &images.second),
    })
}

fn files_copied(rt: &impl Abort, alloc: Global, images: &FileImages) -> FileImages {
    FileImages {
        plain: copied(rt, alloc, &images.plain),
        even: copied(rt, alloc, &images.even),
        odd: copied(rt, alloc, &images.odd),
    }
}

/// A copy of an image.
pub(crate) fn copied(rt: &impl Abort, alloc: Global, image: &[u8]) -> Vec<u8> {
    image.to_vec(alloc).expect(rt, "memory")
}
