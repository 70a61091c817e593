//! The tape of placed writes.

ghost use Rattle.std.specs.Prelude.{◌≡◌};

use super::rows::{key_of, row_of};
use super::*;
use mt_tape::{Entry, Tape};

// A put of the first row of key `k` of tenant 7.
fn put(rt: &impl Abort, alloc: Global, step: u64, worker: u8) -> Entry
    ensures { result.step ≡ step }
{
    Entry {
        step,
        worker,
        tenant: 7,
        key: key_of(rt, alloc, b"k"),
        before: None,
        after: Some(row_of(rt, alloc, b"v")),
        change: None,
    }
}

// Two writes take two of three reserved places, and the third is given back.
fn push_two(rt: &impl Abort, alloc: Global, tape: &mut Tape) {
    tape.reserve().expect(rt, "memory");
    tape.reserve().expect(rt, "memory");
    tape.reserve().expect(rt, "memory");
    assert!(rt; tape.reserved() == 3 && tape.last_write() == 4);
    tape.push(put(rt, alloc, 6, 0));
    assert!(rt; tape.last_write() == 6);
    tape.push(put(rt, alloc, 9, 1));
    tape.release();
    assert_eq!(rt; (tape.len(), tape.reserved()), (2, 0));
}

// The tape hands out up to this step, where there is room: how many writes are left, its floor, and how many were handed out.
fn hands_out(
    rt: &impl Abort,
    tape: &mut Tape,
    floor: u64,
    given_up: &mut Vec<Entry>,
    wanted: (usize, u64, usize),
) {
    assert!(rt; tape.floor() <= floor);
    tape.trim_into(floor, given_up);
    assert_eq!(rt; (tape.len(), tape.floor(), given_up.len()), wanted);
}

// All writes that are left are of step 9, and they are given up.
fn trim_rest(rt: &impl Abort, tape: &mut Tape) {
    assert!(rt; tape.floor() <= 9 && tape.entries().all(|entry| entry.step == 9));
    tape.trim(9);
    assert!(rt; tape.is_empty() && tape.last_write() == 9);
}

#[test]
fn a_tape_keeps_the_writes_since_its_floor(rt: HostRuntime) {
    let mut tape = Tape::new(rt.alloc(), 4);
    push_two(&rt, rt.alloc(), &mut tape);
    let mut room = Vec::with_capacity(rt.alloc(), 1).expect(&rt, "memory");
    hands_out(&rt, &mut tape, 6, &mut room, (1, 6, 1));
    hands_out(&rt, &mut tape, 9, &mut Vec::new(rt.alloc()), (1, 6, 0));
    trim_rest(&rt, &mut tape);
}
