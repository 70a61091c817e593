//! Checkpoints that a session writes: when, and into which slot.

ghost use Rattle.mt_book.specs.{Keeping.IsUnasked, Names.AreNames};

use super::images::hold_all_with;
use super::stories::Acts;
use super::*;
use mt_stored::TurnStop;

// How many pairs the checkpoint of each slot has, if there is one, and which slot has the newest.
type Found = (Option<usize>, Option<usize>, Option<Slot>);

/// What both slots have, in memory.
pub fn copies_of(
    alloc: Global,
    slots: StoreSlots<FlakyDisk>,
) -> Result<StoreSlots<MemDisk>, AllocError> {
    let (first, second) = slots.into_disks();
    let first = disk_with(alloc, first.image())?;
    Ok(StoreSlots::found(first, disk_with(alloc, second.image())?))
}

/// A recovery from these files and slots gives the pairs of all clients, and uses the newest checkpoint.
pub fn expect_recovered(
    rt: &impl Abort,
    alloc: Global,
    images: &[FileImages],
    slots: StoreSlots<FlakyDisk>,
    counts: &[u16],
) {
    let newest = slots.newest();
    let mut slots = copies_of(alloc, slots).expect(rt, "memory");
    let tenants = tenant_7(rt, alloc);
    let held = hold_all_with(alloc, images, &mut slots, &tenants, counts);
    assert!(rt; held == Ok(true));
    assert!(rt; newest.is_some());
    assert_eq!(rt; slots.newest(), newest);
}

// What slots have.
fn found_in(rt: &impl Abort, alloc: Global, slots: StoreSlots<FlakyDisk>) -> Found {
    let newest = slots.newest();
    let mut slots = copies_of(alloc, slots).expect(rt, "memory");
    let first = slots.load(alloc, Slot::First).expect(rt, "a slot");
    let second = slots.load(alloc, Slot::Second).expect(rt, "a slot");
    let first = first.map(|checkpoint| checkpoint.pairs.len());
    let second = second.map(|checkpoint| checkpoint.pairs.len());
    (first, second, newest)
}

impl<L: Ledger, J: Naming, R: Wait + Clock + Log + Abort> Session<'_, L, J, R> {
    // Whether an act comes out as it should. It may be done `without` the slots: another answer is settled, after which a
    // checkpoint is due, and somebody else has them meanwhile, whose turn is stopped.
    fn comes_out(&mut self, rt: &R, act: &str) -> bool {
        let Some(meanwhile) = act.strip_prefix("without ") else {
            return self.does(act);
        };
        let turns = &self.served.turns;
        turns.count_settled(rt, u64::MAX);
        let taken = turns.lock(rt).checks.take_due();
        let Some(due) = taken else {
            return false;
        };
        let settled = self.does(meanwhile);
        let stopped = Err((TurnStop::Logs(Refusal::Device), due.slots));
        let _ = turns.lock(rt).checks.end_turn(stopped);
        settled
    }
}

// What the slots have after a story of one client, if a checkpoint is due after each so many settled answers. Some calls
// of the log's plain file fail.
fn played<R: Wait + Clock + Log + Abort>(
    rt: &R,
    alloc: Global,
    every: u32,
    fails: Fails,
    acts: &str,
) -> Found {
    let store = new_store(rt, alloc, &[[fails, NEVER, NEVER]], None, bare_slots(alloc));
    let names = Names::new(store.state());
    played_named::<Brand, Brand, _>(rt, alloc, names, store, every, Acts(acts))
}

// The same, over this store and under these names.
fn played_named<L: Ledger, J: Naming, R: Wait + Clock + Log + Abort>(
    rt: &R,
    alloc: Global,
    names: Names,
    store: Store<FlakyDisk>,
    every: u32,
    acts: Acts<'_>,
) -> Found
    requires names { AreNames L.name L.parts J.name J.parts J.book names store.source.state }
    requires unasked { IsUnasked store.source.state }
{
    let served = Served::<L, J, R>::new(rt, alloc, names, store, every);
    let mut session = served.session(0);
    for act in acts.0.split(", ") {
        assert!(rt; session.comes_out(rt, act), "{act} of {}", acts.0);
    }
    drop(session);
    let (_, _, slots) = served.joined().into_parts();
    found_in(rt, alloc, slots.expect(rt, "the slots"))
}

// After how many settled answers a checkpoint is due; what a client does; and what the slots have then.
const STORIES: [&str; 16] = [
    "0: puts 1, settles 5 => (None, None, None)",
    "1: puts 1 => (None, None, None)",
    "1: settles => (Some(0), None, Some(First))",
    "1: puts 1, settles => (Some(1), None, Some(First))",
    "1: puts 1, settles, puts 1, settles => (Some(1), Some(2), Some(Second))",
    "1: puts 1, settles 2, puts 1, settles, puts 1 => (Some(2), Some(1), Some(First))",
    // Pages that are full, or nearly so.
    "1: puts 63, settles => (Some(63), None, Some(First))",
    "1: puts 64, settles => (Some(64), None, Some(First))",
    "1: puts 129, settles => (Some(129), None, Some(First))",
    "3: puts 1, settles 2 => (None, None, None)",
    "3: puts 1, settles 5 => (Some(1), None, Some(First))",
    "3: puts 1, settles 6 => (Some(1), Some(1), Some(Second))",
    // Somebody else writes.
    "1: puts 1, without settles 2 => (None, None, None)",
    "1: puts 1, without settles 2, settles => (Some(1), None, Some(First))",
    "3: puts 1, settles 2, without settles, settles => (None, None, None)",
    "3: puts 1, settles 2, without settles 7, settles => (Some(1), None, Some(First))",
];

#[test]
fn a_checkpoint_is_written_when_it_is_due(rt: HostRuntime) -> Result<(), Fail> {
    for &row in &STORIES {
        let (story, wanted) = row.split_once(" => ").expect(&rt, "a row has two parts");
        let (every, acts) = story.split_once(": ").expect(&rt, "a story has two parts");
        let every = every.parse().unwrap_or(9);
        let found = played(&rt, rt.alloc(), every, NEVER, acts);
        let found = format!(in rt.alloc(); "{found:?}")?;
        assert_eq!(rt; found.as_str(), wanted, "{story}");
    }
    Ok(())
}

// A Settle that is refused is none after which a checkpoint is due.
#[test]
fn a_refused_settle_writes_no_checkpoint(rt: HostRuntime) {
    let alloc = rt.alloc();
    let logged = Logged::new(&rt, Level::Warn, Locked::new(&rt, Vec::new(alloc)));
    let found = played(&logged, alloc, 1, (4, 5), "puts 1, fails");
    assert_eq!(&rt; found, (None, None, None));
}

// After how many settled answers a turn is due, and whether it is whole.
const TRIES: [(u32, bool); 7] = [
    (3, false),
    (6, false),
    (12, true),
    (3, true),
    (3, false),
    (6, true),
    (3, true),
];

// After each turn that is stopped the next one is due after twice as many settled answers, and after a whole one after three
// again. It tells the greatest number that was told.
#[test]
fn a_stopped_turn_is_tried_again_after_twice_as_many_answers(rt: HostRuntime) {
    let mut checks = Checks::new(3, 0, Some(bare_slots(rt.alloc())));
    for &(answers, is_whole) in &TRIES {
        for _ in 1..answers {
            checks.count_settled(9);
            assert!(rt; !checks.is_due());
        }
        checks.count_settled(8);
        let due = checks.take_due().expect(&rt, "a turn");
        assert_eq!(rt; due.settled, 9);
        end(&mut checks, due, is_whole);
    }
}

// Ends a turn, which is whole or stopped.
fn end(checks: &mut Checks<FlakyDisk>, due: DueTurn<FlakyDisk>, is_whole: bool) {
    let slots = due.slots;
    let told = if is_whole {
        Ok(slots)
    } else {
        Err((TurnStop::Logs(Refusal::Device), slots))
    };
    let _ = checks.end_turn(told);
}

// How long the logs are, and whether a turn of ten bytes is due then, which is whole.
const LENGTHS: [(u64, bool); 9] = [
    (4, false),
    (9, false),
    (10, true),
    // The first look after a turn counts nothing, nor does a length that falls.
    (30, false),
    (39, false),
    (2, false),
    (3, true),
    (3, false),
    (13, true),
];

#[test]
fn a_turn_is_due_when_the_logs_have_grown(rt: HostRuntime) {
    let mut checks = Checks::new(0, 10, Some(bare_slots(rt.alloc())));
    for (place, (length, is_due)) in LENGTHS.iter().enumerate() {
        checks.see_length(*length);
        let due = checks.take_due();
        assert_eq!(rt; due.is_some(), *is_due, "{place}");
        if let Some(due) = due {
            end(&mut checks, due, true);
        }
    }
}
