//! Turns of two workers' logs, with a checkpoint in each. A call of one of their disks fails.

ghost use Rattle.mt_book.specs.{Keeping.IsUnasked, Names.AreNames};

use super::*;

// Which call fails, counted from 1, and of which disk: of the plain, the even and the odd file of either worker, in this order,
// or of one of both slots. And which rounds are played, from the first number on, up to the second and without it.
#[derive(Clone, Copy, Debug)]
struct Case {
    disk: usize,
    call: u64,
    rounds: (u16, u16),
}

// What a file without a log begins with.
const CLOSED: &[u8] = b"\x00";

// What is left of a store: what its files hold, of which generation its logs are, to which the next turn goes, and that turn.
#[derive(Drop)]
struct Left {
    images: Vec<FileImages>,
    generation: u64,
    next: u64,
    due: DueTurn<FlakyDisk>,
}

// A new store of two workers, of whose disks a call fails. If it is a log's disk, the system tells this, if anything.
fn store_with(
    rt: &impl Abort,
    alloc: Global,
    case: Case,
    error: Option<SystemError>,
) -> Store<FlakyDisk>
    ensures { IsUnasked result.source.state }
{
    let fails = (case.call, case.call.saturating_add(1));
    store_of_two(rt, alloc, fails_of(case.disk, fails), error)
}

// Two clients put two keys each in each round. Then one of them settles, and a turn is made, the first one to this generation, or
// to that which the logs tell. If the Settle is refused, it settles again.
fn play<L: Ledger, J: Naming, R: Wait + Clock + Log + Abort>(
    served: &Served<'_, L, J, R>,
    case: Case,
    next: Option<u64>,
) {
    let mut turner = match next {
        Some(next) => served.turner_to(next, NoDigests {}),
        None => served.turner(NoDigests {}),
    };
    let mut first = served.session(0);
    let mut second = served.session(1);
    let (from, to) = case.rounds;
    first.skip(from.saturating_mul(2));
    second.skip(from.saturating_mul(2));
    for round in from..to {
        assert!(served.rt; first.puts(2) && second.puts(2), "{case:?}, {round}");
        let mut is_settled = second.settle_alone().is_ok();
        turner.make_turn_if_due(&served.turns);
        if !is_settled {
            is_settled = second.settle_alone().is_ok();
            turner.make_turn_if_due(&served.turns);
        }
        assert!(served.rt; is_settled, "{case:?}, {round}");
    }
}

// The greatest generation of a last log.
fn last_generation(logs: &[StoreLog<FlakyDisk>]) -> u64 {
    let mut last = 0;
    for log in logs {
        last = log.generation().max(last);
    }
    last
}

// What is left of a store after these rounds.
fn played<L: Ledger, J: Naming, R: Wait + Clock + Log + Abort>(
    rt: &R,
    alloc: Global,
    names: Names,
    store: Store<FlakyDisk>,
    case: Case,
    next: Option<u64>,
) -> Left
    requires names { AreNames L.name L.parts J.name J.parts J.book names store.source.state }
    requires unasked { IsUnasked store.source.state }
{
    let served = Served::<L, J, R>::new(rt, alloc, names, store, 1);
    play(&served, case, next);
    let next = next_generation(rt, &served.shared_logs()).expect(rt, "a generation");
    let (_, logs, mut checks) = served.into_parts();
    // After a turn that was stopped the next one is due after two settled answers.
    checks.count_settled(u64::MAX);
    checks.count_settled(u64::MAX);
    Left {
        images: logs_left(rt, alloc, &logs, images::Left::All),
        generation: last_generation(&logs),
        next,
        due: checks.take_due().expect(rt, "a turn"),
    }
}

// The same, and what is warned of.
fn run<R: Wait + Clock + Abort>(
    rt: &R,
    alloc: Global,
    store: Store<FlakyDisk>,
    case: Case,
) -> (Left, Vec<u8>)
    requires unasked { IsUnasked store.source.state }
{
    run_to(rt, alloc, store, case, None)
}

// The same with a turner whose first turn goes to this generation.
fn run_to<R: Wait + Clock + Abort>(
    rt: &R,
    alloc: Global,
    store: Store<FlakyDisk>,
    case: Case,
    next: Option<u64>,
) -> (Left, Vec<u8>)
    requires unasked { IsUnasked store.source.state }
{
    let logged = Logged::new(rt, Level::Warn, Locked::new(rt, Vec::new(alloc)));
    let names = Names::new(store.state());
    let left = played::<Brand, Brand, _>(&logged, alloc, names, store, case, next);
    let (_, sink) = logged.into_parts();
    (left, sink.into_inner())
}

// Whether the log of this generation stands in a worker's files, and no other. If its beginning failed, a file may have more
// than its closed gate.
fn stands_alone(images: &FileImages, generation: u64) -> bool {
    let low = generation.to_be_bytes()[7];
    let (last, older) = if generation % 2 == 0 {
        (images.even.as_slice(), images.odd.as_slice())
    } else {
        (images.odd.as_slice(), images.even.as_slice())
    };
    last.starts_with(b"\x01MTLOG\x03")
        && last.get(16) == Some(&low)
        && older.starts_with(CLOSED)
        && images.plain.starts_with(CLOSED)
}

// Whether the last turn is whole: one generation stands, and the next turn goes to the one after it. A checkpoint that was
// given up is begun anew in its slot.
fn is_whole(left: &Left, case: Case) -> bool {
    for images in &left.images {
        if !stands_alone(images, left.generation) {
            return false;
        }
    }
    let newest = left.due.slots.newest();
    left.next == left.generation.saturating_add(1)
        && (case.disk != 6 || newest == Some(Slot::First))
        && (case.disk != 7 || newest == Some(Slot::Second))
}

// The last turn is whole, and all that was put is recovered.
fn expect_whole(rt: &impl Abort, alloc: Global, left: Left, case: Case) {
    assert!(rt; is_whole(&left, case), "{case:?}");
    let (_, rounds) = case.rounds;
    let counts = [rounds.saturating_mul(2); 2];
    let slots = left.due.slots;
    let images = left.images;
    expect_recovered(rt, alloc, &images, slots, &counts);
}

#[test]
fn each_turn_leaves_one_generation(rt: HostRuntime) {
    let alloc = rt.alloc();
    for turns in 1..=3u16 {
        let (disk, call, rounds) = (0, 0, (0, turns));
        let case = Case { disk, call, rounds };
        let (left, warnings) = run(&rt, alloc, store_with(&rt, alloc, case, None), case);
        assert!(rt; warnings.is_empty() && left.generation == u64::from(turns));
        expect_whole(&rt, alloc, left, case);
    }
}

// What the system tells of the file for a next log, and what is warned of: its cause, and why the turn stops.
const NOT_BEGUN: [(Option<SystemError>, &str, &str); 3] = [
    (None, "", "E10"),
    (FULL, ": wal-00-1: no space left on device", "E10"),
    (WANT, ": wal-00-1: out of memory", "E2"),
];

// The first call after those that make the file for generation 1 fails.
#[test]
fn a_log_whose_next_one_is_not_begun_is_warned_of(rt: HostRuntime) -> Result<(), Fail> {
    let alloc = rt.alloc();
    let (disk, call, rounds) = (2, 4, (0, 1));
    let case = Case { disk, call, rounds };
    for &(error, cause, stop) in &NOT_BEGUN {
        let (_, warnings) = run(&rt, alloc, store_with(&rt, alloc, case, error), case);
        let told = format!(in alloc;
            "[WARN  mt_stored::shared] log 0: its disk failed; it is closed until a write succeeds{cause}\n\
            [WARN  mt_service::turners] a turn of the logs was not finished: {stop}\n"
        )?;
        assert_eq!(rt; warnings.as_slice(), told.as_bytes());
    }
    Ok(())
}

// It is told of a slot that its checkpoint was given up, and why.
fn expect_given_up(rt: &impl Abort, alloc: Global, warnings: &[u8], slot: usize, cause: &str) {
    let told = format!(in alloc;
        "[WARN  mt_service::turners] a checkpoint was given up: check-{slot}: {cause}\n"
    );
    assert_eq!(rt; warnings, told.expect(rt, "memory").as_bytes());
}

// Whether the call is made. For want of memory no warning tells that a device failed. Else the turn of one round more is whole
// if the store starts again before that, and of two rounds more if it doesn't: a stopped turn is tried again after twice as
// many settled answers.
fn is_made<R: Wait + Clock + Abort>(
    rt: &R,
    alloc: Global,
    case: Case,
    error: Option<SystemError>,
) -> bool {
    let (left, warnings) = run(rt, alloc, store_with(rt, alloc, case, error), case);
    if warnings.is_empty() {
        return false;
    }
    if error.is_some() {
        let told = str::from_utf8(warnings.as_slice()).unwrap_or("E10");
        assert!(rt; !told.contains("E10"), "{case:?}");
        return true;
    }
    if let Some(slot) = case.disk.checked_sub(6) {
        expect_given_up(rt, alloc, &warnings, slot, "its disk failed (E10)");
    }
    let (_, to) = case.rounds;
    let more = to.saturating_add(1);
    let store = recovered(rt, alloc, left.images, left.due.slots);
    let rounds = (to, more);
    expect_next(rt, alloc, store, Case { rounds, ..case });
    let rounds = (0, more.saturating_add(1));
    let next = Case { rounds, ..case };
    expect_next(rt, alloc, store_with(rt, alloc, next, None), next);
    true
}

fn expect_next<R: Wait + Clock + Abort>(rt: &R, alloc: Global, store: Store<FlakyDisk>, case: Case)
    requires unasked { IsUnasked store.source.state }
{
    let (left, _) = run(rt, alloc, store, case);
    expect_whole(rt, alloc, left, case);
}

// How many calls a disk makes in so many rounds, after those that make its file. Each of them fails in turn, and the system
// tells this of it.
fn calls_of<R: Wait + Clock + Abort>(
    rt: &R,
    alloc: Global,
    disk: usize,
    rounds: u16,
    error: Option<SystemError>,
) -> u64 {
    let first = if disk < 6 { 4u64 } else { 3 };
    for calls in 0..60u64 {
        let call = first.saturating_add(calls);
        let rounds = (0, rounds);
        let case = Case { disk, call, rounds };
        if !is_made(rt, alloc, case, error) {
            return calls;
        }
    }
    0
}

// What the system tells of a slot's disk, and what is warned of.
const CAUSES: [(Option<SystemError>, &str); 2] = [
    (FULL, "no space left on device (E10)"),
    (WANT, "out of memory (E2)"),
];

// The first slot's disk fails in a turn, and its system tells why. So does the warning.
#[test]
fn a_checkpoint_that_is_given_up_is_warned_of_with_its_cause(rt: HostRuntime) {
    let alloc = rt.alloc();
    let (disk, call, rounds) = (6, 3, (0, 1));
    for &(error, cause) in &CAUSES {
        let first = FlakyDisk::new(Vec::new(alloc), (call, call + 1)).telling(error);
        let slots = StoreSlots::found(first, FlakyDisk::new(Vec::new(alloc), NEVER));
        let store = new_store(&rt, alloc, &[SOUND; 2], None, slots);
        let (_, warnings) = run(&rt, alloc, store, Case { disk, call, rounds });
        expect_given_up(&rt, alloc, &warnings, 0, cause);
    }
}

// The first slot's device gives back another last byte than it was given. Then no older log is given up.
#[test]
fn a_checkpoint_that_does_not_read_back_is_given_up(rt: HostRuntime) {
    let alloc = rt.alloc();
    let disk = || FlakyDisk::new(Vec::new(alloc), NEVER);
    let slots = StoreSlots::found(disk().spoiling(), disk());
    let (disk, call, rounds) = (6, 0, (0, 1));
    let case = Case { disk, call, rounds };
    let store = new_store(&rt, alloc, &[SOUND; 2], None, slots);
    let (left, warnings) = run(&rt, alloc, store, case);
    let cause = "it is not read as it was written (E10)";
    expect_given_up(&rt, alloc, &warnings, 0, cause);
    assert!(rt; left.due.slots.newest().is_none() && left.next == 1);
    for images in &left.images {
        assert!(rt; images.plain.starts_with(b"MTLOG"));
    }
}

// A turner counts another generation than its logs tell. Nothing is begun, and no file is given up.
#[test]
fn a_turn_is_refused_if_the_logs_tell_another_generation(rt: HostRuntime) {
    let alloc = rt.alloc();
    let (disk, call, rounds) = (0, 0, (0, 1));
    let case = Case { disk, call, rounds };
    for next in [0, 2] {
        let store = store_with(&rt, alloc, case, None);
        let (left, warnings) = run_to(&rt, alloc, store, case, Some(next));
        let told = "[WARN  mt_service::turners] a turn of the logs was not finished: E15\n";
        assert_eq!(rt; warnings.as_slice(), told.as_bytes());
        assert!(rt; left.due.slots.newest().is_none() && left.generation == 0 && left.next == 1);
    }
}

// In how many rounds each disk is put to each of its uses.
const ROUNDS: [u16; 8] = [1, 2, 2, 1, 2, 2, 1, 2];

#[test]
fn a_turn_that_a_failed_call_stops_is_finished_by_the_next(rt: HostRuntime) {
    let alloc = rt.alloc();
    for (disk, rounds) in ROUNDS.iter().enumerate() {
        let calls = calls_of(&rt, alloc, disk, *rounds, None);
        assert!(rt; calls >= 10, "disk {disk}: {calls} calls");
    }
}

// The disk of a log has no memory for one of its calls, each in turn after those that make its file.
#[test]
fn want_of_memory_at_any_call_of_a_logs_disk_is_told_as_that(rt: HostRuntime) {
    let alloc = rt.alloc();
    for (disk, rounds) in ROUNDS.iter().take(6).enumerate() {
        let calls = calls_of(&rt, alloc, disk, *rounds, WANT);
        assert!(rt; calls >= 10, "disk {disk}: {calls} calls");
    }
}
