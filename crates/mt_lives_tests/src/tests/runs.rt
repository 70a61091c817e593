//! Stories run on a new store of two logs, on disks in memory: three of each log, and two of the slots.
//! What is noted of each row of a story.

ghost use Rattle.std.specs.{Prelude.{◌≡◌, length, Some}, List.All};
ghost use Rattle.mt_state.specs.Begins.{HaveNoPairs};
ghost use Rattle.mt_lives.specs.Steps.{IsServedBy};

use super::asked::{copied, events_of};
use super::*;
use mt_disk::MemDisk;
use mt_lives::{LiveSlots, Store, StoreNote, run_store_events};
use mt_log_files::WorkerFiles;
use mt_recover::LogSlot;
use mt_rows::{Refusal, Reply};
use mt_runs::{Answer, Told};
use mt_slots::StoreSlots;
use mt_store_logs::StoreLog;

/// A disk: of a worker's plain file, of its even one or its odd one, or of a slot.
#[derive(Clone, Copy, Debug, PartialEq, Eq)]
pub(crate) enum DiskOf {
    Plain(u8),
    Even(u8),
    Odd(u8),
    Slot(u8),
}

// Each disk.
const DISKS: [DiskOf; 8] = [
    DiskOf::Plain(0),
    DiskOf::Even(0),
    DiskOf::Odd(0),
    DiskOf::Plain(1),
    DiskOf::Even(1),
    DiskOf::Odd(1),
    DiskOf::Slot(0),
    DiskOf::Slot(1),
];

/// Which two calls of which disk fail, and which one its disk stops at, 0 where none does.
#[derive(Clone, Copy, Debug)]
pub(crate) struct Fate(pub DiskOf, pub [u64; 2], pub u64);

/// Nothing fails.
pub(crate) const AMPLE: Fate = Fate(DiskOf::Plain(0), [0; 2], 0);

impl Fate {
    /// The disk stops at the first call that failed.
    pub(crate) fn stops(self) -> Fate {
        let Fate(disk, [first, _], _) = self;
        Fate(disk, [0; 2], first)
    }

    /// Whether a file or a slot is not made: its first three calls make a file, and its first two a slot.
    pub(crate) fn makes_none(self) -> bool {
        let Fate(_, [first, _], stop) = self;
        (1..=3).contains(&first.max(stop))
    }
}

/// What became of all rows.
#[derive(Drop)]
pub(crate) struct Ran {
    pub noted: Vec<Noted>,
    pub store: Store,
    /// The last generation of any log before the last crash.
    pub before: u64,
}

/// What became of each row of a story; none where the logs are not made.
pub(crate) fn run(rt: &impl Abort, alloc: Global, fate: Fate, story: &str) -> Option<Vec<Noted>> {
    let rows = rows_of(rt, alloc, story);
    let Ran { noted, .. } = run_store(rt, alloc, &one_tenant(alloc), fate, &rows)?;
    Some(noted)
}

/// What became of all rows in a store with these tenants; none where the logs are not made.
pub(crate) fn run_store(
    rt: &impl Abort,
    alloc: Global,
    tenants: &Tenants,
    fate: Fate,
    rows: &[&str],
) -> Option<Ran>
    requires { HaveNoPairs tenants.now }
{
    let mut images = Vec::new(alloc);
    let mut before = 0;
    for (place, row) in rows.iter().enumerate() {
        if *row == "crash" {
            let lived = rows.get(..place).unwrap_or(&[]);
            let (store, _) = run_with(rt, alloc, tenants, fate, lived, &images)?;
            before = last_generation(&store);
            let left = images_of(rt, alloc, store);
            assert!(rt; images.push(left).is_ok());
        }
    }
    let (store, noted) = run_with(rt, alloc, tenants, fate, rows, &images)?;
    Some(Ran {
        noted,
        store,
        before,
    })
}

// The same, with what each crash leaves of the disks.
fn run_with(
    rt: &impl Abort,
    alloc: Global,
    tenants: &Tenants,
    fate: Fate,
    rows: &[&str],
    images: &[CrashImages],
) -> Option<(Store, Vec<Noted>)>
    requires { HaveNoPairs tenants.now }
{
    let (events, ends) = events_with_ends(rt, alloc, rows, images);
    let files = all_files(rt, alloc, fate);
    let slots = StoreSlots::found(
        disk(rt, alloc, fate, DiskOf::Slot(0)),
        disk(rt, alloc, fate, DiskOf::Slot(1)),
    );
    match run_store_events(alloc, tenants, files, slots, &events) {
        Ok((store, notes)) => Some((store, noted_of_rows(rt, alloc, &ends, notes.as_slice()))),
        Err(Refusal::Device) => None,
        Err(_) => panic!(rt; "memory"),
    }
}

// The events of all rows, and how many there are behind each.
fn events_with_ends(
    rt: &impl Abort,
    alloc: Global,
    rows: &[&str],
    images: &[CrashImages],
) -> (Vec<StoreEvent>, Vec<usize>)
    ensures { All (IsServedBy 2) result.0.items }
{
    let mut events = Vec::new(alloc);
    let mut ends = Vec::new(alloc);
    let mut images = images.iter();
    for row in rows {
        let left = if *row == "crash" { images.next() } else { None };
        events_of(rt, alloc, row, left, &mut events);
        assert!(rt; ends.push(events.len()).is_ok());
    }
    (events, ends)
}

fn noted_of_rows(
    rt: &impl Abort,
    alloc: Global,
    ends: &[usize],
    notes: &[StoreNote],
) -> Vec<Noted> {
    let mut noted = Vec::new(alloc);
    let mut begin = 0;
    for end in ends {
        let told = last_of(notes.get(begin..*end).unwrap_or(&[]));
        assert!(rt; noted.push(told).is_ok());
        begin = *end;
    }
    noted
}

// The files of two workers.
fn all_files(rt: &impl Abort, alloc: Global, fate: Fate) -> Vec<WorkerFiles<MemDisk>>
    ensures { length result.items ≡ 2 }
{
    let mut files = Vec::new(alloc);
    assert!(rt; files.push(files_of(rt, alloc, fate, 0)).is_ok());
    assert!(rt; files.push(files_of(rt, alloc, fate, 1)).is_ok());
    files
}

fn files_of(rt: &impl Abort, alloc: Global, fate: Fate, worker: u8) -> WorkerFiles<MemDisk> {
    WorkerFiles::closed(
        disk(rt, alloc, fate, DiskOf::Plain(worker)),
        disk(rt, alloc, fate, DiskOf::Even(worker)),
        disk(rt, alloc, fate, DiskOf::Odd(worker)),
    )
}

fn disk(rt: &impl Abort, alloc: Global, fate: Fate, place: DiskOf) -> MemDisk {
    let Fate(disk, fails, stop) = fate;
    if place != disk {
        return MemDisk::new(alloc, Vec::new(alloc), None);
    }
    let fails = fails.to_vec(alloc).expect(rt, "memory");
    MemDisk::new(alloc, fails, Some(stop).filter(|call| *call > 0))
}

// What a read of each disk gives.
fn images_of(rt: &impl Abort, alloc: Global, store: Store) -> CrashImages {
    let Store { logs, slots, .. } = store;
    let mut left = Vec::new(alloc);
    for log in &logs {
        let images = images_in(rt, alloc, log.log().files());
        assert!(rt; left.push(images).is_ok());
    }
    let (first, second) = slot_disks(rt, slots);
    CrashImages {
        logs: left,
        first: copied(rt, alloc, first.image()),
        second: copied(rt, alloc, second.image()),
    }
}

fn images_in(rt: &impl Abort, alloc: Global, files: &WorkerFiles<MemDisk>) -> FileImages {
    FileImages {
        plain: copied(rt, alloc, disk_in(rt, &files.plain).image()),
        even: copied(rt, alloc, disk_in(rt, &files.even).image()),
        odd: copied(rt, alloc, disk_in(rt, &files.odd).image()),
    }
}

fn slot_disks(rt: &impl Abort, slots: LiveSlots) -> (MemDisk, MemDisk) {
    let slots = match slots {
        LiveSlots::Rest(slots) => slots,
        LiveSlots::Turns(turn) => turn.slots,
        LiveSlots::Writes(check) => check.writing.into_slots(),
        LiveSlots::Away => panic!(rt; "the slots are away"),
    };
    slots.into_disks()
}

fn disk_in<'a>(rt: &impl Abort, file: &'a LogSlot<MemDisk>) -> &'a MemDisk {
    match file {
        LogSlot::Open(open) => open.disk(),
        LogSlot::Failed(log) => log.disk(),
        LogSlot::Closed(disk) => disk,
        LogSlot::Away => panic!(rt; "a disk is away"),
    }
}

/// Each fate in which one call of one disk fails, of those that all disks make in the first rows.
pub(crate) fn fates_of(rt: &impl Abort, alloc: Global, story: &str, count: usize) -> Vec<Fate> {
    let mut fates = Vec::new(alloc);
    for (disk, calls) in DISKS.iter().zip(calls_in(rt, alloc, story, count)) {
        for call in 1..=calls {
            assert!(rt; fates.push(Fate(*disk, [call, 0], 0)).is_ok());
        }
    }
    fates
}

/// How many calls each disk makes in the first rows, if none fails.
pub(crate) fn calls_in(rt: &impl Abort, alloc: Global, story: &str, count: usize) -> [u64; 8] {
    let rows = rows_of(rt, alloc, story);
    let rows = rows.get(..count).unwrap_or(&[]);
    let ran = run_store(rt, alloc, &one_tenant(alloc), AMPLE, rows);
    let Ran { store, .. } = ran.expect(rt, "logs");
    let Store { logs, slots, .. } = store;
    let (first, second) = slot_disks(rt, slots);
    let [a, b, c] = file_calls(rt, logs.first());
    let [d, e, f] = file_calls(rt, logs.get(1));
    [a, b, c, d, e, f, first.calls(), second.calls()]
}

// How many calls the disks of a log's files made.
fn file_calls(rt: &impl Abort, log: Option<&StoreLog<MemDisk>>) -> [u64; 3] {
    let files = log.expect(rt, "a log").log().files();
    let calls = |file| disk_in(rt, file).calls();
    [calls(&files.plain), calls(&files.even), calls(&files.odd)]
}

fn last_generation(store: &Store) -> u64 {
    let mut last = 0;
    for log in &store.logs {
        last = log.generation().max(last);
    }
    last
}

/// The last generation of all logs, if it is one, and no log of another generation stands.
pub(crate) fn standing(rt: &impl Abort, store: &Store) -> Option<u64> {
    let generation = last_generation(store);
    for log in &store.logs {
        if !stands_alone(rt, log, generation) {
            return None;
        }
    }
    Some(generation)
}

// Whether the file of this generation has the last log, and none other has one.
fn stands_alone(rt: &impl Abort, log: &StoreLog<MemDisk>, generation: u64) -> bool {
    let files = log.log().files();
    log.generation() == generation
        && has_log(rt, &files.plain) == (generation == 0)
        && has_log(rt, &files.even) == (generation > 0 && generation % 2 == 0)
        && has_log(rt, &files.odd) == (generation % 2 == 1)
}

// A file that has none is empty, or its gate is shut: byte 00.
fn has_log(rt: &impl Abort, file: &LogSlot<MemDisk>) -> bool {
    let image = disk_in(rt, file).image();
    image.first().is_some_and(|gate| *gate != 0)
}

/// What became of a row: what was noted of the last of its events that tells more than that none is open, and
/// the number that it tells, the operation's reply, or why it was refused. Of a stale put the number is the stamp there.
pub(crate) type Noted = (&'static str, u64);

/// What became of a row of which this was noted.
pub(crate) fn last_of(notes: &[StoreNote]) -> Noted {
    let mut last = ("nothing", 0);
    for note in notes {
        match note {
            StoreNote::Told(Told::NoSuch) => (),
            StoreNote::NoSuch if last.0 != "nothing" => (),
            note => last = noted(note),
        }
    }
    last
}

fn noted(note: &StoreNote) -> Noted {
    match note {
        StoreNote::Told(told) => told_of(told),
        StoreNote::Finished => ("finished", 0),
        StoreNote::Took(answer) => answered(answer),
        StoreNote::Tidied => ("tidied", 0),
        StoreNote::Flushed(mark) => ("flushed", *mark),
        StoreNote::Reopened => ("reopened", 0),
        StoreNote::Begun(steps) => ("begun", *steps),
        StoreNote::Turned => ("turned", 0),
        StoreNote::Settled(number) => ("settled", *number),
        StoreNote::CheckBegun(steps) => ("check begun", *steps),
        StoreNote::CheckTurned => ("check turned", 0),
        StoreNote::CheckWrites(steps) => ("check writes", *steps),
        StoreNote::CheckTold(told) => told_of(told),
        StoreNote::CheckAdded => ("check added", 0),
        StoreNote::CheckEnded(steps) => ("check ended", *steps),
        StoreNote::TurnEnded => ("turn ended", 0),
        StoreNote::Recovered(recovered) => ("recovered", recovered.cutoff),
        StoreNote::Refused(Refusal::Memory) => ("memory", 0),
        StoreNote::Refused(Refusal::Device) => ("device", 0),
        StoreNote::Refused(_) => ("refused", 0),
        StoreNote::NoSuch => ("no such", 0),
    }
}

fn told_of(told: &Told) -> Noted {
    match told {
        Told::Done(answer) => answered(answer),
        Told::Begun => ("begun", 0),
        Told::Moved => ("moved", 0),
        Told::Again(_) => ("again", 0),
        _ => ("another", 0),
    }
}

fn answered(answer: &Answer) -> Noted {
    match &answer.reply {
        Reply::Found(_) => ("found", answer.last),
        Reply::Absent => ("absent", answer.last),
        Reply::New => ("new", answer.last),
        Reply::Replaced => ("replaced", answer.last),
        Reply::Stale(stamp) => ("stale", *stamp),
        Reply::Pairs(page) => ("pairs", page.as_slice().len() as u64),
        _ => ("another", answer.last),
    }
}

/// Whether this was noted of a row.
pub(crate) fn tells(noted: &[Noted], place: usize, word: &str) -> bool {
    noted.get(place).is_some_and(|told| told.0 == word)
}

/// Whether a row's Settle ended with the number that another row tells.
pub(crate) fn settles_as(noted: &[Noted], place: usize, other: usize) -> bool {
    let number = noted.get(other).map(|told| told.1);
    tells(noted, place, "settled") && noted.get(place).map(|told| told.1) == number
}

/// Whether each of these crashes is recovered from with what was settled before, but one at most, in which a disk fails.
pub(crate) fn recovers(noted: &[Noted], crashes: &[usize]) -> bool {
    let mut failed = false;
    for place in crashes {
        match noted.get(*place) {
            Some(("recovered", cutoff)) if *cutoff >= settled_before(noted, *place) => (),
            Some(("device", _)) if !failed => failed = true,
            _ => return false,
        }
    }
    true
}

// The greatest number that was settled before a row.
fn settled_before(noted: &[Noted], place: usize) -> u64 {
    let mut greatest = 0;
    for told in noted.iter().take(place) {
        if told.0 == "settled" {
            greatest = greatest.max(told.1);
        }
    }
    greatest
}
