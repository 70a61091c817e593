//! A store whose log and checkpoint are of format 1: it is recovered, goes on, and is recovered again.
//! Stores that are not made, or not recovered, since a call of one of their disks fails.

use super::many::asked;
use super::sessions::get_of;
use super::{stories, *};
use mt_store_logs::{LogRefusal, StoreRefusal};

/// Log 0 of 1: a batch from 0 to 6, with a put of tenant 7, key 6b, column 76, at step 5; and one from 6 to 9, with a put of
/// key 6c, column 77, at step 8.
pub const LOG: [u8; 101] = [
    0x4d, 0x54, 0x4c, 0x4f, 0x47, 1, 0, 1, 1, 0, 0, 0, 0x29, 0, 0, 0, 0, 0, 0, 0, 0, 0, 0, 0, 0, 0,
    0, 0, 0, 6, 0, 0, 0, 1, 0, 0, 0, 0, 0, 0, 0, 5, 0, 0, 0, 7, 0, 1, 0x6b, 1, 1, 0, 1, 0x76, 1, 0,
    0, 0, 0x29, 0, 0, 0, 0, 0, 0, 0, 0, 6, 0, 0, 0, 0, 0, 0, 0, 9, 0, 0, 0, 1, 0, 0, 0, 0, 0, 0, 0,
    8, 0, 0, 0, 7, 0, 1, 0x6c, 1, 1, 0, 1, 0x77, 0,
];

// A checkpoint from step 6 up to step 9, with tenant 7's key 6b, column 76. It tells no stamp.
const CHECKPOINT: [u8; 36] = [
    1, 0x4d, 0x54, 0x43, 0x4b, 0x50, 1, 0, 0, 0, 0, 0, 0, 0, 6, 1, 0, 0, 0, 7, 0, 1, 0x6b, 1, 0, 1,
    0x76, 2, 0, 0, 0, 0, 0, 0, 0, 9,
];

// The store that a log and a checkpoint hold.
fn recovered(rt: &impl Abort, alloc: Global, log: &[u8], checkpoint: &[u8]) -> Store<FlakyDisk> {
    let image = log.to_vec(alloc).expect(rt, "memory");
    let slots = slots_of(alloc, [checkpoint, b""]).expect(rt, "memory");
    let mut images = Vec::new(alloc);
    assert!(rt; images.push(plain_image(alloc, image)).is_ok());
    stories::recovered(rt, alloc, images, slots)
}

// A put of column 1 alone, of one byte, on condition of a stamp.
fn put_if(alloc: Global, key: u8, stamp: u64, value: u8) -> Result<Command, AllocError> {
    let key = Key::new(Vec::from_slice(alloc, &[key])?);
    let mut columns = Vec::new(alloc);
    columns.push((1, Column::from_slice(alloc, &[value])?))?;
    let change = NamedColumns::new(columns);
    Ok(Command::PutIf { key, stamp, change })
}

// The row of a key.
fn found(rt: &impl Abort, alloc: Global, state: &mut State, key: u8) -> StampedRow {
    let command = get_of(alloc, &[key]).expect(rt, "memory");
    match asked(rt, state, 0, command) {
        Reply::Found(row) => row,
        _ => panic!(rt; "key {key} has no row"),
    }
}

// Whether a row has just these columns of a byte each.
fn has_columns(row: &StampedRow, values: &[u8]) -> bool {
    let columns = row.row.columns();
    for (column, value) in columns.iter().zip(values) {
        if column.as_bytes() != [*value].as_slice() {
            return false;
        }
    }
    columns.len() == values.len()
}

// The store goes on: key 6b, whose row has this stamp, gets a second column, and all is settled. What the log's plain
// file holds then.
fn gone_on<R: Wait + Clock + Log + Abort>(
    rt: &R,
    alloc: Global,
    checkpoint: &[u8],
    stamp: u64,
) -> Vec<u8> {
    let (mut state, logs, _) = recovered(rt, alloc, &LOG, checkpoint).into_parts();
    let row = found(rt, alloc, &mut state, b'k');
    assert!(rt; row.stamp == stamp && has_columns(&row, b"v"), "{row:?}");
    let command = put_if(alloc, b'k', stamp, b'x').expect(rt, "memory");
    let is_put = matches!(asked(rt, &mut state, 0, command), Reply::Replaced);
    assert!(rt; is_put, "stamp {stamp}");
    let mut images = settled(rt, alloc, state, logs);
    let FileImages {
        plain,
        even: _,
        odd: _,
    } = images.pop().expect(rt, "an image");
    plain
}

// Both columns of key 6b are there, and the row of key 6c.
fn expect_both(rt: &impl Abort, alloc: Global, log: &[u8], checkpoint: &[u8]) {
    let (mut state, _, _) = recovered(rt, alloc, log, checkpoint).into_parts();
    let row = found(rt, alloc, &mut state, b'k');
    assert!(rt; row.stamp > 9 && has_columns(&row, b"vx"), "{row:?}");
    let row = found(rt, alloc, &mut state, b'l');
    assert!(rt; row.stamp == 8 && has_columns(&row, b"w"), "{row:?}");
}

// By the checkpoint the row has the number of steps before the walk for its stamp, and by the log alone that of its change.
// The log's header stays.
#[test]
fn a_store_of_format_1_is_carried_on(rt: HostRuntime) {
    let alloc = rt.alloc();
    for (checkpoint, stamp) in [(CHECKPOINT.as_slice(), 6), (&[][..], 5)] {
        let log = gone_on(&rt, alloc, checkpoint, stamp);
        assert!(rt; log.get(5) == Some(&1));
        expect_both(&rt, alloc, &log, checkpoint);
        expect_both(&rt, alloc, &log, &[]);
    }
}

// That the disk of a worker's log failed.
fn device_of(worker: usize) -> Option<StoreRefusal> {
    Some(StoreRefusal::Logs(LogRefusal {
        log: Some(worker),
        refusal: Refusal::Device,
    }))
}

// These images once more.
fn copy_of(alloc: Global, images: &FileImages) -> Result<FileImages, AllocError> {
    let plain = images.plain.to_vec(alloc)?;
    let even = images.even.to_vec(alloc)?;
    let odd = images.odd.to_vec(alloc)?;
    Ok(FileImages { plain, even, odd })
}

// What is told of a store that two workers' files with these images hold, or that is made in them, if it isn't there.
fn told_of(
    rt: &impl Abort,
    alloc: Global,
    images: &[FileImages],
    is_new: bool,
    fails: [Fails; 8],
) -> Option<StoreRefusal> {
    let [a, b, c, d, e, f, _, _] = fails;
    let mut files = Vec::new(alloc);
    for (image, fails) in images.iter().zip([[a, b, c], [d, e, f]]) {
        let copy = copy_of(alloc, image).expect(rt, "memory");
        assert!(rt; files.push(files_with(copy, fails, None)).is_ok());
    }
    let tenants = tenant_7(rt, alloc);
    assert!(rt; !files.is_empty() && files.len() <= 64);
    if is_new {
        Store::create(alloc, files, bare_slots(alloc), tenants).err()
    } else {
        Store::recover(alloc, files, bare_slots(alloc), tenants).err()
    }
}

// So many calls each disk makes when its file is made.
const CALLS: u64 = 3;

// More than a disk makes in a recovery.
const MANY_CALLS: u64 = 40;

// How many calls a disk makes till the store is there. Each of them fails in turn, and then its log is told.
fn calls_of(
    rt: &impl Abort,
    alloc: Global,
    images: &[FileImages],
    is_new: bool,
    disk: usize,
) -> u64 {
    for calls in 0..MANY_CALLS {
        let fails = fails_of(disk, (calls.saturating_add(1), calls.saturating_add(2)));
        let told = told_of(rt, alloc, images, is_new, fails);
        if told.is_none() {
            return calls;
        }
        assert_eq!(rt; told, device_of(disk / 3), "{disk}, {calls}");
    }
    MANY_CALLS
}

// The files of a store of two workers, each of whom has put three times.
fn some_images<R: Wait + Clock + Log + Abort>(rt: &R, alloc: Global) -> Vec<FileImages> {
    let store = new_store(rt, alloc, &[SOUND; 2], None, bare_slots(alloc));
    let (mut state, logs, _) = store.into_parts();
    put_all(rt, alloc, &mut state, 0, 3);
    settled(rt, alloc, state, logs)
}

// The disk may be that of any of the three files of either log. That log is told.
#[test]
fn the_log_whose_disk_fails_is_told(rt: HostRuntime) {
    let alloc = rt.alloc();
    let images = some_images(&rt, alloc);
    let bare = || plain_image(alloc, Vec::new(alloc));
    let none = [bare(), bare()];
    for disk in 0..6usize {
        assert_eq!(rt; calls_of(&rt, alloc, &none, true, disk), CALLS, "{disk}");
        let calls = calls_of(&rt, alloc, &images, false, disk);
        assert!(rt; 0 < calls && calls < MANY_CALLS, "{disk}: {calls}");
    }
}

// A stamp, or the gate of the second batch, is 0 when the log is read for the second time.
#[test]
fn a_log_that_changes_between_its_readings_is_refused(rt: HostRuntime) {
    let alloc = rt.alloc();
    let bare = || FlakyDisk::new(Vec::new(alloc), NEVER);
    let refusal = Refusal::Device;
    let due = Some(StoreRefusal::Logs(LogRefusal { log: None, refusal }));
    for place in [41, 54] {
        let plain = LOG.to_vec(alloc).expect(&rt, "memory");
        let plain = FlakyDisk::new(plain, NEVER).changing(place);
        let mut files = Vec::new(alloc);
        assert!(rt;
            files
                .push(WorkerFiles::closed(plain, bare(), bare()))
                .is_ok()
        );
        assert!(rt; files.len() <= 64);
        let told = Store::recover(alloc, files, bare_slots(alloc), tenant_7(&rt, alloc));
        assert_eq!(rt; told.err(), due, "{place}");
    }
}
