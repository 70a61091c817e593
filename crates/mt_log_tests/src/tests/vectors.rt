//! A log of two batches, byte by byte, and what comes of each call that makes it.

use super::logs::{append, append_all};
use super::*;
use mt_log::ResumeFault;

// Log 0 of 1: a batch from 0 to 6, with a put of tenant 7, key 6b, column 76, at step 5; and a resume
// batch up to 9, of which 4 are kept.
const VECTOR: [u8; 85] = [
    0x4d, 0x54, 0x4c, 0x4f, 0x47, 2, 0, 1, 1, 0, 0, 0, 0x29, 2, 0, 0, 0, 0, 0, 0, 0, 0, 0, 0, 0, 0,
    0, 0, 0, 6, 0, 0, 0, 1, 0, 0, 0, 0, 0, 0, 0, 5, 0, 0, 0, 7, 0, 1, 0x6b, 1, 1, 0, 1, 0x76, 1, 0,
    0, 0, 0x19, 1, 0, 0, 0, 0, 0, 0, 0, 6, 0, 0, 0, 0, 0, 0, 0, 9, 0, 0, 0, 0, 0, 0, 0, 4, 0,
];

// The length and the body of a batch behind the vector's first one: from 6 to 15, with a put of column 0 = 77 over the row
// there, at step 14.
const CHANGED: [u8; 46] = [
    0, 0, 0, 0x2a, 2, 0, 0, 0, 0, 0, 0, 0, 6, 0, 0, 0, 0, 0, 0, 0, 15, 0, 0, 0, 1, 0, 0, 0, 0, 0,
    0, 0, 14, 0, 0, 0, 7, 0, 1, 0x6b, 2, 1, 0, 0, 1, 0x77,
];

// What is read of the vector.
const FRONT: &str =
    "Front { version: 2, worker: 0, logs: 1, generation: 0, start: 0, batches: [Records(LoggedBatch { from: 0, to: 6, fall: None }), Resume { from: 6, to: 9, kept: 4 }] }";

// The record of its first batch, and that of the batch behind it.
const RECORD: &str =
    "Record { stamp: 5, tenant: 7, key: Key { bytes: [107] }, write: Whole(Row { columns: [Column { bytes: [118] }] }) }";

const CHANGE: &str =
    ", Record { stamp: 14, tenant: 7, key: Key { bytes: [107] }, write: Changed(Change { list: NamedColumns { columns: [(0, Column { bytes: [119] })] }, row: None }) }";

// A log, or its disk and why it is none.
type Made = Result<LogFile<MemDisk>, (MemDisk, Told)>;

fn empty_disk(alloc: Global) -> MemDisk {
    MemDisk::new(alloc, Vec::new(alloc), None)
}

fn created(disk: MemDisk) -> Made {
    LogFile::create(disk, 0, 1).map_err(|(_, disk)| (disk, Told::Device))
}

fn opened_log(alloc: Global, disk: MemDisk) -> Made {
    let (log, _front) = LogFile::open(alloc, disk).map_err(|fault| not_opened(fault))?;
    Ok(log)
}

// What is told of a log that is opened again.
fn opened_again(alloc: Global, made: Made) -> (MemDisk, Told) {
    match made {
        Ok(log) => opened_on(alloc, log.into_disk()),
        Err(back) => back,
    }
}

// The front of a disk, as text, and the records of a second reading, which gives the batches of the front once more.
fn texts_of(alloc: Global, disk: MemDisk) -> Result<(String, String), AllocError> {
    let (mut log, front) = LogFile::open(alloc, disk).ok().ok_or(AllocError)?;
    let records = read_again(alloc, &mut log, FileKind::Plain, &front)?.ok_or(AllocError)?;
    Ok((
        format!(in alloc; "{front:?}")?,
        format!(in alloc; "{records:?}")?,
    ))
}

// Whether a disk has the vector's record, and these behind it alone.
fn has_records(alloc: Global, disk: MemDisk, behind: &str) -> Result<bool, AllocError> {
    let (_, text) = texts_of(alloc, disk)?;
    Ok(text.as_str() == format!(in alloc; "[{RECORD}{behind}]")?.as_str())
}

// Appends a resume batch up to 9, of which 4 are kept.
fn resume(alloc: Global, log: LogFile<MemDisk>) -> Made {
    let mark = log.mark();
    if mark != 6 {
        return Err((log.into_disk(), Told::Turn(6, mark)));
    }
    match log.append_resume(alloc, 4, 9) {
        Ok(log) => Ok(log),
        Err(ResumeFault::Memory(log)) => Err((log.into_disk(), Told::Memory)),
        Err(ResumeFault::Device(disk)) => Err((disk, Told::Device)),
    }
}

// A log with these batches, the first of which begins here.
fn made(alloc: Global, disk: MemDisk, from: u64) -> Made {
    let log = append(alloc, created(disk)?, from, 6, 5)?;
    resume(alloc, log)
}

#[test]
fn the_vector_is_written_and_read(rt: HostRuntime) -> Result<(), Fail> {
    let alloc = rt.alloc();
    let (disk, told) = opened_again(alloc, made(alloc, empty_disk(alloc), 0));
    assert!(rt; told == Told::Front(9, 2) && disk.image() == VECTOR.as_slice());
    assert_eq!(rt; texts_of(alloc, disk)?.0.as_str(), FRONT);
    assert!(rt; has_records(alloc, disk_with(alloc, &VECTOR, 0, 99)?, "")?);
    let (_disk, told) = opened_again(alloc, made(alloc, empty_disk(alloc), 2));
    assert!(rt; told == Told::Turn(2, 0));
    Ok(())
}

// The first batch of the vector, and this byte in the place of the next gate.
fn one_batch(alloc: Global, vector: [u8; 85], gate: u8) -> Result<Vec<u8>, AllocError> {
    [vector.split_at(54).0, &[gate]].as_slice().concat(alloc)
}

// The same, and the batch that changes a column behind it.
fn two_batches(alloc: Global, vector: [u8; 85]) -> Result<Vec<u8>, AllocError> {
    let front = vector.split_at(54).0;
    [front, &[1], &CHANGED, &[0]].as_slice().concat(alloc)
}

// Appends a put over the row at step 14 to the log of a disk, up to 15.
fn changed(alloc: Global, disk: MemDisk) -> Made {
    let change = Change {
        over: true,
        ..put(14, 0, b'k', b'w')
    };
    append_all(alloc, opened_log(alloc, disk)?, &[change], 6, 15)
}

// Whether the log of the vector's first batch goes on with that change, after which it has these bytes and is read so.
fn goes_on(alloc: Global, vector: [u8; 85]) -> Result<bool, AllocError> {
    let disk = disk_with(alloc, &one_batch(alloc, vector, 0)?, 0, 99)?;
    let (disk, told) = opened_again(alloc, changed(alloc, disk));
    let is_written = disk.image() == two_batches(alloc, vector)?.as_slice();
    Ok(told == Told::Front(15, 2) && is_written && has_records(alloc, disk, CHANGE)?)
}

// The vector as a file of version 1 has it.
fn old_vector() -> [u8; 85] {
    let mut image = VECTOR;
    image[5] = 1;
    image[13] = 0;
    image
}

#[test]
fn changed_columns_are_written_and_read(rt: HostRuntime) -> Result<(), Fail> {
    assert!(rt; goes_on(rt.alloc(), VECTOR)?);
    Ok(())
}

// A file of version 1 has the same records. It goes on: its header and its old batch stay as they are, and the next
// batch is spelled as in a file of version 2.
#[test]
fn a_log_of_format_1_is_read_and_goes_on(rt: HostRuntime) -> Result<(), Fail> {
    let alloc = rt.alloc();
    let old = old_vector();
    assert!(rt; opened(alloc, &old)? == Told::Front(9, 2));
    assert!(rt; has_records(alloc, disk_with(alloc, &old, 0, 99)?, "")?);
    assert!(rt; goes_on(alloc, old)?);
    Ok(())
}

// An old batch is none in a file of version 2, and no other version is known. An old record tells of no changed columns.
#[test]
fn formats_are_told_apart(rt: HostRuntime) -> Result<(), Fail> {
    let alloc = rt.alloc();
    for &(version, want) in &[
        (0, Told::Bad(0, 0)),
        (1, Told::Front(9, 2)),
        (2, Told::Bad(0, 8)),
        (3, Told::Bad(0, 0)),
    ] {
        let told = with_byte(alloc, &old_vector(), 5, version)?;
        assert!(rt; told == want, "version {version}");
    }
    let two = two_batches(alloc, old_vector())?;
    for &(kind, want) in &[(2, Told::Front(15, 2)), (0, Told::Bad(0, 54))] {
        assert!(rt; with_byte(alloc, &two, 59, kind)? == want, "kind {kind}");
    }
    Ok(())
}

// A creation makes three calls, an append four, an opening five and one for each batch. What one wrote
// before it failed is found by a later opening, where all of it was written.
#[test]
fn a_call_that_fails_gives_the_disk_back(rt: HostRuntime) -> Result<(), Fail> {
    let alloc = rt.alloc();
    for fail in 1..19 {
        let disk = MemDisk::new(alloc, [fail].to_vec(alloc)?, None);
        let (disk, told) = opened_again(alloc, made(alloc, disk, 0));
        assert!(rt; told == Told::Device, "{fail} failing: {told:?}");
        let (_disk, told) = opened_on(alloc, disk);
        let want = match fail {
            1..=2 => Told::Bad(0, 0),
            3..=6 => Told::Front(0, 0),
            7..=10 => Told::Front(6, 1),
            _ => Told::Front(9, 2),
        };
        assert!(rt; told == want, "{fail} failing: then {told:?}");
    }
    Ok(())
}

// What an opening tells of a log with one byte changed.
fn with_byte(alloc: Global, whole: &[u8], place: usize, byte: u8) -> Result<Told, AllocError> {
    let mut image = whole.to_vec(alloc)?;
    if let Some(at) = image.get_mut(place) {
        *at = byte;
    }
    opened(alloc, &image)
}

// What is told of so many batches that rise and join, or else of ones that don't.
fn rising(rises: bool, mark: u64, batches: usize) -> Told {
    if rises {
        Told::Front(mark, batches)
    } else {
        Told::Falls(mark, batches)
    }
}

// The end of a batch, at most 255, with one of its bytes changed.
fn changed_end(end: u8, place: usize, byte: u8) -> u64 {
    let mut bytes = [0, 0, 0, 0, 0, 0, 0, end];
    if let Some(at) = bytes.get_mut(place) {
        *at = byte;
    }
    u64::from_be_bytes(bytes)
}

// What is to be told with this byte in a place where another one stood: of the vector, or of a log of format 1 that has its
// first batch alone. The kind of that batch may also be that of format 2, in which this record is spelled alike.
fn want(is_old: bool, place: usize, byte: u8) -> Told {
    let (mark, batches) = if is_old { (6, 1) } else { (9, 2) };
    match place {
        // The version, the worker, and the number of logs; a header's other bytes are always the same.
        5 if is_old && byte == 2 => Told::Bad(0, 8),
        5 if byte == 1 => Told::Front(mark, batches),
        6 => Told::Bad(byte, 0),
        7 if (1..=64).contains(&byte) => Told::Front(mark, batches),
        0..=7 => Told::Bad(0, 0),
        // A gate that isn't open ends the front, also one that was torn.
        8 => Told::Front(0, 0),
        54 | 84 if byte == 1 => Told::Bad(0, place as u64),
        54 => Told::Front(6, 1),
        84 => Told::Front(9, 2),
        13 if is_old && byte == 2 => Told::Front(mark, batches),
        // An end over 2^59 is not in the format. Any other beginning or end doesn't join, but the last one's end does.
        22 if byte > 7 => Told::Bad(0, 8),
        22..=29 if is_old => {
            let end = changed_end(6, place - 22, byte);
            rising(end >= 5, end, 1)
        }
        14..=29 => Told::Falls(mark, batches),
        // A stamp over the batch's beginning, and up to its end; another tenant, key or column.
        41 => rising((1..=6).contains(&byte), mark, batches),
        34..=40 => Told::Falls(mark, batches),
        42..=45 | 48 | 53 => Told::Front(mark, batches),
        // A batch whose length or kind, or whose number, key or row of a record doesn't fit its body.
        9..=53 => Told::Bad(0, 8),
        55..=59 => Told::Bad(0, 54),
        // The beginning and the end of the second batch, and how much it keeps.
        60..=67 => Told::Falls(9, 2),
        68 if byte > 7 => Told::Bad(0, 54),
        68..=75 => {
            let end = changed_end(9, place - 68, byte);
            rising(end >= 6, end, 2)
        }
        83 => rising(byte <= 9, 9, 2),
        _ => Told::Falls(9, 2),
    }
}

// Each of its bytes is changed to each other value.
fn expect_changes(rt: &impl Abort, alloc: Global, whole: &[u8], is_old: bool) {
    for place in 0..whole.len() {
        for byte in 0..=255 {
            if whole.get(place) != Some(&byte) {
                let told = with_byte(alloc, whole, place, byte).expect(rt, "memory");
                let want = want(is_old, place, byte);
                assert!(rt; told == want, "{byte} at {place}: {told:?}");
            }
        }
    }
}

#[test]
fn each_changed_byte_of_format_1_is_told_for_what_it_is(rt: HostRuntime) -> Result<(), Fail> {
    let alloc = rt.alloc();
    let whole = one_batch(alloc, old_vector(), 0)?;
    assert!(rt; whole.len() == 55 && opened(alloc, &whole)? == Told::Front(6, 1));
    expect_changes(&rt, alloc, &whole, true);
    Ok(())
}

#[test]
fn each_prefix_and_changed_byte_is_told_for_what_it_is(rt: HostRuntime) -> Result<(), Fail> {
    let alloc = rt.alloc();
    for len in 0..85 {
        let (prefix, _) = VECTOR.split_at(len);
        let offset = match len {
            0..=7 => 0,
            8..=53 => 8,
            54..=83 => 54,
            _ => 84,
        };
        let told = opened(alloc, prefix)?;
        assert!(rt; told == Told::Bad(0, offset), "the first {len} bytes");
    }
    expect_changes(&rt, alloc, &VECTOR, false);
    Ok(())
}

// A log of one batch up to step 6, with the removal of a key of this many bytes.
fn with_key(alloc: Global, key: u8) -> Result<Vec<u8>, AllocError> {
    let mut vector = VECTOR;
    // The body has 36 bytes and those of the key.
    vector[11] = 1;
    vector[12] = key.wrapping_add(36);
    let (front, bytes) = (
        vector.split_at(46).0,
        Vec::from_elem(alloc, b'k', usize::from(key))?,
    );
    [front, &[0, key], &bytes, &[0, 0]].as_slice().concat(alloc)
}

#[test]
fn a_key_over_its_limit_is_not_in_the_format(rt: HostRuntime) -> Result<(), Fail> {
    let alloc = rt.alloc();
    assert!(rt; opened(alloc, &with_key(alloc, 251)?)? == Told::Front(6, 1));
    assert!(rt; opened(alloc, &with_key(alloc, 252)?)? == Told::Bad(0, 8));
    Ok(())
}

// Appends a batch from step 5 to 7 to the log of a disk.
fn appended_at_5(alloc: Global, disk: MemDisk) -> Made {
    append(alloc, opened_log(alloc, disk)?, 5, 7, 6)
}

#[test]
fn a_log_that_falls_goes_on_from_the_end_of_its_last_batch(rt: HostRuntime) -> Result<(), Fail> {
    let alloc = rt.alloc();
    let mut image = VECTOR;
    // Its last batch goes up to step 5.
    image[75] = 5;
    let disk = disk_with(alloc, &image, 0, 99)?;
    let (_disk, told) = opened_again(alloc, appended_at_5(alloc, disk));
    assert!(rt; told == Told::Falls(7, 3));
    Ok(())
}

// A log of a batch up to step 3 that has no records.
fn made_without_records(alloc: Global, disk: MemDisk) -> Made {
    append_all(alloc, created(disk)?, &[], 0, 3)
}

#[test]
fn no_batch_and_no_length_is_told_memory(rt: HostRuntime) -> Result<(), Fail> {
    let alloc = rt.alloc();
    let log = made_without_records(alloc, empty_disk(alloc));
    assert!(rt; opened_again(alloc, log).1 == Told::Front(3, 1));
    // A file of more than 1 MB.
    let mut image = EMPTY.to_vec(alloc)?;
    image.extend_from_slice(&Vec::from_elem(alloc, 7, 1 << 20)?)?;
    assert!(rt; opened(alloc, &image)? == Told::Front(0, 0));
    Ok(())
}
