//! The log of generation 1 in its numbered file: begun, appended to, opened again, joined and given up. What is no log there,
//! or in a plain file.

ghost use Rattle.std.specs.Prelude.{◌≡◌};

use super::*;
use mt_log_files::{begin, give_up, open_numbered, open_slot, take_disk};
use mt_log_generations::{Header, Parity};
use std::mem;

// Worker 1 of 2, generation 1, from step 6 on, without batches.
const BEGUN: [u8; 26] = [
    1, 0x4d, 0x54, 0x4c, 0x4f, 0x47, 3, 1, 2, 0, 0, 0, 0, 0, 0, 0, 1, 0, 0, 0, 0, 0, 0, 0, 6, 0,
];

const HEADER: Header = Header {
    worker: 1,
    logs: 2,
    generation: 1,
    start: 6,
};

// What an opening tells: the generation, the start and the number of batches of its log, or that it has none.
type Found = Result<Option<(u64, u64, usize)>, Refusal>;

// No log, of which this number is told.
fn bad(number: u8) -> Found {
    let offset = 0;
    Err(Refusal::BadLog { number, offset })
}

type Place = LogSlot<MemDisk>;

// The place of a file with these bytes.
fn place_with(alloc: Global, image: &[u8]) -> Result<Place, AllocError> {
    Ok(LogSlot::Closed(disk_with(alloc, image, 0, 99)?))
}

fn find(alloc: Global, slot: &mut Place, parity: Parity) -> Found {
    let front = open_numbered(alloc, slot, parity)?;
    Ok(front.map(|front| (front.generation, front.start, front.batches.len())))
}

// Whether a place's file has these bytes.
fn has(slot: &mut Place, image: &[u8]) -> bool {
    let Some(disk) = take_disk(slot) else {
        return false;
    };
    let is_so = disk.image() == image;
    *slot = LogSlot::Closed(disk);
    is_so
}

// Appends what worker 1 placed up to a step to the open log of a place.
fn appends(alloc: Global, slot: &mut Place, upto: u64) -> bool {
    let LogSlot::Open(log) = mem::replace(slot, LogSlot::Away) else {
        return false;
    };
    match append(alloc, log, &[put(6, 1, 1, 1), put(9, 1, 1, 1)], 1, upto) {
        Ok(log) => {
            *slot = LogSlot::Open(log);
            true
        }
        Err(_) => false,
    }
}

// How many records the open log of a place has that is read again, if it gives what its front has.
fn count_again(
    alloc: Global,
    slot: &mut Place,
    kind: FileKind,
    front: &Front,
) -> Result<Option<usize>, AllocError> {
    match slot {
        LogSlot::Open(log) => Ok(read_again(alloc, log, kind, front)?.map(|records| records.len())),
        _ => Ok(None),
    }
}

#[test]
fn a_generation_is_begun_appended_to_joined_and_given_up(rt: HostRuntime) -> Result<(), Fail> {
    let alloc = rt.alloc();
    let mut first = place_with(alloc, &EMPTY)?;
    let plain = open_slot(alloc, &mut first).is_ok();
    assert!(rt; plain && appends(alloc, &mut first, 6));
    let mut next = place_with(alloc, &[0])?;
    assert!(rt; find(alloc, &mut next, Parity::Odd) == Ok(None));
    assert!(rt; begin(&mut next, HEADER).is_ok());
    assert!(rt; has(&mut next, &BEGUN));
    assert!(rt; find(alloc, &mut next, Parity::Odd) == Ok(Some((1, 6, 0))));
    assert!(rt; appends(alloc, &mut next, 9));
    let older = open_slot(alloc, &mut first).expect(&rt, "the older log opens");
    let newer = open_numbered(alloc, &mut next, Parity::Odd).expect(&rt, "the next log opens");
    let newer = newer.expect(&rt, "the next log is there");
    assert!(rt; newer.generation == 1 && newer.start == 6 && newer.batches.len() == 1);
    let odd = FileKind::Numbered(Parity::Odd);
    assert!(rt; count_again(alloc, &mut first, FileKind::Plain, &older)? == Some(1));
    assert!(rt; count_again(alloc, &mut next, odd, &newer)? == Some(1));
    let chain = older.join(newer)?;
    assert!(rt; chain.generation == 0 && chain.start == 0 && chain.batches.len() == 2);
    assert!(rt; cutoff(&[chain]) == 9);
    assert!(rt; give_up(&mut next).is_ok());
    assert!(rt; has(&mut next, &[0]));
    assert!(rt; find(alloc, &mut next, Parity::Odd) == Ok(None));
    Ok(())
}

#[test]
fn a_file_is_told_for_what_it_is(rt: HostRuntime) -> Result<(), Fail> {
    let alloc = rt.alloc();
    let mut nought = BEGUN;
    nought[16] = 0;
    let mut no_worker = BEGUN;
    no_worker[7] = 2;
    for &(image, parity, want) in &[
        (b"".as_slice(), Parity::Odd, Ok(None)),
        (b"\x00", Parity::Odd, Ok(None)),
        // A gate that a crash left torn, as the first byte of a plain file is one here.
        (&EMPTY, Parity::Odd, Ok(None)),
        (b"\x01", Parity::Odd, bad(0)),
        (&BEGUN, Parity::Odd, Ok(Some((1, 6, 0)))),
        (&BEGUN, Parity::Even, bad(1)),
        (&nought, Parity::Even, bad(1)),
        (&no_worker, Parity::Odd, bad(2)),
    ] {
        let mut slot = place_with(alloc, image)?;
        let found = find(alloc, &mut slot, parity);
        assert!(rt; found == want, "{image:?}: {found:?}");
    }
    assert!(rt; opened(alloc, &BEGUN)? == Told::Bad(0, 0));
    Ok(())
}

// The file's own calls, without a place.
#[test]
fn a_log_is_given_back_by_its_own_calls(rt: HostRuntime) -> Result<(), Fail> {
    let alloc = rt.alloc();
    let disk = disk_with(alloc, &[0], 0, 99)?;
    let log = LogFile::begin(disk, 1, 2, 1, 6).ok();
    let log = log.expect(&rt, "a sound disk takes a log");
    assert!(rt; log.mark() == 6 && log.disk().image() == BEGUN.as_slice());
    let disk = log.give_up().ok().expect(&rt, "a sound disk gives it up");
    assert!(rt; disk.image() == [0].as_slice());
    let fault = LogFile::open(alloc, disk_with(alloc, &BEGUN, 0, 99)?).err();
    let (disk, told) = not_opened(fault.expect(&rt, "no plain file"));
    assert!(rt; told == Told::Bad(0, 0) && disk.image() == BEGUN.as_slice());
    Ok(())
}
