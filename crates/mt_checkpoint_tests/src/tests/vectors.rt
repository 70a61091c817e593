//! The bytes of docs/FORMATS.md, written and read, each of their beginnings, and each byte changed. Two checkpoints written one
//! over the other, stopped or failing at each call of their disk; and each of some torn images that a crash may then leave, read.

use super::slots::{OLD_VECTOR, stamp_in, write, written};
use super::*;
use mt_checkpoint::checkpoint::MAX_STEP;

#[test]
fn a_checkpoint_is_written_as_its_bytes(rt: HostRuntime) -> Result<(), Fail> {
    let alloc = rt.alloc();
    let made = slot_with(alloc, &[], None)?;
    assert!(rt; made.is_some_and(|disk| disk.image() == b"\x00".as_slice()));
    let (disk, told) = written(alloc, (6, 9), &[(7, 0x6b)], 1)?;
    assert!(rt; told == Told::Walk(6, 9, 1) && disk.image() == VECTOR.as_slice());
    Ok(())
}

// A walk is a checkpoint if its steps are in order, the last of them at most 2^59, its pairs rise by tenant and key, and
// no stamp is over its last step. Any other one is refused, and leaves a closed gate alone.
#[test]
fn a_walk_out_of_order_is_none(rt: HostRuntime) -> Result<(), Fail> {
    let alloc = rt.alloc();
    let rising = [(7, 2), (7, 3), (8, 1)];
    for (first, last, keys, is_one) in [
        (6, 9, rising, true),
        (6, 6, rising, true),
        (6, 5, rising, false),
        (4, 5, rising, true),
        (3, 4, rising, false),
        (6, MAX_STEP, rising, true),
        (6, MAX_STEP + 1, rising, false),
        (6, 9, [(7, 3), (7, 2), (8, 1)], false),
        (6, 9, [(7, 2), (7, 2), (8, 1)], false),
        (6, 9, [(7, 2), (8, 1), (7, 3)], false),
    ] {
        let (disk, told) = written(alloc, (first, last), &keys, 1)?;
        let is_told = told == Told::Walk(first, last, 3);
        let is_none = told == Told::None && disk.image() == b"\x00".as_slice();
        let is_right = if is_one { is_told } else { is_none };
        assert!(rt; is_right, "from {first} up to {last}: {told:?}");
    }
    Ok(())
}

#[test]
fn each_beginning_is_none(rt: HostRuntime) -> Result<(), Fail> {
    let alloc = rt.alloc();
    for whole in [VECTOR.as_slice(), &OLD_VECTOR] {
        for len in 0..whole.len() {
            let (front, _) = whole.split_at(len);
            assert!(rt; read_as(alloc, front)? == Told::None, "{len} bytes");
        }
    }
    let mut longer = VECTOR.to_vec(alloc)?;
    longer.extend_from_slice(b"whatever follows it")?;
    assert!(rt; read_as(alloc, &longer)? == Told::Walk(6, 9, 1));
    Ok(())
}

// In format 1 no entry tells a stamp: each row has the number of steps before the walk.
#[test]
fn a_checkpoint_of_format_1_is_read(rt: HostRuntime) -> Result<(), Fail> {
    let alloc = rt.alloc();
    for (image, stamp) in [(VECTOR.as_slice(), 5), (OLD_VECTOR.as_slice(), 6)] {
        assert!(rt; read_as(alloc, image)? == Told::Walk(6, 9, 1));
        assert!(rt; stamp_in(alloc, image)? == Some(stamp));
    }
    Ok(())
}

// What bytes are read as with one of them changed.
fn changed(alloc: Global, whole: &[u8], place: usize, by: u8) -> Result<Told, AllocError> {
    let mut image = whole.to_vec(alloc)?;
    if let Some(at) = image.get_mut(place) {
        *at ^= by;
    }
    read_as(alloc, &image)
}

// The last step with one of its bytes changed.
fn last_step(byte: usize, by: u8) -> u64 {
    let mut bytes = [0, 0, 0, 0, 0, 0, 0, 9];
    if let Some(at) = bytes.get_mut(byte) {
        *at ^= by;
    }
    u64::from_be_bytes(bytes)
}

// What they are to be read as. Another first or last step, tenant, key, stamp or column is another checkpoint. So is one
// that ends before its pair: the next eight bytes are its last step then. All else is none. Format 1 has no stamp in its
// entry, whose bytes are the eight from 23 on.
fn want(is_old: bool, place: usize, by: u8) -> Told {
    let skipped = if is_old && place > 22 { 8 } else { 0 };
    let place = place.saturating_add(skipped);
    match place {
        14 if 6 ^ by <= 9 => Told::Walk(u64::from(6 ^ by), 9, 1),
        15 if 1 ^ by == 2 => Told::Walk(6, 0x7_0001_6b00 + u64::from(is_old), 0),
        30 if 5 ^ by <= 9 => Told::Walk(6, 9, 1),
        16..=19 | 22 | 34 => Told::Walk(6, 9, 1),
        36..=43 => ending_at(last_step(place - 36, by)),
        _ => Told::None,
    }
}

// A checkpoint from step 6 up to this one, if it may be one.
fn ending_at(last: u64) -> Told {
    if (6..=MAX_STEP).contains(&last) {
        Told::Walk(6, last, 1)
    } else {
        Told::None
    }
}

#[test]
fn each_changed_byte_is_told_for_what_it_is(rt: HostRuntime) -> Result<(), Fail> {
    let alloc = rt.alloc();
    for (whole, is_old) in [(VECTOR.as_slice(), false), (&OLD_VECTOR, true)] {
        for by in 1..=255 {
            for place in 0..whole.len() {
                let told = changed(alloc, whole, place, by)?;
                let want = want(is_old, place, by);
                assert!(rt; told == want, "byte {place} by {by}: {told:?}");
            }
        }
    }
    Ok(())
}

// Eleven hundred pairs of a thousand bytes are over 1 MiB, and many windows.
#[test]
fn a_long_checkpoint_is_read_in_windows(rt: HostRuntime) -> Result<(), Fail> {
    let alloc = rt.alloc();
    let mut keys = Vec::new(alloc);
    for tenant in 0..1_100 {
        keys.push((tenant, 0x6b))?;
    }
    let (disk, told) = written(alloc, (6, 9), &keys, 1_000)?;
    assert!(rt; told == Told::Walk(6, 9, 1_100) && disk.image().len() > 1 << 20);
    Ok(())
}

// The second checkpoint, whole.
const SECOND: [u8; 44] = [
    1, 0x4d, 0x54, 0x43, 0x4b, 0x50, 2, 0, 0, 0, 0, 0, 0, 0, 12, 1, 0, 0, 0, 7, 0, 1, 0x6b, 0, 0,
    0, 0, 0, 0, 0, 5, 1, 0, 1, 0x76, 2, 0, 0, 0, 0, 0, 0, 0, 15,
];

// A slot in which the first was written, and then the second; whether each went well.
fn two(
    alloc: Global,
    fails: &[u64],
    stop: Option<u64>,
) -> Result<Option<(MemDisk, bool, bool)>, AllocError> {
    let Some(disk) = slot_with(alloc, fails, stop)? else {
        return Ok(None);
    };
    let (disk, first) = write(alloc, disk, (6, 9), &[(7, 0x6b)], 1)?;
    let (disk, second) = write(alloc, disk, (12, 15), &[(7, 0x6b)], 1)?;
    Ok(Some((disk, first, second)))
}

// Whether a slot may be read so. What was ended counts until another one is begun.
fn may_be(told: Told, second: bool) -> bool {
    match told {
        Told::Walk(12, 15, 1) => true,
        Told::Walk(6, 9, 1) | Told::None => !second,
        _ => false,
    }
}

// How many torn images a disk may leave; 0 if one is read as what it can't have.
fn torn_left(alloc: Global, disk: &MemDisk, second: bool) -> Result<u64, AllocError> {
    let mut left: u64 = 0;
    for whole in [VECTOR, SECOND] {
        let (_, text) = whole.split_at(1);
        let (half, _) = text.split_at(20);
        for byte in [0, 1, 7] {
            for behind in [b"".as_slice(), half, text, b"MTCKP\x02 and more"] {
                let image = [[byte].as_slice(), behind].as_slice().concat(alloc)?;
                if disk.may_leave(&image) {
                    if !may_be(read_as(alloc, &image)?, second) {
                        return Ok(0);
                    }
                    left = left.saturating_add(1);
                }
            }
        }
    }
    Ok(left)
}

// A slot that is made makes two calls, a checkpoint over a closed gate thirteen, one over an open gate fifteen.
#[test]
fn a_crash_at_any_call_leaves_a_whole_one_or_none(rt: HostRuntime) -> Result<(), Fail> {
    let alloc = rt.alloc();
    for call in 3..32 {
        let made = two(alloc, &[], Some(call))?;
        let (disk, first, second) = made.expect(&rt, "a slot is made");
        assert!(rt; first == (call > 15) && second == (call > 30), "{call}");
        assert!(rt; torn_left(alloc, &disk, second)? > 0, "stopped at {call}");
    }
    Ok(())
}

// If one call fails the slot is read again, and what is told then is told for good.
#[test]
fn a_slot_whose_disk_failed_is_read_again(rt: HostRuntime) -> Result<(), Fail> {
    let alloc = rt.alloc();
    for call in 3..36 {
        let made = two(alloc, &[call], None)?;
        let (mut disk, _, second) = made.expect(&rt, "a slot is made");
        let read = told_of(&read_valid(alloc, &mut disk));
        assert!(rt; read == Told::Device || may_be(read, second), "{call}");
        let again = told_of(&read_valid(alloc, &mut disk));
        assert!(rt; read == Told::Device || again == read, "{call} failing");
        assert!(rt; read_as(alloc, disk.image())? == again, "{call} failing");
    }
    Ok(())
}

#[test]
fn a_call_that_fails_makes_no_slot(rt: HostRuntime) -> Result<(), Fail> {
    let alloc = rt.alloc();
    for call in [1, 2] {
        assert!(rt; two(alloc, &[call], None)?.is_none(), "{call} failing");
    }
    Ok(())
}
