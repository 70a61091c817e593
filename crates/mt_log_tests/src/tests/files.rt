//! A numbered file: made spare, begun with the log of generation 1, given up, and begun with that of generation 3.
//! The calls on a file of a system: which follow on which, and what is told of one that gives an error.

ghost use Rattle.std.specs.Prelude.{None};

use super::*;
use mt_disk::{FileCalls, SystemFile};
use mt_gates::BeginFault;
use mt_log_generations::{HeaderFault, begin_generation, create_spare, give_up, read_header};
use std::fmt::Write;

// Worker 0 of 1, generation 1, from step 6 on; and generation 3, from step 20 on.
const FIRST: [u8; 26] = [
    1, 0x4d, 0x54, 0x4c, 0x4f, 0x47, 3, 0, 1, 0, 0, 0, 0, 0, 0, 0, 1, 0, 0, 0, 0, 0, 0, 0, 6, 0,
];

const SECOND: [u8; 26] = [
    1, 0x4d, 0x54, 0x4c, 0x4f, 0x47, 3, 0, 1, 0, 0, 0, 0, 0, 0, 0, 3, 0, 0, 0, 0, 0, 0, 0, 20, 0,
];

// What a file is read as: the generation and the start of its log, or that it has none.
#[derive(Clone, Copy, Debug, PartialEq, Eq)]
enum Told {
    Log(u64, u64),
    NoLog,
    Bad(u8),
    Device,
}

fn told_of(disk: &mut MemDisk) -> Told {
    match read_header(disk) {
        Ok(Some(header)) => Told::Log(header.generation, header.start),
        Ok(None) => Told::NoLog,
        Err(HeaderFault::Bad(worker)) => Told::Bad(worker),
        Err(HeaderFault::Device) => Told::Device,
    }
}

fn read_as(alloc: Global, image: &[u8]) -> Result<Told, AllocError> {
    let mut disk = MemDisk::with_image(alloc, image.to_vec(alloc)?, Vec::new(alloc), None)?;
    Ok(told_of(&mut disk))
}

// A spare file takes three calls of the disk, each beginning eight, and giving up seven.
fn two_generations(disk: &mut MemDisk) -> bool {
    create_spare(disk).is_ok()
        && begin_generation(disk, 0, 1, 1, 6).is_ok()
        && give_up(disk).is_ok()
        && begin_generation(disk, 0, 1, 3, 20).is_ok()
}

// Whether a file has the log of this generation and start.
fn has(disk: &mut MemDisk, generation: u64, start: u64) -> bool {
    told_of(disk) == Told::Log(generation, start)
}

// What failed at a call, once more, unless it was done; and what the file then has.
fn once_more(disk: &mut MemDisk, call: u64) -> (bool, &'static [u8]) {
    match call {
        0..=3 => (create_spare(disk).is_ok(), &[0]),
        4..=11 => (
            has(disk, 1, 6) || begin_generation(disk, 0, 1, 1, 6).is_ok(),
            &FIRST,
        ),
        12..=18 => (give_up(disk).is_ok(), &[0]),
        _ => (
            has(disk, 3, 20) || begin_generation(disk, 0, 1, 3, 20).is_ok(),
            &SECOND,
        ),
    }
}

#[test]
fn a_log_without_batches_has_its_bytes(rt: HostRuntime) -> Result<(), Fail> {
    let alloc = rt.alloc();
    let mut disk = MemDisk::new(alloc, Vec::new(alloc), None);
    for (call, told) in [
        (3, Told::NoLog),
        (11, Told::Log(1, 6)),
        (18, Told::NoLog),
        (26, Told::Log(3, 20)),
    ] {
        let (went_well, image) = once_more(&mut disk, call);
        assert!(rt; went_well && disk.image() == image, "up to call {call}");
        assert!(rt; told_of(&mut disk) == told, "up to call {call}");
    }
    Ok(())
}

// Whether a file that was stopped at a call may be read so.
fn may_be(told: Told, stop: u64) -> bool {
    match told {
        Told::NoLog => stop <= 26,
        Told::Log(1, 6) => stop <= 18,
        Told::Log(3, 20) => stop > 18,
        _ => false,
    }
}

// How many images with this gate or another one a disk may leave; 0 if one is read as what it can't have.
fn left(alloc: Global, disk: &MemDisk, stop: u64) -> Result<u64, AllocError> {
    let mut left: u64 = 0;
    for whole in [FIRST, SECOND] {
        let (_, text) = whole.split_at(1);
        let (half, _) = text.split_at(12);
        for byte in [0, 1, 7] {
            for behind in [b"".as_slice(), half, text] {
                let image = [[byte].as_slice(), behind].as_slice().concat(alloc)?;
                if disk.may_leave(&image) {
                    if !may_be(read_as(alloc, &image)?, stop) {
                        return Ok(0);
                    }
                    left = left.saturating_add(1);
                }
            }
        }
    }
    Ok(left)
}

#[test]
fn a_crash_at_any_call_leaves_a_whole_log_or_none(rt: HostRuntime) -> Result<(), Fail> {
    let alloc = rt.alloc();
    for stop in 4..28 {
        let mut disk = MemDisk::new(alloc, Vec::new(alloc), Some(stop));
        let ended = two_generations(&mut disk);
        assert!(rt; ended == (stop == 27), "stopped at {stop}");
        assert!(rt; left(alloc, &disk, stop)? > 0, "stopped at {stop}");
    }
    Ok(())
}

#[test]
fn a_call_that_failed_is_made_once_more(rt: HostRuntime) -> Result<(), Fail> {
    let alloc = rt.alloc();
    for call in 1..27 {
        let mut disk = MemDisk::new(alloc, [call].to_vec(alloc)?, None);
        assert!(rt; !two_generations(&mut disk), "{call} failing");
        let (went_well, image) = once_more(&mut disk, call);
        assert!(rt; went_well && disk.image() == image, "{call} failing");
        assert!(rt; disk.may_leave(image), "{call} failing");
    }
    Ok(())
}

#[test]
fn a_log_is_begun_over_a_closed_gate_alone(rt: HostRuntime) -> Result<(), Fail> {
    let alloc = rt.alloc();
    for image in [b"".as_slice(), b"\x01", b"\x07", b"MTLOG", FIRST.as_slice()] {
        let mut disk = MemDisk::with_image(alloc, image.to_vec(alloc)?, Vec::new(alloc), None)?;
        let is_refused = begin_generation(&mut disk, 0, 1, 3, 20) == Err(BeginFault::NotShut);
        assert!(rt; is_refused && disk.image() == image, "{image:?}");
    }
    Ok(())
}

// Eight bytes as a number, with one of them changed.
fn changed(number: u64, place: usize, byte: u8) -> u64 {
    let mut bytes = number.to_be_bytes();
    if let Some(at) = bytes.get_mut(place) {
        *at = byte;
    }
    u64::from_be_bytes(bytes)
}

// What is to be told with this byte in a place of the first log where another one stood.
fn want(place: usize, byte: u8) -> Told {
    let (generation, start) = match place {
        9..=16 => (changed(1, place - 9, byte), 6),
        17..=24 => (1, changed(6, place - 17, byte)),
        _ => (1, 6),
    };
    match place {
        // A gate that isn't open, also one that was torn.
        0 => Told::NoLog,
        1..=6 => Told::Bad(0),
        7 => Told::Bad(byte),
        8 if !(1..=64).contains(&byte) => Told::Bad(0),
        _ if generation == 0 || generation > 1 << 59 || start > 1 << 59 => Told::Bad(0),
        _ => Told::Log(generation, start),
    }
}

#[test]
fn each_beginning_and_changed_byte_is_told_for_what_it_is(rt: HostRuntime) -> Result<(), Fail> {
    let alloc = rt.alloc();
    for len in 0..26 {
        let (beginning, _) = FIRST.split_at(len);
        let want = match len {
            0 => Told::NoLog,
            1..=24 => Told::Bad(0),
            _ => Told::Log(1, 6),
        };
        assert!(rt; read_as(alloc, beginning)? == want, "the first {len} bytes");
    }
    for place in 0..26 {
        for byte in 0..=255 {
            let mut image = FIRST;
            if image[place] != byte {
                image[place] = byte;
                let told = read_as(alloc, &image)?;
                assert!(rt; told == want(place, byte), "{byte} at {place}: {told:?}");
            }
        }
    }
    Ok(())
}

// A file of seven bytes. It keeps the calls on it, a letter each, with the place or the length that it was given, else 0.
// Those with these numbers give their number as that of an error.
#[derive(Drop)]
struct FakeCalls {
    calls: String,
    count: i32,
    fails: [i32; 2],
}

impl FakeCalls {
    // Gives 0, or the number of an error.
    fn number(&mut self, letter: char, place: usize) -> i32 {
        self.count = self.count.saturating_add(1);
        if write!(self.calls, "{letter}{place} ").is_err() || self.fails.contains(&self.count) {
            return self.count;
        }
        0
    }

    fn answer(&mut self, letter: char, place: usize) -> io::Result<()> {
        match self.number(letter, place) {
            0 => Ok(()),
            number => Err(io::Error::from_raw_os_error(number)),
        }
    }
}

impl FileCalls for FakeCalls {
    ghost made = { λ _. None };

    fn len(&mut self) -> io::Result<usize> {
        self.answer('l', 0)?;
        Ok(7)
    }

    fn read_exact_at(&mut self, at: usize, _out: &mut [u8]) -> io::Result<()> {
        self.answer('r', at)
    }

    fn write_all_at(&mut self, at: usize, _bytes: &[u8]) -> io::Result<()> {
        self.answer('w', at)
    }

    fn set_len(&mut self, len: usize) -> io::Result<()> {
        self.answer('c', len)
    }

    fn sync_all(&mut self) -> io::Result<()> {
        self.answer('s', 0)
    }

    fn drop_cache(&mut self) -> i32 {
        self.number('d', 0)
    }
}

// What is asked of a file, a letter each; the calls that give an error; all that are made; and whether each answer was
// good, with the number of the last error.
const ROWS: [(&str, [i32; 2], &str, &str); 14] = [
    ("ss", [0, 0], "s0 s0 ", "y0 y0 "),
    // The length is written again after a sync that failed, once, and again as long as that fails or the sync does.
    ("sss", [1, 0], "s0 l0 c7 s0 s0 ", "n1 y1 y1 "),
    ("sss", [1, 2], "s0 l0 l0 c7 s0 ", "n1 n2 y2 "),
    ("sss", [1, 3], "s0 l0 c7 l0 c7 s0 ", "n1 n3 y3 "),
    ("sss", [1, 4], "s0 l0 c7 s0 l0 c7 s0 ", "n1 n4 y4 "),
    // The cache is dropped after a sync that succeeded, and no other.
    ("d", [0, 0], "s0 d0 ", "y0 "),
    ("dd", [1, 0], "s0 l0 c7 s0 d0 ", "n1 y1 "),
    ("sd", [1, 3], "s0 l0 c7 ", "n1 n3 "),
    ("ds", [2, 0], "s0 d0 s0 ", "n2 y2 "),
    // Each other call is made alone, and a failure of it isn't one of a sync.
    ("ls", [1, 0], "l0 s0 ", "n1 y1 "),
    ("rs", [1, 0], "r2 s0 ", "n1 y1 "),
    ("ws", [1, 0], "w3 s0 ", "n1 y1 "),
    ("cs", [1, 0], "c4 s0 ", "n1 y1 "),
    ("lrwca", [0, 0], "l0 r2 w3 c4 c5 ", "y0 y0 y0 y0 y0 "),
];

// What is answered to each letter.
fn answers(alloc: Global, file: &mut OsFile<FakeCalls>, asked: &str) -> Result<String, AllocError> {
    let mut answers = String::new(alloc);
    for letter in asked.as_bytes() {
        let is_good = match *letter {
            b'l' => file.len() == Ok(7),
            b'r' => file.read_at(2, &mut []).is_ok(),
            b'w' => file.write_at(3, b"XY").is_ok(),
            b'c' => file.cut(4).is_ok(),
            b'a' => file.cut_again(5).is_ok(),
            b's' => file.sync().is_ok(),
            _ => file.drop_cache().is_ok(),
        };
        let letter = if is_good { 'y' } else { 'n' };
        let number = file.last_error().unwrap_or(0);
        if write!(answers, "{letter}{number} ").is_err() {
            return Err(AllocError);
        }
    }
    Ok(answers)
}

#[test]
fn calls_follow_on_those_that_failed(rt: HostRuntime) -> Result<(), Fail> {
    let alloc = rt.alloc();
    for &(asked, fails, made, told) in &ROWS {
        let mut file = OsFile::new(FakeCalls {
            calls: String::new(alloc),
            count: 0,
            fails,
        });
        let answers = answers(alloc, &mut file, asked)?;
        let calls = file.calls().calls.as_str();
        assert!(rt;
            answers.as_str() == told && calls == made,
            "{asked}, {fails:?} failing: {answers}after {calls}"
        );
    }
    Ok(())
}
