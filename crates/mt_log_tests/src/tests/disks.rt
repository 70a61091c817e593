//! Disks in memory: which calls fail, and what a crash may leave. Real files: what they keep.

use super::logs::append_up_to;
use super::*;
use mt_disk::disk::count_failure;
use mt_disk::{Disk, FileDisk};
use std::fs::{self, File};
use std::io::ErrorKind;

// The images that are asked for, each torn, lost, kept, longer or shorter in its way.
const IMAGES: [&str; 12] = [
    "abcd", "aXYd", "aXcd", "a??d", "aXYd??", "abcdef", "abcd??", "ab", "aX", "abc", "Xbcd", "",
];

// Writes, appends, cuts and syncs, a letter a call. Each fails that is told to.
fn call_all(disk: &mut MemDisk, calls: &str) {
    for call in calls.as_bytes() {
        let _ = match *call {
            b'w' => disk.write_at(1, b"XY"),
            b'a' => disk.write_at(4, b"ef"),
            b'c' => disk.cut(2),
            _ => disk.sync(),
        };
    }
}

// Whether a crash may leave the images that have a `y` in this line, and no others of the list.
fn leaves(disk: &MemDisk, line: &str) -> bool {
    IMAGES.iter().zip(line.as_bytes()).all(|(image, letter)| disk.may_leave(image.as_bytes())
        == (*letter == b'y'))
}

// The calls on a disk where `abcd` is durable, the two that fail, 0 for none, and the first that a crash stops; what is
// read then, and a letter for each of the images.
const CASES: [(&str, u64, u64, u64, &str, &str); 18] = [
    ("", 0, 0, 9, "abcd", "y..........."),
    ("w", 0, 0, 9, "aXYd", "yyyyyyy....."),
    ("w", 1, 0, 9, "abcd", "yyyyyyy....."),
    ("c", 0, 0, 9, "ab", "y....yyy.y.."),
    ("c", 1, 0, 9, "abcd", "y....yyy.y.."),
    ("a", 0, 0, 9, "abcdef", "y....yy....."),
    ("a", 0, 0, 1, "abcd", "y....yy....."),
    ("wc", 0, 0, 9, "aX", "yyyyyyyyyy.."),
    ("wc", 0, 0, 1, "abcd", "yyyyyyyyyy.."),
    ("wc", 0, 0, 2, "aXYd", "yyyyyyyyyy.."),
    ("ws", 0, 0, 9, "aXYd", ".y.........."),
    ("ws", 1, 0, 9, "abcd", "y..........."),
    ("ws", 2, 0, 9, "aXYd", "yyyyyyy....."),
    ("wss", 2, 0, 9, "aXYd", ".y.........."),
    ("wss", 2, 3, 9, "aXYd", "yyyyyyy....."),
    ("ws", 0, 0, 1, "abcd", "yyyyyyy....."),
    ("ws", 0, 0, 2, "aXYd", "yyyyyyy....."),
    ("ws", 0, 0, 3, "aXYd", ".y.........."),
];

#[test]
fn a_crash_leaves_what_is_durable_and_tears_the_rest(rt: HostRuntime) -> Result<(), Fail> {
    let alloc = rt.alloc();
    for &(calls, fail, other, stop, read, line) in &CASES {
        let (image, fails) = (b"abcd".to_vec(alloc)?, [fail, other].to_vec(alloc)?);
        let mut disk = MemDisk::with_image(alloc, image, fails, Some(stop))?;
        call_all(&mut disk, calls);
        let is_left = disk.image() == read.as_bytes() && leaves(&disk, line);
        assert!(rt; is_left, "{calls}, {fail} and {other} failing, {stop}");
    }
    Ok(())
}

// A disk where `abcd` is durable, its third call fails, and all from `stop` on. It crashes after its first
// call, which is a write.
fn crashed(alloc: Global, stop: u64) -> Result<MemDisk, AllocError> {
    let (image, fails) = (b"abcd".to_vec(alloc)?, [3].to_vec(alloc)?);
    let mut disk = MemDisk::with_image(alloc, image, fails, Some(stop))?;
    let _ = disk.write_at(1, b"XY");
    let image = b"a??d".to_vec(alloc)?;
    if disk.may_leave(&image) {
        disk.crash(image)?;
    }
    Ok(disk)
}

// Whether a call goes well exactly where a `y` stands.
fn goes_well(disk: &mut MemDisk, letters: &[u8]) -> bool {
    for letter in letters {
        if disk.len().is_ok() != (*letter == b'y') {
            return false;
        }
    }
    true
}

#[test]
fn a_crash_ends_a_stop_and_keeps_the_plan(rt: HostRuntime) -> Result<(), Fail> {
    let alloc = rt.alloc();
    // A stop that came is over; one to come stays.
    for &(stop, letters) in &[(1, "y.yy"), (2, "...."), (4, "y..."), (9, "y.yy")] {
        let mut disk = crashed(alloc, stop)?;
        let is_found = disk.image() == b"a??d".as_slice() && disk.may_leave(b"a??d");
        assert!(rt; is_found && !disk.may_leave(b"abcd"), "stopped at {stop}");
        assert!(rt; disk.calls() == 1, "stopped at {stop}");
        let goes_well = goes_well(&mut disk, letters.as_bytes());
        assert!(rt; goes_well && disk.calls() == 5, "stopped at {stop}");
    }
    Ok(())
}

// Whether of ten calls those fail that are told to, and no others.
fn fails_as_told(disk: &mut MemDisk, fails: &[u64], stop: u64) -> bool {
    let mut out = [0; 2];
    for call in 1..11 {
        let ok = match call % 5 {
            1 => disk.write_at(0, b"abcd").is_ok(),
            2 => disk.len().is_ok(),
            3 => disk.read(1, &mut out).is_ok(),
            4 => disk.cut(3).is_ok(),
            _ => disk.sync().is_ok(),
        };
        if ok != (!fails.contains(&call) && call < stop) {
            return false;
        }
    }
    disk.calls() == 10
}

#[test]
fn each_call_fails_where_it_is_told(rt: HostRuntime) -> Result<(), Fail> {
    let alloc = rt.alloc();
    // A first write that fails leaves too little to read, so it isn't in the list.
    for fail in [0, 2, 3, 4, 5, 6, 7, 8, 9, 10] {
        for other in [0, 3, 4, 10] {
            for stop in 1..12 {
                let fails = [fail, other];
                let mut disk = MemDisk::new(alloc, fails.to_vec(alloc)?, Some(stop));
                assert!(rt; fails_as_told(&mut disk, &fails, stop), "{fails:?}, {stop}");
            }
        }
    }
    let mut failures = 1;
    count_failure(&mut failures);
    assert_eq!(rt; failures, 2);
    Ok(())
}

// Whether a new disk keeps what is written, cut to `abcdeXY`.
fn keeps_what_is_written<D: Disk>(disk: &mut D) -> bool {
    disk.len() == Ok(0)
        && disk.write_at(0, b"abcdefgh").is_ok()
        && disk.write_at(5, b"XYZ").is_ok()
        && disk.len() == Ok(8)
        && disk.cut(7).is_ok()
        && disk.sync().is_ok()
        && reads_it(disk)
}

// Whether it reads that, and nothing past it.
fn reads_it<D: Disk>(disk: &mut D) -> bool {
    let mut out = [0; 7];
    disk.len() == Ok(7)
        && disk.read(0, &mut out).is_ok()
        && out.as_slice() == b"abcdeXY".as_slice()
        && disk.read(1, &mut out).is_err()
}

// A disk on a file of the system.
fn found(alloc: Global, file: File) -> io::Result<FileDisk> {
    FileDisk::found(alloc, OsFile::new(file)).map_err(|_| ErrorKind::Other.into())
}

// The mark of a log that is made on a disk, with a thousand batches.
fn mark_of_many(alloc: Global, disk: FileDisk) -> u64 {
    match LogFile::create(disk, 2, 4) {
        Ok(log) => append_up_to(alloc, log, 1_000).1,
        Err(_) => 0,
    }
}

// A file that may be written, which is made if it isn't there.
fn writable(rt: &HostRuntime, path: &str) -> io::Result<File> {
    let mut options = File::options();
    options.read(true).write(true).create(true);
    options.open(rt, path)
}

// Whether a file that was opened for reading alone is read, and not written.
fn is_read_alone(alloc: Global, file: File) -> io::Result<bool> {
    let mut disk = found(alloc, file)?;
    Ok(reads_it(&mut disk) && disk.write_at(0, b"Z").is_err() && disk.cut(1).is_err())
}

#[test]
fn a_file_keeps_what_was_written(rt: HostRuntime) -> Result<(), Fail> {
    let alloc = rt.alloc();
    assert!(rt; keeps_what_is_written(&mut MemDisk::new(alloc, Vec::new(alloc), None)));
    let (folder, path) = ("mt_log_tests_files", "mt_log_tests_files/wal-02");
    let _ = fs::remove_dir_all(&rt, folder);
    fs::create_dir(&rt, folder)?;
    assert!(rt; keeps_what_is_written(&mut found(alloc, writable(&rt, path)?)?));
    assert!(rt; is_read_alone(alloc, File::open(&rt, path)?)?);
    // The log takes the disk's place.
    assert!(rt; mark_of_many(alloc, found(alloc, writable(&rt, path)?)?) == 1_000);
    // It is found again, also if more than 4 GiB stand behind it.
    for len in [46_009, 5 << 30] {
        let file = writable(&rt, path)?;
        file.set_len(len)?;
        let (_disk, told) = opened_on(alloc, found(alloc, file)?);
        assert!(rt; told == Told::Front(1_000, 1_000), "{len}");
    }
    fs::remove_dir_all(&rt, folder)?;
    Ok(())
}
