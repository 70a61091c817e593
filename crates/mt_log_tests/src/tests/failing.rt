//! Logs on a file of a system whose syncs fail, as Linux fails them: a sync that follows succeeds without
//! what was dropped, and a read shows it all the same. Power may be lost at any time.
//! Cuts of a disk on a file of a system whose calls fail: what was written past the new end is let go, and nothing else.

use super::failures::words_of;
use super::*;
use mt_disk::Disk;

// How often a log is opened and appended to.
const ROUNDS: u32 = 12;

// The mark of the log that a loss of power leaves now, if it leaves one.
fn left(alloc: Global, disk: &CachedDisk<MemFile>) -> Result<Option<u64>, AllocError> {
    match opened(alloc, disk.file().durable())? {
        Told::Front(mark, _) => Ok(Some(mark)),
        _ => Ok(None),
    }
}

// The disk of a file, found at the first call that does not fail.
fn found_at_last(alloc: Global, file: MemFile) -> Option<CachedDisk<MemFile>> {
    let mut file = file;
    for _ in 0..ROUNDS {
        file = match CachedDisk::found(alloc, file) {
            Ok(disk) => return Some(disk),
            Err((_, file)) => file,
        };
    }
    None
}

// Appends three batches to a log whose calls with these numbers fail. After a failure the process goes on with the disk that it
// has, or ends, and another one finds the file. Whether each batch that was acknowledged is durable whenever power is lost, and
// all are in the end.
fn keeps_acknowledged(alloc: Global, fails: &[u64], restarts: bool) -> Result<bool, AllocError> {
    let file = MemFile::new(alloc, EMPTY.to_vec(alloc)?, fails.to_vec(alloc)?)?;
    let Some(mut disk) = found_at_last(alloc, file) else {
        return Ok(false);
    };
    let mut acknowledged = 0;
    for _ in 0..ROUNDS {
        let (now, mark) = go_on(alloc, disk, 3);
        acknowledged = mark.max(acknowledged);
        if left(alloc, &now)?.is_none_or(|kept| kept < acknowledged) {
            return Ok(false);
        }
        disk = now;
        if restarts {
            let Some(found) = found_at_last(alloc, disk.into_file()) else {
                return Ok(false);
            };
            disk = found;
        }
    }
    Ok(acknowledged == 3 && left(alloc, &disk)? == Some(3))
}

// The calls that fail, counted from the first of them.
const FAILS: [[u64; 6]; 5] = [
    [0; 6],
    [0, 1, 1, 1, 1, 1],
    [0, 1, 2, 3, 4, 5],
    [0, 2, 5, 5, 5, 5],
    [0, 7, 8, 8, 8, 8],
];

#[test]
fn a_failed_sync_loses_nothing_acknowledged(rt: HostRuntime) -> Result<(), Fail> {
    let alloc = rt.alloc();
    for later in &FAILS {
        for first in 1..24u64 {
            let fails = later.map(|later| first.saturating_add(later));
            for restarts in [false, true] {
                let is_kept = keeps_acknowledged(alloc, &fails, restarts)?;
                assert!(rt; is_kept, "{fails:?} {restarts}");
            }
        }
    }
    Ok(())
}

// What is durable at first, and so many calls may fail.
const BEFORE: &[u8] = b"abcdef";

const CALLS: u64 = 12;

// What is done, and what is durable in the end, whichever of the calls fail. A call is tried once, or made again until it
// succeeds.
const ROWS: [(&str, &[u8]); 4] = [
    ("try write 6 ghij, cut 6, write 6 XY, sync", b"abcdefXY"),
    ("write 6 ghij, try write 10 kl, cut 8, sync", b"abcdefgh"),
    ("cut 3, try sync, drop_cache", b"abc"),
    ("write 0 A, cut 4, cut 2, drop_cache", b"Ab"),
];

fn number(text: &str) -> usize {
    text.parse().unwrap_or(usize::MAX)
}

// Whether a call succeeds.
fn succeeds(disk: &mut CachedDisk<MemFile>, call: &[&str]) -> bool {
    match call {
        ["write", at, bytes] => disk.write_at(number(at), bytes.as_bytes()).is_ok(),
        ["cut", len] => disk.cut(number(len)).is_ok(),
        ["sync"] => disk.sync().is_ok(),
        ["drop_cache"] => disk.drop_cache().is_ok(),
        _ => false,
    }
}

// Whether an act is done. At most two calls fail.
fn done(alloc: Global, disk: &mut CachedDisk<MemFile>, act: &str) -> Result<bool, AllocError> {
    let (tries, call) = match act.strip_prefix("try ") {
        Some(call) => (1, call),
        None => (3, act),
    };
    let call = words_of(alloc, call)?;
    for _ in 0..tries {
        if succeeds(disk, &call) {
            return Ok(true);
        }
    }
    Ok(tries == 1)
}

// Whether this is durable after the acts, on a file of which two calls fail. The first call finds the file.
fn leaves(alloc: Global, acts: &str, fails: [u64; 2], want: &[u8]) -> Result<bool, AllocError> {
    let file = MemFile::new(alloc, BEFORE.to_vec(alloc)?, fails.to_vec(alloc)?)?;
    let Ok(mut disk) = CachedDisk::found(alloc, file) else {
        return Ok(false);
    };
    for act in acts.split(", ") {
        if !done(alloc, &mut disk, act)? {
            return Ok(false);
        }
    }
    Ok(disk.file().durable() == want)
}

#[test]
fn a_cut_lets_go_of_what_it_cuts_off_alone(rt: HostRuntime) -> Result<(), Fail> {
    let alloc = rt.alloc();
    for &(acts, want) in &ROWS {
        for first in 2..CALLS {
            for second in 2..CALLS {
                let fails = [first, second];
                assert!(rt; leaves(alloc, acts, fails, want)?, "{acts}: {fails:?}");
            }
        }
    }
    Ok(())
}
