//! Appends that are stopped at each call of their disk, and each of some torn images that a crash may then leave, opened again;
//! each call failing once, and the appends going on. A log on which an append failed, opened again by what it knows of its ends.

use super::logs::put_at;
use super::*;
use mt_disk::Disk;
use mt_log::FailedLog;

// What the log holds once three batches were appended.
fn whole_image(alloc: Global) -> Result<Vec<u8>, AllocError> {
    let (disk, _) = go_on(alloc, disk_with(alloc, &EMPTY, 0, 99)?, 3);
    disk.image().to_vec(alloc)
}

// What is told of the log with so many batches.
fn edge(mark: u64) -> Told {
    Told::Front(mark, mark as usize)
}

// An image up to a gate, with this byte in its place, and that behind it.
fn torn(alloc: Global, front: &[u8], gate: u8, behind: &[u8]) -> Result<Vec<u8>, AllocError> {
    let mut image = front.to_vec(alloc)?;
    image.push(gate)?;
    image.extend_from_slice(behind)?;
    Ok(image)
}

// How many torn images a disk may leave: behind a gate stands nothing, half of what was written, all of
// it, or other bytes. 0 where one isn't read as the batches that were acknowledged, or one more.
fn torn_left(alloc: Global, disk: &MemDisk, whole: &[u8], mark: u64) -> Result<u64, AllocError> {
    let mut left: u64 = 0;
    for gate in [8, 54, 100, 146] {
        if gate >= whole.len() {
            return Ok(0);
        }
        let (front, rest) = whole.split_at(gate);
        let (_, behind) = rest.split_at(1);
        let (half, _) = behind.split_at(behind.len() / 2);
        for byte in [0, 1, 7] {
            for tail in [b"".as_slice(), half, behind, b"\x01\x01\xff and more"] {
                let image = torn(alloc, front, byte, tail)?;
                if disk.may_leave(&image) {
                    let told = opened(alloc, &image)?;
                    if told != edge(mark) && told != edge(mark.saturating_add(1)) {
                        return Ok(0);
                    }
                    left = left.saturating_add(1);
                }
            }
        }
    }
    Ok(left)
}

// The same of the disk on which a crash stops this call.
fn left_at(alloc: Global, whole: &[u8], stop: u64) -> Result<u64, AllocError> {
    let (disk, mark) = go_on(alloc, disk_with(alloc, &EMPTY, 0, stop)?, 3);
    torn_left(alloc, &disk, whole, mark)
}

// Whether all is there after a second opening, where this call fails.
fn goes_on(alloc: Global, whole: &[u8], fail: u64) -> Result<bool, AllocError> {
    let (disk, _) = go_on(alloc, disk_with(alloc, &EMPTY, fail, 99)?, 3);
    let (disk, mark) = go_on(alloc, disk, 3);
    Ok(mark == 3 && disk.image() == whole)
}

// The opening of a log without batches makes five calls, an append four.
#[test]
fn a_crash_or_a_failure_at_any_call_leaves_whole_batches(rt: HostRuntime) -> Result<(), Fail> {
    let alloc = rt.alloc();
    let whole = whole_image(alloc)?;
    assert!(rt; opened(alloc, &whole)? == edge(3));
    for call in 0..18 {
        assert!(rt; left_at(alloc, &whole, call + 1)? > 0, "{call} going well");
        assert!(rt; goes_on(alloc, &whole, call)?, "{call} failing");
    }
    Ok(())
}

// A disk where an append failed when it opened its gate, and what stands behind that was cut off in this way.
fn cut_off(alloc: Global, way: &str) -> Result<MemDisk, AllocError> {
    let (mut disk, _) = go_on(alloc, disk_with(alloc, &EMPTY, 8, 99)?, 1);
    if way == "opening" {
        return Ok(opened_on(alloc, disk).0);
    }
    if way == "sync and cut" {
        let _ = disk.sync();
    }
    let _ = disk.cut(9);
    Ok(disk)
}

// The gate that is read is closed. Without a sync, a crash may still leave it open, with nothing behind it.
#[test]
fn an_opening_that_cuts_before_it_syncs_would_lose_the_log(rt: HostRuntime) -> Result<(), Fail> {
    let alloc = rt.alloc();
    let open_gate = b"MTLOG\x02\x00\x01\x01";
    assert!(rt; opened(alloc, open_gate)? == Told::Bad(0, 8));
    for &(way, is_left) in &[("cut", true), ("sync and cut", false), ("opening", false)] {
        let disk = cut_off(alloc, way)?;
        assert!(rt; disk.image() == EMPTY.as_slice(), "{way}");
        assert!(rt; disk.may_leave(&EMPTY), "{way}");
        assert!(rt; disk.may_leave(open_gate) == is_left, "{way}");
    }
    Ok(())
}

// Where an opening makes six calls, and each of two appends four.
const FIRST_CALL: u64 = 7;

const LAST_CALL: u64 = 14;

// Opens a log again, also if its disk fails once in that.
fn reopened(log: FailedLog<MemDisk>) -> Option<LogFile<MemDisk>> {
    match log.reopen() {
        Ok(log) => Some(log),
        Err(log) => log.reopen().ok(),
    }
}

// Appends the batch of the next step. After a failure the log is opened again, whether it has the batch or not.
fn append_next(alloc: Global, log: LogFile<MemDisk>) -> Option<LogFile<MemDisk>> {
    let from = log.mark();
    let to = from.checked_add(1)?;
    let batch = batch_of(alloc, &[put_at(to)], 0, from, to).ok()?;
    match log.append(alloc, batch) {
        Ok(log) => Some(log),
        Err(AppendFault::Device(log, _)) => reopened(log),
        Err(_) => None,
    }
}

// What a log with one batch holds once it goes up to step 3, though these calls of its disk fail.
fn image_of(alloc: Global, one: &[u8], fails: &[u64]) -> Result<Vec<u8>, AllocError> {
    let disk = MemDisk::with_image(alloc, one.to_vec(alloc)?, fails.to_vec(alloc)?, None)?;
    let Ok((mut log, _front)) = LogFile::open(alloc, disk) else {
        return Err(AllocError);
    };
    for _ in 0..10 {
        if log.mark() == 3 {
            return log.disk().image().to_vec(alloc);
        }
        log = append_next(alloc, log).ok_or(AllocError)?;
    }
    Err(AllocError)
}

#[test]
fn a_log_goes_on_by_its_ends_after_two_failures(rt: HostRuntime) -> Result<(), Fail> {
    let alloc = rt.alloc();
    let (one, _) = go_on(alloc, disk_with(alloc, &EMPTY, 0, 99)?, 1);
    let (whole, _) = go_on(alloc, disk_with(alloc, &EMPTY, 0, 99)?, 3);
    for call in FIRST_CALL..LAST_CALL + 1 {
        for later in 0..8 {
            let image = image_of(alloc, one.image(), &[call, call + later])?;
            let is_whole = image.as_slice() == whole.image();
            assert!(rt; is_whole, "{call} and {later} calls later");
        }
    }
    Ok(())
}
