//! Which log is told where some are not made or opened; and crashes.

use super::stores::{Logs, bare_slots, create, mark_of, new_logs};
use super::*;
use mt_slots::{FaultCause, Slot, SlotFault};
use mt_store_logs::{StoreRefusal, Watch};

fn told(log: Option<usize>, refusal: Refusal) -> LogRefusal {
    LogRefusal { log, refusal }
}

// Whether a file whose second call fails is told as one of the log that isn't made; and then all logs are made.
fn is_made_later(logs: &mut [StoreLog<MemDisk>], worker: usize, disk: usize) -> bool {
    let is_told = create(logs) == Err(told(Some(worker), Refusal::Device))
        && logs.iter().enumerate().all(|(place, log)| log.mark().is_some()
            == (place < worker || (place == worker && disk > 0)));
    is_told && create(logs).is_ok() && mark_of(logs, 2) == Some(0)
}

#[test]
fn the_log_that_is_not_made_is_told(rt: HostRuntime) -> Result<(), Fail> {
    for worker in 0..3 {
        for disk in 0..3 {
            let failures = Failures(worker, disk, [2, 0]);
            let mut logs = new_logs(rt.alloc(), 3, failures)?;
            assert!(rt; is_made_later(&mut logs, worker, disk), "{failures:?}");
        }
    }
    Ok(())
}

// The logs of three workers, the plain file of one of which is that of another, cut to so many bytes.
fn logs_of_three(alloc: Global, log: usize, len: usize, other: usize) -> Result<Logs, Refusal> {
    let store = Store::new(alloc, 3, NONE)?;
    let mut images = images_of(alloc, &store.logs)?;
    let mut plain = match images.get(other) {
        Some(image) => image.plain.to_vec(alloc)?,
        None => return Err(Refusal::NoStore),
    };
    plain.truncate(len);
    if let Some(image) = images.get_mut(log) {
        image.plain = plain;
    }
    logs_with(alloc, &images)
}

// Of how many of three logs it was told that their files are open, in their order: the numbered ones and the plain one.
#[derive(Clone, Copy, Debug, PartialEq, Eq)]
struct Heard(usize, usize);

impl Watch for Heard {
    fn opened_numbered(&mut self, logs: usize, of: usize) {
        if of == 3 && self.1 == 0 && logs == self.0.saturating_add(1) {
            self.0 = logs;
        }
    }

    fn opened_plain(&mut self, logs: usize, of: usize) {
        if of == 3 && self.0 == 3 && logs == self.1.saturating_add(1) {
            self.1 = logs;
        }
    }
}

// Whether a recovery of these logs is refused so, and was told of so many of them before.
fn is_refused(
    alloc: Global,
    logs: &mut [StoreLog<MemDisk>],
    slots: &mut StoreSlots<MemDisk>,
    refusal: StoreRefusal,
    want: Heard,
) -> bool {
    let tenants = Tenants::new(alloc);
    let mut heard = Heard(0, 0);
    let recovered = recover_store(alloc, logs, slots, &tenants, &mut heard);
    recovered.is_err_and(|e| e == refusal) && heard == want
}

// The same over empty slots, if all numbered files are opened, and so many plain ones.
fn is_refused_after(
    alloc: Global,
    logs: &mut [StoreLog<MemDisk>],
    refusal: LogRefusal,
    plain: usize,
) -> bool {
    let (mut slots, refusal) = (bare_slots(alloc), StoreRefusal::Logs(refusal));
    is_refused(alloc, logs, &mut slots, refusal, Heard(3, plain))
}

// Whether of three logs this one is told, which ends at its first batch: each time they are opened, and by a recovery.
fn is_told_bad(alloc: Global, logs: &mut [StoreLog<MemDisk>], number: u8) -> bool {
    let bad = Refusal::BadLog { number, offset: 8 };
    let log = usize::from(number);
    for _ in 0..2 {
        let opened = open_logs(alloc, logs, &[None, None], &mut NoWatch);
        let is_told = opened.is_err_and(|e| e == told(Some(log), bad));
        let is_left = mark_of(logs, log).is_none() && (log == 0 || mark_of(logs, 0) == Some(0));
        if !is_told || !is_left {
            return false;
        }
    }
    is_refused_after(alloc, logs, told(Some(log), bad), log)
}

#[test]
fn the_log_that_is_not_opened_is_told(rt: HostRuntime) -> Result<(), Fail> {
    let alloc = rt.alloc();
    for number in 0..3u8 {
        let log = usize::from(number);
        let mut logs = logs_of_three(alloc, log, 8, log)?;
        assert!(rt; is_told_bad(alloc, &mut logs, number), "{log}");
        // A log twice: no single one is the cause.
        let mut logs = logs_of_three(alloc, log, 9, (log + 1) % 3)?;
        let is_told = is_refused_after(alloc, &mut logs, told(None, Refusal::LogCount), 3);
        let are_open = logs.iter().all(|log| log.mark() == Some(0));
        assert!(rt; is_told && are_open, "{log}");
    }
    Ok(())
}

// Slots of which this one's disk makes no call.
fn slots_without(alloc: Global, slot: Slot) -> StoreSlots<MemDisk> {
    let without = MemDisk::new(alloc, Vec::new(alloc), Some(1));
    let other = MemDisk::new(alloc, Vec::new(alloc), None);
    match slot {
        Slot::First => StoreSlots::found(without, other),
        Slot::Second => StoreSlots::found(other, without),
    }
}

#[test]
fn no_log_is_opened_before_both_slots_are_read(rt: HostRuntime) -> Result<(), Fail> {
    let alloc = rt.alloc();
    for slot in [Slot::First, Slot::Second] {
        let mut logs = logs_of_three(alloc, 0, 9, 0)?;
        let mut slots = slots_without(alloc, slot);
        let cause = FaultCause::Device;
        let refusal = StoreRefusal::Slot(SlotFault { slot, cause });
        let is_told = is_refused(alloc, &mut logs, &mut slots, refusal, Heard(0, 0));
        let are_closed = logs.iter().all(|log| log.mark().is_none());
        assert!(rt; is_told && are_closed, "{slot:?}");
    }
    Ok(())
}

// Each of two workers places a change and is drained. The second log's fifth call fails, an append's first sync: so a
// crash may leave its batch staged or not.
fn drain_both(store: &mut Store) -> bool {
    let is_placed = store.history.place(0, 1).is_ok() && store.history.place(1, 1).is_ok();
    is_placed && store.flush(0) == Ok(2) && store.flush(1) == Err(Refusal::Device)
}

// Whether a crash can't leave these images, after which the logs are as they were.
fn stays(alloc: Global, store: &mut Store, images: &[FileImages]) -> bool {
    let is_left = crash_logs(alloc, &mut store.logs, images);
    is_left.is_ok_and(|is_left| !is_left) && store.mark(0) == Some(2) && store.keeps(1)
}

// Whether these are the same.
fn are_same(some: &FileImages, others: &FileImages) -> bool {
    some.plain == others.plain && some.even == others.even && some.odd == others.odd
}

// Whether a crash leaves these images, in closed logs that keep no batch.
fn crashes(alloc: Global, store: &mut Store, images: &[FileImages]) -> Result<bool, Refusal> {
    let is_left = crash_logs(alloc, &mut store.logs, images)?;
    let left = images_of(alloc, &store.logs)?;
    let mut pairs = left.iter().zip(images);
    let are_left = pairs.all(|(left, image)| are_same(left, image));
    let mut logs = store.logs.iter();
    let are_closed = logs.all(|log| log.mark().is_none() && !log.keeps());
    Ok(is_left && are_left && are_closed)
}

#[test]
fn a_crash_takes_every_disk_or_none(rt: HostRuntime) -> Result<(), Fail> {
    let alloc = rt.alloc();
    let mut store = Store::new(alloc, 2, Failures(1, 0, [5, 0]))?;
    let mut empty = images_of(alloc, &store.logs)?;
    assert!(rt; drain_both(&mut store));
    let mut first = images_of(alloc, &store.logs)?;
    first.truncate(1);
    let mut without_odd = images_of(alloc, &store.logs)?;
    if let Some(last) = without_odd.last_mut() {
        last.odd.clear();
    }
    // The first log has its batch for certain, and a spare file its byte.
    for images in [empty.as_slice(), &first, &without_odd, &[]] {
        assert!(rt; stays(alloc, &mut store, images));
    }
    first.push(empty.pop().expect(&rt, "two workers"))?;
    assert!(rt; crashes(alloc, &mut store, &first)?);
    let recovered = store.recover()?;
    assert!(rt; recovered.cutoff == 0 && recovered.resume == 2 && recovered.pairs.is_empty());
    Ok(())
}
