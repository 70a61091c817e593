//! An honest disk in memory, which fails where it is told to.
//!
//! Its calls are numbered from 1. Those whose numbers are in `fails` fail, and all from the one numbered
//! `stop` on: so any failures can be staged, and a crash at any call. A growth that is refused to it counts as its failure, and
//! so do a read and a write that begin past the end. A write or a cut that is told to fail changes
//! nothing that a read gives, but its range counts as written.
//!
//! It keeps each moment that it had, since the clock is real data: for tests, on small files.

ghost use Rattle.std.specs.Prelude.{ℕ, map, ◌≡◌, ◌+◌, ◌<◌, ◌≤◌, ◌↔◌, [], ◌∷◌, ◌++◌, true, false, length, take, drop, IsTrue, IfOk, OnOk, OnErr, is_ok, None, Some};
ghost use Rattle.std.specs.List.{slice_get};
ghost use Rattle.mt_disk.specs.Disk.{MayLeave, Reads, IsToldToFail, found_with, is_dirty, overwritten, CountsFailure, GoesUp};
ghost use Rattle.mt_disk.specs.Mem.{moment_of, moments_and, still_to_come};

use crate::disk::{DeviceFailed, Disk, count_failure};
use crate::system_error::SystemError;
use std::alloc::{AllocError, Global};

/// A disk in memory, which keeps the rules of a disk.
#[derive(Drop)]
pub struct MemDisk {
    alloc: Global,
    image: Vec<u8>,
    durable: Vec<u8>,
    dirty: Vec<(usize, usize)>,
    past: Vec<(Vec<u8>, Vec<(usize, usize)>)>,
    calls: u64,
    fails: Vec<u64>,
    stop: Option<u64>,
    failures: u64,
}

impl MemDisk {
    ghost use Rattle.std.specs.Prelude.{[]};
    ghost use Rattle.mt_disk.specs.Mem.{mem_state, plan_of, plan_found};

    /// An empty disk.
    pub fn new(alloc: Global, fails: Vec<u64>, stop: Option<u64>) -> Self
        ensures state { mem_state result ≡ found_with [] }
        ensures plan { plan_of result ≡ record { calls = 0; fails = fails.items; stop = stop } }
        ensures failures { result.failures ≡ 0 }
    {
        MemDisk {
            alloc,
            image: Vec::new(alloc),
            durable: Vec::new(alloc),
            dirty: Vec::new(alloc),
            past: Vec::new(alloc),
            calls: 0,
            fails,
            stop,
            failures: 0,
        }
    }

    /// A disk with this image, all of it durable, as a crash left it.
    pub fn with_image(
        alloc: Global,
        image: Vec<u8>,
        fails: Vec<u64>,
        stop: Option<u64>,
    ) -> Result<Self, AllocError>
        ensures state { IfOk result (λ m. mem_state m ≡ found_with image.items) }
        ensures plan { IfOk result (λ m. plan_of m ≡ record { calls = 0; fails = fails.items; stop = stop }) }
        ensures failures { IfOk result (λ m. m.failures ≡ 0) }
    {
        let durable = image.to_vec(alloc)?;
        Ok(MemDisk {
            alloc,
            image,
            durable,
            dirty: Vec::new(alloc),
            past: Vec::new(alloc),
            calls: 0,
            fails,
            stop,
            failures: 0,
        })
    }

    /// Crashes: it is found again with this image, all of it durable, and with no moment before. Its
    /// calls count on, and a `stop` that has come is over. An error leaves it as it was.
    pub fn crash(&mut self, image: Vec<u8>) -> Result<(), AllocError>
        requires { MayLeave (mem_state self.old).now image.items }
        ensures state { OnOk result (mem_state self.new ≡ found_with image.items) }
        ensures plan { OnOk result (plan_of self.new ≡ plan_found (plan_of self.old)) }
        ensures failures { self.new.failures ≡ self.old.failures }
        ensures err { OnErr result (self.new ≡ self.old) }
    {
        self.durable = image.to_vec(self.alloc)?;
        self.image = image;
        self.dirty = Vec::new(self.alloc);
        self.past = Vec::new(self.alloc);
        self.stop = still_to_come(self.stop, self.calls);
        Ok(())
    }

    /// Whether a crash now may leave this image.
    pub fn may_leave(&self, image: &[u8]) -> bool
        ensures { IsTrue result ↔ MayLeave (mem_state self.now).now image.now }
    {
        if self.dirty.is_empty() {
            return image == self.durable.as_slice();
        }
        keeps(&self.durable, &self.dirty, image)
    }

    /// What a read gives. It is no call of the disk, and takes no number.
    pub fn image(&self) -> &[u8]
        ensures { result.now ≡ (mem_state self.now).image }
    {
        &self.image
    }

    /// How many calls were made.
    pub fn calls(&self) -> u64
        ensures { result ≡ (plan_of self.now).calls }
    {
        self.calls
    }

    // Counts an error.
    fn counted<T>(&mut self, answer: Result<T, AllocError>) -> Result<T, DeviceFailed>
        ensures count { CountsFailure result self.old.failures self.new.failures }
        ensures state { mem_state self.new ≡ mem_state self.old }
        ensures plan { plan_of self.new ≡ plan_of self.old }
        ensures variant { is_ok result ≡ is_ok answer }
        ensures value { IfOk result (λ x. answer ≡ Ok x) }
    {
        match answer {
            Ok(value) => Ok(value),
            Err(_) => {
                count_failure(&mut self.failures);
                Err(DeviceFailed)
            }
        }
    }
}

// Goes on, unless the next call is told to fail.
fn next_call(calls: &mut u64, fails: &[u64], stop: Option<u64>) -> Result<(), AllocError>
    ensures number { GoesUp calls.old calls.new }
    ensures goes_on { OnOk result (¬ IsToldToFail fails.now stop calls.new) }
    ensures fails { OnErr result (IsToldToFail fails.now stop calls.new) }
{
    *calls = calls.saturating_add(1);
    if fails.contains(calls) {
        return Err(AllocError);
    }
    match stop {
        Some(first) if first <= *calls => Err(AllocError),
        _ => Ok(()),
    }
}

// The call at which a disk is to stop, unless it has stopped there already.
fn still_to_come(stop: Option<u64>, calls: u64) -> Option<u64>
    ensures { result ≡ still_to_come stop calls }
{
    match stop {
        Some(first) if first <= calls => None,
        _ => stop,
    }
}

// Whether a byte lies in one of these ranges.
fn lies_within(ranges: &[(usize, usize)], place: usize) -> bool
    ensures { result ≡ is_dirty ranges.now place }
{
    ranges
        .iter()
        .any(|range| range.0 <= place && place < range.1)
}

// Whether an image keeps each durable byte outside the dirty ranges.
fn keeps(durable: &[u8], dirty: &[(usize, usize)], image: &[u8]) -> bool
    ensures { IsTrue result ↔ ((place : ℕ) → place < length durable.now → is_dirty dirty.now place ≡ false
        → slice_get image.now place ≡ slice_get durable.now place) }
{
    for place in 0..durable.len() {
        if !lies_within(dirty, place) && image.get(place) != durable.get(place) {
            return false;
        }
    }
    true
}

// The next moment; the one that was joins those before it.
fn advance(
    alloc: Global,
    durable: &mut Vec<u8>,
    dirty: &mut Vec<(usize, usize)>,
    past: &mut Vec<(Vec<u8>, Vec<(usize, usize)>)>,
    next_durable: Vec<u8>,
    next_dirty: Vec<(usize, usize)>,
) -> Result<(), AllocError>
    ensures durable { OnOk result (durable.new.items ≡ next_durable.items) }
    ensures dirty { OnOk result (dirty.new.items ≡ next_dirty.items) }
    ensures past { OnOk result (map moment_of past.new.items
        ≡ moments_and past.old.items durable.old.items dirty.old.items) }
    ensures err { OnErr result ((durable.new.items ≡ durable.old.items)
        × (dirty.new.items ≡ dirty.old.items) × (past.new.items ≡ past.old.items)) }
{
    let was_durable = durable.to_vec(alloc)?;
    let was_dirty = dirty.to_vec(alloc)?;
    past.push((was_durable, was_dirty))?;
    *durable = next_durable;
    *dirty = next_dirty;
    Ok(())
}

// Notes a range as written.
pub(crate) fn note(
    alloc: Global,
    durable: &mut Vec<u8>,
    dirty: &mut Vec<(usize, usize)>,
    past: &mut Vec<(Vec<u8>, Vec<(usize, usize)>)>,
    range: (usize, usize),
) -> Result<(), AllocError>
    ensures durable { durable.new.items ≡ durable.old.items }
    ensures dirty { OnOk result (dirty.new.items ≡ dirty.old.items ++ range ∷ []) }
    ensures past { OnOk result (map moment_of past.new.items
        ≡ moments_and past.old.items durable.old.items dirty.old.items) }
    ensures err { OnErr result ((dirty.new.items ≡ dirty.old.items) × (past.new.items ≡ past.old.items)) }
{
    let same = durable.to_vec(alloc)?;
    let mut more = dirty.to_vec(alloc)?;
    more.push(range)?;
    advance(alloc, durable, dirty, past, same, more)
}

// Writes over what is there, and past the end, where that begins within the image.
pub(crate) fn overwrite(
    alloc: Global,
    image: &mut Vec<u8>,
    at: usize,
    bytes: &[u8],
) -> Result<(), AllocError>
    ensures ok { OnOk result ((at ≤ length image.old.items)
        × (image.new.items ≡ overwritten at bytes.now image.old.items)) }
    ensures err { OnErr result (image.new.items ≡ image.old.items) }
{
    if at > image.len() {
        return Err(AllocError);
    }
    let mut next = image[..at].to_vec(alloc)?;
    next.extend_from_slice(bytes)?;
    if bytes.len() < image.len() - at {
        next.extend_from_slice(&image[at + bytes.len()..])?;
    }
    *image = next;
    Ok(())
}

impl Disk for MemDisk {
    ghost use Rattle.mt_disk.specs.Mem.{mem_state, plan_of};

    ghost is_honest = { λ _. true };

    ghost state = { mem_state };

    ghost failures = { λ m. m.failures };

    ghost plan = { λ m. Some (plan_of m) };

    ghost was_refused = { λ _. false };

    fn len(&mut self) -> Result<usize, DeviceFailed> {
        let allowed = next_call(&mut self.calls, &self.fails, self.stop);
        self.counted(allowed)?;
        Ok(self.image.len())
    }

    fn read(&mut self, at: usize, out: &mut [u8]) -> Result<(), DeviceFailed> {
        let allowed = next_call(&mut self.calls, &self.fails, self.stop);
        self.counted(allowed)?;
        let copied = copy_out(&self.image, at, out);
        self.counted(copied)
    }

    fn write_at(&mut self, at: usize, bytes: &[u8]) -> Result<(), DeviceFailed> {
        let allowed = next_call(&mut self.calls, &self.fails, self.stop);
        let noted = match at.checked_add(bytes.len()) {
            Some(end) => note(
                self.alloc,
                &mut self.durable,
                &mut self.dirty,
                &mut self.past,
                (at, end),
            ),
            None => Err(AllocError),
        };
        self.counted(noted.and(allowed))?;
        let written = overwrite(self.alloc, &mut self.image, at, bytes);
        self.counted(written)?;
        Ok(())
    }

    fn cut(&mut self, len: usize) -> Result<(), DeviceFailed> {
        let allowed = next_call(&mut self.calls, &self.fails, self.stop);
        let range = (len, self.durable.len());
        let noted = note(
            self.alloc,
            &mut self.durable,
            &mut self.dirty,
            &mut self.past,
            range,
        );
        self.counted(noted.and(allowed))?;
        self.image.truncate(len);
        Ok(())
    }

    fn sync(&mut self) -> Result<(), DeviceFailed> {
        let allowed = next_call(&mut self.calls, &self.fails, self.stop);
        self.counted(allowed)?;
        let synced = make_durable(
            self.alloc,
            &self.image,
            &mut self.durable,
            &mut self.dirty,
            &mut self.past,
        );
        self.counted(synced)
    }

    fn drop_cache(&mut self) -> Result<(), DeviceFailed> {
        self.sync()
    }

    fn last_error(&self) -> Option<SystemError> {
        None
    }
}

// Fills `out` from the image, where it has that many bytes from there on.
pub(crate) fn copy_out(image: &[u8], at: usize, out: &mut [u8]) -> Result<(), AllocError>
    ensures told { OnOk result (Reads at image.now out.old out.new) }
    ensures past_the_end { OnErr result (length image.now < at + length out.old) }
{
    if at > image.len() || out.len() > image.len() - at {
        return Err(AllocError);
    }
    out.copy_from_slice(&image[at..at + out.len()]);
    Ok(())
}

// Makes all that a read gives durable.
pub(crate) fn make_durable(
    alloc: Global,
    image: &[u8],
    durable: &mut Vec<u8>,
    dirty: &mut Vec<(usize, usize)>,
    past: &mut Vec<(Vec<u8>, Vec<(usize, usize)>)>,
) -> Result<(), AllocError>
    ensures durable { OnOk result (durable.new.items ≡ image.now) }
    ensures dirty { OnOk result (dirty.new.items ≡ []) }
    ensures past { OnOk result (map moment_of past.new.items
        ≡ moments_and past.old.items durable.old.items dirty.old.items) }
    ensures err { OnErr result ((durable.new.items ≡ durable.old.items)
        × (dirty.new.items ≡ dirty.old.items) × (past.new.items ≡ past.old.items)) }
{
    let next = image.to_vec(alloc)?;
    advance(alloc, durable, dirty, past, next, Vec::new(alloc))
}
