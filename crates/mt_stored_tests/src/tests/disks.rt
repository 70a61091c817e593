//! A disk in memory that keeps what a read gives, and what the last sync made durable. Some of its calls fail in a row.

ghost use Rattle.std.specs.Prelude.{◌≡◌, [], false, None};
ghost use Rattle.mt_disk.specs.Disk.{CountsFailure, found_with};

use super::*;
use mt_disk::disk::count_failure;
use mt_disk::{DeviceFailed, Disk};

/// Which calls of a disk fail, counted from 1: those from the first number on, up to the second and without it.
pub type Fails = (u64, u64);

/// None of them.
pub const NEVER: Fails = (0, 0);

/// What the system tells of a full device.
pub const FULL: Option<SystemError> = Some(SystemError::Number(28));

/// What it tells of want of memory.
pub const WANT: Option<SystemError> = Some(SystemError::OutOfMemory);

/// None of a worker's three files.
pub const SOUND: [Fails; 3] = [NEVER; 3];

/// These of one of eight disks: of the plain, the even and the odd file of either of two workers, in this order, or of one of
/// both slots.
pub fn fails_of(disk: usize, fails: Fails) -> [Fails; 8] {
    let mut all = [NEVER; 8];
    if let Some(one) = all.get_mut(disk) {
        *one = fails;
    }
    all
}

/// A disk in memory, some of whose calls fail, and its system may tell why. It may have a device that gives back another last
/// byte than it was given, or another byte from its first cut on.
#[derive(Drop)]
pub struct FlakyDisk {
    image: Vec<u8>,
    durable: Vec<u8>,
    calls: u64,
    fails: Fails,
    spoils: bool,
    changes: Option<usize>,
    failures: u64,
    bytes_read: u64,
    refuses: bool,
    number: Option<i32>,
}

impl FlakyDisk {
    /// A disk with this image, of which nothing was made durable.
    pub fn new(image: Vec<u8>, fails: Fails) -> Self {
        let durable = Vec::new(*image.allocator());
        FlakyDisk {
            image,
            durable,
            calls: 0,
            fails,
            spoils: false,
            changes: None,
            failures: 0,
            bytes_read: 0,
            refuses: false,
            number: None,
        }
    }

    /// The same, whose device gives back another last byte.
    pub fn spoiling(self) -> Self {
        FlakyDisk {
            spoils: true,
            ..self
        }
    }

    /// The same, whose device gives back 0 at a place from its first cut on, with which the opening of a log ends.
    pub fn changing(self, place: usize) -> Self {
        FlakyDisk {
            changes: Some(place),
            ..self
        }
    }

    /// The same, of whose failures the system tells this, if anything.
    pub fn telling(self, error: Option<SystemError>) -> Self {
        let (refuses, number) = match error {
            Some(SystemError::OutOfMemory) => (true, None),
            Some(SystemError::Number(number)) => (false, Some(number)),
            None => (false, None),
        };
        FlakyDisk {
            refuses,
            number,
            ..self
        }
    }

    /// What a read gives.
    pub fn image(&self) -> &[u8] {
        &self.image
    }

    /// What a loss of power leaves.
    pub fn durable(&self) -> &[u8] {
        &self.durable
    }

    /// How many bytes its reads have asked for.
    pub fn bytes_read(&self) -> u64 {
        self.bytes_read
    }

    // Counts a call; an error if it is one that fails.
    fn call(&mut self) -> Result<(), DeviceFailed>
        ensures { self.new.failures ≡ self.old.failures }
    {
        self.calls = self.calls.saturating_add(1);
        let (from, to) = self.fails;
        if from <= self.calls && self.calls < to {
            Err(DeviceFailed)
        } else {
            Ok(())
        }
    }

    // Counts an error.
    fn counted<T>(&mut self, answer: Result<T, DeviceFailed>) -> Result<T, DeviceFailed>
        ensures { CountsFailure result self.old.failures self.new.failures }
    {
        if answer.is_err() {
            count_failure(&mut self.failures);
        }
        answer
    }
}

// Fills `out` from a place of an image on.
fn copy_out(image: &[u8], at: usize, out: &mut [u8]) -> Result<(), DeviceFailed> {
    if at > image.len() || out.len() > image.len() - at {
        return Err(DeviceFailed);
    }
    out.copy_from_slice(&image[at..at + out.len()]);
    Ok(())
}

// Writes over an image from a place on, and past its end.
fn overwrite(image: &mut Vec<u8>, at: usize, bytes: &[u8]) -> Result<(), DeviceFailed> {
    if at > image.len() {
        return Err(DeviceFailed);
    }
    let kept = bytes.len().min(image.len() - at);
    image[at..at + kept].copy_from_slice(&bytes[..kept]);
    match image.extend_from_slice(&bytes[kept..]) {
        Ok(()) => Ok(()),
        Err(_) => Err(DeviceFailed),
    }
}

// Makes one image as another.
fn copy_over(to: &mut Vec<u8>, image: &[u8]) -> Result<(), DeviceFailed> {
    to.clear();
    match to.extend_from_slice(image) {
        Ok(()) => Ok(()),
        Err(_) => Err(DeviceFailed),
    }
}

impl Disk for FlakyDisk {
    ghost is_honest = { λ _. false };

    ghost state = { λ _. found_with [] };

    ghost failures = { λ f. f.failures };

    ghost plan = { λ _. None };

    ghost was_refused = { λ f. f.refuses };

    fn len(&mut self) -> Result<usize, DeviceFailed> {
        let told = match self.call() {
            Ok(()) => Ok(self.image.len()),
            Err(failed) => Err(failed),
        };
        self.counted(told)
    }

    fn read(&mut self, at: usize, out: &mut [u8]) -> Result<(), DeviceFailed> {
        self.bytes_read = self.bytes_read.saturating_add(out.len() as u64);
        let told = match self.call() {
            Ok(()) => copy_out(&self.image, at, out),
            Err(failed) => Err(failed),
        };
        self.counted(told)
    }

    fn write_at(&mut self, at: usize, bytes: &[u8]) -> Result<(), DeviceFailed> {
        let told = match self.call() {
            Ok(()) => overwrite(&mut self.image, at, bytes),
            Err(failed) => Err(failed),
        };
        self.counted(told)
    }

    fn cut(&mut self, len: usize) -> Result<(), DeviceFailed> {
        let told = self.call();
        if told.is_ok() {
            self.image.truncate(len);
            if let Some(place) = self.changes {
                if let Some(byte) = self.image.get_mut(place) {
                    *byte = 0;
                }
            }
        }
        self.counted(told)
    }

    fn sync(&mut self) -> Result<(), DeviceFailed> {
        let told = match self.call() {
            Ok(()) => copy_over(&mut self.durable, &self.image),
            Err(failed) => Err(failed),
        };
        self.counted(told)
    }

    fn drop_cache(&mut self) -> Result<(), DeviceFailed> {
        let told = self.sync();
        if self.spoils {
            if let Some(last) = self.image.last_mut() {
                *last ^= 1;
            }
        }
        told
    }

    fn last_error(&self) -> Option<SystemError> {
        if self.refuses {
            return Some(SystemError::OutOfMemory);
        }
        match self.number {
            Some(number) => Some(SystemError::Number(number)),
            None => None,
        }
    }
}
