//! Stores of up to three workers over disks in memory, three for each worker.

use super::changes::History;
use super::slots::Log;
use super::*;
use mt_log_files::WorkerFiles;
use mt_recover::Recovered;
use mt_store_logs::{closed_logs, create_logs, flush, flush_and_begin};

/// The logs of a store, its slots, and what its workers placed.
#[derive(Drop)]
pub struct Store {
    pub alloc: Global,
    pub logs: Logs,
    pub slots: StoreSlots<MemDisk>,
    pub history: History,
}

/// Slots on disks without a byte.
pub fn bare_slots(alloc: Global) -> StoreSlots<MemDisk> {
    let disk = || MemDisk::new(alloc, Vec::new(alloc), None);
    StoreSlots::found(disk(), disk())
}

/// Of whose disk which two calls fail, 0 where none does: the worker, and the disk of its plain file, of the even one or of the
/// odd one, from 0 on.
#[derive(Clone, Copy, Debug)]
pub struct Failures(pub usize, pub usize, pub [u64; 2]);

/// None does.
pub const NONE: Failures = Failures(0, 0, [0; 2]);

/// The logs of a store.
pub type Logs = Vec<StoreLog<MemDisk>>;

type Files = WorkerFiles<MemDisk>;

// A disk without a byte, some calls of which fail.
fn disk_of(
    alloc: Global,
    place: (usize, usize),
    failures: Failures,
) -> Result<MemDisk, AllocError> {
    let Failures(worker, disk, calls) = failures;
    let calls = if place == (worker, disk) {
        calls
    } else {
        [0; 2]
    };
    Ok(MemDisk::new(alloc, calls.to_vec(alloc)?, None))
}

// A worker's files on empty disks.
fn new_files(alloc: Global, worker: usize, failures: Failures) -> Result<Files, AllocError> {
    Ok(WorkerFiles::closed(
        disk_of(alloc, (worker, 0), failures)?,
        disk_of(alloc, (worker, 1), failures)?,
        disk_of(alloc, (worker, 2), failures)?,
    ))
}

/// Closed logs on empty disks, some calls of one of which fail.
pub fn new_logs(alloc: Global, workers: usize, failures: Failures) -> Result<Logs, Refusal> {
    let mut files = Vec::new(alloc);
    for worker in 0..workers {
        files.push(new_files(alloc, worker, failures)?)?;
    }
    logs_on(alloc, files)
}

// Closed logs on these files, where there are up to 64 of them.
fn logs_on(alloc: Global, files: Vec<Files>) -> Result<Logs, Refusal> {
    if files.len() > 64 {
        return Err(Refusal::NoStore);
    }
    Ok(closed_logs(alloc, files)?)
}

// A disk with this image.
fn disk_with(alloc: Global, image: &[u8]) -> Result<MemDisk, AllocError> {
    MemDisk::with_image(alloc, image.to_vec(alloc)?, Vec::new(alloc), None)
}

/// Closed logs whose files have these images.
pub fn logs_with(alloc: Global, images: &[FileImages]) -> Result<Logs, Refusal> {
    let mut files = Vec::new(alloc);
    for image in images {
        files.push(WorkerFiles::closed(
            disk_with(alloc, &image.plain)?,
            disk_with(alloc, &image.even)?,
            disk_with(alloc, &image.odd)?,
        ))?;
    }
    logs_on(alloc, files)
}

/// What the files of a worker hold who has this log alone, in its plain file.
pub fn image_of_log(alloc: Global, log: &Log) -> Result<FileImages, AllocError> {
    Ok(FileImages {
        plain: log.disk().image().to_vec(alloc)?,
        even: Vec::new(alloc),
        odd: Vec::new(alloc),
    })
}

/// Makes logs, where there are 1 to 64 of them.
pub fn create(logs: &mut [StoreLog<MemDisk>]) -> Result<(), LogRefusal> {
    if logs.is_empty() || logs.len() > 64 {
        let (log, refusal) = (None, Refusal::NoStore);
        return Err(LogRefusal { log, refusal });
    }
    create_logs(logs)
}

// What a read of a file's disk gives.
fn image_of(alloc: Global, file: &LogSlot<MemDisk>) -> Result<Vec<u8>, Refusal> {
    match file {
        LogSlot::Open(open) => Ok(open.disk().image().to_vec(alloc)?),
        LogSlot::Failed(log) => Ok(log.disk().image().to_vec(alloc)?),
        LogSlot::Closed(disk) => Ok(disk.image().to_vec(alloc)?),
        LogSlot::Away => Err(Refusal::NoStore),
    }
}

// What a read of a worker's disks gives.
fn images_in(alloc: Global, files: &Files) -> Result<FileImages, Refusal> {
    Ok(FileImages {
        plain: image_of(alloc, &files.plain)?,
        even: image_of(alloc, &files.even)?,
        odd: image_of(alloc, &files.odd)?,
    })
}

/// What a read of each log's disks gives.
pub fn images_of(alloc: Global, logs: &[StoreLog<MemDisk>]) -> Result<Vec<FileImages>, Refusal> {
    let mut images = Vec::new(alloc);
    for log in logs {
        images.push(images_in(alloc, log.log().files())?)?;
    }
    Ok(images)
}

impl Store {
    /// A store without changes.
    pub fn new(alloc: Global, workers: usize, failures: Failures) -> Result<Store, Refusal> {
        let mut logs = new_logs(alloc, workers, failures)?;
        create(&mut logs).map_err(|e| e.refusal)?;
        Ok(Store {
            alloc,
            logs,
            slots: bare_slots(alloc),
            history: History::new(alloc, 0),
        })
    }

    /// Drains a worker into its log, up to the last step.
    pub fn flush(&mut self, worker: u8) -> Result<u64, Refusal> {
        let steps = self.history.steps();
        match self.logs.get_mut(usize::from(worker)) {
            Some(log) => Ok(flush(self.alloc, log, &mut self.history, steps)?.mark()),
            None => Err(Refusal::NoStore),
        }
    }

    /// The same, and begins the worker's next log.
    pub fn flush_and_begin(&mut self, worker: u8) -> Result<u64, Refusal> {
        let steps = self.history.steps();
        match self.logs.get_mut(usize::from(worker)) {
            Some(log) => Ok(flush_and_begin(self.alloc, log, &mut self.history, steps)?.mark()),
            None => Err(Refusal::NoStore),
        }
    }

    /// Begins a worker's next log.
    pub fn begin_next(&mut self, worker: u8) -> Result<(), Refusal> {
        match self.logs.get_mut(usize::from(worker)) {
            Some(log) => log.begin_next(),
            None => Err(Refusal::NoStore),
        }
    }

    /// Opens a worker's log again.
    pub fn reopen(&mut self, worker: u8) -> Result<(), Refusal> {
        match self.logs.get_mut(usize::from(worker)) {
            Some(log) => log.reopen(self.alloc),
            None => Err(Refusal::NoStore),
        }
    }

    /// Opens each log again that is closed, and drains its worker into it; the least step that one goes up to.
    pub fn settle(&mut self) -> Result<u64, Refusal> {
        let mut least = u64::MAX;
        for worker in 0..self.logs.len().min(64) as u8 {
            self.reopen(worker)?;
            least = least.min(self.flush(worker)?);
        }
        Ok(least)
    }

    /// The step up to which a worker's log goes, if there is one and it is open.
    pub fn mark(&self, worker: u8) -> Option<u64> {
        mark_of(&self.logs, usize::from(worker))
    }

    /// The generation of a worker's last log, if there is one.
    pub fn generation(&self, worker: u8) -> Option<u64> {
        Some(self.logs.get(usize::from(worker))?.generation())
    }

    /// Whether a worker's log keeps a batch.
    pub fn keeps(&self, worker: u8) -> bool {
        let log = self.logs.get(usize::from(worker));
        log.is_some_and(|log| log.keeps())
    }

    /// Crashes; each disk is found with what a read gives.
    pub fn crash(&mut self) -> Result<bool, Refusal> {
        let images = images_of(self.alloc, &self.logs)?;
        Ok(crash_logs(self.alloc, &mut self.logs, &images)?)
    }

    /// Recovers, and goes on from there.
    pub fn recover(&mut self) -> Result<Recovered, Refusal> {
        let mut tenants = Tenants::new(self.alloc);
        tenants.add(7, 8)?;
        let slots = &mut self.slots;
        let store = recover_store(self.alloc, &mut self.logs, slots, &tenants, &mut NoWatch);
        let store = store.map_err(|e| e.refusal())?;
        self.history = History::new(self.alloc, store.recovered.resume);
        Ok(store.recovered)
    }

    /// How many batches a worker's log has, once all were opened.
    pub fn batches(&mut self, worker: u8) -> Result<usize, Refusal> {
        let chains = open_logs(self.alloc, &mut self.logs, &[None, None], &mut NoWatch);
        let chains = chains.map_err(|e| e.refusal)?;
        let front = chains.fronts.get(usize::from(worker));
        Ok(front.map_or(0, |front| front.batches.len()))
    }
}

/// The step up to which a log goes, if there is one and it is open.
pub fn mark_of(logs: &[StoreLog<MemDisk>], place: usize) -> Option<u64> {
    logs.get(place)?.mark()
}
