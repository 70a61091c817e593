//! How far a recovery is, for whoever waits for the server.

ghost use Rattle.std.specs.Prelude.{◌≡◌, length};

use log::{Log, warn};
use mt_disk::Disk;
use mt_log_files::WorkerFiles;
use mt_recover::LogSlot;
use mt_store_logs::Watch;
use std::time::{Clock, Instant};

/// A recovery that takes longer than so many seconds is told of.
const LONG_SECONDS: u64 = 2;

/// A recovery of so many bytes is told of before it begins: it may last longer than that.
const MANY_BYTES: u64 = 1 << 25;

/// Warns how far a recovery is that lasts: before it begins if its logs are long, of each log whose files are read,
/// and when it is over.
#[derive(Drop)]
pub(crate) struct Progress<'a, R: Clock + Log> {
    rt: &'a R,
    began: Option<Instant>,
}

impl<'a, R: Clock + Log> Progress<'a, R> {
    /// Of a recovery that begins now.
    pub(crate) fn new(rt: &'a R) -> Self {
        Progress {
            rt,
            began: Instant::now(rt).ok(),
        }
    }

    /// These logs are read next.
    pub(crate) fn begin<D: Disk + Drop>(&self, files: &mut [WorkerFiles<D>])
        ensures { length files.new ≡ length files.old }
    {
        let logs = files.len();
        let bytes = bytes_in(files);
        if bytes >= MANY_BYTES {
            warn!(self.rt; "recovering: {bytes} bytes of {logs} logs");
        }
    }

    /// It is over.
    pub(crate) fn end(&self) {
        if let Some(seconds) = self.long() {
            warn!(self.rt; "recovered after {seconds} seconds");
        }
    }

    // How many seconds it has taken, if these are many. Without a clock nothing is told.
    fn long(&self) -> Option<u64> {
        let seconds = self.began.as_ref()?.elapsed(self.rt).ok()?.as_secs();
        if seconds < LONG_SECONDS {
            return None;
        }
        Some(seconds)
    }
}

impl<R: Clock + Log> Watch for Progress<'_, R> {
    fn opened_numbered(&mut self, workers: usize, of: usize) {
        if self.long().is_some() {
            let log = workers.saturating_sub(1);
            warn!(self.rt; "recovering: the numbered files of log {log} are read, {workers} of {of}");
        }
    }

    fn opened_plain(&mut self, workers: usize, of: usize) {
        if self.long().is_some() {
            let log = workers.saturating_sub(1);
            warn!(self.rt; "recovering: log {log} is read, {workers} of {of}");
        }
    }
}

// How many bytes the files of logs have.
fn bytes_in<D: Disk + Drop>(files: &mut [WorkerFiles<D>]) -> u64
    ensures { length files.new ≡ length files.old }
{
    let mut bytes: u64 = 0;
    for place in 0..files.len() {
        bytes = bytes
            .saturating_add(bytes_of(&mut files[place].plain))
            .saturating_add(bytes_of(&mut files[place].even))
            .saturating_add(bytes_of(&mut files[place].odd));
    }
    bytes
}

// How many bytes a file has. One that doesn't tell, or is open already, counts for none.
fn bytes_of<D: Disk + Drop>(slot: &mut LogSlot<D>) -> u64 {
    match slot {
        LogSlot::Closed(disk) => disk.len().unwrap_or(0) as u64,
        _ => 0,
    }
}
