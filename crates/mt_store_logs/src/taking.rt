//! The files of all logs, taken out and put back.

ghost use Rattle.std.specs.Prelude.{◌≡◌, ◌≤◌, ◌^◌, ℕ, None, Some, [], length, map, vec_len, vec_capacity, slice_get};
ghost use Rattle.mt_chain_files.specs.Lasts.{last_generation_of};
ghost use Rattle.mt_store_logs.specs.{declared.store_log.StoreLog.StoreLog, Lists.Each, Places.workers_of, Taking.{files_of, IsEmptied, HaveTheirFiles}};

use crate::store_log::{StoreLog, no_files};
use mt_disk::Disk;
use mt_log_files::WorkerFiles;
use std::mem;

/// Takes the files of all logs out, into a list with room for them. The logs have no files then, and keep no batch.
pub(crate) fn take_all<D: Disk + Drop>(logs: &mut [StoreLog<D>], files: &mut Vec<WorkerFiles<D>>)
    requires none { files.old.items ≡ [] }
    requires room { length logs.old ≤ vec_capacity files.old }
    ensures workers { workers_of logs.new ≡ workers_of logs.old }
    ensures files { files.new.items ≡ map files_of logs.old }
    ensures logs { Each (λ k was is. IsEmptied was is) logs.old logs.new }
{
    for place in 0..logs.len() {
        let one = logs[place].take_files();
        files.push_reserved(one);
    }
}

/// Puts files back into the logs, in their order. No batch waits for any of them. The last generation of a log is this one, or the next one if that is told to
/// be begun.
pub(crate) fn put_all<D: Disk + Drop>(
    logs: &mut [StoreLog<D>],
    mut files: Vec<WorkerFiles<D>>,
    generation: u64,
    begun: &[bool],
)
    requires count { vec_len files ≡ length logs.old }
    requires none { (k : ℕ) (log : StoreLog D) → slice_get logs.old k ≡ Some log → log.kept ≡ None }
    requires last { generation ≤ 2 ^ 59 }
    ensures workers { workers_of logs.new ≡ workers_of logs.old }
    ensures logs { HaveTheirFiles generation begun.now files.items logs.old logs.new }
{
    for place in 0..logs.len() {
        let one = mem::replace(&mut files[place], no_files());
        logs[place].put_files(last_generation(generation, begun, place), one);
    }
}

// The last generation of the worker at a place.
fn last_generation(generation: u64, begun: &[bool], place: usize) -> u64
    requires { generation ≤ 2 ^ 59 }
    ensures { result ≡ last_generation_of generation (slice_get begun.now place) }
{
    match begun.get(place) {
        Some(true) => generation + 1,
        Some(false) | None => generation,
    }
}
