//! Whether the logs of a store's chains are those of its workers.

ghost use Rattle.std.specs.{Prelude.{◌≡◌, ◌+◌, ◌↔◌, IsTrue, map, length}, Option.option_map};
ghost use Rattle.mt_log.specs.Contents.{contents_of};
ghost use Rattle.mt_chains.specs.{Files.{standing_of, AreOwned}, Testing.{is_owned, are_owned}};

use crate::worker_logs::WorkerLogs;
use mt_log::Front;

/// Whether each worker's log of a generation, and that of the next one, names the worker by its place, and as many logs as
/// there are workers.
pub fn are_owned(generation: u64, logs: &[WorkerLogs]) -> bool
    ensures { IsTrue result ↔ AreOwned generation (map standing_of logs.now) }
{
    all_owned(generation, logs)
}

// The same, as it is tested.
fn all_owned(generation: u64, logs: &[WorkerLogs]) -> bool
    ensures { result ≡ are_owned generation (length logs.now) 0 (map standing_of logs.now) }
{
    for place in 0..logs.len() {
        let worker = &logs[place];
        if !is_owned(worker.log(generation), place, logs.len())
            || !is_owned(worker.next_log(generation), place, logs.len())
        {
            return false;
        }
    }
    true
}

// Whether a log, if there is one, names this worker and so many logs.
fn is_owned(log: Option<&Front>, worker: usize, count: usize) -> bool
    ensures { result ≡ is_owned worker count (option_map (λ front. contents_of front.now) log.entry) }
{
    match log {
        Some(front) => usize::from(front.worker) == worker && usize::from(front.logs) == count,
        None => true,
    }
}
