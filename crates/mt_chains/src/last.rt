//! The last generation of which each worker has a log.

ghost use Rattle.std.specs.Prelude.{◌≡◌, ◌<◌, ℕ, map, length, MatchOption};
ghost use Rattle.mt_generations.specs.Standings.{AllHave, IsLast};
ghost use Rattle.mt_chains.specs.{Files.standing_of, Testing.{all_have, is_over, later, later_among}};

use crate::worker_logs::WorkerLogs;
use mt_log::Front;

/// The last generation of which each worker has a log.
pub fn last_generation(logs: &[WorkerLogs]) -> Option<u64>
    requires { 0 < length logs.now }
    ensures { MatchOption result ((g : ℕ) → ¬ AllHave g (map standing_of logs.now)) (λ g. IsLast g (map standing_of logs.now)) }
{
    let last = later(None, 0, logs);
    later_among(last, &logs[0].numbered, logs)
}

// The last one so far, or a later one of the generations of some files' logs, if each worker has a log of it.
fn later_among(last: Option<u64>, files: &[Option<Front>], logs: &[WorkerLogs]) -> Option<u64>
    ensures { result ≡ later_among files.now (map standing_of logs.now) last }
{
    let mut last = last;
    for file in files {
        if let Some(front) = file {
            last = later(last, front.generation, logs);
        }
    }
    last
}

// The last one so far, or a generation that is later, if each worker has a log of it.
fn later(last: Option<u64>, generation: u64, logs: &[WorkerLogs]) -> Option<u64>
    ensures { result ≡ later generation (map standing_of logs.now) last }
{
    if is_over(generation, last) && all_have(generation, logs) {
        Some(generation)
    } else {
        last
    }
}

// Whether a generation is over the last one so far, if there is one.
fn is_over(generation: u64, last: Option<u64>) -> bool
    ensures { result ≡ is_over generation last }
{
    match last {
        Some(last) => last < generation,
        None => true,
    }
}

// Whether each worker has a log of a generation.
fn all_have(generation: u64, logs: &[WorkerLogs]) -> bool
    ensures { result ≡ all_have generation (map standing_of logs.now) }
{
    for worker in logs {
        if worker.log(generation).is_none() {
            return false;
        }
    }
    true
}
