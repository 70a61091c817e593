//! Whether each next log begins where the one before it ends, and no later one stands.

ghost use Rattle.std.specs.{Prelude.{◌≡◌, ◌+◌, ◌≤◌, ℕ, map, length, MatchOption}, Option.option_map};
ghost use Rattle.mt_log.specs.Contents.{contents_of};
ghost use Rattle.mt_crashes.specs.Fronts.{In};
ghost use Rattle.mt_generations.specs.Standings.{Standing};
ghost use Rattle.mt_chains.specs.{Files.{standing_of, FallsFrom, IsFirstApart}, Testing.{apart_start, start_in, fall_start, first_apart}};

use crate::ends::end_after;
use crate::worker_logs::WorkerLogs;
use mt_log::Front;

/// The first worker, by its place, in whose logs from a generation on a start falls, and this start. The log of the next
/// generation begins elsewhere than where the one before it ends. Or else a log of the generation after that stands.
pub fn first_apart(generation: u64, logs: &[WorkerLogs]) -> Option<(u8, u64)>
    requires { length logs.now ≤ 64 }
    ensures { MatchOption result ((worker : Standing) (n : ℕ) → In worker (map standing_of logs.now) → ¬ FallsFrom generation worker n) (λ found. IsFirstApart generation (map standing_of logs.now) found.0 found.1) }
{
    find_apart(generation, logs)
}

// The same, as it is looked for.
fn find_apart(generation: u64, logs: &[WorkerLogs]) -> Option<(u8, u64)>
    requires { length logs.now ≤ 64 }
    ensures { result ≡ first_apart generation 0 (map standing_of logs.now) }
{
    for place in 0..logs.len() {
        if let Some(start) = fall_start(generation, &logs[place]) {
            return Some((place as u8, start));
        }
    }
    None
}

// Where a worker's next log begins, if that is not where the one before it ends; or else where its log two generations on
// begins, if there is one.
fn fall_start(generation: u64, worker: &WorkerLogs) -> Option<u64>
    ensures { result ≡ fall_start (standing_of worker.now generation) (standing_of worker.now (generation + 1)) (standing_of worker.now (generation + 2)) }
{
    match apart_start(generation, worker) {
        Some(start) => Some(start),
        None => start_in(worker.log_two_on(generation)),
    }
}

// Where a log begins, if there is one.
fn start_in(log: Option<&Front>) -> Option<u64>
    ensures { result ≡ start_in (option_map (λ front. contents_of front.now) log.entry) }
{
    match log {
        Some(front) => Some(front.start),
        None => None,
    }
}

// Where a worker's next log begins, if that is not where the one before it ends.
fn apart_start(generation: u64, worker: &WorkerLogs) -> Option<u64>
    ensures { result ≡ apart_start (standing_of worker.now generation) (standing_of worker.now (generation + 1)) }
{
    let first = worker.log(generation)?;
    let next = worker.next_log(generation)?;
    if next.start == end_after(first.start, &first.batches) {
        None
    } else {
        Some(next.start)
    }
}
