//! Whether some base may be used over the chains from a generation on.

ghost use Rattle.std.specs.{Prelude.{◌≡◌, ◌++◌, ◌↔◌, IsTrue, not, nat_lt, map}, Option.option_map, List.filter_map};
ghost use Rattle.mt_log.specs.{Contents.{contents_of, end_of}, Voids.{voids_in, is_void}};
ghost use Rattle.mt_generations.specs.Standings.{CanBegin, chain_from};
ghost use Rattle.mt_recover.specs.Pairs.{view_of};
ghost use Rattle.mt_chains.specs.{Files.standing_of, Testing.{is_first, covers, serves, all_first, serves_all, slot_serves, any_serves}};

use crate::ends::end_after;
use crate::worker_logs::WorkerLogs;
use mt_checkpoint::SeenCheckpoint;
use mt_log::{Front, LogBatch};

/// Whether a recovery can begin at a generation. Each worker has a log of it, and some base may be used over the chains
/// from there on: one of the checkpoints that were read of the slots, or nothing at all if all chains begin at step 0.
pub fn can_begin(
    generation: u64,
    logs: &[WorkerLogs],
    checkpoints: &[Option<SeenCheckpoint>],
) -> bool
    ensures { IsTrue result ↔ CanBegin generation (map standing_of logs.now) (map (option_map view_of) checkpoints.now) }
{
    all_first(generation, logs) || any_serves(generation, logs, checkpoints)
}

// Whether each worker's log of a generation begins at step 0.
fn all_first(generation: u64, logs: &[WorkerLogs]) -> bool
    ensures { result ≡ all_first generation (map standing_of logs.now) }
{
    for worker in logs {
        if !is_first(generation, worker) {
            return false;
        }
    }
    true
}

// Whether a worker's log of a generation begins at step 0.
fn is_first(generation: u64, worker: &WorkerLogs) -> bool
    ensures { result ≡ is_first (standing_of worker.now generation) }
{
    match worker.log(generation) {
        Some(front) => front.start == 0,
        None => false,
    }
}

// Whether one of the checkpoints may be used over the chains.
fn any_serves(generation: u64, logs: &[WorkerLogs], checkpoints: &[Option<SeenCheckpoint>]) -> bool
    ensures { result ≡ any_serves generation (map standing_of logs.now) (map (option_map view_of) checkpoints.now) }
{
    for slot in checkpoints {
        if slot_serves(generation, logs, slot) {
            return true;
        }
    }
    false
}

// Whether the checkpoint of a slot may.
fn slot_serves(generation: u64, logs: &[WorkerLogs], slot: &Option<SeenCheckpoint>) -> bool
    ensures { result ≡ slot_serves generation (map standing_of logs.now) (option_map view_of slot.now) }
{
    match slot {
        Some(checkpoint) => serves_all(generation, logs, checkpoint.first(), checkpoint.last()),
        None => false,
    }
}

// Whether a checkpoint may be used over each worker's chain, by the numbers from and to which it was walked.
fn serves_all(generation: u64, logs: &[WorkerLogs], first: u64, last: u64) -> bool
    ensures { result ≡ serves_all generation first last (map standing_of logs.now) }
{
    for worker in logs {
        if !serves(generation, worker, first, last) {
            return false;
        }
    }
    true
}

// The same of one worker's chain.
fn serves(generation: u64, worker: &WorkerLogs, first: u64, last: u64) -> bool
    ensures { result ≡ serves first last (chain_from generation (standing_of worker.now)) }
{
    match worker.log(generation) {
        Some(front) => serves_over(front, worker.next_batches(generation), first, last),
        None => false,
    }
}

// Whether a checkpoint may be used over a log and the batches of the next one.
fn serves_over(front: &Front, next: &[LogBatch], first: u64, last: u64) -> bool
    ensures { result ≡ serves first last (Some (record (contents_of front.now) { batches = front.now.batches.items ++ next.now })) }
{
    covers(front.start, first, last)
        && reach(front, next, last)
        && !either_makes_void(front, next, last)
}

// Whether a checkpoint covers what was given up to a step.
fn covers(start: u64, first: u64, last: u64) -> bool
    ensures { result ≡ covers first last start }
{
    start <= first && (start == 0 || first < last)
}

// Whether a log and the batches of the next one go by a number.
#[tactic(auto, using(mt_generations::proofs::Parts::end_joined))]
fn reach(front: &Front, next: &[LogBatch], number: u64) -> bool
    ensures { result ≡ not (nat_lt (end_of front.now.start (front.now.batches.items ++ next.now)) number) }
{
    number <= end_after(end_after(front.start, &front.batches), next)
}

// Whether a log or the batches of the next one make a number void.
#[tactic(auto, using(crate::proofs::JoinLaws::void_joined))]
fn either_makes_void(front: &Front, next: &[LogBatch], number: u64) -> bool
    ensures { result ≡ is_void (filter_map voids_in (front.now.batches.items ++ next.now)) number }
{
    make_void(&front.batches, number) || make_void(next, number)
}

// Whether a batch makes a number void.
fn make_void(batches: &[LogBatch], number: u64) -> bool
    ensures { result ≡ is_void (filter_map voids_in batches.now) number }
{
    for batch in batches {
        match batch {
            LogBatch::Resume { to, kept, .. } if *kept < number && number <= *to => return true,
            _ => {}
        }
    }
    false
}
