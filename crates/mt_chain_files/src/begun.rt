//! Which workers have begun the log of the next generation.

ghost use Rattle.std.specs.Prelude.{◌≡◌, ◌+◌, IfOk};
ghost use Rattle.mt_chains.specs.{Files.standing_of, Testing.is_there};
ghost use Rattle.mt_chain_files.specs.Chosen.{begun_in};

use mt_chains::WorkerLogs;
use std::alloc::{AllocError, Global};

/// Of each worker, whether it has a log of the generation after one.
pub(crate) fn begun_after(
    alloc: Global,
    generation: u64,
    logs: &[WorkerLogs],
) -> Result<Vec<bool>, AllocError>
    ensures { IfOk result (λ begun. begun.items ≡ begun_in generation logs.now) }
{
    let mut begun = Vec::new(alloc);
    for worker in logs {
        begun.push(has_after(worker, generation))?;
    }
    Ok(begun)
}

// Whether a worker has one.
fn has_after(worker: &WorkerLogs, generation: u64) -> bool
    ensures { result ≡ is_there (standing_of worker.now (generation + 1)) }
{
    worker.next_log(generation).is_some()
}
