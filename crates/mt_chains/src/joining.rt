//! Each worker's chain from a generation on, made of its logs.

ghost use Rattle.std.specs.{Prelude.{◌≡◌, ◌++◌, ◌∷◌, [], Some, map, IfOk, OnOk}, Option.option_map};
ghost use Rattle.mt_log.specs.Contents.{contents_of};
ghost use Rattle.mt_generations.specs.{Chains.Chain, Standings.{AllHave, AreFrom, chain_from, joined}};
ghost use Rattle.mt_chains.specs.Files.{standing_of};

use crate::worker_logs::WorkerLogs;
use mt_log::Front;
use std::alloc::{AllocError, Global};

/// The chains of all workers from a generation on, of which each worker has a log. Logs of other generations are let go.
pub fn chains_from(
    alloc: Global,
    generation: u64,
    logs: Vec<WorkerLogs>,
) -> Result<Vec<Front>, AllocError>
    requires { AllHave generation (map standing_of logs.items) }
    ensures { IfOk result (λ chains. AreFrom generation (map standing_of logs.items) (map contents_of chains.items)) }
{
    let mut chains = Vec::new(alloc);
    for worker in logs {
        add_chain(alloc, &mut chains, generation, worker)?;
    }
    Ok(chains)
}

// A worker's chain goes to a list, if it has one.
fn add_chain(
    alloc: Global,
    chains: &mut Vec<Front>,
    generation: u64,
    worker: WorkerLogs,
) -> Result<(), AllocError>
    ensures { OnOk result ((c : Chain) → chain_from generation (standing_of worker) ≡ Some c → map contents_of chains.new.items ≡ map contents_of chains.old.items ++ c ∷ []) }
{
    let (first, next) = worker.into_logs(generation);
    if let Some(first) = first {
        chains.push(with_next(first, next)?)?;
    }
    Ok(())
}

// A log with that of the next generation after it, if there is one.
fn with_next(first: Front, next: Option<Front>) -> Result<Front, AllocError>
    ensures { IfOk result (λ chain. joined (Some (contents_of first)) (option_map contents_of next) ≡ Some (contents_of chain)) }
{
    match next {
        Some(next) => first.join(next),
        None => Ok(first),
    }
}
