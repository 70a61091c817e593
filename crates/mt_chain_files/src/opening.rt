//! The chains with which a recovery of a store begins.

ghost use Rattle.std.specs.{Prelude.{◌≡◌, ◌<◌, ◌≤◌, ◌↔◌, ℕ, IsTrue, map, length, IfOk, IfErr, OnOk}, Option.option_map};
ghost use Rattle.mt_generations.specs.Standings.{AllHave, AreFrom};
ghost use Rattle.mt_log.specs.Contents.{contents_of};
ghost use Rattle.mt_recover.specs.Pairs.{view_of};
ghost use Rattle.mt_chains.specs.Files.{standing_of};
ghost use Rattle.mt_chain_files.specs.Chosen.{begun_in, NeedPlain, BeginAt, RefuseToBegin, ReadsPlain, StopsPlain, Chooses, NotChosen, OpensChains, StopsChains};

use crate::begun::begun_after;
use crate::fault::FilesFault;
use crate::numbered::open_numbered_files;
use crate::plain::open_plain_files;
use crate::watching::Watch;
use mt_chains::{
    WorkerLogs, are_owned, can_begin, chains_from, choose, first_apart, last_generation,
};
use mt_checkpoint::SeenCheckpoint;
use mt_disk::Disk;
use mt_log::Front;
use mt_log_files::WorkerFiles;
use mt_rows::Refusal;
use std::alloc::{AllocError, Global};

/// The chains with which a recovery begins, one for each worker, in their order, and the generation from which on they
/// are. `begun` tells of each worker whether it has a log of the next generation too. That log is its last one then.
#[derive(Debug, Drop)]
pub struct Chains {
    pub generation: u64,
    pub fronts: Vec<Front>,
    pub begun: Vec<bool>,
}

/// Opens the log files of all workers, and gives the chains with which a recovery begins. It knows the checkpoints of the
/// two slots. The numbered files that count are opened first: of an older one that is not needed the header alone is read.
/// Plain files are opened only if a recovery may have to begin at generation 0. `watch` is told how far that is.
///
/// An error tells the worker with the file that was not opened, and why. Else it is one of these:
///
/// - `Memory` of no worker: there is no room.
/// - `LogCount` of no worker: there is nothing to begin with, or a log of the chains names another worker than its place, or
///   another number of logs than there are.
/// - `StampsFall` of a worker: its next log begins elsewhere than where the one before it ends, or there is a log of the
///   generation after the next one.
///
/// No disk is lost, so it can be called again.
pub fn open_chains<D: Disk + Drop, W: Watch>(
    alloc: Global,
    files: &mut [WorkerFiles<D>],
    checkpoints: &[Option<SeenCheckpoint>; 2],
    watch: &mut W,
) -> Result<Chains, FilesFault>
    requires some { 0 < length files.old }
    requires few { length files.old ≤ 64 }
    ensures ok { IfOk result (λ chains. OpensChains D.is_honest D.state D.failures (map (option_map view_of) checkpoints.now) files.old files.new chains) }
    ensures err { IfErr result (λ e. StopsChains D.is_honest D.state D.failures (map (option_map view_of) checkpoints.now) e files.old files.new) }
{
    let mut logs = open_numbered_files(alloc, files, checkpoints, watch)?;
    let generation = choose_from(alloc, files, &mut logs, checkpoints, watch)?;
    match chains_of(alloc, generation, logs) {
        Ok(chains) => Ok(chains),
        Err(_) => Err(FilesFault::of_all(Refusal::Memory)),
    }
}

// The chains from a generation on, of which each worker has a log.
fn chains_of(alloc: Global, generation: u64, logs: Vec<WorkerLogs>) -> Result<Chains, AllocError>
    requires { AllHave generation (map standing_of logs.items) }
    ensures generation { IfOk result (λ chains. chains.generation ≡ generation) }
    ensures are { IfOk result (λ chains. AreFrom chains.generation (map standing_of logs.items) (map contents_of chains.fronts.items)) }
    ensures begun { IfOk result (λ chains. chains.begun.items ≡ begun_in chains.generation logs.items) }
{
    let begun = begun_after(alloc, generation, &logs)?;
    let fronts = chains_from(alloc, generation, logs)?;
    Ok(Chains {
        generation,
        fronts,
        begun,
    })
}

// Opens the plain files if they are needed. Tells from which generation on the chains are.
fn choose_from<D: Disk + Drop, W: Watch>(
    alloc: Global,
    files: &mut [WorkerFiles<D>],
    logs: &mut [WorkerLogs],
    checkpoints: &[Option<SeenCheckpoint>],
    watch: &mut W,
) -> Result<u64, FilesFault>
    requires some { 0 < length logs.old }
    requires few { length logs.old ≤ 64 }
    requires count { length logs.old ≡ length files.old }
    ensures count { length logs.new ≡ length logs.old }
    ensures has { IfOk result (λ g. AllHave g (map standing_of logs.new)) }
    ensures ok { IfOk result (λ g. Chooses D.is_honest D.state D.failures (map (option_map view_of) checkpoints.now) g files.old files.new logs.old logs.new) }
    ensures err { IfErr result (λ e. NotChosen D.is_honest D.state D.failures (map (option_map view_of) checkpoints.now) e files.old files.new logs.old logs.new) }
{
    read_plain(alloc, files, logs, checkpoints, watch)?;
    choose_of(logs, checkpoints)
}

// Opens the plain files if they are needed.
fn read_plain<D: Disk + Drop, W: Watch>(
    alloc: Global,
    files: &mut [WorkerFiles<D>],
    logs: &mut [WorkerLogs],
    checkpoints: &[Option<SeenCheckpoint>],
    watch: &mut W,
) -> Result<(), FilesFault>
    requires some { 0 < length logs.old }
    requires count { length logs.old ≡ length files.old }
    ensures count { length logs.new ≡ length logs.old }
    ensures ok { OnOk result (ReadsPlain D.is_honest D.state D.failures (map (option_map view_of) checkpoints.now) files.old files.new logs.old logs.new) }
    ensures err { IfErr result (λ e. StopsPlain D.is_honest D.state D.failures (map (option_map view_of) checkpoints.now) e files.old files.new logs.old) }
{
    if need_plain(logs, checkpoints) {
        open_plain_files(alloc, files, logs, watch)
    } else {
        Ok(())
    }
}

// Whether a recovery may have to begin at generation 0.
fn need_plain(logs: &[WorkerLogs], checkpoints: &[Option<SeenCheckpoint>]) -> bool
    requires { 0 < length logs.now }
    ensures { IsTrue result ↔ NeedPlain (map standing_of logs.now) (map (option_map view_of) checkpoints.now) }
{
    match last_generation(logs) {
        Some(last) => last == 1 && !can_begin(last, logs, checkpoints),
        None => true,
    }
}

// From which generation on the chains are, by what was read. Each log of a chain is of its worker. In each chain the next log
// begins where the one before it ends, and no later one stands.
fn choose_of(logs: &[WorkerLogs], checkpoints: &[Option<SeenCheckpoint>]) -> Result<u64, FilesFault>
    requires some { 0 < length logs.now }
    requires few { length logs.now ≤ 64 }
    ensures has { IfOk result (λ g. AllHave g (map standing_of logs.now)) }
    ensures ok { IfOk result (λ g. BeginAt (map standing_of logs.now) (map (option_map view_of) checkpoints.now) g) }
    ensures err { IfErr result (λ e. RefuseToBegin (map standing_of logs.now) (map (option_map view_of) checkpoints.now) e) }
{
    let generation = match choose(logs, checkpoints) {
        Some(generation) => generation,
        None => return Err(FilesFault::of_all(Refusal::LogCount)),
    };
    if !are_owned(generation, logs) {
        return Err(FilesFault::of_all(Refusal::LogCount));
    }
    match first_apart(generation, logs) {
        Some((number, stamp)) => Err(FilesFault::at(
            usize::from(number),
            Refusal::StampsFall { number, stamp },
        )),
        None => Ok(generation),
    }
}
