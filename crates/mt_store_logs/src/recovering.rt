//! A store brought up again: its slots looked at, its logs opened, both read a second time, and each log with the batch
//! with which a recovery ends.

ghost use Rattle.std.specs.{Prelude.{◌≡◌, ◌≤◌, ◌^◌, map, length, IfOk, IfErr, OnOk, OnErr}, List.AllByRecursion};
ghost use Rattle.mt_log.specs.Contents.{contents_of};
ghost use Rattle.mt_recover.specs.Limits.{IsReadSlot, AreContents};
ghost use Rattle.mt_recover.specs.Resumes.{IsOpenUpto};
ghost use Rattle.mt_store_logs.specs.{Places.{slot_of, worker_of, workers_of}, Recovers.{used_slot, AreOpenUpto, ResumesLog, FailsToResumeLog, ResumesAll, StopsResuming}};
ghost use Rattle.mt_store_logs.specs.{Leaves.{NoneBegun, GivesUpAll, StopsGivingUp, LeavesOne}, Recovers.{slots_of, ServesAgain, IsNotRecovered}, Seconds.{ReadsAgain, GivesNone}};

use crate::fault::{LogRefusal, StoreRefusal};
use crate::opening::open_logs;
use crate::second_reading::{SecondReading, readers_of};
use crate::store_log::StoreLog;
use mt_chain_files::{Chains, Watch};
use mt_checkpoint::SeenCheckpoint;
use mt_disk::Disk;
use mt_recover::{Recovered, recover, resume_at};
use mt_rows::{Refusal, Tenants};
use mt_slots::{Slot, StoreSlots};
use std::alloc::Global;

/// A store that was recovered: what its files told, and the generation from which on its logs stand. Its next turn goes to
/// the generation after that one.
#[derive(Debug, Drop)]
pub struct RecoveredStore {
    pub recovered: Recovered,
    pub generation: u64,
}

/// Looks at the slots of a store, opens the files of its logs, recovers it by a second reading of both, and appends to the
/// last log of each worker the batch with which a recovery ends. Then the last logs are open, go up to the step from which
/// the store goes on, and keep no batch. If no worker has begun the next generation, the logs of the one before are given
/// up: the recovery did without them. The checkpoint that was used is the newest one, and owes nothing. `watch` is told how
/// far the opening is.
///
/// The second reading reads the logs side by side, and loads the checkpoint that is used. So memory is taken for the pairs,
/// and of each log for one batch.
///
/// An error tells the slot or the log that was not read, the log that was not opened, got no such batch or was not given up,
/// or, of all logs, why there is no recovery. It is `Device` of no log if the second reading does not give what the first one
/// did: then the disk has changed in between. No file of a log is opened before both slots were looked at, nothing is
/// appended before all files were read twice, and nothing is given up before all logs have their batches. No disk is lost,
/// and what a crash may leave of each last log is what it might before, or that with the batch. An older log that may be
/// gone is not needed. So the store can be recovered again, with or without a crash.
pub fn recover_store<D: Disk + Drop, W: Watch>(
    alloc: Global,
    logs: &mut [StoreLog<D>],
    slots: &mut StoreSlots<D>,
    tenants: &Tenants,
    watch: &mut W,
) -> Result<RecoveredStore, StoreRefusal>
    ensures workers { workers_of logs.new ≡ workers_of logs.old }
    ensures ok { IfOk result (λ r. ServesAgain D.is_honest D.state D.failures tenants.now r.recovered r.generation logs.old slots.old logs.new slots.new) }
    ensures last { IfOk result (λ r. r.generation ≤ 2 ^ 59) }
    ensures err { IfErr result (λ e. IsNotRecovered D.is_honest D.state D.failures tenants.now e logs.old slots.old logs.new slots.new) }
{
    let seen = slots.look(alloc)?;
    let mut chains = open_logs(alloc, logs, &seen, watch)?;
    let recovered = read_again(alloc, logs, slots, &mut chains, &seen, tenants)?;
    resume_logs(alloc, logs, &recovered)?;
    leave_one(logs, &chains.begun)?;
    slots.keep(used_slot(recovered.used));
    Ok(RecoveredStore {
        recovered,
        generation: chains.generation,
    })
}

// Recovers a store by a second reading of its logs, which are open, and of its slots, which were looked at.
fn read_again<D: Disk + Drop>(
    alloc: Global,
    logs: &mut [StoreLog<D>],
    slots: &mut StoreSlots<D>,
    chains: &mut Chains,
    seen: &[Option<SeenCheckpoint>; 2],
    tenants: &Tenants,
) -> Result<Recovered, StoreRefusal>
    requires last { chains.old.generation ≤ 2 ^ 59 }
    requires fronts { length chains.old.fronts.items ≡ length logs.old }
    requires begun { length chains.old.begun.items ≡ length logs.old }
    requires slots { AllByRecursion IsReadSlot seen.now }
    requires format { AreContents (map contents_of chains.old.fronts.items) }
    ensures begun { chains.new.begun ≡ chains.old.begun }
    ensures generation { chains.new.generation ≡ chains.old.generation }
    ensures ok { IfOk result (ReadsAgain D.is_honest D.state D.failures tenants.now chains.old (slots_of seen.now) logs.old slots.old logs.new slots.new) }
    ensures err { IfErr result (GivesNone D.is_honest D.state D.failures tenants.now chains.old (slots_of seen.now) logs.old slots.old logs.new slots.new) }
{
    let mut readers = match readers_of(alloc, chains) {
        Ok(readers) => readers,
        Err(_) => return Err(StoreRefusal::Logs(LogRefusal::of_all(Refusal::Memory))),
    };
    let mut source = SecondReading::new(logs, slots, &mut readers);
    let recovered = recover(alloc, &mut source, &mut chains.fronts, seen, tenants);
    match (source.end(), recovered) {
        (Some(fault), _) => Err(fault),
        (None, Ok(recovered)) => Ok(recovered),
        (None, Err(refusal)) => Err(StoreRefusal::Logs(LogRefusal::of_all(refusal))),
    }
}

// The slot of this number.
fn used_slot(used: Option<u8>) -> Option<Slot>
    ensures { result ≡ used_slot used }
{
    match used {
        Some(number) => Slot::numbered(number),
        None => None,
    }
}

// Appends to each log the batch with which a recovery ends.
fn resume_logs<D: Disk + Drop>(
    alloc: Global,
    logs: &mut [StoreLog<D>],
    recovered: &Recovered,
) -> Result<(), LogRefusal>
    requires open { AreOpenUpto recovered.now.resume logs.old }
    requires kept { recovered.now.cutoff ≤ recovered.now.resume }
    requires last { recovered.now.resume ≤ 2 ^ 59 }
    ensures workers { workers_of logs.new ≡ workers_of logs.old }
    ensures ok { OnOk result (ResumesAll D.is_honest D.state D.failures recovered.now.cutoff recovered.now.resume logs.old logs.new) }
    ensures err { IfErr result (λ e. StopsResuming D.is_honest D.state D.failures recovered.now.cutoff recovered.now.resume e logs.old logs.new) }
{
    for place in 0..logs.len() {
        if let Err(refusal) = resume_log(
            alloc,
            &mut logs[place],
            recovered.cutoff,
            recovered.resume,
        ) {
            return Err(LogRefusal::at(place, refusal));
        }
    }
    Ok(())
}

// Appends it to the last log of one worker.
fn resume_log<D: Disk + Drop>(
    alloc: Global,
    log: &mut StoreLog<D>,
    kept: u64,
    to: u64,
) -> Result<(), Refusal>
    requires open { IsOpenUpto to (slot_of log.old) }
    requires kept { kept ≤ to }
    requires last { to ≤ 2 ^ 59 }
    ensures worker { worker_of log.new ≡ worker_of log.old }
    ensures ok { OnOk result (ResumesLog D.is_honest D.state D.failures kept to log.old log.new) }
    ensures err { IfErr result (λ e. FailsToResumeLog D.is_honest D.state D.failures kept to e log.old log.new) }
{
    let mut last = log.take_last();
    let resumed = resume_at(alloc, &mut last.slot, kept, to);
    log.put_last(last);
    resumed
}

// Gives up the logs of the generation before the last ones, if no worker has begun the next one. So one generation is left.
fn leave_one<D: Disk + Drop>(logs: &mut [StoreLog<D>], begun: &[bool]) -> Result<(), LogRefusal>
    ensures workers { workers_of logs.new ≡ workers_of logs.old }
    ensures ok { OnOk result (LeavesOne D.is_honest D.state D.failures begun.now logs.old logs.new) }
    ensures none { OnErr result (NoneBegun begun.now) }
    ensures err { IfErr result (λ e. StopsGivingUp D.is_honest D.state D.failures e logs.old logs.new) }
{
    if begun.contains(&true) {
        Ok(())
    } else {
        give_up_all(logs)
    }
}

// Gives up the older log of each worker.
fn give_up_all<D: Disk + Drop>(logs: &mut [StoreLog<D>]) -> Result<(), LogRefusal>
    ensures workers { workers_of logs.new ≡ workers_of logs.old }
    ensures ok { OnOk result (GivesUpAll D.is_honest D.state D.failures logs.old logs.new) }
    ensures err { IfErr result (λ e. StopsGivingUp D.is_honest D.state D.failures e logs.old logs.new) }
{
    for place in 0..logs.len() {
        if let Err(refusal) = logs[place].give_up_older() {
            return Err(LogRefusal::at(place, refusal));
        }
    }
    Ok(())
}
