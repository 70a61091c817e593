//! Flushes, reopenings and Settles of a store that serves.

ghost use Rattle.std.specs.{Prelude.{◌≡◌, ◌<◌, ◌≤◌, true, List, length, Some, IfOk, IfErr}, Ordering.nat_cmp, BTreeMap.get};
ghost use Rattle.mt_rows.specs.Accounts.{Accounts};
ghost use Rattle.mt_disk.specs.{declared.mem.MemDisk.{MemDisk as AnyDisk}, Mem.mem_state};
ghost use Rattle.mt_lives.specs.declared.live_slots.LiveSlots.{LiveSlots as AnySlots};
ghost use Rattle.mt_store_logs.specs.{declared.store_log.StoreLog.{StoreLog as AnyLog}, Places.{worker_of, workers_of, AreInOrder}};
ghost use Rattle.mt_store_logs.specs.{Turns.{FlushesLog, FailsToFlushLog}, LogTurns.{BringsUp, FailsToBringUp}};
ghost use Rattle.mt_lives.specs.declared.events.StoreEvent.TheVariants.{Flush, Reopen, SettleBegin, SettleNext};
ghost use Rattle.mt_lives.specs.{declared.serving.Serving.{Serving as AnyServing}, Serving.DrainsServing, Steps.{Turns, IsHeld, GoesOn}, Forced.IsForced};

use crate::events::StoreNote;
use crate::serving::{Serving, Settle};
use mt_disk::MemDisk;
use mt_rows::Refusal;
use mt_store_logs::{StoreLog, bring_up, flush};
use std::alloc::{AllocError, Global};

/// Drains a worker once into its log, if there is one and it is open.
pub(crate) fn flush_at(
    alloc: Global,
    logs: &mut [StoreLog<MemDisk>],
    serving: &mut Serving,
    worker: u8,
) -> StoreNote
    requires held { IsHeld logs.old (Some serving.old) }
    requires order { AreInOrder logs.old }
    ensures count { length logs.new ≡ length logs.old }
    ensures workers { workers_of logs.new ≡ workers_of logs.old }
    ensures goes { (accounts : Accounts) (slots : AnySlots) → GoesOn accounts slots slots (Flush worker) result logs.old (Some serving.old) logs.new (Some serving.new) }
    ensures forced { (accounts : Accounts) → IsForced accounts (Flush worker) result logs.old (Some serving.old) logs.new }
{
    let place = usize::from(worker);
    if place >= logs.len() || logs[place].mark().is_none() {
        return StoreNote::NoSuch;
    }
    match flush_log(alloc, &mut logs[place], serving, worker, 0) {
        Ok(mark) => StoreNote::Flushed(mark),
        Err(refusal) => StoreNote::Refused(refusal),
    }
}

/// Opens a worker's log again, if there is one and it is not open. If its next log may be there, that is looked for first.
pub(crate) fn reopen_at(alloc: Global, logs: &mut [StoreLog<MemDisk>], worker: u8) -> StoreNote
    requires { (serving : AnyServing) × IsHeld logs.old (Some serving) }
    ensures count { length logs.new ≡ length logs.old }
    ensures workers { workers_of logs.new ≡ workers_of logs.old }
    ensures goes { (accounts : Accounts) (slots : AnySlots) (serving : AnyServing) → GoesOn accounts slots slots (Reopen worker) result logs.old (Some serving) logs.new (Some serving) }
    ensures forced { (accounts : Accounts) (serving : AnyServing) → IsForced accounts (Reopen worker) result logs.old (Some serving) logs.new }
{
    let place = usize::from(worker);
    if place >= logs.len() || logs[place].mark().is_some() {
        return StoreNote::NoSuch;
    }
    match logs[place].reopen(alloc) {
        Ok(()) => StoreNote::Reopened,
        Err(refusal) => StoreNote::Refused(refusal),
    }
}

/// Begins a Settle, unless one of this number has begun and not ended.
pub(crate) fn begin_settle(serving: &mut Serving, id: u64) -> Result<StoreNote, AllocError>
    ensures goes { IfOk result (λ note. (accounts : Accounts) (slots : AnySlots) (logs : List (AnyLog AnyDisk)) → GoesOn accounts slots slots (SettleBegin id) note logs (Some serving.old) logs (Some serving.new)) }
{
    if serving.settles.contains_key(&id) {
        return Ok(StoreNote::NoSuch);
    }
    let begun = serving.state.steps();
    let settle = Settle {
        begun,
        next: 0,
        least: u64::MAX,
    };
    serving.settles.insert(id, settle)?;
    Ok(StoreNote::Begun(begun))
}

/// Gives the log that is next in a Settle its turn, up to the last step. A server gives it the same.
pub(crate) fn go_on(
    alloc: Global,
    logs: &mut [StoreLog<MemDisk>],
    serving: &mut Serving,
    id: u64,
) -> StoreNote
    requires held { IsHeld logs.old (Some serving.old) }
    requires order { AreInOrder logs.old }
    ensures count { length logs.new ≡ length logs.old }
    ensures workers { workers_of logs.new ≡ workers_of logs.old }
    ensures goes { (accounts : Accounts) (slots : AnySlots) → GoesOn accounts slots slots (SettleNext id) result logs.old (Some serving.old) logs.new (Some serving.new) }
    ensures forced { (accounts : Accounts) → IsForced accounts (SettleNext id) result logs.old (Some serving.old) logs.new }
{
    let Some(settle) = serving.settles.get(&id).copied() else {
        return StoreNote::NoSuch;
    };
    let steps = serving.state.steps();
    match bring_up_log(
        alloc,
        &mut logs[usize::from(settle.next)],
        serving,
        settle.next,
        steps,
    ) {
        Ok(mark) => turned(serving, id, settle, mark, logs.len()),
        Err(refusal) => {
            serving.settles.remove(&id);
            StoreNote::Refused(refusal)
        }
    }
}

// Drains a worker into its log, up to a step at least, and tells the step up to which the log then goes.
fn flush_log(
    alloc: Global,
    log: &mut StoreLog<MemDisk>,
    serving: &mut Serving,
    worker: u8,
    upto: u64,
) -> Result<u64, Refusal>
    requires whose { worker_of log.old ≡ worker }
    requires served { worker < length serving.old.state.logs }
    requires made { upto ≤ serving.old.state.steps }
    ensures ok { IfOk result (λ mark. FlushesLog (λ (d : AnyDisk). true) mem_state (λ d. d.failures) DrainsServing upto mark log.old log.new serving.old serving.new) }
    ensures worker { worker_of log.new ≡ worker_of log.old }
    ensures err { IfErr result (λ e. FailsToFlushLog (λ (d : AnyDisk). true) mem_state (λ d. d.failures) DrainsServing upto e log.old log.new serving.old serving.new) }
{
    match flush(alloc, log, serving, upto) {
        Ok(flushed) => Ok(flushed.mark()),
        Err(refusal) => Err(refusal),
    }
}

/// Gives a worker's log its turn, up to a step at least, and tells the step up to which the log then goes.
pub(crate) fn bring_up_log(
    alloc: Global,
    log: &mut StoreLog<MemDisk>,
    serving: &mut Serving,
    worker: u8,
    upto: u64,
) -> Result<u64, Refusal>
    requires whose { worker_of log.old ≡ worker }
    requires served { worker < length serving.old.state.logs }
    requires made { upto ≤ serving.old.state.steps }
    ensures ok { IfOk result (λ mark. BringsUp (λ (d : AnyDisk). true) mem_state (λ d. d.failures) DrainsServing upto mark log.old log.new serving.old serving.new) }
    ensures worker { worker_of log.new ≡ worker_of log.old }
    ensures err { IfErr result (λ e. FailsToBringUp (λ (d : AnyDisk). true) mem_state (λ d. d.failures) DrainsServing upto e log.old log.new serving.old serving.new) }
{
    match bring_up(alloc, log, serving, upto) {
        Ok(flushed) => Ok(flushed.mark()),
        Err(refusal) => Err(refusal),
    }
}

// One log more goes up to a step.
fn turned(serving: &mut Serving, id: u64, settle: Settle, mark: u64, count: usize) -> StoreNote
    requires open { get nat_cmp serving.old.settles id ≡ Some settle }
    requires next { settle.next < count }
    requires few { count ≤ 64 }
    ensures turns { Turns count id settle mark serving.old.settles serving.new.settles result }
    ensures state { serving.new.state ≡ serving.old.state }
    ensures roster { serving.new.roster ≡ serving.old.roster }
    ensures generation { serving.new.generation ≡ serving.old.generation }
{
    let least = settle.least.min(mark);
    if usize::from(settle.next) + 1 == count {
        serving.settles.remove(&id);
        return StoreNote::Settled(least);
    }
    if let Some(kept) = serving.settles.get_mut(&id) {
        *kept = Settle {
            begun: settle.begun,
            next: settle.next + 1,
            least,
        };
    }
    StoreNote::Turned
}
