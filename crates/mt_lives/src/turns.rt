//! The parts of a turn that are a log's: it is followed by its next one, it is settled, its older one is given up.

ghost use Rattle.std.specs.Prelude.{◌≡◌, ◌<◌, ◌≤◌, true, length, Some, IfOk, IfErr};
ghost use Rattle.mt_rows.specs.Accounts.{Accounts};
ghost use Rattle.mt_disk.specs.{declared.mem.MemDisk.{MemDisk as AnyDisk}, Mem.mem_state};
ghost use Rattle.mt_store_logs.specs.Places.{worker_of, workers_of, AreInOrder};
ghost use Rattle.mt_stored.specs.Begins.{BringsUpAndBegins, FailsToBringUpAndBegin};
ghost use Rattle.mt_lives.specs.{declared.live_slots.LiveSlots.TheVariants.{Turns as TurnsNow}, declared.live_slots.TurnStage.TheVariants.{Begins, Settles, GivesUp}};
ghost use Rattle.mt_lives.specs.declared.events.StoreEvent.TheVariants.{CheckStep};
ghost use Rattle.mt_lives.specs.{Serving.DrainsServing, Steps.{IsHeldBy, GoesOn}, Forced.IsStepForced, Parts.{turn_at, ComesAfter}};

use crate::checks::begin_writing;
use crate::events::StoreNote;
use crate::live_slots::{LiveSlots, Turn, TurnStage};
use crate::serving::{Serving, Settle};
use crate::settles::bring_up_log;
use mt_disk::MemDisk;
use mt_rows::{Refusal, Tenants};
use mt_slots::StoreSlots;
use mt_store_logs::StoreLog;
use mt_stored::bring_up_and_begin;
use std::alloc::Global;

/// Makes the part of a turn that is the next log's. After the last log has begun its next one, the checkpoint begins.
pub(crate) fn step_turn(
    alloc: Global,
    tenants: &Tenants,
    logs: &mut [StoreLog<MemDisk>],
    turn: Turn,
    serving: &mut Serving,
) -> (LiveSlots, StoreNote)
    requires held { IsHeldBy (TurnsNow turn) logs.old (Some serving.old) }
    requires order { AreInOrder logs.old }
    ensures count { length logs.new ≡ length logs.old }
    ensures workers { workers_of logs.new ≡ workers_of logs.old }
    ensures goes { GoesOn tenants.now (TurnsNow turn) result.0 CheckStep result.1 logs.old (Some serving.old) logs.new (Some serving.new) }
    ensures forced { IsStepForced result.1 (TurnsNow turn) result.0 logs.old logs.new }
{
    let Turn { slots, stage } = turn;
    match stage {
        TurnStage::Begins(log) => begin_at(alloc, tenants, logs, slots, log, serving),
        TurnStage::Settles(settle) => settle_at(alloc, logs, slots, settle, serving),
        TurnStage::GivesUp(log) => give_up_at(logs, slots, log, serving),
    }
}

// A log is brought up to date and followed by its next one. After the last log the checkpoint begins.
fn begin_at(
    alloc: Global,
    tenants: &Tenants,
    logs: &mut [StoreLog<MemDisk>],
    slots: StoreSlots<MemDisk>,
    log: u8,
    serving: &mut Serving,
) -> (LiveSlots, StoreNote)
    requires held { IsHeldBy (TurnsNow (turn_at slots (Begins log))) logs.old (Some serving.old) }
    requires order { AreInOrder logs.old }
    ensures count { length logs.new ≡ length logs.old }
    ensures workers { workers_of logs.new ≡ workers_of logs.old }
    ensures goes { GoesOn tenants.now (TurnsNow (turn_at slots (Begins log))) result.0 CheckStep result.1 logs.old (Some serving.old) logs.new (Some serving.new) }
    ensures forced { IsStepForced result.1 (TurnsNow (turn_at slots (Begins log))) result.0 logs.old logs.new }
{
    let place = usize::from(log);
    let steps = serving.state.steps();
    if place == logs.len() {
        return begin_writing(alloc, tenants, slots, log, steps);
    }
    let generation = serving.generation;
    match begin_log(alloc, &mut logs[place], serving, log, steps, generation) {
        Ok(_) => (
            LiveSlots::Turns(Turn {
                slots,
                stage: TurnStage::Begins(log + 1),
            }),
            StoreNote::CheckTurned,
        ),
        Err(refusal) => (LiveSlots::Rest(slots), StoreNote::Refused(refusal)),
    }
}

// A log is settled.
fn settle_at(
    alloc: Global,
    logs: &mut [StoreLog<MemDisk>],
    slots: StoreSlots<MemDisk>,
    settle: Settle,
    serving: &mut Serving,
) -> (LiveSlots, StoreNote)
    requires held { IsHeldBy (TurnsNow (turn_at slots (Settles settle))) logs.old (Some serving.old) }
    requires order { AreInOrder logs.old }
    ensures count { length logs.new ≡ length logs.old }
    ensures workers { workers_of logs.new ≡ workers_of logs.old }
    ensures goes { (accounts : Accounts) → GoesOn accounts (TurnsNow (turn_at slots (Settles settle))) result.0 CheckStep result.1 logs.old (Some serving.old) logs.new (Some serving.new) }
    ensures forced { IsStepForced result.1 (TurnsNow (turn_at slots (Settles settle))) result.0 logs.old logs.new }
{
    let place = usize::from(settle.next);
    let steps = serving.state.steps();
    match bring_up_log(alloc, &mut logs[place], serving, settle.next, steps) {
        Ok(mark) => (
            LiveSlots::Turns(Turn {
                slots,
                stage: after(settle, mark, logs.len()),
            }),
            StoreNote::CheckTurned,
        ),
        Err(refusal) => (LiveSlots::Rest(slots), StoreNote::Refused(refusal)),
    }
}

// The older log of a worker is given up. After the last one the turn has ended.
fn give_up_at(
    logs: &mut [StoreLog<MemDisk>],
    slots: StoreSlots<MemDisk>,
    log: u8,
    serving: &mut Serving,
) -> (LiveSlots, StoreNote)
    requires held { IsHeldBy (TurnsNow (turn_at slots (GivesUp log))) logs.old (Some serving.old) }
    requires order { AreInOrder logs.old }
    ensures count { length logs.new ≡ length logs.old }
    ensures workers { workers_of logs.new ≡ workers_of logs.old }
    ensures goes { (accounts : Accounts) → GoesOn accounts (TurnsNow (turn_at slots (GivesUp log))) result.0 CheckStep result.1 logs.old (Some serving.old) logs.new (Some serving.new) }
    ensures forced { IsStepForced result.1 (TurnsNow (turn_at slots (GivesUp log))) result.0 logs.old logs.new }
{
    let place = usize::from(log);
    if let Err(refusal) = logs[place].give_up_older() {
        return (LiveSlots::Rest(slots), StoreNote::Refused(refusal));
    }
    if place + 1 == logs.len() {
        serving.turn_on();
        return (LiveSlots::Rest(slots), StoreNote::TurnEnded);
    }
    (
        LiveSlots::Turns(Turn {
            slots,
            stage: TurnStage::GivesUp(log + 1),
        }),
        StoreNote::CheckTurned,
    )
}

// Brings a log up to a step at least, and begins its log of a generation, if it has none. Returns the step up to which it goes.
fn begin_log(
    alloc: Global,
    log: &mut StoreLog<MemDisk>,
    serving: &mut Serving,
    worker: u8,
    upto: u64,
    generation: u64,
) -> Result<u64, Refusal>
    requires whose { worker_of log.old ≡ worker }
    requires served { worker < length serving.old.state.logs }
    requires made { upto ≤ serving.old.state.steps }
    ensures ok { IfOk result (λ mark. BringsUpAndBegins (λ (d : AnyDisk). true) mem_state (λ d. d.failures) DrainsServing upto generation mark log.old log.new serving.old serving.new) }
    ensures worker { worker_of log.new ≡ worker_of log.old }
    ensures err { IfErr result (λ e. FailsToBringUpAndBegin (λ (d : AnyDisk). true) mem_state (λ d. d.failures) DrainsServing upto generation e log.old log.new serving.old serving.new) }
{
    match bring_up_and_begin(alloc, log, serving, upto, generation) {
        Ok(flushed) => Ok(flushed.mark()),
        Err(refusal) => Err(refusal),
    }
}

// What comes after a log was settled that goes up to this step.
fn after(settle: Settle, mark: u64, count: usize) -> TurnStage
    requires next { settle.next < count }
    requires few { count ≤ 64 }
    ensures { ComesAfter count settle mark result }
{
    if usize::from(settle.next) + 1 == count {
        return TurnStage::GivesUp(0);
    }
    TurnStage::Settles(Settle {
        begun: settle.begun,
        next: settle.next + 1,
        least: settle.least.min(mark),
    })
}
