//! Turns of a store that serves, and the checkpoint of each: a walk over all its pairs, by scans beside other operations.
//!
//! A scan of the walk is an operation of worker 0. Its name is as far below 2^64 as names were given before, so no two
//! scans have one name. A turn whose scan is not begun, or ends without pairs, is given up.

ghost use Rattle.std.specs.{Prelude.{◌≡◌, ◌<◌, ◌≤◌, ◌^◌, ◌↔◌, IsTrue, List, length, Some, IfOk, OnOk, slice_get}, List.All};
ghost use Rattle.mt_rows.specs.{Accounts.{Accounts, numbers_of}, Commands.IsKey};
ghost use Rattle.mt_disk.specs.declared.mem.MemDisk.{MemDisk as AnyDisk};
ghost use Rattle.mt_store_logs.specs.{declared.store_log.StoreLog.{StoreLog as AnyLog}, Places.{workers_of, AreInOrder}};
ghost use Rattle.mt_lives.specs.declared.live_slots.LiveSlots.TheVariants.{Rest, Turns as TurnsNow, Writes};
ghost use Rattle.mt_lives.specs.declared.live_slots.TurnStage.TheVariants.{Begins as BeginsAt};
ghost use Rattle.mt_lives.specs.declared.live_slots.CheckStage.TheVariants.{Begins as BeginsNext, Scans as ScansBy, Adds as AddsThese};
ghost use Rattle.mt_lives.specs.declared.events.StoreEvent.TheVariants.{CheckBegin, CheckStep};
ghost use Rattle.mt_lives.specs.{declared.serving.Serving.{Serving as AnyServing}, Checks.{check_with, AfterBegin, AfterStep, AfterReply}};
ghost use Rattle.mt_lives.specs.{Steps.{IsHeldBy, GoesOn}, Forced.{IsBeginForced, IsStepForced, IsWriteForced}};
ghost use Rattle.mt_lives.specs.Parts.{turn_at, GoesBy, AreSettledBy, AreFree};

use crate::events::StoreNote;
use crate::live_slots::{Check, CheckStage, LiveSlots, Turn, TurnStage};
use crate::operations::core;
use crate::serving::{Serving, Settle};
use crate::turns::step_turn;
use mt_disk::MemDisk;
use mt_pages::PageWalk;
use mt_rows::{Refusal, Reply, TenantPair, Tenants};
use mt_runs::{Event, Told};
use mt_slots::{Checkpointing, StoreSlots};
use mt_store_logs::StoreLog;
use std::alloc::{AllocError, Global};
use std::mem;

/// Begins a turn, unless the store doesn't serve, one is made, there are no tenants, or the newest checkpoint is not settled.
pub(crate) fn begin_check(
    alloc: Global,
    tenants: &Tenants,
    logs: &[StoreLog<MemDisk>],
    slots: &mut LiveSlots,
    serving: &Option<Serving>,
) -> StoreNote
    ensures goes { GoesOn tenants.now slots.old slots.new CheckBegin result logs.now serving.now logs.now serving.now }
    ensures forced { IsBeginForced tenants.now logs.now serving.now result slots.old slots.new }
{
    let Some(serving) = serving else {
        return StoreNote::NoSuch;
    };
    if !are_free(logs, slots) {
        return StoreNote::NoSuch;
    }
    match has_tenants(alloc, tenants) {
        Ok(true) => {
            slots.begin_turn();
            StoreNote::CheckBegun(serving.state.steps())
        }
        Ok(false) => StoreNote::NoSuch,
        Err(AllocError) => StoreNote::Refused(Refusal::Memory),
    }
}

// Whether there are any.
fn has_tenants(alloc: Global, tenants: &Tenants) -> Result<bool, AllocError>
    ensures { IfOk result (λ some. IsTrue some ↔ (0 < length (numbers_of tenants.now))) }
{
    let numbers = tenants.numbers(alloc)?;
    Ok(!numbers.is_empty())
}

// Whether no turn is made, and the newest checkpoint is settled.
fn are_free(logs: &[StoreLog<MemDisk>], slots: &LiveSlots) -> bool
    ensures { IsTrue result ↔ AreFree logs.now slots.now }
{
    match slots {
        LiveSlots::Rest(slots) => are_settled(logs, slots.owed()),
        LiveSlots::Turns(_) | LiveSlots::Writes(_) | LiveSlots::Away => false,
    }
}

// Whether every log goes by what is owed, if anything is.
fn are_settled(logs: &[StoreLog<MemDisk>], owed: u64) -> bool
    ensures { IsTrue result ↔ AreSettledBy owed logs.now }
{
    owed == 0 || logs.iter().all(|log| goes_by(log, owed))
}

// Whether a log is open and goes up to a step.
fn goes_by(log: &StoreLog<MemDisk>, step: u64) -> bool
    ensures { IsTrue result ↔ GoesBy step log.now }
{
    match log.mark() {
        Some(mark) => step <= mark,
        None => false,
    }
}

/// Begins the checkpoint of a turn after so many steps: all logs have begun their next ones.
pub(crate) fn begin_writing(
    alloc: Global,
    tenants: &Tenants,
    slots: StoreSlots<MemDisk>,
    log: u8,
    steps: u64,
) -> (LiveSlots, StoreNote)
    ensures goes { (logs : List (AnyLog AnyDisk)) (serving : AnyServing) → length logs ≡ log → serving.state.steps ≡ steps
        → GoesOn tenants.now (TurnsNow (turn_at slots (BeginsAt log))) result.0 CheckStep result.1 logs (Some serving) logs (Some serving) }
    ensures forced { (logs : List (AnyLog AnyDisk)) → length logs ≡ log → IsStepForced result.1 (TurnsNow (turn_at slots (BeginsAt log))) result.0 logs logs }
{
    let numbers = match tenants.numbers(alloc) {
        Ok(numbers) => numbers,
        Err(AllocError) => {
            return (LiveSlots::Rest(slots), StoreNote::Refused(Refusal::Memory));
        }
    };
    match slots.begin(steps) {
        Ok(writing) => {
            let check = Check {
                writing,
                walk: PageWalk::new(alloc, numbers),
                stage: CheckStage::Begins,
            };
            (LiveSlots::Writes(check), StoreNote::CheckWrites(steps))
        }
        Err((_, slots)) => (LiveSlots::Rest(slots), StoreNote::Refused(Refusal::Device)),
    }
}

/// Makes the next part of a turn, if the store serves and one is made.
pub(crate) fn step_check(
    alloc: Global,
    tenants: &Tenants,
    logs: &mut [StoreLog<MemDisk>],
    slots: &mut LiveSlots,
    serving: &mut Option<Serving>,
) -> Result<StoreNote, AllocError>
    requires held { IsHeldBy slots.old logs.old serving.old }
    requires order { AreInOrder logs.old }
    ensures count { OnOk result (length logs.new ≡ length logs.old) }
    ensures workers { OnOk result (workers_of logs.new ≡ workers_of logs.old) }
    ensures goes { IfOk result (λ note. GoesOn tenants.now slots.old slots.new CheckStep note logs.old serving.old logs.new serving.new) }
    ensures forced { IfOk result (λ note. IsStepForced note slots.old slots.new logs.old logs.new) }
{
    match serving {
        Some(serving) => step_serving(alloc, tenants, logs, slots, serving),
        None => Ok(StoreNote::NoSuch),
    }
}

// The same of a store that serves.
fn step_serving(
    alloc: Global,
    tenants: &Tenants,
    logs: &mut [StoreLog<MemDisk>],
    slots: &mut LiveSlots,
    serving: &mut Serving,
) -> Result<StoreNote, AllocError>
    requires held { IsHeldBy slots.old logs.old (Some serving.old) }
    requires order { AreInOrder logs.old }
    ensures count { OnOk result (length logs.new ≡ length logs.old) }
    ensures workers { OnOk result (workers_of logs.new ≡ workers_of logs.old) }
    ensures goes { IfOk result (λ note. GoesOn tenants.now slots.old slots.new CheckStep note logs.old (Some serving.old) logs.new (Some serving.new)) }
    ensures forced { IfOk result (λ note. IsStepForced note slots.old slots.new logs.old logs.new) }
{
    match mem::replace(slots, LiveSlots::Away) {
        LiveSlots::Rest(rest) => {
            *slots = LiveSlots::Rest(rest);
            Ok(StoreNote::NoSuch)
        }
        LiveSlots::Turns(turn) => {
            let (now, note) = step_turn(alloc, tenants, logs, turn, serving);
            *slots = now;
            Ok(note)
        }
        LiveSlots::Writes(check) => {
            let (now, note) = next(alloc, check, serving)?;
            *slots = now;
            Ok(note)
        }
        LiveSlots::Away => Ok(StoreNote::NoSuch),
    }
}

// What comes next.
fn next(
    alloc: Global,
    check: Check,
    serving: &mut Serving,
) -> Result<(LiveSlots, StoreNote), AllocError>
    requires { (logs : List (AnyLog AnyDisk)) × IsHeldBy (Writes check) logs (Some serving.old) }
    ensures goes { IfOk result (λ r. (accounts : Accounts) (logs : List (AnyLog AnyDisk)) → GoesOn accounts (Writes check) r.0 CheckStep r.1 logs (Some serving.old) logs (Some serving.new)) }
    ensures forced { IfOk result (λ r. IsWriteForced r.1 (Writes check) r.0) }
{
    let Check {
        writing,
        walk,
        stage,
    } = check;
    match stage {
        CheckStage::Begins => begin_scan(alloc, writing, walk, serving),
        CheckStage::Scans(name) => step_scan(alloc, writing, walk, name, serving),
        CheckStage::Adds(pairs) => Ok(add(alloc, writing, walk, pairs)),
    }
}

// Begins the walk's next scan. After the last one the checkpoint ends.
fn begin_scan(
    alloc: Global,
    writing: Checkpointing<MemDisk>,
    walk: PageWalk,
    serving: &mut Serving,
) -> Result<(LiveSlots, StoreNote), AllocError>
    requires { (logs : List (AnyLog AnyDisk)) × IsHeldBy (Writes (check_with writing walk BeginsNext)) logs (Some serving.old) }
    ensures goes { IfOk result (λ r. (accounts : Accounts) (logs : List (AnyLog AnyDisk)) → GoesOn accounts (Writes (check_with writing walk BeginsNext)) r.0 CheckStep r.1 logs (Some serving.old) logs (Some serving.new)) }
    ensures forced { IfOk result (λ r. IsWriteForced r.1 (Writes (check_with writing walk BeginsNext)) r.0) }
{
    let scan = match walk.next(alloc) {
        Ok(scan) => scan,
        Err(AllocError) => {
            return Ok((
                LiveSlots::Rest(writing.give_up()),
                StoreNote::Refused(Refusal::Memory),
            ));
        }
    };
    match scan {
        Some((tenant, command)) => {
            let name = u64::MAX - serving.roster.tickets.len() as u64;
            let begin = Event::Begin {
                op: name,
                worker: 0,
                tenant,
                command,
            };
            let told = core(serving, &begin)?;
            let slots = after_begin(writing, walk, name, &told);
            Ok((slots, StoreNote::CheckTold(told)))
        }
        None => {
            let last = serving.state.steps();
            Ok(end(alloc, writing, walk, last))
        }
    }
}

// What comes after a scan was begun by a name, or was not.
fn after_begin(writing: Checkpointing<MemDisk>, walk: PageWalk, name: u64, told: &Told) -> LiveSlots
    ensures { AfterBegin writing walk name told.now result }
{
    match told {
        Told::Begun => LiveSlots::Writes(Check {
            writing,
            walk,
            stage: CheckStage::Scans(name),
        }),
        _ => LiveSlots::Rest(writing.give_up()),
    }
}

// Ends the checkpoint after so many steps. All logs are settled next.
fn end(
    alloc: Global,
    writing: Checkpointing<MemDisk>,
    walk: PageWalk,
    last: u64,
) -> (LiveSlots, StoreNote)
    requires few { last ≤ 2 ^ 59 }
    requires held { (logs : List (AnyLog AnyDisk)) × (serving : AnyServing) × IsHeldBy (Writes (check_with writing walk BeginsNext)) logs (Some serving)
        × (serving.state.steps ≡ last) × (slice_get walk.tenants.items walk.place ≡ None) }
    ensures goes { (accounts : Accounts) (logs : List (AnyLog AnyDisk)) (serving : AnyServing) → serving.state.steps ≡ last → slice_get walk.tenants.items walk.place ≡ None
        → GoesOn accounts (Writes (check_with writing walk BeginsNext)) result.0 CheckStep result.1 logs (Some serving) logs (Some serving) }
    ensures forced { IsWriteForced result.1 (Writes (check_with writing walk BeginsNext)) result.0 }
{
    let _walk = walk;
    match writing.end(alloc, last) {
        Ok((slots, _)) => (
            LiveSlots::Turns(Turn {
                slots,
                stage: TurnStage::Settles(Settle {
                    begun: last,
                    next: 0,
                    least: u64::MAX,
                }),
            }),
            StoreNote::CheckEnded(last),
        ),
        Err((fault, slots)) => (
            LiveSlots::Rest(slots),
            StoreNote::Refused(fault.cause.refusal()),
        ),
    }
}

// Makes a step of the walk's scan.
fn step_scan(
    alloc: Global,
    writing: Checkpointing<MemDisk>,
    walk: PageWalk,
    name: u64,
    serving: &mut Serving,
) -> Result<(LiveSlots, StoreNote), AllocError>
    requires { (logs : List (AnyLog AnyDisk)) × IsHeldBy (Writes (check_with writing walk (ScansBy name))) logs (Some serving.old) }
    ensures goes { IfOk result (λ r. (accounts : Accounts) (logs : List (AnyLog AnyDisk)) → GoesOn accounts (Writes (check_with writing walk (ScansBy name))) r.0 CheckStep r.1 logs (Some serving.old) logs (Some serving.new)) }
    ensures forced { IfOk result (λ r. IsWriteForced r.1 (Writes (check_with writing walk (ScansBy name))) r.0) }
{
    let told = core(serving, &Event::Step { op: name })?;
    let slots = after_step(alloc, writing, walk, name, &told);
    Ok((slots, StoreNote::CheckTold(told)))
}

// What comes after a step of the scan of a name.
fn after_step(
    alloc: Global,
    writing: Checkpointing<MemDisk>,
    walk: PageWalk,
    name: u64,
    told: &Told,
) -> LiveSlots
    ensures { AfterStep writing walk name told.now result }
{
    match told {
        Told::Done(answer) => after_reply(alloc, writing, walk, &answer.reply),
        Told::Moved | Told::Again(_) | Told::NoMemory | Told::Spent => LiveSlots::Writes(Check {
            writing,
            walk,
            stage: CheckStage::Scans(name),
        }),
        Told::Begun | Told::Refused(_) | Told::NoSuch => LiveSlots::Rest(writing.give_up()),
    }
}

// What comes after the scan's reply.
fn after_reply(
    alloc: Global,
    writing: Checkpointing<MemDisk>,
    mut walk: PageWalk,
    reply: &Reply,
) -> LiveSlots
    ensures { AfterReply writing walk reply.now result }
{
    let Reply::Pairs(page) = reply else {
        return LiveSlots::Rest(writing.give_up());
    };
    match walk.take(alloc, page) {
        Ok(pairs) => LiveSlots::Writes(Check {
            writing,
            walk,
            stage: CheckStage::Adds(pairs),
        }),
        Err(AllocError) => LiveSlots::Rest(writing.give_up()),
    }
}

// Adds the pairs of a page.
fn add(
    alloc: Global,
    writing: Checkpointing<MemDisk>,
    walk: PageWalk,
    pairs: Vec<TenantPair>,
) -> (LiveSlots, StoreNote)
    requires keys { All (λ p. IsKey p.key) pairs.items }
    requires held { (logs : List (AnyLog AnyDisk)) × (serving : AnyServing) × IsHeldBy (Writes (check_with writing walk (AddsThese pairs))) logs (Some serving) }
    ensures goes { (accounts : Accounts) (logs : List (AnyLog AnyDisk)) (serving : AnyServing)
        → GoesOn accounts (Writes (check_with writing walk (AddsThese pairs))) result.0 CheckStep result.1 logs (Some serving) logs (Some serving) }
    ensures forced { IsWriteForced result.1 (Writes (check_with writing walk (AddsThese pairs))) result.0 }
{
    match writing.add(alloc, &pairs) {
        Ok(writing) => {
            let check = Check {
                writing,
                walk,
                stage: CheckStage::Begins,
            };
            (LiveSlots::Writes(check), StoreNote::CheckAdded)
        }
        Err((fault, slots)) => (
            LiveSlots::Rest(slots),
            StoreNote::Refused(fault.cause.refusal()),
        ),
    }
}
