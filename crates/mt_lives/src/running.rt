//! A run of many events on a new store, with what is noted of each.

ghost use Rattle.std.specs.{Prelude.{◌≡◌, ◌<◌, ◌≤◌, List, length, Some, IfOk, IfErr, OnOk}, List.{All, zip}};
ghost use Rattle.mt_rows.specs.Accounts.{Accounts};
ghost use Rattle.mt_disk.specs.declared.mem.MemDisk.{MemDisk as AnyDisk};
ghost use Rattle.mt_state.specs.{Begins.HaveNoPairs, Histories.IsServed};
ghost use Rattle.mt_lives.specs.declared.live_slots.LiveSlots.{LiveSlots as AnySlots};
ghost use Rattle.mt_store_logs.specs.{declared.store_log.StoreLog.{StoreLog as AnyLog}, Places.{workers_of, AreInOrder}};
ghost use Rattle.mt_lives.specs.{declared.events.StoreEvent.TheVariants.{Core, Crash}, declared.events.StoreNote.TheVariants.{Told as Answered}};
ghost use Rattle.mt_lives.specs.{Lives.{Standing, HasLives, IsMemoryOrDevice}, Holds.{quotas_of, Holds}};
ghost use Rattle.mt_lives.specs.{Steps.{IsHeld, LeavesSlots, IsServedBy, GoesOn, NotesGoOn}, Forced.{IsForced, IsForcedAll, IsDoneTo, IsDone, AreForced, AreForcedOn}};

use crate::beginnings::created;
use crate::checks::{begin_check, step_check};
use crate::crashes::crash;
use crate::events::{StoreEvent, StoreNote};
use crate::live_slots::LiveSlots;
use crate::operations::{core, step, take};
use crate::serving::Serving;
use crate::settles::{begin_settle, flush_at, go_on, reopen_at};
use mt_disk::MemDisk;
use mt_log_files::WorkerFiles;
use mt_rows::{Refusal, Tenants};
use mt_slots::StoreSlots;
use mt_store_logs::StoreLog;
use std::alloc::{AllocError, Global};
use std::marker::Model;

/// A store: its logs, the slots of its checkpoints, and what it has while it serves.
#[derive(Drop)]
pub struct Store {
    pub logs: Vec<StoreLog<MemDisk>>,
    pub slots: LiveSlots,
    pub serving: Option<Serving>,
}

/// What is noted of the events of a run, in their order.
#[derive(Debug, Drop)]
pub struct NoteList {
    notes: Vec<StoreNote>,
}

impl Model for NoteList {
    ghost use Rattle.std.specs.Prelude.{List};
    ghost use Rattle.mt_lives.specs.declared.events.StoreNote.{StoreNote as AnyNote};

    ghost Value = { List AnyNote };

    ghost view = { λ n. n.notes.items };
}

impl NoteList {
    /// The notes.
    pub fn as_slice(&self) -> &[StoreNote]
        ensures { result.now ≡ self.now }
    {
        &self.notes
    }
}

/// Makes the logs of a new store, one on the files of each worker, and then its slots, lets events happen to it, and
/// gives it back with what is noted of each.
///
/// Errors: `Device` if a log or a slot is not made; `Memory` if the run's own lists are refused memory.
pub fn run_store_events(
    alloc: Global,
    tenants: &Tenants,
    files: Vec<WorkerFiles<MemDisk>>,
    slots: StoreSlots<MemDisk>,
    events: &[StoreEvent],
) -> Result<(Store, NoteList), Refusal>
    requires some { 0 < length files.items }
    requires few { length files.items ≤ 64 }
    requires empty { HaveNoPairs tenants.now }
    requires workers { All (IsServedBy (length files.items)) events.now }
    ensures lives { IfOk result (λ r. HasLives (quotas_of tenants.now) (zip events.now r.1)) }
    ensures count { IfOk result (λ r. length r.1 ≡ length events.now) }
    ensures forced { IfOk result (λ r. AreForcedOn tenants.now (zip events.now r.1) files.items slots r.0) }
    ensures err { IfErr result IsMemoryOrDevice }
{
    let mut store = created(alloc, tenants, files, slots)?;
    let notes = note_all(alloc, tenants, &mut store, events)?;
    Ok((store, NoteList { notes }))
}

// Lets events happen, one after the other.
fn note_all(
    alloc: Global,
    tenants: &Tenants,
    store: &mut Store,
    events: &[StoreEvent],
) -> Result<Vec<StoreNote>, AllocError>
    requires held { (standing : Standing) × Holds tenants.now store.old.slots standing store.old.logs.items store.old.serving }
    requires order { AreInOrder store.old.logs.items }
    requires empty { HaveNoPairs tenants.now }
    requires workers { All (IsServedBy (length store.old.logs.items)) events.now }
    ensures goes { IfOk result (λ notes. NotesGoOn tenants.now store.old.slots store.new.slots (zip events.now notes.items) store.old.logs.items store.old.serving store.new.logs.items store.new.serving) }
    ensures count { IfOk result (λ notes. length notes.items ≡ length events.now) }
    ensures forced { IfOk result (λ notes. AreForced tenants.now store.old.slots store.new.slots (zip events.now notes.items) store.old.logs.items store.old.serving store.new.logs.items store.new.serving) }
{
    let mut notes = Vec::new(alloc);
    for event in events {
        let note = happen(alloc, tenants, store, event)?;
        notes.push(note)?;
    }
    Ok(notes)
}

// Lets one event happen.
fn happen(
    alloc: Global,
    tenants: &Tenants,
    store: &mut Store,
    event: &StoreEvent,
) -> Result<StoreNote, AllocError>
    requires held { (standing : Standing) × Holds tenants.now store.old.slots standing store.old.logs.items store.old.serving }
    requires order { AreInOrder store.old.logs.items }
    requires empty { HaveNoPairs tenants.now }
    requires worker { IsServedBy (length store.old.logs.items) event.now }
    ensures count { OnOk result (length store.new.logs.items ≡ length store.old.logs.items) }
    ensures workers { OnOk result (workers_of store.new.logs.items ≡ workers_of store.old.logs.items) }
    ensures goes { IfOk result (λ note. GoesOn tenants.now store.old.slots store.new.slots event.now note store.old.logs.items store.old.serving store.new.logs.items store.new.serving) }
    ensures forced { IfOk result (λ note. IsForcedAll tenants.now store.old.slots store.new.slots event.now note store.old.logs.items store.old.serving store.new.logs.items) }
    ensures done { IfOk result (λ note. IsDone event.now note store.old.serving store.new.serving) }
{
    match event {
        StoreEvent::Crash(images) => crash(
            alloc,
            tenants,
            &mut store.logs,
            &mut store.slots,
            &mut store.serving,
            images,
        ),
        StoreEvent::CheckBegin => Ok(begin_check(
            alloc,
            tenants,
            &store.logs,
            &mut store.slots,
            &store.serving,
        )),
        StoreEvent::CheckStep => step_check(
            alloc,
            tenants,
            &mut store.logs,
            &mut store.slots,
            &mut store.serving,
        ),
        _ => match &mut store.serving {
            Some(serving) => serve(alloc, &mut store.logs, serving, event),
            None => Ok(StoreNote::NoSuch),
        },
    }
}

// Lets an event that leaves the slots alone happen to a store that serves.
fn serve(
    alloc: Global,
    logs: &mut [StoreLog<MemDisk>],
    serving: &mut Serving,
    event: &StoreEvent,
) -> Result<StoreNote, AllocError>
    requires held { IsHeld logs.old (Some serving.old) }
    requires order { AreInOrder logs.old }
    requires worker { IsServedBy (length logs.old) event.now }
    requires slots { LeavesSlots event.now }
    ensures count { OnOk result (length logs.new ≡ length logs.old) }
    ensures workers { OnOk result (workers_of logs.new ≡ workers_of logs.old) }
    ensures goes { IfOk result (λ note. (accounts : Accounts) (slots : AnySlots) → GoesOn accounts slots slots event.now note logs.old (Some serving.old) logs.new (Some serving.new)) }
    ensures forced { IfOk result (λ note. (accounts : Accounts) → IsForced accounts event.now note logs.old (Some serving.old) logs.new) }
    ensures done { IfOk result (λ note. IsDoneTo event.now note serving.old (Some serving.new)) }
{
    match event {
        StoreEvent::Core(event) => Ok(StoreNote::Told(core(serving, event)?)),
        StoreEvent::Move { op } => Ok(step(serving, *op)),
        StoreEvent::Take { op } => Ok(take(serving, *op)),
        StoreEvent::Tidy => {
            serving.tidy();
            Ok(StoreNote::Tidied)
        }
        StoreEvent::Flush { worker } => Ok(flush_at(alloc, logs, serving, *worker)),
        StoreEvent::Reopen { worker } => Ok(reopen_at(alloc, logs, *worker)),
        StoreEvent::SettleBegin { id } => begin_settle(serving, *id),
        StoreEvent::SettleNext { id } => Ok(go_on(alloc, logs, serving, *id)),
        StoreEvent::CheckBegin | StoreEvent::CheckStep | StoreEvent::Crash(_) => { unreachable!() }
    }
}
