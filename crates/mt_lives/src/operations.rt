//! Operations of a store that serves.

ghost use Rattle.std.specs.Prelude.{List, length, Some, IfOk};
ghost use Rattle.mt_rows.specs.Accounts.{Accounts};
ghost use Rattle.mt_disk.specs.declared.mem.MemDisk.{MemDisk as AnyDisk};
ghost use Rattle.mt_state.specs.Histories.{AreNamed, AreById, IsServed};
ghost use Rattle.mt_core.specs.Tickets.{named};
ghost use Rattle.mt_store_logs.specs.declared.store_log.StoreLog.{StoreLog as AnyLog};
ghost use Rattle.mt_lives.specs.declared.live_slots.LiveSlots.{LiveSlots as AnySlots};
ghost use Rattle.mt_lives.specs.{declared.events.StoreEvent.TheVariants.{Core, Move as MoveOf, Take}, declared.events.StoreNote.TheVariants.{Told as Answered}};
ghost use Rattle.mt_lives.specs.{Steps.{IsHeld, GoesOn}, Serving.{TellsServing, Moves, TakesBy, DoesServing}};

use crate::events::StoreNote;
use crate::serving::Serving;
use mt_core::{Roster, State, Ticket, tell};
use mt_runs::{Event, Told};
use mt_state::Move;
use std::alloc::AllocError;
use std::collections::BTreeMap;

/// Lets an operation begin or step.
pub(crate) fn core(serving: &mut Serving, event: &Event) -> Result<Told, AllocError>
    requires held { (logs : List (AnyLog AnyDisk)) × IsHeld logs (Some serving.old) × IsServed (length logs) event.now }
    ensures tells { IfOk result (TellsServing serving.old serving.new event.now) }
    ensures goes { IfOk result (λ told. (accounts : Accounts) (slots : AnySlots) (logs : List (AnyLog AnyDisk)) → IsServed (length logs) event.now → GoesOn accounts slots slots (Core event.now) (Answered told) logs (Some serving.old) logs (Some serving.new)) }
{
    let told = tell(&mut serving.state, &mut serving.roster, event)?;
    serving.state.facts();
    Ok(told)
}

/// Makes a step of the operation of a name. If it is the last one, its answer waits to be taken.
pub(crate) fn step(serving: &mut Serving, op: u64) -> StoreNote
    requires { (logs : List (AnyLog AnyDisk)) × IsHeld logs (Some serving.old) }
    ensures does { DoesServing serving.old serving.new (MoveOf op) result }
    ensures goes { (accounts : Accounts) (slots : AnySlots) (logs : List (AnyLog AnyDisk)) → GoesOn accounts slots slots (MoveOf op) result logs (Some serving.old) logs (Some serving.new) }
{
    let note = step_by(&mut serving.state, &serving.roster, op);
    serving.state.facts();
    note
}

/// Takes the answer of the operation of a name, if its last step was made.
pub(crate) fn take(serving: &mut Serving, op: u64) -> StoreNote
    requires { (logs : List (AnyLog AnyDisk)) × IsHeld logs (Some serving.old) }
    ensures does { DoesServing serving.old serving.new (Take op) result }
    ensures goes { (accounts : Accounts) (slots : AnySlots) (logs : List (AnyLog AnyDisk)) → GoesOn accounts slots slots (Take op) result logs (Some serving.old) logs (Some serving.new) }
{
    let note = take_by(&mut serving.state, &mut serving.roster.tickets, op);
    serving.state.facts();
    note
}

// Makes a step of it.
fn step_by(state: &mut State, roster: &Roster, op: u64) -> StoreNote
    requires named { AreNamed (named roster.now.tickets) state.old.table }
    requires by_id { AreById roster.now.names (named roster.now.tickets) }
    ensures { Moves (named roster.now.tickets) state.old state.new op result }
{
    let Some(Some(ticket)) = roster.tickets.get(&op) else {
        return StoreNote::Told(Told::NoSuch);
    };
    match state.step(ticket) {
        Move::Moved => StoreNote::Told(Told::Moved),
        Move::Again { holder } => {
            let Some(name) = roster.names.get(&holder) else {
                unreachable!()
            };
            StoreNote::Told(Told::Again(*name))
        }
        Move::NoMemory => StoreNote::Told(Told::NoMemory),
        Move::Done => StoreNote::Finished,
        Move::Spent => StoreNote::Told(Told::Spent),
        Move::NoSuch => StoreNote::Told(Told::NoSuch),
    }
}

// Takes its answer, or leaves its ticket where it was.
fn take_by(state: &mut State, tickets: &mut BTreeMap<u64, Option<Ticket>>, op: u64) -> StoreNote
    ensures { TakesBy (named tickets.old) state.old (named tickets.new) state.new op result }
{
    let Some(kept) = tickets.get_mut(&op) else {
        return StoreNote::NoSuch;
    };
    let Some(ticket) = kept.take() else {
        return StoreNote::NoSuch;
    };
    match state.take(ticket) {
        Ok(answer) => StoreNote::Took(answer),
        Err(ticket) => {
            *kept = Some(ticket);
            StoreNote::NoSuch
        }
    }
}
