//! Calls: a command begun, stepped and answered, period by period, over any desk.

ghost use Rattle.std.specs.Prelude.{◌≡◌, ◌+◌, ◌<◌, ◌≤◌, [], None, max, IfOk, OnErr};
ghost use Rattle.mt_book.specs.{Periods.{IsOfWorker, room_of, least_room}, Calls.{Asked, IsOpeningOf, Calls, Begins, Ends, Led, Gated, IsTaken, asked_by, answers_of}};

use crate::desks::{Admission, Admitted, Desk, Stepping, Taken, Taking};
use crate::gates::{Gate, passed};
use crate::passes::{Aside, Pass};
use mt_core::{Displaced, Opening, Ticket, prepare_in};
use mt_operation::Phase;
use mt_rows::{Command, Refusal};
use mt_runs::Answer;
use mt_state::Move;
use std::alloc::{AllocError, Global};
use std::sync::Wait;
use std::sync::ledger::Ledger;
use std::thread;
use std::time::Clock;

/// Why a call has no answer.
#[derive(Drop)]
pub enum CallFault {
    /// Nothing was begun.
    Refused(Refusal),
    /// All step numbers are given; the operation stands where it is.
    Spent(Ticket),
}

// An operation that was begun, what its next step does, and how many steps were shown then.
#[derive(Drop)]
struct Begun {
    ticket: Ticket,
    phase: Phase,
    shown: u64,
}

// So many writes that the last period of a call displaces are freed after that.
const ROOM: usize = 4;

// What a call sets aside: its command, and a list that is empty and has room. It is the memory of the pass's
// last call, if there is some, and what that call left there is freed. An error drops that memory.
fn set_aside(alloc: Global, kept: Option<Aside>, command: &Command) -> Result<Aside, AllocError>
    ensures command { IfOk result (λ aside. aside.command ≡ command.now) }
    ensures empty { IfOk result (λ aside. (aside.displaced.writes.items ≡ []) × (aside.displaced.rest ≡ None)) }
    ensures room { IfOk result (λ aside. least_room ≤ room_of aside.displaced) }
{
    match kept {
        Some(mut aside) => {
            aside.command.copy_from(command)?;
            aside.displaced.clear();
            if aside.displaced.writes.capacity() < ROOM {
                aside.displaced = Displaced::with_room(alloc, ROOM)?;
            }
            Ok(aside)
        }
        None => Ok(Aside {
            command: command.copied()?,
            displaced: Displaced::with_room(alloc, ROOM)?,
            over: None,
        }),
    }
}

// Looks again for ever.
fn never<T, L: Ledger, R: Wait + Clock, D: Desk<L>>(rt: &R, desk: &mut D) -> T
    ensures { ⊥ }
{
    for _ in rt.forever() {
        let _ = desk.look(rt);
        thread::yield_now();
    }
    unreachable!()
}

// Begins the operation, as soon as the desk has made the steps that the pass saw.
fn start<L: Ledger, R: Wait + Clock, D: Desk<L>>(
    rt: &R,
    desk: &mut D,
    pass: &Pass<L>,
    opening: Opening,
) -> Result<Begun, Refusal>
    requires { IsOfWorker pass.now.worker opening.made }
    ensures { Begins D.does desk.old desk.new pass.now.seen pass.now.worker opening result }
{
    let mut opening = opening;
    for _ in rt.forever() {
        let Admission {
            steps,
            logs: _,
            told,
        } = desk.admit(rt, pass, opening);
        match told {
            Admitted::Early(back) => {
                opening = back;
                thread::yield_now();
            }
            Admitted::Begun(ticket, phase) => {
                let shown = steps;
                return Ok(Begun {
                    ticket,
                    phase,
                    shown,
                });
            }
            Admitted::Refused(refusal) => return Err(refusal),
        }
    }
    unreachable!()
}

// Steps the operation to its end: whether it is done, or else all step numbers are given.
fn stepped<L: Ledger, R: Wait + Clock, D: Desk<L>, G: Gate>(
    rt: &R,
    desk: &mut D,
    pass: &Pass<L>,
    gate: &G,
    ticket: &Ticket,
    phase: Phase,
    shown: u64,
) -> bool
    ensures { Led (Gated D.does (G.turned gate.now)) desk.old desk.new (Ends pass.now.seen ticket.now.id shown phase result) }
{
    let mut next = phase;
    let mut last = shown;
    for _ in rt.forever() {
        let turned = passed(gate, ticket.id(), next, last);
        let Stepping {
            steps,
            move_made,
            phase,
        } = desk.step(rt, pass, turned, ticket);
        next = phase.unwrap_or(next);
        match move_made {
            Some(Move::Done) => return true,
            Some(Move::Spent) => return false,
            Some(Move::NoSuch) => return never(rt, desk),
            Some(Move::Moved) => {}
            Some(Move::Again { holder: _ }) => thread::yield_now(),
            Some(Move::NoMemory) => thread::yield_now(),
            None => thread::yield_now(),
        }
        last = steps;
    }
    unreachable!()
}

// Takes the answer.
fn answered<L: Ledger, R: Wait + Clock, D: Desk<L>>(
    rt: &R,
    desk: &mut D,
    pass: &mut Pass<L>,
    ticket: Ticket,
    displaced: &mut Displaced,
) -> Answer
    requires { least_room ≤ room_of displaced.old }
    ensures taken { Led D.does desk.old desk.new (IsTaken pass.old.seen ticket.id result) }
    ensures share { pass.new.share.amount ≡ pass.old.share.amount + 1 }
    ensures worker { pass.new.worker ≡ pass.old.worker }
    ensures seen { pass.new.seen ≡ pass.old.seen }
{
    let mut ticket = ticket;
    for _ in rt.forever() {
        let Taking { steps: _, told } = desk.take(rt, pass, ticket, displaced);
        match told {
            Taken::Early(back) => {
                ticket = back;
                thread::yield_now();
            }
            Taken::Open(_) => return never(rt, desk),
            Taken::Answered(answer) => return answer,
        }
    }
    unreachable!()
}

// The answer, where it is one to the command, begun behind these steps; a desk that gives another one
// lies, and is looked at for ever.
fn believed<L: Ledger, R: Wait + Clock, D: Desk<L>>(
    rt: &R,
    desk: &mut D,
    answer: Answer,
    command: &Command,
    seen: u64,
) -> Answer
    ensures desk { desk.new ≡ desk.old }
    ensures answer { result ≡ answer }
    ensures command { answer.command ≡ command.now }
    ensures later { seen < answer.first }
{
    if !answer.command.is_same(command) || answer.first <= seen {
        return never(rt, desk);
    }
    answer
}

// Begins the operation of an opening, steps it to its end and takes its answer.
fn ran<L: Ledger, R: Wait + Clock, D: Desk<L>, G: Gate>(
    rt: &R,
    desk: &mut D,
    pass: &mut Pass<L>,
    opening: Opening,
    gate: &G,
    aside: &mut Aside,
) -> Result<Answer, CallFault>
    requires worker { IsOfWorker pass.old.worker opening.made }
    requires room { least_room ≤ room_of aside.old.displaced }
    ensures gated { (asked : Asked) → asked.worker ≡ pass.old.worker → IsOpeningOf asked opening → Calls (Gated D.does (G.turned gate.now)) desk.old desk.new pass.old.seen asked result }
    ensures command { IfOk result (λ answer. answer.command ≡ aside.old.command) }
    ensures later { IfOk result (λ answer. pass.old.seen < answer.first) }
    ensures seen { IfOk result (λ answer. pass.new.seen ≡ max pass.old.seen answer.last) }
    ensures unseen { OnErr result (pass.new.seen ≡ pass.old.seen) }
    ensures share { pass.new.share.amount ≡ pass.old.share.amount + answers_of result }
    ensures worker { pass.new.worker ≡ pass.old.worker }
{
    let Begun {
        ticket,
        phase,
        shown,
    } = match start(rt, desk, pass, opening) {
        Ok(begun) => begun,
        Err(refusal) => return Err(CallFault::Refused(refusal)),
    };
    if !stepped(rt, desk, pass, gate, &ticket, phase, shown) {
        return Err(CallFault::Spent(ticket));
    }
    let answer = answered(rt, desk, pass, ticket, &mut aside.displaced);
    let answer = believed(rt, desk, answer, &aside.command, pass.seen);
    pass.seen = pass.seen.max(answer.last);
    Ok(answer)
}

/// Runs a command to its answer: a begin, its steps and a take, each in a lock period of its own,
/// with the gate called before each step while the lock is free, with the phase that the period before
/// showed. All that the begin needs of the command is made before the first period. The last one tidies with
/// room for four writes, and what it displaces is freed after it; the memory for that stays with the pass.
///
/// Errors: the refusal of the begin, or `Memory` before it; `Spent` with the ticket. A desk that shows
/// fewer steps than the pass saw, or too few logs, is asked again; one that lost the operation, or gives
/// another's answer, is never believed: the call looks again for ever, in periods that do nothing.
pub fn call<L: Ledger, R: Wait + Clock, D: Desk<L>, G: Gate>(
    rt: &R,
    alloc: Global,
    desk: &mut D,
    pass: &mut Pass<L>,
    tenant: u32,
    command: Command,
    gate: &G,
) -> Result<Answer, CallFault>
    ensures periods { Calls D.does desk.old desk.new pass.old.seen (asked_by pass.old.worker tenant command) result }
    ensures gated { Calls (Gated D.does (G.turned gate.now)) desk.old desk.new pass.old.seen (asked_by pass.old.worker tenant command) result }
    ensures command { IfOk result (λ answer. answer.command ≡ command) }
    ensures later { IfOk result (λ answer. pass.old.seen < answer.first) }
    ensures seen { IfOk result (λ answer. pass.new.seen ≡ max pass.old.seen answer.last) }
    ensures unseen { OnErr result (pass.new.seen ≡ pass.old.seen) }
    ensures share { pass.new.share.amount ≡ pass.old.share.amount + answers_of result }
    ensures worker { pass.new.worker ≡ pass.old.worker }
{
    let Ok(mut aside) = set_aside(alloc, pass.aside.take(), &command) else {
        return Err(CallFault::Refused(Refusal::Memory));
    };
    let opening = prepare_in(alloc, aside.over.take(), pass.worker, tenant, command);
    let told = ran(rt, desk, pass, opening, gate, &mut aside);
    aside.clear(alloc);
    pass.aside = Some(aside);
    told
}
