//! A run of many events on a new state, with what each answered.
//!
//! Events name operations by numbers of the caller's choice; the run keeps their tickets. Errors: the
//! memory of the run's own lists; the state that it was run on is dropped then.

ghost use Rattle.std.specs.{Prelude.{◌≡◌, ◌≤◌, ◌↔◌, ℕ, IsTrue, IsSome, Some, None, [], IfOk, OnOk, length}, Ordering.nat_cmp, BTreeMap.get, List.{All, zip}};
ghost use Rattle.mt_rows.specs.Accounts.{Accounts, account_of};
ghost use Rattle.mt_runs.specs.{declared.event.Event.TheVariants.{Begin, Step}, Runs.story_of, Placings.{no_pairs, HasOneOrder}};
ghost use Rattle.mt_state.specs.{Views.quota_in, Begins.{new_state, HaveNoPairs, IsWorker, IsEnded, Takes}};
ghost use Rattle.mt_state.specs.Histories.{Renames, AreNamed, AreHeld, AreById, IsServed, TellsEvent, BringsTo, no_names, Names as AnyNames};
ghost use Rattle.mt_core.specs.Tickets.{named};

use crate::answers::Ticket;
use crate::state::State;
use mt_rows::{Command, Tenants};
use mt_runs::{Answer, Event, Told};
use mt_state::Move;
use std::alloc::{AllocError, Global};
use std::collections::BTreeMap;
use std::marker::Model;

/// What the events of a run answered, in their order.
#[derive(Debug, Drop)]
pub struct ToldList {
    told: Vec<Told>,
}

impl Model for ToldList {
    ghost use Rattle.std.specs.Prelude.{List};
    ghost use Rattle.mt_runs.specs.declared.event.Told.{Told as AnyTold};

    ghost Value = { List AnyTold };

    ghost view = { λ t. t.told.items };
}

impl ToldList {
    /// The answers.
    pub fn as_slice(&self) -> &[Told]
        ensures { result.now ≡ self.now }
    {
        &self.told
    }
}

/// The names of a run: the ticket that each stands for, till its answer is taken; and by the id of each
/// operation that is open, its name.
#[derive(Drop)]
pub struct Roster {
    pub tickets: BTreeMap<u64, Option<Ticket>>,
    pub names: BTreeMap<u64, u64>,
}

impl Roster {
    /// No names.
    pub fn new(alloc: Global) -> Self
        ensures tickets { result.tickets.entries ≡ [] }
        ensures names { result.names.entries ≡ [] }
    {
        Roster {
            tickets: BTreeMap::new(alloc),
            names: BTreeMap::new(alloc),
        }
    }
}

/// Lets events happen to a new state, and gives it back with what each answered.
///
/// A begin by a name by which one was begun before, and a step by a name whose operation is not open,
/// answer `NoSuch`. A begin that is refused leaves its name free. The answer of an operation is taken with
/// its last step.
pub fn run_events(
    alloc: Global,
    logs: u8,
    tenants: Tenants,
    events: &[Event],
) -> Result<(State, ToldList), AllocError>
    requires logs { logs ≤ 64 }
    requires empty { HaveNoPairs tenants }
    requires workers { All (IsServed logs) events.now }
    ensures headline { IfOk result (λ r. HasOneOrder (λ t. quota_in (account_of tenants t)) no_pairs (story_of 0 (zip events.now r.1))) }
    ensures count { IfOk result (λ r. length r.1 ≡ length events.now) }
    ensures run { IfOk result (λ r. (names : AnyNames) × BringsTo no_names (new_state logs tenants) (zip events.now r.1) names r.0) }
{
    let mut state = State::new(alloc, logs, tenants)?;
    let mut roster = Roster::new(alloc);
    let told = tell_all(alloc, &mut state, &mut roster, events)?;
    Ok((state, ToldList { told }))
}

// Lets events happen to a new state, one after the other.
fn tell_all(
    alloc: Global,
    state: &mut State,
    roster: &mut Roster,
    events: &[Event],
) -> Result<Vec<Told>, AllocError>
    requires new { (given : ℕ) × (accounts : Accounts) × (state.old ≡ new_state given accounts) }
    requires unnamed { roster.old.tickets.entries ≡ [] }
    requires workers { All (IsServed (length state.old.logs)) events.now }
    ensures count { IfOk result (λ told. length told.items ≡ length events.now) }
    ensures run { IfOk result (λ told. BringsTo no_names state.old (zip events.now told.items) (named roster.new.tickets) state.new) }
{
    let mut told = Vec::new(alloc);
    for event in events {
        let answer = tell(state, roster, event)?;
        told.push(answer)?;
    }
    Ok(told)
}

/// Lets one event happen to a state, by the names of its run. An error comes where memory is refused; the
/// run cannot go on then.
pub fn tell(state: &mut State, roster: &mut Roster, event: &Event) -> Result<Told, AllocError>
    requires worker { IsServed (length state.old.logs) event.now }
    requires named { AreNamed (named roster.old.tickets) state.old.table }
    requires held { AreHeld (named roster.old.tickets) state.old.table }
    requires by_id { AreById roster.old.names (named roster.old.tickets) }
    ensures logs { OnOk result (state.new.logs ≡ state.old.logs) }
    ensures by_id { OnOk result (AreById roster.new.names (named roster.new.tickets)) }
    ensures tells { IfOk result (λ told. TellsEvent (named roster.old.tickets) state.old (named roster.new.tickets) state.new event.now told) }
{
    match event {
        Event::Begin {
            op,
            worker,
            tenant,
            command,
        } => begin_by(state, roster, *op, *worker, *tenant, command),
        Event::Step { op } => Ok(step_by(state, roster, *op)),
    }
}

// Begins an operation by a name.
fn begin_by(
    state: &mut State,
    roster: &mut Roster,
    op: u64,
    worker: u8,
    tenant: u32,
    command: &Command,
) -> Result<Told, AllocError>
    requires worker { IsWorker (length state.old.logs) worker }
    requires held { AreHeld (named roster.old.tickets) state.old.table }
    requires by_id { AreById roster.old.names (named roster.old.tickets) }
    ensures logs { OnOk result (state.new.logs ≡ state.old.logs) }
    ensures by_id { OnOk result (AreById roster.new.names (named roster.new.tickets)) }
    ensures tells { IfOk result (λ told. TellsEvent (named roster.old.tickets) state.old (named roster.new.tickets) state.new (Begin op worker tenant command.now) told) }
{
    if roster.tickets.contains_key(&op) {
        return Ok(Told::NoSuch);
    }
    match state.begin(worker, tenant, command.copied()?) {
        Ok(ticket) => {
            roster.names.insert(ticket.id(), op)?;
            roster.tickets.insert(op, Some(ticket))?;
            Ok(Told::Begun)
        }
        Err(refusal) => Ok(Told::Refused(refusal)),
    }
}

// Makes one step of the operation of a name, and takes its answer with its last one.
fn step_by(state: &mut State, roster: &mut Roster, op: u64) -> Told
    requires named { AreNamed (named roster.old.tickets) state.old.table }
    requires by_id { AreById roster.old.names (named roster.old.tickets) }
    ensures logs { state.new.logs ≡ state.old.logs }
    ensures by_id { AreById roster.new.names (named roster.new.tickets) }
    ensures tells { TellsEvent (named roster.old.tickets) state.old (named roster.new.tickets) state.new (Step op) result }
{
    let Some(Some(ticket)) = roster.tickets.get(&op) else {
        return Told::NoSuch;
    };
    match state.step(ticket) {
        Move::Moved => Told::Moved,
        Move::Again { holder } => Told::Again(name_of(&roster.names, holder)),
        Move::NoMemory => Told::NoMemory,
        Move::Done => Told::Done(take_by(state, &mut roster.tickets, op)),
        Move::Spent => Told::Spent,
        Move::NoSuch => Told::NoSuch,
    }
}

// The name of the operation of an id.
fn name_of(names: &BTreeMap<u64, u64>, id: u64) -> u64
    requires { IsSome (get nat_cmp names.now id) }
    ensures { get nat_cmp names.now id ≡ Some result }
{
    match names.get(&id) {
        Some(name) => *name,
        None => unreachable!(),
    }
}

// Takes the answer of the operation of a name, which has no step left.
fn take_by(state: &mut State, tickets: &mut BTreeMap<u64, Option<Ticket>>, op: u64) -> Answer
    requires ended { (n : ℕ) × (named tickets.old op ≡ Some (Some n)) × IsEnded state.old.table n }
    ensures takes { (n : ℕ) → named tickets.old op ≡ Some (Some n) → Takes state.old state.new n result }
    ensures renames { Renames (named tickets.old) (named tickets.new) op None }
{
    let Some(kept) = tickets.get_mut(&op) else {
        unreachable!()
    };
    let Some(ticket) = kept.take() else {
        unreachable!()
    };
    match state.take(ticket) {
        Ok(answer) => answer,
        Err(_) => unreachable!(),
    }
}
