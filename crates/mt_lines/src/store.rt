//! The store with the names of its open operations.
//!
//! Invariant: the names in use are exactly those of the open operations. A name is in use from its
//! `begin` until the answer of its operation was given; then the operation is taken, and the store
//! keeps no more of it.

ghost use Rattle.std.specs.Prelude.{◌≡◌, ◌↔◌, ℕ, [], IfOk, OnErr, IsTrue, Some, None, Ok, Err, true};
ghost use Rattle.mt_state.specs.{Views.StateView, Begins.{new_state, HaveNoPairs, IsEnded}};
ghost use Rattle.mt_core.specs.{Tickets.{IsStill, Cancels}, Shapes.IsShape};
ghost use Rattle.mt_runs.specs.declared.event.Answer.{Answer as AnyAnswer};
ghost use Rattle.mt_lines.specs.{Names.operation_of, Sessions.TellsBegun};
ghost use Rattle.mt_lines.specs.Stores.{IsAsBefore, HaveOneName, IsWalk, TellsStep, TellsWalk, TellsNamed, IsFree, CanSay, GivesUp, SaysMove};

use crate::names::Names;
use crate::response::Response;
use mt_core::{MAX_STEPS, ShapeLine, State, Ticket};
use mt_operation::Phase;
use mt_rows::{Command, Tenants};
use mt_runs::Answer;
use mt_state::Move;
use std::alloc::{AllocError, Global};
use std::marker::Model;

/// A store, and the names of its open operations.
#[derive(Drop)]
pub struct NamedStore {
    state: State,
    names: Names,
}

impl Model for NamedStore {
    ghost use Rattle.mt_lines.specs.Stores.{StoreView, HaveOneName};

    ghost Value = { StoreView };

    ghost view = { λ s. record { state = s.state; named = s.names } };

    ghost invariant = { λ s. HaveOneName s.state.table s.names };
}

impl NamedStore {
    /// A store of these tenants in which nothing has happened.
    pub fn new(alloc: Global, tenants: Tenants) -> Result<NamedStore, AllocError>
        requires { HaveNoPairs tenants }
        ensures { IfOk result (λ store. store ≡ record { state = new_state 0 tenants; named = [] }) }
    {
        Ok(NamedStore {
            state: State::new(alloc, 0, tenants)?,
            names: Names::new(alloc),
        })
    }

    /// Whether a name is free, so that an operation may be begun by it.
    pub fn is_free(&self, name: u32) -> bool
        ensures { IsTrue result ↔ IsFree self.now name }
    {
        self.names.ticket(name).is_none()
    }

    /// Begins an operation by a free name, for worker 0. Its answer shows the stamp of a row that was
    /// found, or doesn't.
    ///
    /// Where a growth is refused behind the store's own begin, the operation is cancelled: an error
    /// leaves the names as they were, and the same operations open.
    pub fn begin(
        &mut self,
        name: u32,
        tenant: u32,
        command: Command,
        stamps: bool,
    ) -> Result<Response, AllocError>
        requires { IsFree self.old name }
        ensures told { IfOk result (TellsBegun self.old self.new name tenant command stamps) }
        ensures cancelled { OnErr result (IsAsBefore self.old self.new) }
    {
        match self.state.begin(0, tenant, command) {
            Ok(ticket) => {
                if let Err(ticket) = self.names.insert(name, ticket, stamps) {
                    cancel(&mut self.state, ticket);
                    return Err(AllocError);
                }
                Ok(Response::Begun(name))
            }
            Err(refusal) => Ok(Response::Refused(refusal)),
        }
    }

    /// One step of the operation of a name.
    pub fn step(&mut self, name: u32) -> Response
        ensures { TellsNamed (operation_of self.old.named name) self.old self.new result (λ o. TellsStep self.old self.new name o result) }
    {
        let Some(ticket) = self.names.ticket(name) else {
            return Response::NoSuch;
        };
        let answer = self.state.step(ticket);
        respond(&mut self.state, &mut self.names, name, answer)
    }

    /// Steps of the operation of a name, up to the one whose next phase is this.
    pub fn until(&mut self, name: u32, phase: Phase) -> Response
        ensures { TellsNamed (operation_of self.old.named name) self.old self.new result (λ o. TellsWalk (Some phase) self.old self.new name o result) }
    {
        let Some(ticket) = self.names.ticket(name) else {
            return Response::NoSuch;
        };
        match walk(&mut self.state, ticket, Some(phase)) {
            Move::Moved => Response::At(phase),
            answer => respond(&mut self.state, &mut self.names, name, answer),
        }
    }

    /// Steps of the operation of a name, up to one that doesn't move it on.
    pub fn run(&mut self, name: u32) -> Response
        ensures { TellsNamed (operation_of self.old.named name) self.old self.new result (λ o. TellsWalk None self.old self.new name o result) }
    {
        let Some(ticket) = self.names.ticket(name) else {
            return Response::NoSuch;
        };
        let answer = walk(&mut self.state, ticket, None);
        respond(&mut self.state, &mut self.names, name, answer)
    }

    /// The trees, as they are printed.
    pub fn shape(&self, alloc: Global) -> Result<Vec<ShapeLine>, AllocError>
        ensures { IfOk result (λ lines. IsShape self.now.state.arena lines.items) }
    {
        self.state.shape(alloc)
    }
}

// Takes out an operation that has made no step.
fn cancel(state: &mut State, ticket: Ticket)
    requires { IsStill state.old.table ticket.id }
    ensures { Cancels state.old state.new ticket.id }
{
    let Ok(()) = state.cancel(ticket) else {
        unreachable!()
    };
}

// What is said of a step's answer. After the last step the operation is taken with its answer.
fn respond(state: &mut State, names: &mut Names, name: u32, answer: Move) -> Response
    requires named { HaveOneName state.old.table names.old }
    requires said { (o : ℕ) × (operation_of names.old name ≡ Some o) × CanSay state.old o answer }
    ensures said { (o : ℕ) → operation_of names.old name ≡ Some o → SaysMove (record { state = state.old; named = names.old }) (record { state = state.new; named = names.new }) name o answer result }
    ensures named { HaveOneName state.new.table names.new }
{
    match answer {
        Move::Moved => Response::Moved,
        Move::Again { holder } => Response::Again(holder_name(names, holder)),
        Move::NoMemory => Response::NoMemory,
        Move::Done => {
            let stamps = names.shows_stamps(name);
            Response::Done(give_up(state, names, name), stamps)
        }
        Move::Spent => Response::Spent,
        Move::NoSuch => Response::NoSuch,
    }
}

// The name of an operation that has one.
fn holder_name(names: &Names, holder: u64) -> u32
    requires { (name : ℕ) × (operation_of names.now name ≡ Some holder) }
    ensures { operation_of names.now result ≡ Some holder }
{
    match names.name_of(holder) {
        Some(name) => name,
        None => unreachable!(),
    }
}

// Takes the operation of a name, which has ended, with its answer, and frees the name.
fn give_up(state: &mut State, names: &mut Names, name: u32) -> Answer
    requires named { HaveOneName state.old.table names.old }
    requires ended { (o : ℕ) × (operation_of names.old name ≡ Some o) × IsEnded state.old.table o }
    ensures given { (o : ℕ) → operation_of names.old name ≡ Some o → GivesUp (record { state = state.old; named = names.old }) (record { state = state.new; named = names.new }) name o result }
    ensures named { HaveOneName state.new.table names.new }
{
    let Some(ticket) = names.remove(name) else {
        unreachable!()
    };
    let Ok(answer) = state.take(ticket) else {
        unreachable!()
    };
    state.tidy();
    answer
}

// Steps while the operation moves, up to the phase where it is to stop, if there is one. `Moved`
// says that it stands there.
fn walk(state: &mut State, ticket: &Ticket, stop: Option<Phase>) -> Move
    ensures { IsWalk stop state.old state.new ticket.now.id result }
{
    while stop.is_none() || state.phase(ticket) != stop {
        if state.steps() >= MAX_STEPS {
            return Move::Spent;
        }
        let answer = state.step(ticket);
        if answer != Move::Moved {
            return answer;
        }
    }
    Move::Moved
}
