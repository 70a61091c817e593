//! A caller over a state without logs.

ghost use Rattle.std.specs.Prelude.{◌≡◌, ◌≢◌, ◌^◌, [], None, IfOk, IsSome};
ghost use Rattle.mt_rows.specs.Accounts.{account_of};
ghost use Rattle.mt_state.specs.{Views.granted_in, Begins.HaveNoPairs};
ghost use Rattle.mt_alone.specs.{TenantMaps.fresh_maps, Runs.IsIdle, Callers.{alone_view, maps_of, AreOpen, Clears, Answers}};

use crate::runs::{Unfinished, finish};
use mt_core::{State, Ticket};
use mt_rows::{Command, Refusal, Reply, Tenants};
use mt_session::{Caller, CallerFault};
use std::alloc::{AllocError, Global};
use std::marker::Model;

/// A state in which one command runs at a time, for the tenant that the session opened.
///
/// A command that finds no memory once it has placed its change is stuck: the next call first finishes
/// it, or is stuck again, and its own command is not begun then.
#[derive(Drop)]
pub struct Alone {
    state: State,
    opened: Option<u32>,
    stuck: Option<Ticket>,
}

impl Model for Alone {
    ghost use Rattle.mt_alone.specs.Callers.{AloneView, alone_view, IsRightAlone};

    ghost Value = { AloneView };

    ghost view = { λ a. alone_view a.state a.opened a.stuck };

    ghost invariant = { λ a. IsRightAlone a.state a.opened a.stuck };
}

impl Alone {
    /// A caller over a state without logs and without open operations; no tenant is opened.
    pub fn new(state: State) -> Self
        requires logs { state.logs ≡ [] }
        requires idle { IsIdle state }
        ensures { result ≡ alone_view state None None }
    {
        Alone {
            state,
            opened: None,
            stuck: None,
        }
    }

    /// A caller over a new state of these tenants, whose maps are empty. An error comes where memory
    /// is refused.
    pub fn of_tenants(alloc: Global, tenants: Tenants) -> Result<Self, AllocError>
        requires empty { HaveNoPairs tenants }
        ensures { IfOk result (λ alone. maps_of alone ≡ fresh_maps (λ t. granted_in (account_of tenants t))) }
    {
        Ok(Alone::new(State::new(alloc, 0, tenants)?))
    }
}

impl Caller for Alone {
    ghost use Rattle.mt_alone.specs.Callers.{AloneExchange};

    ghost exchanges = { λ old e new. AloneExchange old e new };

    fn open(&mut self, tenant: u32) -> Result<(), Refusal> {
        if !self.state.has_tenant(tenant) {
            return Err(Refusal::NoTenant(tenant));
        }
        self.opened = Some(tenant);
        Ok(())
    }

    fn call(&mut self, _alloc: Global, command: Command) -> Result<Reply, CallerFault> {
        match self.opened {
            Some(tenant) => run(&mut self.state, &mut self.stuck, tenant, command),
            None => Err(CallerFault::Refused(Refusal::NotOpen)),
        }
    }

    fn settle(&mut self) -> Result<u64, Refusal> {
        Err(Refusal::NoStore)
    }
}

// Finishes the command that is stuck, if one is, and then runs this one.
fn run(
    state: &mut State,
    stuck: &mut Option<Ticket>,
    tenant: u32,
    command: Command,
) -> Result<Reply, CallerFault>
    requires logs { state.old.logs ≡ [] }
    requires alone { AreOpen state.old stuck.old }
    requires there { IsSome (account_of state.old.accounts tenant) }
    ensures { Answers state.old state.new tenant command result stuck.new }
{
    match finish_stuck(state, stuck) {
        Ok(()) => answer(state, stuck, tenant, command),
        Err(fault) => Err(fault),
    }
}

// Finishes the command that is stuck, if one is. If no number is left for it, it stays, and the next begin is
// refused.
fn finish_stuck(state: &mut State, stuck: &mut Option<Ticket>) -> Result<(), CallerFault>
    requires { AreOpen state.old stuck.old }
    ensures { Clears state.old state.new stuck.new result }
{
    let Some(ticket) = stuck.take() else {
        return Ok(());
    };
    match finish(state, ticket) {
        Ok(_) => Ok(()),
        Err(Unfinished::Spent(ticket)) => {
            *stuck = Some(ticket);
            Ok(())
        }
        Err(Unfinished::Stuck(ticket)) => {
            *stuck = Some(ticket);
            Err(CallerFault::Stuck)
        }
    }
}

// Begins a command, runs it by itself and takes its answer.
fn answer(
    state: &mut State,
    stuck: &mut Option<Ticket>,
    tenant: u32,
    command: Command,
) -> Result<Reply, CallerFault>
    requires logs { state.old.logs ≡ [] }
    requires alone { AreOpen state.old stuck.old }
    requires free { state.old.steps ≢ 2 ^ 59 → stuck.old ≡ None }
    requires there { IsSome (account_of state.old.accounts tenant) }
    ensures { Answers state.old state.new tenant command result stuck.new }
{
    state.facts();
    match state.begin(0, tenant, command) {
        Err(refusal) => Err(CallerFault::Refused(refusal)),
        Ok(ticket) => match finish(state, ticket) {
            Ok(reply) => Ok(reply),
            Err(Unfinished::Spent(_)) => Err(CallerFault::Refused(Refusal::Spent)),
            Err(Unfinished::Stuck(ticket)) => {
                *stuck = Some(ticket);
                Err(CallerFault::Stuck)
            }
        },
    }
}
