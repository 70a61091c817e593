//! The state and its calls.
//!
//! It owns its nodes, its tape and its operations. Errors: refusals of `begin`, which change nothing.
//! Units: steps by their numbers, which begin at 1.

ghost use Rattle.std.specs.{Prelude.{◌^◌, ◌≡◌, ◌≢◌, ◌<◌, ◌≤◌, ◌↔◌, ℕ, IfOk, OnOk, OnErr, IsTrue, IsSome, length, Some}, Option.option_map, List.All};
ghost use Rattle.mt_batches.specs.Batches.{IsBounded, BringsOn};
ghost use Rattle.mt_rows.specs.{Accounts.account_of, Tenants.tenant_map, TenantPairs.{pairs_of, quota_in, IsTenantPair, AreDistinct, AreStampedUpto, HasTenants, KeepsQuotas}};
ghost use Rattle.mt_state.specs.{Views.{op_at, contents_of}, Promises.Tells, Phases.LeadsOn, Begins.{new_state, HaveNoPairs, IsWorker}};
ghost use Rattle.mt_core.specs.{Tickets.{TellsBegin, TellsTake, TellsCancel, TellsRefusal}, Places.{HasPlaces, TakesPlace, AddsPlaces}};
ghost use Rattle.mt_core.specs.{Admitted.{MayAdmit, TellsAdmitted, RefusesOpening}, Rights.IsRightState, Shapes.IsShape, Shows.{phase_at, noted_at}};
ghost use Rattle.mt_core.specs.{Alone.{Runs, IsAlone, EndsAlone, IsUndisturbed, EndsSoon}, Drains.Drains, Tidies.{Tidies, TidiesInto, HandsOutRest}};
ghost use Rattle.mt_core.specs.Restores.{IsRestored};
ghost use Rattle.mt_operation.specs.Operations.{OperationView};

use crate::answers::Ticket;
use crate::begins::{Opening, prepare};
use crate::displaced::Displaced;
use crate::inner::Inner;
use crate::restore::restored;
use crate::shape::{ShapeLine, shape_of};
use mt_drains::DrainedBatch;
use mt_operation::Phase;
use mt_rows::{Command, Refusal, Reply, TenantPair, Tenants};
use mt_runs::Answer;
use mt_state::Move;
use std::alloc::{AllocError, Global};
use std::marker::Model;

/// All nodes and trees, the tape of their changes, and the operations.
#[derive(Drop)]
pub struct State {
    inner: Inner,
}

impl Model for State {
    ghost use Rattle.mt_state.specs.Views.{StateView, shown};

    ghost Value = { StateView };

    ghost view = { λ s. shown s.inner };
}

impl State {
    /// A state in which nothing has happened, for logs of so many workers, or for one worker where
    /// none are kept. An error comes where memory is refused.
    pub fn new(alloc: Global, logs: u8, tenants: Tenants) -> Result<Self, AllocError>
        requires logs { logs ≤ 64 }
        requires empty { HaveNoPairs tenants }
        ensures { IfOk result (λ state. state ≡ new_state logs tenants) }
    {
        let inner = Inner::new(alloc, logs, tenants)?;
        Ok(State { inner })
    }

    /// A store as a recovery leaves it: a state that has made so many steps and has these pairs, each
    /// with its stamp, and no others. No stamp is over the number of steps. Counting goes on from there,
    /// and so do the logs of so many workers. An error comes where memory is refused.
    pub fn restore(
        alloc: Global,
        steps: u64,
        logs: u8,
        tenants: Tenants,
        pairs: Vec<TenantPair>,
    ) -> Result<State, AllocError>
        requires steps { steps ≤ 2 ^ 59 }
        requires logs { logs ≤ 64 }
        requires empty { HaveNoPairs tenants }
        requires limits { All IsTenantPair pairs.items }
        requires distinct { AreDistinct pairs.items }
        requires stamps { AreStampedUpto steps pairs.items }
        requires tenants { HasTenants (quota_in tenants) (pairs_of pairs.items) }
        requires quotas { KeepsQuotas (quota_in tenants) (pairs_of pairs.items) }
        ensures { IfOk result (λ s. IsRestored steps logs tenants pairs.items s) }
    {
        let inner = restored(alloc, steps, logs, tenants, pairs)?;
        Ok(State { inner })
    }

    /// Begins an operation of a worker for a tenant.
    ///
    /// Errors, the first that holds: `NoTenant`, the command's first fault (`KeyLong`, `Column`,
    /// `ColumnLong`, `ScanCount`), `Spent`. `Memory` may come in place of the last one, and never of the
    /// others.
    pub fn begin(&mut self, worker: u8, tenant: u32, command: Command) -> Result<Ticket, Refusal>
        requires { IsWorker (length self.old.logs) worker }
        ensures told { TellsBegin self.old self.new worker tenant command result }
        ensures refused { TellsRefusal self.old tenant command result }
    {
        self.admit(prepare(self.inner.alloc, worker, tenant, command))
    }

    /// Makes places for so many more operations, for which `admit` needs no memory then. An error comes
    /// where memory is refused.
    pub fn reserve(&mut self, more: usize) -> Result<(), AllocError>
        ensures room { OnOk result (HasPlaces self.new more) }
        ensures same { AddsPlaces self.old self.new }
        ensures unchanged_on_err { OnErr result (self.new ≡ self.old) }
    {
        self.inner.reserve(more)
    }

    /// Begins the operation of an opening. Errors are those of `begin`; `Memory` comes only from the
    /// opening, or where there was no place for the operation.
    pub fn admit(&mut self, opening: Opening) -> Result<Ticket, Refusal>
        requires { MayAdmit self.old opening.made }
        ensures told { TellsAdmitted self.old self.new opening result }
        ensures refused { RefusesOpening self.old opening result }
        ensures places { OnOk result (TakesPlace self.old self.new) }
    {
        self.inner.admit(opening)
    }

    /// The answer of an operation that is finished, which is right; else its ticket comes back.
    pub fn take(&mut self, ticket: Ticket) -> Result<Answer, Ticket>
        ensures { TellsTake self.old self.new ticket result }
    {
        let mut displaced = Displaced::new(self.inner.alloc);
        self.inner.take(ticket, &mut displaced)
    }

    /// The same; what is left of the operation is handed out, to be freed by the caller.
    pub fn take_into(&mut self, ticket: Ticket, displaced: &mut Displaced) -> Result<Answer, Ticket>
        ensures told { TellsTake self.old self.new ticket result }
        ensures rest { OnOk result (HandsOutRest self.old.table ticket.id displaced.old displaced.new) }
        ensures kept { OnErr result (displaced.new ≡ displaced.old) }
    {
        self.inner.take(ticket, displaced)
    }

    /// Takes out an operation that has made no step; else its ticket comes back.
    pub fn cancel(&mut self, ticket: Ticket) -> Result<(), Ticket>
        ensures { TellsCancel self.old self.new ticket result }
    {
        self.inner.cancel(ticket)
    }

    /// What the operation's next step does; nothing, where no step of it is left.
    pub fn phase(&self, ticket: &Ticket) -> Option<Phase>
        ensures { result ≡ phase_at self.now.table ticket.now.id }
    {
        self.inner.phase(ticket.id)
    }

    /// The reply that a get remembers, which it answers where its next step finds the node's keys
    /// as they were.
    pub fn noted(&self, ticket: &Ticket) -> Option<&Reply>
        ensures { option_map (λ r. r.now) result ≡ noted_at self.now.table ticket.now.id }
    {
        self.inner.noted(ticket.id)
    }

    /// The live trees, line by line, as they are printed.
    pub fn shape(&self, alloc: Global) -> Result<Vec<ShapeLine>, AllocError>
        ensures { IfOk result (λ lines. IsShape self.now.arena lines.items) }
    {
        shape_of(alloc, &self.inner.arena)
    }

    /// How many steps were made, at most 2 to the 59th.
    pub fn steps(&self) -> u64
        ensures value { result ≡ self.now.steps }
        ensures few { result ≤ 2 ^ 59 }
    {
        self.inner.kept();
        self.inner.steps
    }

    /// How many answers were taken.
    pub fn answers(&self) -> u64
        ensures { result ≡ self.now.answers }
    {
        self.inner.answers
    }

    /// How many places of nodes were ever made. A place whose node was taken out is used again, once each
    /// operation that was begun before has ended.
    pub fn places(&self) -> u64
        ensures { result ≡ length self.now.arena.nodes }
    {
        self.inner.arena.node_count() as u64
    }

    /// How many logs are served, 0 where none are kept.
    pub fn logs(&self) -> u8
        ensures { result ≡ length self.now.logs }
    {
        self.inner.log_count()
    }

    /// Whether there is such a tenant, for which operations may be begun.
    pub fn has_tenant(&self, tenant: u32) -> bool
        ensures { IsTrue result ↔ IsSome (account_of self.now.accounts tenant) }
    {
        self.inner.has_tenant(tenant)
    }

    /// What holds of every state: its tape is legal, and goes back before the first step of each open
    /// operation; a finished one's reply is right at its number; a change that was placed has its entry;
    /// the accounts count the pairs, and every map since the tape's floor keeps its quota; each entry of
    /// the tape is made by a change; who holds a node is an operation that has a step left. Each pair has the
    /// stamp of the step that placed it.
    pub fn facts(&self)
        ensures { IsRightState self.now }
    {
        self.inner.facts();
    }

    /// Gives a worker's log the next batch of the changes that its operations placed since it was last given
    /// any: all of them up to the last step that was made, or the first 4,096. Any log takes it. The worker's number
    /// stands beside it. An error comes if memory is refused.
    pub fn drain(&mut self, worker: u8) -> Result<DrainedBatch, AllocError>
        requires { worker < length self.old.logs }
        ensures worker { IfOk result (λ drained. drained.worker ≡ worker) }
        ensures drains { IfOk result (λ drained. Drains self.old self.new worker drained.batch) }
        ensures bounded { IfOk result (λ drained. IsBounded drained.batch) }
        ensures brings { (upto : ℕ) → upto ≤ self.old.steps → IfOk result (λ drained. BringsOn upto drained.batch) }
        ensures unchanged_on_err { OnErr result (self.new ≡ self.old) }
    {
        self.inner.drain(worker)
    }

    /// Gives up the writes of the tape that no operation and no log needs any more.
    pub fn tidy(&mut self)
        ensures { Tidies self.old self.new }
    {
        self.inner.tidy();
    }

    /// Hands these writes out, to be freed by the caller: the oldest first, as far as there is room for
    /// them. Nothing is freed here, and the others stay till a later tidying.
    pub fn tidy_into(&mut self, displaced: &mut Displaced)
        ensures { TidiesInto self.old self.new displaced.old displaced.new }
    {
        self.inner.tidy_into(displaced);
    }

    /// Makes one step of an operation, which leads where the table of phases says, and leaves every other
    /// tenant's map as it was.
    pub fn step(&mut self, ticket: &Ticket) -> Move
        ensures tells { Tells self.old self.new ticket.now.id result }
        ensures leads { LeadsOn self.old self.new ticket.now.id result }
        ensures tenants { (op : OperationView) (t : ℕ) → op_at self.old.table ticket.now.id ≡ Some op → t ≢ op.tenant → tenant_map t (contents_of self.new) ≡ tenant_map t (contents_of self.old) }
    {
        self.inner.step(ticket.id)
    }

    /// Makes steps of an operation as long as it moves, and answers what the last one answered. While
    /// nobody else holds a node, an operation is done after a number of steps that the number of live
    /// nodes bounds, and for a scan that of live trees too. That is so at whatever phase it stands, and
    /// whatever others did on its way before. It ends earlier if memory for a node is refused once it has
    /// placed its change. So it does if the last number is given before.
    pub fn run_alone(&mut self, ticket: &Ticket) -> Move
        ensures runs { Runs self.old self.new ticket.now.id result }
        ensures alone { (op : OperationView) → IsAlone self.old ticket.now.id op → EndsAlone self.old self.new ticket.now.id op result }
        ensures ends { (op : OperationView) → IsUndisturbed self.old ticket.now.id op → EndsSoon self.old self.new ticket.now.id op result }
    {
        self.inner.run_alone(ticket.id)
    }
}
