//! All that a state has inside, and its calls. What a step makes of its operation stands in `looks.rt` and
//! `writes.rt`.
//!
//! Invariant: `StateInvariant` of `mt_state`. It owns the nodes, the tape and the operations. Here an
//! operation is shown whole, with what it remembers on its way; `State` shows its steps and its reply
//! alone. Units: steps by their numbers, which begin at 1.

ghost use Rattle.std.specs.Prelude.{ℕ, ◌≡◌, ◌≢◌, ◌+◌, ◌<◌, ◌≤◌, ◌^◌, ◌↔◌, IsTrue, IsSome, IfOk, IfErr, IfSome, IfNone, OnOk, OnErr, length, Some, None};
ghost use Rattle.std.specs.Option.{option_map};
ghost use Rattle.mt_rows.specs.Accounts.{account_of};
ghost use Rattle.mt_batches.specs.Batches.{IsBounded, BringsOn};
ghost use Rattle.mt_border.specs.Restamps.{new_stamp};
ghost use Rattle.mt_arena.specs.Arena.{IsArena, content_of};
ghost use Rattle.mt_state.specs.{Views.shown, Invariant.StateInvariant, Begins.{new_state, HaveNoPairs}};
ghost use Rattle.mt_operation.specs.{Phases.IsNoLook, declared.operation.Operation.{Operation as AnyOperation}, Operations.{OperationView, view_of, born}};
ghost use Rattle.mt_operation.specs.Tables.{op_at as operation_at};
ghost use Rattle.mt_core.specs.{Looks.{LooksAt, MayLook}, Writes.{parts, WritesAt, MayWrite}, Tickets.{TellsTake, TellsCancel}};
ghost use Rattle.mt_core.specs.{Places.{HasPlaces, TakesPlace, AddsPlaces}, Admitted.{MayAdmit, TellsAdmitted, RefusesOpening, IsAccepted, IsRefusedFor}};
ghost use Rattle.mt_core.specs.{Rights.IsRightState, Shows.{phase_at, phase_in, noted_at}, Alone.{Runs, IsAlone, EndsAlone, IsUndisturbed, EndsSoon}};
ghost use Rattle.mt_core.specs.{Points.StepsOn, Drains.Drains, Renumbers.{with_logs, core_renumbered, AreGivenUpto}, Tidies.{Tidies, TidiesInto, DisplacesRestOf, HandsOutRest}};
ghost use Rattle.mt_core.specs.Nexts.{IsNext, ending};

use crate::answers::Ticket;
use crate::begins::{Opening, give_back, give_up};
use crate::displaced::Displaced;
use crate::drains::{all_given, give_all, least_of};
use crate::looks::look;
use crate::writes::write;
use mt_arena::Arena;
use mt_drains::{DrainedBatch, batch_after};
use mt_operation::{Operation, Phase};
use mt_rows::{Refusal, Reply, Tenants};
use mt_runs::Answer;
use mt_state::Move;
use mt_table::{Operations, Stepped};
use mt_tape::Tape;
use std::alloc::{AllocError, Global};
use std::boxed::Box;
use std::collections::BTreeMap;
use std::marker::Model;

/// Steps are numbered up to this.
pub const MAX_STEPS: u64 = 1 << 59;

/// All nodes and trees, the tape of their changes, and the operations.
#[derive(Drop)]
pub(crate) struct Inner {
    pub(crate) alloc: Global,
    pub(crate) steps: u64,
    pub(crate) answers: u64,
    pub(crate) logs: Vec<u64>,
    pub(crate) tenants: Tenants,
    pub(crate) arena: Arena,
    pub(crate) tape: Tape,
    pub(crate) operations: Operations,
}

impl Model for Inner {
    ghost use Rattle.mt_state.specs.{Views.Core, Invariant.StateInvariant};
    ghost use Rattle.mt_core.specs.States.{core_of};

    ghost Value = { Core };

    ghost view = { λ s. core_of s };

    ghost invariant = { λ s. StateInvariant (core_of s) };
}

impl Inner {
    /// A state in which nothing has happened.
    pub(crate) fn new(alloc: Global, logs: u8, tenants: Tenants) -> Result<Self, AllocError>
        requires logs { logs ≤ 64 }
        requires empty { HaveNoPairs tenants }
        ensures { IfOk result (λ inner. shown inner ≡ new_state logs tenants) }
    {
        Ok(Inner {
            alloc,
            steps: 0,
            answers: 0,
            logs: all_given(alloc, logs, 0)?,
            tenants,
            arena: Arena::new(alloc)?,
            tape: Tape::new(alloc, 0),
            operations: Operations::new(alloc),
        })
    }

    /// Begins the operation of an opening. Its birth is the number of steps made by now: the opening was
    /// made outside the state, which went on meanwhile.
    pub(crate) fn admit(&mut self, opening: Opening) -> Result<Ticket, Refusal>
        requires { MayAdmit (shown self.old) opening.made }
        ensures told { TellsAdmitted (shown self.old) (shown self.new) opening result }
        ensures refused { RefusesOpening (shown self.old) opening result }
        ensures places { OnOk result (TakesPlace (shown self.old) (shown self.new)) }
    {
        self.arena.facts();
        let operation = self.accepted(opening)?;
        let operation = born(operation, self.steps);
        let id = self.operations.keep(operation)?;
        Ok(Ticket { id })
    }

    // The operation of an opening, where nothing but memory can refuse it; else the first cause.
    fn accepted(&self, opening: Opening) -> Result<Box<Operation>, Refusal>
        ensures accepts { IfOk result (λ op. IsAccepted (shown self.now) opening op.value) }
        ensures refused { IfErr result (λ refusal. IsRefusedFor opening.tenant (account_of (shown self.now).accounts opening.tenant) (shown self.now) opening.made refusal) }
    {
        let Opening { tenant, made } = opening;
        match self.tenants.account(tenant) {
            None => Err(Refusal::NoTenant(tenant)),
            Some(_) if made.is_ok() && self.steps >= MAX_STEPS => Err(Refusal::Spent),
            Some(_) => made,
        }
    }

    /// Makes places for so many more operations.
    pub(crate) fn reserve(&mut self, more: usize) -> Result<(), AllocError>
        ensures room { OnOk result (HasPlaces (shown self.new) more) }
        ensures same { AddsPlaces (shown self.old) (shown self.new) }
        ensures unchanged_on_err { OnErr result (self.new ≡ self.old) }
    {
        self.operations.reserve(more)
    }

    /// The answer of an operation that is finished, which is right; else its ticket comes back.
    pub(crate) fn take(
        &mut self,
        ticket: Ticket,
        displaced: &mut Displaced,
    ) -> Result<Answer, Ticket>
        ensures told { TellsTake (shown self.old) (shown self.new) ticket result }
        ensures rest { OnOk result (DisplacesRestOf self.old.table ticket.id displaced.old displaced.new) }
        ensures hands_out { OnOk result (HandsOutRest (shown self.old).table ticket.id displaced.old displaced.new) }
        ensures kept { OnErr result (displaced.new ≡ displaced.old) }
    {
        match give_up(self.alloc, &mut self.operations, ticket.id, displaced) {
            Some(answer) => {
                self.answers += 1;
                Ok(answer)
            }
            None => Err(ticket),
        }
    }

    /// Takes out an operation that has made no step; else its ticket comes back.
    pub(crate) fn cancel(&mut self, ticket: Ticket) -> Result<(), Ticket>
        ensures { TellsCancel (shown self.old) (shown self.new) ticket result }
    {
        if !give_back(&mut self.operations, ticket.id) {
            return Err(ticket);
        }
        Ok(())
    }

    /// What the operation's next step does; nothing, where no step of it is left.
    pub(crate) fn phase(&self, id: usize) -> Option<Phase>
        ensures { result ≡ phase_at (shown self.now).table id }
    {
        next_phase(&self.operations, id)
    }

    /// The reply that a get remembers.
    pub(crate) fn noted(&self, id: usize) -> Option<&Reply>
        ensures { option_map (λ r. r.now) result ≡ noted_at (shown self.now).table id }
    {
        let operation = self.operations.get(id)?;
        match (operation.walk.phase, &operation.outcome) {
            (Phase::Confirm, Some(outcome)) => Some(&outcome.reply),
            _ => None,
        }
    }

    /// Whether there is such a tenant.
    pub(crate) fn has_tenant(&self, tenant: u32) -> bool
        ensures { IsTrue result ↔ IsSome (account_of (shown self.now).accounts tenant) }
    {
        self.tenants.account(tenant).is_some()
    }

    /// What holds of every state.
    pub(crate) fn facts(&self)
        ensures { IsRightState (shown self.now) }
    {
        // For the proof.
        let _ = &self.steps;
    }

    /// Gives up the writes of the tape that no operation and no log needs any more.
    pub(crate) fn tidy(&mut self)
        ensures { Tidies (shown self.old) (shown self.new) }
    {
        let needed = self.operations.floor_needed(self.steps);
        let floor = least_of(&self.logs, needed);
        self.tape.trim(floor);
    }

    /// Hands these writes out, the oldest first, as far as there is room for them.
    pub(crate) fn tidy_into(&mut self, displaced: &mut Displaced)
        ensures { TidiesInto (shown self.old) (shown self.new) displaced.old displaced.new }
    {
        let needed = self.operations.floor_needed(self.steps);
        let floor = least_of(&self.logs, needed);
        self.tape.trim_into(floor, &mut displaced.writes);
    }

    /// Keeps so many logs from now on, each given all that was done so far.
    pub(crate) fn keep_logs(&mut self, logs: u8) -> Result<(), AllocError>
        requires { logs ≤ 64 }
        ensures { OnOk result (self.new ≡ with_logs logs self.old) }
    {
        self.logs = all_given(self.alloc, logs, self.steps)?;
        Ok(())
    }

    /// Begins the counting anew at a number of steps, where no operation is open: nobody remembers a
    /// node's version, a step or an answer. Each pair gets the stamp that the list has for its own, which
    /// is at most that number, and keeps one that the list lacks.
    pub(crate) fn renumber(&mut self, steps: u64, stamps: &BTreeMap<u64, u64>)
        requires idle { (o : ℕ) → operation_at self.old.table o ≡ None }
        requires few { steps ≤ 2 ^ 59 }
        requires stamps { AreGivenUpto steps (new_stamp stamps.now) (content_of self.old.arena) }
        ensures { self.new ≡ core_renumbered steps (new_stamp stamps.now) self.old }
    {
        self.arena.facts();
        self.arena.renumber(steps, stamps);
        self.tape = Tape::new(self.alloc, steps);
        self.operations = Operations::new(self.alloc);
        give_all(&mut self.logs, steps);
        self.answers = 0;
        self.steps = steps;
    }

    /// How many logs are served.
    pub(crate) fn log_count(&self) -> u8
        ensures { result ≡ length self.now.logs }
    {
        self.logs.len() as u8
    }

    /// Gives a worker's log the next batch of its changes.
    pub(crate) fn drain(&mut self, worker: u8) -> Result<DrainedBatch, AllocError>
        requires { worker < length self.old.logs }
        ensures worker { IfOk result (λ drained. drained.worker ≡ worker) }
        ensures drains { IfOk result (λ drained. Drains (shown self.old) (shown self.new) worker drained.batch) }
        ensures bounded { IfOk result (λ drained. IsBounded drained.batch) }
        ensures brings { (upto : ℕ) → upto ≤ (shown self.old).steps → IfOk result (λ drained. BringsOn upto drained.batch) }
        ensures unchanged_on_err { OnErr result (shown self.new ≡ shown self.old) }
    {
        let given = self.logs[worker as usize];
        let drained = batch_after(self.alloc, &self.tape, worker, given, self.steps)?;
        self.logs[worker as usize] = drained.batch().to;
        Ok(drained)
    }

    /// Makes steps of an operation as long as it moves, and answers what the last one answered.
    pub(crate) fn run_alone(&mut self, id: usize) -> Move
        ensures runs { Runs (shown self.old) (shown self.new) id result }
        ensures alone { (op : OperationView) → IsAlone (shown self.old) id op → EndsAlone (shown self.old) (shown self.new) id op result }
        ensures ends { (op : OperationView) → IsUndisturbed (shown self.old) id op → EndsSoon (shown self.old) (shown self.new) id op result }
    {
        self.kept();
        for _ in 0..=MAX_STEPS {
            match self.step(id) {
                Move::Moved => self.kept(),
                answer => return answer,
            }
        }
        unreachable!()
    }

    /// Makes one step of an operation.
    pub(crate) fn step(&mut self, id: usize) -> Move
        ensures { StepsOn self.old self.new id result }
    {
        if self.steps >= MAX_STEPS {
            return self.spent(id);
        }
        match self.look(id) {
            Some(answer) => answer,
            None => self.write(id),
        }
    }

    // What an operation is told where no step can be numbered any more.
    #[inline(never)]
    fn spent(&self, id: usize) -> Move
        requires { 2 ^ 59 ≤ self.now.steps }
        ensures { StepsOn self.now self.now id result }
    {
        match next_phase(&self.operations, id) {
            Some(_) => Move::Spent,
            None => Move::NoSuch,
        }
    }

    // Makes the step where it is a look; none where it is another one, and nothing has happened.
    #[inline]
    fn look(&mut self, id: usize) -> Option<Move>
        requires few { self.old.steps < 2 ^ 59 }
        ensures looks { IfSome result (λ answer. StepsOn self.old self.new id answer) }
        ensures others { IfNone result (IsNext self.old id IsNoLook) }
        ensures unchanged { IfNone result (self.new ≡ self.old) }
    {
        self.arena.facts();
        let step = self.steps + 1;
        let alloc = self.alloc;
        let arena = &self.arena;
        let stepped = self.operations.step_by(
            id,
            step,
            &mut |operation: &mut Operation|
                requires { MayLook operation.old.walk.phase arena.now operation.old }
                ensures { LooksAt operation.old.walk.phase arena.entry.now step operation.old result operation.new }
            { look(alloc, arena, operation, step) },
        );
        match stepped {
            Stepped::To(phase) => {
                self.steps = step;
                Some(ending(phase))
            }
            Stepped::Blocked(holder) => Some(again(holder)),
            Stepped::NoMemory => unreachable!(),
            Stepped::Left => None,
            Stepped::Absent => Some(Move::NoSuch),
        }
    }

    // Makes a step that is no look, if one is left. It may give out the places that were taken out at each
    // open operation's birth or before.
    #[inline(never)]
    fn write(&mut self, id: usize) -> Move
        requires others { IsNext self.old id IsNoLook }
        requires few { self.old.steps < 2 ^ 59 }
        ensures { StepsOn self.old self.new id result }
    {
        self.arena.facts();
        let step = self.steps + 1;
        let alloc = self.alloc;
        let arena = &mut self.arena;
        let tape = &mut self.tape;
        let tenants = &mut self.tenants;
        let least = self.operations.least_birth(self.steps);
        let stepped = self.operations.step_by(
            id,
            step,
            &mut |operation: &mut Operation|
                requires { MayWrite operation.old.walk.phase id step least (parts arena.now tape.now tenants.now) operation.old }
                ensures { WritesAt operation.old.walk.phase id step least (parts arena.entry.now tape.entry.now tenants.entry.now) (parts arena.exit.now tape.exit.now tenants.exit.now) operation.old result operation.new }
            { write(alloc, arena, tape, tenants, operation, step, least, id) },
        );
        self.arena.facts();
        match stepped {
            Stepped::To(phase) => {
                self.steps = step;
                ending(phase)
            }
            Stepped::Blocked(holder) => again(holder),
            Stepped::NoMemory => Move::NoMemory,
            Stepped::Left => Move::NoSuch,
            Stepped::Absent => unreachable!(),
        }
    }

    // What is kept inside, for proofs: nothing runs.
    pub(crate) fn kept(&self)
        ensures invariant { StateInvariant self.now }
        ensures arena { IsArena self.now.arena.nodes self.now.arena.trees }
    {
        self.arena.facts();
    }
}

// The operation, begun after so many steps.
fn born(mut operation: Box<Operation>, steps: u64) -> Box<Operation>
    ensures { result.value ≡ born operation.value steps }
{
    operation.birth = steps;
    operation
}

// Another operation is in the way.
fn again(holder: usize) -> Move
    ensures { result ≡ Move.Again holder }
{
    Move::Again {
        holder: holder as u64,
    }
}

// What a step answers that leads to this phase.
fn ending(phase: Phase) -> Move
    ensures { result ≡ ending phase }
{
    match phase {
        Phase::Done => Move::Done,
        _ => Move::Moved,
    }
}

// What the next step of an operation does; nothing, where no step of it is left.
fn next_phase(operations: &Operations, id: usize) -> Option<Phase>
    ensures { result ≡ phase_in (option_map view_of (operation_at operations.now id)) }
{
    match operations.get(id)?.walk.phase {
        Phase::Done => None,
        phase => Some(phase),
    }
}
