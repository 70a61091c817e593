//! The book: the state, and the total of the answers that were taken of it.

ghost use Rattle.std.specs.Prelude.{ℕ, ◌≡◌, ◌+◌, ◌<◌, ◌≤◌, ◌↔◌, false, true, max, IfOk, IfErr, OnErr, OnOk, IsOk, IfSome, IfNone, IsTrue, IsSome, length, vec_len};
ghost use Rattle.std.specs.List.{sum_by};
ghost use Rattle.mt_rows.specs.Accounts.{account_of};
ghost use Rattle.mt_batches.specs.Batches.{IsBounded, BringsOn};
ghost use Rattle.mt_state.specs.{Promises.Tells, Phases.LeadsOn, Begins.IsWorker};
ghost use Rattle.mt_core.specs.{Tickets.{TellsBegin, TellsTake, TellsCancel, TellsRefusal}, Places.AddsPlaces};
ghost use Rattle.mt_core.specs.{Admitted.{MayAdmit, TellsAdmitted, RefusesOpening}, Shows.phase_at, Drains.Drains, Tidies.{TidiesInto, HandsOutRest}};
ghost use Rattle.mt_book.specs.{declared.passes.Pass.Pass, Books.IsRightBook, Does.KeepsOtherTenants};

use crate::passes::Pass;
use mt_core::{Displaced, Opening, State, Ticket};
use mt_drains::DrainedBatch;
use mt_operation::Phase;
use mt_rows::{Command, Refusal};
use mt_runs::Answer;
use mt_state::Move;
use std::alloc::AllocError;
use std::sync::ledger::{Blank, Book as Total, Ledger, Share};

/// Into so many parts the total is cut: one stays, and each pass has one.
pub const PARTS: u64 = 65_536;

/// A state and the total of the answers that were taken of it. It stands under a lock: what its type
/// says is so whenever the lock is free.
#[derive(Drop)]
pub struct Book<L: Ledger> {
    state: State,
    total: Total<L>,
    rest: Share<L>,
    opened: u64,
    gathered: bool,
    pub ghost counted: { state.answers ≡ total.total },
    pub ghost cut: { rest.parts + opened ≡ 65536 },
    pub ghost idle: { gathered ≡ false → rest.amount ≡ 0 },
}

impl<L: Ledger> Book<L> {
    /// A book of a state of which no answer was taken.
    pub fn new(blank: Blank, state: State) -> Book<L>
        requires name { blank.name ≡ L.name }
        requires parts { (blank.parts ≡ L.parts) × (L.parts ≡ 65536) }
        requires untaken { state.answers ≡ 0 }
        ensures state { result.state ≡ state }
        ensures opened { (result.opened ≡ 0) × (result.gathered ≡ false) }
    {
        let (total, rest) = blank.open::<L>();
        Book {
            state,
            total,
            rest,
            opened: 0,
            gathered: false,
        }
    }

    /// The state, with all that was done to it. The total is given up.
    pub fn into_state(self) -> State
        ensures { result ≡ self.state }
    {
        let Book {
            state,
            total: _,
            rest: _,
            opened: _,
            gathered: _,
        } = self;
        state
    }

    /// What holds of every book, so whenever its lock is free: all that holds of a state, and the total
    /// is the number of answers that were taken of it.
    pub fn facts(&self)
        ensures { IsRightBook self.now.state self.now.total.total self.now.rest.parts self.now.opened }
    {
        self.state.facts();
    }

    // The state.
    pub(crate) fn state(&self) -> &State
        ensures { result.now ≡ self.now.state }
    {
        &self.state
    }

    /// As the state's.
    pub fn begin(&mut self, worker: u8, tenant: u32, command: Command) -> Result<Ticket, Refusal>
        requires { IsWorker (length self.old.state.logs) worker }
        ensures told { TellsBegin self.old.state self.new.state worker tenant command result }
        ensures refused { TellsRefusal self.old.state tenant command result }
        ensures opened { (self.new.opened ≡ self.old.opened) × (self.new.gathered ≡ self.old.gathered) }
    {
        self.state.begin(worker, tenant, command)
    }

    /// As the state's.
    pub fn admit(&mut self, opening: Opening) -> Result<Ticket, Refusal>
        requires { MayAdmit self.old.state opening.made }
        ensures told { TellsAdmitted self.old.state self.new.state opening result }
        ensures refused { RefusesOpening self.old.state opening result }
        ensures opened { (self.new.opened ≡ self.old.opened) × (self.new.gathered ≡ self.old.gathered) }
    {
        self.state.admit(opening)
    }

    /// As the state's.
    pub fn step(&mut self, ticket: &Ticket) -> Move
        ensures told { Tells self.old.state self.new.state ticket.now.id result }
        ensures leads { LeadsOn self.old.state self.new.state ticket.now.id result }
        ensures tenants { KeepsOtherTenants self.old.state self.new.state ticket.now.id }
        ensures opened { (self.new.opened ≡ self.old.opened) × (self.new.gathered ≡ self.old.gathered) }
    {
        self.state.step(ticket)
    }

    /// As the state's; an answer counts in the total and in the pass's share. The rest of the operation
    /// is handed out.
    pub fn take(
        &mut self,
        ticket: Ticket,
        pass: &mut Pass<L>,
        displaced: &mut Displaced,
    ) -> Result<Answer, Ticket>
        ensures told { TellsTake self.old.state self.new.state ticket result }
        ensures rest { OnOk result (HandsOutRest self.old.state.table ticket.id displaced.old displaced.new) }
        ensures kept { OnErr result (displaced.new ≡ displaced.old) }
        ensures answered { OnOk result (pass.new.share.amount ≡ pass.old.share.amount + 1) }
        ensures open { OnErr result (pass.new.share.amount ≡ pass.old.share.amount) }
        ensures worker { pass.new.worker ≡ pass.old.worker }
        ensures seen { pass.new.seen ≡ pass.old.seen }
        ensures opened { (self.new.opened ≡ self.old.opened) × (self.new.gathered ≡ self.old.gathered) }
    {
        match self.state.take_into(ticket, displaced) {
            Ok(answer) => {
                self.total.add(&mut pass.share, 1);
                Ok(answer)
            }
            Err(ticket) => Err(ticket),
        }
    }

    /// As the state's.
    pub fn cancel(&mut self, ticket: Ticket) -> Result<(), Ticket>
        ensures told { TellsCancel self.old.state self.new.state ticket result }
        ensures opened { (self.new.opened ≡ self.old.opened) × (self.new.gathered ≡ self.old.gathered) }
    {
        self.state.cancel(ticket)
    }

    /// As the state's that hands the writes out.
    pub fn tidy(&mut self, displaced: &mut Displaced)
        ensures tidied { TidiesInto self.old.state self.new.state displaced.old displaced.new }
        ensures opened { (self.new.opened ≡ self.old.opened) × (self.new.gathered ≡ self.old.gathered) }
    {
        self.state.tidy_into(displaced);
    }

    /// As the state's.
    pub fn drain(&mut self, worker: u8) -> Result<DrainedBatch, AllocError>
        requires { worker < length self.old.state.logs }
        ensures worker { IfOk result (λ drained. drained.worker ≡ worker) }
        ensures drains { IfOk result (λ drained. Drains self.old.state self.new.state worker drained.batch) }
        ensures bounded { IfOk result (λ drained. IsBounded drained.batch) }
        ensures brings { (upto : ℕ) → upto ≤ self.old.state.steps → IfOk result (λ drained. BringsOn upto drained.batch) }
        ensures unchanged_on_err { OnErr result (self.new.state ≡ self.old.state) }
        ensures opened { (self.new.opened ≡ self.old.opened) × (self.new.gathered ≡ self.old.gathered) }
    {
        self.state.drain(worker)
    }

    /// How many steps were made.
    pub fn steps(&self) -> u64
        ensures { result ≡ self.now.state.steps }
    {
        self.state.steps()
    }

    /// How many answers were taken.
    pub fn answers(&self) -> u64
        ensures { result ≡ self.now.state.answers }
    {
        self.state.answers()
    }

    /// Whether there is such a tenant.
    pub fn has_tenant(&self, tenant: u32) -> bool
        ensures { IsTrue result ↔ IsSome (account_of self.now.state.accounts tenant) }
    {
        self.state.has_tenant(tenant)
    }

    /// How many logs are served, 0 where none are kept.
    pub fn logs(&self) -> u8
        ensures { result ≡ length self.now.state.logs }
    {
        self.state.logs()
    }

    /// What the operation's next step does; nothing, where no step of it is left.
    pub fn phase(&self, ticket: &Ticket) -> Option<Phase>
        ensures { result ≡ phase_at self.now.state.table ticket.now.id }
    {
        self.state.phase(ticket)
    }

    /// A pass for a worker, which has seen no step; none where 65,535 were opened, the total was told
    /// or there is no such worker. Room is made for one operation of each pass, so that a begin needs no
    /// memory; where that is refused, the begin that comes asks for it again.
    pub fn open_pass(&mut self, worker: u8) -> Option<Pass<L>>
        ensures state { AddsPlaces self.old.state self.new.state }
        ensures gathered { self.new.gathered ≡ self.old.gathered }
        ensures same { IfNone result (self.new.state ≡ self.old.state) }
        ensures some { IfSome result (λ pass. (self.new.opened ≡ self.old.opened + 1) × (pass.worker ≡ worker) × (pass.seen ≡ 0) × (pass.share.amount ≡ 0)) }
        ensures none { IfNone result (self.new.opened ≡ self.old.opened) }
        ensures when { IsSome result ↔ ((self.old.opened < 65535) × (self.old.gathered ≡ false) × (worker < max (length self.old.state.logs) 1)) }
    {
        if self.opened >= PARTS - 1 || self.gathered || worker >= self.state.logs().max(1) {
            return None;
        }
        self.opened += 1;
        let _ = self.state.reserve(self.opened as usize);
        let share = self.rest.split_off(1, 0);
        Some(Pass {
            share,
            worker,
            seen: 0,
            seat: 0,
            aside: None,
        })
    }

    /// The total, once, where the passes are all that were opened; else they come back.
    pub fn gather(&mut self, passes: Vec<Pass<L>>) -> Result<u64, Vec<Pass<L>>>
        requires { L.parts ≡ 65536 }
        ensures state { self.new.state ≡ self.old.state }
        ensures when { IsOk result ↔ ((vec_len passes ≡ self.old.opened) × (self.old.gathered ≡ false)) }
        ensures total { IfOk result (λ n. n ≡ self.old.state.answers) }
        ensures sum { IfOk result (λ n. n ≡ sum_by (λ (p : Pass L). p.share.amount) passes.items) }
        ensures once { OnOk result (self.new.gathered ≡ true) }
        ensures back { IfErr result (λ back. back ≡ passes) }
        ensures open { OnErr result ((self.new.gathered ≡ self.old.gathered) × (self.new.opened ≡ self.old.opened)) }
    {
        if passes.len() as u64 != self.opened || self.gathered {
            return Err(passes);
        }
        self.opened = 0;
        self.gathered = true;
        merge_all(&mut self.rest, passes);
        self.total.audit(&mut self.rest);
        Ok(self.state.answers())
    }
}

// Adds the shares of passes to this one.
fn merge_all<L: Ledger>(rest: &mut Share<L>, passes: Vec<Pass<L>>)
    ensures parts { rest.new.parts ≡ rest.old.parts + vec_len passes }
    ensures amount { rest.new.amount ≡ rest.old.amount + sum_by (λ (p : Pass L). p.share.amount) passes.items }
{
    for pass in passes {
        rest.merge(pass.share);
    }
}
