//! What lies under the lock: the book, and the history of its states.

ghost use Rattle.std.specs.Prelude.{◌≡◌, ◌+◌, ◌<◌, ◌≤◌, true, [], ◌∷◌, ◌++◌, length, IfOk, IfErr, IfSome, IfNone, OnErr};
ghost use Rattle.std.specs.List.{sum_by};
ghost use Rattle.mt_batches.specs.Batches.{IsBounded, BringsOn};
ghost use mathlib.Core.List.{IsPrefix};
ghost use Rattle.mt_history.specs.Legal.{EndsWith, IsLegal};
ghost use Rattle.mt_book.specs.{declared.passes.Pass.Pass, Books.IsRightBook, Happens.{Adds, Acted, Opened, Given, Leads}, Keeping.{IsUnasked, BeginsUnasked}, Names.AreNames, Serves.{Serves, clerk_of}};
ghost use Rattle.mt_book.specs.Periods.{IsOfWorker, look_period, admission_period, FitsAdmission, step_period, FitsStepping, taking_period, FitsTaking, room_of, answers_in};

use crate::births::{Born, clear, expect_own, note, seated};
use crate::books::{Book, PARTS};
use crate::desks::{Admission, Desk, Look, Stepping, Taking};
use crate::gates::Turned;
use crate::happenings::Periods;
use crate::names::Names;
use crate::passes::Pass;
use mt_core::{Displaced, Opening, State, Ticket};
use mt_drains::DrainedBatch;
use mt_history::{Mark, Naming, Tip};
use std::alloc::{AllocError, Global};
use std::marker::Model;
use std::sync::Wait;
use std::sync::ledger::{Ledger, Share};
use std::time::Clock;

/// A book and the history that led to its state, which it knows whole. By the seats of its passes, what each began last.
#[derive(Drop)]
pub struct Kept<L: Ledger, J: Naming> {
    book: Book<L>,
    tip: Tip<State, Periods, J>,
    rest: Share<J>,
    marks: u64,
    births: Vec<Option<Born>>,
}

impl<L: Ledger, J: Naming> Model for Kept<L, J> {
    ghost use Rattle.std.specs.Prelude.{◌≡◌, ◌+◌};
    ghost use Rattle.mt_history.specs.Legal.{EndsWith};
    ghost use Rattle.mt_book.specs.{Keeping.{KeptView, BeginsUnasked}, Births.AreBorn};

    ghost Value = { KeptView };

    ghost view = { λ k. record { state = k.book.state; log = k.tip; total = k.book.total.total; parts = k.book.rest.parts; opened = k.book.opened; marks = k.marks } };

    ghost invariant = { λ k. EndsWith k.tip k.book.state × BeginsUnasked k.tip × (k.rest.parts + k.marks ≡ 65536) × (k.rest.amount ≡ 0) × (J.parts ≡ 65536) × AreBorn k.book.state.table k.births.items };
}

impl<L: Ledger, J: Naming> Kept<L, J> {
    /// A book of a state of which nothing was asked, under these names. Its history begins with the state.
    pub fn new(alloc: Global, names: Names, state: State) -> Kept<L, J>
        requires names { AreNames L.name L.parts J.name J.parts J.book names state }
        requires unasked { IsUnasked state }
        ensures state { result.state ≡ state }
        ensures log { result.log ≡ state ∷ [] }
    {
        let Names {
            answers,
            history,
            states,
        } = names;
        let (tip, rest) = history.named::<J>(states);
        Kept {
            book: Book::new(answers, state),
            tip,
            rest,
            marks: 0,
            births: Vec::new(alloc),
        }
    }

    /// The book.
    pub fn into_book(self) -> Book<L>
        ensures { result.state ≡ self.state }
    {
        self.book
    }

    /// What holds whenever the lock is free: all that holds of a book; and the history ends with its state.
    pub fn facts(&self)
        ensures book { IsRightBook self.now.state self.now.total self.now.parts self.now.opened }
        ensures ends { EndsWith self.now.log self.now.state }
    {
        self.book.facts();
    }

    pub(crate) fn look<R: Wait + Clock>(
        &mut self,
        rt: &R,
        mark: &mut Mark<State, Periods, J>,
    ) -> Look
        ensures { Adds (Acted (look_period result)) mark.old mark.new }
    {
        self.book.facts();
        let look = Desk::look(&mut self.book, rt);
        self.tip.add(rt, mark, self.book.state());
        look
    }

    pub(crate) fn admit<R: Wait + Clock>(
        &mut self,
        rt: &R,
        pass: &Pass<L>,
        opening: Opening,
        mark: &mut Mark<State, Periods, J>,
        birth: &mut u64,
    ) -> Admission
        requires { IsOfWorker pass.now.worker opening.made }
        ensures does { Serves (clerk_of mark.old birth.old) (admission_period opening result) (clerk_of mark.new birth.new) }
        ensures fits { FitsAdmission pass.now.seen pass.now.worker opening result }
    {
        self.book.facts();
        let admission = Desk::admit(&mut self.book, rt, pass, opening);
        note(rt, &mut self.births, pass.seat, &admission, birth);
        self.tip.add(rt, mark, self.book.state());
        admission
    }

    pub(crate) fn step<R: Wait + Clock>(
        &mut self,
        rt: &R,
        pass: &Pass<L>,
        turned: Turned,
        ticket: &Ticket,
        mark: &mut Mark<State, Periods, J>,
        birth: u64,
    ) -> Stepping
        requires { turned.op ≡ ticket.now.id }
        ensures does { Serves (clerk_of mark.old birth) (step_period ticket.now.id turned result) (clerk_of mark.new birth) }
        ensures fits { FitsStepping pass.now.seen result }
    {
        expect_own(rt, &self.births, pass.seat, ticket, birth);
        self.book.facts();
        let stepping = Desk::step(&mut self.book, rt, pass, turned, ticket);
        self.tip.add(rt, mark, self.book.state());
        stepping
    }

    pub(crate) fn take<R: Wait + Clock>(
        &mut self,
        rt: &R,
        pass: &mut Pass<L>,
        ticket: Ticket,
        displaced: &mut Displaced,
        mark: &mut Mark<State, Periods, J>,
        birth: u64,
    ) -> Taking
        ensures does { Serves (clerk_of mark.old birth) (taking_period ticket.id (room_of displaced.old) result) (clerk_of mark.new birth) }
        ensures fits { FitsTaking pass.old.seen ticket result }
        ensures kept { answers_in result.told ≡ 0 → displaced.new ≡ displaced.old }
        ensures share { pass.new.share.amount ≡ pass.old.share.amount + answers_in result.told }
        ensures worker { pass.new.worker ≡ pass.old.worker }
        ensures seen { pass.new.seen ≡ pass.old.seen }
    {
        let seat = pass.seat;
        expect_own(rt, &self.births, seat, &ticket, birth);
        self.book.facts();
        let taking = Desk::take(&mut self.book, rt, pass, ticket, displaced);
        clear(&mut self.births, seat, &taking);
        self.tip.add(rt, mark, self.book.state());
        taking
    }

    /// A mark that has seen the whole history; none if 65,535 were given.
    pub fn open_mark(&mut self) -> Option<Mark<State, Periods, J>>
        ensures mark { IfSome result (λ mark. (mark.log ≡ self.new.log) × (mark.made ≡ 0)) }
        ensures log { self.new.log ≡ self.old.log }
        ensures state { self.new.state ≡ self.old.state }
    {
        if self.marks >= PARTS - 1 {
            return None;
        }
        self.marks += 1;
        let made = self.rest.split_off(1, 0);
        Some(self.tip.mark(made))
    }

    pub(crate) fn open_pass<R: Wait>(
        &mut self,
        rt: &R,
        worker: u8,
    ) -> Option<(Pass<L>, Mark<State, Periods, J>)>
        ensures { IfSome result (λ r. (r.0.worker ≡ worker) × (r.0.seen ≡ 0) × (r.0.share.amount ≡ 0) × (r.1.log ≡ self.new.log) × (r.1.made ≡ 1)) }
    {
        if self.marks >= PARTS - 1 {
            return None;
        }
        let seat = seated(&mut self.births)?;
        self.book.facts();
        let mut pass = self.book.open_pass(worker)?;
        pass.seat = seat;
        self.marks += 1;
        let mut mark = self.tip.mark(self.rest.split_off(1, 0));
        self.tip.add(rt, &mut mark, self.book.state());
        Some((pass, mark))
    }

    pub(crate) fn has_log(&self, worker: u8, upto: u64) -> bool
        ensures log { result ≡ true → worker < length self.now.state.logs }
        ensures steps { result ≡ true → upto ≤ self.now.state.steps }
    {
        worker < self.book.logs() && self.book.steps() >= upto
    }

    pub(crate) fn drain<R: Wait>(
        &mut self,
        rt: &R,
        worker: u8,
        upto: u64,
        mark: &mut Mark<State, Periods, J>,
    ) -> Result<DrainedBatch, AllocError>
        requires log { worker < length self.old.state.logs }
        requires steps { upto ≤ self.old.state.steps }
        ensures worker { IfOk result (λ drained. drained.worker ≡ worker) }
        ensures bounded { IfOk result (λ drained. IsBounded drained.batch) }
        ensures brings { IfOk result (λ drained. BringsOn upto drained.batch) }
        ensures does { IfOk result (λ drained. Adds (Given worker drained.batch) mark.old mark.new) }
        ensures same { OnErr result (mark.new ≡ mark.old) }
    {
        self.book.facts();
        match self.book.drain(worker) {
            Ok(drained) => {
                self.tip.add(rt, mark, self.book.state());
                Ok(drained)
            }
            Err(fault) => Err(fault),
        }
    }

    /// How many marks were given.
    pub(crate) fn marks(&self) -> u64
        ensures { result ≡ self.now.marks }
    {
        self.marks
    }

    pub(crate) fn gather(&mut self, passes: Vec<Pass<L>>) -> Result<u64, Vec<Pass<L>>>
        requires { L.parts ≡ 65536 }
        ensures total { IfOk result (λ n. n ≡ self.new.state.answers) }
        ensures sum { IfOk result (λ n. n ≡ sum_by (λ (p : Pass L). p.share.amount) passes.items) }
        ensures back { IfErr result (λ back. back ≡ passes) }
        ensures marks { self.new.marks ≡ self.old.marks }
    {
        self.book.gather(passes)
    }

    /// The parts of the history's ledger that no mark has. No mark is given any more.
    pub(crate) fn take_parts(&mut self) -> Share<J>
        ensures parts { result.parts + self.old.marks ≡ 65536 }
        ensures amount { result.amount ≡ 0 }
        ensures state { self.new.state ≡ self.old.state }
    {
        let marks = self.marks;
        self.marks = PARTS;
        self.rest.split_off(PARTS - marks, 0)
    }

    /// Takes a mark back after a last look, and adds its part of the ledger to others.
    pub(crate) fn take_back<R: Wait + Clock>(
        &mut self,
        rt: &R,
        mark: Mark<State, Periods, J>,
        parts: &mut Share<J>,
    )
        ensures state { self.new.state ≡ self.old.state }
        ensures upto { IsPrefix self.old.log self.new.log }
        ensures seen { IsPrefix mark.log self.new.log }
        ensures parts { parts.new.parts ≡ parts.old.parts + 1 }
        ensures amount { parts.new.amount ≡ parts.old.amount + (mark.made + 1) }
    {
        let mut mark = mark;
        self.book.facts();
        let _ = Desk::look(&mut self.book, rt);
        self.tip.add(rt, &mut mark, self.book.state());
        parts.merge(mark.into_part());
    }

    /// All parts of the ledger count each state but the first.
    pub(crate) fn audit(&mut self, all: &mut Share<J>)
        requires { all.old.parts ≡ 65536 }
        ensures state { self.new.state ≡ self.old.state }
        ensures log { self.new.log ≡ self.old.log }
        ensures amount { all.new.amount ≡ all.old.amount }
        ensures counted { length self.new.log ≡ all.new.amount + 1 }
        ensures legal { IsLegal Leads self.new.log }
        ensures begins { BeginsUnasked self.new.log }
        ensures ends { EndsWith self.new.log self.new.state }
    {
        self.tip.facts();
        self.tip.audit(all);
    }
}
