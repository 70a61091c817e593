//! The book as a desk: owned alone, or under a lock that many threads share.

ghost use Rattle.std.specs.{Prelude.{◌≡◌, ◌+◌, vec_len, IfSome, IfNone, IfOk, IfErr, OnErr}, List.{AllByRecursion, sum_by}};
ghost use Rattle.mt_batches.specs.Batches.{IsBounded, BringsOn};
ghost use mathlib.Core.List.{IsPrefix};
ghost use Rattle.mt_history.specs.Legal.{EndsWith, IsLegal};
ghost use Rattle.mt_book.specs.{declared.passes.Pass.Pass, Books.IsRightBook, Happens.{Adds, Given, Leads}, Keeping.IsWhole};

use crate::baton_lock::BatonLock;
use crate::books::Book;
use crate::desks::{Admission, Admitted, Desk, Look, Stepping, Taken, Taking};
use crate::gates::Turned;
use crate::happenings::Periods;
use crate::kept::Kept;
use crate::passes::Pass;
use mt_core::{Displaced, Opening, State, Ticket};
use mt_drains::DrainedBatch;
use mt_history::{Mark, Naming};
use std::alloc::AllocError;
use std::sync::ledger::{Ledger, Share};
use std::sync::{MutexGuard, Wait};
use std::thread;
use std::time::Clock;

/// A book that is owned alone: each period says all that it did to the state.
impl<L: Ledger> Desk<L> for Book<L> {
    ghost use Rattle.mt_book.specs.Does.{DoesState};

    ghost does = { λ old p new. DoesState old.state p new.state };

    fn look<R: Wait + Clock>(&mut self, _rt: &R) -> Look {
        Look {
            steps: self.steps(),
            logs: self.logs(),
        }
    }

    fn admit<R: Wait + Clock>(&mut self, _rt: &R, pass: &Pass<L>, opening: Opening) -> Admission {
        let (steps, logs) = (self.steps(), self.logs());
        let told = if steps < pass.seen() || pass.worker() >= logs.max(1) {
            Admitted::Early(opening)
        } else {
            match self.admit(opening) {
                Ok(ticket) => {
                    let phase = self.phase(&ticket).unwrap();
                    Admitted::Begun(ticket, phase)
                }
                Err(refusal) => Admitted::Refused(refusal),
            }
        };
        Admission { steps, logs, told }
    }

    fn step<R: Wait + Clock>(
        &mut self,
        _rt: &R,
        pass: &Pass<L>,
        turned: Turned,
        ticket: &Ticket,
    ) -> Stepping {
        let _ = turned.spend();
        let steps = self.steps();
        if steps < pass.seen() {
            return Stepping {
                steps,
                move_made: None,
                phase: None,
            };
        }
        let move_made = Some(self.step(ticket));
        let phase = self.phase(ticket);
        Stepping {
            steps,
            move_made,
            phase,
        }
    }

    fn take<R: Wait + Clock>(
        &mut self,
        _rt: &R,
        pass: &mut Pass<L>,
        ticket: Ticket,
        displaced: &mut Displaced,
    ) -> Taking {
        let steps = self.steps();
        if steps < pass.seen() {
            let told = Taken::Early(ticket);
            return Taking { steps, told };
        }
        match self.take(ticket, pass, displaced) {
            Ok(answer) => {
                self.tidy(displaced);
                let told = Taken::Answered(answer);
                Taking { steps, told }
            }
            Err(ticket) => {
                let told = Taken::Open(ticket);
                Taking { steps, told }
            }
        }
    }
}

/// A book and its history under the lock that many threads share.
pub type BookLock<L, J> = BatonLock<Kept<L, J>>;

// The lock. What stands behind it is right, whenever it is free, and the history ends with it.
#[inline(always)]
fn locked<'a, L: Ledger, J: Naming, R: Wait + Clock>(
    rt: &R,
    shared: &'a BookLock<L, J>,
) -> MutexGuard<'a, Kept<L, J>>
    ensures right { IsRightBook result.value.state result.value.total result.value.parts result.value.opened }
    ensures ends { EndsWith result.value.log result.value.state }
{
    let guard = shared.locked(rt);
    guard.facts();
    guard
}

/// A book under a lock, for one caller, with what it has seen of the book's history. Others use the book between two
/// periods. Each period adds one state to the history, and says what it did to the last one. `birth` is that of the
/// operation that was begun last.
#[derive(Drop)]
pub struct Clerk<'a, L: Ledger, J: Naming> {
    lock: &'a BookLock<L, J>,
    mark: Mark<State, Periods, J>,
    birth: u64,
}

impl<'a, L: Ledger, J: Naming> Clerk<'a, L, J> {
    /// The clerk of a mark that was given before the book was locked.
    pub fn new(lock: &'a BookLock<L, J>, mark: Mark<State, Periods, J>) -> Self
        ensures lock { result.lock.now ≡ lock.now }
        ensures mark { result.mark ≡ mark }
    {
        Clerk {
            lock,
            mark,
            birth: 0,
        }
    }

    /// What two clerks have seen are beginnings of one history. Afterwards this one has seen what both had.
    pub fn learn(&mut self, other: &Clerk<'_, L, J>)
        ensures this { IsPrefix self.old.mark.log self.new.mark.log }
        ensures that { IsPrefix other.now.mark.log self.new.mark.log }
        ensures made { self.new.mark.made ≡ self.old.mark.made }
        ensures legal { IsLegal Leads self.new.mark.log }
    {
        self.mark.learn(&other.mark);
    }
}

impl<L: Ledger, J: Naming> Desk<L> for Clerk<'_, L, J> {
    ghost use Rattle.mt_book.specs.Serves.{Serves, clerk_of};

    ghost does = { λ old p new. Serves (clerk_of old.mark old.birth) p (clerk_of new.mark new.birth) };

    fn look<R: Wait + Clock>(&mut self, rt: &R) -> Look {
        locked(rt, self.lock).look(rt, &mut self.mark)
    }

    fn admit<R: Wait + Clock>(&mut self, rt: &R, pass: &Pass<L>, opening: Opening) -> Admission {
        locked(rt, self.lock).admit(rt, pass, opening, &mut self.mark, &mut self.birth)
    }

    fn step<R: Wait + Clock>(
        &mut self,
        rt: &R,
        pass: &Pass<L>,
        turned: Turned,
        ticket: &Ticket,
    ) -> Stepping {
        locked(rt, self.lock).step(rt, pass, turned, ticket, &mut self.mark, self.birth)
    }

    fn take<R: Wait + Clock>(
        &mut self,
        rt: &R,
        pass: &mut Pass<L>,
        ticket: Ticket,
        displaced: &mut Displaced,
    ) -> Taking {
        locked(rt, self.lock).take(rt, pass, ticket, displaced, &mut self.mark, self.birth)
    }
}

/// A pass for a worker, which has seen no step, and its clerk. There is none if the total was told, if there is no such
/// worker, if 65,535 clerks were given, or if memory for its seat is refused.
pub fn open_pass<'a, L: Ledger, J: Naming, R: Wait + Clock>(
    rt: &R,
    book: &'a BookLock<L, J>,
    worker: u8,
) -> Option<(Pass<L>, Clerk<'a, L, J>)>
    ensures pass { IfSome result (λ r. (r.0.worker ≡ worker) × (r.0.seen ≡ 0) × (r.0.share.amount ≡ 0)) }
    ensures clerk { IfSome result (λ r. (r.1.lock.now ≡ book.now) × (r.1.mark.made ≡ 1)) }
{
    let (pass, mark) = locked(rt, book).open_pass(rt, worker)?;
    Some((pass, Clerk::new(book, mark)))
}

/// A clerk without a pass: it looks, and drains. There is none if 65,535 clerks were given.
pub fn open_clerk<'a, L: Ledger, J: Naming, R: Wait + Clock>(
    rt: &R,
    book: &'a BookLock<L, J>,
) -> Option<Clerk<'a, L, J>>
    ensures { IfSome result (λ clerk. (clerk.lock.now ≡ book.now) × (clerk.mark.made ≡ 0)) }
{
    let mark = locked(rt, book).open_mark()?;
    Some(Clerk::new(book, mark))
}

/// The next batch of a worker's log, in a period of its own. It goes up to the step `upto` at least, or it is full.
/// While the book has no log of this worker, or fewer steps, it is asked again. An error comes if memory is refused;
/// then nothing is drained.
pub fn drain<L: Ledger, J: Naming, R: Wait + Clock>(
    rt: &R,
    clerk: &mut Clerk<'_, L, J>,
    worker: u8,
    upto: u64,
) -> Result<DrainedBatch, AllocError>
    ensures worker { IfOk result (λ drained. drained.worker ≡ worker) }
    ensures bounded { IfOk result (λ drained. IsBounded drained.batch) }
    ensures brings { IfOk result (λ drained. BringsOn upto drained.batch) }
    ensures does { IfOk result (λ drained. Adds (Given worker drained.batch) clerk.old.mark clerk.new.mark) }
    ensures same { OnErr result (clerk.new ≡ clerk.old) }
{
    for _ in rt.forever() {
        if let Some(drained) = drained(rt, clerk, worker, upto) {
            return drained;
        }
        thread::yield_now();
    }
    unreachable!()
}

// The same, unless there is no such log, or there are fewer steps.
fn drained<L: Ledger, J: Naming, R: Wait + Clock>(
    rt: &R,
    clerk: &mut Clerk<'_, L, J>,
    worker: u8,
    upto: u64,
) -> Option<Result<DrainedBatch, AllocError>>
    ensures worker { IfSome result (λ told. IfOk told (λ drained. drained.worker ≡ worker)) }
    ensures bounded { IfSome result (λ told. IfOk told (λ drained. IsBounded drained.batch)) }
    ensures brings { IfSome result (λ told. IfOk told (λ drained. BringsOn upto drained.batch)) }
    ensures does { IfSome result (λ told. IfOk told (λ drained. Adds (Given worker drained.batch) clerk.old.mark clerk.new.mark)) }
    ensures same { IfSome result (λ told. OnErr told (clerk.new ≡ clerk.old)) }
    ensures none { IfNone result (clerk.new ≡ clerk.old) }
{
    let mut guard = locked(rt, clerk.lock);
    if !guard.has_log(worker, upto) {
        return None;
    }
    Some(guard.drain(rt, worker, upto, &mut clerk.mark))
}

/// Passes and clerks that are given back.
pub type Callers<'a, L, J> = (Vec<Pass<L>>, Vec<Clerk<'a, L, J>>);

/// The total, once, if these are all passes and all clerks that were given; else they come back. Each clerk looks a last
/// time. The history is then known whole, and the total is the number of answers that were taken in it.
pub fn gather<'a, L: Ledger, J: Naming, R: Wait + Clock>(
    rt: &R,
    book: &BookLock<L, J>,
    passes: Vec<Pass<L>>,
    clerks: Vec<Clerk<'a, L, J>>,
) -> Result<u64, Callers<'a, L, J>>
    requires { L.parts ≡ 65536 }
    ensures sum { IfOk result (λ n. n ≡ sum_by (λ (p : Pass L). p.share.amount) passes.items) }
    ensures whole { IfOk result (λ n. IsWhole (λ (c : Clerk L J). c.mark) clerks.entry.items n) }
    ensures back { IfErr result (λ back. (back.0 ≡ passes) × (back.1 ≡ clerks.entry)) }
{
    let mut guard = locked(rt, book);
    if guard.marks() != clerks.len() as u64 {
        return Err((passes, clerks));
    }
    match guard.gather(passes) {
        Ok(answers) => {
            let mut parts = guard.take_parts();
            take_all_back(rt, &mut *guard, clerks, &mut parts);
            guard.audit(&mut parts);
            Ok(answers)
        }
        Err(passes) => Err((passes, clerks)),
    }
}

// Takes back the marks of these clerks, and adds their parts of the history's ledger to others.
fn take_all_back<L: Ledger, J: Naming, R: Wait + Clock>(
    rt: &R,
    kept: &mut Kept<L, J>,
    clerks: Vec<Clerk<'_, L, J>>,
    parts: &mut Share<J>,
)
    ensures state { kept.new.state ≡ kept.old.state }
    ensures seen { AllByRecursion (λ (c : Clerk L J). IsPrefix c.mark.log kept.new.log) clerks.entry.items }
    ensures parts { parts.new.parts ≡ parts.old.parts + vec_len clerks.entry }
    ensures amount { parts.new.amount ≡ parts.old.amount + (sum_by (λ (c : Clerk L J). c.mark.made) clerks.entry.items + vec_len clerks.entry) }
{
    for clerk in clerks {
        kept.take_back(rt, clerk.mark, parts);
    }
}
