//! Desks: where a call does its lock periods.

ghost use Rattle.std.specs.Prelude.{◌≡◌, ◌+◌};
ghost use Rattle.mt_book.specs.Periods.{IsOfWorker, look_period, admission_period, FitsAdmission, Period, step_period, FitsStepping, taking_period, FitsTaking, room_of, answers_in};

use crate::gates::Turned;
use crate::passes::Pass;
use mt_core::{Displaced, Opening, Ticket};
use mt_operation::Phase;
use mt_rows::Refusal;
use mt_runs::Answer;
use mt_state::Move;
use std::sync::Wait;
use std::sync::ledger::Ledger;
use std::time::Clock;

/// What a period showed that did nothing.
#[derive(Drop)]
pub struct Look {
    pub steps: u64,
    pub logs: u8,
}

/// What a period showed that was to begin a command.
#[derive(Drop)]
pub struct Admission {
    pub steps: u64,
    pub logs: u8,
    pub told: Admitted,
}

/// What became of the opening.
#[derive(Drop)]
pub enum Admitted {
    /// Nothing was begun: there are fewer steps than the pass saw, or no log of its worker.
    Early(Opening),
    /// The operation was begun; this is what its first step does.
    Begun(Ticket, Phase),
    /// Nothing was begun, for this cause.
    Refused(Refusal),
}

/// What a period showed that was to make a step: no move and no phase where fewer steps were made than
/// the pass saw. `phase` is what the operation's next step does, if one is left.
#[derive(Drop)]
pub struct Stepping {
    pub steps: u64,
    pub move_made: Option<Move>,
    pub phase: Option<Phase>,
}

/// What a period showed that was to take the answer.
#[derive(Drop)]
pub struct Taking {
    pub steps: u64,
    pub told: Taken,
}

/// What became of the ticket.
#[derive(Drop)]
pub enum Taken {
    /// Nothing was done: there are fewer steps than the pass saw.
    Early(Ticket),
    /// The operation isn't finished, or not there.
    Open(Ticket),
    /// The answer was taken.
    Answered(Answer),
}

/// One function a lock period. `does` tells what the desk says of a period, and may say nothing.
pub trait Desk<L: Ledger> {
    ghost does: { Self → Period → Self → Type 0 };

    /// Shows how many steps were made, and how many logs there are.
    fn look<R: Wait + Clock>(&mut self, rt: &R) -> Look
        ensures { does self.old (look_period result) self.new };

    /// Begins the operation of an opening for a pass.
    fn admit<R: Wait + Clock>(&mut self, rt: &R, pass: &Pass<L>, opening: Opening) -> Admission
        requires { IsOfWorker pass.now.worker opening.made }
        ensures does { does self.old (admission_period opening result) self.new }
        ensures fits { FitsAdmission pass.now.seen pass.now.worker opening result };

    /// Makes one step of an operation, for which the gate was called.
    fn step<R: Wait + Clock>(
        &mut self,
        rt: &R,
        pass: &Pass<L>,
        turned: Turned,
        ticket: &Ticket,
    ) -> Stepping
        requires { turned.op ≡ ticket.now.id }
        ensures does { does self.old (step_period ticket.now.id turned result) self.new }
        ensures fits { FitsStepping pass.now.seen result };

    /// Takes an operation's answer, which counts in the pass's share, and tidies with the room of the list.
    /// What the period displaces is handed out, to be freed after it. Without an answer nothing is.
    fn take<R: Wait + Clock>(
        &mut self,
        rt: &R,
        pass: &mut Pass<L>,
        ticket: Ticket,
        displaced: &mut Displaced,
    ) -> Taking
        ensures does { does self.old (taking_period ticket.id (room_of displaced.old) result) self.new }
        ensures fits { FitsTaking pass.old.seen ticket result }
        ensures kept { answers_in result.told ≡ 0 → displaced.new ≡ displaced.old }
        ensures share { pass.new.share.amount ≡ pass.old.share.amount + answers_in result.told }
        ensures worker { pass.new.worker ≡ pass.old.worker }
        ensures seen { pass.new.seen ≡ pass.old.seen };
}
