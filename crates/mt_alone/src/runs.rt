//! An operation that is run by itself.

ghost use Rattle.mt_alone.specs.Runs.{IsOnly, Finishes};

use mt_core::{State, Ticket};
use mt_rows::Reply;
use mt_state::Move;

/// Why an operation has no answer yet.
#[derive(Drop)]
pub(crate) enum Unfinished {
    /// All step numbers are given.
    Spent(Ticket),
    /// There is no memory for a node that its split needs.
    Stuck(Ticket),
}

/// Runs the only operation that is open, and takes its answer.
pub(crate) fn finish(state: &mut State, ticket: Ticket) -> Result<Reply, Unfinished>
    requires { IsOnly state.old ticket.id }
    ensures { Finishes state.old state.new ticket.id result }
{
    match state.run_alone(&ticket) {
        Move::Done => match state.take(ticket) {
            Ok(answer) => {
                state.tidy();
                Ok(answer.reply)
            }
            Err(_) => unreachable!(),
        },
        Move::Spent => Err(Unfinished::Spent(ticket)),
        Move::NoMemory => {
            state.facts();
            Err(Unfinished::Stuck(ticket))
        }
        Move::Moved => unreachable!(),
        Move::Again { holder: _ } => unreachable!(),
        Move::NoSuch => unreachable!(),
    }
}
