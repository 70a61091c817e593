//! Which operation is a pass's own.
//!
//! A ticket's id is given again, and nothing in a contract says that a ticket stays with its caller. So the book notes
//! for each pass, at its seat, what it began last, and each later period of the pass compares.

ghost use Rattle.std.specs.Prelude.{◌≡◌, ◌<◌, Some, length, vec_len};
ghost use Rattle.mt_state.specs.Views.{Shown};
ghost use Rattle.mt_core.specs.Admitted.{OpeningView};
ghost use Rattle.mt_book.specs.{Births.{born_at, AreBorn, noted, cleared}, Periods.admission_deed, Serves.birth_by};

use crate::desks::{Admission, Admitted, Taken, Taking};
use mt_core::Ticket;
use std::sync::Wait;

/// An operation: its id, and how many steps had been made when it was begun.
#[derive(Clone, Copy, Drop)]
pub struct Born {
    pub id: u64,
    pub birth: u64,
}

/// A seat for one pass more, at which nothing stands; none if memory is refused.
pub(crate) fn seated(births: &mut Vec<Option<Born>>) -> Option<usize>
    ensures { (table : Shown) → AreBorn table births.old.items → AreBorn table births.new.items }
{
    let seat = births.len();
    match births.push(None) {
        Ok(()) => Some(seat),
        Err(_) => None,
    }
}

/// Notes what was begun, and its birth for the clerk. A pass without a seat would be waited for for ever.
pub(crate) fn note<R: Wait>(
    rt: &R,
    births: &mut Vec<Option<Born>>,
    seat: usize,
    admission: &Admission,
    birth: &mut u64,
)
    ensures births { births.new.items ≡ noted births.old.items seat admission.now.steps admission.now.told }
    ensures seat { seat < vec_len births.old }
    ensures birth { (opening : OpeningView) → birth.new ≡ birth_by admission.now.steps birth.old (admission_deed opening admission.now.logs admission.now.told) }
{
    if seat >= births.len() {
        return never(rt);
    }
    if let Admitted::Begun(ticket, _) = &admission.told {
        *birth = admission.steps;
        births[seat] = Some(Born {
            id: ticket.id(),
            birth: admission.steps,
        });
    }
}

/// This operation stands at the seat, with this birth. Any other one would be waited for for ever.
pub(crate) fn expect_own<R: Wait>(
    rt: &R,
    births: &[Option<Born>],
    seat: usize,
    ticket: &Ticket,
    birth: u64,
)
    ensures there { seat < length births.now }
    ensures own { born_at births.now seat ≡ Some (record { id = ticket.now.id; birth = birth }) }
{
    match births.get(seat) {
        Some(Some(own)) if own.id == ticket.id() && own.birth == birth => {}
        _ => never(rt),
    }
}

/// Nothing stands at the seat of a pass whose answer was taken.
pub(crate) fn clear(births: &mut Vec<Option<Born>>, seat: usize, taking: &Taking)
    requires { seat < vec_len births.old }
    ensures { births.new.items ≡ cleared births.old.items seat taking.now.told }
{
    if let Taken::Answered(_) = &taking.told {
        births[seat] = None;
    }
}

// Waits for ever.
fn never<T, R: Wait>(rt: &R) -> T
    ensures { ⊥ }
{
    for _ in rt.forever() {}
    unreachable!()
}
