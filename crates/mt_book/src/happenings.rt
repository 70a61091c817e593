//! Which states of a book may follow one another.

use mt_core::State;
use mt_history::Follows;

/// A state follows another one where a period leads from the one to the other.
pub struct Periods;

impl Follows<State> for Periods {
    ghost use Rattle.mt_book.specs.Happens.{Leads};

    ghost follows = { λ v w. Leads v w };
}
