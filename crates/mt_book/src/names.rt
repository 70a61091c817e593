//! What a book is told apart by.

ghost use Rattle.std.specs.Prelude.{◌≡◌, [], ◌∷◌};

use crate::books::PARTS;
use crate::happenings::Periods;
use mt_core::State;
use mt_history::Opened;
use std::sync::ledger::Blank;

/// The names of a book that isn't made yet: that of the ledger of its answers, that of its history, and that of the
/// ledger of the history's states.
#[derive(Drop)]
pub struct Names {
    pub answers: Blank,
    pub history: Opened<State, Periods>,
    pub states: Blank,
}

impl Names {
    /// New names, for a book of this state.
    pub fn new(state: &State) -> Names
        ensures answers { result.answers.parts ≡ 65536 }
        ensures states { result.states.parts ≡ 65536 }
        ensures begins { result.history.seen.log ≡ state.now ∷ [] }
    {
        Names {
            answers: Blank::new(PARTS),
            history: Opened::new(state),
            states: Blank::new(PARTS),
        }
    }
}
