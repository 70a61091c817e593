//! What a settled number says, over any logs; each the contract of a function that does nothing.

ghost use Rattle.std.specs.Prelude.{◌<◌, ◌≤◌, ℕ, Ok};
ghost use Rattle.mt_settle.specs.{Turns.{Turn, BroughtUp}, Settles.Settles};

use crate::logs::Logs;

/// Where no step is undone, and each log tells at least the steps that were made when its turn began: a
/// settled number is at least the number of steps made when its Settle began.
pub fn a_settled_number_is_not_early<S: Logs>()
    ensures { (steps : S → ℕ) (count n : ℕ) (old new : S) →
        ((s t : S) (turn : Turn) → S.does s turn t → steps s ≤ steps t) →
        ((s t : S) (log mark : ℕ) → S.does s (BroughtUp log (Ok mark)) t → steps s ≤ mark) →
        Settles S.does count old new (Ok n) → steps old ≤ n }
{}

/// Where a log that was brought up to date reaches what it told, and no such turn takes any log back: a settled
/// number is at most what every log reaches.
pub fn a_settled_number_is_reached<S: Logs>()
    ensures { (reach : S → ℕ → ℕ) (count n log : ℕ) (old new : S) →
        ((s t : S) (turn mark k : ℕ) → S.does s (BroughtUp turn (Ok mark)) t → reach s k ≤ reach t k) →
        ((s t : S) (turn mark : ℕ) → S.does s (BroughtUp turn (Ok mark)) t → mark ≤ reach t turn) →
        Settles S.does count old new (Ok n) → log < count → n ≤ reach new log }
{}
