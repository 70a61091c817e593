//! Laws of gates, each the contract of a function that does nothing.

ghost use Rattle.std.specs.Prelude.{◌≢◌, ◌⊎◌, ℕ, List, Some, slice_get};
ghost use Rattle.mt_gates.specs.Gates.{IsLeftOf, HasOpen};

/// What may be left of such a file has another gate than 01, or the text after an open one.
pub fn what_is_left_counts_whole_or_not_at_all()
    ensures { (text image : List ℕ) → IsLeftOf text image → (slice_get image 0 ≢ Some 1) ⊎ HasOpen text image }
{}
