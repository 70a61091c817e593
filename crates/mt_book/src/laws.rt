//! The laws of a history, each the contract of a function that does nothing.

ghost use Rattle.std.specs.Prelude.{◌≡◌, ℕ, List, Option};
ghost use Rattle.mt_state.specs.Views.{StateView};
ghost use Rattle.mt_history.specs.Legal.{Along};
ghost use Rattle.mt_rows.specs.{Accounts.Accounts, declared.record.TenantPair.TenantPair};
ghost use Rattle.mt_state.specs.Begins.{new_state};
ghost use Rattle.mt_core.specs.Restores.{IsRestored};
ghost use Rattle.mt_book.specs.{Happens.{Happening, Leads}, Keeping.IsUnasked, OneRun.{AreTold, HasAll}};

/// One run leads through the states of a legal history, and has all that was told of it, by whichever threads, each at
/// its place.
pub fn one_run_has_all_that_was_told()
    ensures { (told : ℕ → Option Happening) (s : StateView) (log : List StateView) → Along Leads s log → AreTold told s log → HasAll told s log }
{}

/// Nothing was asked of a new state, nor of one that was restored.
pub fn nothing_was_asked_at_first()
    ensures new { (logs : ℕ) (accounts : Accounts) → IsUnasked (new_state logs accounts) }
    ensures restored { (steps logs : ℕ) (accounts : Accounts) (ps : List TenantPair) (v : StateView) → IsRestored steps logs accounts ps v → IsUnasked v }
{}
