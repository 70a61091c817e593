//! What a run of events on a new state is, where each was answered as it may be. Each is a contract
//! alone: no code runs.

ghost use Rattle.std.specs.Prelude.{◌≡◌, ◌⊎◌, ℕ, true, Some};
ghost use Rattle.mt_rows.specs.{declared.tenants.Account.Account, Accounts.{Accounts, account_of}, Maps.is_get};
ghost use Rattle.mt_rows.specs.{declared.reply.Reply.TheVariants.{Absent, Found, NoMemory}, Stamps.Stamped};
ghost use Rattle.mt_runs.specs.{declared.event.Answer.Answer, Runs.{Run, Asked, Finished, story_of}, Placings.{no_pairs, HasOneOrder}};
ghost use Rattle.mt_state.specs.{Views.{StateView, quota_in}, Begins.new_state, Histories.{Names, no_names, BringsTo}, OneGet.one_get};

/// One order explains each run of events on a new state that were answered as they may be, whichever
/// operations it began, and in whatever turn they made their steps.
pub fn told_runs_have_one_order()
    ensures { (logs : ℕ) (accounts : Accounts) (run : Run) (names : Names) (v : StateView) → BringsTo no_names (new_state logs accounts) run names v →
        HasOneOrder (λ t. quota_in (account_of accounts t)) no_pairs (story_of 0 run) }
{}

/// A run on a new state that asks gets alone finds no pair: where such a run ends a get with a row, it
/// was not answered as it may be.
pub fn gets_of_a_new_state_find_nothing()
    ensures { (logs : ℕ) (accounts : Accounts) (run : Run) (names : Names) (v : StateView) → BringsTo no_names (new_state logs accounts) run names v →
        ((q : ℕ) (w : Asked) → (story_of 0 run).asked q ≡ Some w → is_get w.command ≡ true) →
        (o : ℕ) (a : Answer) → Finished (story_of 0 run) o a → (a.reply ≡ Absent) ⊎ (a.reply ≡ NoMemory) }
{}

/// A get of a new state may be told that its key is missing, and is told of no row.
pub fn a_get_of_a_new_state_is_told_of_no_row()
    ensures told { (logs : ℕ) (accounts : Accounts) (a : Account) → account_of accounts 7 ≡ Some a → (names : Names) × (v : StateView) × BringsTo no_names (new_state logs accounts) (one_get Absent) names v }
    ensures no_row { (logs : ℕ) (accounts : Accounts) (row : Stamped) (names : Names) (v : StateView) → ¬ BringsTo no_names (new_state logs accounts) (one_get (Found row)) names v }
{}
