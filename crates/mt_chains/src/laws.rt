//! Laws of choices, each the contract of a function that does nothing.

ghost use Rattle.std.specs.{Prelude.{◌≡◌, ◌+◌, ◌<◌, ℕ, List, ◌∷◌, map, None}, List.AllZip};
ghost use Rattle.mt_crashes.specs.Bases.{Slots};
ghost use Rattle.mt_generations.specs.Chains.{Chain, HasUse};
ghost use Rattle.mt_generations.specs.Standings.{Standing, AreFrom, IsLast, IsChosen, HaveNoChoice};
ghost use Rattle.mt_chains.specs.{declared.worker_logs.WorkerLogs.WorkerLogs, Files.{standing_of, SameNumbered}};

/// The last generation of which each worker has a log is chosen if some base may be used over the chains from there on.
/// Else the one before it is, if some base may be used over the chains from that one. Else there is no choice. From a
/// generation on there is one list of chains.
pub fn two_tests_make_a_choice()
    ensures last { (g : ℕ) (files : List Standing) (slots : Slots) (chains : List Chain) →
        IsLast g files → AreFrom g files chains → HasUse chains slots → IsChosen files slots g chains }
    ensures before { (g : ℕ) (files : List Standing) (slots : Slots) (chains later : List Chain) →
        IsLast (g + 1) files → AreFrom (g + 1) files later → ¬ HasUse later slots → AreFrom g files chains → HasUse chains slots →
        IsChosen files slots g chains }
    ensures neither { (g : ℕ) (files : List Standing) (slots : Slots) (later : List Chain) →
        IsLast (g + 1) files → AreFrom (g + 1) files later → ¬ HasUse later slots →
        ((chains : List Chain) → AreFrom g files chains → ¬ HasUse chains slots) → HaveNoChoice files slots }
    ensures none_before { (files : List Standing) (slots : Slots) (chains : List Chain) →
        IsLast 0 files → AreFrom 0 files chains → ¬ HasUse chains slots → HaveNoChoice files slots }
    ensures one_list { (g : ℕ) (files : List Standing) (chains others : List Chain) →
        AreFrom g files chains → AreFrom g files others → chains ≡ others }
{}

/// Plain files are read only if the chains begin at generation 0. A choice that was made without them is the choice
/// whatever they have, and it is of a numbered generation. If there is none without them, and the last generation of
/// which each worker has a log is over 1, there is none whatever they have.
pub fn plain_files_may_stay_unread()
    ensures chosen { (g : ℕ) (logs others : List WorkerLogs) (slots : Slots) (chains : List Chain) →
        0 < g → AllZip SameNumbered logs others → IsChosen (map standing_of logs) slots g chains → IsChosen (map standing_of others) slots g chains }
    ensures numbered { (g : ℕ) (worker : WorkerLogs) (others : List WorkerLogs) (slots : Slots) (chains : List Chain) →
        worker.plain ≡ None → IsChosen (map standing_of (worker ∷ others)) slots g chains → 0 < g }
    ensures last { (g : ℕ) (logs others : List WorkerLogs) →
        0 < g → AllZip SameNumbered logs others → IsLast g (map standing_of logs) → IsLast g (map standing_of others) }
    ensures none { (g : ℕ) (logs others : List WorkerLogs) (slots : Slots) →
        1 < g → AllZip SameNumbered logs others → IsLast g (map standing_of logs) → HaveNoChoice (map standing_of logs) slots →
        HaveNoChoice (map standing_of others) slots }
{}
