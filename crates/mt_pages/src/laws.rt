//! Laws of walks over the pairs of a store that goes on meanwhile, each a contract without code.

ghost use Rattle.std.specs.Prelude.{◌≡◌, ◌<◌, ◌≤◌, ◌++◌, ◌^◌, ℕ, List, [], Some, None, slice_get, false};
ghost use Rattle.std.specs.List.{AllByRecursion};
ghost use Rattle.mt_rows.specs.{TenantPairs.pairs_of, declared.record.TenantPair.TenantPair};
ghost use Rattle.mt_runs.specs.Scans.{IsLawful};
ghost use Rattle.mt_checkpoint.specs.Checkpoints.{IsPair, IsWalk};
ghost use Rattle.mt_crashes.specs.{Histories.Placed, Walks.{Page, IsFromTo, AreWalked}};
ghost use Rattle.mt_pages.specs.{declared.walk.PageWalk.{PageWalk as AnyWalk}, Pages.TakesPageOf, Walked.{Rise, maps_of, Finds, KeepsMaps, OthersAreEmpty}};

/// A walk that stands at its beginning has found nothing. It takes each page that is lawful by its tenant's maps from its
/// first step on. What it has found stays so over later steps and changes.
pub fn a_walk_finds_pairs()
    ensures begins { (history : List Placed) (first : ℕ) (walk : AnyWalk) → Rise walk.tenants.items → walk.place ≡ 0 → walk.from ≡ [] → walk.after ≡ false → Finds history first first walk [] }
    ensures page { (history : List Placed) (first now : ℕ) (old new : AnyWalk) (pairs more : List TenantPair) (t : ℕ) (page : Page) → Finds history first now old pairs
        → slice_get old.tenants.items old.place ≡ Some t → IsLawful (maps_of history t) (IsFromTo first now) old.from old.after 64 [] page → AllByRecursion IsPair more
        → TakesPageOf t page old new more → Finds history first now new (pairs ++ more) }
    ensures stays { (old new : List Placed) (first now later : ℕ) (walk : AnyWalk) (pairs : List TenantPair) → now ≤ later → KeepsMaps now old new → Finds old first now walk pairs
        → Finds new first later walk pairs }
{}

/// What a walk has found after its last tenant is a walk that a checkpoint may say, and its pairs are those of lawful scans
/// of all tenants, if the others have no pairs.
pub fn a_walk_that_has_ended_is_whole()
    ensures walk { (history : List Placed) (first now : ℕ) (walk : AnyWalk) (pairs : List TenantPair) → Finds history first now walk pairs → now ≤ 2 ^ 59
        → IsWalk (record { first = first; last = now; pairs = pairs }) }
    ensures base { (history : List Placed) (first now : ℕ) (walk : AnyWalk) (pairs : List TenantPair) → Finds history first now walk pairs
        → slice_get walk.tenants.items walk.place ≡ None → OthersAreEmpty history walk.tenants.items → AreWalked first now 64 history (pairs_of pairs) }
{}
