//! What is kept of a removal stays under the steps of all others, and when places are given out. Contracts alone: no
//! code runs.

ghost use Rattle.std.specs.Prelude.{◌≡◌, ◌≢◌, ℕ, Some};
ghost use Rattle.mt_rows.specs.Rows.{Bytes};
ghost use Rattle.mt_arena.specs.{Arena.{ArenaView, Guarantee}, Forests.tree_at, Given.{GivesOut, GivesOutBeside}};
ghost use Rattle.mt_operation.specs.{declared.phase.Phase.Phase, declared.walk.Walk.Walk, declared.task.Task.Task, declared.prepared.Prepared.Prepared};
ghost use Rattle.mt_operation.specs.declared.removal.Removal.{Removal};
ghost use Rattle.mt_remove.specs.KeptRemovals.{IsAtDropKey, KeptRemoval, IsCleaning, HoldsRemoval};

/// What a removal keeps, each step of another operation leaves, by its phase; and it comes to hold no
/// other node.
pub fn removal_stays()
    ensures drops { (op o : ℕ) (old new : ArenaView) (task : Task) (prepared : Prepared) (w : Walk) → Guarantee op old new → o ≢ op →
        IsAtDropKey old o task prepared w → IsAtDropKey new o task prepared w }
    ensures kept { (op o : ℕ) (old new : ArenaView) (key : Bytes) (w : Walk) (r : Removal) (phase : Phase) → Guarantee op old new → o ≢ op →
        KeptRemoval phase old o key w r → KeptRemoval phase new o key w r }
    ensures cleans { (op o : ℕ) (old new : ArenaView) (key : Bytes) (r : Removal) → Guarantee op old new → o ≢ op → IsCleaning old key r → IsCleaning new key r }
    ensures holds { (op o : ℕ) (old new : ArenaView) (w : Walk) (r : Removal) → Guarantee op old new → o ≢ op → HoldsRemoval old o w r → HoldsRemoval new o w r }
{}

/// What a removal keeps stays when places are given out, if the trees of the nodes that it holds are as
/// they were. On its way to a link it holds none: then the tree of that link is to be as it was.
pub fn kept_stays_where_places_are_given_out()
    ensures drops { (o : ℕ) (old new : ArenaView) (task : Task) (prepared : Prepared) (w : Walk) → GivesOutBeside o old new →
        IsAtDropKey old o task prepared w → IsAtDropKey new o task prepared w }
    ensures kept { (o : ℕ) (old new : ArenaView) (key : Bytes) (w : Walk) (r : Removal) (phase : Phase) → GivesOutBeside o old new →
        KeptRemoval phase old o key w r → KeptRemoval phase new o key w r }
    ensures cleans { (old new : ArenaView) (key : Bytes) (r : Removal) → GivesOut old new →
        ((t : ℕ) → r.cleans ≡ Some t → tree_at new.trees t ≡ tree_at old.trees t) → IsCleaning old key r → IsCleaning new key r }
    ensures holds { (o : ℕ) (old new : ArenaView) (w : Walk) (r : Removal) → GivesOut old new → HoldsRemoval old o w r → HoldsRemoval new o w r }
{}
