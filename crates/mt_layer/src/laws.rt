//! What is kept of an operation that makes a layer stays under the steps of all others. Contracts
//! alone: no code runs.

ghost use Rattle.std.specs.Prelude.{◌≡◌, ◌≢◌, ℕ};
ghost use Rattle.mt_rows.specs.Rows.{Bytes};
ghost use Rattle.mt_arena.specs.{Arena.{ArenaView, IsArena, Guarantee}, Forests.tree_at, Given.{GivesOut, GivesOutBeside}};
ghost use Rattle.mt_operation.specs.{declared.phase.Phase.Phase, declared.phase.Phase.TheVariants.Enter, declared.walk.Walk.Walk};
ghost use Rattle.mt_held.specs.Holds.{HoldsOnly};
ghost use Rattle.mt_layer.specs.KeptLayers.{KeptLayer, GivesNoneInto};

/// What an operation keeps that makes a layer, each step of another one leaves, by its phase; and it
/// comes to hold no other node.
pub fn layer_stays()
    ensures kept { (op o : ℕ) (old new : ArenaView) (key : Bytes) (w : Walk) (phase : Phase) → IsArena new.nodes new.trees → Guarantee op old new → o ≢ op →
        KeptLayer phase old o key w → KeptLayer phase new o key w }
    ensures holds { (op o k : ℕ) (old new : ArenaView) → Guarantee op old new → o ≢ op → HoldsOnly old o k → HoldsOnly new o k }
{}

/// What an operation keeps that makes a layer stays when places are given out beside it, if none is for the
/// tree that it makes. At Enter it holds nothing, so its walk's tree has to be as it was.
pub fn kept_stays_where_places_are_given_out()
    ensures { (o : ℕ) (old mid : ArenaView) (key : Bytes) (w : Walk) (phase : Phase) → IsArena old.nodes old.trees → GivesOutBeside o old mid → GivesNoneInto o old mid →
        (phase ≡ Enter → tree_at mid.trees w.place.tree ≡ tree_at old.trees w.place.tree) → KeptLayer phase old o key w → KeptLayer phase mid o key w }
{}

/// A step gives no place out for a tree that another operation makes: all nodes and trees fit together
/// before it and after it.
pub fn none_is_given_into_a_tree_in_the_making()
    ensures { (op o : ℕ) (old mid new : ArenaView) → IsArena old.nodes old.trees → IsArena new.nodes new.trees → GivesOut old mid → Guarantee op mid new → o ≢ op →
        GivesNoneInto o old mid }
{}
