//! What an operation keeps of the node that it holds stays under the steps of all others. Contracts alone:
//! no code runs.

ghost use Rattle.std.specs.Prelude.{◌≡◌, ◌≢◌, ◌<◌, ℕ, Bool, length};
ghost use Rattle.mt_rows.specs.Rows.{Bytes};
ghost use Rattle.mt_arena.specs.{Arena.{ArenaView, Guarantee}, Settled.IsSettled, NodeView.NodeView, Edits.unlocked, Accesses.{at, with_node}};
ghost use Rattle.mt_arena.specs.Given.{GivesOut, GivesOutBeside};
ghost use Rattle.mt_operation.specs.{declared.phase.Phase.TheVariants.Judge, declared.walk.Walk.Walk};
ghost use Rattle.mt_descent.specs.{KeptWalks.{HoldsNothing, IsAtJudge}, WalkMoves.Locks};
ghost use Rattle.mt_held.specs.Holds.{HoldsNode, HoldsBy, HoldsBorder, IsAtUnlock, HoldsOnly, MayReturn};

/// An operation that has locked its border node holds it as `judge` asks.
pub fn holds_once_locked()
    ensures { (op : ℕ) (old new : ArenaView) (key : Bytes) (before after : Walk) → Locks op old new before after → after.phase ≡ Judge →
        IsAtJudge new op key after → IsSettled new.nodes before.place.node (at new before.place.node) → HoldsBorder new op key after }
{}

/// What an operation keeps at Judge, each step of another one leaves.
pub fn judge_stays()
    ensures { (op o : ℕ) (old new : ArenaView) (key : Bytes) (w : Walk) → Guarantee op old new → o ≢ op →
        HoldsBorder old o key w → HoldsBorder new o key w }
{}

/// What an operation keeps at Unlock, each step of another one leaves.
pub fn unlock_stays()
    ensures { (op o : ℕ) (old new : ArenaView) (w : Walk) → Guarantee op old new → o ≢ op →
        IsAtUnlock old o w → IsAtUnlock new o w }
{}

/// An operation that held nothing holds its border node alone once it has locked it, also while that node
/// changes, and nothing once it has given the lock back. Each step of another operation leaves it so.
pub fn one_node_is_held()
    ensures locked { (op : ℕ) (old new : ArenaView) (before after : Walk) → HoldsNothing old op → Locks op old new before after →
        HoldsOnly new op before.place.node }
    ensures changed { (v : ArenaView) (op k : ℕ) (n : NodeView) → HoldsOnly v op k → HoldsOnly (with_node v k n) op k }
    ensures unlocked { (v : ArenaView) (op k : ℕ) → k < length v.nodes → HoldsOnly v op k →
        HoldsNothing (with_node v k (unlocked (at v k))) op }
    ensures stays { (op o k : ℕ) (old new : ArenaView) → Guarantee op old new → o ≢ op → HoldsOnly old o k → HoldsOnly new o k }
{}

/// What an operation keeps of the nodes that it holds stays when places are given out beside it. Neither does
/// it come to hold another node by that.
pub fn kept_stays_where_places_are_given_out()
    ensures node { (o : ℕ) (old mid : ArenaView) (marked : Bool) (key : Bytes) (w : Walk) → GivesOutBeside o old mid →
        HoldsNode marked old o key w → HoldsNode marked mid o key w }
    ensures judge { (o : ℕ) (old mid : ArenaView) (marked : Bool) (key : Bytes) (w : Walk) → GivesOutBeside o old mid →
        HoldsBy marked old o key w → HoldsBy marked mid o key w }
    ensures unlock { (o : ℕ) (old mid : ArenaView) (w : Walk) → GivesOutBeside o old mid → IsAtUnlock old o w → IsAtUnlock mid o w }
    ensures may_return { (o level k : ℕ) (old mid : ArenaView) → GivesOutBeside o old mid → MayReturn old o level k → MayReturn mid o level k }
    ensures only { (o k : ℕ) (old mid : ArenaView) → GivesOut old mid → HoldsOnly old o k → HoldsOnly mid o k }
    ensures nothing { (o : ℕ) (old mid : ArenaView) → GivesOut old mid → HoldsNothing old o → HoldsNothing mid o }
{}
