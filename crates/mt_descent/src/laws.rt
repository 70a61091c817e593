//! What is kept of an operation stays under the steps of all others. Contracts alone: no code runs.

ghost use Rattle.std.specs.Prelude.{ℕ, ◌≡◌, ◌≢◌, ◌<◌, ◌+◌, ◌++◌, List, ◌∷◌, Option, Some, length};
ghost use Rattle.mt_version.specs.Parts.{Parts};
ghost use Rattle.mt_slices.specs.Keys.{IsStoredKey};
ghost use Rattle.mt_rows.specs.{Rows.Bytes, Stamps.Stamped};
ghost use Rattle.mt_border.specs.declared.entry.Find.{Find};
ghost use Rattle.mt_arena.specs.{Arena.{ArenaView, IsArena}, Ways.BelongsIn, Accesses.{at, IsOpen}, Guarantee.{NodesGuarantee, LoseHeld}};
ghost use Rattle.mt_arena.specs.{declared.retired.Retired.Retired, declared.tree.Standing.TheVariants.Live, Forests.tree_at, Idle.AreRetired, Given.{step_of_idle, IsNodeOutFrom, IsTreeOutFrom, IsNamedLate}};
ghost use Rattle.mt_operation.specs.declared.phase.Phase.TheVariants.{Pick, Child, Verify, Search, Load, Confirm, Forward, Lock, Done};
ghost use Rattle.mt_operation.specs.{declared.walk.Aim.Aim, declared.walk.Walk.Walk, Walks.walk_from_top};
ghost use Rattle.mt_descent.specs.{Seen.child_for, Pasts.{Past, ExtendsPast, KeepsRows}};
ghost use Rattle.mt_descent.specs.KeptWalks.{HoldsNothing, slice_in, IsAtPick, IsAtBorder, IsAtLoad, IsAtJudge, IsKept};
ghost use Rattle.mt_descent.specs.WalkMoves.{walk_into, walk_onto, walk_anew, walk_here, after_enter, after_pick, after_child, Verifies, FindsIn, after_search, Loads, Confirms};
ghost use Rattle.mt_descent.specs.WalkMoves.{after_change, after_forward, Locks};
ghost use Rattle.mt_descent.specs.{Remembered.{RemembersNode, IsGivenElsewhere, Learns}, KeptBack.{RemembersKept, ListsAfter, RetiresAfter, GivesOutBefore}};

/// A stored key may be looked for from the top tree on.
pub fn walks_begin()
    ensures { (v : ArenaView) (past : Past) (key : Bytes) (row : Option Stamped) (aim : Aim) (first : ℕ) → IsArena v.nodes v.trees → IsStoredKey key →
        IsKept v past key row (walk_from_top aim first) }
{}

/// Whatever an operation that holds nothing keeps at its phase, it keeps through each step of any
/// operation: what counts is what the step leaves to others, and that the past stands from the
/// operation's first step on. A row that it may load later has stood since its stamp.
pub fn kept_stays()
    ensures { (op : ℕ) (old new : ArenaView) (before after : Past) (key : Bytes) (row : Option Stamped) (w : Walk) →
        NodesGuarantee op old.nodes new.nodes old.trees new.trees → KeepsRows old new after → ExtendsPast w.first before after →
        IsKept old before key row w → IsKept new after key row w }
{}

/// What an operation keeps that holds its border node, each step of another one keeps.
pub fn held_stays()
    ensures { (op o : ℕ) (old new : ArenaView) (key : Bytes) (w : Walk) → NodesGuarantee op old.nodes new.nodes old.trees new.trees → o ≢ op →
        IsAtJudge old o key w → IsAtJudge new o key w }
{}

/// The key belongs in the border node that its operation holds to judge it, and no other operation is
/// making the tree.
pub fn belongs_where_held()
    ensures { (v : ArenaView) (o : ℕ) (key : Bytes) (w : Walk) → IsArena v.nodes v.trees → IsAtJudge v o key w →
        BelongsIn v.nodes v.trees key w.layer w.place.node × IsOpen v w.place.node o }
{}

/// After a step, whoever holds a node held it before, but for the operation that made the step: so
/// an operation that holds nothing comes to hold nothing by the steps of others.
pub fn holders()
    ensures before { (op q k : ℕ) (old new : ArenaView) → NodesGuarantee op old.nodes new.nodes old.trees new.trees →
        k < length new.nodes → (at new k).holder ≡ Some q → q ≢ op →
        (k < length old.nodes) × ((at old k).holder ≡ Some q) }
    ensures nothing { (op o : ℕ) (old new : ArenaView) → NodesGuarantee op old.nodes new.nodes old.trees new.trees →
        o ≢ op → HoldsNothing old o → HoldsNothing new o }
{}

/// Whatever an operation that holds nothing keeps at its phase, it keeps if places are given out that it
/// does not remember, and through the step of any operation after that.
pub fn kept_stays_where_others_are_given_out()
    ensures given { (old mid : ArenaView) (past : Past) (key : Bytes) (row : Option Stamped) (w : Walk) →
        IsGivenElsewhere old mid w.phase w → IsKept old past key row w → IsKept mid past key row w }
    ensures step { (op : ℕ) (old mid new : ArenaView) (before after : Past) (key : Bytes) (row : Option Stamped) (w : Walk) →
        IsGivenElsewhere old mid w.phase w → NodesGuarantee op mid.nodes new.nodes mid.trees new.trees → KeepsRows mid new after →
        ExtendsPast w.first before after → IsKept old before key row w → IsKept new after key row w }
{}

/// What a look comes to remember is live, or it remembered it, or a node names it that it remembered.
pub fn a_look_learns_what_is_named()
    ensures enter { (v : ArenaView) (w : Walk) → w.phase ≢ Done → IsArena v.nodes v.trees → w.place.tree < length v.trees →
        let tree = tree_at v.trees w.place.tree in Learns v w (after_enter tree.standing w tree.root (at v tree.root).version) }
    ensures pick { (v : ArenaView) (w : Walk) (key : Bytes) → w.phase ≡ Pick → IsArena v.nodes v.trees → IsAtPick v key w →
        Learns v w (after_pick w (child_for (at v w.place.node) (slice_in key w))) }
    ensures child { (v : ArenaView) (w : Walk) (seen : Parts) → w.phase ≡ Child → Learns v w (after_child w seen) }
    ensures verify { (v : ArenaView) (before after : Walk) → before.phase ≡ Verify → Verifies (at v before.place.node) before after → Learns v before after }
    ensures search { (v : ArenaView) (w : Walk) (key : Bytes) (found : Find) (step : ℕ) → w.phase ≡ Search → IsArena v.nodes v.trees → IsAtBorder v key w →
        FindsIn (at v w.place.node) key w.layer found → Learns v w (after_search found w step) }
    ensures load { (v : ArenaView) (past : Past) (key : Bytes) (row : Option Stamped) (before after : Walk) → before.phase ≡ Load → IsAtLoad v past key before →
        Loads (at v before.place.node) before after row → Learns v before after }
    ensures confirm { (v : ArenaView) (key : Bytes) (before after : Walk) → before.phase ≡ Confirm → IsAtBorder v key before →
        Confirms (at v before.place.node) before after → Learns v before after }
    ensures forward { (v : ArenaView) (w : Walk) (slice j : ℕ) → w.phase ≡ Forward → w.next ≡ Some j → Learns v w (after_forward w slice j (at v j)) }
    ensures here { (v : ArenaView) (w : Walk) → w.phase ≡ Forward → Learns v w (walk_here w) }
    ensures lock { (op : ℕ) (old new : ArenaView) (before after : Walk) → before.phase ≡ Lock → Locks op old new before after → Learns old before after }
    ensures change { (v : ArenaView) (w : Walk) (now : Parts) → w.phase ≢ Done → RemembersNode w.phase w w.place.node →
        Learns v w (after_change w now (at v w.place.node).next) }
    ensures anew { (v : ArenaView) (w : Walk) → w.phase ≢ Done → Learns v w (walk_anew w) }
{}

/// What a walk remembers is there, or was taken out after its operation's birth. So it is of a walk at the
/// top, at a tree or at a node of which this is so. It stays so through each look of the walk. It stays so
/// through a step of any operation that takes out by a number above the birth. It stays so if places are
/// given out that the walk does not remember.
pub fn remembered_places_are_kept_back()
    ensures top { (birth : ℕ) (v : ArenaView) (aim : Aim) (first : ℕ) → AreRetired v.nodes v.trees v.retired → (tree_at v.trees 0).standing ≡ Live →
        RemembersKept birth v (walk_from_top aim first) }
    ensures into { (birth : ℕ) (v : ArenaView) (w : Walk) (t layer : ℕ) → IsTreeOutFrom (birth + 1) v.retired t → RemembersKept birth v (walk_into w t layer) }
    ensures onto { (birth : ℕ) (v : ArenaView) (w : Walk) (k : ℕ) (seen : Parts) → IsNodeOutFrom (birth + 1) v.retired k →
        IsTreeOutFrom (birth + 1) v.retired w.place.tree → RemembersKept birth v (walk_onto w k seen) }
    ensures look { (birth : ℕ) (v : ArenaView) (before after : Walk) → IsArena v.nodes v.trees → AreRetired v.nodes v.trees v.retired →
        IsNamedLate v.nodes v.trees v.retired → Learns v before after → RemembersKept birth v before → RemembersKept birth v after }
    ensures lock { (birth op : ℕ) (old new : ArenaView) (before after : Walk) → IsArena old.nodes old.trees → AreRetired old.nodes old.trees old.retired →
        IsNamedLate old.nodes old.trees old.retired → before.phase ≡ Lock → Locks op old new before after →
        RemembersKept birth old before → RemembersKept birth new after }
    ensures step { (op birth : ℕ) (old new : ArenaView) (past : Past) (key : Bytes) (row : Option Stamped) (w : Walk) →
        NodesGuarantee op old.nodes new.nodes old.trees new.trees → LoseHeld old.nodes new.nodes → IsArena new.nodes new.trees →
        AreRetired new.nodes new.trees new.retired → RetiresAfter birth old.retired new.retired → IsKept old past key row w →
        RemembersKept birth old w → RemembersKept birth new w }
    ensures given { (birth : ℕ) (old mid : ArenaView) (w : Walk) → IsGivenElsewhere old mid w.phase w → RetiresAfter birth old.retired mid.retired →
        RemembersKept birth old w → RemembersKept birth mid w }
{}

/// Nothing that a walk remembers is given out if only those places are that were taken out by its
/// operation's birth. So what is kept of the walk stays, and what it remembers is still kept back, through
/// the giving out and then any step.
pub fn no_remembered_place_is_given_out()
    ensures elsewhere { (birth : ℕ) (old mid : ArenaView) (w : Walk) → GivesOutBefore birth old mid → RemembersKept birth old w →
        IsGivenElsewhere old mid w.phase w }
    ensures through { (op birth : ℕ) (old mid new : ArenaView) (before after : Past) (key : Bytes) (row : Option Stamped) (w : Walk) →
        GivesOutBefore birth old mid → RetiresAfter birth old.retired mid.retired → NodesGuarantee op mid.nodes new.nodes mid.trees new.trees →
        KeepsRows mid new after → AreRetired new.nodes new.trees new.retired → RetiresAfter birth mid.retired new.retired →
        ExtendsPast w.first before after → IsKept old before key row w → RemembersKept birth old w →
        IsKept new after key row w × RemembersKept birth new w }
{}

/// A list of places that were taken out may stay, grow at its end by later ones, or lose its first one.
/// Then each place of it stood there before, by the same step, or was taken out after the birth.
pub fn lists_change_at_their_ends()
    ensures same { (birth : ℕ) (gone : List Retired) → ListsAfter birth gone gone }
    ensures more { (birth : ℕ) (gone more : List Retired) → ((i : ℕ) → i < length more → birth < step_of_idle more i) → ListsAfter birth gone (gone ++ more) }
    ensures rest { (birth : ℕ) (first : Retired) (rest : List Retired) → ListsAfter birth (first ∷ rest) rest }
    ensures twice { (birth : ℕ) (old mid new : List Retired) → ListsAfter birth old mid → ListsAfter birth mid new → ListsAfter birth old new }
{}
