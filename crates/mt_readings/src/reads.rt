//! What a scan reads of a border node. Contracts alone: no code runs.

ghost use Rattle.std.specs.{Prelude.{◌≡◌, ◌⊎◌, ◌≤◌, ◌<◌, ◌+◌, ◌*◌, ℕ, Bool, true, false, List, Some}, List.Contains};
ghost use Rattle.mt_slices.specs.Slices.{slice_of, mark_of};
ghost use Rattle.mt_rows.specs.Rows.{Bytes};
ghost use Rattle.mt_border.specs.{Held.Pair, declared.entry.Entry.Entry, Entry.{pair_of, order_of, order_at}, Entries.{IsBorder, IsMissing}};
ghost use Rattle.mt_border.specs.Contents.{IsOfTree, HasKey, AreKeys};
ghost use Rattle.mt_readings.specs.Reading.{is_below, is_behind, read, stop, HasOther, IsRead, IsStopped, IsAtLink};

/// Of each key of the tree that the fence isn't behind, the reading tells whether the node has its pair; or it stopped at
/// a link before it.
pub fn a_key_is_read()
    ensures { (prefix fence : Bytes) (after : Bool) (layer : ℕ) (es : List Entry) (key : Bytes) → IsBorder es → AreKeys prefix layer es →
        IsOfTree prefix layer fence → IsOfTree prefix layer key → is_below fence after key ≡ false →
        IsRead prefix layer (is_behind fence after layer) es key ⊎ IsMissing es (slice_of key layer) (mark_of key layer) ⊎ HasOther es layer key
        ⊎ IsStopped (is_behind fence after layer) es (order_at (slice_of key layer) (mark_of key layer)) }
{}

/// What is read stands in the node, from the fence on, and before the link at which the reading stopped.
pub fn what_is_read()
    ensures stands { (fence : Bytes) (after : Bool) (layer : ℕ) (es : List Entry) (x : Entry × Pair) → Contains (read (is_behind fence after layer) es) x →
        Contains es x.0 × (pair_of x.0.held ≡ Some x.1) × (is_behind fence after layer x.0 ≡ false) }
    ensures from_the_fence { (prefix fence : Bytes) (after : Bool) (layer : ℕ) (e : Entry) (pair : Pair) (key : Bytes) → IsOfTree prefix layer fence →
        HasKey prefix layer e key → pair_of e.held ≡ Some pair → is_behind fence after layer e ≡ is_below fence after key }
    ensures before_the_link { (fence : Bytes) (after : Bool) (layer : ℕ) (es : List Entry) (x : Entry × Pair) (link : Entry) → IsBorder es →
        Contains (read (is_behind fence after layer) es) x → stop (is_behind fence after layer) es ≡ Some link → order_of x.0 < order_of link }
{}

/// The fence at a link parts the keys of the tree: below it stand those before the link, and no others.
pub fn a_fence_parts_a_tree()
    ensures below { (prefix : Bytes) (layer : ℕ) (link : Entry) (fence key : Bytes) → IsAtLink prefix layer link.slice fence → IsOfTree prefix layer key →
        order_at (slice_of key layer) (mark_of key layer) < 10 * link.slice + 9 → is_below fence false key ≡ true }
    ensures behind { (prefix : Bytes) (layer : ℕ) (link : Entry) (fence key : Bytes) → IsAtLink prefix layer link.slice fence → IsOfTree prefix layer key →
        10 * link.slice + 9 ≤ order_at (slice_of key layer) (mark_of key layer) → is_below fence false key ≡ false }
{}
