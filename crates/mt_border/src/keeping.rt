//! What the edits of a border node leave to those who remember a slot of it, as laws for the crates
//! above. Each is a contract alone: no code runs.

ghost use Rattle.std.specs.Prelude.{◌≡◌, ◌<◌, ◌≤◌, ℕ, true, false, length, insert, remove, slice_set, slice_index};
ghost use Rattle.mt_slices.specs.declared.mark.Mark.{Mark};
ghost use Rattle.mt_order.specs.Places.{order_with, order_without};
ghost use Rattle.mt_border.specs.{Held.Held, Slots.{Slotted, IsSlotted, listed, next_free, is_dropped}, Node.{Node, IsNodeSlots, held_at, IsLive, Rewrites}};
ghost use Rattle.mt_border.specs.Keeps.{GoesOn, KeepsSlots};

/// While a version stands, slots are kept: nothing is done, and two steps keep them if each does.
pub fn slots_are_kept()
    ensures none { (s : Slotted) → KeepsSlots s s }
    ensures two { (s t u : Slotted) → KeepsSlots s t → KeepsSlots t u → KeepsSlots s u }
{}

/// What keeps them: what a live slot holds goes on; a free slot that was never dropped is filled, or
/// made live; a live slot is dropped.
pub fn edits_keep_slots()
    ensures rewrites { (old new : Node) (slot : ℕ) (held : Held) → IsNodeSlots old.slots → IsLive old slot →
        Rewrites old new slot held → GoesOn (held_at old slot) held → KeepsSlots old.slots new.slots }
    ensures fills { (s : Slotted) (held : Held) → IsSlotted s → length (listed s) < 15 → is_dropped s (next_free s) ≡ false →
        KeepsSlots s (record s { helds = slice_set s.helds (next_free s) held }) }
    ensures publishes { (s : Slotted) (place slice : ℕ) (mark : Mark) → IsSlotted s → length (listed s) < 15 →
        place ≤ length s.order.live → is_dropped s (next_free s) ≡ false →
        KeepsSlots s (record s {
          slices = insert s.slices place slice;
          marks = insert s.marks place mark;
          order = order_with s.order place;
        }) }
    ensures lets_go { (s : Slotted) (place : ℕ) → IsSlotted s → place < length s.order.live →
        KeepsSlots s (record s {
          slices = remove s.slices place;
          marks = remove s.marks place;
          dropped = slice_set s.dropped (slice_index s.order.live place) true;
          order = order_without s.order place;
        }) }
{}
