//! Laws of slots, each a contract without code.

ghost use Rattle.std.specs.{Prelude.{◌≡◌, IsTrue, List, [], ◌∷◌, Option, Some, None}, Option.option_map};
ghost use Rattle.mt_rows.specs.Rows.{Bytes};
ghost use Rattle.mt_disk.specs.Disk.{DiskState, MayLeave, LeavesOnly, found_with};
ghost use Rattle.mt_checkpoint.specs.{declared.checkpoint.Checkpoint.Checkpoint, Checkpoints.{Walk, walk_of, HasWalk, Has, In, IsClosed, IsOneOf, IsClosedAtRest}, Slots.{HasDurably, ReadSlot}};

use mt_disk::Disk;

/// A file has one checkpoint at most, and none after a closed gate.
pub fn a_slot_has_one_checkpoint()
    ensures one { (v w : Walk) (image : Bytes) → HasWalk v image → HasWalk w image → v ≡ w }
    ensures closed { (w : Walk) (image : Bytes) → IsClosed image → HasWalk w image → ⊥ }
{}

/// What may be left of a slot has one of what it may have; and when it is found again, it may be left again.
pub fn what_is_left_is_one_of_these()
    ensures has { (may : List (Option Walk)) (image : Bytes) → IsOneOf may image → (x : Option Walk) × In x may × Has x image }
    ensures found { (may : List (Option Walk)) (first disk : DiskState) (image : Bytes) → LeavesOnly (IsOneOf may) first disk
        → MayLeave disk.now image → LeavesOnly (IsOneOf may) (found_with image) (found_with image) }
{}

/// A slot that was made has none, and one that was ended its checkpoint, whatever crashes.
pub fn a_slot_at_rest_has_one_thing()
    ensures made { (s : DiskState) → IsClosedAtRest s → LeavesOnly (IsOneOf (None ∷ [])) s s }
    ensures ended { (w : Walk) (s : DiskState) → HasDurably w s → LeavesOnly (IsOneOf (Some w ∷ [])) s s }
{}

/// A slot at rest that was read through, or into memory, has the same when it is read again.
pub fn a_slot_is_read_again_as_it_was<D: Disk>()
    ensures { (may : List (Option Walk)) (first : DiskState) (old seen new : D) (x y : Option Checkpoint) → IsTrue (D.is_honest old) → LeavesOnly (IsOneOf may) first (D.state old)
        → ReadSlot D.is_honest D.state D.failures old seen x → ReadSlot D.is_honest D.state D.failures seen new y → option_map walk_of y ≡ option_map walk_of x }
{}
