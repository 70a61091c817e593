//! Laws of the two slots, each a contract without code. They are over disks that keep the rules.

ghost use Rattle.std.specs.{Prelude.{◌≡◌, ℕ, ◌≤◌, IsTrue, List, [], ◌∷◌, ◌++◌, Option, Some, None, slice_get, slice_set}, Option.option_map};
ghost use Rattle.mt_rows.specs.{Rows.Bytes, declared.record.TenantPair.TenantPair};
ghost use Rattle.mt_checkpoint.specs.{declared.checkpoint.Checkpoint.Checkpoint, Checkpoints.{Walk, IsWalk, walk_of, In}};
ghost use Rattle.mt_slots.specs.{declared.slot.Slot.Slot, declared.store_slots.StoreSlots.StoreSlots, declared.checkpointing.Checkpointing.Checkpointing};
ghost use Rattle.mt_slots.specs.{declared.fault.SlotFault.SlotFault, Places.{Both, at, with, in_order, number_of, disk_of, next_slot, with_newest, slot_of, given_up}};
ghost use Rattle.mt_slots.specs.Calls.{MakesBoth, ReadsBoth, StopsReading, Begins, FailsToBeginIn, Adds, FailsToAddIn, Ends, FailsToEndIn, GivesUpIn};
ghost use Rattle.mt_slots.specs.Loads.{LoadsSlot, FailsToLoad};
ghost use Rattle.mt_slots.specs.Keeps.{Mays, no_checkpoints, only_these, or_none, HasOneWalk, NewestEndsBy, KeepsSlots, KeepsWriting, IsCrashedTo};

use mt_disk::Disk;

/// What may be left of a slot stands at its number, in the list of what may be left of both.
pub fn a_slot_stands_at_its_number()
    ensures at { (mays : Mays) (slot : Slot) → slice_get (in_order mays) (number_of slot) ≡ Some (at slot mays) }
    ensures with { (mays : Mays) (slot : Slot) (may : List (Option Walk)) → in_order (with slot may mays) ≡ slice_set (in_order mays) (number_of slot) may }
{}

/// Slots that were made have no checkpoint, whatever crashes.
pub fn slots_that_are_made_have_none<D: Disk>()
    ensures { (old new : StoreSlots D) → ((slot : Slot) → IsTrue (D.is_honest (disk_of slot old))) → MakesBoth D.is_honest D.state D.failures old new
        → KeepsSlots D.is_honest D.state D.failures no_checkpoints new }
{}

/// Slots that were read have what was read of them, which is one of what they might have. If they were not both
/// read, they may have what they might before.
pub fn slots_that_are_read_have_that<D: Disk>()
    ensures among { (mays : Mays) (old new : StoreSlots D) (found : Both (Option Checkpoint)) → KeepsSlots D.is_honest D.state D.failures mays old
        → ReadsBoth D.is_honest D.state D.failures old new found → (slot : Slot) → In (option_map walk_of (at slot found)) (at slot mays) }
    ensures ok { (mays : Mays) (old new : StoreSlots D) (found : Both (Option Checkpoint)) → KeepsSlots D.is_honest D.state D.failures mays old
        → ReadsBoth D.is_honest D.state D.failures old new found → KeepsSlots D.is_honest D.state D.failures (only_these found) new }
    ensures err { (mays : Mays) (e : SlotFault) (old new : StoreSlots D) → KeepsSlots D.is_honest D.state D.failures mays old
        → StopsReading D.is_honest D.state D.failures e old new → KeepsSlots D.is_honest D.state D.failures mays new }
{}

/// A slot that is loaded has what was seen of it. It may have what it might before, and so may the other one.
pub fn a_slot_that_is_loaded_has_what_was_seen<D: Disk>()
    ensures same { (found : Both (Option Checkpoint)) (slot : Slot) (old new : StoreSlots D) (x : Option Checkpoint) → KeepsSlots D.is_honest D.state D.failures (only_these found) old
        → LoadsSlot D.is_honest D.state D.failures slot old new x → option_map walk_of x ≡ option_map walk_of (at slot found) }
    ensures ok { (mays : Mays) (slot : Slot) (old new : StoreSlots D) (x : Option Checkpoint) → KeepsSlots D.is_honest D.state D.failures mays old
        → LoadsSlot D.is_honest D.state D.failures slot old new x → KeepsSlots D.is_honest D.state D.failures mays new }
    ensures err { (mays : Mays) (slot : Slot) (e : SlotFault) (old new : StoreSlots D) → KeepsSlots D.is_honest D.state D.failures mays old
        → FailsToLoad D.is_honest D.state D.failures slot e old new → KeepsSlots D.is_honest D.state D.failures mays new }
{}

/// A slot that surely has a checkpoint may be kept as the newest.
pub fn a_sure_checkpoint_may_be_kept<D: Disk>()
    ensures { (mays : Mays) (used : Option Slot) (old : StoreSlots D) → KeepsSlots D.is_honest D.state D.failures mays old
        → ((slot : Slot) → used ≡ Some slot → HasOneWalk mays slot) → KeepsSlots D.is_honest D.state D.failures mays (with_newest used old) }
{}

/// A begin, also one that fails, adds none to what a crash may leave of the next slot. Nothing that is written
/// there changes what may be left of the newest.
pub fn a_begin_leaves_the_newest<D: Disk>()
    ensures newest { (may : List (Option Walk)) (mays : Mays) (slot : Slot) → at slot (with (next_slot (Some slot)) may mays) ≡ at slot mays }
    ensures ok { (mays : Mays) (first : ℕ) (old : StoreSlots D) (new : Checkpointing D) → KeepsSlots D.is_honest D.state D.failures mays old
        → Begins D.is_honest D.state D.failures old first new → KeepsWriting D.is_honest D.state D.failures (or_none (next_slot old.newest) mays) first [] new }
    ensures err { (mays : Mays) (old new : StoreSlots D) → KeepsSlots D.is_honest D.state D.failures mays old
        → FailsToBeginIn D.is_honest D.state D.failures old new → KeepsSlots D.is_honest D.state D.failures (or_none (next_slot old.newest) mays) new }
{}

/// An add, also one that fails, changes nothing of what a crash may leave.
pub fn an_add_leaves_what_it_might<D: Disk>()
    ensures ok { (mays : Mays) (first : ℕ) (before pairs : List TenantPair) (old new : Checkpointing D) → KeepsWriting D.is_honest D.state D.failures mays first before old
        → Adds D.is_honest D.state D.failures old pairs new → KeepsWriting D.is_honest D.state D.failures mays first (before ++ pairs) new }
    ensures err { (mays : Mays) (first : ℕ) (before : List TenantPair) (e : SlotFault) (old : Checkpointing D) (new : StoreSlots D)
        → KeepsWriting D.is_honest D.state D.failures mays first before old → FailsToAddIn D.is_honest D.state D.failures e old new
        → KeepsSlots D.is_honest D.state D.failures mays new }
{}

/// A checkpoint that is given up changes nothing of what a crash may leave.
pub fn a_give_up_leaves_what_it_might<D: Disk>()
    ensures { (mays : Mays) (first : ℕ) (before : List TenantPair) (old : Checkpointing D) (new : StoreSlots D) → KeepsWriting D.is_honest D.state D.failures mays first before old
        → GivesUpIn D.is_honest D.state D.failures old new → KeepsSlots D.is_honest D.state D.failures mays new }
{}

/// What was ended is a walk, and its slot surely has it. If the end fails it has that or none.
pub fn an_end_leaves_its_walk<D: Disk>()
    ensures walk { (mays : Mays) (w : Walk) (old : Checkpointing D) (new : StoreSlots D) → KeepsWriting D.is_honest D.state D.failures mays w.first w.pairs old
        → Ends D.is_honest D.state D.failures old w.last new → IsWalk w }
    ensures ok { (mays : Mays) (w : Walk) (old : Checkpointing D) (new : StoreSlots D) → KeepsWriting D.is_honest D.state D.failures mays w.first w.pairs old
        → Ends D.is_honest D.state D.failures old w.last new → KeepsSlots D.is_honest D.state D.failures (with (slot_of old) (Some w ∷ []) mays) new }
    ensures err { (mays : Mays) (w : Walk) (e : SlotFault) (old : Checkpointing D) (new : StoreSlots D) → KeepsWriting D.is_honest D.state D.failures mays w.first w.pairs old → IsWalk w
        → FailsToEndIn D.is_honest D.state D.failures e old w.last new → KeepsSlots D.is_honest D.state D.failures (with (slot_of old) (None ∷ Some w ∷ []) mays) new }
{}

/// The newest checkpoint ends by what is owed, or by the step up to which each log went when it was kept. This stays so
/// whatever is called, also if it fails.
pub fn the_newest_ends_by_what_is_owed<D: Disk>()
    ensures kept { (mays : Mays) (kept : ℕ) (used : Option Slot) (old : StoreSlots D)
        → ((slot : Slot) (w : Walk) → used ≡ Some slot → at slot mays ≡ Some w ∷ [] → w.last ≤ kept) → NewestEndsBy mays kept (with_newest used old) }
    ensures begun { (mays : Mays) (kept first : ℕ) (old : StoreSlots D) (new : Checkpointing D) → NewestEndsBy mays kept old
        → Begins D.is_honest D.state D.failures old first new → NewestEndsBy (or_none (next_slot old.newest) mays) kept (given_up new) }
    ensures not_begun { (mays : Mays) (kept : ℕ) (old new : StoreSlots D) → NewestEndsBy mays kept old
        → FailsToBeginIn D.is_honest D.state D.failures old new → NewestEndsBy (or_none (next_slot old.newest) mays) kept new }
    ensures added { (mays : Mays) (kept : ℕ) (pairs : List TenantPair) (old new : Checkpointing D) → NewestEndsBy mays kept (given_up old)
        → Adds D.is_honest D.state D.failures old pairs new → NewestEndsBy mays kept (given_up new) }
    ensures not_added { (mays : Mays) (kept : ℕ) (e : SlotFault) (old : Checkpointing D) (new : StoreSlots D) → NewestEndsBy mays kept (given_up old)
        → FailsToAddIn D.is_honest D.state D.failures e old new → NewestEndsBy mays kept new }
    ensures ended { (mays : Mays) (kept : ℕ) (w : Walk) (old : Checkpointing D) (new : StoreSlots D)
        → Ends D.is_honest D.state D.failures old w.last new → NewestEndsBy (with (slot_of old) (Some w ∷ []) mays) kept new }
    ensures not_ended { (mays : Mays) (kept last : ℕ) (may : List (Option Walk)) (e : SlotFault) (old : Checkpointing D) (new : StoreSlots D) → NewestEndsBy mays kept (given_up old)
        → FailsToEndIn D.is_honest D.state D.failures e old last new → NewestEndsBy (with (slot_of old) may mays) kept new }
    ensures gave_up { (mays : Mays) (kept : ℕ) (old : Checkpointing D) (new : StoreSlots D) → NewestEndsBy mays kept (given_up old)
        → GivesUpIn D.is_honest D.state D.failures old new → NewestEndsBy mays kept new }
{}

/// What a crash leaves of slots, found again, may have what they might before.
pub fn a_crash_leaves_what_it_might<D: Disk>()
    ensures { (mays : Mays) (images : Both Bytes) (old new : StoreSlots D) → KeepsSlots D.is_honest D.state D.failures mays old
        → IsCrashedTo D.is_honest D.state D.failures images old new → KeepsSlots D.is_honest D.state D.failures mays new }
{}
