//! Laws of the definitions, each the contract of a function that does nothing.

ghost use Rattle.std.specs.Prelude.{◌≡◌, ◌↔◌, ◌+◌, ◌≤◌, ℕ, List, ◌++◌, length, take, Result};
ghost use Rattle.mt_disk.specs.Disk.{DiskState, MayLeave, Moment, Range, Attempts, debt, dirtied, overwritten, synced};
ghost use Rattle.mt_disk.specs.{declared.disk.DeviceFailed.{DeviceFailed}, FileEdits.{FileEdit, AllBeginWithin, cut_back, image_after}};

/// Right after a sync a crash leaves what a read gives, and nothing else.
pub fn a_sync_makes_all_durable()
    ensures { (s : DiskState) (image : List ℕ) → (image ≡ s.image) ↔ MayLeave (synced s).now image }
{}

/// A write that no sync followed may be lost in a crash, may leave any bytes in its range, and may
/// leave any behind the end.
pub fn a_write_may_be_lost_or_torn()
    ensures lost { (m : Moment) (range : Range) (image : List ℕ)
        → MayLeave m image → MayLeave (dirtied range m) image }
    ensures torn { (m : Moment) (at : ℕ) (bytes image : List ℕ) → at ≤ length image
        → MayLeave m image → MayLeave (dirtied (at, at + length bytes) m) (overwritten at bytes image) }
    ensures behind { (m : Moment) (range : Range) (bytes : List ℕ)
        → MayLeave (dirtied range m) (m.durable ++ bytes) }
{}

/// A sync pays the debt. So many bytes that are written, or tried to, add as many at most.
pub fn a_sync_pays_the_debt()
    ensures pays { (s : DiskState) → debt (synced s).now ≡ 0 }
    ensures adds { (at count : ℕ) (result : Result Unit DeviceFailed) (old new : DiskState)
        → Attempts (at, at + count) result old new → debt new.now ≤ debt old.now + count }
{}

/// What a cut leaves of the changes that are remembered makes the same bytes before the new end as all
/// of them did. So nothing else has to be made again.
pub fn a_cut_forgets_only_what_it_cuts()
    ensures { (len : ℕ) (edits : List FileEdit) (image : List ℕ) → AllBeginWithin edits image
        → take len (image_after (cut_back len edits) image) ≡ take len (image_after edits image) }
{}
