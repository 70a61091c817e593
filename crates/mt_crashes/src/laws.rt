//! Laws of crashes and recoveries, each the contract of a function that does nothing.

ghost use Rattle.std.specs.Prelude.{◌≡◌, ◌≢◌, ◌⊎◌, ◌<◌, ◌≤◌, ℕ, Bool, true, false, List, [], ◌∷◌, ◌++◌, map, length, Option, Some, None, slice_get};
ghost use Rattle.std.specs.{List.Contains, Option.option_map};
ghost use Rattle.std.specs.FinMap as pairs;
ghost use Rattle.mt_rows.specs.{Tenants.{Contents as Pairs}, Rows.Bytes, Maps.Map, declared.record.Record.Record};
ghost use Rattle.mt_rows.specs.{TenantPairs.{HasTenants, KeepsQuotas, pairs_of}, Stamps.Stamped};
ghost use Rattle.mt_disk.specs.Disk.{DiskState, MayLeave, LeavesOnly, found_with};
ghost use Rattle.mt_log.specs.{declared.batch.LogBatch.LogBatch, Contents.{Contents, IsContents, JoinsAndRises, mark_of, log_bytes, with_batch}};
ghost use Rattle.mt_log.specs.Fronts.{HasFront, IsLeft, IsAtRest};
ghost use Rattle.mt_crashes.specs.Fronts.{In, cutoff_of, is_void, all_voids, all_records, key_of, after_replay, made};
ghost use Rattle.mt_crashes.specs.{Histories.{Placed, pairs_upto, map_upto}, Bases.{CheckpointView, Slots, IsBase}};
ghost use Rattle.mt_crashes.specs.{Walks.{AreWalked, IsFromTo, Page, Walks, WalksUpto}, SlotDisks.{view_of_walk, slot_now, with_slot}};
ghost use Rattle.mt_crashes.specs.{Recoveries.{MayUse, HasSlot, IsRecovered, AreSet, StandsTwice, NoneOlder}, Examples.{change, fronts_of_two}};
ghost use Rattle.mt_crashes.specs.Stores.{Store, new_store, Happens, Leads, MayLeaveFronts, MayLeaveSlots, ReachesAt, AllReach};
ghost use Rattle.mt_checkpoint.specs.Checkpoints.{Walk, Has, IsOneOf, In as InSlot};
ghost use Rattle.mt_runs.specs.Scans.{IsLawful};

/// Whatever has happened to a store of 1 to 64 logs, and whatever a crash then leaves of each and of the
/// checkpoints: a recovery gives the pairs of its history up to the cutoff.
pub fn a_crash_leaves_what_is_recovered()
    ensures { (count n : ℕ) (s : Store) (fronts : List Contents) (read : Slots) (cutoff resume : ℕ) (used : Option ℕ) (found : Pairs) →
        0 < count → count ≤ 64 → Leads n (new_store count) s → MayLeaveFronts s.logs fronts → MayLeaveSlots s.slots read →
        IsRecovered fronts read cutoff resume used found → found ≡ pairs_upto cutoff s.history }
{}

/// A log never goes back, whatever crashes leave of it; and what all logs reach is at most the cutoff. So
/// the least of what each log was seen to reach, at whatever time, is at most every later cutoff.
pub fn a_settled_number_is_kept()
    ensures never_back { (count m n k worker : ℕ) (s t : Store) →
        0 < count → count ≤ 64 → Leads m (new_store count) s → ReachesAt k s worker → Leads n s t → ReachesAt k t worker }
    ensures settled { (count n k : ℕ) (s : Store) (fronts : List Contents) →
        0 < count → count ≤ 64 → Leads n (new_store count) s → AllReach k s → MayLeaveFronts s.logs fronts → k ≤ cutoff_of fronts }
{}

/// Whatever a crash leaves: the logs are a set, each of them its worker's, in the format, from step 0 on, with
/// batches that join and rise; no stamp stands in two of them; and none is older than what the others tell. So a recovery
/// refuses none of them for any of these.
pub fn a_crash_leaves_a_set()
    ensures set { (count n : ℕ) (s : Store) (fronts : List Contents) →
        0 < count → count ≤ 64 → Leads n (new_store count) s → MayLeaveFronts s.logs fronts → AreSet fronts }
    ensures own { (count n k : ℕ) (s : Store) (fronts : List Contents) (f : Contents) →
        0 < count → count ≤ 64 → Leads n (new_store count) s → MayLeaveFronts s.logs fronts →
        slice_get fronts k ≡ Some f → IsContents f × (f.worker ≡ k) }
    ensures whole { (count n k : ℕ) (s : Store) (fronts : List Contents) (f : Contents) →
        0 < count → count ≤ 64 → Leads n (new_store count) s → MayLeaveFronts s.logs fronts →
        slice_get fronts k ≡ Some f → (f.generation ≡ 0) × (f.start ≡ 0) }
    ensures joins { (count n k : ℕ) (s : Store) (fronts : List Contents) (f : Contents) →
        0 < count → count ≤ 64 → Leads n (new_store count) s → MayLeaveFronts s.logs fronts →
        slice_get fronts k ≡ Some f → JoinsAndRises f }
    ensures apart { (count n stamp i j : ℕ) (s : Store) (fronts : List Contents) →
        0 < count → count ≤ 64 → Leads n (new_store count) s → MayLeaveFronts s.logs fronts → ¬ StandsTwice fronts stamp i j }
    ensures none_older { (count n : ℕ) (s : Store) (fronts : List Contents) →
        0 < count → count ≤ 64 → Leads n (new_store count) s → MayLeaveFronts s.logs fronts → NoneOlder fronts }
{}

/// Where every map of the history keeps the quotas, so does what is recovered: a recovery of the store's own
/// files is refused for no tenant that has no quota, and for none that has too many pairs.
pub fn own_pairs_keep_quotas()
    ensures { (quota : ℕ → Option ℕ) (count n : ℕ) (s : Store) (fronts : List Contents) (read : Slots) (cutoff resume : ℕ) (used : Option ℕ)
        (found : Pairs) →
        0 < count → count ≤ 64 → Leads n (new_store count) s → MayLeaveFronts s.logs fronts → MayLeaveSlots s.slots read →
        IsRecovered fronts read cutoff resume used found →
        ((m : ℕ) → HasTenants quota (pairs_upto m s.history) × KeepsQuotas quota (pairs_upto m s.history)) →
        HasTenants quota found × KeepsQuotas quota found }
{}

/// Lawful scans of all tenants between two steps, page after page, make a base.
pub fn lawful_scans_make_a_base()
    ensures { (count n from to page : ℕ) (s : Store) (base : Pairs) →
        0 < count → count ≤ 64 → Leads n (new_store count) s → from ≤ to → AreWalked from to page s.history base → IsBase from to s.history base }
{}

/// A walk goes on: by a page that is lawful from where it stands and shows the key behind which the next one goes; over
/// later steps and later changes; and it ends with a page that isn't full.
pub fn a_walk_goes_on()
    ensures page { (maps : ℕ → Map) (from to count : ℕ) (start next last : Bytes) (after next_after : Bool) (pages : List Page) (page : Page) →
        WalksUpto maps from to count start after pages next next_after → IsLawful maps (IsFromTo from to) next next_after count [] page →
        Contains (map (λ p. p.0) page) last → WalksUpto maps from to count start after (pages ++ page ∷ []) last true }
    ensures later { (from to later count t : ℕ) (history : List Placed) (p : Placed) (start next : Bytes) (after next_after : Bool) (pages : List Page) →
        to ≤ later → to < p.change.stamp → WalksUpto (λ m. map_upto m history t) from to count start after pages next next_after →
        WalksUpto (λ m. map_upto m (history ++ p ∷ []) t) from later count start after pages next next_after }
    ensures end { (maps : ℕ → Map) (from to count : ℕ) (start next : Bytes) (after next_after : Bool) (pages : List Page) (page : Page) →
        WalksUpto maps from to count start after pages next next_after → IsLawful maps (IsFromTo from to) next next_after count [] page →
        length page < count → Walks maps from to count start after (pages ++ page ∷ []) }
    ensures whole { (from to later count t : ℕ) (history : List Placed) (p : Placed) (start : Bytes) (after : Bool) (pages : List Page) →
        to ≤ later → to < p.change.stamp → Walks (λ m. map_upto m history t) from to count start after pages →
        Walks (λ m. map_upto m (history ++ p ∷ []) t) from later count start after pages }
{}

/// What a crash leaves of a disk is what the store's log may leave: of a log at rest its front; of one to
/// which a batch was being appended the front with it or without, and the file is such a one again.
pub fn a_disk_leaves_a_front()
    ensures rest { (c : Contents) (place : ℕ) (disk : DiskState) (image : Bytes) →
        IsContents c → IsAtRest (log_bytes c) place disk → MayLeave disk.now image → HasFront c image }
    ensures doubt { (c : Contents) (b : LogBatch) (first disk : DiskState) (image : Bytes) →
        IsContents (with_batch b c) → LeavesOnly (IsLeft c b) first disk → MayLeave disk.now image →
        (HasFront c image ⊎ HasFront (with_batch b c) image) × LeavesOnly (IsLeft c b) (found_with image) (found_with image) }
    ensures found { (c : Contents) (b : LogBatch) (image : Bytes) → HasFront c image →
        (place : ℕ) (disk : DiskState) → IsAtRest (log_bytes c) place disk → MayLeave disk.now image →
        LeavesOnly (IsLeft c b) (found_with image) (found_with image) }
{}

/// What a crash leaves of a slot's disk is one of what the slot may have, and is read so; and the file is such a one again.
pub fn a_disk_leaves_a_checkpoint()
    ensures { (may : List (Option Walk)) (first disk : DiskState) (image : Bytes) → LeavesOnly (IsOneOf may) first disk → MayLeave disk.now image →
        (x : Option Walk) × Has x image × In (option_map view_of_walk x) (slot_now may) × LeavesOnly (IsOneOf may) (found_with image) (found_with image) }
{}

/// The calls on a slot are what may happen to it: a checkpoint is begun over what it may have; it is ended, and its walk is
/// a base; and it is known what the slot has.
pub fn slots_are_written()
    ensures begins { (s : Store) (k : ℕ) (may : List (Option Walk)) → slice_get s.slots k ≡ Some (slot_now may) → s.serving ≡ true →
        Happens s (with_slot k (slot_now (None ∷ may)) s) }
    ensures ends { (s : Store) (k : ℕ) (may : List (Option Walk)) (w : Walk) → slice_get s.slots k ≡ Some (slot_now may) → s.serving ≡ true →
        w.first ≤ w.last → w.last ≤ s.steps → IsBase w.first w.last s.history (pairs_of w.pairs) → Happens s (with_slot k (slot_now (None ∷ Some w ∷ [])) s) }
    ensures rests { (s : Store) (k : ℕ) (may : List (Option Walk)) (x : Option Walk) → slice_get s.slots k ≡ Some (slot_now may) → InSlot x may →
        Happens s (with_slot k (slot_now (x ∷ [])) s) }
{}

/// What may happen can happen: a store of one log is recovered, and serves again.
pub fn a_store_serves_again()
    ensures { (s : Store) × Leads 4 (new_store 1) s × (s.serving ≡ true) × (length s.voids ≡ 1) }
{}

/// A recovery of two logs, the second of which ends first: the records at 1 and 3 count, the one at 2 is void,
/// and the one at 4 is over the cutoff.
pub fn a_recovery_takes_what_counts()
    ensures { IsRecovered fronts_of_two (None ∷ None ∷ []) 3 4 None (after_replay pairs.empty (change 1 ∷ change 3 ∷ [])) }
{}

/// What no recovery answers: a cutoff that some log doesn't reach, or one that all logs pass; to go on from before
/// the end of a log, or of a checkpoint; a checkpoint that is void, or that ended after the cutoff, or none where one
/// may be used. And over no checkpoint: a pair of a key whose records are all void or over the cutoff; anything but
/// what a key's last record makes that is neither, such as the one at the cutoff. And over a checkpoint: anything but
/// its row of a key, if no record of that key that counts has a stamp over the row's. So a replay is refused that
/// passes over new rows and removals by their stamps, but not over changed columns.
pub fn wrong_recoveries_are_refused()
    ensures cutoff_past_a_log { (k cutoff resume : ℕ) (fronts : List Contents) (f : Contents) (read : Slots) (used : Option ℕ) (found : Pairs) →
        slice_get fronts k ≡ Some f → mark_of f < cutoff → ¬ IsRecovered fronts read cutoff resume used found }
    ensures cutoff_before_all_logs { (cutoff resume : ℕ) (fronts : List Contents) (read : Slots) (used : Option ℕ) (found : Pairs) →
        0 < length fronts → ((k : ℕ) (f : Contents) → slice_get fronts k ≡ Some f → cutoff < mark_of f) → ¬ IsRecovered fronts read cutoff resume used found }
    ensures resume_before_a_log { (k cutoff resume : ℕ) (fronts : List Contents) (f : Contents) (read : Slots) (used : Option ℕ) (found : Pairs) →
        slice_get fronts k ≡ Some f → resume < mark_of f → ¬ IsRecovered fronts read cutoff resume used found }
    ensures resume_before_a_checkpoint { (k cutoff resume : ℕ) (fronts : List Contents) (c : CheckpointView) (read : Slots) (used : Option ℕ)
        (found : Pairs) →
        HasSlot read k c → resume < c.to → ¬ IsRecovered fronts read cutoff resume used found }
    ensures over_a_void_checkpoint { (k cutoff resume : ℕ) (fronts : List Contents) (c : CheckpointView) (read : Slots) (found : Pairs) →
        HasSlot read k c → is_void (all_voids fronts) c.to ≡ true → ¬ IsRecovered fronts read cutoff resume (Some k) found }
    ensures over_a_late_checkpoint { (k cutoff resume : ℕ) (fronts : List Contents) (c : CheckpointView) (read : Slots) (found : Pairs) →
        HasSlot read k c → cutoff < c.to → ¬ IsRecovered fronts read cutoff resume (Some k) found }
    ensures over_no_checkpoint { (k cutoff resume : ℕ) (fronts : List Contents) (c : CheckpointView) (read : Slots) (found : Pairs) →
        HasSlot read k c → MayUse fronts c → ¬ IsRecovered fronts read cutoff resume None found }
    ensures with_what_does_not_count { (key : ℕ × Bytes) (cutoff resume : ℕ) (fronts : List Contents) (read : Slots) (found : Pairs) →
        ((r : Record) → In r (all_records fronts) → key_of r ≡ key → (is_void (all_voids fronts) r.stamp ≡ true) ⊎ (cutoff < r.stamp)) →
        pairs.get found key ≢ None → ¬ IsRecovered fronts read cutoff resume None found }
    ensures without_the_last_record { (r : Record) (cutoff resume : ℕ) (fronts : List Contents) (read : Slots) (found : Pairs) →
        In r (all_records fronts) → 0 < r.stamp → r.stamp ≤ cutoff → is_void (all_voids fronts) r.stamp ≡ false →
        ((q : Record) → In q (all_records fronts) → key_of q ≡ key_of r → r.stamp < q.stamp →
        (is_void (all_voids fronts) q.stamp ≡ true) ⊎ (cutoff < q.stamp)) →
        ((old : Option Stamped) → pairs.get found (key_of r) ≢ made r.stamp r.write old) → ¬ IsRecovered fronts read cutoff resume None found }
    ensures with_a_change_that_its_base_has { (k cutoff resume : ℕ) (key : ℕ × Bytes) (row : Stamped) (fronts : List Contents) (c : CheckpointView)
        (read : Slots) (found : Pairs) →
        HasSlot read k c → pairs.get c.pairs key ≡ Some row →
        ((r : Record) → In r (all_records fronts) → key_of r ≡ key → r.stamp ≤ cutoff → is_void (all_voids fronts) r.stamp ≡ false → r.stamp ≤ row.stamp) →
        pairs.get found key ≢ Some row → ¬ IsRecovered fronts read cutoff resume (Some k) found }
    ensures without_the_record_at_the_cutoff { (r : Record) (resume : ℕ) (fronts : List Contents) (read : Slots) (found : Pairs) →
        In r (all_records fronts) → 0 < r.stamp → is_void (all_voids fronts) r.stamp ≡ false →
        ((old : Option Stamped) → pairs.get found (key_of r) ≢ made r.stamp r.write old) → ¬ IsRecovered fronts read r.stamp resume None found }
{}
