//! What a scan has done behind each of its steps. Contracts alone: no code runs.

ghost use Rattle.std.specs.{Prelude.{◌≡◌, ◌<◌, ◌≤◌, ℕ, ◌^◌, Bool, true, false, List, length}, List.{All, Contains}};
ghost use Rattle.mt_slices.specs.{Keys.{IsStoredKey, stored_key, tenant_of}, Fences.least_from};
ghost use Rattle.mt_rows.specs.{declared.command.Command.TheVariants.Scan, Commands.IsKey, Rows.Bytes, Stamps.Stamped, Maps.is_walked};
ghost use Rattle.mt_runs.specs.Scans.{IsLawful};
ghost use Rattle.mt_version.specs.Changes.{SameButLock};
ghost use Rattle.mt_arena.specs.{NodeView.NodeView, Arena.{ArenaView, IsArena}, Accesses.at};
ghost use Rattle.mt_operation.specs.{declared.phase.Phase.Phase, declared.walk.Walk.Walk, declared.scan.Stop.Stop, Operations.{ScanView, no_scan}};
ghost use Rattle.mt_descent.specs.{Pasts.{Past, IsNow, ExtendsPast}, Seen.RangeStands, KeptWalks.IsAtBorder};
ghost use Rattle.mt_walks.specs.Walked.{IsWithin, keys_of};
ghost use Rattle.mt_readings.specs.Tenancies.{passed_at};
ghost use Rattle.mt_scan.specs.{Snaps.{prefix_in, IsSnap}, Checks.IsCheck};
ghost use Rattle.mt_stretches.specs.Scanned.{maps_of, passed_by, Stayed, HasScanned, HasSeen};

/// Before its first step a scan has walked no key, whatever that step's number will be.
pub fn a_scan_begins()
    ensures { (past : Past) (first t : ℕ) (from : Bytes) (after : Bool) (count : ℕ) (columns : List ℕ) → t < 2 ^ 32 → IsStoredKey (stored_key t from) → 1 ≤ count →
        HasScanned past first from after count columns (no_scan (stored_key t from) (Scan from after count columns)) }
{}

/// What a scan has done stays so while others make steps, and while maps from before its first step are given up.
pub fn what_is_scanned_stays()
    ensures scanned { (before now : Past) (first : ℕ) (from : Bytes) (after : Bool) (count : ℕ) (columns : List ℕ) (s : ScanView) → ExtendsPast first before now →
        HasScanned before first from after count columns s → HasScanned now first from after count columns s }
    ensures seen { (before now : Past) (first : ℕ) (prefix : Bytes) (s : ScanView) → ExtendsPast first before now →
        HasSeen before first prefix s → HasSeen now first prefix s }
{}

/// As long as its node's range stands, what Snap has seen was right after its own step.
pub fn a_snap_sees()
    ensures { (v : ArenaView) (past : Past) (step : ℕ) (w x : Walk) (s is : ScanView) → IsArena v.nodes v.trees → IsNow past step v → w.first ≤ step →
        IsAtBorder v s.fence w → RangeStands (at v w.place.node) w.place.seen → IsSnap v w x s is → HasSeen past w.first (prefix_in v w) is }
{}

/// A scan that keeps what it has seen goes on from its next fence, or shows lawful pairs.
pub fn a_check_goes_on()
    ensures goes { (past : Past) (first : ℕ) (from : Bytes) (after : Bool) (n : NodeView) (prefix : Bytes) (count : ℕ) (columns : List ℕ) (w x : Walk) (s is : ScanView) →
        HasScanned past first from after count columns s → HasSeen past first prefix s → IsCheck n prefix count columns w x s is → SameButLock n.version w.place.seen →
        IsStoredKey is.fence → x.phase ≡ Phase.Hop → HasScanned past first from after count columns is }
    ensures ends { (past : Past) (first : ℕ) (from : Bytes) (after : Bool) (n : NodeView) (prefix : Bytes) (count : ℕ) (columns : List ℕ) (w x : Walk) (s is : ScanView) →
        HasScanned past first from after count columns s → HasSeen past first prefix s → IsCheck n prefix count columns w x s is → SameButLock n.version w.place.seen →
        x.phase ≡ Phase.Done → IsLawful (maps_of past (tenant_of s.fence)) (IsWithin first past.steps) from after count columns is.collected }
    ensures short { (past : Past) (first : ℕ) (from : Bytes) (after : Bool) (n : NodeView) (prefix : Bytes) (count : ℕ) (columns : List ℕ) (w x : Walk) (s is : ScanView) →
        HasScanned past first from after count columns s → HasSeen past first prefix s → IsCheck n prefix count columns w x s is → SameButLock n.version w.place.seen →
        All (λ p. IsKey p.0) is.collected }
    ensures drops { (past : Past) (first : ℕ) (from : Bytes) (after : Bool) (n : NodeView) (prefix : Bytes) (count : ℕ) (columns : List ℕ) (w x : Walk)
        (s is : ScanView) → HasScanned past first from after count columns s → IsCheck n prefix count columns w x s is → ¬ SameButLock n.version w.place.seen →
        HasScanned past first from after count columns is }
{}

/// Scans that have not walked so: one that is done with a key of its tenant's which was there after each step since its first,
/// and hasn't collected it; and one with as many pairs as it was asked for. Nor has one seen all that hasn't seen such a key,
/// up to the next node or to the end of the tenant's keys.
pub fn wrong_scans_are_no_walk()
    ensures left_behind { (past : Past) (first : ℕ) (from : Bytes) (after : Bool) (count : ℕ) (columns : List ℕ) (s : ScanView) (key : Bytes) (row : ℕ → Stamped) →
        is_walked from after key ≡ true → passed_by s key ≡ true → Stayed past first (tenant_of s.fence) key row → ¬ Contains (keys_of s.collected) key →
        ¬ HasScanned past first from after count columns s }
    ensures full { (past : Past) (first : ℕ) (from : Bytes) (after : Bool) (count : ℕ) (columns : List ℕ) (s : ScanView) → count ≤ length s.collected →
        ¬ HasScanned past first from after count columns s }
    ensures unseen_before_the_next { (past : Past) (first : ℕ) (prefix : Bytes) (s : ScanView) (slice : ℕ) (key : Bytes) (row : ℕ → Stamped) → s.stop ≡ Stop.Next slice →
        passed_by s key ≡ false → passed_at (tenant_of s.fence) (least_from prefix slice) false key ≡ true → Stayed past first (tenant_of s.fence) key row →
        ¬ Contains (keys_of s.seen) key → ¬ HasSeen past first prefix s }
    ensures unseen_to_the_end { (past : Past) (first : ℕ) (prefix : Bytes) (s : ScanView) (key : Bytes) (row : ℕ → Stamped) → s.stop ≡ Stop.Tenant →
        passed_by s key ≡ false → Stayed past first (tenant_of s.fence) key row → ¬ Contains (keys_of s.seen) key → ¬ HasSeen past first prefix s }
{}
