//! What a scan keeps and remembers between its steps, and how it comes to the next node. Contracts alone: no code runs.

ghost use Rattle.std.specs.{Prelude.{◌≡◌, ◌≢◌, ◌<◌, ℕ, true, false, [], length, Some, None}, List.Contains};
ghost use Rattle.mt_version.specs.{Parts.Parts, Changes.IsStable};
ghost use Rattle.mt_slices.specs.{Keys.tenant_of, Slices.slice_of};
ghost use Rattle.mt_rows.specs.{Rows.Bytes, Stamps.Stamped};
ghost use Rattle.mt_arena.specs.{Arena.{ArenaView, IsArena}, Accesses.at, Guarantee.NodesGuarantee, NodeFacts.IsUnstable};
ghost use Rattle.mt_border.specs.{declared.entry.Entry.Entry, Held.Pair};
ghost use Rattle.mt_operation.specs.declared.scan.Stop.{Stop};
ghost use Rattle.mt_operation.specs.declared.scan.Stop.TheVariants as stops;
ghost use Rattle.mt_operation.specs.{declared.phase.Phase.TheVariants.{Snap, Check, Hop, Done}, declared.walk.Walk.Walk, Operations.ScanView};
ghost use Rattle.mt_readings.specs.Tenancies.{own_pairs};
ghost use Rattle.mt_descent.specs.{Seen.Covers, KeptWalks.IsAtBorder, WalkMoves.after_change};
ghost use Rattle.mt_scan.specs.{Snaps.{read_in, link_in, IsOver, prefix_in, IsSnap}, Checks.{walk_to, GoesBehind}, Hops.{IsNextFrom, IsAtHop, IsAtCheck, KeptHop, HopsTo}};
ghost use Rattle.mt_scan.specs.Remembered.{IsGivenElsewhere, Learns};

/// The next node of a live border node begins at its end. A live, unmarked one without a next node has no end.
pub fn a_node_tells_its_next()
    ensures next { (v : ArenaView) (k x : ℕ) → IsArena v.nodes v.trees → k < length v.nodes → (at v k).version.deleted ≡ false → (at v k).level ≡ 0 →
        (at v k).next ≡ Some x →
        ((at v k).high ≡ Some (at v x).low) × IsNextFrom v (at v k).tree (at v x).low x }
    ensures last { (v : ArenaView) (k : ℕ) → IsArena v.nodes v.trees → k < length v.nodes → (at v k).level ≡ 0 → (at v k).version.deleted ≡ false → IsStable (at v k).version →
        (at v k).next ≡ None → (at v k).high ≡ None }
{}

/// What a scan keeps at Hop stays under each step of any operation.
pub fn a_hop_stays()
    ensures { (op : ℕ) (old new : ArenaView) (tree layer : ℕ) (key : Bytes) (x : ℕ) → NodesGuarantee op old.nodes new.nodes old.trees new.trees →
        IsAtHop old tree layer key x → IsAtHop new tree layer key x }
{}

/// A next node that is neither deleted nor marked has the fence's slice in its range: it may be read.
pub fn a_hop_arrives()
    ensures { (v : ArenaView) (tree layer : ℕ) (key : Bytes) (x : ℕ) → IsArena v.nodes v.trees → IsAtHop v tree layer key x → IsStable (at v x).version → (at v x).version.deleted ≡ false →
        Covers v tree x (at v x).version (slice_of key layer) }
{}

/// No scan is at a hop to a node that begins elsewhere than at its fence's slice, nor to one of another tree or above the
/// border nodes.
pub fn wrong_hops_are_refused()
    ensures begins_elsewhere { (v : ArenaView) (tree layer : ℕ) (key : Bytes) (x : ℕ) → (at v x).low ≢ slice_of key layer → ¬ IsAtHop v tree layer key x }
    ensures another_tree { (v : ArenaView) (tree layer : ℕ) (key : Bytes) (x : ℕ) → (at v x).tree ≢ tree → ¬ IsAtHop v tree layer key x }
    ensures no_border { (v : ArenaView) (tree layer : ℕ) (key : Bytes) (x : ℕ) → (at v x).level ≢ 0 → ¬ IsAtHop v tree layer key x }
{}

/// What a scan keeps at Check and at Hop stays under each step of any operation, by what the step leaves to
/// others alone.
pub fn scans_stay()
    ensures check { (op : ℕ) (old new : ArenaView) (key : Bytes) (w : Walk) (stop : Stop) → NodesGuarantee op old.nodes new.nodes old.trees new.trees →
        IsAtCheck old key w stop → IsAtCheck new key w stop }
    ensures hop { (op : ℕ) (old new : ArenaView) (key : Bytes) (w : Walk) (stop : Stop) → NodesGuarantee op old.nodes new.nodes old.trees new.trees →
        KeptHop old key w stop → KeptHop new key w stop }
{}

/// What a scan keeps at Check and at Hop stays when places are given out that it does not remember.
pub fn kept_stays_where_places_are_given_out()
    ensures check { (old new : ArenaView) (key : Bytes) (w : Walk) (stop : Stop) → IsGivenElsewhere old new Check w stop → IsAtCheck old key w stop → IsAtCheck new key w stop }
    ensures hop { (old new : ArenaView) (key : Bytes) (w : Walk) (stop : Stop) → IsGivenElsewhere old new Hop w stop → KeptHop old key w stop → KeptHop new key w stop }
{}

/// What a look of a scan comes to remember is live, or it remembered it, or a node names it that it remembered.
/// The tree of the link at which Snap ends is live, since a deleted node has no slots.
pub fn a_scan_learns_what_is_named()
    ensures snap { (v : ArenaView) (w x : Walk) (s is : ScanView) → IsArena v.nodes v.trees → w.phase ≡ Snap → IsAtBorder v s.fence w →
        ((at v w.place.node).version.deleted ≡ true → (at v w.place.node).slots ≡ []) → IsSnap v w x s is → Learns v w x s.stop is.stop }
    ensures behind { (v : ArenaView) (prefix : Bytes) (w x : Walk) (s is : ScanView) → w.phase ≡ Check → GoesBehind prefix s.stop s is w x → Learns v w x s.stop is.stop }
    ensures ends { (v : ArenaView) (w : Walk) (was is : Stop) → Learns v w (walk_to Done w) was is }
    ensures changed { (v : ArenaView) (w : Walk) (now : Parts) (was is : Stop) → w.phase ≡ Check → Learns v w (after_change w now (at v w.place.node).next) was is }
    ensures hop { (v : ArenaView) (w x : Walk) (stop : Stop) → IsArena v.nodes v.trees → w.phase ≡ Hop → HopsTo v stop w x → Learns v w x stop stop }
{}

/// No step of Snap drops a pair of the tenant's among those that it reads, or notes a pair that is none of them;
/// none reads over an unstable slot; none ends with the tenant before the tenant's first link, and none
/// with a node behind which another tenant's keys begin.
pub fn wrong_snaps_are_refused()
    ensures drops_a_pair { (v : ArenaView) (before after : Walk) (was is : ScanView) (pair : Bytes × Stamped) →
        Contains (own_pairs (tenant_of was.fence) (prefix_in v before) (read_in (at v before.place.node) was before.layer)) pair →
        ¬ Contains is.seen pair → ¬ IsSnap v before after was is }
    ensures adds_a_pair { (v : ArenaView) (before after : Walk) (was is : ScanView) (pair : Bytes × Stamped) →
        ¬ Contains (own_pairs (tenant_of was.fence) (prefix_in v before) (read_in (at v before.place.node) was before.layer)) pair →
        Contains is.seen pair → ¬ IsSnap v before after was is }
    ensures reads_over_an_unstable_slot { (v : ArenaView) (before after : Walk) (was is : ScanView) (x : Entry × Pair) →
        Contains (read_in (at v before.place.node) was before.layer) x → IsUnstable x.0.held → ¬ IsSnap v before after was is }
    ensures ends_before_a_link { (v : ArenaView) (before after : Walk) (was is : ScanView) (link : Entry) →
        link_in (at v before.place.node) was before.layer ≡ Some link → ¬ IsOver (tenant_of was.fence) before.layer link.slice →
        is.stop ≡ stops.Tenant → ¬ IsSnap v before after was is }
    ensures runs_into_another_tenant { (v : ArenaView) (before after : Walk) (was is : ScanView) (slice : ℕ) →
        IsOver (tenant_of was.fence) before.layer slice → is.stop ≡ stops.Next slice → ¬ IsSnap v before after was is }
{}
