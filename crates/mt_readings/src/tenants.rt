//! What a scan's reading tells of its tenant's map. Contracts alone: no code runs.

ghost use Rattle.std.specs.{Prelude.{◌≡◌, ◌≢◌, ◌<◌, ◌≤◌, ◌^◌, ◌+◌, ◌*◌, ℕ, Bool, true, false, List, Some, None, length, slice_index}, List.Contains};
ghost use Rattle.mt_arena.specs.{declared.tree.Tree.Tree, NodeView.{NodeView, node_at}, Forests.tree_at, Arena.IsArena, Contents.content};
ghost use Rattle.mt_readings.specs.Spans.{IsScanAt, TellsAll};
ghost use Rattle.std.specs.FinMap as pairs;
ghost use Rattle.mt_slices.specs.{Keys.{IsStoredKey, stored_key, tenant_of}, Fences.IsBehindAll};
ghost use Rattle.mt_rows.specs.{Rows.Bytes, Stamps.Stamped, Tenants.{Contents, tenant_map}};
ghost use Rattle.mt_border.specs.{Held.Pair, declared.entry.Entry.Entry, Contents.{HasKey, owned, row_of}, Entries.IsBorder};
ghost use Rattle.mt_interior.specs.Fences.{end_of};
ghost use Rattle.mt_readings.specs.{Reading.{is_below, is_behind, read, stop}, Tenancies.{own_pairs, passed_at, HasStoredKeys, TellsTenant}};
ghost use Rattle.mt_walks.specs.Walked.{IsStretch};

/// The tenant's pairs among those that were read are a stretch of its map: all of it from the fence on, as far as its keys
/// are reached.
pub fn a_reading_is_a_stretch()
    ensures { (c : Contents) (t : ℕ) (prefix : Bytes) (layer : ℕ) (fence : Bytes) (after : Bool) (reached : Bytes → Bool) (es : List Entry) → t < 2 ^ 32 → HasStoredKeys c → IsBorder es →
        let xs = read (is_behind fence after layer) es in
        TellsTenant c t prefix layer fence after reached xs →
        IsStretch (tenant_map t c) (passed_at t fence after) (λ key. reached (stored_key t key)) (own_pairs t prefix xs) }
{}

/// Where a reading tells all up to a fence, it tells so of each tenant.
pub fn what_tells_all_tells_of_a_tenant()
    ensures { (c : Contents) (t : ℕ) (prefix : Bytes) (layer : ℕ) (fence : Bytes) (after : Bool) (reached : Bytes) (es : List Entry) →
        TellsAll c prefix layer fence after reached (read (is_behind fence after layer) es) →
        TellsTenant c t prefix layer fence after (is_below reached false) (read (is_behind fence after layer) es) }
{}

/// Where the reading of a tree's last node met no link, it tells all up to the first key behind the tree.
pub fn a_stretch_to_the_trees_end()
    ensures { (nodes : List NodeView) (trees : List Tree) (k layer : ℕ) (fence reached : Bytes) (after : Bool) (t : ℕ) → IsArena nodes trees → IsScanAt nodes trees k layer fence →
        let prefix = (tree_at trees (node_at nodes k).tree).prefix in
        let behind = is_behind fence after layer in
        stop behind (node_at nodes k).slots ≡ None → (node_at nodes k).high ≡ None → IsBehindAll prefix reached →
        TellsTenant (content trees nodes) t prefix layer fence after (is_below reached false) (read behind (node_at nodes k).slots) }
{}

/// Where the range of a node of the top tree goes as far as the tenant's keys, and its reading met no link of the tenant, it
/// tells all that the contents have of the tenant behind the fence.
pub fn a_stretch_to_the_tenants_end()
    ensures { (nodes : List NodeView) (trees : List Tree) (k layer : ℕ) (fence : Bytes) (after : Bool) (t : ℕ) → IsArena nodes trees → IsScanAt nodes trees k layer fence →
        let prefix = (tree_at trees (node_at nodes k).tree).prefix in
        let behind = is_behind fence after layer in
        layer ≡ 0 → (t + 1) * 4294967296 ≤ end_of (node_at nodes k).high →
        ((l : Entry) → stop behind (node_at nodes k).slots ≡ Some l → (t + 1) * 4294967296 ≤ l.slice) →
        TellsTenant (content trees nodes) t prefix layer fence after (λ key. true) (read behind (node_at nodes k).slots) }
{}

/// Where the reading of a tree's last node met no link, and all bytes behind the tenant's four with which the tree's keys begin are
/// the greatest, it tells all that the contents have of the tenant behind the fence: none of its keys stands behind the tree.
pub fn a_stretch_to_the_last_trees_end()
    ensures { (nodes : List NodeView) (trees : List Tree) (k layer : ℕ) (fence : Bytes) (after : Bool) (t : ℕ) → IsArena nodes trees → IsScanAt nodes trees k layer fence →
        let prefix = (tree_at trees (node_at nodes k).tree).prefix in
        let behind = is_behind fence after layer in
        stop behind (node_at nodes k).slots ≡ None → (node_at nodes k).high ≡ None → tenant_of fence ≡ t →
        ((i : ℕ) → 4 ≤ i → i < length prefix → slice_index prefix i ≡ 255) →
        TellsTenant (content trees nodes) t prefix layer fence after (λ key. true) (read behind (node_at nodes k).slots) }
{}

/// Each pair of the contents is that of a stored key.
pub fn contents_have_stored_keys()
    ensures { (nodes : List NodeView) (trees : List Tree) → IsArena nodes trees → HasStoredKeys (content trees nodes) }
{}

/// A reading tells not all that misses a key's pair between its fences, be it of all tenants or of one.
pub fn wrong_readings_are_refused()
    ensures missed { (c : Contents) (prefix : Bytes) (layer : ℕ) (fence : Bytes) (after : Bool) (reached : Bytes) (xs : List (Entry × Pair)) (key : Bytes) (row : Stamped) →
        IsStoredKey key → is_below fence after key ≡ false → is_below reached false key ≡ true → pairs.get c (owned key) ≡ Some row →
        ((x : Entry × Pair) → Contains xs x → ¬ HasKey prefix layer x.0 key) → ¬ TellsAll c prefix layer fence after reached xs }
    ensures missed_of_its_tenant { (c : Contents) (t : ℕ) (prefix : Bytes) (layer : ℕ) (fence : Bytes) (after : Bool) (reached : Bytes → Bool) (xs : List (Entry × Pair)) (key : Bytes) (row : Stamped) →
        IsStoredKey key → tenant_of key ≡ t → is_below fence after key ≡ false → reached key ≡ true → pairs.get c (owned key) ≡ Some row →
        ((x : Entry × Pair) → Contains xs x → ¬ HasKey prefix layer x.0 key) → ¬ TellsTenant c t prefix layer fence after reached xs }
    ensures another_row { (c : Contents) (t : ℕ) (prefix : Bytes) (layer : ℕ) (fence : Bytes) (after : Bool) (reached : Bytes → Bool) (xs : List (Entry × Pair)) (x : Entry × Pair) →
        Contains xs x → ((key : Bytes) → HasKey prefix layer x.0 key → pairs.get c (owned key) ≢ Some (row_of x.1)) → ¬ TellsTenant c t prefix layer fence after reached xs }
{}
