//! What a scan's walk is, and that it ends lawful. Contracts alone: no code runs.

ghost use Rattle.std.specs.{Prelude.{◌≡◌, ◌≢◌, ◌<◌, ◌≤◌, ◌++◌, ℕ, Bool, true, false, List, [], ◌∷◌, take, length, Some, None}, List.Contains};
ghost use Rattle.std.specs.{Ordering.{nat_cmp, is_le}, Cmp.Lexicographic.slice_cmp};
ghost use Rattle.std.specs.FinMap as pairs;
ghost use Rattle.mt_rows.specs.{Rows.Bytes, Maps.{Map, is_walked, scanned}, Stamps.Stamped};
ghost use Rattle.mt_runs.specs.Scans.{Shown, IsReached, IsLawful};
ghost use Rattle.mt_walks.specs.Walked.{IsWithin, HasWalked, IsStretch, IsFront, keys_of, shown_all, is_upto};

/// A scan that is done with the keys of its walked range is lawful.
pub fn a_whole_walk_is_lawful()
    ensures { (maps : ℕ → Map) (first last : ℕ) (from : Bytes) (after : Bool) (count : ℕ) (columns : List ℕ) (passed : Bytes → Bool) (ps : Shown) →
        HasWalked maps (IsWithin first last) from after columns passed ps → length ps ≤ count →
        ((key : Bytes) → is_walked from after key ≡ true → IsReached count ps key → passed key ≡ true) →
        IsLawful maps (IsWithin first last) from after count columns ps }
{}

/// A lawful scan between whose first and last step the map stayed the same shows exactly the first pairs that it walks.
pub fn a_scan_of_a_still_map_is_exact()
    ensures { (maps : ℕ → Map) (m : Map) (first last : ℕ) (from : Bytes) (after : Bool) (count : ℕ) (columns : List ℕ) (ps : Shown) →
        ((n : ℕ) → IsWithin first last n → maps n ≡ m) →
        IsLawful maps (IsWithin first last) from after count columns ps → ps ≡ scanned from after count columns m }
{}

/// A walk begins with no key done, before its start.
pub fn a_walk_begins()
    ensures { (maps : ℕ → Map) (first last : ℕ) (from : Bytes) (after : Bool) (columns : List ℕ) (passed : Bytes → Bool) →
        ((key : Bytes) → passed key ≡ true → is_walked from after key ≡ false) →
        HasWalked maps (IsWithin first last) from after columns passed [] }
{}

/// A walk stays as it is while others' steps add maps, or old ones are given up: what counts is that those between its
/// first step and now stand.
pub fn a_walk_stays()
    ensures { (maps ways : ℕ → Map) (first last now : ℕ) (from : Bytes) (after : Bool) (columns : List ℕ) (passed : Bytes → Bool) (ps : Shown) →
        last ≤ now → ((m : ℕ) → IsWithin first last m → ways m ≡ maps m) →
        HasWalked maps (IsWithin first last) from after columns passed ps → HasWalked ways (IsWithin first now) from after columns passed ps }
{}

/// A walk goes on by a stretch that was read after some step between: whole, or by as many of its pairs as are asked for.
pub fn a_walk_goes_on()
    ensures whole { (maps : ℕ → Map) (first last : ℕ) (from : Bytes) (after : Bool) (columns : List ℕ) (passed reached : Bytes → Bool) (ps seen : Shown) (m : ℕ) →
        HasWalked maps (IsWithin first last) from after columns passed ps → IsFront passed → IsWithin first last m → IsStretch (maps m) passed reached seen →
        ((key : Bytes) → passed key ≡ true → reached key ≡ true) → ((key : Bytes) → passed key ≡ false → is_walked from after key ≡ true) →
        HasWalked maps (IsWithin first last) from after columns reached (ps ++ shown_all columns seen) }
    ensures part { (maps : ℕ → Map) (first last : ℕ) (from : Bytes) (after : Bool) (columns : List ℕ) (passed reached : Bytes → Bool) (ps seen : Shown) (m n : ℕ) →
        HasWalked maps (IsWithin first last) from after columns passed ps → IsFront passed → IsFront reached → IsWithin first last m → IsStretch (maps m) passed reached seen →
        ((key : Bytes) → passed key ≡ false → is_walked from after key ≡ true) →
        let taken = ps ++ shown_all columns (take n seen) in
        HasWalked maps (IsWithin first last) from after columns (is_upto (keys_of taken)) taken }
{}

/// Scans that are refused: one that shows more pairs than were asked for, a key twice, a key before its start, a row that its
/// key did not have after any step between, such as a stale one or another tenant's; and one that skips a key which stayed.
pub fn wrong_scans_are_refused()
    ensures too_many { (maps : ℕ → Map) (first last : ℕ) (from : Bytes) (after : Bool) (count : ℕ) (columns : List ℕ) (ps : Shown) →
        count < length ps → ¬ IsLawful maps (IsWithin first last) from after count columns ps }
    ensures key_twice { (maps : ℕ → Map) (first last : ℕ) (from : Bytes) (after : Bool) (count : ℕ) (columns : List ℕ) (front back : Shown) (key : Bytes) (row other : Stamped) →
        ¬ IsLawful maps (IsWithin first last) from after count columns (front ++ ((key, row) ∷ (key, other) ∷ back)) }
    ensures before_its_start { (maps : ℕ → Map) (first last : ℕ) (from : Bytes) (after : Bool) (count : ℕ) (columns : List ℕ) (ps : Shown) (p : Bytes × Stamped) →
        Contains ps p → is_walked from after p.0 ≡ false → ¬ IsLawful maps (IsWithin first last) from after count columns ps }
    ensures not_there { (maps : ℕ → Map) (first last : ℕ) (from : Bytes) (after : Bool) (count : ℕ) (ps : Shown) (p : Bytes × Stamped) →
        Contains ps p → ((m : ℕ) → IsWithin first last m → pairs.get (maps m) p.0 ≢ Some p.1) → ¬ IsLawful maps (IsWithin first last) from after count [] ps }
    ensures skipped { (maps : ℕ → Map) (first last : ℕ) (from : Bytes) (after : Bool) (count : ℕ) (columns : List ℕ) (ps : Shown) (key : Bytes) (row : ℕ → Stamped) →
        is_walked from after key ≡ true → length ps < count → ((m : ℕ) → IsWithin first last m → pairs.get (maps m) key ≡ Some (row m)) → ¬ Contains (keys_of ps) key →
        ¬ IsLawful maps (IsWithin first last) from after count columns ps }
{}

/// A stretch is refused that misses a pair of its map between its fences, and so is one that has a row which its map hasn't
/// there; and a walk that has passed a key which was there after each step between, and hasn't collected it.
pub fn wrong_walks_are_refused()
    ensures missed { (m : Map) (passed reached : Bytes → Bool) (seen : Shown) (key : Bytes) (row : Stamped) →
        passed key ≡ false → reached key ≡ true → pairs.get m key ≡ Some row → ¬ Contains (keys_of seen) key → ¬ IsStretch m passed reached seen }
    ensures not_there { (m : Map) (passed reached : Bytes → Bool) (seen : Shown) (p : Bytes × Stamped) →
        Contains seen p → pairs.get m p.0 ≢ Some p.1 → ¬ IsStretch m passed reached seen }
    ensures passed_by { (maps : ℕ → Map) (first last : ℕ) (from : Bytes) (after : Bool) (columns : List ℕ) (passed : Bytes → Bool) (ps : Shown) (key : Bytes) (row : ℕ → Stamped) →
        is_walked from after key ≡ true → passed key ≡ true → ((m : ℕ) → IsWithin first last m → pairs.get (maps m) key ≡ Some (row m)) → ¬ Contains (keys_of ps) key →
        ¬ HasWalked maps (IsWithin first last) from after columns passed ps }
{}
