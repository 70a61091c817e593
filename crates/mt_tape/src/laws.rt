//! Laws of a tape's maps, each the contract of a function that does nothing.
//!
//! `now` stands for the present pairs of all tenants, and m for the number of a step.

ghost use Rattle.std.specs.{Prelude.{◌≡◌, ◌≢◌, ◌+◌, ◌<◌, ◌≤◌, ℕ, max, List, [], ◌∷◌, ◌++◌, true, false}, List.Contains};
ghost use Rattle.std.specs.FinMap as pairs;
ghost use Rattle.mt_rows.specs.{Rows.Bytes, Tenants.{Contents, tenant_map}};
ghost use Rattle.mt_tape.specs.{declared.entry.Entry.Entry, Tapes.{RisesOver, last_step_over, later_entries}};
ghost use Rattle.mt_tape.specs.Histories.{contents_at, map_at, is_changed, written_key, with_row, with_write, IsLegalTape, IsNextWrite, IsQuietStep, IsQuietFor, IsUnwrittenSince, after_of};

/// From the last write on the pairs are the present ones, and no step after it wrote.
pub fn the_last_map_is_the_present_one()
    ensures contents { (floor m : ℕ) (entries : List Entry) (now : Contents) → RisesOver floor entries → last_step_over floor entries ≤ m → contents_at entries now m ≡ now }
    ensures maps { (floor m : ℕ) (entries : List Entry) (now : Contents) (t : ℕ) → RisesOver floor entries → last_step_over floor entries ≤ m → map_at entries now t m ≡ tenant_map t now }
    ensures changes { (floor m : ℕ) (entries : List Entry) → RisesOver floor entries → last_step_over floor entries < m → is_changed entries m ≡ false }
{}

/// A write that is added leaves every map before its step as it was, and the tape rising and legal.
/// From its step on the pairs are the new ones.
pub fn a_push_leaves_older_maps()
    ensures contents { (floor m : ℕ) (entries : List Entry) (now : Contents) (e : Entry) → IsNextWrite floor entries now e → m < e.step → contents_at (entries ++ e ∷ []) (with_write now e) m ≡ contents_at entries now m }
    ensures maps { (floor m : ℕ) (entries : List Entry) (now : Contents) (e : Entry) (t : ℕ) → IsNextWrite floor entries now e → m < e.step → map_at (entries ++ e ∷ []) (with_write now e) t m ≡ map_at entries now t m }
    ensures new_contents { (floor m : ℕ) (entries : List Entry) (now : Contents) (e : Entry) → RisesOver floor entries → last_step_over floor entries < e.step → e.step ≤ m → contents_at (entries ++ e ∷ []) now m ≡ now }
    ensures changes { (m : ℕ) (entries : List Entry) (e : Entry) → m < e.step → is_changed (entries ++ e ∷ []) m ≡ is_changed entries m }
    ensures new_change { (entries : List Entry) (e : Entry) → is_changed (entries ++ e ∷ []) e.step ≡ true }
    ensures rising { (floor : ℕ) (entries : List Entry) (e : Entry) → RisesOver floor entries → last_step_over floor entries < e.step → RisesOver floor (entries ++ e ∷ []) }
    ensures last { (floor : ℕ) (entries : List Entry) (e : Entry) → last_step_over floor (entries ++ e ∷ []) ≡ e.step }
    ensures legal { (floor : ℕ) (entries : List Entry) (now : Contents) (e : Entry) → RisesOver floor entries → IsNextWrite floor entries now e → IsLegalTape entries now → IsLegalTape (entries ++ e ∷ []) (with_write now e) }
{}

/// Giving up the writes up to a floor leaves every map from the floor on as it was, and the tape
/// rising and legal.
pub fn a_trim_leaves_later_maps()
    ensures contents { (floor m : ℕ) (entries : List Entry) (now : Contents) → floor ≤ m → contents_at (later_entries floor entries) now m ≡ contents_at entries now m }
    ensures maps { (floor m : ℕ) (entries : List Entry) (now : Contents) (t : ℕ) → floor ≤ m → map_at (later_entries floor entries) now t m ≡ map_at entries now t m }
    ensures changes { (floor m : ℕ) (entries : List Entry) → floor < m → is_changed (later_entries floor entries) m ≡ is_changed entries m }
    ensures rising { (old floor : ℕ) (entries : List Entry) → RisesOver old entries → old ≤ floor → RisesOver floor (later_entries floor entries) }
    ensures last { (old floor : ℕ) (entries : List Entry) → RisesOver old entries → old ≤ floor → last_step_over floor (later_entries floor entries) ≡ max floor (last_step_over old entries) }
    ensures legal { (floor : ℕ) (entries : List Entry) (now : Contents) → IsLegalTape entries now → IsLegalTape (later_entries floor entries) now }
{}

/// What stands now at a key that no step after s wrote, a row or none, stood there after every step
/// from s on. A key stays untouched when others are written and when writes are given up; a write
/// leaves its own untouched from its step on; and none is touched after the last write.
pub fn an_untouched_key_keeps_its_row()
    ensures rows { (entries : List Entry) (now : Contents) (key : ℕ × Bytes) (s m : ℕ) → IsUnwrittenSince entries key s → s ≤ m → pairs.get (contents_at entries now m) key ≡ pairs.get now key }
    ensures rows_of_a_tenant { (entries : List Entry) (now : Contents) (t : ℕ) (key : Bytes) (s m : ℕ) → IsUnwrittenSince entries (t, key) s → s ≤ m → pairs.get (map_at entries now t m) key ≡ pairs.get (tenant_map t now) key }
    ensures after_a_push { (entries : List Entry) (e : Entry) (key : ℕ × Bytes) (s : ℕ) → IsUnwrittenSince entries key s → written_key e ≢ key → IsUnwrittenSince (entries ++ e ∷ []) key s }
    ensures after_a_trim { (floor : ℕ) (entries : List Entry) (key : ℕ × Bytes) (s : ℕ) → IsUnwrittenSince entries key s → IsUnwrittenSince (later_entries floor entries) key s }
    ensures after_its_own_push { (floor : ℕ) (entries : List Entry) (e : Entry) (key : ℕ × Bytes) → RisesOver floor entries → last_step_over floor entries < e.step → IsUnwrittenSince (entries ++ e ∷ []) key e.step }
    ensures past_the_last { (floor : ℕ) (entries : List Entry) (key : ℕ × Bytes) (s : ℕ) → RisesOver floor entries → last_step_over floor entries ≤ s → IsUnwrittenSince entries key s }
{}

/// The pairs just after a write are those just before it with that write, so every other tenant's map
/// is the same before and after; and just before it the key had the row that the entry tells.
pub fn a_write_is_one_change()
    ensures before { (floor m : ℕ) (entries : List Entry) (now : Contents) (e : Entry) → RisesOver floor entries → Contains entries e → e.step ≡ m + 1 → pairs.get (contents_at entries now m) (written_key e) ≡ e.before }
    ensures contents { (floor m : ℕ) (entries : List Entry) (now : Contents) (e : Entry) → RisesOver floor entries → IsLegalTape entries now → Contains entries e → e.step ≡ m + 1 → contents_at entries now e.step ≡ with_write (contents_at entries now m) e }
    ensures own_map { (floor m : ℕ) (entries : List Entry) (now : Contents) (e : Entry) → RisesOver floor entries → IsLegalTape entries now → Contains entries e → e.step ≡ m + 1 → map_at entries now e.tenant e.step ≡ with_row (map_at entries now e.tenant m) e.key (after_of e) }
    ensures other_maps { (floor m : ℕ) (entries : List Entry) (now : Contents) (e : Entry) (t : ℕ) → RisesOver floor entries → Contains entries e → e.step ≡ m + 1 → e.tenant ≢ t → map_at entries now t e.step ≡ map_at entries now t m }
{}

/// The pairs stay the same over steps that did not write, and a tenant's map over steps that wrote
/// no key of that tenant.
pub fn no_write_no_change()
    ensures contents { (m n : ℕ) (entries : List Entry) (now : Contents) → m ≤ n → IsQuietStep entries m n → contents_at entries now m ≡ contents_at entries now n }
    ensures maps { (t m n : ℕ) (entries : List Entry) (now : Contents) → m ≤ n → IsQuietFor t entries m n → map_at entries now t m ≡ map_at entries now t n }
    ensures one_step { (m n : ℕ) (entries : List Entry) (now : Contents) → n ≡ m + 1 → is_changed entries n ≡ false → contents_at entries now n ≡ contents_at entries now m }
    ensures quiet { (m n : ℕ) (entries : List Entry) → ((k : ℕ) → m < k → k ≤ n → is_changed entries k ≡ false) → IsQuietStep entries m n }
{}
