//! What is kept of a put that holds its border node stays under the steps of all others, and what it
//! places is its command's change. One that meets another stamp changes nothing. Contracts alone: no code
//! runs.

ghost use Rattle.std.specs.{Prelude.{◌≡◌, ◌≢◌, ◌<◌, ◌≤◌, ℕ, List, Some, None}, FinMap.{get, len}};
ghost use Rattle.mt_rows.specs.{declared.reply.Reply.TheVariants.{New, Replaced, Full, Stale}, Rows.Bytes, Stamps.{Stamped, stamp_in}, Maps.{reply_of, map_after}};
ghost use Rattle.mt_rows.specs.Tenants.{Contents, tenant_map};
ghost use Rattle.mt_border.specs.Contents.{owned, row_of};
ghost use Rattle.mt_tape.specs.{declared.entry.Entry.Entry, Tapes.last_step_over, Histories.{IsNextWrite, with_write}};
ghost use Rattle.mt_arena.specs.{Arena.{ArenaView, IsArena, content_of, Guarantee}, Given.{GivesOut, GivesOutBeside}};
ghost use Rattle.mt_operation.specs.{declared.phase.Phase.Phase, declared.walk.Walk.Walk, declared.task.Task.Task, declared.prepared.Prepared.Prepared};
ghost use Rattle.mt_operation.specs.{declared.splits.Splits.Splits, Tasks.ask};
ghost use Rattle.mt_insert.specs.{Puts.{IsPut, MeetsStamp, write_of}, KeptPuts.{IsAtStore, IsAtFill, IsAtPublish, KeptReady, IsAtSplitStart, IsAtMakeLayer}};
ghost use Rattle.mt_insert.specs.KeptSplits.{HoldsSplits, IsAtSplitMove, KeptSplit};

/// What a put keeps at Store, each step of another operation leaves.
pub fn store_stays()
    ensures { (op o : ℕ) (old new : ArenaView) (task : Task) (prepared : Prepared) (w : Walk) → Guarantee op old new → o ≢ op →
        IsAtStore old o task prepared w → IsAtStore new o task prepared w }
{}

/// What a put keeps at Fill, each step of another operation leaves.
pub fn fill_stays()
    ensures { (op o : ℕ) (old new : ArenaView) (task : Task) (prepared : Prepared) (w : Walk) → Guarantee op old new → o ≢ op →
        IsAtFill old o task prepared w → IsAtFill new o task prepared w }
{}

/// What a put keeps at Publish, each step of another operation leaves.
pub fn publish_stays()
    ensures { (op o : ℕ) (old new : ArenaView) (task : Task) (prepared : Prepared) (w : Walk) → Guarantee op old new → o ≢ op →
        IsAtPublish old o task prepared w → IsAtPublish new o task prepared w }
{}

/// So does what a put keeps that has made its row ready, by its phase.
pub fn ready_stays()
    ensures { (op o : ℕ) (old new : ArenaView) (task : Task) (prepared : Prepared) (w : Walk) (phase : Phase) → Guarantee op old new → o ≢ op →
        KeptReady phase old o task prepared w → KeptReady phase new o task prepared w }
{}

/// The contents have, at the key of a put that is about to place its row, the row of its slot at Store,
/// and none at Fill and at Publish: the row before of the write that it made ready.
pub fn the_row_before_stands()
    ensures store { (v : ArenaView) (op : ℕ) (task : Task) (prepared : Prepared) (w : Walk) → IsArena v.nodes v.trees → (kept : IsAtStore v op task prepared w) →
        get (content_of v) (owned task.key) ≡ Some (row_of kept.pair) }
    ensures fill { (v : ArenaView) (op : ℕ) (task : Task) (prepared : Prepared) (w : Walk) → IsArena v.nodes v.trees → IsAtFill v op task prepared w →
        get (content_of v) (owned task.key) ≡ None }
    ensures publish { (v : ArenaView) (op : ℕ) (task : Task) (prepared : Prepared) (w : Walk) → IsArena v.nodes v.trees → IsAtPublish v op task prepared w →
        get (content_of v) (owned task.key) ≡ None }
    ensures write { (v : ArenaView) (op : ℕ) (task : Task) (prepared : Prepared) (w : Walk) (phase : Phase) → IsArena v.nodes v.trees → KeptReady phase v op task prepared w →
        get (content_of v) (owned task.key) ≡ prepared.write.before }
{}

/// The write that a put places may come next on a tape whose writes are all of earlier steps.
pub fn a_placed_write_is_next()
    ensures { (floor step : ℕ) (entries : List Entry) (contents : Contents) (task : Task) → IsPut task → last_step_over floor entries < step →
        IsNextWrite floor entries contents (write_of task contents step) }
{}

/// The write that a put places is its command's change, with the number of its step, and the reply is the
/// command's, by its tenant's map: `Replaced` over a row; `New` where the key is missing and the tenant has
/// fewer pairs than its quota, else `Full`, which changes nothing. If the put asks for a stamp, that one
/// stands at its key. It leaves every other tenant's map equal.
pub fn a_placed_put_is_its_command()
    ensures replaced { (quota step : ℕ) (contents : Contents) (task : Task) (row : Stamped) → IsPut task → get contents (owned task.key) ≡ Some row → MeetsStamp (ask task) row.stamp →
        (reply_of quota (ask task) (tenant_map task.tenant contents) ≡ Replaced)
        × (map_after quota step (ask task) (tenant_map task.tenant contents) ≡ tenant_map task.tenant (with_write contents (write_of task contents step))) }
    ensures new { (quota step : ℕ) (contents : Contents) (task : Task) → IsPut task → get contents (owned task.key) ≡ None → MeetsStamp (ask task) 0 →
        len (tenant_map task.tenant contents) < quota →
        (reply_of quota (ask task) (tenant_map task.tenant contents) ≡ New)
        × (map_after quota step (ask task) (tenant_map task.tenant contents) ≡ tenant_map task.tenant (with_write contents (write_of task contents step))) }
    ensures full { (quota step : ℕ) (contents : Contents) (task : Task) → IsPut task → get contents (owned task.key) ≡ None → MeetsStamp (ask task) 0 →
        quota ≤ len (tenant_map task.tenant contents) →
        (reply_of quota (ask task) (tenant_map task.tenant contents) ≡ Full)
        × (map_after quota step (ask task) (tenant_map task.tenant contents) ≡ tenant_map task.tenant contents) }
    ensures others { (step : ℕ) (contents : Contents) (task : Task) (t : ℕ) → IsPut task → t ≢ task.tenant →
        tenant_map t (with_write contents (write_of task contents step)) ≡ tenant_map t contents }
{}

/// A put that asks for another stamp than the one that stands at its key is told the latter. It leaves its
/// tenant's map, whether or not the quota has room. If no row stands, the stamp is 0.
pub fn a_stale_put_changes_nothing()
    ensures { (quota step : ℕ) (contents : Contents) (task : Task) (stamp : ℕ) → IsPut task → stamp_in (get contents (owned task.key)) ≡ stamp → ¬ MeetsStamp (ask task) stamp →
        (reply_of quota (ask task) (tenant_map task.tenant contents) ≡ Stale stamp)
        × (map_after quota step (ask task) (tenant_map task.tenant contents) ≡ tenant_map task.tenant contents) }
{}

/// What a put keeps at SplitStart, each step of another operation leaves.
pub fn split_start_stays()
    ensures { (op o : ℕ) (old new : ArenaView) (task : Task) (prepared : Prepared) (w : Walk) → Guarantee op old new → o ≢ op →
        IsAtSplitStart old o task prepared w → IsAtSplitStart new o task prepared w }
{}

/// What a put keeps at SplitMove, each step of another operation leaves.
pub fn split_move_stays()
    ensures { (op o : ℕ) (old new : ArenaView) (task : Task) (prepared : Prepared) (w : Walk) (s : Splits) → Guarantee op old new → o ≢ op →
        IsAtSplitMove old o task prepared w s → IsAtSplitMove new o task prepared w s }
{}

/// So does what an operation keeps of its splits once the keys are parted, by its phase.
pub fn split_stays()
    ensures { (op o : ℕ) (old new : ArenaView) (phase : Phase) (s : Splits) → Guarantee op old new → o ≢ op →
        KeptSplit phase old o s → KeptSplit phase new o s }
{}

/// While another operation takes a step, a splitting one comes to hold no node beside its splits.
pub fn splits_are_held()
    ensures { (op o : ℕ) (old new : ArenaView) (s : Splits) → HoldsSplits old o s → Guarantee op old new → o ≢ op → HoldsSplits new o s }
{}

/// The contents have no row at the key of a put that is about to split its full border node, and none
/// until its keys are parted.
pub fn no_row_before_a_split()
    ensures at_start { (v : ArenaView) (op : ℕ) (task : Task) (prepared : Prepared) (w : Walk) → IsArena v.nodes v.trees → IsAtSplitStart v op task prepared w →
        get (content_of v) (owned task.key) ≡ None }
    ensures at_move { (v : ArenaView) (op : ℕ) (task : Task) (prepared : Prepared) (w : Walk) (s : Splits) → IsArena v.nodes v.trees → IsAtSplitMove v op task prepared w s →
        get (content_of v) (owned task.key) ≡ None }
{}

/// What a put keeps of the nodes that it holds stays when places are given out beside it, by its phase.
/// Neither does it come to hold a node beside its splits by that.
pub fn kept_stays_where_places_are_given_out()
    ensures ready { (o : ℕ) (old mid : ArenaView) (task : Task) (prepared : Prepared) (w : Walk) (phase : Phase) → GivesOutBeside o old mid →
        KeptReady phase old o task prepared w → KeptReady phase mid o task prepared w }
    ensures publish { (o : ℕ) (old mid : ArenaView) (task : Task) (prepared : Prepared) (w : Walk) → GivesOutBeside o old mid →
        IsAtPublish old o task prepared w → IsAtPublish mid o task prepared w }
    ensures make_layer { (o : ℕ) (old mid : ArenaView) (key : Bytes) (w : Walk) → GivesOutBeside o old mid →
        IsAtMakeLayer old o key w → IsAtMakeLayer mid o key w }
    ensures split_move { (o : ℕ) (old mid : ArenaView) (task : Task) (prepared : Prepared) (w : Walk) (s : Splits) → GivesOutBeside o old mid →
        IsAtSplitMove old o task prepared w s → IsAtSplitMove mid o task prepared w s }
    ensures split { (o : ℕ) (old mid : ArenaView) (phase : Phase) (s : Splits) → GivesOutBeside o old mid →
        KeptSplit phase old o s → KeptSplit phase mid o s }
    ensures holds { (o : ℕ) (old mid : ArenaView) (s : Splits) → GivesOut old mid → HoldsSplits old o s → HoldsSplits mid o s }
{}
