//! Tenants stay apart: by their stored keys alone, and in each step. A contract alone: no code runs.

ghost use Rattle.std.specs.Prelude.{◌≡◌, ◌≢◌, ◌<◌, ◌^◌, ℕ, Bool, Some};
ghost use Rattle.mt_slices.specs.Keys.{stored_key};
ghost use Rattle.mt_rows.specs.{Rows.Bytes, Tenants.tenant_map};
ghost use Rattle.mt_operation.specs.Operations.{OperationView};
ghost use Rattle.mt_state.specs.{Views.{StateView, contents_of, op_at}, Promises.IsStep};

/// Two tenants' stored keys never meet, whatever their users' keys are; and a step of one tenant's
/// operation leaves every other tenant's map as it was.
pub fn tenants_stay_apart()
    ensures keys { (t u : ℕ) (key other : Bytes) → t < 2 ^ 32 → u < 2 ^ 32 → t ≢ u → stored_key t key ≢ stored_key u other }
    ensures maps { (old new : StateView) (o t : ℕ) (done : Bool) (op : OperationView) → IsStep old new o done → op_at old.table o ≡ Some op → t ≢ op.tenant →
        tenant_map t (contents_of new) ≡ tenant_map t (contents_of old) }
{}
