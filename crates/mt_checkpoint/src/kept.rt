//! What is kept of a checkpoint's pairs while it is read: each of them, or nothing but what clauses see of it.

ghost use Rattle.std.specs.Prelude.{◌≡◌, ◌++◌, map, OnOk};

use mt_rows::TenantPair;
use std::alloc::AllocError;
use std::snapshot::Snapshot;

/// What is kept of a pair.
pub(crate) trait KeptPair: Drop {
    ghost use Rattle.mt_rows.specs.declared.record.TenantPair.{TenantPair};

    ghost as_pair: { Self → TenantPair };

    fn of(pair: TenantPair) -> Self
        ensures { as_pair result ≡ pair };
}

impl KeptPair for TenantPair {
    ghost as_pair = { λ p. p };

    fn of(pair: TenantPair) -> TenantPair {
        pair
    }
}

impl KeptPair for Snapshot<TenantPair> {
    ghost as_pair = { λ p. p.value };

    fn of(pair: TenantPair) -> Snapshot<TenantPair> {
        Snapshot::of(&pair)
    }
}

/// Keeps pairs after those before.
pub(crate) fn keep<T: KeptPair>(kept: &mut Vec<T>, pairs: Vec<TenantPair>) -> Result<(), AllocError>
    ensures { OnOk result (map T.as_pair kept.new.items ≡ map T.as_pair kept.old.items ++ pairs.items) }
{
    for pair in pairs {
        kept.push(T::of(pair))?;
    }
    Ok(())
}
