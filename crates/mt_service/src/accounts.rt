//! The accounts of the tenants that are served.

ghost use Rattle.std.specs.Prelude.{◌≡◌, IfOk, IfErr, length, map};
ghost use Rattle.mt_state.specs.Begins.{HaveNoPairs};
ghost use Rattle.mt_service.specs.{Accounts.{AreAccountsOf, AreRising}, Faults.IsOfTenants};

use crate::faults::ServerFault;
use mt_options::TenantQuota;
use mt_rows::Tenants;
use std::alloc::{AllocError, Global};

/// The accounts of these tenants, without pairs; or the refusal of the first that can't be added.
pub(crate) fn accounts_of(alloc: Global, tenants: &[TenantQuota]) -> Result<Tenants, ServerFault>
    ensures accounts { IfOk result (AreAccountsOf (length tenants.now) tenants.now) }
    ensures empty { IfOk result HaveNoPairs }
    ensures fault { IfErr result (IsOfTenants tenants.now) }
{
    let mut accounts = Tenants::new(alloc);
    for one in tenants {
        match accounts.add(one.tenant, one.quota) {
            Ok(()) => {}
            Err(refusal) => return Err(ServerFault::from(refusal)),
        }
    }
    Ok(accounts)
}

/// The numbers of these tenants, which rise.
pub(crate) fn rising_tenants(alloc: Global, tenants: &[TenantQuota]) -> Result<Vec<u32>, AllocError>
    ensures { IfOk result (λ numbers. AreRising tenants.now numbers.items) }
{
    let mut numbers = numbers_of(alloc, tenants)?;
    numbers.sort_unstable();
    numbers.dedup();
    Ok(numbers)
}

// The numbers of these tenants.
fn numbers_of(alloc: Global, tenants: &[TenantQuota]) -> Result<Vec<u32>, AllocError>
    ensures { IfOk result (λ numbers. numbers.items ≡ map (λ one. one.tenant) tenants.now) }
{
    let mut numbers = Vec::new(alloc);
    for one in tenants {
        numbers.push(one.tenant)?;
    }
    Ok(numbers)
}
