//! Tenants and their quotas, from words `T:Q`.

ghost use Rattle.std.specs.Prelude.{◌≡◌, ◌↔◌, IsTrue, IfOk, IfErr, OnErr, map};
ghost use Rattle.mt_options.specs.Tenants.{IsListed, NamesTenant, IsMalformed, AddsTenant, IsFirstFault, IsFault, AreTenants};

use crate::words::{number, parts};
use mt_rows::Refusal;
use mt_rows::tenants::MAX_QUOTA;
use std::alloc::Global;

/// A tenant's number, and how many pairs it may have.
#[derive(Clone, Copy, Debug, PartialEq, Eq)]
pub struct TenantQuota {
    pub tenant: u32,
    pub quota: u32,
}

/// Why a word isn't `T:Q`, two decimal numbers below 2^32 with a colon between them.
#[derive(Clone, Copy, Debug, PartialEq, Eq)]
pub enum WordFault {
    /// It has no colon.
    NoColon,
    /// What stands before its first colon is no such number.
    Tenant,
    /// What stands after that colon is none, and what stands before it is one.
    Quota,
}

/// Why words are refused, with the number of the first that has a fault, counted from 0.
#[derive(Clone, Copy, Debug, PartialEq, Eq)]
pub enum TenantsFault {
    /// It isn't `T:Q`.
    Malformed(usize, WordFault),
    /// `TenantThere`: its tenant was named before it. `Quota`: its quota is out of bounds. `Memory`: a
    /// growth was refused.
    Refused(usize, Refusal),
}

/// Whether the tenant is one of these.
pub fn is_listed(tenants: &[TenantQuota], tenant: u32) -> bool
    ensures { IsTrue result ↔ IsListed tenants.now tenant }
{
    tenants.iter().any(|listed| listed.tenant == tenant)
}

// The tenant and the quota of a word, or why it has none.
#[tactic(auto, unfolding(crate::specs::Tenants::tenant_quota_of))]
fn read_tenant(word: &[u8]) -> Result<TenantQuota, WordFault>
    ensures ok { IfOk result (NamesTenant word.now) }
    ensures err { IfErr result (IsMalformed word.now) }
{
    let Some((tenant, quota)) = parts(word) else {
        return Err(WordFault::NoColon);
    };
    let Some(tenant) = number(tenant) else {
        return Err(WordFault::Tenant);
    };
    let Some(quota) = number(quota) else {
        return Err(WordFault::Quota);
    };
    Ok(TenantQuota { tenant, quota })
}

// Adds the tenant of the word of this number.
fn add_tenant(tenants: &mut Vec<TenantQuota>, at: usize, word: &[u8]) -> Result<(), TenantsFault>
    ensures ok { IfOk result (λ u. AddsTenant tenants.old.items tenants.new.items word.now) }
    ensures err { IfErr result (IsFault tenants.old.items at word.now) }
    ensures unchanged_on_err { OnErr result (tenants.new.items ≡ tenants.old.items) }
{
    let named = match read_tenant(word) {
        Ok(named) => named,
        Err(fault) => return Err(TenantsFault::Malformed(at, fault)),
    };
    if is_listed(tenants, named.tenant) {
        return Err(TenantsFault::Refused(at, Refusal::TenantThere));
    }
    if named.quota == 0 || named.quota > MAX_QUOTA {
        return Err(TenantsFault::Refused(at, Refusal::Quota));
    }
    match tenants.push(named) {
        Ok(()) => Ok(()),
        Err(_) => Err(TenantsFault::Refused(at, Refusal::Memory)),
    }
}

/// The tenants of these words, from the left, or the first fault. A tenant that was named before is
/// refused before its quota is judged.
pub fn read_tenants(alloc: Global, words: &[&str]) -> Result<Vec<TenantQuota>, TenantsFault>
    ensures ok { IfOk result (λ tenants. AreTenants (map (λ w. w.now) words.now) tenants.items) }
    ensures err { IfErr result (IsFirstFault (map (λ w. w.now) words.now)) }
{
    let mut tenants = Vec::new(alloc);
    for at in 0..words.len() {
        match add_tenant(&mut tenants, at, words[at].as_bytes()) {
            Ok(()) => {}
            Err(fault) => return Err(fault),
        }
    }
    Ok(tenants)
}
