//! A caller that keeps a plain map for each of its tenants: slow, and obviously right.

ghost use Rattle.std.specs.Prelude.{◌≡◌, None};
ghost use Rattle.mt_session.specs.Plain.{plain_tenants, place_of, TenantCalls, next_number};

use mt_caller::{Caller, CallerFault};
use mt_rows::{Command, PlainMap, Refusal, Reply};
use std::alloc::Global;
use std::marker::Model;

/// A tenant's pairs, and how many it may have.
#[derive(Drop)]
pub struct PlainTenant {
    pub tenant: u32,
    pub quota: u32,
    pub map: PlainMap,
}

/// A list of tenants, of which one may be opened. Commands are numbered from 1 on.
#[derive(Drop)]
pub struct PlainCaller {
    tenants: Vec<PlainTenant>,
    opened: Option<usize>,
    last: u64,
}

impl Model for PlainCaller {
    ghost use Rattle.mt_session.specs.Plain.{PlainTenants, IsInList, plain_tenants};
    ghost use Rattle.std.specs.Coded.{codes};
    ghost use Rattle.mt_rows.specs.contracts.plain.PlainMap as maps;

    ghost Value = { PlainTenants };

    ghost coded = { Prim.hlevel (codes, maps.the_row.coded) };

    ghost view = { λ c. plain_tenants c.tenants.items c.opened c.last };

    ghost invariant = { λ c. IsInList c.tenants.items c.opened };
}

impl PlainCaller {
    /// A caller with these tenants, of which none is opened.
    pub fn new(tenants: Vec<PlainTenant>) -> Self
        ensures { result ≡ plain_tenants tenants.items None 0 }
    {
        PlainCaller {
            tenants,
            opened: None,
            last: 0,
        }
    }
}

impl Caller for PlainCaller {
    ghost use Rattle.mt_session.specs.Plain.{PlainExchanges};

    ghost exchanges = { PlainExchanges };

    fn open(&mut self, tenant: u32) -> Result<(), Refusal> {
        match find_tenant(&self.tenants, tenant) {
            Some(place) => {
                self.opened = Some(place);
                Ok(())
            }
            None => Err(Refusal::NoTenant(tenant)),
        }
    }

    fn call(&mut self, alloc: Global, command: Command) -> Result<Reply, CallerFault> {
        match self.opened {
            Some(place) => {
                self.last = self.last.saturating_add(1);
                call_tenant(alloc, &mut self.tenants[place], self.last, command)
            }
            None => Err(CallerFault::Refused(Refusal::NotOpen)),
        }
    }

    fn settle(&mut self) -> Result<u64, Refusal> {
        Err(Refusal::NoStore)
    }
}

// The place of a tenant in the list.
fn find_tenant(tenants: &[PlainTenant], tenant: u32) -> Option<usize>
    ensures { result ≡ place_of tenants.now tenant }
{
    tenants.iter().position(|t| t.tenant == tenant)
}

// The reply to the command of a number, of this tenant.
fn call_tenant(
    alloc: Global,
    tenant: &mut PlainTenant,
    number: u64,
    command: Command,
) -> Result<Reply, CallerFault>
    ensures { TenantCalls tenant.old number command result tenant.new }
{
    if let Err(refusal) = command.check() {
        return Err(CallerFault::Refused(refusal));
    }
    match tenant.map.apply(alloc, tenant.quota, number, command) {
        Ok(reply) => Ok(reply),
        Err(_) => Ok(Reply::NoMemory),
    }
}
