//! What a script has done so far: the store with the names of its operations, and, before the first
//! begin, the tenants that are gathered for it.

ghost use Rattle.std.specs.Prelude.{◌≡◌, IfOk, OnOk, None};
ghost use Rattle.mt_lines.specs.Sessions.{fresh, store_at_begin, TellsTenant, TellsBeginLine, TellsLine};

use crate::line::Line;
use crate::response::Response;
use crate::store::NamedStore;
use mt_rows::{Command, Tenants};
use std::alloc::{AllocError, Global};
use std::marker::Model;

/// The store of a script, and up to the first begin the tenants that this will make a store of.
#[derive(Drop)]
pub struct Session {
    store: NamedStore,
    gathered: Option<Tenants>,
}

impl Model for Session {
    ghost use Rattle.std.specs.Prelude.{IfSome};
    ghost use Rattle.mt_state.specs.Begins.{HaveNoPairs};
    ghost use Rattle.mt_lines.specs.Sessions.{SessionView};

    ghost Value = { SessionView };

    ghost view = { λ s. record { store = s.store; gathered = s.gathered } };

    ghost invariant = { λ s. IfSome s.gathered HaveNoPairs };
}

impl Session {
    /// A session without tenants, pairs and operations.
    pub fn new(alloc: Global) -> Result<Session, AllocError>
        ensures { IfOk result (λ session. session ≡ fresh) }
    {
        Ok(Session {
            store: NamedStore::new(alloc, Tenants::new(alloc))?,
            gathered: Some(Tenants::new(alloc)),
        })
    }

    /// Does what a line asks for.
    pub fn answer(&mut self, alloc: Global, line: Line) -> Result<Response, AllocError>
        ensures told { IfOk result (TellsLine self.old self.new line) }
    {
        match line {
            Line::Tenant { tenant, quota } => Ok(self.tenant(tenant, quota)),
            Line::Begin {
                name,
                tenant,
                command,
                stamps,
            } => self.begin(alloc, name, tenant, command, stamps),
            Line::Step(name) => Ok(self.store.step(name)),
            Line::Until { name, phase } => Ok(self.store.until(name, phase)),
            Line::Run(name) => Ok(self.store.run(name)),
            Line::Shape => Ok(Response::Shape(self.store.shape(alloc)?)),
        }
    }

    // Tenants are gathered up to the first begin.
    fn tenant(&mut self, tenant: u32, quota: u32) -> Response
        ensures { TellsTenant self.old self.new tenant quota result }
    {
        let Some(tenants) = &mut self.gathered else {
            return Response::BadLine;
        };
        match tenants.add(tenant, quota) {
            Ok(()) => Response::Taken,
            Err(refusal) => Response::Refused(refusal),
        }
    }

    // A name in use can't be begun. The first begin that may stand finds a new store of the tenants.
    fn begin(
        &mut self,
        alloc: Global,
        name: u32,
        tenant: u32,
        command: Command,
        stamps: bool,
    ) -> Result<Response, AllocError>
        ensures { IfOk result (TellsBeginLine self.old self.new name tenant command stamps) }
    {
        if !self.store.is_free(name) {
            return Ok(Response::BadLine);
        }
        self.make_store(alloc)?;
        self.store.begin(name, tenant, command, stamps)
    }

    // Makes the store of the tenants that are gathered; from then on none are.
    fn make_store(&mut self, alloc: Global) -> Result<(), AllocError>
        ensures { OnOk result (self.new ≡ record { store = store_at_begin self.old.store self.old.gathered; gathered = None }) }
    {
        if let Some(tenants) = self.gathered.take() {
            self.store = NamedStore::new(alloc, tenants)?;
        }
        Ok(())
    }
}
