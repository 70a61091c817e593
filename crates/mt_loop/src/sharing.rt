//! A caller that several sessions share, in turns.

ghost use Rattle.std.specs.Prelude.{◌≡◌, ℕ, Option};
ghost use Rattle.mt_rows.specs.Rows.{Bytes};
ghost use Rattle.mt_loop.specs.{Connections.IsSession, Deeds.{Resumed, SharedExchanges}, declared.connection.Connection.Connection};

use mt_caller::{Caller, CallerFault};
use mt_rows::{Command, Refusal, Reply};
use std::alloc::Global;

/// A caller that several sessions share. Before a session has its turn it resumes: the tenant that it has
/// opened is opened again.
pub trait Sharing: Caller {
    /// The tenant of the session that has its turn, if it has opened one.
    ghost opened: { Self → Option ℕ };

    /// What the caller may become if another session resumes.
    ghost resumes: { Self → Self → Type 0 };

    /// The tenant of the session that has its turn.
    fn opened(&self) -> Option<u32>
        ensures { result ≡ opened self.now };

    /// The session that has opened this tenant, or none, has its turn from here on.
    fn resume(&mut self, tenant: Option<u32>)
        ensures resumes { resumes self.old self.new }
        ensures opened { opened self.new ≡ tenant };
}

/// A shared caller as each of its sessions sees it: after an exchange others may have their turns.
#[derive(Drop)]
pub struct Shared<C: Sharing + Drop> {
    pub caller: C,
}

impl<C: Sharing + Drop> Caller for Shared<C> {
    ghost use Rattle.mt_loop.specs.Deeds.{SharedExchanges};

    ghost exchanges = { SharedExchanges C.exchanges C.resumes C.opened };

    fn open(&mut self, tenant: u32) -> Result<(), Refusal> {
        self.caller.open(tenant)
    }

    fn call(&mut self, alloc: Global, command: Command) -> Result<Reply, CallerFault> {
        self.caller.call(alloc, command)
    }

    fn settle(&mut self) -> Result<u64, Refusal> {
        let tenant = self.caller.opened();
        let told = self.caller.settle();
        self.caller.resume(tenant);
        told
    }
}

/// A session that shares its caller is still one when others have had their turns. As long as it has asked
/// nothing, it begins after them.
pub fn sessions_share_a_caller<C: Sharing + Drop>()
    ensures { (before left held holds : Option Bytes) (start last now : Shared C) (c : Connection)
        → IsSession (SharedExchanges C.exchanges C.resumes C.opened) before left held holds start c last → Resumed C.exchanges C.resumes C.opened last.caller now.caller
        → (begin : Shared C) × Resumed C.exchanges C.resumes C.opened start.caller begin.caller
        × IsSession (SharedExchanges C.exchanges C.resumes C.opened) before left held holds begin c now }
{}
