//! What sessions ask besides their commands.

ghost use Rattle.std.specs.Prelude.{◌≢◌, IfOk};
ghost use Rattle.mt_resp_commands.specs.Knowing.{Known, Keeps, Finds, Reports};

use mt_resp::{Status, Told};
use mt_rows::Key;
use std::alloc::{AllocError, Global};

/// What sessions ask besides their commands: cursors of scans, and what the server reports. Each call fails only if a growth is refused.
pub trait Knows {
    /// What it knows.
    ghost knows: { Self → Known → Type 0 };

    /// A cursor that stands for a key of a tenant, from after which a scan goes on. It isn't 0.
    fn keep(&self, alloc: Global, tenant: u32, key: &Key) -> Result<u64, AllocError>
        ensures kept { IfOk result (λ cursor. knows self.now (Keeps tenant key.now cursor)) }
        ensures some { IfOk result (λ cursor. cursor ≢ 0) };

    /// The key for which a cursor of a tenant stands, if it is still kept.
    fn find(&self, alloc: Global, tenant: u32, cursor: u64) -> Result<Option<Key>, AllocError>
        ensures { IfOk result (λ key. knows self.now (Finds tenant cursor key)) };

    /// What the server reports to a session of a tenant.
    fn report(&self, alloc: Global, tenant: u32, status: Status) -> Result<Told, AllocError>
        ensures { IfOk result (λ one. knows self.now (Reports tenant status one)) };
}
