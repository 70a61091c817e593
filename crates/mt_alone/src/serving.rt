//! A session over a state of its own.

ghost use Rattle.std.specs.Prelude.{◌≡◌, IfOk, OnErr};
ghost use Rattle.mt_rows.specs.Accounts.{account_of};
ghost use Rattle.mt_streams.specs.Failures.{Failed};
ghost use Rattle.mt_session.specs.Endings.{Serves};
ghost use Rattle.mt_state.specs.{Views.granted_in, Begins.HaveNoPairs};
ghost use Rattle.mt_alone.specs.{TenantMaps.{fresh_maps, MapsExchange}, Callers.{maps_of}};

use crate::alone::Alone;
use mt_rows::Tenants;
use mt_session::{Ended, ServeFault, serve};
use mt_streams::{Sink, Source};
use std::alloc::{AllocError, Global};

/// A session over a new state of these tenants, which is given back with how it ended. What was written is
/// the text that sorted maps answer, all of them empty at first. An error comes where memory for the
/// state is refused; nothing was read or written then.
pub fn serve_tenants<R: Source, W: Sink>(
    alloc: Global,
    reader: &mut R,
    writer: &mut W,
    tenants: Tenants,
) -> Result<(Alone, Result<Ended, ServeFault>), AllocError>
    requires empty { HaveNoPairs tenants }
    ensures serves { IfOk result (λ r. Serves MapsExchange (R.remaining reader.old) (R.remaining reader.new) (W.contents writer.old) (W.contents writer.new)
        (Failed (R.failures reader.old) (R.failures reader.new)) (Failed (W.failures writer.old) (W.failures writer.new)) (fresh_maps (λ t. granted_in (account_of tenants t))) (maps_of r.0) r.1) }
    ensures unchanged_on_err { OnErr result ((reader.new ≡ reader.old) × (writer.new ≡ writer.old)) }
{
    let mut alone = Alone::of_tenants(alloc, tenants)?;
    let ended = serve_alone(alloc, reader, writer, &mut alone);
    Ok((alone, ended))
}

/// One session more over a state: it is one over the tenants' maps, as those before it left them.
pub fn serve_alone<R: Source, W: Sink>(
    alloc: Global,
    reader: &mut R,
    writer: &mut W,
    alone: &mut Alone,
) -> Result<Ended, ServeFault>
    ensures { Serves MapsExchange (R.remaining reader.old) (R.remaining reader.new) (W.contents writer.old) (W.contents writer.new)
        (Failed (R.failures reader.old) (R.failures reader.new)) (Failed (W.failures writer.old) (W.failures writer.new)) (maps_of alone.old) (maps_of alone.new) result }
{
    serve(alloc, reader, writer, alone)
}
