//! Sockets: how a server listens, and how a connection's socket is set up and left.

ghost use Rattle.std.specs.Prelude.{IfErr};
ghost use Rattle.mt_service.specs.Faults.{IsOfPort};

use crate::faults::ServerFault;
use mt_options::Options;
use std::io::{self, Read};
use std::net::{Net, Shutdown, SocketAddr, TcpListener, TcpStream};
use std::time::{Clock, Duration, Instant};

/// A client that takes nothing of its replies for so many seconds is given up.
const WRITE_SECONDS: u64 = 30;

/// After a bad frame the connection is read on for so many seconds at most, so that the reply arrives.
const LINGER_SECONDS: u64 = 1;

/// And for so many bytes at most.
const LINGER_BYTES: usize = 65_536;

/// A listener at the port of 127.0.0.1 that the options name, or `Listen`.
pub(crate) fn listen<R: Net<Listener = TcpListener, Stream = TcpStream>>(
    rt: &R,
    options: &Options,
) -> Result<TcpListener, ServerFault>
    ensures { IfErr result (IsOfPort options.now.port) }
{
    let port = options.port;
    match bind(rt, options) {
        Ok(listener) => Ok(listener),
        Err(error) => Err(ServerFault::Listen { port, error }),
    }
}

// With one connection at a time, the system keeps up to 128 that wait to be accepted, else as many as it ever does.
fn bind<R: Net<Listener = TcpListener, Stream = TcpStream>>(
    rt: &R,
    options: &Options,
) -> io::Result<TcpListener> {
    if options.connections == 1 {
        return TcpListener::bind(rt, ("127.0.0.1", options.port));
    }
    let address = SocketAddr::from(([127, 0, 0, 1], options.port));
    let listener = TcpListener::from(mio::net::TcpListener::bind(rt, address)?);
    listener.set_nonblocking(false)?;
    Ok(listener)
}

/// Replies are sent at once, and a client that takes none is given up. Where the system refuses
/// either, the session is right all the same, and slower or longer.
pub(crate) fn set_up(stream: &TcpStream) {
    let _ = stream.set_nodelay(true);
    let _ = stream.set_write_timeout(Some(Duration::from_secs(WRITE_SECONDS)));
}

/// Ends the writing half and reads what the client still sends, within bounds. A socket that is closed
/// with bytes unread is reset, and a reset may overtake the reply.
pub(crate) fn linger<R: Clock>(rt: &R, stream: &TcpStream) -> io::Result<()> {
    stream.shutdown(Shutdown::Write)?;
    let began = Instant::now(rt)?;
    let mut reader = stream;
    let mut room = [0u8; 4096];
    let mut read = 0usize;
    for _ in 0..LINGER_BYTES {
        let left = Duration::from_secs(LINGER_SECONDS).saturating_sub(began.elapsed(rt)?);
        stream.set_read_timeout(Some(left))?;
        let count = reader.read(&mut room)?;
        read = read.saturating_add(count);
        if count == 0 || read >= LINGER_BYTES {
            break;
        }
    }
    Ok(())
}
