//! Clients: frames worked out by hand, and how they are sent.

use super::*;
use std::io::{Read, Write};
use std::time::Duration;

/// A request and its reply, of at most 17 bytes. For each `?` of a reply any byte may come.
#[derive(Clone, Copy)]
pub struct Told(&'static [u8], &'static [u8]);

const OPENED: &[u8] = b"\x00\x00\x00\x01\x00";

/// Tenant 7 is opened.
pub const OPEN: Told = Told(b"\x00\x00\x00\x05\x01\x00\x00\x00\x07", OPENED);

/// Tenant 8 is opened.
pub const OPEN_8: Told = Told(b"\x00\x00\x00\x05\x01\x00\x00\x00\x08", OPENED);

/// Tenant 7 is opened, and the client doesn't read to the end of the reply.
pub const OPEN_UNREAD: Told = Told(b"\x00\x00\x00\x05\x01\x00\x00\x00\x07", b"\x00");

const SPENT: &[u8] = b"\x00\x00\x00\x01\x89";

const NEW: &[u8] = b"\x00\x00\x00\x01\x03";

const PUT_K: &[u8] = b"\x00\x00\x00\x09\x03\x00\x01k\x01\x00\x00\x01v";

/// `v` is put under `k`, where nothing was.
pub const PUT: Told = Told(PUT_K, NEW);

/// Seven bytes of that are sent.
pub const PUT_CUT: Told = Told(b"\x00\x00\x00\x09\x03\x00\x01", b"");

/// All numbers of steps are given.
pub const PUT_SPENT: Told = Told(PUT_K, SPENT);

/// `v` is put under `l`, where nothing was.
pub const PUT_L: Told = Told(b"\x00\x00\x00\x09\x03\x00\x01l\x01\x00\x00\x01v", NEW);

/// The quota has no room for it.
pub const PUT_L_FULL: Told = Told(
    b"\x00\x00\x00\x09\x03\x00\x01l\x01\x00\x00\x01v",
    b"\x00\x00\x00\x01\x08",
);

const REPLACED: &[u8] = b"\x00\x00\x00\x01\x04";

/// Column 1 of `k` is put, where `v` stands.
pub const PUT_OTHER: Told = Told(b"\x00\x00\x00\x09\x03\x00\x01k\x01\x01\x00\x01w", REPLACED);

const PUT_IF_5: &[u8] =
    b"\x00\x00\x00\x11\x08\x00\x01k\x00\x00\x00\x00\x00\x00\x00\x05\x01\x00\x00\x01v";

/// `v` is put under `k` if the row there has the stamp 5, as it has.
pub const PUT_AT_5: Told = Told(PUT_IF_5, REPLACED);

/// It has the stamp 10.
pub const PUT_AT_10: Told = Told(
    PUT_IF_5,
    b"\x00\x00\x00\x09\x0b\x00\x00\x00\x00\x00\x00\x00\x0a",
);

const GET_K: &[u8] = b"\x00\x00\x00\x05\x02\x00\x01k\x00";

const FOUND: &[u8] = b"\x00\x00\x00\x05\x02\x01\x00\x01v";

/// `k` is asked for, and `v` stands there.
pub const GET: Told = Told(GET_K, FOUND);

/// Both columns stand there.
pub const GET_BOTH: Told = Told(GET_K, b"\x00\x00\x00\x08\x02\x02\x00\x01v\x00\x01w");

pub const GET_NONE: Told = Told(GET_K, ABSENT);

pub const GET_SPENT: Told = Told(GET_K, SPENT);

/// `l` is asked for, and `v` stands there.
pub const GET_L: Told = Told(b"\x00\x00\x00\x05\x02\x00\x01l\x00", FOUND);

/// `k` is asked for with its stamp, which is 10, and `v` stands there.
pub const GET_AT_10: Told = Told(
    b"\x00\x00\x00\x05\x07\x00\x01k\x00",
    b"\x00\x00\x00\x0d\x0a\x00\x00\x00\x00\x00\x00\x00\x0a\x01\x00\x01v",
);

const ABSENT: &[u8] = b"\x00\x00\x00\x01\x01";

const REMOVE_K: &[u8] = b"\x00\x00\x00\x04\x04\x00\x01k";

/// `k` is removed.
pub const REMOVE: Told = Told(REMOVE_K, b"\x00\x00\x00\x01\x05");

pub const REMOVE_NONE: Told = Told(REMOVE_K, ABSENT);

const SCAN_2: &[u8] = b"\x00\x00\x00\x06\x05\x00\x00\x00\x02\x00";

/// Two pairs from the first key on are asked for, and there is one.
pub const SCAN: Told = Told(SCAN_2, b"\x00\x00\x00\x09\x06\x01\x00\x01k\x01\x00\x01v");

pub const SCAN_NONE: Told = Told(SCAN_2, b"\x00\x00\x00\x02\x06\x00");

const SETTLES: &[u8] = b"\x00\x00\x00\x01\x06";

/// All is kept, up to some step.
pub const SETTLE: Told = Told(SETTLES, b"\x00\x00\x00\x09\x07????????");

/// All is kept up to step 6.
pub const SETTLE_6: Told = Told(
    SETTLES,
    b"\x00\x00\x00\x09\x07\x00\x00\x00\x00\x00\x00\x00\x06",
);

/// All is kept up to the last step that there is.
pub const SETTLE_LAST: Told = Told(
    SETTLES,
    b"\x00\x00\x00\x09\x07\x08\x00\x00\x00\x00\x00\x00\x00",
);

/// A disk has failed.
pub const SETTLE_FAILS: Told = Told(SETTLES, b"\x00\x00\x00\x01\x8a");

/// A frame without a body, and behind it more than a session reads at a time. The server ends the connection.
pub const BAD_FRAME: Told = Told(&[0; 90_000], REFUSED);

const REFUSED: &[u8] = b"\x00\x00\x00\x01\x90";

// The last fifth of a key of 32,765 bytes. Its remove is refused.
const LONG_KEY_ENDS: Told = Told(&[b'k'; 6_553], b"\x00\x00\x00\x01\x81");

/// Nothing is sent, and nothing comes for half a second.
pub const WAIT: Told = Told(b"", b"");

/// A connection to a server, which is given up where it is silent for a minute.
pub fn connect(rt: &impl Net<Stream = TcpStream>, port: u16) -> io::Result<TcpStream> {
    let stream = TcpStream::connect(rt, ("127.0.0.1", port))?;
    stream.set_read_timeout(Some(Duration::from_secs(60)))?;
    Ok(stream)
}

/// A listener, its port, and two clients that are connected to it.
pub fn connected<R: Net<Listener = TcpListener, Stream = TcpStream>>(
    rt: &R,
) -> io::Result<(TcpListener, u16, TcpStream, TcpStream)> {
    let listener = TcpListener::bind(rt, ("127.0.0.1", 0u16))?;
    let port = listener.local_addr()?.port();
    let first = connect(rt, port)?;
    let second = connect(rt, port)?;
    Ok((listener, port, first, second))
}

/// Whether the requests are answered with these replies, one after the other.
pub fn are_told(stream: &TcpStream, told: &[Told]) -> io::Result<bool> {
    for pair in told {
        if !is_told(stream, *pair)? {
            return Ok(false);
        }
    }
    Ok(true)
}

/// Whether the request is answered with this reply, and after a bad frame the server has ended the connection.
pub fn is_told(stream: &TcpStream, told: Told) -> io::Result<bool> {
    let Told(request, reply) = told;
    if request.is_empty() {
        return is_silent(stream);
    }
    let mut client = stream;
    client.write_all(request)?;
    let mut room = [0u8; 17];
    let wanted = reply.len().min(17);
    client.read_exact(&mut room[..wanted])?;
    let mut is_right = wanted == reply.len();
    for (came, wanted) in room.iter().zip(reply) {
        is_right = is_right && (came == wanted || *wanted == b'?');
    }
    if reply == REFUSED {
        return Ok(client.read(&mut room)? == 0 && is_right);
    }
    Ok(is_right)
}

/// Whether the longest frame, which comes in pieces, is told that its key is too long.
pub fn is_longest_told(stream: &TcpStream) -> io::Result<bool> {
    let mut client = stream;
    client.write_all(b"\x00\x00\x80\x00\x04\x7f\xfd")?;
    let Told(piece, _) = LONG_KEY_ENDS;
    for _ in 0..4u8 {
        client.write_all(piece)?;
    }
    is_told(stream, LONG_KEY_ENDS)
}

// Whether nothing comes for half a second.
fn is_silent(stream: &TcpStream) -> io::Result<bool> {
    stream.set_read_timeout(Some(Duration::from_millis(500)))?;
    let mut client = stream;
    let mut room = [0u8; 1];
    let told = client.read(&mut room);
    stream.set_read_timeout(None)?;
    Ok(told.is_err())
}
