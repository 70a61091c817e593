//! A text written whole, by as many writes as it takes.

ghost use Rattle.std.specs.{Prelude.{◌≡◌, ◌++◌, List, ℕ, OnOk, OnErr}, Io.KnownBytes.Appends};
ghost use Rattle.mt_streams.specs.Failures.{Failed, NoFewer};

use crate::streams::Sink;
use std::io::{self, ErrorKind};

/// Writes a text whole; an error leaves a front of it written. An empty text takes no write, and a write that
/// was interrupted is made again. (`write_all` says nothing of what an error leaves.)
pub fn write_whole<W: Sink>(writer: &mut W, text: &[u8]) -> io::Result<()>
    ensures ok { OnOk result (Appends (W.contents writer.old) (W.contents writer.new) text.now) }
    ensures err { OnErr result ((front : List ℕ) × (lost : List ℕ) × (text.now ≡ front ++ lost) × Appends (W.contents writer.old) (W.contents writer.new) front) }
    ensures failures { NoFewer (W.failures writer.old) (W.failures writer.new) }
    ensures cause { OnErr result (Failed (W.failures writer.old) (W.failures writer.new)) }
{
    let mut rest = text;
    for _ in 0..u64::MAX {
        if rest.is_empty() {
            return Ok(());
        }
        match writer.send(rest) {
            Ok(count) => rest = &rest[count..],
            Err(error) => {
                if error.kind() != ErrorKind::Interrupted {
                    return Err(error);
                }
            }
        }
    }
    if rest.is_empty() {
        return Ok(());
    }
    Err(io::Error::from(ErrorKind::Interrupted))
}
