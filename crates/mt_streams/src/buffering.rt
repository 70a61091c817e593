//! A text written by way of a buffer, which keeps it back till the buffer is full or flushed.
//!
//! No call takes memory: a text longer than the buffer is written at once. Units: bytes.

ghost use Rattle.std.specs.{Prelude.{◌≡◌, ◌≤◌, ◌+◌, [], length, OnOk, OnErr}, Io.KnownBytes.Appends};
ghost use Rattle.mt_streams.specs.{Failures.{Failed, NoFewer}, Buffering.{Puts, WritesFront}};

use crate::streams::Sink;
use crate::writing::write_whole;
use bytes::BytesMut;
use std::io;

/// What a buffer keeps at most, in bytes, however much room it has.
pub const BUFFER_BYTES: usize = 65_536;

/// Puts a text after what the buffer keeps. If there is no room for it, that is written first, and a
/// text longer than the buffer is written after it. After an error the buffer may keep what was written.
pub fn write_buffered<W: Sink>(buffer: &mut BytesMut, writer: &mut W, text: &[u8]) -> io::Result<()>
    ensures { Puts (W.contents writer.old) (W.contents writer.new) (W.failures writer.old) (W.failures writer.new) buffer.old.items buffer.new.items text.now result }
{
    if buffer.len() + text.len() <= room(buffer) {
        buffer.extend_reserved(text);
        return Ok(());
    }
    flush(buffer, writer)?;
    if text.len() <= room(buffer) {
        buffer.extend_reserved(text);
        return Ok(());
    }
    write_whole(writer, text)
}

// How many bytes the buffer may keep.
fn room(buffer: &BytesMut) -> usize
    ensures within { result ≤ length buffer.now.items + buffer.now.spare }
    ensures most { result ≤ 65536 }
{
    buffer.capacity().min(BUFFER_BYTES)
}

/// Writes all that the buffer keeps, and empties it. After an error the buffer keeps what it kept.
pub fn flush<W: Sink>(buffer: &mut BytesMut, writer: &mut W) -> io::Result<()>
    ensures ok { OnOk result (Appends (W.contents writer.old) (W.contents writer.new) buffer.old.items) }
    ensures emptied { OnOk result (buffer.new.items ≡ []) }
    ensures err { OnErr result (WritesFront (W.contents writer.old) (W.contents writer.new) buffer.old.items) }
    ensures failures { NoFewer (W.failures writer.old) (W.failures writer.new) }
    ensures cause { OnErr result (Failed (W.failures writer.old) (W.failures writer.new)) }
{
    write_whole(writer, buffer.as_slice())?;
    buffer.clear();
    Ok(())
}
