//! Replies written by way of a buffer.
//!
//! A frame goes into the buffer in parts, of at most a column each. So no reply takes memory, however
//! long it is: what the buffer has no room for is written.

ghost use Rattle.std.specs.{Prelude.{◌≡◌, ◌≤◌, ◌<◌, ◌*◌, ◌^◌, ◌++◌, ◌∷◌, [], length}, List.flat_map, Int.{w32, w64, to_be_bytes}};
ghost use Rattle.mt_rows.specs.{Rows.IsRow, Limits.ArePairs};
ghost use Rattle.mt_fields.specs.Fields.{string};
ghost use Rattle.mt_row_fields.specs.Format.{row_bytes};
ghost use Rattle.mt_streams.specs.Buffering.{Puts};
ghost use Rattle.mt_wire.specs.Replies.{shown_pair, shown_stamped, reply_spelling};

use crate::message::{Shown, WireReply};
use bytes::BytesMut;
use mt_row_fields::row_len;
use mt_rows::{Column, Key, Row, StampedRow};
use mt_streams::{Sink, write_buffered};
use std::io;

/// Puts a reply's frame into the buffer, and writes what it has no room for.
pub fn write_reply<W: Sink>(
    reply: &WireReply,
    buffer: &mut BytesMut,
    writer: &mut W,
) -> io::Result<()>
    ensures { Puts (W.contents writer.old) (W.contents writer.new) (W.failures writer.old) (W.failures writer.new) buffer.old.items buffer.new.items (reply_spelling reply.now) result }
{
    match reply {
        WireReply::Opened => write_code(0, buffer, writer),
        WireReply::Told(reply) => write_told(reply, buffer, writer),
        WireReply::Settled(number) => write_number(7, *number, buffer, writer),
        WireReply::Refused(number) => write_code(128 + number.get(), buffer, writer),
    }
}

fn write_told<W: Sink>(reply: &Shown, buffer: &mut BytesMut, writer: &mut W) -> io::Result<()>
    ensures { Puts (W.contents writer.old) (W.contents writer.new) (W.failures writer.old) (W.failures writer.new) buffer.old.items buffer.new.items (reply_spelling (WireReply.Told reply.now)) result }
{
    match reply {
        Shown::Absent => write_code(1, buffer, writer),
        Shown::Found(row) => write_found(row, buffer, writer),
        Shown::FoundStamped(row) => write_found_stamped(row, buffer, writer),
        Shown::New => write_code(3, buffer, writer),
        Shown::Replaced => write_code(4, buffer, writer),
        Shown::Removed => write_code(5, buffer, writer),
        Shown::Pairs(pairs) => write_pairs(pairs.as_slice(), buffer, writer),
        Shown::Full => write_code(8, buffer, writer),
        Shown::NoMemory => write_code(9, buffer, writer),
        Shown::Stale(stamp) => write_number(11, *stamp, buffer, writer),
    }
}

// A frame of one byte.
fn write_code<W: Sink>(code: u8, buffer: &mut BytesMut, writer: &mut W) -> io::Result<()>
    ensures { Puts (W.contents writer.old) (W.contents writer.new) (W.failures writer.old) (W.failures writer.new) buffer.old.items buffer.new.items (0 ∷ 0 ∷ 0 ∷ 1 ∷ code ∷ []) result }
{
    write_buffered(buffer, writer, &[0, 0, 0, 1, code])
}

// The frame of a number, by its first byte.
fn write_number<W: Sink>(
    kind: u8,
    number: u64,
    buffer: &mut BytesMut,
    writer: &mut W,
) -> io::Result<()>
    ensures { Puts (W.contents writer.old) (W.contents writer.new) (W.failures writer.old) (W.failures writer.new) buffer.old.items buffer.new.items (0 ∷ 0 ∷ 0 ∷ 9 ∷ kind ∷ to_be_bytes w64 number) result }
{
    write_buffered(buffer, writer, &[0, 0, 0, 9, kind])?;
    write_buffered(buffer, writer, &number.to_be_bytes())
}

// The frame of a row found, with its stamp.
fn write_found_stamped<W: Sink>(
    found: &StampedRow,
    buffer: &mut BytesMut,
    writer: &mut W,
) -> io::Result<()>
    ensures { Puts (W.contents writer.old) (W.contents writer.new) (W.failures writer.old) (W.failures writer.new) buffer.old.items buffer.new.items (reply_spelling (WireReply.Told (Shown.FoundStamped found.now))) result }
{
    write_length(9 + row_len(&found.row), 10, buffer, writer)?;
    write_buffered(buffer, writer, &found.stamp.to_be_bytes())?;
    write_columns(found.row.columns(), buffer, writer)
}

// The frame of a row found.
fn write_found<W: Sink>(found: &Row, buffer: &mut BytesMut, writer: &mut W) -> io::Result<()>
    ensures { Puts (W.contents writer.old) (W.contents writer.new) (W.failures writer.old) (W.failures writer.new) buffer.old.items buffer.new.items (to_be_bytes w32 (length (2 ∷ row_bytes found.now)) ++ 2 ∷ row_bytes found.now) result }
{
    write_length(1 + row_len(found), 2, buffer, writer)?;
    write_columns(found.columns(), buffer, writer)
}

// The frame of a scan's pairs.
fn write_pairs<W: Sink>(
    pairs: &[(Key, StampedRow)],
    buffer: &mut BytesMut,
    writer: &mut W,
) -> io::Result<()>
    requires { ArePairs pairs.now }
    ensures { Puts (W.contents writer.old) (W.contents writer.new) (W.failures writer.old) (W.failures writer.new) buffer.old.items buffer.new.items (to_be_bytes w32 (length (6 ∷ length pairs.now ∷ flat_map shown_stamped pairs.now)) ++ 6 ∷ length pairs.now ∷ flat_map shown_stamped pairs.now) result }
{
    write_length(2 + pairs_len(pairs), 6, buffer, writer)?;
    write_buffered(buffer, writer, &[pairs.len() as u8])?;
    for pair in pairs {
        write_pair(&pair.0, &pair.1.row, buffer, writer)?;
    }
    Ok(())
}

// How many bytes a scan's pairs are spelled with.
fn pairs_len(pairs: &[(Key, StampedRow)]) -> usize
    requires { ArePairs pairs.now }
    ensures exact { result ≡ length (flat_map shown_stamped pairs.now) }
    ensures few { result ≤ 64 * 16670 }
{
    let mut len = 0;
    for pair in pairs {
        len += 2 + pair.0.as_bytes().len() + row_len(&pair.1.row);
    }
    len
}

// A pair of a scan.
fn write_pair<W: Sink>(
    key: &Key,
    row: &Row,
    buffer: &mut BytesMut,
    writer: &mut W,
) -> io::Result<()>
    requires { length key.now ≤ 251 }
    ensures { Puts (W.contents writer.old) (W.contents writer.new) (W.failures writer.old) (W.failures writer.new) buffer.old.items buffer.new.items (shown_pair (key.now, row.now)) result }
{
    write_string(key.as_bytes(), buffer, writer)?;
    write_columns(row.columns(), buffer, writer)
}

// A frame's length, and the first byte of its body.
fn write_length<W: Sink>(
    len: usize,
    kind: u8,
    buffer: &mut BytesMut,
    writer: &mut W,
) -> io::Result<()>
    requires { len < 2 ^ 32 }
    ensures { Puts (W.contents writer.old) (W.contents writer.new) (W.failures writer.old) (W.failures writer.new) buffer.old.items buffer.new.items (to_be_bytes w32 len ++ kind ∷ []) result }
{
    write_buffered(buffer, writer, &(len as u32).to_be_bytes())?;
    write_buffered(buffer, writer, &[kind])
}

// A row.
fn write_columns<W: Sink>(
    columns: &[Column],
    buffer: &mut BytesMut,
    writer: &mut W,
) -> io::Result<()>
    requires { IsRow columns.now }
    ensures { Puts (W.contents writer.old) (W.contents writer.new) (W.failures writer.old) (W.failures writer.new) buffer.old.items buffer.new.items (row_bytes columns.now) result }
{
    write_buffered(buffer, writer, &[columns.len() as u8])?;
    for column in columns {
        write_string(column.as_bytes(), buffer, writer)?;
    }
    Ok(())
}

// A string.
fn write_string<W: Sink>(text: &[u8], buffer: &mut BytesMut, writer: &mut W) -> io::Result<()>
    requires { length text.now < 2 ^ 16 }
    ensures { Puts (W.contents writer.old) (W.contents writer.new) (W.failures writer.old) (W.failures writer.new) buffer.old.items buffer.new.items (string text.now) result }
{
    write_buffered(buffer, writer, &(text.len() as u16).to_be_bytes())?;
    write_buffered(buffer, writer, text)
}
