//! Sessions over the streams of this crate, in each way, and whether they are told as rows say.

use super::pieces::{Counted, Waiting, Written};
use super::rows::Row;
use super::*;
use mt_session::Ended;
use mt_streams::{Sink, Source};

/// How a session ended, or why it failed.
pub type End = Result<Ended, ServeFault>;

/// What is tested: sessions over a caller of its own.
pub trait TestServer {
    /// Serves these streams, over a new state.
    fn serve_new<R: Source, W: Sink>(&self, alloc: Global, reader: &mut R, writer: &mut W) -> End;
}

/// The name of an end.
pub fn name_of(ended: &End) -> &'static str {
    match ended {
        Ok(Ended::Closed) => "closed",
        Ok(Ended::Cut) => "cut",
        Ok(Ended::Refused) => "refused",
        Err(ServeFault::Read) => "read",
        Err(ServeFault::Write) => "write",
        Err(ServeFault::Memory) => "memory",
    }
}

/// A session over `streams`: what was written, and the name of its end.
pub fn session<S: TestServer>(
    server: &S,
    alloc: Global,
    asked: &[u8],
    numbers: [usize; 4],
) -> (Written, &'static str) {
    let (mut reader, mut writer) = streams(alloc, asked, numbers);
    let ended = name_of(&server.serve_new(alloc, &mut reader, &mut writer));
    (writer, ended)
}

// A session in which each call is interrupted before it goes well.
fn interrupted<S: TestServer>(
    server: &S,
    alloc: Global,
    asked: &[u8],
    size: usize,
) -> (Written, &'static str) {
    let (mut reader, mut writer) = streams(alloc, asked, [size, size, ALL, ALL]);
    reader.calls.is_interrupted = true;
    writer.calls.is_interrupted = true;
    let ended = name_of(&server.serve_new(alloc, &mut reader, &mut writer));
    (writer, ended)
}

// A session in which each request waits for the reply to the one before it.
fn in_turns<S: TestServer>(
    server: &S,
    alloc: Global,
    row: &Row<'_>,
    size: usize,
) -> (Written, &'static str) {
    let written = Cell::new(0);
    let mut reader = Waiting::new(&row.asked, &row.told, size, &written);
    let (_, stream) = streams(alloc, b"", [size, size, ALL, ALL]);
    let count = &written;
    let mut writer = Counted { stream, count };
    let ended = name_of(&server.serve_new(alloc, &mut reader, &mut writer));
    (writer.stream, ended)
}

// Whether a session told the whole row, and ended so.
fn is_whole(row: &Row<'_>, (writer, ended): &(Written, &'static str)) -> bool {
    writer.text.as_slice() == row.told.as_slice() && *ended == row.end
}

// Whether the session ended with this fault, having told a beginning of the row.
fn is_begun(row: &Row<'_>, (writer, ended): &(Written, &'static str), fault: &str) -> bool {
    row.told.starts_with(&writer.text) && *ended == fault
}

// Whether the end of the row comes only when its input has ended.
fn reads_to_the_end(row: &Row<'_>) -> bool {
    row.end == "closed" || row.end == "cut"
}

// Whether the row is told byte by byte, and at every cut in two, and each beginning of it.
fn is_told_in_pieces<S: TestServer>(server: &S, alloc: Global, row: &Row<'_>) -> bool {
    let asked = row.asked.as_slice();
    is_whole(row, &session(server, alloc, asked, [1, 1, ALL, ALL]))
        && (0..asked.len() + 1).all(|cut| {
            is_whole(row, &session(server, alloc, asked, [cut, ALL, ALL, ALL]))
        })
        && (!reads_to_the_end(row)
            || (0..asked.len()).all(|cut| is_told_cut_off(server, alloc, row, cut)))
}

// Whether a session that asks for a row's first bytes alone is told its replies to whole frames, and ends so.
fn is_told_cut_off<S: TestServer>(server: &S, alloc: Global, row: &Row<'_>, cut: usize) -> bool {
    let (asked, _) = row.asked.split_at(cut.min(row.asked.len()));
    let (writer, ended) = session(server, alloc, asked, [ALL; 4]);
    let (mut rest, mut replies) = (row.asked.as_slice(), row.told.as_slice());
    let mut left = cut;
    for _ in 0..cut {
        let len = front_len(rest);
        if len > left {
            break;
        }
        left -= len;
        rest = &rest[len..];
        replies = &replies[front_len(replies)..];
    }
    let end = if left == 0 { "closed" } else { "cut" };
    row.told.strip_suffix(replies) == Some(writer.text.as_slice()) && ended == end
}

// Whether the row is begun and ends so, with each read of a byte and each write of one failing in turn. A
// session may be at its end before the read that fails.
fn is_begun_with_faults<S: TestServer>(server: &S, alloc: Global, row: &Row<'_>) -> bool {
    let asked = row.asked.as_slice();
    (0..asked.len() + 1).all(|good| {
        let told = session(server, alloc, asked, [1, 1, good, ALL]);
        is_begun(row, &told, "read") || (!reads_to_the_end(row) && is_whole(row, &told))
    }) && (0..row.told.len()).all(|good| {
        let told = session(server, alloc, asked, [1, 1, ALL, good]);
        is_begun(row, &told, "write") && told.0.text.len() == good
    })
}

/// How the sessions of a row are run.
#[derive(Clone, Copy)]
pub enum Way {
    /// Byte by byte, and cut in two at every place; and cut off there.
    InPieces,
    /// Byte by byte, with each read and each write failing in turn.
    WithFaults,
    /// With an interruption before each call that goes well: byte by byte, and whole.
    Interrupted,
    /// With a client that waits for each reply: byte by byte, and frame by frame.
    InTurns,
}

// Whether the row is told in this way.
fn is_told<S: TestServer>(server: &S, alloc: Global, row: &Row<'_>, way: Way) -> bool {
    let asked = row.asked.as_slice();
    match way {
        Way::InPieces => is_told_in_pieces(server, alloc, row),
        Way::WithFaults => is_begun_with_faults(server, alloc, row),
        Way::Interrupted => [1, ALL].iter().all(|size| {
            is_whole(row, &interrupted(server, alloc, asked, *size))
        }),
        Way::InTurns => [1, ALL].iter().all(|size| {
            is_whole(row, &in_turns(server, alloc, row, *size))
        }),
    }
}

/// The first row that isn't told in this way, or is no row.
pub fn wrong_row<S: TestServer>(
    server: &S,
    alloc: Global,
    rows: &[&'static str],
    way: Way,
) -> Option<&'static str> {
    for text in rows {
        let is_right = match row_of(alloc, text) {
            Some(row) => is_told(server, alloc, &row, way),
            None => false,
        };
        if !is_right {
            return Some(*text);
        }
    }
    None
}
