//! A script, from the bytes that are read to the bytes that are written.
//!
//! It goes line by line: a line is answered before a byte behind it is read. Memory does not grow with
//! the script: it is that of one line, of the tenants and the pairs, of the operations that are open and
//! their names, and of the writes that were placed since the first step of one that is still open.

ghost use Rattle.std.specs.{Prelude.{◌≡◌, ◌==◌, ◌<◌, ◌++◌, ℕ, [], ◌∷◌, IfOk, OnOk, OnErr, IfNone, IfSome, false, string_bytes}, Option.option_map};
ghost use Rattle.std.specs.Io.KnownBytes.{Consumes, Appends, Keeps, IsAtEnd};
ghost use Rattle.mt_lines.specs.{Line.line_of, Lines.whole_line, Scripts.{Answers, RunsScript}, Sessions.TellsReply, Text.IsText};
ghost use Rattle.mt_lines.specs.{Turns.{meaning_in, AnswersFront, Writes, TakesByte}, declared.script.ScriptFault.TheVariants.Memory};
ghost use Rattle.mt_rows.specs.Rows.{Bytes};
ghost use Rattle.mt_streams.specs.Failures.{Failed, NoFewer};

use crate::buffer::LineBuffer;
use crate::line::parse;
use crate::response::{Response, text_of};
use crate::session::Session;
use mt_streams::{Sink, Source, write_whole};
use std::alloc::{AllocError, Global};
use std::error::Error;
use std::fmt;
use std::io::{self, ErrorKind};

/// Why a script was given up.
#[derive(Debug, Drop)]
pub enum ScriptFault {
    /// The next bytes could not be read.
    Read(io::Error),
    /// An answer could not be written.
    Write(io::Error),
    /// A growth was refused.
    Memory,
}

impl fmt::Display for ScriptFault {
    fn fmt<W: fmt::Write>(&self, f: &mut fmt::Formatter<W>) -> fmt::Result {
        match self {
            ScriptFault::Read(error) => write!(f, "reading failed: {error}"),
            ScriptFault::Write(error) => write!(f, "writing failed: {error}"),
            ScriptFault::Memory => write!(f, "out of memory"),
        }
    }
}

impl Error for ScriptFault {}

impl From<AllocError> for ScriptFault {
    ghost from_gives = { λ _ e. e ≡ Memory };

    fn from(_e: AllocError) -> ScriptFault {
        ScriptFault::Memory
    }
}

/// Reads a script to its end, and writes the answer of each line before the next is read.
///
/// Any bytes at all are answered, line by line. It stops at the first fault, after which no more is
/// read or written.
pub fn run_script<R: Source, W: Sink>(
    alloc: Global,
    reader: &mut R,
    writer: &mut W,
) -> Result<(), ScriptFault>
    ensures { RunsScript (R.remaining reader.old) (R.remaining reader.new) (W.contents writer.old) (W.contents writer.new)
        (Failed (R.failures reader.old) (R.failures reader.new)) (Failed (W.failures writer.old) (W.failures writer.new)) result }
{
    let mut session = Session::new(alloc)?;
    let mut line = LineBuffer::new(alloc);
    for _ in 0..u64::MAX {
        match next_byte(reader) {
            Ok(Some(byte)) => take_byte(alloc, &mut session, &mut line, byte, writer)?,
            Ok(None) => return answer(alloc, &mut session, &line, writer),
            Err(error) => return Err(ScriptFault::Read(error)),
        }
    }
    Err(ScriptFault::Read(io::Error::from(ErrorKind::Other)))
}

// The next byte, or none at the end.
fn next_byte<R: Source>(reader: &mut R) -> io::Result<Option<u8>>
    ensures byte { IfOk result (λ byte. IfSome byte (λ b. Consumes (R.remaining reader.old) (R.remaining reader.new) (b ∷ []))) }
    ensures end { IfOk result (λ byte. IfNone byte (IsAtEnd (R.remaining reader.new) × Keeps (R.remaining reader.old) (R.remaining reader.new))) }
    ensures failures { NoFewer (R.failures reader.old) (R.failures reader.new) }
    ensures cause { OnErr result (Failed (R.failures reader.old) (R.failures reader.new)) }
    ensures err { OnErr result (Keeps (R.remaining reader.old) (R.remaining reader.new)) }
{
    let mut one = [0u8; 1];
    for _ in 0..u64::MAX {
        match reader.receive(&mut one) {
            Ok(0) => return Ok(None),
            Ok(_) => return Ok(Some(one[0])),
            Err(error) => {
                if error.kind() != ErrorKind::Interrupted {
                    return Err(error);
                }
            }
        }
    }
    Err(io::Error::from(ErrorKind::Interrupted))
}

// Takes a byte into the line, and answers the line where the byte ends it.
fn take_byte<W: Sink>(
    alloc: Global,
    session: &mut Session,
    line: &mut LineBuffer,
    byte: u8,
    writer: &mut W,
) -> Result<(), ScriptFault>
    ensures taken { TakesByte (byte == 10) byte session.old session.new line.old line.new (W.contents writer.old) (W.contents writer.new) (Failed (W.failures writer.old) (W.failures writer.new)) result }
    ensures failures { NoFewer (W.failures writer.old) (W.failures writer.new) }
{
    if byte != b'\n' {
        line.push(byte)?;
        return Ok(());
    }
    line.drop_return();
    answer(alloc, session, line, writer)?;
    line.clear();
    Ok(())
}

// Answers a line, unless it is empty or a comment.
fn answer<W: Sink>(
    alloc: Global,
    session: &mut Session,
    line: &LineBuffer,
    writer: &mut W,
) -> Result<(), ScriptFault>
    ensures answered { Writes (AnswersFront session.old line.now session.new) (W.contents writer.old) (W.contents writer.new) (Failed (W.failures writer.old) (W.failures writer.new)) result }
    ensures failures { NoFewer (W.failures writer.old) (W.failures writer.new) }
{
    if line.is_silent() {
        return Ok(());
    }
    let text = answer_text(alloc, session, line)?;
    write_whole(writer, text.as_bytes()).map_err(ScriptFault::Write)
}

// The text of the answer to a line that has one.
fn answer_text(
    alloc: Global,
    session: &mut Session,
    line: &LineBuffer,
) -> Result<String, AllocError>
    ensures { IfOk result (λ text. Answers false (meaning_in (whole_line line.now)) session.old session.new (string_bytes text)) }
{
    let response = response_to(alloc, session, line.line())?;
    text_of(alloc, &response)
}

// What a line is answered, where it is not too long.
fn response_to(
    alloc: Global,
    session: &mut Session,
    line: Option<&[u8]>,
) -> Result<Response, AllocError>
    ensures { IfOk result (λ response. TellsReply session.old session.new (meaning_in (option_map (λ bytes. bytes.now) line.entry)) response) }
{
    let Some(bytes) = line else {
        return Ok(Response::BadLine);
    };
    match parse(alloc, bytes)? {
        Some(line) => session.answer(alloc, line),
        None => Ok(Response::BadLine),
    }
}
