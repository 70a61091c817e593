//! The program around a script: what its arguments ask for, how it ends, and what it says then.
//!
//! It ends with status 0 where the script was answered or the use was asked for, with 1 where the
//! script was given up, and with 2 where an argument is none of its own. With 1 and 2 it says on
//! standard error, in one line, what failed and what stands.

ghost use Rattle.std.specs.Prelude.{◌≡◌, map, string_bytes};
ghost use Rattle.mt_lines.specs.Programs.{purpose_of, status_of, failed_of, stands_of, RunsProgram};
ghost use Rattle.mt_streams.specs.Failures.{Failed};

use crate::script::{ScriptFault, run_script};
use mt_streams::{Sink, Source, write_whole};
use std::alloc::Global;
use std::fmt;

/// What `--help` prints.
pub const USE: &str = "usage: mt_script < SCRIPT\n";

/// What the arguments ask for.
#[derive(Clone, Copy, Debug, PartialEq, Eq)]
pub enum Purpose {
    /// To answer a script.
    Script,
    /// To say how the program is used.
    Help,
    /// Nothing: an argument is none of the program's.
    Misuse,
}

/// How the program ends.
#[derive(Debug, Drop)]
pub enum Ending {
    /// The script was read to its end, and answered.
    Answered,
    /// The use was printed.
    Helped,
    /// It was given up.
    GivenUp(ScriptFault),
    /// An argument was refused.
    Misused,
}

impl Ending {
    /// The exit status.
    pub fn status(&self) -> u8
        ensures { result ≡ status_of self.now }
    {
        match self {
            Ending::Answered | Ending::Helped => 0,
            Ending::GivenUp(_) => 1,
            Ending::Misused => 2,
        }
    }

    /// What failed.
    pub fn failed(&self) -> &'static str
        ensures { result.now ≡ failed_of self.now }
    {
        match self {
            Ending::Answered | Ending::Helped => "nothing failed",
            Ending::GivenUp(ScriptFault::Read(_)) => "reading failed",
            Ending::GivenUp(ScriptFault::Write(_)) => "writing failed",
            Ending::GivenUp(ScriptFault::Memory) => "out of memory",
            Ending::Misused => "no argument is taken but --help",
        }
    }

    /// What stands of what was printed, or how the program is used.
    pub fn stands(&self) -> &'static str
        ensures { result.now ≡ stands_of self.now }
    {
        match self {
            Ending::GivenUp(ScriptFault::Write(_)) => {
                "what was printed stands, and its last answer may be cut"
            }
            Ending::Misused => "usage: mt_script < SCRIPT",
            Ending::Answered | Ending::Helped | Ending::GivenUp(_) => "the answers printed stand",
        }
    }
}

impl fmt::Display for Ending {
    fn fmt<W: fmt::Write>(&self, f: &mut fmt::Formatter<W>) -> fmt::Result {
        let failed = self.failed();
        let stands = self.stands();
        match self {
            Ending::GivenUp(ScriptFault::Read(error) | ScriptFault::Write(error)) => {
                write!(f, "{failed}: {error}; {stands}")
            }
            _ => write!(f, "{failed}; {stands}"),
        }
    }
}

/// What the arguments ask for, without the program's own name.
pub fn purpose_of(words: &[String]) -> Purpose
    ensures { result ≡ purpose_of (map string_bytes words.now) }
{
    match words {
        [] => Purpose::Script,
        [word] if word.as_str() == "--help" => Purpose::Help,
        _ => Purpose::Misuse,
    }
}

/// Does what the arguments ask for. Where no script is asked for, nothing is read.
pub fn run_program<R: Source, W: Sink>(
    alloc: Global,
    words: &[String],
    reader: &mut R,
    writer: &mut W,
) -> Ending
    ensures { RunsProgram (purpose_of (map string_bytes words.now)) (R.remaining reader.old) (R.remaining reader.new) (W.contents writer.old) (W.contents writer.new)
        (Failed (R.failures reader.old) (R.failures reader.new)) (Failed (W.failures writer.old) (W.failures writer.new)) result }
{
    match purpose_of(words) {
        Purpose::Script => match run_script(alloc, reader, writer) {
            Ok(()) => Ending::Answered,
            Err(fault) => Ending::GivenUp(fault),
        },
        Purpose::Help => match write_whole(writer, USE.as_bytes()) {
            Ok(()) => Ending::Helped,
            Err(error) => Ending::GivenUp(ScriptFault::Write(error)),
        },
        Purpose::Misuse => Ending::Misused,
    }
}
