//! A connection's session without a socket: bytes in, bytes out, over any caller.

ghost use Rattle.std.specs.Prelude.{◌≡◌, ◌≢◌, ◌≤◌, ◌<◌, ◌++◌, ℕ, false, length, take, drop, Result, IfOk, OnOk};
ghost use Rattle.mt_resp.specs.{Replies.told_text};
ghost use Rattle.mt_resp.specs.declared.asked.Asked.TheVariants as asks;
ghost use Rattle.mt_rows.specs.{Rows.Bytes, declared.refusal.Refusal.Refusal};
ghost use Rattle.mt_resp_commands.specs.{Links.{Asked as WasAsked, ButSettles}, Answers.{fresh, settle_told, IsAnswer}};
ghost use Rattle.mt_resp_session.specs.{Transcripts.is_end, Answering.{IsAnswered, IsFront, IsPut, IsBadPut}};

use bytes::BytesMut;
use mt_caller::Caller;
use mt_resp::{Asked, Failure, Fault, Front, Told, decode, meaning_of, write_told};
use mt_resp_commands::link::settled;
use mt_resp_commands::{Knows, Link, answer as answer_asked};
use mt_rows::Refusal;
use std::alloc::{AllocError, Global};

/// What a connection's session keeps between two calls.
#[derive(Clone, Copy, Debug)]
pub struct Session {
    /// Its link to its tenant.
    pub link: Link,
    /// How many bytes spell the Settle at the front of its input, if the last call stopped there; else 0.
    pub settle: usize,
}

/// Why a call of `answer` stops.
#[derive(Clone, Copy, Debug, PartialEq, Eq)]
pub enum Stop {
    /// What is left of the input is less than a command.
    Waits,
    /// The output is as long as it may be, or as many commands were answered as may be. Commands may be left.
    Goes,
    /// The next command is a Settle. It is left to whoever makes the calls: `tell_settled` answers it.
    Settles,
    /// The client asked for the end. Nothing after that is answered.
    Quits,
    /// What is left of the input begins with no command. That was told, and nothing after it is answered.
    Refused,
    /// A growth was refused, or a command is stuck. The last command may have been done.
    Memory,
}

impl Session {
    /// The session of a connection that has begun.
    pub fn new() -> Self
        ensures link { result.link ≡ fresh }
        ensures settle { result.settle ≡ 0 }
    {
        Session {
            link: Link::new(),
            settle: 0,
        }
    }

    /// Takes the Settle at the front off the input, and writes what is told of it at the end of the output. What was written before stays,
    /// also if memory runs out, which is the only error.
    pub fn tell_settled(
        &mut self,
        answer: Result<u64, Refusal>,
        input: &mut BytesMut,
        output: &mut Vec<u8>,
    ) -> Result<(), AllocError>
        requires { self.old.settle ≤ length input.old.items }
        ensures taken { input.new.items ≡ drop self.old.settle input.old.items }
        ensures session { (self.new.link ≡ self.old.link) × (self.new.settle ≡ 0) }
        ensures ok { OnOk result (output.new.items ≡ output.old.items ++ told_text (settle_told answer)) }
        ensures front { take (length output.old.items) output.new.items ≡ output.old.items }
    {
        input.advance(self.settle);
        self.settle = 0;
        write_told(&settled(answer), output)
    }
}

/// Answers the commands at the front of the input, one after the other, `calls` at most, and takes them off the input. It stops before a
/// Settle, and when the output has `most` bytes. What is told comes after what the output held.
pub fn answer<C: Caller + Knows>(
    alloc: Global,
    caller: &mut C,
    session: &mut Session,
    input: &mut BytesMut,
    output: &mut Vec<u8>,
    calls: u32,
    most: usize,
) -> Stop
    ensures answered { IsAnswered C.exchanges C.knows input.old.items session.old caller.old output.old.items result input.new.items session.new caller.new output.new.items }
    ensures asked { WasAsked (ButSettles C.exchanges) caller.old caller.new }
    ensures onward { result ≡ Stop.Goes → 0 < calls → length output.old.items < most → length input.new.items < length input.old.items }
{
    session.settle = 0;
    for _ in 0..calls {
        if output.len() >= most {
            return Stop::Goes;
        }
        if let Some(stop) = answer_front(alloc, caller, session, input, output) {
            return stop;
        }
    }
    Stop::Goes
}

// Answers the command at the front of the input, or says why the call stops.
fn answer_front<C: Caller + Knows>(
    alloc: Global,
    caller: &mut C,
    session: &mut Session,
    input: &mut BytesMut,
    output: &mut Vec<u8>,
) -> Option<Stop>
    ensures front { IsFront C.exchanges C.knows input.old.items session.old caller.old output.old.items result input.new.items session.new caller.new output.new.items }
    ensures asked { WasAsked (ButSettles C.exchanges) caller.old caller.new }
{
    match decode(alloc, input.as_slice()) {
        Err(_) => Some(Stop::Memory),
        Ok(Front::Partial) => Some(Stop::Waits),
        Ok(Front::Bad(fault)) => Some(put_bad(fault, output)),
        Ok(Front::Whole(words, len)) => match meaning_of(alloc, &words) {
            Err(_) => Some(Stop::Memory),
            Ok(Asked::Settle) => {
                session.settle = len;
                Some(Stop::Settles)
            }
            Ok(asked) => {
                input.advance(len);
                put_answer(alloc, caller, &mut session.link, asked, output)
            }
        },
    }
}

// Puts what is told of bytes that are no command. Without memory the output is as it was.
fn put_bad(fault: Fault, output: &mut Vec<u8>) -> Stop
    ensures { IsBadPut fault output.old.items result output.new.items }
{
    let len = output.len();
    match write_told(&Told::Failed(Failure::Protocol(fault)), output) {
        Ok(()) => Stop::Refused,
        Err(_) => {
            output.truncate(len);
            Stop::Memory
        }
    }
}

// Puts the answer to what is asked. Without memory the output is as it was.
fn put_answer<C: Caller + Knows>(
    alloc: Global,
    caller: &mut C,
    link: &mut Link,
    asked: Asked,
    output: &mut Vec<u8>,
) -> Option<Stop>
    requires { asked ≢ asks.Settle }
    ensures put { IsPut C.exchanges C.knows link.old caller.old asked output.old.items result link.new caller.new output.new.items }
    ensures asked { WasAsked (ButSettles C.exchanges) caller.old caller.new }
{
    let len = output.len();
    let is_end = matches!(asked, Asked::Quit | Asked::Close);
    match answer_asked(alloc, caller, link, asked, output) {
        Ok(()) if is_end => Some(Stop::Quits),
        Ok(()) => None,
        Err(_) => {
            output.truncate(len);
            Some(Stop::Memory)
        }
    }
}
