//! One connection: what it keeps between two turns, and one turn.

ghost use Rattle.std.specs.{Prelude.{◌≡◌, ◌≢◌, ◌<◌, ◌⊎◌, ◌↔◌, ◌++◌, IsTrue, true, false, [], ℕ, List, Option, None, Ok, Err, OnOk, OnErr, length}, Io.KnownBytes.{Keeps, Appends}, Bool.{OnTrue, OnFalse}};
ghost use Rattle.mt_streams.specs.Failures.{Failed, NoFewer};
ghost use Rattle.mt_wire.specs.Replies.{reply_spelling};
ghost use Rattle.mt_session.specs.{Endings.IsBeginning, declared.answering.Stop.Stop};
ghost use Rattle.mt_loop.specs.{Connections.{IsFresh, IsSession, IsSilent, IsNext, MayWait, IsOnward, AwaitsSettle, BeginsWithSettle, IsAtSettle, ending_of}, Deeds.{Asked, ButSettles}, Steps.{IsSent, IsRead, IsAfterRead, IsTold, IsSettled, state_of}};

use crate::unsent::{Sent, Unsent};
use bytes::BytesMut;
use mt_caller::Caller;
use mt_session::{Ended, FULL_BYTES, ServeFault, Stop, answer};
use mt_streams::{Sink, Source, flush};
use mt_wire::{WireReply, write_reply};
use std::alloc::Global;
use std::io::{self, ErrorKind};

/// What one read takes at most, in bytes.
pub const PIECE_BYTES: usize = 65_536;

/// How many requests a turn answers at most.
pub const TURN_CALLS: u32 = 64;

// The frame of a Settle.
const SETTLE: [u8; 5] = [0, 0, 0, 1, 6];

/// How far a connection's session is.
#[derive(Drop)]
pub enum State {
    /// What is left of its input is less than a frame.
    Waits,
    /// Its input may begin with whole frames.
    Goes,
    /// It has ended so. What is unsent is still sent.
    Ended(Result<Ended, ServeFault>),
}

/// What to do with a connection next.
#[derive(Clone, Copy)]
pub enum Next {
    /// Wait for an event of its stream.
    Wait,
    /// Give it another turn, without an event.
    Again,
    /// Tell it what a Settle of its caller tells, which is asked after this turn. Then give it another turn.
    Settle,
    /// Close it.
    Close,
}

/// A connection between two turns: what it has read and not answered, and what it has told and not sent.
#[derive(Drop)]
pub struct Connection {
    pub(crate) input: BytesMut,
    pub(crate) unsent: Unsent,
    pub(crate) opened: bool,
    pub(crate) is_silent: bool,
    pub(crate) state: State,
}

impl Connection {
    /// A connection that has read nothing. It takes no memory.
    pub fn new(alloc: Global) -> Self
        ensures fresh { IsFresh result }
        ensures idle { (result.input.spare ≡ 0) × (result.unsent.bytes.spare ≡ 0) }
    {
        Connection {
            input: BytesMut::new(alloc),
            unsent: Unsent {
                bytes: BytesMut::new(alloc),
            },
            opened: false,
            is_silent: true,
            state: State::Waits,
        }
    }

    /// One turn: what is unsent is sent. If all of it was, there is one read at most, and the requests at the
    /// front of the input are answered, until `TURN_CALLS` of them, a full output, or a Settle. What that leaves
    /// is sent. A Settle of an open session is left to whoever gives the turns.
    ///
    /// What is read and what is told are one session's, whatever the streams do. A writer that fails ends
    /// the session. A connection without input and without output keeps no memory.
    pub fn turn<R: Source, W: Sink, C: Caller>(
        &mut self,
        alloc: Global,
        caller: &mut C,
        reader: &mut R,
        writer: &mut W,
        piece: &mut [u8],
    ) -> Next
        requires { 0 < length piece.old }
        ensures session { (before held : Option (List ℕ)) (start : C)
            → IsSession C.exchanges before (R.remaining reader.old) held (W.contents writer.old) start self.old caller.old
            → IsSession C.exchanges before (R.remaining reader.new) held (W.contents writer.new) start self.new caller.new }
        ensures pressure { (sent : List ℕ) × Appends (W.contents writer.old) (W.contents writer.new) sent
            × (IsBeginning self.old.unsent.bytes.items sent ⊎ Keeps (R.remaining reader.old) (R.remaining reader.new)) }
        ensures next { IsNext result self.new }
        ensures waits { result ≡ Next.Wait → MayWait (Failed (W.failures writer.old) (W.failures writer.new)) (Failed (R.failures reader.old) (R.failures reader.new)) self.new }
        ensures onward { result ≡ Next.Again → IsOnward (Failed (R.failures reader.old) (R.failures reader.new)) self.old self.new }
        ensures cause { self.new.state ≡ State.Ended (Err ServeFault.Read) → (self.old.state ≡ State.Ended (Err ServeFault.Read)) ⊎ Failed (R.failures reader.old) (R.failures reader.new) }
        ensures asked { Asked (ButSettles C.exchanges) caller.old caller.new }
        ensures silent { IsSilent self.new.is_silent (R.remaining reader.old) (R.remaining reader.new) }
        ensures idle_input { self.new.input.items ≡ [] → self.new.input.spare ≡ 0 }
        ensures idle_output { self.new.unsent.bytes.items ≡ [] → self.new.unsent.bytes.spare ≡ 0 }
    {
        let is_drained = self.go_on(alloc, caller, reader, writer, piece);
        self.let_go(alloc);
        self.next(is_drained)
    }

    /// Whether it has told what its writer has not taken.
    pub fn is_unsent(&self) -> bool
        ensures { IsTrue result ↔ (self.now.unsent.bytes.items ≢ []) }
    {
        !self.unsent.bytes.is_empty()
    }

    /// Whether its open session has come to a Settle, and all that it was told before is sent.
    pub fn awaits_settle(&self) -> bool
        ensures { IsTrue result ↔ AwaitsSettle self.now }
    {
        self.is_at_settle() && !self.is_unsent()
    }

    /// Its Settle has this reply. If memory runs out for it, the session ends with `Write`, as with each reply.
    pub fn tell_settled(&mut self, alloc: Global, reply: &WireReply)
        requires { IsAtSettle self.old }
        ensures { IsSettled (reply_spelling reply.now) self.old self.new }
    {
        self.input.advance(SETTLE.len());
        if reply_into(alloc, reply, &mut self.unsent).is_err() {
            self.state = State::Ended(Err(ServeFault::Write));
        }
    }

    /// Whether its last turn read nothing.
    pub fn is_silent(&self) -> bool
        ensures { result ≡ self.now.is_silent }
    {
        self.is_silent
    }

    /// How its session ended, if it has.
    pub fn ending(self) -> Option<Result<Ended, ServeFault>>
        ensures { result ≡ ending_of self.state }
    {
        match self.state {
            State::Ended(result) => Some(result),
            State::Waits | State::Goes => None,
        }
    }

    // The turn itself; whether its reader has nothing now.
    fn go_on<R: Source, W: Sink, C: Caller>(
        &mut self,
        alloc: Global,
        caller: &mut C,
        reader: &mut R,
        writer: &mut W,
        piece: &mut [u8],
    ) -> bool
        requires { 0 < length piece.old }
        ensures session { (before held : Option (List ℕ)) (start : C)
            → IsSession C.exchanges before (R.remaining reader.old) held (W.contents writer.old) start self.old caller.old
            → IsSession C.exchanges before (R.remaining reader.new) held (W.contents writer.new) start self.new caller.new }
        ensures pressure { (sent : List ℕ) × Appends (W.contents writer.old) (W.contents writer.new) sent
            × (IsBeginning self.old.unsent.bytes.items sent ⊎ Keeps (R.remaining reader.old) (R.remaining reader.new)) }
        ensures asked { Asked (ButSettles C.exchanges) caller.old caller.new }
        ensures silent { IsSilent self.new.is_silent (R.remaining reader.old) (R.remaining reader.new) }
        ensures blocked { self.new.unsent.bytes.items ≢ [] → Failed (W.failures writer.old) (W.failures writer.new) }
        ensures onward { ending_of self.new.state ≡ None → self.new.unsent.bytes.items ≡ [] → ¬ IsAtSettle self.new → IsOnward (Failed (R.failures reader.old) (R.failures reader.new)) self.old self.new }
        ensures cause { self.new.state ≡ State.Ended (Err ServeFault.Read) → (self.old.state ≡ State.Ended (Err ServeFault.Read)) ⊎ Failed (R.failures reader.old) (R.failures reader.new) }
        ensures drained { OnTrue result (Failed (R.failures reader.old) (R.failures reader.new)) }
    {
        self.is_silent = true;
        if !self.send(writer) {
            return false;
        }
        let is_drained = self.receive(reader, piece);
        let len = self.input.len();
        self.answer_some(alloc, caller);
        self.trim(alloc, len);
        self.send(writer);
        is_drained
    }

    // What to do next, if the reader has nothing now, or if it may.
    fn next(&self, is_drained: bool) -> Next
        ensures next { IsNext result self.now }
        ensures waits { result ≡ Next.Wait → MayWait (Unit {0}) (is_drained ≡ true) self.now }
    {
        if self.is_unsent() {
            return Next::Wait;
        }
        if self.is_at_settle() {
            return Next::Settle;
        }
        match self.state {
            State::Waits if is_drained => Next::Wait,
            State::Waits | State::Goes => Next::Again,
            State::Ended(_) => Next::Close,
        }
    }

    // Sends what is unsent; whether nothing is left. A writer that fails ends the session, and what it didn't take is
    // dropped.
    fn send<W: Sink>(&mut self, writer: &mut W) -> bool
        ensures sent { (sent : List ℕ) × Appends (W.contents writer.old) (W.contents writer.new) sent
            × IsSent self.old.unsent.bytes.items self.old.state sent self.new.unsent.bytes.items self.new.state }
        ensures all { OnTrue result (self.new.unsent.bytes.items ≡ []) }
        ensures left { OnFalse result (self.new.unsent.bytes.items ≢ []) }
        ensures blocked { self.new.unsent.bytes.items ≢ [] → Failed (W.failures writer.old) (W.failures writer.new) }
        ensures failures { NoFewer (W.failures writer.old) (W.failures writer.new) }
        ensures input { self.new.input ≡ self.old.input }
        ensures opened { self.new.opened ≡ self.old.opened }
        ensures silent { self.new.is_silent ≡ self.old.is_silent }
    {
        match self.unsent.send_to(writer) {
            Sent::All => true,
            Sent::Part => false,
            Sent::Failed => {
                self.unsent.bytes.clear();
                self.state = State::Ended(Err(ServeFault::Write));
                true
            }
        }
    }

    // Reads once, if the connection waits; whether the reader has nothing now. After a short read it may still tell
    // its end, and give no event.
    fn receive<R: Source>(&mut self, reader: &mut R, piece: &mut [u8]) -> bool
        requires room { 0 < length piece.old }
        requires silent { self.old.is_silent ≡ true }
        ensures read { IsRead (Failed (R.failures reader.old) (R.failures reader.new)) (R.remaining reader.old) (R.remaining reader.new)
            self.old.input.items self.old.state self.new.input.items self.new.state }
        ensures silent { IsSilent self.new.is_silent (R.remaining reader.old) (R.remaining reader.new) }
        ensures drained { OnTrue result (Failed (R.failures reader.old) (R.failures reader.new)) }
        ensures onward { self.old.state ≡ State.Waits → (self.new.is_silent ≡ false) ⊎ (Failed (R.failures reader.old) (R.failures reader.new) ⊎ (ending_of self.new.state ≢ None)) }
        ensures unsent { self.new.unsent ≡ self.old.unsent }
        ensures opened { self.new.opened ≡ self.old.opened }
    {
        if !matches!(self.state, State::Waits) {
            return false;
        }
        match reader.receive(piece) {
            Ok(count) => {
                self.is_silent = count == 0;
                self.state = after_read(&mut self.input, &piece[..count]);
                false
            }
            Err(error) => match error.kind() {
                ErrorKind::WouldBlock => true,
                ErrorKind::Interrupted => false,
                _ => {
                    self.state = State::Ended(Err(ServeFault::Read));
                    false
                }
            },
        }
    }

    // Whether its open session has come to a Settle.
    fn is_at_settle(&self) -> bool
        ensures { IsTrue result ↔ IsAtSettle self.now }
    {
        matches!(self.state, State::Goes)
            && self.opened
            && self.input.as_slice().starts_with(&SETTLE)
    }

    // Answers the requests at the front of the input, until so many, a full output, or a Settle.
    fn answer_some<C: Caller>(&mut self, alloc: Global, caller: &mut C)
        ensures session { (before left held holds : Option (List ℕ)) (start : C)
            → IsSession C.exchanges before left held holds start self.old caller.old
            → IsSession C.exchanges before left held holds start self.new caller.new }
        ensures asked { Asked (ButSettles C.exchanges) caller.old caller.new }
        ensures silent { self.new.is_silent ≡ self.old.is_silent }
        ensures others { self.old.state ≢ State.Goes → self.new ≡ self.old }
        ensures cause { self.new.state ≡ State.Ended (Err ServeFault.Read) → self.new ≡ self.old }
        ensures onward { self.old.state ≡ State.Goes → self.old.unsent.bytes.items ≡ [] → ¬ IsAtSettle self.new → (self.new.state ≢ State.Goes) ⊎ (length self.new.input.items < length self.old.input.items) }
    {
        for _ in 0..TURN_CALLS {
            if !matches!(self.state, State::Goes)
                || self.unsent.bytes.len() >= FULL_BYTES
                || self.is_at_settle()
            {
                return;
            }
            self.answer_one(alloc, caller);
        }
    }

    // Answers one request, if one is at the front of the input.
    fn answer_one<C: Caller>(&mut self, alloc: Global, caller: &mut C)
        requires goes { self.old.state ≡ State.Goes }
        requires other { ¬ IsAtSettle self.old }
        ensures session { (before left held holds : Option (List ℕ)) (start : C)
            → IsSession C.exchanges before left held holds start self.old caller.old
            → IsSession C.exchanges before left held holds start self.new caller.new }
        ensures asked { Asked (ButSettles C.exchanges) caller.old caller.new }
        ensures silent { self.new.is_silent ≡ self.old.is_silent }
        ensures cause { self.new.state ≢ State.Ended (Err ServeFault.Read) }
        ensures onward { (self.new.state ≢ State.Goes) ⊎ (length self.new.input.items < length self.old.input.items) }
    {
        let Connection {
            input,
            unsent,
            opened,
            ..
        } = self;
        let told = answer_into(alloc, caller, opened, input, unsent);
        self.state = state_after(told);
    }

    // If requests were answered of an input of so many bytes, and a begun frame is left, that keeps no more memory
    // than it needs. Without memory for its own the room stays.
    fn trim(&mut self, alloc: Global, len: usize)
        ensures input { self.new.input.items ≡ self.old.input.items }
        ensures unsent { self.new.unsent ≡ self.old.unsent }
        ensures opened { self.new.opened ≡ self.old.opened }
        ensures silent { self.new.is_silent ≡ self.old.is_silent }
        ensures state { self.new.state ≡ self.old.state }
    {
        if self.input.len() < len && matches!(self.state, State::Waits) {
            if let Ok(begun) = BytesMut::copy_from_slice(alloc, self.input.as_slice()) {
                self.input = begun;
            }
        }
    }

    // Lets go of the memory of what is empty.
    fn let_go(&mut self, alloc: Global)
        ensures input { self.new.input.items ≡ self.old.input.items }
        ensures unsent { self.new.unsent.bytes.items ≡ self.old.unsent.bytes.items }
        ensures opened { self.new.opened ≡ self.old.opened }
        ensures silent { self.new.is_silent ≡ self.old.is_silent }
        ensures state { self.new.state ≡ self.old.state }
        ensures idle_input { self.new.input.items ≡ [] → self.new.input.spare ≡ 0 }
        ensures idle_output { self.new.unsent.bytes.items ≡ [] → self.new.unsent.bytes.spare ≡ 0 }
    {
        if self.input.is_empty() {
            self.input = BytesMut::new(alloc);
        }
        if self.unsent.bytes.is_empty() {
            self.unsent.bytes = BytesMut::new(alloc);
        }
    }
}

// How far a session is when these bytes were read after its input, none at the end.
fn after_read(input: &mut BytesMut, more: &[u8]) -> State
    ensures { IsAfterRead input.old.items more.now input.new.items result }
{
    if !more.is_empty() {
        return match input.extend_from_slice(more) {
            Ok(()) => State::Goes,
            Err(_) => State::Ended(Err(ServeFault::Memory)),
        };
    }
    if input.is_empty() {
        return State::Ended(Ok(Ended::Closed));
    }
    State::Ended(Ok(Ended::Cut))
}

// How far a session is after an answer.
fn state_after(told: Result<Stop, ServeFault>) -> State
    ensures { result ≡ state_of told }
{
    match told {
        Ok(Stop::Waits) => State::Waits,
        Ok(Stop::Full) => State::Goes,
        Ok(Stop::Refused) => State::Ended(Ok(Ended::Refused)),
        Ok(Stop::Memory) => State::Ended(Err(ServeFault::Memory)),
        Err(fault) => State::Ended(Err(fault)),
    }
}

// Answers one request at most, and puts the reply after what is unsent.
fn answer_into<C: Caller>(
    alloc: Global,
    caller: &mut C,
    opened: &mut bool,
    input: &mut BytesMut,
    unsent: &mut Unsent,
) -> Result<Stop, ServeFault>
    ensures onward { result ≡ Ok Stop.Full → length input.new.items < length input.old.items }
    ensures asked { (opened.old ≡ true → BeginsWithSettle input.old.items → ⊥) → Asked (ButSettles C.exchanges) caller.old caller.new }
    ensures told { IsTold C.exchanges input.old.items opened.old caller.old result input.new.items opened.new caller.new unsent.old.bytes.items unsent.new.bytes.items }
{
    // The output has no room: replies go to what is unsent at once.
    let mut output = BytesMut::new(alloc);
    let stop = answer(alloc, caller, opened, input, &mut output, unsent, 1)?;
    match flush(&mut output, unsent) {
        Ok(()) => Ok(stop),
        Err(_) => Err(ServeFault::Write),
    }
}

// Puts a reply after what is unsent.
fn reply_into(alloc: Global, reply: &WireReply, unsent: &mut Unsent) -> io::Result<()>
    ensures ok { OnOk result (unsent.new.bytes.items ≡ unsent.old.bytes.items ++ reply_spelling reply.now) }
    ensures err { OnErr result ((part : List ℕ) × (unsent.new.bytes.items ≡ unsent.old.bytes.items ++ part) × IsBeginning part (reply_spelling reply.now)) }
{
    let mut output = BytesMut::new(alloc);
    write_reply(reply, &mut output, unsent)?;
    flush(&mut output, unsent)
}
