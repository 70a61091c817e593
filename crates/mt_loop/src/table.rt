//! The connections of a loop, and who has its turn next. Times are seconds since the loop began.

ghost use Rattle.std.specs.Prelude.{◌≡◌, ◌≢◌, ◌<◌, ◌↔◌, ◌⊎◌, ◌++◌, ◌∷◌, [], true, false, IsTrue, ℕ, List, Option, Some, None, IfSome, IfNone, IfOk, Result, length};
ghost use Rattle.mt_wire.specs.Replies.{reply_spelling};
ghost use Rattle.mt_caller.specs.Exchanges.{Settles};
ghost use Rattle.mt_session.specs.{declared.ended.ServeFault.ServeFault, Endings.Serves, Sessions.settle_told};
ghost use Rattle.mt_loop.specs.declared.connection.State.TheVariants.{Ended as HasEnded};
ghost use Rattle.slab.specs.Slab.{get, slab_len, Updates, SameValues};
ghost use Rattle.mt_loop.specs.{Connections.{IsSession, IsNext, AwaitsSettle}, Deeds.{Asked, ButSettles, Led, Resumed, SharedExchanges}, Tables.{Beginning, HasSession, HaveSessions, HaveSessionsSince, AreAmong, AreQueued, IsSettledOrSame, IsDone, IsFull, IsRound, NoneAwaits, SettlesAll}, Limits.{HasGoneOn, IsNoted, IsOver}};

use crate::connection::{Connection, Next, PIECE_BYTES, State};
use crate::sharing::{Shared, Sharing};
use mt_caller::Caller;
use mt_rows::Refusal;
use mt_session::Ended;
use mt_streams::{Sink, Source};
use mt_wire::WireReply;
use slab::Slab;
use std::alloc::{AllocError, Global};
use std::collections::VecDeque;
use std::mem;

/// A client that takes nothing of its replies for so many seconds is given up.
pub const UNSENT_SECONDS: u64 = 30;

/// What a connection reads and writes.
pub trait Stream {
    /// The bytes that are left to be read, where it tells.
    ghost remaining: { Self → Option (List ℕ) };

    /// The bytes that were written, where it tells.
    ghost contents: { Self → Option (List ℕ) };

    /// Gives a connection its turn, which reads and writes this stream.
    fn turn<C: Caller>(
        &mut self,
        alloc: Global,
        connection: &mut Connection,
        caller: &mut C,
        piece: &mut [u8],
    ) -> Next
        requires { 0 < length piece.old }
        ensures session { (before held : Option (List ℕ)) (start : C)
            → IsSession C.exchanges before (remaining self.old) held (contents self.old) start connection.old caller.old
            → IsSession C.exchanges before (remaining self.new) held (contents self.new) start connection.new caller.new }
        ensures asked { Asked (ButSettles C.exchanges) caller.old caller.new }
        ensures next { IsNext result connection.new };

    /// Leaves a stream of which not all was read, so that what was written last arrives.
    fn leave(&mut self, piece: &mut [u8]);
}

/// A reader and a writer.
#[derive(Drop)]
pub struct Halves<R: Source + Drop, W: Sink + Drop> {
    pub reader: R,
    pub writer: W,
}

impl<R: Source + Drop, W: Sink + Drop> Stream for Halves<R, W> {
    ghost remaining = { λ s. R.remaining s.reader };

    ghost contents = { λ s. W.contents s.writer };

    fn turn<C: Caller>(
        &mut self,
        alloc: Global,
        connection: &mut Connection,
        caller: &mut C,
        piece: &mut [u8],
    ) -> Next {
        connection.turn(alloc, caller, &mut self.reader, &mut self.writer, piece)
    }

    fn leave(&mut self, _piece: &mut [u8]) {}
}

/// The room that the connections of a loop read into, one after the other.
#[derive(Drop)]
pub struct Room {
    piece: Vec<u8>,
    ghost some: { 0 < length piece.items },
}

impl Room {
    pub fn new(alloc: Global) -> Result<Self, AllocError> {
        let piece = Vec::from_elem(alloc, 0u8, PIECE_BYTES)?;
        Ok(Room { piece })
    }
}

/// A connection of a table: with its stream, the tenant that its session has opened, and when it has last
/// gone on.
#[derive(Drop)]
pub struct Entry<S: Stream + Drop> {
    pub(crate) stream: S,
    pub(crate) connection: Connection,
    pub(crate) opened: Option<u32>,
    pub(crate) went_at: u64,
    pub(crate) is_queued: bool,
}

impl<S: Stream + Drop> Entry<S> {
    // Its turn.
    fn turn<C: Sharing + Drop>(
        &mut self,
        alloc: Global,
        caller: &mut Shared<C>,
        room: &mut Room,
        now: u64,
    ) -> Next
        ensures session { (beginning : Beginning C)
            → HasSession C.exchanges C.resumes C.opened S.remaining S.contents beginning self.old caller.old.caller
            → HasSession C.exchanges C.resumes C.opened S.remaining S.contents beginning self.new caller.new.caller }
        ensures led { Led C.exchanges C.resumes caller.old.caller caller.new.caller }
        ensures next { IsNext result self.new.connection }
        ensures queued { self.new.is_queued ≡ false }
    {
        let before = self.lengths();
        caller.caller.resume(self.opened);
        let next = self.stream.turn(
            alloc,
            &mut self.connection,
            caller,
            room.piece.as_mut_slice(),
        );
        self.opened = caller.caller.opened();
        self.note(before, now);
        next
    }

    // What a Settle of the caller told is the reply to its Settle, if it awaits one.
    fn tell_settled<C: Sharing + Drop>(
        &mut self,
        alloc: Global,
        caller: &mut Shared<C>,
        reply: &WireReply,
    )
        ensures session { (beginning : Beginning C) (from mid : C) (told : Result ℕ Refusal) → reply.now ≡ settle_told told → C.exchanges from (Settles told) mid → Led C.exchanges C.resumes mid caller.old.caller
            → (AwaitsSettle self.old.connection → HasSession C.exchanges C.resumes C.opened S.remaining S.contents beginning self.old from)
            → HasSession C.exchanges C.resumes C.opened S.remaining S.contents beginning self.old caller.old.caller
            → HasSession C.exchanges C.resumes C.opened S.remaining S.contents beginning self.new caller.new.caller }
        ensures settled { IsSettledOrSame (reply_spelling reply.now) self.old self.new }
        ensures led { Led (ButSettles C.exchanges) C.resumes caller.old.caller caller.new.caller }
    {
        if self.connection.awaits_settle() {
            caller.caller.resume(self.opened);
            self.connection.tell_settled(alloc, reply);
        }
    }

    // How much is read and not answered, and how much is told and not sent.
    fn lengths(&self) -> (usize, usize)
        ensures input { result.0 ≡ length self.now.connection.input.items }
        ensures unsent { result.1 ≡ length self.now.connection.unsent.bytes.items }
    {
        (
            self.connection.input.len(),
            self.connection.unsent.bytes.len(),
        )
    }

    // Notes a turn: when it has gone on.
    fn note(&mut self, before: (usize, usize), now: u64)
        ensures { IsNoted before.0 before.1 now self.old self.new }
    {
        if self.has_gone_on(before) {
            self.went_at = now;
        }
        self.is_queued = false;
    }

    // Whether it has gone on in a turn, before which the lengths were these. Without a read, what was read gets
    // shorter only if all was sent before.
    fn has_gone_on(&self, before: (usize, usize)) -> bool
        ensures { IsTrue result ↔ HasGoneOn before.0 before.1 self.now }
    {
        let (input, unsent) = self.lengths();
        !self.connection.is_silent()
            || !self.connection.is_unsent()
            || input != before.0
            || unsent != before.1
    }

    // Whether it has not gone on for as long as it may.
    fn is_over(&self, idle_seconds: u64, now: u64) -> bool
        ensures { IsTrue result ↔ IsOver idle_seconds now self.now }
    {
        let seconds = now.saturating_sub(self.went_at);
        if self.connection.is_unsent() {
            return seconds >= UNSENT_SECONDS;
        }
        idle_seconds != 0 && seconds >= idle_seconds
    }

    // Leaves its stream.
    fn leave(mut self, room: &mut Room) {
        if matches!(self.connection.state, State::Ended(Ok(Ended::Refused))) {
            self.stream.leave(room.piece.as_mut_slice());
        }
    }

    // Whether its session has ended as it should, and all is sent.
    fn is_right(&self) -> bool {
        matches!(self.connection.state, State::Ended(Ok(Ended::Closed)))
            && !self.connection.is_unsent()
    }
}

/// How many sessions have ended, and how many of them otherwise than they should. Both counts stay where they
/// are at 2^32 - 1.
#[derive(Clone, Copy, Debug, PartialEq, Eq)]
pub struct Counts {
    pub sessions: u32,
    pub others: u32,
}

/// The connections of a loop, each under a key, and those that have a turn in the next round.
#[derive(Drop)]
pub struct Table<S: Stream + Drop> {
    pub(crate) entries: Slab<Entry<S>>,
    pub(crate) queue: VecDeque<usize>,
    pub(crate) is_settling: bool,
    pub(crate) idle_seconds: u64,
    pub(crate) counts: Counts,
}

impl<S: Stream + Drop> Table<S> {
    /// A table without a connection, with a place in its queue for each of so many. A connection that is silent
    /// for so many seconds is ended, none if it is 0.
    pub fn new(alloc: Global, most: usize, idle_seconds: u64) -> Result<Self, AllocError>
        ensures none { IfOk result (λ table. (key : ℕ) → get table.entries key ≡ None) }
        ensures idle { IfOk result (λ table. table.idle_seconds ≡ idle_seconds) }
    {
        let queue = VecDeque::with_capacity(alloc, most)?;
        Ok(Table {
            entries: Slab::new(alloc),
            queue,
            is_settling: false,
            idle_seconds,
            counts: Counts {
                sessions: 0,
                others: 0,
            },
        })
    }

    /// How many connections there are.
    pub fn len(&self) -> usize
        ensures { result ≡ slab_len self.now.entries }
    {
        self.entries.len()
    }

    /// Whether a connection has a turn in the next round.
    pub fn is_queued(&self) -> bool {
        !self.queue.is_empty()
    }

    /// How many sessions have ended.
    pub fn counts(&self) -> Counts
        ensures { result ≡ self.now.counts }
    {
        self.counts
    }

    /// A connection begins, under a key that no other has. If memory runs out, its stream is dropped.
    pub fn begin<C: Sharing + Drop>(
        &mut self,
        alloc: Global,
        caller: &Shared<C>,
        stream: S,
        now: u64,
    ) -> Option<usize>
        ensures begun { IfSome result (λ key. (get self.old.entries key ≡ None) × (entry : Entry S) × Updates self.old.entries self.new.entries key (Some entry)
            × HasSession C.exchanges C.resumes C.opened S.remaining S.contents (record { had = S.remaining stream; held = S.contents stream; caller = caller.now.caller }) entry caller.now.caller) }
        ensures none { IfNone result (SameValues self.old.entries self.new.entries) }
    {
        let entry = Entry {
            stream,
            connection: Connection::new(alloc),
            opened: caller.caller.opened(),
            went_at: now,
            is_queued: false,
        };
        match self.entries.insert(entry) {
            Ok(key) => Some(key),
            Err(_) => None,
        }
    }

    /// A connection has an event: it has a turn in the next round. Others stay as they are. It is ended if the
    /// queue is full and can't grow.
    pub fn wake(&mut self, key: usize)
        ensures among { AreAmong self.old self.new }
        ensures others { (other : ℕ) → other ≢ key → get self.new.entries other ≡ get self.old.entries other }
        ensures gone { get self.new.entries key ≡ None → (get self.old.entries key ≡ None) ⊎ IsFull self.old }
        ensures queued { (entry : Entry S) → get self.old.entries key ≡ Some entry → entry.is_queued ≡ false
            → ((get self.new.entries key ≡ None) × IsFull self.old) ⊎ (self.new.queue.items ≡ self.old.queue.items ++ key ∷ []) }
        ensures queue { (self.new.queue.items ≡ self.old.queue.items) ⊎ (self.new.queue.items ≡ self.old.queue.items ++ key ∷ []) }
        ensures settling { self.new.is_settling ≡ self.old.is_settling }
    {
        if self.is_woken(key) && self.queue.push_back(key).is_err() {
            let _ = self.end(key);
        }
    }

    // Whether a connection is to be queued that was not; it is queued from here on.
    fn is_woken(&mut self, key: usize) -> bool
        ensures among { AreAmong self.old self.new }
        ensures others { (other : ℕ) → other ≢ key → get self.new.entries other ≡ get self.old.entries other }
        ensures gone { get self.new.entries key ≡ None → get self.old.entries key ≡ None }
        ensures queue { (self.new.queue ≡ self.old.queue) × (self.new.is_settling ≡ self.old.is_settling) }
        ensures woken { (entry : Entry S) → get self.old.entries key ≡ Some entry → entry.is_queued ≡ false → result ≡ true }
    {
        match self.entries.get_mut(key) {
            Some(entry) => !mem::replace(&mut entry.is_queued, true),
            None => false,
        }
    }

    // Ends a connection, if there is one.
    pub(crate) fn end(&mut self, key: usize) -> Option<Entry<S>>
        ensures among { AreAmong self.old self.new }
        ensures others { (other : ℕ) → other ≢ key → get self.new.entries other ≡ get self.old.entries other }
        ensures gone { get self.new.entries key ≡ None }
        ensures queue { (self.new.queue ≡ self.old.queue) × (self.new.is_settling ≡ self.old.is_settling) }
    {
        let entry = self.entries.try_remove(key)?;
        self.count(1, u32::from(!entry.is_right()));
        Some(entry)
    }

    // Ends a connection that is done. If its session was refused, its client may still be sending.
    fn end_done(&mut self, key: usize, room: &mut Room)
        ensures among { AreAmong self.old self.new }
        ensures others { (other : ℕ) → other ≢ key → get self.new.entries other ≡ get self.old.entries other }
        ensures gone { get self.new.entries key ≡ None }
        ensures queue { (self.new.queue ≡ self.old.queue) × (self.new.is_settling ≡ self.old.is_settling) }
    {
        if let Some(entry) = self.end(key) {
            entry.leave(room);
        }
    }

    // Counts sessions that have ended.
    fn count(&mut self, sessions: u32, others: u32)
        ensures entries { self.new.entries ≡ self.old.entries }
        ensures queue { (self.new.queue ≡ self.old.queue) × (self.new.is_settling ≡ self.old.is_settling) }
    {
        self.counts.sessions = self.counts.sessions.saturating_add(sessions);
        self.counts.others = self.counts.others.saturating_add(others);
    }

    /// A round: each connection that is queued when it begins has one turn. One that has more to do is queued
    /// again, after the others, and one that is done is ended. All that have come to a Settle are told what one
    /// Settle of the caller tells, which begins after their turns.
    pub fn round<C: Sharing + Drop>(
        &mut self,
        alloc: Global,
        caller: &mut Shared<C>,
        room: &mut Room,
        now: u64,
    )
        ensures sessions { (beginnings : ℕ → Beginning C)
            → HaveSessions C.exchanges C.resumes C.opened S.remaining S.contents beginnings self.old caller.old.caller
            → HaveSessions C.exchanges C.resumes C.opened S.remaining S.contents beginnings self.new caller.new.caller }
        ensures asked { NoneAwaits self.old → IsRound C.exchanges C.resumes caller.old.caller self.new caller.new.caller }
        ensures none { NoneAwaits self.old → NoneAwaits self.new }
        ensures led { Led C.exchanges C.resumes caller.old.caller caller.new.caller }
    {
        self.turns(alloc, caller, room, now);
        self.settle(alloc, caller);
    }

    // The turns of a round.
    fn turns<C: Sharing + Drop>(
        &mut self,
        alloc: Global,
        caller: &mut Shared<C>,
        room: &mut Room,
        now: u64,
    )
        ensures sessions { (beginnings : ℕ → Beginning C)
            → HaveSessions C.exchanges C.resumes C.opened S.remaining S.contents beginnings self.old caller.old.caller
            → HaveSessions C.exchanges C.resumes C.opened S.remaining S.contents beginnings self.new caller.new.caller }
        ensures queued { AreQueued self.old → AreQueued self.new }
        ensures led { Led C.exchanges C.resumes caller.old.caller caller.new.caller }
    {
        for _ in 0..self.queue.len() {
            if let Some(key) = self.queue.pop_front() {
                self.turn(alloc, caller, room, key, now);
            }
        }
    }

    // Asks one Settle for all that await one, if there are some, and tells it to them.
    fn settle<C: Sharing + Drop>(&mut self, alloc: Global, caller: &mut Shared<C>)
        ensures sessions { (beginnings : ℕ → Beginning C)
            → HaveSessions C.exchanges C.resumes C.opened S.remaining S.contents beginnings self.old caller.old.caller
            → HaveSessions C.exchanges C.resumes C.opened S.remaining S.contents beginnings self.new caller.new.caller }
        ensures asked { AreQueued self.old → SettlesAll C.exchanges C.resumes self.old caller.old.caller self.new caller.new.caller }
        ensures led { Led C.exchanges C.resumes caller.old.caller caller.new.caller }
    {
        if !self.is_settling {
            return;
        }
        self.is_settling = false;
        let reply = settled(caller.caller.settle());
        for index in 0..self.queue.len() {
            if let Some(key) = self.queue.get(index).copied() {
                self.tell_settled(alloc, caller, &reply, key);
            }
        }
    }

    // Tells it to one connection, if there is one under the key that awaits it.
    fn tell_settled<C: Sharing + Drop>(
        &mut self,
        alloc: Global,
        caller: &mut Shared<C>,
        reply: &WireReply,
        key: usize,
    )
        ensures sessions { (beginnings : ℕ → Beginning C) (from mid : C) (told : Result ℕ Refusal) → reply.now ≡ settle_told told → C.exchanges from (Settles told) mid → Led C.exchanges C.resumes mid caller.old.caller
            → HaveSessionsSince C.exchanges C.resumes C.opened S.remaining S.contents beginnings self.old from caller.old.caller
            → HaveSessionsSince C.exchanges C.resumes C.opened S.remaining S.contents beginnings self.new from caller.new.caller }
        ensures others { (other : ℕ) → other ≢ key → get self.new.entries other ≡ get self.old.entries other }
        ensures settled { (was : Entry S) → get self.old.entries key ≡ Some was → (is : Entry S) × (get self.new.entries key ≡ Some is) × IsSettledOrSame (reply_spelling reply.now) was is }
        ensures none { get self.old.entries key ≡ None → get self.new.entries key ≡ None }
        ensures queue { self.new.queue ≡ self.old.queue }
        ensures led { Led (ButSettles C.exchanges) C.resumes caller.old.caller caller.new.caller }
    {
        if let Some(entry) = self.entries.get_mut(key) {
            entry.tell_settled(alloc, caller, reply);
        }
    }

    /// Gives a connection its turn, if there is one under the key. No other connection changes. It is ended when
    /// it is done, or if it has more to do and the queue is full, and else never.
    pub fn turn<C: Sharing + Drop>(
        &mut self,
        alloc: Global,
        caller: &mut Shared<C>,
        room: &mut Room,
        key: usize,
        now: u64,
    )
        ensures sessions { (beginnings : ℕ → Beginning C)
            → HaveSessions C.exchanges C.resumes C.opened S.remaining S.contents beginnings self.old caller.old.caller
            → HaveSessions C.exchanges C.resumes C.opened S.remaining S.contents beginnings self.new caller.new.caller }
        ensures others { (other : ℕ) → other ≢ key → get self.new.entries other ≡ get self.old.entries other }
        ensures goes_on { (entry : Entry S) → get self.new.entries key ≡ Some entry → ¬ IsDone entry }
        ensures ended { (beginning : Beginning C) (entry : Entry S) → get self.old.entries key ≡ Some entry
            → HasSession C.exchanges C.resumes C.opened S.remaining S.contents beginning entry caller.old.caller → get self.new.entries key ≡ None
            → (last : Entry S) × HasSession C.exchanges C.resumes C.opened S.remaining S.contents beginning last caller.new.caller × (IsDone last ⊎ IsFull self.old) }
        ensures queued { (self.new.queue.items ≡ self.old.queue.items) ⊎ (self.new.queue.items ≡ self.old.queue.items ++ key ∷ []) }
        ensures awaits { (entry : Entry S) → get self.new.entries key ≡ Some entry → AwaitsSettle entry.connection → (self.new.queue.items ≡ self.old.queue.items ++ key ∷ []) × (self.new.is_settling ≡ true) }
        ensures settling { self.old.is_settling ≡ true → self.new.is_settling ≡ true }
        ensures led { Led C.exchanges C.resumes caller.old.caller caller.new.caller }
    {
        match self.turn_of(alloc, caller, room, key, now) {
            Next::Wait => {}
            Next::Again => self.wake(key),
            Next::Settle => {
                self.is_settling = true;
                self.wake(key);
            }
            Next::Close => self.end_done(key, room),
        }
    }

    // The turn itself.
    fn turn_of<C: Sharing + Drop>(
        &mut self,
        alloc: Global,
        caller: &mut Shared<C>,
        room: &mut Room,
        key: usize,
        now: u64,
    ) -> Next
        ensures sessions { (beginnings : ℕ → Beginning C)
            → HaveSessions C.exchanges C.resumes C.opened S.remaining S.contents beginnings self.old caller.old.caller
            → HaveSessions C.exchanges C.resumes C.opened S.remaining S.contents beginnings self.new caller.new.caller }
        ensures others { (other : ℕ) → other ≢ key → get self.new.entries other ≡ get self.old.entries other }
        ensures one { (beginning : Beginning C) (entry : Entry S) → get self.old.entries key ≡ Some entry
            → HasSession C.exchanges C.resumes C.opened S.remaining S.contents beginning entry caller.old.caller
            → (last : Entry S) × (get self.new.entries key ≡ Some last) × HasSession C.exchanges C.resumes C.opened S.remaining S.contents beginning last caller.new.caller }
        ensures next { (entry : Entry S) → get self.new.entries key ≡ Some entry → IsNext result entry.connection }
        ensures unqueued { (entry : Entry S) → get self.new.entries key ≡ Some entry → entry.is_queued ≡ false }
        ensures queue { (self.new.queue ≡ self.old.queue) × (self.new.is_settling ≡ self.old.is_settling) }
        ensures led { Led C.exchanges C.resumes caller.old.caller caller.new.caller }
    {
        match self.entries.get_mut(key) {
            Some(entry) => entry.turn(alloc, caller, room, now),
            None => Next::Wait,
        }
    }

    /// Ends each connection whose client has taken nothing of its replies for `UNSENT_SECONDS`, and each that is
    /// silent for as long as it may.
    pub fn end_over(&mut self, now: u64)
        ensures ended { (key : ℕ) (entry : Entry S) → get self.new.entries key ≡ Some entry → (get self.old.entries key ≡ Some entry) × ¬ (IsOver self.old.idle_seconds now entry) }
        ensures kept { (key : ℕ) (entry : Entry S) → get self.old.entries key ≡ Some entry → ¬ (IsOver self.old.idle_seconds now entry) → get self.new.entries key ≡ Some entry }
    {
        let before = self.entries.len();
        let idle_seconds = self.idle_seconds;
        self.entries
            .retain(|_, entry| !entry.is_over(idle_seconds, now));
        let ended = u32::try_from(before.saturating_sub(self.entries.len())).unwrap_or(u32::MAX);
        self.count(ended, ended);
    }
}

// The reply to a Settle, by what the caller told.
fn settled(told: Result<u64, Refusal>) -> WireReply
    ensures { result ≡ settle_told told }
{
    match told {
        Ok(number) => WireReply::Settled(number),
        Err(refusal) => WireReply::refused(refusal),
    }
}

/// A connection of a table that is done leaves what `serve` leaves: the same text is written for the same
/// bytes. Between two exchanges of its session, its caller was led on by the turns of others.
pub fn a_done_connection_is_served<C: Sharing + Drop, S: Stream + Drop>()
    ensures { (beginning : Beginning C) (entry : Entry S) (now : C) (result : Result Ended ServeFault) → entry.connection.state ≡ HasEnded result → entry.connection.unsent.bytes.items ≡ []
        → HasSession C.exchanges C.resumes C.opened S.remaining S.contents beginning entry now
        → (start : Shared C) × (last : Shared C) × Resumed C.exchanges C.resumes C.opened beginning.caller start.caller
        × Serves (SharedExchanges C.exchanges C.resumes C.opened) beginning.had (S.remaining entry.stream) beginning.held (S.contents entry.stream) (Unit {0}) (Unit {0}) start last result }
{}
