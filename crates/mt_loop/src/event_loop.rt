//! A loop: one thread that serves the connections of its door, each when it is ready.
//!
//! What a socket has read and written, and which socket is ready, is the system's word. This file alone
//! takes it: a stream of `mio` doesn't tell its bytes, and no clause says what `poll` reports.

ghost use Rattle.std.specs.Prelude.{◌≡◌, ◌<◌, ℕ, List, Option, None, IfOk, length};
ghost use Rattle.mt_loop.specs.{Connections.{IsSession, IsNext}, Deeds.{Asked, ButSettles, Led}};

use crate::connection::{Connection, Next};
use crate::inbox::{Door, Inbox, open_door};
use crate::sharing::{Shared, Sharing};
use crate::table::{Counts, Room, Stream, Table};
use mio::net::TcpStream;
use mio::{Events, Interest, Poll, Registry, Token, Waker};
use mt_caller::Caller;
use mt_streams::Sink;
use std::alloc::{AllocError, Global};
use std::io::Read;
use std::net::{Net, Shutdown};
use std::sync::Wait;
use std::time::{Clock, Duration, Instant};
use std::{io, net};

// So many events at a time.
const EVENTS: usize = 1_024;

// The waker's token, which is no connection's key.
const DOOR: Token = Token(usize::MAX);

// While there are connections, their limits are looked at after so many seconds.
const LOOK_SECONDS: u64 = 1;

/// What is done before a loop writes, as by whoever holds something that others wait for.
pub trait Pause {
    fn pause(&self);
}

/// What a loop serves at most.
#[derive(Clone, Copy)]
pub struct Limits {
    /// So many connections at a time.
    pub connections: usize,
    /// Connections that are silent for so many seconds are ended, none if it is 0.
    pub idle_seconds: u64,
}

/// Why a loop ended before its time.
#[derive(Debug, Drop)]
pub enum LoopFault {
    /// A growth was refused.
    Memory,
    /// The system failed: to tell what is ready, or the time.
    System(io::Error),
}

impl From<AllocError> for LoopFault {
    fn from(_e: AllocError) -> LoopFault {
        LoopFault::Memory
    }
}

impl From<io::Error> for LoopFault {
    fn from(e: io::Error) -> LoopFault {
        LoopFault::System(e)
    }
}

/// A connection's socket. Before it is written, its loop pauses.
#[derive(Drop)]
pub struct Socket<P: Pause + Copy + Drop> {
    stream: TcpStream,
    before: P,
}

// The writing half of a socket.
#[derive(Drop)]
struct Pausing<'a, P: Pause + Copy + Drop> {
    stream: &'a TcpStream,
    before: P,
}

impl<P: Pause + Copy + Drop> Sink for Pausing<'_, P> {
    ghost use Rattle.std.specs.Prelude.{None};

    ghost contents = { λ _. None };

    ghost failures = { λ _. None };

    fn send(&mut self, text: &[u8]) -> io::Result<usize> {
        self.before.pause();
        let mut stream = self.stream;
        stream.send(text)
    }
}

impl<P: Pause + Copy + Drop> Stream for Socket<P> {
    ghost use Rattle.std.specs.Prelude.{None};

    ghost remaining = { λ _. None };

    ghost contents = { λ _. None };

    fn turn<C: Caller>(
        &mut self,
        alloc: Global,
        connection: &mut Connection,
        caller: &mut C,
        piece: &mut [u8],
    ) -> Next {
        turn_at(&self.stream, self.before, alloc, connection, caller, piece)
    }

    // A socket that is closed with bytes unread is reset, and a reset may overtake the last reply.
    fn leave(&mut self, piece: &mut [u8]) {
        if self.stream.shutdown(Shutdown::Write).is_ok() {
            let _ = self.stream.read(piece);
        }
    }
}

// Gives a connection its turn at a socket.
fn turn_at<C: Caller, P: Pause + Copy + Drop>(
    stream: &TcpStream,
    before: P,
    alloc: Global,
    connection: &mut Connection,
    caller: &mut C,
    piece: &mut [u8],
) -> Next
    requires { 0 < length piece.old }
    ensures session { (had held : Option (List ℕ)) (start : C)
        → IsSession C.exchanges had None held None start connection.old caller.old
        → IsSession C.exchanges had None held None start connection.new caller.new }
    ensures asked { Asked (ButSettles C.exchanges) caller.old caller.new }
    ensures next { IsNext result connection.new }
{
    let mut reader = stream;
    let mut writer = Pausing { stream, before };
    connection.turn(alloc, caller, &mut reader, &mut writer, piece)
}

/// A loop that serves the connections of its door.
#[derive(Drop)]
pub struct EventLoop {
    poll: Poll,
    events: Events,
    inbox: Inbox,
    room: Room,
    limits: Limits,
    looked_at: u64,
}

impl EventLoop {
    /// A loop, and its door.
    pub fn new<R: Net>(rt: &R, alloc: Global, limits: Limits) -> Result<(Self, Door), LoopFault>
        ensures { IfOk result (λ made. (made.0.limits ≡ limits) × (made.1.most ≡ limits.connections)) }
    {
        let poll = Poll::new(rt)?;
        let waker = Waker::new(poll.registry(), DOOR)?;
        let (door, inbox) = open_door(alloc, waker, limits.connections)?;
        let events = Events::with_capacity(alloc, EVENTS)?;
        let room = Room::new(alloc)?;
        let made = EventLoop {
            poll,
            events,
            inbox,
            room,
            limits,
            looked_at: 0,
        };
        Ok((made, door))
    }

    /// Serves the connections that are handed over, each to its end, until the door is closed. All that
    /// happens to the caller meanwhile is that sessions resume and ask it.
    pub fn run<R: Wait + Clock, C: Sharing + Drop, P: Pause + Copy + Drop>(
        &mut self,
        rt: &R,
        alloc: Global,
        caller: &mut Shared<C>,
        before: P,
    ) -> Result<Counts, LoopFault>
        ensures led { Led C.exchanges C.resumes caller.old.caller caller.new.caller }
    {
        let began = Instant::now(rt)?;
        let limits = self.limits;
        let mut table = Table::new(alloc, limits.connections, limits.idle_seconds)?;
        for _ in rt.forever() {
            if self.inbox.is_closed && table.len() == 0 {
                return Ok(table.counts());
            }
            self.round(rt, alloc, caller, &mut table, began, before)?;
        }
        unreachable!()
    }

    // Waits for events, takes in what was handed over, and gives a turn to each connection that is ready.
    fn round<R: Wait + Clock, C: Sharing + Drop, P: Pause + Copy + Drop>(
        &mut self,
        rt: &R,
        alloc: Global,
        caller: &mut Shared<C>,
        table: &mut Table<Socket<P>>,
        began: Instant,
        before: P,
    ) -> Result<(), LoopFault>
        ensures led { Led C.exchanges C.resumes caller.old.caller caller.new.caller }
    {
        before.pause();
        self.poll.poll(&mut self.events, timeout_of(table))?;
        let now = began.elapsed(rt)?.as_secs();
        self.take_in(rt, alloc, caller, table, now, before);
        for event in &self.events {
            table.wake(event.token().0);
        }
        table.round(alloc, caller, &mut self.room, now);
        if now != self.looked_at {
            self.looked_at = now;
            table.end_over(now);
        }
        self.inbox.tell(table.len());
        Ok(())
    }

    // Takes in the connections that were handed over, as many as there may be.
    fn take_in<R: Wait, C: Sharing + Drop, P: Pause + Copy + Drop>(
        &mut self,
        rt: &R,
        alloc: Global,
        caller: &Shared<C>,
        table: &mut Table<Socket<P>>,
        now: u64,
        before: P,
    ) {
        // One look more than there may be connections, so that a door that closes after the last of them is seen.
        for _ in 0..=self.limits.connections {
            let Some(stream) = self.inbox.next(rt) else {
                return;
            };
            add(
                alloc,
                self.poll.registry(),
                caller,
                table,
                stream,
                now,
                before,
            );
        }
    }
}

// How long to wait for events: not at all if a connection is queued, and until the next look at the limits if there is
// one.
fn timeout_of<P: Pause + Copy + Drop>(table: &Table<Socket<P>>) -> Option<Duration> {
    if table.is_queued() {
        return Some(Duration::from_secs(0));
    }
    if table.len() == 0 {
        return None;
    }
    Some(Duration::from_secs(LOOK_SECONDS))
}

// A connection begins. One that can't be told from others, or for which there is no memory, is closed.
fn add<C: Sharing + Drop, P: Pause + Copy + Drop>(
    alloc: Global,
    registry: &Registry,
    caller: &Shared<C>,
    table: &mut Table<Socket<P>>,
    stream: net::TcpStream,
    now: u64,
    before: P,
) {
    if stream.set_nonblocking(true).is_err() {
        return;
    }
    // If the system refuses it, replies are later and not wrong.
    let _ = stream.set_nodelay(true);
    let socket = Socket {
        stream: TcpStream::from_std(stream),
        before,
    };
    if let Some(key) = table.begin(alloc, caller, socket, now) {
        if !is_registered(registry, table, key) {
            let _ = table.end(key);
        }
    }
}

// Whether the events of a connection's stream are told under its key.
fn is_registered<P: Pause + Copy + Drop>(
    registry: &Registry,
    table: &mut Table<Socket<P>>,
    key: usize,
) -> bool {
    match table.entries.get_mut(key) {
        Some(entry) => registry
            .register(
                &mut entry.stream.stream,
                Token(key),
                Interest::READABLE | Interest::WRITABLE,
            )
            .is_ok(),
        None => false,
    }
}
