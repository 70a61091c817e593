//! Who accepts connections, and hands each to a loop that has room.

ghost use Rattle.std.specs.Prelude.{◌≡◌, IfErr};

use log::{Log, warn};
use mt_crew::is_of_one_connection;
use mt_loop::Door;
use std::net::{TcpListener, TcpStream};
use std::sync::Wait;
use std::time::{Clock, Duration, Instant};
use std::{mem, thread};

// What is told again and again is told after so many seconds.
const NOTICE_SECONDS: u64 = 60;

// When accepting fails it is tried again after so many milliseconds.
const RETRY_MILLIS: u64 = 100;

// What may happen often, and is told once a minute at most: how often since it was last told, and when that was.
#[derive(Drop)]
struct Notice {
    count: u64,
    told_at: Option<Instant>,
}

impl Notice {
    fn new() -> Self {
        Notice {
            count: 0,
            told_at: None,
        }
    }

    // Counts once more. If it is to be told now, how often it happened since it was last told.
    fn count<R: Clock>(&mut self, rt: &R) -> Option<u64> {
        self.count = self.count.saturating_add(1);
        if !self.is_due(rt) {
            return None;
        }
        self.told_at = Instant::now(rt).ok();
        Some(mem::replace(&mut self.count, 0))
    }

    // Whether it was not told within the last minute. If the clock fails it is told.
    fn is_due<R: Clock>(&self, rt: &R) -> bool {
        let Some(told_at) = &self.told_at else {
            return true;
        };
        match told_at.elapsed(rt) {
            Ok(past) => past.as_secs() >= NOTICE_SECONDS,
            Err(_) => true,
        }
    }
}

/// Who hands connections to loops by their doors, one loop after the other. Each loop serves so many at a time.
#[derive(Drop)]
pub(crate) struct Porter<'a, R: Wait + Log + Clock> {
    rt: &'a R,
    doors: Vec<Door>,
    each: u32,
    next: usize,
    closed: Notice,
    failed: Notice,
}

impl<'a, R: Wait + Log + Clock> Porter<'a, R> {
    pub(crate) fn new(rt: &'a R, doors: Vec<Door>, each: u32) -> Self {
        Porter {
            rt,
            doors,
            each,
            next: 0,
            closed: Notice::new(),
            failed: Notice::new(),
        }
    }

    /// Waits for a connection, and hands it on; whether it was. If no loop has room it is closed, and if accepting
    /// fails there is none.
    pub(crate) fn admit(&mut self, listener: &TcpListener) -> bool {
        match listener.accept() {
            Ok((stream, _)) => self.hand_on(stream),
            Err(error) => {
                if !is_of_one_connection(error.kind()) {
                    if let Some(times) = self.failed.count(self.rt) {
                        warn!(self.rt; "accepting a connection failed {times} times: {error}");
                    }
                    thread::sleep(self.rt, Duration::from_millis(RETRY_MILLIS));
                }
                false
            }
        }
    }

    // Hands a connection to the next loop that has room. If none has, it is closed and counted.
    fn hand_on(&mut self, stream: TcpStream) -> bool {
        match self.handed(stream) {
            Ok(()) => true,
            Err(stream) => {
                drop(stream);
                if let Some(closed) = self.closed.count(self.rt) {
                    self.tell_closed(closed);
                }
                false
            }
        }
    }

    // Hands a connection to the next loop that has room. It comes back if none has.
    fn handed(&mut self, stream: TcpStream) -> Result<(), TcpStream>
        ensures { IfErr result (λ back. back ≡ stream) }
    {
        let mut stream = stream;
        for _ in 0..self.doors.len() {
            if self.next >= self.doors.len() {
                self.next = 0;
            }
            let Some(door) = self.doors.get_mut(self.next) else {
                return Err(stream);
            };
            self.next = self.next.saturating_add(1);
            match door.hand_over(self.rt, stream) {
                Ok(()) => return Ok(()),
                Err(back) => stream = back,
            }
        }
        Err(stream)
    }

    // Says how many connections were closed since this was last said.
    fn tell_closed(&self, closed: u64) {
        let (workers, each) = (self.doors.len(), self.each);
        let limit = workers.saturating_mul(each as usize);
        warn!(self.rt; "{closed} closed past the limit of {limit} connections: {workers} times {each}");
    }
}
