//! Readers that cut, writers that take little, and both as they fail and are interrupted.
//! A client that sends a request only when it has the reply to the one before it.

use super::*;
use std::io::{Read, Write};

/// A number that no session reaches.
pub const ALL: usize = 1_000_000;

/// The calls of a stream: it fails once it has made `good` of them. If it is interrupted, each call that goes well comes after one
/// that answers `Interrupted`.
#[derive(Clone, Copy)]
pub struct Calls {
    pub good: usize,
    pub is_interrupted: bool,
    comes: bool,
}

impl Calls {
    fn new(good: usize) -> Self {
        Calls {
            good,
            is_interrupted: false,
            comes: false,
        }
    }

    fn make(&mut self) -> io::Result<()> {
        self.comes = self.is_interrupted && !self.comes;
        if self.comes {
            return Err(io::Error::from(ErrorKind::Interrupted));
        }
        if self.good == 0 {
            return Err(io::Error::from(ErrorKind::ConnectionReset));
        }
        self.good -= 1;
        Ok(())
    }
}

/// A reader that gives at most `first` bytes in its first read, and at most `later` in each one behind it.
#[derive(Drop)]
pub struct Pieces<'a> {
    rest: &'a [u8],
    first: usize,
    later: usize,
    pub calls: Calls,
}

impl Read for Pieces<'_> {
    ghost use Rattle.std.specs.Prelude.{Some};

    ghost remaining = { λ p. Some p.rest.now };

    fn read(&mut self, room: &mut [u8]) -> io::Result<usize> {
        self.calls.make()?;
        let most = self.first.max(1).min(room.len());
        self.first = self.later;
        let count = most.min(self.rest.len());
        let (front, rest) = self.rest.split_at(count);
        room[..count].copy_from_slice(front);
        self.rest = rest;
        Ok(count)
    }
}

/// A writer that takes at most `most` bytes in a write.
#[derive(Drop)]
pub struct Written {
    /// What was written.
    pub text: Vec<u8>,
    most: usize,
    pub calls: Calls,
}

impl Write for Written {
    ghost use Rattle.std.specs.Prelude.{Some};

    ghost contents = { λ w. Some w.text.items };

    fn write(&mut self, text: &[u8]) -> io::Result<usize> {
        self.calls.make()?;
        let count = self.most.max(1).min(text.len());
        match self.text.extend_from_slice(&text[..count]) {
            Ok(()) => Ok(count),
            Err(_) => Err(io::Error::from(ErrorKind::OutOfMemory)),
        }
    }

    fn flush(&mut self) -> io::Result<()> {
        Ok(())
    }
}

/// Streams for what is asked: the first read gives at most `first` bytes, each later one and each write at
/// most `size`, and so many reads and writes go well.
pub fn streams(
    alloc: Global,
    asked: &[u8],
    [first, size, reads, writes]: [usize; 4],
) -> (Pieces<'_>, Written) {
    let reader = Pieces {
        rest: asked,
        first,
        later: size,
        calls: Calls::new(reads),
    };
    let writer = Written {
        text: Vec::new(alloc),
        most: size,
        calls: Calls::new(writes),
    };
    (reader, writer)
}

/// A reader that gives a frame only once the reply to the one before it is written whole, and its end only
/// behind the last reply. Asked before that it fails, where a client would wait without end.
#[derive(Drop)]
pub struct Waiting<'a> {
    // what is asked, and is not yet given
    rest: &'a [u8],
    // the replies to that
    replies: &'a [u8],
    // how many bytes are left of the frame that is being given
    left: usize,
    // how many bytes have to be written before the next one
    due: usize,
    // at most so many bytes in a read
    most: usize,
    written: &'a Cell<usize>,
}

impl<'a> Waiting<'a> {
    /// A reader of frames, of which each has one of these replies, beside a writer that counts.
    pub fn new(asked: &'a [u8], replies: &'a [u8], most: usize, written: &'a Cell<usize>) -> Self {
        Waiting {
            rest: asked,
            replies,
            left: 0,
            due: 0,
            most,
            written,
        }
    }

    // Goes on to the next frame; its reply is due then.
    fn next_frame(&mut self) {
        self.left = front_len(self.rest);
        let reply = front_len(self.replies);
        self.replies = &self.replies[reply..];
        self.due = self.due.saturating_add(reply);
    }
}

impl Read for Waiting<'_> {
    ghost use Rattle.std.specs.Prelude.{None};

    ghost remaining = { λ _. None };

    fn read(&mut self, room: &mut [u8]) -> io::Result<usize> {
        if self.left == 0 {
            if self.written.get() < self.due {
                return Err(io::Error::from(ErrorKind::TimedOut));
            }
            self.next_frame();
        }
        let most = self.most.max(1).min(room.len());
        let count = most.min(self.left).min(self.rest.len());
        let (front, rest) = self.rest.split_at(count);
        room[..count].copy_from_slice(front);
        self.rest = rest;
        self.left -= count;
        Ok(count)
    }
}

/// A writer whose bytes are counted.
#[derive(Drop)]
pub struct Counted<'a, W> {
    /// What is written to.
    pub stream: W,
    /// How many bytes were written.
    pub count: &'a Cell<usize>,
}

impl<W: Write> Write for Counted<'_, W> {
    ghost contents = { λ c. W.contents c.stream };

    fn write(&mut self, text: &[u8]) -> io::Result<usize> {
        let count = self.stream.write(text)?;
        self.count.set(self.count.get().saturating_add(count));
        Ok(count)
    }

    fn flush(&mut self) -> io::Result<()> {
        self.stream.flush()
    }
}
