//! Readers and writers, which may tell which bytes they gave and took, and how often they failed.
//!
//! Any `Read` is a `Source` and any `Write` a `Sink`, which doesn't tell its failures. A type that is to
//! tell them is a `Source` or a `Sink` itself, and no `Read` or `Write`.

ghost use Rattle.std.specs.{Prelude.{ℕ, ◌<◌, List, Option, length, IfOk, OnErr}, Io.{ReadsAtMost, WritesAtMost}, Io.KnownBytes.{ReadConsumes, WriteAppends}};
ghost use Rattle.mt_streams.specs.Failures.{Failed, NoFewer};

use std::io::{self, ErrorKind, Read, Write};

/// What is read from.
pub trait Source {
    /// The bytes that are left, where it tells.
    ghost remaining: { Self → Option (List ℕ) };

    /// How often it has failed, where it tells.
    ghost failures: { Self → Option ℕ };

    /// One read.
    fn receive(&mut self, room: &mut [u8]) -> io::Result<usize>
        ensures bound { ReadsAtMost result room.new }
        ensures bytes { ReadConsumes (remaining self.old) (remaining self.new) result room.new }
        ensures failures { NoFewer (failures self.old) (failures self.new) }
        ensures cause { OnErr result (Failed (failures self.old) (failures self.new)) };
}

/// What is written to.
pub trait Sink {
    /// The bytes that it holds, where it tells.
    ghost contents: { Self → Option (List ℕ) };

    /// How often it has failed, where it tells.
    ghost failures: { Self → Option ℕ };

    /// One write, of a byte at least where there is one.
    fn send(&mut self, text: &[u8]) -> io::Result<usize>
        ensures bound { WritesAtMost result text.now }
        ensures some { IfOk result (λ n. 0 < length text.now → 0 < n) }
        ensures bytes { WriteAppends (contents self.old) (contents self.new) result text.now }
        ensures failures { NoFewer (failures self.old) (failures self.new) }
        ensures cause { OnErr result (Failed (failures self.old) (failures self.new)) };
}

// Any reader: it doesn't tell how often it failed.
impl<R: Read> Source for R {
    ghost use Rattle.std.specs.Prelude.{None};

    ghost remaining = { λ r. R.remaining r };

    ghost failures = { λ _. None };

    fn receive(&mut self, room: &mut [u8]) -> io::Result<usize> {
        self.read(room)
    }
}

// Any writer: it doesn't tell how often it failed. One that takes nothing has failed.
impl<W: Write> Sink for W {
    ghost use Rattle.std.specs.Prelude.{None};

    ghost contents = { λ w. W.contents w };

    ghost failures = { λ _. None };

    fn send(&mut self, text: &[u8]) -> io::Result<usize> {
        match self.write(text) {
            Ok(0) if !text.is_empty() => Err(io::Error::from(ErrorKind::WriteZero)),
            Ok(count) => Ok(count),
            Err(error) => Err(error),
        }
    }
}
