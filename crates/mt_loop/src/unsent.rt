//! What is told and not yet sent.

ghost use Rattle.std.specs.{Prelude.{◌≡◌, ◌↔◌, [], ◌++◌, List, ℕ}, Io.KnownBytes.Appends};
ghost use Rattle.mt_streams.specs.Failures.{Failed, NoFewer};

use bytes::BytesMut;
use mt_streams::Sink;
use std::alloc::Global;
use std::io::{self, ErrorKind};

/// Bytes that are told, and that the client has not taken yet. It takes a text whole, as long as memory
/// suffices.
#[derive(Drop)]
pub struct Unsent {
    pub(crate) bytes: BytesMut,
}

impl Sink for Unsent {
    ghost use Rattle.std.specs.Prelude.{None, Some};

    ghost contents = { λ u. Some u.bytes.items };

    ghost failures = { λ _. None };

    fn send(&mut self, text: &[u8]) -> io::Result<usize> {
        match self.bytes.extend_from_slice(text) {
            Ok(()) => Ok(text.len()),
            Err(_) => Err(io::Error::from(ErrorKind::OutOfMemory)),
        }
    }
}

/// How much was sent.
#[derive(Clone, Copy)]
pub(crate) enum Sent {
    /// All of it.
    All,
    /// A part, and the writer takes no more now.
    Part,
    /// A part, and the writer has failed, or was interrupted 2^64 - 1 times.
    Failed,
}

impl Unsent {
    /// Sends what the writer takes.
    pub(crate) fn send_to<W: Sink>(&mut self, writer: &mut W) -> Sent
        ensures sent { (sent : List ℕ) × Appends (W.contents writer.old) (W.contents writer.new) sent × (self.old.bytes.items ≡ sent ++ self.new.bytes.items) }
        ensures all { (result ≡ Sent.All) ↔ (self.new.bytes.items ≡ []) }
        ensures part { result ≡ Sent.Part → Failed (W.failures writer.old) (W.failures writer.new) }
        ensures failures { NoFewer (W.failures writer.old) (W.failures writer.new) }
    {
        for _ in 0..u64::MAX {
            if self.bytes.is_empty() {
                return Sent::All;
            }
            match writer.send(self.bytes.as_slice()) {
                Ok(count) => self.bytes.advance(count),
                Err(error) => match error.kind() {
                    ErrorKind::Interrupted => {}
                    ErrorKind::WouldBlock => return Sent::Part,
                    _ => return Sent::Failed,
                },
            }
        }
        if self.bytes.is_empty() {
            return Sent::All;
        }
        Sent::Failed
    }
}
