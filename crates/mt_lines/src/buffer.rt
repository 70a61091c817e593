//! The line that is being read.
//!
//! It keeps as much of a line as decides what the line is: of one that is too long the front alone,
//! so its memory is bounded whatever is read. Units: bytes.

ghost use Rattle.std.specs.{Prelude.{◌≡◌, [], OnOk, OnErr}, Option.option_map};
ghost use Rattle.mt_lines.specs.{Lines.{front_of, with_byte, without_return, whole_line}, Scripts.is_silent};

use std::alloc::{AllocError, Global};
use std::marker::Model;

/// The longest line, without its end.
pub const MAX_LINE: usize = 65_536;

/// The front of a line: at most one byte more than the longest line has.
#[derive(Drop)]
pub struct LineBuffer {
    bytes: Vec<u8>,
    /// Whether bytes were left out.
    is_cut: bool,
}

impl Model for LineBuffer {
    ghost use Rattle.std.specs.Prelude.{◌≤◌, length};
    ghost use Rattle.mt_lines.specs.Lines.{Front};

    ghost Value = { Front };

    ghost view = { λ b. record { bytes = b.bytes.items; cut = b.is_cut } };

    ghost invariant = { λ b. length b.bytes.items ≤ 65537 };
}

impl LineBuffer {
    /// No bytes.
    pub fn new(alloc: Global) -> LineBuffer
        ensures { result ≡ front_of [] }
    {
        LineBuffer {
            bytes: Vec::new(alloc),
            is_cut: false,
        }
    }

    /// Adds a byte to the line.
    pub fn push(&mut self, byte: u8) -> Result<(), AllocError>
        ensures added { OnOk result (self.new ≡ with_byte self.old byte) }
        ensures unchanged_on_err { OnErr result (self.new ≡ self.old) }
    {
        if self.bytes.len() > MAX_LINE {
            self.is_cut = true;
            return Ok(());
        }
        self.bytes.push(byte)?;
        Ok(())
    }

    /// Takes away a carriage return at the end, where the line ended in a line feed.
    pub fn drop_return(&mut self)
        ensures { self.new ≡ without_return self.old }
    {
        if !self.is_cut && self.bytes.ends_with(b"\r") {
            self.bytes.pop();
        }
    }

    /// The line, or none where it is too long.
    pub fn line(&self) -> Option<&[u8]>
        ensures { option_map (λ bytes. bytes.now) result ≡ whole_line self.now }
    {
        if self.is_cut || self.bytes.len() > MAX_LINE {
            return None;
        }
        Some(&self.bytes)
    }

    /// Whether the line has no answer: it is empty, or a comment.
    pub fn is_silent(&self) -> bool
        ensures { result ≡ is_silent self.now.bytes }
    {
        match self.bytes.as_slice() {
            [first, ..] => *first == b'#',
            [] => true,
        }
    }

    /// Goes on to the next line.
    pub fn clear(&mut self)
        ensures { self.new ≡ front_of [] }
    {
        self.bytes.clear();
        self.is_cut = false;
    }
}
