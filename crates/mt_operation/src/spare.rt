//! Memory that an operation is given before it is begun.
//!
//! What an operation makes under a lock makes everybody wait, and to take memory there costs more than to
//! write it. So whoever begins a change gives it room for what it writes on the tape. Nothing of it shows:
//! who finds none left takes memory where it stands.

ghost use Rattle.std.specs.Prelude.{◌≡◌, IfOk};

use mt_rows::{Key, RowRoom};
use std::alloc::{AllocError, Global};
use std::cell::Cell;

// How many bytes a put leaves to commands that need less. Once the C library can't make its own room larger,
// each piece of memory takes a page of the system. These are 256 pages.
const BYTES_LEFT: usize = 1_048_576;

// How many puts in the memory of one another begin after one look for these bytes. To take so large a piece
// makes the C library join its free ones.
const PUTS_A_LOOK: u8 = 16;

/// Room for one more copy of an operation's key, until it is used, and for a row.
#[derive(Drop)]
pub struct Spare {
    key: Cell<Option<Key>>,
    row: RowRoom,
    // How many puts more may begin before the next look for the bytes that they leave.
    unlooked: u8,
}

impl Spare {
    /// No room: for an operation that changes nothing.
    pub fn none() -> Self {
        Spare {
            key: Cell::new(None),
            row: RowRoom::none(),
            unlooked: 0,
        }
    }

    /// Leaves 1 MB to commands that need less: the first put in an operation's memory, and each sixteenth after
    /// it, begins only if so much can be had for a moment. An error comes where it can't; the next put looks
    /// again then.
    pub fn leave_bytes(&mut self, alloc: Global) -> Result<(), AllocError> {
        if self.unlooked == 0 {
            let _ = bytes_left(alloc)?;
            self.unlooked = PUTS_A_LOOK;
        }
        self.unlooked -= 1;
        Ok(())
    }

    /// Makes room for a key of so many bytes, if the key that was kept has fewer. An error comes where memory
    /// is refused.
    pub fn make_key_room(&mut self, alloc: Global, bytes: usize) -> Result<(), AllocError> {
        let room = match self.key.take() {
            Some(kept) if kept.as_bytes().len() >= bytes => kept,
            _ => Key::new(Vec::with_capacity(alloc, bytes)?),
        };
        self.key.set(Some(room));
        Ok(())
    }

    /// Keeps the memory of a key that nobody needs any more.
    pub fn keep_key(&mut self, key: Key) {
        self.key.set(Some(key));
    }

    /// Makes room for a row of several columns. An error comes where memory is refused.
    pub fn make_row_room(&mut self, alloc: Global) -> Result<(), AllocError> {
        self.row = RowRoom::new(alloc)?;
        Ok(())
    }

    /// The room for a row.
    pub fn row(&self) -> &RowRoom {
        &self.row
    }

    /// The same key once more, in the room for it, if that is left. An error comes where it isn't, or is too
    /// small, and memory is refused.
    pub fn copied(&self, key: &Key) -> Result<Key, AllocError>
        ensures { IfOk result (λ copy. copy ≡ key.now) }
    {
        match self.key.take() {
            Some(mut room) => {
                room.copy_from(key)?;
                Ok(room)
            }
            None => key.clone(),
        }
    }
}

// So many bytes, for a moment. Inlined they would be left out, since nothing is written to them.
#[inline(never)]
fn bytes_left(alloc: Global) -> Result<Vec<u8>, AllocError> {
    Vec::with_capacity(alloc, BYTES_LEFT)
}
