//! What a state gave up, for whoever frees it.

ghost use Rattle.std.specs.Prelude.{◌≡◌, ◌≤◌, [], None, IfOk, vec_capacity};

use mt_operation::Operation;
use mt_tape::Entry;
use std::alloc::{AllocError, Global};
use std::boxed::Box;

/// What takes and tidyings gave up of a state, so that it is freed once nobody waits for the state:
/// writes of the tape, as far as there is room for them, and the operation that was taken last, in the
/// box in which it was begun: all of it but its command and its outcome, which are its answer's. What
/// has no room stays with the state.
#[derive(Drop)]
pub struct Displaced {
    pub writes: Vec<Entry>,
    pub rest: Option<Box<Operation>>,
}

impl Displaced {
    /// Nothing yet, with room for so many writes. An error comes where memory is refused.
    pub fn with_room(alloc: Global, writes: usize) -> Result<Self, AllocError>
        ensures nothing { IfOk result (λ d. (d.writes.items ≡ []) × (d.rest ≡ None)) }
        ensures room { IfOk result (λ d. writes ≤ vec_capacity d.writes) }
    {
        let writes = Vec::with_capacity(alloc, writes)?;
        Ok(Displaced { writes, rest: None })
    }

    /// Nothing yet, with room for no write.
    pub fn new(alloc: Global) -> Self
        ensures { (result.writes.items ≡ []) × (result.rest ≡ None) }
    {
        Displaced {
            writes: Vec::new(alloc),
            rest: None,
        }
    }

    /// Frees all of it, and keeps the room.
    pub fn clear(&mut self)
        ensures nothing { (self.new.writes.items ≡ []) × (self.new.rest ≡ None) }
        ensures room { vec_capacity self.new.writes ≡ vec_capacity self.old.writes }
    {
        self.writes.clear();
        self.rest = None;
    }
}
