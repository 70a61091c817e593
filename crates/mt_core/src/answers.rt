//! What a state answers to a begin.

ghost use Rattle.std.specs.Prelude.{◌≡◌};

/// An operation that was begun. It is no value that could be copied: whoever has it may step the
/// operation, and gives it back to take the answer.
#[derive(Debug, Drop)]
pub struct Ticket {
    pub(crate) id: usize,
}

impl Ticket {
    /// The id by which `Move::Again` names the operation. It is given again to a later operation
    /// once this one's answer was taken.
    pub fn id(&self) -> u64
        ensures { result ≡ self.now.id }
    {
        self.id as u64
    }
}
