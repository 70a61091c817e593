//! One of two slots.

ghost use Rattle.std.specs.Prelude.{◌≡◌, ◌≤◌, IfSome, IfNone};
ghost use Rattle.mt_slots.specs.Places.{other_of, number_of, next_slot};

/// A slot of a store.
#[derive(Clone, Copy, Debug, PartialEq, Eq)]
pub enum Slot {
    First,
    Second,
}

impl Slot {
    /// The slot with this number: 0 is the first one's, 1 the second's.
    pub fn numbered(number: u8) -> Option<Slot>
        ensures some { IfSome result (λ slot. number_of slot ≡ number) }
        ensures none { IfNone result (2 ≤ number) }
    {
        match number {
            0 => Some(Slot::First),
            1 => Some(Slot::Second),
            _ => None,
        }
    }

    /// The other slot.
    pub fn other(self) -> Slot
        ensures { result ≡ other_of self }
    {
        match self {
            Slot::First => Slot::Second,
            Slot::Second => Slot::First,
        }
    }
}

/// The slot for the next checkpoint, if this one has the newest: the other slot, and the first if none has.
pub(crate) fn slot_after(newest: Option<Slot>) -> Slot
    ensures { result ≡ next_slot newest }
{
    newest.map_or(Slot::First, Slot::other)
}
