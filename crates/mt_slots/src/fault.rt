//! A call on a slot failed.

use crate::slot::Slot;
use mt_checkpoint::FaultCause;

/// A call on a slot failed.
#[derive(Clone, Copy, Debug, PartialEq, Eq)]
pub struct SlotFault {
    pub slot: Slot,
    pub cause: FaultCause,
}
