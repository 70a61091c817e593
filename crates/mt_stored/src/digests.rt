//! Who keeps digests beside a store's files: of the logs of a generation, and of a slot.

ghost use Rattle.mt_stored.specs.Digests.{DigestCall, ClearsLogs, KeepsLogs, ClearsSlot, KeepsSlot};

use mt_rows::Refusal;
use mt_slots::{FileDigest, Slot};

/// The digests of a store's files. A digest stands beside a file only while that stays as it is: it is cleared before its
/// file is written. `does` is what they say of a call, and may say nothing.
pub trait Digests {
    /// What a call made of them.
    ghost does: { Self → DigestCall → Self → Type 0 };

    /// No file in which a log of this generation stands or will stand has a digest then, of so many workers.
    fn clear_logs(&mut self, logs: u8, generation: u64) -> Result<(), Refusal>
        ensures { does self.old (ClearsLogs logs generation result) self.new };

    /// The logs of this generation, which are closed, have their digests then.
    fn keep_logs(&mut self, logs: u8, generation: u64) -> Result<(), Refusal>
        ensures { does self.old (KeepsLogs logs generation result) self.new };

    /// This slot has no digest then.
    fn clear_slot(&mut self, slot: Slot) -> Result<(), Refusal>
        ensures { does self.old (ClearsSlot slot result) self.new };

    /// This slot has this digest then.
    fn keep_slot(&mut self, slot: Slot, digest: FileDigest) -> Result<(), Refusal>
        ensures { does self.old (KeepsSlot slot digest result) self.new };
}

/// Of which files a digest was to be cleared or kept.
#[derive(Clone, Copy, Debug, PartialEq, Eq)]
pub enum Digested {
    /// The logs of this generation.
    OfLogs(u64),
    /// This slot.
    OfSlot(Slot),
}

/// Digests that nobody keeps.
#[derive(Drop)]
pub struct NoDigests {}

impl Digests for NoDigests {
    ghost does = { λ old call new. Unit {0} };

    fn clear_logs(&mut self, _logs: u8, _generation: u64) -> Result<(), Refusal> {
        Ok(())
    }

    fn keep_logs(&mut self, _logs: u8, _generation: u64) -> Result<(), Refusal> {
        Ok(())
    }

    fn clear_slot(&mut self, _slot: Slot) -> Result<(), Refusal> {
        Ok(())
    }

    fn keep_slot(&mut self, _slot: Slot, _digest: FileDigest) -> Result<(), Refusal> {
        Ok(())
    }
}
