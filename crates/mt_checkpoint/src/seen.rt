//! What a writer knows of the pairs that it was given, so that only a walk is ended.

ghost use Rattle.std.specs.{Prelude.{◌≡◌, ◌↔◌, ◌≤◌, ◌++◌, ℕ, [], List, IsTrue, IfOk}, List.AllByRecursion};
ghost use Rattle.mt_rows.specs.{TenantPairs.AreStampedUpto, declared.record.TenantPair.TenantPair};
ghost use Rattle.mt_checkpoint.specs.{Checkpoints.{IsPair, Rise}, Seen.{Follows, HasSeen}};

use crate::checkpoint::{greatest_stamp, is_before, rise};
use mt_rows::{Key, TenantPair};
use std::alloc::{AllocError, Global};

/// The tenant and the key of the last pair so far, and the greatest stamp.
#[derive(Drop)]
pub struct SeenPairs {
    last: Option<(u32, Key)>,
    greatest: u64,
}

impl SeenPairs {
    /// No pair.
    pub fn new() -> SeenPairs
        ensures { HasSeen [] result }
    {
        SeenPairs {
            last: None,
            greatest: 0,
        }
    }

    /// No stamp is greater.
    pub fn greatest(&self) -> u64
        ensures { result ≡ self.now.greatest }
    {
        self.greatest
    }

    /// Takes pairs after those before. False if they don't all rise by tenant and key, and then nothing is taken. An
    /// error takes nothing.
    pub fn take(&mut self, alloc: Global, pairs: &[TenantPair]) -> Result<bool, AllocError>
        requires { AllByRecursion IsPair pairs.now }
        ensures { IfOk result (λ taken. (before : List TenantPair) → HasSeen before self.old
            → (IsTrue taken ↔ Rise (before ++ pairs.now)) × (IsTrue taken → HasSeen (before ++ pairs.now) self.new)) }
    {
        if pairs.is_empty() {
            return Ok(true);
        }
        if !self.rises_to(&pairs[0]) || !rise(pairs) {
            return Ok(false);
        }
        let last = &pairs[pairs.len() - 1];
        let mut key = Key::new(Vec::new(alloc));
        key.copy_from(&last.key)?;
        self.last = Some((last.tenant, key));
        self.greatest = greatest_stamp(self.greatest, pairs);
        Ok(true)
    }

    // Whether a pair is of a later tenant than the last one, or of a later key of the same tenant.
    fn rises_to(&self, pair: &TenantPair) -> bool
        ensures { IsTrue result ↔ Follows self.now.last pair.now }
    {
        match &self.last {
            Some((tenant, key)) => is_before(*tenant, key, pair),
            None => true,
        }
    }
}
