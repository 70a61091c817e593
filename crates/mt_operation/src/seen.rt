//! The pairs that a scan has seen in one border node.
//!
//! Their keys stand in one row of bytes, which is kept from node to node: so a pair allocates nothing of
//! its own. They are seen as a list, each as its user's key and its row.

ghost use Rattle.std.specs.Prelude.{◌≡◌, ◌<◌, ◌++◌, ◌∷◌, [], length, slice_get, Some, OnOk, OnErr};

use mt_rows::StampedRow;
use std::alloc::{AllocError, Global};
use std::marker::Model;

/// One of them: where its key stands among the bytes, and its row with its stamp.
#[derive(Drop)]
pub struct SeenPair {
    pub key_start: usize,
    pub key_length: usize,
    pub row: StampedRow,
}

/// Pairs in the order in which they were seen.
#[derive(Drop)]
pub struct Seen {
    bytes: Vec<u8>,
    pairs: Vec<SeenPair>,
}

impl Model for Seen {
    ghost use Rattle.std.specs.Prelude.{List, ℕ};
    ghost use Rattle.mt_rows.specs.Stamps.{Stamped};
    ghost use Rattle.mt_operation.specs.Scans.{pairs_in, HasKeys};

    ghost Value = { List (List ℕ × Stamped) };

    ghost view = { λ s. pairs_in s.bytes.items s.pairs.items };

    ghost invariant = { λ s. HasKeys s.bytes.items s.pairs.items };
}

impl Seen {
    /// None.
    pub fn new(alloc: Global) -> Self
        ensures { result ≡ [] }
    {
        Seen {
            bytes: Vec::new(alloc),
            pairs: Vec::new(alloc),
        }
    }

    /// How many there are.
    pub fn len(&self) -> usize
        ensures { result ≡ length self.now }
    {
        self.pairs.len()
    }

    /// One of them: its key and its row.
    pub fn pair(&self, place: usize) -> (&[u8], &StampedRow)
        requires { place < length self.now }
        ensures { slice_get self.now place ≡ Some (result.0.now, result.1.now) }
    {
        let pair = &self.pairs[place];
        let key = &self.bytes[pair.key_start..pair.key_start + pair.key_length];
        (key, &pair.row)
    }

    /// Forgets them all, and keeps their memory.
    pub fn clear(&mut self)
        ensures { self.new ≡ [] }
    {
        self.pairs.clear();
        self.bytes.clear();
    }

    /// One more, whose key has these three parts. An error comes where memory is refused.
    #[tactic(auto, using(crate::proofs::Seeing::stays, crate::proofs::Seeing::one_more))]
    pub fn push(
        &mut self,
        front: &[u8],
        middle: &[u8],
        back: &[u8],
        row: StampedRow,
    ) -> Result<(), AllocError>
        ensures one_more { OnOk result (self.new ≡ self.old ++ (front.now ++ middle.now ++ back.now, row) ∷ []) }
        ensures unchanged_on_err { OnErr result (self.new ≡ self.old) }
    {
        let key_start = self.bytes.len();
        self.bytes.extend_from_slice(front)?;
        self.bytes.extend_from_slice(middle)?;
        self.bytes.extend_from_slice(back)?;
        let key_length = self.bytes.len() - key_start;
        self.pairs.push(SeenPair {
            key_start,
            key_length,
            row,
        })?;
        Ok(())
    }
}
