//! The record of a tree: its keys' first bytes, its root, and whether it counts.

ghost use Rattle.std.specs.Prelude.{◌≡◌};

use std::marker::Model;

/// The bytes with which all keys of a tree begin: eight for each layer above it.
#[derive(Debug, Drop)]
pub struct Prefix {
    bytes: Vec<u8>,
}

impl Model for Prefix {
    ghost use Rattle.std.specs.Prelude.{List, ℕ};

    ghost Value = { List ℕ };

    ghost view = { λ p. p.bytes.items };
}

impl Prefix {
    pub fn new(bytes: Vec<u8>) -> Self
        ensures { result ≡ bytes.items }
    {
        Prefix { bytes }
    }

    pub fn as_bytes(&self) -> &[u8]
        ensures { result.now ≡ self.now }
    {
        &self.bytes
    }
}

/// Whether a tree's pairs are in the contents.
#[derive(Clone, Copy, PartialEq, Eq, Debug)]
pub enum Standing {
    /// This operation is making the tree: no link leads to it, and its pairs do not count yet.
    Made { by: usize },
    /// Its pairs are in the contents; every such tree but the top one has a link.
    Live,
    /// It has no node left, and its link is gone.
    Dead,
}

/// A tree of one layer.
#[derive(Debug, Drop)]
pub struct Tree {
    pub prefix: Prefix,
    pub root: usize,
    pub standing: Standing,
}
