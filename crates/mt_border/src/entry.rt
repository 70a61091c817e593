//! What stands in one slot of a border node.
//!
//! An entry is plain data, made by whoever fills a slot; what it has to keep, `IsEntry`, is asked
//! for where it enters a node. It owns its pair's block and its suffix, which lie on the heap, and a
//! share of its row.

ghost use Rattle.std.specs.{Prelude.{◌≡◌, ℕ, IfOk}, Option.option_map};
ghost use Rattle.mt_border.specs.Restamps.{new_stamp};

use crate::suffix::Suffix;
use mt_rows::Row;
use mt_slices::Mark;
use std::alloc::{AllocError, Global};
use std::collections::BTreeMap;
use std::marker::Model;
use std::mem;
use std::mem::size_of;

/// A key's suffix and its row, with the number of the step that placed the row, in a block of their own.
#[derive(Debug, Drop)]
pub struct Pair {
    parts: Box<PairParts>,
}

impl Model for Pair {
    ghost use Rattle.mt_border.specs.Held.{Pair};

    ghost Value = { Pair };

    ghost use Rattle.mt_border.specs.HeldParts.{pair_in_parts};

    ghost view = { λ p. pair_in_parts p.parts.value };
}

/// What a pair has. Where the pair is on its way to a tree of its own, that tree's number stands
/// beside it, once it is written; else what stands there means nothing.
#[derive(Debug, Drop)]
pub struct PairParts {
    pub stamp: u64,
    pub row: Row,
    pub suffix: Suffix,
    pub tree: Option<usize>,
}

// A block of 72 bytes is the largest that a common allocator serves from its class of 80.
const _: () = prove!(size_of::<PairParts>() == 72);

impl Pair {
    ghost use Rattle.mt_border.specs.HeldParts.{pair_in_parts};

    /// A pair takes memory for its block. Without it what was handed in is gone.
    pub fn new(alloc: Global, suffix: Suffix, row: Row, stamp: u64) -> Result<Pair, AllocError>
        ensures { IfOk result (λ pair. pair ≡ record { suffix = suffix; row = row; stamp = stamp }) }
    {
        let tree = None;
        let parts = Box::new(
            alloc,
            PairParts {
                stamp,
                row,
                suffix,
                tree,
            },
        )?;
        Ok(Pair { parts })
    }

    /// What it has.
    pub fn parts(&self) -> &PairParts
        ensures { pair_in_parts result.now ≡ self.now }
    {
        &self.parts
    }

    /// Its row. The block and the suffix are gone.
    pub fn into_row(self) -> Row
        ensures { result ≡ self.row }
    {
        Box::into_inner(self.parts).row
    }

    /// Writes another stamp.
    pub fn set_stamp(&mut self, stamp: u64)
        ensures { self.new ≡ record self.old { stamp = stamp } }
    {
        self.parts.stamp = stamp;
    }
}

/// What an entry holds: a pair, a pair that is on its way to a tree of its own, or the number of the
/// tree that holds all longer keys of the slice.
// A pair is in a block of its own, so that a slot is small. A tree's number lies in that block too.
#[derive(Debug, Drop)]
pub struct Held {
    kind: Kind,
}

#[derive(Debug, Drop)]
enum Kind {
    Stable(Box<PairParts>),
    Unstable(Box<PairParts>),
    Link(usize),
}

impl Model for Held {
    ghost use Rattle.mt_border.specs.Held.{Held};

    ghost Value = { Held };

    ghost use Rattle.mt_border.specs.HeldParts.{held_in_kind};

    ghost view = { λ h. held_in_kind h.kind };
}

/// What an entry holds, to be read.
#[derive(Clone, Copy, Debug)]
pub enum HeldRef<'a> {
    /// A pair.
    Stable(&'a PairParts),

    /// A pair that is on its way to a tree of its own. Until the entry is a link, it counts as its pair.
    Unstable(&'a PairParts),

    /// The number of the tree that holds all longer keys of the slice.
    Link(usize),
}

/// A slice, the mark that tells how many of its bytes are a key's own, and what is held at them.
#[derive(Debug, Drop)]
pub struct Entry {
    pub slice: u64,
    pub mark: Mark,
    pub held: Held,
}

/// An entry where it stands in a node.
#[derive(Clone, Copy, Debug)]
pub struct EntryRef<'a> {
    pub slice: u64,
    pub mark: Mark,
    pub held: &'a Held,
}

/// What the slot with a key's slice and mark holds of that key.
#[derive(Clone, Copy, Debug, PartialEq, Eq)]
pub enum FoundKind {
    /// The key itself.
    ThisKey,

    /// Another key, which shares the slice and goes on otherwise.
    OtherLong,

    /// A link to the tree in which the key belongs.
    Link,
}

/// Where a key stands in a node.
#[derive(Clone, Copy, Debug, PartialEq, Eq)]
pub enum Find {
    /// No slot has the key's slice and mark.
    Missing,

    /// The slot that has them, and what it holds of the key.
    Slot(usize, FoundKind),
}

impl<'a> EntryRef<'a> {
    ghost use Rattle.mt_border.specs.{Entry.{IsKind, IsEntry, IsRest}, Rows.entry_seen};

    /// What the entry holds of the key that has its slice and mark, and this suffix. Where a key ends in
    /// its slice, that is the key itself, and what is held is not read.
    #[inline(always)]
    pub(crate) fn kind(self, suffix: &[u8]) -> FoundKind
        requires entry { IsEntry (entry_seen self) }
        requires rest { IsRest self.mark suffix.now }
        ensures { IsKind (entry_seen self.entry) suffix.now result }
    {
        match self.mark {
            Mark::Short(_) => FoundKind::ThisKey,
            Mark::Long => self.held.kind(suffix),
        }
    }
}

impl Held {
    ghost use Rattle.mt_border.specs.{Restamps.{stamped, with_stamps}, Held.{Pair, Stable, Unstable, Link}, HeldParts.{pair_in_parts, held_seen}, declared.entry.Entry.Entry};
    ghost use Rattle.mt_border.specs.Entry.{CanHold, IsKind, IsStablePair, IsUnlinked, IsLinked, pair_of};
    ghost use Rattle.mt_slices.specs.declared.mark.Mark.{Mark};

    /// It holds a pair.
    pub fn stable(pair: Pair) -> Held
        ensures { result ≡ Stable pair }
    {
        Held {
            kind: Kind::Stable(pair.parts),
        }
    }

    /// It is a link to the tree of this number.
    pub fn link(tree: usize) -> Held
        ensures { result ≡ Link tree }
    {
        Held {
            kind: Kind::Link(tree),
        }
    }

    /// What it is.
    pub fn seen(&self) -> HeldRef<'_>
        ensures { held_seen result ≡ self.now }
    {
        match &self.kind {
            Kind::Stable(parts) => HeldRef::Stable(parts),
            Kind::Unstable(parts) => HeldRef::Unstable(parts),
            Kind::Link(tree) => HeldRef::Link(*tree),
        }
    }

    /// The pair that it counts as, if it is no link.
    pub fn pair(&self) -> Option<&PairParts>
        ensures { option_map (λ parts. pair_in_parts parts.now) result ≡ pair_of self.now }
    {
        match &self.kind {
            Kind::Stable(parts) | Kind::Unstable(parts) => Some(parts),
            Kind::Link(_) => None,
        }
    }

    /// What is held of the long key of the slot's slice that goes on with the suffix. It is a call of its
    /// own, so that a search for a key that ends in its slice makes no suffix.
    #[inline(never)]
    fn kind(&self, suffix: &[u8]) -> FoundKind
        ensures { (e : Entry) → e.mark ≡ Mark.Long → e.held ≡ self.now → IsKind e suffix.now result }
    {
        match &self.kind {
            Kind::Link(_) => FoundKind::Link,
            Kind::Stable(pair) | Kind::Unstable(pair) => {
                if pair.suffix.as_bytes() == suffix {
                    FoundKind::ThisKey
                } else {
                    FoundKind::OtherLong
                }
            }
        }
    }

    /// Puts another row and its stamp into a pair, and gives the old row back.
    pub(crate) fn put_row(&mut self, row: Row, stamp: u64) -> Row
        requires { IsStablePair self.old }
        ensures row { (pair : Pair) → self.old ≡ Stable pair → result ≡ pair.row }
        ensures held { (pair : Pair) → self.old ≡ Stable pair →
            self.new ≡ Stable (record pair { row = row; stamp = stamp }) }
        ensures fits { (mark : Mark) → CanHold mark self.old → CanHold mark self.new }
    {
        match &mut self.kind {
            Kind::Stable(pair) => {
                pair.stamp = stamp;
                mem::replace(&mut pair.row, row)
            }
            _ => unreachable!(),
        }
    }

    /// Writes the stamp of a pair; a link has none.
    pub(crate) fn restamp(&mut self, stamp: u64)
        ensures { self.new ≡ stamped stamp self.old }
    {
        match &mut self.kind {
            Kind::Stable(pair) => pair.stamp = stamp,
            Kind::Unstable(pair) => pair.stamp = stamp,
            Kind::Link(_) => {}
        }
    }

    /// Gives a pair the stamp that the list has for its own; a link has none.
    pub(crate) fn restamp_by(&mut self, stamps: &BTreeMap<u64, u64>)
        ensures { self.new ≡ with_stamps (new_stamp stamps.now) self.old }
    {
        match &mut self.kind {
            Kind::Stable(pair) => pair.stamp = new_stamp(stamps, pair.stamp),
            Kind::Unstable(pair) => pair.stamp = new_stamp(stamps, pair.stamp),
            Kind::Link(_) => {}
        }
    }

    /// Makes a pair unstable.
    pub(crate) fn unsettle(&mut self)
        requires { IsStablePair self.old }
        ensures held { (pair : Pair) → self.old ≡ Stable pair →
            self.new ≡ Unstable pair None }
        ensures fits { (mark : Mark) → mark ≡ Mark.Long →
            CanHold mark self.old → CanHold mark self.new }
    {
        match mem::replace(&mut self.kind, Kind::Link(0)) {
            Kind::Stable(mut pair) => {
                pair.tree = None;
                self.kind = Kind::Unstable(pair);
            }
            _ => unreachable!(),
        }
    }

    /// Writes a tree's number beside an unstable pair.
    pub(crate) fn put_tree(&mut self, tree: usize)
        requires { IsUnlinked self.old }
        ensures held { (pair : Pair) → self.old ≡ Unstable pair None →
            self.new ≡ Unstable pair (Some tree) }
        ensures fits { (mark : Mark) → CanHold mark self.old → CanHold mark self.new }
    {
        match &mut self.kind {
            Kind::Unstable(pair) => pair.tree = Some(tree),
            _ => unreachable!(),
        }
    }

    /// Makes an unstable pair a link to its tree, and gives the pair back.
    pub(crate) fn become_link(&mut self) -> Pair
        requires { IsLinked self.old }
        ensures pair { (pair : Pair) (tree : ℕ) →
            self.old ≡ Unstable pair (Some tree) → result ≡ pair }
        ensures held { (pair : Pair) (tree : ℕ) →
            self.old ≡ Unstable pair (Some tree) → self.new ≡ Link tree }
        ensures fits { (mark : Mark) → CanHold mark self.old → CanHold mark self.new }
    {
        match mem::replace(&mut self.kind, Kind::Link(0)) {
            Kind::Unstable(parts) => {
                self.kind = Kind::Link(parts.tree.unwrap());
                Pair { parts }
            }
            _ => unreachable!(),
        }
    }
}

// The stamp that the list has for another one, or that one itself.
fn new_stamp(stamps: &BTreeMap<u64, u64>, stamp: u64) -> u64
    ensures { result ≡ new_stamp stamps.now stamp }
{
    match stamps.get(&stamp) {
        Some(new) => *new,
        None => stamp,
    }
}
