//! The marks of a node's live slots in the order of keys, a byte each.
//!
//! The byte of a mark is its rank in the order of marks: a short one's number of bytes, or nine. Invariant:
//! a list has at most fifteen of them. No call takes memory or fails.

ghost use Rattle.std.specs.Prelude.{◌≡◌, ◌<◌, ◌≤◌, [], length, insert, remove, slice_index_or};
ghost use Rattle.mt_slices.specs.Marks.{IsMark};
ghost use Rattle.mt_border.specs.Ranks.{mark_of_rank};

use crate::border::SLOTS;
use mt_slices::Mark;
use std::marker::Model;

/// The rank of a long key's mark, behind those of the short ones.
const LONG: u8 = 9;

/// Up to fifteen marks.
#[derive(Debug, Drop)]
pub(crate) struct MarkList {
    ranks: [u8; SLOTS],
    len: u8,
}

impl Model for MarkList {
    ghost use Rattle.std.specs.Prelude.{◌≤◌, List};
    ghost use Rattle.mt_slices.specs.declared.mark.Mark.{Mark};
    ghost use Rattle.mt_border.specs.Ranks.{marks_in};

    ghost Value = { List Mark };

    ghost view = { λ l. marks_in l.ranks l.len };

    ghost invariant = { λ l. l.len ≤ 15 };
}

impl MarkList {
    /// No marks.
    pub(crate) fn new() -> Self
        ensures { result ≡ [] }
    {
        MarkList {
            ranks: [LONG; SLOTS],
            len: 0,
        }
    }

    /// The mark of a place.
    #[inline(always)]
    pub(crate) fn get(&self, place: usize) -> Mark
        requires { place < length self.now }
        ensures value { result ≡ slice_index_or self.now place result }
        ensures sound { IsMark result }
    {
        mark_of(self.ranks[place])
    }

    /// Puts a mark in at a place; those from there on move up.
    pub(crate) fn insert(&mut self, place: usize, mark: Mark)
        requires in_bounds { place ≤ length self.old }
        requires room { length self.old < SLOTS }
        requires mark { IsMark mark }
        ensures { self.new ≡ insert self.old place mark }
    {
        let len = usize::from(self.len);
        self.ranks.copy_within(place..len, place + 1);
        self.ranks[place] = rank_of(mark);
        self.len += 1;
    }

    /// Takes the mark of a place out; those behind it move down.
    pub(crate) fn remove(&mut self, place: usize) -> Mark
        requires { place < length self.old }
        ensures value { result ≡ slice_index_or self.old place result }
        ensures sound { IsMark result }
        ensures rest { self.new ≡ remove self.old place }
    {
        let len = usize::from(self.len);
        let mark = self.get(place);
        self.ranks.copy_within(place + 1..len, place);
        self.len -= 1;
        mark
    }
}

// The rank of a mark.
fn rank_of(mark: Mark) -> u8
    requires { IsMark mark }
    ensures { mark_of_rank result ≡ mark }
{
    match mark {
        Mark::Short(bytes) => bytes,
        Mark::Long => LONG,
    }
}

// The mark that has a rank.
#[inline(always)]
fn mark_of(rank: u8) -> Mark
    ensures value { result ≡ mark_of_rank rank }
    ensures sound { IsMark result }
{
    if rank < LONG {
        Mark::Short(rank)
    } else {
        Mark::Long
    }
}
