//! An interior node of one tree: separators that rise strictly, and the numbers of its children.
//!
//! Invariant: one child more than separators, or neither; at most sixteen children. Owns its rows; no
//! call takes memory. Children, parents and nodes are named by number. A slice that equals a separator
//! belongs to the child at its right. The low fence never changes.

ghost use Rattle.std.specs.Prelude.{◌≡◌, ◌+◌, ◌<◌, ◌≤◌, ◌↔◌, ℕ, List, [], ◌∷◌, IsTrue, length, slice_index, take, drop};
ghost use Rattle.arrayvec.specs.ArrayVec.{array_vec_len};
ghost use Rattle.mt_interior.specs.{Places.{place_of, IsPlace, IsNew}, Fences.{HoldsSlice, IsWithinBounds, bounds}};

use arrayvec::ArrayVec;
use mt_lists::padded::{PLACES, PaddedList};
use mt_version::Version;
use std::marker::Model;

/// The most separators of one node.
pub const SEPARATORS: usize = 15;

/// How many of sixteen separators stay at the left of a split.
const LEFT_SEPARATORS: usize = 8;

/// How many of seventeen children stay at the left of a split.
const LEFT_CHILDREN: usize = 9;

// A split first puts one more separator and child in, and then parts them. A node has one child more
// than separators.
const CHILD_PLACES: usize = PLACES + 1;

/// An interior node.
// The version stands first, as in a border node, so that it is read without asking which of the two
// kinds a node is.
#[derive(Drop)]
pub struct Interior {
    version: Version,
    separators: PaddedList,
    children: ArrayVec<usize, CHILD_PLACES>,
    parent: Option<usize>,
    low: u64,
    high: Option<u64>,
}

impl Model for Interior {
    ghost use Rattle.mt_interior.specs.Node.{InteriorNode, IsInterior};

    ghost Value = { InteriorNode };

    ghost view = { λ n. record {
      separators = n.separators;
      children = n.children.items;
      parent = n.parent;
      low = n.low;
      high = n.high;
      version = n.version;
    } };

    ghost invariant = { λ n. IsInterior n.separators n.children.items };
}

impl Interior {
    ghost use Rattle.mt_interior.specs.{Node.{IsInterior, childless}, Changes.{over_two, with_child, without_child, left_half, right_half, middle}};

    /// A node without children and parent.
    pub fn new(low: u64, high: Option<u64>, version: Version) -> Self
        ensures { result ≡ childless low high version }
    {
        Interior {
            version,
            separators: PaddedList::new(),
            children: ArrayVec::new(),
            parent: None,
            low,
            high,
        }
    }

    /// The separators, in rising order.
    pub fn separators(&self) -> &[u64]
        ensures value { result.now ≡ self.now.separators }
        ensures sound { IsInterior self.now.separators self.now.children }
    {
        self.separators.as_slice()
    }

    /// The children's numbers, in the order of their ranges.
    pub fn children(&self) -> &[usize]
        ensures value { result.now ≡ self.now.children }
        ensures sound { IsInterior self.now.separators self.now.children }
    {
        self.children.as_slice()
    }

    /// The parent's number, if one was set.
    pub fn parent(&self) -> Option<usize>
        ensures { result ≡ self.now.parent }
    {
        self.parent
    }

    /// The least slice of the node's range.
    pub fn low(&self) -> u64
        ensures { result ≡ self.now.low }
    {
        self.low
    }

    /// The least slice behind the node's range, if there is one.
    pub fn high(&self) -> Option<u64>
        ensures { result ≡ self.now.high }
    {
        self.high
    }

    pub fn version(&self) -> Version
        ensures { result ≡ self.now.version }
    {
        self.version
    }

    pub fn set_parent(&mut self, parent: Option<usize>)
        ensures { self.new ≡ record self.old { parent = parent } }
    {
        self.parent = parent;
    }

    pub fn set_high(&mut self, high: Option<u64>)
        ensures { self.new ≡ record self.old { high = high } }
    {
        self.high = high;
    }

    pub fn set_version(&mut self, version: Version)
        ensures { self.new ≡ record self.old { version = version } }
    {
        self.version = version;
    }

    /// There is no room for another child.
    pub fn is_full(&self) -> bool
        ensures full { IsTrue result ↔ (length self.now.separators ≡ SEPARATORS) }
        ensures within { length self.now.separators ≤ SEPARATORS }
    {
        self.separators.len() == SEPARATORS
    }

    /// The place, among the children, of the one to which the slice belongs.
    pub fn place_of(&self, slice: u64) -> usize
        ensures value { result ≡ place_of self.now.separators slice }
        ensures parts { IsPlace self.now.separators slice result }
    {
        self.separators.count_up_to(slice)
    }

    /// The number of the child whose range holds the slice.
    pub fn child_of(&self, slice: u64) -> usize
        requires { 0 < length self.now.children }
        ensures value { result ≡ slice_index self.now.children (place_of self.now.separators slice) }
        ensures range { HoldsSlice self.now slice →
            IsWithinBounds (bounds self.now) (place_of self.now.separators slice) slice }
        ensures only { (i : ℕ) → i < length self.now.children → IsWithinBounds (bounds self.now) i slice →
            i ≡ place_of self.now.separators slice }
    {
        self.children[self.place_of(slice)]
    }

    /// Gives a node without children its first two.
    pub fn put_over(&mut self, left: usize, separator: u64, right: usize)
        requires { self.old.children ≡ [] }
        ensures { self.new ≡ over_two self.old left separator right }
    {
        self.separators.push(separator);
        self.children.push(left);
        self.children.push(right);
    }

    /// Puts in a child that takes the upper part of another one's range, from the separator on.
    pub fn insert_child(&mut self, separator: u64, child: usize)
        requires room { length self.old.separators < SEPARATORS }
        requires some_child { 0 < length self.old.children }
        requires missing { IsNew self.old.separators separator }
        ensures { self.new ≡ with_child self.old separator child }
    {
        let place = self.place_of(separator);
        self.separators.insert(place, separator);
        self.children.insert(place + 1, child);
    }

    /// Takes a child out, which is not the first. Its range goes to the child before it.
    pub fn remove_child(&mut self, place: usize)
        requires not_first { 0 < place }
        requires there { place < length self.old.children }
        ensures { self.new ≡ without_child self.old place }
    {
        self.separators.remove(place - 1);
        self.children.remove(place);
    }

    /// The separator that a split with this new one sends upwards.
    pub fn middle_with(&self, separator: u64) -> u64
        requires full { length self.now.separators ≡ SEPARATORS }
        ensures { (child : ℕ) → result ≡ middle (with_child self.now separator child) }
    {
        let place = self.place_of(separator);
        if place < LEFT_SEPARATORS {
            self.separators()[LEFT_SEPARATORS - 1]
        } else if place == LEFT_SEPARATORS {
            separator
        } else {
            self.separators()[LEFT_SEPARATORS]
        }
    }

    /// Parts a full node and one more child: the lower half stays, and the upper half goes to the
    /// childless node at the right. Gives the separator between the two, which goes upwards and stands
    /// in neither. Fences, parents and versions stay as they are.
    pub fn split_into(&mut self, separator: u64, child: usize, right: &mut Interior) -> u64
        requires full { length self.old.separators ≡ SEPARATORS }
        requires missing { IsNew self.old.separators separator }
        requires childless { right.old.children ≡ [] }
        ensures left { self.new ≡ left_half (with_child self.old separator child) }
        ensures right { right.new ≡ right_half (with_child self.old separator child) right.old }
        ensures up { result ≡ middle (with_child self.old separator child) }
    {
        let place = self.place_of(separator);
        self.separators.insert(place, separator);
        self.children.insert(place + 1, child);
        let mut upper = self.separators.split_off(LEFT_SEPARATORS);
        let middle = upper.remove(0);
        right.separators = upper;
        move_tail(&mut self.children, LEFT_CHILDREN, &mut right.children);
        middle
    }
}

// Moves the elements from `keep` on into an empty row.
fn move_tail<T: Default + Drop, const CAP: usize>(
    left: &mut ArrayVec<T, CAP>,
    keep: usize,
    right: &mut ArrayVec<T, CAP>,
)
    requires within { keep ≤ array_vec_len left.old }
    requires empty { right.old.items ≡ [] }
    ensures kept { left.new.items ≡ take keep left.old.items }
    ensures moved { right.new.items ≡ drop keep left.old.items }
{
    let end = left.len();
    for moved in left.drain(keep..end) {
        right.push(moved);
    }
}
