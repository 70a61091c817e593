//! All nodes and trees by their numbers, and the calls by which single steps change them.
//!
//! Invariant: `IsArena`, fact by fact in `specs/Nodes.antt`, `specs/Forests.antt` and
//! `specs/Layers.antt`; it names no operation but those that hold a node or make a tree. Each call that
//! changes a node does it in place, and says in `Guarantee` what others may rely on.
//! Owns its nodes. Errors: `AllocError`, from `new`, `begin_split`, `make_layer`, `grow_root` and
//! `split_interior` alone. Units: nodes, trees and operations by their numbers, from 0.

ghost use Rattle.std.specs.Prelude.{◌≡◌, ◌≢◌, ◌<◌, ◌≤◌, ℕ, [], ◌∷◌, ◌++◌, ◌+◌, length, slice_set, true, false, Some, None, IfSome, IsSome, IsOk, IfOk, OnOk, OnErr};
ghost use Rattle.std.specs.Vec.{vec_len, vec_capacity};
ghost use Rattle.std.specs.FinMap as finite;
ghost use Rattle.mt_rows.specs.Rows.{Bytes};
ghost use Rattle.mt_version.specs.Changes.{CanUnlock, CanRenew};
ghost use Rattle.mt_border.specs.{declared.border.TheConstants.SLOTS, declared.entry.Entry.Entry, Held.{Pair, Stable}, Entry.{IsEntry, IsStablePair, order_of}};
ghost use Rattle.mt_border.specs.{Slots.{held_in, next_free}, Entries.{IsMissing, place_in, with_entry, without, replaced}, Contents.{HasKey, owned, row_of}};
ghost use Rattle.mt_border.specs.{Split.{IsParted, IsSeparator, slices_with}, Restamps.new_stamp};
ghost use Rattle.mt_arena.specs.{declared.tree.Standing.TheVariants.Live, NodeView.{node_at, place_at, border_view, interior_view}, Nodes.{Holds, HasRange}};
ghost use Rattle.mt_arena.specs.{Forests.{HasSlice, tree_at, layer_of}, Layers.slot_at, Settled.IsSettled, Ranges.Waits};
ghost use Rattle.mt_arena.specs.Edits.{locked, unlocked, with_slots, pointed, fresh_root, Points, cells_holding, cells_with, cells_without, with_filled, entry_filled, IsMarkedWhereDropped};
ghost use Rattle.mt_arena.specs.{Idle.{AreRetired, chosen, number_of, given_interior}, Given.{IsNamedLate, StepsFrom, AreForgotten, MayRenew}, Arena.{IsArena, content_of, Guarantee, live_count}, Renumbers.{all_renumbered, arena_renumbered, AreRestamped}};
ghost use Rattle.mt_arena.specs.{Splits.{with_some, inner_right}, Edits.version_in};
ghost use Rattle.mt_arena.specs.Several.{AreHalved, MaySplit, MayPlace, MayGrow, halves_below, top_over, with_root_at, MayInsert, with_right, MaySplitInner, wide_parent, parts_left, with_parts_at};
ghost use Rattle.mt_arena.specs.Accesses.{new_arena, at, tree_of, IsHeld, IsOpen, with_node, with_half_at, with_row, MayPublish, MayChange};
ghost use Rattle.mt_slices.specs.Marks.{IsMark};
ghost use Rattle.mt_interior.specs.Places.{IsNew};

use crate::node::Node;
use crate::retired::IdlePlaces;
use crate::tree::{Prefix, Standing, Tree};
use mt_border::{Border, Entry, Held, NodeNumber};
use mt_interior::Interior;
use mt_rows::Row;
use mt_slices::Mark;
use mt_version::Version;
use std::alloc::{AllocError, Global};
use std::collections::BTreeMap;
use std::marker::Model;

/// The most nodes of an arena, and the most trees. Their numbers lie in 32 bits in the nodes.
pub const MOST: usize = 0xFFFF_FFFF;

/// All nodes and trees.
#[derive(Drop)]
pub struct Arena {
    pub(crate) nodes: Vec<Node>,
    pub(crate) trees: Vec<Tree>,
    pub(crate) retired: IdlePlaces,
}

impl Model for Arena {
    ghost use Rattle.mt_arena.specs.{Arena.ArenaView, Invariant.ArenaInvariant, Idle.rooms_for};

    ghost Value = { ArenaView };

    ghost view = { λ a. record { nodes = a.nodes.items; trees = a.trees.items; retired = a.retired.places } };

    ghost invariant = { λ a. ArenaInvariant a.nodes.items a.trees.items a.retired.places (rooms_for a.retired.room) };
}

impl Arena {
    /// An arena with an empty top tree, whose number is 0.
    pub fn new(alloc: Global) -> Result<Self, AllocError>
        ensures { IfOk result (λ arena. arena ≡ new_arena) }
    {
        let mut nodes = Vec::new(alloc);
        nodes.push(Node::root(0))?;
        let mut trees = Vec::new(alloc);
        trees.push(Tree {
            prefix: Prefix::new(Vec::new(alloc)),
            root: 0,
            standing: Standing::Live,
        })?;
        let mut retired = IdlePlaces::new(alloc);
        retired.make_room(1, 1)?;
        Ok(Arena {
            nodes,
            trees,
            retired,
        })
    }

    /// What holds of all nodes, all trees and the idle places after every step, for the proofs of callers:
    /// nothing runs.
    pub fn facts(&self)
        ensures arena { IsArena self.now.nodes self.now.trees }
        ensures retired { AreRetired self.now.nodes self.now.trees self.now.retired }
        ensures named { IsNamedLate self.now.nodes self.now.trees self.now.retired }
    {
        // For the proof.
        let _ = &self.nodes;
    }

    /// The border node of a number.
    pub fn border(&self, node: usize) -> &Border
        requires there { node < length self.now.nodes }
        requires kind { (at self.now node).level ≡ 0 }
        ensures { let n = at self.now node in n ≡ border_view result.now n.tree n.level n.reach n.holder }
    {
        match self.nodes[node].border() {
            Some(border) => border,
            None => unreachable!(),
        }
    }

    /// The interior node of a number.
    pub fn interior(&self, node: usize) -> &Interior
        requires there { node < length self.now.nodes }
        requires kind { 0 < (at self.now node).level }
        ensures { let n = at self.now node in n ≡ interior_view result.now n.tree n.level n.reach n.holder }
    {
        match self.nodes[node].interior() {
            Some(interior) => interior,
            None => unreachable!(),
        }
    }

    /// The node of a number.
    pub fn node(&self, node: usize) -> &Node
        requires { node < length self.now.nodes }
        ensures { result.now ≡ at self.now node }
    {
        &self.nodes[node]
    }

    /// All trees, by their numbers: those that are being made, live, or dead.
    pub fn trees(&self) -> &[Tree]
        ensures { result.now ≡ self.now.trees }
    {
        &self.trees
    }

    /// The tree of a number.
    pub fn tree(&self, tree: usize) -> &Tree
        requires { tree < length self.now.trees }
        ensures { result.now ≡ tree_at self.now.trees tree }
    {
        &self.trees[tree]
    }

    /// Takes the lock of a node that nobody holds.
    pub fn lock(&mut self, node: usize, operation: usize)
        requires there { node < length self.old.nodes }
        requires free { (at self.old node).holder ≡ None }
        requires mine { IsOpen self.old node operation }
        ensures is { self.new ≡ with_node self.old node (locked (at self.old node) operation) }
        ensures step { Guarantee operation self.old self.new }
        ensures contents { content_of self.new ≡ content_of self.old }
    {
        self.nodes[node].lock(operation);
    }

    /// Gives the lock of a node back, and counts the change that its marks told of.
    pub fn unlock(&mut self, node: usize, operation: usize)
        requires held { IsHeld self.old node operation }
        requires settled { IsSettled self.old.nodes node (at self.old node) }
        requires room { CanUnlock (at self.old node).version }
        requires mine { IsOpen self.old node operation }
        ensures is { self.new ≡ with_node self.old node (unlocked (at self.old node)) }
        ensures step { Guarantee operation self.old self.new }
        ensures contents { content_of self.new ≡ content_of self.old }
    {
        self.nodes[node].unlock();
    }

    /// Writes the neighbour before a border node: one that the operation holds. A right half that waits
    /// for its range keeps its left half.
    pub fn set_previous(&mut self, node: usize, previous: usize, operation: usize)
        requires there { node < length self.old.nodes }
        requires border { (at self.old node).level ≡ 0 }
        requires held { IsHeld self.old previous operation }
        requires tied { Waits (at self.old node) → (at self.old node).previous ≡ Some previous }
        requires mine { IsOpen self.old node operation }
        ensures is { self.new ≡ with_node self.old node (pointed (at self.old node) (Some previous) (at self.old node).parent) }
        ensures step { Guarantee operation self.old self.new }
        ensures contents { content_of self.new ≡ content_of self.old }
    {
        self.nodes[node].set_previous(NodeNumber::of(previous));
    }

    /// Writes the parent of a node that is no root: one that the operation holds.
    pub fn set_parent(&mut self, node: usize, parent: usize, operation: usize)
        requires there { node < length self.old.nodes }
        requires no_root { (at self.old node).version.root ≡ false }
        requires range { HasRange (at self.old node) }
        requires held { IsHeld self.old parent operation }
        requires theirs { (q : ℕ) → (at self.old node).holder ≡ Some q → q ≢ operation → (at self.old node).parent ≢ None }
        requires mine { IsOpen self.old node operation }
        ensures is { self.new ≡ with_node self.old node (pointed (at self.old node) (at self.old node).previous (Some parent)) }
        ensures step { Guarantee operation self.old self.new }
        ensures contents { content_of self.new ≡ content_of self.old }
    {
        self.nodes[node].set_parent(NodeNumber::of(parent));
    }

    /// Writes what the free slot of a border node holds that is taken next. If that slot was ever dropped,
    /// the node is marked for readers of its keys before, and all other free slots give up what they hold.
    pub fn fill(&mut self, node: usize, held: Held, operation: usize)
        requires holds { IsHeld self.old node operation }
        requires mine { IsOpen self.old node operation }
        requires border { (at self.old node).level ≡ 0 }
        requires room { length (at self.old node).slots < SLOTS }
        ensures is { self.new ≡ with_node self.old node (with_filled (at self.old node) held) }
        ensures there { let cells = (with_filled (at self.old node) held).cells in held_in cells.helds (next_free cells) ≡ held }
        ensures step { Guarantee operation self.old self.new }
        ensures contents { content_of self.new ≡ content_of self.old }
    {
        self.nodes[node].fill(held);
    }

    /// Makes the slot that was filled live, with the pair of a missing key, placed by the step `stamp`, in
    /// the border node in which the key belongs. The version stays: where the slot was ever dropped, the
    /// node is marked.
    pub fn publish_filled(
        &mut self,
        node: usize,
        slice: u64,
        mark: Mark,
        stamp: u64,
        operation: usize,
    )
        requires may { (key : Bytes) × MayPublish self.old node operation key (entry_filled (at self.old node) slice mark stamp) }
        requires marked { IsMarkedWhereDropped (at self.old node) }
        ensures is { let entry = entry_filled (at self.old node) slice mark stamp in
            self.new ≡ with_node self.old node (with_slots (at self.old node) (with_entry (at self.old node).slots entry)
            (cells_with (at self.old node).cells (place_in (at self.old node).slots (order_of entry)) entry)) }
        ensures step { Guarantee operation self.old self.new }
        ensures contents { let entry = entry_filled (at self.old node) slice mark stamp in
            (key : Bytes) (pair : Pair) → MayPublish self.old node operation key entry → entry.held ≡ Stable pair →
            content_of self.new ≡ finite.insert (content_of self.old) (owned key) (row_of pair) }
    {
        self.nodes[node].publish_filled(slice, mark, stamp);
    }

    /// Puts another row, placed by the step `stamp`, in the place of a key's; gives the old row back.
    pub fn store(&mut self, node: usize, slot: usize, row: Row, stamp: u64, operation: usize) -> Row
        requires may { (key : Bytes) × (pair : Pair) × MayChange self.old node operation key (place_at (at self.old node) slot) pair }
        ensures before { (pair : Pair) → (slot_at (at self.old node) (place_at (at self.old node) slot)).held ≡ Stable pair → result ≡ pair.row }
        ensures is { (pair : Pair) → (slot_at (at self.old node) (place_at (at self.old node) slot)).held ≡ Stable pair →
            self.new ≡ with_node self.old node (with_slots (at self.old node)
            (replaced (at self.old node).slots (with_row (slot_at (at self.old node) (place_at (at self.old node) slot)) pair row stamp))
            (cells_holding (at self.old node).cells (place_at (at self.old node) slot) (Stable (record pair { row = row; stamp = stamp })))) }
        ensures step { Guarantee operation self.old self.new }
        ensures contents { (key : Bytes) (pair : Pair) → MayChange self.old node operation key (place_at (at self.old node) slot) pair →
            content_of self.new ≡ finite.insert (content_of self.old) (owned key) (record { stamp = stamp; row = row }) }
    {
        self.nodes[node].store(slot, row, stamp)
    }

    /// Makes a key's pair live no more. Its slot holds the pair until it is filled again.
    pub fn let_go(&mut self, node: usize, slot: usize, operation: usize)
        requires may { (key : Bytes) × (pair : Pair) × MayChange self.old node operation key (place_at (at self.old node) slot) pair }
        ensures is { let n = at self.old node in let place = place_at n slot in
            self.new ≡ with_node self.old node (with_slots n (without n.slots (slot_at n place)) (cells_without n.cells place)) }
        ensures step { Guarantee operation self.old self.new }
        ensures contents { (key : Bytes) (pair : Pair) → MayChange self.old node operation key (place_at (at self.old node) slot) pair →
            content_of self.new ≡ finite.remove (content_of self.old) (owned key) }
    {
        self.nodes[node].let_go(slot);
    }

    /// Begins the split of a border node: marks it for readers of its range, and makes its right half, a
    /// node without range that names it as the one before, and which the operation holds. It begins at
    /// the slice of a stored key. It comes into the place of a border node that was taken out, if the step
    /// `least` or an earlier one did it: then no memory is taken. Else it comes into a new place. An error
    /// leaves all as it was.
    pub fn begin_split(
        &mut self,
        left: usize,
        low: u64,
        least: u64,
        operation: usize,
    ) -> Result<usize, AllocError>
        requires held { IsHeld self.old left operation }
        requires live { (at self.old left).version.deleted ≡ false }
        requires border { (at self.old left).level ≡ 0 }
        requires range { HasRange (at self.old left) }
        requires begins { HasSlice (tree_of self.old left).prefix low }
        requires mine { IsOpen self.old left operation }
        requires forgotten { AreForgotten least self.old }
        requires renews { MayRenew least self.old }
        ensures number { IfOk result (λ node. node ≡ number_of (chosen self.old.retired.borders least) (length self.old.nodes)) }
        ensures is { OnOk result (self.new ≡ with_half_at self.old left low least operation) }
        ensures no_memory { IsSome (chosen self.old.retired.borders least) → IsOk result }
        ensures unchanged_on_err { OnErr result (self.new ≡ self.old) }
        ensures step { StepsFrom least operation self.old self.new }
        ensures contents { content_of self.new ≡ content_of self.old }
    {
        match self.retired.give_border(least) {
            Some(place) => {
                let version = self.nodes[place].version().renewed(false);
                let half = self.nodes[left].half(left, low, version, operation);
                self.nodes[left].mark_splitting();
                self.nodes[place] = half;
                Ok(place)
            }
            None => {
                make_room(&mut self.nodes, &mut self.trees, &mut self.retired)?;
                let number = self.nodes.len();
                let half = self.nodes[left].half(left, low, Version::child_border(), operation);
                self.nodes[left].mark_splitting();
                self.nodes.push_reserved(half);
                Ok(number)
            }
        }
    }

    /// Parts the slots of a full border node among it and its right half, where they are parted with
    /// the missing key of this slice and mark: keys from the right half's low fence on stand there from
    /// now on. Where there is an entry, which is that key's, it comes in too.
    pub fn split_border(
        &mut self,
        left: usize,
        right: usize,
        slice: u64,
        mark: Mark,
        entry: Option<Entry>,
        operation: usize,
    )
        requires may { MaySplit self.old left right operation slice mark }
        requires live { (tree_of self.old left).standing ≡ Live }
        requires entry { IfSome entry (λ e. (e.slice ≡ slice) × (e.mark ≡ mark) × ((key : Bytes) × MayPlace self.old left operation key e)) }
        ensures nodes { AreHalved (with_some (at self.old left).slots entry) self.old.nodes self.new.nodes left right }
        ensures others { self.new ≡ record self.old { nodes = self.new.nodes } }
        ensures step { Guarantee operation self.old self.new }
        ensures contents { (key : Bytes) (e : Entry) (pair : Pair) → entry ≡ Some e → MayPlace self.old left operation key e → e.held ≡ Stable pair →
            content_of self.new ≡ finite.insert (content_of self.old) (owned key) (row_of pair) }
        ensures kept { entry ≡ None → content_of self.new ≡ content_of self.old }
    {
        halve(&mut self.nodes, left, right, slice, mark, entry);
    }

    /// Makes an interior root over the two halves of one. The operation holds it, and may unlock it at
    /// once. It comes into the place of an interior node that was taken out, if the step `least` or an
    /// earlier one did it: then no memory is taken. Else it comes into a new place. An error leaves all
    /// as it was.
    pub fn grow_root(
        &mut self,
        left: usize,
        right: usize,
        least: u64,
        operation: usize,
    ) -> Result<usize, AllocError>
        requires may { MayGrow self.old left right operation }
        requires forgotten { AreForgotten least self.old }
        requires renews { MayRenew least self.old }
        ensures number { IfOk result (λ top. top ≡ number_of (chosen self.old.retired.interiors least) (length self.old.nodes)) }
        ensures is { OnOk result (self.new ≡ with_root_at self.old left right least operation) }
        ensures settled { IfOk result (λ top. IsSettled self.new.nodes top (at self.new top)) }
        ensures no_memory { IsSome (chosen self.old.retired.interiors least) → IsOk result }
        ensures unchanged_on_err { OnErr result (self.new ≡ self.old) }
        ensures step { StepsFrom least operation self.old self.new }
        ensures contents { content_of self.new ≡ content_of self.old }
    {
        let fresh = Version::root_interior();
        let place = inner_place(
            &mut self.nodes,
            &mut self.trees,
            &mut self.retired,
            least,
            fresh,
        )?;
        let number = place.number;
        let tree = self.nodes[left].tree();
        put_top(&mut self.nodes, left, right, place, operation);
        self.trees[tree].root = number;
        Ok(number)
    }

    /// Begins the counting of changes anew: no node's version counts any. Each pair gets the stamp that the
    /// list has for its own, and keeps one that the list lacks. The step `step` took out all that is out.
    /// Only where no operation is open may a caller do this, since an operation may remember a version that
    /// a node has left.
    pub fn renumber(&mut self, step: u64, stamps: &BTreeMap<u64, u64>)
        ensures is { self.new ≡ arena_renumbered step (new_stamp stamps.now) self.old }
        ensures contents { AreRestamped (new_stamp stamps.now) (content_of self.old) (content_of self.new) }
    {
        renumber_all(&mut self.nodes, stamps);
        self.retired.renumber(step);
    }

    /// How many nodes there are.
    pub fn node_count(&self) -> usize
        ensures count { result ≡ length self.now.nodes }
        ensures live { live_count self.now.nodes ≤ result }
    {
        self.nodes.len()
    }

    /// Puts a right half into its parent, behind the left one, and marks the parent for readers of its
    /// children. The range of the left half in it ends at its fence from now on.
    pub fn insert_child(&mut self, parent: usize, left: usize, right: usize, operation: usize)
        requires { MayInsert self.old parent left right operation }
        ensures is { self.new ≡ record self.old { nodes = with_right self.old.nodes parent left right } }
        ensures step { Guarantee operation self.old self.new }
        ensures contents { content_of self.new ≡ content_of self.old }
    {
        put_child(&mut self.nodes, parent, left, right);
    }

    /// Puts a right half into a full parent, after the left one, and marks the parent for readers of its
    /// range. Its upper children go to a right half of its own, which the operation holds and which gets
    /// the range from the middle on. This half comes into the place of an interior node that was taken
    /// out, if the step `least` or an earlier one did it: then no memory is taken. Else it comes into a
    /// new place. An error leaves all as it was.
    pub fn split_interior(
        &mut self,
        parent: usize,
        left: usize,
        right: usize,
        least: u64,
        operation: usize,
    ) -> Result<usize, AllocError>
        requires may { MaySplitInner self.old parent left right operation }
        requires forgotten { AreForgotten least self.old }
        requires renews { MayRenew least self.old }
        ensures number { IfOk result (λ half. half ≡ number_of (chosen self.old.retired.interiors least) (length self.old.nodes)) }
        ensures is { OnOk result (self.new ≡ with_parts_at self.old parent left right least operation) }
        ensures no_memory { IsSome (chosen self.old.retired.interiors least) → IsOk result }
        ensures unchanged_on_err { OnErr result (self.new ≡ self.old) }
        ensures step { StepsFrom least operation self.old self.new }
        ensures contents { content_of self.new ≡ content_of self.old }
    {
        let fresh = Version::child_interior();
        let place = inner_place(
            &mut self.nodes,
            &mut self.trees,
            &mut self.retired,
            least,
            fresh,
        )?;
        let number = place.number;
        part_parent(&mut self.nodes, parent, left, right, place, operation);
        Ok(number)
    }
}

// Sets the counters of all nodes to 0, and gives each pair the stamp that the list has for its own.
fn renumber_all(nodes: &mut Vec<Node>, stamps: &BTreeMap<u64, u64>)
    ensures { nodes.new.items ≡ all_renumbered (new_stamp stamps.now) nodes.old.items }
{
    renumber_each(nodes.as_mut_slice(), stamps);
}

// The same of those of a slice.
fn renumber_each(nodes: &mut [Node], stamps: &BTreeMap<u64, u64>)
    ensures { nodes.new ≡ all_renumbered (new_stamp stamps.now) nodes.old }
{
    for node in nodes.iter_mut() {
        node.renumber(stamps);
    }
}

// Parts the slots of a full node among it and its right half; an entry, where there is one, comes in
// too.
fn halve(
    nodes: &mut [Node],
    left: usize,
    right: usize,
    slice: u64,
    mark: Mark,
    entry: Option<Entry>,
)
    requires there { left < length nodes.old }
    requires right_there { right < length nodes.old }
    requires few { length nodes.old ≤ MOST }
    requires differ { left ≢ right }
    requires border { (node_at nodes.old left).level ≡ 0 }
    requires right_border { (node_at nodes.old right).level ≡ 0 }
    requires full { length (node_at nodes.old left).slots ≡ SLOTS }
    requires mark { IsMark mark }
    requires missing { IsMissing (node_at nodes.old left).slots slice mark }
    requires entry { IfSome entry (λ e. (e.slice ≡ slice) × (e.mark ≡ mark) × IsEntry e) }
    requires empty { (node_at nodes.old right).slots ≡ [] }
    requires separator { IsSeparator (slices_with (node_at nodes.old left).slots slice mark) (node_at nodes.old right).low }
    ensures { AreHalved (with_some (node_at nodes.old left).slots entry) nodes.old nodes.new left right }
{
    if left < right {
        let (front, back) = nodes.split_at_mut(right);
        front[left].split(slice, mark, entry, &mut back[0], left, right);
    } else {
        let (front, back) = nodes.split_at_mut(left);
        back[0].split(slice, mark, entry, &mut front[right], left, right);
    }
}

// The place of a node that is made: an old one or a new one, with the version that the node begins with.
#[derive(Clone, Copy)]
pub(crate) struct Place {
    pub(crate) number: usize,
    pub(crate) version: Version,
}

// The place of an interior node that is made, whose version in a new place is this one. An old place is
// chosen, if there is one, and else room is made for a new one.
fn inner_place(
    nodes: &mut Vec<Node>,
    trees: &mut Vec<Tree>,
    retired: &mut IdlePlaces,
    least: u64,
    fresh: Version,
) -> Result<Place, AllocError>
    requires there { (place : ℕ) → chosen retired.old.places.interiors least ≡ Some place → place < length nodes.old.items }
    requires renews { (place : ℕ) → chosen retired.old.places.interiors least ≡ Some place → CanRenew (node_at nodes.old.items place).version }
    ensures number { IfOk result (λ p. p.number ≡ number_of (chosen retired.old.places.interiors least) (length nodes.old.items)) }
    ensures version { IfOk result (λ p. p.version ≡ version_in (chosen retired.old.places.interiors least) nodes.old.items fresh) }
    ensures nodes { nodes.new.items ≡ nodes.old.items }
    ensures trees { trees.new.items ≡ trees.old.items }
    ensures given { OnOk result (retired.new.places ≡ given_interior retired.old.places least) }
    ensures unchanged_on_err { OnErr result (retired.new.places ≡ retired.old.places) }
    ensures no_memory { IsSome (chosen retired.old.places.interiors least) → IsOk result }
    ensures capacity { OnOk result (chosen retired.old.places.interiors least ≡ None → vec_len nodes.new < vec_capacity nodes.new) }
    ensures few { OnOk result (chosen retired.old.places.interiors least ≡ None → vec_len nodes.new < MOST) }
    ensures room { OnOk result (chosen retired.old.places.interiors least ≡ None → vec_len nodes.new + 1 ≤ retired.new.room.nodes) }
    ensures no_less { retired.old.room.nodes ≤ retired.new.room.nodes }
    ensures no_fewer { retired.old.room.trees ≤ retired.new.room.trees }
{
    match retired.give_interior(least) {
        Some(number) => {
            let version = nodes[number].version().renewed(fresh.is_root());
            Ok(Place { number, version })
        }
        None => {
            make_room(nodes, trees, retired)?;
            let number = nodes.len();
            Ok(Place {
                number,
                version: fresh,
            })
        }
    }
}

// Puts a node into the place of one that was taken out, or into a new place, for which there is room.
pub(crate) fn put(nodes: &mut Vec<Node>, number: usize, node: Node)
    requires there { number ≤ length nodes.old.items }
    requires room { number ≡ length nodes.old.items → vec_len nodes.old < vec_capacity nodes.old }
    ensures old_place { number < length nodes.old.items → nodes.new.items ≡ slice_set nodes.old.items number node }
    ensures new_place { number ≡ length nodes.old.items → nodes.new.items ≡ nodes.old.items ++ node ∷ [] }
{
    if number < nodes.len() {
        nodes[number] = node;
    } else {
        nodes.push_reserved(node);
    }
}

// Puts a new root over two nodes.
fn put_top(nodes: &mut Vec<Node>, left: usize, right: usize, place: Place, operation: usize)
    requires there { left < length nodes.old.items }
    requires right_there { right < length nodes.old.items }
    requires differ { left ≢ right }
    requires not_too_high { (node_at nodes.old.items left).level < 4294967295 }
    requires number { place.number ≤ length nodes.old.items }
    requires room { place.number ≡ length nodes.old.items → vec_len nodes.old < vec_capacity nodes.old }
    requires few { place.number < MOST }
    ensures old_place { place.number < length nodes.old.items → nodes.new.items ≡ slice_set (halves_below nodes.old.items left right place.number)
        place.number (record (top_over nodes.old.items left right operation) { version = record place.version { locked = true } }) }
    ensures new_place { place.number ≡ length nodes.old.items → nodes.new.items ≡ halves_below nodes.old.items left right place.number ++
        (record (top_over nodes.old.items left right operation) { version = record place.version { locked = true } }) ∷ [] }
{
    let Place { number, version } = place;
    let separator = nodes[right].low();
    let top = nodes[left].top(left, separator, right, version, operation);
    nodes[left].put_below(number);
    nodes[right].set_parent(NodeNumber::of(number));
    put(nodes, number, top);
}

// Puts a child into a node, behind another one.
fn put_child(nodes: &mut Vec<Node>, parent: usize, left: usize, right: usize)
    requires there { parent < length nodes.old.items }
    requires left_there { left < length nodes.old.items }
    requires right_there { right < length nodes.old.items }
    requires differ { parent ≢ left }
    requires interior { 0 < (node_at nodes.old.items parent).level }
    requires room { length (node_at nodes.old.items parent).separators < 15 }
    requires some_child { (node_at nodes.old.items parent).children ≢ [] }
    requires missing { IsNew (node_at nodes.old.items parent).separators (node_at nodes.old.items right).low }
    ensures { nodes.new.items ≡ with_right nodes.old.items parent left right }
{
    let separator = nodes[right].low();
    nodes[parent].insert_child(separator, right);
    nodes[left].make_exact();
}

// Puts a child into a full node, after another one, and gives its upper children to a new right half.
fn part_parent(
    nodes: &mut Vec<Node>,
    parent: usize,
    left: usize,
    right: usize,
    place: Place,
    operation: usize,
)
    requires there { parent < length nodes.old.items }
    requires left_there { left < length nodes.old.items }
    requires right_there { right < length nodes.old.items }
    requires differ { parent ≢ left }
    requires interior { 0 < (node_at nodes.old.items parent).level }
    requires full { length (node_at nodes.old.items parent).separators ≡ 15 }
    requires missing { IsNew (node_at nodes.old.items parent).separators (node_at nodes.old.items right).low }
    requires number { place.number ≤ length nodes.old.items }
    requires room { place.number ≡ length nodes.old.items → vec_len nodes.old < vec_capacity nodes.old }
    ensures old_place { place.number < length nodes.old.items → nodes.new.items ≡ slice_set (parts_left nodes.old.items parent left right) place.number
        (record (inner_right (wide_parent nodes.old.items parent right) operation) { version = record place.version { locked = true; splitting = true } }) }
    ensures new_place { place.number ≡ length nodes.old.items → nodes.new.items ≡ parts_left nodes.old.items parent left right ++
        (record (inner_right (wide_parent nodes.old.items parent right) operation) { version = record place.version { locked = true; splitting = true } }) ∷ [] }
{
    let Place { number, version } = place;
    let separator = nodes[right].low();
    let half = nodes[parent].split_inner(separator, right, version, operation);
    nodes[left].make_exact();
    put(nodes, number, half);
}

// Takes the memory for one more node and one more tree, and for the number of each of them among the
// idle places. If there are as many as there can be, that counts as want of memory.
pub(crate) fn make_room(
    nodes: &mut Vec<Node>,
    trees: &mut Vec<Tree>,
    retired: &mut IdlePlaces,
) -> Result<(), AllocError>
    ensures nodes { nodes.new.items ≡ nodes.old.items }
    ensures trees { trees.new.items ≡ trees.old.items }
    ensures retired { retired.new.places ≡ retired.old.places }
    ensures node_room { OnOk result (vec_len nodes.new < vec_capacity nodes.new) }
    ensures tree_room { OnOk result (vec_len trees.new < vec_capacity trees.new) }
    ensures room { OnOk result (vec_len nodes.new + 1 ≤ retired.new.room.nodes) }
    ensures trees_room { OnOk result (vec_len trees.new + 1 ≤ retired.new.room.trees) }
    ensures no_less { retired.old.room.nodes ≤ retired.new.room.nodes }
    ensures no_fewer { retired.old.room.trees ≤ retired.new.room.trees }
    ensures few_nodes { OnOk result (vec_len nodes.new < MOST) }
    ensures few_trees { OnOk result (vec_len trees.new < MOST) }
{
    if nodes.len() >= MOST || trees.len() >= MOST {
        return Err(AllocError);
    }
    nodes.reserve(1)?;
    trees.reserve(1)?;
    retired.make_room(nodes.len() + 1, trees.len() + 1)
}
