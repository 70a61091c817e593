//! A node of either kind, with what the arena keeps of it: its tree, its level, where its range ends
//! in its parent, and the operation that holds it.
//!
//! No call takes memory; all change the node in place. What fits together between nodes is the
//! arena's to keep: whoever changes a node does it through a call of `arena.rt`.

ghost use Rattle.std.specs.Prelude.{◌≡◌, ◌≢◌, ◌<◌, ◌||◌, ℕ, [], IfSome, IsSome, IfNone, Some, None, length, true, false, ◌↔◌};
ghost use Rattle.mt_version.specs.Parts.{fresh_parts};
ghost use Rattle.mt_border.specs.Restamps.{new_stamp};
ghost use Rattle.mt_interior.specs.{Node.childless, Places.IsNew};
ghost use Rattle.mt_interior.specs.Changes as inner;

use mt_border::{Border, Entry, Held, NodeNumber};
use mt_interior::Interior;
use mt_rows::Row;
use mt_slices::Mark;
use mt_version::Version;
use std::collections::BTreeMap;
use std::marker::Model;
use std::mem::size_of;

/// The two kinds of node.
#[derive(Drop)]
pub enum NodeKind {
    Leaf(Border),
    Inner(Interior),
}

/// A node. Its level counts from 0 at the border nodes. Where its range ends in its parent differs
/// from its high fence as long as a right half that was split off is in no parent.
#[derive(Drop)]
pub struct Node {
    pub(crate) kind: NodeKind,
    tree: u32,
    level: u32,
    pub(crate) reach: Option<u64>,
    holder: Option<usize>,
}

// Most of what a store takes are such nodes. An interior one takes as much.
const _: () = prove!(size_of::<Node>() == 544);

impl Model for Node {
    ghost use Rattle.mt_arena.specs.NodeView.{NodeView, node_view, IsOfKind};

    ghost Value = { NodeView };

    ghost view = { λ n. node_view n.kind n.tree n.level n.reach n.holder };

    ghost invariant = { λ n. IsOfKind n.kind n.level };
}

impl Node {
    ghost use Rattle.mt_version.specs.Changes.{CanUnlock};
    ghost use Rattle.mt_border.specs.{Slots.{held_in, next_free, is_dropped, IsRenewed, IsFresh}, Entry.{IsEntry, IsStablePair, order_of}, Entries.{IsMissing, place_in, with_entry, without, replaced}};
    ghost use Rattle.mt_border.specs.{declared.border.TheConstants.SLOTS, Held.{Pair, Stable}, Split.{IsParted, IsSeparator, slices_with}};
    ghost use Rattle.mt_border.specs.Keeps.{HasEntry, KeepsEntries, LosesOnly};
    ghost use Rattle.mt_arena.specs.{NodeView.{NodeView, place_at, border_view, interior_view, IsOfKind}, Layers.slot_at};
    ghost use Rattle.mt_arena.specs.Edits.{locked, unlocked, inserting, splitting, retired, with_slots, pointed, fresh_half, fresh_root};
    ghost use Rattle.mt_arena.specs.Edits.{cells_holding, cells_with, cells_without, with_filled, entry_filled};
    ghost use Rattle.mt_arena.specs.Splits.{with_some, left_half, right_half, with_child, exact, inner_left, inner_right};
    ghost use Rattle.mt_arena.specs.{Growth.{fresh_top, below_top, left_below}, Renumbers.renumbered};
    ghost use Rattle.mt_slices.specs.Marks.{IsMark};

    /// The first node of a tree.
    pub(crate) fn root(tree: u32) -> Self
        ensures { result ≡ fresh_root tree }
    {
        Node {
            kind: NodeKind::Leaf(Border::new(0, None, Version::root_border())),
            tree,
            level: 0,
            reach: None,
            holder: None,
        }
    }

    /// A border node without range, which an operation holds, to the right of one that it splits: the
    /// node of the number `left`, which is this one. Its version is this one with the lock and the mark.
    pub(crate) fn half(&self, left: usize, low: u64, version: Version, operation: usize) -> Self
        requires border { self.now.level ≡ 0 }
        requires kind { version.border ≡ true }
        requires few { left < 4294967295 }
        ensures { result ≡ record (fresh_half self.now left low operation) { version = record version { locked = true; splitting = true } } }
    {
        let version = version.locked().marked_splitting();
        let mut half = Border::new(low, Some(low), version);
        half.set_previous(NodeNumber::of(left));
        Node {
            kind: NodeKind::Leaf(half),
            tree: self.tree,
            level: self.level,
            reach: Some(low),
            holder: Some(operation),
        }
    }

    /// The border node that it is, if it is one.
    pub fn border(&self) -> Option<&Border>
        ensures kind { IsSome result ↔ (self.now.level ≡ 0) }
        ensures value { IfSome result (λ b. self.now ≡ border_view b.now self.now.tree self.now.level self.now.reach self.now.holder) }
    {
        match &self.kind {
            NodeKind::Leaf(border) => Some(border),
            NodeKind::Inner(_) => None,
        }
    }

    /// The interior node that it is, if it is one.
    pub fn interior(&self) -> Option<&Interior>
        ensures kind { IsSome result ↔ (0 < self.now.level) }
        ensures value { IfSome result (λ i. self.now ≡ interior_view i.now self.now.tree self.now.level self.now.reach self.now.holder) }
    {
        match &self.kind {
            NodeKind::Leaf(_) => None,
            NodeKind::Inner(interior) => Some(interior),
        }
    }

    /// Its tree's number.
    pub fn tree(&self) -> usize
        ensures { result ≡ self.now.tree }
    {
        self.tree as usize
    }

    /// How many levels of nodes are below it.
    pub fn level(&self) -> usize
        ensures { result ≡ self.now.level }
    {
        self.level as usize
    }

    /// The operation that holds its lock.
    pub fn holder(&self) -> Option<usize>
        ensures { result ≡ self.now.holder }
    {
        self.holder
    }

    pub fn version(&self) -> Version
        ensures { result ≡ self.now.version }
    {
        match &self.kind {
            NodeKind::Leaf(border) => border.version(),
            NodeKind::Inner(interior) => interior.version(),
        }
    }

    /// The least slice of its range. It never changes.
    pub fn low(&self) -> u64
        ensures { result ≡ self.now.low }
    {
        match &self.kind {
            NodeKind::Leaf(border) => border.low(),
            NodeKind::Inner(interior) => interior.low(),
        }
    }

    /// The least slice behind its range; none, where there is no end.
    pub fn high(&self) -> Option<u64>
        ensures { result ≡ self.now.high }
    {
        match &self.kind {
            NodeKind::Leaf(border) => border.high(),
            NodeKind::Inner(interior) => interior.high(),
        }
    }

    /// The interior node above; it may lag while that one is held.
    pub fn parent(&self) -> Option<usize>
        ensures { result ≡ self.now.parent }
    {
        match &self.kind {
            NodeKind::Leaf(border) => border.parent(),
            NodeKind::Inner(interior) => interior.parent(),
        }
    }

    /// The border node whose slices come next; none of an interior node.
    pub fn next(&self) -> Option<usize>
        ensures { result ≡ self.now.next }
    {
        match &self.kind {
            NodeKind::Leaf(border) => border.next(),
            NodeKind::Inner(_) => None,
        }
    }

    // The same, as it is kept.
    pub(crate) fn next_number(&self) -> NodeNumber
        ensures { result ≡ self.now.next }
    {
        match &self.kind {
            NodeKind::Leaf(border) => border.next_number(),
            NodeKind::Inner(_) => NodeNumber::none(),
        }
    }

    /// The border node whose slices come before; it may lag while that one is held. None of an
    /// interior node.
    pub fn previous(&self) -> Option<usize>
        ensures { result ≡ self.now.previous }
    {
        match &self.kind {
            NodeKind::Leaf(border) => border.previous(),
            NodeKind::Inner(_) => None,
        }
    }

    // Writes the version.
    pub(crate) fn set_version(&mut self, version: Version)
        ensures { self.new ≡ record self.old { version = version } }
    {
        match &mut self.kind {
            NodeKind::Leaf(border) => border.set_version(version),
            NodeKind::Inner(interior) => interior.set_version(version),
        }
    }

    pub(crate) fn lock(&mut self, operation: usize)
        ensures { self.new ≡ locked self.old operation }
    {
        self.set_version(self.version().locked());
        self.holder = Some(operation);
    }

    pub(crate) fn unlock(&mut self)
        requires { CanUnlock self.old.version }
        ensures { self.new ≡ unlocked self.old }
    {
        self.set_version(self.version().unlocked());
        self.holder = None;
    }

    pub(crate) fn mark_inserting(&mut self)
        ensures { self.new ≡ inserting self.old }
    {
        self.set_version(self.version().marked_inserting());
    }

    pub(crate) fn mark_splitting(&mut self)
        ensures { self.new ≡ splitting self.old }
    {
        self.set_version(self.version().marked_splitting());
    }

    pub(crate) fn retire(&mut self)
        ensures { self.new ≡ retired self.old }
    {
        self.set_version(self.version().deleted());
    }

    /// Sets the counters of its version to 0, and gives each pair the stamp that the list has for its own.
    pub(crate) fn renumber(&mut self, stamps: &BTreeMap<u64, u64>)
        ensures { self.new ≡ renumbered (new_stamp stamps.now) self.old }
    {
        self.set_version(self.version().uncounted());
        match &mut self.kind {
            NodeKind::Leaf(border) => border.restamp(stamps),
            NodeKind::Inner(_) => {}
        }
    }

    pub(crate) fn set_parent(&mut self, parent: NodeNumber)
        ensures { self.new ≡ pointed self.old self.old.previous parent }
    {
        match &mut self.kind {
            NodeKind::Leaf(border) => border.set_parent(parent),
            NodeKind::Inner(interior) => interior.set_parent(parent.get()),
        }
    }

    pub(crate) fn set_previous(&mut self, previous: NodeNumber)
        requires { self.old.level ≡ 0 }
        ensures { self.new ≡ pointed self.old previous self.old.parent }
    {
        match &mut self.kind {
            NodeKind::Leaf(border) => border.set_previous(previous),
            NodeKind::Inner(_) => unreachable!(),
        }
    }

    /// Writes what the free slot holds that is taken next. If that slot was ever dropped, the node is
    /// marked for its readers before, and all other free slots give up what they hold.
    pub(crate) fn fill(&mut self, held: Held)
        requires border { self.old.level ≡ 0 }
        requires room { length self.old.slots < SLOTS }
        ensures after { self.new ≡ with_filled self.old held }
        ensures there { held_in self.new.cells.helds (next_free self.new.cells) ≡ held }
        ensures keeps { is_dropped self.old.cells (next_free self.old.cells) ≡ false →
            KeepsEntries self.old.slots self.old.cells self.new.slots self.new.cells }
    {
        self.mark_where_dropped();
        match &mut self.kind {
            NodeKind::Leaf(border) => border.fill(held),
            NodeKind::Inner(_) => unreachable!(),
        }
    }

    // Marks the node for its readers where the free slot that is taken next was ever dropped.
    fn mark_where_dropped(&mut self)
        requires border { self.old.level ≡ 0 }
        requires room { length self.old.slots < SLOTS }
        ensures { let dropped = is_dropped self.old.cells (next_free self.old.cells) in
            self.new ≡ record self.old { version = record self.old.version { inserting = dropped || self.old.version.inserting } } }
    {
        if self.was_dropped() {
            self.mark_inserting();
        }
    }

    // Whether the free slot that is taken next was ever dropped.
    fn was_dropped(&self) -> bool
        requires border { self.now.level ≡ 0 }
        requires room { length self.now.slots < SLOTS }
        ensures { result ≡ is_dropped self.now.cells (next_free self.now.cells) }
    {
        match &self.kind {
            NodeKind::Leaf(border) => border.was_dropped(border.next_free()),
            NodeKind::Inner(_) => unreachable!(),
        }
    }

    /// Makes the slot that was filled live, for the key of this slice and mark, placed by the step
    /// `stamp`. The version stays: where the slot was ever dropped, the fill has marked the node.
    pub(crate) fn publish_filled(&mut self, slice: u64, mark: Mark, stamp: u64)
        requires border { self.old.level ≡ 0 }
        requires room { length self.old.slots < SLOTS }
        requires entry { IsEntry (entry_filled self.old slice mark stamp) }
        requires missing { IsMissing self.old.slots slice mark }
        ensures after { let entry = entry_filled self.old slice mark stamp in
            self.new ≡ with_slots self.old (with_entry self.old.slots entry) (cells_with self.old.cells (place_in self.old.slots (order_of entry)) entry) }
        ensures live { (other : ℕ) → HasEntry self.old.slots self.old.cells other → HasEntry self.new.slots self.new.cells other }
        ensures keeps { is_dropped self.old.cells (next_free self.old.cells) ≡ false →
            KeepsEntries self.old.slots self.old.cells self.new.slots self.new.cells }
    {
        match &mut self.kind {
            NodeKind::Leaf(border) => border.publish_filled(slice, mark, stamp),
            NodeKind::Inner(_) => unreachable!(),
        }
    }

    /// Puts another row and its stamp into a slot; gives the old row back.
    pub(crate) fn store(&mut self, slot: usize, row: Row, stamp: u64) -> Row
        requires border { self.old.level ≡ 0 }
        requires live { place_at self.old slot < length self.old.slots }
        requires stable { IsStablePair (slot_at self.old (place_at self.old slot)).held }
        ensures before { (pair : Pair) → (slot_at self.old (place_at self.old slot)).held ≡ Stable pair → result ≡ pair.row }
        ensures after { (pair : Pair) → (slot_at self.old (place_at self.old slot)).held ≡ Stable pair →
            self.new ≡ with_slots self.old (replaced self.old.slots
            (record (slot_at self.old (place_at self.old slot)) { held = Stable (record pair { row = row; stamp = stamp }) }))
            (cells_holding self.old.cells (place_at self.old slot) (Stable (record pair { row = row; stamp = stamp }))) }
        ensures keeps { KeepsEntries self.old.slots self.old.cells self.new.slots self.new.cells }
    {
        match &mut self.kind {
            NodeKind::Leaf(border) => border.store(slot, row, stamp),
            NodeKind::Inner(_) => unreachable!(),
        }
    }

    /// Makes a key or a link live no more. Its slot holds what it held until it is filled again.
    pub(crate) fn let_go(&mut self, slot: usize)
        requires border { self.old.level ≡ 0 }
        requires live { place_at self.old slot < length self.old.slots }
        ensures after { let place = place_at self.old slot in
            self.new ≡ with_slots self.old (without self.old.slots (slot_at self.old place)) (cells_without self.old.cells place) }
        ensures lost { LosesOnly self.old.slots self.old.cells self.new.slots self.new.cells slot }
        ensures keeps { KeepsEntries self.old.slots self.old.cells self.new.slots self.new.cells }
    {
        match &mut self.kind {
            NodeKind::Leaf(border) => border.let_go(slot),
            NodeKind::Inner(_) => unreachable!(),
        }
    }

    /// Parts the slots of a full border node among it and its right half, which gets its range from
    /// its low fence on: where they are parted with the missing key of this slice and mark. Where
    /// there is an entry, which is that key's, it comes in too. A slot of this node that was ever dropped
    /// stays known as such. The nodes' numbers are those behind.
    pub(crate) fn split(
        &mut self,
        slice: u64,
        mark: Mark,
        entry: Option<Entry>,
        right: &mut Node,
        left_number: usize,
        right_number: usize,
    )
        requires few_left { left_number < 4294967295 }
        requires few_right { right_number < 4294967295 }
        requires border { self.old.level ≡ 0 }
        requires right_border { right.old.level ≡ 0 }
        requires full { length self.old.slots ≡ SLOTS }
        requires mark { IsMark mark }
        requires missing { IsMissing self.old.slots slice mark }
        requires entry { IfSome entry (λ e. (e.slice ≡ slice) × (e.mark ≡ mark) × IsEntry e) }
        requires empty { right.old.slots ≡ [] }
        requires separator { IsSeparator (slices_with self.old.slots slice mark) right.old.low }
        ensures parted { IsParted (with_some self.old.slots entry) self.new.slots right.new.slots right.old.low }
        ensures some_left { 0 < length self.new.slots }
        ensures some_right { 0 < length right.new.slots }
        ensures renewed { IsRenewed self.old.cells.dropped self.new.cells }
        ensures fresh { IsFresh right.new.cells }
        ensures left { self.new ≡ left_half self.old self.new.slots self.new.cells right.old.low right_number }
        ensures right { right.new ≡ right_half self.old right.old right.new.slots right.new.cells left_number }
    {
        match &mut self.kind {
            NodeKind::Leaf(left) => match &mut right.kind {
                NodeKind::Leaf(half) => {
                    match entry {
                        Some(entry) => left.split_into(entry, half),
                        None => left.split_without(slice, mark, half),
                    };
                    hand_over(left, half, left_number, right_number);
                }
                NodeKind::Inner(_) => unreachable!(),
            },
            NodeKind::Inner(_) => unreachable!(),
        }
        right.reach = self.reach;
    }

    /// A root over two halves of one, which meet at the separator: this node is the left one. The
    /// operation holds it. Its version is this one with the lock.
    pub(crate) fn top(
        &self,
        left: usize,
        separator: u64,
        right: usize,
        version: Version,
        operation: usize,
    ) -> Self
        requires { self.now.level < 4294967295 }
        ensures { result ≡ record (fresh_top self.now left separator right operation) { version = record version { locked = true } } }
    {
        let mut root = Interior::new(0, None, version.locked());
        root.put_over(left, separator, right);
        Node {
            kind: NodeKind::Inner(root),
            tree: self.tree,
            level: self.level + 1,
            reach: None,
            holder: Some(operation),
        }
    }

    /// Puts a left half that was the root below a new one, in which its range ends at its fence.
    pub(crate) fn put_below(&mut self, top: usize)
        requires few { top < 4294967295 }
        ensures { self.new ≡ left_below self.old top }
    {
        self.set_version(self.version().made_child());
        self.set_parent(NodeNumber::of(top));
        self.reach = self.high();
    }

    /// Its range in its parent ends at its fence from now on.
    pub(crate) fn make_exact(&mut self)
        ensures { self.new ≡ exact self.old }
    {
        self.reach = self.high();
    }

    /// Puts a child in that begins at the separator, and marks the node for readers of its children.
    pub(crate) fn insert_child(&mut self, separator: u64, child: usize)
        requires interior { 0 < self.old.level }
        requires room { length self.old.separators < 15 }
        requires some_child { self.old.children ≢ [] }
        requires missing { IsNew self.old.separators separator }
        ensures { self.new ≡ with_child (inserting self.old) separator child }
    {
        match &mut self.kind {
            NodeKind::Leaf(_) => unreachable!(),
            NodeKind::Inner(interior) => interior.insert_child(separator, child),
        }
        self.mark_inserting();
    }

    /// Puts a child that begins at the separator into a full node, marks the node for readers of its
    /// range, and gives its upper children to a new right half, which the operation holds and which
    /// gets the range from the middle on. The right half's version is this one with the lock and the
    /// mark.
    pub(crate) fn split_inner(
        &mut self,
        separator: u64,
        child: usize,
        version: Version,
        operation: usize,
    ) -> Self
        requires interior { 0 < self.old.level }
        requires full { length self.old.separators ≡ 15 }
        requires missing { IsNew self.old.separators separator }
        ensures left { self.new ≡ inner_left (with_child (splitting self.old) separator child) }
        ensures right { let half = inner_right (with_child (splitting self.old) separator child) operation in
            result ≡ record half { version = record version { locked = true; splitting = true } } }
    {
        self.mark_splitting();
        let half = match &mut self.kind {
            NodeKind::Leaf(_) => unreachable!(),
            NodeKind::Inner(left) => part(left, separator, child, version),
        };
        Node {
            kind: NodeKind::Inner(half),
            tree: self.tree,
            level: self.level,
            reach: self.reach,
            holder: Some(operation),
        }
    }
}

// Puts a child into a full interior node, and gives its upper children to a new right half, whose version
// is this one with the lock and the mark.
fn part(left: &mut Interior, separator: u64, child: usize, version: Version) -> Interior
    requires full { length left.old.separators ≡ 15 }
    requires missing { IsNew left.old.separators separator }
    ensures left { let wide = inner.with_child left.old separator child in
        left.new ≡ record (inner.left_half wide) { high = Some (inner.middle wide) } }
    ensures right { let wide = inner.with_child left.old separator child in
        result ≡ inner.right_half wide (childless (inner.middle wide) left.old.high (record version { locked = true; splitting = true })) }
{
    let version = version.locked().marked_splitting();
    let mut right = Interior::new(left.middle_with(separator), left.high(), version);
    let middle = left.split_into(separator, child, &mut right);
    left.set_high(Some(middle));
    right
}

// The right half gets the range from its low fence on, and stands between the left one and the next.
fn hand_over(left: &mut Border, right: &mut Border, left_number: usize, right_number: usize)
    requires few_left { left_number < 4294967295 }
    requires few_right { right_number < 4294967295 }
    ensures left { left.new ≡ record left.old { high = Some right.old.low; next = Some right_number } }
    ensures right { right.new ≡ record right.old { high = left.old.high; next = left.old.next; previous = Some left_number } }
{
    right.set_high(left.high());
    right.set_next(left.next_number());
    right.set_previous(NodeNumber::of(left_number));
    left.set_high(Some(right.low()));
    left.set_next(NodeNumber::of(right_number));
}
