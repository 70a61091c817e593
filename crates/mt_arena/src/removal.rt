//! The calls by which nodes and trees are taken out, each with all its writes at once.
//!
//! A node that is taken out is deleted, and its place is idle, from the same step on; so is that of a
//! tree. It keeps what it had for those who still remember it. The step is at least each one that took
//! something out before, so that the steps of a list rise. No call takes memory: there is room for the
//! number of each node and tree among the idle places from the moment it is made.

ghost use Rattle.std.specs.Prelude.{◌≡◌, ◌≢◌, ◌<◌, ℕ, length, slice_set, None};
ghost use Rattle.mt_border.specs.{Entry.IsLink, Held.Link, Entries.without, Keeps.{KeepsEntries, LosesOnly}};
ghost use Rattle.mt_interior.specs.{Places.place_of, Fences.end_of};
ghost use Rattle.mt_arena.specs.{NodeView.{node_at, place_at}, Layers.slot_at, Edits.{inserting, with_slots, cells_without}, Unlinks.without_child, Collapses.crowned};
ghost use Rattle.mt_arena.specs.{Arena.{content_of, Guarantee}, Given.AreOutUpTo, Forests.tree_at, Settled.IsSettled, Lags.IsFollowedBy, Accesses.at};
ghost use Rattle.mt_arena.specs.Removals.{MayUnlink, nodes_without, without_node, MayCollapse, nodes_under, without_root, MayDropLayer, nodes_above, without_layer};

use crate::arena::Arena;
use crate::node::{Node, NodeKind};
use crate::tree::Standing;
use mt_border::{HeldRef, NodeNumber};

impl Arena {
    /// Takes an empty border node out by the step of this number: its left neighbour gets its range,
    /// and its parent loses it and is marked for readers of its children.
    pub fn unlink(&mut self, parent: usize, left: usize, node: usize, step: u64, operation: usize)
        requires may { MayUnlink self.old parent left node operation }
        requires upto { AreOutUpTo step self.old.retired }
        ensures is { self.new ≡ without_node self.old parent left node step }
        ensures step { Guarantee operation self.old self.new }
        ensures contents { content_of self.new ≡ content_of self.old }
        ensures parent_settled { IsSettled self.old.nodes parent (at self.old parent) → IsSettled self.new.nodes parent (at self.new parent) }
        ensures left_unnamed { IsSettled self.old.nodes left (at self.old left) → IsFollowedBy self.new.nodes left (at self.new left) None }
        ensures node_followed { IsSettled self.old.nodes node (at self.old node) →
            IsFollowedBy self.new.nodes node (at self.new node) (at self.old node).next }
        ensures others_settled { (k : ℕ) → k ≢ parent → k ≢ left → k ≢ node →
            IsSettled self.old.nodes k (at self.old k) → IsSettled self.new.nodes k (at self.new k) }
    {
        take_out(&mut self.nodes, parent, left, node);
        self.retired.retire_border(node, step);
    }

    /// Takes the root of a tree out by the step of this number: its only child is the root from now on.
    pub fn collapse(&mut self, root: usize, child: usize, step: u64, operation: usize)
        requires may { MayCollapse self.old root child operation }
        requires upto { AreOutUpTo step self.old.retired }
        ensures is { self.new ≡ without_root self.old root child step }
        ensures step { Guarantee operation self.old self.new }
        ensures contents { content_of self.new ≡ content_of self.old }
        ensures root_settled { IsSettled self.old.nodes root (at self.old root) → IsSettled self.new.nodes root (at self.new root) }
        ensures child_settled { IsSettled self.old.nodes child (at self.old child) → IsSettled self.new.nodes child (at self.new child) }
        ensures others_settled { (k : ℕ) → k ≢ root → k ≢ child → IsSettled self.old.nodes k (at self.old k) → IsSettled self.new.nodes k (at self.new k) }
    {
        let tree = self.nodes[root].tree();
        hand_on(&mut self.nodes, root, child);
        self.trees[tree].root = child;
        self.retired.retire_interior(root, step);
    }

    /// Takes the link of a slot out, and by the step of this number the root of the tree to which it
    /// leads: the tree's only live node, which is empty. The tree is dead from now on.
    pub fn drop_layer(&mut self, node: usize, slot: usize, step: u64, operation: usize)
        requires may { (u : ℕ) × MayDropLayer self.old node (place_at (at self.old node) slot) u operation }
        requires upto { AreOutUpTo step self.old.retired }
        ensures is { (u : ℕ) → (slot_at (at self.old node) (place_at (at self.old node) slot)).held ≡ Link u →
            self.new ≡ without_layer self.old node (place_at (at self.old node) slot) u step }
        ensures step { Guarantee operation self.old self.new }
        ensures contents { content_of self.new ≡ content_of self.old }
        ensures settled { IsSettled self.old.nodes node (at self.old node) → IsSettled self.new.nodes node (at self.new node) }
        ensures root_settled { (u : ℕ) → (slot_at (at self.old node) (place_at (at self.old node) slot)).held ≡ Link u →
            let r = (tree_at self.old.trees u).root in
            IsSettled self.old.nodes r (at self.old r) → IsSettled self.new.nodes r (at self.new r) }
        ensures others_settled { (u k : ℕ) → (slot_at (at self.old node) (place_at (at self.old node) slot)).held ≡ Link u → k ≢ node → k ≢ (tree_at self.old.trees u).root →
            IsSettled self.old.nodes k (at self.old k) → IsSettled self.new.nodes k (at self.new k) }
    {
        let lower = self.nodes[node].link_at(slot);
        let root = self.trees[lower].root;
        drop_link(&mut self.nodes, node, slot, root);
        self.trees[lower].standing = Standing::Dead;
        self.retired.retire_border(root, step);
        self.retired.retire_tree(lower, step);
    }
}

impl Node {
    /// Where its range ends in its parent; none, where there is no end.
    pub fn reach(&self) -> Option<u64>
        ensures { result ≡ self.now.reach }
    {
        self.reach
    }

    /// A border node's range ends elsewhere from now on, and another node comes next.
    pub(crate) fn extend(&mut self, high: Option<u64>, reach: Option<u64>, next: NodeNumber)
        requires border { self.old.level ≡ 0 }
        ensures { self.new ≡ record self.old { high = high; reach = reach; next = next } }
    {
        match &mut self.kind {
            NodeKind::Leaf(border) => {
                border.set_high(high);
                border.set_next(next);
            }
            NodeKind::Inner(_) => unreachable!(),
        }
        self.reach = reach;
    }

    /// Takes the child that begins at this slice out, which is not the first, and marks the node for
    /// readers of its children.
    pub(crate) fn remove_child(&mut self, low: u64)
        requires interior { 0 < self.old.level }
        requires not_first { 0 < place_of self.old.separators low }
        requires there { place_of self.old.separators low < length self.old.children }
        ensures { self.new ≡ without_child (inserting self.old) (place_of self.old.separators low) }
    {
        match &mut self.kind {
            NodeKind::Leaf(_) => unreachable!(),
            NodeKind::Inner(interior) => {
                let place = interior.place_of(low);
                interior.remove_child(place);
            }
        }
        self.mark_inserting();
    }

    /// The number of the tree to which a slot leads.
    pub(crate) fn link_at(&self, slot: usize) -> usize
        requires border { self.now.level ≡ 0 }
        requires live { place_at self.now slot < length self.now.slots }
        requires link { IsLink (slot_at self.now (place_at self.now slot)).held }
        ensures { (slot_at self.now (place_at self.now slot)).held ≡ Link result }
    {
        match &self.kind {
            NodeKind::Leaf(border) => match border.load(slot) {
                Some(held) => match held.seen() {
                    HeldRef::Link(tree) => tree,
                    _ => unreachable!(),
                },
                None => unreachable!(),
            },
            NodeKind::Inner(_) => unreachable!(),
        }
    }

    /// Makes a node a root. Its range ends nowhere.
    pub(crate) fn crown(&mut self)
        requires { end_of self.old.reach ≡ 18446744073709551616 }
        ensures after { self.new ≡ crowned self.old }
        ensures endless { self.old.reach ≡ None }
    {
        prove!(self.reach.is_none());
        self.set_version(self.version().made_root());
        self.set_parent(NodeNumber::none());
    }
}

// Takes a border node out: the one before it gets its range, and its parent loses it.
fn take_out(nodes: &mut Vec<Node>, parent: usize, left: usize, node: usize)
    requires there { parent < length nodes.old.items }
    requires left_there { left < length nodes.old.items }
    requires node_there { node < length nodes.old.items }
    requires differ { left ≢ node }
    requires differ_left { left ≢ parent }
    requires differ_node { node ≢ parent }
    requires left_border { (node_at nodes.old.items left).level ≡ 0 }
    requires border { (node_at nodes.old.items node).level ≡ 0 }
    requires interior { 0 < (node_at nodes.old.items parent).level }
    requires not_first { 0 < place_of (node_at nodes.old.items parent).separators (node_at nodes.old.items node).low }
    requires in_range { place_of (node_at nodes.old.items parent).separators (node_at nodes.old.items node).low <
        length (node_at nodes.old.items parent).children }
    ensures { nodes.new.items ≡ nodes_without nodes.old.items parent left node }
{
    let low = nodes[node].low();
    let high = nodes[node].high();
    let reach = nodes[node].reach();
    let next = nodes[node].next_number();
    nodes[left].extend(high, reach, next);
    nodes[node].retire();
    nodes[parent].remove_child(low);
}

// Takes a root out, and makes its child the root.
fn hand_on(nodes: &mut Vec<Node>, root: usize, child: usize)
    requires there { root < length nodes.old.items }
    requires child_there { child < length nodes.old.items }
    requires differ { root ≢ child }
    requires endless { end_of (node_at nodes.old.items child).reach ≡ 18446744073709551616 }
    ensures nodes { nodes.new.items ≡ nodes_under nodes.old.items root child }
    ensures endless { (node_at nodes.old.items child).reach ≡ None }
{
    nodes[root].retire();
    nodes[child].crown();
}

// Takes the link of a slot out, and the root to which it leads.
fn drop_link(nodes: &mut Vec<Node>, node: usize, slot: usize, root: usize)
    requires there { node < length nodes.old.items }
    requires root_there { root < length nodes.old.items }
    requires differ { node ≢ root }
    requires border { (node_at nodes.old.items node).level ≡ 0 }
    requires live { place_at (node_at nodes.old.items node) slot < length (node_at nodes.old.items node).slots }
    ensures nodes { nodes.new.items ≡ nodes_above nodes.old.items node (place_at (node_at nodes.old.items node) slot) root }
    ensures lost { let n = node_at nodes.old.items node in let place = place_at n slot in
        LosesOnly n.slots n.cells (without n.slots (slot_at n place)) (cells_without n.cells place) slot }
    ensures keeps { let n = node_at nodes.old.items node in let place = place_at n slot in
        KeepsEntries n.slots n.cells (without n.slots (slot_at n place)) (cells_without n.cells place) }
{
    nodes[node].let_go(slot);
    nodes[root].retire();
}
