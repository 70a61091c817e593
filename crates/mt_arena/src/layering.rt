//! The calls by which a layer is made: a tree of its own for the longer keys of one slice.
//!
//! The tree is made with the pair of the one key that stands in the slot, which is unstable until it
//! becomes the link. Until then the slot counts, and from then on the tree. Error: `AllocError`, from
//! `make_layer` alone.

ghost use Rattle.std.specs.Prelude.{◌≡◌, ◌<◌, ◌≤◌, ◌+◌, ◌++◌, ◌∷◌, [], ℕ, true, length, slice_set, Some, None, IsSome, IsOk, IfOk, OnOk, OnErr};
ghost use Rattle.std.specs.Vec.{vec_len, vec_capacity};
ghost use Rattle.mt_version.specs.{Parts.fresh_parts, Changes.CanRenew};
ghost use Rattle.mt_rows.specs.Rows.{Bytes};
ghost use Rattle.mt_slices.specs.declared.mark.Mark.TheVariants.{Long};
ghost use Rattle.mt_border.specs.{Keeps.KeepsEntries, Entry.{IsEntry, IsStablePair, IsUnlinked, IsLinked}, Held.{Pair, Stable, Unstable, Link}};
ghost use Rattle.mt_arena.specs.{NodeView.{node_at, place_at}, Layers.slot_at, Arena.{content_of, Guarantee}, Accesses.at, Edits.version_in};
ghost use Rattle.mt_arena.specs.{Idle.{chosen, number_of, given_border, given_tree}, Given.{StepsFrom, AreForgotten, MayRenew}};
ghost use Rattle.mt_arena.specs.Layering.{MayMakeLayer, root_of, with_layer_at, MayUnsettle, MayLink, MayGoLive, with_held, with_slot, with_link};

use crate::arena::{Arena, MOST, Place, make_room, put};
use crate::node::{Node, NodeKind};
use crate::retired::IdlePlaces;
use crate::tree::{Prefix, Standing, Tree};
use mt_border::{Entry, Pair};
use mt_version::Version;
use std::alloc::AllocError;

impl Arena {
    /// A tree for keys that begin with these bytes, which the operation begins to make: its root is a
    /// border node with this entry alone. Its record comes into that of a dead tree, and its root into the
    /// place of a border node that was taken out, each if the step `least` or an earlier one did it. If both
    /// do, then no memory is taken. What finds no old place comes into a new one. An error leaves all as it
    /// was.
    pub fn make_layer(
        &mut self,
        prefix: Prefix,
        entry: Entry,
        least: u64,
        operation: usize,
    ) -> Result<usize, AllocError>
        requires may { MayMakeLayer self.old prefix entry }
        requires forgotten { AreForgotten least self.old }
        requires renews { MayRenew least self.old }
        ensures number { IfOk result (λ tree. tree ≡ number_of (chosen self.old.retired.trees least) (length self.old.trees)) }
        ensures is { OnOk result (self.new ≡ with_layer_at self.old prefix entry least operation) }
        ensures no_memory { IsSome (chosen self.old.retired.borders least) → IsSome (chosen self.old.retired.trees least) → IsOk result }
        ensures unchanged_on_err { OnErr result (self.new ≡ self.old) }
        ensures step { StepsFrom least operation self.old self.new }
        ensures contents { content_of self.new ≡ content_of self.old }
    {
        layer_room(&mut self.nodes, &mut self.trees, &mut self.retired, least)?;
        let place = root_place(&self.nodes, &mut self.retired, least);
        let tree = tree_place(&self.trees, &mut self.retired, least);
        let root = place.number;
        let version = place.version;
        put(
            &mut self.nodes,
            root,
            Node::root_of(tree as u32, version, entry),
        );
        let made = Tree {
            prefix,
            root,
            standing: Standing::Made { by: operation },
        };
        put_tree(&mut self.trees, tree, made);
        Ok(tree)
    }

    /// Makes the pair of a longer key unstable, for which a tree of its own is made.
    pub fn mark_unstable(&mut self, node: usize, slot: usize, operation: usize)
        requires may { (pair : Pair) × MayUnsettle self.old node (place_at (at self.old node) slot) operation pair }
        ensures is { (pair : Pair) → (slot_at (at self.old node) (place_at (at self.old node) slot)).held ≡ Stable pair →
            self.new ≡ with_slot self.old node (place_at (at self.old node) slot) (Unstable pair None) }
        ensures step { Guarantee operation self.old self.new }
        ensures contents { content_of self.new ≡ content_of self.old }
    {
        self.nodes[node].mark_unstable(slot);
    }

    /// Writes the number of its tree beside an unstable pair.
    pub fn link(&mut self, node: usize, slot: usize, tree: usize, operation: usize)
        requires may { (pair : Pair) × MayLink self.old node (place_at (at self.old node) slot) operation pair }
        ensures is { (pair : Pair) → (slot_at (at self.old node) (place_at (at self.old node) slot)).held ≡ Unstable pair None →
            self.new ≡ with_slot self.old node (place_at (at self.old node) slot) (Unstable pair (Some tree)) }
        ensures step { Guarantee operation self.old self.new }
        ensures contents { content_of self.new ≡ content_of self.old }
    {
        self.nodes[node].link(slot, tree);
    }

    /// Makes the slot of an unstable pair a link to its tree, which is live from now on; gives the pair
    /// back, which stands in the tree.
    pub fn mark_layer(&mut self, node: usize, slot: usize, tree: usize, operation: usize) -> Pair
        requires may { (key : Bytes) × (pair : Pair) × MayGoLive self.old node (place_at (at self.old node) slot) tree operation key pair }
        ensures before { (pair : Pair) → (slot_at (at self.old node) (place_at (at self.old node) slot)).held ≡ Unstable pair (Some tree) → result ≡ pair }
        ensures is { self.new ≡ with_link self.old node (place_at (at self.old node) slot) tree }
        ensures step { Guarantee operation self.old self.new }
        ensures contents { content_of self.new ≡ content_of self.old }
    {
        let pair = self.nodes[node].mark_layer(slot);
        self.trees[tree].standing = Standing::Live;
        pair
    }
}

impl Node {
    /// The first node of a tree, with one entry and this version.
    pub(crate) fn root_of(tree: u32, version: Version, entry: Entry) -> Self
        requires { IsEntry entry }
        ensures { result ≡ record (root_of tree entry) { version = version } }
    {
        let mut root = Node::root(tree);
        root.set_version(version);
        match &mut root.kind {
            NodeKind::Leaf(border) => border.publish(entry),
            NodeKind::Inner(_) => unreachable!(),
        }
        root
    }

    /// Makes the pair of a longer key unstable.
    pub(crate) fn mark_unstable(&mut self, slot: usize)
        requires border { self.old.level ≡ 0 }
        requires live { place_at self.old slot < length self.old.slots }
        requires long { (slot_at self.old (place_at self.old slot)).mark ≡ Long }
        requires stable { IsStablePair (slot_at self.old (place_at self.old slot)).held }
        ensures after { (pair : Pair) → (slot_at self.old (place_at self.old slot)).held ≡ Stable pair →
            self.new ≡ with_held self.old (place_at self.old slot) (Unstable pair None) }
        ensures keeps { KeepsEntries self.old.slots self.old.cells self.new.slots self.new.cells }
    {
        match &mut self.kind {
            NodeKind::Leaf(border) => border.mark_unstable(slot),
            NodeKind::Inner(_) => unreachable!(),
        }
    }

    /// Writes a tree's number beside an unstable pair.
    pub(crate) fn link(&mut self, slot: usize, tree: usize)
        requires border { self.old.level ≡ 0 }
        requires live { place_at self.old slot < length self.old.slots }
        requires unlinked { IsUnlinked (slot_at self.old (place_at self.old slot)).held }
        ensures after { (pair : Pair) → (slot_at self.old (place_at self.old slot)).held ≡ Unstable pair None →
            self.new ≡ with_held self.old (place_at self.old slot) (Unstable pair (Some tree)) }
        ensures keeps { KeepsEntries self.old.slots self.old.cells self.new.slots self.new.cells }
    {
        match &mut self.kind {
            NodeKind::Leaf(border) => border.link(slot, tree),
            NodeKind::Inner(_) => unreachable!(),
        }
    }

    /// Makes the slot of an unstable pair a link to its tree; gives the pair back.
    pub(crate) fn mark_layer(&mut self, slot: usize) -> Pair
        requires border { self.old.level ≡ 0 }
        requires live { place_at self.old slot < length self.old.slots }
        requires linked { IsLinked (slot_at self.old (place_at self.old slot)).held }
        ensures before { (pair : Pair) (tree : ℕ) → (slot_at self.old (place_at self.old slot)).held ≡ Unstable pair (Some tree) → result ≡ pair }
        ensures after { (pair : Pair) (tree : ℕ) → (slot_at self.old (place_at self.old slot)).held ≡ Unstable pair (Some tree) →
            self.new ≡ with_held self.old (place_at self.old slot) (Link tree) }
        ensures keeps { KeepsEntries self.old.slots self.old.cells self.new.slots self.new.cells }
    {
        match &mut self.kind {
            NodeKind::Leaf(border) => border.mark_layer(slot),
            NodeKind::Inner(_) => unreachable!(),
        }
    }
}

// Takes the memory for a tree and its root, unless both may be given old places.
fn layer_room(
    nodes: &mut Vec<Node>,
    trees: &mut Vec<Tree>,
    retired: &mut IdlePlaces,
    least: u64,
) -> Result<(), AllocError>
    ensures nodes { nodes.new.items ≡ nodes.old.items }
    ensures trees { trees.new.items ≡ trees.old.items }
    ensures retired { retired.new.places ≡ retired.old.places }
    ensures no_memory { IsSome (chosen retired.old.places.borders least) → IsSome (chosen retired.old.places.trees least) → IsOk result }
    ensures node_room { OnOk result (chosen retired.old.places.borders least ≡ None → vec_len nodes.new < vec_capacity nodes.new) }
    ensures few_nodes { OnOk result (chosen retired.old.places.borders least ≡ None → vec_len nodes.new < MOST) }
    ensures room { OnOk result (chosen retired.old.places.borders least ≡ None → vec_len nodes.new + 1 ≤ retired.new.room.nodes) }
    ensures tree_room { OnOk result (chosen retired.old.places.trees least ≡ None → vec_len trees.new < vec_capacity trees.new) }
    ensures few_trees { OnOk result (chosen retired.old.places.trees least ≡ None → vec_len trees.new < MOST) }
    ensures trees_room { OnOk result (chosen retired.old.places.trees least ≡ None → vec_len trees.new + 1 ≤ retired.new.room.trees) }
    ensures no_less { retired.old.room.nodes ≤ retired.new.room.nodes }
    ensures no_fewer { retired.old.room.trees ≤ retired.new.room.trees }
{
    if retired.has_layer(least) {
        Ok(())
    } else {
        make_room(nodes, trees, retired)
    }
}

// The place of a tree's root that is made: an old one, if one may be given out, or else a new one.
fn root_place(nodes: &Vec<Node>, retired: &mut IdlePlaces, least: u64) -> Place
    requires there { (place : ℕ) → chosen retired.old.places.borders least ≡ Some place → place < length nodes.now.items }
    requires renews { (place : ℕ) → chosen retired.old.places.borders least ≡ Some place → CanRenew (node_at nodes.now.items place).version }
    ensures number { result.number ≡ number_of (chosen retired.old.places.borders least) (length nodes.now.items) }
    ensures version { result.version ≡ version_in (chosen retired.old.places.borders least) nodes.now.items (fresh_parts true true) }
    ensures given { retired.new ≡ record retired.old { places = given_border retired.old.places least } }
{
    match retired.give_border(least) {
        Some(number) => {
            let version = nodes[number].version().renewed(true);
            Place { number, version }
        }
        None => {
            let number = nodes.len();
            let version = Version::root_border();
            Place { number, version }
        }
    }
}

// The place of the tree's record.
fn tree_place(trees: &Vec<Tree>, retired: &mut IdlePlaces, least: u64) -> usize
    ensures number { result ≡ number_of (chosen retired.old.places.trees least) (length trees.now.items) }
    ensures given { retired.new ≡ record retired.old { places = given_tree retired.old.places least } }
{
    match retired.give_tree(least) {
        Some(number) => number,
        None => trees.len(),
    }
}

// Puts a tree's record into that of a dead tree, or into a new place, for which there is room.
fn put_tree(trees: &mut Vec<Tree>, number: usize, tree: Tree)
    requires there { number ≤ length trees.old.items }
    requires room { number ≡ length trees.old.items → vec_len trees.old < vec_capacity trees.old }
    ensures old_place { number < length trees.old.items → trees.new.items ≡ slice_set trees.old.items number tree }
    ensures new_place { number ≡ length trees.old.items → trees.new.items ≡ trees.old.items ++ tree ∷ [] }
{
    if number < trees.len() {
        trees[number] = tree;
    } else {
        trees.push_reserved(tree);
    }
}
