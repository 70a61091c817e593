//! What follows from the facts of nodes, trees and links, and what steps make of the contents. Each
//! is a contract alone: no code runs.

ghost use Rattle.std.specs.Prelude.{◌≡◌, ◌≢◌, ℕ, ◌+◌, ◌*◌, ◌<◌, ◌≤◌, ◌⊎◌, true, false, List, [], ◌∷◌, ◌++◌, length, take, slice_index, slice_set, Option, Some, None};
ghost use Rattle.std.specs.List.{remove};
ghost use Rattle.std.specs.FinMap as pairs;
ghost use Rattle.mt_slices.specs.{Keys.IsStoredKey, Slices.{slice_of, mark_of, suffix_of, piece_bytes}, declared.mark.Mark.TheVariants.Long};
ghost use Rattle.mt_slices.specs.declared.mark.Mark.{Mark};
ghost use Rattle.mt_rows.specs.{Rows.{Bytes, Columns}, Stamps.Stamped};
ghost use Rattle.mt_border.specs.{Held.{Pair, Held, Stable, Link}, declared.entry.Entry.Entry, Entry.pair_of, Entries.{IsMissing, with_entry}, Split.IsParted};
ghost use Rattle.mt_border.specs.Contents.{owned, HasKey, row_of};
ghost use Rattle.mt_arena.specs.{declared.tree.Tree.Tree, declared.tree.Standing.TheVariants.{Dead, Live}, NodeView.{NodeView, node_at}};
ghost use Rattle.mt_arena.specs.{Nodes.{Holds, HasRange}, Forests.{HasSlice, tree_at, layer_of}, RootLevels.{levels_above, levels_of}, Layers.slot_at};
ghost use Rattle.mt_arena.specs.{Contents.content, Arena.{IsArena, ArenaView, Guarantee, live_count}, Guarantee.{NodesGuarantee, PointsOnly}};
ghost use Rattle.mt_arena.specs.Layering.{MayMakeLayer, MayUnsettle, IsHeldSlot, HasKeyAt, IsLayerOf, IsSettledBut, entry_of, prefix_below, tree_number, with_layer_at, with_slot, with_link};
ghost use Rattle.mt_arena.specs.{Settled.IsSettled, Lags.IsFollowedBy, Edits.{pointed, locked, splitting, again_half, blank_again}, Idle.AreRetired, Given.{GivesOut, AreForgotten}, Accesses.{at, tree_of, with_node, IsOpen}, Removals.IsOnlyLiveNode};
ghost use Rattle.mt_arena.specs.{Stands.{IsLiveBorder, StandsAt}, Ways.{LinksOn, BelongsIn, StandsFor, GoesOn, HasSlots, IsUnfilled, IsMadeFor, IsFreeRoot}};
ghost use Rattle.mt_interior.specs.Places.{place_of};

/// In a tree a slice and a mark stand in one slot of one live border node, and all slots of one
/// slice stand in one node: the one that has the slice in its range.
pub fn one_place()
    ensures one_border { (nodes : List NodeView) (trees : List Tree) (tree slice k l : ℕ) →
        IsArena nodes trees → IsLiveBorder nodes tree k → IsLiveBorder nodes tree l →
        Holds (node_at nodes k) slice → Holds (node_at nodes l) slice → k ≡ l }
    ensures one_node { (nodes : List NodeView) (trees : List Tree) (tree slice : ℕ) (mark other : Mark) (k i l j : ℕ) →
        IsArena nodes trees → StandsAt nodes tree slice mark k i →
        StandsAt nodes tree slice other l j → k ≡ l }
    ensures one_slot { (nodes : List NodeView) (trees : List Tree) (tree slice : ℕ) (mark : Mark) (k i l j : ℕ) →
        IsArena nodes trees → StandsAt nodes tree slice mark k i →
        StandsAt nodes tree slice mark l j → (k ≡ l) × (i ≡ j) }
{}

/// Two live trees have two prefixes, and above a live tree each layer has a link on the way to it,
/// from a live border node of a live tree to the live tree of the next layer. Every stored key may
/// be looked for in the top tree, and on behind a link at its slice and mark; it belongs in that live
/// border node of the tree that has its slice in its range.
pub fn linked_from_the_top()
    ensures one_tree { (nodes : List NodeView) (trees : List Tree) (t u : ℕ) → IsArena nodes trees →
        (tree_at trees t).standing ≡ Live → (tree_at trees u).standing ≡ Live →
        (tree_at trees t).prefix ≡ (tree_at trees u).prefix → t ≡ u }
    ensures links { (nodes : List NodeView) (trees : List Tree) (key : Bytes) (t layer above : ℕ) →
        IsArena nodes trees → (tree_at trees t).standing ≡ Live →
        (tree_at trees t).prefix ≡ take (8 * layer) key → 8 * layer ≤ length key →
        above < layer → LinksOn nodes trees key above }
    ensures top { (nodes : List NodeView) (trees : List Tree) (key : Bytes) →
        IsArena nodes trees → IsStoredKey key → GoesOn trees key 0 0 }
    ensures down { (nodes : List NodeView) (trees : List Tree) (key : Bytes) (layer k i u : ℕ) →
        IsArena nodes trees → BelongsIn nodes trees key layer k →
        StandsAt nodes (node_at nodes k).tree (slice_of key layer) (mark_of key layer) k i →
        (slot_at (node_at nodes k) i).held ≡ Link u → GoesOn trees key (layer + 1) u }
    ensures here { (nodes : List NodeView) (trees : List Tree) (key : Bytes) (layer u k : ℕ) →
        GoesOn trees key layer u → IsLiveBorder nodes u k →
        Holds (node_at nodes k) (slice_of key layer) → BelongsIn nodes trees key layer k }
{}

/// What the node in which a key belongs tells of the key is so in all trees: where it misses the key
/// or has another one at its slice and mark, the contents have none, and where it has the key's
/// pair, they have that one's row and no other slot has the key.
pub fn none_elsewhere()
    ensures missing { (nodes : List NodeView) (trees : List Tree) (key : Bytes) (layer k : ℕ) →
        IsArena nodes trees → BelongsIn nodes trees key layer k →
        IsMissing (node_at nodes k).slots (slice_of key layer) (mark_of key layer) →
        pairs.get (content trees nodes) (owned key) ≡ None }
    ensures other { (nodes : List NodeView) (trees : List Tree) (key : Bytes) (layer k i : ℕ) (other : Pair) →
        IsArena nodes trees → BelongsIn nodes trees key layer k →
        StandsAt nodes (node_at nodes k).tree (slice_of key layer) (mark_of key layer) k i →
        pair_of (slot_at (node_at nodes k) i).held ≡ Some other →
        other.suffix ≢ suffix_of key layer →
        pairs.get (content trees nodes) (owned key) ≡ None }
    ensures found { (nodes : List NodeView) (trees : List Tree) (key : Bytes) (layer k i : ℕ) (pair : Pair) →
        IsArena nodes trees → StandsFor nodes trees key layer k i pair →
        pairs.get (content trees nodes) (owned key) ≡ Some (row_of pair) }
    ensures once { (nodes : List NodeView) (trees : List Tree) (key : Bytes) (layer k i : ℕ) (pair : Pair) (low l j : ℕ) (other : Pair) →
        IsArena nodes trees → StandsFor nodes trees key layer k i pair →
        StandsFor nodes trees key low l j other → (k ≡ l) × (i ≡ j) }
{}

/// What a change of one slot is for the contents: to publish the entry of a missing key inserts its
/// pair, also where the node's slots are parted among two nodes in the same step; to store a row in
/// its slot, or to replace its entry, inserts the new row, and to drop the slot removes the pair.
pub fn contents_by_slot()
    ensures publish { (nodes : List NodeView) (trees : List Tree) (key : Bytes) (layer k : ℕ) (y : NodeView) (e : Entry) (pair : Pair) →
        IsArena nodes trees → BelongsIn nodes trees key layer k →
        HasKey (tree_at trees (node_at nodes k).tree).prefix layer e key →
        IsMissing (node_at nodes k).slots e.slice e.mark → pair_of e.held ≡ Some pair →
        HasSlots (node_at nodes k) y (with_entry (node_at nodes k).slots e) →
        content trees (slice_set nodes k y) ≡ pairs.insert (content trees nodes) (owned key) (row_of pair) }
    ensures split { (nodes : List NodeView) (trees : List Tree) (key : Bytes) (layer k j : ℕ) (x y : NodeView) (left right : List Entry) (separator : ℕ) (e : Entry) (pair : Pair) →
        IsArena nodes trees → BelongsIn nodes trees key layer k → IsUnfilled nodes k j →
        HasKey (tree_at trees (node_at nodes k).tree).prefix layer e key →
        IsMissing (node_at nodes k).slots e.slice e.mark → pair_of e.held ≡ Some pair →
        IsParted (with_entry (node_at nodes k).slots e) left right separator →
        HasSlots (node_at nodes k) x left → HasSlots (node_at nodes j) y right →
        content trees (slice_set (slice_set nodes k x) j y) ≡ pairs.insert (content trees nodes) (owned key) (row_of pair) }
    ensures store { (nodes : List NodeView) (trees : List Tree) (key : Bytes) (layer k i : ℕ) (pair : Pair) (y : NodeView) (row : Columns) (stamp : ℕ) →
        IsArena nodes trees → StandsFor nodes trees key layer k i pair →
        HasSlots (node_at nodes k) y (slice_set (node_at nodes k).slots i (record (slot_at (node_at nodes k) i) { held = Stable (record pair { row = row; stamp = stamp }) })) →
        content trees (slice_set nodes k y) ≡ pairs.insert (content trees nodes) (owned key) (record { stamp = stamp; row = row }) }
    ensures replace { (nodes : List NodeView) (trees : List Tree) (key : Bytes) (layer k i : ℕ) (pair : Pair) (y : NodeView) (e : Entry) (new : Pair) →
        IsArena nodes trees → StandsFor nodes trees key layer k i pair →
        HasKey (tree_at trees (node_at nodes k).tree).prefix layer e key → pair_of e.held ≡ Some new →
        HasSlots (node_at nodes k) y (slice_set (node_at nodes k).slots i e) →
        content trees (slice_set nodes k y) ≡ pairs.insert (content trees nodes) (owned key) (row_of new) }
    ensures drop { (nodes : List NodeView) (trees : List Tree) (key : Bytes) (layer k i : ℕ) (pair : Pair) (y : NodeView) →
        IsArena nodes trees → StandsFor nodes trees key layer k i pair →
        HasSlots (node_at nodes k) y (remove (node_at nodes k).slots i) →
        content trees (slice_set nodes k y) ≡ pairs.remove (content trees nodes) (owned key) }
{}

/// What leaves the contents as they are: a change of a node but for its slots, its tree and whether
/// it is deleted, slots that are parted among two nodes, a slot that holds its pair otherwise, a link
/// that is taken out, any change of a node without slots, one more such node, one more tree, another root in a tree's record, and any
/// change of a tree whose nodes are deleted or have no slots.
pub fn contents_stand()
    ensures same_slots { (nodes : List NodeView) (trees : List Tree) (k : ℕ) (y : NodeView) →
        HasSlots (node_at nodes k) y (node_at nodes k).slots →
        content trees (slice_set nodes k y) ≡ content trees nodes }
    ensures parted { (nodes : List NodeView) (trees : List Tree) (k j : ℕ) (x y : NodeView) (left right : List Entry) (separator : ℕ) →
        IsArena nodes trees → k < length nodes → (node_at nodes k).version.deleted ≡ false →
        (tree_at trees (node_at nodes k).tree).standing ≡ Live → IsUnfilled nodes k j →
        IsParted (node_at nodes k).slots left right separator →
        HasSlots (node_at nodes k) x left → HasSlots (node_at nodes j) y right →
        content trees (slice_set (slice_set nodes k x) j y) ≡ content trees nodes }
    ensures same_pair { (nodes : List NodeView) (trees : List Tree) (k i : ℕ) (y : NodeView) (held : Held) →
        pair_of held ≡ pair_of (slot_at (node_at nodes k) i).held →
        HasSlots (node_at nodes k) y (slice_set (node_at nodes k).slots i (record (slot_at (node_at nodes k) i) { held = held })) →
        content trees (slice_set nodes k y) ≡ content trees nodes }
    ensures no_link { (nodes : List NodeView) (trees : List Tree) (k i u : ℕ) (y : NodeView) →
        (slot_at (node_at nodes k) i).held ≡ Link u →
        HasSlots (node_at nodes k) y (remove (node_at nodes k).slots i) →
        content trees (slice_set nodes k y) ≡ content trees nodes }
    ensures no_slots { (nodes : List NodeView) (trees : List Tree) (k : ℕ) (y : NodeView) →
        (node_at nodes k).slots ≡ [] → y.slots ≡ [] →
        content trees (slice_set nodes k y) ≡ content trees nodes }
    ensures push { (nodes : List NodeView) (trees : List Tree) (y : NodeView) → y.slots ≡ [] →
        content trees (nodes ++ y ∷ []) ≡ content trees nodes }
    ensures push_tree { (nodes : List NodeView) (trees : List Tree) (tree : Tree) → IsArena nodes trees →
        content (trees ++ tree ∷ []) nodes ≡ content trees nodes }
    ensures set_tree { (nodes : List NodeView) (trees : List Tree) (t : ℕ) (tree : Tree) → t < length trees →
        tree.prefix ≡ (tree_at trees t).prefix → tree.standing ≡ (tree_at trees t).standing →
        content (slice_set trees t tree) nodes ≡ content trees nodes }
    ensures left_tree { (nodes : List NodeView) (trees : List Tree) (t : ℕ) (tree : Tree) →
        ((l : ℕ) → l < length nodes → (node_at nodes l).tree ≡ t →
        ((node_at nodes l).version.deleted ≡ true) ⊎ ((node_at nodes l).slots ≡ [])) →
        content (slice_set trees t tree) nodes ≡ content trees nodes }
{}

/// A slot whose entry gives way to one without a pair, as the tree that was made for its key and
/// row goes live, leaves the contents as they are.
pub fn contents_stand_as_a_tree_goes_live()
    ensures { (nodes : List NodeView) (trees : List Tree) (key : Bytes) (layer k i : ℕ) (pair : Pair) (low t r : ℕ) (tree : Tree) (y : NodeView) (e : Entry) →
        IsArena nodes trees → StandsFor nodes trees key layer k i pair →
        IsMadeFor nodes trees key low t r (row_of pair) →
        tree.prefix ≡ (tree_at trees t).prefix → tree.standing ≡ Live → pair_of e.held ≡ None →
        HasSlots (node_at nodes k) y (slice_set (node_at nodes k).slots i e) →
        content (slice_set trees t tree) (slice_set nodes k y) ≡ content trees nodes }
{}

/// Where a slot of a longer key is no link, no live tree has the prefix that its tree would have: its
/// link would stand in this slot.
pub fn no_layer_without_a_link()
    ensures { (nodes : List NodeView) (trees : List Tree) (tree slice k i : ℕ) → IsArena nodes trees →
        (tree_at trees tree).standing ≡ Live → StandsAt nodes tree slice Long k i →
        ((u : ℕ) → (slot_at (node_at nodes k) i).held ≢ Link u) →
        (u : ℕ) → (tree_at trees u).standing ≡ Live → (tree_at trees u).prefix ≢ (tree_at trees tree).prefix ++ piece_bytes slice Long }
{}

/// A slot has a key, and the pair of a longer key may be put alone into a tree of the next layer: the
/// entry that the key has there is one of it.
pub fn a_key_goes_on_in_the_next_layer()
    ensures key { (v : ArenaView) (node i : ℕ) → IsArena v.nodes v.trees → node < length v.nodes → i < length (at v node).slots →
        (key : Bytes) × HasKeyAt v node i key }
    ensures below { (v : ArenaView) (node i op : ℕ) (pair : Pair) (key : Bytes) (row : Columns) (stamp : ℕ) →
        IsArena v.nodes v.trees → MayUnsettle v node i op pair → HasKeyAt v node i key →
        let prefix = prefix_below v node i in
        let e = entry_of key (layer_of (tree_of v node).prefix + 1) row stamp in
        MayMakeLayer v prefix e × HasKey prefix (layer_of prefix) e key }
{}

/// What an operation needs for the layer that it makes stays so while others go on, and through its
/// own steps: once its tree is made it may make the slot a link.
pub fn a_layer_stays_its_makers()
    ensures slot { (op maker : ℕ) (old new : ArenaView) (node i : ℕ) (what : Held) →
        (tree_of new node).standing ≢ Dead → Guarantee op old new → maker ≢ op →
        IsHeldSlot old node i maker what → IsHeldSlot new node i maker what }
    ensures layer { (op maker : ℕ) (old new : ArenaView) (node i t : ℕ) (what : Held) (key : Bytes) (row : Stamped) →
        (tree_of new node).standing ≢ Dead → Guarantee op old new → maker ≢ op →
        IsLayerOf old node i t maker what key row → IsLayerOf new node i t maker what key row }
    ensures made { (v : ArenaView) (node i op least : ℕ) (what : Held) (key : Bytes) (e : Entry) (pair : Pair) →
        IsArena v.nodes v.trees → AreRetired v.nodes v.trees v.retired → AreForgotten least v →
        IsHeldSlot v node i op what → HasKeyAt v node i key →
        let prefix = prefix_below v node i in
        HasKey prefix (layer_of prefix) e key → pair_of e.held ≡ Some pair →
        IsLayerOf (with_layer_at v prefix e least op) node i (tree_number least v) op what key (row_of pair) }
    ensures held { (v : ArenaView) (node i t op : ℕ) (what held : Held) (key : Bytes) (row : Stamped) →
        IsArena v.nodes v.trees → IsLayerOf v node i t op what key row →
        ((pair : Pair) → pair_of held ≡ Some pair → pair_of what ≡ Some pair) →
        IsLayerOf (with_slot v node i held) node i t op held key row }
{}

/// While an operation makes a layer, nothing comes to lag behind its node but what the slot holds,
/// and once that is a link nothing does: then it may give the lock back.
pub fn settled_once_linked()
    ensures before { (nodes : List NodeView) (k i : ℕ) → IsSettled nodes k (node_at nodes k) → IsSettledBut nodes k i }
    ensures others { (op holder : ℕ) (old new : List NodeView) (were are : List Tree) (k i : ℕ) →
        NodesGuarantee op old new were are → PointsOnly op old new → holder ≢ op → k < length old →
        (node_at old k).holder ≡ Some holder → IsSettledBut old k i → IsSettledBut new k i }
    ensures made { (v : ArenaView) (prefix : Bytes) (e : Entry) (least op k i : ℕ) →
        IsArena v.nodes v.trees → AreRetired v.nodes v.trees v.retired → AreForgotten least v →
        k < length v.nodes → (at v k).version.deleted ≡ false →
        IsSettledBut v.nodes k i → IsSettledBut (with_layer_at v prefix e least op).nodes k i }
    ensures held { (v : ArenaView) (k i : ℕ) (held : Held) → IsArena v.nodes v.trees → k < length v.nodes → i < length (at v k).slots →
        IsSettledBut v.nodes k i → IsSettledBut (with_slot v k i held).nodes k i }
    ensures linked { (v : ArenaView) (k i t : ℕ) → IsArena v.nodes v.trees → k < length v.nodes → i < length (at v k).slots →
        IsSettledBut v.nodes k i → let w = with_link v k i t in IsSettled w.nodes k (at w k) }
{}

/// A node that has a parent has a range, and is no root: another parent may be written into it.
pub fn a_child_is_no_root()
    ensures { (nodes : List NodeView) (trees : List Tree) (k : ℕ) → IsArena nodes trees → k < length nodes →
        (node_at nodes k).version.deleted ≡ false → (node_at nodes k).parent ≢ None →
        HasRange (node_at nodes k) × ((node_at nodes k).version.root ≡ false) }
{}

/// A root that is a border node and that nobody holds is the only live node of its tree: every other
/// one, also one that an operation has just made, is deleted.
pub fn alone_in_its_tree()
    ensures { (nodes : List NodeView) (trees : List Tree) (r k : ℕ) → IsArena nodes trees → IsFreeRoot nodes trees r →
        k < length nodes → k ≢ r → (node_at nodes k).tree ≡ (node_at nodes r).tree →
        (node_at nodes k).version.deleted ≡ true }
{}

/// A live node that has a range stands above fewer levels than nodes are live: on each level below it
/// a live node stands. So does the root of a live tree.
pub fn a_level_needs_a_node()
    ensures node { (nodes : List NodeView) (trees : List Tree) (k : ℕ) → IsArena nodes trees → k < length nodes →
        (node_at nodes k).version.deleted ≡ false → HasRange (node_at nodes k) → (node_at nodes k).level < live_count nodes }
    ensures root { (nodes : List NodeView) (trees : List Tree) (t : ℕ) → IsArena nodes trees → t < length trees →
        (tree_at trees t).standing ≡ Live →
        let r = (tree_at trees t).root in (r < length nodes) × ((node_at nodes r).level < live_count nodes) }
{}

/// A live tree has a live node on each of its levels, and no two trees have one node: so the levels of the
/// live trees of all layers above any one are no more than the live nodes. A tree adds its own below it.
pub fn levels_are_few()
    ensures few { (nodes : List NodeView) (trees : List Tree) (layer : ℕ) → IsArena nodes trees → levels_above nodes trees layer ≤ live_count nodes }
    ensures adds { (nodes : List NodeView) (trees : List Tree) (layer t : ℕ) → t < length trees → (tree_at trees t).standing ≡ Live → layer_of (tree_at trees t).prefix ≡ layer →
        levels_above nodes trees layer + levels_of nodes (tree_at trees t) ≤ levels_above nodes trees (layer + 1) }
    ensures top { (nodes : List NodeView) (trees : List Tree) → levels_above nodes trees 0 ≡ 0 }
{}

/// A child stands in its parent at the place where its low fence belongs among the separators.
pub fn a_child_stands_where_it_begins()
    ensures { (nodes : List NodeView) (trees : List Tree) (parent k place : ℕ) → IsArena nodes trees → parent < length nodes → k < length nodes →
        (node_at nodes parent).version.deleted ≡ false → place < length (node_at nodes parent).children →
        slice_index (node_at nodes parent).children place ≡ k →
        place_of (node_at nodes parent).separators (node_at nodes k).low ≡ place }
{}

/// If a live border node has a next one, it ends where that one begins, and that is the slice of a stored
/// key of its tree. So is the high fence of a live border node that has a range and such a fence.
pub fn a_next_node_begins_at_a_key()
    ensures next { (nodes : List NodeView) (trees : List Tree) (k x : ℕ) → IsArena nodes trees → k < length nodes →
        (node_at nodes k).version.deleted ≡ false → (node_at nodes k).level ≡ 0 → (node_at nodes k).next ≡ Some x →
        ((node_at nodes k).high ≡ Some (node_at nodes x).low) × HasSlice (tree_at trees (node_at nodes k).tree).prefix (node_at nodes x).low }
    ensures high { (nodes : List NodeView) (trees : List Tree) (k high : ℕ) → IsArena nodes trees → k < length nodes →
        (node_at nodes k).version.deleted ≡ false → (node_at nodes k).level ≡ 0 → HasRange (node_at nodes k) → (node_at nodes k).high ≡ Some high →
        HasSlice (tree_at trees (node_at nodes k).tree).prefix high }
{}

/// The only live node of a tree is so as its lock is taken.
pub fn alone_once_locked()
    ensures { (v : ArenaView) (r op : ℕ) → IsArena v.nodes v.trees → IsFreeRoot v.nodes v.trees r →
        IsOnlyLiveNode (with_node v r (locked (at v r) op)) (at v r).tree r }
{}

/// Between a removal and the step by which the node behind names its new neighbour, no more comes to
/// lag behind the nodes that the operation holds. By that step the neighbour has its follower back, and
/// the removed node none: then all locks may be given back.
pub fn followed_until_named()
    ensures others { (op holder : ℕ) (old new : List NodeView) (were are : List Tree) (k : ℕ) (named : Option ℕ) →
        NodesGuarantee op old new were are → PointsOnly op old new → holder ≢ op → k < length old →
        (node_at old k).holder ≡ Some holder → IsFollowedBy old k (node_at old k) named → IsFollowedBy new k (node_at new k) named }
    ensures named { (nodes : List NodeView) (left behind : ℕ) → behind < length nodes → left ≢ behind →
        IsFollowedBy nodes left (node_at nodes left) None →
        let after = slice_set nodes behind (pointed (node_at nodes behind) (Some left) (node_at nodes behind).parent) in
        IsFollowedBy after left (node_at after left) (Some behind) }
    ensures unnamed { (nodes : List NodeView) (left removed behind : ℕ) → behind < length nodes → left ≢ removed → removed ≢ behind →
        IsFollowedBy nodes removed (node_at nodes removed) (Some behind) →
        let after = slice_set nodes behind (pointed (node_at nodes behind) (Some left) (node_at nodes behind).parent) in
        IsFollowedBy after removed (node_at after removed) None }
    ensures beside { (nodes : List NodeView) (left behind k : ℕ) → behind < length nodes → k ≢ left → k ≢ behind →
        IsSettled nodes k (node_at nodes k) →
        let after = slice_set nodes behind (pointed (node_at nodes behind) (Some left) (node_at nodes behind).parent) in
        IsSettled after k (node_at after k) }
    ensures by_none { (nodes : List NodeView) (k : ℕ) (x : NodeView) → IsFollowedBy nodes k x None → IsSettled nodes k x }
    ensures by_the_next { (nodes : List NodeView) (k : ℕ) (x : NodeView) → x.version.deleted ≡ false →
        IsFollowedBy nodes k x x.next → IsSettled nodes k x }
{}

/// The guarantees of one operation's steps add up: where nothing is done nothing changes, and two
/// steps are as one, also in whom nodes name where the second one gives no lock back. While another
/// operation goes on, nothing comes to lag behind a node that is held.
pub fn steps_add_up()
    ensures none { (op : ℕ) (nodes : List NodeView) (trees : List Tree) → NodesGuarantee op nodes nodes trees trees }
    ensures two { (op : ℕ) (old mid new : List NodeView) (were between are : List Tree) → IsArena old were →
        NodesGuarantee op old mid were between → NodesGuarantee op mid new between are → NodesGuarantee op old new were are }
    ensures points { (op : ℕ) (old mid new : List NodeView) → length old ≤ length mid → PointsOnly op old mid → PointsOnly op mid new →
        ((j : ℕ) → j < length mid → (node_at mid j).holder ≡ Some op → (node_at new j).holder ≡ Some op) → PointsOnly op old new }
    ensures settled { (op holder : ℕ) (old new : List NodeView) (were are : List Tree) (k : ℕ) →
        NodesGuarantee op old new were are → PointsOnly op old new → holder ≢ op → k < length old →
        (node_at old k).holder ≡ Some holder → IsSettled old k (node_at old k) → IsSettled new k (node_at new k) }
{}

/// The place of a border node that was taken out, and that nobody holds, may be given out again as the
/// right half of a border node that is being split: all facts stand, and so do the contents. No other
/// node changes.
pub fn a_place_may_be_given_out_again()
    ensures arena { (nodes : List NodeView) (trees : List Tree) (left k low op : ℕ) → IsArena nodes trees → left < length nodes → k < length nodes → left ≢ k →
        (node_at nodes k).version.deleted ≡ true → (node_at nodes k).holder ≡ None → (node_at nodes k).version.border ≡ true →
        (node_at nodes left).version.deleted ≡ false → (node_at nodes left).holder ≡ Some op → (node_at nodes left).version.splitting ≡ true →
        (node_at nodes left).level ≡ 0 → HasRange (node_at nodes left) → HasSlice (tree_at trees (node_at nodes left).tree).prefix low →
        IsArena (slice_set nodes k (again_half (node_at nodes k) (node_at nodes left) left low op)) trees }
    ensures contents { (nodes : List NodeView) (trees : List Tree) (left k low op : ℕ) → (node_at nodes k).version.deleted ≡ true →
        content trees (slice_set nodes k (again_half (node_at nodes k) (node_at nodes left) left low op)) ≡ content trees nodes }
{}

/// What the giving out of a place leaves to others: it is as if the place had a blank node first, which
/// nobody holds and which names nobody. From there on it is a step as any other.
pub fn a_place_that_is_given_out_changes_as_a_node()
    ensures gives { (v : ArenaView) (left k low : ℕ) → k < length v.nodes → (at v k).version.deleted ≡ true → (at v k).holder ≡ None →
        GivesOut v (with_node v k (blank_again (at v k) (at v left) low)) }
    ensures step { (v : ArenaView) (left k low op : ℕ) → left < length v.nodes → k < length v.nodes → left ≢ k → (at v left).holder ≡ Some op → IsOpen v left op →
        ((j : ℕ) → j < length v.nodes → (at v j).tree < length v.trees) →
        let mid = slice_set v.nodes k (blank_again (at v k) (at v left) low) in
        Guarantee op (record v { nodes = mid }) (record v { nodes = slice_set (slice_set mid left (splitting (at v left))) k (again_half (at v k) (at v left) left low op) }) }
{}
