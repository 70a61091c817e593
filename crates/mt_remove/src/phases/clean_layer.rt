//! CleanLayer: takes out the link to an empty layer, with its tree.

ghost use Rattle.std.specs.Prelude.{◌≡◌, ◌≢◌, ◌<◌, ℕ, true, false, [], IfSome, IfNone, length, Some, None};
ghost use Rattle.mt_arena.specs.{NodeView.place_at, Settled.IsSettled, Arena.{content_of, Guarantee}, Given.AreOutUpTo, Accesses.at, Removals.without_layer};
ghost use Rattle.mt_descent.specs.KeptWalks.{IsAtBorder};
ghost use Rattle.mt_remove.specs.{KeptRemovals.{HoldsRemoval, HoldsLink, IsAtCleanLayer}, RemovalEdits.{with_lock, root_of}};
ghost use Rattle.mt_remove.specs.CleanLayer.{LeadsTo, IsCleanLayer};

use crate::emptied::{go_on_emptied, is_empty_border};
use mt_arena::Arena;
use mt_border::{Find, FoundKind};
use mt_held::{find_here, tree_at};
use mt_operation::{Phase, Removal, Walk};
use mt_slices::StoredKey;

/// Takes the link of the empty layer out, and its tree with its root, by the step of this number, where they
/// stand so. Only the lock of that root is in its way: the number is that of its holder, which is another
/// operation.
pub fn clean_layer(
    arena: &mut Arena,
    key: &StoredKey,
    walk: &mut Walk,
    removal: &mut Removal,
    step: u64,
    operation: usize,
) -> Option<usize>
    requires kept { IsAtCleanLayer arena.old operation key.now walk.old removal.old }
    requires upto { AreOutUpTo step arena.old.retired }
    ensures again { IfSome result (λ holder. (tree : ℕ) × (removal.old.cleans ≡ Some tree) × ((at arena.old (root_of arena.old tree)).holder ≡ Some holder)) }
    ensures unchanged { IfSome result (λ holder. (arena.new ≡ arena.old) × (walk.new ≡ walk.old) × (removal.new ≡ removal.old)) }
    ensures another { HoldsRemoval arena.old operation walk.old removal.old → IfSome result (λ holder. holder ≢ operation) }
    ensures cleans { IfNone result (IsCleanLayer operation step arena.old arena.new key.now walk.old walk.new removal.old removal.new) }
{
    arena.facts();
    let tree = cleaned(removal);
    let Some(slot) = link_to(arena, key, walk, tree) else {
        walk.phase = Phase::Unlock;
        return None;
    };
    let root = arena.tree(tree).root;
    if let Some(holder) = arena.node(root).holder() {
        return Some(holder);
    }
    removal.below = Some(root);
    if take_layer(arena, walk, slot, tree, root, step, operation) {
        go_on_emptied(arena, walk, removal);
    } else {
        walk.phase = Phase::Unlock;
    }
    None
}

/// The tree whose link it goes to take out.
pub(crate) fn cleaned(removal: &Removal) -> usize
    requires { removal.now.cleans ≢ None }
    ensures { removal.now.cleans ≡ Some result }
{
    match removal.cleans {
        Some(tree) => tree,
        None => unreachable!(),
    }
}

// Locks the root of a layer, and takes the layer out with its link where that root is empty; whether it was.
fn take_layer(
    arena: &mut Arena,
    walk: &Walk,
    slot: usize,
    tree: usize,
    root: usize,
    step: u64,
    operation: usize,
) -> bool
    requires held { HoldsLink arena.old operation walk.now.place.node (place_at (at arena.old walk.now.place.node) slot) tree }
    requires root { root ≡ root_of arena.old tree }
    requires free { (at arena.old root).holder ≡ None }
    requires upto { AreOutUpTo step arena.old.retired }
    ensures drops { result ≡ true → arena.new ≡ without_layer (with_lock arena.old root operation) walk.now.place.node
        (place_at (at arena.old walk.now.place.node) slot) tree step }
    ensures leaves { result ≡ false → arena.new ≡ with_lock arena.old root operation }
    ensures empty { result ≡ true → ((at arena.old root).level ≡ 0) × ((at arena.old root).slots ≡ []) }
    ensures full { result ≡ false → (at arena.old root).level ≡ 0 → (at arena.old root).slots ≢ [] }
    ensures settled { (k : ℕ) → k < length arena.old.nodes → IsSettled arena.old.nodes k (at arena.old k) → IsSettled arena.new.nodes k (at arena.new k) }
    ensures step { Guarantee operation arena.old arena.new }
    ensures contents { content_of arena.new ≡ content_of arena.old }
{
    arena.facts();
    let is_empty = is_empty_border(arena, root);
    arena.lock(root, operation);
    if !is_empty {
        return false;
    }
    arena.drop_layer(walk.place.node, slot, step, operation);
    true
}

// The slot of the link to this tree, on the way of the key.
fn link_to(arena: &Arena, key: &StoredKey, walk: &Walk, tree: usize) -> Option<usize>
    requires kept { IsAtBorder arena.now key.now walk.now }
    ensures some { IfSome result (λ slot. LeadsTo (at arena.now walk.now.place.node) key.now walk.now.layer tree slot) }
    ensures none { IfNone result ((slot : ℕ) → ¬ LeadsTo (at arena.now walk.now.place.node) key.now walk.now.layer tree slot) }
{
    arena.facts();
    match find_here(arena, key, walk) {
        Find::Slot(slot, FoundKind::Link) => {
            if tree_at(arena.border(walk.place.node), slot) == tree {
                Some(slot)
            } else {
                None
            }
        }
        Find::Slot(_, FoundKind::ThisKey) => None,
        Find::Slot(_, FoundKind::OtherLong) => None,
        Find::Missing => None,
    }
}
