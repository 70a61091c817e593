//! What several phases make of a walk, and what they ask of a node.

ghost use Rattle.std.specs.Prelude.{◌≡◌, ◌≢◌, None, IfSome, IfNone, IsTrue, ◌↔◌};
ghost use Rattle.mt_version.specs.Changes.{IsMarked, IsStable};
ghost use Rattle.mt_descent.specs.{Seen.IsOutdated, WalkMoves.{IsBlocked, arrival, walk_onto, walk_into, after_change}};

use mt_arena::Node;
use mt_operation::{Aim, Phase, Walk};
use mt_version::Version;

/// The operation that marked the node, if it is marked.
pub fn blocker(node: &Node) -> Option<usize>
    requires { IsMarked node.now.version → node.now.holder ≢ None }
    ensures some { IfSome result (IsBlocked node.now) }
    ensures none { IfNone result (IsStable node.now.version) }
{
    if node.version().is_stable() {
        None
    } else {
        node.holder()
    }
}

// What comes at a border node: a get looks for its key, a put or a remove locks, a scan reads.
pub(crate) fn arrival(aim: Aim) -> Phase
    ensures { result ≡ arrival aim }
{
    match aim {
        Aim::Read => Phase::Search,
        Aim::Write => Phase::Lock,
        Aim::Scan => Phase::Snap,
    }
}

/// Comes to a node.
pub fn onto(walk: &mut Walk, node: usize, seen: Version)
    ensures { walk.new ≡ walk_onto walk.old node seen }
{
    walk.place.node = node;
    walk.place.seen = seen;
    walk.phase = if seen.is_border() {
        arrival(walk.aim)
    } else {
        Phase::Pick
    };
}

/// Begins at a tree of a layer.
pub fn into(walk: &mut Walk, tree: usize, layer: usize)
    ensures { walk.new ≡ walk_into walk.old tree layer }
{
    walk.place.tree = tree;
    walk.layer = layer;
    walk.phase = Phase::Enter;
}

// Whether the node was deleted or split since it was remembered.
pub(crate) fn is_outdated(node: &Node, seen: Version) -> bool
    ensures { IsTrue result ↔ IsOutdated node.now seen }
{
    node.version().is_deleted() || node.version().splits() != seen.splits()
}

/// The border node has changed: anew where it was deleted, else to the next node.
pub fn move_on(walk: &mut Walk, node: &Node)
    ensures { walk.new ≡ after_change walk.old node.now.version node.now.next }
{
    if node.version().is_deleted() {
        walk.phase = Phase::Enter;
    } else {
        walk.place.seen = node.version();
        walk.next = node.next();
        walk.phase = Phase::Forward;
    }
}
