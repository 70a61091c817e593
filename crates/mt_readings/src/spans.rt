//! What a scan's reading of a border node tells of the contents. Contracts alone: no code runs.

ghost use Rattle.std.specs.Prelude.{◌≡◌, ℕ, Bool, List, Some, None};
ghost use Rattle.mt_rows.specs.Rows.{Bytes};
ghost use Rattle.mt_border.specs.declared.entry.Entry.{Entry};
ghost use Rattle.mt_arena.specs.{declared.tree.Tree.Tree, NodeView.{NodeView, node_at}, Forests.tree_at, Arena.IsArena, Contents.content};
ghost use Rattle.mt_readings.specs.{Reading.{is_behind, read, stop, IsAtLink}, Spans.{IsScanAt, TellsAll, IsAtSlice}};

/// Where the reading of a node stopped at a link, it tells all that the contents have from the fence up to the first key
/// behind the link's own prefix.
pub fn a_stretch_to_a_link()
    ensures { (nodes : List NodeView) (trees : List Tree) (k layer : ℕ) (fence reached : Bytes) (after : Bool) (link : Entry) → IsArena nodes trees → IsScanAt nodes trees k layer fence →
        let prefix = (tree_at trees (node_at nodes k).tree).prefix in
        let behind = is_behind fence after layer in
        stop behind (node_at nodes k).slots ≡ Some link → IsAtLink prefix layer link.slice reached →
        TellsAll (content trees nodes) prefix layer fence after reached (read behind (node_at nodes k).slots) }
{}

/// Where it met no link, it tells all up to the first key of the slice at which the node ends.
pub fn a_stretch_to_the_next()
    ensures { (nodes : List NodeView) (trees : List Tree) (k layer high : ℕ) (fence reached : Bytes) (after : Bool) → IsArena nodes trees → IsScanAt nodes trees k layer fence →
        let prefix = (tree_at trees (node_at nodes k).tree).prefix in
        let behind = is_behind fence after layer in
        stop behind (node_at nodes k).slots ≡ None → (node_at nodes k).high ≡ Some high → IsAtSlice prefix layer high reached →
        TellsAll (content trees nodes) prefix layer fence after reached (read behind (node_at nodes k).slots) }
{}
