//! The trees, line by line, as they are printed.
//!
//! The live trees stand in the order of the lengths of their prefixes, then of the prefixes. First a
//! line of the tree, then one of its root, two spaces in, and below each node those of its children,
//! two spaces more. An interior node shows its separators; a border node the number of its keys, and
//! where there are any the first and the last one as slice, colon and mark.

ghost use Rattle.std.specs.{Prelude.{◌≡◌, ◌+◌, ◌<◌, ◌^◌, ◌++◌, false, length, map, IfOk, OnOk}, Option.option_map};
ghost use Rattle.mt_border.specs.{Node.entries_of, Rows.entry_seen};
ghost use Rattle.mt_arena.specs.Accesses.{at};
ghost use Rattle.mt_core.specs.Shapes.{edge_in, line_in, lines_from, tree_lines, prefix_cmp, HasLiveRoot, IsListing, IsShape};

use mt_arena::{Arena, Prefix, Standing, Tree};
use mt_border::{Border, EntryRef, HeldRef};
use mt_slices::Mark;
use std::alloc::{AllocError, Global};
use std::cmp::Ordering;
use std::fmt;
use std::marker::Model;

/// A key or link of a node, as it is printed: its slice, its mark, and whether it is a link.
#[derive(Clone, Copy, Debug, Drop)]
pub struct Edge {
    pub slice: u64,
    pub mark: Mark,
    pub is_link: bool,
}

/// The separators of an interior node, in their order.
#[derive(Debug, Drop)]
pub struct Separators {
    slices: Vec<u64>,
}

impl Model for Separators {
    ghost use Rattle.std.specs.Prelude.{ℕ, List};

    ghost Value = { List ℕ };

    ghost view = { λ s. s.slices.items };
}

impl Separators {
    // The same in memory of their own. An error comes where there is none.
    fn copied(alloc: Global, slices: &[u64]) -> Result<Self, AllocError>
        ensures { IfOk result (λ separators. separators ≡ slices.now) }
    {
        let slices = slices.to_vec(alloc)?;
        Ok(Separators { slices })
    }

    /// The separators, as slices of keys.
    pub fn as_slice(&self) -> &[u64]
        ensures { result.now ≡ self.now }
    {
        &self.slices
    }
}

/// A line of the shape: a tree, or a node with the number of levels that it stands below the root.
#[derive(Debug, Drop)]
pub enum ShapeLine {
    /// A live tree, with the bytes with which all its keys begin.
    Tree {
        prefix: Prefix,
    },
    /// An interior node.
    Interior {
        depth: usize,
        separators: Separators,
    },
    /// A border node, with its first and its last key.
    Border {
        depth: usize,
        count: usize,
        first: Option<Edge>,
        last: Option<Edge>,
    },
}

impl fmt::Display for Edge {
    ghost use Rattle.std.specs.Prelude.{Some};
    ghost use Rattle.mt_core.specs.Shapes.{edge_text};

    ghost output = { λ e. Some (edge_text e) };

    fn fmt<W: fmt::Write>(&self, f: &mut fmt::Formatter<W>) -> fmt::Result {
        let slice = self.slice;
        match self.mark {
            Mark::Short(bytes) => write!(f, "{slice:016x}:{bytes}"),
            Mark::Long if self.is_link => write!(f, "{slice:016x}:T"),
            Mark::Long => write!(f, "{slice:016x}:L"),
        }
    }
}

impl fmt::Display for Separators {
    ghost use Rattle.std.specs.Prelude.{Some};
    ghost use Rattle.mt_core.specs.Shapes.{separators_text};

    ghost output = { λ s. Some (separators_text s) };

    fn fmt<W: fmt::Write>(&self, f: &mut fmt::Formatter<W>) -> fmt::Result {
        for slice in self.as_slice() {
            write!(f, " {slice:016x}")?;
        }
        Ok(())
    }
}

// The bytes of a prefix in hexadecimal digits, two for each, and `-` where there are none.
#[derive(Drop)]
struct Hexadecimal<'a> {
    bytes: &'a [u8],
}

impl fmt::Display for Hexadecimal<'_> {
    ghost use Rattle.std.specs.Prelude.{Some};
    ghost use Rattle.mt_core.specs.Shapes.{prefix_text};

    ghost output = { λ h. Some (prefix_text h.bytes.now) };

    fn fmt<W: fmt::Write>(&self, f: &mut fmt::Formatter<W>) -> fmt::Result {
        if self.bytes.is_empty() {
            return f.write_str("-");
        }
        for byte in self.bytes {
            write!(f, "{byte:02x}")?;
        }
        Ok(())
    }
}

// Two spaces for the tree, and two more for each level below its root.
#[derive(Drop)]
struct Indent {
    depth: usize,
}

impl fmt::Display for Indent {
    ghost use Rattle.std.specs.Prelude.{Some};
    ghost use Rattle.mt_core.specs.Shapes.{indent_text};

    ghost output = { λ i. Some (indent_text i.depth) };

    fn fmt<W: fmt::Write>(&self, f: &mut fmt::Formatter<W>) -> fmt::Result {
        f.write_str("  ")?;
        for _level in 0..self.depth {
            f.write_str("  ")?;
        }
        Ok(())
    }
}

impl fmt::Display for ShapeLine {
    ghost use Rattle.std.specs.Prelude.{Some};
    ghost use Rattle.mt_core.specs.Shapes.{line_text};

    ghost output = { λ line. Some (line_text line) };

    fn fmt<W: fmt::Write>(&self, f: &mut fmt::Formatter<W>) -> fmt::Result {
        match self {
            ShapeLine::Tree { prefix } => {
                let bytes = prefix.as_bytes();
                let layer = bytes.len() / 8;
                write!(f, "tree {} layer {layer}", Hexadecimal { bytes })
            }
            ShapeLine::Interior { depth, separators } => {
                write!(f, "{}interior{separators}", Indent { depth: *depth })
            }
            ShapeLine::Border {
                depth,
                count,
                first: Some(first),
                last: Some(last),
            } => write!(
                f,
                "{}border {count} {first} {last}",
                Indent { depth: *depth }
            ),
            ShapeLine::Border { depth, count, .. } => {
                write!(f, "{}border {count}", Indent { depth: *depth })
            }
        }
    }
}

/// The lines of all live trees. An error comes where memory is refused.
pub(crate) fn shape_of(alloc: Global, arena: &Arena) -> Result<Vec<ShapeLine>, AllocError>
    ensures { IfOk result (λ lines. IsShape arena.now lines.items) }
{
    arena.facts();
    let mut lines = Vec::new(alloc);
    let listed = live_trees(alloc, arena)?;
    for tree in &listed {
        push_tree(alloc, arena, tree, &mut lines)?;
    }
    Ok(lines)
}

// The live trees, in the order of their prefixes.
fn live_trees(alloc: Global, arena: &Arena) -> Result<Vec<&Tree>, AllocError>
    ensures { IfOk result (λ listed. IsListing arena.now.trees (map (λ tree. tree.now) listed.items)) }
{
    arena.facts();
    let mut listed = Vec::new(alloc);
    for tree in arena.trees() {
        if matches!(tree.standing, Standing::Live) {
            listed.push(tree)?;
        }
    }
    listed.sort_unstable_by(|one, other| by_prefix(one, other));
    Ok(listed)
}

// The order of two trees: that of the lengths of their prefixes, then of the prefixes.
fn by_prefix(one: &Tree, other: &Tree) -> Ordering
    ensures { result ≡ prefix_cmp one.now.prefix other.now.prefix }
{
    let (one, other) = (one.prefix.as_bytes(), other.prefix.as_bytes());
    one.len().cmp(&other.len()).then_with(|| one.cmp(other))
}

// Adds the line of a tree, and those of its root and of all nodes below it.
fn push_tree(
    alloc: Global,
    arena: &Arena,
    tree: &Tree,
    lines: &mut Vec<ShapeLine>,
) -> Result<(), AllocError>
    requires { HasLiveRoot arena.now tree.now }
    ensures { OnOk result (lines.new.items ≡ lines.old.items ++ tree_lines arena.now tree.now) }
{
    let prefix = Prefix::new(tree.prefix.as_bytes().to_vec(alloc)?);
    lines.push(ShapeLine::Tree { prefix })?;
    let level = arena.node(tree.root).level();
    push_node(alloc, arena, tree.root, level, 0, lines)
}

// Adds the line of a node of this level that stands so many levels below the root, and those of all
// nodes below it.
fn push_node(
    alloc: Global,
    arena: &Arena,
    node: usize,
    level: usize,
    depth: usize,
    lines: &mut Vec<ShapeLine>,
) -> Result<(), AllocError>
    requires there { node < length arena.now.nodes }
    requires live { (at arena.now node).version.deleted ≡ false }
    requires level { (at arena.now node).level ≡ level }
    requires room { depth + level < 2 ^ 64 }
    ensures { OnOk result (lines.new.items ≡ lines.old.items ++ lines_from level arena.now depth node) }
{
    arena.facts();
    if level == 0 {
        lines.push(border_line(depth, arena.border(node)))?;
        return Ok(());
    }
    let interior = arena.interior(node);
    let separators = Separators::copied(alloc, interior.separators())?;
    lines.push(ShapeLine::Interior { depth, separators })?;
    for child in interior.children() {
        push_node(alloc, arena, *child, level - 1, depth + 1, lines)?;
    }
    Ok(())
}

// The line of a border node.
fn border_line(depth: usize, border: &Border) -> ShapeLine
    ensures { result ≡ line_in depth (entries_of border.now) }
{
    ShapeLine::Border {
        depth,
        count: border.len(),
        first: edge_of(border.first()),
        last: edge_of(border.last()),
    }
}

// An entry, as it is printed.
fn edge_of(entry: Option<EntryRef<'_>>) -> Option<Edge>
    ensures { result ≡ option_map edge_in (option_map entry_seen entry.entry) }
{
    match entry {
        Some(entry) => Some(Edge {
            slice: entry.slice,
            mark: entry.mark,
            is_link: matches!(entry.held.seen(), HeldRef::Link(_)),
        }),
        None => None,
    }
}
