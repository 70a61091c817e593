//! The phases of an operation, one for each kind of step, and how they are written. What hangs on a phase
//! alone stands in one table, `specs/Phases.antt`.

ghost use Rattle.std.specs.Prelude.{◌≡◌};
ghost use Rattle.mt_operation.specs.Phases.{name_of};

use std::fmt;

/// What the next step does.
#[derive(Clone, Copy, PartialEq, Eq, Debug)]
pub enum Phase {
    /// Reads the tree's record and its root's version.
    Enter,
    /// Looks for the child of an interior node.
    Pick,
    /// Reads the child's version.
    Child,
    /// Compares the interior node's version.
    Verify,
    /// Looks for the key in a border node.
    Search,
    /// Reads the slot that was found.
    Load,
    /// Compares the border node's version.
    Confirm,
    /// Reads the next border node.
    Forward,
    /// Locks the border node.
    Lock,
    /// Looks for the key in the border node, which the operation holds, and makes all growths of the
    /// placing step.
    Judge,
    /// Writes the row over the one that is there.
    Store,
    /// Writes the pair into the free slot.
    Fill,
    /// Judges the quota, and makes the pair live.
    Publish,
    /// Makes the right half of the full border node.
    SplitStart,
    /// Judges the quota, and parts the keys and the new pair among the halves.
    SplitMove,
    /// Names the right half in the border node behind it.
    SplitPrev,
    /// Locks the parent of the halves.
    LockParent,
    /// Puts the right half into the parent.
    InsertChild,
    /// Splits the full parent as the right half comes in.
    InteriorSplit,
    /// Names the parent's right half in one of the children that it has got.
    Reparent,
    /// Makes a root over the halves of the old one.
    RootGrow,
    /// Makes a tree for the keys that begin as two long keys of one slice do.
    MakeLayer,
    /// Makes the slot of the other long key unstable.
    MarkUnstable,
    /// Writes the number of the new tree into the slot.
    Link,
    /// Makes the slot a link, and the new tree live.
    MarkLayer,
    /// Takes the key's pair out.
    DropKey,
    /// Locks the left neighbour of the empty border node.
    LockPrev,
    /// Locks its parent, and looks again.
    LockAbove,
    /// Takes the empty border node out of its tree.
    Unlink,
    /// Names the left neighbour in the border node behind it.
    FixNext,
    /// Takes out a root that has one border node below it.
    Collapse,
    /// Takes out the link to an empty layer, with its tree.
    CleanLayer,
    /// Gives all locks back.
    Unlock,
    /// Reads the border node's pairs, from the reached fence on up to the first link.
    Snap,
    /// Compares the border node's version, and keeps the pairs that were read.
    Check,
    /// Goes on behind what was read: into a link's tree, at the next node, or from the top.
    Hop,
    /// The operation has its answer.
    Done,
}

// The phases that have a step, each with its name, in the order of the table: what is written of each of
// them is written by this list.
macro_rules! each_phase {
    ($written:ident $($given:tt)*) => {
        $written! {
            ($($given)*)
            Enter "enter"
            Pick "pick"
            Child "child"
            Verify "verify"
            Search "search"
            Load "load"
            Confirm "confirm"
            Forward "forward"
            Lock "lock"
            Judge "judge"
            Store "store"
            Fill "fill"
            Publish "publish"
            SplitStart "splitstart"
            SplitMove "splitmove"
            SplitPrev "splitprev"
            LockParent "lockparent"
            InsertChild "insertchild"
            InteriorSplit "interiorsplit"
            Reparent "reparent"
            RootGrow "rootgrow"
            MakeLayer "makelayer"
            MarkUnstable "markunstable"
            Link "link"
            MarkLayer "marklayer"
            DropKey "dropkey"
            LockPrev "lockprev"
            LockAbove "lockabove"
            Unlink "unlink"
            FixNext "fixnext"
            Collapse "collapse"
            CleanLayer "cleanlayer"
            Unlock "unlock"
            Snap "snap"
            Check "check"
            Hop "hop"
        }
    };
}

macro_rules! listed {
    (() $($phase:ident $name:literal)*) => { [$(Phase::$phase),*] };
}

macro_rules! named {
    (($of:expr) $($phase:ident $name:literal)*) => {
        match $of {
            $(Phase::$phase => $name,)*
            Phase::Done => "done",
        }
    };
}

/// The phases that have a step, in the order of the table.
pub const PHASES: [Phase; 36] = each_phase!(listed);

impl Phase {
    /// The phase's name, as it is written.
    pub fn name(self) -> &'static str
        ensures { result.now ≡ name_of self }
    {
        each_phase!(named(self))
    }
}

impl fmt::Display for Phase {
    ghost use Rattle.std.specs.Prelude.{Some};

    ghost output = { λ p. Some (name_of p) };

    fn fmt<W: fmt::Write>(&self, f: &mut fmt::Formatter<W>) -> fmt::Result {
        f.write_str(self.name())
    }
}
