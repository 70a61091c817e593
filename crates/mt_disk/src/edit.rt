//! A change of a file, kept until it is durable.

ghost use Rattle.std.specs.Prelude.{◌≡◌, ◌≤◌, length, not, IsTrue, OnOk, vec_capacity};
ghost use Rattle.std.specs.List.{list_any};
ghost use Rattle.mt_disk.specs.FileEdits.{edit_of, edits_of, begins_before, shortened, cut_back, remembered};

use std::alloc::AllocError;

/// What was written or cut.
#[derive(Debug, Drop)]
pub enum Edit {
    /// These bytes were written at this place.
    Write { at: usize, bytes: Vec<u8> },
    /// The file was cut to this length.
    Cut(usize),
}

impl Edit {
    // Whether it changes anything before a place.
    fn begins_before(&self, len: usize) -> bool
        ensures { result ≡ begins_before len (edit_of self.now) }
    {
        match self {
            Edit::Write { at, .. } => *at < len,
            Edit::Cut(to) => *to < len,
        }
    }

    // Lets go of what it changes from a place on. Whether anything is left.
    fn shorten(&mut self, len: usize) -> bool
        ensures left { result ≡ begins_before len (edit_of self.old) }
        ensures shortened { IsTrue result → edit_of self.new ≡ shortened len (edit_of self.old) }
    {
        if let Edit::Write { at, bytes } = self {
            bytes.truncate(len.saturating_sub(*at));
            bytes.shrink_to_fit();
        }
        self.begins_before(len)
    }
}

// Whether a cut lets any change go.
fn lets_go(edits: &[Edit], len: usize) -> bool
    ensures { result ≡ list_any (λ e. not (begins_before len (edit_of e))) edits.now }
{
    edits.iter().any(|edit| !edit.begins_before(len))
}

// Makes room for one more change, unless that is a cut which makes room itself.
pub(crate) fn make_room(edits: &mut Vec<Edit>, edit: &Edit) -> Result<(), AllocError>
    ensures items { edits.new.items ≡ edits.old.items }
    ensures room { OnOk result (length (remembered (edit_of edit.now) (edits_of edits.old.items)) ≤ vec_capacity edits.new) }
{
    match edit {
        Edit::Cut(len) if lets_go(edits, *len) => Ok(()),
        _ => edits.reserve(1),
    }
}

// Remembers a change. A cut lets go of what lies past its new end.
pub(crate) fn remember(edits: &mut Vec<Edit>, edit: Edit)
    requires { length (remembered (edit_of edit) (edits_of edits.old.items)) ≤ vec_capacity edits.old }
    ensures { edits_of edits.new.items ≡ remembered (edit_of edit) (edits_of edits.old.items) }
{
    if let Edit::Cut(len) = edit {
        cut_back(edits, len);
    }
    edits.push_reserved(edit);
}

// Lets go of what was changed from a place on.
fn cut_back(edits: &mut Vec<Edit>, len: usize)
    ensures items { edits_of edits.new.items ≡ cut_back len (edits_of edits.old.items) }
    ensures capacity { vec_capacity edits.new ≡ vec_capacity edits.old }
{
    edits.retain_mut(|edit| edit.shorten(len));
}
