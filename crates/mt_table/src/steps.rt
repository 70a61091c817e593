//! Steps that a body makes of an operation in its place.

use mt_operation::Phase;

/// What a body has made of an operation that it is lent.
#[derive(Clone, Copy, PartialEq, Eq, Debug)]
pub enum Made {
    /// Its step.
    Step,
    /// Nothing, since the operation of this number is in the way.
    Blocked(usize),
    /// No step, since memory was refused; it may have grown.
    NoMemory,
    /// Nothing, since the step is not the body's to make.
    Nothing,
}

/// What has come of a step that a body was to make.
#[derive(Clone, Copy, PartialEq, Eq, Debug)]
pub enum Stepped {
    /// The operation has made it, and stands at this phase.
    To(Phase),
    /// Nothing has happened: the operation of this number is in the way.
    Blocked(usize),
    /// It has made none, since memory was refused.
    NoMemory,
    /// Nothing has happened: the body left the step to others.
    Left,
    /// Nobody has the id.
    Absent,
}
