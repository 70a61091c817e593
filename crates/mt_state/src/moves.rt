//! What a step answers.

/// What a step answers.
#[derive(Clone, Copy, PartialEq, Eq, Debug)]
pub enum Move {
    /// The operation moved by one numbered step.
    Moved,
    /// A node is locked or marked by this operation; nothing changed.
    Again { holder: u64 },
    /// A growth was refused; the operation stands, and can be stepped again.
    NoMemory,
    /// The operation made its last numbered step; its answer can be taken.
    Done,
    /// All step numbers are given; nothing changed.
    Spent,
    /// The operation is not open; nothing changed.
    NoSuch,
}
