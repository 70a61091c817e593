//! Whose log it is.

ghost use Rattle.std.specs.Prelude.{◌<◌, ◌≤◌};

/// Whose log it is: a worker's, one of 1 to 64.
#[derive(Clone, Copy, Debug, PartialEq, Eq)]
pub struct LogOwner {
    pub worker: u8,
    /// The number of all logs.
    pub logs: u8,
    pub ghost whose: { worker < logs },
    pub ghost few: { logs ≤ 64 },
}
