//! What a worker's log tells of the generations of its files.

/// The last generation of which a worker has a log, and whether a log of an earlier one may stand.
#[derive(Clone, Copy, Debug)]
pub struct Generations {
    pub last: u64,
    pub has_older: bool,
}
