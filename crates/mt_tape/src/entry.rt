//! One placed write.

use mt_rows::{Change, Key, Row, StampedRow};

/// A write of a tenant's key: the number of the step that placed it, the worker whose operation that
/// was, and the key's row before it and after it, `None` if the key had no row. The row before has its
/// stamp. The stamp of the row after it is the step. Of a put over a row that was there the change is kept too.
#[derive(Debug, Drop)]
pub struct Entry {
    pub step: u64,
    pub worker: u8,
    pub tenant: u32,
    pub key: Key,
    pub before: Option<StampedRow>,
    pub after: Option<Row>,
    pub change: Option<Change>,
}
