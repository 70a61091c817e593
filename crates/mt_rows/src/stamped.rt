//! A row as it stands at a key: with the number of the change that last wrote it.

ghost use Rattle.mt_rows.specs.{Rows.AreIndexes, Stamps.as_shown};
ghost use Rattle.std.specs.Prelude.{IfOk, ◌≡◌};

use crate::row::{ColumnIndexes, Row};
use std::alloc::{AllocError, Global};

/// A row with its stamp: the number of the change that last wrote it.
#[derive(Debug, Drop)]
pub struct StampedRow {
    pub stamp: u64,
    pub row: Row,
}

impl StampedRow {
    /// The same row with the same stamp, shared. An error leaves this one as it was.
    pub fn share(&self) -> Result<StampedRow, AllocError>
        ensures { IfOk result (λ row. row ≡ self.now) }
    {
        let row = self.row.share()?;
        Ok(StampedRow {
            stamp: self.stamp,
            row,
        })
    }

    /// What a get of these columns shows, with the stamp of the whole row. An error leaves this row
    /// as it was.
    pub fn shown(&self, alloc: Global, indexes: &ColumnIndexes) -> Result<StampedRow, AllocError>
        requires { AreIndexes indexes.now }
        ensures { IfOk result (λ row. row ≡ as_shown indexes.now self.now) }
    {
        let row = self.row.shown(alloc, indexes)?;
        Ok(StampedRow {
            stamp: self.stamp,
            row,
        })
    }
}
