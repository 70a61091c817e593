//! Columns: some bytes, shared and never changed in place.
//!
//! A column of up to 32 bytes is one piece of memory, with the count of its sharers. A longer one has its
//! bytes in a piece of their own.
//!
//! Units: bytes.

ghost use Rattle.std.specs.{Prelude.{◌≡◌, ◌<◌, length, IfOk, IfSome, IfNone, nat_eq}, Cmp.partial_equiv_from_equiv};
ghost use Rattle.std.specs.Cmp.Lexicographic.{pointwise, nat_list_eq_equiv};
ghost use Rattle.mt_rows.specs.HeldBytes.{held_bytes};

use arrayvec::ArrayVec;
use std::alloc::{AllocError, Global};
use std::fmt;
use std::marker::Model;
use std::mem::size_of;
use std::sync::Arc;

/// The longest column that is stored, in bytes.
pub const COLUMN_BYTES: usize = 1_024;

// The longest column whose bytes lie beside the count of its sharers.
const SHORT_BYTES: usize = 32;

/// A column of a row: any bytes, shared and never changed in place.
#[derive(Drop)]
pub struct Column {
    bytes: Arc<ColumnBytes>,
}

// Where a column has its bytes.
#[derive(Drop)]
enum ColumnBytes {
    /// In place.
    Short(ArrayVec<u8, SHORT_BYTES>),
    /// In a piece of memory of their own.
    Long(Vec<u8>),
}

// With the count it is a block of 56 bytes, the largest that a common allocator serves from its class of 64.
const _: () = prove!(size_of::<ColumnBytes>() == 48);

impl Model for Column {
    ghost use Rattle.std.specs.{Prelude.{List, ℕ}, Arc.arc_value};
    ghost use Rattle.mt_rows.specs.HeldBytes.{held_bytes};

    ghost Value = { List ℕ };

    ghost view = { λ c. held_bytes (arc_value c.bytes) };
}

impl Column {
    /// A column of these bytes. An error drops them.
    pub fn new(alloc: Global, bytes: Vec<u8>) -> Result<Self, AllocError>
        ensures { IfOk result (λ column. column ≡ bytes.items) }
    {
        let bytes = match short_bytes(&bytes) {
            Some(short) => short,
            None => ColumnBytes::Long(bytes),
        };
        Column::of(alloc, bytes)
    }

    /// A column of a copy of these bytes.
    pub fn from_slice(alloc: Global, bytes: &[u8]) -> Result<Self, AllocError>
        ensures { IfOk result (λ column. column ≡ bytes.now) }
    {
        let bytes = match short_bytes(bytes) {
            Some(short) => short,
            None => ColumnBytes::Long(Vec::from_slice(alloc, bytes)?),
        };
        Column::of(alloc, bytes)
    }

    // A column that has its bytes so.
    fn of(alloc: Global, bytes: ColumnBytes) -> Result<Self, AllocError>
        ensures { IfOk result (λ column. column ≡ held_bytes bytes) }
    {
        let bytes = Arc::new(alloc, bytes)?;
        Ok(Column { bytes })
    }

    /// The same bytes, shared. An error leaves this one as it was.
    pub fn share(&self) -> Result<Column, AllocError>
        ensures { IfOk result (λ column. column ≡ self.now) }
    {
        let bytes = self.bytes.clone()?;
        Ok(Column { bytes })
    }

    pub fn as_bytes(&self) -> &[u8]
        ensures { result.now ≡ self.now }
    {
        match &*self.bytes {
            ColumnBytes::Short(bytes) => bytes.as_slice(),
            ColumnBytes::Long(bytes) => bytes,
        }
    }
}

// These bytes in place, if they are few enough.
fn short_bytes(bytes: &[u8]) -> Option<ColumnBytes>
    ensures held { IfSome result (λ short. held_bytes short ≡ bytes.now) }
    ensures none { IfNone result (SHORT_BYTES < length bytes.now) }
{
    let mut short = ArrayVec::new();
    match short.try_extend_from_slice(bytes) {
        Ok(()) => Some(ColumnBytes::Short(short)),
        Err(_) => None,
    }
}

// A column is printed with its bytes, wherever it has them.
impl fmt::Debug for Column {
    fn fmt<W: fmt::Write>(&self, f: &mut fmt::Formatter<W>) -> fmt::Result {
        f.debug_struct("Column")
            .field("bytes", &self.as_bytes())
            .finish()
    }
}

impl Clone for Column {
    ghost is_clone = { λ column copy. copy ≡ column };

    fn clone(&self) -> Result<Column, AllocError> {
        self.share()
    }
}

impl PartialEq for Column {
    ghost eq = { pointwise nat_eq };

    ghost laws = { partial_equiv_from_equiv nat_list_eq_equiv };

    fn eq(&self, other: &Column) -> bool {
        self.as_bytes() == other.as_bytes()
    }
}

impl Eq for Column {
    ghost laws = { nat_list_eq_equiv };
}
