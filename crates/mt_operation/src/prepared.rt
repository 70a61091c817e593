//! What a change has made ready.

ghost use Rattle.std.specs.Prelude.{◌≡◌, true, IfOk};

use mt_border::{Pair, Suffix};
use mt_rows::Row;
use mt_tape::Entry;
use std::alloc::{AllocError, Global};
use std::marker::Model;
use std::mem;

// What is to stand in a slot. The pair's stamp means nothing until it stands there.
#[derive(Drop)]
enum Made {
    Pair(Pair),
    Row(Row),
    Nothing,
}

/// All that the steps which place a change need. It is grown under the lock, so that these steps
/// allocate nothing. A new key's pair is there until it is written into a slot. A row that is written
/// over another one is there alone, and a removal has its write alone. The write has its number only
/// once it is placed.
#[derive(Drop)]
pub struct Prepared {
    made: Made,
    write: Entry,
}

impl Model for Prepared {
    ghost use Rattle.mt_operation.specs.Ready.{Prepared, prepared_in};

    ghost Value = { Prepared };

    ghost view = { λ p. prepared_in p.made p.write };
}

impl Prepared {
    ghost use Rattle.mt_operation.specs.Ready.{pair_ready, row_ready, placed};

    /// The pair of a new key, and the write. An error comes where memory is refused. What was handed in
    /// is gone then.
    pub fn new(
        alloc: Global,
        suffix: Suffix,
        row: Row,
        write: Entry,
    ) -> Result<Prepared, AllocError>
        ensures { IfOk result (λ prepared. prepared ≡ pair_ready suffix row write) }
    {
        let made = Made::Pair(Pair::new(alloc, suffix, row, 0)?);
        Ok(Prepared { made, write })
    }

    /// The row that is written over another one, and the write.
    pub fn of_row(row: Row, write: Entry) -> Prepared
        ensures { result ≡ row_ready row write }
    {
        Prepared {
            made: Made::Row(row),
            write,
        }
    }

    /// The write alone.
    pub fn of_write(write: Entry) -> Prepared
        ensures { result ≡ placed write }
    {
        Prepared {
            made: Made::Nothing,
            write,
        }
    }

    /// Takes the pair of a new key, placed by the step `stamp`; what is left is the write.
    pub fn take_pair(&mut self, stamp: u64) -> Pair
        requires { self.old.paired ≡ true }
        ensures pair { result ≡ record { suffix = self.old.suffix; row = self.old.row; stamp = stamp } }
        ensures left { self.new ≡ placed self.old.write }
    {
        let Made::Pair(mut pair) = mem::replace(&mut self.made, Made::Nothing) else {
            unreachable!()
        };
        pair.set_stamp(stamp);
        pair
    }

    /// The pair of a new key, placed by the step `stamp`, and the write.
    pub fn into_pair(self, stamp: u64) -> (Pair, Entry)
        requires { self.paired ≡ true }
        ensures pair { result.0 ≡ record { suffix = self.suffix; row = self.row; stamp = stamp } }
        ensures write { result.1 ≡ self.write }
    {
        let Prepared { made, write } = self;
        let Made::Pair(mut pair) = made else {
            unreachable!()
        };
        pair.set_stamp(stamp);
        (pair, write)
    }

    /// The row alone, and the write.
    pub fn into_row(self) -> (Row, Entry)
        requires { self.whole ≡ true }
        ensures row { result.0 ≡ self.row }
        ensures write { result.1 ≡ self.write }
    {
        let Prepared { made, write } = self;
        let row = match made {
            Made::Pair(pair) => pair.into_row(),
            Made::Row(row) => row,
            Made::Nothing => unreachable!(),
        };
        (row, write)
    }

    /// The write alone.
    pub fn into_write(self) -> Entry
        ensures { result ≡ self.write }
    {
        self.write
    }
}
