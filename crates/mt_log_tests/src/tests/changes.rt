//! Changes of tenant 7 that workers placed, as what drains them.

ghost use Rattle.std.specs.{Prelude.{◌≡◌, ◌≤◌, ◌^◌}, List.All};
ghost use Rattle.mt_rows.specs.Commands.{IsKey};
ghost use Rattle.mt_tape.specs.Tapes.{last_write};

use super::slots::{Rows, change_of, key_of, row_of};
use mt_drains::{DrainedBatch, batch_after};
use mt_rows::{Change, Row, StampedRow};
use mt_store_logs::Source;
use mt_tape::{Entry, Tape};
use std::alloc::{AllocError, Global};

// No store makes more steps.
const MAX_STEPS: u64 = 1 << 59;

// What stands at a key: the step that placed it, and the byte of its row, 0 where there is none.
type Standing = (u64, u8);

const NOTHING: Standing = (0, 0);

/// Changes of tenant 7, how many steps were made, and up to which one each of three workers was drained.
#[derive(Drop)]
pub struct History {
    alloc: Global,
    steps: u64,
    tape: Tape,
    drained: [u64; 3],
    standing: [Standing; 8],
    ghost keys: { All (λ e. IsKey e.key) tape.entries },
    ghost made: { last_write tape ≤ steps },
    ghost few: { steps ≤ 2 ^ 59 },
}

impl History {
    /// Nothing but so many steps.
    pub fn new(alloc: Global, steps: u64) -> Self {
        let steps = steps.min(MAX_STEPS);
        History {
            alloc,
            steps,
            tape: Tape::new(alloc, steps),
            drained: [steps; 3],
            standing: [NOTHING; 8],
        }
    }

    /// How many steps were made.
    pub fn steps(&self) -> u64 {
        self.steps
    }

    /// A step that places a change of the key with this byte: its row is the step, none where that is 0. Over a row that
    /// was placed here before, it is a put of its column.
    pub fn place(&mut self, worker: u8, place: u8) -> Result<(), AllocError> {
        if self.steps >= MAX_STEPS {
            return Err(AllocError);
        }
        let step = self.steps + 1;
        let byte = (step % 7) as u8;
        let was = self
            .standing
            .get(usize::from(place))
            .copied()
            .unwrap_or(NOTHING);
        let key = key_of(self.alloc, place)?;
        let before = stamped_unless_0(self.alloc, was)?;
        let after = row_unless_0(self.alloc, byte)?;
        let change = change_unless_0(self.alloc, was.1.min(byte), byte)?;
        self.tape.reserve()?;
        self.steps = step;
        self.standing = with_standing(self.standing, place, (step, byte));
        self.tape.push(Entry {
            step,
            worker,
            tenant: 7,
            key,
            before,
            after,
            change,
        });
        Ok(())
    }

    /// The rows after the changes up to a step.
    pub fn rows_at(&self, step: u64) -> Rows {
        let mut rows = [0; 8];
        for entry in self.tape.entries() {
            if entry.step > step {
                break;
            }
            let key = entry.key.as_bytes().first().copied().unwrap_or(u8::MAX);
            if let Some(row) = rows.get_mut(usize::from(key)) {
                *row = byte_of(&entry.after);
            }
        }
        rows
    }
}

impl Source for History {
    ghost serves = { λ _ _ _. Unit {0} };

    ghost gives = { λ _ _ _ _. Unit {0} };

    fn drain(&mut self, worker: u8, upto: u64) -> Result<DrainedBatch, AllocError> {
        let place = usize::from(worker);
        let from = self.drained.get(place).copied().unwrap_or(self.steps);
        if self.steps < upto || self.steps < from {
            return Err(AllocError);
        }
        let drained = batch_after(self.alloc, &self.tape, worker, from, self.steps)?;
        if let Some(upto) = self.drained.get_mut(place) {
            *upto = drained.batch().to;
        }
        Ok(drained)
    }
}

// With another thing that stands at a key.
fn with_standing(standing: [Standing; 8], place: u8, now: Standing) -> [Standing; 8] {
    let mut standing = standing;
    if let Some(at) = standing.get_mut(usize::from(place)) {
        *at = now;
    }
    standing
}

// What stands at a key, none where its byte is 0.
fn stamped_unless_0(alloc: Global, standing: Standing) -> Result<Option<StampedRow>, AllocError> {
    let (stamp, byte) = standing;
    Ok(row_unless_0(alloc, byte)?.map(|row| StampedRow { stamp, row }))
}

// A put of a column of this byte, none where the lesser of the rows before and after is 0.
fn change_unless_0(alloc: Global, least: u8, byte: u8) -> Result<Option<Change>, AllocError> {
    if least == 0 {
        return Ok(None);
    }
    Ok(Some(change_of(alloc, byte)?))
}

// A row, none where its byte is 0.
fn row_unless_0(alloc: Global, byte: u8) -> Result<Option<Row>, AllocError> {
    if byte == 0 {
        return Ok(None);
    }
    Ok(Some(row_of(alloc, byte)?))
}

// The byte of a row, 0 where there is none.
fn byte_of(row: &Option<Row>) -> u8 {
    match row {
        Some(row) => match row.columns() {
            [column, ..] => column.as_bytes().first().copied().unwrap_or(0),
            [] => 0,
        },
        None => 0,
    }
}
