//! Where fifteen entries and one more key are parted.
//!
//! A split looks at all sixteen. It cuts between two different slices, so that no slice is on both
//! sides, as near to the middle as can be, and at the lower place where two are as near. At most
//! ten keys share a slice, so there is such a place from 3 to 13.

ghost use Rattle.std.specs.Prelude.{◌≡◌, ◌≢◌, length, slice_index};
ghost use Rattle.mt_slices.specs.Marks.{IsMark};
ghost use Rattle.mt_border.specs.{Entries.{IsBorder, IsMissing}, Slots.listed, Split.{IsCut, IsSeparator, slices_with}};

use crate::border::SLOTS;
use crate::places::place_of;
use crate::slots::Slots;
use arrayvec::ArrayVec;
use mt_slices::Mark;

/// The place that parts sixteen keys into equal halves.
const MIDDLE: usize = 8;

/// How many of sixteen keys with these slices stay on the left.
pub(crate) fn cut_of(slices: &[u64]) -> usize
    requires sixteen { length slices.now ≡ 16 }
    requires parted { slice_index slices.now 2 ≢ slice_index slices.now 13 }
    ensures { IsCut slices.now result }
{
    for distance in 0..6 {
        let lower = MIDDLE - distance;
        if slices[lower - 1] != slices[lower] {
            return lower;
        }
        let upper = MIDDLE + distance;
        if slices[upper - 1] != slices[upper] {
            return upper;
        }
    }
    unreachable!()
}

/// The first slice on the right of a cut through the entries and one more key.
pub(crate) fn separator_of(slots: &Slots, slice: u64, mark: Mark) -> u64
    requires full { length (listed slots.now) ≡ SLOTS }
    requires border { IsBorder (listed slots.now) }
    requires mark { IsMark mark }
    requires missing { IsMissing (listed slots.now) slice mark }
    ensures { IsSeparator (slices_with (listed slots.now) slice mark) result }
{
    let mut slices: ArrayVec<u64, 16> = ArrayVec::new();
    slices.try_extend_from_slice(slots.slices()).unwrap();
    slices.insert(place_of(slots, slice, mark), slice);
    let cut = cut_of(&slices);
    slices[cut]
}
