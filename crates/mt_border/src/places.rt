//! Where a key stands, or would stand, among entries in the order of their keys.

ghost use Rattle.std.specs.Prelude.{◌≡◌, ◌<◌, ◌≤◌, IfNone, IfSome, length};
ghost use Rattle.mt_slices.specs.Marks.{IsMark};
ghost use Rattle.mt_border.specs.{Entry.order_at, Entries.{IsAt, IsBorder, IsMissing, place_in}, Slots.listed};

use crate::slots::Slots;
use mt_slices::Mark;

/// How many entries stand before the slice and the mark.
pub(crate) fn place_of(slots: &Slots, slice: u64, mark: Mark) -> usize
    requires border { IsBorder (listed slots.now) }
    requires mark { IsMark mark }
    ensures place { result ≡ place_in (listed slots.now) (order_at slice mark) }
    ensures within { result ≤ length (listed slots.now) }
{
    let slices = slots.slices();
    for place in slots.count_below(slice)..slices.len() {
        if slices[place] != slice || !slots.mark(place).is_before(mark) {
            return place;
        }
    }
    slices.len()
}

/// The place of the entry that has the slice and the mark.
pub(crate) fn search(slots: &Slots, slice: u64, mark: Mark) -> Option<usize>
    requires { IsBorder (listed slots.now) }
    ensures found { IfSome result (λ place. IsAt (listed slots.now) slice mark place) }
    ensures missing { IfNone result (IsMissing (listed slots.now) slice mark) }
{
    let slices = slots.slices();
    for place in slots.count_below(slice)..slices.len() {
        if slices[place] != slice {
            return None;
        }
        if slots.mark(place) == mark {
            return Some(place);
        }
    }
    None
}
