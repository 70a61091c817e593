//! The slots of a border node: the slices and the marks of its live slots in the order of keys, and
//! what each of the fifteen slots holds.
//!
//! A search reads the slices alone, which lie side by side, and then the marks of one slice. A slot
//! keeps its number, and what it holds stays where it is, until its key is dropped: a key that comes
//! before it moves a slice and a mark, and numbers of slots.
//!
//! Invariant: the order names each of the fifteen slots once, and there are as many slices and marks
//! as live slots.

ghost use Rattle.std.specs.Prelude.{◌≡◌, ◌<◌, ◌≤◌, [], length, take, drop, insert, remove, slice_get, slice_index, slice_index_or, slice_set, count_by, nat_lt, map, true, IfSome, IfNone};
ghost use Rattle.std.specs.Option.{option_map};
ghost use Rattle.mt_lists.specs.Rising.{NeverFalls};
ghost use Rattle.mt_slices.specs.Marks.{IsMark};
ghost use Rattle.mt_border.specs.{Restamps.{stamped, with_stamps, new_stamp}, Slots.emptied};

use crate::border::SLOTS;
use crate::entry::{Entry, EntryRef, Held};
use crate::marks::MarkList;
use mt_lists::padded::PaddedList;
use mt_order::Order;
use mt_slices::Mark;
use std::collections::BTreeMap;
use std::marker::Model;
use std::mem;

/// Fifteen slots.
// What a search reads stands first.
#[derive(Debug, Drop)]
pub(crate) struct Slots {
    slices: PaddedList,
    order: Order,
    marks: MarkList,
    dropped: [bool; SLOTS],
    pub(crate) helds: [Held; SLOTS],
}

impl Model for Slots {
    ghost use Rattle.mt_border.specs.Slots.{Slotted, IsSlotted, slots_in};

    ghost Value = { Slotted };

    ghost view = { λ s. slots_in s.slices s.marks s.helds s.dropped s.order };

    ghost invariant = { λ s. IsSlotted (slots_in s.slices s.marks s.helds s.dropped s.order) };
}

impl Slots {
    ghost use Rattle.mt_border.specs.{Restamps.{all_restamped}, Entries.{slices, marks}, Rows.entry_seen};
    ghost use Rattle.mt_border.specs.Slots.{IsSlotted, held_in, helds_left, next_free, is_dropped, fresh_slots, listed, IsRenewed, IsFresh};
    ghost use Rattle.mt_order.specs.Places.{place_of_slot, order_with, order_without, word_of};

    pub(crate) fn new() -> Self
        ensures { result ≡ fresh_slots }
    {
        Slots {
            slices: PaddedList::new(),
            order: Order::new(),
            marks: MarkList::new(),
            dropped: [false; SLOTS],
            helds: [
                Held::link(0),
                Held::link(0),
                Held::link(0),
                Held::link(0),
                Held::link(0),
                Held::link(0),
                Held::link(0),
                Held::link(0),
                Held::link(0),
                Held::link(0),
                Held::link(0),
                Held::link(0),
                Held::link(0),
                Held::link(0),
                Held::link(0),
            ],
        }
    }

    /// The number of live slots.
    pub(crate) fn len(&self) -> usize
        ensures value { result ≡ length (listed self.now) }
        ensures slotted { IsSlotted self.now }
    {
        self.slices.len()
    }

    /// The slices in the order of keys.
    pub(crate) fn slices(&self) -> &[u64]
        ensures { result.now ≡ slices (listed self.now) }
    {
        self.slices.as_slice()
    }

    /// How many live slots stand before the slice.
    pub(crate) fn count_below(&self, slice: u64) -> usize
        requires rises { NeverFalls (slices (listed self.now)) }
        requires few { length (listed self.now) ≤ SLOTS }
        ensures { result ≡ count_by (λ s. nat_lt s slice) (slices (listed self.now)) }
    {
        self.slices.count_below(slice)
    }

    /// The mark at a place of the order.
    #[inline(always)]
    pub(crate) fn mark(&self, place: usize) -> Mark
        requires { place < length (listed self.now) }
        ensures value { result ≡ slice_index_or (marks (listed self.now)) place result }
        ensures sound { IsMark result }
    {
        self.marks.get(place)
    }

    /// The slot at a place of the order.
    pub(crate) fn slot_at(&self, place: usize) -> usize
        requires { place < length (listed self.now) }
        ensures place { place_of_slot self.now.order.live result ≡ place }
        ensures within { result < SLOTS }
    {
        self.order.slot(place)
    }

    /// The place of a live slot.
    pub(crate) fn place_of(&self, slot: usize) -> Option<usize>
        ensures live { IfSome result (λ place. place < length (listed self.now)) }
        ensures some { IfSome result (λ place. place_of_slot self.now.order.live slot ≡ place) }
        ensures none { IfNone result (length (listed self.now) ≤ place_of_slot self.now.order.live slot) }
    {
        self.order.place_of(slot)
    }

    /// The entry at a place of the order that has one.
    pub(crate) fn entry(&self, place: usize) -> EntryRef<'_>
        requires { place < length (listed self.now) }
        ensures { entry_seen result ≡ slice_index_or (listed self.now) place (entry_seen result) }
    {
        let slot = self.order.slot(place);
        EntryRef {
            slice: self.slices.as_slice()[place],
            mark: self.marks.get(place),
            held: &self.helds[slot],
        }
    }

    /// The entry at a place of the order, if it has one.
    pub(crate) fn get(&self, place: usize) -> Option<EntryRef<'_>>
        ensures { option_map entry_seen result ≡ slice_get (listed self.now) place }
    {
        if place < self.len() {
            Some(self.entry(place))
        } else {
            None
        }
    }

    /// What a slot holds.
    pub(crate) fn held(&self, slot: usize) -> &Held
        requires { slot < SLOTS }
        ensures { result.now ≡ held_in self.now.helds slot }
    {
        &self.helds[slot]
    }

    /// Whether a slot was dropped at some time.
    pub(crate) fn was_dropped(&self, slot: usize) -> bool
        requires { slot < SLOTS }
        ensures { result ≡ is_dropped self.now slot }
    {
        self.dropped[slot]
    }

    /// The free slot that is taken next.
    pub(crate) fn next_free(&self) -> usize
        requires { length (listed self.now) < SLOTS }
        ensures value { result ≡ next_free self.now }
        ensures within { result < SLOTS }
        ensures slotted { IsSlotted self.now }
    {
        self.order.slot(self.order.len())
    }

    /// The word of the order.
    pub(crate) fn word(&self) -> u64
        ensures value { result ≡ word_of self.now.order }
        ensures slotted { IsSlotted self.now }
    {
        self.order.word()
    }

    /// Writes what the free slot holds that is taken next. If it was ever dropped, the other free slots
    /// give up what they hold.
    pub(crate) fn fill(&mut self, held: Held)
        requires { length (listed self.old) < SLOTS }
        ensures after { self.new ≡ record self.old { helds = slice_set (helds_left self.old) (next_free self.old) held } }
        ensures slotted { IsSlotted self.new }
    {
        let next = self.next_free();
        if self.dropped[next] {
            empty_each(&mut self.helds, &self.order);
        }
        self.helds[next] = held;
    }

    /// Makes the first free slot live, with what it holds, at a place of the order, placed by the step `stamp`.
    pub(crate) fn publish_at(&mut self, place: usize, slice: u64, mark: Mark, stamp: u64)
        requires in_bounds { place ≤ length (listed self.old) }
        requires room { length (listed self.old) < SLOTS }
        requires mark { IsMark mark }
        ensures entries { listed self.new ≡ insert (listed self.old) place
            (record { slice = slice; mark = mark; held = stamped stamp (held_in self.old.helds (next_free self.old)) }) }
        ensures slots { self.new ≡ record self.old {
          slices = insert self.old.slices place slice;
          marks = insert self.old.marks place mark;
          helds = slice_set self.old.helds (next_free self.old) (stamped stamp (held_in self.old.helds (next_free self.old)));
          order = order_with self.old.order place;
        } }
        ensures slotted { IsSlotted self.new }
    {
        self.slices.insert(place, slice);
        self.marks.insert(place, mark);
        let slot = self.order.insert(place);
        self.helds[slot].restamp(stamp);
    }

    /// Makes the slot at a place of the order the first free one, which holds what it held.
    pub(crate) fn free_at(&mut self, place: usize)
        requires { place < length (listed self.old) }
        ensures entries { listed self.new ≡ remove (listed self.old) place }
        ensures slots { self.new ≡ record self.old {
          slices = remove self.old.slices place;
          marks = remove self.old.marks place;
          dropped = slice_set self.old.dropped (slice_index self.old.order.live place) true;
          order = order_without self.old.order place;
        } }
        ensures slotted { IsSlotted self.new }
    {
        let _ = self.slices.remove(place);
        let _ = self.marks.remove(place);
        let freed = self.order.remove(place);
        self.dropped[freed] = true;
    }

    /// Puts an entry in at a place of the order. The first free slot holds it.
    pub(crate) fn insert(&mut self, place: usize, entry: Entry)
        requires in_bounds { place ≤ length (listed self.old) }
        requires room { length (listed self.old) < SLOTS }
        requires mark { IsMark entry.mark }
        ensures entries { listed self.new ≡ insert (listed self.old) place entry }
        ensures slots { self.new ≡ record self.old {
          slices = insert self.old.slices place entry.slice;
          marks = insert self.old.marks place entry.mark;
          helds = slice_set self.old.helds (next_free self.old) entry.held;
          order = order_with self.old.order place;
        } }
        ensures slotted { IsSlotted self.new }
    {
        self.slices.insert(place, entry.slice);
        self.marks.insert(place, entry.mark);
        let slot = self.order.insert(place);
        self.helds[slot] = entry.held;
    }

    /// Takes the entry at a place of the order out. Its slot is the first free one.
    pub(crate) fn remove(&mut self, place: usize) -> Entry
        requires { place < length (listed self.old) }
        ensures value { result ≡ slice_index_or (listed self.old) place result }
        ensures mark { IsMark result.mark }
        ensures entries { listed self.new ≡ remove (listed self.old) place }
        ensures order { self.new.order ≡ order_without self.old.order place }
        ensures slotted { IsSlotted self.new }
    {
        let slice = self.slices.remove(place);
        let mark = self.marks.remove(place);
        let slot = self.order.remove(place);
        self.dropped[slot] = true;
        let held = mem::replace(&mut self.helds[slot], Held::link(0));
        Entry { slice, mark, held }
    }

    /// Gives each pair the stamp that the list has for its own.
    pub(crate) fn restamp(&mut self, stamps: &BTreeMap<u64, u64>)
        ensures helds { self.new ≡ record self.old { helds = map (with_stamps (new_stamp stamps.now)) self.old.helds } }
        ensures entries { listed self.new ≡ all_restamped (new_stamp stamps.now) (listed self.old) }
        ensures slotted { IsSlotted self.new }
    {
        restamp_each(&mut self.helds, stamps);
    }

    /// Moves the entries from place `keep` on into other slots, whatever these hold. On both sides they
    /// stand in the first slots then, in the order of keys. A slot that was ever dropped stays known as
    /// such here, and on the right none is.
    pub(crate) fn part(&mut self, keep: usize, right: &mut Slots)
        requires within { keep ≤ length (listed self.old) }
        requires few { length (listed self.old) ≤ SLOTS }
        ensures kept { listed self.new ≡ take keep (listed self.old) }
        ensures moved { listed right.new ≡ drop keep (listed self.old) }
        ensures renewed { IsRenewed self.old.dropped self.new }
        ensures fresh_on_the_right { IsFresh right.new }
        ensures slotted { IsSlotted self.new }
        ensures slotted_on_the_right { IsSlotted right.new }
    {
        let dropped = self.dropped;
        let mut behind = Slots::new();
        self.move_tail(keep, &mut behind);
        *right = behind;
        self.renew();
        self.dropped = dropped;
    }

    /// Moves the entries into the first slots, in the order of keys. A slot that was ever dropped stays
    /// known as such.
    pub(crate) fn renew(&mut self)
        requires few { length (listed self.old) ≤ SLOTS }
        ensures entries { listed self.new ≡ listed self.old }
        ensures renewed { IsRenewed self.old.dropped self.new }
        ensures slotted { IsSlotted self.new }
    {
        let dropped = self.dropped;
        let mut renewed = Slots::new();
        self.move_tail(0, &mut renewed);
        *self = renewed;
        self.dropped = dropped;
    }

    // Moves the entries from place `keep` on into fresh slots. Those that stay keep their slots.
    fn move_tail(&mut self, keep: usize, right: &mut Slots)
        requires within { keep ≤ length (listed self.old) }
        requires few { length (listed self.old) ≤ SLOTS }
        requires empty { right.old ≡ fresh_slots }
        ensures kept { listed self.new ≡ take keep (listed self.old) }
        ensures moved { listed right.new ≡ drop keep (listed self.old) }
        ensures fresh { IsFresh right.new }
        ensures slotted { IsSlotted self.new }
        ensures slotted_on_the_right { IsSlotted right.new }
    {
        for place in right.len()..self.len() - keep {
            let entry = self.remove(keep);
            right.insert(place, entry);
        }
    }
}

// Gives up what the free slots of an order hold.
fn empty_each(helds: &mut [Held], order: &Order)
    requires { length helds.old ≡ SLOTS }
    ensures { helds.new ≡ emptied helds.old order.now.free }
{
    for place in order.len()..SLOTS {
        let slot = order.slot(place);
        helds[slot] = Held::link(0);
    }
}

// Gives each pair the stamp that the list has for its own.
fn restamp_each(helds: &mut [Held], stamps: &BTreeMap<u64, u64>)
    ensures { helds.new ≡ map (with_stamps (new_stamp stamps.now)) helds.old }
{
    for held in helds.iter_mut() {
        held.restamp_by(stamps);
    }
}
