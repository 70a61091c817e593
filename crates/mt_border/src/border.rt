//! The border node: its entries, its neighbours and its parent, its fences, and its version.
//!
//! Invariant: `IsNodeSlots`; that is, fifteen slots, and of the live ones entries that may stand in a
//! node, in strictly rising order. How entries, fences and other nodes fit together is the arena's
//! to keep, and so is who holds a node's lock.
//!
//! Slots are handles: `find` gives one, `load`, `store`, `drop_key` and the three calls that make a
//! layer take one. A slot keeps its number until a key is published, dropped or moved by a split.
//! Contracts read a slot by `IsLive` and `entry_at`, and never say where in the order it stands.
//!
//! No call takes memory or fails; all change the node in place. A node owns its entries. Numbers of
//! nodes and trees are the arena's; those of nodes are kept in 32 bits.

ghost use Rattle.std.specs.Prelude.{◌≡◌, ◌-◌, ◌<◌, ◌≤◌, ◌↔◌, ℕ, [], IsTrue, IsSome, IfSome, true, false, length, slice_get, slice_set, insert, remove, map};
ghost use Rattle.std.specs.Option.{option_map};
ghost use Rattle.mt_slices.specs.Marks.{IsMark};

use crate::entry::{Entry, EntryRef, Find, Held, Pair};
use crate::iter::Entries;
use crate::number::NodeNumber;
use crate::places::{place_of, search};
use crate::slots::Slots;
use crate::split::separator_of;
use mt_rows::Row;
use mt_slices::Mark;
use mt_version::Version;
use std::collections::BTreeMap;
use std::marker::Model;
use std::mem::size_of;

/// The number of slots of a border node.
pub const SLOTS: usize = 15;

/// A border node of one tree, whose keys have slices from the low fence on and below the high one,
/// which is missing where there is no end.
// A reader takes the version before it searches, so that stands first, and the slices behind it.
#[derive(Debug, Drop)]
pub struct Border {
    version: Version,
    slots: Slots,
    next: NodeNumber,
    previous: NodeNumber,
    parent: NodeNumber,
    low: u64,
    high: Option<u64>,
}

// What a store takes is mostly its nodes and its pairs.
const _: () = prove!(size_of::<Border>() == 480);

impl Model for Border {
    ghost use Rattle.mt_border.specs.Node.{Node, IsNodeSlots};

    ghost Value = { Node };

    ghost view = { λ b. record {
      slots = b.slots;
      next = b.next;
      previous = b.previous;
      parent = b.parent;
      low = b.low;
      high = b.high;
      version = b.version;
    } };

    ghost invariant = { λ b. IsNodeSlots b.slots };
}

impl Border {
    ghost use Rattle.mt_border.specs.{Restamps.{stamped, with_stamps, all_restamped, new_stamp}, Held.{Pair, Stable, Unstable, Link}};
    ghost use Rattle.mt_border.specs.{Entry.{order_at, order_of, IsEntry, IsRest, IsStablePair, IsUnlinked, IsLinked}, Rows.entry_seen};
    ghost use Rattle.mt_border.specs.{Entries.{IsBorder, IsMissing, place_in, with_entry, without}, Split.{IsCut, IsParted, IsSeparator, slices_with}};
    ghost use Rattle.mt_border.specs.Node.{empty_node, entries_of, entry_at, held_at, place_at, filled, IsLive, Finds, Rewrites};
    ghost use Rattle.mt_border.specs.{Slots.{held_in, helds_left, next_free, is_dropped, IsRenewed, IsFresh}, Keeps.{KeepsEntries, LosesOnly}};
    ghost use Rattle.mt_order.specs.Places.{order_with, order_without, word_of, IsPlaces};

    /// A node without keys, neighbours and parent.
    pub fn new(low: u64, high: Option<u64>, version: Version) -> Self
        ensures { result ≡ empty_node low high version }
    {
        Border {
            version,
            slots: Slots::new(),
            next: NodeNumber::none(),
            previous: NodeNumber::none(),
            parent: NodeNumber::none(),
            low,
            high,
        }
    }

    /// The number of live slots.
    pub fn len(&self) -> usize
        ensures value { result ≡ length (entries_of self.now) }
        ensures border { IsBorder (entries_of self.now) }
    {
        self.slots.len()
    }

    pub fn is_empty(&self) -> bool
        ensures { IsTrue result ↔ (entries_of self.now ≡ []) }
    {
        self.slots.len() == 0
    }

    /// Whether there is no room for one more key.
    pub fn is_full(&self) -> bool
        ensures full { IsTrue result ↔ (length (entries_of self.now) ≡ SLOTS) }
        ensures within { length (entries_of self.now) ≤ SLOTS }
    {
        self.slots.len() == SLOTS
    }

    /// Where the key with this slice, mark and suffix stands. An unstable pair is found as a pair.
    #[inline(always)]
    pub fn find(&self, slice: u64, mark: Mark, suffix: &[u8]) -> Find
        requires mark { IsMark mark }
        requires rest { IsRest mark suffix.now }
        ensures { Finds self.now slice mark suffix.now result }
    {
        match search(&self.slots, slice, mark) {
            Some(place) => {
                let slot = self.slots.slot_at(place);
                Find::Slot(slot, self.slots.entry(place).kind(suffix))
            }
            None => Find::Missing,
        }
    }

    /// What a slot holds, if it is live.
    pub fn load(&self, slot: usize) -> Option<&Held>
        ensures live { IsSome result ↔ IsLive self.now slot }
        ensures value { IfSome result (λ held. held.now ≡ held_at self.now slot) }
    {
        match self.slots.place_of(slot) {
            Some(place) => Some(self.slots.entry(place).held),
            None => None,
        }
    }

    /// The entries in the order of their keys.
    pub fn entries(&self) -> Entries<'_>
        ensures { result ≡ entries_of self.now }
    {
        Entries {
            slots: &self.slots,
            place: 0,
        }
    }

    /// The first entry in the order of keys.
    pub fn first(&self) -> Option<EntryRef<'_>>
        ensures { option_map entry_seen result ≡ slice_get (entries_of self.now) 0 }
    {
        self.slots.get(0)
    }

    /// The last entry in the order of keys.
    pub fn last(&self) -> Option<EntryRef<'_>>
        ensures { let entries = entries_of self.now in
            option_map entry_seen result ≡ slice_get entries (length entries - 1) }
    {
        self.slots.get(self.slots.len().saturating_sub(1))
    }

    /// Makes one more key live.
    pub fn publish(&mut self, entry: Entry)
        requires room { length (entries_of self.old) < SLOTS }
        requires entry { IsEntry entry }
        requires missing { IsMissing (entries_of self.old) entry.slice entry.mark }
        ensures entries { entries_of self.new ≡ with_entry (entries_of self.old) entry }
        ensures slots { let place = place_in (entries_of self.old) (order_of entry) in
            self.new.slots ≡ record self.old.slots {
              slices = insert self.old.slots.slices place entry.slice;
              marks = insert self.old.slots.marks place entry.mark;
              helds = slice_set self.old.slots.helds (next_free self.old.slots) entry.held;
              order = order_with self.old.slots.order place;
            } }
        ensures others { self.new ≡ record self.old { slots = self.new.slots } }
    {
        let place = place_of(&self.slots, entry.slice, entry.mark);
        self.slots.insert(place, entry);
    }

    /// The permutation word. Bits 0 to 3 count the live slots, and each further four bits are a slot: the
    /// live ones in the order of their keys, and then the free ones in the order in which they are taken.
    pub fn permutation(&self) -> u64
        ensures word { result ≡ word_of self.now.slots.order }
        ensures places { IsPlaces self.now.slots.order }
    {
        self.slots.word()
    }

    /// The free slot that is taken next.
    pub fn next_free(&self) -> usize
        requires room { length (entries_of self.now) < SLOTS }
        ensures value { result ≡ next_free self.now.slots }
        ensures within { result < SLOTS }
    {
        self.slots.next_free()
    }

    /// Whether a slot was dropped at some time. Who fills such a one marks the node as inserting before.
    pub fn was_dropped(&self, slot: usize) -> bool
        requires { slot < SLOTS }
        ensures { result ≡ is_dropped self.now.slots slot }
    {
        self.slots.was_dropped(slot)
    }

    /// What a slot holds, live or not.
    pub fn stands_in(&self, slot: usize) -> &Held
        requires { slot < SLOTS }
        ensures value { result.now ≡ held_in self.now.slots.helds slot }
        ensures live { IsLive self.now slot → result.now ≡ held_at self.now slot }
    {
        self.slots.held(slot)
    }

    /// Writes what the free slot holds that is taken next, which no reader finds yet. If that slot was ever
    /// dropped, all other free slots give up what they hold.
    pub fn fill(&mut self, held: Held)
        requires room { length (entries_of self.old) < SLOTS }
        ensures entries { entries_of self.new ≡ entries_of self.old }
        ensures slots { let next = next_free self.old.slots in
            self.new.slots ≡ record self.old.slots { helds = slice_set (helds_left self.old.slots) next held } }
        ensures there { held_in self.new.slots.helds (next_free self.new.slots) ≡ held }
        ensures keeps { is_dropped self.old.slots (next_free self.old.slots) ≡ false →
            KeepsEntries (entries_of self.old) self.old.slots (entries_of self.new) self.new.slots }
        ensures others { self.new ≡ record self.old { slots = self.new.slots } }
    {
        self.slots.fill(held);
    }

    /// Makes the slot that was filled live, for a key of this slice and mark, placed by the step `stamp`.
    pub fn publish_filled(&mut self, slice: u64, mark: Mark, stamp: u64)
        requires room { length (entries_of self.old) < SLOTS }
        requires entry { IsEntry (filled self.old slice mark stamp) }
        requires missing { IsMissing (entries_of self.old) slice mark }
        ensures entries { entries_of self.new ≡ with_entry (entries_of self.old) (filled self.old slice mark stamp) }
        ensures slots { let place = place_in (entries_of self.old) (order_at slice mark) in
            let next = next_free self.old.slots in
            self.new.slots ≡ record self.old.slots {
              slices = insert self.old.slots.slices place slice;
              marks = insert self.old.slots.marks place mark;
              helds = slice_set self.old.slots.helds next (stamped stamp (held_in self.old.slots.helds next));
              order = order_with self.old.slots.order place;
            } }
        ensures live { (other : ℕ) → IsLive self.old other → IsLive self.new other }
        ensures keeps { is_dropped self.old.slots (next_free self.old.slots) ≡ false →
            KeepsEntries (entries_of self.old) self.old.slots (entries_of self.new) self.new.slots }
        ensures others { self.new ≡ record self.old { slots = self.new.slots } }
    {
        let place = place_of(&self.slots, slice, mark);
        self.slots.publish_at(place, slice, mark, stamp);
    }

    /// Makes a key or a link live no more. Its slot is the next one to be filled, and holds what it held
    /// until then.
    pub fn let_go(&mut self, slot: usize)
        requires { IsLive self.old slot }
        ensures entries { entries_of self.new ≡ without (entries_of self.old) (entry_at self.old slot) }
        ensures slots { let place = place_at self.old slot in
            self.new.slots ≡ record self.old.slots {
              slices = remove self.old.slots.slices place;
              marks = remove self.old.slots.marks place;
              dropped = slice_set self.old.slots.dropped slot true;
              order = order_without self.old.slots.order place;
            } }
        ensures lost { LosesOnly (entries_of self.old) self.old.slots (entries_of self.new) self.new.slots slot }
        ensures keeps { KeepsEntries (entries_of self.old) self.old.slots (entries_of self.new) self.new.slots }
        ensures others { self.new ≡ record self.old { slots = self.new.slots } }
    {
        let place = self.slots.place_of(slot).unwrap();
        self.slots.free_at(place);
    }

    /// Puts another row, placed by the step `stamp`, in the place of a pair's, and gives the old
    /// row back.
    pub fn store(&mut self, slot: usize, row: Row, stamp: u64) -> Row
        requires live { IsLive self.old slot }
        requires stable { IsStablePair (held_at self.old slot) }
        ensures before { (pair : Pair) → held_at self.old slot ≡ Stable pair →
            result ≡ pair.row }
        ensures after { (pair : Pair) → held_at self.old slot ≡ Stable pair →
            Rewrites self.old self.new slot
            (Stable (record pair { row = row; stamp = stamp })) }
        ensures keeps { KeepsEntries (entries_of self.old) self.old.slots (entries_of self.new) self.new.slots }
    {
        let slots = &mut self.slots;
        slots.helds[slot].put_row(row, stamp)
    }

    /// Gives each pair the stamp that the list has for its own. A pair whose stamp the list lacks keeps it.
    pub fn restamp(&mut self, stamps: &BTreeMap<u64, u64>)
        ensures entries { entries_of self.new ≡ all_restamped (new_stamp stamps.now) (entries_of self.old) }
        ensures helds { self.new ≡ record self.old {
          slots = record self.old.slots { helds = map (with_stamps (new_stamp stamps.now)) self.old.slots.helds };
        } }
    {
        self.slots.restamp(stamps);
    }

    /// Makes the pair of a longer key unstable, for which a tree of its own is made.
    pub fn mark_unstable(&mut self, slot: usize)
        requires live { IsLive self.old slot }
        requires long { (entry_at self.old slot).mark ≡ Mark.Long }
        requires stable { IsStablePair (held_at self.old slot) }
        ensures after { (pair : Pair) → held_at self.old slot ≡ Stable pair →
            Rewrites self.old self.new slot (Unstable pair None) }
        ensures keeps { KeepsEntries (entries_of self.old) self.old.slots (entries_of self.new) self.new.slots }
    {
        let slots = &mut self.slots;
        slots.helds[slot].unsettle();
    }

    /// Writes the number of its tree beside an unstable pair.
    pub fn link(&mut self, slot: usize, tree: usize)
        requires live { IsLive self.old slot }
        requires unlinked { IsUnlinked (held_at self.old slot) }
        ensures after { (pair : Pair) → held_at self.old slot ≡ Unstable pair None →
            Rewrites self.old self.new slot (Unstable pair (Some tree)) }
        ensures keeps { KeepsEntries (entries_of self.old) self.old.slots (entries_of self.new) self.new.slots }
    {
        let slots = &mut self.slots;
        slots.helds[slot].put_tree(tree);
    }

    /// Makes the slot of an unstable pair a link to its tree, and gives the pair back, which stands
    /// in that tree from now on.
    pub fn mark_layer(&mut self, slot: usize) -> Pair
        requires live { IsLive self.old slot }
        requires linked { IsLinked (held_at self.old slot) }
        ensures before { (pair : Pair) (tree : ℕ) →
            held_at self.old slot ≡ Unstable pair (Some tree) → result ≡ pair }
        ensures after { (pair : Pair) (tree : ℕ) →
            held_at self.old slot ≡ Unstable pair (Some tree) →
            Rewrites self.old self.new slot (Link tree) }
        ensures keeps { KeepsEntries (entries_of self.old) self.old.slots (entries_of self.new) self.new.slots }
    {
        let slots = &mut self.slots;
        slots.helds[slot].become_link()
    }

    /// Takes a key or a link out, and gives its entry back.
    pub fn drop_key(&mut self, slot: usize) -> Entry
        requires { IsLive self.old slot }
        ensures value { result ≡ entry_at self.old slot }
        ensures entries { entries_of self.new ≡ without (entries_of self.old) result }
        ensures order { self.new.slots.order ≡ order_without self.old.slots.order (place_at self.old slot) }
        ensures others { self.new ≡ record self.old { slots = self.new.slots } }
    {
        let place = self.slots.place_of(slot).unwrap();
        self.slots.remove(place)
    }

    /// The first slice on the right, were the node split with this key.
    pub fn separator(&self, slice: u64, mark: Mark) -> u64
        requires full { length (entries_of self.now) ≡ SLOTS }
        requires mark { IsMark mark }
        requires missing { IsMissing (entries_of self.now) slice mark }
        ensures { IsSeparator (slices_with (entries_of self.now) slice mark) result }
    {
        separator_of(&self.slots, slice, mark)
    }

    /// Splits a full node as if it had this key too, which is in neither half: keys from the
    /// separator on move to the right. Both halves have their keys in the first slots, in order. A slot
    /// of this node that was ever dropped stays known as such, and none of the right half's is. Gives the
    /// separator.
    pub fn split_without(&mut self, slice: u64, mark: Mark, right: &mut Border) -> u64
        requires full { length (entries_of self.old) ≡ SLOTS }
        requires mark { IsMark mark }
        requires missing { IsMissing (entries_of self.old) slice mark }
        requires empty { entries_of right.old ≡ [] }
        ensures border { IsBorder (entries_of self.old) }
        ensures separator { IsSeparator (slices_with (entries_of self.old) slice mark) result }
        ensures parted { IsParted (entries_of self.old)
            (entries_of self.new) (entries_of right.new) result }
        ensures two_on_the_left { 2 ≤ length (entries_of self.new) }
        ensures two_on_the_right { 2 ≤ length (entries_of right.new) }
        ensures renewed { IsRenewed self.old.slots.dropped self.new.slots }
        ensures fresh_on_the_right { IsFresh right.new.slots }
        ensures others { self.new ≡ record self.old { slots = self.new.slots } }
        ensures others_on_the_right { right.new ≡ record right.old { slots = right.new.slots } }
    {
        let separator = self.separator(slice, mark);
        let keep = self.slots.count_below(separator);
        self.slots.part(keep, &mut right.slots);
        separator
    }

    /// Splits a full node and this key: keys from the separator on stand on the right afterwards. Slots
    /// are as after `split_without`. Gives the separator.
    pub fn split_into(&mut self, entry: Entry, right: &mut Border) -> u64
        requires full { length (entries_of self.old) ≡ SLOTS }
        requires entry { IsEntry entry }
        requires missing { IsMissing (entries_of self.old) entry.slice entry.mark }
        requires empty { entries_of right.old ≡ [] }
        ensures separator { let sixteen = slices_with (entries_of self.old) entry.slice entry.mark in
            IsSeparator sixteen result }
        ensures cut { let sixteen = slices_with (entries_of self.old) entry.slice entry.mark in
            IsCut sixteen (length (entries_of self.new)) }
        ensures parted { IsParted (with_entry (entries_of self.old) entry)
            (entries_of self.new) (entries_of right.new) result }
        ensures renewed { IsRenewed self.old.slots.dropped self.new.slots }
        ensures fresh_on_the_right { IsFresh right.new.slots }
        ensures others { self.new ≡ record self.old { slots = self.new.slots } }
        ensures others_on_the_right { right.new ≡ record right.old { slots = right.new.slots } }
    {
        let separator = self.split_without(entry.slice, entry.mark, right);
        if entry.slice < separator {
            self.put_in(entry);
        } else {
            right.put_in(entry);
        }
        separator
    }

    // Makes one more key live, and moves all into the first slots.
    fn put_in(&mut self, entry: Entry)
        requires room { length (entries_of self.old) < SLOTS }
        requires entry { IsEntry entry }
        requires missing { IsMissing (entries_of self.old) entry.slice entry.mark }
        ensures entries { entries_of self.new ≡ with_entry (entries_of self.old) entry }
        ensures renewed { IsRenewed self.old.slots.dropped self.new.slots }
        ensures others { self.new ≡ record self.old { slots = self.new.slots } }
    {
        self.publish(entry);
        self.slots.renew();
    }

    /// The node whose slices come next.
    pub fn next(&self) -> Option<usize>
        ensures { result ≡ self.now.next }
    {
        self.next.get()
    }

    /// The same, as it is kept.
    pub fn next_number(&self) -> NodeNumber
        ensures { result ≡ self.now.next }
    {
        self.next.copied()
    }

    pub fn set_next(&mut self, next: NodeNumber)
        ensures { self.new ≡ record self.old { next = next } }
    {
        self.next = next;
    }

    /// The node whose slices come before.
    pub fn previous(&self) -> Option<usize>
        ensures { result ≡ self.now.previous }
    {
        self.previous.get()
    }

    pub fn set_previous(&mut self, previous: NodeNumber)
        ensures { self.new ≡ record self.old { previous = previous } }
    {
        self.previous = previous;
    }

    /// The interior node above; none for a root.
    pub fn parent(&self) -> Option<usize>
        ensures { result ≡ self.now.parent }
    {
        self.parent.get()
    }

    pub fn set_parent(&mut self, parent: NodeNumber)
        ensures { self.new ≡ record self.old { parent = parent } }
    {
        self.parent = parent;
    }

    /// The least slice that belongs here. It never changes.
    pub fn low(&self) -> u64
        ensures { result ≡ self.now.low }
    {
        self.low
    }

    /// The least slice that belongs behind this node; none, where all higher ones belong here.
    pub fn high(&self) -> Option<u64>
        ensures { result ≡ self.now.high }
    {
        self.high
    }

    pub fn set_high(&mut self, high: Option<u64>)
        ensures { self.new ≡ record self.old { high = high } }
    {
        self.high = high;
    }

    pub fn version(&self) -> Version
        ensures { result ≡ self.now.version }
    {
        self.version
    }

    pub fn set_version(&mut self, version: Version)
        ensures { self.new ≡ record self.old { version = version } }
    {
        self.version = version;
    }
}
