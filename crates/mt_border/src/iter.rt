//! The entries of a border node, one after the other in the order of their keys.

ghost use Rattle.std.specs.Iterator.{YieldsFirstBy, item_count};
ghost use Rattle.mt_border.specs.Rows.{entry_seen};

use crate::entry::EntryRef;
use crate::slots::Slots;
use std::marker::Model;

/// The entries of a node, seen as the list of those that are left.
#[derive(Drop)]
pub struct Entries<'a> {
    pub(crate) slots: &'a Slots,
    pub(crate) place: usize,
}

impl<'a> Model for Entries<'a> {
    ghost use Rattle.std.specs.Prelude.{List, drop};
    ghost use Rattle.mt_border.specs.{declared.entry.Entry.Entry, Slots.listed};

    ghost Value = { List Entry };

    ghost view = { λ it. drop it.place (listed it.slots.now) };
}

impl<'a> Iterator for Entries<'a> {
    type Item = EntryRef<'a>;

    ghost next_gives = { YieldsFirstBy entry_seen (λ rest. rest) };

    ghost remaining = { item_count (λ rest. rest) };

    fn next(&mut self) -> Option<EntryRef<'a>> {
        if self.place >= self.slots.len() {
            return None;
        }
        let entry = self.slots.entry(self.place);
        self.place += 1;
        Some(entry)
    }
}
