//! The names of the open operations, their tickets, and whether their answers show stamps.
//!
//! Invariant: the row has at each ticket's id the ticket's name, and no other name. So a name is
//! found by a ticket's id in one look-up. Its memory is that of the names in use, and of the greatest
//! id that one of them had.

ghost use Rattle.std.specs.{Prelude.{◌≡◌, ◌≢◌, ◌<◌, ◌↔◌, ℕ, [], length, slice_index_or, OnOk, IfErr, Some, None}, Option.option_map, Ordering.nat_cmp};
ghost use Rattle.std.specs.BTreeMap.{get, Updates};
ghost use Rattle.mt_lines.specs.Names.{ticket_of, shows_of, operation_of, TakesName, FreesName};

use mt_core::Ticket;
use std::alloc::{AllocError, Global};
use std::collections::BTreeMap;
use std::collections::btree_map::Entry;
use std::marker::Model;

/// An operation that was begun by a name, and whether its answer shows the stamp of a row.
#[derive(Drop)]
pub struct OpenOperation {
    pub(crate) ticket: Ticket,
    pub(crate) stamps: bool,
}

/// The open operations by their names, and the names by their tickets' ids.
#[derive(Drop)]
pub struct Names {
    tickets: BTreeMap<u32, OpenOperation>,
    row: Vec<Option<u32>>,
}

impl Model for Names {
    ghost use Rattle.mt_lines.specs.Names.{Tickets, IsNameRow};

    ghost Value = { Tickets };

    ghost view = { λ n. n.tickets.entries };

    ghost invariant = { λ n. IsNameRow n.tickets.entries n.row.items };
}

impl Names {
    /// No names.
    pub fn new(alloc: Global) -> Names
        ensures { result ≡ [] }
    {
        Names {
            tickets: BTreeMap::new(alloc),
            row: Vec::new(alloc),
        }
    }

    /// The ticket that a name stands for.
    pub fn ticket(&self, name: u32) -> Option<&Ticket>
        ensures { option_map (λ t. t.now) result ≡ ticket_of self.now name }
    {
        match self.tickets.get(&name) {
            Some(named) => Some(&named.ticket),
            None => None,
        }
    }

    /// Whether the answer of the operation that a name stands for shows the stamp of a row. That of a
    /// free name doesn't.
    pub fn shows_stamps(&self, name: u32) -> bool
        ensures { result ≡ shows_of self.now name }
    {
        self.tickets.get(&name).is_some_and(|named| named.stamps)
    }

    /// The name that stands for the operation of an id.
    pub fn name_of(&self, id: u64) -> Option<u32>
        ensures { (name : ℕ) → (result ≡ Some name) ↔ (operation_of self.now name ≡ Some id) }
    {
        *self.row.get(id as usize)?
    }

    /// Lets a free name stand for an operation that has none. Where memory is refused the ticket comes
    /// back, and nothing changes.
    pub fn insert(&mut self, name: u32, ticket: Ticket, stamps: bool) -> Result<(), Ticket>
        requires free { operation_of self.old name ≡ None }
        requires unnamed { (other : ℕ) → operation_of self.old other ≢ Some ticket.id }
        ensures taken { OnOk result (TakesName self.old self.new name ticket.id stamps) }
        ensures back { IfErr result (λ back. (back ≡ ticket) × (self.new ≡ self.old)) }
    {
        let id = ticket.id() as usize;
        if make_room(&mut self.row, id).is_err() {
            return Err(ticket);
        }
        insert_new(&mut self.tickets, name, ticket, stamps)?;
        self.row[id] = Some(name);
        Ok(())
    }

    /// Frees a name, and gives its ticket back.
    pub fn remove(&mut self, name: u32) -> Option<Ticket>
        ensures ticket { result ≡ ticket_of self.old name }
        ensures freed { FreesName self.old self.new name }
    {
        let named = self.tickets.remove(&name)?;
        let id = named.ticket.id() as usize;
        self.row[id] = None;
        Some(named.ticket)
    }
}

// Lets a name that stands for nothing stand for a ticket, which comes back where memory is refused.
fn insert_new(
    tickets: &mut BTreeMap<u32, OpenOperation>,
    name: u32,
    ticket: Ticket,
    stamps: bool,
) -> Result<(), Ticket>
    requires { get nat_cmp tickets.old name ≡ None }
    ensures updates { OnOk result (Updates nat_cmp tickets.old tickets.new name (Some (record { ticket = ticket; stamps = stamps }))) }
    ensures back { IfErr result (λ back. (back ≡ ticket) × (tickets.new.entries ≡ tickets.old.entries)) }
{
    match tickets.entry(name) {
        Ok(Entry::Vacant(entry)) => {
            entry.insert(OpenOperation { ticket, stamps });
            Ok(())
        }
        Ok(Entry::Occupied(_)) => unreachable!(),
        Err(_) => Err(ticket),
    }
}

// Makes the row long enough for an id. The places that it adds have no name.
fn make_room(row: &mut Vec<Option<u32>>, id: usize) -> Result<(), AllocError>
    ensures room { OnOk result (id < length row.new.items) }
    ensures same { (o : ℕ) → slice_index_or row.new.items o None ≡ slice_index_or row.old.items o None }
{
    while row.len() <= id {
        row.push(None)?;
    }
    Ok(())
}
