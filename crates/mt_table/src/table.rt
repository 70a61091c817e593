//! The table of operations, in which no call walks from one to the next.
//!
//! Each operation has an id, its key in a slab, which is given again once it is free. All stand in a
//! queue, in the order of their begins, and those that have made a step in a second one, in the order
//! of their first steps. In each queue an operation names its neighbours; so the least birth and the
//! earliest first step are read at the heads, and an operation that leaves is cut out of both.
//! Invariant: `IsTable` and `HasSeats` of `specs/Queues.antt`. Memory: one seat for each operation, as
//! many as stood open at once or were made room for; each is shown as a place, which is empty if no
//! operation is there.

ghost use Rattle.std.specs.Prelude.{◌≡◌, ◌≢◌, ◌+◌, ◌≤◌, ℕ, [], length, IsOk, IfOk, IfErr, OnOk, OnErr, OnSome, IfNone, Some, None, slice_set, option_copied};
ghost use Rattle.std.specs.{Option.{ForSome, option_map}, Box.box_value, Fn.{FnOnceTakesAtMut, CalledAtMut}};
ghost use Rattle.mt_table.specs.declared.steps.Stepped.TheVariants.{Absent as NobodyIsThere};
ghost use Rattle.mt_operation.specs.declared.operation.Operation.{Operation as AnyOperation};

use crate::queue::{Ends, Links, Queue, Seat, cut, link_last, step_at, unlink};
use crate::steps::{Made, Stepped};
use mt_operation::Operation;
use mt_rows::Refusal;
use slab::Slab;
use std::alloc::{AllocError, Global};
use std::boxed::Box;
use std::marker::Model;

/// The operations by their ids: those that were begun and whose answer was not taken.
#[derive(Drop)]
pub struct Operations {
    seats: Slab<Seat>,
    places: usize,
    first_steps: Ends,
    begins: Ends,
}

impl Model for Operations {
    ghost use Rattle.mt_operation.specs.Tables.{Table};
    ghost use Rattle.mt_table.specs.{Seats.{table_of, padded}, Queues.{IsTable, HasSeats}};

    ghost Value = { Table };

    ghost view = { λ t. padded t.places (table_of t.seats.slots) };

    ghost invariant = { λ t. IsTable t.seats.slots t.first_steps t.begins × HasSeats t.seats t.places };
}

impl Operations {
    ghost use Rattle.mt_table.specs.Bodies.{StepsBy, MovesUnfinished, KeepsFirst, KeepsBirth, KeepsWalk, LeavesElse};
    ghost use Rattle.mt_operation.specs.Tables.{op_at, open_count, HasPlaces, AddsPlaces, AreBefore, IsFloorNeeded, AreBornUpTo, IsLeastBirth};

    /// A table of no operation.
    pub fn new(alloc: Global) -> Self
        ensures { result ≡ [] }
    {
        Operations {
            seats: Slab::new(alloc),
            places: 0,
            first_steps: Ends {
                first: None,
                last: None,
            },
            begins: Ends {
                first: None,
                last: None,
            },
        }
    }

    /// The operation of an id.
    pub fn get(&self, id: usize) -> Option<&Operation>
        ensures { option_copied result ≡ op_at self.now id }
    {
        match self.seats.get(id) {
            Some(seat) => Some(&seat.operation),
            None => None,
        }
    }

    /// Keeps an operation that has made no step, at an id that was free. None of the table was begun after
    /// it. An error comes if there was no place for it and memory is refused.
    pub fn keep(&mut self, operation: Box<Operation>) -> Result<usize, Refusal>
        requires new { operation.value.walk.first ≡ 0 }
        requires latest { AreBornUpTo self.old operation.value.birth }
        ensures memory { IfErr result (λ refusal. refusal ≡ Refusal.Memory) }
        ensures vacant { IfOk result (λ id. op_at self.old id ≡ None) }
        ensures there { IfOk result (λ id. op_at self.new id ≡ Some operation.value) }
        ensures others { IfOk result (λ id. (q : ℕ) → q ≢ id → op_at self.new q ≡ op_at self.old q) }
        ensures room { HasPlaces self.old 1 → IsOk result }
        ensures count { OnOk result (open_count self.new ≡ open_count self.old + 1) }
        ensures places { OnOk result (length self.old ≤ length self.new) }
        ensures unchanged_on_err { OnErr result (self.new ≡ self.old) }
    {
        let id = self.seats.insert(Seat {
            operation,
            first_steps: Links {
                before: None,
                after: None,
            },
            begins: Links {
                before: None,
                after: None,
            },
        })?;
        self.places = self.seats.capacity();
        link_last(&mut self.seats, Queue::Begins, &mut self.begins, id);
        Ok(id)
    }

    /// Makes places for so many more operations, which `keep` needs no memory for then. An error comes
    /// if memory is refused.
    pub fn reserve(&mut self, more: usize) -> Result<(), AllocError>
        ensures room { OnOk result (HasPlaces self.new more) }
        ensures same { AddsPlaces self.old self.new }
        ensures unchanged_on_err { OnErr result (self.new ≡ self.old) }
    {
        self.seats.reserve(more)?;
        self.places = self.seats.capacity();
        Ok(())
    }

    /// Takes an operation out.
    pub fn remove(&mut self, id: usize) -> Option<Box<Operation>>
        ensures value { option_map box_value result ≡ op_at self.old id }
        ensures gone { OnSome result (self.new ≡ slice_set self.old id None) }
        ensures absent { IfNone result (self.new ≡ self.old) }
    {
        let seat = self.seats.try_remove(id)?;
        cut(&mut self.seats, &mut self.first_steps, &seat);
        unlink(
            &mut self.seats,
            Queue::Begins,
            &mut self.begins,
            seat.begins,
        );
        Some(seat.operation)
    }

    /// An operation makes the step of this number in its place, by `makes`, which leaves the number of its
    /// first step, and its birth. Nothing happens if `makes` tells that somebody is in the way or that the step is not
    /// its own, or if no operation has the id. `makes` is lent, so that the caller knows what it has
    /// left in what it borrows.
    #[inline]
    pub fn step_by<F: FnMut(&mut Operation) -> Made>(
        &mut self,
        id: usize,
        step: u64,
        makes: &mut F,
    ) -> Stepped
        requires later { AreBefore self.old step }
        requires may { ForSome (op_at self.old id) (FnOnceTakesAtMut F.FnOnce makes.old) }
        requires moves { (left : F) → MovesUnfinished (λ op made after. CalledAtMut F.FnMut makes.old op made left after) self.old id }
        requires first { (left : F) → KeepsFirst (λ op made after. CalledAtMut F.FnMut makes.old op made left after) self.old id }
        requires birth { (left : F) → KeepsBirth (λ op made after. CalledAtMut F.FnMut makes.old op made left after) self.old id }
        requires keeps { (left : F) → KeepsWalk (λ op made after. CalledAtMut F.FnMut makes.old op made left after) self.old id }
        requires leaves { (left : F) → LeavesElse (λ op made after. CalledAtMut F.FnMut makes.old op made left after) self.old id }
        ensures steps { StepsBy (λ op made after. CalledAtMut F.FnMut makes.old op made makes.new after) self.old self.new id step result }
        ensures uncalled { result ≡ NobodyIsThere → makes.new ≡ makes.old }
    {
        let step = step_at(&mut self.seats, id, step, makes);
        if step.is_first {
            link_last(
                &mut self.seats,
                Queue::FirstSteps,
                &mut self.first_steps,
                id,
            );
        }
        step.stepped
    }

    /// The floor that the tape needs after so many steps.
    ///
    /// An operation that has made a step may be answered by the map just before its first step, or
    /// by any later one. So the tape keeps the writes from the earliest first step on.
    pub fn floor_needed(&self, steps: u64) -> u64
        requires { (o : ℕ) (op : AnyOperation) → op_at self.now o ≡ Some op → op.walk.first ≤ steps }
        ensures { IsFloorNeeded self.now steps result }
    {
        match self.first_steps.first {
            Some(id) => match self.seats.get(id) {
                Some(seat) => seat.operation.walk.first - 1,
                None => unreachable!(),
            },
            None => steps,
        }
    }

    /// The least birth of all operations, or the number of steps made where none is open.
    ///
    /// An operation remembers nothing that was taken out by a step up to its birth. So what was taken
    /// out by a step up to the least one is remembered by none.
    pub fn least_birth(&self, steps: u64) -> u64
        requires { AreBornUpTo self.now steps }
        ensures { IsLeastBirth self.now steps result }
    {
        match self.begins.first {
            Some(id) => match self.seats.get(id) {
                Some(seat) => seat.operation.birth,
                None => unreachable!(),
            },
            None => steps,
        }
    }
}
