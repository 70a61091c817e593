//! Operations in their seats, and the two queues through them: in the order of first steps, of those
//! that have made a step, and in the order of begins, of all.
//!
//! Each seat names its neighbours in either queue. What these functions do to the links and to one
//! operation is said seat by seat; `table.rt` keeps what holds of all of them. Each takes the queue that
//! it writes, with the ends of that one. None of them adds a seat or gives one up.

ghost use Rattle.std.specs.{Prelude.{◌≡◌, ◌≢◌, ◌<◌, false, Some, None}, Option.ForSome, Fn.{FnOnceTakesAtMut, CalledAtMut}};
ghost use Rattle.mt_table.specs.{declared.steps.Stepped.TheVariants.{Absent as NobodyIsThere}, Seats.{Seats, seat_at, operation_in, links_of, with_links, IsEndOrSeat, KeepsRoom}};
ghost use Rattle.mt_table.specs.{Bodies.{SeatKeepsFirst, SeatStepsBy}, Queues.{SetsAfter, SetsBefore, CutsOut, LinksLast}};

use crate::steps::{Made, Stepped};
use mt_operation::Operation;
use slab::Slab;
use std::boxed::Box;

/// One of the queues.
#[derive(Clone, Copy)]
pub(crate) enum Queue {
    /// In the order of first steps, of the operations that have made a step.
    FirstSteps,
    /// In the order of begins, of all operations.
    Begins,
}

/// The neighbours of a seat in one queue.
#[derive(Clone, Copy)]
pub(crate) struct Links {
    pub before: Option<usize>,
    pub after: Option<usize>,
}

/// An operation in the box in which it was handed in, and its neighbours in either queue.
#[derive(Drop)]
pub(crate) struct Seat {
    pub operation: Box<Operation>,
    pub first_steps: Links,
    pub begins: Links,
}

/// The operations at the ends of a queue.
#[derive(Clone, Copy)]
pub(crate) struct Ends {
    pub first: Option<usize>,
    pub last: Option<usize>,
}

/// What has come of a step in a seat, and whether it was made and was the operation's first.
#[derive(Clone, Copy)]
pub(crate) struct SeatStep {
    pub stepped: Stepped,
    pub is_first: bool,
}

impl Seat {
    // Its neighbours in a queue.
    fn links_in(&self, queue: Queue) -> Links
        ensures { result ≡ links_of queue self.now }
    {
        match queue {
            Queue::FirstSteps => self.first_steps,
            Queue::Begins => self.begins,
        }
    }

    // Names other neighbours in a queue.
    fn set_links(&mut self, queue: Queue, links: Links)
        ensures { self.new ≡ with_links queue links self.old }
    {
        match queue {
            Queue::FirstSteps => self.first_steps = links,
            Queue::Begins => self.begins = links,
        }
    }
}

/// An operation makes the step of this number in place, as `makes` does it.
#[inline]
pub(crate) fn step_at<F: FnMut(&mut Operation) -> Made>(
    seats: &mut Slab<Seat>,
    id: usize,
    step: u64,
    makes: &mut F,
) -> SeatStep
    requires may { ForSome (operation_in (seat_at seats.old.slots id)) (FnOnceTakesAtMut F.FnOnce makes.old) }
    requires first { (left : F) → SeatKeepsFirst (λ op made after. CalledAtMut F.FnMut makes.old op made left after) seats.old.slots id }
    ensures steps { SeatStepsBy (λ op made after. CalledAtMut F.FnMut makes.old op made makes.new after) seats.old.slots seats.new.slots id step result.is_first result.stepped }
    ensures uncalled { result.stepped ≡ NobodyIsThere → makes.new ≡ makes.old }
    ensures room { KeepsRoom seats.old seats.new }
{
    if !seats.contains(id) {
        return SeatStep {
            stepped: Stepped::Absent,
            is_first: false,
        };
    }
    let operation = seats[id].operation.as_mut();
    let stepped = match makes(operation) {
        Made::Step => {
            let is_first = operation.count(step);
            return SeatStep {
                stepped: Stepped::To(operation.walk.phase),
                is_first,
            };
        }
        Made::Blocked(holder) => Stepped::Blocked(holder),
        Made::NoMemory => Stepped::NoMemory,
        Made::Nothing => Stepped::Left,
    };
    SeatStep {
        stepped,
        is_first: false,
    }
}

/// Makes neighbours of the two between which a seat was by its first step, where its operation has made one.
pub(crate) fn cut(seats: &mut Slab<Seat>, ends: &mut Ends, seat: &Seat)
    requires before { 0 < seat.now.operation.value.walk.first → IsEndOrSeat seats.old.slots seat.now.first_steps.before }
    requires after { 0 < seat.now.operation.value.walk.first → IsEndOrSeat seats.old.slots seat.now.first_steps.after }
    ensures unlinks { 0 < seat.now.operation.value.walk.first → CutsOut Queue.FirstSteps seats.old.slots ends.old seats.new.slots ends.new seat.now.first_steps }
    ensures same { seat.now.operation.value.walk.first ≡ 0 → (seats.new.slots ≡ seats.old.slots) × (ends.new ≡ ends.old) }
    ensures room { KeepsRoom seats.old seats.new }
{
    if seat.operation.walk.first > 0 {
        unlink(seats, Queue::FirstSteps, ends, seat.first_steps);
    }
}

/// Puts an operation behind all others of a queue.
#[inline(never)]
pub(crate) fn link_last(seats: &mut Slab<Seat>, queue: Queue, ends: &mut Ends, id: usize)
    requires there { IsEndOrSeat seats.old.slots (Some id) }
    requires last { IsEndOrSeat seats.old.slots ends.old.last }
    requires new { ends.old.last ≢ Some id }
    ensures links { LinksLast queue seats.old.slots ends.old seats.new.slots ends.new id }
    ensures room { KeepsRoom seats.old seats.new }
{
    let before = ends.last;
    set_after(seats, queue, ends, before, Some(id));
    put_behind(seats, queue, ends, id, before);
    set_before(seats, queue, ends, None, Some(id));
}

// Names another neighbour before a seat, or none, and none after it.
fn put_behind(seats: &mut Slab<Seat>, queue: Queue, ends: &Ends, id: usize, before: Option<usize>)
    requires { IsEndOrSeat seats.old.slots (Some id) }
    ensures sets { (mid : Seats) × SetsAfter queue seats.old.slots ends.now mid ends.now (Some id) None × SetsBefore queue mid ends.now seats.new.slots ends.now (Some id) before }
    ensures room { KeepsRoom seats.old seats.new }
{
    if let Some(seat) = seats.get_mut(id) {
        seat.set_links(
            queue,
            Links {
                before,
                after: None,
            },
        );
    }
}

/// Makes neighbours of two that had one between them, with these links.
pub(crate) fn unlink(seats: &mut Slab<Seat>, queue: Queue, ends: &mut Ends, links: Links)
    requires before { IsEndOrSeat seats.old.slots links.before }
    requires after { IsEndOrSeat seats.old.slots links.after }
    ensures cuts { CutsOut queue seats.old.slots ends.old seats.new.slots ends.new links }
    ensures room { KeepsRoom seats.old seats.new }
{
    set_after(seats, queue, ends, links.before, links.after);
    set_before(seats, queue, ends, links.after, links.before);
}

// Names another neighbour after a seat, or the queue's first where there is none.
fn set_after(
    seats: &mut Slab<Seat>,
    queue: Queue,
    ends: &mut Ends,
    of: Option<usize>,
    to: Option<usize>,
)
    requires { IsEndOrSeat seats.old.slots of }
    ensures sets { SetsAfter queue seats.old.slots ends.old seats.new.slots ends.new of to }
    ensures room { KeepsRoom seats.old seats.new }
{
    match of {
        None => ends.first = to,
        Some(id) => {
            if let Some(seat) = seats.get_mut(id) {
                let before = seat.links_in(queue).before;
                seat.set_links(queue, Links { before, after: to });
            }
        }
    }
}

// Names another neighbour before a seat, or the queue's last where there is none.
fn set_before(
    seats: &mut Slab<Seat>,
    queue: Queue,
    ends: &mut Ends,
    of: Option<usize>,
    to: Option<usize>,
)
    requires { IsEndOrSeat seats.old.slots of }
    ensures sets { SetsBefore queue seats.old.slots ends.old seats.new.slots ends.new of to }
    ensures room { KeepsRoom seats.old seats.new }
{
    match of {
        None => ends.last = to,
        Some(id) => {
            if let Some(seat) = seats.get_mut(id) {
                let after = seat.links_in(queue).after;
                seat.set_links(queue, Links { before: to, after });
            }
        }
    }
}
