//! Which places are idle: nodes and trees that were taken out stand there, each with the step that did it.
//!
//! A list for each kind of place, in the order in which they were taken out, so that the steps of a list
//! rise. Only `make_room` takes memory. Errors: `AllocError`, from `make_room` alone. Units: places and
//! steps by their numbers.

ghost use Rattle.std.specs.Prelude.{◌≡◌, ◌<◌, ◌≤◌, [], length, IsTrue, IsSome, OnOk, IfNone, ◌↔◌};
ghost use Rattle.mt_arena.specs.Idle.{no_places, with_retired, with_border, with_interior, with_tree, out_at, all_out_at, chosen, left_of, given_border, given_interior, given_tree};

use std::alloc::{AllocError, Global};
use std::collections::VecDeque;
use std::marker::Model;

/// The place of a node or a tree that was taken out, and the step that did it. What stands there keeps
/// what it had, for those who still remember it, until the place is given out again.
#[derive(Clone, Copy, PartialEq, Eq, Debug)]
pub struct Retired {
    pub place: usize,
    pub step: u64,
}

/// The idle places of one kind, the earliest first.
#[derive(Drop)]
pub struct Idle {
    queue: VecDeque<Retired>,
}

impl Model for Idle {
    ghost use Rattle.std.specs.VecDeque.{deque_capacity};
    ghost use Rattle.mt_arena.specs.Idle.{IdleView};

    ghost Value = { IdleView };

    ghost view = { λ s. record { places = s.queue.items; room = deque_capacity s.queue } };
}

impl Idle {
    fn new(alloc: Global) -> Self
        ensures { result.places ≡ [] }
    {
        Idle {
            queue: VecDeque::new(alloc),
        }
    }

    // Makes room for so many places in all.
    fn make_room(&mut self, count: usize) -> Result<(), AllocError>
        ensures places { self.new.places ≡ self.old.places }
        ensures room { OnOk result (count ≤ self.new.room) }
        ensures no_less { self.old.room ≤ self.new.room }
    {
        self.queue.reserve(count.saturating_sub(self.queue.len()))
    }

    // One more place is idle, by the step of this number.
    fn retire(&mut self, place: usize, step: u64)
        requires { length self.old.places < self.old.room }
        ensures { self.new ≡ record self.old { places = with_retired self.old.places place step } }
    {
        self.queue.push_back_reserved(Retired { place, step });
    }

    // The place that waits longest, if the step of this number or an earlier one took it out. If it did not,
    // then no later place of the list may be given out, since the steps rise.
    fn first(&self, least: u64) -> Option<usize>
        ensures { result ≡ chosen self.now.places least }
    {
        let first = self.queue.front();
        match first {
            Some(idle) => {
                if idle.step <= least {
                    Some(idle.place)
                } else {
                    None
                }
            }
            None => None,
        }
    }

    // Gives that place out.
    fn give(&mut self, least: u64) -> Option<usize>
        ensures chosen { result ≡ chosen self.old.places least }
        ensures left { self.new ≡ record self.old { places = left_of self.old.places least } }
        ensures none { IfNone result (self.new ≡ self.old) }
    {
        match self.queue.front() {
            Some(first) => {
                let place = first.place;
                if first.step <= least {
                    let _ = self.queue.pop_front();
                    Some(place)
                } else {
                    None
                }
            }
            None => None,
        }
    }

    // From now on the step of this number took all out.
    fn renumber(&mut self, step: u64)
        ensures { self.new ≡ record self.old { places = out_at step self.old.places } }
    {
        renumber_places(self.queue.make_contiguous(), step);
    }
}

// The same of those of a slice.
fn renumber_places(places: &mut [Retired], step: u64)
    ensures { places.new ≡ out_at step places.old }
{
    for retired in places.iter_mut() {
        retired.step = step;
    }
}

/// All idle places: those of border nodes, of interior nodes and of trees.
#[derive(Drop)]
pub struct IdlePlaces {
    borders: Idle,
    interiors: Idle,
    trees: Idle,
}

impl Model for IdlePlaces {
    ghost use Rattle.std.specs.Prelude.{min};
    ghost use Rattle.mt_arena.specs.Idle.{IdlePlacesView};

    ghost Value = { IdlePlacesView };

    ghost view = { λ p. record {
      places = record { borders = p.borders.places; interiors = p.interiors.places; trees = p.trees.places };
      room = record { nodes = min p.borders.room p.interiors.room; trees = p.trees.room };
    } };
}

impl IdlePlaces {
    pub(crate) fn new(alloc: Global) -> Self
        ensures { result.places ≡ no_places }
    {
        IdlePlaces {
            borders: Idle::new(alloc),
            interiors: Idle::new(alloc),
            trees: Idle::new(alloc),
        }
    }

    /// Makes room for the places of so many nodes of either kind, and of so many trees.
    pub(crate) fn make_room(&mut self, nodes: usize, trees: usize) -> Result<(), AllocError>
        ensures places { self.new.places ≡ self.old.places }
        ensures nodes { OnOk result (nodes ≤ self.new.room.nodes) }
        ensures trees { OnOk result (trees ≤ self.new.room.trees) }
        ensures no_less { self.old.room.nodes ≤ self.new.room.nodes }
        ensures no_fewer { self.old.room.trees ≤ self.new.room.trees }
    {
        self.borders.make_room(nodes)?;
        self.interiors.make_room(nodes)?;
        self.trees.make_room(trees)
    }

    /// A border node's place is idle from now on, by the step of this number.
    pub(crate) fn retire_border(&mut self, node: usize, step: u64)
        requires { length self.old.places.borders < self.old.room.nodes }
        ensures { self.new ≡ record self.old { places = with_border self.old.places node step } }
    {
        self.borders.retire(node, step);
    }

    /// The same of an interior node.
    pub(crate) fn retire_interior(&mut self, node: usize, step: u64)
        requires { length self.old.places.interiors < self.old.room.nodes }
        ensures { self.new ≡ record self.old { places = with_interior self.old.places node step } }
    {
        self.interiors.retire(node, step);
    }

    /// The same of a tree.
    pub(crate) fn retire_tree(&mut self, tree: usize, step: u64)
        requires { length self.old.places.trees < self.old.room.trees }
        ensures { self.new ≡ record self.old { places = with_tree self.old.places tree step } }
    {
        self.trees.retire(tree, step);
    }

    /// Gives out the place of a border node that waits longest, if the step of this number or an earlier one
    /// took it out. No memory is taken.
    pub(crate) fn give_border(&mut self, least: u64) -> Option<usize>
        ensures chosen { result ≡ chosen self.old.places.borders least }
        ensures left { self.new ≡ record self.old { places = given_border self.old.places least } }
        ensures none { IfNone result (self.new ≡ self.old) }
    {
        self.borders.give(least)
    }

    /// The same of an interior node.
    pub(crate) fn give_interior(&mut self, least: u64) -> Option<usize>
        ensures chosen { result ≡ chosen self.old.places.interiors least }
        ensures left { self.new ≡ record self.old { places = given_interior self.old.places least } }
        ensures none { IfNone result (self.new ≡ self.old) }
    {
        self.interiors.give(least)
    }

    /// The same of a tree.
    pub(crate) fn give_tree(&mut self, least: u64) -> Option<usize>
        ensures chosen { result ≡ chosen self.old.places.trees least }
        ensures left { self.new ≡ record self.old { places = given_tree self.old.places least } }
        ensures none { IfNone result (self.new ≡ self.old) }
    {
        self.trees.give(least)
    }

    /// Whether the place of a border node and that of a tree may be given out, each of which the step of
    /// this number or an earlier one took out.
    pub(crate) fn has_layer(&self, least: u64) -> bool
        ensures { IsTrue result ↔ (IsSome (chosen self.now.places.borders least) × IsSome (chosen self.now.places.trees least)) }
    {
        self.borders.first(least).is_some() && self.trees.first(least).is_some()
    }

    /// From now on the step of this number took all out.
    pub(crate) fn renumber(&mut self, step: u64)
        ensures { self.new ≡ record self.old { places = all_out_at step self.old.places } }
    {
        self.borders.renumber(step);
        self.interiors.renumber(step);
        self.trees.renumber(step);
    }
}
