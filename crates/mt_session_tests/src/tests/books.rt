//! Sessions over a state that goes on from a step: by itself, and by the server's caller over a book.

ghost use Rattle.std.specs.Prelude.{◌≡◌, [], IfOk};
ghost use Rattle.mt_alone.specs.Runs.{IsIdle};

use super::sessions::two_tenants;
use super::*;
use mt_book::{Baton, Book, Runner};
use mt_core::{MAX_STEPS, State};
use mt_disk::MemDisk;
use mt_options::TenantQuota;
use mt_service::{DeskCaller, Turns};
use mt_stored::{Checks, Keeper, Store};
use mt_streams::{Sink, Source};
use std::marker::Brand;
use std::sync::ledger::{Blank, Ledger};

// The tenants of `two_tenants`.
const TENANTS: [TenantQuota; 2] = [
    TenantQuota {
        tenant: 7,
        quota: 100,
    },
    TenantQuota {
        tenant: 8,
        quota: 1,
    },
];

// A state without pairs and without logs that has made so many steps, or all that there are.
fn state_after(alloc: Global, steps: u64) -> Result<State, AllocError>
    ensures answers { IfOk result (λ state. state.answers ≡ 0) }
    ensures logs { IfOk result (λ state. state.logs ≡ []) }
    ensures idle { IfOk result IsIdle }
{
    let steps = steps.min(MAX_STEPS);
    State::restore(alloc, steps, 0, two_tenants(alloc), Vec::new(alloc))
}

/// Sessions over such a state.
#[derive(Drop)]
pub struct Restored {
    pub steps: u64,
}

impl TestServer for Restored {
    fn serve_new<R: Source, W: Sink>(&self, alloc: Global, reader: &mut R, writer: &mut W) -> End {
        match state_after(alloc, self.steps) {
            Ok(state) => serve_alone(alloc, reader, writer, &mut Alone::new(state)),
            Err(_) => Err(ServeFault::Memory),
        }
    }
}

/// Sessions over a book of such a state.
#[derive(Drop)]
pub struct Booked<'a, T: Wait + Clock + Log> {
    pub rt: &'a T,
    pub steps: u64,
}

impl<T: Wait + Clock + Log> TestServer for Booked<'_, T> {
    fn serve_new<R: Source, W: Sink>(&self, alloc: Global, reader: &mut R, writer: &mut W) -> End {
        let blank = Blank::new(65_536);
        match state_after(alloc, self.steps) {
            Ok(state) => serve_booked::<Brand, T, R, W>(
                self.rt, alloc, blank, state, reader, writer,
            ),
            Err(_) => Err(ServeFault::Memory),
        }
    }
}

// A session by the server's caller, over a book that is owned alone.
fn serve_booked<L: Ledger, T: Wait + Clock + Log, R: Source, W: Sink>(
    rt: &T,
    alloc: Global,
    blank: Blank,
    state: State,
    reader: &mut R,
    writer: &mut W,
) -> End
    requires name { blank.name ≡ L.name }
    requires parts { (blank.parts ≡ L.parts) × (L.parts ≡ 65536) }
    requires untaken { state.answers ≡ 0 }
{
    let Ok(logs) = Store::<MemDisk>::without_logs(alloc, two_tenants(alloc)) else {
        return Err(ServeFault::Memory);
    };
    let mut book = Book::<L>::new(blank, state);
    let Some(pass) = book.open_pass(0) else {
        return Err(ServeFault::Memory);
    };
    let turns = Turns::new(Checks::<MemDisk>::new(0, 0, None));
    let keeper = Keeper::new(alloc, logs, 0);
    let baton = Baton::new();
    let runner = Runner::new(&baton, 0);
    let mut caller = DeskCaller::new(rt, alloc, book, pass, keeper, &turns, &TENANTS, runner);
    let ended = serve(alloc, reader, writer, &mut caller);
    ended
}
