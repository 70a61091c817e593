//! Who goes first to the book's lock.
//!
//! Of the workers that have read requests one has the baton, and answers what it has read. The others sleep meanwhile, and
//! go without it after a while. So the lock is mostly free when it is tried, and the state stays in the caches of one
//! processor. Each step has a lock period of its own as before. Nothing rests on the baton: who has none may take the lock.

ghost use Rattle.std.specs.Prelude.{◌≡◌, ◌↔◌, ◌+◌, IsTrue};
ghost use Rattle.mt_book.specs.Batons.{MayTake, CountsCall};

use std::hint;
use std::sync::Wait;
use std::sync::atomic::{AtomicU64, Ordering};
use std::time::Duration;

// A worker that has made so many calls hands the baton on, if others sleep for it.
const TURN_CALLS: u32 = 64;

// So often a worker looks for the baton before it sleeps.
const LOOKS: u32 = 30;

// So often it sleeps at most, for so many microseconds each time. Who gives the baton back wakes one who sleeps. So the time
// is a bound, which 60 workers with 64 requests each don't reach: their round takes 15 milliseconds.
const SLEEPS: u32 = 3;

const SLEEP_MICROS: u64 = 20_000;

// The word of a baton that nobody has; of one that nobody has and that was handed on to those who sleep; and of one that the
// worker of place 0 has.
const FREE: u64 = 0;

const HANDED_ON: u64 = 1;

const FIRST_PLACE: u64 = 2;

/// The baton of a book.
// Its words stand alone in their lines: those who wait write them.
#[derive(Drop)]
pub struct Baton {
    before: [u64; 15],
    word: AtomicU64,
    sleeping: AtomicU64,
    after: [u64; 15],
}

impl Baton {
    /// A baton that nobody has.
    pub fn new() -> Self {
        Baton {
            before: [0; 15],
            word: AtomicU64::new(FREE),
            sleeping: AtomicU64::new(0),
            after: [0; 15],
        }
    }

    // Takes it, if a worker may who has waited, or who has not. Whether it has it now.
    fn try_take(&self, own: u64, waited: bool) -> bool {
        let seen = self.word.load(Ordering::SeqCst);
        may_take(seen, waited)
            && self
                .word
                .compare_exchange(seen, own, Ordering::SeqCst, Ordering::SeqCst)
                .is_ok()
    }

    // Leaves it with this word, and wakes one who sleeps for it.
    fn leave(&self, word: u64) {
        self.word.store(word, Ordering::SeqCst);
        if self.has_sleepers() {
            self.word.wake_one();
        }
    }

    fn has_sleepers(&self) -> bool {
        self.sleeping.load(Ordering::SeqCst) > 0
    }

    // Takes it at one of some looks, or after one of some sleeps. Who has just handed it on has not waited, and sleeps first.
    #[inline(never)]
    fn wait<R: Wait>(&self, rt: &R, own: u64, waited: bool) {
        for _ in 0..LOOKS {
            for _ in 0..8u32 {
                hint::spin_loop();
            }
            if self.try_take(own, false) {
                return;
            }
        }
        let _ = self.sleeping.fetch_add(1, Ordering::SeqCst);
        self.sleep(rt, own, waited);
        let _ = self.sleeping.fetch_sub(1, Ordering::SeqCst);
    }

    // Sleeps while it may not take it, and then takes it if it may. Whoever leaves it sees that this one is counted, and wakes it.
    fn sleep<R: Wait>(&self, rt: &R, own: u64, waited: bool) {
        for round in 0..SLEEPS {
            let seen = self.word.load(Ordering::SeqCst);
            if !may_take(seen, waited || round > 0) {
                let low = (seen & 0xffff_ffff) as u32;
                self.word
                    .park_timeout(rt, low, Duration::from_micros(SLEEP_MICROS));
            }
            if self.try_take(own, true) {
                return;
            }
        }
    }
}

// Whether a worker may take a baton with this word.
fn may_take(word: u64, waited: bool) -> bool
    ensures { IsTrue result ↔ MayTake word waited }
{
    word == FREE || word == HANDED_ON && waited
}

// The word of a baton that the worker of this place has.
fn word_of(place: u8) -> u64
    ensures { result ≡ place + 2 }
{
    u64::from(place) + FIRST_PLACE
}

/// A worker's place at a baton. No two workers have one place.
#[derive(Clone, Copy)]
pub struct Runner<'a> {
    baton: &'a Baton,
    place: u8,
}

impl<'a> Runner<'a> {
    pub fn new(baton: &'a Baton, place: u8) -> Self
        ensures baton { result.baton.now ≡ baton.now }
        ensures place { result.place ≡ place }
    {
        Runner { baton, place }
    }

    /// Whether it has the baton.
    pub fn has(&self) -> bool {
        self.baton.word.load(Ordering::SeqCst) == word_of(self.place)
    }

    /// Waits for the baton, if it hasn't got it, and goes without it after a while. It has made so many calls of its turn;
    /// after 64 it lets those go first who sleep for the baton. Returns how many calls of its turn it makes with the next one.
    pub fn take<R: Wait>(&self, rt: &R, calls: u32) -> u32
        ensures { CountsCall calls result }
    {
        let own = word_of(self.place);
        if self.has() {
            if calls < TURN_CALLS {
                return calls + 1;
            }
            if self.baton.has_sleepers() {
                self.baton.leave(HANDED_ON);
                self.baton.wait(rt, own, false);
            }
        } else if !self.baton.try_take(own, false) {
            self.baton.wait(rt, own, true);
        }
        1
    }

    /// Gives the baton back, if it has it, and wakes one who sleeps for it.
    pub fn give(&self) {
        if self.has() {
            self.baton.leave(FREE);
        }
    }
}
