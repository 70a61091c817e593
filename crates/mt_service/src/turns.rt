//! What the sessions and the turner share: when a turn is due, and whether serving is over.

use mt_disk::Disk;
use mt_stored::Checks;
use std::sync::{Condvar, Mutex, MutexGuard, Wait};
use std::time::{Clock, Duration};

/// A store's checks, behind a lock. Whoever waits for a turn is woken when one is due, and when serving is over.
#[derive(Drop)]
pub struct Turns<K: Disk + Drop> {
    board: Mutex<Board<K>>,
    changed: Condvar,
}

/// What stands behind the lock.
#[derive(Drop)]
pub struct Board<K: Disk + Drop> {
    pub checks: Checks<K>,
    is_over: bool,
}

/// Why a wait for a turn has ended.
#[derive(Clone, Copy)]
pub enum Woken {
    /// Serving is over.
    Over,
    /// A turn is due.
    Due,
    /// It has waited as long as it was to.
    Late,
}

impl<K: Disk + Drop> Turns<K> {
    /// Of a store with these checks, while it is served.
    pub fn new(checks: Checks<K>) -> Self {
        Turns {
            board: Mutex::new(Board {
                checks,
                is_over: false,
            }),
            changed: Condvar::new(),
        }
    }

    /// Counts a settled answer, which told a number.
    pub fn count_settled<R: Wait>(&self, rt: &R, number: u64) {
        let mut board = self.board.lock(rt);
        board.checks.count_settled(number);
        if board.checks.is_due() {
            self.changed.notify_one();
        }
    }

    /// Serving is over: no answer comes any more.
    pub fn end_serving<R: Wait>(&self, rt: &R) {
        self.board.lock(rt).is_over = true;
        self.changed.notify_all();
    }

    /// Waits till a turn is due or serving is over, and so many milliseconds at most.
    pub fn wait<R: Wait + Clock>(&self, rt: &R, millis: u32) -> Woken {
        let longest = Duration::from_millis(u64::from(millis));
        let (board, waited) = self.changed.wait_timeout_while(
            rt,
            self.board.lock(rt),
            longest,
            |board| !board.is_over && !board.checks.is_due(),
        );
        if board.is_over {
            Woken::Over
        } else if waited.timed_out() {
            Woken::Late
        } else {
            Woken::Due
        }
    }

    /// The lock, which others wait for.
    pub fn lock<R: Wait>(&self, rt: &R) -> MutexGuard<'_, Board<K>> {
        self.board.lock(rt)
    }

    /// The checks, which nobody shares any more.
    pub fn into_checks(self) -> Checks<K> {
        self.board.into_inner().checks
    }
}
