//! A lock with its baton. It knows nothing of what lies under it, so it can do nothing to that.

ghost use Rattle.std.specs.Prelude.{◌≡◌};

use crate::baton::Baton;
use std::sync::{Mutex, MutexGuard, Wait};

/// Who is going to take it often waits for its baton before. So it is mostly free when it is tried.
#[derive(Drop)]
pub struct BatonLock<T: Drop> {
    value: Mutex<T>,
    baton: Baton,
}

impl<T: Drop> BatonLock<T> {
    pub fn new(value: T) -> Self {
        BatonLock {
            value: Mutex::new(value),
            baton: Baton::new(),
        }
    }

    /// Its baton.
    pub fn baton(&self) -> &Baton
        ensures { result.now ≡ self.now.baton }
    {
        &self.baton
    }

    /// What lies under it, of which nobody holds the lock any more.
    pub fn into_inner(self) -> T {
        let BatonLock { value, baton: _ } = self;
        value.into_inner()
    }

    /// The lock, which looks a hundred times before it sleeps.
    #[inline(always)]
    pub fn locked<R: Wait>(&self, rt: &R) -> MutexGuard<'_, T> {
        match self.value.try_lock() {
            Some(guard) => guard,
            None => self.awaited(rt),
        }
    }

    // The lock, which another one has.
    #[inline(never)]
    fn awaited<R: Wait>(&self, rt: &R) -> MutexGuard<'_, T> {
        self.value.lock(rt)
    }
}
