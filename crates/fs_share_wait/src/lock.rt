//! The lock round a value that many threads use, each for a short while.

ghost use Rattle.std.specs.Fn.{FnOnceReturnsAtMut};

use std::hint::spin_loop;
use std::sync::{Mutex, MutexGuard, Wait};

/// After how many pauses of the processor a thread looks for the lock again, each time that it finds it taken; then it sleeps
/// for it. Four threads that sleep after 4,000 pauses in all spend their time on being woken; far more than these 23,000,
/// and a crowd of threads on one path uses the processors up only by looking.
const PAUSES: [u32; 6] = [64, 512, 2_048, 4_096, 8_192, 8_192];

/// A lock. Whoever has it has it for one event, and a sleep takes longer than hundreds of them. So a thread that finds it
/// taken first looks again some times, each time after a longer while, and sleeps for it only then.
pub struct Lock<V> {
    value: Mutex<V>,
}

impl<V> Lock<V> {
    /// A lock round a value.
    pub fn new(value: V) -> Lock<V> {
        Lock {
            value: Mutex::new(value),
        }
    }

    /// What it was round.
    pub fn into_inner(self) -> V {
        let Lock { value } = self;
        value.into_inner()
    }

    /// Takes the lock. The guard has to be unlocked.
    #[inline(always)]
    pub fn take<R: Wait>(&self, rt: &R) -> MutexGuard<'_, V> {
        match self.value.try_lock() {
            Some(value) => value,
            None => self.take_later(rt),
        }
    }

    /// The same where another thread has the lock just now.
    #[inline(never)]
    fn take_later<R: Wait>(&self, rt: &R) -> MutexGuard<'_, V> {
        for pauses in PAUSES {
            for _ in 0..pauses {
                spin_loop();
            }
            if let Some(value) = self.value.try_lock() {
                return value;
            }
        }
        self.value.lock(rt)
    }

    /// Does something to the value under the lock, once.
    #[inline(always)]
    pub fn locked<R: Wait, T, F: FnOnce(&mut V) -> T>(&self, rt: &R, what: F) -> T
        requires { F.IsAlwaysCallable what }
        ensures { (old : _) × (new : _) × FnOnceReturnsAtMut F.FnOnce what old result new }
    {
        let mut value = self.take(rt);
        let made = what(&mut *value);
        MutexGuard::unlock(value);
        made
    }
}
