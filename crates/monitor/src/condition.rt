//! The conditions that threads wait for.
ghost use Rattle.std.specs.Sync.Mutex.{mutex_guard_value};
ghost use Rattle.monitor.specs.Wait.{LooksInVain};

use crate::look::Look;
use std::sync::{Condvar, MutexGuard, Wait};
use std::time::Duration;

/// A condition of a monitor, for which threads wait until they are notified. Who changes what they wait for notifies them
/// after that.
#[derive(Drop)]
pub struct Condition {
    notified: Condvar,
}

impl Condition {
    /// Returns a condition for which nobody waits.
    pub fn new() -> Condition {
        Condition {
            notified: Condvar::new(),
        }
    }

    /// Notifies one of the threads that wait.
    pub fn notify_one(&self) {
        self.notified.notify_one();
    }

    /// Notifies all threads that wait.
    pub fn notify_all(&self) {
        self.notified.notify_all();
    }

    /// Lets go of the lock, and sleeps until a notification comes, for `longest` at most. The look `F` was made while
    /// `held` held the lock, and asked for this sleep.
    pub(crate) fn sleep<R: Wait, T, U, F: FnMut(&mut T) -> Look<U>>(
        &self,
        rt: &R,
        held: MutexGuard<T>,
        longest: Duration,
    )
        requires looked { LooksInVain F.step (mutex_guard_value held) longest }
    {
        let seen = self.seen(&held);
        drop(held);
        self.notified.sleep(rt, seen, longest);
    }

    /// Returns how many notifications there were, while the lock is held: whoever changes the value from now on
    /// notifies once more.
    fn seen<T>(&self, _held: &MutexGuard<T>) -> u64 {
        self.notified.notifications()
    }
}
