//! A value that threads share.
ghost use Rattle.std.specs.Iterator.Runs.{CallKeepsClosure};
ghost use Rattle.std.specs.Fn.{FnOnceReturnsAtMut};
ghost use Rattle.monitor.specs.Wait.{IsFound};

use crate::condition::Condition;
use crate::look::Look;
use std::sync::{Mutex, MutexGuard, Wait};

/// A value under a lock. A thread that waits for a condition looks at the value under the lock, and sleeps without it.
#[derive(Drop)]
pub struct Monitor<T> {
    value: Mutex<T>,
}

impl<T> Monitor<T> {
    /// Makes a monitor of `value`.
    pub fn new(value: T) -> Monitor<T> {
        Monitor {
            value: Mutex::new(value),
        }
    }

    /// Takes the lock, and returns the value until the guard is dropped.
    pub fn lock<R: Wait>(&self, rt: &R) -> MutexGuard<'_, T> {
        self.value.lock(rt)
    }

    /// Changes the value by `change` under the lock, and then notifies all that wait for `condition`. Returns what
    /// `change` returned.
    pub fn change<R: Wait, U, F: FnOnce(&mut T) -> U>(
        &self,
        rt: &R,
        condition: &Condition,
        change: F,
    ) -> U
        requires callable { F.IsAlwaysCallable change }
        ensures changed { (old : T) × (new : T) × FnOnceReturnsAtMut F.FnOnce change old result new }
    {
        let mut held = self.value.lock(rt);
        let changed = change(&mut *held);
        drop(held);
        condition.notify_all();
        changed
    }

    /// Looks by `look` under the lock until that finds something, and returns what is found. Between two looks the thread
    /// sleeps until `condition` is notified, for as long at most as the look says.
    pub fn wait_until<R: Wait, U, F: FnMut(&mut T) -> Look<U>>(
        &self,
        rt: &R,
        condition: &Condition,
        look: F,
    ) -> U
        requires callable { F.IsAlwaysCallable look }
        ensures found { IsFound F.step (CallKeepsClosure F.FnMut look) look result }
    {
        let mut look = look;
        for _ in rt.forever() {
            let mut held = self.value.lock(rt);
            match look(&mut *held) {
                Look::Found(found) => return found,
                Look::Again(longest) => condition.sleep::<R, T, U, F>(rt, held, longest),
            }
        }
        unreachable!()
    }
}
