//! A hook that lets two asks pass in one order only.
use std::rt::Clock;
use std::sync::atomic::{AtomicBool, Ordering};
use std::thread;
use std::time::Duration;
use workers::Hook;

/// How often a hook looks at a flag before it gives up. The looks are a millisecond apart.
const LOOKS: u32 = 10_000;

/// A hook that holds the asks with uniques 1 and 2 until both have come. It holds ask 1 until the reply to ask 2 was
/// posted, too.
#[derive(Drop)]
pub struct SecondFirst<'a, R: Clock> {
    clock: &'a R,
    first_came: AtomicBool,
    second_came: AtomicBool,
    second_left: AtomicBool,
    pub gave_up: AtomicBool,
}

impl<'a, R: Clock> SecondFirst<'a, R> {
    /// Makes a hook that has seen no ask.
    pub fn new(clock: &'a R) -> SecondFirst<'a, R> {
        SecondFirst {
            clock,
            first_came: AtomicBool::new(false),
            second_came: AtomicBool::new(false),
            second_left: AtomicBool::new(false),
            gave_up: AtomicBool::new(false),
        }
    }

    /// Waits until `so` is set, or notes in `gave_up` that the wait took too long.
    fn wait_for(&self, so: &AtomicBool) {
        for _look in 0..LOOKS {
            if so.load(Ordering::SeqCst) {
                return;
            }
            thread::sleep(self.clock, Duration::from_millis(1));
        }
        self.gave_up.store(true, Ordering::SeqCst)
    }
}

impl<'a, R: Clock> Hook for SecondFirst<'a, R> {
    fn before(&self, unique: u64) {
        if unique == 1 {
            self.first_came.store(true, Ordering::SeqCst);
            self.wait_for(&self.second_came);
            self.wait_for(&self.second_left);
        } else {
            self.second_came.store(true, Ordering::SeqCst);
            self.wait_for(&self.first_came);
        }
    }

    fn after(&self, unique: u64) {
        if unique == 2 {
            self.second_left.store(true, Ordering::SeqCst)
        }
    }
}
