//! A flag that asks a round to end.
use std::sync::atomic::{AtomicBool, Ordering};

/// A flag that asks the workers of a round to take nothing more. Its contracts say only that the calls return: not what
/// `asked` answers, nor when a worker sees the flag.
#[derive(Drop)]
pub struct Stop {
    asked: AtomicBool,
}

impl Stop {
    /// Makes a flag that is not set.
    pub fn new() -> Stop {
        Stop {
            asked: AtomicBool::new(false),
        }
    }

    /// Asks the workers to stop.
    pub fn ask(&self) {
        self.asked.store(true, Ordering::SeqCst)
    }

    /// Returns whether the workers were asked to stop.
    pub fn asked(&self) -> bool {
        self.asked.load(Ordering::SeqCst)
    }
}
