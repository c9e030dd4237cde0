//! Calls before and after a worker's turn.

/// What each worker calls around each of its turns, with the ask's unique. A test holds workers here to order turns.
pub trait Hook {
    /// Is called before the lock is taken.
    fn before(&self, unique: u64);

    /// Is called after the reply was posted.
    fn after(&self, unique: u64);
}

/// A hook that does nothing.
#[derive(Clone, Copy)]
pub struct NoHook;

impl Hook for NoHook {
    fn before(&self, _unique: u64) {}

    fn after(&self, _unique: u64) {}
}
