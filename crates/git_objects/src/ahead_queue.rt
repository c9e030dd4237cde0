//! Blobs that are asked for before somebody reads them.
ghost use Rattle.std.specs.Prelude.{◌≡◌, [], length, nat_lt, slice_get};
ghost use Rattle.std.specs.List.{list_any};
ghost use Rattle.git_objects.specs.AheadQueue.{is_of, joined, rest_of};

use crate::desk::same_id;
use crate::sought::Sought;
use arrayvec::ArrayVec;

/// The blobs that are asked for before somebody reads them, in the order in which they were asked for. Nobody waits for them,
/// so one that finds no room is dropped.
#[derive(Drop)]
pub(crate) struct AheadQueue {
    pub asks: ArrayVec<Sought, 64>,
}

impl AheadQueue {
    /// Makes an empty queue.
    pub(crate) fn new() -> AheadQueue
        ensures empty { result.asks.items ≡ [] }
    {
        AheadQueue {
            asks: ArrayVec::new(),
        }
    }

    /// Returns whether the blob `object` is in the queue.
    pub(crate) fn has(&self, object: &[u8; 20]) -> bool
        ensures has { result ≡ list_any (is_of object.now) self.now.asks.items }
    {
        self.asks
            .as_slice()
            .iter()
            .any(|ask| same_id(&ask.object, object))
    }

    /// Puts a blob behind all others. Returns whether there was room for it.
    pub(crate) fn push(&mut self, sought: Sought) -> bool
        ensures room { result ≡ nat_lt (length self.old.asks.items) 64 }
        ensures asks { self.new.asks.items ≡ joined result self.old.asks.items sought }
    {
        self.asks.try_push(sought).is_ok()
    }

    /// Takes the first blob out.
    pub(crate) fn pop(&mut self) -> Option<Sought>
        ensures first { result ≡ slice_get self.old.asks.items 0 }
        ensures rest { self.new.asks.items ≡ rest_of self.old.asks.items }
    {
        self.asks.pop_at(0)
    }
}
