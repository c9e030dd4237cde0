//! A channel that gives a few asks, and then is empty, stops or breaks.
use eden_base::Number;
use fuse_wire::{Ask, Reply, Request};
use std::sync::atomic::{AtomicU64, Ordering};
use workers::{Channel, NextAsk, Posted};

/// What `take` returns when no ask is left.
#[derive(Clone, Copy)]
pub(crate) enum Then {
    Empty,
    Stopped,
    Broken,
}

/// A channel that gives `asks` more asks, and takes `replies` more replies before it is broken. The uniques of the asks
/// count down to 1. Each reply sets `posted`, and leaves its unique in `last`.
#[derive(Drop)]
pub(crate) struct Scripted<'a> {
    asks: u64,
    replies: usize,
    last: u64,
    then: Then,
    posted: &'a AtomicU64,
}

/// What a channel was left with: the asks that it would still give, the replies that it would still take, and the unique
/// of the last reply that it took, or 0.
pub(crate) type Rest = (u64, usize, u64);

impl<'a> Scripted<'a> {
    pub(crate) fn new(
        asks: u64,
        replies: usize,
        then: Then,
        posted: &'a AtomicU64,
    ) -> Scripted<'a> {
        Scripted {
            asks,
            replies,
            last: 0,
            then,
            posted,
        }
    }

    /// Returns what the channel was left with.
    pub(crate) fn rest(&self) -> Rest {
        (self.asks, self.replies, self.last)
    }
}

impl<'a> Channel for Scripted<'a> {
    ghost use Rattle.std.specs.Prelude.{false, [], ⊤};

    ghost takes = { λ _ _ _. ⊤ };

    ghost posts = { λ _ _ _ _. ⊤ };

    ghost reports = { false };

    ghost reported = { λ channel. record { taken = []; posted = [] } };

    fn take(&mut self) -> NextAsk {
        if self.asks > 0 {
            self.asks -= 1;
            return NextAsk::Ask(Ask {
                unique: self.asks + 1,
                what: Request::Getattr { node: Number::ROOT },
            });
        }
        match self.then {
            Then::Empty => NextAsk::Empty,
            Then::Stopped => NextAsk::Stopped,
            Then::Broken => NextAsk::Broken,
        }
    }

    fn post(&mut self, reply: &Reply, _takes_next: bool) -> Posted {
        if self.replies == 0 {
            return Posted::Broken;
        }
        self.replies -= 1;
        self.last = reply.unique;
        self.posted.store(1, Ordering::SeqCst);
        Posted::Done
    }
}
