//! How much longer a wait may last.
ghost use Rattle.std.specs.Prelude.{◌≡◌, ◌==◌, min};
ghost use Rattle.std.specs.Duration.{as_nanos};
ghost use Rattle.monitor.specs.Patience.{left_after, longest_slice};

use std::rt::Clock;
use std::time::{Duration, Instant};

/// How much one look counts at most, in milliseconds.
const MOST_COUNTED: u64 = 300;

/// How long a thread sleeps at most between two looks at its patience, in milliseconds.
const SLICE: u64 = 100;

/// How much longer a wait may last, and when that was looked at last. What a look counts is bounded, so a time in which this
/// process stood still costs next to nothing. Where the clock tells no time, no wait can be measured: it is over.
#[derive(Clone, Copy)]
pub struct Patience {
    pub left: Duration,
    pub looked: Option<Instant>,
}

impl Patience {
    /// Returns the patience of a wait that begins at `now` and may last for `longest`.
    pub fn new(longest: Duration, now: Option<Instant>) -> Patience
        ensures left { result.left ≡ longest }
        ensures looked { result.looked ≡ now }
    {
        Patience {
            left: longest,
            looked: now,
        }
    }

    /// Returns the patience of a wait that begins at this moment and may last for `longest`.
    pub fn start<R: Clock>(clock: &R, longest: Duration) -> Patience
        ensures left { result.left ≡ longest }
    {
        Patience::new(longest, Instant::now(clock).ok())
    }

    /// Returns the patience after a look at `now`, which counts the time from the last look to this one.
    pub fn after(&self, now: Option<Instant>) -> Patience
        ensures left { as_nanos result.left ≡ left_after (as_nanos self.now.left) self.now.looked now }
        ensures looked { result.looked ≡ now }
    {
        let most = Duration::from_millis(MOST_COUNTED);
        let left = match (self.looked, now) {
            (Some(looked), Some(now)) => self
                .left
                .saturating_sub(now.duration_since(looked).min(most)),
            _ => Duration::from_millis(0),
        };
        Patience { left, looked: now }
    }

    /// Returns whether no time is left.
    pub fn is_spent(&self) -> bool
        ensures spent { result ≡ (as_nanos self.now.left == 0) }
    {
        self.left.as_nanos() == 0
    }

    /// Looks at `now`, and returns whether no time is left.
    pub fn is_over(&mut self, now: Option<Instant>) -> bool
        ensures left { as_nanos self.new.left ≡ left_after (as_nanos self.old.left) self.old.looked now }
        ensures looked { self.new.looked ≡ now }
        ensures over { result ≡ (as_nanos self.new.left == 0) }
    {
        *self = self.after(now);
        self.is_spent()
    }

    /// Looks at this moment, and returns whether no time is left.
    pub fn look<R: Clock>(&mut self, clock: &R) -> bool
        ensures over { result ≡ (as_nanos self.new.left == 0) }
    {
        self.is_over(Instant::now(clock).ok())
    }

    /// Returns how long a thread may sleep until its next look.
    pub fn slice(&self) -> Duration
        ensures slice { as_nanos result ≡ min (as_nanos self.now.left) longest_slice }
    {
        self.left.min(Duration::from_millis(SLICE))
    }
}
