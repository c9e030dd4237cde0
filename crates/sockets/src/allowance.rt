//! How much longer a wait may last, in time in which this process ran.
ghost use Rattle.std.specs.Prelude.{◌≡◌, ◌*◌, ◌==◌, min};
ghost use Rattle.std.specs.Duration.{as_nanos};
ghost use Rattle.std.specs.Time.{instant_nanos};
ghost use Rattle.sockets.specs.Allowance.{counted, is_like, is_spent, left_after, longest_slice};

use std::time::{Duration, Instant};

/// How long a socket waits at a time, in milliseconds.
const SLICE: u64 = 100;

/// How much one look counts at most, in milliseconds.
const MOST_COUNTED: u64 = 300;

/// How much longer a wait may last, and when that was looked at last. A wait looks after each slice of it. What a look
/// counts is bounded, so a time in which this process could not run costs next to nothing, however long it was.
#[derive(Clone, Copy)]
pub struct Allowance {
    pub left: Duration,
    pub looked: Instant,
}

impl Allowance {
    /// Counts the time from the last look to `now`, up to the bound of a look.
    pub fn look(&mut self, now: Instant)
        ensures left { as_nanos self.new.left ≡ left_after self.old (instant_nanos now) }
        ensures looked { self.new.looked ≡ now }
    {
        self.left = self.left.saturating_sub(counted(self.looked, now));
        self.looked = now;
    }

    /// Returns whether so much was left of `other` at the same look.
    pub(crate) fn is_same(&self, other: &Allowance) -> bool
        ensures same { result ≡ is_like self.now other.now }
    {
        is_at_once(self.looked, other.looked) && self.left.as_nanos() == other.left.as_nanos()
    }

    /// Returns whether no time is left.
    pub fn is_spent(&self) -> bool
        ensures spent { result ≡ is_spent self.now }
    {
        self.left.as_nanos() == 0
    }
}

/// Returns whether two looks were at the same time.
fn is_at_once(one: Instant, another: Instant) -> bool
    ensures same { result ≡ (instant_nanos one == instant_nanos another) }
{
    match one.checked_duration_since(another) {
        Some(since) => since.as_nanos() == 0,
        None => false,
    }
}

/// Returns what a look at `now` counts, behind one at `looked`.
fn counted(looked: Instant, now: Instant) -> Duration
    ensures counted { as_nanos result ≡ counted (instant_nanos looked) (instant_nanos now) }
{
    shorter(now.duration_since(looked), MOST_COUNTED)
}

/// Returns how long a socket waits at a time where a wait may last for `left` longer.
pub(crate) fn slice_of(left: Duration) -> Duration
    ensures slice { as_nanos result ≡ min (as_nanos left) longest_slice }
{
    shorter(left, SLICE)
}

/// Returns the shorter one of `wait` and a time in `milliseconds`.
fn shorter(wait: Duration, milliseconds: u64) -> Duration
    ensures shorter { as_nanos result ≡ min (as_nanos wait) (milliseconds * 1_000_000) }
{
    let most = Duration::from_millis(milliseconds);
    if wait.as_nanos() < most.as_nanos() {
        wait
    } else {
        most
    }
}
