//! When a wait ends.
ghost use Rattle.std.specs.Prelude.{◌≡◌, ◌≤◌, ◌<◌, ◌+◌};
ghost use Rattle.std.specs.Duration.{as_nanos};
ghost use Rattle.sockets.specs.Allowance.{most_counted};
ghost use Rattle.sockets.specs.Waits.{is_same};
ghost use Rattle.sockets.specs.declared.deadline.Deadline.TheVariants.{Never, Passed, Within};
ghost use Rattle.sockets.specs.declared.deadline.Left.TheVariants.{Forever, For, Nothing};

use crate::Allowance;
use std::rt::Clock;
use std::time::{Duration, Instant};

/// When a wait ends.
#[derive(Clone, Copy)]
pub enum Deadline {
    /// The wait has no deadline.
    Never,
    /// The wait ends once this process ran for so long.
    Within(Allowance),
    /// The wait is over at once. This also stands for a deadline that the clock could not give.
    Passed,
}

/// How much longer a wait may last.
#[derive(Clone, Copy)]
pub enum Left {
    Forever,
    /// The wait may last this much longer, which is more than no time.
    For(Duration),
    Nothing,
}

impl Deadline {
    /// Returns the deadline of a wait that begins at this moment and lasts for `wait`.
    pub fn after<R: Clock>(clock: &R, wait: Duration) -> Deadline {
        match Instant::now(clock) {
            Ok(now) => Deadline::Within(Allowance {
                left: wait,
                looked: now,
            }),
            Err(_unread) => Deadline::Passed,
        }
    }

    /// Looks at the clock, and returns how much longer a wait with this deadline may last. Call it after each slice of the
    /// wait: a look counts no more than its bound.
    pub fn left<R: Clock>(&mut self, clock: &R) -> Left
        ensures never { self.old ≡ Never → result ≡ Forever }
        ensures passed { self.old ≡ Passed → result ≡ Nothing }
        ensures some { (wait : _) → result ≡ For wait → 0 < as_nanos wait }
        ensures bound { (allowance : _) (wait : _) → self.old ≡ Within allowance → result ≡ For wait
            → as_nanos allowance.left ≤ as_nanos wait + most_counted }
    {
        match self {
            Deadline::Never => Left::Forever,
            Deadline::Passed => Left::Nothing,
            Deadline::Within(allowance) => look(clock, allowance),
        }
    }

    /// Returns whether this is a deadline like `other`: of the same time left at the same look.
    pub(crate) fn is_same(&self, other: &Deadline) -> bool
        ensures same { result ≡ is_same self.now other.now }
    {
        match (*self, *other) {
            (Deadline::Never, Deadline::Never) | (Deadline::Passed, Deadline::Passed) => true,
            (Deadline::Within(one), Deadline::Within(another)) => one.is_same(&another),
            _ => false,
        }
    }

    /// Looks at the clock, and returns whether the deadline has passed.
    pub fn is_over<R: Clock>(&mut self, clock: &R) -> bool {
        matches!(self.left(clock), Left::Nothing)
    }
}

/// Looks at the clock, and returns how much longer a wait with this allowance may last.
fn look<R: Clock>(clock: &R, allowance: &mut Allowance) -> Left
    ensures some { (wait : _) → result ≡ For wait → 0 < as_nanos wait }
    ensures bound { (wait : _) → result ≡ For wait
        → as_nanos allowance.old.left ≤ as_nanos wait + most_counted }
{
    let Ok(now) = Instant::now(clock) else {
        return Left::Nothing;
    };
    allowance.look(now);
    if allowance.is_spent() {
        return Left::Nothing;
    }
    Left::For(allowance.left)
}
