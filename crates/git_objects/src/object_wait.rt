//! How much longer somebody waits for a blob.
ghost use Rattle.std.specs.Prelude.{◌≡◌, ◌==◌, not};
ghost use Rattle.std.specs.Duration.{as_nanos};
ghost use Rattle.git_objects.specs.ObjectWait.{IsAfter, IsBegun};

use monitor::Patience;
use std::time::{Duration, Instant};

/// For how many seconds somebody waits for a blob at most while the process that fetches it gives nothing.
const LONGEST_WAIT: u64 = 20;

/// How much longer somebody waits for a blob while nothing comes from the process that fetches it, and how often something had
/// come when that was last looked at.
#[derive(Clone, Copy)]
pub(crate) struct ObjectWait {
    pub patience: Patience,
    pub seen: u64,
}

impl ObjectWait {
    /// Returns the wait that begins at `now`, by when something had come `came` times.
    pub(crate) fn new(now: Option<Instant>, came: u64) -> ObjectWait
        ensures begun { IsBegun now came result }
    {
        ObjectWait {
            patience: Patience::new(Duration::from_secs(LONGEST_WAIT), now),
            seen: came,
        }
    }

    /// Returns the wait after a look at `now`, by when something had come `came` times. Where something came since the last
    /// look, the wait begins again.
    pub(crate) fn after(&self, now: Option<Instant>, came: u64) -> ObjectWait
        ensures after { IsAfter (not (came == self.now.seen)) self.now now came result }
    {
        if came != self.seen {
            return ObjectWait::new(now, came);
        }
        ObjectWait {
            patience: self.patience.after(now),
            seen: came,
        }
    }

    /// Returns whether the wait is over.
    pub(crate) fn is_over(&self) -> bool
        ensures over { result ≡ (as_nanos self.now.patience.left == 0) }
    {
        self.patience.is_spent()
    }
}
