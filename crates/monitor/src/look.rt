//! What a thread found that waits.
ghost use Rattle.monitor.specs.Wait.{IsLookOf};

use std::time::Duration;

/// The longest sleep of a thread that waits for a notification alone, in milliseconds.
const LONGEST_SLEEP: u64 = 60_000;

/// What a thread found that looked under the lock.
#[derive(Drop)]
pub enum Look<U> {
    /// It found what it waits for.
    Found(U),
    /// It found nothing. It looks again after the next notification, and after this time at the latest.
    Again(Duration),
}

impl<U> Look<U> {
    /// Returns the look that found `found`; where that is none, only a notification or a minute brings the next look.
    pub fn of(found: Option<U>) -> Look<U>
        ensures look { IsLookOf found result }
    {
        match found {
            Some(found) => Look::Found(found),
            None => Look::Again(Duration::from_millis(LONGEST_SLEEP)),
        }
    }
}
