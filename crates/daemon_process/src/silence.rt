//! The broker's silences, of which a daemon says something on standard error.
ghost use Rattle.std.specs.Prelude.{◌≡◌, ◌-◌, ◌+◌, min};
ghost use Rattle.daemon_process.specs.Silence.{says_answered, says_silent};

use non_blocking::Notes;
use sockets::Deadline;
use std::rt::Clock;
use std::sync::{Mutex, Wait};
use std::time::Duration;

/// How long the broker may leave a question unanswered until the daemon says so, in milliseconds.
const LONG: u64 = 5000;

/// How many of a daemon's threads had no answer of the broker for long.
#[derive(Drop)]
struct Silent {
    count: usize,
}

impl Silent {
    /// Notes that one more thread has no answer. Returns whether the daemon says so.
    fn begin(&mut self) -> bool
        ensures says { result ≡ says_silent self.old.count }
        ensures count { self.new.count ≡ min (self.old.count + 1) 18446744073709551615 }
    {
        let is_first = self.count == 0;
        self.count = self.count.saturating_add(1);
        is_first
    }

    /// Notes that one of the threads waits no more, by whether it was answered. Returns whether the daemon says so.
    fn end(&mut self, is_answered: bool) -> bool
        ensures says { result ≡ says_answered self.old.count is_answered }
        ensures count { self.new.count ≡ self.old.count - 1 }
    {
        let is_last = self.count == 1;
        self.count = self.count.saturating_sub(1);
        is_answered && is_last
    }
}

/// The broker's silences, and where a daemon says something of them.
#[derive(Drop)]
pub(crate) struct Silences {
    silent: Mutex<Silent>,
    notes: Notes,
}

impl Silences {
    /// Returns no silence, and says by `notes` what comes.
    pub(crate) fn new(notes: Notes) -> Silences {
        Silences {
            silent: Mutex::new(Silent { count: 0 }),
            notes,
        }
    }

    /// Notes that a thread has no answer of the broker for long.
    pub(crate) fn begin<R: Wait>(&self, rt: &R) {
        if self.silent.lock(rt).begin() {
            self.notes
                .say(rt, "the broker does not answer; waiting for it");
        }
    }

    /// Notes that a thread waits for the broker no more, by whether it was answered.
    pub(crate) fn end<R: Wait>(&self, rt: &R, is_answered: bool) {
        if self.silent.lock(rt).end(is_answered) {
            self.notes.say(rt, "the broker answers again");
        }
    }
}

/// Returns the deadline of an answer that isn't long in coming.
pub(crate) fn soon<R: Clock>(clock: &R) -> Deadline {
    Deadline::after(clock, Duration::from_millis(LONG))
}
