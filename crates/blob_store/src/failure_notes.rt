//! What is said of files that can't be read.
use crate::file_path::path_of;
use crate::said_files::SaidFiles;
use eden_base::FileId;
use manifest::Manifest;
use non_blocking::Notes;
use std::alloc::Global;
use std::fmt::Display;
use std::rt::Clock;
use std::sync::{Mutex, Wait};
use std::time::{Duration, Instant};

/// How many seconds pass before something is said of a file once more.
const QUIET: u64 = 60;

/// The failures of which something was said since a moment.
#[derive(Drop)]
struct Failures {
    said: SaidFiles,
    since: Option<Instant>,
}

impl Failures {
    /// Returns whether a failure of `file` is to be said at the moment `now`, and notes that.
    fn note(&mut self, file: FileId, now: Option<Instant>) -> bool {
        if is_over(self.since, now) {
            self.said.clear();
            self.since = now;
        }
        self.said.say(file)
    }
}

/// Returns whether the time that began at `since` is over.
fn is_over(since: Option<Instant>, now: Option<Instant>) -> bool {
    match (since, now) {
        (Some(since), Some(now)) => now.duration_since(since) >= Duration::from_secs(QUIET),
        (None, Some(_)) => true,
        (_, None) => false,
    }
}

/// Says on standard error which files of a manifest can't be read: of each once in a minute, and of 16 at most.
#[derive(Drop)]
pub struct FailureNotes {
    alloc: Global,
    failures: Mutex<Failures>,
    notes: Notes,
}

impl FailureNotes {
    /// Makes one that says by `notes` what it is told.
    pub fn new(alloc: Global, notes: Notes) -> FailureNotes {
        FailureNotes {
            alloc,
            failures: Mutex::new(Failures {
                said: SaidFiles::new(alloc),
                since: None,
            }),
            notes,
        }
    }

    /// Says that `file` of `manifest` can't be read for `cause`.
    pub fn say<R: Clock + Wait, D: Display + Drop>(
        &self,
        rt: &R,
        manifest: &Manifest,
        file: FileId,
        cause: D,
    ) {
        let now = Instant::now(rt).ok();
        if !self.failures.lock(rt).note(file, now) {
            return;
        }
        let Ok(path) = path_of(self.alloc, manifest.lines(), file) else {
            return;
        };
        if let Ok(path) = String::from_utf8_lossy(self.alloc, path.as_slice()) {
            self.notes
                .say(rt, format_args!("cannot read {path}: {cause}"));
        }
    }
}
