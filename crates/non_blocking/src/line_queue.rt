//! A queue of lines, and the thread that writes them.
use crate::backlog::Backlog;
use crate::loss::Loss;
use monitor::{Condition, Look, Monitor};
use std::alloc::Global;
use std::fmt::Display;
use std::io::{self, Write};
use std::sync::{Arc, Wait};
use std::thread;
use std::thread::Threads;
use std::time::Duration;

/// How many milliseconds pass between two looks of who waits until all is written.
const PAUSE: u64 = 10;

/// How many looks are made until then.
const LOOKS: u64 = 100;

/// Lines that wait to be written by a thread of their own. At most 65,536 bytes wait; a line that finds no place is dropped
/// whole.
#[derive(Drop)]
pub struct LineQueue {
    backlog: Monitor<Backlog>,
    changes: Condition,
}

impl LineQueue {
    /// Makes a queue, and a thread that writes its lines to `out` for as long as the process runs.
    pub(crate) fn start<
        R: Threads + Wait + Copy + Send + 'static,
        W: Write + Drop + Send + 'static,
    >(rt: &R, alloc: Global, out: W) -> io::Result<Arc<LineQueue>> {
        let queue = Arc::new(
            alloc,
            LineQueue {
                backlog: Monitor::new(Backlog::new(alloc)),
                changes: Condition::new(),
            },
        )?;
        let (host, theirs) = (*rt, Arc::try_clone(&queue)?);
        thread::spawn(rt, move || write_all(&host, alloc, &theirs, out))?;
        Ok(queue)
    }

    /// Lets a line with the text of `line` wait, or drops it. Waits for no write.
    pub(crate) fn print<R: Wait, D: Display + Drop>(&self, rt: &R, line: D) {
        self.backlog
            .change(rt, &self.changes, |backlog| backlog.print(line));
    }

    /// Lets `text` wait as one line, or drops it. Waits for no write.
    pub(crate) fn write<R: Wait>(&self, rt: &R, text: &[u8]) {
        self.backlog
            .change(rt, &self.changes, |backlog| backlog.write(text));
    }

    /// Waits until all lines are written, for a second at most. Returns the first loss, if a line was lost.
    pub(crate) fn finish<R: Wait>(&self, rt: &R) -> Option<Loss> {
        let mut looks = LOOKS;
        self.backlog.wait_until(rt, &self.changes, |backlog| {
            if looks == 0 {
                return Look::Found(backlog.loss().or(Some(Loss::Full)));
            }
            if backlog.is_done() {
                return Look::Found(backlog.loss());
            }
            looks = looks.saturating_sub(1);
            Look::Again(Duration::from_millis(PAUSE))
        })
    }

    /// Waits until a line waits, and moves all that wait to `chunk`.
    fn take<R: Wait>(&self, rt: &R, chunk: &mut Vec<u8>) {
        self.backlog.wait_until(rt, &self.changes, |backlog| {
            Look::of(backlog.take(chunk).then_some(()))
        });
    }
}

/// Writes the lines of `queue` to `out`, for as long as the process runs.
fn write_all<R: Wait, W: Write + Drop>(rt: &R, alloc: Global, queue: &LineQueue, out: W) {
    let mut out = out;
    let mut chunk = Vec::new(alloc);
    for _ in rt.forever() {
        queue.take(rt, &mut chunk);
        let written = write(&mut out, chunk.as_slice());
        queue
            .backlog
            .change(rt, &queue.changes, |backlog| backlog.wrote(written));
    }
}

/// Writes `chunk` at once.
fn write<W: Write>(out: &mut W, chunk: &[u8]) -> io::Result<()> {
    out.write_all(chunk)?;
    out.flush()
}
