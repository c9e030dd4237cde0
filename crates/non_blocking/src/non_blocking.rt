//! A writer that doesn't block once it is told so.
ghost use Rattle.std.specs.Prelude.{◌≡◌, IfSome};
ghost use Rattle.std.specs.Io.KnownBytes.{Appends};
ghost use Rattle.std.specs.Fmt.{with_newline};

use crate::line_queue::LineQueue;
use crate::loss::Loss;
use crate::notes::Notes;
use std::alloc::Global;
use std::fmt::Display;
use std::io::{self, Write};
use std::sync::{Arc, Wait};
use std::thread::Threads;

/// A writer to which lines are told that nobody may wait for. Its contents are what it was told: a line counts among
/// them also where it can't be written.
pub trait Unblock: Write {
    /// What is written to in the end.
    type Stream: Write + Drop + Send + 'static;

    /// Returns what is written to in the end.
    fn stream(&self) -> Self::Stream;

    /// Has all that is told from now on written by `queue`: from then on no call of the writer waits or fails.
    fn write_by(&mut self, queue: Arc<LineQueue>)
        ensures same { Self.contents self.new ≡ Self.contents self.old };

    /// Tells a line with the text of `line`. What can't be written is dropped.
    fn print<D: Display + Drop>(&mut self, line: D)
        ensures printed { IfSome (with_newline (D.output line))
            (Appends (Self.contents self.old) (Self.contents self.new)) };

    /// Returns a handle by which threads may say notes; it says nothing before the writer is unblocked.
    fn notes(&self) -> Notes;
}

/// Makes a thread that writes all that `writer` is told from now on. If there is no memory or no thread, the writer blocks
/// on.
pub fn write_behind<R: Threads + Wait + Copy + Send + 'static, W: Unblock>(
    rt: &R,
    alloc: Global,
    writer: &mut W,
) -> io::Result<()>
    ensures same { W.contents writer.new ≡ W.contents writer.old }
{
    let queue = LineQueue::start(rt, alloc, writer.stream())?;
    writer.write_by(queue);
    Ok(())
}

/// A writer to `out` that blocks and fails as `out` does until it is unblocked. From then on a thread writes what it is
/// told.
#[derive(Drop)]
pub struct NonBlocking<R, W> {
    rt: R,
    out: W,
    queue: Option<Arc<LineQueue>>,
}

impl<R: Wait, W: Write> NonBlocking<R, W> {
    /// Returns a writer that blocks.
    pub fn new(rt: R, out: W) -> NonBlocking<R, W> {
        NonBlocking {
            rt,
            out,
            queue: None,
        }
    }

    /// Waits until all that was told is written, for a second at most. Returns the first loss, if a line was lost since
    /// the writer was unblocked.
    pub fn finish(&self) -> Option<Loss> {
        match &self.queue {
            Some(queue) => queue.finish(&self.rt),
            None => None,
        }
    }
}

impl<R: Wait, W: Write> Write for NonBlocking<R, W> {
    fn write(&mut self, buf: &[u8]) -> io::Result<usize> {
        match &self.queue {
            Some(queue) => {
                queue.write(&self.rt, buf);
                Ok(buf.len())
            }
            None => self.out.write(buf),
        }
    }

    fn flush(&mut self) -> io::Result<()> {
        match &self.queue {
            Some(_queue) => Ok(()),
            None => self.out.flush(),
        }
    }
}

impl<R: Wait, W: Write + Drop + Copy + Send + 'static> Unblock for NonBlocking<R, W> {
    type Stream = W;

    fn stream(&self) -> W {
        self.out
    }

    fn write_by(&mut self, queue: Arc<LineQueue>) {
        self.queue = Some(queue);
    }

    fn print<D: Display + Drop>(&mut self, line: D) {
        match &self.queue {
            Some(queue) => queue.print(&self.rt, line),
            None => {
                let _told = self.out.writeln(line);
            }
        }
    }

    fn notes(&self) -> Notes {
        Notes::of(&self.queue)
    }
}
