//! Waits for the broker, which last for as long as the connection stands.
ghost use Rattle.std.specs.Prelude.{IfOk};
ghost use Rattle.std.specs.Counts.{IsPrefixLen};

use crate::silence::{Silences, soon};
use links::{Frame, FrameFault};
use sockets::{Connection, Deadline, Timed};
use std::io::{self, Read};
use std::rt::Clock;
use std::sync::Wait;

/// The reading end of a worker's connection to the broker. It notes where the broker is silent for long.
#[derive(Drop)]
pub(crate) struct Watched<'a, R> {
    rt: &'a R,
    reader: Timed<'a, R>,
    silences: &'a Silences,
}

impl<'a, R: Wait + Clock> Watched<'a, R> {
    /// Returns `reader` with a note of its silences.
    pub(crate) fn over(rt: &'a R, reader: Timed<'a, R>, silences: &'a Silences) -> Watched<'a, R> {
        Watched {
            rt,
            reader,
            silences,
        }
    }

    /// Reads what comes behind a silence that was long, however late that is.
    fn read_late(&mut self, bytes: &mut [u8]) -> io::Result<usize>
        ensures bound { IfOk result (λ count. IsPrefixLen count bytes.new) }
    {
        self.silences.begin(self.rt);
        self.reader.begin_by(Deadline::Never);
        let read = self.reader.read(bytes);
        self.silences
            .end(self.rt, matches!(read, Ok(count) if count > 0));
        read
    }
}

impl<R: Wait + Clock> Read for Watched<'_, R> {
    fn read(&mut self, bytes: &mut [u8]) -> io::Result<usize> {
        self.reader.begin_by(soon(self.rt));
        let read = self.reader.read(bytes);
        if self.reader.is_silent() {
            return self.read_late(bytes);
        }
        read
    }
}

/// Asks the broker by `frame`, and returns the answer, which may take as long as it likes while the connection stands.
/// Notes where the broker is silent for long.
pub(crate) fn ask<R: Wait + Clock>(
    rt: &R,
    silences: &Silences,
    broker: &mut Connection<'_, R>,
    frame: &Frame,
) -> Option<Frame> {
    broker.write(frame).ok()?;
    broker.begin_by(soon(rt));
    let answer = broker.read_next();
    if broker.is_silent() {
        return ask_late(rt, silences, broker);
    }
    answer_of(answer)
}

/// Reads the answer that comes behind a silence that was long.
fn ask_late<R: Wait + Clock>(
    rt: &R,
    silences: &Silences,
    broker: &mut Connection<'_, R>,
) -> Option<Frame> {
    silences.begin(rt);
    broker.begin_by(Deadline::Never);
    let answer = answer_of(broker.read_next());
    silences.end(rt, answer.is_some());
    answer
}

/// Returns the frame that was read, if one was.
fn answer_of(read: Result<Option<Frame>, FrameFault>) -> Option<Frame> {
    match read {
        Ok(answer) => answer,
        Err(_fault) => None,
    }
}
