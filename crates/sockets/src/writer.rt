//! The writing end of a socket.
use crate::allowance::slice_of;
use crate::{Deadline, Left};
use std::io::{self, ErrorKind, Write};
use std::net::Shutdown;
use std::os::unix::net::UnixStream;
use std::rt::Clock;
use std::time::Duration;

/// The writing end of a socket. A write that waits longer than its patience for the other end to read fails with
/// `WouldBlock`. It waits in slices, so that only time counts in which this process ran.
#[derive(Drop)]
pub struct TimeoutWriter<'a, R> {
    clock: &'a R,
    stream: UnixStream,
    patience: Option<Duration>,
}

impl<'a, R: Clock> TimeoutWriter<'a, R> {
    /// Returns the writing end of a socket. Without a `patience` a write waits for as long as the connection stands.
    pub fn over(
        clock: &'a R,
        stream: UnixStream,
        patience: Option<Duration>,
    ) -> io::Result<TimeoutWriter<'a, R>> {
        stream.set_write_timeout(patience.map(slice_of))?;
        Ok(TimeoutWriter {
            clock,
            stream,
            patience,
        })
    }

    /// Returns another handle of the socket.
    pub fn handle(&self) -> io::Result<UnixStream> {
        self.stream.try_clone()
    }

    /// Shuts the socket down for both ends.
    pub fn end(&self) {
        let _ended = self.stream.shutdown(Shutdown::Both);
    }

    /// Returns the deadline of a write that begins at this moment.
    fn deadline(&self) -> Deadline {
        match self.patience {
            Some(patience) => Deadline::after(self.clock, patience),
            None => Deadline::Never,
        }
    }
}

impl<R: Clock> Write for TimeoutWriter<'_, R> {
    fn write(&mut self, bytes: &[u8]) -> io::Result<usize> {
        let mut deadline = self.deadline();
        for _slice in 0..u64::MAX {
            match self.stream.write(bytes) {
                Err(error) if error.kind() == ErrorKind::WouldBlock => {
                    if let Left::Nothing = deadline.left(self.clock) {
                        return Err(error);
                    }
                }
                written => return written,
            }
        }
        Err(io::Error::from(ErrorKind::WouldBlock))
    }

    fn flush(&mut self) -> io::Result<()> {
        self.stream.flush()
    }
}
