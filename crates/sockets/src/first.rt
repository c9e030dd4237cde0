//! The first frame of a connection.
use crate::Deadline;
use crate::timed::Timed;
use links::{Frame, read_frame};
use std::alloc::Global;
use std::io::{self, ErrorKind, Read};
use std::os::unix::net::UnixStream;
use std::rt::Clock;

/// What a connection said by the moment at which it is looked at.
#[derive(Drop)]
pub enum First {
    /// Its first frame is there. No byte behind that was read.
    Frame(Frame, UnixStream),
    /// Nothing came yet.
    Silent(UnixStream),
    /// It ended, or what is there is no whole frame.
    Gone,
}

impl First {
    /// Returns what the connection said that `stream` is a handle of, without a wait.
    pub fn look(alloc: Global, stream: UnixStream) -> First {
        if stream.set_nonblocking(true).is_err() {
            return First::Gone;
        }
        let mut reader = Polled {
            stream,
            has_come: false,
            is_silent: false,
        };
        let frame = read_frame(alloc, &mut reader);
        let Polled {
            stream,
            has_come: _,
            is_silent,
        } = reader;
        if stream.set_nonblocking(false).is_err() {
            return First::Gone;
        }
        match frame {
            Ok(Some(frame)) => First::Frame(frame, stream),
            Err(_fault) if is_silent => First::Silent(stream),
            _ => First::Gone,
        }
    }

    /// Reads the first frame of the connection that `stream` is a handle of, and no byte behind it. Returns none if the
    /// frame isn't whole by `deadline`, is no frame, or doesn't come.
    pub fn wait<R: Clock>(
        alloc: Global,
        clock: &R,
        stream: UnixStream,
        deadline: Deadline,
    ) -> Option<Frame> {
        let mut reader = Timed::over(clock, stream);
        reader.end_by(deadline);
        match read_frame(alloc, &mut reader) {
            Ok(frame) => frame,
            Err(_fault) => None,
        }
    }
}

/// The reading end of a socket that doesn't wait.
#[derive(Drop)]
struct Polled {
    stream: UnixStream,
    /// Whether bytes came.
    has_come: bool,
    /// Whether a read found nothing before any byte came.
    is_silent: bool,
}

impl Read for Polled {
    fn read(&mut self, bytes: &mut [u8]) -> io::Result<usize> {
        match self.stream.read(bytes) {
            Ok(count) => {
                self.has_come = true;
                Ok(count)
            }
            Err(error) => {
                self.is_silent = error.kind() == ErrorKind::WouldBlock && !self.has_come;
                Err(error)
            }
        }
    }
}
