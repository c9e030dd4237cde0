//! A connection that carries frames.
use crate::timed::Timed;
use crate::{Deadline, TimeoutWriter};
use frames::missing;
use links::{Frame, FrameFault, MAX_SEAT_TEXT, read_frame_to, write_frame_to};
use std::alloc::Global;
use std::io::{self, BufRead, BufReader};
use std::net::Net;
use std::os::unix::net::UnixStream;
use std::rt::Clock;
use std::time::Duration;

/// How many bytes are read ahead.
const AHEAD: usize = 65_536;

/// One end of a connection. Dropping it closes its handles of the socket. It has memory for each frame that the broker
/// and the daemon of the seat send each other, so that none of those ends it for lack of memory.
#[derive(Drop)]
pub struct Connection<'a, R> {
    alloc: Global,
    reader: BufReader<Timed<'a, R>>,
    writer: TimeoutWriter<'a, R>,
    /// Room for the text of a frame that is written.
    text: Vec<u8>,
    /// Room for the body of a frame that is read.
    body: Vec<u8>,
}

/// Connects to the socket at a path.
pub fn connect<R: Net>(rt: &R, path: &str) -> io::Result<UnixStream> {
    UnixStream::connect(rt, path)
}

impl<'a, R: Clock> Connection<'a, R> {
    /// Returns a connection over `stream`. A write fails if it waits longer than `patience` for the other end to read.
    pub fn over(
        alloc: Global,
        clock: &'a R,
        stream: UnixStream,
        patience: Option<Duration>,
    ) -> io::Result<Connection<'a, R>> {
        let writer = TimeoutWriter::over(clock, stream.try_clone()?, patience)?;
        let reader = BufReader::with_capacity(alloc, AHEAD, Timed::over(clock, stream))?;
        let text = Vec::with_capacity(alloc, MAX_SEAT_TEXT)?;
        let body = Vec::with_capacity(alloc, MAX_SEAT_TEXT)?;
        Ok(Connection {
            alloc,
            reader,
            writer,
            text,
            body,
        })
    }

    /// Reads the next frame, every byte of which has to come by `deadline`; one that is given again goes on where it was.
    /// Returns none if the other end closed the connection before the frame. After a fault the caller has to close the
    /// connection.
    pub fn read(&mut self, deadline: Deadline) -> Result<Option<Frame>, FrameFault> {
        self.end_by(deadline);
        self.read_next()
    }

    /// Lets all frames that `read_next` reads from this call on come by `deadline`.
    pub fn end_by(&mut self, deadline: Deadline) {
        self.reader.get_mut().end_by(deadline);
    }

    /// Lets the frames that `read_next` reads from this call on begin by `deadline`, each with five seconds for its rest.
    pub fn begin_by(&mut self, deadline: Deadline) {
        self.reader.get_mut().begin_by(deadline);
    }

    /// Reads the next frame as `read` does, by the deadline that was set.
    pub fn read_next(&mut self) -> Result<Option<Frame>, FrameFault> {
        read_frame_to(&mut self.reader, &mut self.body)
    }

    /// Returns whether the last read gave up at its deadline before a frame began. It may be made again then.
    pub fn is_silent(&self) -> bool {
        self.reader.get_ref().is_silent()
    }

    /// Returns whether the last read gave up at its deadline, be it before a frame or within one.
    pub fn is_late(&self) -> bool {
        self.reader.get_ref().is_late()
    }

    /// Returns whether the next frame has come whole, so that `read_next` returns it at once.
    pub fn has_next(&self) -> bool {
        matches!(missing(self.reader.buffer()), Ok(0))
    }

    /// Waits until something comes, or the other end closes the connection. Returns what came by `deadline`, which is nothing
    /// at the end, and is kept for the next read. Returns none if neither was so by then.
    pub fn hears(&mut self, deadline: Deadline) -> Option<&[u8]> {
        self.reader.get_mut().end_by(deadline);
        self.reader.fill_buf().ok()
    }

    /// Writes `frame`. After a fault the caller has to close the connection.
    pub fn write(&mut self, frame: &Frame) -> Result<(), FrameFault> {
        write_frame_to(&mut self.writer, &mut self.text, frame)
    }

    /// Takes the memory of a Post that was read here back, for the next frame. That of a buffer goes on to the kernel, so
    /// other memory takes its place here. Where that is refused, the next frames take theirs as they come.
    pub fn give_back(&mut self, frame: Frame) {
        if let Frame::Post {
            generation: _,
            reply,
        } = frame
        {
            if let Some((body, _from)) = reply.into_memory() {
                self.body = body;
            }
        }
        if self.body.capacity() < MAX_SEAT_TEXT {
            if let Ok(body) = Vec::with_capacity(self.alloc, MAX_SEAT_TEXT) {
                self.body = body;
            }
        }
    }

    /// Writes `frame`, and reads the answer by `deadline`. Returns none if either fails, or if no answer comes.
    pub fn ask(&mut self, frame: &Frame, deadline: Deadline) -> Option<Frame> {
        if let Err(_fault) = self.write(frame) {
            return None;
        }
        match self.read(deadline) {
            Ok(answer) => answer,
            Err(_fault) => None,
        }
    }

    /// Returns the allocator for frames.
    pub fn alloc(&self) -> Global {
        self.alloc
    }

    /// Returns the end to which frames are written.
    pub fn writer(&mut self) -> &mut TimeoutWriter<'a, R> {
        &mut self.writer
    }

    /// Returns another handle of the connection's socket.
    pub fn handle(&self) -> io::Result<UnixStream> {
        self.writer.handle()
    }

    /// Shuts the connection down for both ends.
    pub fn end(&self) {
        self.writer.end();
    }
}
