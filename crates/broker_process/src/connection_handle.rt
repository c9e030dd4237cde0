//! What other threads have of a connection.
ghost use Rattle.std.specs.Prelude.{◌≡◌, IfOk};
ghost use Rattle.broker_process.specs.HeldTakes.{SameConnection};

use crate::shared_desk::TakeAnswer;
use broker_desk::Response;
use eden_base::NoMemory;
use links::{Frame, MAX_SEAT_TEXT, write_frame_to};
use std::alloc::Global;
use std::net::Shutdown;
use std::os::unix::net::UnixStream;
use std::sync::{Arc, Mutex, Wait};

/// A handle of a connection, by which another thread than the connection's own ends it, or answers a Take that waits.
#[derive(Drop)]
pub(crate) struct ConnectionHandle {
    end: Arc<ConnectionEnd>,
}

/// The broker's end of a connection.
#[derive(Drop)]
struct ConnectionEnd {
    stream: UnixStream,
    /// Room for the text of an answer, so that none is lost for lack of memory.
    text: Mutex<Vec<u8>>,
}

impl ConnectionHandle {
    /// Makes a handle of the connection whose socket `stream` is.
    pub(crate) fn new(alloc: Global, stream: UnixStream) -> Result<ConnectionHandle, NoMemory> {
        let text = Mutex::new(Vec::with_capacity(alloc, MAX_SEAT_TEXT)?);
        let end = Arc::new(alloc, ConnectionEnd { stream, text })?;
        Ok(ConnectionHandle { end })
    }

    /// Returns one more handle of the same connection.
    pub(crate) fn share(&self) -> Result<ConnectionHandle, NoMemory>
        ensures same { IfOk result (λ handle. SameConnection handle self.now) }
    {
        Ok(ConnectionHandle {
            end: Arc::try_clone(&self.end)?,
        })
    }

    /// Writes the answer to a Take that waited, behind what is owed before it. Who sent it has read all other answers by then, so
    /// the socket has room for it. Where it can't be written after all, the connection ends.
    pub(crate) fn answer<R: Wait>(&self, rt: &R, answer: &TakeAnswer) {
        let is_written = (!answer.owes_posted || self.write(rt, &Frame::Posted))
            && match &answer.response {
                Response::Tells(frame) => self.write(rt, frame),
                Response::Closes => false,
            };
        if !is_written {
            self.end();
        }
    }

    /// Writes a frame. Returns whether it is written.
    fn write<R: Wait>(&self, rt: &R, frame: &Frame) -> bool {
        let mut text = self.end.text.lock(rt);
        write_frame_to(&mut &self.end.stream, &mut *text, frame).is_ok()
    }

    /// Ends the connection for both ends.
    pub(crate) fn end(&self) {
        let _ended = self.end.stream.shutdown(Shutdown::Both);
    }
}
