//! The frames that the other daemon of a takeover is sent.
ghost use Rattle.std.specs.Prelude.{None};
ghost use Rattle.daemon_process.specs.SentFrames.{SendsBy};

use daemon_desk::FrameList;
use links::write_frame;
use sockets::Connection;
use std::alloc::Global;
use std::io::Write;
use std::rt::Clock;
use std::sync::Wait;

/// Writes frames to another daemon in their order, up to the first that can't be written. Returns whether all were.
pub(crate) fn send_all<R: Wait + Clock>(
    connection: &mut Connection<'_, R>,
    frames: FrameList,
) -> bool
    ensures sends { SendsBy result frames None None }
{
    let alloc = connection.alloc();
    write_all(alloc, connection.writer(), frames)
}

/// Writes frames in their order, up to the first that can't be written. Returns whether all were.
fn write_all<W: Write>(alloc: Global, writer: &mut W, frames: FrameList) -> bool
    ensures sends { SendsBy result frames (W.contents writer.old) (W.contents writer.new) }
{
    let mut left = frames;
    while let Some(frame) = left.next() {
        match write_frame(alloc, writer, &frame) {
            Ok(()) => {}
            Err(_fault) => return false,
        }
    }
    true
}
