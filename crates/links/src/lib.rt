//! Frames sent over a reader and a writer.
#![tactic(auto)]

mod frame_room;
mod reading;
mod socket_channel;
mod writing;

pub use frame_room::MAX_SEAT_TEXT;
pub use frames::{Frame, FrameFault};
pub use reading::{MAX_READS, read_frame, read_frame_to};
pub use socket_channel::SocketChannel;
pub use writing::{MAX_WRITES, write_frame, write_frame_to};
