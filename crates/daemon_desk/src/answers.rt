//! The results of frames that a daemon gets.
use crate::frame_list::FrameList;

/// The result of a frame of another daemon.
#[derive(Drop)]
pub enum Hearing {
    /// The daemon answers the other daemon with these frames, in order.
    Tells(FrameList),
    /// The frame is taken in, and has no answer.
    Accepts,
    /// The frame is not for this phase or session, and changes nothing.
    Ignores,
    /// No daemon sends such a frame: the connection is closed.
    Closes,
    /// Memory was refused, and nothing changed: the frame may be heard again.
    NoMemory,
}

/// The result of the broker's answer to a Mount.
#[derive(Clone, Copy, PartialEq, Eq)]
pub enum Mounting {
    /// The daemon serves at this generation.
    Serves(u64),
    /// Another daemon has the seat.
    Seated,
    /// The seat is at the last generation.
    LastGeneration,
    /// The mount is over.
    Ended,
    /// The frame is no answer to a Mount, or the daemon is in no phase to mount.
    Broken,
}

/// The result of the broker's answer to a Claim.
#[derive(Clone, Copy, PartialEq, Eq)]
pub enum Claiming {
    /// The daemon serves at this generation.
    Serves(u64),
    /// Asks that were taken have no reply yet: the daemon may claim again.
    Waits,
    /// The seat is at another generation, and the daemon is gone.
    Stale,
    /// The mount is over, and the daemon is gone.
    Ended,
    /// The seat is at the last generation, and the daemon is gone.
    LastGeneration,
    /// The frame is no answer to a Claim, or the daemon has nothing to claim.
    Broken,
}
