//! What one daemon says to another.
use crate::Versions;
use byte_codec::Bytes;

/// A message of a takeover. A session is one try of a takeover, numbered from 1 by the daemon that serves.
#[derive(Drop, PartialEq, Eq)]
pub enum Message {
    /// A new daemon can read images of these versions.
    Offer(Versions),
    /// The serving daemon begins a session, with an image of this version.
    Choice {
        session: u32,
        version: u16,
    },
    /// None of the offered versions is one that the serving daemon writes.
    NoCommon,
    /// The serving daemon begins no session now.
    Busy,
    /// The serving daemon has no request in hand and no reply unposted any more.
    Ready {
        session: u32,
        generation: u64,
    },
    /// The new daemon is still there.
    Pong {
        session: u32,
    },
    /// The data, in one message: what the serving daemon knows, at this generation.
    Data {
        session: u32,
        generation: u64,
        bytes: Bytes,
    },
    /// One part of the data: the part at `position`, counted from 1, of `count` parts.
    Part {
        session: u32,
        generation: u64,
        position: u32,
        count: u32,
        bytes: Bytes,
    },
    /// The session is over without a takeover.
    Failed {
        session: u32,
    },
}
