//! What one end of a connection says to the other.
use byte_codec::Bytes;
use eden_base::DaemonId;
use takeover_core::Message;

/// A frame: a request of a daemon to the broker, the broker's answer, or a message of a takeover, which goes between
/// daemons.
#[derive(Drop)]
pub enum Frame {
    /// A daemon asks for the next FUSE request, at this generation.
    Take { generation: u64 },
    /// The FUSE request that was taken.
    Ask(Bytes),
    /// No FUSE request is handed out now.
    Empty,
    /// A daemon at this generation posts a FUSE reply.
    Post { generation: u64, reply: Bytes },
    /// The reply was accepted for the kernel.
    Posted,
    /// The mount is over.
    Ended,
    /// The seat is at generation `now`. It is another daemon's, or not at the generation that the daemon named.
    Stale { now: u64 },
    /// The reply answers no FUSE request that waits for one, or its bytes are no reply.
    NotAsked,
    /// A daemon claims the seat from this generation.
    Claim { generation: u64 },
    /// The claim was granted, and the seat is at this generation.
    Claimed { generation: u64 },
    /// The claim was refused: this count of FUSE requests were taken and have no reply yet.
    Unanswered { asks: u64 },
    /// The seat is at the last generation.
    LastGeneration,
    /// A daemon asks to mount.
    Mount,
    /// The daemon mounted, and has the seat at this generation.
    Mounted { generation: u64 },
    /// Another daemon has the seat.
    Seated,
    /// The first frame of a daemon on a connection: its number, or 0 if it is new and has none.
    Attach(DaemonId),
    /// The answer to `Attach`: the daemon at the other end has this number.
    Attached(DaemonId),
    /// A message of a takeover.
    Takeover(Message),
}
