//! One end of a connection to the broker, and the answers to it.
use eden_base::DaemonId;
use frames::Frame;

/// Who is at the other end of a connection, as its Attach said.
#[derive(Clone, Copy, PartialEq, Eq)]
pub enum Peer {
    /// Nobody yet: no Attach of this peer was granted.
    Unattached,
    /// A daemon, at its first connection. When that connection ends, the daemon is gone.
    Daemon(DaemonId),
    /// A daemon, at the connection of one of its workers.
    Worker(DaemonId),
}

/// The desk's answer to a frame.
#[derive(Drop)]
pub enum Response {
    /// The peer is sent this frame.
    Tells(Frame),
    /// The peer may not send such a frame: the connection is closed.
    Closes,
}
