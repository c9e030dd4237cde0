//! The seat, from which a daemon serves.
use eden_base::DaemonId;

/// Which daemon serves, and at which generation. The seat stands in for the file descriptor of `/dev/fuse`.
#[derive(Clone, Copy, PartialEq, Eq)]
pub struct Seat {
    /// At least 1, and never the same for two changes of the seat.
    pub generation: u64,
    pub daemon: DaemonId,
}
