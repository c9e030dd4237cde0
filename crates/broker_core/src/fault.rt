//! Why the broker refuses a daemon.
use thiserror::Error;

/// Why a daemon does not have the seat at a generation.
#[derive(Clone, Copy, Debug, PartialEq, Eq)]
pub(crate) enum NotSeated {
    Ended,
    Stale(u64),
}

/// Why a daemon takes nothing. If several variants apply, the first in this order is the fault.
#[derive(Clone, Copy, Debug, PartialEq, Eq, Error)]
pub enum TakeFault {
    #[error("no daemon serves the mount")]
    Ended,
    /// Another daemon has the seat, or the seat is at another generation. The field is the seat's generation.
    #[error("the seat is at generation {0}")]
    Stale(u64),
    #[error("nothing waits")]
    Empty,
}

/// Why a daemon's reply is refused. If several variants apply, the first in this order is the fault.
#[derive(Clone, Copy, Debug, PartialEq, Eq, Error)]
pub enum PostFault {
    #[error("no daemon serves the mount")]
    Ended,
    /// Another daemon has the seat, or the seat is at another generation. The field is the seat's generation.
    #[error("the seat is at generation {0}")]
    Stale(u64),
    /// No taken ask without a reply has the reply's unique, or the answer does not belong to that ask, or the answer
    /// gives out number 0 or the root.
    #[error("the reply answers nothing that was asked")]
    NotAsked,
}

/// Why no reply is delivered. If several variants apply, the first in this order is the fault.
#[derive(Clone, Copy, Debug, PartialEq, Eq, Error)]
pub enum DeliverFault {
    #[error("no reply waits")]
    Empty,
    /// Memory was refused for the number that the reply gives out. The reply stays posted.
    #[error("out of memory")]
    NoMemory,
}
