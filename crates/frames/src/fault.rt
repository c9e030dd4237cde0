//! What can go wrong with frames on a connection.
use thiserror::Error;

/// Why a connection does not go on.
#[derive(Clone, Copy, Debug, PartialEq, Eq, Error)]
pub enum FrameFault {
    /// The body of a frame would be longer than 65,536 bytes.
    #[error("frame too long")]
    TooLong,
    /// The number of the kind is that of no frame.
    #[error("no such kind of frame")]
    BadKind,
    /// The body of a frame does not have the fields of its kind.
    #[error("frame with a bad body")]
    BadBody,
    /// The bytes end within a frame.
    #[error("link ended within a frame")]
    Torn,
    /// The bytes could not be read.
    #[error("link cannot be read")]
    Read,
    /// The bytes could not be written.
    #[error("link cannot be written")]
    Write,
    /// The allocator refused memory.
    #[error("out of memory")]
    NoMemory,
}
