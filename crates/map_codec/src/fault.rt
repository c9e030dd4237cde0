//! What stops an image from being restored, and a handover.
use thiserror::Error;

/// Why nothing that a daemon could serve is restored from an image. If several variants apply, the first in this order
/// is the fault.
#[derive(Clone, Copy, Debug, PartialEq, Eq, Error)]
pub enum RaiseFault {
    #[error("the image is of another manifest")]
    OtherManifest,
    /// The position of the change: 0 for the next file; from 1 on the files that were made and then the names that were
    /// changed.
    #[error("change {0} is bad")]
    BadChange(usize),
    #[error("an entry's directory is not known")]
    NoParent,
    #[error("an entry names no file, or marks one that has a name")]
    NoLink,
    #[error("two entries name one file")]
    TwoNumbers,
    #[error("the next number is not above all entries, or none is left")]
    NumberTooHigh,
    #[error("out of memory")]
    NoMemory,
}

/// What stops a handover or a takeover.
#[derive(Clone, Copy, Debug, PartialEq, Eq, Error)]
pub enum HandoverFault {
    /// What is served cannot be handed over, or the bytes cannot be taken over, however much memory there is.
    #[error("refused")]
    Refused,
    #[error("out of memory")]
    NoMemory,
}
