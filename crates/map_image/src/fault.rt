//! Why an image could not be written or read.
use thiserror::Error;

/// Why an image has no text that may be written. If several variants apply, the first in this order is the fault.
#[derive(Clone, Copy, Debug, PartialEq, Eq, Error)]
pub enum WriteFault {
    #[error("no such version")]
    NoSuchVersion,
    #[error("this version names the manifest by something else")]
    NamedOtherwise,
    #[error("a count is too large for this version")]
    CountTooLarge,
    #[error("the text is too long for this version")]
    TooLong,
    #[error("out of memory")]
    NoMemory,
}

/// Why bytes are no image. They are read from the front to the back, and the first fault that is met is returned.
#[derive(Clone, Copy, Debug, PartialEq, Eq, Error)]
pub enum ImageFault {
    #[error("the bytes do not begin as an image")]
    BadMagic,
    #[error("no such version")]
    BadVersion,
    #[error("a field is cut off")]
    Short,
    #[error("bytes follow the last field")]
    Rest,
    #[error("entries, files or names do not rise")]
    NotRising,
    #[error("a name is none")]
    BadName,
    #[error("a mark, a kind or permissions are none")]
    BadMark,
    #[error("an entry is of no use")]
    ZeroUse,
    #[error("out of memory")]
    NoMemory,
}
