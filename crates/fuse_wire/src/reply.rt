//! The replies of a daemon.
ghost use Rattle.std.specs.Prelude.{◌≡◌, ◌↔◌, IsTrue};
ghost use Rattle.fuse_wire.specs.Sharing.{StandsFor};

use crate::Buffer;
use crate::same::same_attr;
use eden_base::{Attr, Errno, FileId, Number};
use std::alloc::Global;

/// A contiguous part of a file's bytes: `len` bytes from `offset` on. What stands there is not in it.
#[derive(Clone, Copy, PartialEq, Eq)]
pub struct Extent {
    pub file: FileId,
    pub offset: u64,
    pub len: u32,
}

/// What a daemon answers: a reply without its unique.
#[derive(PartialEq, Eq, Drop)]
pub enum Answer {
    /// To LOOKUP and MKDIR: the kernel holds `number` once more.
    Entry { number: Number, attr: Attr },
    /// To CREATE: as `Entry`, and the file is open.
    Opened { number: Number, attr: Attr },
    /// To GETATTR.
    Attrs { number: Number, attr: Attr },
    /// To UNLINK, RMDIR and RENAME.
    Done,
    /// Bytes of any length. To READDIR, and to READ and READLINK once the bytes of an extent were fetched.
    Buffer(Buffer),
    /// To READ and READLINK, before its bytes are fetched.
    Extent(Extent),
    Error(Errno),
}

impl Answer {
    /// Returns whether `self` and `other` are the same answer.
    pub fn is(&self, other: &Answer) -> bool
        ensures same { IsTrue result ↔ (self.now ≡ other.now) }
    {
        match self {
            Answer::Entry { number, attr } => {
                matches!(other, Answer::Entry { number: its, attr: second } if number == its && same_attr(*attr, *second))
            }
            Answer::Opened { number, attr } => {
                matches!(other, Answer::Opened { number: its, attr: second } if number == its && same_attr(*attr, *second))
            }
            Answer::Attrs { number, attr } => {
                matches!(other, Answer::Attrs { number: its, attr: second } if number == its && same_attr(*attr, *second))
            }
            Answer::Done => matches!(other, Answer::Done),
            Answer::Buffer(buffer) => matches!(other, Answer::Buffer(second) if buffer.is(second)),
            Answer::Extent(extent) => matches!(other, Answer::Extent(second) if extent == second),
            Answer::Error(errno) => matches!(other, Answer::Error(second) if errno == second),
        }
    }

    /// Returns the answer twice, for two owners, without a copy of its bytes. Only a buffer takes memory. Where that is
    /// refused, ENOMEM stands for it both times.
    pub fn twice(self, alloc: Global) -> (Answer, Answer)
        ensures first { StandsFor self result.0 }
        ensures second { result.1 ≡ result.0 }
    {
        match self {
            Answer::Entry { number, attr } => (
                Answer::Entry { number, attr },
                Answer::Entry { number, attr },
            ),
            Answer::Opened { number, attr } => (
                Answer::Opened { number, attr },
                Answer::Opened { number, attr },
            ),
            Answer::Attrs { number, attr } => (
                Answer::Attrs { number, attr },
                Answer::Attrs { number, attr },
            ),
            Answer::Done => (Answer::Done, Answer::Done),
            Answer::Buffer(buffer) => match buffer.twice(alloc) {
                Ok((first, second)) => (Answer::Buffer(first), Answer::Buffer(second)),
                Err(_refused) => (Answer::Error(Errno::ENOMEM), Answer::Error(Errno::ENOMEM)),
            },
            Answer::Extent(extent) => (Answer::Extent(extent), Answer::Extent(extent)),
            Answer::Error(errno) => (Answer::Error(errno), Answer::Error(errno)),
        }
    }
}

/// An answer, and the `unique` of the request that is answered.
#[derive(PartialEq, Eq, Drop)]
pub struct Reply {
    pub unique: u64,
    pub answer: Answer,
}
