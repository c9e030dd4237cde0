//! Why bytes are not what git prints.
ghost use Rattle.std.specs.Prelude.{◌≡◌};
ghost use Rattle.git_tree.specs.GitTree.{path_fault};

use manifest::PlaceFault;
use thiserror::Error;

/// The first faulty record, and what is wrong with it.
#[derive(Clone, Copy, Debug, PartialEq, Eq, Error)]
#[error("record {number}: {kind}")]
pub struct GitTreeFault {
    /// The number of the record, from 1. What follows the last NUL has a number too.
    pub number: usize,
    pub kind: GitTreeFaultKind,
}

/// What is wrong with a record. If several variants apply, the first in this order is the fault.
#[derive(Clone, Copy, Debug, PartialEq, Eq, Error)]
pub enum GitTreeFaultKind {
    #[error("the record is not ended, or lacks one of its five fields")]
    BadRecord,
    #[error("mode and type are not those of a directory, a file, a link or a submodule")]
    BadMode,
    #[error("the object is not forty hexadecimal digits in lower case")]
    BadObject,
    #[error("the size is not one that the object may have, in seven characters at least")]
    BadSize,
    #[error("a part of the path, between slashes, is no name")]
    BadPath,
    #[error("no earlier record is of the directory that holds the file")]
    NoParent,
    #[error("an earlier record has the same path")]
    Twice,
    #[error("the record is the 16,777,216th")]
    TooManyFiles,
    #[error("out of memory")]
    NoMemory,
}

impl GitTreeFaultKind {
    /// Returns a fault of a path as one of the path's record.
    pub(crate) fn of_path(fault: PlaceFault) -> GitTreeFaultKind
        ensures fault { result ≡ path_fault fault }
    {
        match fault {
            PlaceFault::BadPath => GitTreeFaultKind::BadPath,
            PlaceFault::NoParent => GitTreeFaultKind::NoParent,
            PlaceFault::Twice => GitTreeFaultKind::Twice,
            PlaceFault::TooManyFiles => GitTreeFaultKind::TooManyFiles,
            PlaceFault::NoMemory => GitTreeFaultKind::NoMemory,
        }
    }
}

/// Why bytes are not the name of a commit, as `git rev-parse` prints it.
#[derive(Clone, Copy, Debug, PartialEq, Eq, Error)]
pub enum CommitFault {
    #[error("the repository names its objects by SHA-256")]
    Sha256,
    #[error("a commit's name is not forty hexadecimal digits in lower case and a line feed")]
    BadName,
}
