//! Why bytes are no manifest, and why a file can't be one of a manifest.
ghost use Rattle.std.specs.Prelude.{◌≡◌, Some};
ghost use Rattle.manifest.specs.ManifestText.{line_fault};
ghost use Rattle.manifest.specs.Words.{kind_text};

use std::fmt;
use thiserror::Error;

/// The first faulty line, and what is wrong with it.
#[derive(Clone, Copy, Debug, PartialEq, Eq, Error)]
#[error("line {line}: {kind}")]
pub struct ManifestFault {
    /// The number of the line, from 1.
    pub line: usize,
    pub kind: ManifestFaultKind,
}

/// Why no file can be added at a path. If several variants apply, the first in this order is the fault.
#[derive(Clone, Copy, Debug, PartialEq, Eq, Error)]
pub enum PlaceFault {
    #[error("a part of the path, between slashes, is no name")]
    BadPath,
    #[error("no earlier file is the directory that holds the file")]
    NoParent,
    #[error("an earlier file has the same path")]
    Twice,
    #[error("there are as many files as there may be")]
    TooManyFiles,
    #[error("out of memory")]
    NoMemory,
}

impl PlaceFault {
    /// Returns this fault of a path as one of the path's line.
    pub(crate) fn of_line(self) -> ManifestFaultKind
        ensures fault { result ≡ line_fault self }
    {
        match self {
            PlaceFault::BadPath => ManifestFaultKind::BadPath,
            PlaceFault::NoParent => ManifestFaultKind::NoParent,
            PlaceFault::Twice => ManifestFaultKind::Twice,
            PlaceFault::TooManyFiles => ManifestFaultKind::TooManyLines,
            PlaceFault::NoMemory => ManifestFaultKind::NoMemory,
        }
    }
}

/// What is wrong with a line. If several variants apply, the first in this order is the fault.
#[derive(Clone, Copy, Debug, PartialEq, Eq)]
pub enum ManifestFaultKind {
    /// The first line isn't `commit ` and forty hexadecimal digits.
    NoCommit,
    /// The line isn't ended, or is none of `dir PATH`, `file MODE SIZE PATH` and `link SIZE PATH`.
    BadLine,
    /// The mode isn't four octal digits.
    BadMode,
    /// The size isn't a decimal number below 2^63, or has a leading zero.
    BadSize,
    /// A part of the path, between slashes, is no name.
    BadPath,
    /// No earlier line makes the directory that holds the file.
    NoParent,
    /// An earlier line has the same path.
    Twice,
    /// The line is the 65,537th.
    TooManyLines,
    /// Out of memory.
    NoMemory,
}

impl fmt::Display for ManifestFaultKind {
    ghost output = { λ kind. Some (kind_text kind) };

    fn fmt<W: fmt::Write>(&self, f: &mut fmt::Formatter<W>) -> fmt::Result {
        f.write_str(match self {
            ManifestFaultKind::NoCommit => "NoCommit",
            ManifestFaultKind::BadLine => "BadLine",
            ManifestFaultKind::BadMode => "BadMode",
            ManifestFaultKind::BadSize => "BadSize",
            ManifestFaultKind::BadPath => "BadPath",
            ManifestFaultKind::NoParent => "NoParent",
            ManifestFaultKind::Twice => "Twice",
            ManifestFaultKind::TooManyLines => "TooManyLines",
            ManifestFaultKind::NoMemory => "NoMemory",
        })
    }
}
