//! Why a line was lost.
ghost use Rattle.std.specs.Prelude.{◌≡◌, None, Some, codes};

use std::fmt::{self, Display, Formatter};
use std::io;

/// Why a line was not written.
#[derive(Clone, Copy)]
pub enum Loss {
    /// Too many bytes wait to be written.
    Full,
    NoMemory,
    /// The system refused the write.
    Refused(io::Error),
}

impl Display for Loss {
    fn fmt<W: fmt::Write>(&self, f: &mut Formatter<W>) -> fmt::Result {
        match self {
            Loss::Full => f.write_str("nobody reads"),
            Loss::NoMemory => f.write_str("out of memory"),
            Loss::Refused(error) => write!(f, "{error}"),
        }
    }
}
