//! Why the bytes of an object were not had.
ghost use Rattle.std.specs.Prelude.{◌≡◌};
ghost use Rattle.git_objects.specs.declared.fault.ObjectFault.TheVariants.{NoMemory as OutOfMemory};

use eden_base::NoMemory;
use std::fmt::{self, Display, Formatter};
use std::io;

/// Why the bytes of an object were not had.
#[derive(Clone, Copy)]
pub enum ObjectFault {
    NoMemory,
    /// The repository has no such object.
    Missing,
    /// The object's id names several objects.
    Ambiguous,
    /// The object has another size than was asked for.
    OtherSize,
    /// The object is a tree, a commit or a tag.
    NotABlob,
    /// The bytes that git gave have another name by their hash.
    Damaged,
    /// Another blob stood in the place of the one that was asked for.
    OtherBlob,
    /// What git answered is no answer to the question.
    Unreadable,
    /// Git ended before it had answered.
    Ended,
    /// Git did not answer in time.
    Late,
    /// Git could not be started.
    NoGit(io::Error),
    /// A blob that is too large for the memory could not be written to a file.
    NoSpool(io::Error),
    /// The part that was asked for goes beyond the object's size.
    Beyond,
}

impl From<NoMemory> for ObjectFault {
    ghost from_gives = { λ _ fault. fault ≡ OutOfMemory };

    fn from(_refused: NoMemory) -> ObjectFault {
        ObjectFault::NoMemory
    }
}

impl Display for ObjectFault {
    fn fmt<W: fmt::Write>(&self, f: &mut Formatter<W>) -> fmt::Result {
        match self {
            ObjectFault::NoMemory => f.write_str("out of memory"),
            ObjectFault::Missing => f.write_str("the repository has no such object"),
            ObjectFault::Ambiguous => f.write_str("its id names several objects"),
            ObjectFault::OtherSize => f.write_str("the object has another size than its tree says"),
            ObjectFault::NotABlob => f.write_str("the object is no blob"),
            ObjectFault::Damaged => f.write_str(
                "the object is damaged: its bytes have another name",
            ),
            ObjectFault::OtherBlob => f.write_str("another object is kept in its place"),
            ObjectFault::Unreadable => f.write_str("git gave an answer that cannot be read"),
            ObjectFault::Ended => f.write_str("git ended before it answered"),
            ObjectFault::Late => f.write_str("git did not answer in time"),
            ObjectFault::NoGit(error) => write!(f, "git cannot be started: {error}"),
            ObjectFault::NoSpool(error) => write!(f, "it cannot be kept in a file: {error}"),
            ObjectFault::Beyond => f.write_str("a part beyond its end was asked for"),
        }
    }
}
