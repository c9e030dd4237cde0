//! The number that an answer gives out.
ghost use Rattle.std.specs.Prelude.{◌≡◌};
ghost use Rattle.fuse_wire.specs.Given.{given_out};

use crate::Answer;
use eden_base::Number;

impl Answer {
    /// Returns the number that this answer gives out, if any. The kernel holds that number once more.
    pub fn given_out(&self) -> Option<Number>
        ensures number { result ≡ given_out self.now }
    {
        match self {
            Answer::Entry { number, .. } | Answer::Opened { number, .. } => Some(*number),
            Answer::Attrs { .. }
            | Answer::Done
            | Answer::Buffer(_)
            | Answer::Extent(_)
            | Answer::Error(_) => None,
        }
    }
}
