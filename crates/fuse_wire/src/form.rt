//! The forms of replies.
ghost use Rattle.std.specs.Prelude.{◌≡◌};
ghost use Rattle.fuse_wire.specs.Form.{belongs};

use crate::Answer;

/// What the reply to a request contains, if the request does not fail.
#[derive(Clone, Copy, PartialEq, Eq)]
pub enum Form {
    /// A `fuse_entry_out`.
    AnEntry,
    /// A `fuse_entry_out` and a `fuse_open_out`.
    AnOpenEntry,
    /// A `fuse_attr_out`.
    Attributes,
    /// A header alone.
    NoValue,
    /// Bytes of any length.
    ABuffer,
    /// Bytes of a file, or of a link's target: the extent that they are, or the bytes themselves.
    FileBytes,
    /// No value: the request is not served and always fails, or it is a forget, which has no reply.
    OnlyAnError,
}

impl Form {
    /// Returns whether `answer` belongs to a request of this form. An error belongs to every form.
    pub fn admits(self, answer: &Answer) -> bool
        ensures belongs { result ≡ belongs self answer.now }
    {
        match answer {
            Answer::Entry { .. } => self == Form::AnEntry,
            Answer::Opened { .. } => self == Form::AnOpenEntry,
            Answer::Attrs { .. } => self == Form::Attributes,
            Answer::Done => self == Form::NoValue,
            Answer::Buffer(_) => self == Form::ABuffer || self == Form::FileBytes,
            Answer::Extent(_) => self == Form::FileBytes,
            Answer::Error(_) => true,
        }
    }
}
