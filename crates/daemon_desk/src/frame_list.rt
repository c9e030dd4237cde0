//! Frames that a daemon sends to another daemon.
ghost use Rattle.std.specs.Prelude.{◌≡◌, [], ◌∷◌, map, MatchOption};
ghost use Rattle.frames.specs.declared.frame.Frame.TheVariants.{Takeover};

use daemon::Messages;
use frames::Frame;
use std::marker::Model;
use takeover_core::Message;

/// Frames in order, one for each message. Clauses see them as a list.
#[derive(Drop)]
pub struct FrameList {
    first: Option<Message>,
    others: Messages,
}

impl Model for FrameList {
    ghost use Rattle.std.specs.Prelude.{List, ◌++◌, map};
    ghost use Rattle.std.specs.Option.{option_to_list};
    ghost use Rattle.frames.specs.declared.frame.Frame.{Frame};
    ghost use Rattle.frames.specs.declared.frame.Frame.TheVariants.{Takeover};

    ghost Value = { List Frame };

    ghost view = { λ list. map Takeover (option_to_list list.first ++ list.others) };
}

impl FrameList {
    /// Returns the frames of `first` and of the `others`, in this order. It takes no memory.
    pub(crate) fn of(first: Message, others: Messages) -> FrameList
        ensures of { result ≡ map Takeover (first ∷ others) }
    {
        FrameList {
            first: Some(first),
            others,
        }
    }

    /// Removes the first frame and returns it, if there is one.
    pub fn next(&mut self) -> Option<Frame>
        ensures next { MatchOption result ((self.old ≡ []) × (self.new ≡ []))
            (λ frame. self.old ≡ frame ∷ self.new) }
    {
        if let Some(first) = self.first.take() {
            return Some(Frame::Takeover(first));
        }
        match self.others.next() {
            Some(message) => Some(Frame::Takeover(message)),
            None => None,
        }
    }
}
