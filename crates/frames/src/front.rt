//! What stands before a body, and which bytes are the body of a frame.
ghost use Rattle.std.specs.Prelude.{◌≡◌, is_ok, Err, IsFalse};
ghost use Rattle.frames.specs.declared.fault.FrameFault.TheVariants.{BadBody};
ghost use Rattle.frames.specs.Reading.{frame_of, message_of};

use crate::kind::{FrameKind, MessageKind};
use takeover_core::Versions;

/// How many bytes a body may have. The limit is this project's own.
pub(crate) const LONGEST_BODY: usize = 65_536;

/// How many bytes the length of a body takes.
pub(crate) const LENGTH: usize = 4;

/// How many bytes stand before a body.
pub(crate) const BEFORE_BODY: usize = 5;

/// Returns whether `body` is the body of a message of this kind.
#[tactic(auto, unfolding(crate::specs::Reading::message_of, crate::specs::Reading::versions_of, crate::specs::Reading::alone, byte_codec::specs::Reading::number_at, byte_codec::specs::Reading::bytes_at, crate::specs::Reading::nothing))]
fn is_message(kind: MessageKind, body: &[u8]) -> bool
    ensures whole { result ≡ is_ok (message_of kind body.now) }
    ensures bad { IsFalse result → message_of kind body.now ≡ Err BadBody }
{
    match kind {
        MessageKind::Offer => match body {
            [] => false,
            [count, rest @ ..] => {
                let count = *count as usize;
                count <= Versions::MAX_LEN && rest.len() == 2 * count
            }
        },
        MessageKind::Choice => body.len() == 4 + 2,
        MessageKind::NoCommon | MessageKind::Busy => body.is_empty(),
        MessageKind::Ready => body.len() == 4 + 8,
        MessageKind::Pong | MessageKind::Failed => body.len() == 4,
        MessageKind::Data => body.len() >= 4 + 8,
        MessageKind::Part => body.len() >= 4 + 8 + 4 + 4,
    }
}

/// Returns whether `body` is the body of a frame of this kind.
#[tactic(auto, unfolding(crate::specs::Reading::frame_of, crate::specs::Reading::alone, byte_codec::specs::Reading::number_at, byte_codec::specs::Reading::bytes_at, crate::specs::Reading::nothing))]
pub(crate) fn is_body(kind: FrameKind, body: &[u8]) -> bool
    ensures whole { result ≡ is_ok (frame_of kind body.now) }
    ensures bad { IsFalse result → frame_of kind body.now ≡ Err BadBody }
{
    match kind {
        FrameKind::Ask => true,
        FrameKind::Post => body.len() >= 8,
        FrameKind::Empty
        | FrameKind::Posted
        | FrameKind::Ended
        | FrameKind::NotAsked
        | FrameKind::LastGeneration
        | FrameKind::Mount
        | FrameKind::Seated => body.is_empty(),
        FrameKind::Take
        | FrameKind::Stale
        | FrameKind::Claim
        | FrameKind::Claimed
        | FrameKind::Unanswered
        | FrameKind::Mounted
        | FrameKind::Attach
        | FrameKind::Attached => body.len() == 8,
        FrameKind::Takeover(kind) => is_message(kind, body),
    }
}
