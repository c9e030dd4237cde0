//! Bodies of frames, read from their bytes.
ghost use Rattle.std.specs.Prelude.{◌≡◌, ◌*◌, ◌≤◌, length};
ghost use Rattle.frames.specs.Kind.{IsPlain, IsPlainMessage};
ghost use Rattle.frames.specs.Reading.{Is, bare, frame_of, message_of, numbers_at, versions_of};

use crate::field::{nothing, u16_alone, u32_alone, u64_alone};
use crate::kind::{FrameKind, MessageKind};
use crate::{Frame, FrameFault};
use arrayvec::ArrayVec;
use byte_codec::{u16_in, u32_at};
use eden_base::DaemonId;
use takeover_core::{Message, Versions};

/// Reads `count` versions from `bytes`.
#[tactic(auto, using(crate::proofs::Versions::one_more, crate::proofs::Versions::no_more))]
fn read_each(count: usize, bytes: &[u8]) -> Versions
    requires few { count ≤ 8 }
    requires whole { length bytes.now ≡ 2 * count }
    ensures versions { result ≡ numbers_at count bytes.now }
{
    let mut versions = ArrayVec::<u16, 8>::new();
    let mut rest = bytes;
    for _ in 0..count {
        let (field, after) = rest.split_at(2);
        versions.push(u16_in(field));
        rest = after;
    }
    Versions::of(versions.as_slice())
}

/// Reads the versions of an `Offer` from its body.
#[tactic(auto, unfolding(crate::specs::Reading::versions_of))]
fn read_versions(body: &[u8]) -> Result<Versions, FrameFault>
    ensures { Is (λ x. x) result (versions_of body.now) }
{
    match body {
        [] => Err(FrameFault::BadBody),
        [count, rest @ ..] => {
            let count = *count as usize;
            if count > Versions::MAX_LEN || rest.len() != 2 * count {
                return Err(FrameFault::BadBody);
            }
            Ok(read_each(count, rest))
        }
    }
}

/// Reads a message of this kind from its body, of which it keeps no bytes.
#[tactic(auto, unfolding(crate::specs::Reading::message_of))]
fn read_message(kind: MessageKind, body: &[u8]) -> Result<Message, FrameFault>
    requires plain { IsPlainMessage kind }
    ensures { Is (λ x. x) result (message_of kind body.now) }
{
    match kind {
        MessageKind::Offer => Ok(Message::Offer(read_versions(body)?)),
        MessageKind::Choice => {
            let (session, rest) = u32_at(body, FrameFault::BadBody)?;
            let version = u16_alone(rest)?;
            Ok(Message::Choice { session, version })
        }
        MessageKind::NoCommon => {
            nothing(body)?;
            Ok(Message::NoCommon)
        }
        MessageKind::Busy => {
            nothing(body)?;
            Ok(Message::Busy)
        }
        MessageKind::Ready => {
            let (session, rest) = u32_at(body, FrameFault::BadBody)?;
            let generation = u64_alone(rest)?;
            Ok(Message::Ready {
                session,
                generation,
            })
        }
        MessageKind::Pong => {
            let session = u32_alone(body)?;
            Ok(Message::Pong { session })
        }
        MessageKind::Data | MessageKind::Part => unreachable!(),
        MessageKind::Failed => {
            let session = u32_alone(body)?;
            Ok(Message::Failed { session })
        }
    }
}

/// Returns `frame`, which has no field, if `body` is empty, else `BadBody`.
fn bare(frame: Frame, body: &[u8]) -> Result<Frame, FrameFault>
    ensures { Is (λ x. x) result (bare frame body.now) }
{
    nothing(body)?;
    Ok(frame)
}

/// Reads a frame of this kind from its body, of which it keeps no bytes.
#[tactic(auto, unfolding(crate::specs::Reading::frame_of))]
pub(crate) fn read_body(kind: FrameKind, body: &[u8]) -> Result<Frame, FrameFault>
    requires plain { IsPlain kind }
    ensures { Is (λ x. x) result (frame_of kind body.now) }
{
    match kind {
        FrameKind::Take => Ok(Frame::Take {
            generation: u64_alone(body)?,
        }),
        FrameKind::Empty => bare(Frame::Empty, body),
        FrameKind::Posted => bare(Frame::Posted, body),
        FrameKind::Ended => bare(Frame::Ended, body),
        FrameKind::Stale => Ok(Frame::Stale {
            now: u64_alone(body)?,
        }),
        FrameKind::NotAsked => bare(Frame::NotAsked, body),
        FrameKind::Claim => Ok(Frame::Claim {
            generation: u64_alone(body)?,
        }),
        FrameKind::Claimed => Ok(Frame::Claimed {
            generation: u64_alone(body)?,
        }),
        FrameKind::Unanswered => Ok(Frame::Unanswered {
            asks: u64_alone(body)?,
        }),
        FrameKind::LastGeneration => bare(Frame::LastGeneration, body),
        FrameKind::Mount => bare(Frame::Mount, body),
        FrameKind::Mounted => Ok(Frame::Mounted {
            generation: u64_alone(body)?,
        }),
        FrameKind::Seated => bare(Frame::Seated, body),
        FrameKind::Attach => Ok(Frame::Attach(DaemonId(u64_alone(body)?))),
        FrameKind::Attached => Ok(Frame::Attached(DaemonId(u64_alone(body)?))),
        FrameKind::Takeover(kind) => match read_message(kind, body) {
            Ok(message) => Ok(Frame::Takeover(message)),
            Err(fault) => Err(fault),
        },
        FrameKind::Ask | FrameKind::Post => unreachable!(),
    }
}
