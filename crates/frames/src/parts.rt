//! A frame whose head and body are read one after the other.
ghost use Rattle.std.specs.Prelude.{◌≡◌, ◌<◌, ◌≤◌, ◌++◌, ℕ, List, [], Ok, length, IfOk, IfErr};
ghost use Rattle.byte_codec.specs.Field.{AreBytes};
ghost use Rattle.frames.specs.declared.fault.FrameFault.TheVariants.{BadBody};
ghost use Rattle.frames.specs.declared.kind.FrameKind.TheVariants as kinds;
ghost use Rattle.frames.specs.declared.kind.MessageKind.TheVariants as messages;
ghost use Rattle.frames.specs.FrameText.{kind_of};
ghost use Rattle.frames.specs.Kind.{IsPlain};
ghost use Rattle.frames.specs.Lacking.{IsHeadFault, lacking};
ghost use Rattle.frames.specs.Reading.{Faulty, Is, NotYet, frame_of, message_of, said, said_frame};
ghost use Rattle.frames.specs.Says.{IsFirst};

use crate::body::read_body;
use crate::front::{BEFORE_BODY, LENGTH, LONGEST_BODY, is_body};
use crate::kind::{FrameKind, MessageKind};
use crate::{Frame, FrameFault};
use byte_codec::{Bytes, u32_in, u64_in};
use std::mem;
use takeover_core::Message;

/// Returns how many bytes the frame at the front of `bytes` lacks, as `missing` does.
#[tactic(auto, unfolding(crate::specs::Lacking::lacking))]
fn lacked(bytes: &[u8]) -> Result<usize, FrameFault>
    ensures lacks { result ≡ lacking bytes.now }
{
    if bytes.len() < LENGTH {
        return Ok(BEFORE_BODY - bytes.len());
    }
    let (field, _) = bytes.split_at(LENGTH);
    let len = u32_in(field) as usize;
    if len > LONGEST_BODY {
        return Err(FrameFault::TooLong);
    }
    if bytes.len() < BEFORE_BODY {
        return Ok(BEFORE_BODY - bytes.len());
    }
    if FrameKind::with(bytes[LENGTH]).is_none() {
        return Err(FrameFault::BadKind);
    }
    Ok((BEFORE_BODY + len).saturating_sub(bytes.len()))
}

/// Returns how many bytes the frame at the front of `bytes` lacks: first those up to its kind, then those of its body.
/// Returns 0 if the body is whole, whether or not it is one of that kind.
pub fn missing(bytes: &[u8]) -> Result<usize, FrameFault>
    ensures missing { result ≡ lacking bytes.now }
    ensures not_yet { IfOk result (λ count. 0 < count → said bytes.now ≡ NotYet) }
    ensures faulty { IfErr result (λ fault. said bytes.now ≡ Faulty fault) }
    ensures faults { IfErr result IsHeadFault }
    ensures at_most { IfOk result (λ count. 5 ≤ length bytes.now → count ≤ 65536) }
{
    match lacked(bytes) {
        Ok(count) => Ok(count),
        Err(fault) => Err(fault),
    }
}

/// Reads a `Post` frame from its body: a generation, then a FUSE reply, which stays in the memory of `body`.
#[tactic(auto, unfolding(crate::specs::Reading::frame_of, byte_codec::specs::Reading::number_at, byte_codec::specs::Reading::bytes_at))]
fn post_of(body: Vec<u8>) -> Result<Frame, FrameFault>
    ensures { Is (λ x. x) result (frame_of kinds.Post body.items) }
{
    if body.len() < 8 {
        return Err(FrameFault::BadBody);
    }
    let generation = u64_in(&body[..8]);
    Ok(Frame::Post {
        generation,
        reply: Bytes::of(body).after(8),
    })
}

/// Reads a `Data` message from its body: a session, a generation, then an image, which stays in the memory of `body`.
#[tactic(auto, unfolding(crate::specs::Reading::message_of, byte_codec::specs::Reading::number_at, byte_codec::specs::Reading::bytes_at))]
fn data_of(body: Vec<u8>) -> Result<Message, FrameFault>
    ensures { Is (λ x. x) result (message_of messages.Data body.items) }
{
    if body.len() < 12 {
        return Err(FrameFault::BadBody);
    }
    let session = u32_in(&body[..4]);
    let generation = u64_in(&body[4..12]);
    Ok(Message::Data {
        session,
        generation,
        bytes: Bytes::of(body).after(12),
    })
}

/// Reads a `Part` message from its body: a session, a generation, a position, a count, then a part of a text, which
/// stays in the memory of `body`.
#[tactic(auto, unfolding(crate::specs::Reading::message_of, byte_codec::specs::Reading::number_at, byte_codec::specs::Reading::bytes_at))]
fn part_of(body: Vec<u8>) -> Result<Message, FrameFault>
    ensures { Is (λ x. x) result (message_of messages.Part body.items) }
{
    if body.len() < 20 {
        return Err(FrameFault::BadBody);
    }
    let session = u32_in(&body[..4]);
    let generation = u64_in(&body[4..12]);
    let position = u32_in(&body[12..16]);
    let count = u32_in(&body[16..20]);
    Ok(Message::Part {
        session,
        generation,
        position,
        count,
        bytes: Bytes::of(body).after(20),
    })
}

/// Returns the bytes of `body` in its memory, and leaves none.
fn taken(body: &mut Vec<u8>) -> Vec<u8>
    ensures bytes { result ≡ body.old }
{
    let alloc = *body.allocator();
    mem::replace(body, Vec::new(alloc))
}

/// Reads a frame of this kind from its body. Bytes that the frame keeps stay in the memory of `body`.
#[tactic(auto, unfolding(crate::specs::Reading::frame_of))]
fn frame_of(kind: FrameKind, body: &mut Vec<u8>) -> Result<Frame, FrameFault>
    ensures frame { Is (λ x. x) result (frame_of kind body.old.items) }
    ensures bytes { AreBytes body.old.items }
    ensures plain { IsPlain kind → body.new ≡ body.old }
{
    if !is_body(kind, body.as_slice()) {
        return Err(FrameFault::BadBody);
    }
    match kind {
        FrameKind::Ask => Ok(Frame::Ask(Bytes::of(taken(body)))),
        FrameKind::Post => post_of(taken(body)),
        FrameKind::Takeover(MessageKind::Data) => match data_of(taken(body)) {
            Ok(message) => Ok(Frame::Takeover(message)),
            Err(fault) => Err(fault),
        },
        FrameKind::Takeover(MessageKind::Part) => match part_of(taken(body)) {
            Ok(message) => Ok(Frame::Takeover(message)),
            Err(fault) => Err(fault),
        },
        other => read_body(other, body.as_slice()),
    }
}

impl Frame {
    /// Reads a frame from a head of five bytes and a body, whose length is what `missing` returns for the head. Takes
    /// no memory: bytes that the frame keeps take that of `body` along. A frame that keeps none leaves `body` as it is.
    #[tactic(auto, using(crate::proofs::LackingLaws::body_says, crate::proofs::LackingLaws::kind_there, crate::proofs::LackingLaws::parts_text))]
    pub fn of_parts(head: &[u8], body: &mut Vec<u8>) -> Result<Frame, FrameFault>
        requires head { length head.now ≡ 5 }
        requires body { lacking head.now ≡ Ok (length body.old.items) }
        ensures read { said (head.now ++ body.old.items) ≡ said_frame result [] }
        ensures text { IfOk result (λ frame. IsFirst (head.now ++ body.old.items) frame []) }
        ensures bad { IfErr result (λ fault. fault ≡ BadBody) }
        ensures plain { IfOk result (λ frame. IsPlain (kind_of frame) → body.new ≡ body.old) }
    {
        match FrameKind::with(head[LENGTH]) {
            Some(kind) => match frame_of(kind, body) {
                Ok(frame) => Ok(frame),
                Err(fault) => Err(fault),
            },
            None => Err(FrameFault::BadKind),
        }
    }
}
