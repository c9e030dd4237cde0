//! Frames as bytes.
ghost use Rattle.std.specs.Prelude.{◌≡◌, ◌++◌, ◌≤◌, ℕ, List, [], length, vec_capacity, IfOk, IfErr, OnOk, OnErr, Some};
ghost use Rattle.std.specs.List.{All, flat_map};
ghost use Rattle.byte_codec.specs.Writing.{HasRoom, Puts};
ghost use Rattle.frames.specs.declared.kind.FrameKind.TheVariants as kinds;
ghost use Rattle.frames.specs.declared.frame.Frame.TheVariants.{Post as APost};
ghost use Rattle.frames.specs.FrameText.{Fits, FitsMessage, FitsVersion, HasRoomFor, IsNotMemory, IsNotWritten, body_of, framed, frame_text, kind_of, message_body, message_kind, version_text};
ghost use Rattle.frames.specs.Reading.{First, said};

use crate::front::{BEFORE_BODY, LONGEST_BODY};
use crate::kind::{FrameKind, MessageKind};
use crate::{Frame, FrameFault};
use byte_codec::{put_byte, put_slice, put_u16, put_u32, put_u64};
use std::alloc::Global;
use takeover_core::Message;

/// How many bytes a generation takes.
const GENERATION: usize = 8;

/// Returns the kind of `message`.
fn message_kind(message: &Message) -> MessageKind
    ensures kind { result ≡ message_kind message.now }
{
    match message {
        Message::Offer(_) => MessageKind::Offer,
        Message::Choice { .. } => MessageKind::Choice,
        Message::NoCommon => MessageKind::NoCommon,
        Message::Busy => MessageKind::Busy,
        Message::Ready { .. } => MessageKind::Ready,
        Message::Pong { .. } => MessageKind::Pong,
        Message::Data { .. } => MessageKind::Data,
        Message::Part { .. } => MessageKind::Part,
        Message::Failed { .. } => MessageKind::Failed,
    }
}

/// Returns the kind of `frame`.
fn kind_of(frame: &Frame) -> FrameKind
    ensures kind { result ≡ kind_of frame.now }
{
    match frame {
        Frame::Take { .. } => FrameKind::Take,
        Frame::Ask(_) => FrameKind::Ask,
        Frame::Empty => FrameKind::Empty,
        Frame::Post { .. } => FrameKind::Post,
        Frame::Posted => FrameKind::Posted,
        Frame::Ended => FrameKind::Ended,
        Frame::Stale { .. } => FrameKind::Stale,
        Frame::NotAsked => FrameKind::NotAsked,
        Frame::Claim { .. } => FrameKind::Claim,
        Frame::Claimed { .. } => FrameKind::Claimed,
        Frame::Unanswered { .. } => FrameKind::Unanswered,
        Frame::LastGeneration => FrameKind::LastGeneration,
        Frame::Mount => FrameKind::Mount,
        Frame::Mounted { .. } => FrameKind::Mounted,
        Frame::Seated => FrameKind::Seated,
        Frame::Attach(_) => FrameKind::Attach,
        Frame::Attached(_) => FrameKind::Attached,
        Frame::Takeover(message) => FrameKind::Takeover(message_kind(message)),
    }
}

/// Returns the length of the body of `message`.
#[tactic(auto, using(crate::proofs::Written::lengths))]
fn message_len(message: &Message) -> usize
    ensures len { result ≡ length (message_body message.now) }
{
    match message {
        Message::Offer(versions) => 1 + 2 * versions.as_slice().len(),
        Message::Choice { .. } => 4 + 2,
        Message::NoCommon | Message::Busy => 0,
        Message::Ready { .. } => 4 + 8,
        Message::Pong { .. } | Message::Failed { .. } => 4,
        Message::Data { bytes, .. } => 4 + 8 + bytes.as_slice().len(),
        Message::Part { bytes, .. } => 4 + 8 + 4 + 4 + bytes.as_slice().len(),
    }
}

/// Returns the length of the body of `frame`.
#[tactic(auto, using(crate::proofs::Written::lengths))]
fn body_len(frame: &Frame) -> usize
    ensures len { result ≡ length (body_of frame.now) }
{
    match frame {
        Frame::Ask(request) => request.as_slice().len(),
        Frame::Post { reply, .. } => 8 + reply.as_slice().len(),
        Frame::Empty
        | Frame::Posted
        | Frame::Ended
        | Frame::NotAsked
        | Frame::LastGeneration
        | Frame::Mount
        | Frame::Seated => 0,
        Frame::Take { .. }
        | Frame::Stale { .. }
        | Frame::Claim { .. }
        | Frame::Claimed { .. }
        | Frame::Unanswered { .. }
        | Frame::Mounted { .. }
        | Frame::Attach(_)
        | Frame::Attached(_) => 8,
        Frame::Takeover(message) => message_len(message),
    }
}

/// Appends `versions` to `out`, in their order.
#[tactic(auto, using(byte_codec::proofs::WriteLemmas::fields_written))]
fn put_each(out: &mut Vec<u8>, versions: &[u16])
    requires room { HasRoom out.old (length (flat_map version_text versions.now)) }
    ensures text { Puts out.old out.new (flat_map version_text versions.now) }
    ensures fits { All FitsVersion versions.now }
{
    for version in versions {
        put_u16(out, *version);
    }
}

/// Appends the body of `message` to `out`.
#[tactic(auto, using(crate::proofs::Written::written), unfolding(byte_codec::specs::Field::byte_text))]
fn put_message(out: &mut Vec<u8>, message: &Message)
    requires room { HasRoom out.old (length (message_body message.now)) }
    ensures text { Puts out.old out.new (message_body message.now) }
    ensures fits { FitsMessage message.now }
{
    match message {
        Message::Offer(versions) => {
            let versions = versions.as_slice();
            put_byte(out, versions.len() as u8);
            put_each(out, versions);
        }
        Message::Choice { session, version } => {
            put_u32(out, *session);
            put_u16(out, *version);
        }
        Message::NoCommon | Message::Busy => {}
        Message::Ready {
            session,
            generation,
        } => {
            put_u32(out, *session);
            put_u64(out, *generation);
        }
        Message::Pong { session } | Message::Failed { session } => put_u32(out, *session),
        Message::Data {
            session,
            generation,
            bytes,
        } => {
            put_u32(out, *session);
            put_u64(out, *generation);
            put_slice(out, bytes.as_slice());
        }
        Message::Part {
            session,
            generation,
            position,
            count,
            bytes: part,
        } => {
            put_u32(out, *session);
            put_u64(out, *generation);
            put_u32(out, *position);
            put_u32(out, *count);
            put_slice(out, part.as_slice());
        }
    }
}

/// Appends the body of `frame` to `out`.
#[tactic(auto, using(crate::proofs::Written::written))]
fn put_body(out: &mut Vec<u8>, frame: &Frame)
    requires room { HasRoom out.old (length (body_of frame.now)) }
    ensures text { Puts out.old out.new (body_of frame.now) }
    ensures fits { Fits frame.now }
{
    match frame {
        Frame::Take { generation }
        | Frame::Claim { generation }
        | Frame::Claimed { generation }
        | Frame::Mounted { generation } => put_u64(out, *generation),
        Frame::Ask(request) => put_slice(out, request.as_slice()),
        Frame::Post { generation, reply } => {
            put_u64(out, *generation);
            put_slice(out, reply.as_slice());
        }
        Frame::Stale { now } => put_u64(out, *now),
        Frame::Unanswered { asks } => put_u64(out, *asks),
        Frame::Attach(daemon) | Frame::Attached(daemon) => put_u64(out, daemon.0),
        Frame::Takeover(message) => put_message(out, message),
        Frame::Empty
        | Frame::Posted
        | Frame::Ended
        | Frame::NotAsked
        | Frame::LastGeneration
        | Frame::Mount
        | Frame::Seated => {}
    }
}

/// Appends the whole text of `frame` to `out`. `len` is the length of the body.
#[tactic(auto, using(crate::proofs::Written::written), unfolding(byte_codec::specs::Field::byte_text))]
fn put_frame(out: &mut Vec<u8>, len: u32, frame: &Frame)
    requires len { len ≡ length (body_of frame.now) }
    requires room { HasRoom out.old (length (framed (kind_of frame.now) (body_of frame.now))) }
    ensures text { Puts out.old out.new (framed (kind_of frame.now) (body_of frame.now)) }
    ensures fits { Fits frame.now }
{
    put_u32(out, len);
    put_byte(out, kind_of(frame).number());
    put_body(out, frame);
}

impl Frame {
    /// Writes the text of the frame. Memory is taken once, only for this text.
    pub fn write(&self, alloc: Global) -> Result<Vec<u8>, FrameFault>
        ensures text { IfOk result (λ bytes. frame_text self.now ≡ Some bytes.items) }
        ensures read_again { IfOk result (λ bytes. (rest : List ℕ) → said (bytes.items ++ rest) ≡ First self.now rest) }
        ensures refused { IfErr result (IsNotWritten self.now) }
    {
        let mut text = Vec::new(alloc);
        match self.write_to(&mut text) {
            Ok(()) => Ok(text),
            Err(fault) => Err(fault),
        }
    }

    /// Writes the text of the frame in place of what `text` has, and takes memory only where that lacks room for it.
    /// After a fault `text` is empty.
    #[tactic(auto, using(crate::proofs::Written::lengths, crate::proofs::StreamLaws::framed_again))]
    pub fn write_to(&self, text: &mut Vec<u8>) -> Result<(), FrameFault>
        ensures text { OnOk result (frame_text self.now ≡ Some text.new.items) }
        ensures read_again { OnOk result ((rest : List ℕ) → said (text.new.items ++ rest) ≡ First self.now rest) }
        ensures refused { IfErr result (IsNotWritten self.now) }
        ensures empty { OnErr result (text.new.items ≡ []) }
        ensures in_room { HasRoomFor self.now text.old → IfErr result IsNotMemory }
        ensures capacity { vec_capacity text.old ≤ vec_capacity text.new }
    {
        text.clear();
        let len = body_len(self);
        if len > LONGEST_BODY {
            return Err(FrameFault::TooLong);
        }
        if text.reserve(BEFORE_BODY + len).is_err() {
            return Err(FrameFault::NoMemory);
        }
        put_frame(text, len as u32, self);
        Ok(())
    }
}

/// Appends the text of a `Post` to `text`. `len` is the length of the body.
#[tactic(auto, using(crate::proofs::Written::written), unfolding(byte_codec::specs::Field::byte_text))]
fn put_post(text: &mut Vec<u8>, len: u32, generation: u64, head: &[u8], rest: &[u8])
    requires len { len ≡ length (body_of (APost generation (head.now ++ rest.now))) }
    requires room { HasRoom text.old (length (framed kinds.Post (body_of (APost generation (head.now ++ rest.now))))) }
    ensures text { Puts text.old text.new (framed kinds.Post (body_of (APost generation (head.now ++ rest.now)))) }
    ensures fits { Fits (APost generation (head.now ++ rest.now)) }
{
    put_u32(text, len);
    put_byte(text, FrameKind::Post.number());
    put_u64(text, generation);
    put_slice(text, head);
    put_slice(text, rest);
}

/// Writes the text of the `Post` of a reply at `generation`, as `Frame::write_to` does. The reply is the bytes of `head` and
/// then those of `rest`.
#[tactic(auto, using(crate::proofs::Written::lengths))]
pub fn write_post_to(
    text: &mut Vec<u8>,
    generation: u64,
    head: &[u8],
    rest: &[u8],
) -> Result<(), FrameFault>
    ensures text { OnOk result (frame_text (APost generation (head.now ++ rest.now)) ≡ Some text.new.items) }
    ensures refused { IfErr result (IsNotWritten (APost generation (head.now ++ rest.now))) }
    ensures empty { OnErr result (text.new.items ≡ []) }
    ensures in_room { HasRoomFor (APost generation (head.now ++ rest.now)) text.old → IfErr result IsNotMemory }
    ensures capacity { vec_capacity text.old ≤ vec_capacity text.new }
{
    text.clear();
    let most = LONGEST_BODY - GENERATION;
    if head.len() > most || rest.len() > most - head.len() {
        return Err(FrameFault::TooLong);
    }
    let len = GENERATION + head.len() + rest.len();
    if text.reserve(BEFORE_BODY + len).is_err() {
        return Err(FrameFault::NoMemory);
    }
    put_post(text, len as u32, generation, head, rest);
    Ok(())
}
