//! Memory for the frames of a channel, taken before the first of them.
ghost use Rattle.std.specs.Prelude.{◌≡◌, IfErr};
ghost use Rattle.frames.specs.declared.frame.Frame.TheVariants.{Take as ATake, Post as APost};
ghost use Rattle.frames.specs.FrameText.{IsNotMemory};
ghost use Rattle.fuse_wire.specs.ReplyText.{reply_text};
ghost use Rattle.links.specs.Reading.{GivesAnswer, Took};
ghost use Rattle.links.specs.Writing.{Writes};

use crate::reading::read_answer;
use crate::writing::{write_frame_to, write_post};
use crate::{Frame, FrameFault};
use eden_base::NoMemory;
use frames::BrokerAnswer;
use fuse_wire::{Buffer, MAX_REPLY_LEN, MAX_REQUEST_LEN, Reply, write_reply};
use std::alloc::Global;
use std::io::{Read, Write};
use std::marker::Model;

/// The greatest length of a text that the broker and the daemon of the seat send each other: that of an Ask.
pub const MAX_SEAT_TEXT: usize = 5 + MAX_REQUEST_LEN;

/// How many bytes stand before the reply in the text of a Post.
const BEFORE_REPLY: usize = 13;

/// How many bytes a reply has at most: its header, of 16 bytes, and a buffer.
const LONGEST_REPLY: usize = 16 + Buffer::MAX_LEN;

/// How many bytes the body of an answer may have.
const LONGEST_BODY: usize = 65_536;

/// Room for the text of any Take or Post, and for the body of any answer. Contracts see the body that was read last.
#[derive(Drop)]
pub(crate) struct FrameRoom {
    text: Vec<u8>,
    body: Vec<u8>,
}

impl Model for FrameRoom {
    ghost use Rattle.std.specs.Prelude.{ℕ, ◌≤◌, List, vec_capacity};

    ghost Value = { List ℕ };

    ghost view = { λ room. room.body.items };

    ghost invariant = { λ room. (65541 ≤ vec_capacity room.text) × (65536 ≤ vec_capacity room.body) };
}

impl FrameRoom {
    /// Takes memory for any Take, Post and answer. What no frame reaches of it is never touched.
    pub(crate) fn new(alloc: Global) -> Result<FrameRoom, NoMemory> {
        let text = Vec::with_capacity(alloc, BEFORE_REPLY + LONGEST_REPLY)?;
        let body = Vec::with_capacity(alloc, LONGEST_BODY)?;
        Ok(FrameRoom { text, body })
    }

    /// Returns the body of the answer that was read last.
    pub(crate) fn body(&self) -> &[u8]
        ensures body { result.now ≡ self.now }
    {
        self.body.as_slice()
    }

    /// Writes a Take at `generation`.
    #[tactic(auto, using(byte_codec::proofs::WriteLemmas::field_lengths))]
    pub(crate) fn write_take<W: Write>(
        &mut self,
        writer: &mut W,
        generation: u64,
    ) -> Result<(), FrameFault>
        ensures writes { Writes (W.contents writer.old) (W.contents writer.new) (ATake generation) result }
        ensures memory { IfErr result IsNotMemory }
    {
        write_frame_to(writer, &mut self.text, &Frame::Take { generation })
    }

    /// Writes the Post of `reply` at `generation`.
    #[tactic(auto, using(byte_codec::proofs::WriteLemmas::field_lengths))]
    pub(crate) fn write_post<W: Write>(
        &mut self,
        writer: &mut W,
        generation: u64,
        reply: &Reply,
    ) -> Result<(), FrameFault>
        ensures writes { Writes (W.contents writer.old) (W.contents writer.new)
            (APost generation (reply_text reply.now)) result }
        ensures memory { IfErr result IsNotMemory }
    {
        let mut bytes = [0; MAX_REPLY_LEN];
        let len = write_reply(reply, &mut bytes);
        let head = &bytes[..len];
        write_post(
            writer,
            &mut self.text,
            generation,
            head,
            reply.answer.buffer(),
        )
    }

    /// Reads the answer to a Take or a Post, with its body into this room. Returns none if the input has ended.
    pub(crate) fn read<R: Read>(
        &mut self,
        reader: &mut R,
    ) -> Result<Option<BrokerAnswer>, FrameFault>
        ensures gives { Took (R.remaining reader.old) (R.remaining reader.new)
            (λ bytes. GivesAnswer bytes (R.remaining reader.new) self.new result) }
        ensures memory { IfErr result IsNotMemory }
    {
        read_answer(reader, &mut self.body)
    }
}
