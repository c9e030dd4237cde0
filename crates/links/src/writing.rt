//! Frames, written to a writer.
ghost use Rattle.std.specs.Prelude.{◌≡◌, ◌<◌, ◌≤◌, [], ◌++◌, length, take, vec_capacity, OnOk, OnErr, IfOk, IfErr};
ghost use Rattle.std.specs.Io.KnownBytes.{Appends};
ghost use Rattle.frames.specs.declared.fault.FrameFault.TheVariants.{Write as WriteFault};
ghost use Rattle.frames.specs.declared.frame.Frame.TheVariants.{Post as APost};
ghost use Rattle.frames.specs.FrameText.{HasRoomFor, IsNotMemory};
ghost use Rattle.links.specs.Writing.{Cuts, Writes};

use crate::{Frame, FrameFault};
use frames::write_post_to;
use std::alloc::Global;
use std::io::{ErrorKind, Write};

/// The greatest count of writes for one frame. A write that was interrupted counts.
pub const MAX_WRITES: usize = 131_072;

/// Makes one write, and returns how many bytes the writer took: 0 if the write was interrupted.
#[tactic(auto, using(crate::proofs::WritingLaws::nothing_written))]
fn write_once<W: Write>(writer: &mut W, bytes: &[u8]) -> Result<usize, FrameFault>
    ensures within { IfOk result (λ count. count ≤ length bytes.now) }
    ensures written { IfOk result (λ count. Appends (W.contents writer.old) (W.contents writer.new)
        (take count bytes.now)) }
    ensures refused { IfErr result (λ fault. fault ≡ WriteFault) }
    ensures kept { OnErr result (Appends (W.contents writer.old) (W.contents writer.new) []) }
{
    match writer.write(bytes) {
        Ok(0) => Err(FrameFault::Write),
        Ok(count) => Ok(count),
        Err(error) if error.kind() == ErrorKind::Interrupted => Ok(0),
        Err(_) => Err(FrameFault::Write),
    }
}

/// Writes `bytes`, in one write if the writer takes them all.
#[tactic(auto, using(crate::proofs::WritingLaws::text_cut, crate::proofs::WritingLaws::text_grown, crate::proofs::WritingLaws::text_whole))]
fn write_bytes<W: Write>(writer: &mut W, bytes: &[u8]) -> Result<(), FrameFault>
    requires some { 0 < length bytes.now }
    ensures whole { OnOk result (Appends (W.contents writer.old) (W.contents writer.new) bytes.now) }
    ensures refused { IfErr result (λ fault. fault ≡ WriteFault) }
    ensures cut { OnErr result (Cuts (W.contents writer.old) (W.contents writer.new) bytes.now) }
{
    let mut written = 0;
    for _ in 0..MAX_WRITES {
        match write_once(writer, &bytes[written..]) {
            Ok(count) => written += count,
            Err(fault) => return Err(fault),
        }
        if written == bytes.len() {
            return Ok(());
        }
    }
    Err(FrameFault::Write)
}

/// Writes the text of a frame, in one write if the writer takes it all. Takes memory for the text only, and flushes
/// nothing. After a fault of the writer, close the connection, since a part of the text may be out.
pub fn write_frame<W: Write>(alloc: Global, writer: &mut W, frame: &Frame) -> Result<(), FrameFault>
    ensures writes { Writes (W.contents writer.old) (W.contents writer.new) frame.now result }
{
    match frame.write(alloc) {
        Ok(text) => write_bytes(writer, text.as_slice()),
        Err(fault) => Err(fault),
    }
}

/// Writes `frame` as `write_frame` does, by way of `text`, whose bytes it replaces. Takes memory only where the capacity
/// of `text` doesn't suffice.
pub fn write_frame_to<W: Write>(
    writer: &mut W,
    text: &mut Vec<u8>,
    frame: &Frame,
) -> Result<(), FrameFault>
    ensures writes { Writes (W.contents writer.old) (W.contents writer.new) frame.now result }
    ensures in_room { HasRoomFor frame.now text.old → IfErr result IsNotMemory }
    ensures capacity { vec_capacity text.old ≤ vec_capacity text.new }
{
    match frame.write_to(text) {
        Ok(()) => write_bytes(writer, text.as_slice()),
        Err(fault) => Err(fault),
    }
}

/// Writes the Post of a reply at `generation` as `write_frame_to` does. The reply is the bytes of `head` and then those of
/// `rest`.
pub(crate) fn write_post<W: Write>(
    writer: &mut W,
    text: &mut Vec<u8>,
    generation: u64,
    head: &[u8],
    rest: &[u8],
) -> Result<(), FrameFault>
    ensures writes { Writes (W.contents writer.old) (W.contents writer.new)
        (APost generation (head.now ++ rest.now)) result }
    ensures in_room { HasRoomFor (APost generation (head.now ++ rest.now)) text.old → IfErr result IsNotMemory }
    ensures capacity { vec_capacity text.old ≤ vec_capacity text.new }
{
    match write_post_to(text, generation, head, rest) {
        Ok(()) => write_bytes(writer, text.as_slice()),
        Err(fault) => Err(fault),
    }
}
