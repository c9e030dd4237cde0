//! Frames, read from a reader.
ghost use Rattle.std.specs.Prelude.{◌≡◌, ◌<◌, ◌≤◌, ◌++◌, Ok, length, take, vec_capacity, IfOk, IfErr, OnOk};
ghost use Rattle.std.specs.Io.KnownBytes.{Consumes, IsAtEnd};
ghost use Rattle.frames.specs.declared.fault.FrameFault.TheVariants.{Read as ReadFault};
ghost use Rattle.frames.specs.FrameText.{IsNotMemory};
ghost use Rattle.frames.specs.Lacking.{lacking};
ghost use Rattle.links.specs.Reading.{AnswersBehind, Gives, GivesAnswer, GivesBehind, GivesHead, GivesKind, GivesKnown, IsFault, Took};

use crate::{Frame, FrameFault};
use frames::{BrokerAnswer, missing};
use std::alloc::Global;
use std::io::{ErrorKind, Read};

/// The greatest count of reads for one frame. A read that was interrupted counts.
pub const MAX_READS: usize = 131_072;

/// How many bytes tell the length of a body.
const LENGTH: usize = 4;

/// How many bytes stand before a body.
const HEAD: usize = 5;

/// Reads until `room` has at least `enough` bytes or the input ends, and returns how many bytes it has. Makes at most
/// `left` reads, and lowers `left` by 1 for each.
#[tactic(auto, using(crate::proofs::ReadingLaws::room_read, crate::proofs::ReadingLaws::room_same))]
fn fill<R: Read>(
    reader: &mut R,
    room: &mut [u8],
    enough: usize,
    left: &mut usize,
) -> Result<usize, FrameFault>
    requires some { 0 < enough }
    requires room { enough ≤ length room.old }
    ensures within { IfOk result (λ count. count ≤ length room.new) }
    ensures filled { IfOk result (λ count. Consumes (R.remaining reader.old) (R.remaining reader.new)
        (take count room.new)) }
    ensures end { IfOk result (λ count. count < enough → IsAtEnd (R.remaining reader.new)) }
    ensures refused { IfErr result (λ fault. (fault ≡ ReadFault)
        × Took (R.remaining reader.old) (R.remaining reader.new) (λ bytes. length bytes < enough)) }
{
    let mut held = 0;
    while *left > 0 {
        *left -= 1;
        match reader.read(&mut room[held..]) {
            Ok(0) => return Ok(held),
            Ok(count) => {
                held += count;
                if held >= enough {
                    return Ok(held);
                }
            }
            Err(error) if error.kind() == ErrorKind::Interrupted => {}
            Err(_) => return Err(FrameFault::Read),
        }
    }
    Err(FrameFault::Read)
}

/// Reads the kind after a length that was read, and returns the length of the body.
#[tactic(auto, using(crate::proofs::ReadingLaws::head_fault, crate::proofs::ReadingLaws::head_not_memory, crate::proofs::ReadingLaws::kind_fault, crate::proofs::ReadingLaws::kind_torn))]
fn read_kind<R: Read>(
    reader: &mut R,
    head: &mut [u8],
    left: &mut usize,
) -> Result<usize, FrameFault>
    requires five { length head.old ≡ 5 }
    ensures kind { GivesKind (take 4 head.old) (R.remaining reader.old) (R.remaining reader.new)
        head.new result }
    ensures memory { IfErr result IsNotMemory }
{
    missing(&head[..LENGTH])?;
    match fill(reader, &mut head[LENGTH..], 1, left) {
        Ok(0) => return Err(FrameFault::Torn),
        Ok(_) => {}
        Err(_fault) => return Err(FrameFault::Read),
    }
    missing(head)
}

/// Reads a head, and returns the length of the body after it, or none if the input ends before the head.
#[tactic(auto, using(crate::proofs::ReadingLaws::few_fault, crate::proofs::ReadingLaws::head_not_memory, crate::proofs::ReadingLaws::head_torn, crate::proofs::ReadingLaws::joined_fault, crate::proofs::ReadingLaws::joined_head))]
fn read_head<R: Read>(
    reader: &mut R,
    head: &mut [u8],
    left: &mut usize,
) -> Result<Option<usize>, FrameFault>
    requires five { length head.old ≡ 5 }
    ensures head { GivesHead (R.remaining reader.old) (R.remaining reader.new) head.new result }
    ensures memory { IfErr result IsNotMemory }
{
    let Ok(held) = fill(reader, head, LENGTH, left) else {
        return Err(FrameFault::Read);
    };
    if held == 0 {
        return Ok(None);
    }
    if held < LENGTH {
        return Err(FrameFault::Torn);
    }
    if held == LENGTH {
        return Ok(Some(read_kind(reader, head, left)?));
    }
    Ok(Some(missing(head)?))
}

/// Reads the `len` bytes after `head` into `body`, in place of what that has. Takes memory only where the capacity of
/// `body` doesn't suffice.
#[tactic(auto, using(crate::proofs::ReadingLaws::body_fault, crate::proofs::ReadingLaws::body_torn, crate::proofs::ReadingLaws::body_unread))]
fn fill_body<R: Read>(
    reader: &mut R,
    head: &[u8],
    len: usize,
    left: &mut usize,
    body: &mut Vec<u8>,
) -> Result<(), FrameFault>
    requires five { length head.now ≡ 5 }
    requires len { lacking head.now ≡ Ok len }
    ensures whole { OnOk result (length body.new.items ≡ len) }
    ensures filled { OnOk result (Consumes (R.remaining reader.old) (R.remaining reader.new) body.new.items) }
    ensures behind { IfErr result (λ fault. Took (R.remaining reader.old) (R.remaining reader.new)
        (λ bytes. IsFault (head.now ++ bytes) (R.remaining reader.new) fault)) }
    ensures in_room { len ≤ vec_capacity body.old → IfErr result IsNotMemory }
    ensures capacity { vec_capacity body.old ≤ vec_capacity body.new }
{
    if len == 0 {
        body.clear();
        return Ok(());
    }
    if body.resize(len, 0).is_err() {
        return Err(FrameFault::NoMemory);
    }
    let Ok(held) = fill(reader, body.as_mut_slice(), len, left) else {
        return Err(FrameFault::Read);
    };
    if held < len {
        return Err(FrameFault::Torn);
    }
    Ok(())
}

/// Reads the body after `head` into `room` by at most `left` reads, and returns the frame.
#[tactic(auto, using(crate::proofs::ReadingLaws::bad_not_memory))]
fn read_body<R: Read>(
    reader: &mut R,
    head: &[u8],
    len: usize,
    left: &mut usize,
    room: &mut Vec<u8>,
) -> Result<Frame, FrameFault>
    requires five { length head.now ≡ 5 }
    requires len { lacking head.now ≡ Ok len }
    ensures behind { GivesBehind head.now (R.remaining reader.old) (R.remaining reader.new) result }
    ensures in_room { len ≤ vec_capacity room.old → IfErr result IsNotMemory }
{
    match fill_body(reader, head, len, left, room) {
        Ok(()) => Frame::of_parts(head, room),
        Err(fault) => Err(fault),
    }
}

/// Reads the head of a frame and then its body. Returns none if the input has ended.
#[tactic(auto, using(crate::proofs::ReadingLaws::joined_frame, crate::proofs::ReadingLaws::joined_fault, frames::proofs::LackingLaws::lacking_few))]
fn read_parts<R: Read>(reader: &mut R, room: &mut Vec<u8>) -> Result<Option<Frame>, FrameFault>
    ensures gives { Took (R.remaining reader.old) (R.remaining reader.new)
        (λ bytes. Gives bytes (R.remaining reader.new) result) }
    ensures in_room { 65536 ≤ vec_capacity room.old → IfErr result IsNotMemory }
{
    let mut left = MAX_READS;
    let mut head = [0; HEAD];
    match read_head(reader, &mut head, &mut left) {
        Ok(None) => Ok(None),
        Ok(Some(len)) => match read_body(reader, &head, len, &mut left, room) {
            Ok(frame) => Ok(Some(frame)),
            Err(fault) => Err(fault),
        },
        Err(fault) => Err(fault),
    }
}

/// Reads one frame, and no byte after it. Returns none if the input has ended. Makes at most 131,072 reads, and repeats
/// only a read that was interrupted. Takes memory for a body only. After a fault, close the connection, since a part of
/// a frame may be lost.
#[tactic(auto, using(crate::proofs::ReadingLaws::gives_known))]
pub fn read_frame<R: Read>(alloc: Global, reader: &mut R) -> Result<Option<Frame>, FrameFault>
    ensures gives { Took (R.remaining reader.old) (R.remaining reader.new)
        (λ bytes. Gives bytes (R.remaining reader.new) result) }
    ensures first { GivesKnown (R.remaining reader.old) (R.remaining reader.new) result }
{
    let mut room = Vec::new(alloc);
    read_parts(reader, &mut room)
}

/// Reads one frame as `read_frame` does, its body into `room`. Takes memory only for a body that is longer than the
/// capacity of `room`. A frame that keeps its body takes the memory of `room` along; any other leaves it.
#[tactic(auto, using(crate::proofs::ReadingLaws::gives_known))]
pub fn read_frame_to<R: Read>(
    reader: &mut R,
    room: &mut Vec<u8>,
) -> Result<Option<Frame>, FrameFault>
    ensures gives { Took (R.remaining reader.old) (R.remaining reader.new)
        (λ bytes. Gives bytes (R.remaining reader.new) result) }
    ensures first { GivesKnown (R.remaining reader.old) (R.remaining reader.new) result }
    ensures in_room { 65536 ≤ vec_capacity room.old → IfErr result IsNotMemory }
{
    read_parts(reader, room)
}

/// Reads the body after `head` into `body`, and returns the answer.
#[tactic(auto, using(crate::proofs::ReadingLaws::bad_behind, crate::proofs::ReadingLaws::bad_not_memory))]
fn read_answer_body<R: Read>(
    reader: &mut R,
    head: &[u8],
    len: usize,
    left: &mut usize,
    body: &mut Vec<u8>,
) -> Result<BrokerAnswer, FrameFault>
    requires five { length head.now ≡ 5 }
    requires len { lacking head.now ≡ Ok len }
    requires room { len ≤ vec_capacity body.old }
    ensures behind { AnswersBehind head.now (R.remaining reader.old) (R.remaining reader.new) body.new.items result }
    ensures memory { IfErr result IsNotMemory }
    ensures capacity { vec_capacity body.old ≤ vec_capacity body.new }
{
    match fill_body(reader, head, len, left, body) {
        Ok(()) => BrokerAnswer::of_parts(head, body.as_slice()),
        Err(fault) => Err(fault),
    }
}

/// Reads the answer to a Take or a Post, and no byte after it, with the body of its frame into `body`. Returns none if
/// the input has ended. Takes no memory. After a fault, close the connection.
#[tactic(auto, using(crate::proofs::ReadingLaws::joined_answer, crate::proofs::ReadingLaws::joined_fault, frames::proofs::LackingLaws::lacking_few))]
pub(crate) fn read_answer<R: Read>(
    reader: &mut R,
    body: &mut Vec<u8>,
) -> Result<Option<BrokerAnswer>, FrameFault>
    requires room { 65536 ≤ vec_capacity body.old }
    ensures gives { Took (R.remaining reader.old) (R.remaining reader.new)
        (λ bytes. GivesAnswer bytes (R.remaining reader.new) body.new.items result) }
    ensures memory { IfErr result IsNotMemory }
    ensures capacity { vec_capacity body.old ≤ vec_capacity body.new }
{
    let mut left = MAX_READS;
    let mut head = [0; HEAD];
    match read_head(reader, &mut head, &mut left) {
        Ok(None) => Ok(None),
        Ok(Some(len)) => match read_answer_body(reader, &head, len, &mut left, body) {
            Ok(answer) => Ok(Some(answer)),
            Err(fault) => Err(fault),
        },
        Err(fault) => Err(fault),
    }
}
