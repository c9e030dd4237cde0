//! Replies read from their bytes, on the broker's side.
ghost use Rattle.std.specs.Prelude.{◌≡◌, ◌≢◌, ◌≤◌, ◌<◌, ◌↔◌, ◌+◌, length, drop, IfOk, IfErr, IsErrOf, IfSome, Ok, Some, None, true, false, if◌then◌else◌};
ghost use Rattle.fuse_wire.specs.Field.{i32_at, u32_at, u64_at};
ghost use Rattle.fuse_wire.specs.Form.{belongs};
ghost use Rattle.fuse_wire.specs.declared.form.Form.TheVariants.{ABuffer};
ghost use Rattle.fuse_wire.specs.ReplyText.{is_buffer, is_fixed, reply_text, FitsReply};
ghost use Rattle.fuse_wire.specs.ReplyReading.{answer_at, attr_at, buffer_reply_of, if_spelled, is_success, number_at, reply_of, unique_in, IsReplyFault};

use crate::errno::errno_of;
use crate::layout::{
    ATTRS_REPLY_ATTRIBUTES, ATTRS_REPLY_LEN, BLOCKS_AND_TIMES_LEN, DONE_REPLY_LEN,
    ENTRY_REPLY_ATTRIBUTES, ENTRY_REPLY_LEN, OPENED_REPLY_LEN, REPLY_HEADER_LEN, UNIQUE,
};
use crate::reader::Reader;
use crate::{Answer, Buffer, MAX_REPLY_LEN, Reply, WireFault, mode, write_reply};
use byte_codec::Bytes;
use byteorder::{ByteOrder, LittleEndian};
use eden_base::{Attr, Number};

/// Returns the unique in the header of a reply, or none if `bytes` are fewer than a header.
pub fn unique_of(bytes: &[u8]) -> Option<u64>
    ensures unique { result ≡ unique_in bytes.now }
{
    if bytes.len() < REPLY_HEADER_LEN {
        return None;
    }
    let mut fields = Reader::new(bytes);
    fields.skip(UNIQUE);
    Some(fields.u64())
}

/// Reads the reply to an ask whose answer is a buffer, or bytes of a file. They stay in the memory of `bytes`, so none
/// is taken.
pub fn read_buffer_reply(bytes: Bytes) -> Result<Reply, WireFault>
    ensures exact { result ≡ buffer_reply_of bytes }
    ensures only { (reply : Reply) → belongs ABuffer reply.answer ≡ true → FitsReply reply
        → bytes ≡ reply_text reply → result ≡ Ok reply }
{
    read_buffer(bytes)
}

/// Reads a reply as `read_buffer_reply` does.
fn read_buffer(bytes: Bytes) -> Result<Reply, WireFault>
    ensures { result ≡ buffer_reply_of bytes }
{
    let Some(unique) = success_of(bytes.as_slice()) else {
        return read_reply(bytes.as_slice());
    };
    let Some(buffer) = Buffer::of(bytes.after(REPLY_HEADER_LEN)) else {
        unreachable!()
    };
    Ok(Reply {
        unique,
        answer: Answer::Buffer(buffer),
    })
}

/// Returns the unique of a reply that has no error and any bytes behind its header, if `bytes` are one.
fn success_of(bytes: &[u8]) -> Option<u64>
    ensures unique { result ≡ (if is_success bytes.now then Some (u64_at (drop 8 bytes.now)) else None) }
{
    if bytes.len() < REPLY_HEADER_LEN || bytes.len() > REPLY_HEADER_LEN + Buffer::MAX_LEN {
        return None;
    }
    let mut fields = Reader::new(bytes);
    let len = fields.u32() as usize;
    let error = fields.u32();
    let unique = fields.u64();
    if len != bytes.len() || error != 0 {
        return None;
    }
    Some(unique)
}

/// Reads a reply whose answer is no buffer, without taking memory. Bytes of the right length that are not what
/// `write_reply` writes are `BadBody`.
pub fn read_reply(bytes: &[u8]) -> Result<Reply, WireFault>
    ensures text { IfOk result (λ reply. bytes.now ≡ reply_text reply) }
    ensures only { (reply : Reply) → is_fixed reply.answer ≡ true → FitsReply reply
        → bytes.now ≡ reply_text reply → result ≡ Ok reply }
    ensures short { IsErrOf result WireFault.Short ↔ (length bytes.now < 16) }
    ensures bad_length { IsErrOf result WireFault.BadLength
        ↔ ((16 ≤ length bytes.now) × (u32_at bytes.now ≢ length bytes.now)) }
    ensures no_others { IfErr result IsReplyFault }
    // The result for any bytes, with the exact fault.
    ensures exact { result ≡ reply_of bytes.now }
{
    read_spelled(bytes)
}

/// Reads a reply as `read_reply` does: first the header, and then the answer.
#[tactic(auto, unfolding(crate::specs::ReplyReading::reply_of))]
fn read_spelled(bytes: &[u8]) -> Result<Reply, WireFault>
    ensures { result ≡ reply_of bytes.now }
{
    if bytes.len() < REPLY_HEADER_LEN {
        return Err(WireFault::Short);
    }
    let mut fields = Reader::new(bytes);
    if fields.u32() as usize != bytes.len() {
        return Err(WireFault::BadLength);
    }
    let error = fields.i32();
    let unique = fields.u64();
    let Some(answer) = answer_of(error, bytes) else {
        return Err(WireFault::BadBody);
    };
    if_spelled(Reply { unique, answer }, bytes)
}

impl Reader<'_> {
    /// Reads a signed field of four bytes.
    #[tactic(auto, unfolding(crate::specs::Field::i32_at, crate::specs::Field::u32_at))]
    fn i32(&mut self) -> i32
        requires { self.old.at + 4 ≤ length self.old.bytes.now }
        ensures value { result ≡ i32_at (drop self.old.at self.old.bytes.now) }
        ensures bytes { self.new.bytes.now ≡ self.old.bytes.now }
        ensures at { self.new.at ≡ self.old.at + 4 }
    {
        let value = LittleEndian::read_i32(&self.bytes[self.at..]);
        self.at += 4;
        value
    }
}

/// Returns `reply`, which has no buffer, if `bytes` are its text, else `BadBody`.
#[tactic(auto, using(crate::proofs::Lengths::lengths))]
fn if_spelled(reply: Reply, bytes: &[u8]) -> Result<Reply, WireFault>
    requires fixed { is_buffer reply.answer ≡ false }
    ensures { result ≡ if_spelled reply bytes.now }
{
    let mut text = [0u8; MAX_REPLY_LEN];
    let len = write_reply(&reply, &mut text);
    if bytes != &text[..len] {
        return Err(WireFault::BadBody);
    }
    Ok(reply)
}

/// Returns the only answer that a reply with this `error` and these `bytes` can have, or none if there is no such
/// answer.
#[tactic(auto, unfolding(crate::specs::ReplyReading::answer_at))]
fn answer_of(error: i32, bytes: &[u8]) -> Option<Answer>
    ensures answer { result ≡ answer_at error bytes.now }
    ensures fixed { IfSome result (λ answer. is_buffer answer ≡ false) }
{
    if error != 0 {
        return errno_of(error).map(Answer::Error);
    }
    match bytes.len() {
        DONE_REPLY_LEN => Some(Answer::Done),
        ATTRS_REPLY_LEN => {
            let (number, attr) = attributes_at(bytes, ATTRS_REPLY_ATTRIBUTES);
            Some(Answer::Attrs { number, attr })
        }
        ENTRY_REPLY_LEN => {
            let (number, attr) = attributes_at(bytes, ENTRY_REPLY_ATTRIBUTES);
            Some(Answer::Entry { number, attr })
        }
        OPENED_REPLY_LEN => {
            let (number, attr) = attributes_at(bytes, ENTRY_REPLY_ATTRIBUTES);
            Some(Answer::Opened { number, attr })
        }
        _ => None,
    }
}

/// Returns the number and the attributes in the `struct fuse_attr` at `offset`. Constant fields are skipped.
#[tactic(auto, unfolding(crate::specs::ReplyReading::attr_at))]
fn attributes_at(bytes: &[u8], offset: usize) -> (Number, Attr)
    requires { offset + 88 ≤ length bytes.now }
    ensures number { result.0 ≡ number_at (drop offset bytes.now) }
    ensures attr { result.1 ≡ attr_at (drop offset bytes.now) }
{
    let (_, attributes) = bytes.split_at(offset);
    let mut fields = Reader::new(attributes);
    let number = Number(fields.u64());
    let size = fields.u64();
    fields.skip(BLOCKS_AND_TIMES_LEN);
    let mode = fields.u32();
    let nlink = fields.u32();
    let attr = Attr {
        kind: mode::kind_of(mode),
        perm: mode::perm_of(mode),
        size,
        nlink,
    };
    (number, attr)
}
