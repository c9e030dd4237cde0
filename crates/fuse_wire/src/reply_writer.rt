//! Replies as bytes.
ghost use Rattle.std.specs.Prelude.{◌<◌, ◌^◌, ◌≡◌, ◌++◌, ◌≤◌, ◌+◌, Ok, true, length, take, drop};
ghost use Rattle.fuse_wire.specs.ReplyReading.{reply_of};
ghost use Rattle.fuse_wire.specs.ReplyText.{attributes, buffer_of, entry, error_field, head_payload, is_fixed, payload, reply_head, reply_header, reply_text, FitsAnswer, FitsAttr, FitsReply};
ghost use Rattle.fuse_wire.specs.Writing.{HasRoom, Puts};

use crate::errno::error_field;
use crate::layout::{
    ATTR_VALID_LEN, ATTRIBUTES_LEN, BLOCK_SIZE, BLOCKS_AND_TIMES_LEN, ENTRY_LEN, FLAGS_LEN,
    OPEN_LEN, OPENED_REPLY_LEN, OWNERS_LEN, REPLY_HEADER_LEN, VALID_LEN,
};
use crate::mode::mode_of;
use crate::writer::MessageWriter;
use crate::{Answer, Reply};
use eden_base::{Attr, Number};

/// The length of the longest head of a reply, whose answer is `Answer::Opened`.
pub const MAX_REPLY_LEN: usize = OPENED_REPLY_LEN;

/// Writes the head of `reply` at the front of `out`, and returns its length. The bytes after it are unchanged. The head
/// is the whole reply, but for the bytes of its buffer, which follow if the answer has one. An extent has no bytes of
/// its own: its reply is that of EIO.
#[tactic(auto, using(crate::proofs::Written::written))]
pub fn write_reply(reply: &Reply, out: &mut [u8; MAX_REPLY_LEN]) -> usize
    ensures head { out.new ≡ reply_head reply.now ++ drop result out.old }
    ensures len { result ≡ length (reply_head reply.now) }
    ensures whole { reply_text reply.now ≡ reply_head reply.now ++ buffer_of reply.now.answer }
    ensures fits { FitsReply reply.now }
    ensures read_again { is_fixed reply.now.answer ≡ true → reply_of (take result out.new) ≡ Ok reply.now }
{
    let head_len = REPLY_HEADER_LEN + head_payload_len(&reply.answer);
    let len = head_len + reply.answer.buffer().len();
    let mut fields = MessageWriter::new(out);
    put_header(&mut fields, len as u32, reply);
    put_payload(&mut fields, &reply.answer);
    head_len
}

impl Answer {
    /// Returns the bytes of a buffer. Any other answer has none.
    pub fn buffer(&self) -> &[u8]
        ensures bytes { result.now ≡ buffer_of self.now }
        ensures at_most { length result.now ≤ 65512 }
    {
        match self {
            Answer::Buffer(buffer) => buffer.as_slice(),
            _ => &[],
        }
    }
}

/// Writes the header (`struct fuse_out_header`).
#[tactic(auto, using(crate::proofs::Written::written))]
fn put_header(fields: &mut MessageWriter, len: u32, reply: &Reply)
    requires { HasRoom fields.old 16 }
    ensures header { Puts fields.old fields.new
        (reply_header len (error_field reply.now.answer) reply.now.unique) }
    ensures fits { reply.now.unique < 2 ^ 64 }
{
    fields.put_u32(len);
    fields.put_i32(error_field(&reply.answer));
    fields.put_u64(reply.unique);
}

/// Returns how many bytes follow the header in the head of a reply with this answer.
#[tactic(auto, using(crate::proofs::Lengths::lengths))]
fn head_payload_len(answer: &Answer) -> usize
    ensures len { result ≡ length (head_payload answer.now) }
    ensures whole { length (payload answer.now) ≡ result + length (buffer_of answer.now) }
    ensures at_most { result ≤ 144 }
{
    match answer {
        Answer::Entry { .. } => ENTRY_LEN,
        Answer::Opened { .. } => ENTRY_LEN + OPEN_LEN,
        Answer::Attrs { .. } => ATTR_VALID_LEN + ATTRIBUTES_LEN,
        Answer::Done | Answer::Buffer(_) | Answer::Extent(_) | Answer::Error(_) => 0,
    }
}

/// Writes what follows the header in the head of a reply with this answer.
#[tactic(auto, using(crate::proofs::Written::written))]
fn put_payload(fields: &mut MessageWriter, answer: &Answer)
    requires { HasRoom fields.old (length (head_payload answer.now)) }
    ensures payload { Puts fields.old fields.new (head_payload answer.now) }
    ensures fits { FitsAnswer answer.now }
{
    match answer {
        Answer::Entry { number, attr } => put_entry(fields, *number, attr),
        Answer::Opened { number, attr } => {
            put_entry(fields, *number, attr);
            fields.put_zeros(OPEN_LEN);
        }
        Answer::Attrs { number, attr } => {
            fields.put_zeros(ATTR_VALID_LEN);
            put_attributes(fields, *number, attr);
        }
        Answer::Done | Answer::Buffer(_) | Answer::Extent(_) | Answer::Error(_) => {}
    }
}

/// Writes a `struct fuse_entry_out`: a number, and its attributes, which the kernel may not cache.
#[tactic(auto, using(crate::proofs::Written::written))]
fn put_entry(fields: &mut MessageWriter, number: Number, attr: &Attr)
    requires { HasRoom fields.old 128 }
    ensures entry { Puts fields.old fields.new (entry number attr.now) }
    ensures fits { FitsAttr number attr.now }
{
    fields.put_u64(number.0);
    fields.put_zeros(VALID_LEN);
    put_attributes(fields, number, attr);
}

/// Writes a `struct fuse_attr`: a number and its attributes.
#[tactic(auto, using(crate::proofs::Written::written))]
fn put_attributes(fields: &mut MessageWriter, number: Number, attr: &Attr)
    requires { HasRoom fields.old 88 }
    ensures attributes { Puts fields.old fields.new (attributes number attr.now) }
    ensures fits { FitsAttr number attr.now }
{
    fields.put_u64(number.0);
    fields.put_u64(attr.size);
    fields.put_zeros(BLOCKS_AND_TIMES_LEN);
    fields.put_u32(mode_of(attr.kind, attr.perm));
    fields.put_u32(attr.nlink);
    fields.put_zeros(OWNERS_LEN);
    fields.put_u32(BLOCK_SIZE);
    fields.put_zeros(FLAGS_LEN);
}
