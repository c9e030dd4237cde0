//! Requests as bytes, on the broker's side.
ghost use Rattle.std.specs.Prelude.{◌<◌, ◌≤◌, ◌^◌, ◌≡◌, ◌+◌, ◌++◌, IfOk, Ok, length};
ghost use Rattle.fuse_wire.specs.Field.{zeros};
ghost use Rattle.fuse_wire.specs.Request.{code, opcode, nodeid, IsSendable};
ghost use Rattle.fuse_wire.specs.RequestBody.{body};
ghost use Rattle.fuse_wire.specs.RequestReading.{request_of};
ghost use Rattle.fuse_wire.specs.RequestText.{header, request_text, IsRequestText, FitsAsk};
ghost use Rattle.fuse_wire.specs.Writing.{HasRoom, Puts};

use crate::Ask;
use crate::header::InHeader;
use crate::layout::SENDER_LEN;
use crate::request_body::{body_len, put_body};
use crate::writer::MessageWriter;
use eden_base::NoMemory;
use std::alloc::Global;
use std::marker::Model;

/// The length of the longest request: a batch of 256 items.
pub const MAX_REQUEST_LEN: usize = 4144;

/// Room for the text of any one request, which contracts see as its capacity in bytes. `write_request_to` consumes a
/// room, and so never runs out of memory.
#[derive(Drop)]
pub struct RequestRoom {
    bytes: Vec<u8>,
}

impl Model for RequestRoom {
    ghost use Rattle.std.specs.Prelude.{◌≡◌, ℕ, ◌≤◌, vec_len, vec_capacity};

    ghost Value = { ℕ };

    ghost view = { λ room. vec_capacity room.bytes };

    ghost invariant = { λ room. (vec_len room.bytes ≡ 0) × (4144 ≤ vec_capacity room.bytes) };
}

impl RequestRoom {
    /// Takes memory for the longest request.
    pub fn new(alloc: Global) -> Result<RequestRoom, NoMemory>
        ensures for_any_request { IfOk result (λ room. 4144 ≤ room) }
    {
        match Vec::with_capacity(alloc, MAX_REQUEST_LEN) {
            Ok(bytes) => Ok(RequestRoom { bytes }),
            Err(_refused) => Err(NoMemory),
        }
    }
}

/// Writes a request in the memory of `room`. Fields that no reader uses are 0.
pub fn write_request_to(room: RequestRoom, ask: &Ask) -> Vec<u8>
    requires { IsSendable ask.now.what }
    ensures text { result.items ≡ request_text ask.now }
    ensures is_text { IsRequestText ask.now result.items }
    ensures read_again { request_of result.items ≡ Ok ask.now }
{
    let RequestRoom { mut bytes } = room;
    let len = InHeader::LEN + body_len(&ask.what);
    bytes.resize(len, 0).unwrap();
    put_request(bytes.as_mut_slice(), ask);
    bytes
}

/// Writes a request into `bytes`, a buffer of exactly its length.
#[tactic(auto, using(crate::proofs::Written::written))]
fn put_request(bytes: &mut [u8], ask: &Ask)
    requires short { length bytes.old < 2 ^ 32 }
    requires len { length bytes.old ≡ 40 + length (body ask.now.what) }
    ensures text { bytes.new ≡ request_text ask.now }
    ensures fits { FitsAsk ask.now }
{
    let len = bytes.len() as u32;
    let mut fields = MessageWriter::new(bytes);
    put_header(&mut fields, len, ask);
    put_body(&mut fields, &ask.what);
}

/// Writes the header (`struct fuse_in_header`) of a request of `len` bytes.
#[tactic(auto, using(crate::proofs::Written::written))]
fn put_header(fields: &mut MessageWriter, len: u32, ask: &Ask)
    requires { HasRoom fields.old 40 }
    ensures header { Puts fields.old fields.new
        (header len (code (opcode ask.now.what)) ask.now.unique (nodeid ask.now.what) ++ zeros 16) }
    ensures unique_fits { ask.now.unique < 2 ^ 64 }
    ensures opcode_fits { code (opcode ask.now.what) < 2 ^ 32 }
    ensures nodeid_fits { nodeid ask.now.what < 2 ^ 64 }
{
    fields.put_u32(len);
    fields.put_u32(ask.what.opcode().code());
    fields.put_u64(ask.unique);
    fields.put_u64(ask.what.nodeid());
    fields.put_zeros(SENDER_LEN);
}
