//! Requests and replies as bytes.
//!
//! `fuse read BYTES`: UNIQUE REQUEST, or the fault; `fuse again BYTES`: the bytes of the request that is read from BYTES;
//! `fuse kept BYTES`: whether the request that is read into rooms, the copy, and the copy in rooms equal the request;
//! `fuse write UNIQUE REQUEST`: its bytes;
//! `fuse goes BYTES`: `ask` and the numbers that the request is for, or `forget`; `fuse other OPCODE N`: that request, or
//! `none`; `fuse write_reply UNIQUE ANSWER`: the bytes of its head, and those of a buffer; `fuse read_reply BYTES`: UNIQUE
//! ANSWER, or the fault; `fuse read_buffer BYTES`: the same where a buffer was asked for;
//! `fuse fault_reply BYTES FAULT`: UNIQUE ANSWER of the reply to a request that was refused so, or `none`.
//! `listing.rt` has the calls `list`, `fits`, `fill` and `entries`.
ghost use Rattle.fuse_wire.specs.Request.{IsSendable};

use crate::listing::{call_fill, call_fits, call_list, tell_entries};
use byte_codec::Bytes;
use eden_base::{NameFault, NameRoom, Number};
use fuse_wire::{
    Answer, Ask, BatchRoom, MAX_REPLY_LEN, Reply, Request, RequestRoom, WireFault, fault_reply,
    read_buffer_reply, read_reply, read_request, read_request_to, write_reply, write_request_to,
};
use row_words::{
    Output, RowFault, Words, chosen, read_answer, read_request as request_of, read_u32,
    tell_answer, tell_request, tell_wire_fault,
};
use std::alloc::Global;

/// The calls that have more than the bytes of one message.
#[derive(Clone, Copy)]
enum FuseCall {
    Write,
    Other,
    WriteReply,
    FaultReply,
    ReadBuffer,
    List,
    Fits,
    Fill,
}

static FUSE_CALLS: [(&str, FuseCall); 8] = [
    ("write", FuseCall::Write),
    ("other", FuseCall::Other),
    ("write_reply", FuseCall::WriteReply),
    ("fault_reply", FuseCall::FaultReply),
    ("read_buffer", FuseCall::ReadBuffer),
    ("list", FuseCall::List),
    ("fits", FuseCall::Fits),
    ("fill", FuseCall::Fill),
];

static FAULTS: [(&str, WireFault); 4] = [
    ("Short", WireFault::Short),
    ("BadBody", WireFault::BadBody),
    ("BadCount", WireFault::BadCount),
    ("NoMemory", WireFault::NoMemory),
];

/// Returns whether the request in `bytes`, read into rooms, equals `ask`.
fn is_read_to_rooms(alloc: Global, bytes: &[u8], ask: &Ask) -> Result<bool, RowFault> {
    let first = NameRoom::new(alloc)?;
    let second = NameRoom::new(alloc)?;
    let batch = BatchRoom::new(alloc)?;
    match read_request_to(first, second, batch, bytes) {
        Ok(read) => Ok(read == *ask),
        Err(_) => Ok(false),
    }
}

/// Returns whether a copy of `request` equals it.
fn is_copied(alloc: Global, request: &Request) -> Result<bool, RowFault> {
    let copy = request.copy(alloc)?;
    Ok(copy == *request)
}

/// Returns whether a copy of `request` into rooms equals it.
fn is_copied_to_rooms(alloc: Global, request: &Request) -> Result<bool, RowFault> {
    let first = NameRoom::new(alloc)?;
    let second = NameRoom::new(alloc)?;
    let batch = BatchRoom::new(alloc)?;
    Ok(request.copy_to(first, second, batch) == *request)
}

/// Writes whether the request in `bytes`, which is `ask`, is kept in rooms and in copies.
fn tell_kept(alloc: Global, bytes: &[u8], ask: &Ask, output: &mut Output) -> Result<(), RowFault> {
    output.flag(is_read_to_rooms(alloc, bytes, ask)?);
    output.flag(is_copied(alloc, &ask.what)?);
    output.flag(is_copied_to_rooms(alloc, &ask.what)?);
    Ok(())
}

/// Writes the bytes of `ask`.
fn tell_written(alloc: Global, ask: &Ask, output: &mut Output) -> Result<(), RowFault>
    requires { IsSendable ask.now.what }
{
    let bytes = write_request_to(RequestRoom::new(alloc)?, ask);
    output.bytes(bytes.as_slice());
    Ok(())
}

/// Writes whether the kernel waits for a reply, and the numbers of the files that `request` is for.
fn tell_nodes(request: &Request, output: &mut Output) {
    output.word(if request.is_ask() { "ask" } else { "forget" });
    for node in request.nodes().as_slice() {
        output.number(node.0);
    }
}

/// Writes what `call` asks of the request in `bytes`, which is `ask`.
fn tell_ask(
    alloc: Global,
    call: &[u8],
    bytes: &[u8],
    ask: &Ask,
    output: &mut Output,
) -> Result<(), RowFault>
    requires { IsSendable ask.now.what }
{
    match call {
        b"again" => tell_written(alloc, ask, output),
        b"kept" => tell_kept(alloc, bytes, ask, output),
        b"goes" => {
            tell_nodes(&ask.what, output);
            Ok(())
        }
        _ => {
            output.number(ask.unique);
            tell_request(output, &ask.what);
            Ok(())
        }
    }
}

/// Reads the request in `bytes`, and writes what `call` asks of it.
fn call_ask(alloc: Global, call: &[u8], bytes: &[u8], output: &mut Output) -> Result<(), RowFault> {
    match read_request(alloc, bytes) {
        Ok(ask) => tell_ask(alloc, call, bytes, &ask, output),
        Err(WireFault::NoMemory) => Err(RowFault::NoMemory),
        Err(fault) => {
            tell_wire_fault(output, fault);
            Ok(())
        }
    }
}

/// Writes a request.
fn write(words: &mut Words<'_>, output: &mut Output) -> Result<(), RowFault> {
    let alloc = words.alloc();
    let unique = words.number();
    let what = request_of(alloc, words)?;
    tell_written(alloc, &Ask { unique, what }, output)
}

/// Writes `reply`.
fn tell_reply(reply: &Reply, output: &mut Output) {
    output.number(reply.unique);
    tell_answer(output, &reply.answer);
}

/// Reads the reply in `bytes`.
fn call_reply(bytes: &[u8], output: &mut Output) {
    match read_reply(bytes) {
        Ok(reply) => tell_reply(&reply, output),
        Err(fault) => tell_wire_fault(output, fault),
    }
}

/// Reads a reply where a buffer was asked for.
fn call_buffer(words: &mut Words<'_>, output: &mut Output) -> Result<(), RowFault> {
    let bytes = Bytes::of(words.bytes());
    words.end()?;
    match read_buffer_reply(bytes) {
        Ok(reply) => tell_reply(&reply, output),
        Err(fault) => tell_wire_fault(output, fault),
    }
    Ok(())
}

/// Writes the bytes of a reply.
fn put_reply(words: &mut Words<'_>, output: &mut Output) -> Result<(), RowFault> {
    let unique = words.number();
    let answer = read_answer(words)?;
    let mut out = [7; MAX_REPLY_LEN];
    let reply = Reply { unique, answer };
    let len = write_reply(&reply, &mut out);
    output.bytes(&out[..len]);
    if let Answer::Buffer(buffer) = &reply.answer {
        output.bytes(buffer.as_slice());
    }
    Ok(())
}

/// Reads a fault of a request. `BadName` has the fault of the name behind it.
fn read_fault(words: &mut Words<'_>) -> WireFault {
    match chosen(&FAULTS, words.word()) {
        Some(fault) => fault,
        None => {
            if words.word() != b"TooLong".as_slice() {
                words.refuse();
            }
            WireFault::BadName(NameFault::TooLong)
        }
    }
}

/// Writes the reply to a request that was refused.
fn call_fault(words: &mut Words<'_>, output: &mut Output) -> Result<(), RowFault> {
    let bytes = words.bytes();
    let fault = read_fault(words);
    words.end()?;
    match fault_reply(bytes.as_slice(), &fault) {
        Some(reply) => tell_reply(&reply, output),
        None => output.word("none"),
    }
    Ok(())
}

/// Makes a request of another opcode.
fn call_other(words: &mut Words<'_>, output: &mut Output) -> Result<(), RowFault> {
    let opcode = read_u32(words);
    let node = Number(words.number());
    words.end()?;
    match Request::other(opcode, node) {
        Some(request) => tell_request(output, &request),
        None => output.word("none"),
    }
    Ok(())
}

/// Makes the call of `bytes` that `call` tells.
fn call_bytes(
    alloc: Global,
    call: &[u8],
    bytes: &[u8],
    output: &mut Output,
) -> Result<(), RowFault> {
    match call {
        b"read_reply" => {
            call_reply(bytes, output);
            Ok(())
        }
        b"entries" => {
            tell_entries(bytes, output);
            Ok(())
        }
        _ => call_ask(alloc, call, bytes, output),
    }
}

/// Makes a call of requests and replies.
pub(crate) fn call_fuse(words: &mut Words<'_>, output: &mut Output) -> Result<(), RowFault> {
    let word = words.word();
    match chosen(&FUSE_CALLS, word) {
        Some(FuseCall::Write) => write(words, output),
        Some(FuseCall::Other) => call_other(words, output),
        Some(FuseCall::WriteReply) => put_reply(words, output),
        Some(FuseCall::FaultReply) => call_fault(words, output),
        Some(FuseCall::ReadBuffer) => call_buffer(words, output),
        Some(FuseCall::List) => call_list(words, output),
        Some(FuseCall::Fits) => call_fits(words, output),
        Some(FuseCall::Fill) => call_fill(words, output),
        None => {
            let bytes = words.bytes();
            words.end()?;
            call_bytes(words.alloc(), word, bytes.as_slice(), output)
        }
    }
}
