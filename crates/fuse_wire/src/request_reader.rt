//! Requests read from their bytes.
ghost use Rattle.std.specs.Prelude.{◌≡◌, IfOk, Ok, Err};
ghost use Rattle.fuse_wire.specs.Reading.{Gives, MayLack};
ghost use Rattle.fuse_wire.specs.Request.{IsSendable};
ghost use Rattle.fuse_wire.specs.RequestReading.{WantsMemory, request_of};
ghost use Rattle.fuse_wire.specs.RequestText.{IsRequestText, FitsAsk};

use crate::header::{InHeader, read_header};
use crate::memory::{Memory, RequestBuffers};
use crate::request_body::read_body;
use crate::{Ask, BatchRoom, WireFault};
use eden_base::NameRoom;
use std::alloc::Global;

/// Reads a request: first its header, and then its body.
#[tactic(auto, unfolding(crate::specs::RequestReading::request_of))]
fn read_ask<M: Memory>(memory: M, bytes: &[u8]) -> Result<Ask, WireFault>
    ensures { Gives (MayLack M.may_lack WantsMemory) result (request_of bytes.now) }
{
    let header = read_header(bytes)?;
    let (_, body) = bytes.split_at(InHeader::LEN);
    read_body(memory, header, body)
}

/// Reads a request from its bytes. Takes memory for a name or for a batch.
pub fn read_request(alloc: Global, bytes: &[u8]) -> Result<Ask, WireFault>
    // `bytes` are a text of the request that is returned.
    ensures text { IfOk result (λ ask. IsRequestText ask bytes.now) }
    // If `bytes` are a text of a request, then that request is returned, unless memory is refused.
    ensures only { (ask : Ask) → FitsAsk ask → IsRequestText ask bytes.now
        → Gives WantsMemory result (Ok ask) }
    ensures sendable { IfOk result (λ ask. IsSendable ask.what) }
    // The result for any bytes, with the exact fault.
    ensures exact { Gives WantsMemory result (request_of bytes.now) }
{
    read_ask(alloc, bytes)
}

/// Reads a request from its bytes, in rooms that were taken before: `first` for its name and `second` for a second
/// one, or `batch`.
pub fn read_request_to(
    first: NameRoom,
    second: NameRoom,
    batch: BatchRoom,
    bytes: &[u8],
) -> Result<Ask, WireFault>
    // `bytes` are a text of the request that is returned.
    ensures text { IfOk result (λ ask. IsRequestText ask bytes.now) }
    // If `bytes` are a text of a request, then that request is returned.
    ensures only { (ask : Ask) → FitsAsk ask → IsRequestText ask bytes.now → result ≡ Ok ask }
    ensures sendable { IfOk result (λ ask. IsSendable ask.what) }
    // The result for any bytes, with the exact fault.
    ensures exact { result ≡ request_of bytes.now }
    ensures never_out_of_memory { ¬ (result ≡ Err WireFault.NoMemory) }
{
    let rooms = RequestBuffers {
        first,
        second,
        batch,
    };
    read_ask(rooms, bytes)
}
