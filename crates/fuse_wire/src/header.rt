//! The first 40 bytes of a request.
ghost use Rattle.std.specs.Prelude.{◌≡◌, ◌≤◌, length, OnOk, ◌==◌};
ghost use Rattle.fuse_wire.specs.Reading.{Gives, TakesNone};
ghost use Rattle.fuse_wire.specs.RequestReading.{asked, fields_of, header_of};

use crate::reader::Reader;
use crate::{Ask, Request, WireFault};
use eden_base::Number;

/// The fields of a request's header (`struct fuse_in_header`), but for the length and the last 16 bytes.
#[derive(Clone, Copy)]
pub(crate) struct InHeader {
    pub opcode: u32,
    pub unique: u64,
    pub node: Number,
}

/// The length of the header's length field, in bytes.
const LENGTH_LEN: usize = 4;

impl InHeader {
    /// The length of a header, in bytes.
    pub(crate) const LEN: usize = 40;

    /// Reads the header at the front of `bytes`, but not its length field.
    #[tactic(auto, unfolding(crate::specs::RequestReading::fields_of))]
    pub(crate) fn of(bytes: &[u8]) -> InHeader
        requires { 40 ≤ length bytes.now }
        ensures { result ≡ fields_of bytes.now }
    {
        let mut fields = Reader::new(bytes);
        fields.skip(LENGTH_LEN);
        let opcode = fields.u32();
        let unique = fields.u64();
        let node = Number(fields.u64());
        InHeader {
            opcode,
            unique,
            node,
        }
    }

    /// Makes an `Ask` of the request `what` and the unique of this header.
    pub(crate) fn asks(self, what: Request) -> Ask
        ensures { result ≡ asked self what }
    {
        Ask {
            unique: self.unique,
            what,
        }
    }
}

/// Reads the header of a whole request. Returns `Short` if `bytes` have no whole header, and `BadLength` if the length
/// in the header is not that of `bytes`.
#[tactic(auto, unfolding(crate::specs::RequestReading::header_of))]
pub(crate) fn read_header(bytes: &[u8]) -> Result<InHeader, WireFault>
    ensures header { result ≡ header_of bytes.now }
    ensures never_out_of_memory { Gives TakesNone result (header_of bytes.now) }
    ensures whole { OnOk result (40 ≤ length bytes.now) }
{
    if bytes.len() < InHeader::LEN {
        return Err(WireFault::Short);
    }
    if Reader::new(bytes).u32() as usize != bytes.len() {
        return Err(WireFault::BadLength);
    }
    Ok(InHeader::of(bytes))
}
