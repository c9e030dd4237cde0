//! The header of a kernel's request.
ghost use Rattle.std.specs.Prelude.{◌≡◌, ◌≤◌, length, OnOk};
ghost use Rattle.mount_wire.specs.Header.{header_of, unique_of};

use crate::KernelMessageFault;
use crate::field::{u32_at, u64_at};

/// The opcode of a request, and the `unique` that its reply has (`struct fuse_in_header` of `linux/fuse.h`).
#[derive(Clone, Copy, PartialEq, Eq)]
pub struct RequestHeader {
    pub opcode: u32,
    pub unique: u64,
}

impl RequestHeader {
    /// The length of a header, in bytes: len, opcode, unique, nodeid, uid, gid, pid, padding.
    pub(crate) const LEN: usize = 40;

    /// The offset of the opcode in a header.
    const OPCODE: usize = 4;

    /// The offset of the unique in a header.
    const UNIQUE: usize = 8;
}

/// Reads the header of the whole request `bytes`. Returns `Short` if `bytes` have no whole header, and `BadLength` if
/// the length in the header is not that of `bytes`.
#[tactic(auto, unfolding(crate::specs::Header::header_of))]
pub fn read_header(bytes: &[u8]) -> Result<RequestHeader, KernelMessageFault>
    ensures exact { result ≡ header_of bytes.now }
    ensures whole { OnOk result (40 ≤ length bytes.now) }
{
    if bytes.len() < RequestHeader::LEN {
        return Err(KernelMessageFault::Short);
    }
    if u32_at(bytes, 0) as usize != bytes.len() {
        return Err(KernelMessageFault::BadLength);
    }
    Ok(RequestHeader {
        opcode: u32_at(bytes, RequestHeader::OPCODE),
        unique: u64_at(bytes, RequestHeader::UNIQUE),
    })
}

/// Returns the unique of the request `bytes`, which must have this `opcode`. Returns `BadOpcode` if it has another.
#[tactic(auto, unfolding(crate::specs::Header::unique_of))]
pub(crate) fn read_unique(opcode: u32, bytes: &[u8]) -> Result<u64, KernelMessageFault>
    ensures exact { result ≡ unique_of opcode bytes.now }
    ensures whole { OnOk result (40 ≤ length bytes.now) }
{
    let header = read_header(bytes)?;
    if header.opcode != opcode {
        return Err(KernelMessageFault::BadOpcode);
    }
    Ok(header.unique)
}
