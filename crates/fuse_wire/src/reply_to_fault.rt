//! The reply to a request that was refused.
ghost use Rattle.std.specs.Prelude.{◌≡◌};
ghost use Rattle.fuse_wire.specs.FaultReply.{errno_of_fault, fault_reply_of};

use crate::header::InHeader;
use crate::request::Opcode;
use crate::{Answer, Reply, WireFault};
use eden_base::{Errno, NameFault};

/// Returns the reply to `bytes`, which `read_request` refused with `fault`. Returns none for a forget, and for bytes
/// without a whole header. Takes no memory.
pub fn fault_reply(bytes: &[u8], fault: &WireFault) -> Option<Reply>
    ensures reply { result ≡ fault_reply_of bytes.now fault.now }
{
    if bytes.len() < InHeader::LEN {
        return None;
    }
    let header = InHeader::of(bytes);
    if Opcode::of(header.opcode).is_forget() {
        return None;
    }
    Some(Reply {
        unique: header.unique,
        answer: Answer::Error(errno_of_fault(fault)),
    })
}

/// Returns the error that answers a request which was refused with `fault`.
fn errno_of_fault(fault: &WireFault) -> Errno
    ensures { result ≡ errno_of_fault fault.now }
{
    match fault {
        WireFault::BadName(NameFault::TooLong) => Errno::ENAMETOOLONG,
        WireFault::NoMemory => Errno::ENOMEM,
        _ => Errno::EINVAL,
    }
}
