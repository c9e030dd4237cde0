//! Who answers a kernel's request.
ghost use Rattle.std.specs.Prelude.{◌≡◌};
ghost use Rattle.mount_wire.specs.Responder.{is_kind, responder_of};

use crate::opcode::{
    ACCESS, DESTROY, FLUSH, FSYNC, FSYNCDIR, INIT, INTERRUPT, OPEN, OPENDIR, RELEASE, RELEASEDIR,
    STATFS,
};
use eden_base::Number;
use fuse_wire::Request;

/// Who answers a request of a kernel. All but `Daemon` are the program that mounts.
#[derive(Clone, Copy, PartialEq, Eq)]
pub enum Responder {
    /// The program, by `answer_init`.
    Init,
    /// The program, by `answer_statfs`.
    Statfs,
    /// The program, by `answer_opendir`.
    Opendir,
    /// The program, by `answer_releasedir`.
    Releasedir,
    /// The program, with ENOSYS, which the kernel counts as success.
    Allowed,
    /// The program, with ENOSYS, which the kernel counts as a failure.
    Refused,
    /// Nobody: the kernel awaits no reply.
    Nobody,
    /// A daemon. To a forget it makes no reply.
    Daemon,
}

/// Returns whether requests with this `opcode` are read as a kind of their own.
fn is_kind(opcode: u32) -> bool
    ensures kind { result ≡ is_kind opcode }
{
    Request::other(opcode, Number::ROOT).is_none()
}

/// Returns who answers a request with this `opcode`.
#[tactic(auto, unfolding(crate::specs::Responder::responder_of))]
pub fn responder_of(opcode: u32) -> Responder
    ensures responder { result ≡ responder_of opcode }
{
    match opcode {
        _ if is_kind(opcode) => Responder::Daemon,
        INIT => Responder::Init,
        STATFS => Responder::Statfs,
        OPENDIR => Responder::Opendir,
        RELEASEDIR => Responder::Releasedir,
        OPEN | RELEASE | FSYNC | FLUSH | FSYNCDIR | ACCESS => Responder::Allowed,
        INTERRUPT | DESTROY => Responder::Nobody,
        _ => Responder::Refused,
    }
}
