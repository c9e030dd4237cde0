//! The body of a request: its length, its writing and its reading. Each function has a row for each kind of request.
ghost use Rattle.std.specs.Prelude.{◌≡◌, ◌≤◌, length};
ghost use Rattle.fuse_wire.specs.Reading.{Gives, MayLack};
ghost use Rattle.fuse_wire.specs.Request.{IsSendable};
ghost use Rattle.fuse_wire.specs.RequestBody.{body, IsBody, FitsBody};
ghost use Rattle.fuse_wire.specs.RequestReading.{WantsMemory, asked_of};
ghost use Rattle.fuse_wire.specs.Writing.{HasRoom, Puts};

use crate::body_form::{
    batch_len, made_len, move_len, name_len, put_batch, put_made, put_move, put_name, put_range,
    read_batch, read_forget, read_made, read_move, read_name, read_range,
};
use crate::header::InHeader;
use crate::layout::{
    CREATE_MODE, CREATE_REST_LEN, FORGET_LEN, GETATTR_LEN, MKDIR_MODE, MKDIR_REST_LEN, RANGE_LEN,
};
use crate::memory::Memory;
use crate::mode::mode_of;
use crate::request::Opcode;
use crate::writer::MessageWriter;
use crate::{Ask, Request, WireFault};
use eden_base::Kind;

/// Returns how many bytes follow the header of `request`.
#[tactic(auto, using(crate::proofs::Lengths::lengths, crate::proofs::OwnTexts::own_bodies))]
pub(crate) fn body_len(request: &Request) -> usize
    ensures len { result ≡ length (body request.now) }
    ensures at_most { result ≤ 4104 }
    ensures is_body { IsSendable request.now → IsBody request.now (body request.now) }
{
    match request {
        Request::Lookup { name, .. } | Request::Unlink { name, .. } | Request::Rmdir { name, .. } =>
            name_len(name),
        Request::Create { name, .. } => made_len(CREATE_MODE, CREATE_REST_LEN, name),
        Request::Mkdir { name, .. } => made_len(MKDIR_MODE, MKDIR_REST_LEN, name),
        Request::Rename {
            to_dir,
            name,
            to_name,
            ..
        } => move_len(*to_dir, name, to_name),
        Request::Read { .. } | Request::Readdir { .. } => RANGE_LEN,
        Request::Getattr { .. } => GETATTR_LEN,
        Request::Forget(_) => FORGET_LEN,
        Request::BatchForget(items) => batch_len(items.as_slice()),
        Request::Readlink { .. } | Request::Other { .. } => 0,
    }
}

/// Writes what follows the header of `request`. Fields that no reader uses are 0.
#[tactic(auto, using(crate::proofs::Written::written))]
pub(crate) fn put_body(fields: &mut MessageWriter, request: &Request)
    requires { HasRoom fields.old (length (body request.now)) }
    ensures body { Puts fields.old fields.new (body request.now) }
    ensures fits { FitsBody request.now }
{
    match request {
        Request::Lookup { name, .. } | Request::Unlink { name, .. } | Request::Rmdir { name, .. } =>
            put_name(fields, name),
        Request::Create { name, perm, .. } => {
            let mode = mode_of(Kind::File, *perm);
            put_made(fields, CREATE_MODE, mode, CREATE_REST_LEN, name)
        }
        Request::Mkdir { name, perm, .. } => {
            let mode = u32::from(perm.bits());
            put_made(fields, MKDIR_MODE, mode, MKDIR_REST_LEN, name)
        }
        Request::Rename {
            to_dir,
            name,
            to_name,
            ..
        } => put_move(fields, *to_dir, name, to_name),
        Request::Read { offset, size, .. } | Request::Readdir { offset, size, .. } => put_range(
            fields, *offset, *size,
        ),
        Request::Getattr { .. } => fields.put_zeros(GETATTR_LEN),
        Request::Forget(item) => fields.put_u64(item.k),
        Request::BatchForget(items) => put_batch(fields, items.as_slice()),
        Request::Readlink { .. } | Request::Other { .. } => {}
    }
}

/// Reads a request from its body, as the opcode in `header` says.
#[tactic(auto, unfolding(crate::specs::RequestBody::what_of))]
pub(crate) fn read_body<M: Memory>(
    memory: M,
    header: InHeader,
    body: &[u8],
) -> Result<Ask, WireFault>
    ensures { Gives (MayLack M.may_lack WantsMemory) result (asked_of header body.now) }
{
    let node = header.node;
    let dir = node;
    match Opcode::of(header.opcode) {
        Opcode::Lookup => {
            let name = read_name(memory, body)?;
            Ok(header.asks(Request::Lookup { dir, name }))
        }
        Opcode::Unlink => {
            let name = read_name(memory, body)?;
            Ok(header.asks(Request::Unlink { dir, name }))
        }
        Opcode::Rmdir => {
            let name = read_name(memory, body)?;
            Ok(header.asks(Request::Rmdir { dir, name }))
        }
        Opcode::Create => {
            let (name, perm) = read_made(memory, CREATE_MODE, CREATE_REST_LEN, body)?;
            Ok(header.asks(Request::Create { dir, name, perm }))
        }
        Opcode::Mkdir => {
            let (name, perm) = read_made(memory, MKDIR_MODE, MKDIR_REST_LEN, body)?;
            Ok(header.asks(Request::Mkdir { dir, name, perm }))
        }
        Opcode::Rename => {
            let (to_dir, name, to_name) = read_move(memory, body)?;
            Ok(header.asks(Request::Rename {
                dir,
                name,
                to_dir,
                to_name,
            }))
        }
        Opcode::Read => {
            let (offset, size) = read_range(body)?;
            Ok(header.asks(Request::Read { node, offset, size }))
        }
        Opcode::Readdir => {
            let (offset, size) = read_range(body)?;
            Ok(header.asks(Request::Readdir { dir, offset, size }))
        }
        Opcode::Getattr if body.len() == GETATTR_LEN => Ok(header.asks(Request::Getattr { node })),
        Opcode::Readlink if body.is_empty() => Ok(header.asks(Request::Readlink { node })),
        Opcode::Getattr | Opcode::Readlink => Err(WireFault::BadBody),
        Opcode::Forget => {
            let item = read_forget(node, body)?;
            Ok(header.asks(Request::Forget(item)))
        }
        Opcode::BatchForget => {
            let batch = read_batch(memory, body)?;
            Ok(header.asks(Request::BatchForget(batch)))
        }
        Opcode::Other(opcode) => Ok(header.asks(Request::Other { opcode, node })),
    }
}
