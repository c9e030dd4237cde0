//! A kernel's message, and what becomes of it.
ghost use Rattle.std.specs.Prelude.{◌≡◌};
ghost use Rattle.fuse_wire.specs.FaultReply.{fault_reply_of};
ghost use Rattle.fuse_wire.specs.Request.{IsSendable};
ghost use Rattle.mount_wire.specs.Batches.{forgotten_of};
ghost use Rattle.mount_wire.specs.Init.{offer_of};
ghost use Rattle.mount_wire.specs.Message.{init_message, many_message, read_message, refused_message, IsForDaemons, IsNoBatch, Reads, ReadsFor};

use crate::opcode::BATCH_FORGET;
use crate::told_answer::tell_reply;
use crate::{
    BatchReader, ReplyBytes, Responder, answer_init, answer_opendir, answer_releasedir,
    answer_statfs, read_header, read_offer, responder_of, tell_error,
};
use eden_base::Errno;
use fuse_wire::{Ask, Item, WireFault, fault_reply, read_request};
use std::alloc::Global;

/// What a kernel's message comes to.
#[derive(Drop)]
pub enum KernelMessage<'a> {
    /// The program that mounts answers with these bytes, and asks no daemon.
    Answered(ReplyBytes),
    /// A daemon is asked. The reply has the unique of this ask.
    Asked(Ask),
    /// A daemon hears that a number is forgotten.
    Forgot(Item),
    /// A daemon hears of many numbers that are forgotten.
    ForgotMany(BatchReader<'a>),
    /// The kernel awaits no answer, and no daemon hears of it.
    Ignored,
}

/// Reads the kernel's message `bytes`. Takes memory for an ask's names, and answers ENOMEM if that is refused.
#[tactic(auto, unfolding(crate::specs::Message::message_of))]
pub fn read_message(alloc: Global, bytes: &[u8]) -> KernelMessage<'_>
    ensures reads { Reads bytes.now result }
    ensures for_daemons { IsForDaemons result }
{
    let Ok(header) = read_header(bytes) else {
        return KernelMessage::Ignored;
    };
    match responder_of(header.opcode) {
        Responder::Init => init_message(header.unique, bytes),
        Responder::Statfs => KernelMessage::Answered(answer_statfs(header.unique)),
        Responder::Opendir => KernelMessage::Answered(answer_opendir(header.unique)),
        Responder::Releasedir => KernelMessage::Answered(answer_releasedir(header.unique)),
        Responder::Allowed | Responder::Refused => KernelMessage::Answered(tell_error(
            header.unique,
            Errno::ENOSYS,
        )),
        Responder::Nobody => KernelMessage::Ignored,
        Responder::Daemon if header.opcode == BATCH_FORGET => many_message(bytes),
        Responder::Daemon => daemon_message(alloc, bytes),
    }
}

/// Answers the INIT that `bytes` are, whose header has this `unique`.
fn init_message<'a>(unique: u64, bytes: &'a [u8]) -> KernelMessage<'a>
    ensures init { result ≡ init_message unique (offer_of bytes.now) }
{
    match read_offer(bytes) {
        Ok(offer) => KernelMessage::Answered(answer_init(&offer)),
        Err(_fault) => KernelMessage::Answered(tell_error(unique, Errno::EINVAL)),
    }
}

/// Reads the BATCH_FORGET that `bytes` are.
fn many_message(bytes: &[u8]) -> KernelMessage<'_>
    ensures many { result ≡ many_message (forgotten_of bytes.now) }
{
    match BatchReader::of(bytes) {
        Ok(items) => KernelMessage::ForgotMany(items),
        Err(_fault) => KernelMessage::Ignored,
    }
}

/// Reads a request of an opcode that daemons answer, but for a BATCH_FORGET.
fn daemon_message<'a>(alloc: Global, bytes: &'a [u8]) -> KernelMessage<'a>
    requires no_batch { IsNoBatch bytes.now }
    ensures reads { ReadsFor bytes.now result }
    ensures for_daemons { IsForDaemons result }
{
    match read_request(alloc, bytes) {
        Ok(ask) => asked_message(ask),
        Err(fault) => refused_message(bytes, &fault),
    }
}

/// Returns the message of a request that was read. It is `Ignored` only for a batch, which `many_message` reads.
fn asked_message<'a>(ask: Ask) -> KernelMessage<'a>
    requires sendable { IsSendable ask.what }
    ensures read { result ≡ read_message ask }
    ensures for_daemons { IsForDaemons result }
{
    if ask.what.is_ask() {
        return KernelMessage::Asked(ask);
    }
    match ask.what.item() {
        Some(item) => KernelMessage::Forgot(item),
        None => KernelMessage::Ignored,
    }
}

/// Answers the request `bytes` that was refused by `fault`, unless it is a forget.
fn refused_message<'a>(bytes: &'a [u8], fault: &WireFault) -> KernelMessage<'a>
    ensures refused { result ≡ refused_message (fault_reply_of bytes.now fault.now) }
{
    match fault_reply(bytes, fault) {
        Some(reply) => KernelMessage::Answered(tell_reply(&reply)),
        None => KernelMessage::Ignored,
    }
}
