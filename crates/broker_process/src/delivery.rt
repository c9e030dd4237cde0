//! Replies on their way to the kernel of a mount.
ghost use Rattle.std.specs.Prelude.{◌≡◌, IfOk};
ghost use Rattle.broker_process.specs.Posting.{SameWriter};
ghost use Rattle.broker_process.specs.Writing.{TellsReply};

use crate::context::BrokerContext;
use crate::reply_write::{Texts, Written, write_reply};
use broker_desk::Delivered;
use eden_base::{Errno, NoMemory, Number};
use fuse_wire::Reply;
use mount_wire::{Kept, MountAttributes, tell_answer, tell_error};
use std::alloc::Global;
use std::fs::File;
use std::io::Write;
use std::rt::Clock;
use std::sync::{Arc, Wait};

/// Where the replies of a mount are written: the kernel's device, and what each file of the mount has as its own.
#[derive(Drop)]
pub(crate) struct ReplyWriter {
    /// The generation at which the mount began. No two mounts have the same.
    pub began: u64,
    pub device: Arc<File>,
    pub own: MountAttributes,
}

impl ReplyWriter {
    /// Returns one more handle of the device.
    pub(crate) fn share(&self) -> Result<ReplyWriter, NoMemory>
        ensures same { IfOk result (λ copy. SameWriter copy self.now) }
    {
        Ok(ReplyWriter {
            began: self.began,
            device: Arc::try_clone(&self.device)?,
            own: self.own,
        })
    }
}

/// What a thread has to deliver to the kernel, and where.
#[derive(Drop)]
pub(crate) struct Delivery {
    pub writer: ReplyWriter,
    pub delivered: Delivered,
}

/// A reply for the kernel, and what that may keep of it.
#[derive(Drop)]
pub(crate) struct KeptReply {
    pub reply: Reply,
    pub kept: Kept,
}

/// Writes a reply to the kernel's `device`, by `own` as what each file of the mount has. Where memory for a buffer is refused,
/// the program that waits gets ENOMEM.
pub(crate) fn tell<R: Wait + Clock, D: Write>(
    rt: &R,
    alloc: Global,
    device: &mut D,
    told: KeptReply,
    own: &MountAttributes,
) -> Written
    ensures tells { TellsReply told.kept told.reply own.now result (D.contents device.old) (D.contents device.new) }
{
    let KeptReply { reply, kept } = told;
    let Reply { unique, answer } = reply;
    let error = tell_error(unique, Errno::EIO);
    match tell_answer(alloc, unique, answer, kept, own) {
        Ok(text) => {
            let texts = Texts {
                reply: text.as_slice(),
                error: error.as_slice(),
            };
            write_reply(rt, device, &texts)
        }
        Err(NoMemory) => {
            let text = tell_error(unique, Errno::ENOMEM);
            let texts = Texts {
                reply: text.as_slice(),
                error: error.as_slice(),
            };
            write_reply(rt, device, &texts)
        }
    }
}

impl<R: Wait + Clock> BrokerContext<'_, R> {
    /// Writes what is delivered to the kernel. Where that did not take a reply, the number in it is forgotten. Where the device
    /// refuses everything, the mount ends. Neither is so where the mount has ended by then: the next one is another mount.
    pub(crate) fn deliver(&self, delivery: Delivery) {
        let Delivery { writer, delivered } = delivery;
        let began = writer.began;
        let (reply, kept) = match delivered {
            Delivered::Reply(reply, kept) => (reply, kept),
            Delivered::Unasked(answer) => return self.give_back(began, answer.given_out()),
        };
        let given = reply.answer.given_out();
        let mut device = writer.device;
        let told = KeptReply { reply, kept };
        let written = tell(self.rt, self.alloc, &mut device, told, &writer.own);
        if written != Written::Reply {
            self.give_back(began, given);
        }
        if written == Written::Refused {
            self.shared.note_refused(self.rt, began);
        }
    }

    /// Has the number be forgotten that an answer gave out, if it gave one, since the kernel did not take it. The answer was for
    /// the mount that `began` at this generation.
    fn give_back(&self, began: u64, given: Option<Number>) {
        if let Some(given) = given {
            self.shared.give_back(self.rt, began, given);
        }
    }
}
