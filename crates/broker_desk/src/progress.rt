//! The messages of a real kernel.
ghost use Rattle.mount_wire.specs.Message.{IsForDaemons};
ghost use Rattle.mount_wire.specs.declared.message.KernelMessage.TheVariants.{Asked};
ghost use Rattle.broker_desk.specs.Progress.{HearsAsk, HearsItem, HearsItems, HearsMessage, LeavesForDaemons};

use crate::{Desk, Kernel};
use broker_core::IssueFault;
use eden_base::Errno;
use fuse_wire::{Ask, Item};
use mount_wire::{BatchReader, KernelMessage, ReplyBytes, tell_error};

/// How far a message of the kernel came at the desk.
#[derive(Drop)]
pub enum Progress<'a> {
    /// All that it says is done.
    Done,
    /// The kernel is to be answered with these bytes, and nothing else is left to do.
    Answers(ReplyBytes),
    /// This is left, and is to be heard again: as much waits as may, or memory was refused.
    Leaves(KernelMessage<'a>),
    /// No daemon has the seat: the mount is over.
    NotMounted,
}

impl Kernel {
    /// Hears a `message` of the kernel: issues its asks and its forgets at the `desk`, as far as they can be now.
    pub fn hear<'a>(&mut self, desk: &mut Desk, message: KernelMessage<'a>) -> Progress<'a>
        requires for_daemons { IsForDaemons message }
        ensures hears { HearsMessage desk.old self.old message.entry result desk.new self.new }
        ensures for_daemons { LeavesForDaemons result }
    {
        match message {
            KernelMessage::Answered(reply) => Progress::Answers(reply),
            KernelMessage::Asked(ask) => self.hear_ask(desk, ask),
            KernelMessage::Forgot(item) => hear_item(desk, item),
            KernelMessage::ForgotMany(items) => hear_items(desk, items),
            KernelMessage::Ignored => Progress::Done,
        }
    }

    /// Issues an ask of the kernel, if it can be issued now.
    fn hear_ask<'a>(&mut self, desk: &mut Desk, ask: Ask) -> Progress<'a>
        requires for_daemons { IsForDaemons (Asked ask) }
        ensures hears { HearsAsk desk.old self.old ask result desk.new self.new }
        ensures for_daemons { LeavesForDaemons result }
    {
        match self.ask(desk, &ask) {
            Ok(()) => Progress::Done,
            Err(IssueFault::NotHeld) => Progress::Answers(tell_error(ask.unique, Errno::ESTALE)),
            Err(IssueFault::Full | IssueFault::NoMemory) => {
                Progress::Leaves(KernelMessage::Asked(ask))
            }
            Err(IssueFault::NotMounted) => Progress::NotMounted,
            Err(IssueFault::BadForget) => unreachable!(),
        }
    }
}

/// Issues a forget of one `item`, if it can be issued now.
fn hear_item<'a>(desk: &mut Desk, item: Item) -> Progress<'a>
    ensures hears { HearsItem desk.old item result desk.new }
    ensures for_daemons { LeavesForDaemons result }
{
    match desk.forget(item) {
        Ok(()) | Err(IssueFault::BadForget) => Progress::Done,
        Err(IssueFault::Full | IssueFault::NoMemory) => {
            Progress::Leaves(KernelMessage::Forgot(item))
        }
        Err(IssueFault::NotMounted) => Progress::NotMounted,
        Err(IssueFault::NotHeld) => unreachable!(),
    }
}

/// Issues forgets of `items` in their order, up to the first that can't be issued now.
fn hear_items<'a>(desk: &mut Desk, items: BatchReader<'a>) -> Progress<'a>
    ensures hears { HearsItems items.entry desk.old result desk.new }
    ensures for_daemons { LeavesForDaemons result }
{
    let mut items = items;
    while let Some(item) = items.first() {
        match hear_item(desk, item) {
            Progress::Done => items.skip_first(),
            Progress::Leaves(_item) => return Progress::Leaves(KernelMessage::ForgotMany(items)),
            Progress::NotMounted => return Progress::NotMounted,
            Progress::Answers(_) => unreachable!(),
        }
    }
    Progress::Done
}
