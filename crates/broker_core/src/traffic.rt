//! What is under way at the kernel's side of a mount.
ghost use Rattle.std.specs.Prelude.{◌≡◌, length, is_ok, is_none, OnOk, OnErr};
ghost use Rattle.std.specs.List.{list_any};
ghost use Rattle.std.specs.Option.{option_copied};
ghost use Rattle.broker_core.specs.Roomy.{is_not_before};
ghost use Rattle.broker_core.specs.Traffic.{no_traffic, front, asks_under_way, ask_refusal, item_refusal, IsLater, ask_issued, item_issued, next_taken, left_by_take, form_asked, is_asked, may_be_given, reply_posted, reply_delivered, is_reply_of, is_unanswered, is_under_way};

use crate::broker::IssueFault;
use crate::forgets::Forgets;
use crate::unanswered::Unanswered;
use eden_base::NoMemory;
use fuse_wire::{Answer, Ask, Form, Item, Items, Reply, Request};
use std::alloc::Global;
use std::collections::VecDeque;
use std::marker::Model;
use std::mem;

/// The reply answers nothing that was asked.
#[derive(Clone, Copy)]
pub(crate) struct NotAsked;

/// Asks from issue to delivery, and forget items until they are taken. Callers give each ask a unique above those of
/// all asks without a reply. Contracts see a `TrafficState`. Only an issue takes memory.
#[derive(Drop)]
pub(crate) struct Traffic {
    untaken: VecDeque<Ask>,
    /// The asks without a reply, of which the untaken ones are the last.
    unanswered: Unanswered,
    /// The replies that wait for the kernel. There is room here for a reply to each ask without one.
    posted: VecDeque<Reply>,
    forgets: Forgets,
    alloc: Global,
}

impl Model for Traffic {
    ghost use Rattle.broker_core.specs.Traffic.{TrafficState, traffic_state_code};
    ghost use Rattle.broker_core.specs.Roomy.{IsRoomyForReplies, taken_among};

    ghost Value = { TrafficState };

    ghost coded = { traffic_state_code };

    ghost view = { λ t. record {
      untaken = t.untaken.items;
      taken = taken_among t.unanswered t.untaken.items;
      items = t.forgets;
      posted = t.posted.items;
    } };

    ghost invariant = { IsRoomyForReplies };
}

impl Traffic {
    /// The greatest count of asks under way, from issue to delivery.
    pub(crate) const MOST_ASKS: usize = 1024;

    /// The greatest count of forget items that wait.
    pub(crate) const MOST_ITEMS: usize = 4096;

    /// Makes empty queues.
    pub(crate) fn new(alloc: Global) -> Traffic
        ensures none { result ≡ no_traffic }
    {
        Traffic {
            untaken: VecDeque::new(alloc),
            unanswered: Unanswered::new(alloc),
            posted: VecDeque::new(alloc),
            forgets: Forgets::new(alloc),
            alloc,
        }
    }

    /// Drops all that is under way.
    pub(crate) fn clear(&mut self)
        ensures none { self.new ≡ no_traffic }
    {
        let none = Traffic::new(self.alloc);
        drop(mem::replace(self, none));
    }

    /// Returns how many asks were taken and have no reply.
    pub(crate) fn taken_asks(&self) -> usize
        ensures taken { result ≡ length self.now.taken }
    {
        self.unanswered.len() - self.untaken.len()
    }

    /// Returns why no further ask is accepted, if there is a cause other than memory.
    pub(crate) fn ask_refusal(&self) -> Option<IssueFault>
        ensures fault { result ≡ ask_refusal self.now }
    {
        if self.unanswered.len() + self.posted.len() >= Traffic::MOST_ASKS {
            return Some(IssueFault::Full);
        }
        None
    }

    /// Returns why no further forget item is accepted, if there is a cause other than memory.
    pub(crate) fn item_refusal(&self) -> Option<IssueFault>
        ensures fault { result ≡ item_refusal self.now }
    {
        if self.forgets.len() >= Traffic::MOST_ITEMS {
            return Some(IssueFault::Full);
        }
        None
    }

    /// Queues an ask of the kernel, with all the memory that the ask needs until its reply is posted. The caller gives
    /// a `unique` above those of all asks without a reply.
    pub(crate) fn push_ask(&mut self, unique: u64, request: &Request) -> Result<(), NoMemory>
        requires later { IsLater self.old unique }
        ensures issued { OnOk result (self.new ≡ ask_issued self.old unique request.now) }
        ensures unchanged { OnErr result (self.new ≡ self.old) }
    {
        self.untaken.reserve(1)?;
        self.posted.reserve(self.unanswered.len() + 1)?;
        let what = request.copy(self.alloc)?;
        let Ok(()) = self.unanswered.push(unique, request.form()) else {
            drop(what);
            return Err(NoMemory);
        };
        self.untaken.push_back_reserved(Ask { unique, what });
        Ok(())
    }

    /// Queues a forget item of the kernel, with the memory that the item needs until it is taken.
    pub(crate) fn push_item(&mut self, item: Item) -> Result<(), NoMemory>
        ensures issued { OnOk result (self.new ≡ item_issued self.old item) }
        ensures unchanged { OnErr result (self.new ≡ self.old) }
    {
        self.forgets.push(item)
    }

    /// Returns whether no ask and no item waits.
    pub(crate) fn is_nothing_waiting(&self) -> bool
        ensures waiting { result ≡ is_none (next_taken self.now) }
    {
        self.untaken.is_empty() && self.forgets.len() == 0
    }

    /// Removes and returns the first untaken ask, or the first items as one request if no ask waits or 256 items do.
    /// Returns none exactly if no ask and no item waits. Takes no memory.
    pub(crate) fn take(&mut self) -> Option<Ask>
        ensures first { result ≡ next_taken self.old }
        ensures left { self.new ≡ left_by_take self.old }
    {
        if self.untaken.is_empty() || self.forgets.len() >= Items::MAX_LEN {
            let what = self.forgets.take()?;
            return Some(Ask { unique: 0, what });
        }
        self.untaken.pop_front()
    }

    /// Returns whether `reply` may answer a taken ask that has no reply.
    pub(crate) fn is_asked(&self, reply: &Reply) -> bool
        ensures asked { result ≡ is_asked self.now reply.now }
    {
        match self.form_asked(reply.unique) {
            Some(form) => form.admits(&reply.answer) && may_be_given(&reply.answer),
            None => false,
        }
    }

    /// Returns the form of the answer to the taken ask with this unique, if that ask has no reply.
    pub(crate) fn form_asked(&self, unique: u64) -> Option<Form>
        ensures { result ≡ form_asked self.now unique }
    {
        if is_not_before(&self.untaken, unique) {
            return None;
        }
        self.unanswered.form_of(unique)
    }

    /// Queues a daemon's reply for the kernel, or returns that nothing asked for it. Takes no memory: its ask made
    /// room.
    pub(crate) fn post(&mut self, reply: Reply) -> Result<(), NotAsked>
        ensures posted { OnOk result (self.new ≡ reply_posted self.old reply) }
        ensures asked { is_ok result ≡ is_asked self.old reply }
        ensures unchanged { OnErr result (self.new ≡ self.old) }
    {
        if !self.is_asked(&reply) {
            return Err(NotAsked);
        }
        self.unanswered.remove(reply.unique);
        self.posted.push_back_reserved(reply);
        Ok(())
    }

    /// Returns the reply that is delivered next, if one is posted.
    pub(crate) fn next_reply(&self) -> Option<&Reply>
        ensures first { option_copied result ≡ front self.now.posted }
    {
        self.posted.front()
    }

    /// Removes and returns the first posted reply, which the kernel gets.
    pub(crate) fn deliver(&mut self) -> Option<Reply>
        ensures first { result ≡ front self.old.posted }
        ensures left { self.new ≡ reply_delivered self.old }
    {
        self.posted.pop_front()
    }

    /// Returns how many forget items wait.
    pub(crate) fn items_waiting(&self) -> usize
        ensures { result ≡ length self.now.items }
    {
        self.forgets.len()
    }

    /// Returns whether the ask with this unique is under way, from issue to delivery.
    pub(crate) fn is_under_way(&self, unique: u64) -> bool
        ensures { result ≡ is_under_way self.now unique }
    {
        self.is_unanswered(unique) || self.is_posted(unique)
    }

    /// Returns whether there is an ask with this unique that has no reply.
    fn is_unanswered(&self, unique: u64) -> bool
        ensures { result ≡ is_unanswered self.now unique }
    {
        self.unanswered.form_of(unique).is_some()
    }

    /// Returns whether a posted reply has this unique.
    fn is_posted(&self, unique: u64) -> bool
        ensures { result ≡ list_any (is_reply_of unique) self.now.posted }
    {
        self.posted.iter().any(|reply| reply.unique == unique)
    }

    /// Returns the forget items that wait, the oldest first.
    pub(crate) fn items(&self) -> &VecDeque<Item>
        ensures items { result.now.items ≡ self.now.items }
    {
        self.forgets.items()
    }

    /// Returns the posted replies that the kernel did not get yet, the oldest first.
    pub(crate) fn replies(&self) -> &VecDeque<Reply>
        ensures replies { result.now.items ≡ self.now.posted }
    {
        &self.posted
    }
}

/// Returns whether `answer` gives out no number, or one other than 0 and the root.
fn may_be_given(answer: &Answer) -> bool
    ensures { result ≡ may_be_given answer.now }
{
    match answer.given_out() {
        Some(number) => number.0 > 1,
        None => true,
    }
}

/// Returns whether there is an untaken ask, and `unique` is at least that of the first one.
fn is_not_before(untaken: &VecDeque<Ask>, unique: u64) -> bool
    ensures { result ≡ is_not_before untaken.now.items unique }
{
    match untaken.front() {
        Some(ask) => ask.unique <= unique,
        None => false,
    }
}
