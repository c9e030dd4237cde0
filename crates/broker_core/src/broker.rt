//! The kernel's side of a mount.
ghost use Rattle.std.specs.Prelude.{◌≡◌, ◌+◌, ◌≤◌, Bool, true, length, Some, None, IfOk, IfErr, OnOk, OnErr};
ghost use Rattle.std.specs.List.{list_all};
ghost use Rattle.std.specs.Option.{option_copied};
ghost use Rattle.fuse_wire.specs.Request.{is_ask};
ghost use Rattle.broker_core.specs.Held.{held_count, IsLeastHeldAfter};
ghost use Rattle.broker_core.specs.Traffic.{form_asked, front, next_taken, is_under_way};
ghost use Rattle.broker_core.specs.Broker.{mount_fault, issue_fault, ask_fault, forget_fault, may_be_asked, seat_fault, take_fault, post_fault, mounted, asked, forgot, issued, unique_of, taken, posted, delivered, claim_fault, claimed, ended, has_seat, without_daemon, last_generation, seated, new_broker, IsIssueRefusal, IsDeliverRefusal};

use crate::Seat;
use crate::fault::{DeliverFault, NotSeated, PostFault, TakeFault};
use crate::held::Held;
use crate::traffic::Traffic;
use eden_base::{ClaimFault, DaemonId, NoMemory, Number};
use fuse_wire::{Ask, Form, Item, Reply, Request};
use std::alloc::Global;
use std::collections::VecDeque;
use std::marker::Model;
use thiserror::Error;

/// Why a daemon cannot mount. If several variants apply, the first in this order is the fault.
#[derive(Clone, Copy, Debug, PartialEq, Eq, Error)]
pub enum MountFault {
    #[error("another daemon has the seat")]
    Seated,
    #[error("no generation is left")]
    LastGeneration,
}

/// Why a request of the kernel is refused. If several variants apply, the first in this order is the fault.
#[derive(Clone, Copy, Debug, PartialEq, Eq, Error)]
pub enum IssueFault {
    #[error("no daemon serves the mount")]
    NotMounted,
    /// An ask is for a number that is neither the root nor held.
    #[error("the kernel does not hold the number")]
    NotHeld,
    /// Also the fault of every batch: single items alone are accepted.
    #[error("a forget of the root, of nothing, or of more than the kernel holds")]
    BadForget,
    /// For an ask: the last unique was given, or 1,024 asks are under way. For a forget: 4,096 items wait.
    #[error("no more can be under way")]
    Full,
    #[error("out of memory")]
    NoMemory,
}

/// What the kernel holds, who serves the mount, and what is under way between them. Contracts see a `BrokerState`.
pub struct Broker {
    seat: Option<Seat>,
    last: u64,
    held: Held,
    next_unique: u64,
    traffic: Traffic,
}

impl Drop for Broker {
    fn drop(self) {
        let Broker {
            seat: _,
            last: _,
            held: _,
            next_unique: _,
            traffic: _,
        } = self;
    }
}

impl Model for Broker {
    ghost use Rattle.broker_core.specs.Broker.{BrokerState, broker_state_code};

    ghost Value = { BrokerState };

    ghost coded = { broker_state_code };

    ghost view = { λ b. record {
      seat = b.seat;
      last = b.last;
      held = b.held;
      next_unique = b.next_unique;
      traffic = b.traffic;
    } };

    ghost use Rattle.broker_core.specs.Inside.{IsConsistent};

    ghost invariant = { IsConsistent };
}

impl Broker {
    /// The greatest generation.
    pub const LAST_GENERATION: u64 = (1 << 63) - 1;

    /// The greatest unique.
    pub const LAST_UNIQUE: u64 = (1 << 63) - 1;

    /// Makes the broker of a mount that no daemon serves yet.
    pub fn new(alloc: Global) -> Result<Broker, NoMemory>
        ensures new { IfOk result (λ broker. broker ≡ new_broker) }
    {
        Ok(Broker {
            seat: None,
            last: 0,
            held: Held::new(alloc),
            next_unique: 1,
            traffic: Traffic::new(alloc),
        })
    }

    /// Returns why no daemon can mount, or none if one can.
    pub fn mount_refusal(&self) -> Option<MountFault>
        ensures fault { result ≡ mount_fault self.now }
    {
        if self.seat.is_some() {
            return Some(MountFault::Seated);
        }
        if self.last >= Broker::LAST_GENERATION {
            return Some(MountFault::LastGeneration);
        }
        None
    }

    /// Gives `daemon` the seat, and returns the generation at which it serves: 1 for the first.
    pub fn mount(&mut self, daemon: DaemonId) -> u64
        requires accepted { mount_fault self.old ≡ None }
        ensures generation { result ≡ self.old.last + 1 }
        ensures mounted { self.new ≡ mounted self.old daemon }
    {
        let generation = self.last + 1;
        self.give_seat(daemon, generation);
        generation
    }

    /// Gives `daemon` the seat as `mount` does, or returns why it cannot mount.
    pub fn try_mount(&mut self, daemon: DaemonId) -> Result<u64, MountFault>
        ensures generation { IfOk result (λ generation. generation ≡ self.old.last + 1) }
        ensures mounted { OnOk result (self.new ≡ mounted self.old daemon) }
        ensures accepted { OnOk result (mount_fault self.old ≡ None) }
        ensures refused { IfErr result (λ fault. mount_fault self.old ≡ Some fault) }
        ensures unchanged { OnErr result (self.new ≡ self.old) }
    {
        if let Some(fault) = self.mount_refusal() {
            return Err(fault);
        }
        Ok(self.mount(daemon))
    }

    /// Returns why `request` is refused, if there is a cause other than memory.
    pub fn refusal(&self, request: &Request) -> Option<IssueFault>
        ensures fault { result ≡ issue_fault self.now request.now }
    {
        if self.seat.is_none() {
            return Some(IssueFault::NotMounted);
        }
        if request.is_ask() {
            return self.ask_refusal(request);
        }
        self.forget_refusal(request.item())
    }

    fn ask_refusal(&self, request: &Request) -> Option<IssueFault>
        ensures { result ≡ ask_fault self.now request.now }
    {
        if !self.may_all_be_asked(request.nodes().as_slice()) {
            return Some(IssueFault::NotHeld);
        }
        if self.next_unique > Broker::LAST_UNIQUE {
            return Some(IssueFault::Full);
        }
        self.traffic.ask_refusal()
    }

    fn may_all_be_asked(&self, numbers: &[Number]) -> bool
        ensures { result ≡ list_all (may_be_asked self.now) numbers.now }
    {
        numbers.iter().all(|number| self.may_be_asked(*number))
    }

    fn may_be_asked(&self, number: Number) -> bool
        ensures { result ≡ may_be_asked self.now number }
    {
        number == Number::ROOT || self.held.count(number) > 0
    }

    fn forget_refusal(&self, item: Option<Item>) -> Option<IssueFault>
        ensures { result ≡ forget_fault self.now item }
    {
        match item {
            Some(item) => {
                if item.node == Number::ROOT || item.k == 0 || item.k > self.held.count(item.node) {
                    return Some(IssueFault::BadForget);
                }
                self.traffic.item_refusal()
            }
            None => Some(IssueFault::BadForget),
        }
    }

    /// Accepts a request of the kernel, with the memory that the request needs until it is taken and its reply posted.
    /// An ask gets the next unique, from 1, which is returned. A forget lowers at once what the kernel holds.
    pub fn issue(&mut self, request: &Request) -> Result<Option<u64>, IssueFault>
        ensures unique { IfOk result (λ unique. unique ≡ unique_of self.old request.now) }
        ensures issued { OnOk result (self.new ≡ issued self.old request.now) }
        ensures accepted { OnOk result (issue_fault self.old request.now ≡ None) }
        ensures refused { IfErr result (IsIssueRefusal self.old request.now) }
        ensures unchanged { OnErr result (self.new ≡ self.old) }
    {
        if let Some(fault) = self.refusal(request) {
            return Err(fault);
        }
        if request.is_ask() {
            let unique = self.issue_ask(request).map_err(|_| IssueFault::NoMemory)?;
            return Ok(Some(unique));
        }
        match request.item() {
            Some(item) => self.issue_item(item).map_err(|_| IssueFault::NoMemory)?,
            None => unreachable!(),
        }
        Ok(None)
    }

    /// Queues an ask under the next unique, and returns that unique.
    fn issue_ask(&mut self, request: &Request) -> Result<u64, NoMemory>
        requires accepted { issue_fault self.old request.now ≡ None }
        requires asks { is_ask request.now ≡ true }
        ensures unique { IfOk result (λ unique. unique ≡ self.old.next_unique) }
        ensures asked { OnOk result (self.new ≡ asked self.old request.now) }
        ensures unchanged { OnErr result (self.new ≡ self.old) }
    {
        let unique = self.next_unique;
        self.traffic.push_ask(unique, request)?;
        self.next_unique += 1;
        Ok(unique)
    }

    /// Queues an item, and lowers at once how often its number is held.
    fn issue_item(&mut self, item: Item) -> Result<(), NoMemory>
        requires accepted { forget_fault self.old (Some item) ≡ None }
        ensures forgot { OnOk result (self.new ≡ forgot self.old item) }
        ensures unchanged { OnErr result (self.new ≡ self.old) }
    {
        self.traffic.push_item(item)?;
        self.held.lower(item.node, item.k);
        Ok(())
    }

    /// Returns why `daemon` does not have the seat at `generation`, or none if it has.
    fn seat_refusal(&self, daemon: DaemonId, generation: u64) -> Option<NotSeated>
        ensures { result ≡ seat_fault self.now.seat daemon generation }
    {
        match self.seat {
            None => Some(NotSeated::Ended),
            Some(seat) => {
                if seat.daemon == daemon && seat.generation == generation {
                    return None;
                }
                Some(NotSeated::Stale(seat.generation))
            }
        }
    }

    /// Hands what goes first to `daemon`, if `daemon` has the seat at `generation`. Takes no memory.
    pub fn take(&mut self, daemon: DaemonId, generation: u64) -> Result<Ask, TakeFault>
        ensures first { IfOk result (λ ask. next_taken self.old.traffic ≡ Some ask) }
        ensures left { OnOk result (self.new ≡ taken self.old) }
        ensures accepted { OnOk result (take_fault self.old daemon generation ≡ None) }
        ensures refused { IfErr result (λ fault. take_fault self.old daemon generation ≡ Some fault) }
        ensures unchanged { OnErr result (self.new ≡ self.old) }
    {
        match self.seat_refusal(daemon, generation) {
            Some(NotSeated::Ended) => Err(TakeFault::Ended),
            Some(NotSeated::Stale(now)) => Err(TakeFault::Stale(now)),
            None => self.traffic.take().ok_or(TakeFault::Empty),
        }
    }

    /// Returns why `daemon` can take nothing at `generation`, or none if it can.
    pub fn take_refusal(&self, daemon: DaemonId, generation: u64) -> Option<TakeFault>
        ensures fault { result ≡ take_fault self.now daemon generation }
    {
        match self.seat_refusal(daemon, generation) {
            Some(NotSeated::Ended) => Some(TakeFault::Ended),
            Some(NotSeated::Stale(now)) => Some(TakeFault::Stale(now)),
            None if self.traffic.is_nothing_waiting() => Some(TakeFault::Empty),
            None => None,
        }
    }

    /// Returns why `daemon` can't post `reply` at `generation`, or none if it can.
    pub fn post_refusal(
        &self,
        daemon: DaemonId,
        generation: u64,
        reply: &Reply,
    ) -> Option<PostFault>
        ensures fault { result ≡ post_fault self.now daemon generation reply.now }
    {
        match self.seat_refusal(daemon, generation) {
            Some(NotSeated::Ended) => Some(PostFault::Ended),
            Some(NotSeated::Stale(now)) => Some(PostFault::Stale(now)),
            None if !self.traffic.is_asked(reply) => Some(PostFault::NotAsked),
            None => None,
        }
    }

    /// Queues a reply for the kernel, if `daemon` has the seat at `generation` and the reply was asked for. Takes no
    /// memory.
    pub fn post(&mut self, daemon: DaemonId, generation: u64, reply: Reply) -> Result<(), PostFault>
        ensures posted { OnOk result (self.new ≡ posted self.old reply) }
        ensures accepted { OnOk result (post_fault self.old daemon generation reply ≡ None) }
        ensures refused { IfErr result (λ fault. post_fault self.old daemon generation reply ≡ Some fault) }
        ensures unchanged { OnErr result (self.new ≡ self.old) }
    {
        match self.seat_refusal(daemon, generation) {
            Some(NotSeated::Ended) => Err(PostFault::Ended),
            Some(NotSeated::Stale(now)) => Err(PostFault::Stale(now)),
            None => self.traffic.post(reply).map_err(|_| PostFault::NotAsked),
        }
    }

    /// Hands the first posted reply to the kernel, which then holds the number that the reply gives out once more. Only
    /// a number that was not held takes memory. If that is refused, the reply stays posted.
    pub fn deliver(&mut self) -> Result<Reply, DeliverFault>
        ensures first { IfOk result (λ reply. front self.old.traffic.posted ≡ Some reply) }
        ensures delivered { OnOk result (self.new ≡ delivered self.old) }
        ensures refused { IfErr result (IsDeliverRefusal self.old) }
        ensures unchanged { OnErr result (self.new ≡ self.old) }
    {
        let Some(reply) = self.traffic.next_reply() else {
            return Err(DeliverFault::Empty);
        };
        if let Some(number) = reply.answer.given_out() {
            self.held.raise(number).map_err(|_| DeliverFault::NoMemory)?;
        }
        self.traffic.deliver().ok_or(DeliverFault::Empty)
    }

    /// Returns why the seat cannot be claimed from `generation`, or none if it can.
    fn claim_refusal(&self, generation: u64) -> Option<ClaimFault>
        ensures { result ≡ claim_fault self.now generation }
    {
        let Some(seat) = self.seat else {
            return Some(ClaimFault::Ended);
        };
        if seat.generation != generation {
            let now = seat.generation;
            return Some(ClaimFault::Stale { now });
        }
        let asks = self.traffic.taken_asks() as u64;
        if asks > 0 {
            return Some(ClaimFault::Unanswered { asks });
        }
        if generation >= Broker::LAST_GENERATION {
            return Some(ClaimFault::LastGeneration);
        }
        None
    }

    /// Gives the seat to `daemon`, which claims it from `generation`, and returns the next generation, at which
    /// `daemon` serves. What the kernel holds and what is under way are unchanged, so each taken ask must have its
    /// reply. Takes no memory.
    pub fn claim(&mut self, daemon: DaemonId, generation: u64) -> Result<u64, ClaimFault>
        ensures generation { IfOk result (λ next. next ≡ generation + 1) }
        ensures claimed { OnOk result (self.new ≡ claimed self.old daemon generation) }
        ensures accepted { OnOk result (claim_fault self.old generation ≡ None) }
        ensures refused { IfErr result (λ fault. claim_fault self.old generation ≡ Some fault) }
        ensures unchanged { OnErr result (self.new ≡ self.old) }
    {
        if let Some(fault) = self.claim_refusal(generation) {
            return Err(fault);
        }
        let next = generation + 1;
        self.give_seat(daemon, next);
        Ok(next)
    }

    /// Gives `daemon` the seat at `generation`, and notes that this generation was given.
    fn give_seat(&mut self, daemon: DaemonId, generation: u64)
        requires { generation ≤ last_generation }
        ensures { self.new ≡ seated self.old daemon generation }
    {
        self.last = generation;
        self.seat = Some(Seat { generation, daemon });
    }

    /// Ends the mount if `daemon`, which is gone, has the seat: the kernel then holds nothing, and no message is under
    /// way. If `daemon` does not have the seat, nothing changes. Takes no memory.
    pub fn gone(&mut self, daemon: DaemonId)
        ensures gone { self.new ≡ without_daemon self.old daemon }
    {
        if self.has_seat(daemon) {
            self.end();
        }
    }

    /// Ends the mount. Keeps the generation that was given last, and the next unique, since each is given only once.
    fn end(&mut self)
        ensures { self.new ≡ ended self.old }
    {
        self.seat = None;
        self.held.clear();
        self.traffic.clear();
    }

    /// Returns whether `daemon` has the seat, at any generation.
    fn has_seat(&self, daemon: DaemonId) -> bool
        ensures { result ≡ has_seat self.now daemon }
    {
        match self.seat {
            Some(seat) => seat.daemon == daemon,
            None => false,
        }
    }

    /// Returns how often the kernel holds a number: as often as entries gave it and no forget took it back. The root is
    /// held without a count, since no lookup gives it.
    pub fn held(&self, number: Number) -> u64
        ensures count { result ≡ held_count self.now.held number.0 }
    {
        self.held.count(number)
    }

    /// Returns the least number above `number` that the kernel holds with a count. The root has no count.
    pub fn held_after(&self, number: Number) -> Option<Number>
        ensures least { IsLeastHeldAfter self.now.held number.0 result }
    {
        self.held.least_after(number)
    }

    /// Returns the forget items that wait for a daemon, the oldest first.
    pub fn items(&self) -> &VecDeque<Item>
        ensures items { result.now.items ≡ self.now.traffic.items }
    {
        self.traffic.items()
    }

    /// Returns the posted replies that the kernel did not get yet, the oldest first.
    pub fn replies(&self) -> &VecDeque<Reply>
        ensures replies { result.now.items ≡ self.now.traffic.posted }
    {
        self.traffic.replies()
    }

    /// Returns whether the ask with this unique is under way, from issue to delivery. Searches the posted replies.
    pub fn is_under_way(&self, unique: u64) -> bool
        ensures under_way { result ≡ is_under_way self.now.traffic unique }
    {
        self.traffic.is_under_way(unique)
    }

    /// Returns how many forget items wait for a daemon.
    pub fn items_waiting(&self) -> usize
        ensures len { result ≡ length self.now.traffic.items }
    {
        self.traffic.items_waiting()
    }

    /// Returns the form of the answer to the ask with this unique, if a daemon took that ask and it has no reply.
    pub fn form_asked(&self, unique: u64) -> Option<Form>
        ensures form { result ≡ form_asked self.now.traffic unique }
    {
        self.traffic.form_asked(unique)
    }

    /// Returns the reply that is delivered next, if one is posted.
    pub fn next_reply(&self) -> Option<&Reply>
        ensures first { option_copied result ≡ front self.now.traffic.posted }
    {
        self.traffic.next_reply()
    }

    /// Returns the seat, if a daemon has it.
    pub fn seat(&self) -> Option<Seat>
        ensures seat { result ≡ self.now.seat }
    {
        self.seat
    }
}
