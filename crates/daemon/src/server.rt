//! What a daemon serves, with its hand and the replies that it did not post yet.
ghost use Rattle.std.specs.Prelude.{◌≡◌, ◌++◌, ◌+◌, ◌≤◌, map, length, IfOk, OnOk, IsSome};
ghost use Rattle.broker_core.specs.Broker.{take_fault};
ghost use Rattle.fuse_ops.specs.Served.{new_served};
ghost use Rattle.daemon.specs.Server.{at_position, handed, single, told_taken, told_item};
ghost use Rattle.daemon.specs.Beginning.{PutsBy, ServerBegins};
ghost use Rattle.daemon.specs.Serving.{beginning, TakesBy, WorksBy, PostsBy};
ghost use Rattle.daemon.specs.Talking.{at_generation};

use crate::happened::{Begun, Happened, Refusal};
use crate::lease::Lease;
use crate::position::index_of;
use crate::task::Task;
use block_queue::BlockQueue;
use broker_core::Broker;
use eden_base::{DaemonId, NoMemory, Number};
use fuse_ops::Served;
use fuse_wire::{Ask, Item, Items, Reply, Request};
use manifest::Manifest;
use std::alloc::Global;
use std::marker::Model;

/// What a daemon serves. `hand` has what the daemon took and did not work yet, `unposted` the replies that it did not
/// post yet. Clauses see a server as a `ServerState`.
pub struct Server {
    alloc: Global,
    generation: u64,
    manifest: Manifest,
    served: Served,
    hand: BlockQueue<Task>,
    /// Room for the ask that is taken next, from a take's reservation on. What stands in it means nothing.
    ask_room: Option<Box<Ask>>,
    unposted: BlockQueue<Reply>,
}

impl Drop for Server {
    fn drop(self) {
        let Server {
            alloc: _,
            generation: _,
            manifest: _,
            served: _,
            hand: _,
            ask_room: _,
            unposted: _,
        } = self;
    }
}

impl Model for Server {
    ghost use Rattle.std.specs.Coded.{codes};
    ghost use Rattle.manifest.specs.Codes.{tree_code};
    ghost use Rattle.daemon.specs.Server.{ServerState};
    ghost use Rattle.daemon.specs.Inside.{IsConsistent};

    ghost Value = { ServerState };

    ghost coded = { Prim.hlevel (codes, tree_code) };

    ghost view = { λ server. record {
      generation = server.generation;
      served = server.served;
      hand = server.hand.members;
      unposted = server.unposted.members;
    } };

    ghost invariant = { IsConsistent };
}

impl Server {
    /// Returns a server that begins to serve `served` at `generation`. Its hand is empty. It takes no memory.
    pub fn new(alloc: Global, generation: u64, manifest: Manifest, served: Served) -> Server
        requires over { served.tree.manifest ≡ manifest }
        ensures new { result ≡ beginning generation served }
    {
        Server {
            alloc,
            generation,
            manifest,
            served,
            hand: BlockQueue::new(alloc),
            ask_room: None,
            unposted: BlockQueue::new(alloc),
        }
    }

    /// Returns what is served, with its share of the manifest. The hand and the replies that are not posted are
    /// dropped.
    pub(crate) fn into_lease(self) -> Lease
        ensures generation { result.generation ≡ self.generation }
        ensures served { result.served ≡ self.served }
    {
        let Server {
            alloc: _,
            generation,
            manifest,
            served,
            hand: _,
            ask_room: _,
            unposted: _,
        } = self;
        Lease {
            generation,
            manifest,
            served,
        }
    }

    /// Serves on at `generation`, at which the daemon claimed the seat.
    pub(crate) fn serve_at(&mut self, generation: u64)
        ensures at { self.new ≡ at_generation generation self.old }
    {
        self.generation = generation;
    }

    /// Returns what the daemon serves.
    pub fn served(&self) -> &Served
        ensures served { result.now ≡ self.now.served }
    {
        &self.served
    }

    /// Returns the asks and single items that the daemon took and did not work yet.
    pub fn hand(&self) -> &BlockQueue<Task>
        ensures hand { result.now.members ≡ self.now.hand }
    {
        &self.hand
    }

    /// Returns the replies that the daemon did not post yet.
    pub fn unposted(&self) -> &BlockQueue<Reply>
        ensures unposted { result.now.members ≡ self.now.unposted }
    {
        &self.unposted
    }

    /// Takes what waits first at the broker into the hand. Memory for the hand and the replies is reserved before the
    /// take. If memory is refused, the broker's refusal is returned, and `NoMemory` only if the broker has none.
    pub(crate) fn take(&mut self, broker: &mut Broker, daemon: DaemonId) -> Happened
        ensures takes { TakesBy (take_fault broker.old daemon self.old.generation)
            self.old broker.old result self.new broker.new }
    {
        if make_room(
            self.alloc,
            &mut self.hand,
            &mut self.ask_room,
            &mut self.unposted,
        )
        .is_err()
        {
            return match broker.take_refusal(daemon, self.generation) {
                Some(fault) => Happened::Refused(Refusal::from(fault)),
                None => Happened::Refused(Refusal::NoMemory),
            };
        }
        take_into(
            &mut self.hand,
            &mut self.ask_room,
            broker,
            daemon,
            self.generation,
        )
    }

    /// Issues `request`, and then takes what waits first at the broker. Memory for the take is reserved before the
    /// issue.
    pub(crate) fn begin(
        &mut self,
        broker: &mut Broker,
        daemon: DaemonId,
        request: &Request,
    ) -> Begun
        ensures begins { ServerBegins broker.old daemon request.now result broker.new self.old self.new }
    {
        if make_room(
            self.alloc,
            &mut self.hand,
            &mut self.ask_room,
            &mut self.unposted,
        )
        .is_err()
        {
            return match broker.refusal(request) {
                Some(fault) => Begun::Refused(Refusal::from(fault)),
                None => Begun::Refused(Refusal::NoMemory),
            };
        }
        match broker.issue(request) {
            Ok(unique) => Begun::Issued {
                unique,
                taken: take_into(
                    &mut self.hand,
                    &mut self.ask_room,
                    broker,
                    daemon,
                    self.generation,
                ),
            },
            Err(fault) => Begun::Refused(Refusal::from(fault)),
        }
    }

    /// Answers the ask, or applies the item, at `position` of the hand. The first position is 1. The take reserved the
    /// memory for the reply.
    pub(crate) fn work(&mut self, position: u64, fails: bool) -> Happened
        ensures works { WorksBy (at_position self.old.hand position) self.old position fails result self.new }
    {
        let Some(index) = index_of(position, self.hand.len()) else {
            return Happened::Refused(Refusal::NoSuch);
        };
        let Some(task) = self.hand.remove(index) else {
            unreachable!()
        };
        let told = told_of_item(&self.served, task.item());
        let answer = task.apply(&mut self.served, self.alloc, &self.manifest, fails);
        let unique = task.unique();
        keep_room(&mut self.ask_room, task);
        let Some(answer) = answer else {
            return told;
        };
        let (answer, told) = answer.twice(self.alloc);
        self.unposted.push_reserved(Reply { unique, answer });
        Happened::Made(Reply {
            unique,
            answer: told,
        })
    }

    /// Posts the reply at `position` of the replies that are not posted. The first position is 1. It takes no memory.
    pub(crate) fn post(&mut self, broker: &mut Broker, daemon: DaemonId, position: u64) -> Happened
        ensures posts { PostsBy (at_position self.old.unposted position)
            self.old broker.old daemon position result self.new broker.new }
    {
        let Some(index) = index_of(position, self.unposted.len()) else {
            return Happened::Refused(Refusal::NoSuch);
        };
        let Some(reply) = self.unposted.get(index) else {
            unreachable!()
        };
        if let Some(fault) = broker.post_refusal(daemon, self.generation, reply) {
            return Happened::Refused(Refusal::from(fault));
        }
        let Some(reply) = self.unposted.remove(index) else {
            unreachable!()
        };
        let unique = reply.unique;
        match broker.post(daemon, self.generation, reply) {
            Ok(()) => Happened::Posted(unique),
            Err(_fault) => unreachable!(),
        }
    }
}

/// Makes what a daemon that mounts needs to serve: a share of `manifest`, and a new served state.
pub fn opening(
    alloc: Global,
    manifest: &Manifest,
    limit: usize,
) -> Result<(Manifest, Served), NoMemory>
    ensures shared { IfOk result (λ opening. opening.0 ≡ manifest.now) }
    ensures served { IfOk result (λ opening. opening.1 ≡ new_served manifest.now limit) }
{
    let shared = manifest.share()?;
    let served = Served::new(alloc, manifest, limit)?;
    Ok((shared, served))
}

/// Returns the outcome of applying `item`. Without an item the outcome is the refusal `NoSuch`.
fn told_of_item(served: &Served, item: Option<Item>) -> Happened
    ensures { result ≡ told_item served.now item }
{
    match item {
        Some(item) => Happened::Forgot {
            item,
            forgot: served.map().forgot(item.node, item.k),
        },
        None => Happened::Refused(Refusal::NoSuch),
    }
}

/// Keeps the memory of an ask that was worked, for the next one.
fn keep_room(ask_room: &mut Option<Box<Ask>>, task: Task) {
    if let Some(room) = task.into_room() {
        *ask_room = Some(room);
    }
}

/// Reserves memory for what a take may bring: for a whole batch in `hand` or an ask in `ask_room`, and for a reply to
/// each member of `hand`.
fn make_room(
    alloc: Global,
    hand: &mut BlockQueue<Task>,
    ask_room: &mut Option<Box<Ask>>,
    unposted: &mut BlockQueue<Reply>,
) -> Result<(), NoMemory>
    ensures same_hand { hand.new.members ≡ hand.old.members }
    ensures same_replies { unposted.new.members ≡ unposted.old.members }
    ensures hand_room { OnOk result (256 ≤ hand.new.room) }
    ensures ask_room { OnOk result (IsSome ask_room.new) }
    ensures reply_room { OnOk result (length hand.new.members + 256 ≤ unposted.new.room) }
    ensures never_less { unposted.old.room ≤ unposted.new.room }
{
    hand.reserve(Items::MAX_LEN)?;
    unposted.reserve(hand.len() + Items::MAX_LEN)?;
    if ask_room.is_none() {
        *ask_room = Some(Box::new(alloc, no_ask())?);
    }
    Ok(())
}

/// Returns an ask that nobody issued.
fn no_ask() -> Ask {
    Ask {
        unique: 0,
        what: Request::Getattr { node: Number(0) },
    }
}

/// Takes what waits first at the broker into `hand`, which has room for it.
fn take_into(
    hand: &mut BlockQueue<Task>,
    ask_room: &mut Option<Box<Ask>>,
    broker: &mut Broker,
    daemon: DaemonId,
    generation: u64,
) -> Happened
    requires room { 256 ≤ hand.old.room }
    requires ask_room { IsSome ask_room.old }
    ensures takes { PutsBy (take_fault broker.old daemon generation)
        hand.old.members broker.old result hand.new.members broker.new }
    ensures at_most { length hand.new.members ≤ length hand.old.members + 256 }
{
    match broker.take(daemon, generation) {
        Ok(ask) => put_in_hand(hand, ask_room, ask),
        Err(fault) => Happened::Refused(Refusal::from(fault)),
    }
}

/// Appends what was taken to `hand`: an ask as it is, in `ask_room`, and each item of a forget by itself. Returns what
/// happened.
fn put_in_hand(hand: &mut BlockQueue<Task>, ask_room: &mut Option<Box<Ask>>, taken: Ask) -> Happened
    requires room { 256 ≤ hand.old.room }
    requires ask_room { IsSome ask_room.old }
    ensures hand { hand.new.members ≡ hand.old.members ++ handed taken }
    ensures at_most { length hand.new.members ≤ length hand.old.members + 256 }
    ensures told { result ≡ told_taken taken }
{
    if !taken.what.is_ask() {
        let count = put_each(hand, taken.what.items());
        drop(taken);
        return Happened::TookForgets(count);
    }
    let unique = taken.unique;
    let Some(mut ask) = ask_room.take() else {
        unreachable!()
    };
    *ask = taken;
    hand.push_reserved(Task::of_ask(ask));
    Happened::Took(unique)
}

/// Appends each item to `hand` as a task of its own, and returns how many items there are.
fn put_each(hand: &mut BlockQueue<Task>, items: &[Item]) -> usize
    requires room { length items.now ≤ hand.old.room }
    ensures hand { hand.new.members ≡ hand.old.members ++ map single items.now }
    ensures count { result ≡ length items.now }
{
    for item in items {
        hand.push_reserved(Task::of_item(*item));
    }
    items.len()
}
