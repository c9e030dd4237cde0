//! One worker of a round.
ghost use Rattle.std.specs.Prelude.{◌≡◌, ◌+◌, ◌<◌, ◌≤◌, length, true};
ghost use Rattle.workers.specs.Channel.{Reported, grown, with_ask, with_replies};
ghost use Rattle.journal.specs.Receipts.{replies_to};
ghost use Rattle.workers.specs.Endings.{Goes, GoesOrEnds, LeavesSpare, Replies, after_turn, is_well};
ghost use Rattle.workers.specs.declared.channel.NextAsk.TheVariants as took;
ghost use Rattle.workers.specs.declared.channel.Posted.TheVariants as post;

use crate::channel::{Channel, NextAsk, Posted};
use crate::ended_worker::EndedWorker;
use crate::hook::Hook;
use crate::locked::{Opening, Shared};
use crate::served_ask::ServedAsk;
use checkout::Backing;
use fuse_wire::{Answer, Ask, Reply};
use journal::{Receipt, Receipts};
use std::sync::Wait;
use std::sync::ledger::Share;

/// The end of a worker: why it took nothing more.
#[derive(Clone, Copy, PartialEq, Eq)]
pub enum WorkerEnd {
    /// The worker had all its turns, found no ask, or was asked to stop.
    Done,
    /// Memory was refused for the copy of the worker's last request. That copy took the spare room, so there is none
    /// for another.
    OutOfMemory,
    /// The worker's channel was broken: the mount is over.
    Broken,
}

/// A worker's channel, its receipts with room for more, and its share of the round's ledger.
#[derive(Drop)]
pub(crate) struct Worker<N: Opening, C: Channel + Drop> {
    pub channel: C,
    pub receipts: Receipts,
    pub share: Share<N>,
}

/// Posts the reply to an ask, if the ask has an answer, and gives the answer back. `takes_next` says whether an ask is taken
/// from the channel next.
fn post<C: Channel>(
    channel: &mut C,
    unique: u64,
    answer: Option<Answer>,
    takes_next: bool,
) -> (Posted, Option<Answer>)
    ensures replies { Replies C.posts channel.old unique answer result.0 channel.new }
    ensures reported { C.reports ≡ true → result.0 ≡ post.Done
        → C.reported channel.new ≡ with_replies (C.reported channel.old) (replies_to unique answer) }
    ensures answer { result.1 ≡ answer }
{
    let Some(answer) = answer else {
        return (Posted::Done, None);
    };
    let reply = Reply { unique, answer };
    let posted = channel.post(&reply, takes_next);
    (posted, Some(reply.answer))
}

/// Serves an ask under the map's lock, and counts it in `share`. One part of `share` goes to the lock.
fn turn_alone<N: Opening, B: Backing + Drop, R: Wait>(
    rt: &R,
    shared: &Shared<N, B>,
    ask: Ask,
    share: &mut Share<N>,
) -> ServedAsk
    requires parts { 1 < share.old.parts }
    ensures parts { share.new.parts + 1 ≡ share.old.parts }
    ensures counted { share.new.amount ≡ share.old.amount + 1 }
{
    shared.lock(rt).turn(ask, share)
}

impl<N: Opening, C: Channel + Drop> Worker<N, C> {
    /// Takes an ask, serves it under the lock and posts its reply. If `takes_next`, another turn follows where the worker does not
    /// end by this one. Returns why it ends, if it does.
    pub(crate) fn turn<B: Backing + Drop, G: Hook, R: Wait>(
        &mut self,
        rt: &R,
        shared: &Shared<N, B>,
        hook: &G,
        takes_next: bool,
    ) -> Option<WorkerEnd>
        requires parts { 1 < self.old.share.parts }
        requires places { 0 < self.old.receipts.places }
        requires spare { self.old.receipts.spare ≡ true }
        ensures most { length self.new.receipts.list ≤ length self.old.receipts.list + 1 }
        ensures parts { self.new.share.parts + length self.new.receipts.list
            ≡ self.old.share.parts + length self.old.receipts.list }
        ensures places { self.new.receipts.places + length self.new.receipts.list
            ≡ self.old.receipts.places + length self.old.receipts.list }
        ensures spare { LeavesSpare result self.new.receipts.spare }
        ensures counted { self.new.share.amount + length self.old.receipts.list
            ≡ self.old.share.amount + length self.new.receipts.list }
        // This holds for any channel from which the worker may have begun.
        ensures ends { (start : C) → Goes C.takes C.posts start self.old.receipts.list self.old.channel
            → GoesOrEnds C.takes C.posts start self.new.receipts.list result self.new.channel }
        // This holds for whatever the channel reported before.
        ensures reported { C.reports ≡ true → is_well result ≡ true → (start : Reported)
            → C.reported self.old.channel ≡ grown start self.old.receipts.list
            → C.reported self.new.channel ≡ grown start self.new.receipts.list }
    {
        match self.channel.take() {
            NextAsk::Ask(ask) => self.serve(rt, (shared, hook), ask, takes_next),
            NextAsk::Empty => Some(WorkerEnd::Done),
            NextAsk::Stopped => Some(WorkerEnd::Done),
            NextAsk::Broken => Some(WorkerEnd::Broken),
        }
    }

    /// Serves an ask that was taken, and posts its reply. If `takes_next`, another turn follows where the worker does not end by
    /// this one. Returns why it ends, if it does.
    #[tactic(auto, using(crate::proofs::Growing::grown_more, crate::proofs::Turning::turned_broken))]
    fn serve<B: Backing + Drop, G: Hook, R: Wait>(
        &mut self,
        rt: &R,
        round: (&Shared<N, B>, &G),
        ask: Ask,
        takes_next: bool,
    ) -> Option<WorkerEnd>
        requires parts { 1 < self.old.share.parts }
        requires places { 0 < self.old.receipts.places }
        requires spare { self.old.receipts.spare ≡ true }
        ensures parts { self.new.share.parts + 1 ≡ self.old.share.parts }
        ensures places { self.new.receipts.places + 1 ≡ self.old.receipts.places }
        ensures spare { LeavesSpare result self.new.receipts.spare }
        ensures one_more { length self.new.receipts.list ≡ length self.old.receipts.list + 1 }
        ensures counted { self.new.share.amount ≡ self.old.share.amount + 1 }
        ensures ends { (start before : C) → Goes C.takes C.posts start self.old.receipts.list before
            → C.takes before (took.Ask ask) self.old.channel
            → GoesOrEnds C.takes C.posts start self.new.receipts.list result self.new.channel }
        ensures reported { C.reports ≡ true → is_well result ≡ true → (start : Reported)
            → C.reported self.old.channel ≡ with_ask (grown start self.old.receipts.list) ask
            → C.reported self.new.channel ≡ grown start self.new.receipts.list }
    {
        let unique = ask.unique;
        let (shared, hook) = round;
        hook.before(unique);
        let what = self.receipts.copy(&ask.what);
        let goes_on = takes_next && self.receipts.has_spare();
        let turn = turn_alone(rt, shared, ask, &mut self.share);
        let position = turn.position;
        let (posted, answer) = post(&mut self.channel, unique, turn.answer, goes_on);
        self.receipts.push(Receipt {
            position,
            ask: Ask { unique, what },
            answer,
        });
        hook.after(unique);
        match posted {
            Posted::Done => self.after_turn(),
            Posted::Broken => Some(WorkerEnd::Broken),
        }
    }

    /// Returns why the worker ends after a turn whose reply was posted: its spare room is used. Else returns none.
    fn after_turn(&self) -> Option<WorkerEnd>
        ensures after_turn { result ≡ after_turn self.now.receipts.spare }
    {
        if self.receipts.has_spare() {
            None
        } else {
            Some(WorkerEnd::OutOfMemory)
        }
    }

    /// Makes what the worker leaves.
    pub(crate) fn end(self, ending: WorkerEnd) -> EndedWorker<N, C>
        ensures channel { result.channel ≡ self.channel }
        ensures receipts { result.receipts ≡ self.receipts }
        ensures share { result.share ≡ self.share }
        ensures ending { result.ending ≡ ending }
    {
        let Worker {
            channel,
            receipts,
            share,
        } = self;
        EndedWorker {
            channel,
            receipts,
            share,
            ending,
        }
    }
}
