//! A channel that fetches the bytes of extents.
ghost use Rattle.std.specs.Prelude.{◌≡◌, ◌<◌, ◌==◌, [], false, length, IfOk};
ghost use Rattle.fuse_wire.specs.declared.reply.Answer.TheVariants.{Buffer as ABuffer, Extent as AnExtent};
ghost use Rattle.fuse_wire.specs.declared.reply.Reply.{Reply as ReplyValue};
ghost use Rattle.workers.specs.declared.channel.Posted.TheVariants as post;
ghost use Rattle.blob_store.specs.Fetching.{LeavesNone, LooksAtReply, Posts, PostsOne, PostsReadyOf, Takes, answer_of, inner_of, store_of, waiting_of};
ghost use Rattle.blob_store.specs.Reads.{IsStarted};

use crate::blob_store::{BlobFault, BlobStore, PendingRead, ReadEnding, StartedRead};
use crate::waiting_replies::{WaitingReplies, WaitingReply};
use byte_codec::Bytes;
use eden_base::{Errno, NoMemory};
use fuse_wire::{Answer, Buffer, Extent, Reply};
use std::alloc::Global;
use std::time::Duration;
use workers::{Channel, NextAsk, Posted};

/// How long a worker waits for a read before the reply is left to wait, in milliseconds.
const MOMENT: u64 = 10;

/// The same where other replies wait: their store is slow, so this one is likely to be.
const SHORT_MOMENT: u64 = 1;

/// A channel over another one. It posts the bytes of an extent, which it fetches from a store, in place of the extent. So a
/// worker reads them outside of the map's lock. A reply whose bytes don't come within a moment waits here, over rounds, and
/// the worker takes its next ask.
#[derive(Drop)]
pub struct FetchingChannel<C, S> {
    alloc: Global,
    channel: C,
    store: S,
    waiting: WaitingReplies,
}

impl<C: Channel, S: BlobStore> FetchingChannel<C, S> {
    /// Makes a channel over `channel` that fetches from `store`.
    pub fn new(alloc: Global, channel: C, store: S) -> Result<FetchingChannel<C, S>, NoMemory>
    where
        C: Drop,
        S: Drop,
        ensures channel { IfOk result (λ made. inner_of made ≡ channel) }
        ensures store { IfOk result (λ made. store_of made ≡ store) }
        ensures none { IfOk result (λ made. waiting_of made ≡ []) }
    {
        let waiting = WaitingReplies::new(alloc)?;
        Ok(FetchingChannel {
            alloc,
            channel,
            store,
            waiting,
        })
    }

    /// Returns the channel below.
    pub fn channel(&self) -> &C
        ensures channel { result.now ≡ inner_of self.now }
    {
        &self.channel
    }

    /// Returns how many replies wait for their bytes.
    pub fn waiting(&self) -> usize
        ensures waiting { result ≡ length (waiting_of self.now) }
    {
        self.waiting.len()
    }

    /// Posts all replies that wait, since the daemon ends. Each read gets `longest` for that; one that is not over then fails.
    #[tactic(auto, using(crate::proofs::Waiting::one_more, crate::proofs::Waiting::one_length))]
    pub fn finish(&mut self, longest: Duration) -> Posted
        ensures posts { PostsReadyOf C.posts S.reads self.old result self.new }
        ensures none { LeavesNone result (waiting_of self.new) }
    {
        for _reply in 0..self.waiting.len() {
            if let Posted::Broken = self.finish_first(longest) {
                return Posted::Broken;
            }
        }
        Posted::Done
    }

    /// Posts the first reply that waits. Its read gets `longest` for that.
    fn finish_first(&mut self, longest: Duration) -> Posted
        requires some { 0 < length (waiting_of self.old) }
        ensures posts { PostsOne C.posts (S.reads (store_of self.old)) 0 (waiting_of self.old) (inner_of self.old) result
            (waiting_of self.new) (inner_of self.new) }
        ensures store { store_of self.new ≡ store_of self.old }
    {
        let waited = self.waiting.at(0);
        let given = self
            .store
            .end_read(self.alloc, &waited.read, longest, ReadEnding::DaemonEnds);
        self.waiting.remove(0);
        self.tell(waited.unique, answer_of(given), false)
    }

    /// Posts the replies whose bytes have come. Each read is waited for, for `longest` at most.
    #[tactic(auto, using(crate::proofs::Waiting::looked_more, crate::proofs::Waiting::looked_length))]
    pub fn post_ready(&mut self, longest: Duration) -> Posted
        ensures posts { PostsReadyOf C.posts S.reads self.old result self.new }
    {
        let mut place = 0;
        for _reply in 0..self.waiting.len() {
            let posted = self.post_if_ready(place, longest);
            if let Some(Posted::Broken) = posted {
                return Posted::Broken;
            }
            place += usize::from(posted.is_none());
        }
        Posted::Done
    }

    /// Posts the reply that waits at `place`, if its bytes come within `longest`.
    fn post_if_ready(&mut self, place: usize, longest: Duration) -> Option<Posted>
        requires place { place < length (waiting_of self.old) }
        ensures posts { LooksAtReply C.posts (S.reads (store_of self.old)) place (waiting_of self.old) (inner_of self.old)
            result (waiting_of self.new) (inner_of self.new) }
        ensures store { store_of self.new ≡ store_of self.old }
    {
        let waited = self.waiting.at(place);
        let given = self.store.poll_read(self.alloc, &waited.read, longest)?;
        self.waiting.remove(place);
        Some(self.tell(waited.unique, answer_of(given), false))
    }

    /// Posts the bytes of an extent as the reply to the ask with this `unique`, or lets the reply wait for them.
    fn post_extent(&mut self, unique: u64, extent: &Extent, takes_next: bool) -> Posted
        ensures posts { Posts C.posts S.reads self.old
            (record { unique = unique; answer = AnExtent extent.now }) result self.new }
    {
        if extent.len == 0 {
            return self.tell(unique, nothing(self.alloc), takes_next);
        }
        match self.read(extent) {
            StartedRead::Done(given) => self.tell(unique, answer_of(given), takes_next),
            StartedRead::Pending(read) => self.keep(unique, read),
        }
    }

    /// Reads an extent, for as long as a worker waits for one.
    fn read(&self, extent: &Extent) -> StartedRead
        ensures started { IsStarted (S.reads (store_of self.now)) extent.now result }
    {
        let read = match self.store.start_read(self.alloc, extent) {
            StartedRead::Pending(read) => read,
            StartedRead::Done(given) => return StartedRead::Done(given),
        };
        match self.store.poll_read(self.alloc, &read, self.moment()) {
            Some(given) => StartedRead::Done(given),
            None => StartedRead::Pending(read),
        }
    }

    /// Returns how long a worker waits for a read.
    fn moment(&self) -> Duration {
        let milliseconds = match self.waiting.len() {
            0 => MOMENT,
            _ => SHORT_MOMENT,
        };
        Duration::from_millis(milliseconds)
    }

    /// Lets the reply to the ask with this `unique` wait for `read`. Where no further one may wait, the read is ended.
    fn keep(&mut self, unique: u64, read: PendingRead) -> Posted
        requires some { (read.extent.len == 0) ≡ false }
        ensures posts { Posts C.posts S.reads self.old
            (record { unique = unique; answer = AnExtent read.extent }) result self.new }
    {
        if self.waiting.is_full() {
            let now = Duration::from_millis(0);
            let given = self
                .store
                .end_read(self.alloc, &read, now, ReadEnding::TooMany);
            return self.tell(unique, answer_of(given), false);
        }
        self.waiting.push(WaitingReply { unique, read });
        Posted::Done
    }

    /// Posts an answer to the ask with this `unique`. `takes_next` says whether an ask is taken next.
    fn tell(&mut self, unique: u64, answer: Answer, takes_next: bool) -> Posted
        ensures posts { C.posts (inner_of self.old) (record { unique = unique; answer = answer }) result (inner_of self.new) }
        ensures store { store_of self.new ≡ store_of self.old }
        ensures waiting { waiting_of self.new ≡ waiting_of self.old }
    {
        self.channel.post(&Reply { unique, answer }, takes_next)
    }
}

impl<C: Channel, S: BlobStore> Channel for FetchingChannel<C, S> {
    ghost takes = { λ before taken after. Takes C.takes C.posts S.reads before taken after };

    ghost posts = { λ before reply posted after. Posts C.posts S.reads before reply posted after };

    ghost reports = { false };

    ghost reported = { λ _. record { taken = []; posted = [] } };

    fn take(&mut self) -> NextAsk {
        match self.post_ready(Duration::from_millis(0)) {
            Posted::Done => self.channel.take(),
            Posted::Broken => NextAsk::Broken,
        }
    }

    fn post(&mut self, reply: &Reply, takes_next: bool) -> Posted {
        if let Answer::Extent(extent) = &reply.answer {
            return self.post_extent(reply.unique, extent, takes_next);
        }
        self.channel.post(reply, takes_next)
    }
}

/// Returns the answer to a READ, by what a read of the store gave.
fn answer_of(given: Result<Buffer, BlobFault>) -> Answer
    ensures answer { result ≡ answer_of given }
{
    match given {
        Ok(bytes) => Answer::Buffer(bytes),
        Err(BlobFault::NoMemory) => Answer::Error(Errno::ENOMEM),
        Err(BlobFault::Failed) => Answer::Error(Errno::EIO),
    }
}

/// Returns the answer that has no bytes, which takes no memory.
fn nothing(alloc: Global) -> Answer
    ensures none { result ≡ ABuffer [] }
{
    let Some(buffer) = Buffer::of(Bytes::of(Vec::new(alloc))) else {
        unreachable!()
    };
    Answer::Buffer(buffer)
}
