//! A channel over asks that are known from the start.
ghost use Rattle.std.specs.Prelude.{◌≡◌, ◌<◌, ◌≤◌, ℕ, [], length, true, IfOk, OnErr};
ghost use Rattle.fuse_wire.specs.declared.request.Ask.{Ask as AskValue};
ghost use Rattle.fuse_wire.specs.ReplyText.{is_buffer};
ghost use Rattle.workers.specs.Channel.{reported_of, with_ask, with_replies, Takes, Posts};
ghost use Rattle.workers.specs.declared.channel.NextAsk.TheVariants as took;
ghost use Rattle.workers.specs.declared.channel.Posted.TheVariants as post;

use crate::channel::{Channel, NextAsk, Posted};
use byte_codec::Bytes;
use eden_base::NoMemory;
use fuse_wire::{Answer, Ask, Buffer, Reply};
use std::alloc::Global;
use std::marker::Model;

/// Asks in memory, and the replies that were posted, one for each ask at most. Contracts see a `MemoryState`.
#[derive(Drop)]
pub struct MemoryChannel {
    alloc: Global,
    asks: Vec<Ask>,
    taken: usize,
    replies: Vec<Reply>,
}

impl Model for MemoryChannel {
    ghost use Rattle.std.specs.Prelude.{◌≤◌, vec_len, vec_capacity};
    ghost use Rattle.workers.specs.Channel.{MemoryState};

    ghost Value = { MemoryState };

    ghost view = { λ channel. record {
      asks = channel.asks.items;
      taken = channel.taken;
      replies = channel.replies.items;
    } };

    ghost invariant = { λ channel. (channel.taken ≤ vec_len channel.asks)
        × (vec_len channel.asks ≤ vec_capacity channel.replies) };
}

impl MemoryChannel {
    /// Makes a channel of these asks, with room for one reply to each. If memory is refused, the asks are dropped.
    pub fn new(alloc: Global, asks: Vec<Ask>) -> Result<MemoryChannel, NoMemory>
        ensures asks { IfOk result (λ channel. channel.asks ≡ asks.items) }
        ensures taken { IfOk result (λ channel. channel.taken ≡ 0) }
        ensures replies { IfOk result (λ channel. channel.replies ≡ []) }
    {
        let replies = Vec::with_capacity(alloc, asks.len())?;
        Ok(MemoryChannel {
            alloc,
            asks,
            taken: 0,
            replies,
        })
    }

    /// Returns the asks, taken or not.
    pub fn asks(&self) -> &[Ask]
        ensures asks { result.now ≡ self.now.asks }
    {
        self.asks.as_slice()
    }

    /// Returns how many asks were taken, as tests look at it after a round.
    pub fn taken(&self) -> usize
        ensures taken { result ≡ self.now.taken }
    {
        self.taken
    }

    /// Returns the replies, in the order in which they were posted.
    pub fn replies(&self) -> &[Reply]
        ensures replies { result.now ≡ self.now.replies }
    {
        self.replies.as_slice()
    }

    /// Takes a copy of the next ask. Returns Broken if memory is refused for the copy.
    pub fn take(&mut self) -> NextAsk
        ensures takes { Takes self.old result self.new }
    {
        if self.taken == self.asks.len() {
            return NextAsk::Empty;
        }
        let ask = &self.asks[self.taken];
        match ask.what.copy(self.alloc) {
            Ok(what) => {
                let unique = ask.unique;
                self.taken += 1;
                NextAsk::Ask(Ask { unique, what })
            }
            Err(NoMemory) => NextAsk::Broken,
        }
    }

    /// Keeps a copy of the reply. Returns Broken if there are as many replies as asks, or if memory is refused for the copy
    /// of a buffer.
    pub fn post(&mut self, reply: &Reply) -> Posted
        ensures posts { Posts self.old reply.now result self.new }
    {
        if self.replies.len() >= self.asks.len() {
            return Posted::Broken;
        }
        let unique = reply.unique;
        match copy_of(self.alloc, &reply.answer) {
            Ok(answer) => {
                self.replies.push_reserved(Reply { unique, answer });
                Posted::Done
            }
            Err(NoMemory) => Posted::Broken,
        }
    }
}

impl Channel for MemoryChannel {
    ghost takes = { λ before taken after. Takes before taken after };

    ghost posts = { λ before reply posted after. Posts before reply posted after };

    ghost reports = { true };

    ghost reported = { λ channel. reported_of channel };

    #[tactic(auto, using(crate::proofs::Taking::reported_more))]
    fn take(&mut self) -> NextAsk {
        MemoryChannel::take(self)
    }

    fn post(&mut self, reply: &Reply, _takes_next: bool) -> Posted {
        MemoryChannel::post(self, reply)
    }
}

/// Makes a copy of `answer`. Only a buffer takes memory.
fn copy_of(alloc: Global, answer: &Answer) -> Result<Answer, NoMemory>
    ensures copy { IfOk result (λ copy. copy ≡ answer.now) }
    ensures lacks { OnErr result (is_buffer answer.now ≡ true) }
{
    match answer {
        Answer::Entry { number, attr } => Ok(Answer::Entry {
            number: *number,
            attr: *attr,
        }),
        Answer::Opened { number, attr } => Ok(Answer::Opened {
            number: *number,
            attr: *attr,
        }),
        Answer::Attrs { number, attr } => Ok(Answer::Attrs {
            number: *number,
            attr: *attr,
        }),
        Answer::Done => Ok(Answer::Done),
        Answer::Buffer(buffer) => {
            let bytes = Vec::from_slice(alloc, buffer.as_slice())?;
            Buffer::of(Bytes::of(bytes))
                .map(Answer::Buffer)
                .ok_or(NoMemory)
        }
        Answer::Extent(extent) => Ok(Answer::Extent(*extent)),
        Answer::Error(errno) => Ok(Answer::Error(*errno)),
    }
}
