//! Replies that wait for their bytes.
ghost use Rattle.std.specs.Prelude.{◌≡◌, ◌<◌, ◌≤◌, ◌++◌, ◌∷◌, [], length, nat_le, slice_get, vec_capacity, Some, IfOk};
ghost use Rattle.std.specs.List.{remove};

use crate::blob_store::PendingRead;
use eden_base::NoMemory;
use std::alloc::Global;
use std::marker::Model;

/// How many replies may wait at most.
const MOST: usize = 64;

/// A reply whose bytes have yet to come: the unique of its ask, and the read that it waits for.
#[derive(Clone, Copy)]
pub struct WaitingReply {
    pub unique: u64,
    pub read: PendingRead,
}

/// Replies that wait for their bytes, 64 at most. The memory for them is there from the start. Contracts see their list.
#[derive(Drop)]
pub struct WaitingReplies {
    replies: Vec<WaitingReply>,
}

impl Model for WaitingReplies {
    ghost use Rattle.std.specs.Prelude.{List, ◌≤◌, vec_capacity};
    ghost use Rattle.blob_store.specs.declared.waiting_replies.WaitingReply.{WaitingReply as AReply};

    ghost Value = { List AReply };

    ghost view = { λ waiting. waiting.replies.items };

    ghost invariant = { λ waiting. 64 ≤ vec_capacity waiting.replies };
}

impl WaitingReplies {
    /// Makes a list where no reply waits.
    pub(crate) fn new(alloc: Global) -> Result<WaitingReplies, NoMemory>
        ensures none { IfOk result (λ waiting. waiting ≡ []) }
    {
        Ok(WaitingReplies {
            replies: Vec::with_capacity(alloc, MOST)?,
        })
    }

    /// Returns how many replies wait.
    pub(crate) fn len(&self) -> usize
        ensures len { result ≡ length self.now }
    {
        self.replies.len()
    }

    /// Returns whether no further reply may wait.
    pub(crate) fn is_full(&self) -> bool
        ensures full { result ≡ nat_le 64 (length self.now) }
    {
        self.replies.len() >= MOST
    }

    /// Returns the reply at `place`.
    pub(crate) fn at(&self, place: usize) -> WaitingReply
        requires place { place < length self.now }
        ensures reply { slice_get self.now place ≡ Some result }
    {
        self.replies[place]
    }

    /// Lets one more reply wait, after the others.
    pub(crate) fn push(&mut self, reply: WaitingReply)
        requires room { length self.old < 64 }
        ensures last { self.new ≡ self.old ++ reply ∷ [] }
    {
        let Ok(()) = self.replies.push(reply) else {
            unreachable!()
        };
    }

    /// Takes out the reply at `place`.
    pub(crate) fn remove(&mut self, place: usize)
        requires place { place < length self.old }
        ensures rest { self.new ≡ remove self.old place }
    {
        let _waited = self.replies.remove(place);
    }
}
