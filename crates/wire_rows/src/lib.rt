//! Calls of byte_codec, block_queue, node_arena, fuse_wire and mount_wire.
#![tactic(auto)]

mod arena;
mod codec;
mod fuse;
mod kernel;
mod listing;
mod names;
mod queue;

use crate::arena::{Arena, call_arena};
use crate::codec::call_codec;
use crate::fuse::call_fuse;
use crate::kernel::call_kernel;
use crate::names::{call_names, call_perms};
use crate::queue::call_queue;
use block_queue::BlockQueue;
use row_words::{Output, RowFault, Words, chosen};
use std::alloc::Global;

/// The subject of a call.
#[derive(Clone, Copy)]
enum WireSubject {
    Name,
    Perm,
    Codec,
    Queue,
    Arena,
    Fuse,
    Kernel,
}

static SUBJECTS: [(&str, WireSubject); 7] = [
    ("name", WireSubject::Name),
    ("perm", WireSubject::Perm),
    ("codec", WireSubject::Codec),
    ("queue", WireSubject::Queue),
    ("arena", WireSubject::Arena),
    ("fuse", WireSubject::Fuse),
    ("kernel", WireSubject::Kernel),
];

/// A queue and an arena.
pub struct Wire {
    queue: BlockQueue<u64>,
    arena: Option<Arena>,
}

impl Drop for Wire {
    fn drop(self) {
        let Wire { queue: _, arena: _ } = self;
    }
}

impl Wire {
    /// Makes an empty queue, and no arena.
    pub fn new(alloc: Global) -> Wire {
        Wire {
            queue: BlockQueue::new(alloc),
            arena: None,
        }
    }

    /// Makes the call of `subject` that `words` tell.
    pub fn call(
        &mut self,
        subject: &[u8],
        words: &mut Words<'_>,
        output: &mut Output,
    ) -> Result<(), RowFault> {
        match chosen(&SUBJECTS, subject).ok_or(RowFault::BadRow)? {
            WireSubject::Name => call_names(words, output),
            WireSubject::Perm => call_perms(words, output),
            WireSubject::Codec => call_codec(words, output),
            WireSubject::Queue => call_queue(&mut self.queue, words, output),
            WireSubject::Arena => call_arena(&mut self.arena, words, output),
            WireSubject::Fuse => call_fuse(words, output),
            WireSubject::Kernel => call_kernel(words, output),
        }
    }
}
