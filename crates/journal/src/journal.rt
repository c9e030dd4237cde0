//! The requests that a round applied, in order.
ghost use Rattle.std.specs.Prelude.{◌≡◌, ◌+◌, ◌<◌, ◌≤◌, ◌++◌, ◌∷◌, [], length, IfOk, OnOk, OnErr};

use eden_base::NoMemory;
use fuse_wire::{Answer, Request};
use std::alloc::Global;
use std::marker::Model;

/// A request that was applied, with its answer. A forget has none.
#[derive(Drop)]
pub struct Record {
    pub request: Request,
    pub answer: Option<Answer>,
}

/// The records of a round, in the order of its turns. Contracts see a `JournalState`: the records, and how many more
/// there is room for.
pub struct Journal {
    records: Vec<Record>,
    room: usize,
}

impl Drop for Journal {
    fn drop(self) {
        let Journal {
            records: _,
            room: _,
        } = self;
    }
}

impl Model for Journal {
    ghost use Rattle.std.specs.Prelude.{◌+◌, ◌≤◌, vec_len, vec_capacity};
    ghost use Rattle.journal.specs.Journal.{JournalState};

    ghost Value = { JournalState };

    ghost view = { λ journal. record { records = journal.records.items; room = journal.room } };

    ghost invariant = { λ journal. vec_len journal.records + journal.room ≤ vec_capacity journal.records };
}

impl Journal {
    /// Makes a journal with memory for `capacity` records.
    pub fn new(alloc: Global, capacity: usize) -> Result<Journal, NoMemory>
        ensures empty { IfOk result (λ journal. journal.records ≡ []) }
        ensures room { IfOk result (λ journal. journal.room ≡ capacity) }
    {
        match Vec::with_capacity(alloc, capacity) {
            Ok(records) => Ok(Journal {
                records,
                room: capacity,
            }),
            Err(_refused) => Err(NoMemory),
        }
    }

    /// Makes a journal without room. Takes no memory.
    pub fn without_room(alloc: Global) -> Journal
        ensures empty { result.records ≡ [] }
        ensures room { result.room ≡ 0 }
    {
        Journal {
            records: Vec::new(alloc),
            room: 0,
        }
    }

    /// Drops the records, and keeps their memory for others.
    pub fn clear(&mut self)
        ensures records { self.new.records ≡ [] }
        ensures room { self.old.room + length self.old.records ≤ self.new.room }
    {
        self.records.clear();
        self.room = self.records.capacity();
    }

    /// Drops the records, and takes memory if there is no room for `capacity` others.
    pub fn refill(&mut self, alloc: Global, capacity: usize) -> Result<(), NoMemory>
        ensures records { self.new.records ≡ [] }
        ensures room { OnOk result (capacity ≤ self.new.room) }
        ensures needed { OnErr result (self.old.room < capacity) }
    {
        self.clear();
        if capacity <= self.room {
            return Ok(());
        }
        self.records = Vec::with_capacity(alloc, capacity)?;
        self.room = capacity;
        Ok(())
    }

    /// Returns how many more records there is room for.
    pub fn room(&self) -> usize
        ensures room { result ≡ self.now.room }
    {
        self.room
    }

    /// Appends a record. Takes no memory.
    pub fn push(&mut self, entry: Record)
        requires room { 0 < self.old.room }
        ensures records { self.new.records ≡ self.old.records ++ entry ∷ [] }
        ensures room { self.new.room + 1 ≡ self.old.room }
    {
        self.records.push_reserved(entry);
        self.room -= 1;
    }

    /// Returns the records in their order.
    pub fn records(&self) -> &[Record]
        ensures records { result.now ≡ self.now.records }
    {
        self.records.as_slice()
    }
}
