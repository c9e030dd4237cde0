//! The reads of a pool of threads, from their start to their end.
ghost use Rattle.std.specs.Prelude.{◌≡◌, ◌<◌, ◌++◌, ◌∷◌, [], length, position, Some, IfOk, OnErr};
ghost use Rattle.std.specs.Option.{IfSome};
ghost use Rattle.blob_store.specs.ReadTable.{BeginsAt, EndsAt, ForgetsAt, LooksAt, end_of, ended_by, has_ended, has_ticket, is_waiting};
ghost use Rattle.blob_store.specs.declared.read_table.ReadStage.TheVariants.{Waits};

use crate::blob_store::{BlobFault, PendingRead, ReadEnding};
use eden_base::NoMemory;
use fuse_wire::{Buffer, Extent};
use monitor::Patience;
use std::alloc::Global;
use std::time::Instant;

/// How far a read is.
#[derive(Drop)]
pub(crate) enum ReadStage {
    /// No thread has begun it.
    Waits,
    /// A thread makes it.
    Runs,
    /// It has ended, and gave this.
    Ended(Result<Buffer, BlobFault>),
}

/// How a read ended.
#[derive(Drop)]
pub(crate) enum ReadEnd {
    /// It gave this.
    Gave(Result<Buffer, BlobFault>),
    /// It took too long.
    Late,
    /// It was ended before, for this cause.
    Cut(ReadEnding),
}

/// A read of a pool, and how much longer it may take.
#[derive(Drop)]
pub(crate) struct PoolRead {
    pub read: PendingRead,
    pub stage: ReadStage,
    pub patience: Patience,
}

impl PoolRead {
    /// Returns whether no thread has begun it.
    fn is_waiting(&self) -> bool
        ensures waiting { result ≡ is_waiting self.now }
    {
        matches!(self.stage, ReadStage::Waits)
    }

    /// Returns whether it has ended.
    fn has_ended(&self) -> bool
        ensures ended { result ≡ has_ended self.now }
    {
        matches!(self.stage, ReadStage::Ended(_))
    }
}

/// The reads of a pool, in the order in which they were started.
#[derive(Drop)]
pub(crate) struct ReadTable {
    pub reads: Vec<PoolRead>,
    pub tickets: u64,
}

/// Returns the place of the first of these reads that no thread has begun, if there is one.
fn waiting_place(reads: &[PoolRead]) -> Option<usize>
    ensures place { result ≡ position is_waiting reads.now }
    ensures within { IfSome result (λ place. place < length reads.now) }
{
    reads.iter().position(|pool| pool.is_waiting())
}

/// Returns the place of the read that has `ticket`, if there is one.
fn place_of(reads: &[PoolRead], ticket: u64) -> Option<usize>
    ensures place { result ≡ position (has_ticket ticket) reads.now }
    ensures within { IfSome result (λ place. place < length reads.now) }
{
    reads.iter().position(|pool| pool.read.ticket == ticket)
}

impl ReadTable {
    /// Makes a table without a read.
    pub(crate) fn new(alloc: Global) -> ReadTable
        ensures none { result.reads.items ≡ [] }
    {
        ReadTable {
            reads: Vec::new(alloc),
            tickets: 0,
        }
    }

    /// Starts a read of a part of a file, which may take as long as `patience` says.
    pub(crate) fn start(
        &mut self,
        extent: Extent,
        patience: Patience,
    ) -> Result<PendingRead, NoMemory>
        ensures read { IfOk result (λ read. read ≡ record { extent = extent; ticket = self.old.tickets }) }
        ensures last { IfOk result (λ read. self.new.reads.items
            ≡ self.old.reads.items ++ record { read = read; stage = Waits; patience = patience } ∷ []) }
        ensures refused { OnErr result (self.new.reads.items ≡ self.old.reads.items) }
    {
        let read = PendingRead {
            extent,
            ticket: self.tickets,
        };
        self.reads.push(PoolRead {
            read,
            stage: ReadStage::Waits,
            patience,
        })?;
        self.tickets = self.tickets.wrapping_add(1);
        Ok(read)
    }

    /// Begins the first read that no thread has begun, and returns it.
    pub(crate) fn next(&mut self) -> Option<PendingRead>
        ensures begins { BeginsAt (position is_waiting self.old.reads.items) self.old.reads.items result
            self.new.reads.items }
    {
        let place = waiting_place(self.reads.as_slice())?;
        let read = self.reads[place].read;
        self.reads[place].stage = ReadStage::Runs;
        Some(read)
    }

    /// Notes what the read that has `ticket` gave. That of a read that was forgotten is dropped.
    pub(crate) fn end(&mut self, ticket: u64, given: Result<Buffer, BlobFault>)
        ensures ends { EndsAt (position (has_ticket ticket) self.old.reads.items) given self.old.reads.items
            self.new.reads.items }
    {
        if let Some(place) = place_of(self.reads.as_slice(), ticket) {
            self.reads[place].stage = ReadStage::Ended(given);
        }
    }

    /// Looks at the moment `now` at the read that has `ticket`, and returns how it ended, if it did: so or so it is forgotten
    /// then. One that is not there is late.
    pub(crate) fn look(&mut self, ticket: u64, now: Option<Instant>) -> Option<ReadEnd>
        ensures looks { LooksAt (position (has_ticket ticket) self.old.reads.items) now self.old.reads.items result
            self.new.reads.items }
    {
        let Some(place) = place_of(self.reads.as_slice(), ticket) else {
            return Some(ReadEnd::Late);
        };
        let patience = self.reads[place].patience.after(now);
        if self.reads[place].has_ended() || patience.is_spent() {
            let PoolRead { stage, .. } = self.reads.remove(place);
            return Some(end_of(stage));
        }
        self.reads[place].patience = patience;
        None
    }

    /// Forgets the read that has `ticket`.
    pub(crate) fn forget(&mut self, ticket: u64)
        ensures forgets { ForgetsAt (position (has_ticket ticket) self.old.reads.items) self.old.reads.items
            self.new.reads.items }
    {
        if let Some(place) = place_of(self.reads.as_slice(), ticket) {
            let _read = self.reads.remove(place);
        }
    }
}

/// Returns how a read ends that is at this stage as its wait ends.
fn end_of(stage: ReadStage) -> ReadEnd
    ensures end { result ≡ end_of stage }
{
    match stage {
        ReadStage::Ended(given) => ReadEnd::Gave(given),
        _ => ReadEnd::Late,
    }
}

/// Returns how a read ends that is waited for no more: as it ended by itself, or else for the cause `ending`.
pub(crate) fn ended_by(end: Option<ReadEnd>, ending: ReadEnding) -> ReadEnd
    ensures end { result ≡ ended_by end ending }
{
    match end {
        Some(end) => end,
        None => ReadEnd::Cut(ending),
    }
}
