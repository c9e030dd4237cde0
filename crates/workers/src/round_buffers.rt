//! The memory that rounds work in.
ghost use Rattle.std.specs.Prelude.{◌≡◌, ◌↔◌, ◌+◌, ◌*◌, ◌≤◌, ℕ, [], length, vec_len, IsTrue, OnOk, OnErr};
ghost use Rattle.std.specs.List.{All};
ghost use Rattle.journal.specs.Receipts.{IsFresh};
ghost use Rattle.workers.specs.Buffers.{AreEmptied, Fit, HasNone, HasPlaces, buffers_of};

use eden_base::NoMemory;
use journal::{Journal, Receipts};
use std::alloc::Global;
use std::marker::Model;

/// Memory for the journal of a round and for its workers' receipts, handed on from one round to the next. A round takes
/// the memory that is lacking, and gives all back. Contracts see a `BuffersState`.
#[derive(Drop)]
pub struct RoundBuffers {
    journal: Journal,
    receipts: Vec<Receipts>,
}

impl Model for RoundBuffers {
    ghost use Rattle.std.specs.Prelude.{vec_len};
    ghost use Rattle.workers.specs.Buffers.{BuffersState};

    ghost Value = { BuffersState };

    ghost view = { λ buffers. record {
      journal = buffers.journal;
      receipts = buffers.receipts.items;
      workers = vec_len buffers.receipts;
    } };
}

/// Returns how many records a round needs room for: as many as its ledger has parts, less one.
fn records_of(channels: usize, turns: usize) -> usize
    requires channels { (1 ≤ channels) × (channels ≤ 16) }
    requires turns { turns ≤ 4096 }
    ensures records { result + 1 ≡ channels * (turns + 1) }
{
    channels * turns + (channels - 1)
}

/// Returns whether each worker's receipts are fresh for `turns` turns.
fn are_fresh(receipts: &[Receipts], turns: usize) -> bool
    ensures fresh { IsTrue result ↔ All (IsFresh turns) receipts.now }
{
    for kept in receipts {
        if !kept.is_fresh(turns) {
            return false;
        }
    }
    true
}

/// Drops all receipts, and keeps their memory for others.
fn clear_all(receipts: &mut [Receipts])
    ensures len { length receipts.new ≡ length receipts.old }
    ensures none { All HasNone receipts.new }
    ensures places { (turns : ℕ) → All (HasPlaces turns) receipts.old → All (HasPlaces turns) receipts.new }
{
    for kept in receipts.iter_mut() {
        kept.clear();
    }
}

/// Takes the memory that each worker's receipts lack for `turns` turns.
fn refill_all(receipts: &mut [Receipts], turns: usize) -> Result<(), NoMemory>
    ensures fresh { OnOk result (All (IsFresh turns) receipts.new) }
{
    for kept in receipts.iter_mut() {
        kept.refill(turns)?;
    }
    Ok(())
}

/// Takes memory for the receipts of more workers, so that there are `channels` workers.
fn add_workers(
    receipts: &mut Vec<Receipts>,
    alloc: Global,
    channels: usize,
    turns: usize,
) -> Result<(), NoMemory>
    requires len { vec_len receipts.old ≤ channels }
    requires fresh { All (IsFresh turns) receipts.old.items }
    ensures len { OnOk result (vec_len receipts.new ≡ channels) }
    ensures fresh { OnOk result (All (IsFresh turns) receipts.new.items) }
{
    for _worker in receipts.len()..channels {
        let kept = Receipts::new(alloc, turns)?;
        receipts.push(kept)?;
    }
    Ok(())
}

impl RoundBuffers {
    /// Makes buffers for no turn, which take no memory. The first round takes what it needs.
    pub fn new(alloc: Global) -> RoundBuffers
        ensures records { result.journal.records ≡ [] }
        ensures workers { result.workers ≡ 0 }
    {
        RoundBuffers {
            journal: Journal::without_room(alloc),
            receipts: Vec::new(alloc),
        }
    }

    /// Returns whether a round of these channels and turns needs no more memory than these buffers.
    pub fn fit(&self, channels: usize, turns: usize) -> bool
        requires channels { (1 ≤ channels) × (channels ≤ 16) }
        requires turns { turns ≤ 4096 }
        ensures fit { IsTrue result ↔ Fit channels turns self.now }
    {
        if !self.journal.records().is_empty() {
            return false;
        }
        if self.journal.room() < records_of(channels, turns) {
            return false;
        }
        if self.receipts.len() != channels {
            return false;
        }
        are_fresh(self.receipts.as_slice(), turns)
    }

    /// Takes the memory that a round of these channels and turns lacks.
    pub(crate) fn refill(
        &mut self,
        alloc: Global,
        channels: usize,
        turns: usize,
    ) -> Result<(), NoMemory>
        requires channels { (1 ≤ channels) × (channels ≤ 16) }
        requires turns { turns ≤ 4096 }
        ensures fit { OnOk result (Fit channels turns self.new) }
        ensures needed { OnErr result (Fit channels turns self.old → ⊥) }
    {
        if self.fit(channels, turns) {
            return Ok(());
        }
        self.journal.refill(alloc, records_of(channels, turns))?;
        self.receipts.truncate(channels);
        refill_all(self.receipts.as_mut_slice(), turns)?;
        add_workers(&mut self.receipts, alloc, channels, turns)
    }

    /// Makes buffers of the memory that a round worked in, and drops what the round wrote there.
    pub(crate) fn emptied(journal: Journal, receipts: Vec<Receipts>) -> RoundBuffers
        ensures emptied { AreEmptied
            (buffers_of journal receipts.items (vec_len receipts)) result }
    {
        let mut journal = journal;
        let mut receipts = receipts;
        journal.clear();
        clear_all(receipts.as_mut_slice());
        RoundBuffers { journal, receipts }
    }

    /// Returns the journal and the receipts, for a round to write in.
    pub(crate) fn into_parts(self) -> (Journal, Vec<Receipts>)
        ensures journal { result.0 ≡ self.journal }
        ensures receipts { result.1.items ≡ self.receipts }
        ensures workers { vec_len result.1 ≡ self.workers }
    {
        let RoundBuffers { journal, receipts } = self;
        (journal, receipts)
    }
}
