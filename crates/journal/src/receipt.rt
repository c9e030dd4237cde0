//! What a worker keeps of its turns.
ghost use Rattle.std.specs.Prelude.{◌≡◌, ◌↔◌, ◌+◌, ◌<◌, ◌≤◌, ◌++◌, ◌∷◌, [], length, true, false, IsTrue, IfOk, OnOk, OnErr};
ghost use Rattle.journal.specs.Receipts.{IsFresh};

use eden_base::{NameRoom, NoMemory};
use fuse_wire::{Answer, Ask, BatchRoom, Request};
use std::alloc::Global;
use std::marker::Model;

/// What one turn of a worker was: the ask that the worker took, its answer, and the index of its record in the journal.
/// A forget has no answer.
#[derive(Drop)]
pub struct Receipt {
    pub position: usize,
    pub ask: Ask,
    pub answer: Option<Answer>,
}

/// Memory for the copy of one request.
#[derive(Drop)]
struct CopyRoom {
    first: NameRoom,
    second: NameRoom,
    batch: BatchRoom,
}

/// The receipts of a worker in the order of its turns, with memory for more. One spare room, of some 4.6 kB, is there
/// for the copy of a request if memory is refused. A room for each turn would cost more than the turn. Contracts see a
/// `ReceiptsState`: the receipts, the count of free places, and whether the spare room is there.
pub struct Receipts {
    alloc: Global,
    receipts: Vec<Receipt>,
    places: usize,
    spare: Option<CopyRoom>,
}

impl Drop for Receipts {
    fn drop(self) {
        let Receipts {
            alloc: _,
            receipts: _,
            places: _,
            spare: _,
        } = self;
    }
}

impl Model for Receipts {
    ghost use Rattle.std.specs.Prelude.{◌+◌, ◌≤◌, vec_len, vec_capacity};
    ghost use Rattle.std.specs.Option.{is_some};
    ghost use Rattle.journal.specs.Receipts.{ReceiptsState};

    ghost Value = { ReceiptsState };

    ghost view = { λ kept. record {
      list = kept.receipts.items;
      places = kept.places;
      spare = is_some kept.spare;
    } };

    ghost invariant = { λ kept. vec_len kept.receipts + kept.places ≤ vec_capacity kept.receipts };
}

impl CopyRoom {
    /// Takes memory for two names and a batch. A request has a name or a batch at most.
    fn new(alloc: Global) -> Result<CopyRoom, NoMemory> {
        let first = NameRoom::new(alloc)?;
        let second = NameRoom::new(alloc)?;
        let batch = BatchRoom::new(alloc)?;
        Ok(CopyRoom {
            first,
            second,
            batch,
        })
    }
}

impl Receipts {
    /// Takes the memory for the receipts of `turns` turns, and for the spare room.
    pub fn new(alloc: Global, turns: usize) -> Result<Receipts, NoMemory>
        ensures empty { IfOk result (λ kept. kept.list ≡ []) }
        ensures places { IfOk result (λ kept. kept.places ≡ turns) }
        ensures spare { IfOk result (λ kept. kept.spare ≡ true) }
    {
        let spare = CopyRoom::new(alloc)?;
        let receipts = Vec::with_capacity(alloc, turns)?;
        Ok(Receipts {
            alloc,
            receipts,
            places: turns,
            spare: Some(spare),
        })
    }

    /// Returns whether there is no receipt, a free place for each of `turns` turns, and the spare room.
    pub fn is_fresh(&self, turns: usize) -> bool
        ensures fresh { IsTrue result ↔ IsFresh turns self.now }
    {
        self.receipts.is_empty() && turns <= self.places && self.spare.is_some()
    }

    /// Returns whether the spare room is there.
    pub fn has_spare(&self) -> bool
        ensures spare { result ≡ self.now.spare }
    {
        self.spare.is_some()
    }

    /// Drops the receipts, and keeps their memory for others.
    pub fn clear(&mut self)
        ensures list { self.new.list ≡ [] }
        ensures places { self.old.places + length self.old.list ≤ self.new.places }
        ensures spare { self.new.spare ≡ self.old.spare }
    {
        self.receipts.clear();
        self.places = self.receipts.capacity();
    }

    /// Drops the receipts, and takes memory if there are too few free places for `turns` turns, or no spare room.
    pub fn refill(&mut self, turns: usize) -> Result<(), NoMemory>
        ensures fresh { OnOk result (IsFresh turns self.new) }
        ensures needed { OnErr result (IsFresh turns self.old → ⊥) }
    {
        if self.is_fresh(turns) {
            return Ok(());
        }
        self.clear();
        self.refill_places(turns)?;
        self.refill_spare()
    }

    /// Takes memory for the receipts of `turns` turns, if there are too few free places.
    fn refill_places(&mut self, turns: usize) -> Result<(), NoMemory>
        requires none { self.old.list ≡ [] }
        ensures none { self.new.list ≡ [] }
        ensures places { OnOk result (turns ≤ self.new.places) }
        ensures spare { self.new.spare ≡ self.old.spare }
    {
        if turns <= self.places {
            return Ok(());
        }
        self.receipts = Vec::with_capacity(self.alloc, turns)?;
        self.places = turns;
        Ok(())
    }

    /// Takes memory for the spare room, if it was used.
    fn refill_spare(&mut self) -> Result<(), NoMemory>
        ensures list { self.new.list ≡ self.old.list }
        ensures places { self.new.places ≡ self.old.places }
        ensures spare { OnOk result (self.new.spare ≡ true) }
    {
        if self.spare.is_some() {
            return Ok(());
        }
        let room = CopyRoom::new(self.alloc)?;
        self.spare = Some(room);
        Ok(())
    }

    /// Makes a copy of `request`, in new memory, or in the spare room if memory is refused.
    pub fn copy(&mut self, request: &Request) -> Request
        requires spare { self.old.spare ≡ true }
        ensures copy { result ≡ request.now }
        ensures list { self.new.list ≡ self.old.list }
        ensures places { self.new.places ≡ self.old.places }
    {
        match request.copy(self.alloc) {
            Ok(copy) => copy,
            Err(NoMemory) => self.copy_to_spare(request),
        }
    }

    /// Makes a copy of `request` in the spare room.
    fn copy_to_spare(&mut self, request: &Request) -> Request
        requires spare { self.old.spare ≡ true }
        ensures copy { result ≡ request.now }
        ensures list { self.new.list ≡ self.old.list }
        ensures places { self.new.places ≡ self.old.places }
    {
        let Some(room) = self.spare.take() else {
            unreachable!()
        };
        let CopyRoom {
            first,
            second,
            batch,
        } = room;
        request.copy_to(first, second, batch)
    }

    /// Appends a receipt. Takes no memory.
    pub fn push(&mut self, receipt: Receipt)
        requires room { 0 < self.old.places }
        ensures list { self.new.list ≡ self.old.list ++ receipt ∷ [] }
        ensures places { self.new.places + 1 ≡ self.old.places }
        ensures spare { self.new.spare ≡ self.old.spare }
    {
        self.receipts.push_reserved(receipt);
        self.places -= 1;
    }

    /// Returns the receipts, in the order of the turns.
    pub fn as_slice(&self) -> &[Receipt]
        ensures list { result.now ≡ self.now.list }
    {
        self.receipts.as_slice()
    }

    /// Makes `Receipts` of this list, without a free place and without the spare room.
    pub fn of(alloc: Global, receipts: Vec<Receipt>) -> Receipts
        ensures list { result.list ≡ receipts.items }
        ensures places { result.places ≡ 0 }
        ensures spare { result.spare ≡ false }
    {
        Receipts {
            alloc,
            receipts,
            places: 0,
            spare: None,
        }
    }

    /// Returns the list of the receipts, in the order of the turns.
    pub fn into_list(self) -> Vec<Receipt>
        ensures list { result.items ≡ self.list }
    {
        let Receipts {
            alloc: _,
            receipts,
            places: _,
            spare: _,
        } = self;
        receipts
    }
}
