//! The forget items that wait for a daemon.
ghost use Rattle.std.specs.Prelude.{◌≡◌, [], ◌∷◌, ◌++◌, length, take, drop, IfOk, OnOk, OnErr};
ghost use Rattle.broker_core.specs.Traffic.{forget_of};

use eden_base::NoMemory;
use fuse_wire::{Batch, BatchRoom, Item, Items, Request};
use std::alloc::Global;
use std::collections::VecDeque;
use std::marker::Model;

/// The items that wait, the oldest first, and rooms for the batches in which they may be taken.
#[derive(Drop)]
pub(crate) struct Forgets {
    items: VecDeque<Item>,
    rooms: Vec<BatchRoom>,
    alloc: Global,
}

impl Model for Forgets {
    ghost use Rattle.std.specs.Prelude.{List};
    ghost use Rattle.fuse_wire.specs.declared.item.Item.{Item};

    ghost Value = { List Item };

    ghost view = { λ forgets. forgets.items.items };

    ghost use Rattle.broker_core.specs.Roomy.{IsRoomyForBatches};

    ghost invariant = { IsRoomyForBatches };
}

impl Forgets {
    /// Makes an empty list.
    pub(crate) fn new(alloc: Global) -> Forgets
        ensures none { result ≡ [] }
    {
        Forgets {
            items: VecDeque::new(alloc),
            rooms: Vec::new(alloc),
            alloc,
        }
    }

    /// Returns how many items wait.
    pub(crate) fn len(&self) -> usize
        ensures len { result ≡ length self.now }
    {
        self.items.len()
    }

    /// Appends an item, with room for the batch in which it may be taken.
    pub(crate) fn push(&mut self, item: Item) -> Result<(), NoMemory>
        ensures pushed { OnOk result (self.new ≡ self.old ++ item ∷ []) }
        ensures unchanged { OnErr result (self.new ≡ self.old) }
    {
        if self.items.len() / Items::MAX_LEN >= self.rooms.len() {
            let room = BatchRoom::new(self.alloc)?;
            self.rooms.push(room)?;
        }
        self.items.push_back(item)?;
        Ok(())
    }

    /// Takes the first items as one request, as many as a batch may have. Takes no memory, since each item came with
    /// its room.
    pub(crate) fn take(&mut self) -> Option<Request>
        ensures taken { result ≡ forget_of (take 256 self.old) }
        ensures left { self.new ≡ drop 256 self.old }
    {
        if self.items.len() <= 1 {
            let item = self.items.pop_front()?;
            return Some(Request::Forget(item));
        }
        let first = first_items(&mut self.items);
        match self.rooms.pop() {
            Some(room) => Some(Request::BatchForget(Batch::of_to(room, first.as_slice()))),
            None => unreachable!(),
        }
    }

    /// Returns the items, the oldest first.
    pub(crate) fn items(&self) -> &VecDeque<Item>
        ensures items { result.now.items ≡ self.now }
    {
        &self.items
    }
}

/// Removes the first items, as many as a batch may have, and returns them.
fn first_items(items: &mut VecDeque<Item>) -> Items
    ensures first { result ≡ take 256 items.old.items }
    ensures left { items.new.items ≡ drop 256 items.old.items }
{
    let mut first = Items::new();
    for _ in 0..Items::MAX_LEN {
        let Some(item) = items.pop_front() else {
            return first;
        };
        first.push(item);
    }
    first
}
