//! The items of a batch of forgets, out of line.
ghost use Rattle.std.specs.Prelude.{◌≡◌, ◌↔◌, ◌≤◌, ◌*◌, ◌==◌, List, length, vec_len, vec_capacity, IfOk, IsTrue};
ghost use Rattle.fuse_wire.specs.RequestBody.{items_at};

use crate::reader::Reader;
use crate::{Item, Items};
use eden_base::NoMemory;
use std::alloc::Global;
use std::marker::Model;

/// The items of a batch, at most 256, in order. They stand in separate memory, so that a `Request` has at most 88
/// bytes. With 256 items inside, a `Request` would have 4,112 bytes, which are moved at every step.
pub struct Batch {
    items: Vec<Item>,
}

impl Drop for Batch {
    fn drop(self) {
        let Batch { items: _ } = self;
    }
}

impl Model for Batch {
    ghost use Rattle.std.specs.Prelude.{◌≤◌, List, length};
    ghost use Rattle.fuse_wire.specs.declared.item.Item.{Item};

    ghost Value = { List Item };

    ghost view = { λ batch. batch.items.items };

    ghost invariant = { λ batch. length batch.items.items ≤ 256 };
}

/// Room for any one batch, which contracts see as its capacity in items. `Batch::of_to`, `Batch::copy_to` and
/// `read_request_to` consume a room, and so never run out of memory.
#[derive(Drop)]
pub struct BatchRoom {
    pub(crate) items: Vec<Item>,
}

impl Model for BatchRoom {
    ghost use Rattle.std.specs.Prelude.{◌≡◌, ℕ, ◌≤◌, vec_len, vec_capacity};

    ghost Value = { ℕ };

    ghost view = { λ room. vec_capacity room.items };

    ghost invariant = { λ room. (vec_len room.items ≡ 0) × (256 ≤ vec_capacity room.items) };
}

impl BatchRoom {
    /// Takes memory for the longest batch.
    pub fn new(alloc: Global) -> Result<BatchRoom, NoMemory>
        ensures for_any_batch { IfOk result (λ room. 256 ≤ room) }
    {
        match Vec::with_capacity(alloc, Items::MAX_LEN) {
            Ok(items) => Ok(BatchRoom { items }),
            Err(_refused) => Err(NoMemory),
        }
    }
}

impl Batch {
    /// Makes a batch of `items`.
    pub fn of(alloc: Global, items: &[Item]) -> Result<Batch, NoMemory>
        requires { length items.now ≤ 256 }
        ensures items { IfOk result (λ batch. batch ≡ items.now) }
    {
        match Vec::from_slice(alloc, items) {
            Ok(items) => Ok(Batch { items }),
            Err(_refused) => Err(NoMemory),
        }
    }

    /// Makes a batch of `items` in the memory of `room`.
    pub fn of_to(room: BatchRoom, items: &[Item]) -> Batch
        requires { length items.now ≤ 256 }
        ensures items { result ≡ items.now }
    {
        let BatchRoom { items: mut taken } = room;
        taken.extend_from_slice(items).unwrap();
        Batch { items: taken }
    }

    /// Reads a batch of `count` items from `bytes`.
    pub(crate) fn read(alloc: Global, count: usize, bytes: &[u8]) -> Result<Batch, NoMemory>
        requires whole { length bytes.now ≡ 16 * count }
        requires at_most { count ≤ 256 }
        ensures { IfOk result (λ batch. batch ≡ items_at count bytes.now) }
    {
        let items = Vec::with_capacity(alloc, count)?;
        Ok(Batch::fill(items, count, bytes))
    }

    /// Reads a batch of `count` items from `bytes`, into the memory of `room`.
    pub(crate) fn read_to(room: BatchRoom, count: usize, bytes: &[u8]) -> Batch
        requires whole { length bytes.now ≡ 16 * count }
        requires at_most { count ≤ 256 }
        ensures { result ≡ items_at count bytes.now }
    {
        Batch::fill(room.items, count, bytes)
    }

    /// Reads `count` items from `bytes` into `items`, an empty list that has room for them.
    fn fill(mut items: Vec<Item>, count: usize, bytes: &[u8]) -> Batch
        requires empty { vec_len items ≡ 0 }
        requires room { count ≤ vec_capacity items }
        requires whole { length bytes.now ≡ 16 * count }
        requires at_most { count ≤ 256 }
        ensures { result ≡ items_at count bytes.now }
    {
        let mut fields = Reader::new(bytes);
        for _ in 0..count {
            items.push_reserved(Item::read(&mut fields));
        }
        Batch { items }
    }

    /// Returns the items in their order.
    pub fn as_slice(&self) -> &[Item]
        ensures items { result.now ≡ self.now }
        ensures at_most { length result.now ≤ 256 }
    {
        self.items.as_slice()
    }

    /// Returns how many items there are.
    pub fn len(&self) -> usize
        ensures len { result ≡ length self.now }
        ensures at_most { result ≤ 256 }
    {
        self.as_slice().len()
    }

    /// Returns whether `self` and `other` have the same items in the same order.
    pub(crate) fn is(&self, other: &Batch) -> bool
        ensures same { IsTrue result ↔ (self.now ≡ other.now) }
    {
        self == other
    }

    /// Makes a copy of the batch, in memory that `alloc` gives.
    pub fn copy(&self, alloc: Global) -> Result<Batch, NoMemory>
        ensures copy { IfOk result (λ batch. batch ≡ self.now) }
    {
        Batch::of(alloc, self.as_slice())
    }

    /// Makes a copy of the batch in the memory of `room`.
    pub fn copy_to(&self, room: BatchRoom) -> Batch
        ensures copy { result ≡ self.now }
    {
        Batch::of_to(room, self.as_slice())
    }
}

impl PartialEq for Batch {
    ghost use Rattle.std.specs.Cmp.{partial_equiv_from_equiv};
    ghost use Rattle.fuse_wire.specs.Item.{same_items, same_items_equiv};

    ghost eq = { λ x y. same_items x y };

    ghost laws = { partial_equiv_from_equiv same_items_equiv };

    fn eq(&self, other: &Batch) -> bool {
        self.as_slice() == other.as_slice()
    }
}

impl Eq for Batch {
    ghost use Rattle.fuse_wire.specs.Item.{same_items_equiv};

    ghost laws = { same_items_equiv };
}
