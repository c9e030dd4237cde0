//! The items of a forget.
ghost use Rattle.std.specs.Prelude.{◌≡◌, ◌↔◌, ◌<◌, ◌≤◌, ◌+◌, List, [], ◌∷◌, ◌++◌, length, drop, ◌==◌, nat_eq, IsTrue};
ghost use Rattle.fuse_wire.specs.RequestBody.{item_at};

use crate::reader::Reader;
use arrayvec::ArrayVec;
use eden_base::Number;
use std::marker::Model;

/// One item of a forget: `k` lookups of the number `node` are taken back (`nlookup` of `linux/fuse.h`).
#[derive(Clone, Copy, PartialEq, Eq)]
pub struct Item {
    pub node: Number,
    pub k: u64,
}

impl Item {
    /// The length of an item of a batch, in bytes (`struct fuse_forget_one`).
    pub(crate) const LEN: usize = 16;

    /// Returns whether `self` and `other` have the same number and the same `k`.
    pub(crate) fn is(&self, other: &Item) -> bool
        ensures same { IsTrue result ↔ (self.now ≡ other.now) }
    {
        self.node == other.node && self.k == other.k
    }

    /// Reads the next item of `fields`.
    pub(crate) fn read(fields: &mut Reader) -> Item
        requires { fields.old.at + 16 ≤ length fields.old.bytes.now }
        ensures item { result ≡ item_at (drop fields.old.at fields.old.bytes.now) }
        ensures bytes { fields.new.bytes.now ≡ fields.old.bytes.now }
        ensures at { fields.new.at ≡ fields.old.at + 16 }
    {
        let node = Number(fields.u64());
        let k = fields.u64();
        Item { node, k }
    }
}

impl Default for Item {
    fn default() -> Item {
        Item {
            node: Number(0),
            k: 0,
        }
    }
}

/// The items of a batch, at most 256, in order. They stand in the value itself.
#[derive(Drop)]
pub struct Items {
    items: ArrayVec<Item, 256>,
}

impl Model for Items {
    ghost use Rattle.std.specs.Prelude.{◌≤◌, List, length};
    ghost use Rattle.fuse_wire.specs.declared.item.Item.{Item};

    ghost Value = { List Item };

    ghost view = { λ batch. batch.items.items };

    ghost invariant = { λ batch. length batch.items.items ≤ 256 };
}

impl Items {
    /// The greatest count of items in a batch. The limit is this project's own.
    pub const MAX_LEN: usize = 256;

    /// Makes an empty list.
    pub fn new() -> Items
        ensures empty { result ≡ [] }
    {
        Items {
            items: ArrayVec::new(),
        }
    }

    /// Adds an item at the end.
    pub fn push(&mut self, item: Item)
        requires { length self.old < 256 }
        ensures pushed { self.new ≡ self.old ++ item ∷ [] }
    {
        self.items.push(item);
    }

    /// Returns the items in their order.
    pub fn as_slice(&self) -> &[Item]
        ensures items { result.now ≡ self.now }
        ensures at_most { length result.now ≤ 256 }
    {
        self.items.as_slice()
    }

    /// Returns how many items there are.
    pub fn len(&self) -> usize
        ensures len { result ≡ length self.now }
        ensures at_most { result ≤ 256 }
    {
        self.items.len()
    }
}
