//! A kernel's batch of forgets.
ghost use Rattle.std.specs.Prelude.{◌≡◌, ◌≤◌, ◌+◌, drop, length, slice_get};
ghost use Rattle.fuse_wire.specs.RequestBody.{item_at};
ghost use Rattle.mount_wire.specs.Batches.{forgotten_of, items_in};

use crate::KernelMessageFault;
use crate::field::{u32_at, u64_at};
use crate::header::{RequestHeader, read_unique};
use crate::opcode::BATCH_FORGET;
use eden_base::Number;
use fuse_wire::Item;
use std::marker::Model;

/// The items of a kernel's BATCH_FORGET that are left, which contracts see as a list. They stay in the bytes of the
/// message: a kernel sends thousands, and a list of them would take memory.
#[derive(Drop)]
pub struct BatchReader<'a> {
    count: usize,
    bytes: &'a [u8],
}

impl<'a> Model for BatchReader<'a> {
    ghost use Rattle.std.specs.Prelude.{◌≡◌, ◌*◌, List, length};
    ghost use Rattle.fuse_wire.specs.declared.item.Item.{Item};
    ghost use Rattle.fuse_wire.specs.RequestBody.{items_at};

    ghost Value = { List Item };

    ghost view = { λ reader. items_at reader.count reader.bytes.now };

    ghost invariant = { λ reader. length reader.bytes.now ≡ 16 * reader.count };
}

impl<'a> BatchReader<'a> {
    /// The length in bytes of `struct fuse_batch_forget_in`: count, dummy.
    const FIXED_LEN: usize = 8;

    /// The length in bytes of an item, `struct fuse_forget_one`: nodeid, nlookup.
    const ITEM_LEN: usize = 16;

    /// Makes a reader before the first item of the BATCH_FORGET that `bytes` are. Returns the first fault of the header,
    /// `BadBody` if the count is cut, or `BadCount` if the length isn't that of the count.
    #[tactic(auto, unfolding(crate::specs::Batches::forgotten_of))]
    pub fn of(bytes: &'a [u8]) -> Result<BatchReader<'a>, KernelMessageFault>
        ensures exact { result ≡ forgotten_of bytes.now }
    {
        read_unique(BATCH_FORGET, bytes)?;
        let (_, body) = bytes.split_at(RequestHeader::LEN);
        BatchReader::in_body(body)
    }

    /// Makes a reader before the first item in the `body` of a BATCH_FORGET.
    #[tactic(auto, unfolding(crate::specs::Batches::items_in))]
    fn in_body(body: &'a [u8]) -> Result<BatchReader<'a>, KernelMessageFault>
        ensures { result ≡ items_in body.now }
    {
        if body.len() < BatchReader::FIXED_LEN {
            return Err(KernelMessageFault::BadBody);
        }
        let count = u32_at(body, 0) as usize;
        if body.len() != BatchReader::FIXED_LEN + BatchReader::ITEM_LEN * count {
            return Err(KernelMessageFault::BadCount);
        }
        let (_, bytes) = body.split_at(BatchReader::FIXED_LEN);
        Ok(BatchReader { count, bytes })
    }

    /// Returns the first item that is left, if any is.
    #[tactic(auto, using(crate::proofs::Items::no_items, crate::proofs::Items::some_items))]
    pub fn first(&self) -> Option<Item>
        ensures first { result ≡ slice_get self.now 0 }
    {
        if self.count == 0 {
            return None;
        }
        Some(item_at(self.bytes, 0))
    }

    /// Leaves the first item that is left behind, if any is.
    #[tactic(auto, using(crate::proofs::Items::no_items, crate::proofs::Items::some_items))]
    pub fn skip_first(&mut self)
        ensures left { self.new ≡ drop 1 self.old }
    {
        if self.count == 0 {
            return;
        }
        let (_, rest) = self.bytes.split_at(BatchReader::ITEM_LEN);
        self.bytes = rest;
        self.count -= 1;
    }
}

/// Reads the item of `bytes` that begins at `offset`.
#[tactic(auto, using(crate::proofs::Items::fields_apart))]
fn item_at(bytes: &[u8], offset: usize) -> Item
    requires { offset + 16 ≤ length bytes.now }
    ensures { result ≡ item_at (drop offset bytes.now) }
{
    Item {
        node: Number(u64_at(bytes, offset)),
        k: u64_at(bytes, offset + 8),
    }
}
