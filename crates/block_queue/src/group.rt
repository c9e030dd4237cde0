//! A group of blocks, each with members of its own.
ghost use Rattle.std.specs.Prelude.{◌≡◌, ◌+◌, ◌^◌, ◌++◌, ◌∷◌, ◌<◌, [], List, length, take, All, flat_map, remove, slice_get, slice_index_or, OnOk};
ghost use Rattle.std.specs.Vec.{vec_len, vec_capacity};

use crate::block::Block;
use std::alloc::{AllocError, Global};
use std::collections::VecDeque;

/// Blocks one after another, and how many members they have together.
#[derive(Drop)]
pub(crate) struct Group<B> {
    blocks: Vec<B>,
    len: usize,
}

impl<B> Group<B> {
    /// Makes a group without blocks.
    pub(crate) fn new(alloc: Global) -> Group<B>
        ensures blocks { result.blocks.items ≡ [] }
        ensures len { result.len ≡ 0 }
    {
        Group {
            blocks: Vec::new(alloc),
            len: 0,
        }
    }

    /// Returns how many blocks there are.
    pub(crate) fn count(&self) -> usize
        ensures count { result ≡ length self.now.blocks.items }
    {
        self.blocks.len()
    }

    /// Makes room for one more block.
    pub(crate) fn reserve(&mut self) -> Result<(), AllocError>
        ensures blocks { self.new.blocks.items ≡ self.old.blocks.items }
        ensures len { self.new.len ≡ self.old.len }
        ensures room { OnOk result (vec_len self.new.blocks < vec_capacity self.new.blocks) }
    {
        self.blocks.reserve(1)
    }
}

impl<B: Block> Group<B> {
    /// Appends `block`.
    pub(crate) fn push_reserved(&mut self, block: B)
        requires room { vec_len self.old.blocks < vec_capacity self.old.blocks }
        requires block { B.IsCounted block }
        requires blocks { All B.IsCounted self.old.blocks.items }
        requires counted { self.old.len ≡ length (flat_map B.members self.old.blocks.items) }
        requires fits { self.old.len + length (B.members block) < 2 ^ 64 }
        ensures blocks { All B.IsCounted self.new.blocks.items }
        ensures counted { self.new.len ≡ length (flat_map B.members self.new.blocks.items) }
        ensures members { flat_map B.members self.new.blocks.items
            ≡ flat_map B.members self.old.blocks.items ++ B.members block }
        ensures len { self.new.len ≡ self.old.len + length (B.members block) }
    {
        self.len += block.len();
        self.blocks.push_reserved(block);
    }
}

impl<B: Block> Block for Group<B> {
    type Member = B::Member;

    ghost members = { λ group. flat_map B.members group.blocks.items };

    ghost IsCounted = { λ group. All B.IsCounted group.blocks.items
        × (group.len ≡ length (flat_map B.members group.blocks.items)) };

    /// Returns the length that is kept.
    fn len(&self) -> usize {
        self.len
    }

    /// Returns the run of the block that has the member at `index`, or an empty one if there is no such member.
    fn run_from(&self, index: usize) -> &[B::Member] {
        if index >= self.len {
            return &[];
        }
        let (at, within) = find(self.blocks.as_slice(), self.len, index);
        self.blocks[at].run_from(within)
    }

    /// Removes the member from its block, and then the block if it is empty. It is inlined, so that groups of groups
    /// take one call for both levels.
    #[inline(always)]
    fn remove(&mut self, index: usize) -> Option<B::Member> {
        if index >= self.len {
            return None;
        }
        let (at, within) = find(self.blocks.as_slice(), self.len, index);
        let removed = remove_within(&mut self.blocks, at, within);
        self.len -= 1;
        drop_if_empty(&mut self.blocks, at);
        removed
    }

    /// Takes the first ring of the first block, and then removes the block if it is empty.
    fn take_ring(&mut self) -> VecDeque<B::Member> {
        if self.blocks.is_empty() {
            return VecDeque::new(*self.blocks.allocator());
        }
        let ring = self.blocks[0].take_ring();
        self.len -= ring.len();
        drop_if_empty(&mut self.blocks, 0);
        ring
    }
}

/// Returns the index of the block that has the member at `index`, and the member's index in that block. `len` is how many
/// members there are. The search begins at the nearer end.
fn find<B: Block>(blocks: &[B], len: usize, index: usize) -> (usize, usize)
    requires counted { All B.IsCounted blocks.now }
    requires len { len ≡ length (flat_map B.members blocks.now) }
    requires within { index < len }
    ensures bound { result.0 < length blocks.now }
    ensures before { length (flat_map B.members (take result.0 blocks.now)) + result.1 ≡ index }
    ensures inside { (d : B) → result.1 < length (B.members (slice_index_or blocks.now result.0 d)) }
{
    if index < len / 2 {
        find_from_front(blocks, index)
    } else {
        find_from_back(blocks, len, index)
    }
}

/// Finds a member as `find` does, from the first block on.
fn find_from_front<B: Block>(blocks: &[B], index: usize) -> (usize, usize)
    requires counted { All B.IsCounted blocks.now }
    requires within { index < length (flat_map B.members blocks.now) }
    ensures bound { result.0 < length blocks.now }
    ensures before { length (flat_map B.members (take result.0 blocks.now)) + result.1 ≡ index }
    ensures inside { (d : B) → result.1 < length (B.members (slice_index_or blocks.now result.0 d)) }
{
    let mut rest = index;
    for (at, block) in blocks.iter().enumerate() {
        let len = block.len();
        if rest < len {
            return (at, rest);
        }
        rest -= len;
    }
    unreachable!()
}

/// Finds a member as `find` does, from the last block back.
fn find_from_back<B: Block>(blocks: &[B], len: usize, index: usize) -> (usize, usize)
    requires counted { All B.IsCounted blocks.now }
    requires len { len ≡ length (flat_map B.members blocks.now) }
    requires within { index < len }
    ensures bound { result.0 < length blocks.now }
    ensures before { length (flat_map B.members (take result.0 blocks.now)) + result.1 ≡ index }
    ensures inside { (d : B) → result.1 < length (B.members (slice_index_or blocks.now result.0 d)) }
{
    let (mut at, mut begin) = (blocks.len(), len);
    while at > 0 {
        at -= 1;
        begin -= blocks[at].len();
        if begin <= index {
            return (at, index - begin);
        }
    }
    unreachable!()
}

/// Removes the member at `within` of the block at `at`, and returns it.
fn remove_within<B: Block>(blocks: &mut Vec<B>, at: usize, within: usize) -> Option<B::Member>
    requires counted { All B.IsCounted blocks.old.items }
    requires bound { at < length blocks.old.items }
    requires inside { (d : B) → within < length (B.members (slice_index_or blocks.old.items at d)) }
    ensures counted { All B.IsCounted blocks.new.items }
    ensures count { length blocks.new.items ≡ length blocks.old.items }
    ensures value { result ≡ slice_get (flat_map B.members blocks.old.items)
        (length (flat_map B.members (take at blocks.old.items)) + within) }
    ensures rest { flat_map B.members blocks.new.items ≡ remove (flat_map B.members blocks.old.items)
        (length (flat_map B.members (take at blocks.old.items)) + within) }
{
    blocks[at].remove(within)
}

/// Drops the block at `at` if it has no members. It is inlined, since most blocks have some.
#[inline(always)]
fn drop_if_empty<B: Block>(blocks: &mut Vec<B>, at: usize)
    requires counted { All B.IsCounted blocks.old.items }
    requires bound { at < length blocks.old.items }
    ensures counted { All B.IsCounted blocks.new.items }
    ensures same { flat_map B.members blocks.new.items ≡ flat_map B.members blocks.old.items }
{
    if blocks[at].len() == 0 {
        drop(blocks.remove(at));
    }
}
