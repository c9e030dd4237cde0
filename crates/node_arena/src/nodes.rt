//! The arena. Contracts see its `entries`, the most recently used first, and its `capacity`.
ghost use Rattle.std.specs.Prelude.{◌≡◌, ◌≤◌, ◌<◌, ◌↔◌, [], length, Some, None, IfOk, IfErr, IsOk, IsErr, IsTrue, IfSome, ◌≢◌};
ghost use Rattle.std.specs.Borrow.{sem};
ghost use Rattle.node_arena.specs.declared.slot.Slot.{Slot};
ghost use Rattle.node_arena.specs.Arena.{arena, value_at, IsHeld, oldest_of, with_first, without, touched, IsSound};

use crate::links::Link;
use crate::region::Region;
use crate::slot::Slot;
use std::alloc::{AllocError, Global};
use std::marker::Model;

/// The index of the node where the list of the nodes in use starts and ends. That node holds no value.
const START: usize = 0;

/// An arena of at most `capacity` values, each in its own node with a slot, in the order of their last use.
pub struct NodeArena<T> {
    region: Region<T>,
    /// Leads to the first spare node, if there is one. Each spare node leads on to the next.
    spare: Link,
    capacity: u32,
    len: u32,
}

impl<T: Drop> Drop for NodeArena<T> {
    fn drop(self) {
        let NodeArena {
            region: _,
            spare: _,
            capacity: _,
            len: _,
        } = self;
    }
}

impl<T> Model for NodeArena<T> {
    ghost use Rattle.node_arena.specs.Arena.{Arena, arena_code};

    ghost Value = { Arena T };

    ghost coded = { arena_code T.code };

    ghost use Rattle.node_arena.specs.Recency.{shown, IsWhole};

    ghost view = { λ s. shown s.region s.capacity s.len };

    ghost invariant = { λ s. IsWhole s.region s.spare s.capacity s.len };
}

impl<T> NodeArena<T> {
    ghost use Rattle.node_arena.specs.NodesLends.{lends_value};

    /// Makes an arena with memory for `capacity` values. No other call takes memory.
    pub fn new(alloc: Global, capacity: usize) -> Result<NodeArena<T>, AllocError>
        requires least { 1 ≤ capacity }
        requires most { capacity ≤ 65536 }
        ensures new { IfOk result (λ n. n ≡ arena [] capacity) }
    {
        let region = Region::new(alloc, capacity + 1)?;
        let spare = region.link(capacity);
        Ok(NodeArena {
            region,
            spare,
            capacity: capacity as u32,
            len: 0,
        })
    }

    /// Returns how many values there are.
    pub fn len(&self) -> usize
        ensures len { result ≡ length self.now.entries }
    {
        self.len as usize
    }

    /// Shows what holds of every arena: no slot is listed twice, and there are at most `capacity` slots. Does nothing,
    /// and is there for a caller's proof.
    pub fn slots_are_apart(&self)
        ensures sound { IsSound self.now }
    {
        let _len = self.len;
    }

    /// Returns how many values there may be.
    pub fn capacity(&self) -> usize
        ensures capacity { result ≡ self.now.capacity }
    {
        self.capacity as usize
    }

    /// Returns whether `slot` has a value.
    pub fn is_held(&self, slot: Slot) -> bool
        ensures held { IsTrue result ↔ IsHeld self.now slot }
    {
        if slot.index > self.capacity {
            return false;
        }
        self.region.is_held(self.region.link(slot.index as usize))
    }

    /// Returns the value of `slot`.
    pub fn get(&self, slot: Slot) -> &T
        requires { IsHeld self.now slot }
        ensures value { value_at self.now slot ≡ Some result.now }
    {
        self.region.value(self.region.link(slot.index as usize))
    }

    /// Returns the value of `slot`, to write to. The order is unchanged.
    pub fn get_mut(&mut self, slot: Slot) -> &mut T
        requires { IsHeld self.old slot }
        ensures* writes_back { sem 𝓛 (lends_value T.row self.entry slot result) }
        ensures value { value_at self.old slot ≡ Some result.now }
    {
        let lent = self.region.link(slot.index as usize);
        self.region.value_mut(lent)
    }

    /// Returns the slot whose value was added or touched the longest time ago, if there is one.
    pub fn oldest(&self) -> Option<Slot>
        ensures last { result ≡ oldest_of self.now }
        ensures held { IfSome result (λ slot. IsHeld self.now slot) }
    {
        if self.len == 0 {
            return None;
        }
        let last = self.region.prev(self.region.link(START));
        Some(Slot {
            index: self.region.index(last),
        })
    }

    /// Makes `slot` the most recently used.
    pub fn touch(&mut self, slot: Slot)
        requires { IsHeld self.old slot }
        ensures first { self.new ≡ touched self.old slot }
        ensures values { (s : Slot) → value_at self.new s ≡ value_at self.old s }
    {
        let node = self.region.link(slot.index as usize);
        let start = self.region.link(START);
        self.region.unlink(node);
        self.region.link_after(start, node);
    }

    /// Removes `slot`, and returns its value. The slot may be given out again.
    pub fn remove(&mut self, slot: Slot) -> T
        requires { IsHeld self.old slot }
        ensures value { value_at self.old slot ≡ Some result }
        ensures rest { self.new ≡ without self.old slot }
        ensures gone { value_at self.new slot ≡ None }
        ensures others { (s : Slot) → s ≢ slot → value_at self.new s ≡ value_at self.old s }
    {
        let node = self.region.link(slot.index as usize);
        self.region.unlink(node);
        self.region.set_next(node, self.spare);
        self.spare = node;
        self.len -= 1;
        self.region.take(node)
    }

    /// Adds a value as the most recently used, and returns its slot. If the arena is full, returns the value.
    pub fn add(&mut self, item: T) -> Result<Slot, T>
        ensures full { IsErr result ↔ (length self.old.entries ≡ self.old.capacity) }
        ensures refused { IfErr result (λ x. (x ≡ item) × (self.new ≡ self.old)) }
        ensures fresh { IfOk result (λ slot. value_at self.old slot ≡ None) }
        ensures first { IfOk result (λ slot. self.new ≡ with_first self.old slot item) }
        ensures value { IfOk result (λ slot. value_at self.new slot ≡ Some item) }
    {
        if self.len == self.capacity {
            return Err(item);
        }
        let node = self.spare;
        let start = self.region.link(START);
        self.spare = self.region.next(node);
        self.region.link_after(start, node);
        self.region.put(node, item);
        self.len += 1;
        Ok(Slot {
            index: self.region.index(node),
        })
    }
}
