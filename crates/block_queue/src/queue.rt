//! A queue in blocks.
ghost use Rattle.std.specs.Prelude.{◌≡◌, ◌+◌, ◌++◌, ◌∷◌, ◌<◌, ◌≤◌, ◌^◌, [], length, take, drop, remove, slice_get, IfSome, OnSome, OnOk, OnErr};
ghost use Rattle.std.specs.Vec.{vec_len, vec_capacity};
ghost use Rattle.std.specs.VecDeque.{deque_len, deque_capacity};
ghost use Rattle.std.specs.Option.{option_copied};
ghost use Rattle.block_queue.specs.Groups.{in_group, in_groups, behind_front, IsGroup, AreGroups};

use crate::block::{Block, take_out};
use crate::group::Group;
use std::alloc::{AllocError, Global};
use std::collections::VecDeque;
use std::marker::Model;
use std::mem::replace;

/// How many members a ring has before the first of them is removed.
const RING: usize = 32;

/// How many rings a group has before the first of them is dropped.
const GROUP: usize = 16;

/// How many members there are at most, with those for which there is room: far more than memory holds.
const MOST: usize = 1 << 62;

/// Members, first in first out, of which each is also reached and removed by its index. They stand in rings, and rings in
/// groups. A search goes over groups, then over the rings of one group. What stands behind a removed member moves in one
/// ring alone. A short queue is one ring, the back.
pub struct BlockQueue<T> {
    alloc: Global,
    /// The first ring.
    front: VecDeque<T>,
    /// The rings behind it, in groups of `GROUP`.
    groups: Group<Group<VecDeque<T>>>,
    /// The rings behind those, which are fewer.
    rings: Group<VecDeque<T>>,
    /// The last members: fewer than `2 * RING`, if memory sufficed for each ring.
    back: VecDeque<T>,
    /// How many members can be appended without memory.
    room: usize,
}

impl<T: Drop> Drop for BlockQueue<T> {
    fn drop(self) {
        let BlockQueue {
            alloc: _,
            front: _,
            groups: _,
            rings: _,
            back: _,
            room: _,
        } = self;
    }
}

impl<T> Model for BlockQueue<T> {
    ghost use Rattle.block_queue.specs.Queue.{Queue, queue_code};

    ghost Value = { Queue T };

    ghost coded = { queue_code T.code };

    ghost use Rattle.std.specs.Prelude.{◌+◌, ◌≤◌, ◌^◌, ◌++◌};
    ghost use Rattle.std.specs.VecDeque.{deque_len, deque_capacity};
    ghost use Rattle.block_queue.specs.Groups.{behind_front, IsGroup, AreGroups};

    ghost view = { λ q. record {
      members = q.front.items ++ behind_front q.groups q.rings q.back;
      room = q.room;
    } };

    ghost invariant = { λ q. AreGroups q.groups × IsGroup q.rings
        × (deque_len q.back + q.room ≤ deque_capacity q.back)
        × (deque_len q.front + q.groups.len + q.rings.len + deque_len q.back + q.room ≤ 2 ^ 62) };
}

impl<T: Drop> BlockQueue<T> {
    /// Makes a queue without members. It takes no memory.
    pub fn new(alloc: Global) -> BlockQueue<T>
        ensures empty { result.members ≡ [] }
        ensures room { result.room ≡ 0 }
    {
        BlockQueue {
            alloc,
            front: VecDeque::new(alloc),
            groups: Group::new(alloc),
            rings: Group::new(alloc),
            back: VecDeque::new(alloc),
            room: 0,
        }
    }

    /// Returns how many members there are.
    pub fn len(&self) -> usize
        ensures len { result ≡ length self.now.members }
        ensures most { result ≤ 2 ^ 62 }
    {
        self.front.len() + self.groups.len() + self.rings.len() + self.back.len()
    }

    /// Returns the member at `index`, if there is one.
    pub fn get(&self, index: usize) -> Option<&T>
        ensures member { option_copied result ≡ slice_get self.now.members index }
    {
        self.run_from(index).first()
    }

    /// Returns the members from `index` on that stand side by side: at least one, if there are more than `index`. So all
    /// members are looked at with a search for each run of them.
    pub fn run_from(&self, index: usize) -> &[T]
        ensures run { result.now ≡ take (length result.now) (drop index self.now.members) }
        ensures some { index < length self.now.members → 0 < length result.now }
    {
        let in_front = self.front.len();
        if index < in_front {
            return self.front.run_from(index);
        }
        run_behind(&self.groups, &self.rings, &self.back, index - in_front)
    }

    /// Removes the member at `index` and returns it, if there is one. It takes no memory.
    pub fn remove(&mut self, index: usize) -> Option<T>
        ensures value { result ≡ slice_get self.old.members index }
        ensures rest { self.new.members ≡ remove self.old.members index }
        ensures room { self.new.room ≡ self.old.room }
    {
        let in_front = self.front.len();
        if index < in_front {
            return remove_front(&mut self.front, &mut self.groups, &mut self.rings, index);
        }
        let index = index - in_front;
        remove_behind(&mut self.groups, &mut self.rings, &mut self.back, index)
    }

    /// Makes room for `additional` more members.
    pub fn reserve(&mut self, additional: usize) -> Result<(), AllocError>
        ensures members { self.new.members ≡ self.old.members }
        ensures room { OnOk result (additional ≤ self.new.room) }
        ensures full { OnErr result (self.old.room < additional) }
        ensures never_less { self.old.room ≤ self.new.room }
    {
        if additional <= self.room {
            return Ok(());
        }
        let most = MOST - self.len();
        if additional > most {
            return Err(AllocError);
        }
        self.back.reserve(additional)?;
        self.room = most.min(self.back.capacity() - self.back.len());
        Ok(())
    }

    /// Appends `member`, for which there is room. It takes memory for a ring now and then. Where that is refused, the
    /// members are the same, and a removal costs more.
    pub fn push_reserved(&mut self, member: T)
        requires room { 0 < self.old.room }
        ensures members { self.new.members ≡ self.old.members ++ member ∷ [] }
        ensures room { self.new.room + 1 ≡ self.old.room }
    {
        self.room -= 1;
        self.back.push_back_reserved(member);
        if self.back.len() >= 2 * RING {
            self.pack();
        }
    }

    /// Moves the first members of the back into a ring of their own, if memory suffices.
    fn pack(&mut self)
        ensures members { self.new.members ≡ self.old.members }
        ensures room { self.new.room ≡ self.old.room }
    {
        let Some(mut ring) = new_ring(self.alloc, &mut self.groups, &mut self.rings) else {
            return;
        };
        move_front(&mut self.back, &mut ring);
        if self.front.len() + self.groups.len() + self.rings.len() == 0 {
            self.front = ring;
            return;
        }
        self.rings.push_reserved(ring);
        if self.rings.count() >= GROUP {
            let group = replace(&mut self.rings, Group::new(self.alloc));
            self.groups.push_reserved(group);
        }
    }
}

/// Returns the members from `index` on of `groups`, `rings` and `back` together that stand side by side: at least one, if
/// there are more than `index`.
fn run_behind<'a, T: Drop>(
    groups: &'a Group<Group<VecDeque<T>>>,
    rings: &'a Group<VecDeque<T>>,
    back: &'a VecDeque<T>,
    index: usize,
) -> &'a [T]
    requires groups { AreGroups groups.now }
    requires rings { IsGroup rings.now }
    ensures run { result.now ≡ take (length result.now) (drop index (behind_front groups.now rings.now back.now)) }
    ensures some { index < length (behind_front groups.now rings.now back.now) → 0 < length result.now }
{
    let (in_groups, in_rings) = (groups.len(), rings.len());
    if index < in_groups {
        return groups.run_from(index);
    }
    if index - in_groups < in_rings {
        return rings.run_from(index - in_groups);
    }
    back.run_from(index - in_groups - in_rings)
}

/// Removes the member at `index` of `groups`, `rings` and `back` together, and returns it, if there is one.
fn remove_behind<T: Drop>(
    groups: &mut Group<Group<VecDeque<T>>>,
    rings: &mut Group<VecDeque<T>>,
    back: &mut VecDeque<T>,
    index: usize,
) -> Option<T>
    requires groups { AreGroups groups.old }
    requires rings { IsGroup rings.old }
    ensures groups { AreGroups groups.new }
    ensures rings { IsGroup rings.new }
    ensures value { result ≡ slice_get (behind_front groups.old rings.old back.old) index }
    ensures rest { behind_front groups.new rings.new back.new
        ≡ remove (behind_front groups.old rings.old back.old) index }
    ensures fewer { groups.new.len + rings.new.len + deque_len back.new
        ≤ groups.old.len + rings.old.len + deque_len back.old }
    ensures back { deque_len back.new ≤ deque_len back.old }
    ensures capacity { deque_capacity back.new ≡ deque_capacity back.old }
{
    let (in_groups, in_rings) = (groups.len(), rings.len());
    if index < in_groups {
        return groups.remove(index);
    }
    if index - in_groups < in_rings {
        return rings.remove(index - in_groups);
    }
    take_out(back, index - in_groups - in_rings)
}

/// Removes the member at `index` of `front` and returns it. If `front` has no other, the next ring of `groups` or `rings`
/// becomes the front.
fn remove_front<T: Drop>(
    front: &mut VecDeque<T>,
    groups: &mut Group<Group<VecDeque<T>>>,
    rings: &mut Group<VecDeque<T>>,
    index: usize,
) -> Option<T>
    requires inside { index < length front.old.items }
    requires groups { AreGroups groups.old }
    requires rings { IsGroup rings.old }
    ensures groups { AreGroups groups.new }
    ensures rings { IsGroup rings.new }
    ensures value { result ≡ slice_get front.old.items index }
    ensures rest { front.new.items ++ (in_groups groups.new ++ in_group rings.new)
        ≡ remove front.old.items index ++ (in_groups groups.old ++ in_group rings.old) }
    ensures fewer { deque_len front.new + groups.new.len + rings.new.len
        ≤ deque_len front.old + groups.old.len + rings.old.len }
{
    let member = take_out(front, index);
    if front.is_empty() {
        *front = next_ring(groups, rings);
    }
    member
}

/// Takes the first ring out of `groups`, or of `rings` if there are no groups. It is empty if neither has a ring.
fn next_ring<T: Drop>(
    groups: &mut Group<Group<VecDeque<T>>>,
    rings: &mut Group<VecDeque<T>>,
) -> VecDeque<T>
    requires groups { AreGroups groups.old }
    requires rings { IsGroup rings.old }
    ensures groups { AreGroups groups.new }
    ensures rings { IsGroup rings.new }
    ensures members { result.items ++ (in_groups groups.new ++ in_group rings.new)
        ≡ in_groups groups.old ++ in_group rings.old }
    ensures count { deque_len result + groups.new.len + rings.new.len ≡ groups.old.len + rings.old.len }
{
    if groups.len() == 0 {
        return rings.take_ring();
    }
    groups.take_ring()
}

/// Makes an empty ring, with room for it in `rings`, and for one more group in `groups`. Returns none if memory is
/// refused.
fn new_ring<T>(
    alloc: Global,
    groups: &mut Group<Group<VecDeque<T>>>,
    rings: &mut Group<VecDeque<T>>,
) -> Option<VecDeque<T>>
    ensures groups { (groups.new.blocks.items ≡ groups.old.blocks.items) × (groups.new.len ≡ groups.old.len) }
    ensures rings { (rings.new.blocks.items ≡ rings.old.blocks.items) × (rings.new.len ≡ rings.old.len) }
    ensures empty { IfSome result (λ ring. ring.items ≡ []) }
    ensures room { IfSome result (λ ring. (deque_len ring ≡ 0) × (32 ≤ deque_capacity ring)) }
    ensures group_room { OnSome result (vec_len groups.new.blocks < vec_capacity groups.new.blocks) }
    ensures ring_room { OnSome result (vec_len rings.new.blocks < vec_capacity rings.new.blocks) }
{
    groups.reserve().ok()?;
    rings.reserve().ok()?;
    VecDeque::with_capacity(alloc, RING).ok()
}

/// Moves the first members of `back` to the end of `ring`, as many as a ring has.
fn move_front<T: Drop>(back: &mut VecDeque<T>, ring: &mut VecDeque<T>)
    requires room { deque_len ring.old + 32 ≤ deque_capacity ring.old }
    ensures members { ring.new.items ++ back.new.items ≡ ring.old.items ++ back.old.items }
    ensures len { deque_len ring.new + deque_len back.new ≡ deque_len ring.old + deque_len back.old }
    ensures never_more { deque_len back.new ≤ deque_len back.old }
    ensures capacity { deque_capacity back.new ≡ deque_capacity back.old }
{
    for _ in 0..RING {
        let Some(member) = back.pop_front() else {
            return;
        };
        ring.push_back_reserved(member);
    }
}
