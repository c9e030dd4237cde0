//! A block: a ring of members, or a group of blocks.
ghost use Rattle.std.specs.Prelude.{◌≡◌, ◌<◌, ◌≤◌, ◌+◌, ◌++◌, List, length, take, drop, remove, slice_get};
ghost use Rattle.std.specs.VecDeque.{deque_len, deque_capacity};

use std::collections::VecDeque;
use std::mem::replace;

/// Members in an order.
pub(crate) trait Block: Drop {
    type Member;

    /// The members in their order.
    ghost members: { Self → List Self.Member };

    /// The lengths that are kept are those of the members.
    ghost IsCounted: { Self → Type 0 };

    /// Returns how many members there are.
    fn len(&self) -> usize
        requires counted { IsCounted self.now }
        ensures len { result ≡ length (members self.now) };

    /// Returns the members from `index` on that stand side by side: at least one, if there are more than `index`.
    fn run_from(&self, index: usize) -> &[Self::Member]
        requires counted { IsCounted self.now }
        ensures run { result.now ≡ take (length result.now) (drop index (members self.now)) }
        ensures some { index < length (members self.now) → 0 < length result.now };

    /// Removes the member at `index` and returns it, if there is one.
    fn remove(&mut self, index: usize) -> Option<Self::Member>
        requires counted { IsCounted self.old }
        ensures counted { IsCounted self.new }
        ensures value { result ≡ slice_get (members self.old) index }
        ensures rest { members self.new ≡ remove (members self.old) index };

    /// Takes the first ring out, and returns it. It is empty if there are no members.
    fn take_ring(&mut self) -> VecDeque<Self::Member>
        requires counted { IsCounted self.old }
        ensures counted { IsCounted self.new }
        ensures members { result.items ++ members self.new ≡ members self.old }
        ensures count { deque_len result + length (members self.new) ≡ length (members self.old) };
}

impl<T: Drop> Block for VecDeque<T> {
    type Member = T;

    ghost members = { λ ring. ring.items };

    ghost IsCounted = { λ _. Unit {0} };

    /// Returns the length of the ring.
    fn len(&self) -> usize {
        self.len()
    }

    /// Returns what follows `index` in that of the two slices of the ring which has the member there.
    fn run_from(&self, index: usize) -> &[T] {
        let (front, back) = self.as_slices();
        if index < front.len() {
            return &front[index..];
        }
        behind(back, index - front.len())
    }

    /// Removes the member from the ring.
    fn remove(&mut self, index: usize) -> Option<T> {
        take_out(self, index)
    }

    /// Takes the ring itself, and leaves an empty one.
    fn take_ring(&mut self) -> VecDeque<T> {
        let alloc = *self.allocator();
        replace(self, VecDeque::new(alloc))
    }
}

/// Removes the member at `index` from `ring` and returns it, if there is one. Mostly `index` is 0.
pub(crate) fn take_out<T>(ring: &mut VecDeque<T>, index: usize) -> Option<T>
    ensures value { result ≡ slice_get ring.old.items index }
    ensures rest { ring.new.items ≡ remove ring.old.items index }
    ensures len { deque_len ring.new ≤ deque_len ring.old }
    ensures capacity { deque_capacity ring.new ≡ deque_capacity ring.old }
{
    if index == 0 {
        return ring.pop_front();
    }
    take_inner(ring, index)
}

/// Removes the member at `index` from `ring` and returns it, if there is one. It isn't inlined, so that a removal of the
/// first member saves no registers for what moves here.
#[inline(never)]
fn take_inner<T>(ring: &mut VecDeque<T>, index: usize) -> Option<T>
    ensures value { result ≡ slice_get ring.old.items index }
    ensures rest { ring.new.items ≡ remove ring.old.items index }
    ensures len { deque_len ring.new ≤ deque_len ring.old }
    ensures capacity { deque_capacity ring.new ≡ deque_capacity ring.old }
{
    ring.remove(index)
}

/// Returns those of `members` from `index` on.
fn behind<T>(members: &[T], index: usize) -> &[T]
    ensures behind { result.now ≡ drop index members.now }
{
    if index < members.len() {
        return &members[index..];
    }
    &[]
}
