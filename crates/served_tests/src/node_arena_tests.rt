//! Drops of the values of an arena.
ghost use Rattle.std.specs.Prelude.{◌≤◌};

use node_arena::{NodeArena, Slot};
use std::alloc::Global;
use std::cell::Cell;

/// Adds `value`, and returns its slot, or none if the arena is full.
fn added<T: Drop>(nodes: &mut NodeArena<T>, value: T) -> Option<Slot> {
    match nodes.add(value) {
        Ok(slot) => Some(slot),
        Err(_) => None,
    }
}

/// Removes the value at `slot` and returns it. Returns none if `slot` was not held before, or is held afterwards.
fn removed<T: Drop>(nodes: &mut NodeArena<T>, slot: Slot) -> Option<T> {
    if !nodes.is_held(slot) {
        return None;
    }
    let value = nodes.remove(slot);
    if nodes.is_held(slot) {
        return None;
    }
    Some(value)
}

/// A value that counts its drops.
struct Counted<'a>(&'a Cell<u32>);

impl Drop for Counted<'_> {
    fn drop(self) {
        let Counted(drops) = self;
        drops.set(drops.get().wrapping_add(1));
    }
}

/// The counts of drops: after a value was given back and dropped, after one was removed, and after that one was
/// dropped.
type Drops = (u32, u32, u32);

/// Adds a value, and `more` of them, and drops what the arena gives back. Then removes the first value, and drops it.
/// Returns the counts of drops in between.
fn drops_in<'a>(
    nodes: &mut NodeArena<Counted<'a>>,
    drops: &'a Cell<u32>,
    more: u32,
) -> Option<Drops> {
    let first = added(nodes, Counted(drops))?;
    for _more in 0..more {
        drop(nodes.add(Counted(drops)));
    }
    let came_back = drops.get();
    let value = removed(nodes, first);
    let was_removed = drops.get();
    drop(value);
    Some((came_back, was_removed, drops.get()))
}

/// Calls `drops_in` on a new arena of `capacity`. Returns its counts of drops, and the count after the arena was dropped.
fn drops_of_all(alloc: Global, capacity: usize, more: u32) -> Option<(Drops, u32)>
    requires capacity { (1 ≤ capacity) × (capacity ≤ 65536) }
{
    let drops = Cell::new(0);
    let Ok(mut nodes) = NodeArena::new(alloc, capacity) else {
        return None;
    };
    let counts = drops_in(&mut nodes, &drops, more);
    drop(nodes);
    match counts {
        Some(counts) => Some((counts, drops.get())),
        None => None,
    }
}

/// The caller drops the value that was given back, and the value that was removed. The arena drops the two that it
/// holds at its end.
#[test]
fn drops_each_value_once(rt: HostRuntime) {
    assert!(rt; drops_of_all(rt.alloc(), 3, 3) == Some(((1, 1, 2), 4)));
}

#[test]
fn drops_nothing_where_no_value_is_held(rt: HostRuntime) {
    assert!(rt; drops_of_all(rt.alloc(), 2, 0) == Some(((0, 0, 1), 1)));
}
