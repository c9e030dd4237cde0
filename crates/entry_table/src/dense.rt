//! The slot of a number that needs no search: it is known, or no number is missing on one side of it.
ghost use Rattle.std.specs.Option.{IfSome};
ghost use Rattle.entry_table.specs.Slots.{IsIndexOf};

use crate::table::Slot;
use eden_base::Number;

/// Returns `index` if the slot of `number` stands there.
pub(crate) fn index_if(slots: &[Slot], index: usize, number: Number) -> Option<usize>
    ensures index { IfSome result (IsIndexOf slots.now number.0) }
{
    let slot = slots.get(index)?;
    if slot.0 == number.0 {
        Some(index)
    } else {
        None
    }
}

/// Returns the index of the slot of `number` if no number between the first slot's and `number` is missing, and mostly
/// none otherwise. It looks at one slot besides the first.
pub(crate) fn dense_index_of(slots: &[Slot], number: Number) -> Option<usize>
    ensures index { IfSome result (IsIndexOf slots.now number.0) }
{
    let above = number.0.wrapping_sub(slots.first()?.0);
    index_if(slots, above as usize, number)
}

/// How many slots `index_by_steps` looks at.
const STEPS: u32 = 6;

/// Returns the index of the slot of `number` if a few steps lead there. Each step goes as many slots on, or back, as the
/// number at hand is below `number`, or above it. It misses by as many slots as numbers are missing between the two. So
/// where one of 64 numbers is missing, a step comes 64 times nearer.
pub(crate) fn index_by_steps(slots: &[Slot], number: Number) -> Option<usize>
    ensures index { IfSome result (IsIndexOf slots.now number.0) }
{
    let last = slots.len().checked_sub(1)?;
    let mut index = 0;
    for _ in 0..STEPS {
        let there = slots[index].0;
        if there == number.0 {
            return Some(index);
        }
        let beyond = number.0.wrapping_sub(there) as usize;
        index = index.wrapping_add(beyond).min(last);
    }
    None
}
