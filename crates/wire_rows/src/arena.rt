//! Arenas of numbers. A row names a slot by its place in a list of slots.
//!
//! `arena new CAPACITY`: the capacity. `arena add PLACE N`: adds N, and puts its slot at PLACE, or `back N`.
//! `arena touch PLACE`, `arena set PLACE N`, `arena remove PLACE`: `none` if the slot isn't held.
//! `arena is_held PLACE`, `arena is_oldest PLACE`, `arena same PLACE PLACE`. `arena take_oldest`: removes the oldest.
//! `arena order`: all values, the oldest first. `arena agree PLACE ..`: the values there, the last place first, then how
//! many there are, and whether the last place is the oldest. `arena len`.
use node_arena::{NodeArena, Slot};
use row_words::{Output, RowFault, Words, chosen};

/// How many places a row may have.
const MOST_PLACES: usize = 64;

/// The calls of an arena that name no slot, or several.
#[derive(Clone, Copy)]
enum ArenaCall {
    Add,
    TakeOldest,
    Order,
    Agree,
    Len,
}

static ARENA_CALLS: [(&str, ArenaCall); 5] = [
    ("add", ArenaCall::Add),
    ("take_oldest", ArenaCall::TakeOldest),
    ("order", ArenaCall::Order),
    ("agree", ArenaCall::Agree),
    ("len", ArenaCall::Len),
];

/// The calls of a slot.
#[derive(Clone, Copy)]
enum SlotCall {
    Touch,
    Set,
    Remove,
    IsHeld,
    IsOldest,
    Same,
}

static SLOT_CALLS: [(&str, SlotCall); 6] = [
    ("touch", SlotCall::Touch),
    ("set", SlotCall::Set),
    ("remove", SlotCall::Remove),
    ("is_held", SlotCall::IsHeld),
    ("is_oldest", SlotCall::IsOldest),
    ("same", SlotCall::Same),
];

/// An arena, and the slots that rows name.
#[derive(Drop)]
pub(crate) struct Arena {
    nodes: NodeArena<u64>,
    slots: Vec<Slot>,
}

/// Puts `slot` at `place`, which has one already or is the next one.
fn put_slot(slots: &mut Vec<Slot>, place: u64, slot: Slot) -> Result<(), RowFault> {
    match slots.get_mut(place as usize) {
        Some(old) => *old = slot,
        None => slots.push(slot)?,
    }
    Ok(())
}

impl Arena {
    /// Makes an arena.
    fn make(words: &mut Words<'_>, output: &mut Output) -> Result<Arena, RowFault> {
        let capacity = words.number() as usize;
        if capacity < 1 || capacity > 65_536 {
            return Err(RowFault::BadRow);
        }
        let nodes = NodeArena::new(words.alloc(), capacity)?;
        output.number(nodes.capacity() as u64);
        Ok(Arena {
            nodes,
            slots: Vec::new(words.alloc()),
        })
    }

    /// Adds a value, and puts its slot at a place.
    fn add(&mut self, words: &mut Words<'_>, output: &mut Output) -> Result<(), RowFault> {
        let place = words.number();
        let value = words.number();
        self.slots.reserve(1)?;
        match self.nodes.add(value) {
            Ok(slot) => {
                put_slot(&mut self.slots, place, slot)?;
                output.word("ok");
            }
            Err(value) => {
                output.word("back");
                output.number(value);
            }
        }
        Ok(())
    }

    /// Removes the value at `slot`, if it is held, and writes it.
    fn remove(&mut self, slot: Slot, output: &mut Output) {
        if !self.nodes.is_held(slot) {
            output.word("none");
            return;
        }
        output.number(self.nodes.remove(slot));
        if self.nodes.is_held(slot) {
            output.word("held");
        }
    }

    /// Writes the value at `slot`, or `none` if it isn't held.
    fn get(&self, slot: Slot, output: &mut Output) {
        if self.nodes.is_held(slot) {
            output.number(*self.nodes.get(slot));
        } else {
            output.word("none");
        }
    }

    /// Puts `value` at `slot`, or touches it where there is none, if it is held.
    fn change(&mut self, slot: Slot, value: Option<u64>, output: &mut Output) {
        if !self.nodes.is_held(slot) {
            output.word("none");
            return;
        }
        match value {
            Some(value) => *self.nodes.get_mut(slot) = value,
            None => self.nodes.touch(slot),
        }
        output.word("ok");
    }

    /// Writes all values, the oldest first. Touches each once, so the order stays.
    fn tell_order(&mut self, output: &mut Output) {
        for _value in 0..self.nodes.len() {
            let Some(slot) = self.nodes.oldest() else {
                return;
            };
            output.number(*self.nodes.get(slot));
            self.nodes.touch(slot);
        }
    }

    /// Removes the oldest value, if there is one, and writes it.
    fn take_oldest(&mut self, output: &mut Output) {
        match self.nodes.oldest() {
            Some(slot) => self.remove(slot, output),
            None => output.word("none"),
        }
    }

    /// Returns the slot at the place that the next word tells.
    fn slot(&self, words: &mut Words<'_>) -> Slot {
        match self.slots.get(words.number() as usize) {
            Some(slot) => *slot,
            None => {
                words.refuse();
                Slot { index: 0 }
            }
        }
    }

    /// Writes the values at the places that `words` tell, how many there are, and whether the last place is the oldest.
    fn agree(&self, words: &mut Words<'_>, output: &mut Output) {
        let mut last = None;
        for _place in 0..MOST_PLACES {
            if !words.has_more() {
                break;
            }
            let slot = self.slot(words);
            self.get(slot, output);
            last = Some(slot);
        }
        output.number(self.nodes.len() as u64);
        output.flag(self.nodes.oldest() == last);
    }

    /// Makes a call of a slot.
    fn call_slot(&mut self, call: SlotCall, words: &mut Words<'_>, output: &mut Output) {
        let slot = self.slot(words);
        match call {
            SlotCall::Touch => self.change(slot, None, output),
            SlotCall::Set => self.change(slot, Some(words.number()), output),
            SlotCall::Remove => self.remove(slot, output),
            SlotCall::IsHeld => output.flag(self.nodes.is_held(slot)),
            SlotCall::IsOldest => output.flag(self.nodes.oldest() == Some(slot)),
            SlotCall::Same => output.flag(self.slot(words) == slot),
        }
    }

    /// Makes a call.
    fn call(&mut self, words: &mut Words<'_>, output: &mut Output) -> Result<(), RowFault> {
        let word = words.word();
        match chosen(&ARENA_CALLS, word) {
            Some(ArenaCall::Add) => self.add(words, output)?,
            Some(ArenaCall::TakeOldest) => self.take_oldest(output),
            Some(ArenaCall::Order) => self.tell_order(output),
            Some(ArenaCall::Agree) => self.agree(words, output),
            Some(ArenaCall::Len) => output.number(self.nodes.len() as u64),
            None => {
                let call = chosen(&SLOT_CALLS, word).ok_or(RowFault::BadRow)?;
                self.call_slot(call, words, output);
            }
        }
        words.end()
    }
}

/// Makes a call of an arena, if there is one, or else makes one.
pub(crate) fn call_arena(
    arena: &mut Option<Arena>,
    words: &mut Words<'_>,
    output: &mut Output,
) -> Result<(), RowFault> {
    match arena {
        Some(arena) => arena.call(words, output),
        None if words.word() == b"new".as_slice() => {
            *arena = Some(Arena::make(words, output)?);
            Ok(())
        }
        None => Err(RowFault::BadRow),
    }
}
