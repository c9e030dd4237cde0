//! Where the entries in slots stand, and the index of their places.
ghost use Rattle.std.specs.Prelude.{◌≡◌, ℕ, IfOk};
ghost use Rattle.entry_table.specs.Entries.{AreEntries};
ghost use Rattle.entry_table.specs.Slots.{kept_from, IsSlots};
ghost use Rattle.entry_table.specs.Standing.{place_of_number, IsIndexed};

use crate::table::{Slot, held_at};
use directory_index::{CountedIndex, Places};
use eden_base::{NoMemory, Number, Place};
use std::alloc::Global;
use std::marker::Model;

/// The places of the entries in slots, as an index of them asks for.
#[derive(Drop)]
pub(crate) struct SlotPlaces<'a> {
    slots: &'a [Slot],
}

impl<'a> Model for SlotPlaces<'a> {
    ghost use Rattle.std.specs.Prelude.{ℕ, List, Option};
    ghost use Rattle.entry_table.specs.Slots.{IsSlots};
    ghost use Rattle.entry_table.specs.declared.kept.Entry.{Entry};

    ghost Value = { List (ℕ × Option Entry) };

    ghost view = { λ places. places.slots.now };

    ghost invariant = { λ places. IsSlots places.slots.now };
}

impl<'a> SlotPlaces<'a> {
    /// Returns the places of the entries in `slots`.
    pub(crate) fn of(slots: &'a [Slot]) -> SlotPlaces<'a>
        requires { IsSlots slots.now }
        ensures slots { result ≡ slots.now }
    {
        SlotPlaces { slots }
    }
}

impl Places for SlotPlaces<'_> {
    ghost place = { λ slots. place_of_number (kept_from slots) };

    fn stands(&self, number: u64, dir: u64, name: &[u8]) -> bool {
        let Some(entry) = held_at(self.slots, Number(number)) else {
            return false;
        };
        match &entry.place {
            Place::Linked {
                parent,
                name: linked,
            } => parent.0 == dir && linked.bytes() == name,
            Place::Unlinked { .. } => false,
        }
    }

    fn name_of(&self, number: u64) -> Option<&[u8]> {
        match &held_at(self.slots, Number(number))?.place {
            Place::Linked { name, .. } => Some(name.bytes()),
            Place::Unlinked { .. } => None,
        }
    }
}

/// Makes the index of the entries that stand in `slots`.
pub(crate) fn index_of_places(alloc: Global, slots: &[Slot]) -> Result<CountedIndex, NoMemory>
    requires slots { IsSlots slots.now }
    requires entries { (next : ℕ) × AreEntries (kept_from slots.now) next }
    ensures indexed { IfOk result (IsIndexed (place_of_number (kept_from slots.now))) }
{
    let places = SlotPlaces::of(slots);
    let mut index = CountedIndex::for_numbers(alloc, slots.len());
    for (number, held) in slots {
        let Some(entry) = held else {
            continue;
        };
        let Place::Linked { parent, name } = &entry.place else {
            continue;
        };
        index.make_room(alloc, &places)?;
        index.insert(parent.0, name.bytes(), *number);
    }
    index.trim();
    Ok(index)
}
