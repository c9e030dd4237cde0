//! The way from a number up to the root, by which its file is found.
ghost use Rattle.std.specs.Prelude.{◌≡◌, ◌≤◌, MatchOption, length, vec_capacity};
ghost use Rattle.manifest.specs.Tree.{Tree};
ghost use Rattle.eden_base.specs.declared.number.FileId.{FileId};
ghost use Rattle.entry_table.specs.EntryPlaces.{IsWay};
ghost use Rattle.entry_table.specs.Entries.{IsFileOf};
ghost use Rattle.entry_table.specs.Slots.{kept_from, IsSlots};

use crate::table::{Slot, held_at};
use checkout::Tree;
use eden_base::{FileId, Number, Place};

/// Climbs from `number` to the root, or to a number whose name was taken away, and returns the file of that top. Leaves
/// the numbers passed in `way`. Returns none if a number has no entry, or if the way has more steps than there are
/// entries, and so goes in a circle.
fn climb(slots: &[Slot], way: &mut Vec<Number>, number: Number) -> Option<FileId>
    requires slots { IsSlots slots.now }
    requires room { length slots.now ≤ vec_capacity way.old }
    ensures way { MatchOption result
        ((tree : Tree) (file : FileId) → IsFileOf tree (kept_from slots.now) number.0 file → ⊥)
        (IsWay (kept_from slots.now) number.0 way.new.items) }
    ensures capacity { vec_capacity way.new ≡ vec_capacity way.old }
{
    way.clear();
    let mut number = number;
    while number != Number::ROOT {
        match &held_at(slots, number)?.place {
            Place::Linked { parent, .. } => {
                if way.len() == slots.len() {
                    return None;
                }
                way.push_reserved(number);
                number = *parent;
            }
            Place::Unlinked { file } => return Some(*file),
        }
    }
    Some(FileId::ROOT)
}

/// Returns the file that `number` names in `tree`: climbs to the top of its way, and comes down again by the names.
pub(crate) fn locate(
    slots: &[Slot],
    way: &mut Vec<Number>,
    tree: &Tree,
    number: Number,
) -> Option<FileId>
    requires slots { IsSlots slots.now }
    requires room { length slots.now ≤ vec_capacity way.old }
    ensures found { MatchOption result
        ((file : FileId) → IsFileOf tree.now (kept_from slots.now) number.0 file → ⊥)
        (IsFileOf tree.now (kept_from slots.now) number.0) }
    ensures capacity { vec_capacity way.new ≡ vec_capacity way.old }
{
    let mut file = climb(slots, way, number)?;
    while let Some(number) = way.pop() {
        let Some(entry) = held_at(slots, number) else {
            unreachable!()
        };
        let Place::Linked { name, .. } = &entry.place else {
            unreachable!()
        };
        file = tree.child(file, name)?;
    }
    Some(file)
}
