//! Whether each entry of a list is of use: the kernel holds it, or an entry stands below it.
ghost use Rattle.std.specs.Prelude.{◌≡◌, ◌||◌, ℕ, List, OnOk};
ghost use Rattle.std.specs.List.{list_any};
ghost use Rattle.entry_table.specs.Entries.{is_in, is_kid_of, is_of_use};
ghost use Rattle.entry_table.specs.declared.kept.Kept.{Kept};
ghost use Rattle.map_image.specs.Feeding.{Extends};
ghost use Rattle.map_image.specs.ImageReading.{are_of_use};
ghost use Rattle.map_image.specs.Usage.{is_number, AreParents, HasParents};

use eden_base::{NoMemory, Place};
use entry_table::Kept;

/// Appends the directory of `place` to `parents`, if the place has one.
pub(crate) fn add_parent(parents: &mut Vec<u64>, place: &Place) -> Result<(), NoMemory>
    ensures has { OnOk result ((n : ℕ) → list_any (is_number n) parents.new.items
        ≡ (list_any (is_number n) parents.old.items || is_in n place.now)) }
    ensures adds { Extends parents.old.items parents.new.items }
{
    match place {
        Place::Linked { parent, .. } => {
            parents.push(parent.0)?;
            Ok(())
        }
        Place::Unlinked { .. } => Ok(()),
    }
}

/// Sorts the directories in which entries stand, so that they can be searched. Takes no memory.
pub(crate) fn sorted(parents: Vec<u64>) -> Vec<u64>
    ensures { (entries : List Kept) → HasParents entries parents.items → AreParents entries result.items }
{
    let mut sorted = parents;
    sorted.sort_unstable();
    sorted
}

/// Returns whether the entry `kept` is of use. `parents` are the directories in which entries stand, sorted.
fn is_of_use(kept: &Kept, parents: &[u64]) -> bool
    ensures { (entries : List Kept) → AreParents entries parents.now → result ≡ is_of_use entries kept.now }
{
    if kept.count > 0 {
        return true;
    }
    match parents.binary_search(&kept.number.0) {
        Ok(_) => true,
        Err(_) => false,
    }
}

/// Returns whether each entry is of use. `parents` are the directories in which entries stand, sorted.
pub(crate) fn all_of_use(entries: &[Kept], parents: &[u64]) -> bool
    requires { AreParents entries.now parents.now }
    ensures { result ≡ are_of_use entries.now }
{
    for kept in entries {
        if !is_of_use(kept, parents) {
            return false;
        }
    }
    true
}
