//! The indices of the entries of an image in which their directories stand.
ghost use Rattle.std.specs.Prelude.{◌≡◌, ◌<◌, None, true, false, IfOk, IfSome, MatchOption, length};
ghost use Rattle.entry_table.specs.Entries.{entry_of};
ghost use Rattle.map_image.specs.Fit.{rises, entry_follows};
ghost use Rattle.map_codec.specs.Named.{AreDirectories, IsPlaceOf, TellsDirectory};
ghost use Rattle.map_codec.specs.Raising.{have_parents};

use eden_base::{NoMemory, Number, Place};
use inode_map::Kept;
use std::alloc::Global;

/// Returns the index of the entry of `number`, if there is one. Looks at index `near` first, and then searches.
fn place_of(entries: &[Kept], near: usize, number: Number) -> Option<usize>
    requires rise { rises entry_follows None entries.now ≡ true }
    ensures place { MatchOption result (entry_of entries.now number.0 ≡ None) (IsPlaceOf entries.now number.0) }
{
    if near < entries.len() && entries[near].number.0 == number.0 {
        return Some(near);
    }
    entries
        .binary_search_by_key(&number.0, |kept| kept.number.0)
        .ok()
}

/// The index of the entry of a place's directory, if that directory needs an entry.
pub(crate) enum DirectoryEntry {
    /// The directory is the root, or the place is a mark, which is in no directory.
    Unwanted,
    At(usize),
    Missing,
}

/// Returns the index of the entry of the directory in which `place` is. Looks at index `near` first, and then searches.
fn directory_of(entries: &[Kept], near: usize, place: &Place) -> DirectoryEntry
    requires rise { rises entry_follows None entries.now ≡ true }
    ensures { TellsDirectory entries.now place.now result }
{
    match place {
        Place::Linked { parent, .. } => {
            if *parent == Number::ROOT {
                return DirectoryEntry::Unwanted;
            }
            match place_of(entries, near, *parent) {
                Some(at) => DirectoryEntry::At(at),
                None => DirectoryEntry::Missing,
            }
        }
        Place::Unlinked { .. } => DirectoryEntry::Unwanted,
    }
}

/// Returns, for each entry, the index of its directory's entry, or none if its directory needs no entry. Returns no
/// list if such an entry is missing. Entries beside each other often stand in one directory, so the index that was
/// found last is looked at first.
pub(crate) fn directories(
    alloc: Global,
    entries: &[Kept],
) -> Result<Option<Vec<Option<usize>>>, NoMemory>
    requires rise { rises entry_follows None entries.now ≡ true }
    ensures { IfOk result (λ found. MatchOption found (have_parents entries.now ≡ false)
        (λ places. (have_parents entries.now ≡ true) × AreDirectories entries.now places.items)) }
{
    let mut places = Vec::with_capacity(alloc, entries.len())?;
    let mut near = 0;
    for kept in entries {
        let place = match directory_of(entries, near, &kept.place) {
            DirectoryEntry::Unwanted => None,
            DirectoryEntry::At(at) => Some(at),
            DirectoryEntry::Missing => return Ok(None),
        };
        near = place.unwrap_or(near);
        places.push_reserved(place);
    }
    Ok(Some(places))
}
