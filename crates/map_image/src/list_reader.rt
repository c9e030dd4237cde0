//! The lists of an image, read from the front of bytes. They grow as members are read.
ghost use Rattle.std.specs.Prelude.{◌≡◌, [], ◌∷◌, ◌++◌, IfErr, OnOk};
ghost use Rattle.map_image.specs.Feeding.{Extends, ReadsIn};
ghost use Rattle.map_image.specs.ImageReading.{entry_at, last_of, made_at, link_at};
ghost use Rattle.map_image.specs.Usage.{HasParents};

use crate::member_reader::{entry_at, link_at, made_at};
use crate::usage::add_parent;
use crate::{ImageFault, PART_LEN, VersionForm};
use checkout::Made;
use eden_base::NoMemory;
use entry_table::Kept;
use manifest::LinkChange;
use std::alloc::Global;

/// The length of the shortest member of a list, in bytes: of a made file, or of a name of one byte that leads to no file.
const SHORTEST_MEMBER: usize = 11;

/// Returns how many of `left` members a part may have.
fn in_a_part(left: u32) -> usize {
    (left as usize).min(PART_LEN / SHORTEST_MEMBER)
}

/// Makes room in `list` for what a part may have of its `left` members to come. If there is too little, the list gets room
/// for twice as many members as it has, but never for more than there will be. The list that is whole has no room to
/// spare.
fn make_room<T>(list: &mut Vec<T>, left: u32) -> Result<(), ImageFault>
    ensures same { list.new.items ≡ list.old.items }
    ensures refused { IfErr result (λ fault. fault ≡ ImageFault.NoMemory) }
{
    let coming = in_a_part(left);
    if list.capacity() - list.len() >= coming {
        return Ok(());
    }
    let more = list.len().min(left as usize).max(coming);
    match list.reserve_exact(more) {
        Ok(()) => Ok(()),
        Err(_refused) => Err(ImageFault::NoMemory),
    }
}

/// Drops the members of `list` but for the last, if there is one.
pub(crate) fn keep_last<T: Drop>(list: &mut Vec<T>)
    ensures last { last_of list.new.items ≡ last_of list.old.items }
{
    let Some(last) = list.pop() else {
        return;
    };
    list.clear();
    list.push_reserved(last);
}

/// Appends `entry` to `entries`, and its directory, if it has one, to `parents`.
fn add_entry(entries: &mut Vec<Kept>, parents: &mut Vec<u64>, entry: Kept) -> Result<(), NoMemory>
    ensures entries { OnOk result (entries.new.items ≡ entries.old.items ++ entry ∷ []) }
    ensures parents { HasParents entries.old.items parents.old.items
        → OnOk result (HasParents entries.new.items parents.new.items) }
    ensures adds { Extends entries.old.items entries.new.items × Extends parents.old.items parents.new.items }
{
    add_parent(parents, &entry.place)?;
    match entries.push(entry) {
        Ok(()) => Ok(()),
        Err(_refused) => Err(NoMemory),
    }
}

/// Reads up to `left` entries, and stops before one that is not whole. Returns how many are still to be read, and the
/// bytes that were not read.
pub(crate) fn more_entries<'a>(
    alloc: Global,
    form: VersionForm,
    left: u32,
    entries: &mut Vec<Kept>,
    parents: &mut Vec<u64>,
    bytes: &'a [u8],
) -> Result<(u32, &'a [u8]), ImageFault>
    ensures reads { ReadsIn (λ x. (x.0, x.1.now)) (entry_at form) entries.old.items left bytes.now entries.new.items
        result }
    ensures parents { HasParents entries.old.items parents.old.items
        → OnOk result (HasParents entries.new.items parents.new.items) }
    ensures adds { Extends entries.old.items entries.new.items × Extends parents.old.items parents.new.items }
{
    make_room(entries, left)?;
    let mut rest = bytes;
    for i in 0..left {
        match entry_at(alloc, form, entries.as_slice(), rest) {
            Ok((entry, after)) => {
                let Ok(()) = add_entry(entries, parents, entry) else {
                    return Err(ImageFault::NoMemory);
                };
                rest = after;
            }
            Err(fault) => match fault {
                ImageFault::Short => return Ok((left - i, rest)),
                _ => return Err(fault),
            },
        }
    }
    Ok((0, rest))
}

/// Reads up to `left` made files, and stops before one that is not whole. Returns how many are still to be read, and the
/// bytes that were not read.
pub(crate) fn more_made<'a>(
    left: u32,
    files: &mut Vec<Made>,
    bytes: &'a [u8],
) -> Result<(u32, &'a [u8]), ImageFault>
    ensures reads { ReadsIn (λ x. (x.0, x.1.now)) made_at files.old.items left bytes.now files.new.items result }
    ensures adds { Extends files.old.items files.new.items }
{
    make_room(files, left)?;
    let mut rest = bytes;
    for i in 0..left {
        match made_at(files.as_slice(), rest) {
            Ok((made, after)) => {
                let Ok(()) = files.push(made) else {
                    return Err(ImageFault::NoMemory);
                };
                rest = after;
            }
            Err(fault) => match fault {
                ImageFault::Short => return Ok((left - i, rest)),
                _ => return Err(fault),
            },
        }
    }
    Ok((0, rest))
}

/// Reads up to `left` changed names, and stops before one that is not whole. Returns how many are still to be read, and the
/// bytes that were not read.
pub(crate) fn more_links<'a>(
    alloc: Global,
    left: u32,
    links: &mut Vec<LinkChange>,
    bytes: &'a [u8],
) -> Result<(u32, &'a [u8]), ImageFault>
    ensures reads { ReadsIn (λ x. (x.0, x.1.now)) link_at links.old.items left bytes.now links.new.items result }
    ensures adds { Extends links.old.items links.new.items }
{
    make_room(links, left)?;
    let mut rest = bytes;
    for i in 0..left {
        match link_at(alloc, links.as_slice(), rest) {
            Ok((link, after)) => {
                let Ok(()) = links.push(link) else {
                    return Err(ImageFault::NoMemory);
                };
                rest = after;
            }
            Err(fault) => match fault {
                ImageFault::Short => return Ok((left - i, rest)),
                _ => return Err(fault),
            },
        }
    }
    Ok((0, rest))
}
