//! The calls that give numbers and move them, each made where its conditions hold.
ghost use Rattle.std.specs.Prelude.{◌≡◌, ◌+◌, ◌<◌, ◌≤◌};
ghost use Rattle.eden_base.specs.Limits.{end_of_numbers};

use crate::{Done, Trees, ended, file_of, file_or_none};
use eden_base::{Attr, END_OF_NUMBERS, FileId, Kind, Name, NoMemory, Number, Perm, Place};
use inode_map::{Forgot, GiveFault, InodeMap, Kept, NamedEntries};
use row_words::{Output, RowFault, Words};
use std::alloc::Global;

/// Makes an empty map.
pub(crate) fn new(trees: &mut Trees, words: &mut Words<'_>, output: &mut Output) -> Done {
    let limit = words.number() as usize;
    words.end()?;
    if limit == 0 {
        return Err(RowFault::BadRow);
    }
    let map = InodeMap::new(trees.alloc, limit)?;
    trees.map = Some(map);
    output.word("ok");
    Ok(())
}

/// Makes a map of one entry, which names file 2. Its number is the last that was given.
fn map_of_one(alloc: Global, number: u64, place: Place, count: u64) -> Result<InodeMap, NoMemory>
    requires above_root { 2 ≤ number }
    requires fits { number < end_of_numbers }
    requires of_use { 0 < count }
{
    let entry = Kept {
        number: Number(number),
        place,
        count,
    };
    let named = NamedEntries {
        entries: Vec::from_array(alloc, [entry])?,
        files: Vec::from_array(alloc, [FileId(2)])?,
    };
    InodeMap::of_entries(alloc, named, number + 1, 1)
}

/// Reads a place: a name in the root, or `mark` and the file of the mark.
fn place_of(words: &mut Words<'_>) -> Result<Place, RowFault> {
    if words.word() == b"mark".as_slice() {
        let file = file_of(words);
        words.end()?;
        return Ok(Place::Unlinked { file });
    }
    let name = words.name();
    let name = ended(words, name)?;
    let parent = Number::ROOT;
    Ok(Place::Linked { parent, name })
}

/// Makes a map of one entry.
pub(crate) fn one(trees: &mut Trees, words: &mut Words<'_>, output: &mut Output) -> Done {
    let number = words.number();
    let count = words.number();
    if number < 2 || number >= END_OF_NUMBERS || count == 0 {
        return Err(RowFault::BadRow);
    }
    let place = place_of(words)?;
    let map = map_of_one(trees.alloc, number, place, count)?;
    trees.map = Some(map);
    output.word("ok");
    Ok(())
}

/// Tells the number that was given, or why none was.
pub(crate) fn tell_given(given: Result<Number, GiveFault>, output: &mut Output) -> Done {
    match given {
        Ok(number) => output.number(number.0),
        Err(GiveFault::NoNumber) => output.word("NoNumber"),
        Err(GiveFault::TooMany) => output.word("TooMany"),
        Err(GiveFault::NoMemory) => return Err(RowFault::NoMemory),
    }
    Ok(())
}

/// Gives a number to `name` in the room that was made. A number that the name has is given again.
pub(crate) fn given_ready(
    map: &mut InodeMap,
    parent: Number,
    name: Name,
) -> Result<Number, GiveFault>
    requires room { map.old.spare ≡ 1 }
{
    match map.number_for(parent, &name) {
        Some(number) => map.give_again(parent, &name, number),
        None => map.give_ready(parent, name),
    }
}

/// Loads attributes for a number, with the number as their size, unless it has some or is unknown. Returns whether it
/// did.
pub(crate) fn loaded(map: &mut InodeMap, number: Number) -> bool {
    if map.entry(number).is_none() || map.attr(number).is_some() {
        return false;
    }
    let attr = Attr {
        kind: Kind::File,
        perm: Perm::DIRECTORY,
        size: number.0,
        nlink: 1,
    };
    map.load(number, attr);
    true
}

/// Unlinks a number that has a name, is counted, and in whose directory nothing stands. Returns whether it did.
pub(crate) fn unlinked(map: &mut InodeMap, number: Number, file: FileId) -> bool {
    let Some(Place::Linked { .. }) = map.entry(number) else {
        return false;
    };
    let count = map.count(number);
    let Forgot::Dropped = map.forgot(number, count) else {
        return false;
    };
    map.unlink(number, file);
    true
}

/// Moves `number`, which has a name, to `name` in `parent`, where no entry stands or another without kids. The file that
/// stands there is `file`. Returns whether `number` moved.
fn moved_over(map: &mut InodeMap, number: Number, parent: Number, name: Name, file: FileId) -> bool
    requires room { map.old.spare ≡ 1 }
{
    let Some(Place::Linked { .. }) = map.entry(number) else {
        return false;
    };
    let Some(other) = map.number_for(parent, &name) else {
        map.relink(number, parent, name, Some(file));
        return true;
    };
    if other == number {
        return false;
    }
    let count = map.count(other);
    let Forgot::Dropped = map.forgot(other, count) else {
        return false;
    };
    map.relink(number, parent, name, Some(file));
    true
}

/// Moves `number`, which has a name, to `name` in `parent`, where no entry stands. Returns whether `number` moved.
fn moved_freely(map: &mut InodeMap, number: Number, parent: Number, name: Name) -> bool
    requires room { map.old.spare ≡ 1 }
{
    let Some(Place::Linked { .. }) = map.entry(number) else {
        return false;
    };
    if map.number_for(parent, &name).is_some() {
        return false;
    }
    map.relink(number, parent, name, None);
    true
}

/// Writes `ok` if a call was made, and else `refused`.
pub(crate) fn put_made(output: &mut Output, is_made: bool) {
    output.word(if is_made { "ok" } else { "refused" });
}

/// Makes room, and moves a number to another name there.
pub(crate) fn move_to(
    alloc: Global,
    map: &mut InodeMap,
    words: &mut Words<'_>,
    output: &mut Output,
) -> Done {
    let number = Number(words.number());
    let parent = Number(words.number());
    let name = words.name();
    let file = file_or_none(words);
    let name = ended(words, name)?;
    map.reserve(alloc)?;
    let is_moved = match file {
        Some(file) => moved_over(map, number, parent, name, file),
        None => moved_freely(map, number, parent, name),
    };
    put_made(output, is_moved);
    Ok(())
}
