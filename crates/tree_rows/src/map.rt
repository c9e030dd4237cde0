//! `map new LIMIT`: makes an empty map that may keep LIMIT attributes loaded.
//! `map one NUMBER COUNT PLACE`: makes a map of one entry, at `named NAME` in the root or at `mark FILE`.
//! `map give PARENT NAME`: gives a number to a name, and tells it. `map find PARENT NAME`: the number of a name.
//! `map give_ready PARENT NAME`: makes room first, and gives a number in it. `map reserve`: makes room.
//! `map forget NUMBER COUNT`: forgets, and tells what that came to. `map foresee NUMBER COUNT`: what it would come to.
//! `map move NUMBER PARENT NAME FILE`: makes room, and moves a number; FILE stands there, or `none`.
//! `map unlink NUMBER FILE`: takes the name of a number, which names FILE from then on.
//! `map load NUMBER`: loads attributes for a number, with the number as their size.
//! These three tell `refused` where a condition of the call does not hold, and then make no call.
//! `map attr NUMBER`: the loaded attributes of a number.
//! `map place NUMBER`: the directory and the name of a number, or `mark` and a file. `map count NUMBER`: its count.
//! `map after NUMBER`: the next number that has an entry. `map know NUMBER`: whether a number is known.
//! `map at`: the next number, and how many forgets were bad. `map kept`: how many entries there are.
//! `map entries`: how many entries there are, and the number, the place and the count of each, with a slash before it.
//! `map list`: what `map at` tells, and the entries in that way, as each is asked by itself. `lost` stands behind an entry
//! whose name does not lead to its number.
//! `map locate NUMBER`: the file that a number names in the tree.
use crate::numbers::{given_ready, loaded, move_to, new, one, put_made, tell_given, unlinked};
use crate::{Done, Trees, ended, file_of, put, put_attr, put_file};
use eden_base::{FileId, Number, Place};
use inode_map::{InodeMap, Kept};
use row_words::{Output, RowFault, Words, chosen};
use std::alloc::Global;

/// The calls of more than the map: those that make it, and the one that asks the tree.
#[derive(Clone, Copy)]
enum MapCall {
    New,
    One,
    Locate,
}

static MAP_CALLS: [(&str, MapCall); 3] = [
    ("new", MapCall::New),
    ("one", MapCall::One),
    ("locate", MapCall::Locate),
];

/// The calls of a map with a number and another one.
#[derive(Clone, Copy)]
enum TwoCall {
    Forget,
    Foresee,
    Unlink,
}

/// The calls of a map with a number alone.
#[derive(Clone, Copy)]
enum MapNumberCall {
    Load,
    Attr,
    Place,
    Count,
    After,
    Know,
}

/// The calls of a map that have no word more.
#[derive(Clone, Copy)]
enum AllCall {
    Reserve,
    At,
    Kept,
    Entries,
    List,
}

/// The calls of a map.
#[derive(Clone, Copy)]
enum OnCall {
    Give,
    GiveReady,
    Find,
    Move,
    Two(TwoCall),
    Number(MapNumberCall),
    All(AllCall),
}

static ON_CALLS: [(&str, OnCall); 18] = [
    ("give", OnCall::Give),
    ("give_ready", OnCall::GiveReady),
    ("find", OnCall::Find),
    ("move", OnCall::Move),
    ("forget", OnCall::Two(TwoCall::Forget)),
    ("foresee", OnCall::Two(TwoCall::Foresee)),
    ("unlink", OnCall::Two(TwoCall::Unlink)),
    ("load", OnCall::Number(MapNumberCall::Load)),
    ("attr", OnCall::Number(MapNumberCall::Attr)),
    ("place", OnCall::Number(MapNumberCall::Place)),
    ("count", OnCall::Number(MapNumberCall::Count)),
    ("after", OnCall::Number(MapNumberCall::After)),
    ("know", OnCall::Number(MapNumberCall::Know)),
    ("reserve", OnCall::All(AllCall::Reserve)),
    ("at", OnCall::All(AllCall::At)),
    ("kept", OnCall::All(AllCall::Kept)),
    ("entries", OnCall::All(AllCall::Entries)),
    ("list", OnCall::All(AllCall::List)),
];

/// How many entries a list may have.
const MOST_ENTRIES: u64 = 1 << 20;

/// Writes where a number stands.
fn put_place(output: &mut Output, place: Option<&Place>) {
    match place {
        Some(Place::Linked { parent, name }) => {
            output.number(parent.0);
            output.bytes(name.bytes());
        }
        Some(Place::Unlinked { file }) => {
            output.word("mark");
            output.number(file.0);
        }
        None => output.word("none"),
    }
}

/// Writes entries.
fn put_entries(output: &mut Output, entries: &[Kept]) {
    for entry in entries {
        output.word("/");
        output.number(entry.number.0);
        put_place(output, Some(&entry.place));
        output.number(entry.count);
    }
}

/// Writes the entry of a number.
fn put_entry(output: &mut Output, map: &InodeMap, number: Number) {
    output.word("/");
    output.number(number.0);
    put_place(output, map.entry(number));
    output.number(map.count(number));
    if let Some(Place::Linked { parent, name }) = map.entry(number) {
        if map.number_for(*parent, name) != Some(number) {
            output.word("lost");
        }
    }
}

/// Writes each entry as it is asked by itself.
fn put_each(output: &mut Output, map: &InodeMap) {
    let mut last = Number::ROOT;
    for _entry in 0..MOST_ENTRIES {
        let Some(number) = map.after(last) else {
            return;
        };
        put_entry(output, map, number);
        last = number;
    }
}

/// Gives a number to a name.
fn give(alloc: Global, map: &mut InodeMap, words: &mut Words<'_>, output: &mut Output) -> Done {
    let parent = Number(words.number());
    let name = words.name();
    let name = ended(words, name)?;
    tell_given(map.give(alloc, parent, &name), output)
}

/// Gives a number to a name in room that is made first.
fn give_ready(
    alloc: Global,
    map: &mut InodeMap,
    words: &mut Words<'_>,
    output: &mut Output,
) -> Done {
    let parent = Number(words.number());
    let name = words.name();
    let name = ended(words, name)?;
    map.reserve(alloc)?;
    tell_given(given_ready(map, parent, name), output)
}

/// Tells the number of a name.
fn find(map: &InodeMap, words: &mut Words<'_>, output: &mut Output) -> Done {
    let parent = Number(words.number());
    let name = words.name();
    let name = ended(words, name)?;
    put(output, map.number_for(parent, &name).map(|number| number.0));
    Ok(())
}

/// Tells the file that a number names in the tree.
fn locate(trees: &mut Trees, words: &mut Words<'_>, output: &mut Output) -> Done {
    let number = Number(words.number());
    words.end()?;
    let tree = trees.tree.as_ref().ok_or(RowFault::BadRow)?;
    let map = trees.map.as_mut().ok_or(RowFault::BadRow)?;
    put_file(output, map.locate(tree, number));
    Ok(())
}

/// Makes a call with a number and another one.
fn call_two(map: &mut InodeMap, call: TwoCall, words: &mut Words<'_>, output: &mut Output) -> Done {
    let number = Number(words.number());
    let other = words.number();
    words.end()?;
    match call {
        TwoCall::Forget => output.word(map.forget(number, other).name()),
        TwoCall::Foresee => output.word(map.forgot(number, other).name()),
        TwoCall::Unlink => put_made(output, unlinked(map, number, FileId(other))),
    }
    Ok(())
}

/// Makes a call with a number.
fn call_number(
    map: &mut InodeMap,
    call: MapNumberCall,
    words: &mut Words<'_>,
    output: &mut Output,
) -> Done {
    let number = Number(words.number());
    words.end()?;
    match call {
        MapNumberCall::Load => put_made(output, loaded(map, number)),
        MapNumberCall::Attr => put_attr(output, map.attr(number)),
        MapNumberCall::Place => put_place(output, map.entry(number)),
        MapNumberCall::Count => output.number(map.count(number)),
        MapNumberCall::After => put(output, map.after(number).map(|number| number.0)),
        MapNumberCall::Know => output.flag(map.known(number)),
    }
    Ok(())
}

/// Makes room for an entry.
fn reserve(alloc: Global, map: &mut InodeMap, output: &mut Output) -> Done {
    map.reserve(alloc)?;
    output.word("ok");
    Ok(())
}

/// Tells how many entries there are, and what they are if `is_whole`.
fn tell_entries(alloc: Global, map: &InodeMap, is_whole: bool, output: &mut Output) -> Done {
    let entries = map.to_entries(alloc)?;
    output.number(entries.len() as u64);
    if is_whole {
        put_entries(output, entries.as_slice());
    }
    Ok(())
}

/// Tells the next number, and how many forgets were bad.
fn tell_at(map: &InodeMap, output: &mut Output) {
    output.number(map.next());
    output.number(map.bad_items());
}

/// Makes a call that has no word more.
fn call_all(
    alloc: Global,
    map: &mut InodeMap,
    call: AllCall,
    words: &Words<'_>,
    output: &mut Output,
) -> Done {
    words.end()?;
    match call {
        AllCall::Reserve => return reserve(alloc, map, output),
        AllCall::At => tell_at(map, output),
        AllCall::Kept => return tell_entries(alloc, map, false, output),
        AllCall::Entries => return tell_entries(alloc, map, true, output),
        AllCall::List => {
            tell_at(map, output);
            put_each(output, map);
        }
    }
    Ok(())
}

/// Makes a call on a map.
fn call_on(
    alloc: Global,
    map: &mut InodeMap,
    word: &[u8],
    words: &mut Words<'_>,
    output: &mut Output,
) -> Done {
    match chosen(&ON_CALLS, word).ok_or(RowFault::BadRow)? {
        OnCall::Give => give(alloc, map, words, output),
        OnCall::GiveReady => give_ready(alloc, map, words, output),
        OnCall::Find => find(map, words, output),
        OnCall::Move => move_to(alloc, map, words, output),
        OnCall::Two(call) => call_two(map, call, words, output),
        OnCall::Number(call) => call_number(map, call, words, output),
        OnCall::All(call) => call_all(alloc, map, call, words, output),
    }
}

/// Makes a call of maps.
pub(crate) fn call(trees: &mut Trees, words: &mut Words<'_>, output: &mut Output) -> Done {
    let word = words.word();
    match chosen(&MAP_CALLS, word) {
        Some(MapCall::New) => new(trees, words, output),
        Some(MapCall::One) => one(trees, words, output),
        Some(MapCall::Locate) => locate(trees, words, output),
        None => match trees.map.as_mut() {
            Some(map) => call_on(trees.alloc, map, word, words, output),
            None => Err(RowFault::BadRow),
        },
    }
}
