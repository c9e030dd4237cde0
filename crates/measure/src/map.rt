//! Makes a map and each call on a thousand of its numbers, so that the instructions of a call can be counted: `measure
//! map ENTRIES`. `measure map ENTRIES holes` does so with a map in which every second number was forgotten. `measure
//! map ENTRIES given` makes a map of a list of entries, and no call on its numbers. `measure map ENTRIES random` asks
//! for the attributes of random numbers, with the limit that `edend` has without an option.
ghost use Rattle.std.specs.Prelude.{◌≡◌, ◌<◌, IfOk, None, IsSome, false, length};
ghost use Rattle.std.specs.List.{list_any};
ghost use Rattle.entry_table.specs.Entries.{entry_of, is_kid_of, AreEntries, IsLinked};
ghost use Rattle.inode_map.specs.InodeMap.{attr_of};
ghost use Rattle.measure.specs.Chain.{IsChain};

use crate::figures::Figures;
use crate::names::{fresh_name, name_of, parent_of};
use crate::random::{ASKED, DEFAULT_LIMIT, Random};
use crate::words::number_at;
use eden_base::{Attr, FileId, Kind, Name, NoMemory, Number, Perm, Place};
use inode_map::{Forgot, GiveFault, InodeMap, Kept, NamedEntries};
use std::alloc::Global;

/// How many numbers of a map each call is made on.
const SOUGHT: u64 = 1000;

const LOADED_LIMIT: usize = 64;

/// A number of the map, its directory and its name, and a name that the directory lacks.
#[derive(Drop)]
struct Sought {
    number: Number,
    parent: Number,
    name: Name,
    fresh: Name,
}

/// Gives entry `i` a number. If `every` is 2, the numbers of the odd entries are forgotten again.
fn give_entry(alloc: Global, map: &mut InodeMap, i: u64, every: u64) -> Result<(), NoMemory> {
    let name = name_of(alloc, i)?;
    let given = map.give(alloc, Number(parent_of(i)), &name);
    drop(name);
    let Ok(number) = given else {
        return Err(NoMemory);
    };
    if every == 2 && i % 2 == 1 {
        map.forget(number, 1);
    }
    Ok(())
}

/// Gives numbers to entries, in directories of 63 files each, until `entries` numbers are left.
fn fill(alloc: Global, map: &mut InodeMap, entries: u64, every: u64) -> Result<(), NoMemory> {
    for i in 0..entries.wrapping_mul(every) {
        give_entry(alloc, map, i, every)?;
    }
    Ok(())
}

/// Returns the number of entry `i`, with `fresh` as the name that its directory lacks.
fn sought_of(alloc: Global, i: u64, fresh: Name) -> Result<Sought, NoMemory> {
    let name = name_of(alloc, i)?;
    Ok(Sought {
        number: Number(i.wrapping_add(2)),
        parent: Number(parent_of(i)),
        name,
        fresh,
    })
}

/// Lists numbers that are spread evenly over those of a map.
fn list_sought(alloc: Global, entries: u64, every: u64) -> Result<Vec<Sought>, NoMemory> {
    let mut list = Vec::new(alloc);
    for j in 0..SOUGHT {
        let i = j.wrapping_mul(entries / SOUGHT).wrapping_mul(every);
        list.push(sought_of(alloc, i, fresh_name(alloc, j)?)?)?;
    }
    Ok(list)
}

#[inline(never)]
fn give_new(
    alloc: Global,
    map: &mut InodeMap,
    parent: Number,
    name: &Name,
) -> Result<Number, GiveFault> {
    map.give(alloc, parent, name)
}

#[inline(never)]
fn give_again(alloc: Global, map: &mut InodeMap, parent: Number, name: &Name) -> Option<Number> {
    map.give(alloc, parent, name).ok()
}

#[inline(never)]
fn forget_one(map: &mut InodeMap, number: Number) -> Forgot {
    map.forget(number, 1)
}

#[inline(never)]
fn forget_last(map: &mut InodeMap, number: Number) -> bool {
    map.forget(number, 1) == Forgot::Dropped
}

#[inline(never)]
fn entry(map: &InodeMap, number: Number) -> Option<&Place> {
    map.entry(number)
}

#[inline(never)]
fn count(map: &InodeMap, number: Number) -> u64 {
    map.count(number)
}

#[inline(never)]
fn number_for(map: &InodeMap, parent: Number, name: &Name) -> Option<Number> {
    map.number_for(parent, name)
}

#[inline(never)]
fn after(map: &InodeMap, number: Number) -> Option<Number> {
    map.after(number)
}

#[inline(never)]
fn attr(map: &mut InodeMap, number: Number) -> Option<Attr>
    ensures attr { result ≡ attr_of map.old.loaded number.0 }
    ensures entries { map.new.entries ≡ map.old.entries }
    ensures loaded { result ≡ None → attr_of map.new.loaded number.0 ≡ None }
{
    map.attr(number)
}

#[inline(never)]
fn load(map: &mut InodeMap, number: Number, attr: Attr)
    requires entry { IsSome (entry_of map.old.entries number.0) }
    requires unloaded { attr_of map.old.loaded number.0 ≡ None }
{
    map.load(number, attr);
}

#[inline(never)]
fn remember(map: &mut InodeMap, number: Number, file: FileId)
    requires entry { IsSome (entry_of map.old.entries number.0) }
{
    map.remember(number, file);
}

#[inline(never)]
fn recall(map: &InodeMap, number: Number) -> Option<FileId> {
    map.recall(number)
}

#[inline(never)]
fn unlink(map: &mut InodeMap, number: Number, file: FileId)
    requires linked { IsLinked map.old.entries number.0 }
    requires no_kids { list_any (is_kid_of number.0) map.old.entries ≡ false }
{
    map.unlink(number, file);
}

/// Makes the calls that change nothing on each listed number, and returns the sum of what they return.
fn read_all(map: &InodeMap, list: &[Sought]) -> u64 {
    let mut sum = 0u64;
    for sought in list {
        sum = sum.wrapping_add(count(map, sought.number));
        if entry(map, sought.number).is_some() {
            sum = sum.wrapping_add(1);
        }
        if let Some(number) = number_for(map, sought.parent, &sought.name) {
            sum = sum.wrapping_add(number.0);
        }
        if let Some(number) = after(map, sought.number) {
            sum = sum.wrapping_add(number.0);
        }
        if let Some(file) = recall(map, sought.number) {
            sum = sum.wrapping_add(file.0);
        }
    }
    sum
}

/// Loads an attribute of `number`, unless `number` is unknown or has one loaded. Returns whether it did.
fn load_where_none(map: &mut InodeMap, number: Number) -> bool {
    if map.entry(number).is_some() && attr(map, number).is_none() {
        let attr = Attr {
            kind: Kind::File,
            perm: Perm::DIRECTORY,
            size: 0,
            nlink: 1,
        };
        load(map, number, attr);
        return true;
    }
    false
}

/// Remembers a file of each listed number, and loads its attribute. Returns how many attributes were loaded.
fn remember_all(map: &mut InodeMap, list: &[Sought]) -> u64 {
    let mut loaded = 0u64;
    for sought in list {
        if map.entry(sought.number).is_some() {
            remember(map, sought.number, FileId(sought.number.0));
        }
        if load_where_none(map, sought.number) {
            loaded = loaded.wrapping_add(1);
        }
    }
    loaded
}

/// Gives the number of each listed name once more, and forgets it once. Returns how many counts were lowered.
fn give_all_again(alloc: Global, map: &mut InodeMap, list: &[Sought]) -> u64 {
    let mut lowered = 0u64;
    for sought in list {
        if let Some(number) = give_again(alloc, map, sought.parent, &sought.name) {
            if forget_one(map, number) == Forgot::Lowered {
                lowered = lowered.wrapping_add(1);
            }
        }
    }
    lowered
}

/// Takes the name of `number` away, if `number` has a name and forgetting it once would drop it.
fn unlink_lonely(map: &mut InodeMap, number: Number) {
    let Some(Place::Linked { .. }) = map.entry(number) else {
        return;
    };
    let Forgot::Dropped = map.forgot(number, 1) else {
        return;
    };
    unlink(map, number, FileId(number.0));
}

/// Gives a number to each fresh name, takes every second such name away, and forgets the numbers. Returns how many
/// numbers were dropped.
fn give_all_new(alloc: Global, map: &mut InodeMap, list: &[Sought]) -> Result<u64, NoMemory> {
    let mut dropped = 0u64;
    for sought in list {
        let Ok(number) = give_new(alloc, map, sought.parent, &sought.fresh) else {
            return Err(NoMemory);
        };
        if number.0 % 2 == 0 {
            unlink_lonely(map, number);
        }
        if forget_last(map, number) {
            dropped = dropped.wrapping_add(1);
        }
    }
    Ok(dropped)
}

/// Makes each call on the listed numbers, and returns the figures.
fn call_all(alloc: Global, map: &mut InodeMap, list: &[Sought]) -> Result<Figures, NoMemory> {
    let loaded = remember_all(map, list);
    let sum = read_all(map, list);
    let lowered = give_all_again(alloc, map, list);
    let dropped = give_all_new(alloc, map, list)?;
    Ok(Figures::of(
        &["loaded", "lowered", "dropped", "sum"],
        &[loaded, lowered, dropped, sum],
    ))
}

/// Fills a map, and makes each call on it.
fn fill_and_call(
    alloc: Global,
    map: &mut InodeMap,
    entries: u64,
    every: u64,
) -> Result<Figures, NoMemory> {
    fill(alloc, map, entries, every)?;
    let list = list_sought(alloc, entries, every)?;
    let figures = call_all(alloc, map, list.as_slice());
    drop(list);
    figures
}

/// Makes a map of `entries` entries, and each call on it.
fn figures_of(alloc: Global, entries: u64, every: u64) -> Result<Figures, NoMemory> {
    let mut map = InodeMap::new(alloc, LOADED_LIMIT)?;
    let figures = fill_and_call(alloc, &mut map, entries, every);
    drop(map);
    figures
}

/// Asks for the attributes of random numbers, and loads those that are not loaded. Returns how many were loaded.
fn ask_random(map: &mut InodeMap, entries: u64) -> u64 {
    let mut random = Random::new();
    let mut loaded = 0u64;
    for _ in 0..ASKED {
        if load_where_none(map, random.number(entries)) {
            loaded = loaded.wrapping_add(1);
        }
    }
    loaded
}

/// Fills a map, and asks for the attributes of random numbers.
fn fill_and_ask(alloc: Global, map: &mut InodeMap, entries: u64) -> Result<Figures, NoMemory> {
    fill(alloc, map, entries, 1)?;
    let loaded = ask_random(map, entries);
    Ok(Figures::of(&["loaded"], &[loaded]))
}

/// Makes a map of `entries` entries, and asks for the attributes of random numbers.
fn figures_of_random(alloc: Global, entries: u64) -> Result<Figures, NoMemory> {
    let mut map = InodeMap::new(alloc, DEFAULT_LIMIT)?;
    let figures = fill_and_ask(alloc, &mut map, entries);
    drop(map);
    figures
}

/// Lists `entries` entries, each in the directory of the number before it.
fn list_chain(alloc: Global, entries: u32) -> Result<Vec<Kept>, NoMemory>
    ensures chain { IfOk result (λ list. IsChain 2 list.items) }
    ensures len { IfOk result (λ list. length list.items ≡ entries) }
{
    let mut list = Vec::new(alloc);
    while list.len() < entries as usize {
        let i = list.len() as u64;
        let name = name_of(alloc, i)?;
        list.push(Kept {
            number: Number(i + 2),
            place: Place::Linked {
                parent: Number(i + 1),
                name,
            },
            count: 1,
        })?;
    }
    Ok(list)
}

#[inline(never)]
fn of_entries(alloc: Global, named: NamedEntries, next: u64) -> Result<InodeMap, NoMemory>
    requires entries { AreEntries named.entries.items next }
    requires files { length named.files.items ≡ length named.entries.items }
{
    InodeMap::of_entries(alloc, named, next, LOADED_LIMIT)
}

/// Makes a map of `entries`, which all name one file, and returns whether it knows their last number.
fn knows_last(alloc: Global, entries: Vec<Kept>, next: u64) -> Result<bool, NoMemory>
    requires entries { AreEntries entries.items next }
    requires next { 0 < next }
{
    let files = vec![in alloc; FileId(2); entries.len()]?;
    let named = NamedEntries { entries, files };
    let map = of_entries(alloc, named, next)?;
    let known = map.known(Number(next - 1));
    drop(map);
    Ok(known)
}

/// Makes a map of a chain of `entries` entries, and returns whether it knows their last number.
fn knows_last_of(alloc: Global, entries: u32) -> Result<bool, NoMemory> {
    let list = list_chain(alloc, entries)?;
    let next = entries as u64 + 2;
    knows_last(alloc, list, next)
}

/// Makes a map of a list of `entries` entries. The figure is whether the map knows their last number.
fn figures_of_given(alloc: Global, entries: u32) -> Result<Figures, NoMemory> {
    let known = knows_last_of(alloc, entries)?;
    Ok(Figures::of(&["known"], &[u64::from(known)]))
}

/// Measures the calls on a map, or a map of given entries, as `words` say.
pub(crate) fn measure(alloc: Global, words: &[&str]) -> Result<Option<Figures>, NoMemory> {
    let Some(entries) = number_at(words, 0) else {
        return Ok(None);
    };
    match words {
        [_] => figures_of(alloc, u64::from(entries), 1).map(Some),
        [_, "holes"] => figures_of(alloc, u64::from(entries), 2).map(Some),
        [_, "given"] => figures_of_given(alloc, entries).map(Some),
        [_, "random"] => figures_of_random(alloc, u64::from(entries)).map(Some),
        _ => Ok(None),
    }
}
