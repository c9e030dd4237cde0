//! The numbers of places, by the keys of the places.
ghost use Rattle.std.specs.Prelude.{◌≡◌, ℕ, ◌==◌, ◌&&◌, List, None, Some, is_ok, not, if◌then◌else◌};
ghost use Rattle.directory_index.specs.Names.{at_key, is_at_key, written};
ghost use Rattle.directory_index.specs.Standing.{is_place};

use key_map::KeyMap;
use std::alloc::{AllocError, Global};
use std::collections::{BTreeMap, HashMap};

/// The numbers under some names of one directory.
#[derive(Drop)]
pub(crate) struct Others {
    numbers: BTreeMap<Vec<u8>, u64>,
}

/// Numbers at the keys of their places. A number whose key another one took stands in `others`, under its name. So no
/// choice of names makes a search long, whatever their keys are.
#[derive(Drop)]
pub(crate) struct Names {
    keys: KeyMap,
    others: HashMap<u64, Others>,
}

impl Names {
    /// Makes an index without numbers, whose first buckets are enough for this many `numbers`.
    pub(crate) fn for_numbers(alloc: Global, numbers: usize) -> Names
        ensures keys { (key : ℕ) → at_key result.keys key ≡ None }
        ensures others { (dir : ℕ) (name : List ℕ) → written result.others dir name ≡ None }
    {
        Names {
            keys: KeyMap::for_numbers(alloc, numbers),
            others: HashMap::new(alloc),
        }
    }

    /// Returns the number at `key`, if there is one. It may stand at another place with this key.
    pub(crate) fn at_key(&self, key: u64) -> Option<u64>
        ensures number { result ≡ at_key self.now.keys key }
    {
        self.keys.get(key)
    }

    /// Returns the number under `name` in `dir` among those whose key was taken, if there is one.
    pub(crate) fn other(&self, dir: u64, name: &[u8]) -> Option<u64>
        ensures number { result ≡ written self.now.others dir name.now }
    {
        self.others.get(&dir)?.numbers.get(name).copied()
    }

    /// Adds `number` at `key`, which no number has. If memory is refused, nothing changes.
    pub(crate) fn add_at_key(
        &mut self,
        alloc: Global,
        key: u64,
        number: u64,
    ) -> Result<(), AllocError>
        requires free { at_key self.old.keys key ≡ None }
        ensures keys { (k : ℕ) → at_key self.new.keys k
            ≡ (if is_ok result && k == key then Some number else at_key self.old.keys k) }
        ensures others { self.new.others ≡ self.old.others }
    {
        self.keys.insert(alloc, key, number)
    }

    /// Adds `number` under `name` in `dir`, as one whose key was taken. If memory is refused, nothing changes.
    pub(crate) fn add_other(
        &mut self,
        alloc: Global,
        dir: u64,
        name: &[u8],
        number: u64,
    ) -> Result<(), AllocError>
        ensures keys { self.new.keys ≡ self.old.keys }
        ensures others { (d : ℕ) (q : List ℕ) → written self.new.others d q
            ≡ (if is_ok result && is_place d q dir name.now then Some number else written self.old.others d q) }
    {
        add(&mut self.others, alloc, dir, name, number)
    }

    /// Removes `number` from `key`, if it is there, or else what stands under `name` in `dir`.
    pub(crate) fn remove(&mut self, key: u64, dir: u64, name: &[u8], number: u64)
        ensures keys { (k : ℕ) → at_key self.new.keys k
            ≡ (if k == key && is_at_key self.old.keys key number then None else at_key self.old.keys k) }
        ensures others { (d : ℕ) (q : List ℕ) → written self.new.others d q
            ≡ (if is_place d q dir name.now && not (is_at_key self.old.keys key number)
            then None else written self.old.others d q) }
    {
        if self.keys.remove(key, number) {
            return;
        }
        remove(&mut self.others, dir, name);
    }
}

/// Puts `number` under `name` in the directory `dir`.
fn add(
    directories: &mut HashMap<u64, Others>,
    alloc: Global,
    dir: u64,
    name: &[u8],
    number: u64,
) -> Result<(), AllocError>
    ensures { (d : ℕ) (q : List ℕ) → written directories.new d q
        ≡ (if is_ok result && is_place d q dir name.now then Some number else written directories.old d q) }
{
    let name = Vec::from_slice(alloc, name)?;
    let none = Others {
        numbers: BTreeMap::new(alloc),
    };
    let directory = directories.entry(dir)?.or_insert(none);
    directory.numbers.insert(name, number)?;
    Ok(())
}

/// Removes `name` from the directory `dir`, and removes the directory with its last name.
fn remove(directories: &mut HashMap<u64, Others>, dir: u64, name: &[u8])
    ensures { (d : ℕ) (q : List ℕ) → written directories.new d q
        ≡ (if is_place d q dir name.now then None else written directories.old d q) }
{
    let Some(directory) = directories.get_mut(&dir) else {
        return;
    };
    directory.numbers.remove(name);
    if directory.numbers.is_empty() {
        directories.remove(&dir);
    }
}
