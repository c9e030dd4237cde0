//! The index of places, and of directories.
ghost use Rattle.std.specs.Prelude.{◌≡◌, ℕ, true, false, is_ok, List, None, Some, OnOk};
ghost use Rattle.std.specs.Option.{IfNone};
ghost use Rattle.directory_index.specs.Index.{has_room, IsIndexOf};
ghost use Rattle.directory_index.specs.Standing.{inserted, nothing, removed, AreKnown, IsFirstFrom, Standing, StandsIn, StandsNowhere};

use crate::children::Children;
use crate::key::key_of;
use crate::link::{is_latest_in, latest_from};
use crate::place_index::PlaceIndex;
use crate::places::Places;
use std::alloc::{AllocError, Global};

/// The number at each place, a directory and a name in it, and the numbers that stand in each directory. The link that
/// was inserted last stands beside both, until `make_room` moves it into them.
pub struct DirectoryIndex {
    places: PlaceIndex,
    children: Children,
}

impl Drop for DirectoryIndex {
    fn drop(self) {
        let DirectoryIndex {
            places: _,
            children: _,
        } = self;
    }
}

impl DirectoryIndex {
    /// Makes an index of nothing.
    pub fn new(alloc: Global) -> DirectoryIndex
        ensures empty { IsIndexOf nothing result }
        ensures room { has_room result ≡ true }
    {
        DirectoryIndex::for_numbers(alloc, 0)
    }

    /// Makes an index of nothing, whose first buckets are enough for this many `numbers`. It takes no memory before the
    /// second number comes.
    pub fn for_numbers(alloc: Global, numbers: usize) -> DirectoryIndex
        ensures empty { IsIndexOf nothing result }
        ensures room { has_room result ≡ true }
    {
        DirectoryIndex {
            places: PlaceIndex::for_numbers(alloc, numbers),
            children: Children::new(alloc),
        }
    }

    /// Returns the number under `name` in the directory `dir`, if there is one. `places` knows each number of the index.
    pub fn get<P: Places>(&self, places: &P, dir: u64, name: &[u8]) -> Option<u64>
        ensures number { (at : Standing) → IsIndexOf at self.now → AreKnown at (P.place places.now)
            → result ≡ at dir name.now }
    {
        self.places.get(places, dir, name)
    }

    /// Returns whether a number stands in the directory `dir`.
    pub fn has_names(&self, dir: u64) -> bool
        ensures some { (at : Standing) → IsIndexOf at self.now → result ≡ true
            → (number : ℕ) × StandsIn at dir number }
        ensures none { (at : Standing) → IsIndexOf at self.now → result ≡ false
            → (name : List ℕ) → at dir name ≡ None }
    {
        is_latest_in(&self.places.latest, dir) || self.children.has_any(dir)
    }

    /// Returns the first number from `least` on that stands in the directory `dir`, or none. So a directory is listed by
    /// rising number, whatever comes and goes meanwhile.
    pub fn first_from(&self, dir: u64, least: u64) -> Option<u64>
        ensures first { (at : Standing) → IsIndexOf at self.now → IsFirstFrom at dir least result }
    {
        let latest = latest_from(&self.places.latest, dir, least);
        match (self.children.first_from(dir, least), latest) {
            (Some(child), Some(number)) => Some(child.min(number)),
            (Some(child), None) => Some(child),
            (None, latest) => latest,
        }
    }

    /// Makes room for one more number: moves the one that was inserted last into the maps. What the index is of stays.
    /// `places` knows each number of the index.
    pub fn make_room<P: Places>(&mut self, alloc: Global, places: &P) -> Result<(), AllocError>
        requires known { (at : Standing) × IsIndexOf at self.old × AreKnown at (P.place places.now) }
        ensures same { (at : Standing) → IsIndexOf at self.old → AreKnown at (P.place places.now)
            → IsIndexOf at self.new }
        ensures room { OnOk result (has_room self.new ≡ true) }
        ensures unneeded { has_room self.old ≡ true → is_ok result ≡ true }
    {
        let Some(link) = &self.places.latest else {
            return Ok(());
        };
        let (dir, number) = (link.dir, link.number);
        self.children.add(alloc, dir, number)?;
        let Ok(()) = self.places.make_room(alloc, places) else {
            self.children.remove(dir, number);
            return Err(AllocError);
        };
        Ok(())
    }

    /// Inserts `number` under `name` in the directory `dir`, in the room that `make_room` made.
    pub fn insert(&mut self, dir: u64, name: &[u8], number: u64)
        requires room { has_room self.old ≡ true }
        ensures inserted { (at : Standing) → IsIndexOf at self.old → at dir name.now ≡ None
            → StandsNowhere at number → IsIndexOf (inserted at dir name.now number) self.new }
    {
        self.places.insert(dir, name, number);
    }

    /// Removes `number`, which stands under `name` in the directory `dir`. Takes no memory, and leaves the room as it is.
    pub fn remove(&mut self, dir: u64, name: &[u8], number: u64)
        ensures removed { (at : Standing) → IsIndexOf at self.old → at dir name.now ≡ Some number
            → IsIndexOf (removed at dir name.now) self.new }
        ensures room { has_room self.old ≡ true → has_room self.new ≡ true }
    {
        if self.places.remove(dir, name, number) {
            self.children.remove(dir, number);
        }
    }

    /// Removes the number under `name` in the directory `dir`, and returns it, or none if there is none. `places` knows each
    /// number of the index. Takes no memory, and leaves the room as it is.
    pub fn take<P: Places>(&mut self, places: &P, dir: u64, name: &[u8]) -> Option<u64>
        ensures number { (at : Standing) → IsIndexOf at self.old → AreKnown at (P.place places.now)
            → result ≡ at dir name.now }
        ensures removed { (at : Standing) → IsIndexOf at self.old → AreKnown at (P.place places.now)
            → IsIndexOf (removed at dir name.now) self.new }
        ensures unchanged { IfNone result (self.new ≡ self.old) }
        ensures room { has_room self.old ≡ true → has_room self.new ≡ true }
    {
        let key = key_of(dir, name);
        let Some(number) = self.places.find(places, key, dir, name) else {
            return None;
        };
        if self.places.remove_at(key, dir, name, number) {
            self.children.remove(dir, number);
        }
        Some(number)
    }

    /// Gives back the room that no directory takes. What the index is of stays.
    pub fn trim(&mut self)
        ensures same { (at : Standing) → IsIndexOf at self.old → IsIndexOf at self.new }
        ensures room { has_room self.new ≡ has_room self.old }
    {
        self.children.trim();
    }
}
