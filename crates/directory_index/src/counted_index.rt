//! The index of places, with how many names each directory has.
ghost use Rattle.std.specs.Prelude.{◌≡◌, ℕ, true, false, is_ok, List, None, Some, OnOk};
ghost use Rattle.directory_index.specs.CountedIndex.{has_room, IsCountedOf};
ghost use Rattle.directory_index.specs.Standing.{inserted, nothing, removed, AreKnown, Standing, StandsIn, StandsNowhere};

use crate::link::is_latest_in;
use crate::name_counts::NameCounts;
use crate::place_index::PlaceIndex;
use crate::places::Places;
use std::alloc::{AllocError, Global};

/// The number at each place, a directory and a name in it, and how many names each directory has. It tells whether a
/// directory has a name, and can't list it. The link that was inserted last stands beside both, until `make_room` moves it
/// into them: so a name that goes before that is not counted.
pub struct CountedIndex {
    places: PlaceIndex,
    counts: NameCounts,
}

impl Drop for CountedIndex {
    fn drop(self) {
        let CountedIndex {
            places: _,
            counts: _,
        } = self;
    }
}

impl CountedIndex {
    /// Makes an index of nothing.
    pub fn new(alloc: Global) -> CountedIndex
        ensures empty { IsCountedOf nothing result }
        ensures room { has_room result ≡ true }
    {
        CountedIndex::for_numbers(alloc, 0)
    }

    /// Makes an index of nothing, whose first buckets are enough for this many `numbers`. It takes no memory before the
    /// second number comes.
    pub fn for_numbers(alloc: Global, numbers: usize) -> CountedIndex
        ensures empty { IsCountedOf nothing result }
        ensures room { has_room result ≡ true }
    {
        CountedIndex {
            places: PlaceIndex::for_numbers(alloc, numbers),
            counts: NameCounts::new(alloc),
        }
    }

    /// Returns the number under `name` in the directory `dir`, if there is one. `places` knows each number of the index.
    pub fn get<P: Places>(&self, places: &P, dir: u64, name: &[u8]) -> Option<u64>
        ensures number { (at : Standing) → IsCountedOf at self.now → AreKnown at (P.place places.now)
            → result ≡ at dir name.now }
    {
        self.places.get(places, dir, name)
    }

    /// Returns whether a number stands in the directory `dir`.
    pub fn has_names(&self, dir: u64) -> bool
        ensures some { (at : Standing) → IsCountedOf at self.now → result ≡ true
            → (number : ℕ) × StandsIn at dir number }
        ensures none { (at : Standing) → IsCountedOf at self.now → result ≡ false
            → (name : List ℕ) → at dir name ≡ None }
    {
        is_latest_in(&self.places.latest, dir) || self.counts.has_any(dir)
    }

    /// Makes room for one more number: counts the one that was inserted last, and moves it into the maps. What the index is
    /// of stays. `places` knows each number of the index.
    pub fn make_room<P: Places>(&mut self, alloc: Global, places: &P) -> Result<(), AllocError>
        requires known { (at : Standing) × IsCountedOf at self.old × AreKnown at (P.place places.now) }
        ensures same { (at : Standing) → IsCountedOf at self.old → AreKnown at (P.place places.now)
            → IsCountedOf at self.new }
        ensures room { OnOk result (has_room self.new ≡ true) }
        ensures unneeded { has_room self.old ≡ true → is_ok result ≡ true }
    {
        let Some(link) = &self.places.latest else {
            return Ok(());
        };
        let dir = link.dir;
        self.counts.raise(dir)?;
        let Ok(()) = self.places.make_room(alloc, places) else {
            self.counts.lower(dir);
            return Err(AllocError);
        };
        Ok(())
    }

    /// Inserts `number` under `name` in the directory `dir`, in the room that `make_room` made.
    pub fn insert(&mut self, dir: u64, name: &[u8], number: u64)
        requires room { has_room self.old ≡ true }
        ensures inserted { (at : Standing) → IsCountedOf at self.old → at dir name.now ≡ None
            → StandsNowhere at number → IsCountedOf (inserted at dir name.now number) self.new }
    {
        self.places.insert(dir, name, number);
    }

    /// Removes `number`, which stands under `name` in the directory `dir`. Takes no memory, and leaves the room as it is.
    pub fn remove(&mut self, dir: u64, name: &[u8], number: u64)
        ensures removed { (at : Standing) → IsCountedOf at self.old → at dir name.now ≡ Some number
            → IsCountedOf (removed at dir name.now) self.new }
        ensures room { has_room self.old ≡ true → has_room self.new ≡ true }
    {
        if self.places.remove(dir, name, number) {
            self.counts.lower(dir);
        }
    }

    /// Gives back the room that no count takes. What the index is of stays.
    pub fn trim(&mut self)
        ensures same { (at : Standing) → IsCountedOf at self.old → IsCountedOf at self.new }
        ensures room { has_room self.new ≡ has_room self.old }
    {
        self.counts.trim();
    }
}
