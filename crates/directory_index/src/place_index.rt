//! The index of places.
ghost use Rattle.std.specs.Prelude.{◌≡◌, ℕ, true, false, is_ok, not, List, Option, None, Some, OnOk, OnErr};
ghost use Rattle.directory_index.specs.Keys.{key_of};
ghost use Rattle.directory_index.specs.PlaceIndex.{has_place, is_latest, ArePlacesOf, IsAdded};
ghost use Rattle.directory_index.specs.Standing.{if_at, inserted, nothing, removed, AreKnown, Standing, StandsNowhere};

use crate::key::key_of;
use crate::link::{Link, is_latest, latest_at};
use crate::names::Names;
use crate::places::Places;
use std::alloc::{AllocError, Global};

/// The number at each place, a directory and a name in it. It stores no names: `Places` knows where a number stands. The
/// link that was inserted last stays beside the maps until `make_room` moves it into them, so that `insert` takes no
/// memory.
pub(crate) struct PlaceIndex {
    names: Names,
    pub(crate) latest: Option<Link>,
}

impl Drop for PlaceIndex {
    fn drop(self) {
        let PlaceIndex {
            names: _,
            latest: _,
        } = self;
    }
}

impl PlaceIndex {
    /// Makes an index of nothing, whose first buckets are enough for this many `numbers`. It takes no memory before the
    /// second number comes.
    pub(crate) fn for_numbers(alloc: Global, numbers: usize) -> PlaceIndex
        ensures empty { ArePlacesOf nothing nothing result }
        ensures room { has_place result ≡ true }
    {
        PlaceIndex {
            names: Names::for_numbers(alloc, numbers),
            latest: None,
        }
    }

    /// Returns the number under `name` in the directory `dir`, if there is one. `places` knows each number of the index.
    pub(crate) fn get<P: Places>(&self, places: &P, dir: u64, name: &[u8]) -> Option<u64>
        ensures number { (at below : Standing) → ArePlacesOf at below self.now → AreKnown at (P.place places.now)
            → result ≡ at dir name.now }
    {
        self.find(places, key_of(dir, name), dir, name)
    }

    /// Returns the number under `name` in the directory `dir`, if there is one. `key` is the key of this place.
    pub(crate) fn find<P: Places>(&self, places: &P, key: u64, dir: u64, name: &[u8]) -> Option<u64>
        requires key { key ≡ key_of dir name.now }
        ensures number { (at below : Standing) → ArePlacesOf at below self.now → AreKnown at (P.place places.now)
            → result ≡ at dir name.now }
    {
        if let Some(number) = standing(places, latest_at(&self.latest, key), dir, name) {
            return Some(number);
        }
        if let Some(number) = standing(places, self.names.at_key(key), dir, name) {
            return Some(number);
        }
        self.names.other(dir, name)
    }

    /// Makes room for one more number: moves the one that was inserted last into the maps. What the index is of stays.
    /// `places` knows each number of the index. If memory is refused, nothing changes.
    pub(crate) fn make_room<P: Places>(
        &mut self,
        alloc: Global,
        places: &P,
    ) -> Result<(), AllocError>
        requires known { (at : Standing) × (below : Standing)
            × ArePlacesOf at below self.old × AreKnown at (P.place places.now) }
        ensures moved { OnOk result ((at below : Standing) → ArePlacesOf at below self.old
            → AreKnown at (P.place places.now) → ArePlacesOf at at self.new) }
        ensures kept { OnErr result ((at below : Standing) → ArePlacesOf at below self.old
            → AreKnown at (P.place places.now) → ArePlacesOf at below self.new) }
        ensures room { OnOk result (has_place self.new ≡ true) }
        ensures unneeded { has_place self.old ≡ true → is_ok result ≡ true }
    {
        let Some(link) = &self.latest else {
            return Ok(());
        };
        let Ok(()) = name(&mut self.names, alloc, places, link) else {
            return Err(AllocError);
        };
        self.latest = None;
        Ok(())
    }

    /// Inserts `number` under `name` in the directory `dir`, in the room that `make_room` made.
    pub(crate) fn insert(&mut self, dir: u64, name: &[u8], number: u64)
        requires room { has_place self.old ≡ true }
        ensures inserted { (at below : Standing) → ArePlacesOf at below self.old → at dir name.now ≡ None
            → StandsNowhere at number → ArePlacesOf (inserted at dir name.now number) below self.new }
    {
        self.latest = Some(Link {
            dir,
            key: key_of(dir, name),
            number,
        });
    }

    /// Removes `number`, which stands under `name` in the directory `dir`, and returns whether the maps had it. Takes no
    /// memory, and leaves the room as it is. The key of this place is reckoned only where the maps have the number.
    pub(crate) fn remove(&mut self, dir: u64, name: &[u8], number: u64) -> bool
        ensures had { result ≡ not (is_latest self.old.latest number) }
        ensures removed { (at below : Standing) → ArePlacesOf at below self.old → at dir name.now ≡ Some number
            → result ≡ true → ArePlacesOf (removed at dir name.now) (removed below dir name.now) self.new }
        ensures latest { (at below : Standing) → ArePlacesOf at below self.old → at dir name.now ≡ Some number
            → result ≡ false → ArePlacesOf (removed at dir name.now) below self.new }
        ensures room { has_place self.old ≡ true → has_place self.new ≡ true }
    {
        if is_latest(&self.latest, number) {
            self.latest = None;
            return false;
        }
        self.remove_at(key_of(dir, name), dir, name, number)
    }

    /// Removes `number`, as `remove` does. `key` is the key of its place.
    pub(crate) fn remove_at(&mut self, key: u64, dir: u64, name: &[u8], number: u64) -> bool
        requires key { key ≡ key_of dir name.now }
        ensures had { result ≡ not (is_latest self.old.latest number) }
        ensures removed { (at below : Standing) → ArePlacesOf at below self.old → at dir name.now ≡ Some number
            → result ≡ true → ArePlacesOf (removed at dir name.now) (removed below dir name.now) self.new }
        ensures latest { (at below : Standing) → ArePlacesOf at below self.old → at dir name.now ≡ Some number
            → result ≡ false → ArePlacesOf (removed at dir name.now) below self.new }
        ensures room { has_place self.old ≡ true → has_place self.new ≡ true }
    {
        if is_latest(&self.latest, number) {
            self.latest = None;
            return false;
        }
        self.names.remove(key, dir, name, number);
        true
    }
}

/// Returns `number`, if there is one and it stands under `name` in the directory `dir`.
fn standing<P: Places>(places: &P, number: Option<u64>, dir: u64, name: &[u8]) -> Option<u64>
    ensures standing { result ≡ if_at (P.place places.now) dir name.now number }
{
    let number = number?;
    if places.stands(number, dir, name) {
        return Some(number);
    }
    None
}

/// Puts the number of `link` at its key, or under its name if the key is taken. If memory is refused, nothing changes.
fn name<P: Places>(
    names: &mut Names,
    alloc: Global,
    places: &P,
    link: &Link,
) -> Result<(), AllocError>
    requires stands { (name : List ℕ) × (P.place places.now link.now.number ≡ Some (link.now.dir, name)) }
    ensures named { (name : List ℕ) → P.place places.now link.now.number ≡ Some (link.now.dir, name)
        → IsAdded names.old names.new (is_ok result) link.now name }
{
    if names.at_key(link.key).is_none() {
        return names.add_at_key(alloc, link.key, link.number);
    }
    let Some(name) = places.name_of(link.number) else {
        unreachable!()
    };
    names.add_other(alloc, link.dir, name, link.number)
}
