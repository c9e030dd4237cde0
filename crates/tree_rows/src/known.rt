//! An index of places, with the places of its numbers.
ghost use Rattle.directory_index.specs.Index.{IsIndexOf};
ghost use Rattle.directory_index.specs.Standing.{nothing};
ghost use Rattle.tree_rows.specs.Known.{place_in};

use directory_index::{DirectoryIndex, Places};
use row_words::RowFault;
use std::alloc::Global;
use std::collections::HashMap;
use std::marker::Model;

/// Where a number stands.
#[derive(Drop)]
pub(crate) struct KnownPlace {
    dir: u64,
    name: Vec<u8>,
}

/// Where each number of an index stands.
#[derive(Drop)]
pub(crate) struct KnownPlaces {
    places: HashMap<u64, KnownPlace>,
}

impl Places for KnownPlaces {
    ghost place = { λ known number. place_in known number };

    fn stands(&self, number: u64, dir: u64, name: &[u8]) -> bool {
        match self.places.get(&number) {
            Some(place) => place.dir == dir && place.name.as_slice() == name,
            None => false,
        }
    }

    fn name_of(&self, number: u64) -> Option<&[u8]> {
        let place = self.places.get(&number)?;
        Some(place.name.as_slice())
    }
}

/// An index, and the places of its numbers.
#[derive(Drop)]
pub(crate) struct KnownIndex {
    known: KnownPlaces,
    index: DirectoryIndex,
}

impl Model for KnownIndex {
    ghost use Rattle.tree_rows.specs.Known.{IsKnown};

    ghost Value = { Unit {0} };

    ghost view = { λ _. tt };

    ghost invariant = { λ a. IsKnown a.known a.index };
}

impl KnownIndex {
    /// Makes the places of the numbers of `index`, which has none.
    pub(crate) fn of(alloc: Global, index: DirectoryIndex) -> KnownIndex
        requires empty { IsIndexOf nothing index }
    {
        KnownIndex {
            known: KnownPlaces {
                places: HashMap::new(alloc),
            },
            index,
        }
    }

    /// Returns the number under `name` in the directory `dir`, if there is one.
    pub(crate) fn get(&self, dir: u64, name: &[u8]) -> Option<u64> {
        self.index.get(&self.known, dir, name)
    }

    /// Returns whether a number stands in the directory `dir`.
    pub(crate) fn has_names(&self, dir: u64) -> bool {
        self.index.has_names(dir)
    }

    /// Returns the first number from `least` on that stands in the directory `dir`, or none.
    pub(crate) fn first_from(&self, dir: u64, least: u64) -> Option<u64> {
        self.index.first_from(dir, least)
    }

    /// Puts `number` under `name` in the directory `dir`, unless another number stands there or it stands somewhere.
    /// Returns whether it was put.
    pub(crate) fn put(
        &mut self,
        alloc: Global,
        dir: u64,
        name: &[u8],
        number: u64,
    ) -> Result<bool, RowFault> {
        if self.known.places.contains_key(&number) {
            return Ok(false);
        }
        if self.index.get(&self.known, dir, name).is_some() {
            return Ok(false);
        }
        let own = Vec::from_slice(alloc, name)?;
        self.index.make_room(alloc, &self.known)?;
        self.known
            .places
            .insert(number, KnownPlace { dir, name: own })?;
        self.index.insert(dir, name, number);
        Ok(true)
    }

    /// Removes `number` from `name` in the directory `dir`, if it stands there. Returns whether it was removed.
    pub(crate) fn remove(&mut self, dir: u64, name: &[u8], number: u64) -> bool {
        let Some(found) = self.index.get(&self.known, dir, name) else {
            return false;
        };
        if found != number {
            return false;
        }
        self.index.remove(dir, name, number);
        self.known.places.remove(&number);
        true
    }

    /// Gives back the room that no directory takes.
    pub(crate) fn trim(&mut self) {
        self.index.trim();
    }
}
