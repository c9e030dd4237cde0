//! The places of added links.
ghost use Rattle.checkout.specs.Added.{place_of};

use directory_index::Places;
use eden_base::{FileId, Name};
use std::collections::HashMap;

/// The place of an added link.
#[derive(Drop)]
pub(super) struct AddedPlace {
    pub(super) dir: FileId,
    pub(super) name: Name,
}

/// The place of a file's added link, by the file's id. Only the tree gives ids, so a hash with a fixed seed suffices.
#[derive(Drop)]
pub(super) struct AddedPlaces {
    pub(super) files: HashMap<u64, AddedPlace>,
}

impl Places for AddedPlaces {
    ghost place = { λ places file. place_of places file };

    fn stands(&self, number: u64, dir: u64, name: &[u8]) -> bool {
        match self.files.get(&number) {
            Some(place) => place.dir.0 == dir && place.name.bytes() == name,
            None => false,
        }
    }

    fn name_of(&self, number: u64) -> Option<&[u8]> {
        let place = self.files.get(&number)?;
        Some(place.name.bytes())
    }
}
