//! An entry of the table, and what an image keeps of it.
ghost use Rattle.std.specs.Prelude.{◌≡◌, IfOk};
ghost use Rattle.entry_table.specs.EntryPlaces.{HasName, IsNamedEntry, is_under_name};
ghost use Rattle.entry_table.specs.Table.{kept_of};

use eden_base::{FileId, Name, NoMemory, Number, Place};
use std::alloc::Global;

/// An entry with its number, as an image keeps it. The kernel holds the number, or a number below it in the tree.
#[derive(Drop)]
pub struct Kept {
    pub number: Number,
    pub place: Place,
    /// How often the kernel holds the number, as far as the daemon knows.
    pub count: u64,
}

/// Entries by rising number, and the file that each of them names, in the same order.
#[derive(Drop)]
pub struct NamedEntries {
    pub entries: Vec<Kept>,
    pub files: Vec<FileId>,
}

/// What the table stores of a number.
#[derive(Drop)]
pub struct Entry {
    pub place: Place,
    pub count: u64,
    /// The file that the number names, once it was found.
    pub file: Option<FileId>,
    /// What the table's user notes of the number. The table doesn't read the note.
    pub note: Option<u32>,
}

impl Entry {
    /// Returns whether the entry stands under a name.
    pub fn is_linked(&self) -> bool
        ensures linked { result ≡ is_under_name self.now.place }
    {
        match &self.place {
            Place::Linked { .. } => true,
            Place::Unlinked { .. } => false,
        }
    }

    /// Returns what an image keeps of the entry of `number`, as an owned copy.
    pub(crate) fn kept(&self, alloc: Global, number: Number) -> Result<Kept, NoMemory>
        ensures entry { IfOk result (λ kept. kept ≡ kept_of number.0 self.now) }
        ensures named { IfOk result IsNamedEntry }
    {
        let place = copy_of(alloc, &self.place)?;
        Ok(Kept {
            number,
            place,
            count: self.count,
        })
    }
}

/// Returns an owned copy of `place`.
fn copy_of(alloc: Global, place: &Place) -> Result<Place, NoMemory>
    ensures copy { IfOk result (λ copy. copy ≡ place.now) }
    ensures named { IfOk result HasName }
{
    match place {
        Place::Linked { parent, name } => {
            let name = Name::of(alloc, name.bytes())?;
            Ok(Place::Linked {
                parent: *parent,
                name,
            })
        }
        Place::Unlinked { file } => Ok(Place::Unlinked { file: *file }),
    }
}
