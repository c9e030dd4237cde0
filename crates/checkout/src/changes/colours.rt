//! The files that a walk upwards visited, and whether each is on a circle of links.
ghost use Rattle.std.specs.Prelude.{◌≡◌, ◌≤◌, true, OnOk};
ghost use Rattle.std.specs.FinMap.{empty, get, insert};
ghost use Rattle.checkout.specs.Around.{from_file, AreSet};

use eden_base::{FileId, NoMemory};
use std::alloc::Global;
use std::collections::BTreeMap;
use std::marker::Model;

/// The colour of each visited file: whether the file is on a circle of links.
#[derive(Drop)]
pub struct Colours {
    files: BTreeMap<u64, bool>,
}

impl Model for Colours {
    ghost use Rattle.std.specs.Prelude.{Bool};
    ghost use Rattle.std.specs.Ordering.{nat_cmp};
    ghost use Rattle.std.specs.BTreeMap.{IsOrdered};
    ghost use Rattle.std.specs.FinMap.{FinMap, from_entries};
    ghost use Rattle.checkout.specs.Around.{colours_code};

    ghost Value = { FinMap nat_cmp Bool };

    ghost coded = { colours_code };

    ghost view = { λ a. from_entries a.files.entries };

    ghost invariant = { λ a. IsOrdered nat_cmp a.files };
}

impl Colours {
    /// Makes an empty set of colours.
    pub fn new(alloc: Global) -> Colours
        ensures { result ≡ empty }
    {
        Colours {
            files: BTreeMap::new(alloc),
        }
    }

    /// Returns whether the file is on a circle, or none for a file that was not visited.
    pub fn get(&self, file: FileId) -> Option<bool>
        ensures colour { result ≡ get self.now file.0 }
        ensures id { file.0 ≤ u64.MAX }
    {
        self.files.get(&file.0).copied()
    }

    /// Sets the colour of a file: whether the file is on a circle.
    pub fn set(&mut self, file: FileId, on_circle: bool) -> Result<(), NoMemory>
        ensures { OnOk result (self.new ≡ insert self.old file.0 on_circle) }
    {
        self.files.insert(file.0, on_circle)?;
        Ok(())
    }

    /// Sets the colour of each of the files to that of a file on a circle.
    pub fn mark_circle(&mut self, files: &[FileId]) -> Result<(), NoMemory>
        ensures { OnOk result (AreSet files.now true self.old self.new) }
    {
        for file in files {
            self.set(*file, true)?;
        }
        Ok(())
    }
}

/// Returns the rest of `files` from `file` on, or an empty slice if `files` doesn't contain `file`.
pub fn from_file(file: FileId, files: &[FileId]) -> &[FileId]
    ensures { result.now ≡ from_file file files.now }
{
    for (index, other) in files.iter().enumerate() {
        if other.0 == file.0 {
            return &files[index..];
        }
    }
    &[]
}
