//! The files that were made since the manifest.
ghost use Rattle.std.specs.Prelude.{◌≡◌, ◌==◌, ◌<◌, ℕ, map, IfOk, IsSome, OnOk, OnErr, Some};
ghost use Rattle.std.specs.FinMap.{empty, entries, get, insert};
ghost use Rattle.std.specs.List.{find};
ghost use Rattle.std.specs.List.Sorted.{IsStrictlySortedBy};
ghost use Rattle.std.specs.Option.{IfSome};
ghost use Rattle.std.specs.Ordering.{nat_cmp};
ghost use Rattle.checkout.specs.Changes.{file_ids};
ghost use Rattle.checkout.specs.Laying.{with_made};
ghost use Rattle.checkout.specs.Listing.{listed_file};
ghost use Rattle.checkout.specs.declared.changes.Made.{Made as MadeState};

use crate::Made;
use eden_base::{FileId, MadeKind, NoMemory, Perm};
use std::alloc::Global;
use std::marker::Model;

/// What is kept of a file that was made. It stays when its link is removed.
#[derive(Clone, Copy)]
pub struct MadeFile {
    pub kind: MadeKind,
    pub perm: Perm,
}

/// The made files by rising id. A new file has a greater id than all others, and so goes to the end.
#[derive(Drop)]
pub struct MadeFiles {
    files: Vec<Made>,
}

impl Model for MadeFiles {
    ghost use Rattle.std.specs.Ordering.{nat_cmp};
    ghost use Rattle.std.specs.List.Sorted.{IsStrictlySortedBy};
    ghost use Rattle.std.specs.FinMap.{FinMap, empty};
    ghost use Rattle.checkout.specs.declared.made.MadeFile.{MadeFile};
    ghost use Rattle.checkout.specs.Changes.{file_ids};
    ghost use Rattle.checkout.specs.Laying.{with_made};
    ghost use Rattle.checkout.specs.MadeCodes.{made_code};

    ghost Value = { FinMap nat_cmp MadeFile };

    ghost coded = { made_code };

    ghost view = { λ a. with_made empty a.files.items };

    ghost invariant = { λ a. IsStrictlySortedBy nat_cmp (file_ids a.files.items) };
}

impl MadeFiles {
    /// Makes an empty set of files.
    pub fn new(alloc: Global) -> MadeFiles
        ensures { result ≡ empty }
    {
        MadeFiles {
            files: Vec::new(alloc),
        }
    }

    /// Makes the set of the files in `list`, whose ids rise.
    pub fn of(alloc: Global, list: &[Made]) -> Result<MadeFiles, NoMemory>
        requires rising { IsStrictlySortedBy nat_cmp (file_ids list.now) }
        ensures { IfOk result (λ made. made ≡ with_made empty list.now) }
    {
        let files = Vec::from_slice(alloc, list)?;
        Ok(MadeFiles { files })
    }

    /// Returns the made file with this id, or none.
    pub fn get(&self, file: FileId) -> Option<MadeFile>
        ensures { result ≡ get self.now file.0 }
    {
        let made = made_at(self.files.as_slice(), file)?;
        Some(MadeFile {
            kind: made.kind,
            perm: made.perm,
        })
    }

    /// Adds a file, whose id is greater than those of all others. If memory is refused, nothing changes.
    pub fn add(&mut self, file: FileId, made: MadeFile) -> Result<(), NoMemory>
        requires later { (id : ℕ) → IsSome (get self.old id) → id < file.0 }
        ensures ok { OnOk result (self.new ≡ insert self.old file.0 made) }
        ensures err { OnErr result (self.new ≡ self.old) }
    {
        self.files.push(Made {
            file,
            kind: made.kind,
            perm: made.perm,
        })?;
        Ok(())
    }

    /// Returns the files by rising id.
    pub fn list(&self, alloc: Global) -> Result<Vec<Made>, NoMemory>
        ensures { IfOk result (λ list. list.items ≡ map listed_file (entries self.now)) }
    {
        let list = Vec::from_slice(alloc, self.files.as_slice())?;
        Ok(list)
    }
}

/// Returns the file with this id, or none. Looks first where it stands if no id is missing, and else searches by
/// halving.
pub fn made_at(files: &[Made], file: FileId) -> Option<Made>
    requires rising { IsStrictlySortedBy nat_cmp (file_ids files.now) }
    ensures { result ≡ find (λ (x : MadeState). x.file.0 == file.0) files.now }
{
    if let Some(made) = dense_at(files, file) {
        return Some(made);
    }
    match files.binary_search_by_key(&file.0, |made| made.file.0) {
        Ok(index) => Some(files[index]),
        Err(_) => None,
    }
}

/// Returns the file with this id, if there is one and no id between the first file's and this one is missing.
fn dense_at(files: &[Made], file: FileId) -> Option<Made>
    requires rising { IsStrictlySortedBy nat_cmp (file_ids files.now) }
    ensures { IfSome result (λ made. find (λ (x : MadeState). x.file.0 == file.0) files.now ≡ Some made) }
{
    let first = files.first()?;
    let index = file.0.wrapping_sub(first.file.0) as usize;
    if index >= files.len() {
        return None;
    }
    let made = files[index];
    if made.file.0 == file.0 {
        Some(made)
    } else {
        None
    }
}
