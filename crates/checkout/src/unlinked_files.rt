//! The manifest's files that lost their link.
ghost use Rattle.std.specs.Prelude.{◌≡◌, ◌==◌, ◌++◌, ◌∷◌, [], ◌+◌, ◌<◌, ◌≤◌, ℕ, Bool, false, true, nat_lt, IfOk, OnOk};
ghost use Rattle.std.specs.List.{IsDistinct};
ghost use Rattle.checkout.specs.UnlinkedFiles.{is_gone, AreMarks};
ghost use Rattle.checkout.specs.Listing.{gone_changes, HaveLines};

use crate::added::Added;
use eden_base::{FileId, NoMemory};
use manifest::{Line, LinkChange, Tally};
use std::alloc::Global;
use std::marker::Model;

/// The manifest's files that lost their link, both as marks by id and as a list. A mark counts how many files from its
/// own on are gone. The room for all files is taken when the set is made.
#[derive(Drop)]
pub struct UnlinkedFiles {
    marks: Tally,
    files: Vec<u64>,
}

impl Model for UnlinkedFiles {
    ghost use Rattle.std.specs.Prelude.{◌≡◌, ◌==◌, ◌<◌, ◌≤◌, ℕ, length, true};
    ghost use Rattle.std.specs.List.{IsDistinct};
    ghost use Rattle.std.specs.Vec.{vec_capacity, vec_len};
    ghost use Rattle.checkout.specs.UnlinkedFiles.{UnlinkedFiles, is_gone, AreMarks};

    ghost Value = { UnlinkedFiles };

    ghost view = { λ a. record { files = a.files.items; room = a.marks.room } };

    ghost invariant = { λ a. IsDistinct ◌==◌ a.files.items
        × AreMarks (is_gone (record { files = a.files.items; room = a.marks.room })) a.marks
        × ((q : ℕ) → is_gone (record { files = a.files.items; room = a.marks.room }) q ≡ true → q < a.marks.room)
        × (vec_len a.files ≡ length a.files.items) × (a.marks.room ≤ vec_capacity a.files) };
}

impl UnlinkedFiles {
    /// Makes an empty set with room for the ids below `room`.
    pub fn with_room(alloc: Global, room: usize) -> Result<UnlinkedFiles, NoMemory>
        ensures { IfOk result (λ gone. gone ≡ record { files = []; room = room }) }
    {
        let marks = Tally::with_room(alloc, room)?;
        let files = Vec::with_capacity(alloc, room)?;
        Ok(UnlinkedFiles { marks, files })
    }

    /// Returns whether the file's link is gone.
    pub fn has(&self, file: FileId) -> bool
        ensures { result ≡ is_gone self.now file.0 }
    {
        self.marks.count(file.0) > 0
    }

    /// Returns how many files from `file` on are gone, one after another, or fewer; 0 only if `file` isn't gone.
    pub fn run(&self, file: FileId) -> u32
        ensures none { nat_lt 0 result ≡ is_gone self.now file.0 }
        ensures gone { (q : ℕ) → file.0 ≤ q → q < file.0 + result → is_gone self.now q ≡ true }
    {
        self.marks.count(file.0)
    }

    /// Returns the ids of the files, in the order in which their links went.
    pub fn files(&self) -> &[u64]
        ensures { result.now ≡ self.now.files }
    {
        self.files.as_slice()
    }

    /// Appends to `links` a change without a target for each file of the set, at the file's place in the manifest. A
    /// place at which `added` has a link is left out.
    pub fn list(
        &self,
        alloc: Global,
        lines: &[Line],
        added: &Added,
        links: &mut Vec<LinkChange>,
    ) -> Result<(), NoMemory>
        requires lines { HaveLines lines.now self.now.files }
        ensures listed { OnOk result (links.new.items ≡ links.old.items
            ++ gone_changes added.now lines.now self.now.files) }
        ensures distinct { IsDistinct ◌==◌ self.now.files }
    {
        for file in &self.files {
            let line = &lines[*file as usize - 2];
            if added.get(line.dir, &line.name).is_none() {
                links.push(LinkChange {
                    dir: line.dir,
                    name: line.name.copy(alloc)?,
                    target: None,
                })?;
            }
        }
        Ok(())
    }

    /// Adds a file to the set. Takes no memory.
    pub fn add(&mut self, file: FileId)
        requires room { file.0 < self.old.room }
        requires new { is_gone self.old file.0 ≡ false }
        ensures files { self.new.files ≡ self.old.files ++ file.0 ∷ [] }
        ensures room { self.new.room ≡ self.old.room }
    {
        self.marks.set(file.0, 1);
        self.files.push_reserved(file.0);
        join(&mut self.marks, file.0);
    }
}

/// The most files that one mark counts. The last file of the longest manifest has this id, and is joined with none.
const MOST: u32 = 1 << 24;

/// Joins marks around a file that is new among what is gone. Where both halves of a block of 2, 4, 8 and so on are gone,
/// the mark of its first file counts the whole block. So a walk over the marks passes many files at a step.
fn join(marks: &mut Tally, file: u64)
    requires room { file < marks.old.room }
    ensures marks { (gone : ℕ → Bool) → AreMarks gone marks.old → AreMarks gone marks.new }
    ensures room { marks.new.room ≡ marks.old.room }
{
    if file >= u64::from(MOST) {
        return;
    }
    let mut half = 1;
    while half < MOST {
        let first = file - file % u64::from(half * 2);
        let second = first + u64::from(half);
        if marks.count(first) < half || marks.count(second) < half {
            return;
        }
        half *= 2;
        marks.set(first, half);
    }
}
