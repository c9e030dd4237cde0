//! The files of which something was said lately.
ghost use Rattle.std.specs.Prelude.{◌≡◌, ◌≤◌, ◌∷◌, [], ◌++◌, true, false, length};
ghost use Rattle.std.specs.List.{list_any};
ghost use Rattle.blob_store.specs.SaidFiles.{is_file, may_be_said};

use eden_base::FileId;
use std::alloc::Global;
use std::marker::Model;

/// How many files are said before the list is cleared.
const MOST: usize = 16;

/// The files of which something was said since the list was cleared last. Contracts see a list.
#[derive(Drop)]
pub(crate) struct SaidFiles {
    files: Vec<FileId>,
}

impl Model for SaidFiles {
    ghost use Rattle.std.specs.Prelude.{◌≤◌, List, length};
    ghost use Rattle.eden_base.specs.declared.number.FileId.{FileId};

    ghost Value = { List FileId };

    ghost view = { λ said. said.files.items };

    ghost invariant = { λ said. length said.files.items ≤ 16 };
}

impl SaidFiles {
    /// Makes an empty list, without memory.
    pub(crate) fn new(alloc: Global) -> SaidFiles
        ensures empty { result ≡ [] }
    {
        SaidFiles {
            files: Vec::new(alloc),
        }
    }

    /// Takes all files out of the list.
    pub(crate) fn clear(&mut self)
        ensures empty { self.new ≡ [] }
    {
        self.files.clear();
    }

    /// Returns whether something may be said of `file`, and adds the file then. It may not where the file is in the list,
    /// the list is full, or memory for the file is refused.
    pub(crate) fn say(&mut self, file: FileId) -> bool
        ensures said { result ≡ true → may_be_said self.old file ≡ true }
        ensures added { result ≡ true → self.new ≡ self.old ++ file ∷ [] }
        ensures same { result ≡ false → self.new ≡ self.old }
    {
        if self.files.len() >= MOST || is_among(self.files.as_slice(), file) {
            return false;
        }
        self.files.push(file).is_ok()
    }
}

/// Returns whether `file` is one of `files`.
fn is_among(files: &[FileId], file: FileId) -> bool
    ensures { result ≡ list_any (is_file file) files.now }
{
    files.iter().any(|said| said.0 == file.0)
}
