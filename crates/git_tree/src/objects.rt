//! The objects of a manifest's files.
ghost use Rattle.std.specs.Prelude.{◌≡◌, ◌<◌, ◌^◌, [], ◌∷◌, ◌++◌, OnOk, length};
ghost use Rattle.git_tree.specs.GitObject.{object_at};

use crate::ObjectId;
use eden_base::{FileId, NoMemory};
use std::alloc::Global;
use std::marker::Model;

/// The object of each file of a manifest below its root.
#[derive(Drop)]
pub struct Objects {
    ids: Vec<ObjectId>,
}

impl Model for Objects {
    ghost use Rattle.std.specs.Prelude.{List};
    ghost use Rattle.git_tree.specs.declared.object_id.ObjectId.{ObjectId};

    ghost Value = { List ObjectId };

    ghost view = { λ a. a.ids.items };
}

impl Objects {
    /// Makes the objects of no files.
    pub(crate) fn new(alloc: Global) -> Objects
        ensures { result ≡ [] }
    {
        Objects {
            ids: Vec::new(alloc),
        }
    }

    /// Appends the object of the next file.
    pub(crate) fn push(&mut self, object: ObjectId) -> Result<(), NoMemory>
        ensures { OnOk result (self.new ≡ self.old ++ object ∷ []) }
    {
        self.ids.push(object)?;
        Ok(())
    }

    /// Returns how many files there are below the root.
    pub fn len(&self) -> usize
        ensures len { result ≡ length self.now }
        ensures few { result < 2 ^ 63 }
    {
        self.ids.len()
    }

    /// Returns the object of `file`, or none if it is the root or no file. The object of a submodule is a commit of
    /// another repository.
    pub fn of(&self, file: FileId) -> Option<ObjectId>
        ensures object { result ≡ object_at self.now file }
    {
        if file.0 < 2 {
            return None;
        }
        self.ids.get((file.0 - 2) as usize).copied()
    }
}
