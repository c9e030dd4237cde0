//! What one record says.
ghost use Rattle.std.specs.Prelude.{◌≡◌, ◌≤◌, IfErr, IfOk, Err, Ok};
ghost use Rattle.eden_base.specs.Limits.{greatest_size};
ghost use Rattle.git_tree.specs.GitRecord.{entry_of};

use crate::fields::Fields;
use crate::mode::GitMode;
use crate::{GitTreeFaultKind, ObjectId};
use manifest::Content;

/// An entry of a commit: the file, its object and its path.
#[derive(Drop)]
pub struct GitEntry<'a> {
    pub file: Content,
    pub object: ObjectId,
    pub path: &'a [u8],
}

impl<'a> GitEntry<'a> {
    /// Reads a record, which is given without its NUL.
    pub fn read(text: &'a [u8]) -> Result<GitEntry<'a>, GitTreeFaultKind>
        ensures entry { IfOk result (λ e. entry_of text.now ≡ Ok (record {
          file = e.file;
          object = e.object;
          path = e.path.now;
        })) }
        ensures small { IfOk result (λ e. e.file.size ≤ greatest_size) }
        ensures refused { IfErr result (λ fault. entry_of text.now ≡ Err fault) }
    {
        let Some(fields) = Fields::of(text) else {
            return Err(GitTreeFaultKind::BadRecord);
        };
        let Some(mode) = GitMode::of(fields.mode, fields.object_type) else {
            return Err(GitTreeFaultKind::BadMode);
        };
        let Some(object) = ObjectId::parse(fields.object) else {
            return Err(GitTreeFaultKind::BadObject);
        };
        let Some(size) = mode.size(fields.size) else {
            return Err(GitTreeFaultKind::BadSize);
        };
        Ok(GitEntry {
            file: mode.content(size),
            object,
            path: fields.path,
        })
    }
}
