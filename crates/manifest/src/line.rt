//! A file of a manifest, and where it stands.
ghost use Rattle.std.specs.Prelude.{◌≡◌};
ghost use Rattle.std.specs.Option.{option_copied, option_map};
ghost use Rattle.std.specs.FinMap.{get};
ghost use Rattle.manifest.specs.Manifest.{File, line_of};
ghost use Rattle.manifest.specs.Tree.{files_from};

use crate::Content;
use eden_base::{FileId, Kind, Name, Perm};
use std::marker::Model;

/// A line of a manifest: the directory and the name that lead to a file, and the file's kind, permissions and size.
#[derive(Drop)]
pub struct Line {
    pub dir: FileId,
    pub name: Name,
    pub kind: Kind,
    pub perm: Perm,
    /// The size in bytes; 0 for a directory. A symbolic link has that of its target.
    pub size: u64,
}

impl Model for Line {
    ghost use Rattle.manifest.specs.Manifest.{Line};
    ghost use Rattle.manifest.specs.Codes.{line_code};

    ghost Value = { Line };

    ghost coded = { line_code };

    ghost view = { λ a. record {
      dir = a.dir;
      name = a.name;
      file = record { kind = a.kind; perm = a.perm; size = a.size };
    } };
}

impl Line {
    /// Returns the kind, the permissions and the size that the line says of its file.
    pub fn content(&self) -> Content
        ensures content { result ≡ self.now.file }
    {
        Content {
            kind: self.kind,
            perm: self.perm,
            size: self.size,
        }
    }
}

/// Returns the line of `file`, if it has one. The first of `lines` is that of file 2; the root has no line.
pub fn line_of(lines: &[Line], file: FileId) -> Option<&Line>
    ensures { option_copied result ≡ line_of lines.now file }
{
    if file.0 < 2 {
        return None;
    }
    lines.get((file.0 - 2) as usize)
}

/// Returns the content of `file`, if it is the root or has a line.
pub fn content_of(lines: &[Line], file: FileId) -> Option<Content>
    ensures { result ≡ get (files_from 2 lines.now) file.0 }
{
    if file.0 == 1 {
        return Some(Content {
            kind: Kind::Dir,
            perm: Perm::DIRECTORY,
            size: 0,
        });
    }
    let line = line_of(lines, file)?;
    Some(line.content())
}

/// Returns the kind of `file`, if it is the root or has one of `lines`. A tree asks this of the files of its manifest.
pub fn kind_of(lines: &[Line], file: FileId) -> Option<Kind>
    ensures { result ≡ option_map (λ (f : File). f.kind) (get (files_from 2 lines.now) file.0) }
{
    let content = content_of(lines, file)?;
    Some(content.kind)
}
