//! The files of a directory, one after the other by rising id. The parts may not make a tree yet.
ghost use Rattle.std.specs.Prelude.{◌≡◌};
ghost use Rattle.std.specs.FinMap.{empty};
ghost use Rattle.checkout.specs.Around.{links_now, AreBeside};
ghost use Rattle.checkout.specs.UnlinkedFiles.{is_gone};
ghost use Rattle.manifest.specs.Tree.{links_from, IsFirstFrom};

use crate::added::Added;
use crate::unlinked_files::UnlinkedFiles;
use eden_base::{FileId, Name};
use manifest::Manifest;

/// One file of a directory, as a listing gives it.
#[derive(Drop)]
pub struct Child<'a> {
    /// The file that the name gives.
    pub file: FileId,
    /// The name under which it stands in the directory.
    pub name: &'a Name,
}

/// Returns the first file from the id `least` on that a link gives in the directory `dir`, by rising id, or none.
pub fn first_from(
    manifest: &Manifest,
    added: &Added,
    gone: &UnlinkedFiles,
    dir: FileId,
    least: FileId,
) -> Option<FileId>
    requires beside { AreBeside added.now (is_gone gone.now) (links_from 2 manifest.now.lines) }
    ensures first { IsFirstFrom (links_now manifest.now added.now gone.now) dir least.0 result }
{
    let Some(left) = first_left(manifest, gone, dir, least) else {
        return added.first_from(dir, least);
    };
    let Some(new) = added.first_from(dir, least) else {
        return Some(left);
    };
    if new.0 < left.0 {
        return Some(new);
    }
    Some(left)
}

/// Returns the first file from the id `least` on that a link of the manifest still gives in the directory `dir`, by rising
/// id, or none. Passes files that are gone by runs of their ids.
fn first_left(
    manifest: &Manifest,
    gone: &UnlinkedFiles,
    dir: FileId,
    least: FileId,
) -> Option<FileId>
    ensures first { IsFirstFrom (links_now manifest.now empty gone.now) dir least.0 result }
{
    let mut from = least;
    while let Some(file) = manifest.first_from(dir, from) {
        let run = gone.run(file);
        if run == 0 {
            return Some(file);
        }
        from = FileId(file.0 + u64::from(run));
    }
    None
}
