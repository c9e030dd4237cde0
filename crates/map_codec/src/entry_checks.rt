//! Checks of the entries of an image, over the tree in which they are to be served.
ghost use Rattle.std.specs.Prelude.{◌≡◌, IfOk};
ghost use Rattle.map_codec.specs.Raising.{are_below, are_right_marks, is_next, is_right_mark, TellsApart};

use checkout::Tree;
use eden_base::{END_OF_NUMBERS, FileId, Place};
use inode_map::Kept;
use std::alloc::{AllocError, Global};

/// Returns whether `place` is linked, or its mark names an unlinked file of `tree`.
fn is_right_mark(tree: &Tree, place: &Place) -> bool
    ensures { result ≡ is_right_mark tree.now place.now }
{
    match place {
        Place::Linked { .. } => true,
        Place::Unlinked { file } => {
            tree.kind(*file).is_some() && file.0 != 1 && !tree.is_linked(*file)
        }
    }
}

/// Returns whether each entry of an unlinked file is right. Such an entry has a mark: the file's id, where others have a
/// directory and a name. It has to be a file of `tree` that stands under no name.
pub(crate) fn are_right_marks(tree: &Tree, entries: &[Kept]) -> bool
    ensures { result ≡ are_right_marks tree.now entries.now }
{
    for kept in entries {
        if !is_right_mark(tree, &kept.place) {
            return false;
        }
    }
    true
}

/// Returns a copy of `files`.
pub(crate) fn copy_of(alloc: Global, files: &[FileId]) -> Result<Vec<FileId>, AllocError>
    ensures copy { IfOk result (λ copy. copy.items ≡ files.now) }
{
    files.iter().copied().collect(alloc)
}

/// Returns whether no file is in `files` twice. Sorts the list in its own memory.
pub(crate) fn are_apart(files: Vec<FileId>) -> bool
    ensures { TellsApart files.items result }
{
    let mut files = files;
    files.sort_unstable_by_key(|file| file.0);
    for i in 1..files.len() {
        if files[i - 1].0 == files[i].0 {
            return false;
        }
    }
    true
}

/// Returns whether the number of each entry is below `next`.
fn are_below(next: u64, entries: &[Kept]) -> bool
    ensures { result ≡ are_below next entries.now }
{
    entries.iter().all(|kept| kept.number.0 < next)
}

/// Returns whether `next` may be the next number: it is from 2 to the end of numbers, and above that of each entry.
pub(crate) fn is_next(next: u64, entries: &[Kept]) -> bool
    ensures { result ≡ is_next next entries.now }
{
    2 <= next && next <= END_OF_NUMBERS && are_below(next, entries)
}
