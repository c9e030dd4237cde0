//! The file that each entry names in a tree.
ghost use Rattle.std.specs.Prelude.{◌≡◌, ◌<◌, ◌≤◌, None, IfOk, MatchOption, length, true, vec_capacity};
ghost use Rattle.eden_base.specs.declared.number.FileId.{FileId};
ghost use Rattle.manifest.specs.Tree.{Tree};
ghost use Rattle.entry_table.specs.Entries.{AreFilesOf, IsFileOf};
ghost use Rattle.map_image.specs.Fit.{rises, entry_follows};
ghost use Rattle.map_codec.specs.Named.{number_at, AreDirectories, AreFound, EachNames, IsWayTo, NamesNone};

use checkout::Tree;
use eden_base::{FileId, NoMemory, Place};
use inode_map::Kept;
use std::alloc::Global;

/// Climbs from the entry at index `place` to one whose file is known, and returns that file. `way` becomes the indices
/// of the entries that were climbed. If the way has more steps than there are entries, it goes in a circle, and none is
/// returned.
fn climb(
    entries: &[Kept],
    directories: &[Option<usize>],
    found: &[Option<FileId>],
    way: &mut Vec<usize>,
    place: usize,
) -> Option<FileId>
    requires rise { rises entry_follows None entries.now ≡ true }
    requires directories { AreDirectories entries.now directories.now }
    requires len { length found.now ≡ length entries.now }
    requires room { length entries.now ≤ vec_capacity way.old }
    requires inside { place < length entries.now }
    ensures way { MatchOption result (NamesNone entries.now (number_at entries.now place).0) (λ file. (tree : Tree) →
        AreFound tree entries.now found.now → IsWayTo tree entries.now place way.new.items file) }
    ensures capacity { vec_capacity way.new ≡ vec_capacity way.old }
{
    way.clear();
    let mut at = place;
    loop {
        if let Some(file) = found[at] {
            return Some(file);
        }
        match &entries[at].place {
            Place::Linked { .. } => {
                if way.len() == entries.len() {
                    return None;
                }
                way.push_reserved(at);
                let Some(above) = directories[at] else {
                    return Some(FileId::ROOT);
                };
                at = above;
            }
            Place::Unlinked { file } => return Some(*file),
        }
    }
}

/// Returns the file that the entry at index `place` names, if any. Climbs to a known file, comes down again by the
/// names on the way, and keeps each file at its entry's index in `found`.
fn locate(
    tree: &Tree,
    entries: &[Kept],
    directories: &[Option<usize>],
    found: &mut Vec<Option<FileId>>,
    way: &mut Vec<usize>,
    place: usize,
) -> Option<FileId>
    requires rise { rises entry_follows None entries.now ≡ true }
    requires directories { AreDirectories entries.now directories.now }
    requires room { length entries.now ≤ vec_capacity way.old }
    requires known { AreFound tree.now entries.now found.old.items }
    requires inside { place < length entries.now }
    ensures file { MatchOption result
        ((file : FileId) → IsFileOf tree.now entries.now (number_at entries.now place).0 file → ⊥)
        (IsFileOf tree.now entries.now (number_at entries.now place).0) }
    ensures known { AreFound tree.now entries.now found.new.items }
    ensures capacity { vec_capacity way.new ≡ vec_capacity way.old }
{
    let mut file = climb(entries, directories, found.as_slice(), way, place)?;
    while let Some(at) = way.pop() {
        let Place::Linked { name, .. } = &entries[at].place else {
            unreachable!()
        };
        file = tree.child(file, name)?;
        found[at] = Some(file);
    }
    Some(file)
}

/// Returns the file that each entry names in `tree`, or no list if an entry names none. Takes its memory first, and
/// climbs at most two steps for each entry.
pub(crate) fn named_files(
    alloc: Global,
    tree: &Tree,
    entries: &[Kept],
    directories: &[Option<usize>],
) -> Result<Option<Vec<FileId>>, NoMemory>
    requires rise { rises entry_follows None entries.now ≡ true }
    requires directories { AreDirectories entries.now directories.now }
    ensures { IfOk result (λ found. MatchOption found (EachNames tree.now entries.now → ⊥)
        (λ files. AreFilesOf tree.now entries.now files.items)) }
{
    let mut found = vec![in alloc; None; entries.len()]?;
    let mut way = Vec::with_capacity(alloc, entries.len())?;
    let mut files = Vec::with_capacity(alloc, entries.len())?;
    for place in 0..entries.len() {
        let Some(file) = locate(tree, entries, directories, &mut found, &mut way, place) else {
            return Ok(None);
        };
        files.push_reserved(file);
    }
    Ok(Some(files))
}
