//! The calls that change a tree, each made where its conditions hold.
ghost use Rattle.std.specs.Prelude.{◌≡◌};
ghost use Rattle.checkout.specs.RenamedTree.{can_replace};

use crate::{Done, ended, file_of, kind_of, perm_of, put_file};
use checkout::{CreateFault, Tree};
use eden_base::{FileId, Kind, MadeKind, Name, NoMemory, Perm};
use row_words::{Output, RowFault, Words};

/// Makes a file, or returns none if a condition of `Tree::create` doesn't hold.
fn created(
    tree: &mut Tree,
    dir: FileId,
    name: &Name,
    kind: MadeKind,
    perm: Perm,
) -> Option<Result<FileId, CreateFault>> {
    match tree.kind(dir) {
        Some(Kind::Dir) => {}
        Some(Kind::File | Kind::Link) => return None,
        None => return None,
    }
    if dir.0 != 1 && !tree.is_linked(dir) {
        return None;
    }
    match tree.child(dir, name) {
        Some(_) => None,
        None => Some(tree.create(dir, name, kind, perm)),
    }
}

/// Makes a file.
pub(crate) fn create(tree: &mut Tree, words: &mut Words<'_>, output: &mut Output) -> Done {
    let dir = file_of(words);
    let name = words.name();
    let kind = kind_of(words);
    let perm = perm_of(words);
    let name = ended(words, name)?;
    match created(tree, dir, &name, kind, perm) {
        Some(Ok(file)) => output.number(file.0),
        Some(Err(CreateFault::NoFileId)) => output.word("NoFileId"),
        Some(Err(CreateFault::NoMemory)) => return Err(RowFault::NoMemory),
        None => output.word("refused"),
    }
    Ok(())
}

/// Removes `name` and returns its file, or none if a condition of `Tree::remove` does not hold.
#[tactic(auto, using(checkout::proofs::RemoveLaws::not_full_rules))]
fn removed(tree: &mut Tree, dir: FileId, name: &Name) -> Option<FileId> {
    let file = tree.child(dir, name)?;
    if tree.is_empty_dir(file) {
        return Some(tree.remove(dir, name));
    }
    match tree.kind(file) {
        Some(Kind::File | Kind::Link) => Some(tree.remove(dir, name)),
        Some(Kind::Dir) => None,
        None => None,
    }
}

/// Removes a name.
pub(crate) fn remove(tree: &mut Tree, words: &mut Words<'_>, output: &mut Output) -> Done {
    let dir = file_of(words);
    let name = words.name();
    let name = ended(words, name)?;
    match removed(tree, dir, &name) {
        Some(file) => output.number(file.0),
        None => output.word("refused"),
    }
    Ok(())
}

/// Returns whether `file` may take the name of `other`.
fn can_replace(tree: &Tree, file: FileId, other: FileId) -> bool
    ensures { result ≡ can_replace tree.now file other }
{
    match tree.kind(file) {
        Some(Kind::Dir) => tree.is_empty_dir(other),
        Some(Kind::File | Kind::Link) => tree.kind(other) != Some(Kind::Dir),
        None => tree.kind(other) != Some(Kind::Dir),
    }
}

/// Moves a file, or returns none if a condition of `Tree::rename` does not hold.
fn renamed(
    tree: &mut Tree,
    dir: FileId,
    name: &Name,
    to_dir: FileId,
    to_name: &Name,
) -> Option<Result<Option<FileId>, NoMemory>> {
    match tree.kind(to_dir) {
        Some(Kind::Dir) => {}
        Some(Kind::File | Kind::Link) => return None,
        None => return None,
    }
    if to_dir.0 != 1 && !tree.is_linked(to_dir) {
        return None;
    }
    let file = tree.child(dir, name)?;
    if tree.is_at_or_above(file, to_dir) {
        return None;
    }
    let replaced = tree.child(to_dir, to_name);
    if let Some(other) = replaced {
        if other.0 == file.0 || !can_replace(tree, file, other) {
            return None;
        }
    }
    match tree.rename(dir, name, file, to_dir, to_name, replaced) {
        Ok(()) => Some(Ok(replaced)),
        Err(NoMemory) => Some(Err(NoMemory)),
    }
}

/// Moves a file.
pub(crate) fn rename(tree: &mut Tree, words: &mut Words<'_>, output: &mut Output) -> Done {
    let dir = file_of(words);
    let name = words.name();
    let to_dir = file_of(words);
    let to_name = words.name();
    let name = ended(words, name)?;
    let to_name = to_name.ok_or(RowFault::BadRow)?;
    match renamed(tree, dir, &name, to_dir, &to_name) {
        Some(Ok(replaced)) => put_file(output, replaced),
        Some(Err(NoMemory)) => return Err(RowFault::NoMemory),
        None => output.word("refused"),
    }
    Ok(())
}
