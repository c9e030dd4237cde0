//! What a manifest and its tree cost: `measure checkout LINES` makes each call of the tree on a thousand of its files,
//! so that the instructions of a call can be counted. `measure checkout LINES times` prints the nanoseconds of reading
//! a line of the manifest, of making the tree, and of looking a file up.
ghost use Rattle.std.specs.Prelude.{◌≡◌, IfSome, IsSome, None, Some, false};
ghost use Rattle.manifest.specs.Tree.{child_of, kind_of};
ghost use Rattle.checkout.specs.ChangedTree.{is_full_dir, is_unlinked};
ghost use Rattle.eden_base.specs.declared.attr.Kind.TheVariants.{Dir};

use crate::clock::{each_since, moment};
use crate::figures::Figures;
use crate::lines::{manifest_from, manifest_text};
use crate::names::{EACH, file_name, fresh_name};
use crate::words::number_at;
use checkout::{CreateFault, Tree};
use eden_base::{Attr, FileId, Kind, MadeKind, Name, NoMemory, Perm};
use manifest::Manifest;
use std::alloc::{AllocError, Global};

/// How many files of a tree each call is made on.
const SOUGHT: u64 = 1000;

/// Makes the text of a manifest of `lines` lines: directories of 63 files each, but the first of 62.
fn text_of(alloc: Global, lines: u32) -> Result<Vec<u8>, AllocError> {
    manifest_text(alloc, 2, u64::from(lines))
}

/// Makes and reads a manifest of `lines` lines.
fn read_manifest(alloc: Global, lines: u32) -> Result<Manifest, NoMemory> {
    manifest_from(alloc, text_of(alloc, lines)?)
}

/// Returns the directory of the file in line `i`.
fn dir_of(i: u64) -> FileId {
    FileId((i - i % EACH).max(1).wrapping_add(1))
}

/// A file, its directory and its name, and a name that the directory lacks.
#[derive(Drop)]
struct Member {
    file: FileId,
    dir: FileId,
    name: Name,
    fresh: Name,
}

/// Returns the file in line `i`, with `fresh` as the name that its directory lacks.
fn member_of(alloc: Global, i: u64, fresh: Name) -> Result<Member, NoMemory> {
    let name = file_name(alloc, i)?;
    Ok(Member {
        file: FileId(i.wrapping_add(1)),
        dir: dir_of(i),
        name,
        fresh,
    })
}

/// Lists files that are spread evenly over those of a manifest of `lines` lines.
fn list_members(alloc: Global, lines: u32) -> Result<Vec<Member>, NoMemory> {
    let mut list = Vec::new(alloc);
    for j in 2..SOUGHT {
        let i = j.wrapping_mul(lines as u64 / SOUGHT);
        if i % EACH != 0 {
            list.push(member_of(alloc, i, fresh_name(alloc, j)?)?)?;
        }
    }
    Ok(list)
}

/// Returns how many of the listed files `tree` finds by their names.
fn found_of(tree: &Tree, list: &[Member]) -> u32 {
    let mut found = 0u32;
    for member in list {
        if tree.child(member.dir, &member.name).is_some() {
            found = found.wrapping_add(1);
        }
    }
    found
}

/// Looks the listed files up a hundred times, and returns how many were found in all.
fn found_often(tree: &Tree, list: &[Member]) -> u32 {
    let mut found = 0u32;
    for _ in 0..100u32 {
        found = found.wrapping_add(found_of(tree, list));
    }
    found
}

/// Returns the nanoseconds of a look-up.
fn time_look_ups(rt: &HostRuntime, lines: u32, tree: &Tree) -> Result<u64, NoMemory> {
    let list = list_members(rt.alloc(), lines)?;
    let started = moment(rt);
    let found = found_often(tree, list.as_slice());
    drop(list);
    Ok(each_since(rt, started, u64::from(found)))
}

/// Returns the nanoseconds of making the tree of a manifest, and of a look-up in it.
fn time_tree(rt: &HostRuntime, lines: u32, manifest: &Manifest) -> Result<(u64, u64), NoMemory> {
    let started = moment(rt);
    let tree = tree_of(rt.alloc(), manifest)?;
    let made = each_since(rt, started, 1);
    let look_up = time_look_ups(rt, lines, &tree);
    drop(tree);
    Ok((made, look_up?))
}

/// Returns the nanoseconds of reading a line, of making the tree, and of a look-up in it.
fn time_all(rt: &HostRuntime, lines: u32) -> Result<Figures, NoMemory> {
    let text = text_of(rt.alloc(), lines)?;
    let started = moment(rt);
    let manifest = manifest_from(rt.alloc(), text)?;
    let line = each_since(rt, started, u64::from(lines));
    let times = time_tree(rt, lines, &manifest);
    drop(manifest);
    let (made, look_up) = times?;
    Ok(Figures::of(&["line", "tree", "look-up"], &[line, made, look_up]))
}

#[inline(never)]
fn tree_of(alloc: Global, manifest: &Manifest) -> Result<Tree, NoMemory> {
    Tree::of(alloc, manifest)
}

#[inline(never)]
fn child(tree: &Tree, dir: FileId, name: &Name) -> Option<FileId>
    ensures { result ≡ child_of tree.now dir name.now }
{
    tree.child(dir, name)
}

#[inline(never)]
fn attr(tree: &Tree, file: FileId) -> Option<Attr> {
    tree.attr(file)
}

#[inline(never)]
fn is_empty_dir(tree: &Tree, dir: FileId) -> bool {
    tree.is_empty_dir(dir)
}

#[inline(never)]
fn create(tree: &mut Tree, dir: FileId, name: &Name) -> Result<FileId, CreateFault>
    requires dir { kind_of tree.old dir ≡ Some Dir }
    requires reached { is_unlinked tree.old dir ≡ false }
    requires free { child_of tree.old dir name.now ≡ None }
{
    tree.create(dir, name, MadeKind::File, Perm::DIRECTORY)
}

#[inline(never)]
fn remove(tree: &mut Tree, dir: FileId, name: &Name) -> FileId
    requires there { IsSome (child_of tree.old dir name.now) }
    requires not_full { IfSome (child_of tree.old dir name.now) (λ file. is_full_dir tree.old file ≡ false) }
{
    tree.remove(dir, name)
}

#[inline(never)]
fn remove_made(tree: &mut Tree, dir: FileId, name: &Name, file: FileId) -> bool
    requires there { IsSome (child_of tree.old dir name.now) }
    requires not_full { IfSome (child_of tree.old dir name.now) (λ file. is_full_dir tree.old file ≡ false) }
{
    tree.remove(dir, name) == file
}

/// Makes the calls that change nothing on each listed file, and returns how many of them find something.
fn read_members(tree: &Tree, list: &[Member]) -> u32 {
    let mut found = 0u32;
    for member in list {
        if child(tree, member.dir, &member.name) == Some(member.file) {
            found = found.wrapping_add(1);
        }
        if attr(tree, member.file).is_some() {
            found = found.wrapping_add(1);
        }
        if !is_empty_dir(tree, member.dir) {
            found = found.wrapping_add(1);
        }
    }
    found
}

/// Makes a file under `name` in `dir`, if `name` is free there. Returns whether a file was made.
fn create_free(tree: &mut Tree, dir: FileId, name: &Name) -> bool {
    match tree.kind(dir) {
        Some(Kind::Dir) => {}
        Some(Kind::File | Kind::Link) => return false,
        None => return false,
    }
    if dir.0 != 1 && !tree.is_linked(dir) {
        return false;
    }
    match tree.child(dir, name) {
        Some(_) => false,
        None => create(tree, dir, name).is_ok(),
    }
}

/// Removes the name of a file of the manifest from `dir`, and returns the file. Returns none if there is no such file.
#[tactic(auto, using(checkout::proofs::RemoveLaws::not_full_rules))]
fn remove_file(tree: &mut Tree, dir: FileId, name: &Name) -> Option<FileId> {
    let file = tree.child(dir, name)?;
    match tree.kind(file) {
        Some(Kind::File | Kind::Link) => Some(remove(tree, dir, name)),
        Some(Kind::Dir) => None,
        None => None,
    }
}

/// Removes the name of a file that was made from `dir`. Returns whether that file was removed.
#[tactic(auto, using(checkout::proofs::RemoveLaws::not_full_rules))]
fn remove_made_file(tree: &mut Tree, dir: FileId, name: &Name) -> bool {
    let Some(file) = tree.child(dir, name) else {
        return false;
    };
    match tree.kind(file) {
        Some(Kind::File | Kind::Link) => remove_made(tree, dir, name, file),
        Some(Kind::Dir) => false,
        None => false,
    }
}

/// Makes a file beside each listed file. Then removes the names of the listed files, and after them those of the made
/// files. Returns how many changes were made.
fn change_all(tree: &mut Tree, list: &[Member]) -> u32 {
    let mut changes = 0u32;
    for member in list {
        if create_free(tree, member.dir, &member.fresh) {
            changes = changes.wrapping_add(1);
        }
    }
    for member in list {
        if remove_file(tree, member.dir, &member.name).is_some() {
            changes = changes.wrapping_add(1);
        }
    }
    for member in list {
        if remove_made_file(tree, member.dir, &member.fresh) {
            changes = changes.wrapping_add(1);
        }
    }
    changes
}

/// How many files each call was made on, how many calls found something, and how many changes were made.
type Called = (usize, u32, u32);

/// Makes each call on the listed files of `tree`.
fn call_each(tree: &mut Tree, list: &[Member]) -> Called {
    let found = read_members(tree, list);
    (list.len(), found, change_all(tree, list))
}

/// Makes the tree of `manifest`, and each call on the listed files of that tree.
fn call_made(alloc: Global, manifest: &Manifest, list: &[Member]) -> Result<Called, NoMemory> {
    let mut tree = tree_of(alloc, manifest)?;
    let figures = call_each(&mut tree, list);
    drop(tree);
    Ok(figures)
}

/// Makes each call on files that are spread evenly over those of `manifest`.
fn call_listed(alloc: Global, lines: u32, manifest: &Manifest) -> Result<Called, NoMemory> {
    let list = list_members(alloc, lines)?;
    let figures = call_made(alloc, manifest, list.as_slice());
    drop(list);
    figures
}

/// Makes each call on a tree over a manifest of `lines` lines, and returns the figures.
fn call_all(alloc: Global, lines: u32) -> Result<Figures, NoMemory> {
    let manifest = read_manifest(alloc, lines)?;
    let figures = call_listed(alloc, lines, &manifest);
    drop(manifest);
    let (members, found, changes) = figures?;
    Ok(Figures::of(
        &["files", "found", "changes"],
        &[members as u64, u64::from(found), u64::from(changes)],
    ))
}

/// Makes each call on a tree, or times some calls, as `words` say.
pub(crate) fn measure(rt: &HostRuntime, words: &[&str]) -> Result<Option<Figures>, NoMemory> {
    let Some(lines) = number_at(words, 0) else {
        return Ok(None);
    };
    match words {
        [_] => call_all(rt.alloc(), lines).map(Some),
        [_, "times"] => time_all(rt, lines).map(Some),
        _ => Ok(None),
    }
}
