//! What a daemon serves, restored from an image.
ghost use Rattle.std.specs.Prelude.{◌≡◌, true, None, IfErr, IfOk, OnOk};
ghost use Rattle.manifest.specs.Tree.{IsTree};
ghost use Rattle.fuse_ops.specs.Soundness.{IsSound};
ghost use Rattle.map_image.specs.Fit.{entry_follows, rises, CountsFit, IsFit};
ghost use Rattle.entry_table.specs.Entries.{AreFilesOf};
ghost use Rattle.map_codec.specs.Raising.{entries_told, fault_in, tree_told, IsRaisable, IsRaised, IsRaiseRefusal, StandsAgainst, TellsATree};

use crate::RaiseFault;
use crate::directories::directories;
use crate::entry_checks::{are_apart, are_right_marks, copy_of, is_next};
use crate::named::named_files;
use crate::served_image::is_name_of;
use checkout::{ChangeFault, Tree};
use eden_base::{FileId, NoMemory};
use fuse_ops::Served;
use inode_map::{Kept, NamedEntries};
use manifest::Manifest;
use map_image::Image;
use std::alloc::Global;

/// The tree that an image tells, and the file in it of each entry of the image.
#[derive(Drop)]
struct NamedTree {
    tree: Tree,
    files: Vec<FileId>,
}

/// Returns the file of each entry in `tree`, or the first fault of the entries and a next number over it, if they have
/// one.
fn entry_files(
    alloc: Global,
    tree: &Tree,
    entries: &[Kept],
    next: u64,
) -> Result<Result<Vec<FileId>, RaiseFault>, NoMemory>
    requires rise { rises entry_follows None entries.now ≡ true }
    ensures fault { IfOk result (λ told. StandsAgainst tree.now entries.now next (fault_in told)) }
    ensures files { IfOk result (λ told. IfOk told (λ files. AreFilesOf tree.now entries.now files.items)) }
{
    let directories = match directories(alloc, entries)? {
        Some(directories) => directories,
        None => return Ok(Err(RaiseFault::NoParent)),
    };
    let files = match named_files(alloc, tree, entries, directories.as_slice())? {
        Some(files) => files,
        None => return Ok(Err(RaiseFault::NoLink)),
    };
    if !are_right_marks(tree, entries) {
        return Ok(Err(RaiseFault::NoLink));
    }
    let in_order = copy_of(alloc, files.as_slice())?;
    if !are_apart(files) {
        return Ok(Err(RaiseFault::TwoNumbers));
    }
    if !is_next(next, entries) {
        return Ok(Err(RaiseFault::NumberTooHigh));
    }
    Ok(Ok(in_order))
}

/// Makes the tree that `image` tells over `manifest`.
fn tree_told(alloc: Global, image: &Image, manifest: &Manifest) -> Result<Tree, RaiseFault>
    ensures tree { IfOk result (λ tree. tree ≡ tree_told manifest.now image.now) }
    ensures is_tree { IfOk result IsTree }
    ensures tells { OnOk result (TellsATree manifest.now image.now) }
    ensures refused { IfErr result (IsRaiseRefusal manifest.now image.now) }
{
    if !is_name_of(image.name, manifest) {
        return Err(RaiseFault::OtherManifest);
    }
    match Tree::with_changes(alloc, manifest, &image.changes) {
        Ok(tree) => Ok(tree),
        Err(ChangeFault::BadChange(place)) => Err(RaiseFault::BadChange(place)),
        Err(ChangeFault::NoMemory) => Err(RaiseFault::NoMemory),
    }
}

/// Makes one result of what `entry_files` found, which returns refused memory apart from a fault of the entries.
fn entries_told(
    found: Result<Result<Vec<FileId>, RaiseFault>, NoMemory>,
) -> Result<Vec<FileId>, RaiseFault>
    ensures { result ≡ entries_told found }
{
    match found {
        Ok(told) => told,
        Err(NoMemory) => Err(RaiseFault::NoMemory),
    }
}

/// Makes the tree that `image` tells, and finds the file of each entry, if the entries may be served over the tree.
fn raisable_tree(alloc: Global, image: &Image, manifest: &Manifest) -> Result<NamedTree, RaiseFault>
    requires fit { IsFit image.now }
    ensures tree { IfOk result (λ named. named.tree ≡ tree_told manifest.now image.now) }
    ensures is_tree { IfOk result (λ named. IsTree named.tree) }
    ensures files { IfOk result (λ named.
        AreFilesOf (tree_told manifest.now image.now) image.now.entries named.files.items) }
    ensures accepted { OnOk result (IsRaisable manifest.now image.now) }
    ensures refused { IfErr result (IsRaiseRefusal manifest.now image.now) }
{
    let tree = tree_told(alloc, image, manifest)?;
    let found = entry_files(alloc, &tree, image.entries.as_slice(), image.next_number);
    match entries_told(found) {
        Ok(files) => Ok(NamedTree { tree, files }),
        Err(fault) => {
            drop(tree);
            Err(fault)
        }
    }
}

/// Returns the entries of `image`, and drops the rest: by then the tree has been made of it.
fn entries_of(image: Image) -> Vec<Kept>
    ensures { result.items ≡ image.entries }
{
    image.entries.into_vec()
}

/// Restores what a daemon serves from an image, over the manifest that the daemon was handed. The file of each entry is
/// remembered, so that no request has to find it anew by the names above it. At most `limit` attributes are loaded at
/// once, or 1 if `limit` is 0; none are loaded at first.
pub fn raise(
    alloc: Global,
    image: Image,
    manifest: &Manifest,
    limit: usize,
) -> Result<Served, RaiseFault>
    requires fit { IsFit image }
    requires counts { CountsFit image.entries }
    ensures raised { IfOk result (IsRaised manifest.now image limit) }
    ensures sound { IfOk result IsSound }
    ensures accepted { OnOk result (IsRaisable manifest.now image) }
    ensures refused { IfErr result (IsRaiseRefusal manifest.now image) }
{
    let NamedTree { tree, files } = match raisable_tree(alloc, &image, manifest) {
        Ok(named) => named,
        Err(fault) => {
            drop(image);
            return Err(fault);
        }
    };
    let next = image.next_number;
    let entries = entries_of(image);
    let named = NamedEntries { entries, files };
    let Ok(served) = Served::of_entries(alloc, named, next, limit, tree) else {
        return Err(RaiseFault::NoMemory);
    };
    Ok(served)
}
