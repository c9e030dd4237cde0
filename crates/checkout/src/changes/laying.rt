//! How changes are laid over a manifest: which links they take away, and which files and links they add.
ghost use Rattle.std.specs.Prelude.{◌≡◌, ◌∷◌, ◌++◌, [], IfOk};
ghost use Rattle.std.specs.FinMap.{empty};
ghost use Rattle.std.specs.List.{AllByRecursion};
ghost use Rattle.eden_base.specs.Name.{IsNameText};
ghost use Rattle.checkout.specs.Laying.{taken, with_added, AreTaken, CanAdd, IsLeft, StandApart};

use crate::added::Added;
use crate::unlinked_files::UnlinkedFiles;
use eden_base::NoMemory;
use manifest::{LinkChange, Manifest, Tally};
use std::alloc::Global;

/// Returns the manifest's files at the places of changed links, which lose their link, and how many links each
/// directory loses.
pub fn taken(
    alloc: Global,
    manifest: &Manifest,
    links: &[LinkChange],
) -> Result<(UnlinkedFiles, Tally), NoMemory>
    requires apart { StandApart links.now }
    ensures files { IfOk result (λ p. p.0.files ≡ taken manifest.now links.now) }
    ensures taken { IfOk result (λ p. AreTaken manifest.now p.0 p.1) }
    ensures names { IfOk result (λ _. AllByRecursion (λ link. IsNameText link.name) links.now) }
{
    let room = manifest.lines().len() + 2;
    let mut gone = UnlinkedFiles::with_room(alloc, room)?;
    let mut lost = Tally::with_room(alloc, room)?;
    for change in links {
        take(manifest, change, &mut gone, &mut lost);
    }
    Ok((gone, lost))
}

/// Records in `gone` and `lost` that the manifest's link at the place of `change` is gone, if there is one. Takes no
/// memory.
fn take(manifest: &Manifest, change: &LinkChange, gone: &mut UnlinkedFiles, lost: &mut Tally)
    requires left { IsLeft manifest.now gone.old change.now }
    requires so_far { AreTaken manifest.now gone.old lost.old }
    ensures files { gone.new.files ≡ gone.old.files ++ taken manifest.now (change.now ∷ []) }
    ensures now { AreTaken manifest.now gone.new lost.new }
    ensures name { IsNameText change.now.name }
{
    if let Some(file) = manifest.child(change.dir, change.name.bytes()) {
        gone.add(file);
        lost.raise(change.dir.0);
    }
}

/// Returns the added links: one for each change that has a target. They take no more room than they need.
pub fn added(alloc: Global, links: &[LinkChange]) -> Result<Added, NoMemory>
    requires fit { CanAdd empty links.now }
    ensures { IfOk result (λ added. added ≡ with_added empty links.now) }
{
    let mut added = Added::for_links(alloc, links.len());
    for change in links {
        if let Some(file) = change.target {
            added.insert(alloc, change.dir, &change.name, file)?;
        }
    }
    added.trim();
    Ok(added)
}
