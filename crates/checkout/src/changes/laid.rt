//! The parts of a tree that changes lay over a manifest, and the first change that can't be laid.
ghost use Rattle.std.specs.Prelude.{◌≡◌, ◌+◌, ◌<◌, None, IfErr, IfOk, OnOk, length};
ghost use Rattle.std.specs.FinMap.{empty};
ghost use Rattle.std.specs.List.{AllByRecursion};
ghost use Rattle.std.specs.List.Sorted.{IsStrictlySortedBy};
ghost use Rattle.std.specs.Ordering.{nat_cmp};
ghost use Rattle.eden_base.specs.Name.{IsNameText};
ghost use Rattle.checkout.specs.declared.fault.ChangeFault.TheVariants.{BadChange};
ghost use Rattle.checkout.specs.BadChanges.{bad_by_other, bad_itself, IsBadAround};
ghost use Rattle.checkout.specs.Changed.{IsChangeRefusal};
ghost use Rattle.checkout.specs.Changes.{file_ids};
ghost use Rattle.checkout.specs.Laying.{taken, with_added, with_made, AreTaken, CanAdd};
ghost use Rattle.manifest.specs.Manifest.{IsManifest};
ghost use Rattle.checkout.specs.Rounds.{AreLaid};

use super::bad_around::first_bad_around;
use super::by_other::first_given_twice;
use super::{Changes, Made, laying};
use crate::ChangeFault;
use crate::added::Added;
use crate::made::MadeFiles;
use crate::unlinked_files::UnlinkedFiles;
use eden_base::NoMemory;
use manifest::{LinkChange, Manifest, Tally};
use std::alloc::Global;

/// All parts in which the tree after changes differs from the manifest's tree, except the next file.
#[derive(Drop)]
pub struct Laid {
    pub made: MadeFiles,
    pub added: Added,
    pub gone: UnlinkedFiles,
    pub lost: Tally,
}

impl Laid {
    /// Lays changes over a manifest, or returns the position of the first bad change. No change may be bad by itself.
    pub fn of(alloc: Global, manifest: &Manifest, changes: &Changes) -> Result<Laid, ChangeFault>
        requires is_manifest { IsManifest manifest.now }
        requires itself { bad_itself manifest.now changes.now ≡ None }
        ensures laid { IfOk result (λ laid. AreLaid manifest.now changes.now laid.added laid.gone laid.lost) }
        ensures made { IfOk result (λ laid. laid.made ≡ with_made empty changes.now.made) }
        ensures names { OnOk result (AllByRecursion (λ link. IsNameText link.name) changes.now.links) }
        ensures good { OnOk result (IsBadAround manifest.now changes.now None) }
        ensures refused { IfErr result (IsChangeRefusal manifest.now changes.now) }
    {
        let (gone, lost) = taken(alloc, manifest, changes)?;
        let (made, added) = brought(alloc, changes)?;
        let laid = Laid {
            made,
            added,
            gone,
            lost,
        };
        laid.look_around(alloc, manifest, changes)?;
        Ok(laid)
    }

    /// Checks in the third and the fourth round that no change is bad, else returns the position of the first bad one.
    /// It is a link that makes a circle, or else one whose directory is cut off, or at whose place the manifest has a
    /// file that is cut off.
    fn look_around(
        &self,
        alloc: Global,
        manifest: &Manifest,
        changes: &Changes,
    ) -> Result<(), ChangeFault>
        requires laid { AreLaid manifest.now changes.now self.now.added self.now.gone self.now.lost }
        ensures good { OnOk result (IsBadAround manifest.now changes.now None) }
        ensures refused { IfErr result (IsChangeRefusal manifest.now changes.now) }
    {
        let links = changes.links.as_slice();
        match first_bad_around(
            alloc,
            manifest,
            changes,
            &self.added,
            &self.gone,
            &self.lost,
        )? {
            Some(i) => Err(bad_link(changes.made.as_slice(), links, i)),
            None => Ok(()),
        }
    }
}

/// Returns the manifest's files at the places of changed links, which lose their link, and how many links each
/// directory loses. Fails with the position of the first changed link whose target another link gives too, if there is
/// one.
fn taken(
    alloc: Global,
    manifest: &Manifest,
    changes: &Changes,
) -> Result<(UnlinkedFiles, Tally), ChangeFault>
    requires is_manifest { IsManifest manifest.now }
    requires itself { bad_itself manifest.now changes.now ≡ None }
    ensures files { IfOk result (λ p. p.0.files ≡ taken manifest.now changes.now.links) }
    ensures taken { IfOk result (λ p. AreTaken manifest.now p.0 p.1) }
    ensures names { OnOk result (AllByRecursion (λ link. IsNameText link.name) changes.now.links) }
    ensures good { OnOk result (bad_by_other manifest.now changes.now ≡ None) }
    ensures refused { IfErr result (IsChangeRefusal manifest.now changes.now) }
{
    let (gone, lost) = laying::taken(alloc, manifest, changes.links.as_slice())?;
    look_for_others(alloc, manifest, &gone, changes)?;
    Ok((gone, lost))
}

/// Checks that no other link gives the target of a changed link, else returns the position of the first change whose
/// target another link gives. `gone` has the manifest's files at the places of changed links.
fn look_for_others(
    alloc: Global,
    manifest: &Manifest,
    gone: &UnlinkedFiles,
    changes: &Changes,
) -> Result<(), ChangeFault>
    requires is_manifest { IsManifest manifest.now }
    requires itself { bad_itself manifest.now changes.now ≡ None }
    requires went { gone.now.files ≡ taken manifest.now changes.now.links }
    ensures good { OnOk result (bad_by_other manifest.now changes.now ≡ None) }
    ensures refused { IfErr result (IsChangeRefusal manifest.now changes.now) }
{
    let links = changes.links.as_slice();
    match first_given_twice(alloc, manifest, gone, links)? {
        Some(i) => Err(bad_link(changes.made.as_slice(), links, i)),
        None => Ok(()),
    }
}

/// Returns what the changes add to the manifest: the made files, and the added links.
fn brought(alloc: Global, changes: &Changes) -> Result<(MadeFiles, Added), NoMemory>
    requires rising { IsStrictlySortedBy nat_cmp (file_ids changes.now.made) }
    requires fit { CanAdd empty changes.now.links }
    ensures made { IfOk result (λ p. p.0 ≡ with_made empty changes.now.made) }
    ensures added { IfOk result (λ p. p.1 ≡ with_added empty changes.now.links) }
{
    let made = MadeFiles::of(alloc, changes.made.as_slice())?;
    let added = laying::added(alloc, changes.links.as_slice())?;
    Ok((made, added))
}

/// Returns the fault of the bad link at index `i`. Its position comes after those of the made files. `links` is for the
/// proof alone: its length bounds the sum.
fn bad_link(files: &[Made], links: &[LinkChange], i: usize) -> ChangeFault
    requires within { i < length links.now }
    ensures { result ≡ BadChange (length files.now + 1 + i) }
{
    ChangeFault::BadChange(files.len() + 1 + i)
}
