//! The first changed link whose target is the link's own directory, or stands above this directory.
ghost use Rattle.std.specs.Prelude.{◌≡◌, ◌↔◌, true, is_some, IfOk, OnOk};
ghost use Rattle.std.specs.FinMap.{get};
ghost use Rattle.std.specs.List.{AllByRecursion};
ghost use Rattle.checkout.specs.Around.{links_now, AreApart, AreBeside, AreRight, CountsLinks, GivesTarget, IsAbove, IsFirstAbove};
ghost use Rattle.checkout.specs.UnlinkedFiles.{is_gone};
ghost use Rattle.manifest.specs.Tally.{count_of};
ghost use Rattle.manifest.specs.Tree.{links_from};

use super::colours::{Colours, from_file};
use crate::added::Added;
use crate::overlay::{dir_above, has_links};
use crate::unlinked_files::UnlinkedFiles;
use eden_base::{FileId, NoMemory};
use manifest::{LinkChange, Manifest, Tally};
use std::alloc::Global;

/// Gives a colour to `file` and to each file above it. The walk up stops at a file that has a colour, so that no file
/// is visited twice. If this walk itself coloured that file, the files of the walk from it on are a circle, and are
/// marked as one.
fn climb(
    alloc: Global,
    manifest: &Manifest,
    added: &Added,
    gone: &UnlinkedFiles,
    colours: &mut Colours,
    file: FileId,
) -> Result<(), NoMemory>
    requires beside { AreBeside added.now (is_gone gone.now) (links_from 2 manifest.now.lines) }
    requires apart { AreApart (links_now manifest.now added.now gone.now) }
    requires right { AreRight (links_now manifest.now added.now gone.now) colours.old }
    ensures right { OnOk result (AreRight (links_now manifest.now added.now gone.now) colours.new) }
    ensures coloured { OnOk result (is_some (get colours.new file.0) ≡ true) }
{
    let mut way = Vec::new(alloc);
    let mut at = file;
    while colours.get(at).is_none() {
        colours.set(at, false)?;
        way.push(at)?;
        let Some(dir) = dir_above(manifest, added, gone, at) else {
            return Ok(());
        };
        at = dir;
    }
    colours.mark_circle(from_file(at, &way))
}

/// Returns whether the target of `change` is the link's own directory, or stands above this directory. This is so if
/// the target is on a circle of links. A target in which no link stands is on none, and gets no colour.
fn is_above(
    alloc: Global,
    manifest: &Manifest,
    added: &Added,
    gone: &UnlinkedFiles,
    lost: &Tally,
    colours: &mut Colours,
    change: &LinkChange,
) -> Result<bool, NoMemory>
    requires counted { CountsLinks manifest.now added.now gone.now (count_of lost.now) }
    requires beside { AreBeside added.now (is_gone gone.now) (links_from 2 manifest.now.lines) }
    requires apart { AreApart (links_now manifest.now added.now gone.now) }
    requires right { AreRight (links_now manifest.now added.now gone.now) colours.old }
    requires target { GivesTarget (links_now manifest.now added.now gone.now) change.now }
    ensures right { OnOk result (AreRight (links_now manifest.now added.now gone.now) colours.new) }
    ensures above { IfOk result (λ above.
        above ≡ true ↔ IsAbove (links_now manifest.now added.now gone.now) change.now) }
{
    let Some(file) = change.target else {
        return Ok(false);
    };
    if !has_links(manifest, added, lost, file) {
        return Ok(false);
    }
    climb(alloc, manifest, added, gone, colours, file)?;
    Ok(colours.get(file).unwrap())
}

/// Returns the index of the first changed link whose target is the link's own directory or above it, or none.
pub fn first_above(
    alloc: Global,
    manifest: &Manifest,
    added: &Added,
    gone: &UnlinkedFiles,
    lost: &Tally,
    links: &[LinkChange],
) -> Result<Option<usize>, NoMemory>
    requires counted { CountsLinks manifest.now added.now gone.now (count_of lost.now) }
    requires beside { AreBeside added.now (is_gone gone.now) (links_from 2 manifest.now.lines) }
    requires apart { AreApart (links_now manifest.now added.now gone.now) }
    requires targets { AllByRecursion (GivesTarget (links_now manifest.now added.now gone.now)) links.now }
    ensures first { IfOk result (IsFirstAbove (links_now manifest.now added.now gone.now) links.now) }
{
    let mut colours = Colours::new(alloc);
    for (index, change) in links.iter().enumerate() {
        if is_above(alloc, manifest, added, gone, lost, &mut colours, change)? {
            return Ok(Some(index));
        }
    }
    Ok(None)
}
