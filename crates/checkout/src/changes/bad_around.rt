//! The first changed link that makes a circle; or else the first whose directory is cut off, or at whose place the
//! manifest has a file that is cut off.
ghost use Rattle.std.specs.Prelude.{◌≡◌, ◌+◌, IfOk};
ghost use Rattle.std.specs.Option.{option_map};
ghost use Rattle.checkout.specs.BadChanges.{first_link, IsBadAround};
ghost use Rattle.checkout.specs.Rounds.{AreLaid};

use super::Changes;
use super::around::first_above;
use super::cut::first_cut;
use crate::added::Added;
use crate::unlinked_files::UnlinkedFiles;
use eden_base::NoMemory;
use manifest::{Manifest, Tally};
use std::alloc::Global;

/// Returns the index of the first changed link that makes a circle: its target is its own directory or above it. If
/// there is none, returns the index of the first whose directory is cut off, or at whose place the manifest has a file
/// that is cut off. The first two rounds must have found no bad change.
pub fn first_bad_around(
    alloc: Global,
    manifest: &Manifest,
    changes: &Changes,
    added: &Added,
    gone: &UnlinkedFiles,
    lost: &Tally,
) -> Result<Option<usize>, NoMemory>
    requires laid { AreLaid manifest.now changes.now added.now gone.now lost.now }
    ensures { IfOk result (λ found.
        IsBadAround manifest.now changes.now (option_map (λ i. first_link changes.now + i) found)) }
{
    let links = changes.links.as_slice();
    match first_above(alloc, manifest, added, gone, lost, links)? {
        Some(index) => Ok(Some(index)),
        None => Ok(first_cut(manifest, added, gone, lost, links)),
    }
}
