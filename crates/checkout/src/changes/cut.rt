//! The first changed link whose directory is cut off, or at whose place the manifest has a file that is cut off. A
//! directory is cut off if links stand in it and no link gives it.
ghost use Rattle.std.specs.Prelude.{◌≡◌};
ghost use Rattle.std.specs.List.{list_any};
ghost use Rattle.eden_base.specs.declared.number.FileId.{FileId};
ghost use Rattle.checkout.specs.Laying.{taken};
ghost use Rattle.checkout.specs.UnlinkedFiles.{is_gone};
ghost use Rattle.checkout.specs.Rounds.{cuts, cuts_if, first_of, is_cut};
ghost use Rattle.manifest.specs.Tally.{count_of};

use crate::added::Added;
use crate::overlay::{has_links, is_linked};
use crate::unlinked_files::UnlinkedFiles;
use eden_base::FileId;
use manifest::{LinkChange, Manifest, Tally};

/// Returns whether a directory is cut off: it isn't the root, no link gives it, and some link stands in it.
fn is_cut(
    manifest: &Manifest,
    added: &Added,
    gone: &UnlinkedFiles,
    lost: &Tally,
    dir: FileId,
) -> bool
    ensures { result ≡ is_cut manifest.now added.now (is_gone gone.now) (count_of lost.now) dir }
{
    dir.0 != 1 && !is_linked(manifest, added, gone, dir) && has_links(manifest, added, lost, dir)
}

/// Returns whether some file that lost its link is cut off.
fn is_any_cut(manifest: &Manifest, added: &Added, gone: &UnlinkedFiles, lost: &Tally) -> bool
    ensures { result ≡ list_any (λ f. is_cut manifest.now added.now (is_gone gone.now) (count_of lost.now)
        (record { 0 = f })) gone.now.files }
{
    gone.files()
        .iter()
        .any(|file| is_cut(manifest, added, gone, lost, FileId(*file)))
}

/// Returns whether the directory of a changed link is cut off, or the file that the manifest has at the link's place.
/// That file is not looked for unless `files`: unless some file that lost its link is cut off.
fn cuts(
    manifest: &Manifest,
    added: &Added,
    gone: &UnlinkedFiles,
    lost: &Tally,
    files: bool,
    change: &LinkChange,
) -> bool
    ensures { result ≡ cuts_if files manifest.now added.now (is_gone gone.now) (count_of lost.now) change.now }
{
    if is_cut(manifest, added, gone, lost, change.dir) {
        return true;
    }
    if !files {
        return false;
    }
    match manifest.child(change.dir, change.name.bytes()) {
        Some(file) => is_cut(manifest, added, gone, lost, file),
        None => false,
    }
}

/// Returns the index of the first changed link for which `cuts` returns `true`, or none: the link's directory is cut
/// off, or the file that the manifest has at the link's place.
pub fn first_cut(
    manifest: &Manifest,
    added: &Added,
    gone: &UnlinkedFiles,
    lost: &Tally,
    links: &[LinkChange],
) -> Option<usize>
    requires went { gone.now.files ≡ taken manifest.now links.now }
    ensures { result ≡ first_of (cuts manifest.now added.now (is_gone gone.now) (count_of lost.now)) 0 links.now }
{
    let files = is_any_cut(manifest, added, gone, lost);
    for i in 0..links.len() {
        if cuts(manifest, added, gone, lost, files, &links[i]) {
            return Some(i);
        }
    }
    None
}
