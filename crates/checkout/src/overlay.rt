//! What the parts of a tree say of its names: the manifest, the added links, and what is gone of the manifest's. The
//! parts may not make a tree yet.
ghost use Rattle.std.specs.Prelude.{◌≡◌, ◌==◌, ◌&&◌, ◌||◌, ℕ, filter, is_some, nat_lt, not};
ghost use Rattle.std.specs.FinMap.{entries};
ghost use Rattle.std.specs.List.{list_any};
ghost use Rattle.checkout.specs.Added.{gives};
ghost use Rattle.checkout.specs.Around.{links_now, AreBeside, IsDirAbove, IsNameAbove};
ghost use Rattle.checkout.specs.BadChanges.{file_does, gives_same};
ghost use Rattle.checkout.specs.Laying.{base_target, AreTaken};
ghost use Rattle.checkout.specs.Listing.{differs};
ghost use Rattle.checkout.specs.UnlinkedFiles.{is_gone};
ghost use Rattle.checkout.specs.Overlay.{is_line};
ghost use Rattle.manifest.specs.Manifest.{kids_in, line_of};
ghost use Rattle.manifest.specs.Tally.{count_of};
ghost use Rattle.manifest.specs.Tree.{links_from};

use crate::added::Added;
use crate::changes::bad_itself::gives_same;
use crate::unlinked_files::UnlinkedFiles;
use eden_base::{FileId, Name};
use manifest::{LinkChange, Manifest, Tally, line_of};

/// Returns whether the file is one of the manifest's, below the root.
pub fn is_line(manifest: &Manifest, file: FileId) -> bool
    ensures { result ≡ is_line manifest.now file }
{
    2 <= file.0 && file.0 < manifest.lines().len() as u64 + 2
}

/// Returns whether a link of the manifest still gives the file.
pub fn is_left(manifest: &Manifest, gone: &UnlinkedFiles, file: FileId) -> bool
    ensures { result ≡ (is_line manifest.now file && not (is_gone gone.now file.0)) }
{
    is_line(manifest, file) && !gone.has(file)
}

/// Returns whether some name leads to the file. No name leads to the root.
pub fn is_linked(manifest: &Manifest, added: &Added, gone: &UnlinkedFiles, file: FileId) -> bool
    ensures { result ≡ (gives added.now file || (is_line manifest.now file && not (is_gone gone.now file.0))) }
{
    is_left(manifest, gone, file) || added.dir_of(file).is_some()
}

/// Returns whether a name stands in the directory.
pub fn has_links(manifest: &Manifest, added: &Added, lost: &Tally, dir: FileId) -> bool
    ensures { result ≡ (list_any (λ link. link.0.0 == dir.0) (entries added.now)
        || nat_lt (count_of lost.now dir.0) (kids_in dir.0 manifest.now.lines)) }
{
    added.has_links(dir) || lost.count(dir.0) < manifest.kids(dir)
}

/// Returns the directory in which a link gives the file, or none if no link gives it.
pub fn dir_above(
    manifest: &Manifest,
    added: &Added,
    gone: &UnlinkedFiles,
    file: FileId,
) -> Option<FileId>
    requires beside { AreBeside added.now (is_gone gone.now) (links_from 2 manifest.now.lines) }
    ensures dir { IsDirAbove (links_now manifest.now added.now gone.now) file result }
{
    if let Some(dir) = added.dir_of(file) {
        return Some(dir);
    }
    if gone.has(file) {
        return None;
    }
    let line = line_of(manifest.lines(), file)?;
    Some(line.dir)
}

/// Returns the name under which a link gives the file, or none if no link gives it.
pub fn name_of<'a>(
    manifest: &'a Manifest,
    added: &'a Added,
    gone: &UnlinkedFiles,
    file: FileId,
) -> Option<&'a Name>
    requires beside { AreBeside added.now (is_gone gone.now) (links_from 2 manifest.now.lines) }
    ensures name { IsNameAbove (links_now manifest.now added.now gone.now) file result }
{
    if let Some(name) = added.name_of(file) {
        return Some(name);
    }
    if gone.has(file) {
        return None;
    }
    let line = line_of(manifest.lines(), file)?;
    Some(&line.name)
}

/// Records in `gone` and `lost` that the manifest's link to `target` is gone. Does nothing if there is no target, if
/// the manifest has no link to it, or if this link is gone already. Takes no memory.
pub fn lose(manifest: &Manifest, gone: &mut UnlinkedFiles, lost: &mut Tally, target: Option<FileId>)
    requires so_far { AreTaken manifest.now gone.old lost.old }
    ensures gone { (q : ℕ) → is_gone gone.new q
        ≡ (file_does (λ file. is_some (line_of manifest.now.lines file) && (q == file.0)) target
        || is_gone gone.old q) }
    ensures now { AreTaken manifest.now gone.new lost.new }
{
    let Some(target) = target else {
        return;
    };
    let Some(line) = line_of(manifest.lines(), target) else {
        return;
    };
    if gone.has(target) {
        return;
    }
    gone.add(target);
    lost.raise(line.dir.0);
}

/// Returns whether the target of `link` is what the manifest has at this place; either may be none. The manifest is not
/// searched for a file that is none of its own.
pub fn is_there(manifest: &Manifest, link: &LinkChange) -> bool
    ensures { result ≡ gives_same link.now.target (base_target manifest.now link.now) }
{
    if let Some(file) = link.target {
        if !is_line(manifest, file) {
            return false;
        }
    }
    gives_same(link.target, manifest.child(link.dir, link.name.bytes()))
}

/// Returns whether the target of `link` is another than the manifest has at this place; either may be none.
fn differs(manifest: &Manifest, link: &LinkChange) -> bool
    ensures { result ≡ differs manifest.now link.now }
{
    !is_there(manifest, link)
}

/// Removes from `links` each one whose target is what the manifest has at its place: the file moved away and came back.
pub fn leave_out_same(manifest: &Manifest, links: &mut Vec<LinkChange>)
    ensures { links.new.items ≡ filter (differs manifest.now) links.old.items }
{
    links.retain(|link| differs(manifest, link));
}
