//! The first round of checks: changes that are bad by themselves, whatever other links say.
ghost use Rattle.std.specs.Prelude.{◌≡◌, ◌==◌, ◌+◌, None, length};
ghost use Rattle.std.specs.List.{find};
ghost use Rattle.std.specs.List.Sorted.{IsStrictlySortedBy};
ghost use Rattle.std.specs.Option.{option_copied, option_map};
ghost use Rattle.std.specs.Ordering.{nat_cmp};
ghost use Rattle.checkout.specs.declared.changes.Made.{Made};
ghost use Rattle.checkout.specs.BadChanges.{bad_itself, first_bad, gives_same, is_bad_link, is_bad_made, is_bad_next, is_behind, is_target, kind_with, last_file, manifest_target, rises};
ghost use Rattle.checkout.specs.Changes.{file_ids};
ghost use Rattle.eden_base.specs.Kinds.{kind_made};
ghost use Rattle.manifest.specs.Tree.{is_dir};

use super::{Changes, Made};
use crate::made::made_at;
use crate::order::compare;
use crate::overlay::is_there;
use eden_base::{END_OF_FILES, FileId, Kind};
use manifest::{LinkChange, Manifest};
use std::cmp::Ordering;

/// Returns the id of the last file of a manifest.
fn last_file(manifest: &Manifest) -> u64
    ensures { result ≡ last_file manifest.now }
{
    manifest.lines().len() as u64 + 1
}

/// Returns whether the next file is bad: its id isn't above that of the manifest's last file, or is above
/// `END_OF_FILES`.
fn is_bad_next(manifest: &Manifest, next: FileId) -> bool
    ensures { result ≡ is_bad_next manifest.now next }
{
    next.0 <= last_file(manifest) || END_OF_FILES < next.0
}

/// Returns whether the id of `made` is above that of the made file before it, if there is one.
fn rises(before: Option<Made>, made: Made) -> bool
    ensures { result ≡ rises before made }
{
    match before {
        Some(before) => before.file.0 < made.file.0,
        None => true,
    }
}

/// Returns whether a made file is bad: its id doesn't rise, isn't above the manifest's last file, or isn't below
/// `next`.
fn is_bad_made(manifest: &Manifest, next: FileId, before: Option<Made>, made: Made) -> bool
    ensures { result ≡ is_bad_made manifest.now next before made }
{
    !rises(before, made) || made.file.0 <= last_file(manifest) || next.0 <= made.file.0
}

/// Returns the position of the first bad made file, or none. The first made file has position 1.
fn first_bad_made(manifest: &Manifest, next: FileId, files: &[Made]) -> Option<usize>
    ensures { result ≡ first_bad (is_bad_made manifest.now next) 1 None files.now }
{
    let mut before = None;
    for i in 0..files.len() {
        let made = files[i];
        if is_bad_made(manifest, next, before, made) {
            return Some(i + 1);
        }
        before = Some(made);
    }
    None
}

/// Returns whether the place of `change` comes after that of the change before it, if there is one.
fn is_behind(before: Option<&LinkChange>, change: &LinkChange) -> bool
    ensures { result ≡ is_behind (option_copied before.entry) change.now }
{
    match before {
        Some(before) => compare(before, change).is_lt(),
        None => true,
    }
}

/// Returns the kind of a made file, or none if `files` doesn't contain the file.
fn kind_among(files: &[Made], file: FileId) -> Option<Kind>
    requires rising { IsStrictlySortedBy nat_cmp (file_ids files.now) }
    ensures { result ≡ option_map (λ (x : Made). kind_made x.kind) (find (λ (x : Made). x.file.0 == file.0) files.now) }
{
    let made = made_at(files, file)?;
    Some(made.kind.kind())
}

/// Returns the kind of the root, of a file of the manifest, or of a made file; none for any other id.
fn kind_with(manifest: &Manifest, files: &[Made], file: FileId) -> Option<Kind>
    requires rising { IsStrictlySortedBy nat_cmp (file_ids files.now) }
    ensures { result ≡ kind_with manifest.now files.now file }
{
    match manifest.content(file) {
        Some(content) => Some(content.kind),
        None => kind_among(files, file),
    }
}

/// Returns whether a kind is that of a directory.
fn is_dir(kind: Option<Kind>) -> bool
    ensures { result ≡ is_dir kind }
{
    match kind {
        Some(Kind::Dir) => true,
        Some(Kind::File | Kind::Link) => false,
        None => false,
    }
}

/// Returns whether a link may have this target: a file of the manifest or of `files` that isn't the root, or none.
fn is_target(manifest: &Manifest, files: &[Made], target: Option<FileId>) -> bool
    requires rising { IsStrictlySortedBy nat_cmp (file_ids files.now) }
    ensures { result ≡ is_target manifest.now files.now target }
{
    match target {
        Some(file) => kind_with(manifest, files, file).is_some() && file.0 != 1,
        None => true,
    }
}

/// Returns whether both targets are the same file, or both are none.
pub fn gives_same(target: Option<FileId>, other: Option<FileId>) -> bool
    ensures { result ≡ gives_same target other }
{
    match (target, other) {
        (Some(file), Some(other)) => file.0 == other.0,
        (None, None) => true,
        _ => false,
    }
}

/// Returns whether the target of `change` is what the manifest has at this place; either may be none.
fn is_no_change(manifest: &Manifest, change: &LinkChange) -> bool
    ensures { result ≡ gives_same change.now.target (manifest_target manifest.now change.now) }
{
    is_there(manifest, change)
}

/// Returns whether a changed link is bad: its place doesn't come after that of the change before it, or its `dir` is no
/// directory. It is also bad if its target isn't allowed, or is what the manifest has at this place.
fn is_bad_link(
    manifest: &Manifest,
    files: &[Made],
    before: Option<&LinkChange>,
    change: &LinkChange,
) -> bool
    requires rising { IsStrictlySortedBy nat_cmp (file_ids files.now) }
    ensures { result ≡ is_bad_link manifest.now files.now (option_copied before.entry) change.now }
{
    !is_behind(before, change)
        || !is_dir(kind_with(manifest, files, change.dir))
        || !is_target(manifest, files, change.target)
        || is_no_change(manifest, change)
}

/// Returns the position of the first bad changed link, or none. The positions of links follow those of the made files.
fn first_bad_link(manifest: &Manifest, files: &[Made], links: &[LinkChange]) -> Option<usize>
    requires rising { IsStrictlySortedBy nat_cmp (file_ids files.now) }
    ensures { result ≡ first_bad (is_bad_link manifest.now files.now) (length files.now + 1) None links.now }
{
    let mut before = None;
    for i in 0..links.len() {
        let change = &links[i];
        if is_bad_link(manifest, files, before, change) {
            return Some(files.len() + 1 + i);
        }
        before = Some(change);
    }
    None
}

/// Returns the position of the first change that is bad by itself, or none. The next file has position 0. Takes no
/// memory.
pub fn bad_itself(manifest: &Manifest, changes: &Changes) -> Option<usize>
    ensures { result ≡ bad_itself manifest.now changes.now }
{
    if is_bad_next(manifest, changes.next_file) {
        return Some(0);
    }
    let files = changes.made.as_slice();
    match first_bad_made(manifest, changes.next_file, files) {
        Some(position) => Some(position),
        None => first_bad_link(manifest, files, changes.links.as_slice()),
    }
}
