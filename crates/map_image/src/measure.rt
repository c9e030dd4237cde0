//! How long a text will be, counted before it is written.
ghost use Rattle.std.specs.Prelude.{◌≡◌, ◌≤◌, ◌+◌, ℕ, length, IfSome};
ghost use Rattle.std.specs.List.{flat_map};
ghost use Rattle.map_image.specs.ImageText.{name_text, place_text, entry_text, made_text, target_text, link_text, image_text};
ghost use Rattle.map_image.specs.Versions.{IsForm};
ghost use Rattle.map_image.specs.Writing.{AreFew, IsLength, Leaves};

use crate::{CountWidth, Image, VersionForm};
use checkout::Made;
use eden_base::{FileId, Name, Place};
use entry_table::Kept;
use manifest::LinkChange;

/// The length of the fields before the lists, and of the count before each of the three lists, in bytes.
const FIXED_LEN: usize = 62;

/// The length of an entry's number and mark, in bytes.
const ENTRY_FIXED: usize = 9;

/// The length of a made file, in bytes.
const MADE_LEN: usize = 11;

/// The length of a number or of a file's id, in bytes.
const NUMBER_LEN: usize = 8;

/// Returns the length of the text of a name: its length in one byte, and the name.
#[tactic(auto, using(crate::proofs::Lengths::name_is_short, crate::proofs::Lengths::lengths))]
fn name_len(name: &Name) -> usize
    ensures len { result ≡ length (name_text name.now) }
    ensures at_most { result ≤ 256 }
{
    name.bytes().len() + 1
}

/// Returns the length of the text of a place.
#[tactic(auto, using(crate::proofs::Lengths::lengths))]
fn place_len(place: &Place) -> usize
    ensures len { result ≡ length (place_text place.now) }
    ensures at_most { result ≤ 264 }
{
    match place {
        Place::Linked { name, .. } => NUMBER_LEN + name_len(name),
        Place::Unlinked { .. } => NUMBER_LEN,
    }
}

/// Returns the length of the text of an entry.
#[tactic(auto, using(crate::proofs::Lengths::lengths))]
fn entry_len(width: CountWidth, kept: &Kept) -> usize
    ensures len { result ≡ length (entry_text width kept.now) }
    ensures at_least { 1 ≤ result }
{
    ENTRY_FIXED + width.len() + place_len(&kept.place)
}

/// Returns the length of the text of the file to which a changed name leads, if any.
#[tactic(auto, using(crate::proofs::Lengths::lengths))]
fn target_len(target: Option<FileId>) -> usize
    ensures len { result ≡ length (target_text target) }
    ensures at_most { result ≤ 9 }
{
    match target {
        None => 1,
        Some(_) => 1 + NUMBER_LEN,
    }
}

/// Returns the length of the text of a changed name.
#[tactic(auto, using(crate::proofs::Lengths::lengths))]
fn link_len(link: &LinkChange) -> usize
    ensures len { result ≡ length (link_text link.now) }
    ensures at_least { 1 ≤ result }
{
    NUMBER_LEN + name_len(&link.name) + target_len(link.target)
}

/// Returns what is left of `room` after the text of `entries`, or none if that is too long for it.
fn left_by_entries(width: CountWidth, entries: &[Kept], room: usize) -> Option<usize>
    ensures left { Leaves room (length (flat_map (entry_text width) entries.now)) result }
    ensures few { IfSome result (λ left. length entries.now + left ≤ room) }
{
    let mut left = room;
    for kept in entries {
        let Some(less) = left.checked_sub(entry_len(width, kept)) else {
            return None;
        };
        left = less;
    }
    Some(left)
}

/// Returns what is left of `room` after the text of these made files, or none if that is too long for it.
#[tactic(auto, using(crate::proofs::Lengths::made_files_len))]
fn left_by_made(files: &[Made], room: usize) -> Option<usize>
    ensures left { Leaves room (length (flat_map made_text files.now)) result }
    ensures few { IfSome result (λ left. length files.now + left ≤ room) }
{
    if files.len() > room / MADE_LEN {
        return None;
    }
    Some(room - MADE_LEN * files.len())
}

/// Returns what is left of `room` after the text of these changed names, or none if that is too long for it.
fn left_by_links(links: &[LinkChange], room: usize) -> Option<usize>
    ensures left { Leaves room (length (flat_map link_text links.now)) result }
    ensures few { IfSome result (λ left. length links.now + left ≤ room) }
{
    let mut left = room;
    for link in links {
        let Some(less) = left.checked_sub(link_len(link)) else {
            return None;
        };
        left = less;
    }
    Some(left)
}

/// Returns the length of an image's text in a version of this form, or none if the text is longer than the longest one
/// that is written.
#[tactic(auto, using(crate::proofs::Lengths::lengths))]
pub(crate) fn text_len(form: VersionForm, image: &Image) -> Option<usize>
    requires form { IsForm form }
    ensures len { (version : ℕ) →
        IsLength form.longest (length (image_text form.count_width version image.now)) result }
    ensures few { IfSome result (λ _. AreFew image.now) }
{
    let room = form.longest - FIXED_LEN;
    let left = left_by_entries(form.count_width, image.entries.as_slice(), room)?;
    let left = left_by_made(image.changes.made.as_slice(), left)?;
    let left = left_by_links(image.changes.links.as_slice(), left)?;
    Some(form.longest - left)
}
