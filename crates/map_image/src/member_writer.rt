//! The members of an image's lists, appended to a buffer.
ghost use Rattle.std.specs.Prelude.{All, ◌≡◌, ◌<◌, ◌≤◌, false, length};
ghost use Rattle.std.specs.List.{flat_map, list_any};
ghost use Rattle.byte_codec.specs.Field.{number_bytes};
ghost use Rattle.byte_codec.specs.Writing.{HasRoom, Puts};
ghost use Rattle.map_image.specs.ImageText.{name_text, place_mark, place_text, entry_text, kind_mark, made_text, target_text, link_text, list_text, FitsPlace, FitsEntry, FitsMade, FitsTarget, FitsLink};
ghost use Rattle.map_image.specs.Versions.{length_limit, limit_of, width_of, IsForm};
ghost use Rattle.map_image.specs.Writing.{is_too_large};

use crate::{CountWidth, VersionForm};
use byte_codec::{put_byte, put_slice, put_u16, put_u32, put_u64};
use checkout::Made;
use eden_base::{FileId, MadeKind, Name, Place};
use entry_table::Kept;
use manifest::LinkChange;

/// Appends the length of a name in one byte, and the name, to `out`.
#[tactic(auto, using(crate::proofs::Written::written))]
fn put_name(out: &mut Vec<u8>, name: &Name)
    requires { HasRoom out.old (length (name_text name.now)) }
    ensures { Puts out.old out.new (name_text name.now) }
{
    let bytes = name.bytes();
    put_byte(out, bytes.len() as u8);
    put_slice(out, bytes);
}

/// Returns the mark of a place: 0 if the place is linked, else 1.
fn place_mark(place: &Place) -> u8
    ensures { result ≡ place_mark place.now }
{
    match place {
        Place::Linked { .. } => 0,
        Place::Unlinked { .. } => 1,
    }
}

/// Appends the place of an entry to `out`.
#[tactic(auto, using(crate::proofs::Written::written))]
fn put_place(out: &mut Vec<u8>, place: &Place)
    requires { HasRoom out.old (length (place_text place.now)) }
    ensures text { Puts out.old out.new (place_text place.now) }
    ensures fits { FitsPlace place.now }
{
    match place {
        Place::Linked { parent, name } => {
            put_u64(out, parent.0);
            put_name(out, name);
        }
        Place::Unlinked { file } => put_u64(out, file.0),
    }
}

/// Appends a count to `out`, in as many bytes as `width` says.
#[tactic(auto, using(crate::proofs::Written::written))]
fn put_count(out: &mut Vec<u8>, width: CountWidth, count: u64)
    requires room { HasRoom out.old (length (number_bytes (width_of width) count)) }
    requires fits { count < limit_of width }
    ensures text { Puts out.old out.new (number_bytes (width_of width) count) }
{
    match width {
        CountWidth::Four => put_u32(out, count as u32),
        CountWidth::Eight => put_u64(out, count),
    }
}

/// Appends an entry to `out`.
#[tactic(auto, using(crate::proofs::Written::written))]
fn put_entry(out: &mut Vec<u8>, form: VersionForm, kept: &Kept)
    requires form { IsForm form }
    requires room { HasRoom out.old (length (entry_text form.count_width kept.now)) }
    requires count { kept.now.count ≤ form.greatest_count }
    ensures text { Puts out.old out.new (entry_text form.count_width kept.now) }
    ensures fits { FitsEntry form.greatest_count kept.now }
{
    put_u64(out, kept.number.0);
    put_byte(out, place_mark(&kept.place));
    put_count(out, form.count_width, kept.count);
    put_place(out, &kept.place);
}

/// Returns the mark of a kind: 0 for a file, 1 for a directory.
fn kind_mark(kind: MadeKind) -> u8
    ensures { result ≡ kind_mark kind }
{
    match kind {
        MadeKind::File => 0,
        MadeKind::Dir => 1,
    }
}

/// Appends a made file to `out`.
#[tactic(auto, using(crate::proofs::Written::written))]
fn put_made(out: &mut Vec<u8>, made: Made)
    requires { HasRoom out.old (length (made_text made)) }
    ensures text { Puts out.old out.new (made_text made) }
    ensures fits { FitsMade made }
{
    put_u64(out, made.file.0);
    put_byte(out, kind_mark(made.kind));
    put_u16(out, made.perm.bits());
}

/// Appends the file to which a changed name leads, if any, to `out`, after a mark that says whether there is one.
#[tactic(auto, using(crate::proofs::Written::written))]
fn put_target(out: &mut Vec<u8>, target: Option<FileId>)
    requires { HasRoom out.old (length (target_text target)) }
    ensures text { Puts out.old out.new (target_text target) }
    ensures fits { FitsTarget target }
{
    match target {
        None => put_byte(out, 0),
        Some(file) => {
            put_byte(out, 1);
            put_u64(out, file.0);
        }
    }
}

/// Appends a changed name to `out`.
#[tactic(auto, using(crate::proofs::Written::written))]
fn put_link(out: &mut Vec<u8>, link: &LinkChange)
    requires { HasRoom out.old (length (link_text link.now)) }
    ensures text { Puts out.old out.new (link_text link.now) }
    ensures fits { FitsLink link.now }
{
    put_u64(out, link.dir.0);
    put_name(out, &link.name);
    put_target(out, link.target);
}

/// Appends entries to `out`, in their order.
#[tactic(auto, using(crate::proofs::Written::written))]
fn put_each_entry(out: &mut Vec<u8>, form: VersionForm, entries: &[Kept])
    requires form { IsForm form }
    requires room { HasRoom out.old (length (flat_map (entry_text form.count_width) entries.now)) }
    requires counts { list_any (is_too_large form.greatest_count) entries.now ≡ false }
    ensures text { Puts out.old out.new (flat_map (entry_text form.count_width) entries.now) }
    ensures fits { All (FitsEntry form.greatest_count) entries.now }
{
    for kept in entries {
        put_entry(out, form, kept);
    }
}

/// Appends to `out` how many entries there are, and each entry.
#[tactic(auto, using(crate::proofs::Written::written))]
pub(crate) fn put_entries(out: &mut Vec<u8>, form: VersionForm, entries: &[Kept])
    requires form { IsForm form }
    requires few { length entries.now < length_limit }
    requires room { HasRoom out.old (length (list_text (entry_text form.count_width) entries.now)) }
    requires counts { list_any (is_too_large form.greatest_count) entries.now ≡ false }
    ensures text { Puts out.old out.new (list_text (entry_text form.count_width) entries.now) }
    ensures fits { All (FitsEntry form.greatest_count) entries.now }
{
    put_u32(out, entries.len() as u32);
    put_each_entry(out, form, entries);
}

/// Appends made files to `out`, in their order.
#[tactic(auto, using(crate::proofs::Written::written))]
fn put_each_made(out: &mut Vec<u8>, files: &[Made])
    requires { HasRoom out.old (length (flat_map made_text files.now)) }
    ensures text { Puts out.old out.new (flat_map made_text files.now) }
    ensures fits { All FitsMade files.now }
{
    for made in files {
        put_made(out, *made);
    }
}

/// Appends to `out` how many made files there are, and each made file.
#[tactic(auto, using(crate::proofs::Written::written))]
pub(crate) fn put_made_files(out: &mut Vec<u8>, files: &[Made])
    requires few { length files.now < length_limit }
    requires room { HasRoom out.old (length (list_text made_text files.now)) }
    ensures text { Puts out.old out.new (list_text made_text files.now) }
    ensures fits { All FitsMade files.now }
{
    put_u32(out, files.len() as u32);
    put_each_made(out, files);
}

/// Appends changed names to `out`, in their order.
#[tactic(auto, using(crate::proofs::Written::written))]
fn put_each_link(out: &mut Vec<u8>, links: &[LinkChange])
    requires { HasRoom out.old (length (flat_map link_text links.now)) }
    ensures text { Puts out.old out.new (flat_map link_text links.now) }
    ensures fits { All FitsLink links.now }
{
    for link in links {
        put_link(out, link);
    }
}

/// Appends to `out` how many changed names there are, and each changed name.
#[tactic(auto, using(crate::proofs::Written::written))]
pub(crate) fn put_links(out: &mut Vec<u8>, links: &[LinkChange])
    requires few { length links.now < length_limit }
    requires room { HasRoom out.old (length (list_text link_text links.now)) }
    ensures text { Puts out.old out.new (list_text link_text links.now) }
    ensures fits { All FitsLink links.now }
{
    put_u32(out, links.len() as u32);
    put_each_link(out, links);
}
