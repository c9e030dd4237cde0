//! Images as bytes.
ghost use Rattle.std.specs.Prelude.{◌≡◌, false, length, IfOk, IfErr, None, Ok, OnOk};
ghost use Rattle.std.specs.List.{list_any};
ghost use Rattle.byte_codec.specs.Writing.{HasRoom, Puts};
ghost use Rattle.map_image.specs.Fit.{IsFit};
ghost use Rattle.map_image.specs.ImageText.{magic, numbers_text, header_text, lists_text, image_text, FitsNumbers, FitsMembers, IsImageText};
ghost use Rattle.map_image.specs.ImageReading.{image_of_bytes};
ghost use Rattle.map_image.specs.Versions.{IsForm};
ghost use Rattle.map_image.specs.Writing.{AreFew, IsWriteRefusal, is_too_large, refusal};

use crate::measure::text_len;
use crate::member_writer::{put_entries, put_links, put_made_files};
use crate::{Image, VersionForm, WriteFault, form_of};
use byte_codec::{put_slice, put_u16, put_u64};
use entry_table::Kept;
use std::alloc::Global;

/// Returns whether an entry has a count above `greatest`.
fn has_large_count(entries: &[Kept], greatest: u64) -> bool
    ensures { result ≡ list_any (is_too_large greatest) entries.now }
{
    entries.iter().any(|kept| greatest < kept.count)
}

/// Appends `EDTK` to `out`.
#[tactic(auto, unfolding(crate::specs::ImageText::magic))]
fn put_magic(out: &mut Vec<u8>)
    requires { HasRoom out.old 4 }
    ensures { Puts out.old out.new magic }
{
    put_slice(out, b"EDTK");
}

/// Appends the generation, the next number and the next file to `out`.
#[tactic(auto, using(crate::proofs::Written::written))]
fn put_numbers(out: &mut Vec<u8>, image: &Image)
    requires { HasRoom out.old (length (numbers_text image.now)) }
    ensures text { Puts out.old out.new (numbers_text image.now) }
    ensures fits { FitsNumbers image.now }
{
    put_u64(out, image.generation);
    put_u64(out, image.next_number);
    put_u64(out, image.changes.next_file.0);
}

/// Appends what stands before the lists to `out`.
#[tactic(auto, using(crate::proofs::Written::written))]
fn put_header(out: &mut Vec<u8>, version: u16, image: &Image)
    requires { HasRoom out.old (length (header_text version image.now)) }
    ensures text { Puts out.old out.new (header_text version image.now) }
    ensures name { length image.now.name.bytes ≡ 20 }
    ensures fits { FitsNumbers image.now }
{
    put_magic(out);
    put_u16(out, version);
    put_slice(out, &image.name.bytes);
    put_numbers(out, image);
}

/// Appends the entries, the made files and the changed names to `out`.
#[tactic(auto, using(crate::proofs::Written::written))]
fn put_lists(out: &mut Vec<u8>, form: VersionForm, image: &Image)
    requires form { IsForm form }
    requires few { AreFew image.now }
    requires counts { list_any (is_too_large form.greatest_count) image.now.entries ≡ false }
    requires room { HasRoom out.old (length (lists_text form.count_width image.now)) }
    ensures text { Puts out.old out.new (lists_text form.count_width image.now) }
    ensures fits { FitsMembers form.greatest_count image.now }
{
    put_entries(out, form, image.entries.as_slice());
    put_made_files(out, image.changes.made.as_slice());
    put_links(out, image.changes.links.as_slice());
}

/// Appends the whole text of `image` to `out`.
#[tactic(auto, using(crate::proofs::Written::written))]
fn put_image(out: &mut Vec<u8>, version: u16, form: VersionForm, image: &Image)
    requires form { IsForm form }
    requires few { AreFew image.now }
    requires counts { list_any (is_too_large form.greatest_count) image.now.entries ≡ false }
    requires room { HasRoom out.old (length (image_text form.count_width version image.now)) }
    ensures text { Puts out.old out.new (image_text form.count_width version image.now) }
    ensures name { length image.now.name.bytes ≡ 20 }
    ensures numbers { FitsNumbers image.now }
    ensures members { FitsMembers form.greatest_count image.now }
{
    put_header(out, version, image);
    put_lists(out, form, image);
}

/// Writes an image in this version. Memory is taken once, only for the bytes that are returned.
pub fn write(alloc: Global, image: &Image, version: u16) -> Result<Vec<u8>, WriteFault>
    requires { IsFit image.now }
    ensures text { IfOk result (λ bytes. IsImageText image.now version bytes.items) }
    ensures read_again { IfOk result (λ bytes. image_of_bytes bytes.items ≡ Ok image.now) }
    ensures accepted { OnOk result (refusal image.now version ≡ None) }
    ensures refused { IfErr result (IsWriteRefusal image.now version) }
{
    let Some(form) = form_of(version) else {
        return Err(WriteFault::NoSuchVersion);
    };
    if !image.name.by.is(form.named_by) {
        return Err(WriteFault::NamedOtherwise);
    }
    if has_large_count(image.entries.as_slice(), form.greatest_count) {
        return Err(WriteFault::CountTooLarge);
    }
    let Some(len) = text_len(form, image) else {
        return Err(WriteFault::TooLong);
    };
    let Ok(mut out) = Vec::with_capacity(alloc, len) else {
        return Err(WriteFault::NoMemory);
    };
    put_image(&mut out, version, form, image);
    Ok(out)
}
