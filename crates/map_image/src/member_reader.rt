//! The members of an image's lists, read from the front of bytes. A member is compared with the last one before it.
ghost use Rattle.std.specs.Prelude.{◌≡◌};
ghost use Rattle.map_image.specs.Fit.{is_next_number, is_next_file, is_next_place};
ghost use Rattle.map_image.specs.ImageReading.{Gives, last_of, name_at, place_at, rising_at, count_at, entry_at, file_at, kind_of_mark, perm_at, made_at, rising_place, target_at, link_at};

use crate::reader::{counted_at, mark_at, named, number_at};
use crate::{ImageFault, VersionForm};
use byte_codec::{u16_at, u64_at};
use checkout::Made;
use eden_base::{FileId, MadeKind, Name, Number, Perm, Place};
use entry_table::Kept;
use manifest::LinkChange;
use std::alloc::Global;

/// Reads a name after its length, and returns it and the rest.
#[tactic(auto, unfolding(crate::specs::ImageReading::name_at))]
fn name_at(alloc: Global, bytes: &[u8]) -> Result<(Name, &[u8]), ImageFault>
    ensures { Gives (λ x. (x.0, x.1.now)) result (name_at bytes.now) }
{
    let (field, rest) = counted_at(bytes)?;
    named(alloc, field, rest)
}

/// Reads the place of an entry, as its mark says, and returns it and the rest.
#[tactic(auto, unfolding(crate::specs::ImageReading::place_at))]
fn place_at(alloc: Global, unlinked: bool, bytes: &[u8]) -> Result<(Place, &[u8]), ImageFault>
    ensures { Gives (λ x. (x.0, x.1.now)) result (place_at unlinked bytes.now) }
{
    let (number, rest) = u64_at(bytes, ImageFault::Short)?;
    if unlinked {
        let file = FileId(number);
        return Ok((Place::Unlinked { file }, rest));
    }
    let (name, rest) = name_at(alloc, rest)?;
    let parent = Number(number);
    Ok((Place::Linked { parent, name }, rest))
}

/// Returns whether `number` is above that of the last entry in `done`, or is at least 2 if there is none.
pub(crate) fn is_next_number(done: &[Kept], number: u64) -> bool
    ensures { result ≡ is_next_number (last_of done.now) number }
{
    match done.last() {
        Some(last) => last.number.0 < number,
        None => 1 < number,
    }
}

/// Reads a number above that of the last entry in `done`, and returns it and the rest.
#[tactic(auto, unfolding(crate::specs::ImageReading::rising_at))]
fn rising_at<'a>(done: &[Kept], bytes: &'a [u8]) -> Result<(u64, &'a [u8]), ImageFault>
    ensures { Gives (λ x. (x.0, x.1.now)) result (rising_at (last_of done.now) bytes.now) }
{
    let (number, rest) = u64_at(bytes, ImageFault::Short)?;
    if !is_next_number(done, number) {
        return Err(ImageFault::NotRising);
    }
    Ok((number, rest))
}

/// Reads a count, and returns it and the rest. Refuses a count above the greatest one of the version.
#[tactic(auto, unfolding(crate::specs::ImageReading::count_at))]
fn count_at(form: VersionForm, bytes: &[u8]) -> Result<(u64, &[u8]), ImageFault>
    ensures { Gives (λ x. (x.0, x.1.now)) result (count_at form bytes.now) }
{
    let (count, rest) = number_at(form.count_width, bytes)?;
    if count > form.greatest_count {
        return Err(ImageFault::BadMark);
    }
    Ok((count, rest))
}

/// Reads an entry that follows those in `done`, and returns it and the rest.
#[tactic(auto, unfolding(crate::specs::ImageReading::entry_at))]
pub(crate) fn entry_at<'a>(
    alloc: Global,
    form: VersionForm,
    done: &[Kept],
    bytes: &'a [u8],
) -> Result<(Kept, &'a [u8]), ImageFault>
    ensures { Gives (λ x. (x.0, x.1.now)) result (entry_at form (last_of done.now) bytes.now) }
{
    let (number, rest) = rising_at(done, bytes)?;
    let (unlinked, rest) = mark_at(rest)?;
    let (count, rest) = count_at(form, rest)?;
    let (place, rest) = place_at(alloc, unlinked, rest)?;
    let kept = Kept {
        number: Number(number),
        place,
        count,
    };
    Ok((kept, rest))
}

/// Returns whether a file's id is above that of the last file in `done`.
pub(crate) fn is_next_file(done: &[Made], file: u64) -> bool
    ensures { result ≡ is_next_file (last_of done.now) file }
{
    match done.last() {
        Some(last) => last.file.0 < file,
        None => true,
    }
}

/// Reads a file's id above that of the last file in `done`, and returns it and the rest.
#[tactic(auto, unfolding(crate::specs::ImageReading::file_at))]
fn file_at<'a>(done: &[Made], bytes: &'a [u8]) -> Result<(u64, &'a [u8]), ImageFault>
    ensures { Gives (λ x. (x.0, x.1.now)) result (file_at (last_of done.now) bytes.now) }
{
    let (file, rest) = u64_at(bytes, ImageFault::Short)?;
    if !is_next_file(done, file) {
        return Err(ImageFault::NotRising);
    }
    Ok((file, rest))
}

/// Reads permissions, and returns them and the rest.
#[tactic(auto, unfolding(crate::specs::ImageReading::perm_at))]
fn perm_at(bytes: &[u8]) -> Result<(Perm, &[u8]), ImageFault>
    ensures { Gives (λ x. (x.0, x.1.now)) result (perm_at bytes.now) }
{
    let (bits, rest) = u16_at(bytes, ImageFault::Short)?;
    match Perm::of(bits) {
        Some(perm) => Ok((perm, rest)),
        None => Err(ImageFault::BadMark),
    }
}

/// Returns the kind that a mark says.
fn kind_of_mark(is_dir: bool) -> MadeKind
    ensures { result ≡ kind_of_mark is_dir }
{
    if is_dir {
        MadeKind::Dir
    } else {
        MadeKind::File
    }
}

/// Reads a made file that follows those in `done`, and returns it and the rest.
#[tactic(auto, unfolding(crate::specs::ImageReading::made_at))]
pub(crate) fn made_at<'a>(done: &[Made], bytes: &'a [u8]) -> Result<(Made, &'a [u8]), ImageFault>
    ensures { Gives (λ x. (x.0, x.1.now)) result (made_at (last_of done.now) bytes.now) }
{
    let (file, rest) = file_at(done, bytes)?;
    let (is_dir, rest) = mark_at(rest)?;
    let (perm, rest) = perm_at(rest)?;
    let made = Made {
        file: FileId(file),
        kind: kind_of_mark(is_dir),
        perm,
    };
    Ok((made, rest))
}

/// Returns whether a name comes after the last one in `done`, by directory and then by bytes.
pub(crate) fn is_next_place(done: &[LinkChange], dir: u64, name: &[u8]) -> bool
    ensures { result ≡ is_next_place (last_of done.now) dir name.now }
{
    match done.last() {
        Some(last) => {
            last.dir.0 < dir || (last.dir.0 == dir && last.name.bytes().cmp(name).is_lt())
        }
        None => true,
    }
}

/// Makes the name that `field` has. Refuses a name in `dir` that does not come after the last one in `done`.
#[tactic(auto, unfolding(crate::specs::ImageReading::rising_place))]
fn rising_place<'a>(
    alloc: Global,
    done: &[LinkChange],
    dir: u64,
    field: &[u8],
    rest: &'a [u8],
) -> Result<(Name, &'a [u8]), ImageFault>
    ensures { Gives (λ x. (x.0, x.1.now)) result (rising_place (last_of done.now) dir (field.now, rest.now)) }
{
    if !is_next_place(done, dir, field) {
        return Err(ImageFault::NotRising);
    }
    named(alloc, field, rest)
}

/// Reads the file to which a changed name leads, if its mark says that there is one, and returns it and the rest.
#[tactic(auto, unfolding(crate::specs::ImageReading::target_at))]
fn target_at(there: bool, bytes: &[u8]) -> Result<(Option<FileId>, &[u8]), ImageFault>
    ensures { Gives (λ x. (x.0, x.1.now)) result (target_at there bytes.now) }
{
    if !there {
        return Ok((None, bytes));
    }
    let (file, rest) = u64_at(bytes, ImageFault::Short)?;
    Ok((Some(FileId(file)), rest))
}

/// Reads a changed name that follows those in `done`, and returns it and the rest.
#[tactic(auto, unfolding(crate::specs::ImageReading::link_at))]
pub(crate) fn link_at<'a>(
    alloc: Global,
    done: &[LinkChange],
    bytes: &'a [u8],
) -> Result<(LinkChange, &'a [u8]), ImageFault>
    ensures { Gives (λ x. (x.0, x.1.now)) result (link_at (last_of done.now) bytes.now) }
{
    let (dir, rest) = u64_at(bytes, ImageFault::Short)?;
    let (field, rest) = counted_at(rest)?;
    let (name, rest) = rising_place(alloc, done, dir, field, rest)?;
    let (there, rest) = mark_at(rest)?;
    let (target, rest) = target_at(there, rest)?;
    let link = LinkChange {
        dir: FileId(dir),
        name,
        target,
    };
    Ok((link, rest))
}
