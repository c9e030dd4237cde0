//! What stands before the lists of an image.
ghost use Rattle.std.specs.Prelude.{◌≡◌};
ghost use Rattle.byte_codec.specs.Reading.{bytes_at};
ghost use Rattle.map_image.specs.declared.fault.ImageFault.TheVariants.{Short};
ghost use Rattle.map_image.specs.ImageReading.{Tells, magic_at, form_at, header_at, header_of_bytes};

use crate::{ImageFault, ManifestName, NamedBy, VersionForm, form_of};
use byte_codec::{u16_at, u64_at};

/// The header of an image: what is known before its lists are read.
#[derive(Clone, Copy)]
pub struct ImageHeader {
    /// The manifest that the checkout stands on.
    pub name: ManifestName,
    /// The generation at which the daemon that wrote the image has the seat.
    pub generation: u64,
    /// The number that is given next.
    pub next_number: u64,
    /// The file id that is given next.
    pub next_file: u64,
}

/// Reads `EDTK`, and returns the rest.
#[tactic(auto, unfolding(crate::specs::ImageReading::magic_at, byte_codec::specs::Reading::bytes_at, crate::specs::ImageText::magic))]
pub(crate) fn magic_at(bytes: &[u8]) -> Result<&[u8], ImageFault>
    ensures { Tells (λ rest. rest.now) result (magic_at bytes.now) }
{
    if bytes.len() < 4 {
        return Err(ImageFault::Short);
    }
    let (field, rest) = bytes.split_at(4);
    if field != b"EDTK".as_slice() {
        return Err(ImageFault::BadMagic);
    }
    Ok(rest)
}

/// Reads the version, and returns its form and the rest.
#[tactic(auto, unfolding(crate::specs::ImageReading::form_at))]
pub(crate) fn form_at(bytes: &[u8]) -> Result<(VersionForm, &[u8]), ImageFault>
    ensures { Tells (λ x. (x.0, x.1.now)) result (form_at bytes.now) }
{
    let (version, rest) = u16_at(bytes, ImageFault::Short)?;
    match form_of(version) {
        Some(form) => Ok((form, rest)),
        None => Err(ImageFault::BadVersion),
    }
}

/// Reads what names a manifest, twenty bytes, and returns these and the rest.
#[tactic(auto, unfolding(byte_codec::specs::Reading::bytes_at))]
fn name_bytes_at(bytes: &[u8]) -> Result<([u8; 20], &[u8]), ImageFault>
    ensures { Tells (λ x. (x.0, x.1.now)) result (bytes_at Short 20 bytes.now) }
{
    if bytes.len() < 20 {
        return Err(ImageFault::Short);
    }
    let (field, rest) = bytes.split_at(20);
    let mut name = [0; 20];
    name.copy_from_slice(field);
    Ok((name, rest))
}

/// Reads what names the manifest, which is as `by` says, the generation, the next number and the next file, and returns
/// these and the rest.
#[tactic(auto, unfolding(crate::specs::ImageReading::header_at))]
pub(crate) fn header_at(by: NamedBy, bytes: &[u8]) -> Result<(ImageHeader, &[u8]), ImageFault>
    ensures { Tells (λ x. (x.0, x.1.now)) result (header_at by bytes.now) }
{
    let (name, rest) = name_bytes_at(bytes)?;
    let (generation, rest) = u64_at(rest, ImageFault::Short)?;
    let (next_number, rest) = u64_at(rest, ImageFault::Short)?;
    let (next_file, rest) = u64_at(rest, ImageFault::Short)?;
    let header = ImageHeader {
        name: ManifestName { by, bytes: name },
        generation,
        next_number,
        next_file,
    };
    Ok((header, rest))
}

/// Reads what stands before the lists of the image with which `bytes` begin. Takes no memory, and ignores what follows.
#[tactic(auto, unfolding(crate::specs::ImageReading::header_of_bytes))]
pub fn read_header(bytes: &[u8]) -> Result<ImageHeader, ImageFault>
    ensures exact { Tells (λ header. header) result (header_of_bytes bytes.now) }
{
    let rest = magic_at(bytes)?;
    let (form, rest) = form_at(rest)?;
    let (header, _rest) = header_at(form.named_by, rest)?;
    Ok(header)
}
