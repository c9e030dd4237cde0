//! Marks and names read from the front of bytes: a value, and what follows it.
ghost use Rattle.std.specs.Prelude.{◌≡◌};
ghost use Rattle.byte_codec.specs.Reading.{number_at};
ghost use Rattle.map_image.specs.ImageReading.{Gives, counted_at, mark_at, named};
ghost use Rattle.map_image.specs.Versions.{width_of};
ghost use Rattle.map_image.specs.declared.fault.ImageFault.TheVariants.{Short};

use crate::{CountWidth, ImageFault};
use byte_codec::{byte_at, bytes_at, u32_at, u64_at};
use eden_base::{Name, NoMemory};
use std::alloc::Global;

/// Reads a mark, which is 0 or 1, and returns whether it is 1, and the rest.
#[tactic(auto, unfolding(crate::specs::ImageReading::mark_at))]
pub(crate) fn mark_at(bytes: &[u8]) -> Result<(bool, &[u8]), ImageFault>
    ensures { Gives (λ x. (x.0, x.1.now)) result (mark_at bytes.now) }
{
    let (mark, rest) = byte_at(bytes, ImageFault::Short)?;
    if mark > 1 {
        return Err(ImageFault::BadMark);
    }
    Ok((mark == 1, rest))
}

/// Reads a number of this width, and returns it and the rest.
pub(crate) fn number_at(width: CountWidth, bytes: &[u8]) -> Result<(u64, &[u8]), ImageFault>
    ensures { Gives (λ x. (x.0, x.1.now)) result (number_at Short (width_of width) bytes.now) }
{
    match width {
        CountWidth::Four => {
            let (number, rest) = u32_at(bytes, ImageFault::Short)?;
            Ok((u64::from(number), rest))
        }
        CountWidth::Eight => {
            let (number, rest) = u64_at(bytes, ImageFault::Short)?;
            Ok((number, rest))
        }
    }
}

/// Reads a length in one byte, and returns as many bytes after it, and the rest.
#[tactic(auto, unfolding(crate::specs::ImageReading::counted_at))]
pub(crate) fn counted_at(bytes: &[u8]) -> Result<(&[u8], &[u8]), ImageFault>
    ensures { Gives (λ x. (x.0.now, x.1.now)) result (counted_at bytes.now) }
{
    let (len, rest) = byte_at(bytes, ImageFault::Short)?;
    let (field, rest) = bytes_at(rest, len as usize, ImageFault::Short)?;
    Ok((field, rest))
}

/// Makes a name of `field`, and returns it and `rest`.
pub(crate) fn named<'a>(
    alloc: Global,
    field: &[u8],
    rest: &'a [u8],
) -> Result<(Name, &'a [u8]), ImageFault>
    ensures { Gives (λ x. (x.0, x.1.now)) result (named (field.now, rest.now)) }
{
    if Name::fault(field).is_some() {
        return Err(ImageFault::BadName);
    }
    match Name::of(alloc, field) {
        Ok(name) => Ok((name, rest)),
        Err(NoMemory) => Err(ImageFault::NoMemory),
    }
}
