//! The longest text of version 2, and one of a byte more. Most names have 255 letters, so that fewer entries fill a
//! text.
//!
//! `image longest NAME: BYTES PARTS | FAULT` reads an image of 969,080 entries whose names have 255 letters and of one
//! more with this name, writes it in version 2, and cuts it into parts: 268,435,244 bytes and those of that name.
ghost use Rattle.std.specs.Prelude.{IfOk};
ghost use Rattle.map_image.specs.Fit.{IsFit};

use crate::faults::{image_word, write_word};
use map_image::{Image, ImageFault, cut, read, write};
use row_words::{Output, RowFault, Words};
use std::alloc::{AllocError, Global};

/// How many entries have a name of 255 letters.
const FULL: u32 = 969_080;

/// Appends an entry of `name` in the root. Its number is `index` + 2.
fn put_entry(bytes: &mut Vec<u8>, index: u32, name: &[u8]) -> Result<(), AllocError> {
    let number = (u64::from(index) + 2).to_be_bytes();
    bytes.extend_from_slice(number.as_slice())?;
    bytes.extend_from_slice(&[0, 0, 0, 0, 1, 0, 0, 0, 0, 0, 0, 0, 1])?;
    bytes.push(name.len().min(255) as u8)?;
    bytes.extend_from_slice(name)
}

/// Appends a text with an entry of `name` and `FULL` entries of 255 letters.
fn put_text(bytes: &mut Vec<u8>, name: &[u8]) -> Result<(), AllocError> {
    bytes.extend_from_slice(b"EDTK\0\x02")?;
    bytes.extend_from_slice(&[0; 44])?;
    bytes.extend_from_slice((FULL + 1).to_be_bytes().as_slice())?;
    put_entry(bytes, 0, name)?;
    for index in 0..FULL {
        put_entry(bytes, index + 1, &[b'n'; 255])?;
    }
    bytes.extend_from_slice(&[0; 8])
}

/// Reads the image of the text of `put_text`.
fn image_with(alloc: Global, name: &[u8]) -> Result<Image, ImageFault>
    ensures fit { IfOk result IsFit }
{
    let Ok(mut text) = Vec::with_capacity(alloc, 268_435_457) else {
        return Err(ImageFault::NoMemory);
    };
    if put_text(&mut text, name).is_err() {
        return Err(ImageFault::NoMemory);
    }
    read(alloc, text.as_slice())
}

/// Makes the call.
pub(crate) fn longest(
    alloc: Global,
    words: &mut Words<'_>,
    output: &mut Output,
) -> Result<(), RowFault> {
    let name = words.bytes();
    words.end()?;
    let written = match image_with(alloc, name.as_slice()) {
        Ok(image) => write(alloc, &image, 2),
        Err(fault) => {
            output.word(image_word(fault)?);
            return Ok(());
        }
    };
    match written {
        Ok(text) if !text.is_empty() => {
            output.number(text.len() as u64);
            output.number(cut(alloc, text)?.len() as u64);
        }
        Ok(_empty) => output.word("none"),
        Err(fault) => output.word(write_word(fault)?),
    }
    Ok(())
}
