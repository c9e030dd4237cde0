//! Images whose bytes come in pieces.
//!
//! `image new: ok`, `image feed BYTES: ok | FAULT` and `image end: ok | FAULT` read an image in pieces and keep it.
//! `image parts: ok` and `image part BYTES: ok | FAULT` keep parts, and `image again: ok` reads them as if they had been
//! fed.
ghost use Rattle.std.specs.Prelude.{IfOk};
ghost use Rattle.map_image.specs.Fit.{IsFit};

use crate::Images;
use crate::faults::image_word;
use eden_base::NoMemory;
use map_image::{Image, ImageFault, ImageReader, PartReader};
use row_words::{Output, RowFault, Words};
use std::alloc::Global;

/// Makes a reader that was fed nothing.
fn reader_of(alloc: Global) -> Result<ImageReader, ImageFault> {
    match ImageReader::new(alloc) {
        Ok(reader) => Ok(reader),
        Err(NoMemory) => Err(ImageFault::NoMemory),
    }
}

/// Reads the image of `bytes` in two pieces, the first of `len` bytes.
pub(crate) fn image_of_two(alloc: Global, bytes: &[u8], len: usize) -> Result<Image, ImageFault>
    ensures fit { IfOk result IsFit }
{
    let (first, second) = bytes.split_at(len.min(bytes.len()));
    let mut reader = reader_of(alloc)?;
    reader.feed(first)?;
    reader.feed(second)?;
    reader.finish()
}

/// Reads the image of `bytes`, fed one by one.
pub(crate) fn image_of_each(alloc: Global, bytes: &[u8]) -> Result<Image, ImageFault>
    ensures fit { IfOk result IsFit }
{
    let mut reader = reader_of(alloc)?;
    for byte in bytes {
        reader.feed(&[*byte])?;
    }
    reader.finish()
}

impl Images {
    /// Ends the reading, and keeps the image.
    fn end(&mut self, output: &mut Output) -> Result<(), RowFault> {
        match self.reader.take() {
            Some(reader) => self.keep(reader.finish(), output),
            None => Err(RowFault::BadRow),
        }
    }

    /// Reads the parts as if they had been fed.
    fn read_parts(&mut self) -> Result<(), RowFault> {
        let Some(parts) = self.parts.as_ref() else {
            return Err(RowFault::BadRow);
        };
        self.reader = Some(parts.read()?);
        Ok(())
    }

    /// Feeds a piece to the reader, or a part to that of parts.
    fn feed(
        &mut self,
        call: &[u8],
        words: &mut Words<'_>,
        output: &mut Output,
    ) -> Result<(), RowFault> {
        let piece = words.bytes();
        words.end()?;
        let fed = match (call, self.reader.as_mut(), self.parts.as_mut()) {
            (b"feed", Some(reader), _) => reader.feed(piece.as_slice()),
            (b"part", _, Some(parts)) => parts.feed(piece.as_slice()),
            _ => return Err(RowFault::BadRow),
        };
        match fed {
            Ok(()) => output.word("ok"),
            Err(fault) => output.word(image_word(fault)?),
        }
        Ok(())
    }

    /// Makes the call `call` of a reader.
    pub(crate) fn call_readers(
        &mut self,
        call: &[u8],
        words: &mut Words<'_>,
        output: &mut Output,
    ) -> Result<(), RowFault> {
        match call {
            b"feed" | b"part" => return self.feed(call, words, output),
            b"end" => return self.end(output),
            b"new" => self.reader = Some(ImageReader::new(self.alloc)?),
            b"parts" => self.parts = Some(PartReader::new(self.alloc)),
            b"again" => self.read_parts()?,
            _ => return Err(RowFault::BadRow),
        }
        output.word("ok");
        words.end()
    }
}
