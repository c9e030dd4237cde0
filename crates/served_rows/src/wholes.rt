//! Images, read and written.
//!
//! `image read BYTES: ok | FAULT` reads an image and keeps it; `image two LEN BYTES: ok | FAULT` reads it in two pieces,
//! the first of LEN bytes, and `image each BYTES: ok | FAULT` byte by byte.
//! `image write VERSION: BYTES | FAULT` writes the image that was kept, and `image write VERSION BYTES: yes | no | FAULT`
//! tells whether it is written as these bytes.
//! `image cut BYTES: PARTS LAST yes` cuts bytes into parts: how many, the length of the last one, and whether they are
//! the bytes, in pieces of 4,096.
//! The other calls stand in `readers.rt` and `longest.rt`.
ghost use Rattle.std.specs.Prelude.{IfOk};
ghost use Rattle.map_image.specs.Fit.{IsFit};

use crate::faults::{image_word, write_word};
use crate::longest::longest;
use crate::readers::{image_of_each, image_of_two};
use crate::{Images, read_usize, read_version};
use byte_codec::Bytes;
use map_image::{Image, ImageFault, PART_LEN, WriteFault, cut, read, write};
use row_words::{Output, RowFault, Words};
use std::alloc::Global;
use std::marker::Model;

/// An image that has a text.
#[derive(Drop)]
pub(crate) struct FitImage {
    image: Image,
}

impl Model for FitImage {
    ghost use Rattle.std.specs.Prelude.{List};
    ghost use Rattle.entry_table.specs.declared.kept.Kept.{Kept};
    ghost use Rattle.map_image.specs.Fit.{IsFit};

    ghost Value = { List Kept };

    ghost view = { λ a. a.image.entries };

    ghost invariant = { λ a. IsFit a.image };
}

impl FitImage {
    /// Writes the image in `version`.
    fn write(&self, alloc: Global, version: u16) -> Result<Vec<u8>, WriteFault> {
        write(alloc, &self.image, version)
    }
}

/// Reads an image as `call` says: whole, in two pieces, of which the first has `len` bytes, or byte by byte.
fn image_by(alloc: Global, call: &[u8], bytes: &[u8], len: usize) -> Result<Image, ImageFault>
    ensures fit { IfOk result IsFit }
{
    match call {
        b"read" => read(alloc, bytes),
        b"two" => image_of_two(alloc, bytes, len),
        _ => image_of_each(alloc, bytes),
    }
}

/// Returns whether `parts` are the pieces of `text`.
fn are_pieces(parts: &[Bytes], text: &[u8]) -> bool {
    let mut rest = text;
    for part in parts {
        let (piece, behind) = rest.split_at(rest.len().min(PART_LEN));
        if part.as_slice() != piece {
            return false;
        }
        rest = behind;
    }
    rest.is_empty()
}

impl Images {
    /// Keeps the image that was read, or tells why there is none.
    pub(crate) fn keep(
        &mut self,
        read: Result<Image, ImageFault>,
        output: &mut Output,
    ) -> Result<(), RowFault>
        requires fit { IfOk read IsFit }
    {
        match read {
            Ok(image) => {
                self.image = Some(FitImage { image });
                output.word("ok");
            }
            Err(fault) => output.word(image_word(fault)?),
        }
        Ok(())
    }

    /// Reads an image whole, in two pieces or byte by byte, as `call` says.
    fn read(
        &mut self,
        call: &[u8],
        words: &mut Words<'_>,
        output: &mut Output,
    ) -> Result<(), RowFault> {
        let len = if call == b"two".as_slice() {
            read_usize(words)
        } else {
            0
        };
        let bytes = words.bytes();
        words.end()?;
        self.keep(image_by(self.alloc, call, bytes.as_slice(), len), output)
    }

    /// Writes the image that was kept.
    fn write(&self, words: &mut Words<'_>, output: &mut Output) -> Result<(), RowFault> {
        let version = read_version(words);
        let expected = if words.has_more() {
            Some(words.bytes())
        } else {
            None
        };
        words.end()?;
        let Some(fit) = self.image.as_ref() else {
            return Err(RowFault::BadRow);
        };
        match (fit.write(self.alloc, version), &expected) {
            (Ok(bytes), None) => output.bytes(bytes.as_slice()),
            (Ok(bytes), Some(expected)) => output.flag(bytes.as_slice() == expected.as_slice()),
            (Err(fault), _) => output.word(write_word(fault)?),
        }
        Ok(())
    }

    /// Cuts bytes into parts.
    fn cut(&self, words: &mut Words<'_>, output: &mut Output) -> Result<(), RowFault> {
        let text = words.bytes();
        words.end()?;
        if text.is_empty() {
            return Err(RowFault::BadRow);
        }
        let parts = cut(self.alloc, text.as_slice().to_vec(self.alloc)?)?;
        output.number(parts.len() as u64);
        output.number(parts.last().map_or(0, |last| last.as_slice().len()) as u64);
        output.flag(are_pieces(parts.as_slice(), text.as_slice()));
        Ok(())
    }

    /// Makes a call of `image`.
    pub(crate) fn call(
        &mut self,
        words: &mut Words<'_>,
        output: &mut Output,
    ) -> Result<(), RowFault> {
        let call = words.word();
        match call {
            b"read" | b"two" | b"each" => self.read(call, words, output),
            b"write" => self.write(words, output),
            b"cut" => self.cut(words, output),
            b"longest" => longest(self.alloc, words, output),
            _ => self.call_readers(call, words, output),
        }
    }
}
