//! Images read from their bytes, whole or in pieces.
ghost use Rattle.std.specs.Prelude.{◌≡◌, ℕ, [], ◌++◌, IfErr, IfOk, Ok, Err, Some};
ghost use Rattle.byte_codec.specs.Field.{AreBytes};
ghost use Rattle.map_image.specs.Feeding.{IsAnswer, Takes, standing_fault};
ghost use Rattle.map_image.specs.Fit.{CountsFit, IsFit};
ghost use Rattle.map_image.specs.ImageText.{IsImageText};
ghost use Rattle.map_image.specs.ImageReading.{Gives, IsLate, Tells, image_of_bytes};
ghost use Rattle.map_image.specs.declared.fault.ImageFault.{ImageFault};
ghost use Rattle.map_image.specs.declared.image.Image.{Image};

use crate::feeding::feed;
use crate::reading::Reading;
use crate::taken::Taken;
use crate::{Image, ImageFault, read_header};
use eden_base::NoMemory;
use std::alloc::Global;
use std::marker::Model;

/// Reads an image whose bytes come in pieces. What is whole of the bytes is kept as lists, and what is cut off waits
/// for the next piece. Contracts see the bytes that the reader took.
pub struct ImageReader {
    taken: Taken,
    reading: Reading,
    tail: Vec<u8>,
    fault: Option<ImageFault>,
}

impl Drop for ImageReader {
    fn drop(self) {
        let ImageReader {
            taken: _,
            reading: _,
            tail: _,
            fault: _,
        } = self;
    }
}

impl Model for ImageReader {
    ghost use Rattle.std.specs.Prelude.{ℕ, List};
    ghost use Rattle.map_image.specs.Feeding.{IsReader};

    ghost Value = { List ℕ };

    ghost view = { λ a. a.taken.bytes };

    ghost invariant = { λ a. IsReader a.taken.bytes a.reading a.tail.items a.fault };
}

impl ImageReader {
    /// Makes a reader that took nothing.
    pub fn new(alloc: Global) -> Result<ImageReader, NoMemory>
        ensures nothing { IfOk result (λ reader. reader ≡ []) }
    {
        Ok(ImageReader {
            taken: Taken::new(),
            reading: Reading::new(alloc),
            tail: Vec::new(alloc),
            fault: None,
        })
    }

    /// Takes a piece. Returns a fault of the bytes as soon as the faulty field is whole, and again at each later call.
    /// If memory is refused, the reader is unchanged.
    pub fn feed(&mut self, piece: &[u8]) -> Result<(), ImageFault>
        ensures takes { Takes self.old piece.now result self.new }
        ensures exact { IsAnswer result (self.old ++ piece.now) }
        ensures stands { (fault : ImageFault) → standing_fault self.old ≡ Some fault → result ≡ Err fault }
    {
        if let Some(fault) = self.fault {
            self.taken.add(piece);
            return Err(fault);
        }
        match feed(&mut self.reading, &mut self.tail, piece) {
            Ok(()) => {
                self.taken.add(piece);
                Ok(())
            }
            Err(fault) => match fault {
                ImageFault::NoMemory => Err(ImageFault::NoMemory),
                _ => {
                    self.taken.add(piece);
                    self.fault = Some(fault);
                    Err(fault)
                }
            },
        }
    }

    /// Returns the image that the bytes are, or their first fault. Takes no memory.
    pub fn finish(self) -> Result<Image, ImageFault>
        // The bytes are a text of the image that is returned, in some version.
        ensures text { IfOk result (λ image. (version : ℕ) × IsImageText image version self) }
        ensures fit { IfOk result IsFit }
        ensures counts { IfOk result (λ image. CountsFit image.entries) }
        // If the bytes are a text of an image, then that image is returned.
        ensures only { (image : Image) (version : ℕ) → IsImageText image version self
            → Tells (λ image. image) result (Ok image) }
        // The result for any bytes, with the exact fault, which is never `NoMemory`.
        ensures exact { Tells (λ image. image) result (image_of_bytes self) }
    {
        self.into_image()
    }

    /// Returns the image that the bytes are, or their first fault.
    fn into_image(self) -> Result<Image, ImageFault>
        ensures are { AreBytes self }
        ensures exact { Tells (λ image. image) result (image_of_bytes self) }
    {
        let ImageReader {
            taken: _,
            reading,
            tail,
            fault,
        } = self;
        if let Some(fault) = fault {
            return Err(fault);
        }
        if !tail.as_slice().is_empty() {
            return Err(ImageFault::Short);
        }
        reading.finish()
    }
}

/// Reads an image from its bytes, as one piece. Takes no memory before the header was read.
fn read_image(alloc: Global, bytes: &[u8]) -> Result<Image, ImageFault>
    ensures gives { Gives (λ image. image) result (image_of_bytes bytes.now) }
    ensures late { IfErr result (λ fault. IsLate fault bytes.now) }
{
    let _header = read_header(bytes)?;
    let Ok(mut reader) = ImageReader::new(alloc) else {
        return Err(ImageFault::NoMemory);
    };
    reader.feed(bytes)?;
    reader.finish()
}

/// Reads an image from its bytes, from front to back. The lists grow as members are read, and a name takes memory once.
pub fn read(alloc: Global, bytes: &[u8]) -> Result<Image, ImageFault>
    // The bytes are a text of the image that is returned, in some version.
    ensures text { IfOk result (λ image. (version : ℕ) × IsImageText image version bytes.now) }
    ensures fit { IfOk result IsFit }
    ensures counts { IfOk result (λ image. CountsFit image.entries) }
    // If the bytes are a text of an image, then that image is returned, unless memory is refused.
    ensures only { (image : Image) (version : ℕ) → IsImageText image version bytes.now
        → Gives (λ image. image) result (Ok image) }
    // The result for any bytes, with the exact fault.
    ensures exact { Gives (λ image. image) result (image_of_bytes bytes.now) }
    // Memory is first taken after the header was read.
    ensures late { IfErr result (λ fault. IsLate fault bytes.now) }
{
    read_image(alloc, bytes)
}
