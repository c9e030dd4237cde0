//! The parts of an image, kept as they came until all are there.
ghost use Rattle.std.specs.Prelude.{◌≡◌, [], ◌++◌, IfOk, OnOk};
ghost use Rattle.std.specs.List.{concat};
ghost use Rattle.map_image.specs.Feeding.{IsAnswer, Takes};

use crate::feeding::feed;
use crate::parts::copied;
use crate::reading::Reading;
use crate::{ImageFault, ImageReader};
use byte_codec::Bytes;
use eden_base::NoMemory;
use std::alloc::Global;
use std::marker::Model;

/// Takes the parts of an image and finds their first fault. A part is kept as its bytes, which take less memory than
/// what is read of them. What was read is dropped but for the last member of each list, which the next one has to
/// follow. Contracts see the bytes that the reader took.
pub struct PartReader {
    parts: Vec<Bytes>,
    reading: Reading,
    tail: Vec<u8>,
    fault: Option<ImageFault>,
}

impl Drop for PartReader {
    fn drop(self) {
        let PartReader {
            parts: _,
            reading: _,
            tail: _,
            fault: _,
        } = self;
    }
}

impl Model for PartReader {
    ghost use Rattle.std.specs.Prelude.{ℕ, List};
    ghost use Rattle.std.specs.List.{concat};
    ghost use Rattle.map_image.specs.PartReading.{IsPartReader};

    ghost Value = { List ℕ };

    ghost view = { λ a. concat a.parts.items };

    ghost invariant = { λ a. IsPartReader (concat a.parts.items) a.reading a.tail.items a.fault };
}

impl PartReader {
    /// Makes a reader that took nothing.
    pub fn new(alloc: Global) -> PartReader
        ensures nothing { result ≡ [] }
    {
        PartReader {
            parts: Vec::new(alloc),
            reading: Reading::new(alloc),
            tail: Vec::new(alloc),
            fault: None,
        }
    }

    /// Takes a part. Returns a fault of the bytes as soon as the faulty field is whole, and again at each later call.
    /// If memory is refused, the reader is unchanged.
    pub fn feed(&mut self, part: &[u8]) -> Result<(), ImageFault>
        ensures takes { Takes self.old part.now result self.new }
        ensures exact { IsAnswer result (self.old ++ part.now) }
    {
        let Ok(kept) = copied(self.reading.alloc, part) else {
            return Err(ImageFault::NoMemory);
        };
        if self.parts.reserve(1).is_err() {
            return Err(ImageFault::NoMemory);
        }
        if let Some(fault) = self.fault {
            self.parts.push_reserved(kept);
            return Err(fault);
        }
        match feed(&mut self.reading, &mut self.tail, part) {
            Ok(()) => {
                self.reading.keep_last();
                self.parts.push_reserved(kept);
                Ok(())
            }
            Err(fault) => match fault {
                ImageFault::NoMemory => Err(ImageFault::NoMemory),
                _ => {
                    self.parts.push_reserved(kept);
                    self.fault = Some(fault);
                    Err(fault)
                }
            },
        }
    }

    /// Reads the parts once more, with a reader that keeps all that it reads.
    pub fn read(&self) -> Result<ImageReader, NoMemory>
        ensures same { IfOk result (λ reader. reader ≡ self.now) }
    {
        read_each(self.reading.alloc, self.parts.as_slice())
    }
}

/// Reads `parts`, one after another.
fn read_each(alloc: Global, parts: &[Bytes]) -> Result<ImageReader, NoMemory>
    ensures { IfOk result (λ reader. reader ≡ concat parts.now) }
{
    let mut reader = ImageReader::new(alloc)?;
    for part in parts {
        read_one(&mut reader, part.as_slice())?;
    }
    Ok(reader)
}

/// Reads `part` after all that `reader` took. The reader keeps a fault and tells it again.
fn read_one(reader: &mut ImageReader, part: &[u8]) -> Result<(), NoMemory>
    ensures { OnOk result (reader.new ≡ reader.old ++ part.now) }
{
    match reader.feed(part) {
        Err(ImageFault::NoMemory) => Err(NoMemory),
        Err(_) => Ok(()),
        Ok(()) => Ok(()),
    }
}
