//! What one daemon serves, the backing below it, and the images that it hands over.
#![tactic(auto)]

mod faults;
mod handing;
mod hosted;
mod longest;
mod readers;
mod requests;
mod wholes;

use crate::hosted::{Hosted, Plan};
use crate::wholes::FitImage;
use map_image::{ImageReader, PartReader};
use row_words::{Output, RowFault, Words};
use std::alloc::Global;

/// What one daemon serves, with its manifest, and when the backing below it fails.
#[derive(Drop)]
pub(crate) struct Serving {
    alloc: Global,
    hosted: Option<Hosted>,
    plan: Plan,
}

/// An image that was read, and the readers that read one in pieces.
#[derive(Drop)]
pub(crate) struct Images {
    alloc: Global,
    image: Option<FitImage>,
    reader: Option<ImageReader>,
    parts: Option<PartReader>,
}

/// The values that the calls of `served`, `backing` and `image` change.
pub struct ServedValues {
    serving: Serving,
    images: Images,
}

impl Drop for ServedValues {
    fn drop(self) {
        let ServedValues {
            serving: _,
            images: _,
        } = self;
    }
}

impl ServedValues {
    /// Makes the values that a case begins with.
    pub fn new(alloc: Global) -> ServedValues {
        ServedValues {
            serving: Serving {
                alloc,
                hosted: None,
                plan: Plan::NEVER,
            },
            images: Images {
                alloc,
                image: None,
                reader: None,
                parts: None,
            },
        }
    }
}

impl ServedValues {
    /// Makes the call of `subject` that `words` tell.
    pub fn call(
        &mut self,
        subject: &[u8],
        words: &mut Words<'_>,
        output: &mut Output,
    ) -> Result<(), RowFault> {
        match subject {
            b"served" => self.serving.call(words, output),
            b"backing" => self.serving.plan(words, output),
            b"image" => self.images.call(words, output),
            _ => Err(RowFault::BadRow),
        }
    }
}

/// Reads the next word as a number of the machine's width, which has 64 bits.
fn read_usize(words: &mut Words<'_>) -> usize {
    usize::try_from(words.number()).unwrap_or(usize::MAX)
}

/// Reads the next word as a version. There is none of more than 16 bits.
fn read_version(words: &mut Words<'_>) -> u16 {
    u16::try_from(words.number()).unwrap_or(u16::MAX)
}
