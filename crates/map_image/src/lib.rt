//! The image of what a daemon knows of its mount, and its text as bytes.
#![tactic(auto)]

mod fault;
mod feeding;
mod header;
mod image;
mod image_reader;
mod image_writer;
pub mod laws;
mod list_reader;
mod measure;
mod member_reader;
mod member_writer;
mod part_reader;
mod parts;
mod reader;
mod reading;
mod taken;
mod usage;
mod version;

pub use fault::{ImageFault, WriteFault};
pub use header::{ImageHeader, read_header};
pub use image::{Entries, Image, ManifestName};
pub use image_reader::{ImageReader, read};
pub use image_writer::write;
pub use part_reader::PartReader;
pub use parts::{PART_LEN, cut};
pub use version::{CountWidth, NamedBy, Sending, VersionForm, form_of, is_version, named_by};
