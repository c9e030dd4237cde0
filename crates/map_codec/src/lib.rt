//! The image of what a daemon serves, and the restoring of what is served from an image; both by way of the bytes that
//! one daemon hands to the next.
#![tactic(auto)]

mod directories;
mod entry_checks;
mod fault;
mod giver;
pub mod laws;
mod named;
mod raising;
mod served_image;
mod taker;

pub use fault::{HandoverFault, RaiseFault};
pub use giver::hand_over;
pub use map_image::{Entries, Image, ImageFault, ImageReader, NamedBy, WriteFault, read, write};
pub use raising::raise;
pub use served_image::image_of;
pub use taker::{names_another, take_over, take_over_read};
