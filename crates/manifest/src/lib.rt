//! What a commit contains: its files, each directory before what it holds, and the indexes by which they are found.
#![tactic(auto)]

mod builder;
mod content;
mod entry;
mod fault;
mod field;
mod line;
mod lines;
mod link_change;
mod manifest;
mod places;
mod tally;

pub use builder::ManifestBuilder;
pub use content::{Content, nlink_of_kind};
pub use fault::{ManifestFault, ManifestFaultKind, PlaceFault};
pub use field::{mode_of, size_of};
pub use line::{Line, line_of};
pub use link_change::LinkChange;
pub use manifest::Manifest;
pub use tally::Tally;
