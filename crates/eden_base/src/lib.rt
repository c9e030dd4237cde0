//! The words that every other crate speaks: names, numbers, attributes, places and error numbers.
#![tactic(auto)]

mod attr;
mod claim;
mod errno;
mod limits;
mod memory;
mod name;
mod name_room;
mod number;
mod order;
mod place;
mod text;

pub use attr::{Attr, Kind, MadeKind, Perm};
pub use claim::ClaimFault;
pub use errno::Errno;
pub use limits::{
    END_OF_FILES, END_OF_NUMBERS, GREATEST_COUNT, GREATEST_SIZE, LAST_GENERATION, LAST_SESSION,
};
pub use memory::NoMemory;
pub use name::{Name, NameFault};
pub use name_room::NameRoom;
pub use number::{DaemonId, FileId, Number};
pub use place::Place;
pub use text::cut;
