//! The numbers that were given, by number and by place: where each file stands, and how often the kernel holds it.
#![tactic(auto)]

mod dense;
mod kept;
mod slot_places;
mod table;
mod way;

pub use kept::{Entry, Kept, NamedEntries};
pub use table::Table;
