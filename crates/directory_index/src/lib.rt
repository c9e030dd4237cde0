//! What stands in directories: the number under each name, and how many names or which numbers each directory has.
#![tactic(auto)]

mod children;
mod counted_index;
mod directory_index;
mod key;
mod link;
mod name_counts;
mod names;
mod number_set;
mod place_index;
mod places;
mod rising;

pub use counted_index::CountedIndex;
pub use directory_index::DirectoryIndex;
pub use places::Places;
