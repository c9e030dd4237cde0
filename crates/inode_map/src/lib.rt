//! What a daemon remembers for the kernel: the numbers that it gave, what each names, and how often the kernel holds
//! each.
#![tactic(auto)]

mod inode_map;
mod loaded;

pub use entry_table::{Kept, NamedEntries};
pub use inode_map::{Forgot, GiveFault, InodeMap};
pub use loaded::LoadedAttr;
