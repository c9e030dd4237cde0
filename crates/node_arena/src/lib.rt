//! A fixed count of nodes in one region of memory, each named by a slot, in the order of their last use.
#![tactic(auto)]

mod links;
mod node_content;
mod nodes;
mod region;
mod slot;

pub use nodes::NodeArena;
pub use slot::Slot;
