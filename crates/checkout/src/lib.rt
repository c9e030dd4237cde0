//! What a checkout contains: the manifest that every daemon is handed, and the tree that requests change.
#![tactic(auto)]

mod added;
mod backing;
mod changes;
mod children;
mod fault;
mod made;
mod order;
mod overlay;
mod tree;
mod unlinked_files;

pub use backing::{Backing, BackingFault, ManifestBacking};
pub use changes::{Changes, LinkList, Made, MadeList};
pub use children::Child;
pub use fault::{ChangeFault, CreateFault};
pub use manifest::{LinkChange, Manifest, ManifestFault, ManifestFaultKind};
pub use tree::Tree;
