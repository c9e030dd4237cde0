//! The files of a commit of a git repository, and their bytes.
#![tactic(auto)]

mod commit_tree;
mod git;
mod git_blobs;
mod read_order;
mod tree_fault;
mod tree_reader;

pub use commit_tree::read_tree;
pub use git::Git;
pub use git_blobs::GitBlobs;
pub use tree_fault::TreeFault;
pub use tree_reader::TreeReader;
