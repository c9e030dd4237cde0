//! What `git ls-tree -r -t -l -z --full-tree` prints of a commit, as a manifest with the object of each file.
#![tactic(auto)]

mod commit;
mod entry;
mod fault;
mod fields;
mod git_files;
mod git_tree;
mod mode;
mod object_id;
mod objects;

pub use commit::commit_of;
pub use fault::{CommitFault, GitTreeFault, GitTreeFaultKind};
pub use git_tree::{GitTree, read_git_tree};
pub use object_id::ObjectId;
pub use objects::Objects;
