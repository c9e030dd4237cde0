//! Why the files of a commit were not read.
use git_tree::GitTreeFault;
use std::io;

/// Why the files of a commit were not read, with the error that caused it.
#[derive(Clone, Copy)]
pub enum TreeFault {
    /// The program git can't be run.
    NoGit(io::Error),
    /// There is no repository at the path, or git refuses to read it.
    NoRepository(io::Error),
    /// The repository has no such commit.
    NoCommit(io::Error),
    /// The repository names its objects by SHA-256.
    Sha256(io::Error),
    /// What git printed of the commit is no tree.
    BadTree(GitTreeFault),
    NoMemory,
}
