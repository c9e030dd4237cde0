//! The files of the commit that a revision names.
ghost use Rattle.std.specs.Prelude.{◌≡◌, ◌++◌, codes, string_bytes, IfErr, IfOk, OnOk};
ghost use Rattle.std.specs.Option.{option_map};
ghost use Rattle.git_blobs.specs.Reading.{IsNamed, IsNoRepository, IsTreeFault, IsTreeOf, IsUnasked, files_words};

use crate::git::Git;
use crate::tree_fault::TreeFault;
use git_tree::{CommitFault, GitTree, GitTreeFaultKind, commit_of, read_git_tree};
use std::alloc::{AllocError, Global};
use std::io::{Error, ErrorKind};

/// Reads the files of the commit that `revision` names (gitrevisions(7)), as `git` names and lists them.
#[tactic(auto, using(crate::proofs::Faults::unasked, crate::proofs::Faults::no_repository))]
pub fn read_tree<G: Git>(git: &G, alloc: Global, revision: &str) -> Result<GitTree, TreeFault>
    ensures tree { IfOk result (IsTreeOf (G.answers git.now) revision.now) }
    ensures fault { IfErr result (IsTreeFault (G.answers git.now) revision.now) }
{
    check_repository(git)?;
    let commit = commit(git, alloc, revision)?;
    let Some(printed) = list(git, alloc, &commit)? else {
        return Err(TreeFault::NoCommit(unlisted()));
    };
    match read_git_tree(alloc, commit, printed.as_slice()) {
        Ok(tree) => Ok(tree),
        Err(fault) if fault.kind == GitTreeFaultKind::NoMemory => Err(TreeFault::NoMemory),
        Err(fault) => Err(TreeFault::BadTree(fault)),
    }
}

/// Fails if there is no repository that git may read.
fn check_repository<G: Git>(git: &G) -> Result<(), TreeFault>
    ensures fault { IfErr result (IsNoRepository (G.answers git.now)) }
{
    match git.ask(&["rev-parse", "--git-dir"]) {
        Ok(Some(_path)) => Ok(()),
        Ok(None) => Err(TreeFault::NoRepository(no_repository())),
        Err(error) => Err(unrun(error)),
    }
}

/// Returns the commit that `revision` names. No revision begins with `-`, as an option does.
#[tactic(auto, using(crate::proofs::Faults::unasked))]
fn commit<G: Git>(git: &G, alloc: Global, revision: &str) -> Result<[u8; 20], TreeFault>
    ensures named { IfOk result (IsNamed (G.answers git.now) revision.now) }
    ensures fault { IfErr result (IsTreeFault (G.answers git.now) revision.now) }
{
    if revision.starts_with("-") {
        return Err(TreeFault::NoCommit(no_commit()));
    }
    let Ok(peeled) = peeled(alloc, revision) else {
        return Err(TreeFault::NoMemory);
    };
    let named = match git.ask(&["rev-parse", "--verify", peeled.as_str()]) {
        Ok(Some(named)) => named,
        Ok(None) => return Err(TreeFault::NoCommit(no_commit())),
        Err(error) => return Err(unrun(error)),
    };
    match commit_of(named.as_slice()) {
        Ok(commit) => Ok(commit),
        Err(CommitFault::Sha256) => Err(TreeFault::Sha256(of_sha256())),
        Err(CommitFault::BadName) => Err(TreeFault::NoCommit(no_commit())),
    }
}

/// Returns the name of the commit itself where `revision` names a tag of it.
fn peeled(alloc: Global, revision: &str) -> Result<String, AllocError>
    ensures { IfOk result (λ text. string_bytes text ≡ revision.now ++ codes "^{commit}") }
{
    format!(in alloc; "{revision}^{{commit}}")
}

/// Returns what git prints of all files of a commit, or none where it fails.
fn list<G: Git>(git: &G, alloc: Global, commit: &[u8; 20]) -> Result<Option<Vec<u8>>, TreeFault>
    ensures listed { IfOk result (λ printed. G.answers git.now (files_words commit.now) (option_map (λ bytes. bytes.items) printed)) }
    ensures fault { IfErr result IsUnasked }
{
    let Ok(name) = hex::encode(alloc, *commit) else {
        return Err(TreeFault::NoMemory);
    };
    let words = [
        "ls-tree",
        "-r",
        "-t",
        "-l",
        "-z",
        "--full-tree",
        name.as_str(),
    ];
    git.ask(&words).map_err(unrun)
}

/// Returns the fault where git was not run for `error`.
fn unrun(error: Error) -> TreeFault
    ensures fault { IsUnasked result }
{
    match error.kind() {
        ErrorKind::OutOfMemory => TreeFault::NoMemory,
        _ => TreeFault::NoGit(error),
    }
}

/// Returns the error where there is no repository.
fn no_repository() -> Error {
    Error::new(
        ErrorKind::NotFound,
        "git finds no repository that it may read",
    )
}

/// Returns the error of a revision that names no commit.
fn no_commit() -> Error {
    Error::new(ErrorKind::NotFound, "the repository has no such commit")
}

/// Returns the error of a commit whose files are not listed.
fn unlisted() -> Error {
    Error::new(ErrorKind::InvalidData, "git cannot list its files")
}

/// Returns the error of a repository whose objects are named by SHA-256.
fn of_sha256() -> Error {
    Error::new(
        ErrorKind::Unsupported,
        "only a repository whose objects are named by SHA-1 is served",
    )
}
