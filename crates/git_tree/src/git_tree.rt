//! A commit of git.
ghost use Rattle.std.specs.Prelude.{◌≡◌, IfErr, IfOk, Ok, length};
ghost use Rattle.manifest.specs.Manifest.{IsManifest};
ghost use Rattle.git_tree.specs.GitForm.{AreFormsRead};
ghost use Rattle.git_tree.specs.GitTree.{git_tree_of, IsAmongRecords, IsGitTreeRefusal};

use crate::git_files::read_files;
use crate::{GitTreeFault, GitTreeFaultKind, Objects};
use eden_base::NoMemory;
use manifest::Manifest;
use std::alloc::Global;

/// The files of a commit as a manifest, with the object of each.
#[derive(Drop)]
pub struct GitTree {
    pub manifest: Manifest,
    pub objects: Objects,
}

/// Reads what `git ls-tree -r -t -l -z --full-tree` prints of the commit with this name. The name is a hash over all
/// files, so it is the digest of the manifest too.
pub fn read_git_tree(
    alloc: Global,
    commit: [u8; 20],
    output: &[u8],
) -> Result<GitTree, GitTreeFault>
    ensures tree { IfOk result (λ tree. git_tree_of commit output.now ≡ Ok tree) }
    ensures forms_are_read { AreFormsRead commit output.now }
    ensures is_manifest { IfOk result (λ tree. IsManifest tree.manifest) }
    ensures objects { IfOk result (λ tree. length tree.objects ≡ length tree.manifest.lines) }
    ensures refused { IfErr result (IsGitTreeRefusal commit output.now) }
    ensures record { IfErr result (λ fault. IsAmongRecords output.now fault.number) }
{
    let files = read_files(alloc, output)?;
    let number = files.objects.len() + 1;
    match files.lines.finish(alloc, commit, commit) {
        Ok(manifest) => Ok(GitTree {
            manifest,
            objects: files.objects,
        }),
        Err(NoMemory) => Err(GitTreeFault {
            number,
            kind: GitTreeFaultKind::NoMemory,
        }),
    }
}
