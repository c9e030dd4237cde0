//! The files of a commit so far.
ghost use Rattle.std.specs.Prelude.{◌≡◌, ◌+◌, [], IfErr, IfOk, OnOk, Ok, length};
ghost use Rattle.git_tree.specs.GitTree.{files_with, no_files, read_on, records_of, IsAmongRecords, IsRecordRefusal, IsRefusal};

use crate::entry::GitEntry;
use crate::objects::Objects;
use crate::{GitTreeFault, GitTreeFaultKind};
use eden_base::cut;
use manifest::ManifestBuilder;
use std::alloc::Global;

/// The files of a commit so far, with the object of each.
#[derive(Drop)]
pub struct GitFiles {
    pub lines: ManifestBuilder,
    pub objects: Objects,
}

impl GitFiles {
    /// Makes the files of no records.
    fn new(alloc: Global) -> GitFiles
        ensures { result ≡ no_files }
    {
        GitFiles {
            lines: ManifestBuilder::new(alloc),
            objects: Objects::new(alloc),
        }
    }

    /// Adds the file of one more record, which is given without its NUL.
    fn add(&mut self, alloc: Global, text: &[u8]) -> Result<(), GitTreeFaultKind>
        ensures added { OnOk result (files_with self.old text.now ≡ Ok self.new) }
        ensures refused { IfErr result (IsRecordRefusal (files_with self.old text.now)) }
    {
        let entry = GitEntry::read(text)?;
        if let Err(fault) = self.lines.add(alloc, entry.path, entry.file) {
            return Err(GitTreeFaultKind::of_path(fault));
        }
        match self.objects.push(entry.object) {
            Ok(()) => Ok(()),
            Err(_) => Err(GitTreeFaultKind::NoMemory),
        }
    }
}

/// Reads the records of an output.
pub fn read_files(alloc: Global, output: &[u8]) -> Result<GitFiles, GitTreeFault>
    ensures files { IfOk result (λ files. read_on no_files 1 (records_of output.now) ≡ Ok files) }
    ensures same_many { IfOk result (λ files. length files.objects ≡ length files.lines) }
    ensures count { IfOk result (λ files. length (records_of output.now) ≡ length files.objects + 1) }
    ensures refused { IfErr result (λ fault.
        IsRefusal (read_on no_files 1 (records_of output.now)) fault.number fault.kind) }
    ensures record { IfErr result (λ fault. IsAmongRecords output.now fault.number) }
{
    let mut files = GitFiles::new(alloc);
    let mut rest = output;
    while !rest.is_empty() {
        let number = files.objects.len() + 1;
        let Some((text, after)) = cut(rest, b'\0') else {
            return Err(GitTreeFault {
                number,
                kind: GitTreeFaultKind::BadRecord,
            });
        };
        match files.add(alloc, text) {
            Ok(()) => rest = after,
            Err(kind) => {
                return Err(GitTreeFault { number, kind });
            }
        }
    }
    Ok(files)
}
