//! The list of what a commit contains.
ghost use Rattle.std.specs.Prelude.{◌≡◌, ◌+◌, ◌<◌, [], IfErr, IfOk, IfSome, Ok, length};
ghost use Rattle.std.specs.FinMap.{get};
ghost use Rattle.manifest.specs.Manifest.{most_files, IsManifest, kids_in};
ghost use Rattle.manifest.specs.ManifestForm.{AreFormsRead, IsManifestForm};
ghost use Rattle.manifest.specs.ManifestText.{commit_of, digest_of, lines_of, manifest_of, read_on, with_commit, IsAmongLines, IsAtLine, IsManifestRefusal, IsRefusal};

use crate::field::after;
use crate::line::content_of;
use crate::lines::Lines;
use crate::{Content, Line, ManifestFault, ManifestFaultKind};
use eden_base::{FileId, NoMemory, cut};
use sha2::{Digest, Sha256};
use std::alloc::Global;
use std::marker::Model;
use std::sync::Arc;

/// The files of a checkout at a commit, each directory before what it holds. Every daemon of a mount gets the same
/// manifest.
pub struct Manifest {
    commit: [u8; 20],
    digest: [u8; 20],
    lines: Arc<Lines>,
}

impl Drop for Manifest {
    fn drop(self) {
        let Manifest {
            commit: _,
            digest: _,
            lines: _,
        } = self;
    }
}

impl Model for Manifest {
    ghost use Rattle.manifest.specs.Manifest.{Manifest, IsManifest};
    ghost use Rattle.manifest.specs.Codes.{manifest_code};

    ghost Value = { Manifest };

    ghost coded = { manifest_code };

    ghost view = { λ a. record { commit = a.commit; digest = a.digest; lines = a.lines.value } };

    ghost invariant = { λ a. IsManifest (record { commit = a.commit; digest = a.digest; lines = a.lines.value }) };
}

impl Manifest {
    ghost use Rattle.manifest.specs.Tree.{IsFirstFrom, IsTree, tree_of, files_from, links_from};

    /// Reads a manifest: a line `commit ` with forty hexadecimal digits, and then lines `dir PATH`, `file MODE SIZE PATH`
    /// and `link SIZE PATH`. Each line is ended by LF.
    pub fn read(alloc: Global, bytes: &[u8]) -> Result<Manifest, ManifestFault>
        ensures manifest { IfOk result (λ manifest. manifest_of bytes.now ≡ Ok manifest) }
        ensures form { IfOk result (λ manifest. IsManifestForm manifest bytes.now) }
        ensures forms_are_read { AreFormsRead bytes.now }
        ensures is_manifest { IfOk result IsManifest }
        ensures refused { IfErr result (IsManifestRefusal bytes.now) }
        ensures line { IfErr result (IsAtLine bytes.now) }
    {
        let (commit, rest) = match read_commit(bytes) {
            Ok(parts) => parts,
            Err(kind) => return Err(ManifestFault { line: 1, kind }),
        };
        let lines = read_lines(alloc, rest)?;
        let line = lines.len() + 1;
        match Manifest::of(alloc, commit, digest_of(bytes), lines) {
            Ok(manifest) => Ok(manifest),
            Err(NoMemory) => Err(ManifestFault {
                line,
                kind: ManifestFaultKind::NoMemory,
            }),
        }
    }

    /// Makes the manifest with this commit, this digest and these lines.
    pub(crate) fn of(
        alloc: Global,
        commit: [u8; 20],
        digest: [u8; 20],
        lines: Lines,
    ) -> Result<Manifest, NoMemory>
        ensures manifest { IfOk result (λ manifest. manifest
            ≡ record { commit = commit; digest = digest; lines = lines }) }
        ensures is_manifest { IfOk result IsManifest }
    {
        let lines = Arc::new(alloc, lines)?;
        Ok(Manifest {
            commit,
            digest,
            lines,
        })
    }

    /// Returns the name of the commit, as Git and EdenFS name it: the twenty bytes of a hash.
    pub fn commit(&self) -> [u8; 20]
        ensures commit { result ≡ self.now.commit }
        ensures is_manifest { IsManifest self.now }
    {
        self.commit
    }

    /// Returns the digest of the text that the manifest was read from: the first twenty bytes of its SHA-256. Manifests
    /// of one commit with other lines differ in it.
    pub fn digest(&self) -> [u8; 20]
        ensures digest { result ≡ self.now.digest }
    {
        self.digest
    }

    /// Returns the lines, for who reads all files: by rising file id, from 2 on. The root is file 1, and has no line.
    pub fn lines(&self) -> &[Line]
        ensures lines { result.now ≡ self.now.lines }
        ensures is_manifest { IsManifest self.now }
    {
        self.lines.as_slice()
    }

    /// Returns one more owner of the same lines, which make a tree, or `NoMemory` if one more owner can't be counted.
    pub fn share(&self) -> Result<Manifest, NoMemory>
        ensures same { IfOk result (λ shared. shared ≡ self.now) }
        ensures is_manifest { IfOk result IsManifest }
        ensures makes_tree { IfOk result (λ shared. IsTree (tree_of shared)) }
    {
        let lines = Arc::try_clone(&self.lines)?;
        Ok(Manifest {
            commit: self.commit,
            digest: self.digest,
            lines,
        })
    }

    /// Returns what the manifest says of `file`, if it has this file.
    pub fn content(&self, file: FileId) -> Option<Content>
        ensures content { result ≡ get (files_from 2 self.now.lines) file.0 }
        ensures is_manifest { IsManifest self.now }
    {
        content_of(self.lines(), file)
    }

    /// Returns the file that the manifest has under a name in a directory, if any.
    pub fn child(&self, dir: FileId, name: &[u8]) -> Option<FileId>
        ensures child { result ≡ get (links_from 2 self.now.lines) (dir.0, name.now) }
        ensures is_manifest { IsManifest self.now }
    {
        self.lines.child(dir, name)
    }

    /// Returns the first file from the id `least` on that the manifest has in the directory `dir`, by rising id, or none.
    pub fn first_from(&self, dir: FileId, least: FileId) -> Option<FileId>
        ensures first { IsFirstFrom (links_from 2 self.now.lines) dir least.0 result }
        ensures few { IfSome result (λ file. file.0 < most_files + 2) }
    {
        self.lines.first_from(dir, least)
    }

    /// Returns how many names the manifest has in a directory.
    pub fn kids(&self, dir: FileId) -> u32
        ensures kids { result ≡ kids_in dir.0 self.now.lines }
    {
        self.lines.kids(dir)
    }
}

/// Reads the line of the commit, and returns the commit and what follows that line.
fn read_commit(bytes: &[u8]) -> Result<([u8; 20], &[u8]), ManifestFaultKind>
    ensures commit { IfOk result (λ p.
        manifest_of bytes.now ≡ with_commit (digest_of bytes.now) p.0 (read_on [] 2 (lines_of p.1.now))) }
    ensures behind { IfOk result (λ p.
        length (lines_of bytes.now) ≡ length (lines_of p.1.now) + 1) }
    ensures refused { IfErr result (IsRefusal (manifest_of bytes.now) 1) }
    ensures line { IfErr result (IsAmongLines (length (lines_of bytes.now)) 1) }
{
    match cut(bytes, b'\n') {
        Some((line, rest)) => match commit_of(line) {
            Some(commit) => Ok((commit, rest)),
            None => Err(ManifestFaultKind::NoCommit),
        },
        None => match commit_of(bytes) {
            Some(_) => Err(ManifestFaultKind::BadLine),
            None => Err(ManifestFaultKind::NoCommit),
        },
    }
}

/// Returns the commit that the first line names, if it names one.
fn commit_of(line: &[u8]) -> Option<[u8; 20]>
    ensures { result ≡ commit_of line.now }
{
    let digits = after(b"commit ".as_slice(), line)?;
    let mut commit = [0; 20];
    match hex::decode_to_slice(digits, &mut commit) {
        Ok(()) => Some(commit),
        Err(_) => None,
    }
}

/// Returns the first twenty bytes of the SHA-256 of `text`.
#[tactic(auto, unfolding(crate::specs::ManifestText::digest_of))]
fn digest_of(text: &[u8]) -> [u8; 20]
    ensures { result ≡ digest_of text.now }
{
    let whole = Sha256::digest(text);
    let mut digest = [0; 20];
    digest.copy_from_slice(&whole[..20]);
    digest
}

/// Reads the lines after the first.
fn read_lines(alloc: Global, bytes: &[u8]) -> Result<Lines, ManifestFault>
    ensures lines { IfOk result (λ lines. read_on [] 2 (lines_of bytes.now) ≡ Ok lines) }
    ensures count { IfOk result (λ lines. length (lines_of bytes.now) ≡ length lines + 1) }
    ensures refused { IfErr result (λ fault.
        IsRefusal (read_on [] 2 (lines_of bytes.now)) fault.line fault.kind) }
    ensures line { IfErr result (λ fault.
        IsAmongLines (length (lines_of bytes.now) + 1) fault.line fault.kind) }
{
    let mut lines = Lines::new(alloc);
    let mut rest = bytes;
    while !rest.is_empty() {
        let line = lines.len() + 2;
        let Some((text, after)) = cut(rest, b'\n') else {
            return Err(ManifestFault {
                line,
                kind: ManifestFaultKind::BadLine,
            });
        };
        match lines.read(alloc, text) {
            Ok(()) => rest = after,
            Err(kind) => return Err(ManifestFault { line, kind }),
        }
    }
    Ok(lines)
}
