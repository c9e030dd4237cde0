//! What one line of a manifest says.
ghost use Rattle.std.specs.Prelude.{◌≡◌, ◌≤◌, IfErr, IfOk, Some};
ghost use Rattle.eden_base.specs.Limits.{greatest_size};
ghost use Rattle.manifest.specs.ManifestText.{dir_entry, entry_of, file_entry, link_entry, entry_fault};

use crate::ManifestFaultKind;
use crate::field::{after, mode_of, size_of};
use eden_base::{Kind, Perm, cut};

/// An entry of a manifest: a file's kind, permissions and size, and its path.
#[derive(Drop)]
pub struct ManifestEntry<'a> {
    pub kind: Kind,
    pub perm: Perm,
    pub size: u64,
    pub path: &'a [u8],
}

impl<'a> ManifestEntry<'a> {
    /// Reads a line, which is given without its LF.
    pub fn read(line: &'a [u8]) -> Result<ManifestEntry<'a>, ManifestFaultKind>
        ensures entry { IfOk result (λ e. entry_of line.now ≡ Some (record {
          kind = e.kind;
          perm = Some e.perm;
          size = Some e.size;
          path = e.path.now;
        })) }
        ensures small { IfOk result (λ e. e.size ≤ greatest_size) }
        ensures refused { IfErr result (λ fault. entry_fault (entry_of line.now) ≡ Some fault) }
    {
        if let Some(path) = after(b"dir ".as_slice(), line) {
            return Ok(ManifestEntry {
                kind: Kind::Dir,
                perm: Perm::DIRECTORY,
                size: 0,
                path,
            });
        }
        if let Some(rest) = after(b"file ".as_slice(), line) {
            return ManifestEntry::of_file(rest);
        }
        if let Some(rest) = after(b"link ".as_slice(), line) {
            return ManifestEntry::of_link(rest);
        }
        Err(ManifestFaultKind::BadLine)
    }

    /// Reads what follows `file ` in a line: `MODE SIZE PATH`.
    fn of_file(rest: &'a [u8]) -> Result<ManifestEntry<'a>, ManifestFaultKind>
        ensures entry { IfOk result (λ e. file_entry rest.now ≡ Some (record {
          kind = e.kind;
          perm = Some e.perm;
          size = Some e.size;
          path = e.path.now;
        })) }
        ensures small { IfOk result (λ e. e.size ≤ greatest_size) }
        ensures refused { IfErr result (λ fault. entry_fault (file_entry rest.now) ≡ Some fault) }
    {
        let Some((mode, rest)) = cut(rest, b' ') else {
            return Err(ManifestFaultKind::BadLine);
        };
        let Some((size, path)) = cut(rest, b' ') else {
            return Err(ManifestFaultKind::BadLine);
        };
        let Some(perm) = mode_of(mode) else {
            return Err(ManifestFaultKind::BadMode);
        };
        let Some(size) = size_of(size) else {
            return Err(ManifestFaultKind::BadSize);
        };
        Ok(ManifestEntry {
            kind: Kind::File,
            perm,
            size,
            path,
        })
    }

    /// Reads what follows `link ` in a line: `SIZE PATH`.
    fn of_link(rest: &'a [u8]) -> Result<ManifestEntry<'a>, ManifestFaultKind>
        ensures entry { IfOk result (λ e. link_entry rest.now ≡ Some (record {
          kind = e.kind;
          perm = Some e.perm;
          size = Some e.size;
          path = e.path.now;
        })) }
        ensures small { IfOk result (λ e. e.size ≤ greatest_size) }
        ensures refused { IfErr result (λ fault. entry_fault (link_entry rest.now) ≡ Some fault) }
    {
        let Some((size, path)) = cut(rest, b' ') else {
            return Err(ManifestFaultKind::BadLine);
        };
        let Some(size) = size_of(size) else {
            return Err(ManifestFaultKind::BadSize);
        };
        Ok(ManifestEntry {
            kind: Kind::Link,
            perm: Perm::LINK,
            size,
            path,
        })
    }
}
