//! Entries of a directory, read from an answer to READDIR.
ghost use Rattle.std.specs.Prelude.{◌≡◌, ◌<◌, ◌≤◌, ◌^◌, ◌+◌, ◌++◌, ℕ, List, length, drop, Some, None, Ok, Err, IfOk, IfErr, IfSome, IsErr};
ghost use Rattle.fuse_wire.specs.DirectoryEntries.{entry_at, entry_len, entry_text, found_text, kind_typed, name_in, next_entry, padding_len, Dirent, FitsDirent, IsEntryName};

use crate::directory_entry::{DT_DIR, DT_LNK, DT_REG, entry_len, name_fault, padding};
use crate::layout::DIRENT_FIXED;
use crate::reader::Reader;
use crate::{DirectoryEntry, WireFault};
use eden_base::Kind;
use std::marker::Model;

/// The entries in an answer that are not read yet. Contracts see their bytes as a list.
#[derive(Drop)]
pub struct Entries<'a> {
    bytes: &'a [u8],
}

impl<'a> Model for Entries<'a> {
    ghost use Rattle.std.specs.Prelude.{ℕ, List};

    ghost Value = { List ℕ };

    ghost view = { λ entries. entries.bytes.now };
}

impl<'a> Entries<'a> {
    /// Makes a reader of the entries in `bytes`.
    pub fn of(bytes: &'a [u8]) -> Entries<'a>
        ensures bytes { result ≡ bytes.now }
    {
        Entries { bytes }
    }

    /// Reads the next entry, or returns none behind the last one. Bytes that are no entry are refused with their first
    /// fault: `Short` for a cut fixed part, `BadLength` for a cut name or cut zeros behind it, `BadBody` for another type
    /// or other bytes behind the name, `BadName` for the name. A fault changes nothing, so the next call returns it again.
    pub fn next_entry(&mut self) -> Result<Option<DirectoryEntry<'a>>, WireFault>
        ensures exact { result ≡ next_entry self.old }
        ensures refused { IfErr result (λ fault. self.new ≡ self.old) }
        ensures text { IfOk result (λ found. self.old ≡ found_text found ++ self.new) }
        ensures only { (entry : Dirent) (rest : List ℕ) → FitsDirent entry → self.old ≡ entry_text entry ++ rest
            → (result ≡ Ok (Some entry)) × (self.new ≡ rest) }
    {
        if self.bytes.is_empty() {
            return Ok(None);
        }
        match entry_at(self.bytes) {
            Ok(entry) => {
                let (_, rest) = self.bytes.split_at(entry.text_len());
                self.bytes = rest;
                Ok(Some(entry))
            }
            Err(fault) => Err(fault),
        }
    }
}

/// Returns the entry in front of `bytes`, or the first fault.
#[tactic(auto, unfolding(crate::specs::DirectoryEntries::entry_at))]
fn entry_at(bytes: &[u8]) -> Result<DirectoryEntry<'_>, WireFault>
    ensures exact { result ≡ entry_at bytes.now }
    ensures text { IfOk result (λ entry. bytes.now ≡ entry_text entry ++ drop (length (entry_text entry)) bytes.now) }
{
    if bytes.len() < DIRENT_FIXED {
        return Err(WireFault::Short);
    }
    let mut fields = Reader::new(bytes);
    let number = fields.u64();
    let next = fields.u64();
    let name_len = fields.u32() as usize;
    let kind = fields.u32();
    if bytes.len() < entry_len(name_len) {
        return Err(WireFault::BadLength);
    }
    let Some(kind) = kind_typed(kind) else {
        return Err(WireFault::BadBody);
    };
    let (_, behind) = bytes.split_at(DIRENT_FIXED);
    match name_in(name_len, behind) {
        Ok(name) => Ok(DirectoryEntry {
            number,
            next,
            kind,
            name,
        }),
        Err(fault) => Err(fault),
    }
}

/// Returns the kind that has this type in an entry, or none if there is no such kind.
fn kind_typed(kind: u32) -> Option<Kind>
    ensures { result ≡ kind_typed kind }
{
    match kind {
        DT_DIR => Some(Kind::Dir),
        DT_REG => Some(Kind::File),
        DT_LNK => Some(Kind::Link),
        _ => None,
    }
}

/// Returns the name of `name_len` bytes in front of `bytes`, or its first fault. Zeros have to stand between it and the
/// next entry.
#[tactic(auto, using(crate::proofs::Lengths::lengths), unfolding(crate::specs::DirectoryEntries::name_in))]
fn name_in(name_len: usize, bytes: &[u8]) -> Result<&[u8], WireFault>
    requires fits { name_len < 2 ^ 32 }
    requires whole { name_len + padding_len name_len ≤ length bytes.now }
    ensures name { IfOk result (λ name. name_in name_len bytes.now ≡ Ok name.now) }
    ensures is_name { IfOk result (λ name. IsEntryName name.now) }
    ensures fault { IfErr result (λ fault. name_in name_len bytes.now ≡ Err fault) }
{
    let zeros = padding(name_len);
    let (name, behind) = bytes.split_at(name_len);
    if &behind[..zeros.len()] != zeros {
        return Err(WireFault::BadBody);
    }
    match name_fault(name) {
        Some(fault) => Err(WireFault::BadName(fault)),
        None => Ok(name),
    }
}
