//! One entry of a directory, as an answer to READDIR has it.
ghost use Rattle.std.specs.Prelude.{◌≡◌, ◌<◌, ◌≤◌, ◌^◌, ◌*◌, ◌↔◌, length, IfOk, IfErr, IsOk, Some};
ghost use Rattle.byte_codec.specs.Writing.{HasRoom, Puts};
ghost use Rattle.fuse_wire.specs.DirectoryEntries.{entry_len, entry_name_fault, entry_text, entry_type, fixed_part, padding_len, FitsDirent, IsEntryName};
ghost use Rattle.fuse_wire.specs.Field.{zeros};
ghost use Rattle.fuse_wire.specs.Mode.{type_bits};

use crate::layout::{DIRENT_ALIGN, DIRENT_FIXED};
use crate::writer::MessageWriter;
use byte_codec::put_slice;
use eden_base::{Kind, Name, NameFault};
use std::marker::Model;

/// The type of a directory (`dirent.h`).
pub(crate) const DT_DIR: u32 = 4;

/// The type of a regular file.
pub(crate) const DT_REG: u32 = 8;

/// The type of a symbolic link.
pub(crate) const DT_LNK: u32 = 10;

/// The longest padding, and one byte more.
static ZEROS: [u8; DIRENT_ALIGN] = [0; DIRENT_ALIGN];

/// An entry of a directory (`struct fuse_dirent`). The name may be `.` or `..`, and is lent. Contracts see a `Dirent`.
#[derive(Drop)]
pub struct DirectoryEntry<'a> {
    /// The inode number of the file.
    pub number: u64,
    /// The offset from which the entry after this one is asked for.
    pub next: u64,
    pub kind: Kind,
    pub name: &'a [u8],
}

impl<'a> Model for DirectoryEntry<'a> {
    ghost use Rattle.fuse_wire.specs.DirectoryEntries.{Dirent, IsEntryName};

    ghost Value = { Dirent };

    ghost view = { λ entry. record { number = entry.number; next = entry.next; kind = entry.kind; name = entry.name.now } };

    ghost invariant = { λ entry. IsEntryName entry.name.now };
}

impl<'a> DirectoryEntry<'a> {
    /// Makes an entry, or returns why `name` is no name of one. `Dots` and `NoMemory` are never returned.
    pub fn of(
        number: u64,
        next: u64,
        kind: Kind,
        name: &'a [u8],
    ) -> Result<DirectoryEntry<'a>, NameFault>
        ensures entry { IfOk result (λ entry. entry ≡ record { number = number; next = next; kind = kind; name = name.now }) }
        ensures accepted { IsOk result ↔ IsEntryName name.now }
        ensures refused { IfErr result (λ fault. entry_name_fault name.now ≡ Some fault) }
    {
        if let Some(fault) = name_fault(name) {
            return Err(fault);
        }
        Ok(DirectoryEntry {
            number,
            next,
            kind,
            name,
        })
    }

    /// Returns the length of the text of the entry.
    pub(crate) fn text_len(&self) -> usize
        ensures len { result ≡ length (entry_text self.now) }
        ensures at_most { result ≤ 280 }
    {
        entry_len(self.name.len())
    }

    /// Appends the text of the entry to `out`.
    #[tactic(auto, using(crate::proofs::DirectoryEntries::entries, byte_codec::proofs::WriteLemmas::fields_written))]
    pub(crate) fn put(&self, out: &mut Vec<u8>)
        requires room { HasRoom out.old (length (entry_text self.now)) }
        ensures text { Puts out.old out.new (entry_text self.now) }
        ensures fits { FitsDirent self.now }
    {
        put_slice(out, &self.fixed_part());
        put_slice(out, self.name);
        put_slice(out, padding(self.name.len()));
    }

    /// Returns what stands before the name.
    fn fixed_part(&self) -> [u8; DIRENT_FIXED]
        ensures text { result ≡ fixed_part self.now }
        ensures fits { FitsDirent self.now }
    {
        let mut bytes = [0u8; DIRENT_FIXED];
        self.put_fixed_part(&mut bytes);
        bytes
    }

    /// Writes what stands before the name into `bytes`.
    #[tactic(auto, using(crate::proofs::Written::written))]
    fn put_fixed_part(&self, bytes: &mut [u8])
        requires { length bytes.old ≡ 24 }
        ensures text { bytes.new ≡ fixed_part self.now }
        ensures fits { FitsDirent self.now }
    {
        let mut fields = MessageWriter::new(bytes);
        fields.put_u64(self.number);
        fields.put_u64(self.next);
        fields.put_u32(self.name.len() as u32);
        fields.put_u32(entry_type(self.kind));
    }
}

/// Returns why `bytes` are no name of an entry, or none if they are one.
pub(crate) fn name_fault(bytes: &[u8]) -> Option<NameFault>
    ensures { result ≡ entry_name_fault bytes.now }
{
    match Name::fault(bytes) {
        Some(NameFault::Dots) => None,
        fault => fault,
    }
}

/// Returns the length of an entry whose name has `name_len` bytes.
pub(crate) fn entry_len(name_len: usize) -> usize
    requires { name_len < 2 ^ 32 }
    ensures { result ≡ entry_len name_len }
{
    (DIRENT_FIXED + name_len + DIRENT_ALIGN - 1) / DIRENT_ALIGN * DIRENT_ALIGN
}

/// Returns the zeros that stand behind a name of `name_len` bytes.
#[tactic(auto, using(crate::proofs::DirectoryEntries::entries))]
pub(crate) fn padding(name_len: usize) -> &'static [u8]
    requires { name_len < 2 ^ 32 }
    ensures { result.now ≡ zeros (padding_len name_len) }
{
    &ZEROS[..entry_len(name_len) - DIRENT_FIXED - name_len]
}

/// Returns the type of an entry of this kind: the kind's type bits in a mode, without the twelve bits below them.
fn entry_type(kind: Kind) -> u32
    ensures value { result ≡ entry_type kind }
    ensures shifted { result * 2 ^ 12 ≡ type_bits kind }
{
    match kind {
        Kind::File => DT_REG,
        Kind::Dir => DT_DIR,
        Kind::Link => DT_LNK,
    }
}
