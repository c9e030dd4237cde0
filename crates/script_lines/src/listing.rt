//! The lines of a buffer: the entries of a directory, one a line.
ghost use Rattle.std.specs.Prelude.{◌≡◌, List, length, OnOk, Some};
ghost use Rattle.std.specs.Io.KnownBytes.{Appends};
ghost use Rattle.std.specs.Option.{option_map};
ghost use Rattle.fuse_wire.specs.DirectoryEntries.{Dirent};
ghost use Rattle.script_lines.specs.Listed.{listing_of};
ghost use Rattle.script_lines.specs.Printed.{buffer_lines, entry_line, entry_lines};

use fuse_wire::{DirectoryEntry, Entries};
use std::io::{self, Write};

/// Prints bytes: the entries of a directory if they are such, or else how many they are.
pub(crate) fn print_buffer<W: Write>(out: &mut W, bytes: &[u8]) -> io::Result<()>
    ensures { OnOk result (Appends (W.contents out.old) (W.contents out.new)
        (buffer_lines bytes.now (listing_of bytes.now))) }
{
    match entry_count(bytes) {
        Some(count) => {
            writeln!(out, "listing {count}")?;
            print_entries(out, bytes)
        }
        None => {
            let len = bytes.len();
            writeln!(out, "buffer {len}")
        }
    }
}

/// Returns how many entries `bytes` are, or none if they are something else.
fn entry_count(bytes: &[u8]) -> Option<usize>
    ensures { result ≡ option_map length (listing_of bytes.now) }
{
    let mut entries = Entries::of(bytes);
    let mut count = 0;
    while let Some(_entry) = entries.next_entry().ok()? {
        count += 1;
    }
    Some(count)
}

/// Prints a line for each of the entries that `bytes` are.
fn print_entries<W: Write>(out: &mut W, bytes: &[u8]) -> io::Result<()>
    ensures { (listed : List Dirent) → listing_of bytes.now ≡ Some listed
        → OnOk result (Appends (W.contents out.old) (W.contents out.new) (entry_lines listed)) }
{
    let mut entries = Entries::of(bytes);
    while let Ok(Some(entry)) = entries.next_entry() {
        print_entry(out, &entry)?;
    }
    Ok(())
}

/// Prints an entry. A name is written byte for byte.
fn print_entry<W: Write>(out: &mut W, entry: &DirectoryEntry<'_>) -> io::Result<()>
    ensures { OnOk result (Appends (W.contents out.old) (W.contents out.new)
        (entry_line entry.now)) }
{
    let number = entry.number;
    let next = entry.next;
    let kind = entry.kind.name();
    write!(out, "listed {number} {next} {kind} ")?;
    out.write_all(entry.name)?;
    out.write_all(b"\n")
}
