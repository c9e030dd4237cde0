//! Files that are read at offsets.
ghost use Rattle.std.specs.Prelude.{◌≡◌, ◌≤◌, ◌<◌, ◌+◌, ◌^◌, ℕ, List, Option, None, length, IfOk};
ghost use Rattle.std.specs.Io.{ReadsAtMost};
ghost use Rattle.blob_store.specs.ByteFile.{Ends, GivesPart, Holds, ReadsAt};

use std::alloc::Global;
use std::fs::File;
use std::io::{self, Error, ErrorKind};
use std::os::unix::fs::FileExt;

/// How many reads are made for one part at most. A read that was interrupted counts.
pub const MAX_READS: usize = 131_072;

/// A file whose bytes are read at offsets.
pub trait ByteFile {
    /// The bytes of the file, where they are known.
    ghost contents: { Self → Option (List ℕ) } = { λ _. None };

    /// Reads bytes from `offset` on into the front of `buf`, and returns how many: 0 at the end, or with no room.
    fn read_at(&self, buf: &mut [u8], offset: u64) -> io::Result<usize>
        ensures bound { ReadsAtMost result buf.new }
        ensures bytes { IfOk result (λ count. ReadsAt (contents self.now) offset count buf.new) };
}

impl ByteFile for File {
    fn read_at(&self, buf: &mut [u8], offset: u64) -> io::Result<usize> {
        FileExt::read_at(self, buf, offset)
    }
}

/// Reads from `offset` on until `room` is full or the file ends, and returns how many bytes it has then.
#[tactic(auto, using(crate::proofs::PartReads::held_more, crate::proofs::PartReads::held_same, crate::proofs::PartReads::held_none))]
fn fill_at<F: ByteFile>(file: &F, room: &mut [u8], offset: u64) -> io::Result<usize>
    requires fits { offset + length room.old < 2 ^ 64 }
    ensures within { IfOk result (λ count. count ≤ length room.new) }
    ensures holds { IfOk result (λ count. Holds (F.contents file.now) offset count room.new) }
    ensures end { IfOk result (λ count. count < length room.new → Ends (F.contents file.now) (offset + count)) }
{
    let mut held = 0;
    for _read in 0..MAX_READS {
        if held == room.len() {
            return Ok(held);
        }
        match file.read_at(&mut room[held..], offset + held as u64) {
            Ok(0) => return Ok(held),
            Ok(count) => held += count,
            Err(error) if error.kind() == ErrorKind::Interrupted => {}
            Err(error) => return Err(error),
        }
    }
    Err(Error::from(ErrorKind::Interrupted))
}

/// Reads the `len` bytes of a file from `offset` on. Zeros stand for those behind its end.
pub fn read_part<F: ByteFile>(
    alloc: Global,
    file: &F,
    offset: u64,
    len: usize,
) -> io::Result<Vec<u8>>
    requires fits { offset + len < 2 ^ 64 }
    ensures len { IfOk result (λ bytes. length bytes.items ≡ len) }
    ensures part { IfOk result (λ bytes. GivesPart (F.contents file.now) offset len bytes.items) }
{
    let mut bytes = Vec::with_capacity(alloc, len)?;
    bytes.resize(len, 0)?;
    let held = fill_at(file, bytes.as_mut_slice(), offset)?;
    bytes.truncate(held);
    bytes.resize(len, 0)?;
    Ok(bytes)
}
