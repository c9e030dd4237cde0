//! The entries of one answer to READDIR.
ghost use Rattle.std.specs.Prelude.{◌≡◌, ◌+◌, ◌≤◌, ◌↔◌, List, [], ◌∷◌, ◌++◌, length, min, true, false, IfOk, IsTrue};
ghost use Rattle.fuse_wire.specs.DirectoryEntries.{entries_text, entry_text, Dirent, FitsDirent};

use crate::{Buffer, DirectoryEntry};
use byte_codec::Bytes;
use eden_base::NoMemory;
use std::alloc::Global;
use std::marker::Model;

/// The entries of one answer, in order, and how many bytes they may have. Contracts see a `Listed`.
#[derive(Drop)]
pub struct Listing {
    bytes: Vec<u8>,
    room: usize,
}

impl Model for Listing {
    ghost use Rattle.std.specs.Prelude.{◌≤◌, vec_len, vec_capacity};
    ghost use Rattle.fuse_wire.specs.DirectoryEntries.{Listed};

    ghost Value = { Listed };

    ghost view = { λ listing. record { bytes = listing.bytes.items; room = listing.room } };

    ghost invariant = { λ listing. (vec_len listing.bytes ≤ listing.room) × (listing.room ≤ vec_capacity listing.bytes) × (listing.room ≤ 65512) };
}

impl Listing {
    /// Makes a listing without entries, with room for `size` bytes, but for no more than a `Buffer` has. Takes the memory
    /// for all of them.
    pub fn with_room(alloc: Global, size: u32) -> Result<Listing, NoMemory>
        ensures empty { IfOk result (λ listing. listing.bytes ≡ []) }
        ensures room { IfOk result (λ listing. listing.room ≡ min size 65512) }
    {
        let room = (size as usize).min(Buffer::MAX_LEN);
        match Vec::with_capacity(alloc, room) {
            Ok(bytes) => Ok(Listing { bytes, room }),
            Err(_refused) => Err(NoMemory),
        }
    }

    /// Appends `entry` if it fits in the room that is left, and returns whether it does. Takes no memory.
    pub fn push(&mut self, entry: &DirectoryEntry) -> bool
        ensures fits { IsTrue result ↔ (length self.old.bytes + length (entry_text entry.now) ≤ self.old.room) }
        ensures pushed { result ≡ true → self.new.bytes ≡ self.old.bytes ++ entry_text entry.now }
        ensures refused { result ≡ false → self.new.bytes ≡ self.old.bytes }
        ensures room { self.new.room ≡ self.old.room }
        ensures entries { (entries : List Dirent) → self.old.bytes ≡ entries_text entries → result ≡ true
            → self.new.bytes ≡ entries_text (entries ++ entry.now ∷ []) }
        ensures entry_fits { result ≡ true → FitsDirent entry.now }
    {
        if entry.text_len() > self.room - self.bytes.len() {
            return false;
        }
        entry.put(&mut self.bytes);
        true
    }

    /// Returns the bytes of the entries, in the same memory.
    pub fn into_buffer(self) -> Buffer
        ensures bytes { result ≡ self.bytes }
    {
        let Listing { bytes, room: _ } = self;
        let Some(buffer) = Buffer::of(Bytes::of(bytes)) else {
            unreachable!()
        };
        buffer
    }
}
