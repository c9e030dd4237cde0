//! Blobs in memory.
ghost use Rattle.std.specs.Prelude.{◌≡◌, length, Some, IfOk};
ghost use Rattle.std.specs.Option.{option_copied};
ghost use Rattle.blob_store.specs.MemoryBlobs.{ReadsBlob, blob_of};

use crate::blob_store::{BlobFault, BlobStore, PendingRead, ReadEnding, StartedRead};
use crate::filling::filled_part;
use byte_codec::Bytes;
use eden_base::{FileId, NoMemory};
use fuse_wire::{Buffer, Extent};
use std::alloc::Global;
use std::marker::Model;
use std::time::Duration;

/// The blob of one file in memory, and the size that the manifest says. Contracts see a `StoredBlob`.
#[derive(Drop)]
pub struct MemoryBlob {
    pub file: FileId,
    pub size: u64,
    pub bytes: Vec<u8>,
}

impl Model for MemoryBlob {
    ghost use Rattle.blob_store.specs.MemoryBlobs.{StoredBlob};

    ghost Value = { StoredBlob };

    ghost view = { λ blob. record { file = blob.file; size = blob.size; bytes = blob.bytes.items } };
}

impl MemoryBlob {
    /// Reads the `len` bytes of the blob from `offset` on.
    #[tactic(auto, using(crate::proofs::Parts::part_filled))]
    fn read(&self, alloc: Global, offset: u64, len: u32) -> Result<Buffer, BlobFault>
        ensures reads { ReadsBlob (Some self.now) offset len result }
    {
        if offset > self.size || u64::from(len) > self.size - offset {
            return Err(BlobFault::Failed);
        }
        match filled_part(alloc, self.bytes.as_slice(), offset, len as usize) {
            Ok(bytes) => match Buffer::of(Bytes::of(bytes)) {
                Some(buffer) => Ok(buffer),
                None => Err(BlobFault::Failed),
            },
            Err(NoMemory) => Err(BlobFault::NoMemory),
        }
    }
}

/// Blobs in memory, as tests have them: the first that names a file is that of the file.
#[derive(Drop)]
pub struct MemoryBlobs {
    pub blobs: Vec<MemoryBlob>,
}

impl MemoryBlobs {
    /// Reads a part of a file.
    fn read(&self, alloc: Global, extent: &Extent) -> Result<Buffer, BlobFault>
        ensures reads { ReadsBlob (blob_of self.now.blobs.items extent.now.file) extent.now.offset extent.now.len result }
        ensures whole { IfOk result (λ bytes. length bytes ≡ extent.now.len) }
    {
        match find(self.blobs.as_slice(), extent.file) {
            Some(blob) => blob.read(alloc, extent.offset, extent.len),
            None => Err(BlobFault::Failed),
        }
    }
}

/// Each read is over at once.
impl BlobStore for MemoryBlobs {
    ghost reads = { λ store extent result. ReadsBlob (blob_of store.blobs.items extent.file) extent.offset extent.len result };

    fn start_read(&self, alloc: Global, extent: &Extent) -> StartedRead {
        StartedRead::Done(self.read(alloc, extent))
    }

    fn poll_read(
        &self,
        alloc: Global,
        read: &PendingRead,
        _longest: Duration,
    ) -> Option<Result<Buffer, BlobFault>> {
        Some(self.read(alloc, &read.extent))
    }

    fn end_read(
        &self,
        alloc: Global,
        read: &PendingRead,
        _longest: Duration,
        _ending: ReadEnding,
    ) -> Result<Buffer, BlobFault> {
        self.read(alloc, &read.extent)
    }
}

/// Returns the blob of `file`, if there is one.
fn find(blobs: &[MemoryBlob], file: FileId) -> Option<&MemoryBlob>
    ensures first { option_copied result ≡ blob_of blobs.now file }
{
    for blob in blobs {
        if blob.file.0 == file.0 {
            return Some(blob);
        }
    }
    None
}
