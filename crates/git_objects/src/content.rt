//! The bytes of a blob.
ghost use Rattle.std.specs.Prelude.{◌≡◌, length, IfOk};
ghost use Rattle.byte_codec.specs.Bytes.{range_of};
ghost use Rattle.git_objects.specs.Content.{HasPart, IsSame, is_in_file};

use crate::fault::ObjectFault;
use byte_codec::Bytes;
use eden_base::NoMemory;
use std::alloc::Global;
use std::fs::File;
use std::io::{Error, ErrorKind};
use std::os::unix::fs::FileExt;
use std::sync::Arc;

/// The bytes of a blob. Its owners share them.
#[derive(Drop)]
pub(crate) enum Content {
    InMemory(Arc<Vec<u8>>),
    /// A file of the system that has no name any more.
    InFile(Arc<File>),
}

impl Content {
    /// Returns one more owner of the same bytes.
    pub(crate) fn share(&self) -> Result<Content, NoMemory>
        ensures same { IfOk result (IsSame self.now) }
    {
        match self {
            Content::InMemory(bytes) => Ok(Content::InMemory(Arc::try_clone(bytes)?)),
            Content::InFile(file) => Ok(Content::InFile(Arc::try_clone(file)?)),
        }
    }

    /// Returns whether the bytes are in a file.
    pub(crate) fn is_in_file(&self) -> bool
        ensures { result ≡ is_in_file self.now }
    {
        matches!(self, Content::InFile(_))
    }

    /// Returns the `len` bytes from `offset` on. Those in memory are not copied.
    pub(crate) fn part(&self, alloc: Global, offset: u64, len: usize) -> Result<Bytes, ObjectFault>
        ensures part { IfOk result (HasPart self.now offset len) }
    {
        match self {
            Content::InMemory(bytes) => shared_part(bytes, offset, len),
            Content::InFile(file) => file_part(alloc, file, offset, len),
        }
    }
}

/// Returns the `len` bytes of `bytes` from `offset` on, which are not copied.
fn shared_part(bytes: &Arc<Vec<u8>>, offset: u64, len: usize) -> Result<Bytes, ObjectFault>
    ensures part { IfOk result (λ part. part ≡ range_of offset len bytes.now.value.items) }
    ensures len { IfOk result (λ part. length part ≡ len) }
{
    let size = bytes.len();
    if offset > size as u64 || len > size - offset as usize {
        return Err(ObjectFault::Beyond);
    }
    match Bytes::shared(bytes, offset as usize, len) {
        Ok(part) => Ok(part),
        Err(_refused) => Err(ObjectFault::NoMemory),
    }
}

/// Reads the `len` bytes of `file` from `offset` on.
fn file_part(alloc: Global, file: &File, offset: u64, len: usize) -> Result<Bytes, ObjectFault>
    ensures len { IfOk result (λ part. length part ≡ len) }
{
    let Ok(mut bytes) = Vec::with_capacity(alloc, len) else {
        return Err(ObjectFault::NoMemory);
    };
    if bytes.resize(len, 0).is_err() {
        return Err(ObjectFault::NoMemory);
    }
    match file.read_exact_at(bytes.as_mut_slice(), offset) {
        Ok(()) => Ok(Bytes::of(bytes)),
        Err(error) => Err(unread(error)),
    }
}

/// Returns the fault of a file that can't be read for `error`.
fn unread(error: Error) -> ObjectFault {
    match error.kind() {
        ErrorKind::UnexpectedEof => ObjectFault::Beyond,
        _ => ObjectFault::NoSpool(error),
    }
}
