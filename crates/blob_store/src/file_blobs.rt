//! The files of a directory as blobs.
ghost use Rattle.std.specs.Prelude.{◌≡◌, ◌+◌, ◌<◌, ◌^◌, length, IfOk, OnOk};
ghost use Rattle.blob_store.specs.FileBlobs.{IsWithin, ReadsFiles};
ghost use Rattle.blob_store.specs.Reads.{IsChecked, IsGiven};

use crate::blob_store::BlobFault;
use crate::byte_file::read_part;
use crate::extent_line::line_within;
use crate::failure_notes::FailureNotes;
use crate::file_path::path_of;
use crate::filling::filled_part;
use byte_codec::Bytes;
use eden_base::{Kind, NoMemory};
use fuse_wire::{Buffer, Extent};
use manifest::Manifest;
use non_blocking::Notes;
use std::alloc::Global;
use std::fmt::Display;
use std::fs::{self, File};
use std::io::{self, Error, ErrorKind};
use std::os::fd::AsRawFd;
use std::path::AsPath;
use std::rt::{Clock, Files};
use std::str;
use std::sync::Wait;

/// The store of a directory: the blob of a file stands there under the path that the manifest says. The directory is
/// held open, so that it is found even where it is renamed, or something is mounted over it.
#[derive(Drop)]
pub struct FileBlobs<R> {
    rt: R,
    manifest: Manifest,
    folder: File,
    failures: FailureNotes,
}

impl<R: Files<File = File> + Clock + Wait> FileBlobs<R> {
    /// Makes the store of the open directory `folder` for the files of `manifest`. It says by `notes` which files it can't
    /// read.
    pub fn new(rt: R, alloc: Global, folder: File, manifest: Manifest, notes: Notes) -> FileBlobs<R>
    where
        R: Drop,
        ensures manifest { result.manifest ≡ manifest }
    {
        FileBlobs {
            rt,
            manifest,
            folder,
            failures: FailureNotes::new(alloc, notes),
        }
    }

    /// Returns where `path` below the directory is found.
    fn place_of(&self, alloc: Global, path: &[u8]) -> io::Result<String> {
        let Ok(path) = str::from_utf8(path) else {
            return Err(Error::new(ErrorKind::InvalidData, "its path is not UTF-8"));
        };
        let folder = self.folder.as_raw_fd();
        Ok(format!(in alloc; "/proc/self/fd/{folder}/{path}")?)
    }

    /// Reads a part of the regular file at `place`. Zeros stand for what is behind its end. Fails if it is no regular file:
    /// opening a pipe would wait.
    fn read_file(&self, alloc: Global, place: &str, extent: &Extent) -> io::Result<Vec<u8>>
        requires fits { extent.now.offset + extent.now.len < 2 ^ 64 }
        ensures whole { IfOk result (λ bytes. length bytes.items ≡ extent.now.len) }
    {
        if !fs::symlink_metadata(&self.rt, place)?.is_file() {
            return Err(Error::new(ErrorKind::InvalidData, "it is not a regular file"));
        }
        let file = File::open(&self.rt, place)?;
        read_part(alloc, &file, extent.offset, extent.len as usize)
    }

    /// Reads a part of the target of the symbolic link at `place`, which is not followed. Zeros stand for what is behind its
    /// end. Fails if it is no link.
    fn read_target(&self, alloc: Global, place: &str, extent: &Extent) -> io::Result<Vec<u8>>
        ensures whole { IfOk result (λ bytes. length bytes.items ≡ extent.now.len) }
    {
        let target = self.rt.read_link(alloc, place)?;
        let bytes = target.path_text().as_bytes();
        match filled_part(alloc, bytes, extent.offset, extent.len as usize) {
            Ok(part) => Ok(part),
            Err(NoMemory) => Err(Error::from(ErrorKind::OutOfMemory)),
        }
    }

    /// Reads a part of a file or of a link's target.
    fn fetch(&self, alloc: Global, extent: &Extent) -> io::Result<Buffer>
        ensures within { OnOk result (IsWithin self.now.manifest extent.now) }
        ensures whole { IfOk result (λ bytes. length bytes ≡ extent.now.len) }
    {
        let Some(line) = line_within(&self.manifest, extent) else {
            return Err(Error::from(ErrorKind::InvalidInput));
        };
        let path = path_of(alloc, self.manifest.lines(), extent.file)?;
        let place = self.place_of(alloc, path.as_slice())?;
        let bytes = match line.kind {
            Kind::Link => self.read_target(alloc, place.as_str(), extent)?,
            _ => self.read_file(alloc, place.as_str(), extent)?,
        };
        match Buffer::of(Bytes::of(bytes)) {
            Some(buffer) => Ok(buffer),
            None => Err(Error::from(ErrorKind::InvalidInput)),
        }
    }

    /// Reads a part of a file or of a link's target, for as long as the system takes. A file that can't be read is said.
    pub(crate) fn read(&self, alloc: Global, extent: &Extent) -> Result<Buffer, BlobFault>
        ensures given { IsGiven (ReadsFiles self.now.manifest) extent.now result }
    {
        match self.fetch(alloc, extent) {
            Ok(buffer) => Ok(buffer),
            Err(error) if error.kind() == ErrorKind::OutOfMemory => Err(BlobFault::NoMemory),
            Err(error) => {
                self.say(extent, error);
                Err(BlobFault::Failed)
            }
        }
    }

    /// Says on standard error that a file can't be read for `cause`.
    pub(crate) fn say<D: Display + Drop>(&self, extent: &Extent, cause: D) {
        self.failures
            .say(&self.rt, &self.manifest, extent.file, cause);
    }

    /// Returns what a thread that read a part of a file gave, if a read of it may give that, and else fails.
    pub(crate) fn checked(
        &self,
        extent: &Extent,
        given: Result<Buffer, BlobFault>,
    ) -> Result<Buffer, BlobFault>
        ensures given { IsGiven (ReadsFiles self.now.manifest) extent.now result }
        ensures checked { IsChecked (ReadsFiles self.now.manifest) extent.now given result }
    {
        let bytes = given?;
        if bytes.as_slice().len() != extent.len as usize {
            return Err(BlobFault::Failed);
        }
        match line_within(&self.manifest, extent) {
            Some(_line) => Ok(bytes),
            None => Err(BlobFault::Failed),
        }
    }
}
