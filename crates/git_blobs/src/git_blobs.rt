//! The blobs of a commit's files.
ghost use Rattle.std.specs.Prelude.{◌≡◌, Err, IfOk, OnOk};
ghost use Rattle.blob_store.specs.FileBlobs.{IsWithin};
ghost use Rattle.blob_store.specs.declared.blob_store.BlobFault.TheVariants.{Failed};
ghost use Rattle.blob_store.specs.Reads.{IsGiven};
ghost use Rattle.git_blobs.specs.Serving.{IsOfFile, IsPartFor, ReadsCommit, blob_of};

use crate::read_order::ReadOrder;
use blob_store::{
    BlobFault, BlobStore, FailureNotes, PendingRead, ReadEnding, StartedRead, line_within,
};
use byte_codec::Bytes;
use eden_base::{FileId, Kind};
use fuse_wire::{Buffer, Extent};
use git_objects::{BlobPart, GitObjects, ObjectFault, PendingPart, Sought, StartedPart};
use git_tree::Objects;
use manifest::{Manifest, line_of};
use monitor::Monitor;
use std::alloc::Global;
use std::fmt::Display;
use std::rt::Clock;
use std::sync::Wait;
use std::time::Duration;

/// The store of a commit: the blob of a file is the object that the commit's tree names for it.
#[derive(Drop)]
pub struct GitBlobs<'a, R> {
    rt: &'a R,
    manifest: Manifest,
    names: Objects,
    objects: GitObjects,
    order: Monitor<ReadOrder>,
    failures: FailureNotes,
}

impl<'a, R: Clock + Wait> GitBlobs<'a, R> {
    /// Makes the store of the files of `manifest`, whose objects have the names `names`, in a repository. It says by `failures`
    /// which files it can't read.
    pub fn new(
        rt: &'a R,
        manifest: Manifest,
        names: Objects,
        objects: GitObjects,
        failures: FailureNotes,
    ) -> GitBlobs<'a, R>
        ensures manifest { result.manifest ≡ manifest }
        ensures names { result.names ≡ names }
        ensures objects { result.objects ≡ objects }
    {
        GitBlobs {
            rt,
            manifest,
            names,
            objects,
            order: Monitor::new(ReadOrder::new()),
            failures,
        }
    }

    /// Returns the part of an object that an extent is.
    fn part_of(&self, extent: &Extent) -> Result<BlobPart, ObjectFault>
        ensures within { OnOk result (IsWithin self.now.manifest extent.now) }
        ensures part { IfOk result (IsPartFor self.now.manifest self.now.names extent.now) }
    {
        let Some(line) = line_within(&self.manifest, extent) else {
            return Err(ObjectFault::Beyond);
        };
        let Some(name) = self.names.of(extent.file) else {
            return Err(ObjectFault::Missing);
        };
        let object = name.0;
        Ok(BlobPart {
            object,
            size: line.size,
            offset: extent.offset,
            len: extent.len as usize,
        })
    }

    /// Asks for the blobs that are read next, where files are read one after another: somebody reads `file`.
    fn read_ahead(&self, file: FileId) {
        let ahead = self.order.lock(self.rt).read(file);
        for place in ahead.from..ahead.to {
            let next = FileId(file.0.saturating_add(place).saturating_add(1));
            if let Some(blob) = self.blob_of(next) {
                self.objects.ask_ahead(self.rt, blob);
            }
        }
    }

    /// Returns the blob with the bytes of `file`, if that is a regular file or a link.
    fn blob_of(&self, file: FileId) -> Option<Sought>
        ensures blob { result ≡ blob_of self.now.manifest self.now.names file }
    {
        let line = line_of(self.manifest.lines(), file)?;
        if matches!(line.kind, Kind::Dir) {
            return None;
        }
        let object = self.names.of(file)?.0;
        Some(Sought {
            object,
            size: line.size,
        })
    }

    /// Returns what a read of an extent gives, by what git gave of the object's part. A fault is said.
    fn given_by(
        &self,
        extent: &Extent,
        told: Result<Bytes, ObjectFault>,
    ) -> Result<Buffer, BlobFault>
        requires told { IfOk told (IsOfFile self.now.manifest self.now.names self.now.objects extent.now) }
        ensures given { IsGiven (ReadsCommit self.now.manifest self.now.names self.now.objects) extent.now result }
    {
        let fault = match told {
            Ok(bytes) => match Buffer::of(bytes) {
                Some(buffer) => return Ok(buffer),
                None => ObjectFault::Beyond,
            },
            Err(ObjectFault::NoMemory) => return Err(BlobFault::NoMemory),
            Err(fault) => fault,
        };
        self.failed(extent, fault)
    }

    /// Says that a file can't be read for `cause`, and returns that its read failed.
    fn failed<D: Display + Drop>(&self, extent: &Extent, cause: D) -> Result<Buffer, BlobFault>
        ensures failed { result ≡ Err Failed }
    {
        self.failures
            .say(self.rt, &self.manifest, extent.file, cause);
        Err(BlobFault::Failed)
    }
}

impl<R: Clock + Wait> BlobStore for GitBlobs<'_, R> {
    ghost reads = { λ store extent result. ReadsCommit store.manifest store.names store.objects extent result };

    #[tactic(auto, using(crate::proofs::OfFile::of_file))]
    fn start_read(&self, alloc: Global, extent: &Extent) -> StartedRead {
        let part = match self.part_of(extent) {
            Ok(part) => part,
            Err(fault) => return StartedRead::Done(self.given_by(extent, Err(fault))),
        };
        let started = self.objects.start_read(self.rt, alloc, part);
        self.read_ahead(extent.file);
        match started {
            StartedPart::Done(told) => StartedRead::Done(self.given_by(extent, told)),
            StartedPart::Pending(pending) => StartedRead::Pending(PendingRead {
                extent: *extent,
                ticket: pending.ticket,
            }),
        }
    }

    #[tactic(auto, using(crate::proofs::OfFile::of_file))]
    fn poll_read(
        &self,
        alloc: Global,
        read: &PendingRead,
        longest: Duration,
    ) -> Option<Result<Buffer, BlobFault>> {
        let part = match self.part_of(&read.extent) {
            Ok(part) => part,
            Err(fault) => return Some(self.given_by(&read.extent, Err(fault))),
        };
        let pending = PendingPart {
            part,
            ticket: read.ticket,
        };
        let told = self.objects.poll_read(self.rt, alloc, pending, longest)?;
        Some(self.given_by(&read.extent, told))
    }

    #[tactic(auto, using(crate::proofs::OfFile::of_file))]
    fn end_read(
        &self,
        alloc: Global,
        read: &PendingRead,
        longest: Duration,
        ending: ReadEnding,
    ) -> Result<Buffer, BlobFault> {
        let part = match self.part_of(&read.extent) {
            Ok(part) => part,
            Err(fault) => return self.given_by(&read.extent, Err(fault)),
        };
        let pending = PendingPart {
            part,
            ticket: read.ticket,
        };
        match self.objects.end_read(self.rt, alloc, pending, longest) {
            Some(told) => self.given_by(&read.extent, told),
            None => self.failed(&read.extent, ending),
        }
    }
}
