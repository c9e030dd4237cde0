//! Threads that read the files of a directory.
ghost use Rattle.std.specs.Prelude.{◌≡◌, Err, IfOk};
ghost use Rattle.std.specs.Arc.{arc_value};
ghost use Rattle.blob_store.specs.declared.blob_store.BlobFault.TheVariants.{Failed};
ghost use Rattle.blob_store.specs.FileBlobs.{ReadsFiles};
ghost use Rattle.blob_store.specs.Reads.{IsGiven};
ghost use Rattle.blob_store.specs.FileReadPool.{manifest_of};

use crate::blob_store::{BlobFault, BlobStore, PendingRead, ReadEnding, StartedRead};
use crate::file_blobs::FileBlobs;
use crate::read_table::{ReadEnd, ReadTable, ended_by};
use eden_base::NoMemory;
use fuse_wire::{Buffer, Extent};
use monitor::{Condition, Look, Monitor, Patience};
use std::alloc::Global;
use std::fmt::Display;
use std::fs::File;
use std::rt::{Clock, Files};
use std::sync::{Arc, Wait};
use std::thread::Threads;
use std::time::{Duration, Instant};
use std::{io, thread};

/// How many seconds a read may take at most.
const LONGEST_READ: u64 = 20;

/// The files of a directory, which threads of their own read: so a read that the system doesn't end stops nobody but who
/// asked for it.
#[derive(Drop)]
pub struct FileReadPool<R> {
    rt: R,
    alloc: Global,
    files: FileBlobs<R>,
    table: Monitor<ReadTable>,
    /// A read was started.
    started: Condition,
    /// A read has ended.
    ended: Condition,
}

impl<R: Files<File = File> + Clock + Wait> FileReadPool<R> {
    /// Starts `threads` threads that read `files`.
    pub fn start(
        rt: &R,
        alloc: Global,
        files: FileBlobs<R>,
        threads: usize,
    ) -> io::Result<Arc<FileReadPool<R>>>
    where
        R: Threads + Copy + Send + Sync + 'static,
        R::Dir: Send + Sync,
        ensures manifest { IfOk result (λ pool. manifest_of (arc_value pool) ≡ files.manifest) }
    {
        let pool = Arc::new(
            alloc,
            FileReadPool {
                rt: *rt,
                alloc,
                files,
                table: Monitor::new(ReadTable::new(alloc)),
                started: Condition::new(),
                ended: Condition::new(),
            },
        )?;
        for _thread in 0..threads {
            let theirs = Arc::try_clone(&pool)?;
            thread::spawn(rt, move || theirs.read_all())?;
        }
        Ok(pool)
    }

    /// Reads what is started, as long as this process runs.
    fn read_all(&self) {
        for _ in self.rt.forever() {
            let read = self.table.wait_until(&self.rt, &self.started, |table| {
                Look::of(table.next())
            });
            let given = self.files.read(self.alloc, &read.extent);
            self.table.change(&self.rt, &self.ended, |table| {
                table.end(read.ticket, given)
            });
        }
    }

    /// Waits for a read for `longest` at most, and returns how it ended, if it did.
    fn wait(&self, ticket: u64, longest: Duration) -> Option<ReadEnd> {
        let mut patience = Patience::start(&self.rt, longest);
        self.table.wait_until(&self.rt, &self.ended, |table| {
            let now = Instant::now(&self.rt).ok();
            match table.look(ticket, now) {
                Some(end) => Look::Found(Some(end)),
                None if patience.is_over(now) => Look::Found(None),
                None => Look::Again(patience.slice()),
            }
        })
    }

    /// Returns what a read of a part of a file gave that ended so. One that gave nothing fails for its cause.
    fn given_by(&self, extent: &Extent, end: ReadEnd) -> Result<Buffer, BlobFault>
        ensures given { IsGiven (ReadsFiles (manifest_of self.now)) extent.now result }
    {
        match end {
            ReadEnd::Gave(given) => self.files.checked(extent, given),
            ReadEnd::Late => self.failed(extent, "it was not read in time"),
            ReadEnd::Cut(ending) => self.failed(extent, ending),
        }
    }

    /// Says that a file can't be read for `cause`, and returns that its read failed.
    fn failed<D: Display + Drop>(&self, extent: &Extent, cause: D) -> Result<Buffer, BlobFault>
        ensures failed { result ≡ Err Failed }
    {
        self.files.say(extent, cause);
        Err(BlobFault::Failed)
    }
}

impl<R: Files<File = File> + Clock + Wait> BlobStore for FileReadPool<R> {
    ghost reads = { λ pool extent result. ReadsFiles (manifest_of pool) extent result };

    fn start_read(&self, _alloc: Global, extent: &Extent) -> StartedRead {
        let patience = Patience::start(&self.rt, Duration::from_secs(LONGEST_READ));
        let started = self.table.lock(&self.rt).start(*extent, patience);
        match started {
            Ok(read) => {
                self.started.notify_one();
                StartedRead::Pending(read)
            }
            Err(NoMemory) => StartedRead::Done(Err(BlobFault::NoMemory)),
        }
    }

    fn poll_read(
        &self,
        _alloc: Global,
        read: &PendingRead,
        longest: Duration,
    ) -> Option<Result<Buffer, BlobFault>> {
        let end = self.wait(read.ticket, longest)?;
        Some(self.given_by(&read.extent, end))
    }

    fn end_read(
        &self,
        _alloc: Global,
        read: &PendingRead,
        longest: Duration,
        ending: ReadEnding,
    ) -> Result<Buffer, BlobFault> {
        let end = ended_by(self.wait(read.ticket, longest), ending);
        self.table.lock(&self.rt).forget(read.ticket);
        self.given_by(&read.extent, end)
    }
}
