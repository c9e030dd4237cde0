//! Where the bytes of files come from.
ghost use Rattle.std.specs.Prelude.{List, ℕ, Result};
ghost use Rattle.std.specs.Option.{IfSome};
ghost use Rattle.fuse_wire.specs.declared.reply.Extent.{Extent as ExtentValue};
ghost use Rattle.blob_store.specs.Reads.{IsGiven, IsStarted};
ghost use Rattle.blob_store.specs.declared.blob_store.BlobFault.{BlobFault as FaultValue};

use fuse_wire::{Buffer, Extent};
use std::alloc::Global;
use std::fmt::{self, Display, Formatter};
use std::time::Duration;

/// Why a store gave no bytes.
#[derive(Clone, Copy, PartialEq, Eq)]
pub enum BlobFault {
    /// Memory for the bytes was refused.
    NoMemory,
    /// The store has no such bytes, can't reach them, or took too long.
    Failed,
}

/// Why a read is ended that is not over.
#[derive(Clone, Copy)]
pub enum ReadEnding {
    /// As many replies wait in the channel of its worker as may.
    TooMany,
    /// The daemon ends.
    DaemonEnds,
}

impl Display for ReadEnding {
    fn fmt<W: fmt::Write>(&self, f: &mut Formatter<W>) -> fmt::Result {
        f.write_str(match self {
            ReadEnding::TooMany => "too many reads of this worker wait",
            ReadEnding::DaemonEnds => "the daemon ends",
        })
    }
}

/// A read that goes on: the part of a file that is read, and the number by which its store knows the read.
#[derive(Clone, Copy)]
pub struct PendingRead {
    pub extent: Extent,
    pub ticket: u64,
}

/// A read that was started.
#[derive(Drop)]
pub enum StartedRead {
    /// It is over, and gave this.
    Done(Result<Buffer, BlobFault>),
    /// It goes on.
    Pending(PendingRead),
}

/// A store of blobs. A blob is all the bytes of one file. Each implementation says by `reads` what a read of it gives: all
/// bytes of a part, or why there are none.
///
/// A read whose bytes aren't at hand goes on, and its caller may do something else meanwhile. Each read that goes on is
/// ended: by a `poll_read` that says what it gave, or by `end_read`.
pub trait BlobStore {
    /// Relates the store and a part of a file to the bytes that the store has there, or to why it gives none.
    ghost reads: { Self → ExtentValue → Result (List ℕ) FaultValue → Type 0 };

    /// Starts to read a part of a file, and waits for nothing.
    fn start_read(&self, alloc: Global, extent: &Extent) -> StartedRead
        ensures started { IsStarted (reads self.now) extent.now result };

    /// Waits for a read for `longest` at most, and returns what it gave, if it is over.
    fn poll_read(
        &self,
        alloc: Global,
        read: &PendingRead,
        longest: Duration,
    ) -> Option<Result<Buffer, BlobFault>>
        ensures polled { IfSome result (IsGiven (reads self.now) read.now.extent) };

    /// Waits for a read for `longest` at most, and returns what it gave. One that is not over then fails, for the cause
    /// `ending`.
    fn end_read(
        &self,
        alloc: Global,
        read: &PendingRead,
        longest: Duration,
        ending: ReadEnding,
    ) -> Result<Buffer, BlobFault>
        ensures ended { IsGiven (reads self.now) read.now.extent result };
}

impl<S: BlobStore> BlobStore for &S {
    ghost reads = { λ store extent result. S.reads store.now extent result };

    fn start_read(&self, alloc: Global, extent: &Extent) -> StartedRead {
        (**self).start_read(alloc, extent)
    }

    fn poll_read(
        &self,
        alloc: Global,
        read: &PendingRead,
        longest: Duration,
    ) -> Option<Result<Buffer, BlobFault>> {
        (**self).poll_read(alloc, read, longest)
    }

    fn end_read(
        &self,
        alloc: Global,
        read: &PendingRead,
        longest: Duration,
        ending: ReadEnding,
    ) -> Result<Buffer, BlobFault> {
        (**self).end_read(alloc, read, longest, ending)
    }
}
