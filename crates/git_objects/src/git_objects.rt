//! The blobs of a repository.
ghost use Rattle.std.specs.Prelude.{◌≡◌, ◌+◌, ◌≤◌, ◌↔◌, IfOk, IsTrue};
ghost use Rattle.std.specs.Option.{IfSome};
ghost use Rattle.git_objects.specs.Reading.{IsGiven, IsStarted, is_sought};

use crate::blob::Blob;
use crate::blob_cache::is_large;
use crate::desk::Asked;
use crate::duty::Duty;
use crate::fault::ObjectFault;
use crate::fetcher::Fetcher;
use crate::shared::Shared;
use crate::sought::Sought;
use byte_codec::Bytes;
use eden_base::NoMemory;
use std::alloc::Global;
use std::fs::File;
use std::io::{self, Error, ErrorKind};
use std::marker::Model;
use std::net::{Net, TcpListener, TcpStream};
use std::process::{Processes, SystemProcess};
use std::rt::{Clock, Files};
use std::sync::{Arc, Wait};
use std::thread;
use std::thread::Threads;
use std::time::Duration;

/// The duties of the threads that fetch, each by a process of git of its own.
const DUTIES: [Duty; 5] = [
    Duty::Large,
    Duty::Small,
    Duty::Small,
    Duty::Ahead,
    Duty::Ahead,
];

/// A part of a blob: the id of the object, the size that its tree says, and the bytes that are wanted.
#[derive(Clone, Copy)]
pub struct BlobPart {
    pub object: [u8; 20],
    pub size: u64,
    pub offset: u64,
    pub len: usize,
}

/// A part of a blob for which git was asked, and the ticket by which its read is known.
#[derive(Clone, Copy)]
pub struct PendingPart {
    pub part: BlobPart,
    pub ticket: u64,
}

/// A read of a part of a blob that was started.
#[derive(Drop)]
pub enum StartedPart {
    /// It is over: the bytes, or why there are none.
    Done(Result<Bytes, ObjectFault>),
    /// It waits for git.
    Pending(PendingPart),
}

/// The blobs of a repository. Threads fetch them, each by a process of git of its own: one those that are too large to be kept in
/// memory, two the others, and two those that nobody waits for yet.
#[derive(Drop)]
pub struct GitObjects {
    shared: Arc<Shared>,
}

impl Model for GitObjects {
    ghost use Rattle.std.specs.Prelude.{ℕ};

    ghost Value = { ℕ };

    ghost view = { λ objects. objects.shared.value.bound };
}

/// Returns whether `blob` is the one that is sought, and in a file exactly if one of its size is too large for memory.
fn is_sought(bound: u64, sought: Sought, blob: &Blob) -> bool
    ensures { result ≡ is_sought bound sought blob.now }
{
    blob.object.as_slice() == sought.object.as_slice()
        && blob.size == sought.size
        && blob.content.is_in_file() == is_large(sought.size, bound)
}

impl GitObjects {
    /// Makes the threads for the repository at the path `repository`. Blobs are kept within `bound` bytes, by which contracts
    /// know it.
    pub fn start<
        R: Threads
            + Wait
            + Clock
            + Files<File = File>
            + Net<Listener = TcpListener, Stream = TcpStream>
            + Processes<Started = SystemProcess>
            + Copy
            + Send
            + 'static,
    >(rt: &R, alloc: Global, repository: &str, bound: u64) -> io::Result<GitObjects>
    where
        R::Dir: Send,
        ensures bound { IfOk result (λ objects. objects ≡ bound) }
    {
        let shared = match Shared::new(alloc, repository, bound) {
            Ok(shared) => Arc::new(alloc, shared)?,
            Err(NoMemory) => return Err(Error::from(ErrorKind::OutOfMemory)),
        };
        for duty in DUTIES {
            start_fetcher(rt, alloc, &shared, duty)?;
        }
        Ok(GitObjects { shared })
    }

    /// Starts to read a part of a blob, and waits for nothing: git is asked for a blob that is not kept.
    pub fn start_read<R: Wait + Clock>(&self, rt: &R, alloc: Global, part: BlobPart) -> StartedPart
        ensures done { IsStarted self.now part result }
    {
        if !is_within(part) {
            return StartedPart::Done(Err(ObjectFault::Beyond));
        }
        match self.shared.ask(rt, sought_of(part)) {
            Ok(Asked::Here(blob)) => StartedPart::Done(self.part_of(alloc, part, blob)),
            Ok(Asked::Waits(ticket)) => StartedPart::Pending(PendingPart { part, ticket }),
            Err(NoMemory) => StartedPart::Done(Err(ObjectFault::NoMemory)),
        }
    }

    /// Asks for a blob before somebody reads it, if it is small. It is kept once it came; that it doesn't come is told to nobody.
    pub fn ask_ahead<R: Wait>(&self, rt: &R, sought: Sought) {
        self.shared.ask_ahead(rt, sought);
    }

    /// Waits for a part of a blob for `longest` at most, and returns its bytes, or why there are none, once that is known. Its
    /// ticket is of no use after that.
    pub fn poll_read<R: Wait + Clock>(
        &self,
        rt: &R,
        alloc: Global,
        pending: PendingPart,
        longest: Duration,
    ) -> Option<Result<Bytes, ObjectFault>>
        ensures told { IfSome result (IsGiven self.now pending.part) }
    {
        let PendingPart { part, ticket } = pending;
        let wanted = (sought_of(part), end_of(part));
        match self.shared.poll(rt, ticket, wanted, longest)? {
            Ok(blob) => Some(self.part_of(alloc, part, blob)),
            Err(fault) => Some(Err(fault)),
        }
    }

    /// Waits for a part of a blob for `longest` at most, and returns its bytes, or why there are none, if that is known by then.
    /// So or so its ticket counts for nothing after that.
    pub fn end_read<R: Wait + Clock>(
        &self,
        rt: &R,
        alloc: Global,
        pending: PendingPart,
        longest: Duration,
    ) -> Option<Result<Bytes, ObjectFault>>
        ensures told { IfSome result (IsGiven self.now pending.part) }
    {
        let told = self.poll_read(rt, alloc, pending, longest);
        if told.is_none() {
            self.shared.forget(rt, pending.ticket);
        }
        told
    }

    /// Returns the bytes of a part of `blob`. No clause knows what stands behind the lock, so the blob that comes from there is
    /// compared with the one that is sought.
    fn part_of(&self, alloc: Global, part: BlobPart, blob: Blob) -> Result<Bytes, ObjectFault>
        ensures told { IsGiven self.now part result }
    {
        if !is_within(part) {
            return Err(ObjectFault::Beyond);
        }
        if !is_sought(self.shared.bound, sought_of(part), &blob) {
            return Err(ObjectFault::OtherBlob);
        }
        blob.content.part(alloc, part.offset, part.len)
    }
}

/// Returns whether a part is within the size that its tree says.
fn is_within(part: BlobPart) -> bool
    ensures within { IsTrue result ↔ (part.offset + part.len ≤ part.size) }
{
    part.offset <= part.size && part.len as u64 <= part.size - part.offset
}

/// Returns the blob of which a part is wanted.
fn sought_of(part: BlobPart) -> Sought
    ensures sought { result ≡ record { object = part.object; size = part.size } }
{
    let object = part.object;
    Sought {
        object,
        size: part.size,
    }
}

/// Returns how many of the first bytes of a blob are wanted.
fn end_of(part: BlobPart) -> u64 {
    part.offset.saturating_add(part.len as u64)
}

/// Makes a thread that fetches by a duty, as long as this process runs.
fn start_fetcher<
    R: Threads
        + Wait
        + Clock
        + Files<File = File>
        + Net<Listener = TcpListener, Stream = TcpStream>
        + Processes<Started = SystemProcess>
        + Copy
        + Send
        + 'static,
>(rt: &R, alloc: Global, shared: &Arc<Shared>, duty: Duty) -> io::Result<()>
where
    R::Dir: Send,
{
    let (host, theirs) = (*rt, Arc::try_clone(shared)?);
    thread::spawn(rt, move || fetch_all(&host, alloc, &theirs, duty))?;
    Ok(())
}

/// Fetches by a duty, as long as this process runs.
fn fetch_all<R: Wait + Clock + Files<File = File> + Net + Processes>(
    rt: &R,
    alloc: Global,
    shared: &Shared,
    duty: Duty,
) {
    Fetcher::new(rt, alloc, shared, duty).fetch_all();
}
