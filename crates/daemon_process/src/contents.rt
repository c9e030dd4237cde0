//! The contents that a daemon serves.
ghost use Rattle.std.specs.Prelude.{IfOk};
ghost use Rattle.daemon_process.specs.Contents.{IsOpened, ReadsContents};

use crate::fault::DaemonFault;
use crate::options::{ContentsSource, RepositorySource};
use crate::own_mounts::{is_below_own, is_of_own};
use blob_store::{
    BlobFault, BlobStore, FailureNotes, FileBlobs, FileReadPool, PendingRead, ReadEnding,
    StartedRead,
};
use fuse_wire::{Buffer, Extent};
use git_blobs::GitBlobs;
use git_objects::GitObjects;
use manifest::Manifest;
use non_blocking::Notes;
use std::alloc::Global;
use std::fs::File;
use std::io::{self, Error, ErrorKind, Read};
use std::net::{Net, TcpListener, TcpStream};
use std::os::unix::fs::MetadataExt;
use std::path::AsPath;
use std::process::{Processes, SystemProcess};
use std::rt::{Clock, Files};
use std::sync::{Arc, Wait};
use std::thread::Threads;
use std::time::Duration;

/// The table of this process's mounts.
const MOUNTS: &str = "/proc/self/mountinfo";

/// The contents of the manifest's files.
#[derive(Drop)]
pub(crate) enum Contents<'a, R> {
    /// There are none.
    None,
    /// They stand in a directory.
    Directory(Arc<FileReadPool<R>>),
    /// They are objects of a git repository.
    Repository(GitBlobs<'a, R>),
}

/// How many threads read files of a directory.
const READERS: usize = 16;

/// How many descriptors a repository takes: for five processes of git with their questions and answers, each of which takes
/// seven while it is started, and for the files of large blobs.
const DESCRIPTORS_OF_A_REPOSITORY: usize = 44;

impl<R> Contents<'_, R> {
    /// Returns how many descriptors they take at most, beside those that workers open.
    pub(crate) fn descriptors(&self) -> usize {
        match self {
            Contents::None => 0,
            Contents::Directory(_) => READERS,
            Contents::Repository(_) => DESCRIPTORS_OF_A_REPOSITORY,
        }
    }
}

impl<R: Files<File = File> + Clock + Wait> BlobStore for Contents<'_, R> {
    ghost reads = { λ contents extent result. ReadsContents contents extent result };

    fn start_read(&self, alloc: Global, extent: &Extent) -> StartedRead {
        match self {
            Contents::None => StartedRead::Done(Err(BlobFault::Failed)),
            Contents::Directory(files) => files.start_read(alloc, extent),
            Contents::Repository(blobs) => blobs.start_read(alloc, extent),
        }
    }

    fn poll_read(
        &self,
        alloc: Global,
        read: &PendingRead,
        longest: Duration,
    ) -> Option<Result<Buffer, BlobFault>> {
        match self {
            Contents::None => Some(Err(BlobFault::Failed)),
            Contents::Directory(files) => files.poll_read(alloc, read, longest),
            Contents::Repository(blobs) => blobs.poll_read(alloc, read, longest),
        }
    }

    fn end_read(
        &self,
        alloc: Global,
        read: &PendingRead,
        longest: Duration,
        ending: ReadEnding,
    ) -> Result<Buffer, BlobFault> {
        match self {
            Contents::None => Err(BlobFault::Failed),
            Contents::Directory(files) => files.end_read(alloc, read, longest, ending),
            Contents::Repository(blobs) => blobs.end_read(alloc, read, longest, ending),
        }
    }
}

/// Opens the contents of the files of `manifest`.
pub(crate) fn open_contents<
    'a,
    R: Threads
        + Wait
        + Clock
        + Files<File = File>
        + Net<Listener = TcpListener, Stream = TcpStream>
        + Processes<Started = SystemProcess>
        + Copy
        + Send
        + Sync
        + 'static,
>(
    rt: &'a R,
    alloc: Global,
    source: ContentsSource<'_>,
    manifest: &Manifest,
    notes: &Notes,
) -> Result<Contents<'a, R>, DaemonFault>
where
    R::Dir: Send + Sync,
    ensures contents { IfOk result (IsOpened source.entry manifest.now) }
{
    let Ok(manifest) = manifest.share() else {
        return Err(DaemonFault::NoMemory);
    };
    match source {
        ContentsSource::None => Ok(Contents::None),
        ContentsSource::Directory(path) => {
            let folder = open_folder(rt, alloc, path).map_err(fault_of)?;
            let files = FileBlobs::new(*rt, alloc, folder, manifest, notes.again());
            let pool = FileReadPool::start(rt, alloc, files, READERS).map_err(unstarted)?;
            Ok(Contents::Directory(pool))
        }
        ContentsSource::Repository(repository) => {
            let RepositorySource { path, names, bound } = repository;
            let objects = GitObjects::start(rt, alloc, path, bound).map_err(unstarted)?;
            let failures = FailureNotes::new(alloc, notes.again());
            Ok(Contents::Repository(GitBlobs::new(rt, manifest, names, objects, failures)))
        }
    }
}

/// Returns the fault of a daemon whose threads for its contents were not made for `error`.
fn unstarted(error: Error) -> DaemonFault {
    match error.kind() {
        ErrorKind::OutOfMemory => DaemonFault::NoMemory,
        _ => DaemonFault::NoThread,
    }
}

/// Looks whether there is a directory at `path` that may be served. One that lies in a mount of this program may not: who
/// reads there would wait for itself.
pub fn check_directory<R: Files<File = File>>(rt: &R, alloc: Global, path: &str) -> io::Result<()> {
    let _folder = open_folder(rt, alloc, path)?;
    Ok(())
}

/// Returns the fault of a daemon whose directory can't be opened for `error`.
fn fault_of(error: Error) -> DaemonFault {
    match error.kind() {
        ErrorKind::OutOfMemory => DaemonFault::NoMemory,
        _ => DaemonFault::NoFiles(error),
    }
}

/// Opens the directory at `path`. Fails if it is no directory, or if it lies in a mount of this program: a daemon that reads
/// from its own mount would wait for itself. So the table of mounts is asked before the directory is touched.
fn open_folder<R: Files<File = File>>(rt: &R, alloc: Global, path: &str) -> io::Result<File> {
    let mut mounts = Vec::new(alloc);
    let mut table = File::open(rt, MOUNTS)?;
    let _count = table.read_to_end(&mut mounts)?;
    let start = rt.read_link(alloc, "/proc/self/cwd")?;
    if is_below_own(
        mounts.as_slice(),
        start.path_text().as_bytes(),
        path.as_bytes(),
    ) {
        return Err(own_mount());
    }
    let folder = File::open(rt, path)?;
    let what = folder.metadata()?;
    if !what.is_dir() {
        return Err(Error::from(ErrorKind::NotADirectory));
    }
    let device = device_text(alloc, what.dev())?;
    if is_of_own(mounts.as_slice(), device.as_bytes()) {
        return Err(own_mount());
    }
    Ok(folder)
}

/// Returns a device's numbers as the table of mounts has them.
fn device_text(alloc: Global, device: u64) -> io::Result<String> {
    let major = ((device >> 8) & 0xfff) | ((device >> 32) & 0xffff_f000);
    let minor = (device & 0xff) | ((device >> 12) & 0xffff_ff00);
    Ok(format!(in alloc; "{major}:{minor}")?)
}

/// Returns the error of a directory that lies in a mount of this program.
fn own_mount() -> Error {
    Error::new(ErrorKind::InvalidInput, "it lies in a mount of edend")
}
