//! A thread that owns a process of git, and fetches by it what is asked for.
ghost use Rattle.std.specs.Prelude.{◌≡◌, IfOk};
ghost use Rattle.git_objects.specs.Fetching.{asks_again, is_in_step};

use crate::batch::Batch;
use crate::blob::Blob;
use crate::duty::Duty;
use crate::fault::ObjectFault;
use crate::git_command::GitCommand;
use crate::shared::Shared;
use crate::sought::Sought;
use crate::spool::spool;
use std::alloc::Global;
use std::fs::File;
use std::net::Net;
use std::process::{Child, Processes};
use std::rt::{Clock, Files};
use std::sync::{Arc, Wait};
use std::thread;
use std::time::Duration;

/// How often a blob is asked for: once more where the process ended amid its answer.
const ATTEMPTS: usize = 2;

/// How many looks are made until a process that was killed has ended.
const LOOKS: usize = 100;

/// How many milliseconds pass between two of them.
const PAUSE: u64 = 10;

/// Returns whether a process stands behind its answer, and may be asked again: it gave a whole blob,
/// or said that it has none.
fn is_in_step(fault: Option<ObjectFault>) -> bool
    ensures { result ≡ is_in_step fault }
{
    matches!(
        fault,
        None | Some(ObjectFault::Missing | ObjectFault::Ambiguous | ObjectFault::Damaged)
    )
}

/// Returns whether a blob is asked for once more behind this fault: where the process ended, or said what belongs to no
/// question.
fn asks_again(fault: ObjectFault) -> bool
    ensures { result ≡ asks_again fault }
{
    matches!(fault, ObjectFault::Ended | ObjectFault::Unreadable)
}

/// What the thread owns: its process of git, if one runs, and one that it killed, until that has ended.
#[derive(Drop)]
pub(crate) struct Fetcher<'a, R: Processes> {
    rt: &'a R,
    alloc: Global,
    shared: &'a Shared,
    duty: Duty,
    batch: Option<Batch<R::Started>>,
    killed: Option<Child<R::Started>>,
}

impl<'a, R: Wait + Clock + Files<File = File> + Net + Processes> Fetcher<'a, R> {
    /// Makes the fetcher that has this duty. Its process is started once a blob is asked for.
    pub(crate) fn new(rt: &'a R, alloc: Global, shared: &'a Shared, duty: Duty) -> Fetcher<'a, R> {
        Fetcher {
            rt,
            alloc,
            shared,
            duty,
            batch: None,
            killed: None,
        }
    }

    /// Fetches what is asked for by its duty, as long as this process runs.
    pub(crate) fn fetch_all(&mut self) {
        for _ in self.rt.forever() {
            if self.may_fetch() {
                let sought = self.shared.next(self.rt, self.duty);
                let fetched = self.fetch(sought);
                self.shared.deliver(self.rt, self.duty, sought, fetched);
            }
        }
    }

    /// Returns whether something may be asked for: nothing may while a process that was killed has not ended, as another thread
    /// has the same duty. Of large blobs there is no other.
    fn may_fetch(&mut self) -> bool {
        self.reap() || matches!(self.duty, Duty::Large)
    }

    /// Fetches a blob. Where the process ended amid its answer, the next one is asked too.
    fn fetch(&mut self, sought: Sought) -> Result<Blob, ObjectFault>
        ensures object { IfOk result (λ blob. blob.object ≡ sought.object) }
        ensures size { IfOk result (λ blob. blob.size ≡ sought.size) }
    {
        let mut fault = ObjectFault::Ended;
        for _attempt in 0..ATTEMPTS {
            match self.ask(sought) {
                Ok(blob) => return Ok(blob),
                Err(refused) if asks_again(refused) => fault = refused,
                Err(refused) => return Err(refused),
            }
        }
        Err(fault)
    }

    /// Asks the process for a blob, which is started if none runs. One that can't be asked again is killed.
    fn ask(&mut self, sought: Sought) -> Result<Blob, ObjectFault>
        ensures object { IfOk result (λ blob. blob.object ≡ sought.object) }
        ensures size { IfOk result (λ blob. blob.size ≡ sought.size) }
    {
        let mut batch = self.take_batch()?;
        let asked = self.ask_by(&mut batch, sought);
        if is_in_step(asked.as_ref().err().copied()) {
            self.batch = Some(batch);
        } else {
            self.killed = Some(batch.kill());
        }
        asked
    }

    /// Asks `batch` for a blob. A large one goes to a file.
    fn ask_by(&self, batch: &mut Batch<R::Started>, sought: Sought) -> Result<Blob, ObjectFault>
        ensures object { IfOk result (λ blob. blob.object ≡ sought.object) }
        ensures size { IfOk result (λ blob. blob.size ≡ sought.size) }
    {
        match self.duty {
            Duty::Large => self.copy_by(batch, sought),
            Duty::Small | Duty::Ahead => batch.fetch(self.alloc, sought),
        }
    }

    /// Asks `batch` for a blob, and has it written to a file, whose bytes may be read as they come.
    fn copy_by(&self, batch: &mut Batch<R::Started>, sought: Sought) -> Result<Blob, ObjectFault>
        ensures object { IfOk result (λ blob. blob.object ≡ sought.object) }
        ensures size { IfOk result (λ blob. blob.size ≡ sought.size) }
    {
        let file = spool(self.rt, self.alloc).map_err(ObjectFault::NoSpool)?;
        let mut out = file.try_clone().map_err(ObjectFault::NoSpool)?;
        let Ok(file) = Arc::new(self.alloc, file) else {
            return Err(ObjectFault::NoMemory);
        };
        batch.copy(self.alloc, sought, &mut out, |count| {
            if let Ok(arriving) = Arc::try_clone(&file) {
                self.shared
                    .arrive(self.rt, Blob::of_file(sought, arriving), count);
            }
        })?;
        Ok(Blob::of_file(sought, file))
    }

    /// Returns the process that runs, or else a new one.
    fn take_batch(&mut self) -> Result<Batch<R::Started>, ObjectFault> {
        if let Some(batch) = self.batch.take() {
            return Ok(batch);
        }
        if !self.reap() {
            return Err(ObjectFault::Late);
        }
        let git = GitCommand {
            repository: self.shared.repository.as_str(),
        };
        Batch::start(self.rt, self.alloc, &git, self.duty).map_err(ObjectFault::NoGit)
    }

    /// Waits until the process has ended that was killed, a second at most, and returns whether it has. So processes that
    /// can't end, as those that wait for a disk, are one at most.
    fn reap(&mut self) -> bool {
        let Some(killed) = self.killed.take() else {
            return true;
        };
        let mut killed = killed;
        for _look in 0..LOOKS {
            match killed.try_wait() {
                Ok(None) => thread::sleep(self.rt, Duration::from_millis(PAUSE)),
                Ok(Some(_status)) => return true,
                Err(_lost) => return true,
            }
        }
        self.killed = Some(killed);
        false
    }
}
