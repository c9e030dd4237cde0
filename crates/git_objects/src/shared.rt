//! The desk that workers and the processes' threads share.
ghost use Rattle.std.specs.Prelude.{◌≡◌, IfOk};

use crate::blob::Blob;
use crate::blob_cache::is_large;
use crate::desk::{Asked, Desk};
use crate::duty::Duty;
use crate::fault::ObjectFault;
use crate::sought::Sought;
use eden_base::NoMemory;
use monitor::{Condition, Look, Monitor, Patience};
use std::alloc::Global;
use std::rt::Clock;
use std::sync::Wait;
use std::time::{Duration, Instant};

/// The desk, and who waits for what: the processes' threads until a blob is asked for that they fetch by their duty, and workers
/// until one came.
#[derive(Drop)]
pub(crate) struct Shared {
    desk: Monitor<Desk>,
    large_asked: Condition,
    small_asked: Condition,
    asked_ahead: Condition,
    came: Condition,
    pub(crate) repository: String,
    pub(crate) bound: u64,
}

impl Shared {
    /// Makes the desk for a repository, whose blobs are kept within `bound` bytes.
    pub(crate) fn new(alloc: Global, repository: &str, bound: u64) -> Result<Shared, NoMemory>
        ensures bound { IfOk result (λ shared. shared.bound ≡ bound) }
    {
        Ok(Shared {
            desk: Monitor::new(Desk::new(alloc, bound)?),
            large_asked: Condition::new(),
            small_asked: Condition::new(),
            asked_ahead: Condition::new(),
            came: Condition::new(),
            repository: String::from_str(alloc, repository)?,
            bound,
        })
    }

    /// Asks for a blob: returns it if it is kept, and else a ticket for it.
    pub(crate) fn ask<R: Wait + Clock>(&self, rt: &R, sought: Sought) -> Result<Asked, NoMemory> {
        let now = Instant::now(rt).ok();
        let asked = self.desk.lock(rt).ask(sought, now)?;
        if let Asked::Waits(_) = &asked {
            let is_large = is_large(sought.size, self.bound);
            self.asked(wanted_by(is_large)).notify_one();
        }
        Ok(asked)
    }

    /// Asks for a blob that nobody waits for.
    pub(crate) fn ask_ahead<R: Wait>(&self, rt: &R, sought: Sought) {
        let is_asked = self.desk.lock(rt).ask_ahead(sought);
        if is_asked {
            self.asked_ahead.notify_one();
        }
    }

    /// Returns what a thread with this duty waits for.
    fn asked(&self, duty: Duty) -> &Condition {
        match duty {
            Duty::Large => &self.large_asked,
            Duty::Small => &self.small_asked,
            Duty::Ahead => &self.asked_ahead,
        }
    }

    /// Waits by `ticket` for the blob, of which the first `end` bytes are wanted at least, for `longest` at most. Returns it, or
    /// why it can't be had: also where the process that fetches it gave nothing for 20 seconds, of this blob or of one that was
    /// asked for before.
    pub(crate) fn poll<R: Wait + Clock>(
        &self,
        rt: &R,
        ticket: u64,
        wanted: (Sought, u64),
        longest: Duration,
    ) -> Option<Result<Blob, ObjectFault>> {
        let (sought, end) = wanted;
        let mut patience = Patience::start(rt, longest);
        self.desk.wait_until(rt, &self.came, |desk| {
            let now = Instant::now(rt).ok();
            match desk.look(ticket, sought, end, now) {
                Some(told) => Look::Found(Some(told)),
                None if patience.is_over(now) => Look::Found(None),
                None => Look::Again(patience.slice()),
            }
        })
    }

    /// Notes that nobody waits by `ticket` any more.
    pub(crate) fn forget<R: Wait>(&self, rt: &R, ticket: u64) {
        self.desk.lock(rt).forget(ticket);
    }

    /// Waits until there is something to ask for by a duty, and returns that.
    pub(crate) fn next<R: Wait>(&self, rt: &R, duty: Duty) -> Sought {
        self.desk
            .wait_until(rt, self.asked(duty), |desk| Look::of(desk.next(duty)))
    }

    /// Notes that the first `count` bytes of a large blob have arrived in `blob`.
    pub(crate) fn arrive<R: Wait>(&self, rt: &R, blob: Blob, count: u64) {
        self.desk
            .change(rt, &self.came, |desk| desk.arrive(blob, count));
    }

    /// Notes what git gave to a thread with this duty for `sought`. What is wanted still may have to be asked for once more: where
    /// it was asked ahead without success, or gave way before somebody looked.
    pub(crate) fn deliver<R: Wait>(
        &self,
        rt: &R,
        duty: Duty,
        sought: Sought,
        fetched: Result<Blob, ObjectFault>,
    ) {
        let (large, small) = self.desk.change(rt, &self.came, |desk| {
            desk.deliver(duty, sought, fetched);
            (desk.next_want(true), desk.next_want(false))
        });
        if large.is_some() {
            self.large_asked.notify_one();
        }
        if small.is_some() {
            self.small_asked.notify_one();
        }
    }
}

/// Returns the duty by which wanted blobs are fetched that are large, or the others.
fn wanted_by(is_large: bool) -> Duty {
    if is_large { Duty::Large } else { Duty::Small }
}
