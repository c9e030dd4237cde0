//! The asks of a real kernel.
ghost use Rattle.std.specs.Prelude.{◌≡◌, ◌<◌, length, true, IfErr, IfOk, IfSome, OnErr, OnOk};
ghost use Rattle.std.specs.List.{position_from};
ghost use Rattle.fuse_wire.specs.Request.{is_ask, IsSendable};
ghost use Rattle.broker_core.specs.Broker.{IsIssueRefusal};
ghost use Rattle.broker_desk.specs.Changed.{changed_by, is_look, kept_of, Adds, AddsSome, LetsGo};
ghost use Rattle.broker_desk.specs.Kernel.{has_desk, new_kernel, Asks, Delivers};

use crate::changed::ChangedDirectories;
use crate::{Desk, Pair};
use broker_core::{DeliverFault, IssueFault};
use eden_base::NoMemory;
use fuse_wire::{Answer, Ask, Reply, Request};
use mount_wire::Kept;
use std::alloc::Global;
use std::marker::Model;

/// How many asks of a kernel are under way at once: as many as a broker takes.
pub const MAX_ASKS: usize = 1024;

/// The asks of a real kernel that a desk took and whose replies were not delivered, and the directories that changed.
/// Contracts see a `KernelState`.
pub struct Kernel {
    pairs: Vec<Pair>,
    changed: ChangedDirectories,
}

impl Drop for Kernel {
    fn drop(self) {
        let Kernel {
            pairs: _,
            changed: _,
        } = self;
    }
}

impl Model for Kernel {
    ghost use Rattle.std.specs.Prelude.{◌≤◌, vec_capacity};
    ghost use Rattle.broker_desk.specs.Kernel.{KernelState};

    ghost Value = { KernelState };

    ghost view = { λ kernel. record { pairs = kernel.pairs.items; changed = kernel.changed } };

    ghost invariant = { λ kernel. 1024 ≤ vec_capacity kernel.pairs };
}

/// What there is to deliver to the kernel.
#[derive(PartialEq, Eq, Drop)]
pub enum Delivered {
    /// This reply, with the unique of the kernel's ask, and what the kernel may keep of it.
    Reply(Reply, Kept),
    /// An answer to an ask that the kernel didn't make.
    Unasked(Answer),
}

impl Kernel {
    /// Makes a kernel without asks, with room for all that may be under way.
    pub fn new(alloc: Global) -> Result<Kernel, NoMemory>
        ensures none { IfOk result (λ kernel. kernel ≡ new_kernel) }
    {
        let pairs = Vec::with_capacity(alloc, MAX_ASKS)?;
        let changed = ChangedDirectories::new(alloc);
        Ok(Kernel { pairs, changed })
    }

    /// Forgets all asks, and what changed: the mount is over, and nothing more is delivered.
    pub fn clear(&mut self)
        ensures none { self.new ≡ new_kernel }
    {
        self.pairs.clear();
        self.changed.clear();
    }

    /// Lets go of directories that changed, one in a call at most, where the kernel holds them no more at the `desk`.
    pub fn let_go(&mut self, desk: &Desk)
        ensures asks { self.new.pairs ≡ self.old.pairs }
        ensures lets_go { LetsGo desk.now self.old.changed self.new.changed }
    {
        self.changed.let_go(desk);
    }

    /// Issues an `ask` of the kernel at the `desk`, and notes the unique that the desk gave it. One that is refused as full
    /// or out of memory may be made again.
    pub fn ask(&mut self, desk: &mut Desk, ask: &Ask) -> Result<(), IssueFault>
        requires asks { is_ask ask.now.what ≡ true }
        requires sendable { IsSendable ask.now.what }
        ensures asks { Asks desk.old self.old ask.now result desk.new self.new }
    {
        if desk.broker().seat().is_none() {
            return Err(IssueFault::NotMounted);
        }
        if self.pairs.len() >= MAX_ASKS {
            return Err(IssueFault::Full);
        }
        let kept = self.kept_of(&ask.what);
        self.note_changes(desk, &ask.what)?;
        let Some(unique) = desk.issue(&ask.what)? else {
            unreachable!()
        };
        self.pairs.push_reserved(Pair {
            kernel: ask.unique,
            desk: unique,
            kept,
        });
        Ok(())
    }

    /// Returns what the kernel may keep of the answer to a `request`.
    fn kept_of(&self, request: &Request) -> Kept
        ensures kept { result ≡ kept_of self.now.changed request.now }
    {
        match request {
            Request::Lookup { .. } => Kept::Absence,
            Request::Readdir { dir, .. } if self.changed.has(*dir) => Kept::NoListing,
            Request::Readdir { .. } => Kept::Listing,
            _ => Kept::Told,
        }
    }

    /// Notes the directories that a `request` may change, unless the `desk` refuses it. They are noted before the request
    /// is issued: in the meantime the kernel reads nothing of them, and where nothing comes of it, it only keeps less.
    fn note_changes(&mut self, desk: &Desk, request: &Request) -> Result<(), IssueFault>
        ensures pairs { self.new.pairs ≡ self.old.pairs }
        ensures added { OnOk result (Adds self.old.changed (changed_by request.now) self.new.changed) }
        ensures refused { OnErr result (AddsSome self.old.changed (changed_by request.now) self.new.changed) }
        ensures cause { IfErr result (IsIssueRefusal desk.now.broker request.now) }
    {
        if is_look(request) {
            return Ok(());
        }
        if let Some(fault) = desk.broker().refusal(request) {
            return Err(fault);
        }
        self.changed
            .add(request.nodes().as_slice())
            .map_err(|_| IssueFault::NoMemory)
    }

    /// Takes the first posted reply from the `desk`, and gives it the unique of the kernel's ask.
    pub fn deliver(&mut self, desk: &mut Desk) -> Result<Delivered, DeliverFault>
        ensures delivers { Delivers desk.old self.old result desk.new self.new }
    {
        let reply = desk.deliver()?;
        Ok(match self.index_of(reply.unique) {
            Some(index) => {
                let pair = self.pairs.remove(index);
                let reply = Reply {
                    unique: pair.kernel,
                    answer: reply.answer,
                };
                Delivered::Reply(reply, pair.kept)
            }
            None => Delivered::Unasked(reply.answer),
        })
    }

    /// Returns the index of the ask to which the desk gave `unique`. Most replies come in the order of the asks, so it
    /// is one of the first.
    fn index_of(&self, unique: u64) -> Option<usize>
        ensures index { result ≡ position_from (has_desk unique) 0 self.now.pairs }
        ensures below { IfSome result (λ index. index < length self.now.pairs) }
    {
        self.pairs.iter().position(|pair| pair.desk == unique)
    }
}

/// Returns whether a `request` only looks, and changes no directory.
fn is_look(request: &Request) -> bool
    ensures look { result ≡ is_look request.now }
{
    matches!(
        request,
        Request::Lookup { .. }
            | Request::Getattr { .. }
            | Request::Readlink { .. }
            | Request::Read { .. }
            | Request::Readdir { .. }
    )
}
