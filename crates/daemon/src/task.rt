//! What a daemon has in hand.
ghost use Rattle.std.specs.Prelude.{◌≡◌};
ghost use Rattle.daemon.specs.Server.{single};
ghost use Rattle.daemon.specs.Serving.{FailsSo};
ghost use Rattle.fuse_ops.specs.Served.{Replay};
ghost use Rattle.fuse_wire.specs.Request.{item_of};

use crate::backing::apply;
use fuse_ops::Served;
use fuse_wire::{Answer, Ask, Item, Request};
use manifest::Manifest;
use std::alloc::Global;
use std::marker::Model;

/// What a hand has: an ask, or one item of a forget by itself. An item takes a quarter of an ask's memory, and most of
/// what is in hand at once are items. Contracts see an `Ask`, which is a forget of that item.
#[derive(Drop)]
pub struct Task {
    kind: TaskKind,
}

/// The kind of a task: an ask, or an item of a forget.
#[derive(Drop)]
enum TaskKind {
    Ask(Box<Ask>),
    Item(Item),
}

impl Model for Task {
    ghost use Rattle.fuse_wire.specs.declared.request.Ask.{Ask};
    ghost use Rattle.daemon.specs.Tasks.{ask_of};

    ghost Value = { Ask };

    ghost view = { λ task. ask_of task.kind };
}

impl Task {
    /// Returns an ask as a task.
    pub(crate) fn of_ask(ask: Box<Ask>) -> Task
        ensures ask { result ≡ ask.value }
    {
        Task {
            kind: TaskKind::Ask(ask),
        }
    }

    /// Returns an item as a task.
    pub(crate) fn of_item(item: Item) -> Task
        ensures item { result ≡ single item }
    {
        Task {
            kind: TaskKind::Item(item),
        }
    }

    /// Returns the unique of an ask, and 0 for an item.
    pub fn unique(&self) -> u64
        ensures unique { result ≡ self.now.unique }
    {
        match &self.kind {
            TaskKind::Ask(ask) => ask.unique,
            TaskKind::Item(_) => 0,
        }
    }

    /// Returns the item of a forget, or none for an ask.
    pub fn item(&self) -> Option<Item>
        ensures item { result ≡ item_of self.now.what }
    {
        match &self.kind {
            TaskKind::Ask(ask) => ask.what.item(),
            TaskKind::Item(item) => Some(*item),
        }
    }

    /// Answers an ask, or applies an item, as `backing::apply` does.
    pub(crate) fn apply(
        &self,
        served: &mut Served,
        alloc: Global,
        manifest: &Manifest,
        fails: bool,
    ) -> Option<Answer>
        requires over { served.old.tree.manifest ≡ manifest.now }
        ensures replay { Replay served.old self.now.what result served.new }
        ensures fails_so { FailsSo fails served.old self.now.what result }
        ensures same_manifest { served.new.tree.manifest ≡ served.old.tree.manifest }
    {
        match &self.kind {
            TaskKind::Ask(ask) => apply(served, alloc, manifest, fails, &ask.what),
            TaskKind::Item(item) => {
                let forget = Request::Forget(*item);
                apply(served, alloc, manifest, fails, &forget)
            }
        }
    }

    /// Returns the memory that an ask had, for another ask.
    pub(crate) fn into_room(self) -> Option<Box<Ask>> {
        match self.kind {
            TaskKind::Ask(ask) => Some(ask),
            TaskKind::Item(_) => None,
        }
    }
}
