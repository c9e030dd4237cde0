//! The backing of a daemon: the manifest, which fails if an event says so.
ghost use Rattle.std.specs.Prelude.{◌≡◌, Some, if◌then◌else◌};
ghost use Rattle.manifest.specs.Tree.{file_of, tree_of};
ghost use Rattle.daemon.specs.Serving.{FailsSo};
ghost use Rattle.fuse_ops.specs.Served.{Replay};

use checkout::{Backing, BackingFault, ManifestBacking};
use eden_base::FileId;
use fuse_ops::Served;
use fuse_wire::{Answer, Request};
use manifest::{Content, Manifest};
use std::alloc::Global;

/// The manifest as a backing whose first `attr` fails.
#[derive(Drop)]
struct FailingBacking<'a> {
    manifest: ManifestBacking<'a>,
    has_failed: bool,
}

impl Backing for FailingBacking<'_> {
    ghost content = { λ backing file. file_of (tree_of backing.manifest) file };

    ghost failed = { λ backing. if backing.has_failed then 1 else 0 };

    ghost will_answer = { λ backing. Some backing.has_failed };

    fn attr(&mut self, file: FileId) -> Result<Content, BackingFault> {
        if !self.has_failed {
            self.has_failed = true;
            return Err(BackingFault);
        }
        self.manifest.attr(file)
    }

    fn failures(&self) -> u64 {
        if self.has_failed { 1 } else { 0 }
    }
}

/// Answers an ask, or applies the items of a forget, over `manifest`. If `fails`, the first call of the backing fails.
pub(crate) fn apply(
    served: &mut Served,
    alloc: Global,
    manifest: &Manifest,
    fails: bool,
    request: &Request,
) -> Option<Answer>
    requires over { served.old.tree.manifest ≡ manifest.now }
    ensures replay { Replay served.old request.now result served.new }
    ensures fails_so { FailsSo fails served.old request.now result }
    ensures same_manifest { served.new.tree.manifest ≡ served.old.tree.manifest }
{
    if fails {
        let mut backing = FailingBacking {
            manifest: ManifestBacking::of(manifest),
            has_failed: false,
        };
        return served.apply(alloc, &mut backing, request);
    }
    let mut backing = ManifestBacking::of(manifest);
    served.apply(alloc, &mut backing, request)
}
