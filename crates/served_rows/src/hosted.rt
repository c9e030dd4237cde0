//! What a daemon serves, together with its manifest, and a backing that fails by plan.
ghost use Rattle.std.specs.Prelude.{◌≡◌, IfOk, None, if◌then◌else◌};
ghost use Rattle.manifest.specs.Tree.{file_of, tree_of};
ghost use Rattle.map_image.specs.Fit.{CountsFit, IsFit};

use checkout::{Backing, BackingFault, ManifestBacking};
use eden_base::{FileId, NoMemory};
use fuse_ops::Served;
use fuse_wire::{Answer, Request};
use manifest::{Content, Manifest, ManifestFaultKind};
use map_codec::{HandoverFault, RaiseFault, raise, take_over};
use map_image::Image;
use row_words::RowFault;
use std::alloc::Global;
use std::marker::Model;

/// When a backing fails: once, behind this count of answers, if it has not failed yet.
#[derive(Clone, Copy)]
pub(crate) struct Plan {
    pub(crate) answers: u64,
    pub(crate) has_failed: bool,
}

impl Plan {
    /// The plan of a backing that never fails again.
    pub(crate) const NEVER: Plan = Plan {
        answers: 0,
        has_failed: true,
    };
}

/// A backing that reads a manifest, and fails by plan.
#[derive(Drop)]
struct PlannedBacking<'a> {
    manifest: ManifestBacking<'a>,
    plan: Plan,
}

impl Backing for PlannedBacking<'_> {
    ghost content = { λ backing file. file_of (tree_of backing.manifest) file };

    ghost failed = { λ backing. if backing.plan.has_failed then 1 else 0 };

    ghost will_answer = { λ _. None };

    fn attr(&mut self, file: FileId) -> Result<Content, BackingFault> {
        if self.plan.answers == 0 && !self.plan.has_failed {
            self.plan.has_failed = true;
            return Err(BackingFault);
        }
        self.plan.answers = self.plan.answers.saturating_sub(1);
        self.manifest.attr(file)
    }

    fn failures(&self) -> u64 {
        if self.plan.has_failed { 1 } else { 0 }
    }
}

/// What a daemon serves, with its manifest.
#[derive(Drop)]
pub(crate) struct Hosted {
    alloc: Global,
    served: Served,
    manifest: Manifest,
}

impl Model for Hosted {
    ghost use Rattle.std.specs.Prelude.{◌≡◌};
    ghost use Rattle.fuse_ops.specs.Served.{ServedState};
    ghost use Rattle.std.specs.Coded.{codes};
    ghost use Rattle.manifest.specs.Codes.{tree_code};

    ghost Value = { ServedState };

    ghost coded = { Prim.hlevel (codes, tree_code) };

    ghost view = { λ h. h.served };

    ghost invariant = { λ h. h.served.tree.manifest ≡ h.manifest };
}

/// Reads the manifest in `text`.
fn manifest_of(alloc: Global, text: &[u8]) -> Result<Manifest, RowFault> {
    match Manifest::read(alloc, text) {
        Ok(manifest) => Ok(manifest),
        Err(fault) if fault.kind == ManifestFaultKind::NoMemory => Err(RowFault::NoMemory),
        Err(_) => Err(RowFault::BadRow),
    }
}

/// Takes over from `bytes`, over `manifest`.
pub(crate) fn taken(
    alloc: Global,
    bytes: &[u8],
    manifest: &Manifest,
    limit: usize,
    generation: u64,
) -> Result<Served, HandoverFault>
    ensures over { IfOk result (λ served. served.tree.manifest ≡ manifest.now) }
{
    take_over(alloc, bytes, manifest, limit, generation)
}

impl Hosted {
    /// Begins to serve the manifest in `text`, with up to `limit` attributes loaded.
    pub(crate) fn of(alloc: Global, text: &[u8], limit: usize) -> Result<Hosted, RowFault> {
        let manifest = manifest_of(alloc, text)?;
        match Served::new(alloc, &manifest, limit) {
            Ok(served) => Ok(Hosted {
                alloc,
                served,
                manifest,
            }),
            Err(NoMemory) => {
                drop(manifest);
                Err(RowFault::NoMemory)
            }
        }
    }

    /// Returns the allocator.
    pub(crate) fn alloc(&self) -> Global {
        self.alloc
    }

    /// Returns what is served.
    pub(crate) fn served(&self) -> &Served {
        &self.served
    }

    /// Returns the manifest.
    pub(crate) fn manifest(&self) -> &Manifest {
        &self.manifest
    }

    /// Answers `request` with a backing that fails as `plan` says, and makes that the plan for the next request.
    pub(crate) fn apply(&mut self, plan: &mut Plan, request: &Request) -> Option<Answer> {
        let mut backing = PlannedBacking {
            manifest: ManifestBacking::of(&self.manifest),
            plan: *plan,
        };
        let answer = self.served.apply(self.alloc, &mut backing, request);
        *plan = backing.plan;
        answer
    }

    /// Serves what `bytes` hand over from now on.
    pub(crate) fn take(
        &mut self,
        bytes: &[u8],
        limit: usize,
        generation: u64,
    ) -> Result<(), HandoverFault> {
        self.served = taken(self.alloc, bytes, &self.manifest, limit, generation)?;
        Ok(())
    }

    /// Serves what is restored from `image` from now on.
    pub(crate) fn raise(&mut self, image: Image, limit: usize) -> Result<(), RaiseFault>
        requires fit { IsFit image }
        requires counts { CountsFit image.entries }
    {
        self.served = raise(self.alloc, image, &self.manifest, limit)?;
        Ok(())
    }
}
