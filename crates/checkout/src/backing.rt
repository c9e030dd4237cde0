//! The store below a checkout, which knows the files' attributes.
ghost use Rattle.std.specs.Prelude.{◌≡◌, ◌<◌, ◌≤◌, ℕ, Bool, true, is_ok, IfOk, IfSome, IsOk, IsSome, OnErr, OnOk, Option, Some};
ghost use Rattle.eden_base.specs.declared.number.FileId.{FileId};
ghost use Rattle.manifest.specs.Tree.{file_of, tree_of};
ghost use Rattle.manifest.specs.declared.content.Content.{Content};

use eden_base::FileId;
use manifest::{Content, Manifest};
use std::marker::Model;
use thiserror::Error;

/// The fault of a store that gave no answer. The store may give one when it is asked again.
#[derive(Clone, Copy, Debug, PartialEq, Eq, Error)]
#[error("the backing of the checkout failed")]
pub struct BackingFault;

/// A store of a commit's files. What the store holds never changes, but a call that asks for a file may fail.
pub trait Backing {
    /// The content of each file that the store holds; none for any other file.
    ghost content: { Self → FileId → Option Content };

    /// How often the store failed.
    ghost failed: { Self → ℕ };

    /// Whether the store answers when it is asked next; none if this isn't known beforehand.
    ghost will_answer: { Self → Option Bool };

    /// Returns the kind, permissions and size of a file that the store holds. The count of the file's links isn't among
    /// them: the tree tells it, and it is 0 for an unlinked file.
    fn attr(&mut self, file: FileId) -> Result<Content, BackingFault>
        requires held { IsSome (content self.old file) }
        ensures attr { IfOk result (λ attr. content self.old file ≡ Some attr) }
        ensures same_content { (other : FileId) → content self.new other ≡ content self.old other }
        // an answer leaves the count of failures as it is, and a fault raises it
        ensures answered { OnOk result (failed self.new ≡ failed self.old) }
        ensures failed { OnErr result (failed self.old < failed self.new) }
        // if `will_answer` knows whether the store answers, the result agrees
        ensures as_known { IfSome (will_answer self.old) (λ will. is_ok result ≡ will) };

    /// Returns how often the store failed.
    fn failures(&self) -> u64
        ensures failures { result ≡ failed self.now };
}

/// A store that reads a manifest. It takes no memory and never fails.
#[derive(Drop)]
pub struct ManifestBacking<'a> {
    manifest: &'a Manifest,
}

impl<'a> Model for ManifestBacking<'a> {
    ghost use Rattle.manifest.specs.Manifest.{Manifest};
    ghost use Rattle.manifest.specs.Codes.{manifest_code};

    ghost Value = { Manifest };

    ghost coded = { manifest_code };

    ghost view = { λ a. a.manifest.now };
}

impl<'a> ManifestBacking<'a> {
    /// Returns the store that reads `manifest`.
    pub fn of(manifest: &'a Manifest) -> ManifestBacking<'a>
        ensures manifest { result ≡ manifest.now }
    {
        ManifestBacking { manifest }
    }
}

impl Backing for ManifestBacking<'_> {
    ghost content = { λ backing file. file_of (tree_of backing) file };

    ghost failed = { λ _. 0 };

    ghost will_answer = { λ _. Some true };

    fn attr(&mut self, file: FileId) -> Result<Content, BackingFault>
        requires held { IsSome (file_of (tree_of self.old) file) }
        ensures attr { IfOk result (λ attr. file_of (tree_of self.old) file ≡ Some attr) }
        ensures same_content { (other : FileId)
            → file_of (tree_of self.new) other ≡ file_of (tree_of self.old) other }
        ensures answered { OnOk result (◌≡◌ {A = ℕ} 0 0) }
        ensures failed { OnErr result (0 < 0) }
        ensures as_known { IfSome (Some true) (λ will. is_ok result ≡ will) }
        ensures never_fails { IsOk result }
    {
        let manifest = self.manifest;
        match manifest.content(file) {
            Some(attr) => Ok(attr),
            None => unreachable!(),
        }
    }

    fn failures(&self) -> u64 {
        0
    }
}
