//! The changes that tell a tree from the tree of its manifest, as data that an image contains. The modules below check
//! such changes and lay them over a manifest.
ghost use Rattle.std.specs.Prelude.{◌≡◌};

mod around;
mod bad_around;
pub(crate) mod bad_itself;
mod by_other;
mod colours;
mod cut;
pub(crate) mod laid;
mod laying;

use eden_base::{FileId, MadeKind, Perm};
use manifest::LinkChange;
use std::marker::Model;

/// A file that was made since the manifest. It has no content.
#[derive(Clone, Copy, PartialEq, Eq)]
pub struct Made {
    pub file: FileId,
    pub kind: MadeKind,
    pub perm: Perm,
}

/// A list of made files, in the order of the vector that it was made of.
#[derive(Drop)]
pub struct MadeList {
    files: Vec<Made>,
}

impl Model for MadeList {
    ghost use Rattle.std.specs.Prelude.{List};
    ghost use Rattle.checkout.specs.declared.changes.Made.{Made};

    ghost Value = { List Made };

    ghost view = { λ a. a.files.items };
}

impl MadeList {
    /// Makes the list of `files`. Takes no memory.
    pub fn of(files: Vec<Made>) -> MadeList
        ensures files { result ≡ files.items }
    {
        MadeList { files }
    }

    /// Returns the files in their order.
    pub fn as_slice(&self) -> &[Made]
        ensures files { result.now ≡ self.now }
    {
        self.files.as_slice()
    }

    /// Returns the files as a vector, in their order, for who wants to change that. Takes no memory.
    pub fn into_vec(self) -> Vec<Made>
        ensures files { result.items ≡ self }
    {
        self.files
    }
}

/// A list of changed links, in the order of the vector that it was made of. A changed link is a name that gives another
/// file than in the manifest, or none.
#[derive(Drop)]
pub struct LinkList {
    links: Vec<LinkChange>,
}

impl Model for LinkList {
    ghost use Rattle.std.specs.Prelude.{List};
    ghost use Rattle.manifest.specs.declared.link_change.LinkChange.{LinkChange};

    ghost Value = { List LinkChange };

    ghost view = { λ a. a.links.items };
}

impl LinkList {
    /// Makes the list of `links`. Takes no memory.
    pub fn of(links: Vec<LinkChange>) -> LinkList
        ensures links { result ≡ links.items }
    {
        LinkList { links }
    }

    /// Returns the changed links in their order.
    pub fn as_slice(&self) -> &[LinkChange]
        ensures links { result.now ≡ self.now }
    {
        self.links.as_slice()
    }

    /// Returns the changed links as a vector, in their order, for who wants to change that. Takes no memory.
    pub fn into_vec(self) -> Vec<LinkChange>
        ensures links { result.items ≡ self }
    {
        self.links
    }
}

/// What tells a tree from the tree of its manifest. `made` has the made files, by rising id. `links` has the names that
/// give another file or none, by rising directory and then by the bytes of the name. `next_file` is the file that would
/// be made next.
#[derive(Drop)]
pub struct Changes {
    pub made: MadeList,
    pub links: LinkList,
    pub next_file: FileId,
}
