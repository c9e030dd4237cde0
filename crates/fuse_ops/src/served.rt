//! The numbers and the tree that one daemon serves.
ghost use Rattle.std.specs.Prelude.{◌≡◌, not, None, Some, Ok, IfOk, if◌then◌else◌};
ghost use Rattle.eden_base.specs.declared.errno.Errno.TheVariants.{EIO};
ghost use Rattle.eden_base.specs.declared.number.FileId.{FileId};
ghost use Rattle.fuse_wire.specs.declared.reply.Answer.TheVariants.{Error};
ghost use Rattle.fuse_wire.specs.declared.request.Request.TheVariants.{Create, Mkdir, Unlink, Rmdir};
ghost use Rattle.std.specs.Option.{option_map, IfSome};
ghost use Rattle.manifest.specs.Tree.{IsTree, nlink_of_kind};
ghost use Rattle.checkout.specs.ChangedTree.{is_unlinked};
ghost use Rattle.entry_table.specs.Entries.{AreFilesOf};
ghost use Rattle.inode_map.specs.InodeMap.{forgotten};
ghost use Rattle.fuse_ops.specs.Answers.{against_unlink, against_rmdir};
ghost use Rattle.fuse_ops.specs.Loading.{AsksAs, Backs, FailsAs, Loads};
ghost use Rattle.fuse_ops.specs.Served.{new_served, served_of, forgotten_all, IsLocated, Replay};
ghost use Rattle.fuse_ops.specs.Soundness.{IsSound, AreRemembered, AreLoaded};
ghost use Rattle.fuse_ops.specs.Work.{Finds, Takes, lacks_name};

mod listing;
mod lookup;
mod moves;
mod names;
mod reading;

use checkout::{Backing, Tree};
use eden_base::{Errno, FileId, Kind, MadeKind, Name, NoMemory, Number, Perm};
use fuse_wire::{Answer, Item, Request};
use inode_map::{InodeMap, NamedEntries};
use manifest::{Manifest, nlink_of_kind};
use std::alloc::Global;
use std::marker::Model;

/// The numbers that a daemon gave, over the tree of its checkout.
pub struct Served {
    map: InodeMap,
    tree: Tree,
}

impl Drop for Served {
    fn drop(self) {
        let Served { map: _, tree: _ } = self;
    }
}

impl Model for Served {
    ghost use Rattle.fuse_ops.specs.Served.{ServedState};
    ghost use Rattle.std.specs.Coded.{codes};
    ghost use Rattle.manifest.specs.Codes.{tree_code};

    ghost Value = { ServedState };

    ghost coded = { Prim.hlevel (codes, tree_code) };

    ghost use Rattle.manifest.specs.Tree.{IsTree};
    ghost use Rattle.fuse_ops.specs.Soundness.{IsSound, AreRemembered, AreLoaded};

    ghost view = { λ s. record { map = s.map; tree = s.tree } };

    ghost invariant = { λ s. IsTree s.tree
        × IsSound (record { map = s.map; tree = s.tree })
        × AreRemembered (record { map = s.map; tree = s.tree })
        × AreLoaded (record { map = s.map; tree = s.tree }) };
}

/// A directory, and the file under a name in it.
#[derive(Drop)]
struct Found {
    dir: FileId,
    file: FileId,
}

/// Whether a name leads to a file. The root counts as linked, though no name leads to it.
#[derive(Clone, Copy)]
enum Linkage {
    Linked,
    Unlinked,
}

/// The file that a number names, and whether a name leads to it.
#[derive(Clone, Copy)]
struct Located {
    file: FileId,
    linkage: Linkage,
}

impl Linkage {
    /// Returns `Linked` if `is_linked`, else `Unlinked`.
    fn of(is_linked: bool) -> Linkage
        ensures { lacks_name result ≡ not is_linked }
    {
        if is_linked {
            Linkage::Linked
        } else {
            Linkage::Unlinked
        }
    }

    /// Returns the link count of a file of this kind, which is 0 if no name leads to the file.
    fn nlink(self, kind: Kind) -> u32
        ensures { result ≡ (if lacks_name self then 0 else nlink_of_kind kind) }
    {
        match self {
            Linkage::Linked => nlink_of_kind(kind),
            Linkage::Unlinked => 0,
        }
    }
}

impl Served {
    /// Makes the state of a daemon that begins to serve what `manifest` says. At most `limit` attributes are loaded at
    /// once, or 1 if `limit` is 0.
    pub fn new(alloc: Global, manifest: &Manifest, limit: usize) -> Result<Served, NoMemory>
        ensures new { IfOk result (λ served. served ≡ new_served manifest.now limit) }
        ensures sound { IfOk result IsSound }
    {
        let tree = Tree::of(alloc, manifest)?;
        let map = InodeMap::new(alloc, limit.max(1))?;
        Ok(Served { map, tree })
    }

    /// Makes the state of a daemon that begins to serve `tree`, with numbers that were given before. The file of each is
    /// remembered, and no attributes are loaded. At most `limit` attributes are loaded at once, or 1 if `limit` is 0. If
    /// memory is refused, `named` and `tree` are dropped.
    pub fn of_entries(
        alloc: Global,
        named: NamedEntries,
        next: u64,
        limit: usize,
        tree: Tree,
    ) -> Result<Served, NoMemory>
        requires tree { IsTree tree }
        requires files { AreFilesOf tree named.entries.items named.files.items }
        requires sound { IsSound (served_of named.entries.items named.files.items next limit tree) }
        ensures served { IfOk result (λ served. served
            ≡ served_of named.entries.items named.files.items next limit tree) }
    {
        let map = InodeMap::of_entries(alloc, named, next, limit.max(1))?;
        Ok(Served { map, tree })
    }

    /// Returns the numbers that the daemon gave. What the daemon knows fits together, whatever was asked before.
    pub fn map(&self) -> &InodeMap
        ensures map { result.now ≡ self.now.map }
        ensures sound { IsSound self.now }
        ensures remembered { AreRemembered self.now }
        ensures loaded { AreLoaded self.now }
    {
        &self.map
    }

    /// Returns the tree of the checkout.
    pub fn tree(&self) -> &Tree
        ensures tree { result.now ≡ self.now.tree }
    {
        &self.tree
    }

    /// Answers an ask, or applies the items of a forget, which has no answer. Asks the backing at most for the
    /// request's file, if its attributes are not loaded. By then every refusal but that of memory is excluded. An error
    /// changes no number, count, place or tree, and loads no attributes.
    #[tactic(auto, using(crate::proofs::Steps::steps))]
    pub fn apply<B: Backing>(
        &mut self,
        alloc: Global,
        backing: &mut B,
        request: &Request,
    ) -> Option<Answer>
        requires backs { Backs (B.content backing.old) self.old.tree }
        ensures replay { Replay self.old request.now result self.new }
        ensures loads { Loads self.old.map request.now result self.new.map }
        ensures fails { FailsAs result (B.failed backing.old) (B.failed backing.new) }
        ensures asks { AsksAs self.old request.now result (B.will_answer backing.old) }
        ensures same_content { (file : FileId) → B.content backing.new file ≡ B.content backing.old file }
        ensures same_manifest { self.new.tree.manifest ≡ self.old.tree.manifest }
    {
        match request {
            Request::Lookup { dir, name } => Some(self.look_up(alloc, backing, *dir, name)),
            Request::Getattr { node } => Some(self.get_attr(backing, *node)),
            Request::Readlink { node } => Some(self.read_link(*node)),
            Request::Create { dir, name, perm } => Some(self.create(alloc, *dir, name, *perm)),
            Request::Mkdir { dir, name, perm } => Some(self.make_dir(alloc, *dir, name, *perm)),
            Request::Unlink { dir, name } => Some(self.unlink(*dir, name)),
            Request::Rmdir { dir, name } => Some(self.remove_dir(*dir, name)),
            Request::Readdir { dir, offset, size } => Some(self.list(alloc, *dir, *offset, *size)),
            Request::Read { node, offset, size } => Some(self.read(*node, *offset, *size)),
            Request::Forget(item) => {
                self.forget(*item);
                None
            }
            Request::BatchForget(items) => {
                self.forget_all(items.as_slice());
                None
            }
            Request::Rename {
                dir,
                name,
                to_dir,
                to_name,
            } => Some(self.rename(alloc, *dir, name, *to_dir, to_name)),
            Request::Other { .. } => Some(Answer::Error(Errno::ENOSYS)),
        }
    }

    /// Answers a CREATE.
    #[tactic(auto, using(crate::proofs::Steps::steps))]
    fn create(&mut self, alloc: Global, dir: Number, name: &Name, perm: Perm) -> Answer
        ensures replay { Replay self.old (Create dir name.now perm) (Some result) self.new }
        ensures loads { Loads self.old.map (Create dir name.now perm) (Some result) self.new.map }
        ensures no_eio { result ≡ Error EIO → ⊥ }
    {
        match self.make(alloc, dir, name, MadeKind::File, perm) {
            Ok((number, attr)) => Answer::Opened { number, attr },
            Err(errno) => Answer::Error(errno),
        }
    }

    /// Answers a MKDIR.
    #[tactic(auto, using(crate::proofs::Steps::steps))]
    fn make_dir(&mut self, alloc: Global, dir: Number, name: &Name, perm: Perm) -> Answer
        ensures replay { Replay self.old (Mkdir dir name.now perm) (Some result) self.new }
        ensures loads { Loads self.old.map (Mkdir dir name.now perm) (Some result) self.new.map }
        ensures no_eio { result ≡ Error EIO → ⊥ }
    {
        match self.make(alloc, dir, name, MadeKind::Dir, perm) {
            Ok((number, attr)) => Answer::Entry { number, attr },
            Err(errno) => Answer::Error(errno),
        }
    }

    /// Answers an UNLINK. Takes no memory.
    fn unlink(&mut self, dir: Number, name: &Name) -> Answer
        ensures takes { Takes self.old dir name.now (against_unlink self.old.tree) result self.new }
        ensures loads { Loads self.old.map (Unlink dir name.now) (Some result) self.new.map }
    {
        let found = match self.find(dir, name) {
            Ok(found) => found,
            Err(errno) => return Answer::Error(errno),
        };
        if self.tree.kind(found.file) == Some(Kind::Dir) {
            return Answer::Error(Errno::EISDIR);
        }
        self.take_name(dir, found.dir, name);
        Answer::Done
    }

    /// Answers an RMDIR. Takes no memory.
    fn remove_dir(&mut self, dir: Number, name: &Name) -> Answer
        ensures takes { Takes self.old dir name.now (against_rmdir self.old.tree) result self.new }
        ensures loads { Loads self.old.map (Rmdir dir name.now) (Some result) self.new.map }
    {
        let found = match self.find(dir, name) {
            Ok(found) => found,
            Err(errno) => return Answer::Error(errno),
        };
        if self.tree.kind(found.file) != Some(Kind::Dir) {
            return Answer::Error(Errno::ENOTDIR);
        }
        if !self.tree.is_empty_dir(found.file) {
            return Answer::Error(Errno::ENOTEMPTY);
        }
        self.take_name(dir, found.dir, name);
        Answer::Done
    }

    /// Returns the file that `number` names, if any. If no file is remembered for it, the names above it are followed.
    fn file_of(&mut self, number: Number) -> Option<FileId>
        ensures located { IsLocated self.old number.0 result }
        ensures unchanged { self.new ≡ self.old }
    {
        if number == Number::ROOT {
            return Some(FileId::ROOT);
        }
        match self.map.recall(number) {
            Some(file) => Some(file),
            None => self.map.locate(&self.tree, number),
        }
    }

    /// Returns the file that `number` names, if any, and whether a name leads to that file.
    fn linked_file_of(&mut self, number: Number) -> Option<Located>
        ensures located { IsLocated self.old number.0 (option_map (λ found. found.file) result) }
        ensures linkage { IfSome result (λ found. is_unlinked self.old.tree found.file ≡ lacks_name found.linkage) }
        ensures unchanged { self.new ≡ self.old }
    {
        if number == Number::ROOT {
            return Some(Located {
                file: FileId::ROOT,
                linkage: Linkage::Linked,
            });
        }
        if let Some((file, is_linked)) = self.map.recall_linked(number) {
            return Some(Located {
                file,
                linkage: Linkage::of(is_linked),
            });
        }
        let file = self.map.locate(&self.tree, number)?;
        Some(Located {
            file,
            linkage: Linkage::of(file == FileId::ROOT || self.tree.is_linked(file)),
        })
    }

    /// Returns the directory that a number names, and the file under a name in it, or the error if there is no such
    /// file.
    fn find(&mut self, dir: Number, name: &Name) -> Result<Found, Errno>
        ensures found { Finds self.old dir.0 name.now result }
        ensures unchanged { self.new ≡ self.old }
    {
        let dir = self.file_of(dir).ok_or(Errno::ESTALE)?;
        if let Some(file) = self.tree.child(dir, name) {
            return Ok(Found { dir, file });
        }
        if self.tree.kind(dir) != Some(Kind::Dir) {
            return Err(Errno::ENOTDIR);
        }
        Err(Errno::ENOENT)
    }

    /// Applies an item of a forget.
    fn forget(&mut self, item: Item)
        ensures forgotten { self.new ≡ record self.old { map = forgotten self.old.map item.node.0 item.k } }
    {
        self.map.forget(item.node, item.k);
    }

    /// Applies each item by itself, in order.
    fn forget_all(&mut self, items: &[Item])
        ensures forgotten { self.new ≡ record self.old { map = forgotten_all self.old.map items.now } }
    {
        for item in items {
            self.forget(*item);
        }
    }
}
