//! READDIR: the entries of a directory. It gives no number out, and counts none.
ghost use Rattle.std.specs.Prelude.{◌≡◌, ◌+◌, ◌<◌, ◌≤◌, ◌⊎◌, true, false, [], Some};
ghost use Rattle.std.specs.List.{list_any};
ghost use Rattle.eden_base.specs.Limits.{end_of_files};
ghost use Rattle.eden_base.specs.declared.number.FileId.{FileId};
ghost use Rattle.checkout.specs.ChangedTree.{is_unlinked};
ghost use Rattle.eden_base.specs.declared.attr.Kind.TheVariants.{Dir};
ghost use Rattle.manifest.specs.Tree.{IsTree, child_of, kind_of};
ghost use Rattle.entry_table.specs.Entries.{is_kid_of};
ghost use Rattle.fuse_wire.specs.DirectoryEntries.{IsEntryName};
ghost use Rattle.fuse_ops.specs.Served.{IsInode};
ghost use Rattle.fuse_ops.specs.Soundness.{Names};
ghost use Rattle.fuse_ops.specs.Work.{lacks_name, IsFilled, IsNextEntry, ListsDir, NamesAbove};

use super::{Linkage, Located, Served};
use eden_base::{Errno, FileId, Kind, Name, NoMemory, Number, Place};
use fuse_wire::{Answer, DirectoryEntry, Listing};
use std::alloc::Global;

/// The inode number of a file of which no number is live, as libfuse has it (`FUSE_UNKNOWN_INO`).
const UNKNOWN_INODE: u64 = 0xffff_ffff;

/// A directory: the number by which it was asked for, its file, whether a name leads to it, and whether names in it have
/// numbers.
#[derive(Clone, Copy)]
struct Directory {
    number: Number,
    file: FileId,
    linkage: Linkage,
    has_numbers: bool,
}

impl Served {
    /// Answers a READDIR: the entries of the directory `dir` from the position `offset` on, as many as have room in
    /// `size` bytes. Takes the memory for them at once.
    pub(super) fn list(&mut self, alloc: Global, dir: Number, offset: u64, size: u32) -> Answer
        ensures lists { ListsDir self.old dir offset size result }
        ensures unchanged { self.new ≡ self.old }
    {
        let Some(Located { file, linkage }) = self.linked_file_of(dir) else {
            return Answer::Error(Errno::ESTALE);
        };
        if self.tree.kind(file) != Some(Kind::Dir) {
            return Answer::Error(Errno::ENOTDIR);
        }
        let listing = match Listing::with_room(alloc, size) {
            Ok(listing) => listing,
            Err(NoMemory) => return Answer::Error(Errno::ENOMEM),
        };
        let dir = Directory {
            number: dir,
            file,
            linkage,
            has_numbers: self.map.has_kids(dir),
        };
        Answer::Buffer(self.fill(dir, offset, listing).into_buffer())
    }

    /// Appends the entries of `dir` from the position `offset` on to `listing`, as long as they have room in it.
    fn fill(&self, dir: Directory, offset: u64, mut listing: Listing) -> Listing
        requires names { Names self.now dir.number.0 dir.file }
        requires linkage { is_unlinked self.now.tree dir.file ≡ lacks_name dir.linkage }
        requires is_dir { kind_of self.now.tree dir.file ≡ Some Dir }
        requires numbers { dir.has_numbers ≡ list_any (is_kid_of dir.number.0) self.now.map.entries }
        requires empty { listing.bytes ≡ [] }
        ensures filled { IsFilled self.now dir.file offset result }
        ensures room { result.room ≡ listing.room }
    {
        let mut from = offset;
        while let Some(entry) = self.entry_from(dir, from) {
            if !listing.push(&entry) {
                break;
            }
            from = entry.next;
        }
        listing
    }

    /// Returns the first entry of `dir` from the position `from` on, or none if there is none.
    fn entry_from(&self, dir: Directory, from: u64) -> Option<DirectoryEntry<'_>>
        requires names { Names self.now dir.number.0 dir.file }
        requires linkage { is_unlinked self.now.tree dir.file ≡ lacks_name dir.linkage }
        requires is_dir { kind_of self.now.tree dir.file ≡ Some Dir }
        requires numbers { dir.has_numbers ≡ list_any (is_kid_of dir.number.0) self.now.map.entries }
        ensures next { IsNextEntry self.now dir.file from result }
    {
        match (dir.linkage, from) {
            (Linkage::Linked, 0) => Some(entry_of(self.inode(dir.number), 0, Kind::Dir, b".")),
            (Linkage::Linked, 1) => {
                let above = self.number_above(dir.number);
                Some(entry_of(self.inode(above), 1, Kind::Dir, b".."))
            }
            _ => self.child_entry(dir, from),
        }
    }

    /// Returns the first entry of a child of `dir` from the position `from` on, or none if there is none.
    fn child_entry(&self, dir: Directory, from: u64) -> Option<DirectoryEntry<'_>>
        requires names { Names self.now dir.number.0 dir.file }
        requires behind { (is_unlinked self.now.tree dir.file ≡ true) ⊎ (2 ≤ from) }
        requires numbers { dir.has_numbers ≡ list_any (is_kid_of dir.number.0) self.now.map.entries }
        ensures next { IsNextEntry self.now dir.file from result }
    {
        let child = self.tree.child_from(dir.file, FileId(from))?;
        let Some(kind) = self.tree.kind(child.file) else {
            unreachable!()
        };
        let number = self.inode_of_child(dir, child.name);
        Some(entry_of(number, child.file.0, kind, child.name.bytes()))
    }

    /// Returns the inode number that an entry tells of the file that `name` gives in the directory `dir`. Where no name in
    /// it has a number, none is looked for.
    fn inode_of_child(&self, dir: Directory, name: &Name) -> u64
        requires numbers { dir.has_numbers ≡ list_any (is_kid_of dir.number.0) self.now.map.entries }
        ensures inode { (above file : FileId) → Names self.now dir.number.0 above
            → child_of self.now.tree above name.now ≡ Some file → IsInode self.now file result }
    {
        let map = &self.map;
        if !dir.has_numbers {
            return UNKNOWN_INODE;
        }
        match map.number_for(dir.number, name) {
            Some(number) => self.inode(number),
            None => UNKNOWN_INODE,
        }
    }

    /// Returns the inode number that an entry tells of the file that `number` names: the number itself, if it is live.
    fn inode(&self, number: Number) -> u64
        ensures inode { (file : FileId) → Names self.now number.0 file → IsInode self.now file result }
    {
        if number == Number::ROOT {
            return number.0;
        }
        if self.map.count(number) == 0 {
            return UNKNOWN_INODE;
        }
        number.0
    }

    /// Returns the number of the directory that stands above the one that `number` names. The root stands above itself.
    fn number_above(&self, number: Number) -> Number
        ensures above { (file : FileId) → Names self.now number.0 file
            → is_unlinked self.now.tree file ≡ false → NamesAbove self.now file result.0 }
        ensures is_tree { IsTree self.now.tree }
    {
        match self.map.entry(number) {
            Some(Place::Linked { parent, .. }) => *parent,
            _ => Number::ROOT,
        }
    }
}

/// Makes the entry at a position of a directory.
fn entry_of(number: u64, position: u64, kind: Kind, name: &[u8]) -> DirectoryEntry<'_>
    requires name { IsEntryName name.now }
    requires position { position < end_of_files }
    ensures entry { result ≡ record { number = number; next = position + 1; kind = kind; name = name.now } }
{
    let Ok(entry) = DirectoryEntry::of(number, position + 1, kind, name) else {
        unreachable!()
    };
    entry
}
