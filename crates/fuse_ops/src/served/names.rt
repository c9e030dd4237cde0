//! Names that are made with their files, and names that are taken away.
ghost use Rattle.std.specs.Prelude.{◌≡◌, ◌<◌, false, IsSome, IfOk, IfErr, OnOk, OnErr};
ghost use Rattle.eden_base.specs.Limits.{end_of_numbers};
ghost use Rattle.eden_base.specs.declared.number.FileId.{FileId};
ghost use Rattle.std.specs.Option.{IfSome};
ghost use Rattle.manifest.specs.Tree.{child_of};
ghost use Rattle.checkout.specs.ChangedTree.{is_full_dir};
ghost use Rattle.entry_table.specs.Entries.{IsFileOf};
ghost use Rattle.fuse_ops.specs.Loading.{LoadsTold, LoadsNone};
ghost use Rattle.fuse_ops.specs.Work.{IsFree, IsNextRefusal, Makes, NameIsTaken};

use super::Served;
use eden_base::{
    Attr, END_OF_FILES, END_OF_NUMBERS, Errno, FileId, Kind, MadeKind, Name, Number, Perm,
};
use inode_map::InodeMap;
use manifest::nlink_of_kind;
use std::alloc::Global;

impl Served {
    /// Makes a file under a name in the directory that `dir` names, and gives the next number for it. All memory is
    /// taken before any number, name or file changes.
    pub(super) fn make(
        &mut self,
        alloc: Global,
        dir: Number,
        name: &Name,
        kind: MadeKind,
        perm: Perm,
    ) -> Result<(Number, Attr), Errno>
        ensures makes { Makes self.old dir name.now kind perm result self.new }
        ensures loads { IfOk result (λ made. LoadsTold self.old.map made.0 made.1 self.new.map) }
        ensures loads_none { OnErr result (LoadsNone self.old.map self.new.map) }
    {
        let above = self.free_place(dir, name)?;
        let own = match ready(&mut self.map, alloc, name) {
            Ok(own) => own,
            Err(errno) => return Err(errno),
        };
        let Ok(file) = self.tree.create(above, name, kind, perm) else {
            return Err(Errno::ENOMEM);
        };
        let Ok(number) = self.map.give_ready(dir, own) else {
            unreachable!()
        };
        self.map.remember(number, file);
        let kind = kind.kind();
        let nlink = nlink_of_kind(kind);
        let attr = Attr {
            kind,
            perm,
            size: 0,
            nlink,
        };
        self.map.load(number, attr);
        Ok((number, attr))
    }

    /// Returns the directory that `dir` names, if `name` is free in it and a file may be made, else the error.
    fn free_place(&mut self, dir: Number, name: &Name) -> Result<FileId, Errno>
        ensures free { IsFree self.old dir.0 name.now result }
        ensures unchanged { self.new ≡ self.old }
    {
        let dir = self.file_of(dir).ok_or(Errno::ESTALE)?;
        if self.tree.kind(dir) != Some(Kind::Dir) {
            return Err(Errno::ENOTDIR);
        }
        if dir != FileId::ROOT && !self.tree.is_linked(dir) {
            return Err(Errno::ENOENT);
        }
        if self.tree.child(dir, name).is_some() {
            return Err(Errno::EEXIST);
        }
        if self.tree.next_file().0 >= END_OF_FILES {
            return Err(Errno::ENOSPC);
        }
        Ok(dir)
    }

    /// Takes a name out of the directory that `number` names. If the file has a number, that number still names the
    /// file.
    pub(super) fn take_name(&mut self, number: Number, dir: FileId, name: &Name)
        requires dir { IsFileOf self.old.tree self.old.map.entries number.0 dir }
        requires there { IsSome (child_of self.old.tree dir name.now) }
        requires not_full { IfSome (child_of self.old.tree dir name.now) (λ file. is_full_dir self.old.tree file ≡ false) }
        ensures taken { NameIsTaken self.old number dir name.now self.new }
    {
        let kept = self.map.number_for(number, name);
        let file = self.tree.remove(dir, name);
        if let Some(kept) = kept {
            self.map.unlink(kept, file);
        }
    }
}

/// Takes the memory for the next number and for its name, and returns a copy of `name` to which the number can be
/// given.
fn ready(map: &mut InodeMap, alloc: Global, name: &Name) -> Result<Name, Errno>
    ensures name { IfOk result (λ own. own ≡ name.now) }
    ensures room { OnOk result (map.new ≡ record map.old { spare = 1 }) }
    ensures left { OnOk result (map.old.next < end_of_numbers) }
    ensures refused { IfErr result (IsNextRefusal map.old.next) }
    ensures unchanged { OnErr result (map.new ≡ map.old) }
{
    if map.next() >= END_OF_NUMBERS {
        return Err(Errno::ENOSPC);
    }
    let Ok(own) = name.copy(alloc) else {
        return Err(Errno::ENOMEM);
    };
    match map.reserve(alloc) {
        Ok(()) => Ok(own),
        Err(_) => Err(Errno::ENOMEM),
    }
}
