//! Files that move from one name to another.
ghost use Rattle.std.specs.Prelude.{◌≡◌, ◌&&◌, ℕ, List, None, Some, IfOk, OnErr, OnOk};
ghost use Rattle.manifest.specs.Tree.{IsTree, child_of, is_dir, kind_of};
ghost use Rattle.std.specs.Option.{option_map};
ghost use Rattle.entry_table.specs.Entries.{entry_at, number_of_kept, IsFileOf};
ghost use Rattle.std.specs.Prelude.{Err};
ghost use Rattle.fuse_wire.specs.declared.reply.Answer.TheVariants.{Error};
ghost use Rattle.eden_base.specs.declared.errno.Errno.TheVariants.{EIO};
ghost use Rattle.fuse_wire.specs.declared.request.Request.TheVariants.{Rename};
ghost use Rattle.fuse_ops.specs.Above.{is_at_or_above};
ghost use Rattle.fuse_ops.specs.Answers.{against_replacing};
ghost use Rattle.fuse_ops.specs.Loading.{Loads, LoadsNone};
ghost use Rattle.fuse_ops.specs.Work.{FindsMovable, IsSamePlainly, MayTakeName, Moves, NameIsMoved, at_once};

use super::Served;
use eden_base::{Errno, FileId, Kind, Name, NoMemory, Number};
use fuse_wire::Answer;
use inode_map::InodeMap;
use std::alloc::Global;

/// Two directories, and the file that may move from a name in `dir` into `to_dir`; with the number of that name, if it
/// has one.
#[derive(Clone, Copy)]
pub(crate) struct Movable {
    dir: FileId,
    to_dir: FileId,
    file: FileId,
    number: Option<Number>,
}

impl Served {
    /// Answers a RENAME.
    pub(super) fn rename(
        &mut self,
        alloc: Global,
        dir: Number,
        name: &Name,
        to_dir: Number,
        to_name: &Name,
    ) -> Answer
        ensures moves { Moves self.old dir name.now to_dir to_name.now result self.new }
        ensures loads { Loads self.old.map (Rename dir name.now to_dir to_name.now) (Some result) self.new.map }
        ensures no_eio { result ≡ Error EIO → ⊥ }
    {
        let found = match self.movable(dir, name, to_dir) {
            Ok(found) => found,
            Err(errno) => return Answer::Error(errno),
        };
        let other = self.tree.child(found.to_dir, to_name);
        if let Some(answer) = self.at_once(found, other) {
            return answer;
        }
        match self.move_name(alloc, dir, found, name, to_dir, to_name, other) {
            Ok(()) => Answer::Done,
            Err(NoMemory) => Answer::Error(Errno::ENOMEM),
        }
    }

    /// Returns the directories that `from` and `to` name, and the file under `name` in the first, if it may move into the
    /// second. Else returns the error.
    fn movable(&mut self, from: Number, name: &Name, to: Number) -> Result<Movable, Errno>
        ensures found { FindsMovable self.old from.0 name.now to.0 result }
        ensures number { IfOk result (λ found. found.number
            ≡ option_map number_of_kept (entry_at self.old.map.entries from.0 name.now)) }
        ensures is_tree { OnOk result (IsTree self.old.tree) }
        ensures no_eio { result ≡ Err EIO → ⊥ }
        ensures unchanged { self.new ≡ self.old }
    {
        let dir = self.file_of(from);
        let to_dir = self.file_of(to);
        let (Some(dir), Some(to_dir)) = (dir, to_dir) else {
            return Err(Errno::ESTALE);
        };
        if self.tree.kind(dir) != Some(Kind::Dir) {
            return Err(Errno::ENOTDIR);
        }
        if self.tree.kind(to_dir) != Some(Kind::Dir) {
            return Err(Errno::ENOTDIR);
        }
        let number = self.map.number_for(from, name);
        let Some(file) = self.file_under(from, dir, name, number) else {
            return Err(Errno::ENOENT);
        };
        if to_dir != FileId::ROOT && !self.tree.is_linked(to_dir) {
            return Err(Errno::ENOENT);
        }
        if self.holds(file, to_dir) {
            return Err(Errno::EINVAL);
        }
        Ok(Movable {
            dir,
            to_dir,
            file,
            number,
        })
    }

    /// Returns the file under `name` in `dir`, the directory that `from` names. `number` is that of the name, if it has
    /// one. If a file is remembered for it, the directory isn't searched.
    fn file_under(
        &self,
        from: Number,
        dir: FileId,
        name: &Name,
        number: Option<Number>,
    ) -> Option<FileId>
        requires at { IsFileOf self.now.tree self.now.map.entries from.0 dir }
        requires number { number ≡ option_map number_of_kept (entry_at self.now.map.entries from.0 name.now) }
        ensures file { result ≡ child_of self.now.tree dir name.now }
    {
        let _ = from;
        if let Some(number) = number {
            if let Some(file) = self.map.recall(number) {
                return Some(file);
            }
        }
        self.tree.child(dir, name)
    }

    /// Returns whether `file` is a directory which is `dir`, or above it.
    fn holds(&self, file: FileId, dir: FileId) -> bool
        ensures { result ≡ (is_dir (kind_of self.now.tree file) && is_at_or_above self.now.tree file dir) }
    {
        self.tree.kind(file) == Some(Kind::Dir) && self.tree.is_at_or_above(file, dir)
    }

    /// Returns the answer to a move for which nothing has to be done, where `other` is the file under the new name, if
    /// any: the file is there already, or it may not take the name of `other`. Returns none where the file has to move.
    fn at_once(&self, found: Movable, other: Option<FileId>) -> Option<Answer>
        ensures { (to_name : List ℕ) → child_of self.now.tree found.to_dir to_name ≡ other
            → result ≡ at_once self.now.tree found to_name }
    {
        let other = other?;
        if other == found.file {
            return Some(Answer::Done);
        }
        let errno = self.against_replacing(found.file, other)?;
        Some(Answer::Error(errno))
    }

    /// Returns why `file` may not take the name of `other`, if something stands against it.
    fn against_replacing(&self, file: FileId, other: FileId) -> Option<Errno>
        ensures { result ≡ against_replacing self.now.tree file (Some other) }
    {
        let is_dir = self.tree.kind(other) == Some(Kind::Dir);
        if self.tree.kind(file) != Some(Kind::Dir) {
            return if is_dir { Some(Errno::EISDIR) } else { None };
        }
        if !is_dir {
            return Some(Errno::ENOTDIR);
        }
        if !self.tree.is_empty_dir(other) {
            return Some(Errno::ENOTEMPTY);
        }
        None
    }

    /// Moves the file that was found from `name` to `to_name`, and its number with it, if it has one. `other` is the file
    /// under `to_name`, if any. All memory is taken before a number, a name or a file changes.
    fn move_name(
        &mut self,
        alloc: Global,
        dir: Number,
        found: Movable,
        name: &Name,
        to_dir: Number,
        to_name: &Name,
        other: Option<FileId>,
    ) -> Result<(), NoMemory>
        requires may { MayTakeName self.old dir found name.now to_dir to_name.now }
        requires number { found.number
            ≡ option_map number_of_kept (entry_at self.old.map.entries dir.0 name.now) }
        requires stood { child_of self.old.tree found.to_dir to_name.now ≡ other }
        ensures moved { OnOk result (NameIsMoved self.old dir found name.now to_dir to_name.now self.new) }
        ensures is_tree { IsTree self.new.tree }
        ensures unchanged { OnErr result (IsSamePlainly self.old self.new) }
        ensures loads_none { OnErr result (LoadsNone self.old.map self.new.map) }
    {
        let Some(number) = found.number else {
            return self.move_unnumbered(dir, found, name, to_dir, to_name, other);
        };
        let own = ready(&mut self.map, alloc, to_name)?;
        self.tree
            .rename(found.dir, name, found.file, found.to_dir, to_name, other)?;
        self.map.relink(number, to_dir, own, other);
        Ok(())
    }

    /// Moves the file that was found, and that has no number, from `name` to `to_name`. `other` is the file under
    /// `to_name`, if any.
    fn move_unnumbered(
        &mut self,
        dir: Number,
        found: Movable,
        name: &Name,
        to_dir: Number,
        to_name: &Name,
        other: Option<FileId>,
    ) -> Result<(), NoMemory>
        requires may { MayTakeName self.old dir found name.now to_dir to_name.now }
        requires stood { child_of self.old.tree found.to_dir to_name.now ≡ other }
        requires unnumbered { entry_at self.old.map.entries dir.0 name.now ≡ None }
        ensures moved { OnOk result (NameIsMoved self.old dir found name.now to_dir to_name.now self.new) }
        ensures is_tree { IsTree self.new.tree }
        ensures unchanged { OnErr result (self.new ≡ self.old) }
    {
        let _ = dir;
        self.tree
            .rename(found.dir, name, found.file, found.to_dir, to_name, other)?;
        let Some(file) = other else {
            return Ok(());
        };
        let taken = self.map.number_for(to_dir, to_name);
        if let Some(number) = taken {
            self.map.unlink(number, file);
        }
        Ok(())
    }
}

/// Takes the memory for a number's new name, and returns a copy of `name` that the number can get.
fn ready(map: &mut InodeMap, alloc: Global, name: &Name) -> Result<Name, NoMemory>
    ensures name { IfOk result (λ own. own ≡ name.now) }
    ensures room { OnOk result (map.new ≡ record map.old { spare = 1 }) }
    ensures unchanged { OnErr result (map.new ≡ map.old) }
{
    let own = name.copy(alloc)?;
    match map.reserve(alloc) {
        Ok(()) => Ok(own),
        Err(NoMemory) => Err(NoMemory),
    }
}
