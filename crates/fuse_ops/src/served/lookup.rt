//! LOOKUP and GETATTR: the numbers that are given to names, and the attributes that are told of files.
ghost use Rattle.std.specs.Prelude.{◌≡◌, ◌<◌, false, true, None, Some, Ok, IsErr, IsOk, IsSome, IfOk, OnOk, OnErr, OnSome};
ghost use Rattle.eden_base.specs.declared.number.FileId.{FileId};
ghost use Rattle.std.specs.Option.{option_map, IfNone, IfSome};
ghost use Rattle.manifest.specs.Tree.{IsTree, file_of as tree_file};
ghost use Rattle.checkout.specs.ChangedTree.{attr_of, is_unlinked};
ghost use Rattle.fuse_wire.specs.declared.request.Request.TheVariants.{Lookup, Getattr};
ghost use Rattle.entry_table.specs.Entries.{entry_at, number_of_kept};
ghost use Rattle.inode_map.specs.InodeMap.{attr_of as loaded_attr};
ghost use Rattle.fuse_ops.specs.Answers.{IsBacked};
ghost use Rattle.fuse_ops.specs.Loading.{Backs, FailsAs, FindsUnloaded, Loads, ShowsUnloaded, loaded_told};
ghost use Rattle.fuse_ops.specs.Served.{IsUnloaded};
ghost use Rattle.fuse_ops.specs.Soundness.{Names};
ghost use Rattle.fuse_ops.specs.Work.{errno_of, Finds, GivesEntry, IsAsKnown, IsSamePlainly, lacks_name, LooksUp, Shows};

use super::{Found, Linkage, Located, Served};
use checkout::{Backing, BackingFault, Tree};
use eden_base::{Attr, END_OF_NUMBERS, Errno, FileId, Kind, Name, Number};
use fuse_wire::Answer;
use inode_map::GiveFault;
use std::alloc::Global;

impl Served {
    /// Answers a LOOKUP. If the name has a number, the file is that of the number, and the directory isn't looked at.
    pub(super) fn look_up<B: Backing>(
        &mut self,
        alloc: Global,
        backing: &mut B,
        dir: Number,
        name: &Name,
    ) -> Answer
        requires backs { Backs (B.content backing.old) self.old.tree }
        ensures answer { LooksUp self.old dir name.now result self.new }
        ensures loads { Loads self.old.map (Lookup dir name.now) (Some result) self.new.map }
        ensures fails { FailsAs (Some result) (B.failed backing.old) (B.failed backing.new) }
        ensures as_known { IsAsKnown (FindsUnloaded self.old dir name.now) result (B.will_answer backing.old) }
        ensures same_content { (file : FileId) → B.content backing.new file ≡ B.content backing.old file }
    {
        if let Some(number) = self.map.number_for(dir, name) {
            return self.enter_again(backing, dir, name, number);
        }
        match self.find(dir, name) {
            Ok(found) => self.enter_next(alloc, backing, dir, name, found),
            Err(errno) => Answer::Error(errno),
        }
    }

    /// Answers with the entry of a name that has a number. The count of the number is raised first, and lowered again
    /// if the backing fails.
    fn enter_again<B: Backing>(
        &mut self,
        backing: &mut B,
        dir: Number,
        name: &Name,
        number: Number,
    ) -> Answer
        requires backs { Backs (B.content backing.old) self.old.tree }
        requires has { Some number ≡ option_map number_of_kept (entry_at self.old.map.entries dir.0 name.now) }
        ensures answer { LooksUp self.old dir name.now result self.new }
        ensures loads { Loads self.old.map (Lookup dir name.now) (Some result) self.new.map }
        ensures fails { FailsAs (Some result) (B.failed backing.old) (B.failed backing.new) }
        ensures as_known { IsAsKnown (FindsUnloaded self.old dir name.now) result (B.will_answer backing.old) }
        ensures same_content { (file : FileId) → B.content backing.new file ≡ B.content backing.old file }
    {
        let number = match self.map.give_again(dir, name, number) {
            Ok(number) => number,
            Err(fault) => return Answer::Error(errno_of(fault)),
        };
        if let Some(attr) = self.loaded(number, Linkage::Linked) {
            return Answer::Entry { number, attr };
        }
        let Some(file) = self.file_of(number) else {
            unreachable!()
        };
        let located = Located {
            file,
            linkage: Linkage::Linked,
        };
        match self.load_asked(backing, number, located) {
            Ok(attr) => Answer::Entry { number, attr },
            Err(BackingFault) => {
                self.map.forget(number, 1);
                Answer::Error(Errno::EIO)
            }
        }
    }

    /// Answers with the entry of a file under a name without a number, which is given the next one. The backing is
    /// asked after every refusal but that of memory is excluded.
    fn enter_next<B: Backing>(
        &mut self,
        alloc: Global,
        backing: &mut B,
        dir: Number,
        name: &Name,
        found: Found,
    ) -> Answer
        requires backs { Backs (B.content backing.old) self.old.tree }
        requires found { Finds self.old dir.0 name.now (Ok found) }
        requires free { entry_at self.old.map.entries dir.0 name.now ≡ None }
        ensures entry { GivesEntry self.old dir name.now found.file result self.new }
        ensures loads { Loads self.old.map (Lookup dir name.now) (Some result) self.new.map }
        ensures fails { FailsAs (Some result) (B.failed backing.old) (B.failed backing.new) }
        ensures as_known { IsAsKnown (FindsUnloaded self.old dir name.now) result (B.will_answer backing.old) }
        ensures same_content { (file : FileId) → B.content backing.new file ≡ B.content backing.old file }
    {
        if self.map.next() >= END_OF_NUMBERS {
            return Answer::Error(Errno::ENOSPC);
        }
        let located = Located {
            file: found.file,
            linkage: Linkage::Linked,
        };
        let Ok(attr) = ask(&self.tree, backing, located) else {
            return Answer::Error(Errno::EIO);
        };
        match self.map.give_next(alloc, dir, name) {
            Ok(number) => {
                self.map.remember(number, found.file);
                self.map.load(number, attr);
                Answer::Entry { number, attr }
            }
            Err(fault) => Answer::Error(errno_of(fault)),
        }
    }

    /// Answers a GETATTR. Takes no memory.
    pub(super) fn get_attr<B: Backing>(&mut self, backing: &mut B, node: Number) -> Answer
        requires backs { Backs (B.content backing.old) self.old.tree }
        ensures answer { Shows self.old node result }
        ensures plainly { IsSamePlainly self.old self.new }
        ensures loads { Loads self.old.map (Getattr node) (Some result) self.new.map }
        ensures fails { FailsAs (Some result) (B.failed backing.old) (B.failed backing.new) }
        ensures as_known { IsAsKnown (ShowsUnloaded self.old node) result (B.will_answer backing.old) }
        ensures same_content { (file : FileId) → B.content backing.new file ≡ B.content backing.old file }
    {
        let Some(located) = self.linked_file_of(node) else {
            return Answer::Error(Errno::ESTALE);
        };
        match self.load(backing, node, located) {
            Ok(attr) => Answer::Attrs { number: node, attr },
            Err(BackingFault) => Answer::Error(Errno::EIO),
        }
    }

    /// Returns the attributes of a number's file, and loads them if they aren't loaded. The root's are never loaded.
    fn load<B: Backing>(
        &mut self,
        backing: &mut B,
        number: Number,
        located: Located,
    ) -> Result<Attr, BackingFault>
        requires backs { Backs (B.content backing.old) self.old.tree }
        requires names { Names self.old number.0 located.file }
        requires linkage { is_unlinked self.old.tree located.file ≡ lacks_name located.linkage }
        ensures attr { IfOk result (λ told. attr_of self.old.tree located.file ≡ Some told) }
        ensures loaded { IfOk result (λ told. self.new
            ≡ record self.old { map = record self.old.map { loaded = loaded_told self.old.map number told } }) }
        ensures unchanged { OnErr result (self.new ≡ self.old) }
        ensures not_loaded { OnErr result (IsUnloaded self.old located.file) }
        ensures answered { OnOk result (B.failed backing.new ≡ B.failed backing.old) }
        ensures failed { OnErr result (B.failed backing.old < B.failed backing.new) }
        ensures failing { B.will_answer backing.old ≡ Some false → IsUnloaded self.old located.file → IsErr result }
        ensures answering { B.will_answer backing.old ≡ Some true → IsOk result }
        ensures same_content { (file : FileId) → B.content backing.new file ≡ B.content backing.old file }
    {
        if number == Number::ROOT {
            return ask(&self.tree, backing, located);
        }
        if let Some(attr) = self.loaded(number, located.linkage) {
            return Ok(attr);
        }
        self.load_asked(backing, number, located)
    }

    /// Returns the loaded attributes of `number`, if any, and makes them the most recent. The link count comes from
    /// `linkage`, since names come and go.
    fn loaded(&mut self, number: Number, linkage: Linkage) -> Option<Attr>
        requires other { number.0 ≡ 1 → ⊥ }
        ensures attr { IfSome result (λ told. (file : FileId) → Names self.old number.0 file
            → is_unlinked self.old.tree file ≡ lacks_name linkage → attr_of self.old.tree file ≡ Some told) }
        ensures loaded { IfSome result (λ told. self.new
            ≡ record self.old { map = record self.old.map { loaded = loaded_told self.old.map number told } }) }
        ensures was_loaded { OnSome result (IsSome (loaded_attr self.old.map.loaded number.0)) }
        ensures unloaded { IfNone result (loaded_attr self.old.map.loaded number.0 ≡ None) }
        ensures unchanged { IfNone result (self.new ≡ self.old) }
    {
        let loaded = self.map.attr(number)?;
        Some(Attr {
            kind: loaded.kind,
            perm: loaded.perm,
            size: loaded.size,
            nlink: linkage.nlink(loaded.kind),
        })
    }

    /// Asks for the attributes of the file that `number` names and for which none are loaded, and loads them. It is
    /// inlined: a call would cost such a GETATTR a tenth more.
    #[inline(always)]
    fn load_asked<B: Backing>(
        &mut self,
        backing: &mut B,
        number: Number,
        located: Located,
    ) -> Result<Attr, BackingFault>
        requires backs { Backs (B.content backing.old) self.old.tree }
        requires names { Names self.old number.0 located.file }
        requires linkage { is_unlinked self.old.tree located.file ≡ lacks_name located.linkage }
        requires other { number.0 ≡ 1 → ⊥ }
        requires unloaded { loaded_attr self.old.map.loaded number.0 ≡ None }
        ensures attr { IfOk result (λ told. attr_of self.old.tree located.file ≡ Some told) }
        ensures loaded { IfOk result (λ told. self.new
            ≡ record self.old { map = record self.old.map { loaded = loaded_told self.old.map number told } }) }
        ensures unchanged { OnErr result (self.new ≡ self.old) }
        ensures backed { OnErr result (IsBacked self.old.tree located.file) }
        ensures answered { OnOk result (B.failed backing.new ≡ B.failed backing.old) }
        ensures failed { OnErr result (B.failed backing.old < B.failed backing.new) }
        ensures failing { B.will_answer backing.old ≡ Some false → IsBacked self.old.tree located.file → IsErr result }
        ensures answering { B.will_answer backing.old ≡ Some true → IsOk result }
        ensures same_content { (file : FileId) → B.content backing.new file ≡ B.content backing.old file }
    {
        let told = ask(&self.tree, backing, located)?;
        self.map.load(number, told);
        Ok(told)
    }
}

/// Returns the attributes of the file that was located. The backing is asked for a regular file of the manifest; the
/// tree knows any other.
fn ask<B: Backing>(tree: &Tree, backing: &mut B, located: Located) -> Result<Attr, BackingFault>
    requires is_tree { IsTree tree.now }
    requires there { IsSome (tree_file tree.now located.file) }
    requires linkage { is_unlinked tree.now located.file ≡ lacks_name located.linkage }
    requires backs { Backs (B.content backing.old) tree.now }
    ensures attr { IfOk result (λ told. attr_of tree.now located.file ≡ Some told) }
    ensures backed { OnErr result (IsBacked tree.now located.file) }
    ensures answered { OnOk result (B.failed backing.new ≡ B.failed backing.old) }
    ensures failed { OnErr result (B.failed backing.old < B.failed backing.new) }
    ensures failing { B.will_answer backing.old ≡ Some false → IsBacked tree.now located.file → IsErr result }
    ensures answering { B.will_answer backing.old ≡ Some true → IsOk result }
    ensures same_content { (other : FileId) → B.content backing.new other ≡ B.content backing.old other }
{
    if tree.is_backed(located.file) {
        let content = backing.attr(located.file)?;
        return Ok(Attr {
            kind: Kind::File,
            perm: content.perm,
            size: content.size,
            nlink: located.linkage.nlink(Kind::File),
        });
    }
    Ok(known(tree, located.file))
}

/// Returns the attributes of `file`, as the tree knows them. It isn't inlined, so that its caller stays short.
#[inline(never)]
fn known(tree: &Tree, file: FileId) -> Attr
    requires there { IsSome (tree_file tree.now file) }
    ensures attr { attr_of tree.now file ≡ Some result }
{
    let Some(attr) = tree.attr(file) else {
        unreachable!()
    };
    attr
}

/// Returns the error for the cause why no number could be given.
fn errno_of(fault: GiveFault) -> Errno
    ensures { result ≡ errno_of fault }
{
    match fault {
        GiveFault::NoNumber => Errno::ENOSPC,
        GiveFault::TooMany => Errno::EOVERFLOW,
        GiveFault::NoMemory => Errno::ENOMEM,
    }
}
