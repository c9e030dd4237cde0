//! The files of a checkout and the names that lead to them.
ghost use Rattle.std.specs.Prelude.{◌≡◌, ◌≢◌, ◌↔◌, ◌<◌, ◌==◌, ◌&&◌, ◌||◌, nat_lt, not, true, false, None, Some, IfErr, IfOk, IfSome, IsSome, OnErr, OnOk, Option};
ghost use Rattle.std.specs.FinMap.{entries};
ghost use Rattle.std.specs.List.{AllByRecursion, list_any};
ghost use Rattle.std.specs.Option.{option_map};
ghost use Rattle.eden_base.specs.Name.{IsNameText};
ghost use Rattle.eden_base.specs.Kinds.{kind_made};
ghost use Rattle.eden_base.specs.declared.attr.Kind.TheVariants.{Dir};
ghost use Rattle.checkout.specs.Around.{IsDirAbove};
ghost use Rattle.checkout.specs.BadChanges.{IsBadChange};
ghost use Rattle.checkout.specs.Changed.{changed, IsChangeRefusal};
ghost use Rattle.checkout.specs.Changes.{AreChanges};
ghost use Rattle.checkout.specs.declared.changes.Changes.{Changes as ChangesState};
ghost use Rattle.checkout.specs.Create.{IsCreateRefusal};
ghost use Rattle.manifest.specs.Tree.{Tree as TreeState, IsTree, tree_of, child_of, kind_of, file_of, nlink_of_kind, IsFirstFrom};
ghost use Rattle.checkout.specs.ChangedTree.{attr_of, next_file, nlink_of, has_links, is_empty_dir, is_full_dir, is_backed, is_linked, is_regular, is_unlinked, created, removed};
ghost use Rattle.checkout.specs.RenamedTree.{can_replace, renamed, IsAtOrAbove};

use crate::added::Added;
use crate::changes::bad_itself::bad_itself;
use crate::changes::laid::Laid;
use crate::children::{Child, first_from};
use crate::made::{MadeFile, MadeFiles};
use crate::order::sort;
use crate::unlinked_files::UnlinkedFiles;
use crate::{ChangeFault, Changes, CreateFault, LinkList, MadeList, overlay};
use eden_base::{Attr, END_OF_FILES, FileId, Kind, MadeKind, Name, NoMemory, Perm};
use manifest::{Content, Manifest, Tally, nlink_of_kind};
use std::alloc::Global;
use std::marker::Model;

/// The tree that the requests of a mount read and change. It starts as its manifest says. It holds only what differs
/// from the manifest, or did before a file came back to its name: the made files, the added links, the manifest's files
/// that lost their link, and how many links each directory lost. The room for losses is taken at once, so that every
/// name can be removed without memory.
pub struct Tree {
    alloc: Global,
    manifest: Manifest,
    made: MadeFiles,
    added: Added,
    gone: UnlinkedFiles,
    lost: Tally,
    next_file: u64,
}

impl Drop for Tree {
    fn drop(self) {
        let Tree {
            alloc: _,
            manifest: _,
            made: _,
            added: _,
            gone: _,
            lost: _,
            next_file: _,
        } = self;
    }
}

impl Model for Tree {
    ghost use Rattle.std.specs.Prelude.{◌≡◌, ◌+◌, length};
    ghost use Rattle.checkout.specs.Overlay.{tree_over, IsOverlay};
    ghost use Rattle.checkout.specs.UnlinkedFiles.{is_gone};
    ghost use Rattle.manifest.specs.Tally.{count_of};
    ghost use Rattle.manifest.specs.Tree.{Tree};
    ghost use Rattle.manifest.specs.Codes.{tree_code};

    ghost Value = { Tree };

    ghost coded = { tree_code };

    ghost view = { λ a. tree_over a.manifest a.made a.added (is_gone a.gone) a.next_file };

    ghost invariant = { λ a. IsOverlay a.manifest a.made a.added (is_gone a.gone) (count_of a.lost) a.next_file
        × (a.gone.room ≡ length a.manifest.lines + 2)
        × (a.lost.room ≡ length a.manifest.lines + 2) };
}

impl Tree {
    /// Makes the tree of the manifest, as it is before any request.
    pub fn of(alloc: Global, manifest: &Manifest) -> Result<Tree, NoMemory>
        ensures tree { IfOk result (λ tree. tree ≡ tree_of manifest.now) }
        ensures is_tree { IfOk result IsTree }
    {
        let manifest = manifest.share()?;
        let files = manifest.lines().len() + 2;
        let gone = UnlinkedFiles::with_room(alloc, files)?;
        let lost = Tally::with_room(alloc, files)?;
        Ok(Tree {
            alloc,
            manifest,
            made: MadeFiles::new(alloc),
            added: Added::new(alloc),
            gone,
            lost,
            next_file: files as u64,
        })
    }

    /// Makes the tree of a manifest after these changes, or returns the position of the first bad change. The cost
    /// grows with the changes and the directories above them, and with the room for losses.
    pub fn with_changes(
        alloc: Global,
        manifest: &Manifest,
        changes: &Changes,
    ) -> Result<Tree, ChangeFault>
        ensures tree { IfOk result (λ tree. tree ≡ changed manifest.now changes.now) }
        ensures is_tree { IfOk result IsTree }
        ensures changes { IfOk result (λ tree. AreChanges tree changes.now) }
        ensures good { OnOk result (IsBadChange manifest.now changes.now None) }
        ensures refused { IfErr result (IsChangeRefusal manifest.now changes.now) }
    {
        if let Some(position) = bad_itself(manifest, changes) {
            return Err(ChangeFault::BadChange(position));
        }
        let manifest = manifest.share()?;
        let laid = Laid::of(alloc, &manifest, changes)?;
        Ok(Tree {
            alloc,
            manifest,
            made: laid.made,
            added: laid.added,
            gone: laid.gone,
            lost: laid.lost,
            next_file: changes.next_file.0,
        })
    }

    /// Returns the commit that names the manifest.
    pub fn commit(&self) -> [u8; 20]
        ensures commit { result ≡ self.now.manifest.commit }
        ensures is_tree { IsTree self.now }
    {
        self.manifest.commit()
    }

    /// Returns the digest of the manifest's text.
    pub fn digest(&self) -> [u8; 20]
        ensures digest { result ≡ self.now.manifest.digest }
    {
        self.manifest.digest()
    }

    /// Returns the id of the file that would be made next.
    pub fn next_file(&self) -> FileId
        ensures next_file { result ≡ next_file self.now }
        ensures is_tree { IsTree self.now }
    {
        FileId(self.next_file)
    }

    /// Returns a file's kind, permissions and size, or none if the tree doesn't have the file.
    pub fn content(&self, file: FileId) -> Option<Content>
        ensures content { result ≡ file_of self.now file }
    {
        if let Some(content) = self.manifest.content(file) {
            return Some(content);
        }
        let made = self.made.get(file)?;
        Some(Content {
            kind: made.kind.kind(),
            perm: made.perm,
            size: 0,
        })
    }

    /// Returns the kind of a file, or none if the tree doesn't have the file.
    pub fn kind(&self, file: FileId) -> Option<Kind>
        ensures kind { result ≡ kind_of self.now file }
    {
        let content = self.content(file)?;
        Some(content.kind)
    }

    /// Returns whether the file is a regular file of the manifest: its attributes are the backing's to tell.
    pub fn is_backed(&self, file: FileId) -> bool
        ensures backed { result ≡ is_backed self.now file }
    {
        match self.manifest.content(file) {
            Some(content) => is_regular(content.kind),
            None => false,
        }
    }

    /// Returns whether some name leads to the file. No name leads to the root.
    pub fn is_linked(&self, file: FileId) -> bool
        ensures linked { result ≡ is_linked self.now file }
    {
        overlay::is_linked(&self.manifest, &self.added, &self.gone, file)
    }

    /// Returns the attributes that a daemon tells the kernel of a file, or none if the tree doesn't have the file.
    pub fn attr(&self, file: FileId) -> Option<Attr>
        ensures attr { result ≡ attr_of self.now file }
    {
        let content = self.content(file)?;
        Some(Attr {
            kind: content.kind,
            perm: content.perm,
            size: content.size,
            nlink: self.nlink(file, content.kind),
        })
    }

    /// Returns the count of links of a file of this kind: 0 if the file is unlinked, else the constant of the kind.
    fn nlink(&self, file: FileId, kind: Kind) -> u32
        ensures { result ≡ nlink_of self.now file kind }
    {
        if file.0 != 1 && !self.is_linked(file) {
            return 0;
        }
        nlink_of_kind(kind)
    }

    /// Returns whether `dir` is a directory of the tree in which no name stands. For what is no directory, returns
    /// `false`.
    pub fn is_empty_dir(&self, dir: FileId) -> bool
        ensures empty { result ≡ is_empty_dir self.now dir }
    {
        match self.kind(dir) {
            Some(Kind::Dir) => !self.has_links(dir),
            Some(Kind::File | Kind::Link) => false,
            None => false,
        }
    }

    /// Returns whether a name stands in the directory.
    fn has_links(&self, dir: FileId) -> bool
        ensures { result ≡ has_links self.now dir }
    {
        overlay::has_links(&self.manifest, &self.added, &self.lost, dir)
    }

    /// Returns the file under a name in a directory, or none if the directory doesn't have the name.
    pub fn child(&self, dir: FileId, name: &Name) -> Option<FileId>
        ensures child { result ≡ child_of self.now dir name.now }
    {
        if let Some(file) = self.added.get(dir, name) {
            return Some(file);
        }
        let file = self.manifest.child(dir, name.bytes())?;
        if self.gone.has(file) {
            return None;
        }
        Some(file)
    }

    /// Returns the first file from the id `least` on that stands in the directory `dir`, by rising id, with its name, or
    /// none. So a directory is listed by going on after the last file that it gave. The cost grows with the runs between
    /// of the manifest's files that lost their names.
    pub fn child_from(&self, dir: FileId, least: FileId) -> Option<Child<'_>>
        ensures first { IsFirstFrom self.now.links dir least.0 (option_map (λ child. child.file) result) }
        ensures name { IfSome result (λ child. child_of self.now dir child.name.now ≡ Some child.file) }
    {
        let (manifest, added, gone) = (&self.manifest, &self.added, &self.gone);
        let file = first_from(manifest, added, gone, dir, least)?;
        let name = overlay::name_of(manifest, added, gone, file)?;
        Some(Child { file, name })
    }

    /// Returns the directory in which a name gives the file, or none if no name gives it.
    fn dir_above(&self, file: FileId) -> Option<FileId>
        ensures dir { IsDirAbove self.now.links file result }
        ensures is_tree { IsTree self.now }
    {
        overlay::dir_above(&self.manifest, &self.added, &self.gone, file)
    }

    /// Returns whether `file` is `other` or stands above it: whether some names lead from `file` down to `other`. Goes
    /// up from `other`, at most to the root, so that the cost grows with the depth of `other` alone. No way up has more
    /// steps than there are files.
    pub fn is_at_or_above(&self, file: FileId, other: FileId) -> bool
        ensures above { result ≡ true ↔ IsAtOrAbove self.now file other }
    {
        let mut at = other;
        for _level in 0..self.next_file {
            if at.0 == file.0 {
                return true;
            }
            let Some(dir) = self.dir_above(at) else {
                return false;
            };
            at = dir;
        }
        unreachable!()
    }

    /// Returns what tells the tree from the tree of its manifest: the made files, the names that give another file or
    /// none, and the next file. The cost grows with the names that ever changed, and not with the manifest.
    pub fn changes(&self) -> Result<Changes, NoMemory>
        ensures changes { IfOk result (AreChanges self.now) }
        ensures no_others { IfOk result (λ changes. (others : ChangesState) → AreChanges self.now others
            → others ≡ changes) }
        ensures of_no_other { IfOk result (λ changes. (other : TreeState) → IsTree other
            → other.manifest ≡ self.now.manifest → AreChanges other changes → other ≡ self.now) }
        ensures names { IfOk result (λ changes. AllByRecursion (λ link. IsNameText link.name) changes.links) }
    {
        let made = self.made.list(self.alloc)?;
        let mut links = Vec::new(self.alloc);
        self.added.list(self.alloc, &mut links)?;
        self.gone
            .list(self.alloc, self.manifest.lines(), &self.added, &mut links)?;
        overlay::leave_out_same(&self.manifest, &mut links);
        sort(&mut links);
        Ok(Changes {
            made: MadeList::of(made),
            links: LinkList::of(links),
            next_file: self.next_file(),
        })
    }

    /// Makes a file without content, under a new name in a directory. Returns the file's id. If no id is left or memory
    /// is refused, nothing changes.
    pub fn create(
        &mut self,
        dir: FileId,
        name: &Name,
        kind: MadeKind,
        perm: Perm,
    ) -> Result<FileId, CreateFault>
        requires dir { kind_of self.old dir ≡ Some Dir }
        requires reached { is_unlinked self.old dir ≡ false }
        requires free { child_of self.old dir name.now ≡ None }
        ensures created { OnOk result (self.new ≡ created self.old dir name.now kind perm) }
        ensures file { IfOk result (λ file. file ≡ next_file self.old) }
        ensures attr { IfOk result (λ file. attr_of self.new file
            ≡ Some (record {
              kind = kind_made kind;
              perm = perm;
              size = 0;
              nlink = nlink_of_kind (kind_made kind);
            })) }
        ensures refused { IfErr result (IsCreateRefusal self.old) }
        ensures unchanged { OnErr result (self.new ≡ self.old) }
        ensures is_tree { IsTree self.new }
    {
        if self.next_file >= END_OF_FILES {
            return Err(CreateFault::NoFileId);
        }
        let file = FileId(self.next_file);
        let Ok(()) = self.added.insert(self.alloc, dir, name, file) else {
            return Err(CreateFault::NoMemory);
        };
        let made = MadeFile { kind, perm };
        let Ok(()) = self.made.add(file, made) else {
            self.added.remove(dir, name);
            return Err(CreateFault::NoMemory);
        };
        self.next_file += 1;
        Ok(file)
    }

    /// Removes a name from a directory, and returns the file that the name gave. The file stays in the tree. Takes no
    /// memory.
    pub fn remove(&mut self, dir: FileId, name: &Name) -> FileId
        requires there { IsSome (child_of self.old dir name.now) }
        requires not_full { IfSome (child_of self.old dir name.now) (λ file. is_full_dir self.old file ≡ false) }
        ensures file { child_of self.old dir name.now ≡ Some result }
        ensures removed { self.new ≡ removed self.old dir name.now }
        ensures is_tree { IsTree self.new }
    {
        if let Some(file) = self.added.remove(dir, name) {
            return file;
        }
        let file = self.manifest.child(dir, name.bytes()).unwrap();
        self.gone.add(file);
        self.lost.raise(dir.0);
        file
    }

    /// Moves `file`, which stands under `name` in `dir`, to `to_name` in `to_dir`. The file that stands there is `replaced`,
    /// if any: it loses its link, and stays in the tree. Looks for neither file. If memory is refused, nothing changes.
    pub fn rename(
        &mut self,
        dir: FileId,
        name: &Name,
        file: FileId,
        to_dir: FileId,
        to_name: &Name,
        replaced: Option<FileId>,
    ) -> Result<(), NoMemory>
        requires there { child_of self.old dir name.now ≡ Some file }
        requires replaced { child_of self.old to_dir to_name.now ≡ replaced }
        requires to_dir { kind_of self.old to_dir ≡ Some Dir }
        requires reached { is_unlinked self.old to_dir ≡ false }
        requires other { replaced ≢ Some file }
        requires fits { IfSome replaced (λ other. can_replace self.old file other ≡ true) }
        requires not_above { IsAtOrAbove self.old file to_dir → ⊥ }
        ensures renamed { OnOk result (self.new ≡ renamed self.old dir name.now to_dir to_name.now) }
        ensures unchanged { OnErr result (self.new ≡ self.old) }
        ensures is_tree { IsTree self.new }
    {
        self.added
            .rename(self.alloc, dir, name, to_dir, to_name, file, replaced)?;
        let (gone, lost) = (&mut self.gone, &mut self.lost);
        overlay::lose(&self.manifest, gone, lost, Some(file));
        overlay::lose(&self.manifest, gone, lost, replaced);
        Ok(())
    }
}

/// Returns whether this is the kind of a regular file.
fn is_regular(kind: Kind) -> bool
    ensures { result ≡ is_regular (Some kind) }
{
    match kind {
        Kind::File => true,
        Kind::Dir | Kind::Link => false,
    }
}
