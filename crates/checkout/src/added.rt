//! The links that were added since the manifest, by name and by file.
ghost use Rattle.std.specs.Prelude.{◌≡◌, ◌≢◌, ◌==◌, ◌++◌, ◌<◌, ◌≤◌, ℕ, List, map, None, Some, false, true, IfSome, MatchOption, OnErr, OnOk};
ghost use Rattle.std.specs.FinMap.{empty, entries, get, insert, remove, FinMap};
ghost use Rattle.std.specs.HashMap.{spare};
ghost use Rattle.std.specs.List.{list_any};
ghost use Rattle.std.specs.List.Sorted.{IsPermutation};
ghost use Rattle.directory_index.specs.Index.{has_room};
ghost use Rattle.eden_base.specs.Name.{IsNameText};
ghost use Rattle.eden_base.specs.declared.number.FileId.{FileId};
ghost use Rattle.manifest.specs.Links.{added_change};
ghost use Rattle.manifest.specs.Tree.{link_cmp, IsFirstFrom};
ghost use Rattle.checkout.specs.Added.{gives, place_of_file, without, AreLinks};

mod places;

use directory_index::{DirectoryIndex, Places};
use eden_base::{FileId, Name, NoMemory};
use manifest::LinkChange;
use places::{AddedPlace, AddedPlaces};
use std::alloc::Global;
use std::collections::HashMap;
use std::marker::Model;

/// The added links. Each gives a made file, or a file of the manifest that moved away from its line's name. Such a file
/// stands under another name, or came back to its own. Both kinds are in one map, so that only one place keeps the
/// parts in agreement.
#[derive(Drop)]
pub struct Added {
    places: AddedPlaces,
    index: DirectoryIndex,
}

impl Model for Added {
    ghost use Rattle.std.specs.FinMap.{FinMap};
    ghost use Rattle.eden_base.specs.declared.number.FileId.{FileId};
    ghost use Rattle.checkout.specs.Added.{links_of, AreLinks};
    ghost use Rattle.manifest.specs.Codes.{links_code};
    ghost use Rattle.manifest.specs.Tree.{link_cmp};

    ghost Value = { FinMap link_cmp FileId };

    ghost coded = { links_code };

    ghost view = { λ a. links_of a.places.files.entries };

    ghost invariant = { λ a. AreLinks (links_of a.places.files.entries) a.places a.index };
}

impl Added {
    /// Makes an empty set of links.
    pub fn new(alloc: Global) -> Added
        ensures { result ≡ empty }
    {
        Added::for_links(alloc, 0)
    }

    /// Makes an empty set of links, the index of which is made for this many `links`. It takes no memory before the first
    /// link comes.
    pub fn for_links(alloc: Global, links: usize) -> Added
        ensures { result ≡ empty }
    {
        Added {
            places: AddedPlaces {
                files: HashMap::new(alloc),
            },
            index: DirectoryIndex::for_numbers(alloc, links),
        }
    }

    /// Returns the file that an added link gives under `name` in `dir`, or none if there is no such link. If no added
    /// link stands in `dir`, no name is looked at.
    pub fn get(&self, dir: FileId, name: &Name) -> Option<FileId>
        ensures { result ≡ get self.now (dir.0, name.now) }
    {
        if !self.has_links(dir) {
            return None;
        }
        let file = self.index.get(&self.places, dir.0, name.bytes())?;
        Some(FileId(file))
    }

    /// Returns whether an added link stands in `dir`.
    pub fn has_links(&self, dir: FileId) -> bool
        ensures { result ≡ list_any (λ link. link.0.0 == dir.0) (entries self.now) }
    {
        self.index.has_names(dir.0)
    }

    /// Returns the directory in which an added link gives the file, or none if no added link gives it.
    pub fn dir_of(&self, file: FileId) -> Option<FileId>
        ensures { MatchOption result (gives self.now file ≡ false) (λ dir.
            (name : List ℕ) × (get self.now (dir.0, name) ≡ Some file)) }
    {
        let place = self.places.files.get(&file.0)?;
        Some(place.dir)
    }

    /// Returns the name under which an added link gives the file, or none if no added link gives it.
    pub fn name_of(&self, file: FileId) -> Option<&Name>
        ensures { MatchOption result (gives self.now file ≡ false) (λ name.
            (dir : FileId) × (get self.now (dir.0, name.now) ≡ Some file)) }
    {
        let place = self.places.files.get(&file.0)?;
        Some(&place.name)
    }

    /// Returns the first file from the id `least` on that an added link gives in the directory `dir`, by rising id, or none.
    pub fn first_from(&self, dir: FileId, least: FileId) -> Option<FileId>
        ensures { IsFirstFrom self.now dir least.0 result }
    {
        self.index.first_from(dir.0, least.0).map(FileId)
    }

    /// Appends each link to `links`, as one that was added.
    pub fn list(&self, alloc: Global, links: &mut Vec<LinkChange>) -> Result<(), NoMemory>
        ensures { OnOk result (IsPermutation (links.old.items ++ map added_change (entries self.now)) links.new.items) }
    {
        for (file, place) in &self.places.files {
            let name = place.name.copy(alloc)?;
            links.push(LinkChange {
                dir: place.dir,
                name,
                target: Some(FileId(*file)),
            })?;
        }
        Ok(())
    }

    /// Adds a link by which `name` in `dir` gives `file`. This name must be free, and no added link may give `file`. If
    /// memory is refused, nothing changes.
    pub fn insert(
        &mut self,
        alloc: Global,
        dir: FileId,
        name: &Name,
        file: FileId,
    ) -> Result<(), NoMemory>
        requires free { get self.old (dir.0, name.now) ≡ None }
        requires new { gives self.old file ≡ false }
        ensures ok { OnOk result (self.new ≡ insert self.old (dir.0, name.now) file) }
        ensures name { OnOk result (IsNameText name.now) }
        ensures err { OnErr result (self.new ≡ self.old) }
    {
        let own = name.copy(alloc)?;
        make_room(&mut self.places, &mut self.index, alloc)?;
        let place = AddedPlace { dir, name: own };
        link(&mut self.places, &mut self.index, place, file);
        Ok(())
    }

    /// Gives back the room that no link takes. No link changes.
    pub fn trim(&mut self)
        ensures { self.new ≡ self.old }
    {
        self.places.files.shrink_to_fit();
        self.index.trim();
    }

    /// Removes the added link under `name` in `dir`, and returns its file, or none if there is no such link. Takes no
    /// memory.
    pub fn remove(&mut self, dir: FileId, name: &Name) -> Option<FileId>
        ensures value { result ≡ get self.old (dir.0, name.now) }
        ensures links { self.new ≡ remove self.old (dir.0, name.now) }
    {
        if !self.has_links(dir) {
            return None;
        }
        take(&mut self.places, &mut self.index, dir, name)
    }

    /// Lets `to_name` in `to_dir` give `file`. If an added link stands there, it gives `replaced`, and is replaced. Removes
    /// the link under `name` in `dir`, if one was added there: the only one that gives `file`. If memory is refused,
    /// nothing changes.
    pub fn rename(
        &mut self,
        alloc: Global,
        dir: FileId,
        name: &Name,
        to_dir: FileId,
        to_name: &Name,
        file: FileId,
        replaced: Option<FileId>,
    ) -> Result<(), NoMemory>
        requires there { IfSome (get self.old (dir.0, name.now)) (λ other. other ≡ file) }
        requires once { (d : FileId) (n : List ℕ) → get self.old (d.0, n) ≡ Some file → (d ≡ dir) × (n ≡ name.now) }
        requires other { get self.old (to_dir.0, to_name.now) ≢ Some file }
        requires replaced { IfSome (get self.old (to_dir.0, to_name.now)) (λ other. replaced ≡ Some other) }
        requires apart { (dir ≡ to_dir) → name.now ≢ to_name.now }
        ensures ok { OnOk result (self.new
            ≡ insert (remove self.old (dir.0, name.now)) (to_dir.0, to_name.now) file) }
        ensures name { OnOk result (IsNameText to_name.now) }
        ensures err { OnErr result (self.new ≡ self.old) }
    {
        let own = to_name.copy(alloc)?;
        make_room(&mut self.places, &mut self.index, alloc)?;
        unlink(&mut self.places, &mut self.index, file);
        unlink_at(&mut self.places, &mut self.index, to_dir, to_name, replaced);
        let place = AddedPlace {
            dir: to_dir,
            name: own,
        };
        link(&mut self.places, &mut self.index, place, file);
        Ok(())
    }
}

/// Makes room for one more link. No link changes.
fn make_room(
    places: &mut AddedPlaces,
    index: &mut DirectoryIndex,
    alloc: Global,
) -> Result<(), NoMemory>
    requires links { (links : FinMap link_cmp FileId) × AreLinks links places.old index.old }
    ensures same { (links : FinMap link_cmp FileId) → AreLinks links places.old index.old
        → AreLinks links places.new index.new }
    ensures spare { OnOk result (0 < spare places.new.files) }
    ensures room { OnOk result (has_room index.new ≡ true) }
{
    index.make_room(alloc, places)?;
    places.files.reserve(1)?;
    Ok(())
}

/// Adds the link that gives `file` at `place`, in the room that `make_room` made.
fn link(places: &mut AddedPlaces, index: &mut DirectoryIndex, place: AddedPlace, file: FileId)
    requires spare { 0 < spare places.old.files }
    requires room { has_room index.old ≡ true }
    ensures { (links : FinMap link_cmp FileId) → AreLinks links places.old index.old
        → get links (place.dir.0, place.name) ≡ None → gives links file ≡ false
        → AreLinks (insert links (place.dir.0, place.name) file) places.new index.new }
{
    index.insert(place.dir.0, place.name.bytes(), file.0);
    let Ok(_) = places.files.insert(file.0, place) else {
        unreachable!()
    };
}

/// Removes the link that gives `file`, if there is one.
fn unlink(places: &mut AddedPlaces, index: &mut DirectoryIndex, file: FileId)
    ensures links { (links : FinMap link_cmp FileId) → AreLinks links places.old index.old
        → AreLinks (without links (place_of_file places.old file.0)) places.new index.new }
    ensures spare { spare places.old.files ≤ spare places.new.files }
    ensures room { has_room index.old ≡ true → has_room index.new ≡ true }
{
    let Some(place) = places.files.remove(&file.0) else {
        return;
    };
    index.remove(place.dir.0, place.name.bytes(), file.0);
}

/// Removes the link under `name` in `dir`, and returns the file that it gave, or none if there is no such link.
fn take(
    places: &mut AddedPlaces,
    index: &mut DirectoryIndex,
    dir: FileId,
    name: &Name,
) -> Option<FileId>
    ensures file { (links : FinMap link_cmp FileId) → AreLinks links places.old index.old
        → result ≡ get links (dir.0, name.now) }
    ensures links { (links : FinMap link_cmp FileId) → AreLinks links places.old index.old
        → AreLinks (remove links (dir.0, name.now)) places.new index.new }
{
    let Some(file) = index.take(places, dir.0, name.bytes()) else {
        return None;
    };
    places.files.remove(&file);
    Some(FileId(file))
}

/// Removes the added link under `name` in `dir`, if there is one: it gives `file`. Does nothing where the manifest's own link
/// gives `file` there.
fn unlink_at(
    places: &mut AddedPlaces,
    index: &mut DirectoryIndex,
    dir: FileId,
    name: &Name,
    file: Option<FileId>,
)
    ensures links { (links : FinMap link_cmp FileId) → AreLinks links places.old index.old
        → IfSome (get links (dir.0, name.now)) (λ other. file ≡ Some other)
        → AreLinks (remove links (dir.0, name.now)) places.new index.new }
    ensures spare { spare places.old.files ≤ spare places.new.files }
    ensures room { has_room index.old ≡ true → has_room index.new ≡ true }
{
    let Some(file) = file else {
        return;
    };
    if places.stands(file.0, dir.0, name.bytes()) {
        unlink(places, index, file);
    }
}
