//! What a daemon remembers for the kernel.
ghost use Rattle.std.specs.Prelude.{◌≡◌, ℕ, ◌+◌, ◌<◌, ◌≤◌, ◌^◌, None, Some, IsSome, true, length, MatchOption, IfOk, IfErr, OnOk, OnErr};
ghost use Rattle.std.specs.List.{AllByRecursion, filter, list_any};
ghost use Rattle.std.specs.Option.{option_map, option_copied, IfSome};
ghost use Rattle.eden_base.specs.Limits.{end_of_numbers};
ghost use Rattle.eden_base.specs.declared.number.FileId.{FileId};
ghost use Rattle.eden_base.specs.declared.number.Number.{Number};
ghost use Rattle.inode_map.specs.declared.loaded.LoadedAttr.{LoadedAttr};
ghost use Rattle.inode_map.specs.Words.{forgot_name};
ghost use Rattle.entry_table.specs.EntryPlaces.{AreOfUseBut, IsNamedEntry, is_linked_entry};
ghost use Rattle.entry_table.specs.Entries.{entry_of, entry_at, count_of, number_after, number_of_kept, place_of_kept, is_known, is_kid_of, is_bad_item, lowered, IsFileOf, AreNumbers, AreEntries, file_remembered, remembered};
ghost use Rattle.inode_map.specs.InodeMap.{new_map, map_of, give_fault, number_given, given, IsGiveRefusal, forgot, forgotten, is_useless, attr_of, used, load, loaded_number, left_of_use};
ghost use Rattle.entry_table.specs.Table.{AreOfKept, file_number};
ghost use Rattle.inode_map.specs.Loaded.{attrs_in, AreNamed};
ghost use Rattle.inode_map.specs.Pruned.{of_kept, pruned};

mod places;

use crate::loaded::{LoadedAttr, attr_at, load_attr, nodes_of, strike};
use checkout::Tree;
use eden_base::{Attr, END_OF_NUMBERS, FileId, Name, NoMemory, Number, Place};
use entry_table::{Kept, NamedEntries, Table};
use node_arena::NodeArena;
use std::alloc::Global;
use std::marker::Model;
use thiserror::Error;

/// The result of a forget.
#[derive(Clone, Copy, PartialEq, Eq)]
pub enum Forgot {
    /// The count is lower, and the entry stays.
    Lowered,
    /// The number was struck, and so was each directory above it that then had count 0 and no child.
    Dropped,
    /// The number is unknown, `k` is 0, or the count is below `k`. `bad_items` rises, and nothing else changes.
    Bad,
    /// The number is the root, which is held always. Nothing changes.
    Root,
}

impl Forgot {
    /// Returns the word for `self` in a printed line.
    pub fn name(self) -> &'static str
        ensures name { result.now ≡ forgot_name self }
    {
        match self {
            Forgot::Lowered => "Lowered",
            Forgot::Dropped => "Dropped",
            Forgot::Bad => "Bad",
            Forgot::Root => "Root",
        }
    }
}

/// Why no number could be given.
#[derive(Clone, Copy, Debug, PartialEq, Eq, Error)]
pub enum GiveFault {
    #[error("no number is left")]
    NoNumber,
    #[error("the kernel holds the number as often as it may")]
    TooMany,
    #[error("out of memory")]
    NoMemory,
}

/// The entries, the next number, how many bad forgets came, and the loaded attributes. Contracts see a `MapState`.
pub struct InodeMap {
    table: Table,
    bad_items: u64,
    loaded: NodeArena<LoadedAttr>,
}

impl Drop for InodeMap {
    fn drop(self) {
        let InodeMap {
            table: _,
            bad_items: _,
            loaded: _,
        } = self;
    }
}

impl Model for InodeMap {
    ghost use Rattle.inode_map.specs.InodeMap.{MapState};
    ghost use Rattle.inode_map.specs.Loaded.{attrs_in};

    ghost Value = { MapState };

    ghost view = { λ m. record {
      entries = m.table.entries;
      next = m.table.next;
      bad_items = m.bad_items;
      loaded = attrs_in m.loaded;
      limit = m.loaded.capacity;
      spare = m.table.spare;
      remembered = m.table.remembered;
    } };

    ghost use Rattle.inode_map.specs.Inside.{IsConsistent};

    ghost invariant = { IsConsistent };
}

impl InodeMap {
    /// Makes a map that has no entry and knows the root only. At most `loaded_limit` attributes are loaded at once.
    pub fn new(alloc: Global, loaded_limit: usize) -> Result<InodeMap, NoMemory>
        requires limit { 1 ≤ loaded_limit }
        ensures new { IfOk result (λ map. map ≡ new_map loaded_limit) }
    {
        let loaded = nodes_of(alloc, loaded_limit)?;
        Ok(InodeMap {
            table: Table::new(alloc),
            bad_items: 0,
            loaded,
        })
    }

    /// Makes a map of entries that were kept before, with `next` as the next number. The file of each is remembered. At
    /// most `loaded_limit` attributes are loaded at once. If memory is refused, the entries are dropped.
    pub fn of_entries(
        alloc: Global,
        named: NamedEntries,
        next: u64,
        loaded_limit: usize,
    ) -> Result<InodeMap, NoMemory>
        requires limit { 1 ≤ loaded_limit }
        requires entries { AreEntries named.entries.items next }
        requires files { length named.files.items ≡ length named.entries.items }
        ensures map { IfOk result (λ map. map
            ≡ map_of named.entries.items named.files.items next loaded_limit) }
    {
        let table = Table::of_entries(alloc, named, next)?;
        let loaded = nodes_of(alloc, loaded_limit)?;
        Ok(InodeMap {
            table,
            bad_items: 0,
            loaded,
        })
    }

    /// Returns the number that is given next.
    pub fn next(&self) -> u64
        ensures next { result ≡ self.now.next }
    {
        self.table.next()
    }

    /// Returns how many forgets were bad.
    pub fn bad_items(&self) -> u64
        ensures bad_items { result ≡ self.now.bad_items }
    {
        self.bad_items
    }

    /// Returns whether a number is the root's or has an entry.
    pub fn known(&self, number: Number) -> bool
        ensures known { result ≡ is_known self.now.entries number.0 }
    {
        number == Number::ROOT || self.table.get(number).is_some()
    }

    /// Returns how often the kernel holds a number, as far as the daemon knows: 0 for an unknown one, and for the root.
    pub fn count(&self, number: Number) -> u64
        ensures count { result ≡ count_of self.now.entries number.0 }
    {
        match self.table.get(number) {
            Some(entry) => entry.count,
            None => 0,
        }
    }

    /// Returns where the file of a number stands, unless the number is unknown or the root's.
    pub fn entry(&self, number: Number) -> Option<&Place>
        ensures place { option_copied result
            ≡ option_map place_of_kept (entry_of self.now.entries number.0) }
    {
        Some(&self.table.get(number)?.place)
    }

    /// Returns the least number above `number` that has an entry, if there is one.
    pub fn after(&self, number: Number) -> Option<Number>
        ensures after { result ≡ number_after self.now.entries number.0 }
        ensures numbers { AreNumbers 2 self.now.next self.now.entries }
    {
        self.table.after(number)
    }

    /// Returns a copy of the entries, by rising number. Goes over them once.
    pub fn to_entries(&self, alloc: Global) -> Result<Vec<Kept>, NoMemory>
        ensures entries { IfOk result (λ kept. kept.items ≡ self.now.entries) }
        ensures named { IfOk result (λ kept. AllByRecursion IsNamedEntry kept.items) }
    {
        self.table.to_entries(alloc)
    }

    /// Returns the number of a name in a directory, if the name has one.
    pub fn number_for(&self, parent: Number, name: &Name) -> Option<Number>
        ensures number { result
            ≡ option_map number_of_kept (entry_at self.now.entries parent.0 name.now) }
    {
        self.table.find(parent, name)
    }

    /// Returns whether a name in the directory `parent` has a number.
    pub fn has_kids(&self, parent: Number) -> bool
        ensures kids { result ≡ list_any (is_kid_of parent.0) self.now.entries }
    {
        self.table.has_kids(parent)
    }

    /// Returns the file that `number` names in `tree`, if any, by the names above `number`. Takes no memory.
    pub fn locate(&mut self, tree: &Tree, number: Number) -> Option<FileId>
        ensures found { MatchOption result
            ((file : FileId) → IsFileOf tree.now self.old.entries number.0 file → ⊥)
            (IsFileOf tree.now self.old.entries number.0) }
        ensures unchanged { self.new ≡ self.old }
    {
        self.table.locate(tree, number)
    }

    /// Gives out the number of a name in a directory: the number that the name has, or else the next one. The count of
    /// the number rises by 1.
    pub fn give(&mut self, alloc: Global, parent: Number, name: &Name) -> Result<Number, GiveFault>
        ensures number { IfOk result (λ number. number ≡ number_given self.old parent.0 name.now) }
        ensures given { OnOk result (self.new ≡ given self.old parent name.now) }
        ensures accepted { OnOk result (give_fault self.old parent.0 name.now ≡ None) }
        ensures refused { IfErr result (IsGiveRefusal self.old parent.0 name.now) }
        ensures unchanged { OnErr result (self.new ≡ self.old) }
    {
        match self.table.find(parent, name) {
            Some(number) => self.give_again(parent, name, number),
            None => self.give_next(alloc, parent, name),
        }
    }

    /// Gives out the next number, as `give` does, for a name in a directory that has no number.
    pub fn give_next(
        &mut self,
        alloc: Global,
        parent: Number,
        name: &Name,
    ) -> Result<Number, GiveFault>
        requires free { entry_at self.old.entries parent.0 name.now ≡ None }
        ensures number { IfOk result (λ number. number ≡ number_given self.old parent.0 name.now) }
        ensures given { OnOk result (self.new ≡ given self.old parent name.now) }
        ensures accepted { OnOk result (give_fault self.old parent.0 name.now ≡ None) }
        ensures refused { IfErr result (IsGiveRefusal self.old parent.0 name.now) }
        ensures unchanged { OnErr result (self.new ≡ self.old) }
    {
        if self.table.next() >= END_OF_NUMBERS {
            return Err(GiveFault::NoNumber);
        }
        let Ok(name) = name.copy(alloc) else {
            return Err(GiveFault::NoMemory);
        };
        let Ok(()) = self.table.reserve(alloc) else {
            return Err(GiveFault::NoMemory);
        };
        Ok(self.table.add(parent, name))
    }

    /// Makes room for one new number, so that `give_ready` takes no memory.
    pub fn reserve(&mut self, alloc: Global) -> Result<(), NoMemory>
        ensures ok { OnOk result (self.new ≡ record self.old { spare = 1 }) }
        ensures err { OnErr result (self.new ≡ self.old) }
    {
        self.table.reserve(alloc)
    }

    /// Gives out the next number, as `give_next` does, in the room that `reserve` made. Takes no memory.
    pub fn give_ready(&mut self, parent: Number, name: Name) -> Result<Number, GiveFault>
        requires room { self.old.spare ≡ 1 }
        requires free { entry_at self.old.entries parent.0 name ≡ None }
        ensures number { IfOk result (λ number. number ≡ number_given self.old parent.0 name) }
        ensures given { OnOk result (self.new ≡ given self.old parent name) }
        ensures accepted { OnOk result (give_fault self.old parent.0 name ≡ None) }
        ensures refused { IfErr result (λ fault. give_fault self.old parent.0 name ≡ Some fault) }
        ensures unchanged { OnErr result (self.new ≡ self.old) }
    {
        if self.table.next() < END_OF_NUMBERS {
            return Ok(self.table.add(parent, name));
        }
        Err(GiveFault::NoNumber)
    }

    /// Gives out the number that a name has, as `give` does. A forget with `k` 1 undoes this. Takes no memory.
    pub fn give_again(
        &mut self,
        parent: Number,
        name: &Name,
        number: Number,
    ) -> Result<Number, GiveFault>
        requires has { Some number ≡ option_map number_of_kept (entry_at self.old.entries parent.0 name.now) }
        ensures number { IfOk result (λ number. number ≡ number_given self.old parent.0 name.now) }
        ensures given { OnOk result (self.new ≡ given self.old parent name.now) }
        ensures accepted { OnOk result (give_fault self.old parent.0 name.now ≡ None) }
        ensures refused { IfErr result (λ fault. give_fault self.old parent.0 name.now ≡ Some fault) }
        ensures taken_back { IfOk result (λ number. forgotten self.new number.0 1 ≡ self.old) }
        ensures unchanged { OnErr result (self.new ≡ self.old) }
    {
        if !self.table.raise(number) {
            return Err(GiveFault::TooMany);
        }
        Ok(number)
    }

    /// Returns the result that a forget of `number` with this `k` would have.
    pub fn forgot(&self, number: Number, k: u64) -> Forgot
        ensures forgot { result ≡ forgot self.now number.0 k }
    {
        if number == Number::ROOT {
            return Forgot::Root;
        }
        let count = self.count(number);
        if k == 0 || count < k {
            return Forgot::Bad;
        }
        if count > k {
            return Forgot::Lowered;
        }
        if self.table.has_kids(number) {
            return Forgot::Lowered;
        }
        Forgot::Dropped
    }

    /// Lowers the count of `number` by `k`. Removes its entry if that is left with count 0 and no children, and then
    /// each parent that is left so.
    pub fn forget(&mut self, number: Number, k: u64) -> Forgot
        ensures forgot { result ≡ forgot self.old number.0 k }
        ensures forgotten { self.new ≡ forgotten self.old number.0 k }
    {
        if number == Number::ROOT {
            return Forgot::Root;
        }
        let Some(left) = self.table.lower(number, k) else {
            self.bad_items = self.bad_items.saturating_add(1);
            return Forgot::Bad;
        };
        if left > 0 {
            return Forgot::Lowered;
        }
        if self.table.has_kids(number) {
            return Forgot::Lowered;
        }
        drop_upwards(&mut self.table, &mut self.loaded, number);
        Forgot::Dropped
    }

    /// Returns the loaded attributes of `number`, if any, and makes them the most recent.
    pub fn attr(&mut self, number: Number) -> Option<Attr>
        ensures attr { result ≡ attr_of self.old.loaded number.0 }
        ensures used { self.new ≡ record self.old { loaded = used self.old.loaded number.0 } }
    {
        attr_at(&self.table, &mut self.loaded, number)
    }

    /// Loads the attributes of `number`. If the limit is reached, the oldest attributes are unloaded first. It is inlined
    /// but for the case below the limit, since most requests of a large checkout load one file in place of another.
    #[inline(always)]
    pub fn load(&mut self, number: Number, attr: Attr)
        requires entry { IsSome (entry_of self.old.entries number.0) }
        requires unloaded { attr_of self.old.loaded number.0 ≡ None }
        ensures loaded { self.new
            ≡ record self.old { loaded = load self.old.limit self.old.loaded number attr } }
    {
        load_attr(&mut self.table, &mut self.loaded, number, attr);
    }

    /// Remembers that `number` names `file`. A number never names another file.
    pub fn remember(&mut self, number: Number, file: FileId)
        requires entry { IsSome (entry_of self.old.entries number.0) }
        ensures remembered { self.new
            ≡ record self.old { remembered = remembered self.old.remembered number.0 file } }
    {
        self.table.remember(number, file);
    }

    /// Returns the file that is remembered for `number`, if any.
    pub fn recall(&self, number: Number) -> Option<FileId>
        ensures file { result ≡ file_remembered self.now.remembered number.0 }
    {
        self.table.get(number)?.file
    }

    /// Returns the file that is remembered for `number`, if any, and whether the number stands under a name.
    pub fn recall_linked(&self, number: Number) -> Option<(FileId, bool)>
        ensures file { option_map (λ found. found.0) result ≡ file_remembered self.now.remembered number.0 }
        ensures linked { IfSome result (λ found.
            option_map is_linked_entry (entry_of self.now.entries number.0) ≡ Some found.1) }
    {
        let entry = self.table.get(number)?;
        let file = entry.file?;
        Some((file, entry.is_linked()))
    }
}

/// Returns whether `number` has an entry with count 0 and no child.
fn is_useless(table: &Table, number: Number) -> bool
    ensures useless { result ≡ is_useless table.now.entries number.0 }
{
    if table.has_kids(number) {
        return false;
    }
    match table.get(number) {
        Some(entry) => entry.count == 0,
        None => false,
    }
}

/// Removes the entry of `number` if it has count 0 and no child, and then each such entry above it.
fn prune(table: &mut Table, loaded: &mut NodeArena<LoadedAttr>, number: Number)
    requires numbers { AreNumbers 2 table.old.next table.old.entries }
    requires others_of_use { AreOfUseBut (Some number.0) table.old.entries }
    requires loaded { AreOfKept loaded_number table.old.entries (attrs_in loaded.old) }
    requires named { AreNamed table.old.notes loaded.old }
    requires remembered { AreOfKept file_number table.old.entries table.old.remembered }
    ensures pruned { table.new ≡ pruned table.old table.new.notes }
    ensures unloaded { attrs_in loaded.new
        ≡ of_kept loaded_number (left_of_use table.old.entries) (attrs_in loaded.old) }
    ensures capacity { loaded.new.capacity ≡ loaded.old.capacity }
    ensures still_named { AreNamed table.new.notes loaded.new }
{
    if is_useless(table, number) {
        drop_upwards(table, loaded, number);
    }
}

/// Removes the entry of `number`, which has count 0 and no child, and then each such entry above it.
fn drop_upwards(table: &mut Table, loaded: &mut NodeArena<LoadedAttr>, number: Number)
    requires numbers { AreNumbers 2 table.old.next table.old.entries }
    requires useless { is_useless table.old.entries number.0 ≡ true }
    requires others_of_use { AreOfUseBut (Some number.0) table.old.entries }
    requires loaded { AreOfKept loaded_number table.old.entries (attrs_in loaded.old) }
    requires named { AreNamed table.old.notes loaded.old }
    requires remembered { AreOfKept file_number table.old.entries table.old.remembered }
    ensures pruned { table.new ≡ pruned table.old table.new.notes }
    ensures unloaded { attrs_in loaded.new
        ≡ of_kept loaded_number (left_of_use table.old.entries) (attrs_in loaded.old) }
    ensures capacity { loaded.new.capacity ≡ loaded.old.capacity }
    ensures still_named { AreNamed table.new.notes loaded.new }
{
    let mut number = number;
    loop {
        match strike(table, loaded, number) {
            Place::Linked { parent, .. } => number = parent,
            Place::Unlinked { .. } => return,
        }
        if !is_useless(table, number) {
            return;
        }
    }
}
