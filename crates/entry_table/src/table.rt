//! The entries by number, and the index of their places.
ghost use Rattle.std.specs.Prelude.{◌≡◌, ℕ, ◌+◌, ◌<◌, ◌≤◌, List, [], ◌∷◌, ◌++◌, Option, Some, None, IsSome, MatchOption, IfOk, OnOk, map, OnErr, ◌-◌, true, false, nat_lt, vec_len, vec_capacity, length, if◌then◌else◌};
ghost use Rattle.std.specs.Option.{option_map, option_copied, option_and_then, IfNone, IfSome, OnSome};
ghost use Rattle.std.specs.List.{AllByRecursion, AllWithin, HoldsAt, list_any, filter};
ghost use Rattle.std.specs.List.Sorted.{IsPartitionPoint};
ghost use Rattle.manifest.specs.Tree.{Tree};
ghost use Rattle.eden_base.specs.First.{changed_where, without_where};
ghost use Rattle.eden_base.specs.Limits.{end_of_numbers, greatest_count};
ghost use Rattle.eden_base.specs.declared.number.FileId.{FileId};
ghost use Rattle.eden_base.specs.declared.number.Number.{Number};
ghost use Rattle.entry_table.specs.EntryPlaces.{HasName, IsNamedEntry, is_under_name};
ghost use Rattle.entry_table.specs.Entries.{has_number, entry_of, entry_at, is_kid_of, number_of_kept, place_of_kept, number_after, new_entry, marked, IsLinked, IsFileOf, by_number, file_remembered, remembered, AreNumbers, AreEntries, count_of, once_more, is_bad_item, lowered};
ghost use Rattle.entry_table.specs.Slots.{slot_of, slots_of, slot_at, kept_from, files_from, notes_from, first_number, held_in, AreSlots, IsSlots, IsIndexOf};
ghost use Rattle.entry_table.specs.Table.{IsIn, kept_of, without_entry, AreOfKept, file_number, note_of, noted};

mod moves;

use crate::dense::{dense_index_of, index_by_steps, index_if};
use crate::kept::{Entry, Kept, NamedEntries};
use crate::slot_places::{SlotPlaces, index_of_places};
use crate::way::locate;
use checkout::Tree;
use directory_index::CountedIndex;
use eden_base::{FileId, GREATEST_COUNT, Name, NoMemory, Number, Place};
use std::alloc::{AllocError, Global};
use std::marker::Model;

/// A number and its entry. Once the entry was removed, the slot stays, empty, until room is needed.
pub(crate) type Slot = (u64, Option<Entry>);

/// The entries, by number and by place. The slots stand by rising number, so that a new number's slot is the last. If
/// `is_reserved`, there is room for the slot of the next number. `way` has room for a walk past all entries. `near` is
/// the index of the slot that was added or lowered last, if no empty slot was dropped since: calls for one number mostly
/// follow one another.
pub struct Table {
    slots: Vec<Slot>,
    index: CountedIndex,
    next: u64,
    is_reserved: bool,
    way: Vec<Number>,
    near: usize,
}

impl Drop for Table {
    fn drop(self) {
        let Table {
            slots: _,
            index: _,
            next: _,
            is_reserved: _,
            way: _,
            near: _,
        } = self;
    }
}

impl Model for Table {
    ghost use Rattle.entry_table.specs.Slots.{kept_from, files_from, notes_from, spare_of};
    ghost use Rattle.entry_table.specs.Table.{TableState};

    ghost Value = { TableState };

    ghost view = { λ t. record {
      entries = kept_from t.slots.items;
      remembered = files_from t.slots.items;
      notes = notes_from t.slots.items;
      next = t.next;
      spare = spare_of t.is_reserved;
    } };

    ghost use Rattle.entry_table.specs.Inside.{IsTable};

    ghost invariant = { IsTable };
}

impl Table {
    /// Returns a table without entries.
    pub fn new(alloc: Global) -> Table
        ensures empty { result ≡ record { entries = []; remembered = []; notes = []; next = 2; spare = 0 } }
    {
        Table {
            slots: Vec::new(alloc),
            index: CountedIndex::new(alloc),
            next: 2,
            is_reserved: false,
            way: Vec::new(alloc),
            near: 0,
        }
    }

    /// Makes a table of entries, with the file of each remembered and no note. The lists of `named` are freed before
    /// memory for the index is taken.
    pub fn of_entries(alloc: Global, named: NamedEntries, next: u64) -> Result<Table, NoMemory>
        requires entries { AreEntries named.entries.items next }
        requires files { length named.files.items ≡ length named.entries.items }
        ensures table { IfOk result (λ table. table ≡ record {
          entries = named.entries.items;
          remembered = by_number named.entries.items named.files.items;
          notes = [];
          next = next;
          spare = 0;
        }) }
    {
        let slots = slots_of(alloc, named)?;
        let index = index_of_places(alloc, slots.as_slice())?;
        let way = Vec::with_capacity(alloc, slots.len())?;
        Ok(Table {
            slots,
            index,
            next,
            is_reserved: false,
            way,
            near: 0,
        })
    }

    /// Returns the number that is given next.
    pub fn next(&self) -> u64
        ensures next { result ≡ self.now.next }
    {
        self.next
    }

    /// Returns the entry of a number.
    pub fn get(&self, number: Number) -> Option<&Entry>
        ensures entry { option_map (kept_of number.0) (option_copied result)
            ≡ entry_of self.now.entries number.0 }
        ensures file { option_and_then (λ entry. entry.file) (option_copied result)
            ≡ file_remembered self.now.remembered number.0 }
        ensures note { option_and_then (λ entry. entry.note) (option_copied result)
            ≡ note_of self.now.notes number.0 }
        ensures kept { AreOfKept file_number self.now.entries self.now.remembered }
    {
        held_at(self.slots.as_slice(), number)
    }

    /// Returns the least number of an entry above `number`.
    pub fn after(&self, number: Number) -> Option<Number>
        ensures after { result ≡ number_after self.now.entries number.0 }
    {
        let slots = self.slots.as_slice();
        first_in(&slots[up_to(slots, number)..])
    }

    /// Returns an owned copy of the entries, by rising number.
    pub fn to_entries(&self, alloc: Global) -> Result<Vec<Kept>, NoMemory>
        ensures entries { IfOk result (λ kept. kept.items ≡ self.now.entries) }
        ensures named { IfOk result (λ kept. AllByRecursion IsNamedEntry kept.items) }
    {
        entries_of(alloc, self.slots.as_slice())
    }

    /// Returns the number that stands under `name` in the directory `parent`.
    pub fn find(&self, parent: Number, name: &Name) -> Option<Number>
        ensures number { result ≡ option_map number_of_kept (entry_at self.now.entries parent.0 name.now) }
    {
        let places = SlotPlaces::of(self.slots.as_slice());
        match self.index.get(&places, parent.0, name.bytes()) {
            Some(number) => Some(Number(number)),
            None => None,
        }
    }

    /// Returns whether an entry stands in the directory `parent`.
    pub fn has_kids(&self, parent: Number) -> bool
        ensures kids { result ≡ list_any (is_kid_of parent.0) self.now.entries }
    {
        self.index.has_names(parent.0)
    }

    /// Reserves the next number: makes room for its entry.
    pub fn reserve(&mut self, alloc: Global) -> Result<(), NoMemory>
        ensures ok { OnOk result (self.new ≡ record self.old { spare = 1 }) }
        ensures err { OnErr result (self.new ≡ self.old) }
    {
        if self.is_reserved {
            return Ok(());
        }
        make_room(&mut self.slots)?;
        self.way.clear();
        self.way.try_reserve_exact(self.slots.capacity())?;
        let places = SlotPlaces::of(self.slots.as_slice());
        self.index.make_room(alloc, &places)?;
        self.is_reserved = true;
        Ok(())
    }

    /// Gives the reserved number to `name` in the directory `parent`, and returns the number.
    pub fn add(&mut self, parent: Number, name: Name) -> Number
        requires reserved { self.old.spare ≡ 1 }
        requires is_new { entry_at self.old.entries parent.0 name ≡ None }
        requires fits { self.old.next < end_of_numbers }
        ensures number { result.0 ≡ self.old.next }
        ensures added { self.new ≡ record self.old {
          entries = self.old.entries ++ new_entry self.old.next parent name ∷ [];
          next = self.old.next + 1;
          spare = 0;
        } }
    {
        let number = Number(self.next);
        self.index.insert(parent.0, name.bytes(), number.0);
        let entry = Entry {
            place: Place::Linked { parent, name },
            count: 1,
            file: None,
            note: None,
        };
        self.near = self.slots.len();
        self.slots.push_reserved((number.0, Some(entry)));
        self.next += 1;
        self.is_reserved = false;
        number
    }

    /// Counts `number` once more, and returns whether it did. A count at its greatest value stays.
    pub fn raise(&mut self, number: Number) -> bool
        requires held { IsSome (entry_of self.old.entries number.0) }
        ensures may { result ≡ nat_lt (count_of self.old.entries number.0) greatest_count }
        ensures raised { self.new ≡ (if result then record self.old {
          entries = changed_where (has_number number.0) once_more self.old.entries;
        } else self.old) }
        ensures kept { AreOfKept file_number self.old.entries self.old.remembered }
    {
        let Some(index) = index_of(self.slots.as_slice(), number) else {
            unreachable!()
        };
        let slot = &mut self.slots[index];
        let Some(entry) = &mut slot.1 else {
            unreachable!()
        };
        if entry.count >= GREATEST_COUNT {
            return false;
        }
        entry.count += 1;
        true
    }

    /// Lowers the count of `number` by `k`, and returns what is left. A bad item changes nothing, and returns none.
    pub fn lower(&mut self, number: Number, k: u64) -> Option<u64>
        ensures bad { IfNone result (is_bad_item self.old.entries number.0 k ≡ true) }
        ensures good { OnSome result (is_bad_item self.old.entries number.0 k ≡ false) }
        ensures left { IfSome result (λ left. left ≡ count_of self.old.entries number.0 - k) }
        ensures lowered { OnSome result (self.new
            ≡ record self.old { entries = lowered self.old.entries number.0 k }) }
        ensures unchanged { IfNone result (self.new ≡ self.old) }
        ensures kept { OnSome result (AreOfKept file_number self.new.entries self.new.remembered) }
    {
        if k == 0 {
            return None;
        }
        let index = index_or_near(self.slots.as_slice(), &self.near, number)?;
        self.near = index;
        let slot = &mut self.slots[index];
        let Some(entry) = &mut slot.1 else {
            return None;
        };
        if entry.count < k {
            return None;
        }
        entry.count -= k;
        Some(entry.count)
    }

    /// Remembers that `number` names `file`.
    pub fn remember(&mut self, number: Number, file: FileId)
        requires held { IsSome (entry_of self.old.entries number.0) }
        ensures remembered { self.new ≡ record self.old {
          remembered = remembered self.old.remembered number.0 file;
        } }
    {
        let Some(index) = index_near(self.slots.as_slice(), self.near, number) else {
            unreachable!()
        };
        let slot = &mut self.slots[index];
        let Some(entry) = &mut slot.1 else {
            unreachable!()
        };
        entry.file = Some(file);
    }

    /// Replaces the note of `number` by `note`, or removes it if `note` is none.
    pub fn note(&mut self, number: Number, note: Option<u32>)
        requires held { IsSome (entry_of self.old.entries number.0) }
        ensures noted { self.new ≡ record self.old { notes = noted self.old.notes number.0 note } }
    {
        let Some(index) = index_or_near(self.slots.as_slice(), &self.near, number) else {
            unreachable!()
        };
        let slot = &mut self.slots[index];
        let Some(entry) = &mut slot.1 else {
            unreachable!()
        };
        entry.note = note;
    }

    /// Puts the mark of `file` in place of the directory and name of `number`, and returns the directory in which the
    /// number stood.
    pub fn unlink(&mut self, number: Number, file: FileId) -> Number
        requires linked { IsLinked self.old.entries number.0 }
        ensures unlinked { self.new ≡ record self.old {
          entries = changed_where (has_number number.0) (marked file) self.old.entries;
        } }
        ensures dir { IsIn self.old.entries number.0 result }
        ensures kept { AreOfKept file_number self.new.entries self.new.remembered }
    {
        let Some(index) = index_of(self.slots.as_slice(), number) else {
            unreachable!()
        };
        let slot = &mut self.slots[index];
        let Some(entry) = slot.1.take() else {
            unreachable!()
        };
        slot.1 = Some(Entry {
            place: Place::Unlinked { file },
            count: entry.count,
            file: entry.file,
            note: entry.note,
        });
        let Place::Linked { parent, name } = &entry.place else {
            unreachable!()
        };
        self.index.remove(parent.0, name.bytes(), number.0);
        *parent
    }

    /// Removes the entry of `number`, and returns it.
    pub fn remove(&mut self, number: Number) -> Entry
        requires held { IsSome (entry_of self.old.entries number.0) }
        ensures place { option_map place_of_kept (entry_of self.old.entries number.0) ≡ Some result.place }
        ensures note { note_of self.old.notes number.0 ≡ result.note }
        ensures removed { self.new ≡ without_entry self.old number.0
            (without_where (has_number number.0) self.old.entries) }
    {
        let Some(index) = index_near(self.slots.as_slice(), self.near, number) else {
            unreachable!()
        };
        let slot = &mut self.slots[index];
        let Some(entry) = &slot.1 else { unreachable!() };
        if let Place::Linked { parent, name } = &entry.place {
            self.index.remove(parent.0, name.bytes(), number.0);
        }
        slot.1.take().unwrap()
    }

    /// Returns the file that `number` names in `tree`, found by the names above it.
    pub fn locate(&mut self, tree: &Tree, number: Number) -> Option<FileId>
        ensures found { MatchOption result
            ((file : FileId) → IsFileOf tree.now self.old.entries number.0 file → ⊥)
            (IsFileOf tree.now self.old.entries number.0) }
        ensures unchanged { self.new ≡ self.old }
    {
        locate(self.slots.as_slice(), &mut self.way, tree, number)
    }
}

/// Puts entries into slots, in the same order, each with its file.
fn slots_of(alloc: Global, named: NamedEntries) -> Result<Vec<Slot>, AllocError>
    ensures slots { IfOk result (λ slots. slots.items ≡ slots_of named.entries.items named.files.items) }
{
    let NamedEntries { entries, files } = named;
    entries.into_iter().zip(files).map(slot_of).collect(alloc)
}

/// Makes the slot of an entry, with this file remembered and no note.
fn slot_of(named: (Kept, FileId)) -> Slot
    ensures { result ≡ slot_of named }
{
    let (kept, file) = named;
    let entry = Entry {
        place: kept.place,
        count: kept.count,
        file: Some(file),
        note: None,
    };
    (kept.number.0, Some(entry))
}

/// Returns an owned copy of the entries that stand in `slots`.
fn entries_of(alloc: Global, slots: &[Slot]) -> Result<Vec<Kept>, NoMemory>
    ensures entries { IfOk result (λ kept. kept.items ≡ kept_from slots.now) }
    ensures named { IfOk result (λ kept. AllByRecursion IsNamedEntry kept.items) }
{
    let mut entries = Vec::with_capacity(alloc, slots.len())?;
    for (number, slot) in slots {
        let Some(entry) = slot else {
            continue;
        };
        let kept = entry.kept(alloc, Number(*number))?;
        entries.push(kept)?;
    }
    Ok(entries)
}

/// Makes room for one more slot. If there is none, it drops the empty slots, and reserves at least a quarter more than
/// are left. Thus little memory is spare, and a new number costs a look at five slots on average.
fn make_room(slots: &mut Vec<Slot>) -> Result<(), AllocError>
    ensures entries { kept_from slots.new.items ≡ kept_from slots.old.items }
    ensures files { files_from slots.new.items ≡ files_from slots.old.items }
    ensures notes { notes_from slots.new.items ≡ notes_from slots.old.items }
    ensures numbers { (next : ℕ) → AreSlots 2 next slots.old.items → AreSlots 2 next slots.new.items }
    ensures len { vec_len slots.new ≤ vec_len slots.old }
    ensures struck { vec_capacity slots.old ≤ vec_len slots.old
        → vec_len slots.new ≡ length (kept_from slots.old.items) }
    ensures room { OnOk result (vec_len slots.new < vec_capacity slots.new) }
{
    if slots.len() < slots.capacity() {
        return Ok(());
    }
    slots.retain(|slot| slot.1.is_some());
    slots.try_reserve_exact(slots.len() / 4 + 1)
}

/// Returns a range of indexes that contains the end of the slots up to `number`. Numbers rise, so a number's slot is no
/// farther from the first slot than the number is from the first number, and likewise from the last. If no number is
/// missing, the range is one index.
fn window(slots: &[Slot], number: Number) -> (usize, usize)
    requires { IsSlots slots.now }
    ensures before { AllWithin (λ slot. slot.0 ≤ number.0) slots.now 0 result.0 }
    ensures behind { AllWithin (λ slot. number.0 < slot.0) slots.now result.1 (length slots.now) }
    ensures order { result.0 ≤ result.1 }
    ensures bound { result.1 ≤ length slots.now }
{
    let (Some(first), Some(last)) = (slots.first(), slots.last()) else {
        return (0, 0);
    };
    let above = number.0.saturating_sub(first.0) as usize;
    let below = last.0.saturating_sub(number.0) as usize;
    let len = slots.len();
    (len.saturating_sub(below), len.min(above + 1))
}

/// Returns how many slots are of `number` or of a lower number.
fn up_to(slots: &[Slot], number: Number) -> usize
    requires { IsSlots slots.now }
    ensures parted { IsPartitionPoint (λ slot. slot.0 ≤ number.0) (λ slot. number.0 < slot.0) slots.now result }
    ensures bound { result ≤ length slots.now }
{
    let (start, end) = window(slots, number);
    start + slots[start..end].partition_point(|slot| slot.0 <= number.0)
}

/// Returns the number of the first slot that isn't empty.
fn first_in(slots: &[Slot]) -> Option<Number>
    ensures { result ≡ first_number (kept_from slots.now) }
{
    for (number, slot) in slots {
        if slot.is_some() {
            return Some(Number(*number));
        }
    }
    None
}

/// Returns the index of the slot of `number`.
fn index_of(slots: &[Slot], number: Number) -> Option<usize>
    requires { IsSlots slots.now }
    ensures index { IfSome result (IsIndexOf slots.now number.0) }
    ensures none { IfNone result (slot_at slots.now number.0 ≡ None) }
{
    if let Some(index) = dense_index_of(slots, number) {
        return Some(index);
    }
    sparse_index_of(slots, number)
}

/// Returns the index of the slot of `number`, where numbers before it are missing: by steps, or else by halving. It isn't
/// inlined, so that the code of its callers stays short.
#[inline(never)]
fn sparse_index_of(slots: &[Slot], number: Number) -> Option<usize>
    requires { IsSlots slots.now }
    ensures index { IfSome result (IsIndexOf slots.now number.0) }
    ensures none { IfNone result (slot_at slots.now number.0 ≡ None) }
{
    if let Some(index) = index_by_steps(slots, number) {
        return Some(index);
    }
    let index = up_to(slots, number).checked_sub(1)?;
    if slots[index].0 == number.0 {
        Some(index)
    } else {
        None
    }
}

/// Returns the index of the slot of `number`. It looks at the slot with the index `near` first.
fn index_near(slots: &[Slot], near: usize, number: Number) -> Option<usize>
    requires { IsSlots slots.now }
    ensures index { IfSome result (IsIndexOf slots.now number.0) }
    ensures none { IfNone result (slot_at slots.now number.0 ≡ None) }
{
    if let Some(index) = index_if(slots, near, number) {
        return Some(index);
    }
    index_of(slots, number)
}

/// Returns the index of the slot of `number`. Where numbers before it are missing, it looks at the slot with the index
/// `last` before it searches. Elsewhere it doesn't read `last`.
fn index_or_near(slots: &[Slot], last: &usize, number: Number) -> Option<usize>
    requires { IsSlots slots.now }
    ensures index { IfSome result (IsIndexOf slots.now number.0) }
    ensures none { IfNone result (slot_at slots.now number.0 ≡ None) }
{
    if let Some(index) = dense_index_of(slots, number) {
        return Some(index);
    }
    if let Some(index) = index_if(slots, *last, number) {
        return Some(index);
    }
    sparse_index_of(slots, number)
}

/// Returns the entry of `number`.
pub(crate) fn held_at(slots: &[Slot], number: Number) -> Option<&Entry>
    requires { IsSlots slots.now }
    ensures held { option_copied result ≡ held_in slots.now number.0 }
    ensures entry { option_map (kept_of number.0) (option_copied result)
        ≡ entry_of (kept_from slots.now) number.0 }
{
    slots[index_of(slots, number)?].1.as_ref()
}
