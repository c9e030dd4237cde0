//! The attributes of the numbers that were used last, each in a node whose slot the entry of its number notes.
ghost use Rattle.std.specs.Prelude.{◌≡◌, ◌-◌, ◌≤◌, ◌<◌, [], ◌∷◌, None, Some, IsSome, take, length, IfOk, MatchOption};
ghost use Rattle.std.specs.List.{filter};
ghost use Rattle.std.specs.Option.{option_map};
ghost use Rattle.inode_map.specs.declared.loaded.LoadedAttr.{LoadedAttr};
ghost use Rattle.eden_base.specs.First.{without_where};
ghost use Rattle.entry_table.specs.Entries.{has_number, entry_of, place_of_kept};
ghost use Rattle.entry_table.specs.Table.{AreOfKept, note_of, is_other, without_entry};
ghost use Rattle.inode_map.specs.InodeMap.{attr_of, used, load, without_oldest, loaded_number};
ghost use Rattle.inode_map.specs.Loaded.{attrs_in, AreNamed};
ghost use Rattle.node_arena.specs.Arena.{arena, IsSound};

use eden_base::{Attr, NoMemory, Number, Place};
use entry_table::Table;
use node_arena::{NodeArena, Slot};
use std::alloc::Global;

/// The greatest limit of loaded attributes.
const MOST_LOADED: usize = 65_536;

/// A number, and the attributes that the kernel was told of its file.
#[derive(Clone, Copy)]
pub struct LoadedAttr {
    pub number: Number,
    pub attr: Attr,
}

/// Takes the memory for `limit` attributes. Refuses a `limit` above 65,536, also with `NoMemory`.
pub(crate) fn nodes_of(alloc: Global, limit: usize) -> Result<NodeArena<LoadedAttr>, NoMemory>
    requires { 1 ≤ limit }
    ensures { IfOk result (λ nodes. nodes ≡ arena [] limit) }
{
    if limit > MOST_LOADED {
        return Err(NoMemory);
    }
    Ok(NodeArena::new(alloc, limit)?)
}

/// Returns the slot that the entry of `number` notes, if any.
fn slot_of(table: &Table, number: Number) -> Option<Slot>
    ensures { MatchOption result (note_of table.now.notes number.0 ≡ None)
        (λ slot. note_of table.now.notes number.0 ≡ Some slot.index) }
{
    let index = table.get(number)?.note?;
    Some(Slot { index })
}

/// Returns the loaded attributes of `number`, if any, and makes them the most recent.
pub(crate) fn attr_at(
    table: &Table,
    nodes: &mut NodeArena<LoadedAttr>,
    number: Number,
) -> Option<Attr>
    requires named { AreNamed table.now.notes nodes.old }
    ensures attr { result ≡ attr_of (attrs_in nodes.old) number.0 }
    ensures used { attrs_in nodes.new ≡ used (attrs_in nodes.old) number.0 }
    ensures capacity { nodes.new.capacity ≡ nodes.old.capacity }
    ensures still_named { AreNamed table.now.notes nodes.new }
{
    nodes.slots_are_apart();
    let slot = slot_of(table, number)?;
    let attr = nodes.get(slot).attr;
    nodes.touch(slot);
    Some(attr)
}

/// Puts `number` and `attr` into the node of the attributes that were used longest ago, which are unloaded. They become
/// the most recent.
#[inline(always)]
fn replace_oldest(table: &mut Table, nodes: &mut NodeArena<LoadedAttr>, number: Number, attr: Attr)
    requires entry { IsSome (entry_of table.old.entries number.0) }
    requires unloaded { attr_of (attrs_in nodes.old) number.0 ≡ None }
    requires some { 0 < length nodes.old.entries }
    requires entries { AreOfKept loaded_number table.old.entries (attrs_in nodes.old) }
    requires named { AreNamed table.old.notes nodes.old }
    ensures loaded { attrs_in nodes.new ≡ record { number = number; attr = attr } ∷ without_oldest (attrs_in nodes.old) }
    ensures capacity { nodes.new.capacity ≡ nodes.old.capacity }
    ensures table { table.new ≡ record table.old { notes = table.new.notes } }
    ensures still_named { AreNamed table.new.notes nodes.new }
{
    nodes.slots_are_apart();
    let Some(oldest) = nodes.oldest() else {
        unreachable!()
    };
    let node = nodes.get_mut(oldest);
    let unloaded = node.number;
    *node = LoadedAttr { number, attr };
    nodes.touch(oldest);
    table.note(unloaded, None);
    table.note(number, Some(oldest.index));
}

/// Adds `loaded` as the most recent, where the limit isn't reached.
#[inline(never)]
fn add(table: &mut Table, nodes: &mut NodeArena<LoadedAttr>, loaded: LoadedAttr)
    requires entry { IsSome (entry_of table.old.entries loaded.number.0) }
    requires unloaded { attr_of (attrs_in nodes.old) loaded.number.0 ≡ None }
    requires room { length nodes.old.entries < nodes.old.capacity }
    requires named { AreNamed table.old.notes nodes.old }
    ensures loaded { attrs_in nodes.new ≡ loaded ∷ attrs_in nodes.old }
    ensures capacity { nodes.new.capacity ≡ nodes.old.capacity }
    ensures table { table.new ≡ record table.old { notes = table.new.notes } }
    ensures still_named { AreNamed table.new.notes nodes.new }
{
    nodes.slots_are_apart();
    let Ok(slot) = nodes.add(loaded) else {
        unreachable!()
    };
    table.note(loaded.number, Some(slot.index));
}

/// Loads attributes, which become the most recent. If the limit is reached, the oldest are unloaded first.
#[inline(always)]
pub(crate) fn load_attr(
    table: &mut Table,
    nodes: &mut NodeArena<LoadedAttr>,
    number: Number,
    attr: Attr,
)
    requires entry { IsSome (entry_of table.old.entries number.0) }
    requires unloaded { attr_of (attrs_in nodes.old) number.0 ≡ None }
    requires entries { AreOfKept loaded_number table.old.entries (attrs_in nodes.old) }
    requires named { AreNamed table.old.notes nodes.old }
    ensures loaded { attrs_in nodes.new ≡ load nodes.old.capacity (attrs_in nodes.old) number attr }
    ensures capacity { nodes.new.capacity ≡ nodes.old.capacity }
    ensures table { table.new ≡ record table.old { notes = table.new.notes } }
    ensures still_named { AreNamed table.new.notes nodes.new }
{
    nodes.slots_are_apart();
    if nodes.len() == nodes.capacity() {
        replace_oldest(table, nodes, number, attr);
    } else {
        add(table, nodes, LoadedAttr { number, attr });
    }
}

/// Removes the entry of `number` with its loaded attributes, and returns its place.
pub(crate) fn strike(table: &mut Table, nodes: &mut NodeArena<LoadedAttr>, number: Number) -> Place
    requires entry { IsSome (entry_of table.old.entries number.0) }
    requires named { AreNamed table.old.notes nodes.old }
    ensures place { option_map place_of_kept (entry_of table.old.entries number.0) ≡ Some result }
    ensures removed { table.new ≡ without_entry table.old number.0
        (without_where (has_number number.0) table.old.entries) }
    ensures unloaded { attrs_in nodes.new
        ≡ filter (λ (loaded : LoadedAttr). is_other number.0 (loaded_number loaded)) (attrs_in nodes.old) }
    ensures capacity { nodes.new.capacity ≡ nodes.old.capacity }
    ensures still_named { AreNamed table.new.notes nodes.new }
{
    nodes.slots_are_apart();
    let entry = table.remove(number);
    if let Some(index) = entry.note {
        nodes.remove(Slot { index });
    }
    entry.place
}
