//! The forms of request bodies, each with its length, its writing and its reading: a name; a mode and a name; a number
//! and two names; an offset and a size; the item of a FORGET; the items of a batch.
ghost use Rattle.std.specs.Prelude.{All, ◌≡◌, ◌<◌, ◌≤◌, ◌+◌, ◌*◌, ◌^◌, ℕ, length, IfOk, IfErr, Ok, Err};
ghost use Rattle.std.specs.List.{flat_map};
ghost use Rattle.eden_base.specs.Name.{IsNameText};
ghost use Rattle.fuse_wire.specs.Reading.{Gives, TakesSome, TakesNone, MayLack};
ghost use Rattle.fuse_wire.specs.RequestBody.{IsLongName, IsLongEither, name_text, made_body, move_body, range_body, batch_body, item_text, FitsItem, IsMoveBody, name_of, named_with, made_of, ended_by_nul, both_checked, names_of, move_of, range_of, forget_of, batch_of, items_at};
ghost use Rattle.fuse_wire.specs.Writing.{HasRoom, Puts};

use crate::layout::{
    BATCH_FIXED, BATCH_REST_LEN, FORGET_LEN, MODE_LEN, RANGE_LEN, RANGE_OFFSET, RANGE_REST_LEN,
    RENAME_FIXED,
};
use crate::memory::Memory;
use crate::reader::Reader;
use crate::writer::MessageWriter;
use crate::{Batch, Item, Items, WireFault, mode};
use eden_base::{Name, NoMemory, Number, Perm, cut};

/// Returns the length of a name and its NUL.
#[tactic(auto, using(crate::proofs::Lengths::name_is_short))]
pub(crate) fn name_len(name: &Name) -> usize
    ensures len { result ≡ length (name_text name.now) }
    ensures at_most { result ≤ 256 }
    ensures is_name { IsNameText name.now }
{
    name.bytes().len() + 1
}

/// Writes a name and its NUL.
#[tactic(auto, using(crate::proofs::Written::written))]
pub(crate) fn put_name(fields: &mut MessageWriter, name: &Name)
    requires { HasRoom fields.old (length (name_text name.now)) }
    ensures { Puts fields.old fields.new (name_text name.now) }
{
    fields.put_slice(name.bytes());
    fields.put_slice(&[0]);
}

/// Returns the bytes before a NUL at the end, or `BadBody` if the last byte is no NUL.
#[tactic(auto, unfolding(crate::specs::RequestBody::ended_by_nul))]
fn ended_by_nul(bytes: &[u8]) -> Result<&[u8], WireFault>
    ensures value { IfOk result (λ part. ended_by_nul bytes.now ≡ Ok part.now) }
    ensures fault { IfErr result (λ fault. Gives TakesNone (Err fault) (ended_by_nul bytes.now)) }
{
    if bytes.is_empty() {
        return Err(WireFault::BadBody);
    }
    let end = bytes.len() - 1;
    if bytes[end] != 0 {
        return Err(WireFault::BadBody);
    }
    Ok(&bytes[..end])
}

/// Reads a name and its NUL.
#[tactic(auto, unfolding(crate::specs::RequestBody::name_of))]
pub(crate) fn read_name<M: Memory>(memory: M, body: &[u8]) -> Result<Name, WireFault>
    ensures { Gives (MayLack M.may_lack IsLongName) result (name_of body.now) }
{
    let bytes = ended_by_nul(body)?;
    if let Some(fault) = Name::fault(bytes) {
        return Err(WireFault::BadName(fault));
    }
    match memory.name(bytes) {
        Ok(name) => Ok(name),
        Err(NoMemory) => Err(WireFault::NoMemory),
    }
}

/// Returns the length of a fixed part and of the name after it. In the fixed part, a mode stands at `offset`, with
/// `rest` bytes after the mode.
#[tactic(auto, using(crate::proofs::Lengths::lengths))]
pub(crate) fn made_len(offset: usize, rest: usize, name: &Name) -> usize
    requires { offset + rest ≤ 12 }
    ensures len { (mode : ℕ) → result ≡ length (made_body offset mode rest name.now) }
    ensures at_most { result ≤ 272 }
    ensures is_name { IsNameText name.now }
{
    offset + MODE_LEN + rest + name_len(name)
}

/// Writes `offset` bytes that are 0, a mode, `rest` bytes that are 0, then a name.
#[tactic(auto, using(crate::proofs::Written::written))]
pub(crate) fn put_made(
    fields: &mut MessageWriter,
    offset: usize,
    mode: u32,
    rest: usize,
    name: &Name,
)
    requires { HasRoom fields.old (length (made_body offset mode rest name.now)) }
    ensures { Puts fields.old fields.new (made_body offset mode rest name.now) }
{
    fields.put_zeros(offset);
    fields.put_u32(mode);
    fields.put_zeros(rest);
    put_name(fields, name);
}

/// Returns the permissions of the mode at `offset`, and the bytes after the mode and `rest` more bytes.
#[tactic(auto, unfolding(crate::specs::RequestBody::made_of))]
fn mode_part(offset: usize, rest: usize, body: &[u8]) -> Result<(Perm, &[u8]), WireFault>
    requires { offset + rest ≤ 12 }
    ensures rest { IfOk result (λ part. made_of offset rest body.now ≡ named_with part.0 part.1.now) }
    ensures fault { IfErr result (λ fault. Gives TakesNone (Err fault) (made_of offset rest body.now)) }
{
    let fixed = offset + MODE_LEN + rest;
    if body.len() < fixed {
        return Err(WireFault::BadBody);
    }
    let (_, mode_on) = body.split_at(offset);
    let mode = Reader::new(mode_on).u32();
    let (_, named) = body.split_at(fixed);
    Ok((mode::perm_of(mode), named))
}

/// Reads the permissions of the mode at `offset`, and the name that follows the mode and `rest` more bytes.
pub(crate) fn read_made<M: Memory>(
    memory: M,
    offset: usize,
    rest: usize,
    body: &[u8],
) -> Result<(Name, Perm), WireFault>
    requires { offset + rest ≤ 12 }
    ensures { Gives (MayLack M.may_lack (λ made. IsLongName made.0)) result (made_of offset rest body.now) }
{
    let (perm, named) = mode_part(offset, rest, body)?;
    let name = read_name(memory, named)?;
    Ok((name, perm))
}

/// Returns the length of the body of a RENAME to `to_name` in `to_dir`.
#[tactic(auto, using(crate::proofs::Lengths::lengths))]
pub(crate) fn move_len(to_dir: Number, name: &Name, to_name: &Name) -> usize
    ensures len { result ≡ length (move_body to_dir name.now to_name.now) }
    ensures at_most { result ≤ 520 }
    ensures is_body { IsMoveBody to_dir name.now to_name.now (move_body to_dir name.now to_name.now) }
{
    RENAME_FIXED + name_len(name) + name_len(to_name)
}

/// Writes the number of the new directory (`struct fuse_rename_in`), and then the old name and the new one.
#[tactic(auto, using(crate::proofs::Written::written))]
pub(crate) fn put_move(fields: &mut MessageWriter, to_dir: Number, name: &Name, to_name: &Name)
    requires { HasRoom fields.old (length (move_body to_dir name.now to_name.now)) }
    ensures body { Puts fields.old fields.new (move_body to_dir name.now to_name.now) }
    ensures fits { to_dir.0 < 2 ^ 64 }
{
    fields.put_u64(to_dir.0);
    put_name(fields, name);
    put_name(fields, to_name);
}

/// Makes two names of `first` and `second`, or returns the first fault.
fn both_names<M: Memory>(memory: M, first: &[u8], second: &[u8]) -> Result<(Name, Name), WireFault>
    ensures { Gives (MayLack M.may_lack (λ names. IsLongEither names.0 names.1)) result (both_checked first.now second.now) }
{
    if let Some(fault) = Name::fault(first) {
        return Err(WireFault::BadName(fault));
    }
    if let Some(fault) = Name::fault(second) {
        return Err(WireFault::BadName(fault));
    }
    match memory.names(first, second) {
        Ok(names) => Ok(names),
        Err(NoMemory) => Err(WireFault::NoMemory),
    }
}

/// Reads two names, each with its NUL: the first ends at the first NUL, the second at the last byte.
#[tactic(auto, unfolding(crate::specs::RequestBody::names_of))]
fn read_names<M: Memory>(memory: M, bytes: &[u8]) -> Result<(Name, Name), WireFault>
    ensures { Gives (MayLack M.may_lack (λ names. IsLongEither names.0 names.1)) result (names_of bytes.now) }
{
    let Some((first, rest)) = cut(bytes, 0) else {
        return Err(WireFault::BadBody);
    };
    let second = ended_by_nul(rest)?;
    both_names(memory, first, second)
}

/// Reads the number of the new directory (`struct fuse_rename_in`), and the old name and the new one.
#[tactic(auto, unfolding(crate::specs::RequestBody::move_of))]
pub(crate) fn read_move<M: Memory>(
    memory: M,
    body: &[u8],
) -> Result<(Number, Name, Name), WireFault>
    ensures { Gives (MayLack M.may_lack (λ move. IsLongEither move.1 move.2)) result (move_of body.now) }
{
    if body.len() < RENAME_FIXED {
        return Err(WireFault::BadBody);
    }
    let to_dir = Number(Reader::new(body).u64());
    let (_, named) = body.split_at(RENAME_FIXED);
    let (name, to_name) = read_names(memory, named)?;
    Ok((to_dir, name, to_name))
}

/// Writes an offset and a size (`struct fuse_read_in`). The other fields are 0.
#[tactic(auto, using(crate::proofs::Written::written))]
pub(crate) fn put_range(fields: &mut MessageWriter, offset: u64, size: u32)
    requires { HasRoom fields.old (length (range_body offset size)) }
    ensures body { Puts fields.old fields.new (range_body offset size) }
    ensures fits { (offset < 2 ^ 64) × (size < 2 ^ 32) }
{
    fields.put_zeros(RANGE_OFFSET);
    fields.put_u64(offset);
    fields.put_u32(size);
    fields.put_zeros(RANGE_REST_LEN);
}

/// Reads an offset and a size (`struct fuse_read_in`). The other fields are ignored.
#[tactic(auto, unfolding(crate::specs::RequestBody::range_of))]
pub(crate) fn read_range(body: &[u8]) -> Result<(u64, u32), WireFault>
    ensures value { result ≡ range_of body.now }
    ensures never_out_of_memory { Gives TakesNone result (range_of body.now) }
{
    if body.len() != RANGE_LEN {
        return Err(WireFault::BadBody);
    }
    let mut fields = Reader::new(body);
    fields.skip(RANGE_OFFSET);
    let offset = fields.u64();
    let size = fields.u32();
    Ok((offset, size))
}

/// Reads the item of a FORGET (`struct fuse_forget_in`).
#[tactic(auto, unfolding(crate::specs::RequestBody::forget_of))]
pub(crate) fn read_forget(node: Number, body: &[u8]) -> Result<Item, WireFault>
    ensures value { result ≡ forget_of node body.now }
    ensures never_out_of_memory { Gives TakesNone result (forget_of node body.now) }
{
    if body.len() != FORGET_LEN {
        return Err(WireFault::BadBody);
    }
    let k = Reader::new(body).u64();
    Ok(Item { node, k })
}

/// Returns the length of the body of a batch of `items`.
#[tactic(auto, using(crate::proofs::Lengths::lengths))]
pub(crate) fn batch_len(items: &[Item]) -> usize
    requires { length items.now ≤ 256 }
    ensures len { result ≡ length (batch_body items.now) }
    ensures at_most { result ≤ 4104 }
{
    BATCH_FIXED + Item::LEN * items.len()
}

/// Writes the count and a padding, then the items (`struct fuse_batch_forget_in`).
#[tactic(auto, using(crate::proofs::Written::written))]
pub(crate) fn put_batch(fields: &mut MessageWriter, items: &[Item])
    requires at_most { length items.now ≤ 256 }
    requires room { HasRoom fields.old (length (batch_body items.now)) }
    ensures body { Puts fields.old fields.new (batch_body items.now) }
    ensures fits { All FitsItem items.now }
{
    fields.put_u32(items.len() as u32);
    fields.put_zeros(BATCH_REST_LEN);
    put_items(fields, items);
}

/// Writes the items of a batch, in their order.
#[tactic(auto, using(crate::proofs::Written::written))]
fn put_items(fields: &mut MessageWriter, items: &[Item])
    requires { HasRoom fields.old (length (flat_map item_text items.now)) }
    ensures lines { Puts fields.old fields.new (flat_map item_text items.now) }
    ensures fits { All FitsItem items.now }
{
    for item in items {
        put_item(fields, *item);
    }
}

/// Writes an item of a batch (`struct fuse_forget_one`).
#[tactic(auto, using(crate::proofs::Written::written))]
fn put_item(fields: &mut MessageWriter, item: Item)
    requires { HasRoom fields.old 16 }
    ensures item { Puts fields.old fields.new (item_text item) }
    ensures fits { FitsItem item }
{
    fields.put_u64(item.node.0);
    fields.put_u64(item.k);
}

/// Returns how many items the body of a BATCH_FORGET has, and their bytes (`struct fuse_batch_forget_in`).
#[tactic(auto, unfolding(crate::specs::RequestBody::batch_of))]
pub(crate) fn items_part(body: &[u8]) -> Result<(usize, &[u8]), WireFault>
    ensures items { IfOk result (λ part. batch_of body.now ≡ Ok (items_at part.0 part.1.now)) }
    ensures whole { IfOk result (λ part. length part.1.now ≡ 16 * part.0) }
    ensures at_most { IfOk result (λ part. part.0 ≤ 256) }
    ensures fault { IfErr result (λ fault. Gives TakesNone (Err fault) (batch_of body.now)) }
{
    if body.len() < BATCH_FIXED {
        return Err(WireFault::BadBody);
    }
    let count = Reader::new(body).u32() as usize;
    if count > Items::MAX_LEN || body.len() != BATCH_FIXED + Item::LEN * count {
        return Err(WireFault::BadCount);
    }
    let (_, items) = body.split_at(BATCH_FIXED);
    Ok((count, items))
}

/// Reads the items of a BATCH_FORGET.
pub(crate) fn read_batch<M: Memory>(memory: M, body: &[u8]) -> Result<Batch, WireFault>
    ensures { Gives (MayLack M.may_lack TakesSome) result (batch_of body.now) }
{
    let (count, items) = items_part(body)?;
    match memory.batch(count, items) {
        Ok(batch) => Ok(batch),
        Err(NoMemory) => Err(WireFault::NoMemory),
    }
}
