//! Names and permissions.
//!
//! `name parse BYTES`: the name, or the fault of bytes that are none. `name copy BYTES`, `name copy_to BYTES`: the name's
//! copy, if it is the name. `name compare BYTES BYTES`: the order of two names, and whether the first is less. `perm of
//! BITS`: octal, or `none`.
use eden_base::{Name, NameFault, NameRoom, Perm};
use row_words::{Output, RowFault, Words, chosen, name_fault, name_of, octal};
use std::alloc::Global;
use std::cmp::Ordering;

/// The calls of one name.
#[derive(Clone, Copy)]
enum NameCall {
    Parse,
    Copy,
    CopyTo,
}

static NAME_CALLS: [(&str, NameCall); 3] = [
    ("parse", NameCall::Parse),
    ("copy", NameCall::Copy),
    ("copy_to", NameCall::CopyTo),
];

/// Writes the name that was read, or why there is none.
fn tell(parsed: Result<Name, NameFault>, output: &mut Output) -> Result<(), RowFault> {
    match parsed {
        Ok(name) => output.bytes(name.bytes()),
        Err(NameFault::NoMemory) => return Err(RowFault::NoMemory),
        Err(fault) => output.word(name_fault(fault)),
    }
    Ok(())
}

/// Writes `copy`, if it is the name that was copied.
fn tell_copy(copy: &Name, is_name: bool, output: &mut Output) {
    if is_name {
        output.bytes(copy.bytes());
    } else {
        output.word("differs");
    }
}

/// Copies the name of `bytes`.
fn copy(alloc: Global, bytes: &[u8], output: &mut Output) -> Result<(), RowFault> {
    let name = name_of(alloc, bytes)?;
    let copy = name.copy(alloc)?;
    tell_copy(&copy, copy.is(&name), output);
    Ok(())
}

/// Copies the name of `bytes` into a room.
fn copy_to(alloc: Global, bytes: &[u8], output: &mut Output) -> Result<(), RowFault> {
    let room = NameRoom::new(alloc)?;
    let name = name_of(alloc, bytes)?;
    let copy = name.copy_to(room);
    tell_copy(&copy, copy == name, output);
    Ok(())
}

/// Compares the names of `left` and `right`.
fn compare(alloc: Global, left: &[u8], right: &[u8], output: &mut Output) -> Result<(), RowFault> {
    let left = name_of(alloc, left)?;
    let right = name_of(alloc, right)?;
    output.word(match left.cmp(&right) {
        Ordering::Less => "Less",
        Ordering::Equal => "Equal",
        Ordering::Greater => "Greater",
    });
    output.flag(left < right);
    Ok(())
}

/// Makes the call of `bytes` that `call` tells.
fn call_bytes(
    alloc: Global,
    call: &[u8],
    bytes: &[u8],
    output: &mut Output,
) -> Result<(), RowFault> {
    match chosen(&NAME_CALLS, call).ok_or(RowFault::BadRow)? {
        NameCall::Parse => tell(Name::parse(alloc, bytes), output),
        NameCall::Copy => copy(alloc, bytes, output),
        NameCall::CopyTo => copy_to(alloc, bytes, output),
    }
}

/// Compares two names.
fn call_compare(words: &mut Words<'_>, output: &mut Output) -> Result<(), RowFault> {
    let left = words.bytes();
    let right = words.bytes();
    words.end()?;
    compare(words.alloc(), left.as_slice(), right.as_slice(), output)
}

/// Makes a call of names.
pub(crate) fn call_names(words: &mut Words<'_>, output: &mut Output) -> Result<(), RowFault> {
    let call = words.word();
    if call == b"compare".as_slice() {
        return call_compare(words, output);
    }
    let bytes = words.bytes();
    words.end()?;
    call_bytes(words.alloc(), call, bytes.as_slice(), output)
}

/// Makes a call of permissions.
pub(crate) fn call_perms(words: &mut Words<'_>, output: &mut Output) -> Result<(), RowFault> {
    if words.word() != b"of".as_slice() {
        return Err(RowFault::BadRow);
    }
    let bits = octal(words.word()).ok_or(RowFault::BadRow)?;
    words.end()?;
    match Perm::of(bits) {
        Some(perm) => output.octal(perm.bits()),
        None => output.word("none"),
    }
    Ok(())
}
