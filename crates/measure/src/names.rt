//! The names of made entries, by index: entry 0 is a directory, entries 1 to 63 are its files, entry 64 is the next
//! directory, and so on.
use eden_base::{Name, NoMemory};
use std::alloc::{AllocError, Global};

/// How many entries a directory and its files make up.
pub(crate) const EACH: u64 = 64;

/// Returns the number of the directory of entry `i`. If entry `i` is itself a directory, that is the root's number.
/// Entry 0 has number 2, entry 1 has number 3, and so on.
pub(crate) fn parent_of(i: u64) -> u64 {
    if i % EACH == 0 {
        1
    } else {
        (i - i % EACH).wrapping_add(2)
    }
}

/// Returns the name of entry `i`, as text.
pub(crate) fn name_text(alloc: Global, i: u64) -> Result<String, AllocError> {
    if i % EACH == 0 {
        format!(in alloc; "directory{i}")
    } else {
        format!(in alloc; "file{i}.txt")
    }
}

/// Makes a name of `text`. The text is fit for a name, so only memory can be refused.
pub(crate) fn named(alloc: Global, text: String) -> Result<Name, NoMemory> {
    match Name::parse(alloc, text.as_bytes()) {
        Ok(name) => Ok(name),
        Err(_fault) => Err(NoMemory),
    }
}

/// Returns the name of entry `i`.
pub(crate) fn name_of(alloc: Global, i: u64) -> Result<Name, NoMemory> {
    named(alloc, name_text(alloc, i)?)
}

/// Returns the name of file `i`.
pub(crate) fn file_name(alloc: Global, i: u64) -> Result<Name, NoMemory> {
    named(alloc, format!(in alloc; "file{i}.txt")?)
}

/// Returns name `j` of those that no entry has.
pub(crate) fn fresh_name(alloc: Global, j: u64) -> Result<Name, NoMemory> {
    named(alloc, format!(in alloc; "fresh{j}.txt")?)
}
