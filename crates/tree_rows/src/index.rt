//! `index new`: makes an empty index. `index new NUMBERS`: makes one with buckets for as many.
//! `index put DIR NAME NUMBER`: puts a number under a name of a directory. `index remove DIR NAME NUMBER`: removes it.
//! These two tell `refused` where a condition of the call does not hold, and then make no call.
//! `index get DIR NAME`: the number under a name. `index names DIR`: whether a directory has a number.
//! `index first DIR LEAST`: the first number of a directory from a number on. `index trim`: gives back spare room.
ghost use Rattle.directory_index.specs.Index.{IsIndexOf};
ghost use Rattle.directory_index.specs.Standing.{nothing};

use crate::known::KnownIndex;
use crate::{Done, Trees, put};
use directory_index::DirectoryIndex;
use row_words::{Output, RowFault, Words};
use std::alloc::Global;

/// Makes an empty index, with buckets for numbers if the words tell how many.
fn empty_of(alloc: Global, words: &mut Words<'_>) -> DirectoryIndex
    ensures empty { IsIndexOf nothing result }
{
    if words.has_more() {
        return DirectoryIndex::for_numbers(alloc, words.number() as usize);
    }
    DirectoryIndex::new(alloc)
}

/// Makes an empty index.
fn new(trees: &mut Trees, words: &mut Words<'_>, output: &mut Output) -> Done {
    let index = KnownIndex::of(trees.alloc, empty_of(trees.alloc, words));
    words.end()?;
    trees.index = Some(index);
    output.word("ok");
    Ok(())
}

/// Tells whether a call was made.
fn tell_made(output: &mut Output, is_made: bool) -> Done {
    output.word(if is_made { "ok" } else { "refused" });
    Ok(())
}

/// Puts a number under a name.
fn put_number(
    alloc: Global,
    index: &mut KnownIndex,
    words: &mut Words<'_>,
) -> Result<bool, RowFault> {
    let dir = words.number();
    let name = words.bytes();
    let number = words.number();
    words.end()?;
    index.put(alloc, dir, name.as_slice(), number)
}

/// Removes a number from a name.
fn remove(index: &mut KnownIndex, words: &mut Words<'_>) -> Result<bool, RowFault> {
    let dir = words.number();
    let name = words.bytes();
    let number = words.number();
    words.end()?;
    Ok(index.remove(dir, name.as_slice(), number))
}

/// Tells the number under a name.
fn get(index: &KnownIndex, words: &mut Words<'_>, output: &mut Output) -> Done {
    let dir = words.number();
    let name = words.bytes();
    words.end()?;
    put(output, index.get(dir, name.as_slice()));
    Ok(())
}

/// Tells whether a directory has a number.
fn names(index: &KnownIndex, words: &mut Words<'_>, output: &mut Output) -> Done {
    let dir = words.number();
    words.end()?;
    output.flag(index.has_names(dir));
    Ok(())
}

/// Tells the first number of a directory from a number on.
fn first(index: &KnownIndex, words: &mut Words<'_>, output: &mut Output) -> Done {
    let dir = words.number();
    let least = words.number();
    words.end()?;
    put(output, index.first_from(dir, least));
    Ok(())
}

/// Gives back spare room.
fn trim(index: &mut KnownIndex, words: &mut Words<'_>, output: &mut Output) -> Done {
    words.end()?;
    index.trim();
    output.word("ok");
    Ok(())
}

/// Makes a call of an index.
pub(crate) fn call(trees: &mut Trees, words: &mut Words<'_>, output: &mut Output) -> Done {
    let word = words.word();
    if word == b"new".as_slice() {
        return new(trees, words, output);
    }
    let index = trees.index.as_mut().ok_or(RowFault::BadRow)?;
    match word {
        b"put" => tell_made(output, put_number(trees.alloc, index, words)?),
        b"remove" => tell_made(output, remove(index, words)?),
        b"get" => get(index, words, output),
        b"names" => names(index, words, output),
        b"first" => first(index, words, output),
        b"trim" => trim(index, words, output),
        _ => Err(RowFault::BadRow),
    }
}
