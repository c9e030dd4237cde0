//! `keys new`: makes an empty map. `keys new NUMBERS`: makes one with buckets for as many.
//! `keys insert COUNT STEP`: puts I + 1 at the key I * STEP, wrapped, for each I below COUNT whose key has no number.
//! Tells how many numbers it put. `keys remove_odd COUNT STEP`: removes those of odd I, and tells how many.
//! `keys right COUNT STEP`: how many keys have their number.
//! `keys right_even COUNT STEP`: how many keys have their number if I is even, and none if I is odd.
use crate::{Done, Trees};
use key_map::KeyMap;
use row_words::{Output, RowFault, Words};
use std::alloc::Global;

/// Makes an empty map, with buckets for numbers if the words tell how many.
fn new(trees: &mut Trees, words: &mut Words<'_>, output: &mut Output) -> Done {
    let map = if words.has_more() {
        KeyMap::for_numbers(trees.alloc, words.number() as usize)
    } else {
        KeyMap::new(trees.alloc)
    };
    words.end()?;
    trees.keys = Some(map);
    output.word("ok");
    Ok(())
}

/// Goes over the keys, as `word` tells. Returns how many were put or removed, or are right.
fn gone_over(alloc: Global, map: &mut KeyMap, word: &[u8], count: u64, step: u64) -> u64 {
    let mut found = 0u64;
    for i in 0..count {
        let key = i.wrapping_mul(step);
        let number = map.get(key);
        let is_own = number == Some(i.wrapping_add(1));
        let is_counted = match word {
            b"insert" => number.is_none() && map.insert(alloc, key, i.wrapping_add(1)).is_ok(),
            b"remove_odd" if i % 2 == 1 => map.remove(key, i.wrapping_add(1)),
            b"right" => is_own,
            b"right_even" if i % 2 == 1 => number.is_none(),
            b"right_even" => is_own,
            _ => false,
        };
        found = found.wrapping_add(u64::from(is_counted));
    }
    found
}

/// Makes a call with a count and a step.
fn go_over(trees: &mut Trees, word: &[u8], words: &mut Words<'_>, output: &mut Output) -> Done {
    let count = words.number();
    let step = words.number();
    words.end()?;
    let map = trees.keys.as_mut().ok_or(RowFault::BadRow)?;
    output.number(gone_over(trees.alloc, map, word, count, step));
    Ok(())
}

/// Makes a call of keys.
pub(crate) fn call(trees: &mut Trees, words: &mut Words<'_>, output: &mut Output) -> Done {
    match words.word() {
        b"new" => new(trees, words, output),
        word => go_over(trees, word, words, output),
    }
}
