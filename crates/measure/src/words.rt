//! The words that the program is started with.
use std::io::{Error, ErrorKind, Result};

const USAGE: &str = "usage: measure [SUBJECT WORD..]
  arena CAPACITY [times]
  queue COUNT
  checkout LINES [times]
  image ENTRIES UNLINKED [times]
  map ENTRIES [holes | given | random]
  requests LINES DEPTH | random
  messages LINES
  listing FILES OTHERS [changed | gone]
  wire FORM ROUNDS
  frames FORM ROUNDS
  journal RECORDS WORKERS ROUNDS
  rounds WORKERS ASKS ROUNDS [times]
The forms of wire are lookup, getattr, forget, batch, short, bad-length, bad-body, bad-count and bad-name; those of
frames are claim, ask and data. Without words a small run of each is made.";

/// Refuses the program's words: prints the usage on standard error, and returns an error.
pub(crate) fn refuse(rt: &impl Eprint) -> Result<()> {
    eprintln!(rt; "{USAGE}")?;
    Err(Error::from(ErrorKind::InvalidInput))
}

/// Returns the number that the word at index `place` writes, if it writes one.
pub(crate) fn number_at(words: &[&str], place: usize) -> Option<u32> {
    match words.get(place) {
        Some(word) => word.parse::<u32>().ok(),
        None => None,
    }
}
