//! The entries of a directory as bytes.
//!
//! ENTRY is NUMBER NEXT KIND NAME. `fuse list SIZE ENTRY..`: the bytes of those that fit into SIZE; `fuse fits SIZE ENTRY..`:
//! whether each fits, or the fault of its name; `fuse fill SIZE ENTRY`: how often it fits; `fuse entries BYTES`: the entries
//! that are read, and then `end` or the fault.
use fuse_wire::{DirectoryEntry, Entries, Listing};
use row_words::{Output, RowFault, Words, name_fault, read_kind, read_u32, tell_wire_fault};

/// The greatest count of entries in a row. The longest answer has 2,047.
const MOST_ENTRIES: usize = 4096;

/// Appends the entry that the next words tell, and writes whether it fits, or the fault of its name.
fn push_entry(listing: &mut Listing, words: &mut Words<'_>, output: &mut Output) {
    let number = words.number();
    let next = words.number();
    let kind = read_kind(words);
    let name = words.bytes();
    match DirectoryEntry::of(number, next, kind, name.as_slice()) {
        Ok(entry) => output.flag(listing.push(&entry)),
        Err(fault) => output.word(name_fault(fault)),
    }
}

/// Makes a listing of the entries that `words` tell, and writes of each whether it fits.
fn listing_of(words: &mut Words<'_>, output: &mut Output) -> Result<Listing, RowFault> {
    let size = read_u32(words);
    let mut listing = Listing::with_room(words.alloc(), size)?;
    for _entry in 0..MOST_ENTRIES {
        if !words.has_more() {
            break;
        }
        push_entry(&mut listing, words, output);
    }
    words.end()?;
    Ok(listing)
}

/// Writes of each entry that `words` tell whether it fits.
pub(crate) fn call_fits(words: &mut Words<'_>, output: &mut Output) -> Result<(), RowFault> {
    let _listing = listing_of(words, output)?;
    Ok(())
}

/// Writes the bytes of a listing of the entries that `words` tell.
pub(crate) fn call_list(words: &mut Words<'_>, output: &mut Output) -> Result<(), RowFault> {
    let listing = listing_of(words, output)?;
    output.clear();
    output.bytes(listing.into_buffer().as_slice());
    Ok(())
}

/// Writes how often an entry fits.
pub(crate) fn call_fill(words: &mut Words<'_>, output: &mut Output) -> Result<(), RowFault> {
    let size = read_u32(words);
    let number = words.number();
    let next = words.number();
    let kind = read_kind(words);
    let name = words.bytes();
    words.end()?;
    let mut listing = Listing::with_room(words.alloc(), size)?;
    let Ok(entry) = DirectoryEntry::of(number, next, kind, name.as_slice()) else {
        return Err(RowFault::BadRow);
    };
    for count in 0..MOST_ENTRIES {
        if !listing.push(&entry) {
            output.number(count as u64);
            break;
        }
    }
    Ok(())
}

/// Writes the entries that are read in `bytes`, and then `end` or the fault.
pub(crate) fn tell_entries(bytes: &[u8], output: &mut Output) {
    let mut entries = Entries::of(bytes);
    for _entry in 0..MOST_ENTRIES {
        match entries.next_entry() {
            Ok(Some(entry)) => {
                output.number(entry.number);
                output.number(entry.next);
                output.word(entry.kind.name());
                output.bytes(entry.name);
            }
            Ok(None) => {
                output.word("end");
                return;
            }
            Err(fault) => {
                tell_wire_fault(output, fault);
                return;
            }
        }
    }
}
