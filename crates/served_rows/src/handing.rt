//! What one daemon hands to the next.
//!
//! `served hand GENERATION VERSION: BYTES | Refused`.
//! `served image GENERATION VERSION: BYTES | FAULT` takes the image of what is served, and writes it.
//! `served take LIMIT GENERATION BYTES: ok | Refused` serves what bytes hand over from then on.
//! `served raise LIMIT BYTES: ok | FAULT` serves what is restored from an image from then on.
//! `served on LIMIT GENERATION VERSION: ok | FAULT` hands over, and serves what is restored from that.
//! `served pass LIMIT GENERATION VERSION: yes | no | Refused` hands over, takes that over, and tells whether that is
//! handed over as the same bytes. What is served stays as it is.
use crate::faults::{handover_word, image_word, tell_raise_fault, write_word};
use crate::hosted::{Hosted, taken};
use crate::{read_usize, read_version};
use map_codec::{HandoverFault, hand_over, image_of};
use map_image::{named_by, read, write};
use row_words::{Output, RowFault, Words};

/// Hands over.
fn hand(hosted: &Hosted, words: &mut Words<'_>, output: &mut Output) -> Result<(), RowFault> {
    let generation = words.number();
    let version = read_version(words);
    words.end()?;
    match hand_over(hosted.alloc(), hosted.served(), generation, version) {
        Ok(bytes) => output.bytes(bytes.as_slice()),
        Err(fault) => output.word(handover_word(fault)?),
    }
    Ok(())
}

/// Writes the image of what is served.
fn image(hosted: &Hosted, words: &mut Words<'_>, output: &mut Output) -> Result<(), RowFault> {
    let generation = words.number();
    let version = read_version(words);
    words.end()?;
    let image = image_of(
        hosted.alloc(),
        hosted.served(),
        generation,
        named_by(version),
    )?;
    let written = write(hosted.alloc(), &image, version);
    drop(image);
    match written {
        Ok(bytes) => output.bytes(bytes.as_slice()),
        Err(fault) => output.word(write_word(fault)?),
    }
    Ok(())
}

/// Takes over.
fn take(hosted: &mut Hosted, words: &mut Words<'_>, output: &mut Output) -> Result<(), RowFault> {
    let limit = read_usize(words);
    let generation = words.number();
    let bytes = words.bytes();
    words.end()?;
    match hosted.take(bytes.as_slice(), limit, generation) {
        Ok(()) => output.word("ok"),
        Err(fault) => output.word(handover_word(fault)?),
    }
    Ok(())
}

/// Restores the image in `bytes`.
fn restore(
    hosted: &mut Hosted,
    bytes: &[u8],
    limit: usize,
    output: &mut Output,
) -> Result<(), RowFault> {
    match read(hosted.alloc(), bytes) {
        Ok(image) => match hosted.raise(image, limit) {
            Ok(()) => output.word("ok"),
            Err(fault) => tell_raise_fault(output, fault)?,
        },
        Err(fault) => output.word(image_word(fault)?),
    }
    Ok(())
}

/// Restores an image.
fn raise(hosted: &mut Hosted, words: &mut Words<'_>, output: &mut Output) -> Result<(), RowFault> {
    let limit = read_usize(words);
    let bytes = words.bytes();
    words.end()?;
    restore(hosted, bytes.as_slice(), limit, output)
}

/// Hands over, and restores what was handed over.
fn hand_on(
    hosted: &mut Hosted,
    words: &mut Words<'_>,
    output: &mut Output,
) -> Result<(), RowFault> {
    let limit = read_usize(words);
    let generation = words.number();
    let version = read_version(words);
    words.end()?;
    match hand_over(hosted.alloc(), hosted.served(), generation, version) {
        Ok(bytes) => restore(hosted, bytes.as_slice(), limit, output)?,
        Err(fault) => output.word(handover_word(fault)?),
    }
    Ok(())
}

/// Hands over, takes that over, and returns whether the same bytes are handed over then.
fn is_passed(
    hosted: &Hosted,
    limit: usize,
    generation: u64,
    version: u16,
) -> Result<bool, HandoverFault> {
    let alloc = hosted.alloc();
    let bytes = hand_over(alloc, hosted.served(), generation, version)?;
    let next = taken(
        alloc,
        bytes.as_slice(),
        hosted.manifest(),
        limit,
        generation,
    )?;
    let again = hand_over(alloc, &next, generation, version);
    drop(next);
    Ok(again?.as_slice() == bytes.as_slice())
}

/// Tells whether what is handed over and taken over is handed over as the same bytes.
fn pass(hosted: &Hosted, words: &mut Words<'_>, output: &mut Output) -> Result<(), RowFault> {
    let limit = read_usize(words);
    let generation = words.number();
    let version = read_version(words);
    words.end()?;
    match is_passed(hosted, limit, generation, version) {
        Ok(is_passed) => output.flag(is_passed),
        Err(fault) => output.word(handover_word(fault)?),
    }
    Ok(())
}

/// Makes the call `call`.
pub(crate) fn call_handing(
    hosted: &mut Hosted,
    call: &[u8],
    words: &mut Words<'_>,
    output: &mut Output,
) -> Result<(), RowFault> {
    match call {
        b"hand" => hand(hosted, words, output),
        b"image" => image(hosted, words, output),
        b"take" => take(hosted, words, output),
        b"raise" => raise(hosted, words, output),
        b"on" => hand_on(hosted, words, output),
        b"pass" => pass(hosted, words, output),
        _ => Err(RowFault::BadRow),
    }
}
