//! Reads requests of one form again and again, so that the instructions of a read can be counted:
//! `measure wire FORM ROUNDS`.
use crate::bytes::put_all;
use crate::figures::Figures;
use crate::words::number_at;
use eden_base::NoMemory;
use fuse_wire::{Ask, WireFault, read_request};
use std::alloc::{AllocError, Global};

/// How many different messages of one form are read one after another, so that no message is read twice in a row.
const MESSAGES: u32 = 64;

const FORMS: [&str; 9] = [
    "lookup",
    "getattr",
    "forget",
    "batch",
    "short",
    "bad-length",
    "bad-body",
    "bad-count",
    "bad-name",
];

/// Returns the opcode of a form.
fn opcode_of(form: &str) -> u8 {
    match form {
        "getattr" => 3,
        "forget" => 2,
        "batch" | "bad-count" => 42,
        _ => 1,
    }
}

/// Returns the body of a form.
fn body_of(alloc: Global, form: &str) -> Result<Vec<u8>, AllocError> {
    match form {
        "getattr" => Vec::from_slice(alloc, &[0; 16]),
        "forget" => Vec::from_slice(alloc, &[1, 0, 0, 0, 0, 0, 0, 0]),
        "batch" => batch(alloc, 0),
        "bad-count" => batch(alloc, 1),
        "bad-body" => Vec::from_slice(alloc, b"src"),
        "bad-name" => Vec::from_slice(alloc, b"a/b\0"),
        _ => Vec::from_slice(alloc, b"src\0"),
    }
}

/// Writes the body of a BATCH_FORGET of 256 items. Its count says `excess` more.
fn batch(alloc: Global, excess: u8) -> Result<Vec<u8>, AllocError> {
    let mut body = Vec::from_slice(alloc, &[excess, 1, 0, 0, 0, 0, 0, 0])?;
    for i in 0..256u64 {
        let node = i.to_le_bytes();
        put_all(&mut body, &[node.as_slice(), &[1, 0, 0, 0, 0, 0, 0, 0]])?;
    }
    Ok(body)
}

/// Writes a message of a form, with this unique and this body, about the root.
fn spell(alloc: Global, form: &str, unique: u32, body: &[u8]) -> Result<Vec<u8>, AllocError> {
    let excess = if form == "bad-length" { 1 } else { 0 };
    let len = (body.len().wrapping_add(40).wrapping_add(excess) as u64).to_le_bytes();
    let opcode = [opcode_of(form), 0, 0, 0];
    let unique = u64::from(unique).to_le_bytes();
    let root = 1u64.to_le_bytes();
    let mut bytes = Vec::new(alloc);
    put_all(
        &mut bytes,
        &[&len[..4], &opcode, &unique, &root, &[0; 16], body],
    )?;
    if form == "short" {
        bytes.truncate(39);
    }
    Ok(bytes)
}

/// Writes a message of a form, with this unique.
fn message(alloc: Global, form: &str, unique: u32) -> Result<Vec<u8>, AllocError> {
    let body = body_of(alloc, form)?;
    let message = spell(alloc, form, unique, body.as_slice());
    drop(body);
    message
}

/// Writes the messages of a form.
fn messages(alloc: Global, form: &str) -> Result<Vec<Vec<u8>>, AllocError> {
    let mut texts = Vec::new(alloc);
    for unique in 0..MESSAGES {
        texts.push(message(alloc, form, unique)?)?;
    }
    Ok(texts)
}

/// Reads one message. It is not inlined, so that the reader is called as by another crate.
#[inline(never)]
fn read(alloc: Global, text: &[u8]) -> Result<Ask, WireFault> {
    read_request(alloc, text)
}

/// Reads all messages. Each request is kept in `asks`, so that the compiler builds it whole.
fn read_all(alloc: Global, texts: &[Vec<u8>], asks: &mut Vec<Ask>) -> Result<(), AllocError> {
    for text in texts {
        if let Ok(ask) = read(alloc, text.as_slice()) {
            asks.push(ask)?;
        }
    }
    Ok(())
}

/// Returns the sum of all uniques.
fn uniques(asks: &[Ask]) -> u64 {
    let mut sum = 0u64;
    for ask in asks {
        sum = sum.wrapping_add(ask.unique);
    }
    sum
}

/// Reads all messages once. Returns how many are read, and the sum of their uniques.
fn round(
    alloc: Global,
    texts: &[Vec<u8>],
    asks: &mut Vec<Ask>,
) -> Result<(usize, u64), AllocError> {
    read_all(alloc, texts, asks)?;
    let counts = (asks.len(), uniques(asks.as_slice()));
    asks.clear();
    Ok(counts)
}

/// Reads all messages `rounds` times, and returns the sums over the rounds.
fn read_rounds(alloc: Global, texts: &[Vec<u8>], rounds: u32) -> Result<(usize, u64), AllocError> {
    let mut asks = Vec::with_capacity(alloc, MESSAGES as usize)?;
    let mut read = 0usize;
    let mut sum = 0u64;
    for _ in 0..rounds {
        let (more, uniques) = round(alloc, texts, &mut asks)?;
        read = read.wrapping_add(more);
        sum = sum.wrapping_add(uniques);
    }
    Ok((read, sum))
}

/// Makes the messages of a form, and reads them `rounds` times.
fn read_form(alloc: Global, form: &str, rounds: u32) -> Result<(usize, u64), AllocError> {
    let texts = messages(alloc, form)?;
    let figures = read_rounds(alloc, texts.as_slice(), rounds);
    drop(texts);
    figures
}

/// Measures reading the messages of a form, as `words` say.
pub(crate) fn measure(alloc: Global, words: &[&str]) -> Result<Option<Figures>, NoMemory> {
    let (Some(form), Some(rounds)) = (words.first(), number_at(words, 1)) else {
        return Ok(None);
    };
    if !FORMS.contains(form) {
        return Ok(None);
    }
    let (read, sum) = read_form(alloc, form, rounds)?;
    Ok(Some(Figures::of(&["read", "sum"], &[read as u64, sum])))
}
