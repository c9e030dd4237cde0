//! The bytes that a word stands for: pieces with a plus between them.
//!
//! A piece is `0x` and hexadecimal digits, `@` and the name of a text, a number as `le32:7` or `be64:7`, or else the
//! bytes themselves, with `%` and two hexadecimal digits for a byte that stands for something else. Behind it may stand
//! `[A..B]` for a part, `[I=HEX]` for other bytes from index I on, and `^COUNT` for COUNT copies.
use crate::number::{decimal, hex_digit};
use crate::row_fault::RowFault;
use crate::texts::Texts;
use eden_base::cut;
use std::alloc::Global;

/// How many changes may stand behind a piece.
const MOST_CHANGES: usize = 64;

/// How many bytes a word may stand for.
const MOST_BYTES: usize = 1 << 30;

/// Returns the part of `text` before the first bracket or caret, and the rest.
fn before_change(text: &[u8]) -> (&[u8], &[u8]) {
    let place = text
        .iter()
        .position(|byte| *byte == b'[' || *byte == b'^')
        .unwrap_or(text.len());
    text.split_at(place.min(text.len()))
}

/// Returns what stands behind `front` in `text`, if `text` begins with it.
fn behind<'a>(text: &'a [u8], front: &[u8]) -> Option<&'a [u8]> {
    if text.starts_with(front) {
        text.get(front.len()..)
    } else {
        None
    }
}

/// Appends the bytes that hexadecimal digits write to `bytes`.
fn put_hex(bytes: &mut Vec<u8>, digits: &[u8]) -> Result<(), RowFault> {
    let mut high: Option<u8> = None;
    for digit in digits {
        let value = hex_digit(*digit).ok_or(RowFault::BadRow)?;
        high = match high {
            None => Some(value),
            Some(first) => {
                bytes.push((first & 15) << 4 | value)?;
                None
            }
        };
    }
    if high.is_some() {
        return Err(RowFault::BadRow);
    }
    Ok(())
}

/// What is known of an escaped byte.
#[derive(Clone, Copy)]
enum Escape {
    None,
    Percent,
    High(u8),
}

/// Appends `text` to `bytes`, with the byte of each `%` and its two digits in their place.
fn put_literal(bytes: &mut Vec<u8>, text: &[u8]) -> Result<(), RowFault> {
    let mut escape = Escape::None;
    for byte in text {
        escape = match escape {
            Escape::None if *byte == b'%' => Escape::Percent,
            Escape::None => {
                bytes.push(*byte)?;
                Escape::None
            }
            Escape::Percent => Escape::High(hex_digit(*byte).ok_or(RowFault::BadRow)?),
            Escape::High(high) => {
                bytes.push((high & 15) << 4 | hex_digit(*byte).ok_or(RowFault::BadRow)?)?;
                Escape::None
            }
        };
    }
    match escape {
        Escape::None => Ok(()),
        Escape::Percent | Escape::High(_) => Err(RowFault::BadRow),
    }
}

/// Appends the last `width` bytes of `value` to `bytes`: the least byte first, or last where `is_big`.
fn put_number(bytes: &mut Vec<u8>, value: u64, width: usize, is_big: bool) -> Result<(), RowFault> {
    let little = value.to_le_bytes();
    let big = value.to_be_bytes();
    let part = if is_big {
        big.get(8 - width.min(8)..)
    } else {
        little.get(..width.min(8))
    };
    bytes.extend_from_slice(part.ok_or(RowFault::BadRow)?)?;
    Ok(())
}

/// Appends the number that `text` says, as `le32:7`, to `bytes`. Returns whether it says one.
fn put_width(bytes: &mut Vec<u8>, text: &[u8]) -> Result<bool, RowFault> {
    let Some((form, digits)) = cut(text, b':') else {
        return Ok(false);
    };
    let (width, is_big) = match form {
        b"u8" => (1, false),
        b"le16" => (2, false),
        b"le32" => (4, false),
        b"le64" => (8, false),
        b"be16" => (2, true),
        b"be32" => (4, true),
        b"be64" => (8, true),
        _ => return Ok(false),
    };
    let value = decimal(digits).ok_or(RowFault::BadRow)?;
    put_number(bytes, value, width, is_big)?;
    Ok(true)
}

/// Makes the bytes of a piece without what stands behind it.
fn base_of(alloc: Global, texts: &Texts, text: &[u8]) -> Result<Vec<u8>, RowFault> {
    let mut bytes = Vec::new(alloc);
    if let Some(name) = behind(text, b"@") {
        let named = texts.get(name).ok_or(RowFault::BadRow)?;
        bytes.extend_from_slice(named)?;
    } else if let Some(digits) = behind(text, b"0x") {
        put_hex(&mut bytes, digits)?;
    } else if !put_width(&mut bytes, text)? {
        put_literal(&mut bytes, text)?;
    }
    Ok(bytes)
}

/// Makes the part of `bytes` that `range` tells, as `2..9`, `2..` or `..9`.
fn part_of(alloc: Global, bytes: &[u8], range: &[u8]) -> Result<Vec<u8>, RowFault> {
    let (first, rest) = cut(range, b'.').ok_or(RowFault::BadRow)?;
    let end = behind(rest, b".").ok_or(RowFault::BadRow)?;
    let first = if first.is_empty() {
        0
    } else {
        decimal(first).ok_or(RowFault::BadRow)?
    };
    let end = if end.is_empty() {
        bytes.len() as u64
    } else {
        decimal(end).ok_or(RowFault::BadRow)?
    };
    let first = usize::try_from(first).ok().ok_or(RowFault::BadRow)?;
    let end = usize::try_from(end).ok().ok_or(RowFault::BadRow)?;
    let part = bytes.get(first..end).ok_or(RowFault::BadRow)?;
    Ok(Vec::from_slice(alloc, part)?)
}

/// Writes other bytes over those of `bytes`, as `place` tells: an index, and hexadecimal digits.
fn write_over(
    alloc: Global,
    bytes: &mut Vec<u8>,
    index: &[u8],
    digits: &[u8],
) -> Result<(), RowFault> {
    let mut other = Vec::new(alloc);
    put_hex(&mut other, digits)?;
    let mut at = usize::try_from(decimal(index).ok_or(RowFault::BadRow)?)
        .ok()
        .ok_or(RowFault::BadRow)?;
    for byte in &other {
        *bytes.get_mut(at).ok_or(RowFault::BadRow)? = *byte;
        at = at.wrapping_add(1);
    }
    Ok(())
}

/// Makes `count` copies of `bytes`.
fn copies_of(alloc: Global, bytes: &[u8], count: &[u8]) -> Result<Vec<u8>, RowFault> {
    let count = decimal(count).ok_or(RowFault::BadRow)?;
    let mut copies = Vec::new(alloc);
    if count > MOST_BYTES as u64 {
        return Err(RowFault::BadRow);
    }
    for _copy in 0..count {
        copies.extend_from_slice(bytes)?;
    }
    Ok(copies)
}

/// Changes `bytes` as the front of `changes` says, and returns the changes behind that.
fn change<'a>(alloc: Global, bytes: &mut Vec<u8>, changes: &'a [u8]) -> Result<&'a [u8], RowFault> {
    if let Some(inside) = behind(changes, b"[") {
        let (inner, rest) = cut(inside, b']').ok_or(RowFault::BadRow)?;
        match cut(inner, b'=') {
            Some((index, digits)) => write_over(alloc, bytes, index, digits)?,
            None => *bytes = part_of(alloc, bytes.as_slice(), inner)?,
        }
        return Ok(rest);
    }
    let inside = behind(changes, b"^").ok_or(RowFault::BadRow)?;
    let (count, rest) = before_change(inside);
    *bytes = copies_of(alloc, bytes.as_slice(), count)?;
    Ok(rest)
}

/// Makes the bytes of a piece.
fn bytes_of_piece(alloc: Global, texts: &Texts, piece: &[u8]) -> Result<Vec<u8>, RowFault> {
    let (base, changes) = before_change(piece);
    let mut bytes = base_of(alloc, texts, base)?;
    let mut rest = changes;
    for _change in 0..MOST_CHANGES {
        if rest.is_empty() {
            return Ok(bytes);
        }
        rest = change(alloc, &mut bytes, rest)?;
    }
    Err(RowFault::BadRow)
}

/// Makes the bytes that `word` stands for. `texts` are the named texts.
pub fn bytes_of(alloc: Global, texts: &Texts, word: &[u8]) -> Result<Vec<u8>, RowFault> {
    let mut bytes = Vec::new(alloc);
    let mut rest = Some(word);
    for _piece in 0..=word.len() {
        let Some(pieces) = rest else {
            return Ok(bytes);
        };
        let (piece, behind) = match cut(pieces, b'+') {
            Some((piece, behind)) => (piece, Some(behind)),
            None => (pieces, None),
        };
        let made = bytes_of_piece(alloc, texts, piece)?;
        bytes.extend_from_slice(made.as_slice())?;
        rest = behind;
    }
    Ok(bytes)
}
