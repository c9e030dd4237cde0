//! Lines with the values of loops in them: `{n}`, `{n+1}`, `{n*2-1}`, and `{n:3}` for three digits at least.
use eden_base::cut;
use row_words::{RowFault, decimal};
use std::alloc::Global;

/// A loop over the lines behind one line, with the value that it has now.
#[derive(Clone, Copy)]
pub(crate) struct Loop<'a> {
    pub(crate) name: &'a [u8],
    pub(crate) value: u64,
    pub(crate) last: u64,
    /// The index of the first line within the loop.
    pub(crate) first: usize,
}

/// Returns whether `byte` is the sign of a sum, a difference, a product, a quotient or a remainder.
fn is_sign(byte: u8) -> bool {
    matches!(byte, b'+' | b'-' | b'*' | b'/' | b'%')
}

/// Parts `text` before its first sign behind the first byte.
fn before_sign(text: &[u8]) -> (&[u8], &[u8]) {
    let place = text
        .iter()
        .position(|byte| is_sign(*byte))
        .unwrap_or(text.len());
    text.split_at(place.min(text.len()))
}

/// Returns `value` with `operand` added, taken away, and so on, as `sign` says.
fn applied(value: u64, sign: u8, operand: u64) -> Option<u64> {
    match sign {
        b'+' => value.checked_add(operand),
        b'-' => value.checked_sub(operand),
        b'*' => value.checked_mul(operand),
        b'/' => value.checked_div(operand),
        b'%' => value.checked_rem(operand),
        _ => None,
    }
}

/// Returns the value of a name of `loops`, or of a number.
fn operand_of(loops: &[Loop<'_>], word: &[u8]) -> Option<u64> {
    for each in loops {
        if each.name == word {
            return Some(each.value);
        }
    }
    decimal(word)
}

/// Returns the value of a sum, as `n*2+1`, from left to right.
fn value_of(loops: &[Loop<'_>], sum: &[u8]) -> Option<u64> {
    let (first, behind) = before_sign(sum);
    let mut value = operand_of(loops, first)?;
    let mut rest = behind;
    for _operand in 0..sum.len() {
        let Some((sign, others)) = rest.split_first() else {
            return Some(value);
        };
        let (operand, behind) = before_sign(others);
        value = applied(value, *sign, operand_of(loops, operand)?)?;
        rest = behind;
    }
    Some(value)
}

/// Appends the value of `sum` to `line`, with as many digits at least as it says behind a colon.
fn put_value(
    alloc: Global,
    line: &mut Vec<u8>,
    loops: &[Loop<'_>],
    sum: &[u8],
) -> Result<(), RowFault> {
    let (sum, width) = match cut(sum, b':') {
        Some((sum, digits)) => (sum, decimal(digits).ok_or(RowFault::BadRow)?),
        None => (sum, 1),
    };
    let value = value_of(loops, sum).ok_or(RowFault::BadRow)?;
    let digits = format!(in alloc; "{value}")?;
    let lacking = width.min(255).saturating_sub(digits.len() as u64);
    for _digit in 0..lacking {
        line.push(b'0')?;
    }
    line.extend_from_slice(digits.as_bytes())?;
    Ok(())
}

/// Makes `line` the text of `template`, with the values of `loops` in the place of their names.
pub(crate) fn fill(
    alloc: Global,
    line: &mut Vec<u8>,
    loops: &[Loop<'_>],
    template: &[u8],
) -> Result<(), RowFault> {
    line.clear();
    let mut rest = template;
    for _brace in 0..=template.len() {
        let Some((before, behind)) = cut(rest, b'{') else {
            line.extend_from_slice(rest)?;
            return Ok(());
        };
        line.extend_from_slice(before)?;
        let (sum, behind) = cut(behind, b'}').ok_or(RowFault::BadRow)?;
        put_value(alloc, line, loops, sum)?;
        rest = behind;
    }
    Err(RowFault::BadRow)
}
