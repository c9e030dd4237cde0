//! Decimal numbers.
ghost use Rattle.std.specs.Prelude.{◌≡◌};
ghost use Rattle.script_lines.specs.Number.{number_of, with_digit};

/// Returns the number that decimal digits write, if it fits 64 bits. Zeros may come first, but no sign may.
pub fn number(digits: &[u8]) -> Option<u64>
    ensures { result ≡ number_of digits.now }
{
    if digits.is_empty() {
        return None;
    }
    let mut value = 0;
    for byte in digits {
        value = with_digit(value, *byte)?;
    }
    Some(value)
}

/// Returns `value` with one more digit at its end, if `byte` is a digit and the number fits 64 bits.
fn with_digit(value: u64, byte: u8) -> Option<u64>
    ensures { result ≡ with_digit value byte }
{
    if !byte.is_ascii_digit() {
        return None;
    }
    value.checked_mul(10)?.checked_add(u64::from(byte - b'0'))
}
