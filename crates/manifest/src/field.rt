//! The fields of a manifest's line.
ghost use Rattle.std.specs.Prelude.{◌≡◌, ◌≤◌, ◌+◌, ◌-◌, IfSome, IsTrue, length, nat_le, if◌then◌else◌};
ghost use Rattle.std.specs.Option.{SomeIff, option_copied};
ghost use Rattle.std.specs.List.{list_all};
ghost use Rattle.eden_base.specs.Limits.{greatest_size};
ghost use Rattle.manifest.specs.Text.{after, parts, mode_of, size_of, is_octal, has_leading_zero, is_decimal, decimal};
ghost use Rattle.manifest.specs.Names.{is_name};

use eden_base::{GREATEST_SIZE, Name, Perm, cut};

/// Returns what follows `front` in `text`, or none if `text` does not begin with it.
pub fn after<'a>(front: &[u8], text: &'a [u8]) -> Option<&'a [u8]>
    ensures { option_copied result ≡ after front.now text.now }
{
    text.strip_prefix(front)
}

/// Returns whether `bytes` are a name, by the rules of `Name::parse`.
fn is_name(bytes: &[u8]) -> bool
    ensures { result ≡ is_name bytes.now }
{
    Name::fault(bytes).is_none()
}

/// Returns whether each part of `path` between slashes is a name.
pub fn is_path(path: &[u8]) -> bool
    ensures { result ≡ list_all is_name (parts 47 path.now) }
{
    let mut rest = path;
    while let Some((name, after)) = cut(rest, b'/') {
        if !is_name(name) {
            return false;
        }
        rest = after;
    }
    is_name(rest)
}

/// Returns the permissions of a mode in four octal digits, or none for any other text.
pub fn mode_of(digits: &[u8]) -> Option<Perm>
    ensures mode { result ≡ mode_of digits.now }
{
    let [special, owner, group, others] = digits else {
        return None;
    };
    let special = octal(*special)?;
    let owner = octal(*owner)?;
    let group = octal(*group)?;
    let others = octal(*others)?;
    Perm::of(special * 512 + owner * 64 + group * 8 + others)
}

/// Returns the value of an octal digit, or none for any other byte.
fn octal(digit: u8) -> Option<u16>
    ensures { SomeIff result (IsTrue (is_octal digit)) (digit - 48) }
{
    match digit {
        b'0'..=b'7' => Some((digit - b'0') as u16),
        _ => None,
    }
}

/// Returns the size that `digits` say, or none. They must be decimal digits without a leading zero, and a file must be
/// able to have this size.
pub fn size_of(digits: &[u8]) -> Option<u64>
    ensures size { result ≡ size_of digits.now }
    ensures small { IfSome result (λ n. n ≤ greatest_size) }
{
    if digits.is_empty() {
        return None;
    }
    if has_leading_zero(digits) {
        return None;
    }
    if !is_decimal(digits) {
        return None;
    }
    value_of(digits)
}

/// Returns whether `digits` begin with a zero that another byte follows.
fn has_leading_zero(digits: &[u8]) -> bool
    ensures { result ≡ has_leading_zero digits.now }
{
    match digits {
        [first, _, ..] => *first == b'0',
        _ => false,
    }
}

/// Returns whether each of `digits` is a decimal digit.
fn is_decimal(digits: &[u8]) -> bool
    ensures { result ≡ list_all is_decimal digits.now }
{
    digits.iter().all(|d| *d >= b'0' && *d <= b'9')
}

/// Returns the value of these decimal digits, if a file may have it as its size.
fn value_of(digits: &[u8]) -> Option<u64>
    ensures value { result
        ≡ (if nat_le (decimal digits.now) greatest_size then Some (decimal digits.now) else None) }
    ensures small { IfSome result (λ n. n ≤ greatest_size) }
{
    let mut value: u64 = 0;
    for digit in digits {
        if value > GREATEST_SIZE / 10 {
            return None;
        }
        value = value * 10 + digit.saturating_sub(b'0') as u64;
    }
    if value > GREATEST_SIZE {
        return None;
    }
    Some(value)
}
