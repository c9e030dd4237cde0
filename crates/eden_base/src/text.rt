//! Splits bytes at a separator.
ghost use Rattle.std.specs.Prelude.{◌≡◌, ◌<◌, ◌==◌, IfSome, length, position};
ghost use Rattle.std.specs.Option.{option_map};
ghost use Rattle.eden_base.specs.Text.{cut};

/// Splits `bytes` at the first `byte`: returns what is before it and what is after it, or none if there is no such
/// byte.
pub fn cut(bytes: &[u8], byte: u8) -> Option<(&[u8], &[u8])>
    ensures parts { option_map (λ p. (p.0.now, p.1.now)) result ≡ cut byte bytes.now }
    ensures shorter { IfSome result (λ p. length p.1.now < length bytes.now) }
{
    let place = first_of(bytes, byte)?;
    Some((&bytes[..place], &bytes[place + 1..]))
}

/// Returns the index of the first `byte` in `bytes`, if there is one.
fn first_of(bytes: &[u8], byte: u8) -> Option<usize>
    ensures place { result ≡ position (λ b. b == byte) bytes.now }
    ensures within { IfSome result (λ i. i < length bytes.now) }
{
    bytes.iter().position(|b| *b == byte)
}
