//! Fields taken off the front of bytes: a value, and what follows it.
ghost use Rattle.std.specs.Int.{w16, w32, w64};
ghost use Rattle.byte_codec.specs.Reading.{Gives, byte_at, bytes_at, number_at};

use crate::field::{u16_in, u32_in, u64_in};

/// Returns the first `count` bytes and the rest, or `short` if there are fewer.
#[tactic(auto, unfolding(crate::specs::Reading::bytes_at))]
pub fn bytes_at<F: Copy>(bytes: &[u8], count: usize, short: F) -> Result<(&[u8], &[u8]), F>
    ensures field { Gives short (λ x. (x.0.now, x.1.now)) result (bytes_at short count bytes.now) }
{
    if bytes.len() < count {
        return Err(short);
    }
    let (field, rest) = bytes.split_at(count);
    Ok((field, rest))
}

/// Returns the first byte and the rest, or `short` if there is none.
#[tactic(auto, unfolding(crate::specs::Reading::byte_at))]
pub fn byte_at<F: Copy>(bytes: &[u8], short: F) -> Result<(u8, &[u8]), F>
    ensures field { Gives short (λ x. (x.0, x.1.now)) result (byte_at short bytes.now) }
{
    match bytes {
        [] => Err(short),
        [byte, rest @ ..] => Ok((*byte, rest)),
    }
}

/// Returns the number in the first two bytes, and the rest, or `short` if there are fewer.
#[tactic(auto, unfolding(crate::specs::Reading::number_at, crate::specs::Reading::bytes_at))]
pub fn u16_at<F: Copy>(bytes: &[u8], short: F) -> Result<(u16, &[u8]), F>
    ensures field { Gives short (λ x. (x.0, x.1.now)) result (number_at short w16 bytes.now) }
{
    if bytes.len() < 2 {
        return Err(short);
    }
    let (field, rest) = bytes.split_at(2);
    Ok((u16_in(field), rest))
}

/// Returns the number in the first four bytes, and the rest, or `short` if there are fewer.
#[tactic(auto, unfolding(crate::specs::Reading::number_at, crate::specs::Reading::bytes_at))]
pub fn u32_at<F: Copy>(bytes: &[u8], short: F) -> Result<(u32, &[u8]), F>
    ensures field { Gives short (λ x. (x.0, x.1.now)) result (number_at short w32 bytes.now) }
{
    if bytes.len() < 4 {
        return Err(short);
    }
    let (field, rest) = bytes.split_at(4);
    Ok((u32_in(field), rest))
}

/// Returns the number in the first eight bytes, and the rest, or `short` if there are fewer.
#[tactic(auto, unfolding(crate::specs::Reading::number_at, crate::specs::Reading::bytes_at))]
pub fn u64_at<F: Copy>(bytes: &[u8], short: F) -> Result<(u64, &[u8]), F>
    ensures field { Gives short (λ x. (x.0, x.1.now)) result (number_at short w64 bytes.now) }
{
    if bytes.len() < 8 {
        return Err(short);
    }
    let (field, rest) = bytes.split_at(8);
    Ok((u64_in(field), rest))
}
