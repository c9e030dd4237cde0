//! The key of a number and bytes.
ghost use Rattle.std.specs.Prelude.{◌≡◌, ◌<◌, length};
ghost use Rattle.directory_index.specs.Keys.{key_of, key_with, key_with_all, last_eight};

/// A large odd number, by which a key is multiplied for each part that it takes.
const FACTOR: u64 = 0x9E37_79B9_7F4A_7C15;

/// Returns the key of `number` and `bytes`, so that two pairs rarely share a key. It takes eight bytes after eight, then
/// the last eight once more, and at the end how many bytes there are. Of fewer than eight bytes it takes each.
#[tactic(auto, unfolding(crate::specs::Keys::key_of))]
pub(crate) fn key_of(number: u64, bytes: &[u8]) -> u64
    ensures key { result ≡ key_of number bytes.now }
{
    let (mut key, mut rest) = (number.wrapping_mul(FACTOR), bytes);
    while let Some((word, behind)) = rest.split_first_chunk::<8>() {
        key = key_with(key, u64::from_le_bytes(*word));
        rest = behind;
    }
    key_with(key_with_last(key, bytes), bytes.len() as u64)
}

/// Returns the key that follows from `key` and one more part.
fn key_with(key: u64, part: u64) -> u64
    ensures key { result ≡ key_with key part }
{
    key.wrapping_add(part).wrapping_mul(FACTOR).rotate_left(32)
}

/// Returns the key that follows from `key` and the last eight of `bytes`, or from each where there are fewer.
fn key_with_last(key: u64, bytes: &[u8]) -> u64
    ensures key { result ≡ key_with_all key (last_eight bytes.now) }
{
    match bytes.split_last_chunk::<8>() {
        Some((_, word)) => key_with(key, u64::from_le_bytes(*word)),
        None => key_with_each(key, bytes),
    }
}

/// Returns the key that follows from `key` and each of `bytes`.
fn key_with_each(key: u64, bytes: &[u8]) -> u64
    ensures key { result ≡ key_with_all key bytes.now }
{
    let mut key = key;
    for byte in bytes {
        key = key_with(key, u64::from(*byte));
    }
    key
}
