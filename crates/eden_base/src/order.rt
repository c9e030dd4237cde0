//! The order of bytes.
ghost use Rattle.std.specs.Prelude.{◌≡◌};
ghost use Rattle.std.specs.Ordering.{nat_cmp};
ghost use Rattle.std.specs.Cmp.Lexicographic.{slice_cmp};

use std::cmp::Ordering;

/// Compares two slices as slices of bytes compare: by the first byte that differs, else by length. It reads eight bytes
/// at a time as a big-endian number, since such numbers are ordered as their bytes are.
pub(crate) fn compare_bytes(left: &[u8], right: &[u8]) -> Ordering
    ensures order { result ≡ slice_cmp nat_cmp left.now right.now }
{
    let (mut left_rest, mut right_rest) = (left, right);
    while let Some((front, behind)) = left_rest.split_first_chunk::<8>() {
        let Some((other, behind_other)) = right_rest.split_first_chunk::<8>() else {
            break;
        };
        let order = u64::from_be_bytes(*front).cmp(&u64::from_be_bytes(*other));
        if order != Ordering::Equal {
            return order;
        }
        left_rest = behind;
        right_rest = behind_other;
    }
    left_rest.cmp(right_rest)
}
