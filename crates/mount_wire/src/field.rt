//! The numbers in a message, whose lowest byte comes first.
ghost use Rattle.std.specs.Prelude.{◌≡◌, ◌+◌, ◌≤◌, length, drop};
ghost use Rattle.fuse_wire.specs.Field.{u32_at, u64_at};

use byteorder::{ByteOrder, LittleEndian};

/// Returns the number in the four bytes of `bytes` that begin at `offset`.
#[tactic(auto, unfolding(fuse_wire::specs::Field::u32_at))]
pub(crate) fn u32_at(bytes: &[u8], offset: usize) -> u32
    requires { offset + 4 ≤ length bytes.now }
    ensures { result ≡ u32_at (drop offset bytes.now) }
{
    LittleEndian::read_u32(&bytes[offset..])
}

/// Returns the number in the eight bytes of `bytes` that begin at `offset`.
#[tactic(auto, unfolding(fuse_wire::specs::Field::u64_at))]
pub(crate) fn u64_at(bytes: &[u8], offset: usize) -> u64
    requires { offset + 8 ≤ length bytes.now }
    ensures { result ≡ u64_at (drop offset bytes.now) }
{
    LittleEndian::read_u64(&bytes[offset..])
}
