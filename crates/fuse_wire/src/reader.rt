//! The fields of a message, read one after the other.
ghost use Rattle.std.specs.Prelude.{◌≡◌, ◌+◌, ◌≤◌, length, drop};
ghost use Rattle.fuse_wire.specs.Field.{u32_at, u64_at};

use byteorder::{ByteOrder, LittleEndian};

/// A message, and the offset of the next field in it.
#[derive(Drop)]
pub(crate) struct Reader<'a> {
    pub bytes: &'a [u8],
    pub at: usize,
}

impl<'a> Reader<'a> {
    /// Makes a reader before the first field.
    pub(crate) fn new(bytes: &'a [u8]) -> Reader<'a>
        ensures bytes { result.bytes.now ≡ bytes.now }
        ensures at { result.at ≡ 0 }
    {
        Reader { bytes, at: 0 }
    }

    /// Reads a field of four bytes.
    #[tactic(auto, unfolding(crate::specs::Field::u32_at))]
    pub(crate) fn u32(&mut self) -> u32
        requires { self.old.at + 4 ≤ length self.old.bytes.now }
        ensures value { result ≡ u32_at (drop self.old.at self.old.bytes.now) }
        ensures bytes { self.new.bytes.now ≡ self.old.bytes.now }
        ensures at { self.new.at ≡ self.old.at + 4 }
    {
        let value = LittleEndian::read_u32(&self.bytes[self.at..]);
        self.at += 4;
        value
    }

    /// Reads a field of eight bytes.
    #[tactic(auto, unfolding(crate::specs::Field::u64_at))]
    pub(crate) fn u64(&mut self) -> u64
        requires { self.old.at + 8 ≤ length self.old.bytes.now }
        ensures value { result ≡ u64_at (drop self.old.at self.old.bytes.now) }
        ensures bytes { self.new.bytes.now ≡ self.old.bytes.now }
        ensures at { self.new.at ≡ self.old.at + 8 }
    {
        let value = LittleEndian::read_u64(&self.bytes[self.at..]);
        self.at += 8;
        value
    }

    /// Skips `count` bytes.
    pub(crate) fn skip(&mut self, count: usize)
        requires { self.old.at + count ≤ length self.old.bytes.now }
        ensures bytes { self.new.bytes.now ≡ self.old.bytes.now }
        ensures at { self.new.at ≡ self.old.at + count }
    {
        self.at += count;
    }
}
