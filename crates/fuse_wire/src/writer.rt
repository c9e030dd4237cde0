//! The fields of a message, written one after the other.
ghost use Rattle.std.specs.Prelude.{◌≡◌, length};
ghost use Rattle.fuse_wire.specs.Field.{i32_bytes, u32_bytes, u64_bytes, zeros};
ghost use Rattle.fuse_wire.specs.Writing.{Puts, HasRoom};

use byteorder::{ByteOrder, LittleEndian};

/// The bytes of a message, and the offset of the next field in them.
#[derive(Drop)]
pub(crate) struct MessageWriter<'a> {
    pub bytes: &'a mut [u8],
    pub at: usize,
}

impl<'a> MessageWriter<'a> {
    /// Makes a writer before the first field.
    pub(crate) fn new(bytes: &'a mut [u8]) -> MessageWriter<'a>
        ensures same { result.bytes.ghost_name ≡ bytes.entry.ghost_name }
        ensures bytes { result.bytes.now ≡ bytes.old }
        ensures at { result.at ≡ 0 }
    {
        MessageWriter { bytes, at: 0 }
    }

    /// Writes a field of four bytes.
    #[tactic(auto, unfolding(crate::specs::Field::u32_bytes))]
    pub(crate) fn put_u32(&mut self, value: u32)
        requires { HasRoom self.old 4 }
        ensures { Puts self.old self.new (u32_bytes value) }
    {
        LittleEndian::write_u32(&mut self.bytes[self.at..self.at + 4], value);
        self.at += 4;
    }

    /// Writes a signed field of four bytes.
    #[tactic(auto, unfolding(crate::specs::Field::i32_bytes, crate::specs::Field::u32_bytes))]
    pub(crate) fn put_i32(&mut self, value: i32)
        requires { HasRoom self.old 4 }
        ensures { Puts self.old self.new (i32_bytes value) }
    {
        LittleEndian::write_i32(&mut self.bytes[self.at..self.at + 4], value);
        self.at += 4;
    }

    /// Writes a field of eight bytes.
    #[tactic(auto, unfolding(crate::specs::Field::u64_bytes))]
    pub(crate) fn put_u64(&mut self, value: u64)
        requires { HasRoom self.old 8 }
        ensures { Puts self.old self.new (u64_bytes value) }
    {
        LittleEndian::write_u64(&mut self.bytes[self.at..self.at + 8], value);
        self.at += 8;
    }

    /// Writes `count` bytes that are 0.
    #[tactic(auto, unfolding(crate::specs::Field::zeros))]
    pub(crate) fn put_zeros(&mut self, count: usize)
        requires { HasRoom self.old count }
        ensures { Puts self.old self.new (zeros count) }
    {
        self.bytes[self.at..self.at + count].fill(0);
        self.at += count;
    }

    /// Writes these bytes as they are.
    pub(crate) fn put_slice(&mut self, bytes: &[u8])
        requires { HasRoom self.old (length bytes.now) }
        ensures { Puts self.old self.new bytes.now }
    {
        self.bytes[self.at..self.at + bytes.len()].copy_from_slice(bytes);
        self.at += bytes.len();
    }
}
