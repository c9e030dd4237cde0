//! The bytes of a reply to the kernel.
ghost use Rattle.std.specs.Prelude.{◌≡◌, ◌+◌, ◌≤◌, ℤ, [], ◌++◌, length};
ghost use Rattle.fuse_wire.specs.Field.{i32_bytes, u32_bytes, u64_bytes, zeros};
ghost use Rattle.fuse_wire.specs.ReplyText.{reply_header};

use arrayvec::ArrayVec;
use byteorder::{ByteOrder, LittleEndian};
use std::marker::Model;

/// The bytes of a reply, at most 160, which contracts see as a list. They stand in the value itself, so that no memory
/// is taken.
#[derive(Drop)]
pub struct ReplyBytes {
    bytes: ArrayVec<u8, 160>,
}

impl Model for ReplyBytes {
    ghost use Rattle.std.specs.Prelude.{ℕ, ◌≤◌, List, length};

    ghost Value = { List ℕ };

    ghost view = { λ reply. reply.bytes.items };

    ghost invariant = { λ reply. length reply.bytes.items ≤ 160 };
}

/// As many zero bytes as the longest run of them in a reply.
const ZEROS: [u8; 104] = [0; 104];

impl ReplyBytes {
    /// The length of a reply's header, in bytes (`struct fuse_out_header`).
    pub(crate) const HEADER_LEN: usize = 16;

    /// Makes a reply without bytes.
    pub(crate) fn new() -> ReplyBytes
        ensures empty { result ≡ [] }
    {
        ReplyBytes {
            bytes: ArrayVec::new(),
        }
    }

    /// Makes a reply of its header alone: the length `len` of the whole reply, `error`, and `unique`.
    #[tactic(auto, using(crate::proofs::Texts::texts))]
    pub(crate) fn with_header(len: u32, error: i32, unique: u64) -> ReplyBytes
        ensures header { result ≡ reply_header len error unique }
        ensures len { length result ≡ 16 }
    {
        let mut reply = ReplyBytes::new();
        reply.put_u32(len);
        reply.put_i32(error);
        reply.put_u64(unique);
        reply
    }

    /// Appends a field of four bytes.
    #[tactic(auto, unfolding(fuse_wire::specs::Field::u32_bytes))]
    pub(crate) fn put_u32(&mut self, value: u32)
        requires room { length self.old + 4 ≤ 160 }
        ensures put { self.new ≡ self.old ++ u32_bytes value }
        ensures len { length self.new ≡ length self.old + 4 }
    {
        let mut field = [0; 4];
        LittleEndian::write_u32(&mut field, value);
        self.put(&field);
    }

    /// Appends a signed field of four bytes.
    #[tactic(auto, unfolding(fuse_wire::specs::Field::i32_bytes, fuse_wire::specs::Field::u32_bytes))]
    fn put_i32(&mut self, value: i32)
        requires room { length self.old + 4 ≤ 160 }
        ensures put { self.new ≡ self.old ++ i32_bytes value }
        ensures len { length self.new ≡ length self.old + 4 }
    {
        let mut field = [0; 4];
        LittleEndian::write_i32(&mut field, value);
        self.put(&field);
    }

    /// Appends a field of eight bytes.
    #[tactic(auto, unfolding(fuse_wire::specs::Field::u64_bytes))]
    pub(crate) fn put_u64(&mut self, value: u64)
        requires room { length self.old + 8 ≤ 160 }
        ensures put { self.new ≡ self.old ++ u64_bytes value }
        ensures len { length self.new ≡ length self.old + 8 }
    {
        let mut field = [0; 8];
        LittleEndian::write_u64(&mut field, value);
        self.put(&field);
    }

    /// Appends `count` bytes that are 0.
    #[tactic(auto, using(crate::proofs::Texts::zeros_in_zeros), unfolding(fuse_wire::specs::Field::zeros))]
    pub(crate) fn put_zeros(&mut self, count: usize)
        requires few { count ≤ 104 }
        requires room { length self.old + count ≤ 160 }
        ensures put { self.new ≡ self.old ++ zeros count }
        ensures len { length self.new ≡ length self.old + count }
    {
        self.put(&ZEROS[..count]);
    }

    /// Appends these `bytes`.
    pub(crate) fn put(&mut self, bytes: &[u8])
        requires room { length self.old + length bytes.now ≤ 160 }
        ensures put { self.new ≡ self.old ++ bytes.now }
        ensures len { length self.new ≡ length self.old + length bytes.now }
    {
        self.bytes.try_extend_from_slice(bytes).unwrap();
    }

    /// Returns the bytes in their order.
    pub fn as_slice(&self) -> &[u8]
        ensures bytes { result.now ≡ self.now }
        ensures at_most { length result.now ≤ 160 }
    {
        self.bytes.as_slice()
    }
}
