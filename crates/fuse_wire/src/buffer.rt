//! The bytes of an answer that has any length.
ghost use Rattle.std.specs.Prelude.{◌≡◌, ◌≤◌, ◌<◌, ◌↔◌, IfOk, IsTrue, MatchOption, length, nat_eq};

use byte_codec::Bytes;
use eden_base::NoMemory;
use std::alloc::Global;
use std::marker::Model;

/// The bytes of an answer, as READ, READLINK and READDIR have them (libfuse's `fuse_reply_buf`). Contracts see a list.
pub struct Buffer {
    bytes: Bytes,
}

impl Drop for Buffer {
    fn drop(self) {
        let Buffer { bytes: _ } = self;
    }
}

impl Model for Buffer {
    ghost use Rattle.std.specs.Prelude.{ℕ, ◌≤◌, List, length};

    ghost Value = { List ℕ };

    ghost view = { λ buffer. buffer.bytes };

    ghost invariant = { λ buffer. length buffer.bytes ≤ 65512 };
}

impl Buffer {
    /// How many bytes an answer has at most. With the header of its reply and the generation before it, the longest
    /// answer fills the body of a frame, 65,536 bytes.
    pub const MAX_LEN: usize = 65_512;

    /// Makes a buffer of `bytes`, in the same memory. Returns none if there are more than `MAX_LEN`.
    pub fn of(bytes: Bytes) -> Option<Buffer>
        ensures bytes { MatchOption result (65512 < length bytes) (λ buffer. buffer ≡ bytes) }
    {
        if bytes.as_slice().len() > Buffer::MAX_LEN {
            return None;
        }
        Some(Buffer { bytes })
    }

    /// Returns the bytes in their order.
    pub fn as_slice(&self) -> &[u8]
        ensures bytes { result.now ≡ self.now }
        ensures at_most { length result.now ≤ 65512 }
    {
        self.bytes.as_slice()
    }

    /// Returns the bytes, in the same memory.
    pub fn into_bytes(self) -> Bytes
        ensures bytes { result ≡ self }
    {
        let Buffer { bytes } = self;
        bytes
    }

    /// Returns whether `self` and `other` have the same bytes.
    pub fn is(&self, other: &Buffer) -> bool
        ensures same { IsTrue result ↔ (self.now ≡ other.now) }
    {
        self.as_slice() == other.as_slice()
    }

    /// Returns the bytes twice, without a copy of them. Returns `NoMemory` if memory for their owners' count is refused.
    pub fn twice(self, alloc: Global) -> Result<(Buffer, Buffer), NoMemory>
        ensures first { IfOk result (λ both. both.0 ≡ self) }
        ensures second { IfOk result (λ both. both.1 ≡ self) }
    {
        let Buffer { bytes } = self;
        let (first, second) = bytes.twice(alloc)?;
        Ok((Buffer { bytes: first }, Buffer { bytes: second }))
    }
}

impl PartialEq for Buffer {
    ghost use Rattle.std.specs.Cmp.{partial_equiv_from_equiv};
    ghost use Rattle.std.specs.Cmp.Lexicographic.{pointwise, nat_list_eq_equiv};

    ghost eq = { λ x y. pointwise nat_eq x y };

    ghost laws = { partial_equiv_from_equiv nat_list_eq_equiv };

    fn eq(&self, other: &Buffer) -> bool {
        self.as_slice() == other.as_slice()
    }
}

impl Eq for Buffer {
    ghost use Rattle.std.specs.Cmp.Lexicographic.{nat_list_eq_equiv};

    ghost laws = { nat_list_eq_equiv };
}
