//! Bytes that a message carries whole.
ghost use Rattle.std.specs.Prelude.{◌≡◌, ◌+◌, ◌≤◌, ◌++◌, drop as without, length, nat_eq, IfOk, IfSome};
ghost use Rattle.byte_codec.specs.Bytes.{range_of};

use crate::storage::{OwnRange, SharedRange, Storage};
use std::alloc::{AllocError, Global};
use std::marker::Model;
use std::sync::Arc;

/// Any bytes, for example a FUSE message or an image. They have memory of their own, or are a range of a text that other
/// `Bytes` share, as the parts of an image.
pub struct Bytes {
    storage: Storage,
}

impl Drop for Bytes {
    fn drop(self) {
        let Bytes { storage: _ } = self;
    }
}

impl Model for Bytes {
    ghost use Rattle.std.specs.Prelude.{ℕ, List};
    ghost use Rattle.byte_codec.specs.Bytes.{bytes_of};

    ghost Value = { List ℕ };

    ghost view = { λ x. bytes_of x.storage };
}

impl Bytes {
    /// Makes `Bytes` of a `Vec`, in the same memory.
    pub fn of(bytes: Vec<u8>) -> Bytes
        ensures bytes { result ≡ bytes.items }
    {
        Bytes {
            storage: Storage::Own(OwnRange { bytes, from: 0 }),
        }
    }

    /// Makes `Bytes` of the `len` bytes of `text` from the index `from` on, which are not copied. Returns `AllocError` if
    /// one more owner of `text` can't be counted.
    pub fn shared(text: &Arc<Vec<u8>>, from: usize, len: usize) -> Result<Bytes, AllocError>
        requires within { from + len ≤ length text.now.value.items }
        ensures bytes { IfOk result (λ bytes. bytes ≡ range_of from len text.now.value.items) }
    {
        let text = Arc::try_clone(text)?;
        Ok(Bytes {
            storage: Storage::Shared(SharedRange { text, from, len }),
        })
    }

    /// Returns the bytes in their order.
    pub fn as_slice(&self) -> &[u8]
        ensures bytes { result.now ≡ self.now }
    {
        match &self.storage {
            Storage::Own(range) => range.as_slice(),
            Storage::Shared(range) => range.as_slice(),
        }
    }

    /// Returns the memory of the bytes and the index in it at which they begin, or none if they are in a shared text. Bytes
    /// that `after` left out still stand before this index.
    pub fn into_memory(self) -> Option<(Vec<u8>, usize)>
        ensures bytes { IfSome result (λ both. without both.1 both.0.items ≡ self) }
        ensures within { IfSome result (λ both. both.1 ≤ length both.0.items) }
    {
        let Bytes { storage } = self;
        match storage {
            Storage::Own(range) => Some(range.into_memory()),
            Storage::Shared(range) => {
                drop(range);
                None
            }
        }
    }

    /// Returns the bytes behind the first `count`, which stay in memory but are no longer among them.
    pub fn after(self, count: usize) -> Bytes
        requires within { count ≤ length self }
        ensures bytes { result ≡ without count self }
    {
        let Bytes { storage } = self;
        let storage = match storage {
            Storage::Own(range) => Storage::Own(range.after(count)),
            Storage::Shared(range) => Storage::Shared(range.after(count)),
        };
        Bytes { storage }
    }

    /// Returns the bytes with `front` before them. They stay in their memory if that has room before them, as behind
    /// `after`. Else they are copied, and `AllocError` is returned if memory for that is refused.
    pub fn with_front(self, alloc: Global, front: &[u8]) -> Result<Bytes, AllocError>
        ensures bytes { IfOk result (λ bytes. bytes ≡ front.now ++ self) }
    {
        let Bytes { storage } = self;
        let range = match storage {
            Storage::Own(range) => range.with_front(alloc, front)?,
            Storage::Shared(range) => OwnRange::of_both(alloc, front, range.as_slice())?,
        };
        Ok(Bytes {
            storage: Storage::Own(range),
        })
    }

    /// Returns the bytes twice, without a copy of them. Bytes of their own become a shared text, which takes memory for its
    /// owners' count. Returns `AllocError` if that is refused, or one more owner can't be counted.
    pub fn twice(self, alloc: Global) -> Result<(Bytes, Bytes), AllocError>
        ensures first { IfOk result (λ both. both.0 ≡ self) }
        ensures second { IfOk result (λ both. both.1 ≡ self) }
    {
        let Bytes { storage } = self;
        let range = match storage {
            Storage::Own(range) => range.into_shared(alloc)?,
            Storage::Shared(range) => range,
        };
        let second = Bytes::shared(&range.text, range.from, range.len)?;
        let first = Bytes {
            storage: Storage::Shared(range),
        };
        Ok((first, second))
    }
}

impl PartialEq for Bytes {
    ghost use Rattle.std.specs.Cmp.{partial_equiv_from_equiv};
    ghost use Rattle.std.specs.Cmp.Lexicographic.{pointwise, nat_list_eq_equiv};

    ghost eq = { λ x y. pointwise nat_eq x y };

    ghost laws = { partial_equiv_from_equiv nat_list_eq_equiv };

    fn eq(&self, other: &Bytes) -> bool {
        self.as_slice() == other.as_slice()
    }
}

impl Eq for Bytes {
    ghost use Rattle.std.specs.Cmp.Lexicographic.{nat_list_eq_equiv};

    ghost laws = { nat_list_eq_equiv };
}
