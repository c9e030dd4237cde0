//! The memory in which bytes stand: their own, or a range of a text that has several owners.
ghost use Rattle.std.specs.Prelude.{◌≡◌, ◌+◌, ◌≤◌, ◌++◌, length, take, drop, IfOk, IfSome};

use std::alloc::{AllocError, Global};
use std::sync::Arc;

/// The end of a `Vec`: its bytes from the index `from` on.
pub(crate) struct OwnRange {
    pub(crate) bytes: Vec<u8>,
    pub(crate) from: usize,
    ghost within: { from ≤ length bytes.items },
}

impl Drop for OwnRange {
    fn drop(self) {
        let OwnRange { bytes: _, from: _ } = self;
    }
}

/// A range of a text: `len` bytes from the index `from` on. Others own the text, too.
pub(crate) struct SharedRange {
    pub(crate) text: Arc<Vec<u8>>,
    pub(crate) from: usize,
    pub(crate) len: usize,
    ghost within: { from + len ≤ length text.value.items },
}

impl Drop for SharedRange {
    fn drop(self) {
        let SharedRange {
            text: _,
            from: _,
            len: _,
        } = self;
    }
}

/// Where bytes stand.
#[derive(Drop)]
pub(crate) enum Storage {
    Own(OwnRange),
    Shared(SharedRange),
}

impl OwnRange {
    /// Returns the bytes of the range.
    pub(crate) fn as_slice(&self) -> &[u8]
        ensures bytes { result.now ≡ drop self.now.from self.now.bytes.items }
    {
        &self.bytes[self.from..]
    }

    /// Returns the range without its first `count` bytes.
    pub(crate) fn after(self, count: usize) -> OwnRange
        requires within { count ≤ length (drop self.from self.bytes.items) }
        ensures bytes { drop result.from result.bytes.items ≡ drop count (drop self.from self.bytes.items) }
    {
        let OwnRange { bytes, from } = self;
        OwnRange {
            bytes,
            from: from + count,
        }
    }

    /// Returns the bytes of `front` and those of `rest` in new memory.
    pub(crate) fn of_both(alloc: Global, front: &[u8], rest: &[u8]) -> Result<OwnRange, AllocError>
        ensures bytes { IfOk result (λ range. drop range.from range.bytes.items ≡ front.now ++ rest.now) }
    {
        let mut bytes = Vec::from_slice(alloc, front)?;
        bytes.extend_from_slice(rest)?;
        Ok(OwnRange { bytes, from: 0 })
    }

    /// Returns the range with `front` before it, in the same memory if that has room there, else in new memory.
    pub(crate) fn with_front(self, alloc: Global, front: &[u8]) -> Result<OwnRange, AllocError>
        ensures bytes { IfOk result (λ range. drop range.from range.bytes.items
            ≡ front.now ++ drop self.from self.bytes.items) }
    {
        if self.from < front.len() {
            return OwnRange::of_both(alloc, front, self.as_slice());
        }
        let OwnRange { bytes, from } = self;
        let mut bytes = bytes;
        let before = from - front.len();
        bytes[before..from].copy_from_slice(front);
        Ok(OwnRange {
            bytes,
            from: before,
        })
    }

    /// Returns the `Vec` of the range, and the index from which on its bytes are those of the range.
    pub(crate) fn into_memory(self) -> (Vec<u8>, usize)
        ensures bytes { result.0 ≡ self.bytes }
        ensures from { result.1 ≡ self.from }
    {
        let OwnRange { bytes, from } = self;
        (bytes, from)
    }

    /// Returns the range as one of a text that may get further owners.
    pub(crate) fn into_shared(self, alloc: Global) -> Result<SharedRange, AllocError>
        ensures bytes { IfOk result (λ range. take range.len (drop range.from range.text.value.items)
            ≡ drop self.from self.bytes.items) }
    {
        let OwnRange { bytes, from } = self;
        let len = bytes.len() - from;
        match Arc::new(alloc, bytes) {
            Ok(text) => Ok(SharedRange { text, from, len }),
            Err(_refused) => Err(AllocError),
        }
    }
}

impl SharedRange {
    /// Returns the bytes of the range.
    pub(crate) fn as_slice(&self) -> &[u8]
        ensures bytes { result.now ≡ take self.now.len (drop self.now.from self.now.text.value.items) }
    {
        &self.text.as_slice()[self.from..self.from + self.len]
    }

    /// Returns the range without its first `count` bytes.
    pub(crate) fn after(self, count: usize) -> SharedRange
        requires within { count ≤ length (take self.len (drop self.from self.text.value.items)) }
        ensures bytes { take result.len (drop result.from result.text.value.items)
            ≡ drop count (take self.len (drop self.from self.text.value.items)) }
    {
        let SharedRange { text, from, len } = self;
        SharedRange {
            text,
            from: from + count,
            len: len - count,
        }
    }
}
