//! Blobs that are kept, by recency.
ghost use Rattle.std.specs.Prelude.{◌≡◌, ◌≤◌, ◌+◌, ◌-◌, [], is_some, ◌^◌, ◌<◌, length, take, IfOk, OnOk, OnErr};
ghost use Rattle.std.specs.Map.{lookup};
ghost use Rattle.lru.specs.LruCache.{promoted};
ghost use Rattle.git_objects.specs.BlobCache.{Finds, cost_of, cost_of_entry, fitting, held_by, is_large, kept_by, same_id};

use crate::blob::Blob;
use eden_base::NoMemory;
use lru::LruCache;
use std::alloc::Global;

/// How many bytes a kept blob counts for, beside its own.
pub(crate) const OVERHEAD: u64 = 256;

/// How many files there are at most for blobs that the memory is too small for.
const FILES: u64 = 4;

/// A blob that is kept, and how many bytes it counts for.
#[derive(Drop)]
pub(crate) struct Kept {
    pub blob: Blob,
    pub cost: u64,
}

/// Blobs by their ids, within a bound of bytes. Those that were not used for longest give way.
#[derive(Drop)]
pub(crate) struct BlobCache {
    pub kept: LruCache<[u8; 20], Kept>,
    pub held: u64,
    pub bound: u64,
    ghost counted: { held ≡ held_by kept.entries },
    ghost bounded: { held ≤ bound },
    ghost unlimited: { kept.cap ≡ 2 ^ 64 - 1 },
}

/// Returns whether a blob of `size` bytes is too large to be kept in memory within `bound`.
pub(crate) fn is_large(size: u64, bound: u64) -> bool
    ensures large { result ≡ is_large size bound }
{
    bound < OVERHEAD || size > bound - OVERHEAD
}

/// Returns how many bytes a blob of `size` bytes counts for within `bound`.
fn cost_of(size: u64, bound: u64) -> u64
    ensures cost { result ≡ cost_of size bound }
    ensures within { result ≤ bound }
{
    if is_large(size, bound) {
        return bound / FILES;
    }
    size + OVERHEAD
}

/// Returns how many bytes an entry counts for, if there is one.
fn cost_of_entry(entry: Option<([u8; 20], Kept)>) -> u64
    ensures cost { result ≡ cost_of_entry entry }
{
    match entry {
        Some(entry) => entry.1.cost,
        None => 0,
    }
}

impl BlobCache {
    /// Makes an empty cache with this bound.
    pub(crate) fn new(alloc: Global, bound: u64) -> Result<BlobCache, NoMemory>
        ensures empty { IfOk result (λ cache. cache.kept.entries ≡ []) }
        ensures bound { IfOk result (λ cache. cache.bound ≡ bound) }
    {
        let kept = LruCache::unbounded(alloc)?;
        Ok(BlobCache {
            kept,
            held: 0,
            bound,
        })
    }

    /// Returns whether the blob `object` is kept.
    pub(crate) fn has(&self, object: &[u8; 20]) -> bool
        ensures has { result ≡ is_some (lookup (same_id object.now) self.now.kept.entries) }
    {
        self.kept.contains(object)
    }

    /// Returns the blob `object` if it is kept, which is its latest use then.
    #[tactic(auto, using(crate::proofs::Keeping::promoted_held))]
    pub(crate) fn find(&mut self, object: &[u8; 20]) -> Result<Option<Blob>, NoMemory>
        ensures found { Finds (lookup (same_id object.now) self.old.kept.entries) result }
        ensures entries { OnOk result (self.new.kept.entries ≡ promoted (same_id object.now) self.old.kept.entries) }
        ensures same { OnErr result (self.new.kept.entries ≡ self.old.kept.entries) }
        ensures bound { self.new.bound ≡ self.old.bound }
    {
        let found = self.shared(object)?;
        self.kept.promote(object);
        Ok(found)
    }

    /// Returns one more owner of the blob `object`, if it is kept.
    fn shared(&self, object: &[u8; 20]) -> Result<Option<Blob>, NoMemory>
        ensures found { Finds (lookup (same_id object.now) self.now.kept.entries) result }
    {
        match self.kept.peek(object) {
            Some(kept) => match kept.blob.share() {
                Ok(blob) => Ok(Some(blob)),
                Err(NoMemory) => Err(NoMemory),
            },
            None => Ok(None),
        }
    }

    /// Lets the blob go that was not used for longest, if there is one.
    #[tactic(auto, using(crate::proofs::Keeping::front_held, crate::proofs::Keeping::cost_within))]
    fn let_go(&mut self)
        ensures entries { self.new.kept.entries ≡ take (length self.old.kept.entries - 1) self.old.kept.entries }
        ensures bound { self.new.bound ≡ self.old.bound }
    {
        let cost = cost_of_entry(self.kept.pop_lru());
        self.held -= cost;
    }

    /// Lets those blobs go that were not used for longest, until `room` bytes are free.
    fn make_room(&mut self, room: u64)
        requires within { room ≤ self.old.bound }
        ensures entries { self.new.kept.entries ≡ fitting (self.old.bound - room) self.old.kept.entries }
        ensures free { self.new.held + room ≤ self.new.bound }
        ensures bound { self.new.bound ≡ self.old.bound }
        ensures few { length self.new.kept.entries < 2 ^ 63 }
    {
        for _blob in 0..self.kept.len() {
            if self.held <= self.bound - room {
                return;
            }
            self.let_go();
        }
    }

    /// Keeps a blob by its name, unless it is kept. Returns whether it is kept then: memory for it may be refused.
    pub(crate) fn keep(&mut self, blob: Blob) -> bool
        ensures entries { self.new.kept.entries ≡ kept_by self.old.bound self.old.kept.entries result blob }
        ensures bound { self.new.bound ≡ self.old.bound }
    {
        let object = blob.object;
        if self.kept.contains(&object) {
            return true;
        }
        let cost = cost_of(blob.size, self.bound);
        self.make_room(cost);
        match self.kept.put(object, Kept { blob, cost }) {
            Ok(_none) => {
                self.held += cost;
                true
            }
            Err(_refused) => false,
        }
    }
}
