//! The buckets of a tier: each key has one, by some of its bits.
ghost use Rattle.std.specs.Prelude.{◌≡◌, ℕ, ◌<◌, ◌==◌, ◌&&◌, List, None, Some, IfOk, length, if◌then◌else◌};
ghost use Rattle.key_map.specs.Cells.{is_number, kept, spread};

use crate::bucket::Bucket;
use crate::cells::home_of;
use std::alloc::{AllocError, Global};

/// Returns the number that the bucket of `key` has for it, if it has one.
pub(crate) fn number_at(buckets: &[Bucket], shift: u32, key: u64) -> Option<u64>
    ensures number { result ≡ kept buckets.now shift key }
{
    if buckets.is_empty() {
        return None;
    }
    buckets[home_of(buckets.len(), shift, key)].get(key)
}

/// Puts `number` at `key`, which has none, if its bucket has an empty cell, and returns whether it did. It never puts a
/// `number` of 0.
pub(crate) fn put(buckets: &mut Vec<Bucket>, shift: u32, key: u64, number: u64) -> bool
    requires free { kept buckets.old.items shift key ≡ None }
    ensures put { (k : ℕ) → kept buckets.new.items shift k
        ≡ (if result && k == key then Some number else kept buckets.old.items shift k) }
{
    if buckets.is_empty() {
        return false;
    }
    let home = home_of(buckets.len(), shift, key);
    buckets[home].put(key, number)
}

/// Removes `number` from `key`, if it is there, and returns whether it was.
pub(crate) fn remove(buckets: &mut Vec<Bucket>, shift: u32, key: u64, number: u64) -> bool
    ensures had { result ≡ is_number number (kept buckets.old.items shift key) }
    ensures removed { (k : ℕ) → kept buckets.new.items shift k
        ≡ (if result && k == key then None else kept buckets.old.items shift k) }
{
    if buckets.is_empty() {
        return false;
    }
    let home = home_of(buckets.len(), shift, key);
    buckets[home].remove(key, number)
}

/// Returns twice as many buckets with the same numbers.
fn doubled(alloc: Global, buckets: &[Bucket], shift: u32) -> Result<Vec<Bucket>, AllocError>
    requires some { 0 < length buckets.now }
    ensures same { IfOk result (λ wide. (k : ℕ) → kept wide.items shift k ≡ kept buckets.now shift k) }
{
    let Some(len) = buckets.len().checked_mul(2) else {
        return Err(AllocError);
    };
    let mut wide = Vec::with_capacity(alloc, len)?;
    for place in 0..len {
        let bucket = &buckets[place % buckets.len()];
        wide.push(bucket.kept_at(shift, len, place))?;
    }
    Ok(wide)
}

/// Returns twice as many buckets with the same numbers, or `least` buckets if there are none.
pub(crate) fn widened(
    alloc: Global,
    buckets: &[Bucket],
    shift: u32,
    least: usize,
) -> Result<Vec<Bucket>, AllocError>
    ensures same { IfOk result (λ wide. (k : ℕ) → kept wide.items shift k ≡ kept buckets.now shift k) }
{
    if buckets.is_empty() {
        return vec![in alloc; Bucket::EMPTY; least];
    }
    doubled(alloc, buckets, shift)
}
