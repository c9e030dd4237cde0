//! A tier of buckets, over the numbers whose buckets were full in it.
ghost use Rattle.std.specs.Prelude.{◌≡◌, ℕ, ◌==◌, ◌&&◌, [], None, Some, OnOk, OnErr, if◌then◌else◌};
ghost use Rattle.std.specs.Option.{option_or};
ghost use Rattle.key_map.specs.Cells.{is_number, kept, AreApart};

use crate::bucket::Bucket;
use crate::buckets::{number_at, put, remove, widened};
use crate::numbers::Numbers;
use std::alloc::{AllocError, Global};

/// Buckets, and below them what found its bucket full.
#[derive(Drop)]
pub(crate) struct Tier<R> {
    buckets: Vec<Bucket>,
    /// Which bits of a key choose its bucket.
    shift: u32,
    /// How many buckets there are at first.
    least: usize,
    rest: R,
}

impl<R> Tier<R> {
    /// Makes a tier without buckets over `rest`.
    pub(crate) fn over(alloc: Global, shift: u32, least: usize, rest: R) -> Tier<R>
        ensures empty { result.buckets.items ≡ [] }
        ensures rest { result.rest ≡ rest }
    {
        Tier {
            buckets: Vec::new(alloc),
            shift,
            least,
            rest,
        }
    }

    /// Returns how many buckets the tier has.
    pub(crate) fn len(&self) -> usize {
        self.buckets.len()
    }
}

impl<R: Numbers> Numbers for Tier<R> {
    ghost at = { λ t k. option_or (kept t.buckets.items t.shift k) (R.at t.rest k) };

    ghost IsSingle = { λ t. AreApart (kept t.buckets.items t.shift) (R.at t.rest) × R.IsSingle t.rest };

    fn get(&self, key: u64) -> Option<u64> {
        if let Some(number) = number_at(self.buckets.as_slice(), self.shift, key) {
            return Some(number);
        }
        self.rest.get(key)
    }

    fn insert(&mut self, key: u64, number: u64) -> Result<(), AllocError> {
        if put(&mut self.buckets, self.shift, key, number) {
            return Ok(());
        }
        self.rest.insert(key, number)
    }

    fn remove(&mut self, key: u64, number: u64) -> bool {
        if remove(&mut self.buckets, self.shift, key, number) {
            return true;
        }
        self.rest.remove(key, number)
    }

    fn widen(&mut self, alloc: Global) -> Result<(), AllocError> {
        let wide = widened(alloc, self.buckets.as_slice(), self.shift, self.least)?;
        self.buckets = wide;
        self.rest.widen(alloc)
    }
}
