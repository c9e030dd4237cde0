//! Buckets of four cells.
ghost use Rattle.std.specs.Prelude.{◌≡◌, ℕ, ◌<◌, ◌==◌, ◌&&◌, None, Some, if◌then◌else◌};
ghost use Rattle.key_map.specs.Cells.{in_bucket, is_number, bucket_at};

use crate::cells::Cell;

/// Four cells, which is as much as one line of a processor's cache holds.
#[derive(Clone, Copy)]
pub(crate) struct Bucket {
    first: Cell,
    second: Cell,
    third: Cell,
    fourth: Cell,
}

impl Bucket {
    pub(crate) const EMPTY: Bucket = Bucket {
        first: Cell::EMPTY,
        second: Cell::EMPTY,
        third: Cell::EMPTY,
        fourth: Cell::EMPTY,
    };

    /// Returns the number at `key`, if one of the cells has it.
    pub(crate) fn get(&self, key: u64) -> Option<u64>
        ensures number { result ≡ in_bucket key self.now }
    {
        if let Some(number) = self.first.get(key) {
            return Some(number);
        }
        if let Some(number) = self.second.get(key) {
            return Some(number);
        }
        if let Some(number) = self.third.get(key) {
            return Some(number);
        }
        self.fourth.get(key)
    }

    /// Puts `number` at `key`, which has none, into the first empty cell, and returns whether it did. It never puts a
    /// `number` of 0.
    pub(crate) fn put(&mut self, key: u64, number: u64) -> bool
        requires free { in_bucket key self.old ≡ None }
        ensures put { (k : ℕ) → in_bucket k self.new
            ≡ (if result && k == key then Some number else in_bucket k self.old) }
    {
        if self.first.put(key, number) {
            return true;
        }
        if self.second.put(key, number) {
            return true;
        }
        if self.third.put(key, number) {
            return true;
        }
        self.fourth.put(key, number)
    }

    /// Removes `number` from `key`, if it is there, and returns whether it was.
    pub(crate) fn remove(&mut self, key: u64, number: u64) -> bool
        ensures had { result ≡ is_number number (in_bucket key self.old) }
        ensures removed { (k : ℕ) → in_bucket k self.new
            ≡ (if result && k == key then None else in_bucket k self.old) }
    {
        match self.get(key) {
            Some(there) if there == number => {}
            _ => return false,
        }
        self.first.empty(key);
        self.second.empty(key);
        self.third.empty(key);
        self.fourth.empty(key);
        true
    }

    /// Returns a copy of the bucket with only those cells whose key has the bucket at index `place` of `len` buckets.
    pub(crate) fn kept_at(&self, shift: u32, len: usize, place: usize) -> Bucket
        requires room { 0 < len }
        ensures bucket { result ≡ bucket_at shift len place self.now }
    {
        Bucket {
            first: self.first.kept_at(shift, len, place),
            second: self.second.kept_at(shift, len, place),
            third: self.third.kept_at(shift, len, place),
            fourth: self.fourth.kept_at(shift, len, place),
        }
    }
}
