//! A map from keys to numbers.
ghost use Rattle.std.specs.Prelude.{◌≡◌, None, OnOk, OnErr, if◌then◌else◌};
ghost use Rattle.std.specs.FinMap.{empty, get, insert, remove};
ghost use Rattle.key_map.specs.Cells.{is_number};

use crate::numbers::Numbers;
use crate::ordered_numbers::OrderedNumbers;
use crate::tier::Tier;
use std::alloc::{AllocError, Global};
use std::marker::Model;

/// How many cells a bucket has.
const CELLS: usize = 4;

/// Numbers by keys. A key's number stands in the first tier in which the key's bucket had an empty cell, and in a tree
/// if none had. Of 64,000 keys of names none stands in the tree, and a search for one looks at 1.2 buckets. However
/// keys are chosen, a search looks at three buckets and goes one way down the tree.
pub struct KeyMap {
    tiers: Tier<Tier<Tier<OrderedNumbers>>>,
    /// How many numbers there are.
    held: usize,
}

impl Model for KeyMap {
    ghost use Rattle.std.specs.Prelude.{ℕ};
    ghost use Rattle.std.specs.Coded.{coded_ℕ};
    ghost use Rattle.std.specs.FinMap.{FinMap, code};
    ghost use Rattle.std.specs.Ordering.{nat_cmp};

    ghost Value = { FinMap nat_cmp ℕ };

    ghost coded = { code coded_ℕ coded_ℕ };

    ghost use Rattle.key_map.specs.Map.{numbers_of, IsSingle};

    ghost view = { numbers_of };

    ghost invariant = { IsSingle };
}

impl Drop for KeyMap {
    fn drop(self) {
        let KeyMap { tiers: _, held: _ } = self;
    }
}

impl KeyMap {
    /// Makes a map without numbers.
    pub fn new(alloc: Global) -> KeyMap
        ensures empty { result ≡ empty }
    {
        KeyMap::for_numbers(alloc, 0)
    }

    /// Makes a map without numbers, whose first buckets are enough for this many `numbers`. It takes no memory before
    /// the first number comes. The second tier has half as many buckets as the first, and the third an eighth.
    pub fn for_numbers(alloc: Global, numbers: usize) -> KeyMap
        ensures empty { result ≡ empty }
    {
        let buckets = numbers / CELLS;
        let third = Tier::over(alloc, 0, buckets / 8 + 1, OrderedNumbers::new(alloc));
        let second = Tier::over(alloc, 16, buckets / 2 + 4, third);
        let tiers = Tier::over(alloc, 32, buckets + 8, second);
        KeyMap { tiers, held: 0 }
    }

    /// Returns the number at `key`, if there is one.
    pub fn get(&self, key: u64) -> Option<u64>
        ensures number { result ≡ get self.now key }
    {
        self.tiers.get(key)
    }

    /// Puts `number` at `key`, which has none. If memory is refused, each key has what it had.
    pub fn insert(&mut self, alloc: Global, key: u64, number: u64) -> Result<(), AllocError>
        requires free { get self.old key ≡ None }
        ensures ok { OnOk result (self.new ≡ insert self.old key number) }
        ensures err { OnErr result (self.new ≡ self.old) }
    {
        self.make_room(alloc)?;
        self.tiers.insert(key, number)?;
        self.held = self.held.saturating_add(1);
        Ok(())
    }

    /// Makes twice as many buckets, if there are as many numbers as cells in the first tier.
    fn make_room(&mut self, alloc: Global) -> Result<(), AllocError>
        ensures same { self.new ≡ self.old }
    {
        if self.held / CELLS >= self.tiers.len() {
            self.tiers.widen(alloc)?;
        }
        Ok(())
    }

    /// Removes `number` from `key`, if it is there, and returns whether it was. Takes no memory.
    pub fn remove(&mut self, key: u64, number: u64) -> bool
        ensures had { result ≡ is_number number (get self.old key) }
        ensures removed { self.new ≡ (if result then remove self.old key else self.old) }
    {
        let had = self.tiers.remove(key, number);
        if had {
            self.held = self.held.saturating_sub(1);
        }
        had
    }
}
