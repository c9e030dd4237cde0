//! The numbers whose buckets were full in each tier.
ghost use Rattle.std.specs.Prelude.{◌≡◌, ⊤, ℕ, ◌==◌, ◌&&◌, None, Some, OnOk, OnErr, if◌then◌else◌};
ghost use Rattle.std.specs.Ordering.{nat_cmp};
ghost use Rattle.std.specs.BTreeMap.{get};
ghost use Rattle.key_map.specs.Cells.{is_number};

use crate::numbers::Numbers;
use std::alloc::{AllocError, Global};
use std::collections::BTreeMap;

/// Numbers in an ordered map. Whichever keys there are, a search costs no more than in any such map.
#[derive(Drop)]
pub(crate) struct OrderedNumbers {
    numbers: BTreeMap<u64, u64>,
}

impl OrderedNumbers {
    /// Makes a map without numbers.
    pub(crate) fn new(alloc: Global) -> OrderedNumbers
        ensures empty { (k : ℕ) → get nat_cmp result.numbers k ≡ None }
    {
        OrderedNumbers {
            numbers: BTreeMap::new(alloc),
        }
    }
}

impl Numbers for OrderedNumbers {
    ghost at = { λ t k. get nat_cmp t.numbers k };

    ghost IsSingle = { λ t. ⊤ };

    fn get(&self, key: u64) -> Option<u64> {
        self.numbers.get(&key).copied()
    }

    fn insert(&mut self, key: u64, number: u64) -> Result<(), AllocError> {
        self.numbers.insert(key, number)?;
        Ok(())
    }

    fn remove(&mut self, key: u64, number: u64) -> bool {
        match self.numbers.get(&key) {
            Some(there) if *there == number => {}
            _ => return false,
        }
        self.numbers.remove(&key);
        true
    }

    fn widen(&mut self, _alloc: Global) -> Result<(), AllocError> {
        Ok(())
    }
}
