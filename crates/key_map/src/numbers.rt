//! What a tier and the tree below the last tier have in common.
ghost use Rattle.std.specs.Prelude.{◌≡◌, ℕ, ◌==◌, ◌&&◌, Option, None, Some, OnOk, OnErr, if◌then◌else◌};
ghost use Rattle.key_map.specs.Cells.{is_number};

use std::alloc::{AllocError, Global};

/// Numbers by keys, at most one at each.
pub(crate) trait Numbers {
    /// The number at a key, if there is one.
    ghost at: { Self → ℕ → Option ℕ };

    /// No key has a number at two places, of which `at` knows the first alone.
    ghost IsSingle: { Self → Type 0 };

    /// Returns the number at `key`, if there is one.
    fn get(&self, key: u64) -> Option<u64>
        ensures number { result ≡ at self.now key };

    /// Puts `number` at `key`, which has none.
    fn insert(&mut self, key: u64, number: u64) -> Result<(), AllocError>
        requires free { at self.old key ≡ None }
        requires single { IsSingle self.old }
        ensures ok { OnOk result ((k : ℕ) → at self.new k ≡ (if k == key then Some number else at self.old k)) }
        ensures err { OnErr result ((k : ℕ) → at self.new k ≡ at self.old k) }
        ensures single { IsSingle self.new };

    /// Removes `number` from `key`, if it is there, and returns whether it was. Takes no memory.
    fn remove(&mut self, key: u64, number: u64) -> bool
        requires single { IsSingle self.old }
        ensures had { result ≡ is_number number (at self.old key) }
        ensures removed { (k : ℕ) → at self.new k ≡ (if result && k == key then None else at self.old k) }
        ensures single { IsSingle self.new };

    /// Makes twice as many buckets.
    fn widen(&mut self, alloc: Global) -> Result<(), AllocError>
        requires single { IsSingle self.old }
        ensures same { (k : ℕ) → at self.new k ≡ at self.old k }
        ensures single { IsSingle self.new };
}
