//! How many names each directory has.
ghost use Rattle.std.specs.Prelude.{◌≡◌, ℕ, ◌+◌, ◌-◌, ◌≤◌, ◌==◌, nat_lt, OnOk, OnErr, if◌then◌else◌};
ghost use Rattle.directory_index.specs.NameCounts.{counted};

use std::alloc::{AllocError, Global};
use std::collections::HashMap;

/// How many names each directory has. Directories are numbers of this project's own giving, so a hash with a fixed seed
/// suffices. `bound` is how often a count was raised, which no count exceeds: so none is too great to be raised.
#[derive(Drop)]
pub(crate) struct NameCounts {
    directories: HashMap<u64, u64>,
    bound: u64,
}

impl NameCounts {
    /// Makes counts of which each is 0.
    pub(crate) fn new(alloc: Global) -> NameCounts
        ensures none { (dir : ℕ) → counted result dir ≡ 0 }
        ensures bound { result.bound ≡ 0 }
    {
        NameCounts {
            directories: HashMap::new(alloc),
            bound: 0,
        }
    }

    /// Returns whether the directory `dir` has a name.
    pub(crate) fn has_any(&self, dir: u64) -> bool
        ensures any { result ≡ nat_lt 0 (counted self.now dir) }
    {
        match self.directories.get(&dir) {
            Some(count) => *count > 0,
            None => false,
        }
    }

    /// Counts one more name in the directory `dir`. If memory is refused, each count stays.
    pub(crate) fn raise(&mut self, dir: u64) -> Result<(), AllocError>
        ensures raised { counted self.old dir ≤ self.old.bound → OnOk result ((d : ℕ) → counted self.new d
            ≡ (if d == dir then counted self.old dir + 1 else counted self.old d)) }
        ensures bound { OnOk result (self.new.bound ≡ self.old.bound + 1) }
        ensures same { OnErr result ((d : ℕ) → counted self.new d ≡ counted self.old d) }
        ensures same_bound { OnErr result (self.new.bound ≡ self.old.bound) }
    {
        if self.bound == u64::MAX {
            return Err(AllocError);
        }
        let count = self.directories.entry(dir)?.or_insert(0);
        *count = count.saturating_add(1);
        self.bound += 1;
        Ok(())
    }

    /// Counts one name less in the directory `dir`, and removes the directory with its last name.
    pub(crate) fn lower(&mut self, dir: u64)
        ensures lowered { (d : ℕ) → counted self.new d
            ≡ (if d == dir then counted self.old dir - 1 else counted self.old d) }
        ensures bound { self.new.bound ≡ self.old.bound }
    {
        let Some(count) = self.directories.get_mut(&dir) else {
            return;
        };
        if *count > 1 {
            *count -= 1;
            return;
        }
        self.directories.remove(&dir);
    }

    /// Gives back the room that no count takes. Each count stays.
    pub(crate) fn trim(&mut self)
        ensures same { (dir : ℕ) → counted self.new dir ≡ counted self.old dir }
        ensures bound { self.new.bound ≡ self.old.bound }
    {
        self.directories.shrink_to_fit();
    }
}
