//! The numbers that the kernel holds.
ghost use Rattle.std.specs.Prelude.{◌≡◌, ◌<◌, OnOk, OnErr};
ghost use Rattle.broker_core.specs.Held.{held_count, none_held, raised, lowered, IsLeastHeldAfter};

use eden_base::{NoMemory, Number};
use std::alloc::Global;
use std::collections::BTreeMap;
use std::marker::Model;
use std::ops::Bound;

/// The numbers that the kernel holds, with their counts. Contracts see a `HeldMap`.
#[derive(Drop)]
pub(crate) struct Held {
    /// Each count is at least 1.
    counts: BTreeMap<u64, u64>,
}

impl Model for Held {
    ghost use Rattle.broker_core.specs.Held.{HeldMap, held_map_code, map_of};

    ghost Value = { HeldMap };

    ghost coded = { held_map_code };

    ghost view = { λ held. map_of held.counts.entries };

    ghost use Rattle.broker_core.specs.Kept.{IsKept};

    ghost invariant = { IsKept };
}

impl Held {
    /// Makes an empty map.
    pub(crate) fn new(alloc: Global) -> Held
        ensures none { result ≡ none_held }
    {
        Held {
            counts: BTreeMap::new(alloc),
        }
    }

    /// Raises the count of `number` by 1. Takes memory only for a number that was not held.
    pub(crate) fn raise(&mut self, number: Number) -> Result<(), NoMemory>
        requires fits { held_count self.old number.0 < u64.MAX }
        ensures raised { OnOk result (self.new ≡ raised self.old number.0) }
        ensures unheld { OnErr result (held_count self.old number.0 ≡ 0) }
        ensures unchanged { OnErr result (self.new ≡ self.old) }
    {
        if let Some(count) = self.counts.get_mut(&number.0) {
            *count += 1;
            return Ok(());
        }
        self.counts.insert(number.0, 1)?;
        Ok(())
    }

    /// Lowers the count of `number` by `k`. At 0 the number is no longer held.
    pub(crate) fn lower(&mut self, number: Number, k: u64)
        ensures lowered { self.new ≡ lowered self.old number.0 k }
    {
        let Some(count) = self.counts.get_mut(&number.0) else {
            return;
        };
        if *count > k {
            *count -= k;
            return;
        }
        let _count = self.counts.remove(&number.0);
    }

    /// Empties the map.
    pub(crate) fn clear(&mut self)
        ensures none { self.new ≡ none_held }
    {
        self.counts.clear();
    }

    /// Returns how often `number` is held.
    pub(crate) fn count(&self, number: Number) -> u64
        ensures count { result ≡ held_count self.now number.0 }
    {
        match self.counts.get(&number.0) {
            Some(count) => *count,
            None => 0,
        }
    }

    /// Returns the least held number above `number`, if there is one.
    pub(crate) fn least_after(&self, number: Number) -> Option<Number>
        ensures least { IsLeastHeldAfter self.now number.0 result }
    {
        let mut above = self
            .counts
            .range((Bound::Excluded(number.0), Bound::Unbounded));
        let (next, _count) = above.next()?;
        Some(Number(*next))
    }
}
