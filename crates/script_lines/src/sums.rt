//! How many lookups of each of 256 numbers the members of queues count.
ghost use Rattle.std.specs.Prelude.{ℕ, ◌≡◌, ◌≢◌, ◌<◌, ◌≤◌, ◌+◌, ◌-◌, ◌*◌, ◌^◌, ◌⊎◌, length, MatchOption, slice_index_or};
ghost use Rattle.std.specs.Option.{option_map_or};
ghost use Rattle.broker_core.specs.Traffic.{taken_back};
ghost use Rattle.script_lines.specs.Gathered.{AreAdded, AreBelow, AreZero, IsAdded, given_by, members};
ghost use Rattle.script_lines.specs.Printed.{taken_back_by};

use block_queue::BlockQueue;
use daemon::Task;
use eden_base::Number;
use fuse_wire::{Item, Reply};
use std::collections::VecDeque;

/// For how many numbers one pass over a queue sums up.
const WIDTH: usize = 256;

/// A member of a queue that counts lookups of at most one number.
pub(crate) trait Lookups {
    /// How many lookups of a number the member counts.
    ghost count: { ℕ → Self → ℕ };

    /// Returns the number that the member counts lookups of, and how many, if there is one.
    fn lookups(&self) -> Option<Item>
        ensures lookups { (n : ℕ) → option_map_or (taken_back n) result 0 ≡ count n self.now };
}

impl Lookups for Task {
    ghost count = { taken_back_by };

    fn lookups(&self) -> Option<Item> {
        self.item()
    }
}

impl Lookups for Item {
    ghost count = { taken_back };

    fn lookups(&self) -> Option<Item> {
        Some(*self)
    }
}

impl Lookups for Reply {
    ghost count = { given_by };

    fn lookups(&self) -> Option<Item> {
        let node = self.answer.given_out()?;
        Some(Item { node, k: 1 })
    }
}

/// A sum for each of the `WIDTH` numbers from `low` on.
#[derive(Drop)]
pub(crate) struct Sums {
    low: u64,
    sums: [u128; WIDTH],
}

impl Sums {
    /// Makes sums of 0.
    pub(crate) fn new(low: u64) -> Sums
        ensures low { result.low ≡ low }
        ensures zero { AreZero result }
    {
        Sums {
            low,
            sums: [0; WIDTH],
        }
    }

    /// Makes each sum 0, for the numbers from `low` on.
    pub(crate) fn clear(&mut self, low: u64)
        ensures low { self.new.low ≡ low }
        ensures zero { AreZero self.new }
    {
        self.low = low;
        self.sums = [0; WIDTH];
    }

    /// Returns the index of the sum for `number`, or none if `number` isn't one of the 256 from `low` on.
    pub(crate) fn index_of(&self, number: Number) -> Option<usize>
        ensures { MatchOption result (number.0 < self.now.low ⊎ self.now.low + 256 ≤ number.0)
            (λ at. (at < 256) × (self.now.low + at ≡ number.0)) }
    {
        let at = number.0.checked_sub(self.low)?;
        if at < WIDTH as u64 {
            return Some(at as usize);
        }
        None
    }

    /// Returns the sum at index `at`.
    pub(crate) fn at(&self, at: usize) -> u128
        requires within { at < 256 }
        ensures sum { result ≡ slice_index_or self.now.sums at 0 }
    {
        self.sums[at]
    }

    /// Adds what each member of `queue` counts, if there is a queue.
    pub(crate) fn add_any<M: Lookups + Drop>(&mut self, queue: Option<&BlockQueue<M>>)
        requires small { AreBelow (2 ^ 127) self.old }
        ensures added { AreAdded M.count self.old (members queue.entry) self.new }
    {
        let Some(queue) = queue else {
            return;
        };
        self.add_runs(queue);
    }

    /// Adds what each member of `queue` counts, a run of members after another.
    fn add_runs<M: Lookups + Drop>(&mut self, queue: &BlockQueue<M>)
        requires small { AreBelow (2 ^ 127) self.old }
        ensures added { AreAdded M.count self.old queue.now.members self.new }
    {
        let (len, mut at) = (queue.len(), 0);
        while at < len {
            let run = queue.run_from(at);
            self.add_each(run);
            at += run.len();
        }
    }

    /// Adds what each member of `queue` counts.
    pub(crate) fn add_queue<M: Lookups>(&mut self, queue: &VecDeque<M>)
        requires small { AreBelow (2 ^ 127) self.old }
        ensures added { AreAdded M.count self.old queue.now.items self.new }
        ensures short { length queue.now.items < 2 ^ 63 }
    {
        let (front, back) = queue.as_slices();
        self.add_each(front);
        self.add_each(back);
    }

    /// Adds what each of `members` counts.
    fn add_each<M: Lookups>(&mut self, members: &[M])
        requires small { AreBelow (2 ^ 128 - length members.now * 2 ^ 64) self.old }
        ensures added { AreAdded M.count self.old members.now self.new }
    {
        for member in members {
            self.add(member);
        }
    }

    /// Adds what `member` counts.
    fn add<M: Lookups>(&mut self, member: &M)
        requires small { AreBelow (2 ^ 128 - 2 ^ 64) self.old }
        ensures added { IsAdded M.count self.old member.now self.new }
    {
        let Some(item) = member.lookups() else {
            return;
        };
        let Some(at) = self.index_of(item.node) else {
            return;
        };
        self.add_at(at, item.k);
    }

    /// Adds `k` to the sum at index `at`.
    fn add_at(&mut self, at: usize, k: u64)
        requires within { at < 256 }
        requires small { AreBelow (2 ^ 128 - 2 ^ 64) self.old }
        ensures low { self.new.low ≡ self.old.low }
        ensures more { slice_index_or self.new.sums at 0 ≡ slice_index_or self.old.sums at 0 + k }
        ensures others { (i : ℕ) → i ≢ at
            → slice_index_or self.new.sums i 0 ≡ slice_index_or self.old.sums i 0 }
        ensures fits { k < 2 ^ 64 }
    {
        self.sums[at] += u128::from(k);
    }
}
