//! A count for each number below a limit.
ghost use Rattle.std.specs.Prelude.{◌≡◌, ◌==◌, ◌+◌, ◌-◌, ◌<◌, ◌≤◌, ◌^◌, ℕ, [], IfOk, OnOk, length, slice_index, if◌then◌else◌};
ghost use Rattle.std.specs.Vec.{vec_capacity, vec_len};
ghost use Rattle.manifest.specs.Tally.{count_of};

use eden_base::NoMemory;
use std::alloc::Global;
use std::marker::Model;

/// A count for each number below `room`. The counts are filled in up to the greatest number that was counted, so that
/// room which is not used is not written.
#[derive(Drop)]
pub struct Tally {
    counts: Vec<u32>,
    room: usize,
}

impl Model for Tally {
    ghost use Rattle.std.specs.Prelude.{◌≤◌};
    ghost use Rattle.std.specs.Vec.{vec_capacity, vec_len};
    ghost use Rattle.manifest.specs.Tally.{Tally};

    ghost Value = { Tally };

    ghost view = { λ a. record { counts = a.counts.items; room = a.room } };

    ghost invariant = { λ a. (vec_len a.counts ≤ a.room) × (a.room ≤ vec_capacity a.counts) };
}

impl Tally {
    /// Makes a tally without room.
    pub fn new(alloc: Global) -> Tally
        ensures { result ≡ record { counts = []; room = 0 } }
    {
        Tally {
            counts: Vec::new(alloc),
            room: 0,
        }
    }

    /// Makes a tally with room for the numbers below `room`, so that `raise` takes no memory for them.
    pub fn with_room(alloc: Global, room: usize) -> Result<Tally, NoMemory>
        ensures { IfOk result (λ tally. tally ≡ record { counts = []; room = room }) }
    {
        let counts = Vec::with_capacity(alloc, room)?;
        Ok(Tally { counts, room })
    }

    /// Makes room for this many numbers, from 0. Room at least doubles, so that it may grow by one at a time.
    pub fn reserve(&mut self, room: usize) -> Result<(), NoMemory>
        ensures counts { self.new.counts ≡ self.old.counts }
        ensures room { OnOk result (room ≤ self.new.room) }
    {
        if room > self.room {
            let more = room.max(self.room.saturating_mul(2));
            self.counts.reserve(more - self.counts.len())?;
            self.room = more;
        }
        Ok(())
    }

    /// Returns how often a number was counted.
    pub fn count(&self, number: u64) -> u32
        ensures { result ≡ count_of self.now number }
    {
        self.counts.get(number as usize).copied().unwrap_or(0)
    }

    /// Counts a number once more. Takes no memory.
    pub fn raise(&mut self, number: u64)
        requires room { number < self.old.room }
        requires fits { count_of self.old number < 2 ^ 32 - 1 }
        ensures counts { (q : ℕ)
            → count_of self.new q ≡ (if q == number then count_of self.old q + 1 else count_of self.old q) }
        ensures room { self.new.room ≡ self.old.room }
    {
        let at = number as usize;
        fill(&mut self.counts, at + 1);
        self.counts[at] += 1;
    }

    /// Makes `count` the count of a number. Takes no memory.
    pub fn set(&mut self, number: u64, count: u32)
        requires room { number < self.old.room }
        ensures counts { (q : ℕ) → count_of self.new q ≡ (if q == number then count else count_of self.old q) }
        ensures room { self.new.room ≡ self.old.room }
    {
        let at = number as usize;
        fill(&mut self.counts, at + 1);
        self.counts[at] = count;
    }
}

/// Appends zeros to `counts` until there are `len`. Takes no memory.
fn fill(counts: &mut Vec<u32>, len: usize)
    requires { len ≤ vec_capacity counts.old }
    ensures same { (q : ℕ) → slice_index counts.new.items q ≡ slice_index counts.old.items q }
    ensures filled { len ≤ vec_len counts.new }
    ensures capacity { vec_capacity counts.old ≤ vec_capacity counts.new }
    ensures len { vec_len counts.old ≤ len → vec_len counts.new ≡ len }
    ensures longer { len < vec_len counts.old → vec_len counts.new ≡ vec_len counts.old }
{
    if counts.len() >= len {
        return;
    }
    let Ok(()) = counts.resize(len, 0) else {
        unreachable!()
    };
}
