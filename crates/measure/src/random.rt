//! Random numbers, which are the same in each run, and the limit of loaded attributes with which they are asked for.
use eden_base::Number;

/// How many attributes `edend` keeps loaded if its words say no number.
pub(crate) const DEFAULT_LIMIT: usize = 1024;

/// How many random numbers are asked for.
pub(crate) const ASKED: u64 = 20_000;

/// Returns the next number of a fixed sequence (Knuth's MMIX generator).
pub(crate) fn next_random(state: u64) -> u64 {
    state
        .wrapping_mul(6_364_136_223_846_793_005)
        .wrapping_add(1_442_695_040_888_963_407)
}

/// A linear congruential generator. `word` is the last word of its sequence.
#[derive(Drop)]
pub(crate) struct Random {
    word: u64,
}

impl Random {
    /// Begins the sequence.
    pub(crate) fn new() -> Random {
        Random { word: 1 }
    }

    /// Returns a random number below `count`, or 0 if `count` is 0.
    pub(crate) fn below(&mut self, count: u64) -> u64 {
        self.word = next_random(self.word);
        (self.word >> 33) % count.max(1)
    }

    /// Returns a random one of the `given` numbers that begin with 2.
    pub(crate) fn number(&mut self, given: u64) -> Number {
        Number(self.below(given).wrapping_add(2))
    }
}
