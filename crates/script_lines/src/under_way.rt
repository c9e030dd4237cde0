//! How many lookups are under way between a daemon and the kernel.
ghost use Rattle.std.specs.Prelude.{◌≡◌, ◌<◌, slice_index_or};
ghost use Rattle.script_lines.specs.Gathered.{AreUnderWay, AreZero, IsGathered};

use crate::sums::Sums;
use eden_base::{DaemonId, Number};
use world::World;

/// How many lookups of a number are taken back, and how many replies give the number out.
#[derive(Clone, Copy)]
pub(crate) struct Counts {
    pub(crate) up: u128,
    pub(crate) down: u128,
}

/// What is under way on each of 256 numbers.
#[derive(Drop)]
pub(crate) struct UnderWay {
    /// What the items that wait and the items in the daemon's hand take back.
    up: Sums,
    /// What the replies that the daemon did not post and the posted ones give out.
    down: Sums,
}

impl UnderWay {
    /// Makes sums of 0 for the numbers from `low` on, to which `add_all` adds what is under way.
    pub(crate) fn nothing(low: u64) -> UnderWay
        ensures low { (result.up.low ≡ low) × (result.down.low ≡ low) }
        ensures zero { AreZero result.up × AreZero result.down }
    {
        UnderWay {
            up: Sums::new(low),
            down: Sums::new(low),
        }
    }

    /// Goes over all that is under way once, and adds it to sums of 0. It isn't inlined, and adds where the sums stand,
    /// so that 8,208 bytes are filled once and not moved.
    #[inline(never)]
    pub(crate) fn add_all(&mut self, world: &World, daemon: DaemonId)
        requires zero { AreZero self.old.up × AreZero self.old.down }
        requires same { self.old.down.low ≡ self.old.up.low }
        ensures gathered { IsGathered world.now daemon self.new }
        ensures low { self.new.up.low ≡ self.old.up.low }
    {
        self.up.add_queue(world.broker().items());
        self.up.add_any(world.hand(daemon));
        self.down.add_queue(world.broker().replies());
        self.down.add_any(world.unposted(daemon));
    }

    /// Returns what is under way on `number`. If `number` is not among the summed ones, goes over all that is under way
    /// again, for `number` and the numbers after it.
    pub(crate) fn of(&mut self, world: &World, daemon: DaemonId, number: Number) -> Counts
        requires gathered { IsGathered world.now daemon self.old }
        ensures counts { AreUnderWay world.now daemon number.0 result }
        ensures gathered { IsGathered world.now daemon self.new }
    {
        if let Some(at) = self.up.index_of(number) {
            return self.at(at);
        }
        self.gather_again(world, daemon, number.0);
        self.at(0)
    }

    /// Goes over all that is under way again, and sums up for the numbers from `low` on. It isn't inlined, since few
    /// numbers need it.
    #[inline(never)]
    fn gather_again(&mut self, world: &World, daemon: DaemonId, low: u64)
        ensures gathered { IsGathered world.now daemon self.new }
        ensures low { self.new.up.low ≡ low }
    {
        self.up.clear(low);
        self.down.clear(low);
        self.add_all(world, daemon);
    }

    /// Returns both sums at index `at`.
    fn at(&self, at: usize) -> Counts
        requires within { at < 256 }
        ensures up { result.up ≡ slice_index_or self.now.up.sums at 0 }
        ensures down { result.down ≡ slice_index_or self.now.down.sums at 0 }
    {
        Counts {
            up: self.up.at(at),
            down: self.down.at(at),
        }
    }
}
