//! The directories of a mount that changed.
ghost use Rattle.std.specs.Prelude.{◌≡◌, [], OnOk, OnErr};
ghost use Rattle.broker_desk.specs.Changed.{is_in, Adds, AddsSome, LetsGo};

use crate::Desk;
use eden_base::{NoMemory, Number};
use std::alloc::Global;
use std::collections::BTreeSet;
use std::marker::Model;

/// The directories that changed since the kernel holds them. Contracts see a list of their numbers.
#[derive(Drop)]
pub(crate) struct ChangedDirectories {
    numbers: BTreeSet<u64>,
    /// From which number on the next one is looked at that the kernel may have let go of.
    from: u64,
}

impl Model for ChangedDirectories {
    ghost use Rattle.std.specs.Prelude.{ℕ, List};

    ghost Value = { List ℕ };

    ghost view = { λ changed. changed.numbers.keys };
}

impl ChangedDirectories {
    /// Makes a set without directories.
    pub(crate) fn new(alloc: Global) -> ChangedDirectories
        ensures none { result ≡ [] }
    {
        ChangedDirectories {
            numbers: BTreeSet::new(alloc),
            from: 0,
        }
    }

    /// Empties the set.
    pub(crate) fn clear(&mut self)
        ensures none { self.new ≡ [] }
    {
        self.numbers.clear();
    }

    /// Returns whether the directory of this `number` changed.
    pub(crate) fn has(&self, number: Number) -> bool
        ensures has { result ≡ is_in number.0 self.now }
    {
        self.numbers.contains(&number.0)
    }

    /// Notes that the directories of these `numbers` changed. If memory is refused, some of them may be noted.
    pub(crate) fn add(&mut self, numbers: &[Number]) -> Result<(), NoMemory>
        ensures added { OnOk result (Adds self.old numbers.now self.new) }
        ensures refused { OnErr result (AddsSome self.old numbers.now self.new) }
    {
        for number in numbers {
            self.numbers.insert(number.0)?;
        }
        Ok(())
    }

    /// Looks at one directory after another, one in each call, and lets go of it where the kernel did at the `desk`.
    pub(crate) fn let_go(&mut self, desk: &Desk)
        ensures lets_go { LetsGo desk.now self.old self.new }
    {
        let Some(number) = self.numbers.range(self.from..).next().copied() else {
            self.from = 0;
            return;
        };
        self.from = number.saturating_add(1);
        if number != Number::ROOT.0 && desk.broker().held(Number(number)) == 0 {
            self.numbers.remove(&number);
        }
    }
}
