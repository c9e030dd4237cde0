//! A few numbers, by rising order.
ghost use Rattle.std.specs.Prelude.{◌≡◌, ℕ, [], ◌==◌, ◌&&◌, ◌||◌, true, MatchOption, is_ok, not};
ghost use Rattle.directory_index.specs.Rising.{is_in, IsFirstOf, IsGap, IsRising};

use smallvec::SmallVec;
use std::alloc::{AllocError, Global};
use std::marker::Model;

/// The most numbers that stand in a vector.
const MOST: usize = 128;

/// Numbers in a vector, each greater than the one before it. The first four take no memory of their own.
#[derive(Drop)]
pub(crate) struct RisingNumbers {
    numbers: SmallVec<u64, 4>,
}

impl Model for RisingNumbers {
    ghost use Rattle.std.specs.Prelude.{ℕ, List};
    ghost use Rattle.directory_index.specs.Rising.{IsRising};

    ghost Value = { List ℕ };

    ghost view = { λ rising. rising.numbers.items };

    ghost invariant = { λ rising. IsRising rising.numbers.items };
}

impl RisingNumbers {
    /// Makes an empty list.
    pub(crate) fn new(alloc: Global) -> RisingNumbers
        ensures empty { result ≡ [] }
    {
        RisingNumbers {
            numbers: SmallVec::new(alloc),
        }
    }

    /// Returns whether no more numbers should be added here, since a tree is faster from then on.
    pub(crate) fn is_full(&self) -> bool {
        self.numbers.as_slice().len() >= MOST
    }

    /// Returns the numbers.
    pub(crate) fn as_slice(&self) -> &[u64]
        ensures numbers { result.now ≡ self.now }
    {
        self.numbers.as_slice()
    }

    /// Returns the first number from `least` on, or none.
    pub(crate) fn first_from(&self, least: u64) -> Option<u64>
        ensures first { IsFirstOf self.now least result }
    {
        first_from(self.numbers.as_slice(), least)
    }

    /// Adds `number`. If memory is refused, nothing changes.
    pub(crate) fn insert(&mut self, number: u64) -> Result<(), AllocError>
        ensures inserted { (n : ℕ) → is_in n self.new ≡ (is_ok result && n == number || is_in n self.old) }
    {
        insert(&mut self.numbers, number)
    }

    /// Removes `number`.
    pub(crate) fn remove(&mut self, number: u64)
        ensures removed { (n : ℕ) → is_in n self.new ≡ (not (n == number) && is_in n self.old) }
    {
        remove(&mut self.numbers, number)
    }
}

/// Returns the first of `numbers` from `least` on, or none.
fn first_from(numbers: &[u64], least: u64) -> Option<u64>
    requires rising { IsRising numbers.now }
    ensures first { IsFirstOf numbers.now least result }
{
    let index = match numbers.binary_search(&least) {
        Ok(index) => index,
        Err(index) => index,
    };
    numbers.get(index).copied()
}

/// Adds `number` to `numbers`.
fn insert(numbers: &mut SmallVec<u64, 4>, number: u64) -> Result<(), AllocError>
    requires rising { IsRising numbers.old.items }
    ensures rising { IsRising numbers.new.items }
    ensures inserted { (n : ℕ) → is_in n numbers.new.items
        ≡ (is_ok result && n == number || is_in n numbers.old.items) }
{
    let Some(index) = gap_for(numbers.as_slice(), number) else {
        return Ok(());
    };
    numbers.insert(index, number)?;
    Ok(())
}

/// Returns where `number` goes among `numbers`, or none if it stands there. Mostly it is greater than all of them.
fn gap_for(numbers: &[u64], number: u64) -> Option<usize>
    requires rising { IsRising numbers.now }
    ensures gap { MatchOption result (is_in number numbers.now ≡ true) (IsGap numbers.now number) }
{
    match numbers.last() {
        Some(last) if *last >= number => numbers.binary_search(&number).err(),
        _ => Some(numbers.len()),
    }
}

/// Removes `number` from `numbers`.
fn remove(numbers: &mut SmallVec<u64, 4>, number: u64)
    requires rising { IsRising numbers.old.items }
    ensures rising { IsRising numbers.new.items }
    ensures removed { (n : ℕ) → is_in n numbers.new.items ≡ (not (n == number) && is_in n numbers.old.items) }
{
    if let Ok(index) = numbers.as_slice().binary_search(&number) {
        numbers.remove(index);
    }
}
