//! A set of numbers, which knows its first number from any number on.
ghost use Rattle.std.specs.Prelude.{◌≡◌, ℕ, [], ◌==◌, ◌&&◌, ◌||◌, List, IfOk, is_ok, not};
ghost use Rattle.directory_index.specs.NumberSet.{numbers_of};
ghost use Rattle.directory_index.specs.Rising.{is_in, is_some_in, IsFirstOf};

use crate::rising::RisingNumbers;
use std::alloc::{AllocError, Global};
use std::collections::BTreeSet;

/// A set of numbers. As long as there are few, they stand in a vector: a tree would take twice the instructions.
#[derive(Drop)]
pub(crate) enum NumberSet {
    Few(RisingNumbers),
    Many(BTreeSet<u64>),
}

impl NumberSet {
    /// Makes a set without numbers.
    pub(crate) fn new(alloc: Global) -> NumberSet
        ensures empty { numbers_of result ≡ [] }
    {
        NumberSet::Few(RisingNumbers::new(alloc))
    }

    /// Returns whether the set has no number.
    pub(crate) fn is_empty(&self) -> bool
        ensures empty { result ≡ not (is_some_in (numbers_of self.now)) }
    {
        match self {
            NumberSet::Few(numbers) => numbers.as_slice().is_empty(),
            NumberSet::Many(numbers) => numbers.is_empty(),
        }
    }

    /// Returns the first number from `least` on, or none.
    pub(crate) fn first_from(&self, least: u64) -> Option<u64>
        ensures first { IsFirstOf (numbers_of self.now) least result }
    {
        match self {
            NumberSet::Few(numbers) => numbers.first_from(least),
            NumberSet::Many(numbers) => numbers.range(least..).next().copied(),
        }
    }

    /// Adds `number`. If memory is refused, the set has the numbers that it had.
    pub(crate) fn insert(&mut self, alloc: Global, number: u64) -> Result<(), AllocError>
        ensures inserted { (n : ℕ) → is_in n (numbers_of self.new)
            ≡ (is_ok result && n == number || is_in n (numbers_of self.old)) }
    {
        match self {
            NumberSet::Few(numbers) => {
                if !numbers.is_full() {
                    return numbers.insert(number);
                }
                let mut many = tree_of(alloc, numbers.as_slice())?;
                many.insert(number)?;
                *self = NumberSet::Many(many);
            }
            NumberSet::Many(numbers) => {
                numbers.insert(number)?;
            }
        }
        Ok(())
    }

    /// Removes `number`.
    pub(crate) fn remove(&mut self, number: u64)
        ensures removed { (n : ℕ) → is_in n (numbers_of self.new)
            ≡ (not (n == number) && is_in n (numbers_of self.old)) }
    {
        match self {
            NumberSet::Few(numbers) => numbers.remove(number),
            NumberSet::Many(numbers) => {
                numbers.remove(&number);
            }
        }
    }
}

/// Makes a tree of `numbers`.
fn tree_of(alloc: Global, numbers: &[u64]) -> Result<BTreeSet<u64>, AllocError>
    ensures same { IfOk result (λ tree. (n : ℕ) → is_in n tree.keys ≡ is_in n numbers.now) }
{
    let mut tree = BTreeSet::new(alloc);
    for number in numbers {
        tree.insert(*number)?;
    }
    Ok(tree)
}
