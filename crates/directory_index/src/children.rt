//! The numbers that stand in each directory.
ghost use Rattle.std.specs.Prelude.{◌≡◌, ℕ, ◌==◌, ◌&&◌, ◌||◌, false, is_ok, not};
ghost use Rattle.directory_index.specs.Children.{has_children, is_child, IsFirstChild};

use crate::number_set::NumberSet;
use std::alloc::{AllocError, Global};
use std::collections::HashMap;

/// The numbers that stand in each directory. Directories are numbers of this project's own giving, so a hash with a fixed
/// seed suffices.
#[derive(Drop)]
pub(crate) struct Children {
    directories: HashMap<u64, NumberSet>,
}

impl Children {
    /// Makes an index in which no directory has a number.
    pub(crate) fn new(alloc: Global) -> Children
        ensures empty { (dir number : ℕ) → is_child result dir number ≡ false }
    {
        Children {
            directories: HashMap::new(alloc),
        }
    }

    /// Returns whether a number stands in the directory `dir`.
    pub(crate) fn has_any(&self, dir: u64) -> bool
        ensures any { result ≡ has_children self.now dir }
    {
        match self.directories.get(&dir) {
            Some(children) => !children.is_empty(),
            None => false,
        }
    }

    /// Returns the first number from `least` on that stands in the directory `dir`, or none.
    pub(crate) fn first_from(&self, dir: u64, least: u64) -> Option<u64>
        ensures first { IsFirstChild self.now dir least result }
    {
        self.directories.get(&dir)?.first_from(least)
    }

    /// Adds `number` to the directory `dir`. If memory is refused, each directory has the numbers that it had.
    pub(crate) fn add(&mut self, alloc: Global, dir: u64, number: u64) -> Result<(), AllocError>
        ensures added { (d n : ℕ) → is_child self.new d n
            ≡ (is_ok result && (d == dir && n == number) || is_child self.old d n) }
    {
        let none = NumberSet::new(alloc);
        let children = self.directories.entry(dir)?.or_insert(none);
        children.insert(alloc, number)
    }

    /// Removes `number` from the directory `dir`, and removes the directory with its last number.
    pub(crate) fn remove(&mut self, dir: u64, number: u64)
        ensures removed { (d n : ℕ) → is_child self.new d n
            ≡ (not (d == dir && n == number) && is_child self.old d n) }
    {
        let Some(children) = self.directories.get_mut(&dir) else {
            return;
        };
        children.remove(number);
        if children.is_empty() {
            self.directories.remove(&dir);
        }
    }

    /// Gives back the room that no directory takes.
    pub(crate) fn trim(&mut self)
        ensures same { (d n : ℕ) → is_child self.new d n ≡ is_child self.old d n }
    {
        self.directories.shrink_to_fit();
    }
}
