//! The figures that a measurement prints.
use std::io::Result;

/// How many figures a measurement has at most.
const MOST: usize = 8;

/// Up to eight measured figures, each with its name.
#[derive(Clone, Copy)]
pub(crate) struct Figures {
    names: &'static [&'static str],
    numbers: [u64; MOST],
}

impl Figures {
    /// Makes figures of these names and values.
    pub(crate) fn of(names: &'static [&'static str], values: &[u64]) -> Figures {
        let mut numbers = [0; MOST];
        for (number, its) in numbers.iter_mut().zip(values) {
            *number = *its;
        }
        Figures { names, numbers }
    }

    /// Prints `line`, and after it each figure with its name.
    pub(crate) fn print(&self, rt: &impl Print, line: &str) -> Result<()> {
        print!(rt; "{line}:")?;
        for (name, number) in self.names.iter().zip(&self.numbers) {
            print!(rt; " {name} {number}")?;
        }
        println!(rt)
    }
}
