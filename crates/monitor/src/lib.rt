//! Monitors: values that threads share, each under a lock, and the conditions that threads wait for under it.
#![tactic(auto)]

mod condition;
mod look;
mod monitor;
mod patience;
#[cfg(test)]
mod tests;

pub use condition::Condition;
pub use look::Look;
pub use monitor::Monitor;
pub use patience::Patience;
