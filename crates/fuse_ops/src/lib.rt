//! What one daemon serves, and how it answers the kernel.
#![tactic(auto)]

mod served;

pub use journal::{Journal, Record};
pub use served::Served;
