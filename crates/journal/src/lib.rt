//! What a round of workers writes down: its journal and the receipts of each worker, and whether it is settled.
#![tactic(auto)]

mod journal;
mod receipt;
mod settled;

pub use journal::{Journal, Record};
pub use receipt::{Receipt, Receipts};
pub use settled::is_settled;
