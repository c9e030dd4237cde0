//! Lines for standard output and standard error that threads of their own write, so that nobody who prints one waits.
#![tactic(auto)]

mod backlog;
mod line_queue;
mod loss;
mod non_blocking;
mod notes;

pub use line_queue::LineQueue;
pub use loss::Loss;
pub use non_blocking::{NonBlocking, Unblock, write_behind};
pub use notes::Notes;
