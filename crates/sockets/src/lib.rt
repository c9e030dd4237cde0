//! Unix sockets that listen, and connections that carry frames and give up at a deadline.
#![tactic(auto)]

mod allowance;
mod closer;
mod connection;
mod deadline;
mod first;
mod listening;
mod passage;
mod timed;
mod writer;

pub use allowance::Allowance;
pub use closer::Closer;
pub use connection::{Connection, connect};
pub use deadline::{Deadline, Left};
pub use first::First;
pub use listening::{Hidden, changed_at, listen_alone_at, listen_at, remove_unchanged};
pub use timed::Timed;
pub use writer::TimeoutWriter;
