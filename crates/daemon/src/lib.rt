//! One daemon: what it serves and has in hand, its part in a takeover, and the outcomes of its calls.
#![tactic(auto)]

mod backing;
mod daemon;
mod handing;
mod happened;
mod lease;
mod messages;
mod position;
mod server;
mod taking;
mod task;
mod turn;

pub use daemon::Daemon;
pub use happened::{Begun, Happened, Refusal};
pub use lease::Lease;
pub use messages::Messages;
pub use position::index_of;
pub use server::{Server, opening};
pub use task::Task;
pub use turn::{Effect, Reaction, Turn};
