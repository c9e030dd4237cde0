//! One daemon's part in a takeover: its phase, what each message and call makes of it, and what it says.
#![tactic(auto)]

mod heard;
pub mod laws;
mod message;
mod node;
mod phase;
mod versions;

pub use heard::Heard;
pub use message::Message;
pub use node::{DrainFault, Node};
pub use phase::Phase;
pub use versions::Versions;
