//! The frames that daemons and the broker send each other.
#![tactic(auto)]

mod answer;
mod body;
mod fault;
mod field;
mod frame;
mod front;
mod kind;
pub mod laws;
mod parts;
mod writer;

pub use answer::BrokerAnswer;
pub use fault::FrameFault;
pub use frame::Frame;
pub use parts::missing;
pub use writer::write_post_to;
