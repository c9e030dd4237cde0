//! A daemon's side of its connections: what it sends to other daemons, what it asks the broker, and what it lends to
//! its workers.
#![tactic(auto)]

mod answers;
mod desk;
mod frame_list;
pub mod laws;

pub use answers::{Claiming, Hearing, Mounting};
pub use desk::DaemonDesk;
pub use frame_list::FrameList;
