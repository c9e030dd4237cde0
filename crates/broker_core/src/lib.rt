//! The broker: the kernel's side of a mount, which keeps what the kernel holds, what is under way, and who serves it.
#![tactic(auto)]

mod broker;
mod fault;
mod forgets;
mod held;
mod seat;
mod traffic;
mod unanswered;

pub use broker::{Broker, IssueFault, MountFault};
pub use fault::{DeliverFault, PostFault, TakeFault};
pub use seat::Seat;
