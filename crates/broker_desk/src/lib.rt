//! The broker's desk: who is attached to the broker, how each frame of a daemon is answered, and what becomes of a real
//! kernel's messages there.
#![tactic(auto)]

mod changed;
mod desk;
mod forgets;
mod kernel;
mod pair;
mod peer;
mod progress;

pub use desk::{Desk, MAX_DAEMONS};
pub use kernel::{Delivered, Kernel, MAX_ASKS};
pub use pair::Pair;
pub use peer::{Peer, Response};
pub use progress::Progress;
