//! All daemons and the kernel's side as one list of events, and the theorem that holds after each of them.
#![tactic(auto)]

mod event;
mod history;
pub mod laws;
mod outcome;
mod said;
mod world;

pub use daemon::{Happened, Refusal};
pub use event::Event;
pub use history::run;
pub use outcome::Outcome;
pub use world::World;
