//! The words that the program is started with: which command they have, and what it is asked for.
#![tactic(auto)]

mod asked;
mod commands;
mod owner;
mod server_command;

pub use asked::{Asked, DEFAULT_LIMIT, WorldWords, asked_of, not_text};
pub use owner::{Owner, read_owner};
pub use server_command::{BrokerWords, DaemonWords, MountWords, ServerCommand, StartMode};
