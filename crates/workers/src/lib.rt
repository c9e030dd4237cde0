//! One round of workers under the map's lock.
#![tactic(auto)]

mod channel;
mod ended_worker;
mod fault;
mod hook;
mod locked;
mod memory_channel;
mod new_worker;
mod round;
mod round_buffers;
mod round_context;
mod round_options;
mod round_state;
mod running;
mod served_ask;
mod settled;
mod stop;
mod worker;

pub use channel::{Channel, NextAsk, Posted};
pub use ended_worker::{EndedWorker, serve_channel};
pub use fault::RoundFault;
pub use hook::{Hook, NoHook};
pub use journal::{Journal, Receipt, Receipts, Record};
pub use locked::{LockedMap, Opened, Opening, Parts, Shared};
pub use memory_channel::MemoryChannel;
pub use new_worker::NewWorker;
pub use round::{MAX_CHANNELS, Round, serve_round};
pub use round_buffers::RoundBuffers;
pub use round_context::RoundContext;
pub use round_options::RoundOptions;
pub use round_state::RoundState;
pub use served_ask::{ServedAsk, serve_one};
pub use settled::{Settled, drain};
pub use stop::Stop;
pub use worker::WorkerEnd;
