//! A queue whose members are reached and removed by their index, at a cost that hardly grows with the queue.
#![tactic(auto)]

mod block;
mod group;
mod queue;

pub use queue::BlockQueue;
