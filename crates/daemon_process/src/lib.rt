//! A daemon as a process: it mounts or takes over, serves by rounds of workers, and hands over.
#![tactic(auto)]

mod arrival;
mod cause;
mod channel_end;
mod claim;
mod contents;
mod context;
mod exit;
mod fault;
mod handover;
mod input_end;
mod options;
mod own_mounts;
mod patient;
mod peer_accept_loop;
mod peer_connections;
mod peer_queue;
mod process;
mod round_loop;
mod rounds;
mod seat;
mod sent_frames;
mod shared;
mod silence;
mod takeover;
mod waiting;
mod watched;

pub use contents::check_directory;
pub use fault::DaemonFault;
pub use options::{ContentsSource, DaemonOptions, DaemonStart, DaemonTree, RepositorySource};
pub use process::{DaemonRun, DaemonStreams, run_daemon};
