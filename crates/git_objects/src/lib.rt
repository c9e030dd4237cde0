//! The blobs of a git repository, fetched by processes of git that stay, and kept by recency.
#![tactic(auto)]

mod ahead_queue;
mod answer;
mod batch;
mod blob;
mod blob_cache;
mod content;
mod desk;
mod duty;
mod fault;
mod fetcher;
mod git_command;
mod git_objects;
mod name;
mod object_wait;
mod question;
mod shared;
mod sought;
mod spool;
mod under_way;

pub use fault::ObjectFault;
pub use git_command::GitCommand;
pub use git_objects::{BlobPart, GitObjects, PendingPart, StartedPart};
pub use sought::Sought;
