//! The bytes of files, which are fetched outside of the map's lock.
#![tactic(auto)]

mod blob_store;
mod byte_file;
mod extent_line;
mod failure_notes;
mod fetching_channel;
mod file_blobs;
mod file_path;
mod file_read_pool;
mod filling;
mod memory_blobs;
mod read_table;
mod said_files;
mod waiting_replies;

pub use blob_store::{BlobFault, BlobStore, PendingRead, ReadEnding, StartedRead};
pub use byte_file::{ByteFile, read_part};
pub use extent_line::line_within;
pub use failure_notes::FailureNotes;
pub use fetching_channel::FetchingChannel;
pub use file_blobs::FileBlobs;
pub use file_read_pool::FileReadPool;
pub use memory_blobs::{MemoryBlob, MemoryBlobs};
pub use waiting_replies::{WaitingReplies, WaitingReply};
