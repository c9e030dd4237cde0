//! The bytes of the Linux FUSE protocol, both ways: what the kernel asks of a daemon, and what the daemon answers.
#![tactic(auto)]

mod batch;
mod body_form;
mod buffer;
mod directory_entry;
mod entry_reader;
mod errno;
mod fault;
mod form;
mod given_out;
mod header;
mod item;
mod layout;
mod listing;
mod memory;
mod mode;
mod nodes;
mod reader;
mod reply;
mod reply_reader;
mod reply_to_fault;
mod reply_writer;
mod request;
mod request_body;
mod request_reader;
mod request_writer;
mod same;
mod writer;

pub use batch::{Batch, BatchRoom};
pub use buffer::Buffer;
pub use directory_entry::DirectoryEntry;
pub use entry_reader::Entries;
pub use fault::WireFault;
pub use form::Form;
pub use item::{Item, Items};
pub use listing::Listing;
pub use nodes::NodeIds;
pub use reply::{Answer, Extent, Reply};
pub use reply_reader::{read_buffer_reply, read_reply, unique_of};
pub use reply_to_fault::fault_reply;
pub use reply_writer::{MAX_REPLY_LEN, write_reply};
pub use request::{Ask, Request};
pub use request_reader::{read_request, read_request_to};
pub use request_writer::{MAX_REQUEST_LEN, RequestRoom, write_request_to};
