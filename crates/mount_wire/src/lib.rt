//! What a Linux kernel and the program that mounts say to each other, and no daemon answers.
#![tactic(auto)]

mod agreement;
mod batch_reader;
mod fault;
mod field;
mod header;
mod init_reply;
mod kept;
mod message;
mod mount_reply;
mod offer;
mod opcode;
mod opendir;
mod reply_bytes;
mod responder;
mod statfs;
mod told_answer;

pub use agreement::{Agreement, agree};
pub use batch_reader::BatchReader;
pub use fault::KernelMessageFault;
pub use header::{RequestHeader, read_header};
pub use init_reply::answer_init;
pub use kept::Kept;
pub use message::{KernelMessage, read_message};
pub use mount_reply::MountReply;
pub use offer::{Offer, read_offer};
pub use opendir::{answer_opendir, answer_releasedir};
pub use reply_bytes::ReplyBytes;
pub use responder::{Responder, responder_of};
pub use statfs::answer_statfs;
pub use told_answer::{FileOwner, MountAttributes, MountTime, tell_answer, tell_error};
