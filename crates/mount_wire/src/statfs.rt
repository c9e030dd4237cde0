//! The reply to STATFS.
ghost use Rattle.std.specs.Prelude.{◌≡◌};
ghost use Rattle.mount_wire.specs.Statfs.{statfs_reply_text};

use crate::ReplyBytes;

/// The length of the whole reply, in bytes: the header, and `struct fuse_kstatfs`.
const LEN: u32 = 96;

/// The length of these fields: blocks, bfree, bavail, files, ffree.
const COUNTS_LEN: usize = 40;

/// The size of a block, in bytes.
const BLOCK_SIZE: u32 = 4096;

/// The length of the longest name, in bytes.
const NAME_LEN: u32 = 255;

/// The length of the end of `struct fuse_kstatfs`, after frsize: padding, spare.
const END_LEN: usize = 28;

/// Returns the reply to the STATFS with this `unique`: no counts, blocks of 4,096 bytes, and names of at most 255.
#[tactic(auto, using(crate::proofs::Texts::texts))]
pub fn answer_statfs(unique: u64) -> ReplyBytes
    ensures text { result ≡ statfs_reply_text unique }
{
    let mut reply = ReplyBytes::with_header(LEN, 0, unique);
    reply.put_zeros(COUNTS_LEN);
    reply.put_u32(BLOCK_SIZE);
    reply.put_u32(NAME_LEN);
    reply.put_u32(BLOCK_SIZE);
    reply.put_zeros(END_LEN);
    reply
}
