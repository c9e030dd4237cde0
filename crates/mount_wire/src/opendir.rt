//! The replies to OPENDIR and RELEASEDIR.
ghost use Rattle.std.specs.Prelude.{◌≡◌};
ghost use Rattle.mount_wire.specs.Opendir.{opendir_reply_text, releasedir_reply_text};

use crate::ReplyBytes;

/// The length of the whole reply to OPENDIR, in bytes: the header, and `struct fuse_open_out`.
const OPENDIR_LEN: u32 = 32;

/// The number of an open directory (fh): none has one of its own.
const NO_HANDLE: u64 = 0;

/// The flag FOPEN_KEEP_CACHE: what was kept of the directory before stays.
const KEEP_CACHE: u32 = 1 << 1;

/// The flag FOPEN_CACHE_DIR: what is read of the directory is kept.
const CACHE_DIR: u32 = 1 << 3;

/// The length of the padding at the end of `struct fuse_open_out`.
const PADDING_LEN: usize = 4;

/// The length of the whole reply to RELEASEDIR, in bytes: the header.
const RELEASEDIR_LEN: u32 = 16;

/// Returns the reply to the OPENDIR with this `unique`, by which the kernel may keep a listing.
#[tactic(auto, using(crate::proofs::Texts::texts))]
pub fn answer_opendir(unique: u64) -> ReplyBytes
    ensures text { result ≡ opendir_reply_text unique }
{
    let mut reply = ReplyBytes::with_header(OPENDIR_LEN, 0, unique);
    reply.put_u64(NO_HANDLE);
    reply.put_u32(KEEP_CACHE | CACHE_DIR);
    reply.put_zeros(PADDING_LEN);
    reply
}

/// Returns the reply to the RELEASEDIR with this `unique`.
pub fn answer_releasedir(unique: u64) -> ReplyBytes
    ensures text { result ≡ releasedir_reply_text unique }
{
    ReplyBytes::with_header(RELEASEDIR_LEN, 0, unique)
}
