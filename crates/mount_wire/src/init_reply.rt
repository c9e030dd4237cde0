//! The reply to a kernel's INIT.
ghost use Rattle.std.specs.Prelude.{◌≡◌, ◌+◌, ◌≤◌, ◌++◌, Ok, length};
ghost use Rattle.mount_wire.specs.declared.agreement.Agreement.TheVariants.{Version};
ghost use Rattle.mount_wire.specs.Init.{agreement_of, init_out, init_reply_text, later_fields};

use crate::agreement::{MAJOR, agree};
use crate::{Agreement, Offer, ReplyBytes};

/// The greatest length of a WRITE's data, in bytes. A kernel takes no less than 4,096. It gives no request to a reader
/// whose buffer is under 8,192 bytes, or less than 80 bytes longer than this. So a buffer of 8,192 bytes suffices.
const MAX_WRITE: u32 = 4096;

/// How exactly times are kept, in nanoseconds.
const TIME_GRAN: u32 = 1;

/// The first minor version whose kernels read a whole `struct fuse_init_out`.
const LONG_SINCE: u32 = 23;

/// The length in bytes of what an earlier kernel reads of it (`FUSE_COMPAT_22_INIT_OUT_SIZE`).
const SHORT_LEN: usize = 24;

/// The length of a whole `struct fuse_init_out`, in bytes.
const LONG_LEN: usize = 64;

/// The length of these fields of `struct fuse_init_out`: max_background, congestion_threshold.
const BACKGROUND_LEN: usize = 4;

/// The length of the end of `struct fuse_init_out`, after time_gran.
const END_LEN: usize = 36;

/// The length of `struct fuse_init_out` after the major version.
const AFTER_MAJOR_LEN: usize = 60;

/// The error number of a kernel that is too old.
const EPROTO: i32 = 71;

/// Returns the reply to this `offer`: what `agree` agrees to, or EPROTO if the kernel is too old.
pub fn answer_init(offer: &Offer) -> ReplyBytes
    ensures text { result ≡ init_reply_text offer.now.unique (agreement_of offer.now) }
{
    match agree(offer) {
        Ok(agreement) => agreed_reply(offer.unique, &agreement),
        Err(_) => ReplyBytes::with_header(ReplyBytes::HEADER_LEN as u32, -EPROTO, offer.unique),
    }
}

/// Returns the reply with this `unique` that tells the `agreement`.
#[tactic(auto, using(crate::proofs::Texts::texts))]
fn agreed_reply(unique: u64, agreement: &Agreement) -> ReplyBytes
    ensures { result ≡ init_reply_text unique (Ok agreement.now) }
{
    let len = ReplyBytes::HEADER_LEN + out_len(agreement);
    let mut reply = ReplyBytes::with_header(len as u32, 0, unique);
    put_agreement(&mut reply, agreement);
    reply
}

/// Returns how many bytes of `struct fuse_init_out` a kernel reads that is told this `agreement`.
#[tactic(auto, using(crate::proofs::Texts::texts))]
fn out_len(agreement: &Agreement) -> usize
    ensures len { result ≡ length (init_out agreement.now) }
    ensures at_most { result ≤ 64 }
{
    match agreement {
        Agreement::Version { minor, .. } => SHORT_LEN + later_len(*minor),
        Agreement::MajorAlone => LONG_LEN,
    }
}

/// Returns the length of the fields that a kernel reads from 7.23 on, if `minor` is such a version, else 0.
#[tactic(auto, using(crate::proofs::Texts::texts))]
fn later_len(minor: u32) -> usize
    ensures len { result ≡ length (later_fields minor) }
    ensures at_most { result ≤ 40 }
{
    if minor < LONG_SINCE {
        return 0;
    }
    LONG_LEN - SHORT_LEN
}

/// Appends the `struct fuse_init_out` that tells the `agreement`.
#[tactic(auto, using(crate::proofs::Texts::texts))]
fn put_agreement(reply: &mut ReplyBytes, agreement: &Agreement)
    requires room { length reply.old + 64 ≤ 160 }
    ensures put { reply.new ≡ reply.old ++ init_out agreement.now }
{
    match agreement {
        Agreement::Version {
            minor,
            max_readahead,
            flags,
        } => put_version(reply, *minor, *max_readahead, *flags),
        Agreement::MajorAlone => {
            reply.put_u32(MAJOR);
            reply.put_zeros(AFTER_MAJOR_LEN);
        }
    }
}

/// Appends the `struct fuse_init_out` of version 7 with this `minor`, as far as the kernel reads it.
#[tactic(auto, using(crate::proofs::Texts::texts))]
fn put_version(reply: &mut ReplyBytes, minor: u32, max_readahead: u32, flags: u32)
    requires room { length reply.old + 64 ≤ 160 }
    ensures put { reply.new ≡ reply.old ++ init_out (Version minor max_readahead flags) }
{
    reply.put_u32(MAJOR);
    reply.put_u32(minor);
    reply.put_u32(max_readahead);
    reply.put_u32(flags);
    reply.put_zeros(BACKGROUND_LEN);
    reply.put_u32(MAX_WRITE);
    put_later_fields(reply, minor);
}

/// Appends the fields that a kernel reads from 7.23 on, if `minor` is such a version.
#[tactic(auto, using(crate::proofs::Texts::texts))]
fn put_later_fields(reply: &mut ReplyBytes, minor: u32)
    requires room { length reply.old + 40 ≤ 160 }
    ensures put { reply.new ≡ reply.old ++ later_fields minor }
{
    if minor < LONG_SINCE {
        return;
    }
    reply.put_u32(TIME_GRAN);
    reply.put_zeros(END_LEN);
}
