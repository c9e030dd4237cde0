//! A daemon's answer, as the kernel is told it.
ghost use Rattle.std.specs.Prelude.{◌≡◌, ◌+◌, ◌≤◌, ◌++◌, length, false, true, IfOk, OnErr};
ghost use Rattle.mount_wire.specs.Told.{absence_text, attributes_told, blocks_at, error_text, filled, front_told, is_absence, is_end, owner_text, told_by, told_text, unkept_end_text, validity, validity_at, validity_len, with_own};
ghost use Rattle.fuse_wire.specs.declared.reply.Answer.TheVariants.{Buffer as ABuffer};
ghost use Rattle.fuse_wire.specs.ReplyText.{is_buffer, reply_text};

use crate::{Kept, MountReply, ReplyBytes};
use eden_base::{Errno, NoMemory};
use fuse_wire::{Answer, Buffer, MAX_REPLY_LEN, Reply, write_reply};
use std::alloc::Global;

/// When a mount began, since 1970. Each of its files has this as all its times, so that `make` sees no file change.
#[derive(Clone, Copy, PartialEq, Eq)]
pub struct MountTime {
    pub seconds: u64,
    pub nanoseconds: u32,
}

/// The user and the group that own each file of a mount.
#[derive(Clone, Copy, PartialEq, Eq)]
pub struct FileOwner {
    pub user: u32,
    pub group: u32,
}

/// What the attributes of each file of a mount have in common, and no daemon tells.
#[derive(Clone, Copy, PartialEq, Eq)]
pub struct MountAttributes {
    pub since: MountTime,
    pub owner: FileOwner,
    /// For how many seconds the kernel may keep entries and attributes without a request. Whoever changes a file does so
    /// through the kernel, which drops what it changes, and each daemon of a mount tells the same.
    pub valid: u64,
}

/// Attributes in a reply: whether an entry stands before them, and the size of the file.
#[derive(Clone, Copy, PartialEq, Eq)]
pub(crate) struct Shown {
    pub(crate) has_entry: bool,
    pub(crate) size: u64,
}

/// The size of the blocks in which `st_blocks` counts, in bytes.
const BLOCK: u64 = 512;

/// The length of a whole reply with an entry, in bytes: the header, and `struct fuse_entry_out`.
const ENTRY_LEN: u32 = 144;

/// The length in bytes of the fields of `struct fuse_entry_out` before entry_valid: nodeid, generation.
const NUMBERS_LEN: usize = 16;

/// The length in bytes of the fields after it: attr_valid, the nanoseconds of both, and the attributes.
const REST_LEN: usize = 104;

/// The length of the whole reply at the end of a listing that is not kept, in bytes: the header, and less than an entry.
const UNKEPT_END_LEN: u32 = 24;

/// The length in bytes of what stands behind that header.
const NO_ENTRY_LEN: usize = 8;

/// The length in bytes of these fields of `struct fuse_attr`: blocks, atime, mtime, ctime and their nanoseconds.
const BLOCKS_AND_TIMES_LEN: usize = 44;

/// The length in bytes of the fields after them: mode, nlink.
const MODE_AND_LINKS_LEN: usize = 8;

/// The length in bytes of the fields after those: uid, gid.
const OWNER_LEN: usize = 8;

/// The length in bytes of what stands between the seconds for which a reply may be kept and its blocks: their nanoseconds,
/// and `ino` and `size` of `struct fuse_attr`.
const NANOSECONDS_TO_SIZE_LEN: usize = 24;

/// Returns the reply with this `unique` that tells `answer`, of which the kernel may keep what `kept` says. A daemon tells
/// neither blocks nor times, no owner, and not how long the kernel may keep the reply. So they are put in: the blocks follow
/// from the size, and the others are those of the mount, `own`. Only a buffer that came by no frame takes memory.
pub fn tell_answer(
    alloc: Global,
    unique: u64,
    answer: Answer,
    kept: Kept,
    own: &MountAttributes,
) -> Result<MountReply, NoMemory>
    ensures text { IfOk result (λ reply. reply ≡ told_by kept unique answer own.now) }
    ensures lacks { OnErr result (is_buffer answer ≡ true) }
{
    let short = match kept {
        Kept::Absence if own.valid > 0 && is_absence(&answer) => tell_absence(unique, own.valid),
        Kept::Listing if own.valid == 0 && is_end(&answer) => tell_unkept_end(unique),
        Kept::NoListing if is_end(&answer) => tell_unkept_end(unique),
        Kept::Told | Kept::Absence | Kept::Listing | Kept::NoListing => {
            return tell_whole(alloc, unique, answer, own);
        }
    };
    Ok(MountReply::short(short))
}

/// Returns the reply with this `unique` that tells `answer`, with what is put in.
fn tell_whole(
    alloc: Global,
    unique: u64,
    answer: Answer,
    own: &MountAttributes,
) -> Result<MountReply, NoMemory>
    ensures text { IfOk result (λ reply. reply ≡ told_text unique answer own.now) }
    ensures lacks { OnErr result (is_buffer answer ≡ true) }
{
    match answer {
        Answer::Buffer(buffer) => tell_buffer(alloc, unique, buffer),
        answer => Ok(MountReply::short(tell_fixed(unique, answer, own))),
    }
}

/// Returns whether an `answer` says that a name is not there.
fn is_absence(answer: &Answer) -> bool
    ensures absence { result ≡ is_absence answer.now }
{
    matches!(answer, Answer::Error(Errno::ENOENT))
}

/// Returns the reply with this `unique` that a name is not there, which the kernel may keep for as many `seconds`.
#[tactic(auto, using(crate::proofs::Texts::texts))]
fn tell_absence(unique: u64, seconds: u64) -> ReplyBytes
    ensures text { result ≡ absence_text unique seconds }
{
    let mut reply = ReplyBytes::with_header(ENTRY_LEN, 0, unique);
    reply.put_zeros(NUMBERS_LEN);
    reply.put_u64(seconds);
    reply.put_zeros(REST_LEN);
    reply
}

/// Returns whether an `answer` has no bytes.
fn is_end(answer: &Answer) -> bool
    ensures end { result ≡ is_end answer.now }
{
    match answer {
        Answer::Buffer(buffer) => buffer.as_slice().is_empty(),
        _ => false,
    }
}

/// Returns the reply with this `unique` that a listing is at its end, which the kernel doesn't take for a whole one.
#[tactic(auto, using(crate::proofs::Texts::texts))]
fn tell_unkept_end(unique: u64) -> ReplyBytes
    ensures text { result ≡ unkept_end_text unique }
{
    let mut reply = ReplyBytes::with_header(UNKEPT_END_LEN, 0, unique);
    reply.put_zeros(NO_ENTRY_LEN);
    reply
}

/// Returns the reply with this `unique` that tells an answer which is a `buffer`.
#[tactic(auto, using(crate::proofs::Texts::texts))]
fn tell_buffer(alloc: Global, unique: u64, buffer: Buffer) -> Result<MountReply, NoMemory>
    ensures text { IfOk result (λ reply. reply ≡ reply_text (record { unique = unique; answer = ABuffer buffer })) }
{
    let len = ReplyBytes::HEADER_LEN + buffer.as_slice().len();
    let header = ReplyBytes::with_header(len as u32, 0, unique);
    let bytes = buffer.into_bytes().with_front(alloc, header.as_slice())?;
    Ok(MountReply::long(bytes))
}

/// Returns the reply with this `unique` that tells an answer of a fixed length.
#[tactic(auto, using(crate::proofs::Texts::texts))]
fn tell_fixed(unique: u64, answer: Answer, own: &MountAttributes) -> ReplyBytes
    requires fixed { is_buffer answer ≡ false }
    ensures text { result ≡ told_text unique answer own.now }
{
    let reply = Reply { unique, answer };
    let mut room = [0; MAX_REPLY_LEN];
    let len = write_reply(&reply, &mut room);
    let (text, _) = room.split_at(len);
    match attributes_told(&reply.answer) {
        Some(shown) => with_own(text, &shown, own),
        None => whole(text),
    }
}

/// Returns the reply with this `unique` that tells an error.
pub fn tell_error(unique: u64, errno: Errno) -> ReplyBytes
    ensures text { result ≡ error_text unique errno }
{
    tell_reply(&Reply {
        unique,
        answer: Answer::Error(errno),
    })
}

/// Returns the bytes of `reply`, which has no buffer, as a daemon writes them.
#[tactic(auto, using(crate::proofs::Texts::texts))]
pub(crate) fn tell_reply(reply: &Reply) -> ReplyBytes
    requires fixed { is_buffer reply.now.answer ≡ false }
    ensures text { result ≡ reply_text reply.now }
{
    let mut room = [0; MAX_REPLY_LEN];
    let len = write_reply(reply, &mut room);
    let (text, _) = room.split_at(len);
    whole(text)
}

/// Returns where a reply with this answer has attributes, if it has some.
fn attributes_told(answer: &Answer) -> Option<Shown>
    ensures shown { result ≡ attributes_told answer.now }
{
    match answer {
        Answer::Entry { attr, .. } | Answer::Opened { attr, .. } => Some(Shown {
            has_entry: true,
            size: attr.size,
        }),
        Answer::Attrs { attr, .. } => Some(Shown {
            has_entry: false,
            size: attr.size,
        }),
        Answer::Done | Answer::Buffer(_) | Answer::Extent(_) | Answer::Error(_) => None,
    }
}

/// Copies a reply's `text`.
fn whole(text: &[u8]) -> ReplyBytes
    requires short { length text.now ≤ 160 }
    ensures same { result ≡ text.now }
{
    let mut reply = ReplyBytes::new();
    reply.put(text);
    reply
}

/// Returns the offset of the seconds for which a reply may be kept.
fn validity_at(has_entry: bool) -> usize
    ensures { result ≡ validity_at has_entry }
{
    if has_entry { 32 } else { 16 }
}

/// Returns the length in bytes of these seconds.
fn validity_len(has_entry: bool) -> usize
    ensures { result ≡ validity_len has_entry }
{
    if has_entry { 16 } else { 8 }
}

/// Returns the offset of the blocks in a reply.
fn blocks_at(has_entry: bool) -> usize
    ensures { result ≡ blocks_at has_entry }
{
    if has_entry { 72 } else { 48 }
}

/// Appends for how many `seconds` the entry, if the reply has one, and the attributes may be kept.
fn put_validity(reply: &mut ReplyBytes, has_entry: bool, seconds: u64)
    requires room { length reply.old + 16 ≤ 160 }
    ensures put { reply.new ≡ reply.old ++ validity has_entry seconds }
    ensures len { length reply.new ≡ length reply.old + validity_len has_entry }
{
    if has_entry {
        reply.put_u64(seconds);
    }
    reply.put_u64(seconds);
}

/// Appends what stands before the blocks in a reply's `text`, with the `seconds` for which it may be kept.
#[tactic(auto, using(crate::proofs::Texts::texts))]
fn put_front(reply: &mut ReplyBytes, text: &[u8], has_entry: bool, seconds: u64)
    requires empty { length reply.old ≡ 0 }
    requires within { 76 ≤ length text.now }
    ensures put { reply.new ≡ reply.old ++ front_told text.now has_entry seconds }
    ensures len { length reply.new ≡ blocks_at has_entry }
{
    let (before, rest) = text.split_at(validity_at(has_entry));
    let (_, rest) = rest.split_at(validity_len(has_entry));
    let (nanoseconds_to_size, _) = rest.split_at(NANOSECONDS_TO_SIZE_LEN);
    reply.put(before);
    put_validity(reply, has_entry, seconds);
    reply.put(nanoseconds_to_size);
}

/// Copies a reply's `text`, in which the attributes that are `shown` get what the mount puts in.
#[tactic(auto, using(crate::proofs::Texts::texts))]
fn with_own(text: &[u8], shown: &Shown, own: &MountAttributes) -> ReplyBytes
    requires short { length text.now ≤ 160 }
    requires within { blocks_at shown.now.has_entry + 60 ≤ length text.now }
    ensures told { result ≡ with_own text.now shown.now own.now }
{
    let mut reply = ReplyBytes::new();
    put_front(&mut reply, text, shown.has_entry, own.valid);
    let (_, rest) = text.split_at(blocks_at(shown.has_entry));
    let (_, rest) = rest.split_at(BLOCKS_AND_TIMES_LEN);
    let (mode_and_links, rest) = rest.split_at(MODE_AND_LINKS_LEN);
    let (_, after) = rest.split_at(OWNER_LEN);
    put_blocks_and_times(&mut reply, shown.size, &own.since);
    reply.put(mode_and_links);
    put_owner(&mut reply, &own.owner);
    reply.put(after);
    reply
}

/// Appends the user and the group of an `owner`.
fn put_owner(reply: &mut ReplyBytes, owner: &FileOwner)
    requires room { length reply.old + 8 ≤ 160 }
    ensures put { reply.new ≡ reply.old ++ owner_text owner.now }
    ensures len { length reply.new ≡ length reply.old + 8 }
{
    reply.put_u32(owner.user);
    reply.put_u32(owner.group);
}

/// Appends how many blocks a file of this `size` has, and its times.
fn put_blocks_and_times(reply: &mut ReplyBytes, size: u64, since: &MountTime)
    requires room { length reply.old + 44 ≤ 160 }
    ensures put { reply.new ≡ reply.old ++ filled size since.now }
    ensures len { length reply.new ≡ length reply.old + 44 }
{
    reply.put_u64(size.div_ceil(BLOCK));
    reply.put_u64(since.seconds);
    reply.put_u64(since.seconds);
    reply.put_u64(since.seconds);
    reply.put_u32(since.nanoseconds);
    reply.put_u32(since.nanoseconds);
    reply.put_u32(since.nanoseconds);
}
