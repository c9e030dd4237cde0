//! The lengths of the parts of a message, in bytes, and their offsets.

/// The length of the end of `struct fuse_in_header`: uid, gid, pid, padding.
pub(crate) const SENDER_LEN: usize = 16;

/// The length of a mode.
pub(crate) const MODE_LEN: usize = 4;

/// The offset of the mode in `struct fuse_create_in`: flags, mode, umask, open_flags.
pub(crate) const CREATE_MODE: usize = 4;

/// The length of the end of `struct fuse_create_in`, after the mode: umask, open_flags.
pub(crate) const CREATE_REST_LEN: usize = 8;

/// The offset of the mode in `struct fuse_mkdir_in`: mode, umask.
pub(crate) const MKDIR_MODE: usize = 0;

/// The length of the end of `struct fuse_mkdir_in`, after the mode: umask.
pub(crate) const MKDIR_REST_LEN: usize = 4;

/// The length of `struct fuse_rename_in`: newdir.
pub(crate) const RENAME_FIXED: usize = 8;

/// The offset of the offset in `struct fuse_read_in`, behind fh.
pub(crate) const RANGE_OFFSET: usize = 8;

/// The length of the end of `struct fuse_read_in`, after the size: read_flags, lock_owner, flags, padding.
pub(crate) const RANGE_REST_LEN: usize = 20;

/// The length of `struct fuse_read_in`, which READDIR has, too: fh, offset, size, and the rest.
pub(crate) const RANGE_LEN: usize = 40;

/// The length of `struct fuse_getattr_in`: getattr_flags, dummy, fh.
pub(crate) const GETATTR_LEN: usize = 16;

/// The length of `struct fuse_forget_in`: nlookup.
pub(crate) const FORGET_LEN: usize = 8;

/// The length of `struct fuse_batch_forget_in`: count, dummy.
pub(crate) const BATCH_FIXED: usize = 8;

/// The length of the end of `struct fuse_batch_forget_in`, after the count: dummy.
pub(crate) const BATCH_REST_LEN: usize = 4;

/// The length of `struct fuse_out_header`: len, error, unique.
pub(crate) const REPLY_HEADER_LEN: usize = 16;

/// The offset of the unique in `struct fuse_out_header`, behind len and error.
pub(crate) const UNIQUE: usize = 8;

/// The length of `struct fuse_entry_out`: nodeid, generation, how long it may be kept, attr.
pub(crate) const ENTRY_LEN: usize = 128;

/// The length of the middle of `struct fuse_entry_out`: generation, and how long the entry and its attributes may be
/// kept.
pub(crate) const VALID_LEN: usize = 32;

/// The length of `struct fuse_open_out`: fh, open_flags, padding.
pub(crate) const OPEN_LEN: usize = 16;

/// The length of the start of `struct fuse_attr_out`: how long the attributes may be kept, and a padding.
pub(crate) const ATTR_VALID_LEN: usize = 16;

/// The length of `struct fuse_attr`, from ino to flags.
pub(crate) const ATTRIBUTES_LEN: usize = 88;

/// The length of these fields of `struct fuse_attr`: blocks, atime, mtime, ctime and their nanoseconds.
pub(crate) const BLOCKS_AND_TIMES_LEN: usize = 44;

/// The length of these fields of `struct fuse_attr`: uid, gid, rdev.
pub(crate) const OWNERS_LEN: usize = 12;

/// The length of this field of `struct fuse_attr`: flags.
pub(crate) const FLAGS_LEN: usize = 4;

/// The length of a whole reply whose answer is `Answer::Done`.
pub(crate) const DONE_REPLY_LEN: usize = REPLY_HEADER_LEN;

/// The length of a whole reply whose answer is `Answer::Attrs`.
pub(crate) const ATTRS_REPLY_LEN: usize = REPLY_HEADER_LEN + ATTR_VALID_LEN + ATTRIBUTES_LEN;

/// The offset of the attributes in a reply whose answer is `Answer::Attrs`.
pub(crate) const ATTRS_REPLY_ATTRIBUTES: usize = REPLY_HEADER_LEN + ATTR_VALID_LEN;

/// The length of a whole reply whose answer is `Answer::Entry`.
pub(crate) const ENTRY_REPLY_LEN: usize = REPLY_HEADER_LEN + ENTRY_LEN;

/// The length of a whole reply whose answer is `Answer::Opened`.
pub(crate) const OPENED_REPLY_LEN: usize = REPLY_HEADER_LEN + ENTRY_LEN + OPEN_LEN;

/// The offset of the attributes in a reply whose answer is `Answer::Entry` or `Answer::Opened`.
pub(crate) const ENTRY_REPLY_ATTRIBUTES: usize = REPLY_HEADER_LEN + ENTRY_LEN - ATTRIBUTES_LEN;

/// The `blksize` in the attributes of every file.
pub(crate) const BLOCK_SIZE: u32 = 4096;

/// The length of `struct fuse_dirent` before the name (`FUSE_NAME_OFFSET`): ino, off, namelen, type.
pub(crate) const DIRENT_FIXED: usize = 24;

/// The length of an entry of a directory is a multiple of this one (`FUSE_DIRENT_ALIGN`).
pub(crate) const DIRENT_ALIGN: usize = 8;
