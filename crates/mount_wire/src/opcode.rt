//! The opcodes of requests, as `enum fuse_opcode` of `linux/fuse.h` numbers them.

pub(crate) const OPEN: u32 = 14;

pub(crate) const STATFS: u32 = 17;

pub(crate) const RELEASE: u32 = 18;

pub(crate) const FSYNC: u32 = 20;

pub(crate) const FLUSH: u32 = 25;

pub(crate) const INIT: u32 = 26;

pub(crate) const OPENDIR: u32 = 27;

pub(crate) const RELEASEDIR: u32 = 29;

pub(crate) const FSYNCDIR: u32 = 30;

pub(crate) const ACCESS: u32 = 34;

pub(crate) const INTERRUPT: u32 = 36;

pub(crate) const DESTROY: u32 = 38;

pub(crate) const BATCH_FORGET: u32 = 42;
