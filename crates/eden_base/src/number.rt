//! The inode numbers of the kernel, the ids of files in the checkout, and the numbers of daemons.

/// An inode number as the kernel holds it: what `linux/fuse.h` calls a nodeid. No file has number 0, which
/// is the default.
#[derive(Clone, Copy, Default, PartialEq, Eq)]
pub struct Number(pub u64);

impl Number {
    /// The root of the mount (`FUSE_ROOT_ID`), which the kernel holds without having looked it up.
    pub const ROOT: Number = Number(1);
}

/// The id of a file of the checkout, whatever number the kernel holds for that file.
#[derive(Clone, Copy, PartialEq, Eq)]
pub struct FileId(pub u64);

impl FileId {
    /// The id of the root directory, in every checkout.
    pub const ROOT: FileId = FileId(1);
}

/// The number of a daemon. Daemons are numbered from 1, in the order in which they start.
#[derive(Clone, Copy, PartialEq, Eq)]
pub struct DaemonId(pub u64);
