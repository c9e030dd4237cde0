//! The error numbers of `errno.h` with which a daemon answers.
ghost use Rattle.std.specs.Prelude.{◌≡◌};
ghost use Rattle.eden_base.specs.Words.{errno_name};

/// Why a request failed, as the kernel passes it on to the program that asked.
#[derive(Clone, Copy, PartialEq, Eq)]
pub enum Errno {
    /// The directory has no such name.
    ENOENT,
    /// The backing of the checkout failed.
    EIO,
    /// Out of memory.
    ENOMEM,
    /// The name is taken.
    EEXIST,
    /// A directory is needed, and the file is none.
    ENOTDIR,
    /// The file is a directory, and none is allowed here.
    EISDIR,
    /// The request has no meaning.
    EINVAL,
    /// No number is left to give.
    ENOSPC,
    /// The name is longer than 255 bytes.
    ENAMETOOLONG,
    /// No such request is served.
    ENOSYS,
    /// The directory is not empty.
    ENOTEMPTY,
    /// The count of a number is at its limit.
    EOVERFLOW,
    /// The number names nothing.
    ESTALE,
}

impl Errno {
    /// Returns the name of `self` in `errno.h`.
    pub fn name(self) -> &'static str
        ensures name { result.now ≡ errno_name self }
    {
        match self {
            Errno::ENOENT => "ENOENT",
            Errno::EIO => "EIO",
            Errno::ENOMEM => "ENOMEM",
            Errno::EEXIST => "EEXIST",
            Errno::ENOTDIR => "ENOTDIR",
            Errno::EISDIR => "EISDIR",
            Errno::EINVAL => "EINVAL",
            Errno::ENOSPC => "ENOSPC",
            Errno::ENAMETOOLONG => "ENAMETOOLONG",
            Errno::ENOSYS => "ENOSYS",
            Errno::ENOTEMPTY => "ENOTEMPTY",
            Errno::EOVERFLOW => "EOVERFLOW",
            Errno::ESTALE => "ESTALE",
        }
    }
}
