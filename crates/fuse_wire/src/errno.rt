//! The error of a reply's header.
ghost use Rattle.std.specs.Prelude.{◌≡◌, ◌≤◌, pos};
ghost use Rattle.fuse_wire.specs.ReplyText.{errno_number, error_field};
ghost use Rattle.fuse_wire.specs.ReplyReading.{errno_of};

use crate::Answer;
use eden_base::Errno;

/// Returns the error field of a reply's header: 0, or the negative error number. An extent has no bytes to tell, so it
/// is told as EIO.
pub(crate) fn error_field(answer: &Answer) -> i32
    ensures { result ≡ error_field answer.now }
{
    match answer {
        Answer::Error(errno) => -errno_number(*errno),
        Answer::Extent(_) => -errno_number(Errno::EIO),
        _ => 0,
    }
}

/// Returns an error's number, as `errno.h` has it on Linux.
fn errno_number(errno: Errno) -> i32
    ensures number { result ≡ pos (errno_number errno) }
    ensures at_most { errno_number errno ≤ 116 }
{
    match errno {
        Errno::ENOENT => 2,
        Errno::EIO => 5,
        Errno::ENOMEM => 12,
        Errno::EEXIST => 17,
        Errno::ENOTDIR => 20,
        Errno::EISDIR => 21,
        Errno::EINVAL => 22,
        Errno::ENOSPC => 28,
        Errno::ENAMETOOLONG => 36,
        Errno::ENOSYS => 38,
        Errno::ENOTEMPTY => 39,
        Errno::EOVERFLOW => 75,
        Errno::ESTALE => 116,
    }
}

/// Returns the error of a reply's error field, or none if the field is no negative error number.
pub(crate) fn errno_of(error: i32) -> Option<Errno>
    ensures { result ≡ errno_of error }
{
    match error {
        -2 => Some(Errno::ENOENT),
        -5 => Some(Errno::EIO),
        -12 => Some(Errno::ENOMEM),
        -17 => Some(Errno::EEXIST),
        -20 => Some(Errno::ENOTDIR),
        -21 => Some(Errno::EISDIR),
        -22 => Some(Errno::EINVAL),
        -28 => Some(Errno::ENOSPC),
        -36 => Some(Errno::ENAMETOOLONG),
        -38 => Some(Errno::ENOSYS),
        -39 => Some(Errno::ENOTEMPTY),
        -75 => Some(Errno::EOVERFLOW),
        -116 => Some(Errno::ESTALE),
        _ => None,
    }
}
