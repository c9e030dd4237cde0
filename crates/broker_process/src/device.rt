//! The kernel's end of a mount: `/dev/fuse`, and the commands that mount and unmount.
ghost use Rattle.std.specs.Prelude.{◌≡◌};
ghost use Rattle.broker_process.specs.Device.{Gives, ReadsDevice, failed_read, given_by, refused_by};

use crate::system_command::SystemCommand;
use mount_wire::FileOwner;
use std::alloc::Global;
use std::fs::{self, File, OpenOptions};
use std::io::{self, ErrorKind, Read, Write};
use std::os::unix::fs::MetadataExt;
use std::process::{Processes, Stdio};
use std::rt::Files;

/// The file by which a kernel and a file system talk.
pub const DEVICE: &str = "/dev/fuse";

/// The length of the buffer into which requests are read, in bytes. The longest request is a batch of forgets.
pub(crate) const BUFFER_LEN: usize = 128 * 1024;

/// The options of the mount: the device is the command's standard input, and every user may come in. The kernel checks
/// modes, and neither set-uid files nor device files have an effect. The root is a directory, whose mode and owner the
/// kernel asks for before it lets anybody in. A READ asks for at most 61,440 bytes, which are fifteen pages: its answer
/// fits a frame (`Buffer::MAX_LEN`). A kernel that got fewer bytes than it asked for would take the file to end there.
const OPTIONS: &str = "fd=0,rootmode=40000,user_id=0,group_id=0,max_read=61440,allow_other,\
    default_permissions,nosuid,nodev";

/// The folder of this process, which belongs to its user and its group (`proc(5)`).
const OWN_FOLDER: &str = "/proc/self";

/// The error number of a device whose mount is gone.
const ENODEV: i32 = 19;

/// The error number of a request that was withdrawn before it was read.
const ENOENT: i32 = 2;

/// The error number of a call that was interrupted.
const EINTR: i32 = 4;

/// The error number of a file in a mount that is dead.
const ENOTCONN: i32 = 107;

/// What a read of the device gives.
pub(crate) enum DeviceRead<'b> {
    /// A message of the kernel.
    Message(&'b [u8]),
    /// The call is to be made again: it was interrupted, or the request was withdrawn.
    Again,
    /// Someone unmounted.
    Unmounted,
    /// The device can't be read.
    Broken(io::Error),
}

/// What became of a reply that was written to the device.
#[derive(Clone, Copy)]
pub(crate) enum Given {
    /// The kernel took it.
    Taken,
    /// The kernel wants it no more: the request was withdrawn, or the mount is gone.
    Withdrawn,
    /// The device refused it, and the request may wait for another one.
    Refused(io::Error),
}

/// Opens the device for reading and writing.
pub(crate) fn open_device<R: Files<File = File>>(rt: &R) -> io::Result<File> {
    OpenOptions::new().read(true).write(true).open(rt, DEVICE)
}

/// Returns the user and the group of this process.
pub(crate) fn own_user<R: Files>(rt: &R) -> io::Result<FileOwner> {
    let folder = fs::metadata(rt, OWN_FOLDER)?;
    Ok(FileOwner {
        user: folder.uid(),
        group: folder.gid(),
    })
}

/// Mounts at `mountpoint` what `device` serves, by the name `source`. The command that mounts says on standard error why
/// it can't.
pub(crate) fn mount<R: Processes>(
    rt: &R,
    alloc: Global,
    device: &File,
    source: &str,
    mountpoint: &str,
) -> io::Result<()> {
    let command = SystemCommand {
        program: "mount",
        words: &["-i", "-t", "fuse", "-o", OPTIONS, source, mountpoint],
        is_quiet: false,
    };
    let input = device.try_clone()?;
    let output = command.run(rt, alloc, Stdio::from(input))?;
    if output.status.success() {
        return Ok(());
    }
    Err(io::Error::from(ErrorKind::Other))
}

/// What finds a mount at a path that another broker of this program serves: the process whose number is in the mount's
/// source still runs. The path's last name is not looked at, since that look may wait for a daemon.
const FIND_LIVING: &str = "cd -P -- \"$(dirname -- \"$1\")\" || exit 0
! findmnt -cno SOURCE -M \"$PWD/$(basename -- \"$1\")\" | sed -n 's/^ *edend-\\([0-9]*\\)-.*/\\1/p' |
while read -r number; do kill -0 \"$number\" && echo \"$number\"; done | grep -q .";

/// Checks that a mount can be made at `mountpoint`: it is a directory, and none of this program's mounts stands there
/// that lives. What is dead there is unmounted.
pub(crate) fn check_place<R: Processes + Files>(
    rt: &R,
    alloc: Global,
    mountpoint: &str,
) -> io::Result<()> {
    let find_living = SystemCommand {
        program: "sh",
        words: &["-c", FIND_LIVING, "sh", mountpoint],
        is_quiet: true,
    };
    if !find_living.succeeds(rt, alloc)? {
        return Err(io::Error::from(ErrorKind::ResourceBusy));
    }
    clear_dead_mount(rt, alloc, mountpoint)?;
    if fs::metadata(rt, mountpoint)?.is_dir() {
        return Ok(());
    }
    Err(io::Error::from(ErrorKind::NotADirectory))
}

/// Unmounts what is dead at `mountpoint`, if something is. A mount that lives is left alone.
pub(crate) fn clear_dead_mount<R: Processes + Files>(
    rt: &R,
    alloc: Global,
    mountpoint: &str,
) -> io::Result<()> {
    match fs::metadata(rt, mountpoint) {
        Err(error) if error.raw_os_error() == Some(ENOTCONN) => {}
        _ => return Ok(()),
    }
    let command = SystemCommand {
        program: "umount",
        words: &["-i", "-l", mountpoint],
        is_quiet: false,
    };
    let _succeeds = command.succeeds(rt, alloc)?;
    Ok(())
}

/// Reads the next message of the kernel from `device` into `buffer`.
pub(crate) fn read_device<'b, D: Read>(device: &mut D, buffer: &'b mut [u8]) -> DeviceRead<'b>
    ensures reads { ReadsDevice (D.remaining device.old) (D.remaining device.new) result }
{
    match device.read(buffer) {
        Ok(len) => {
            let (message, _) = buffer.split_at(len);
            DeviceRead::Message(message)
        }
        Err(error) => failed_read(error),
    }
}

/// Returns what a read of the device says that failed with `error`.
fn failed_read<'b>(error: io::Error) -> DeviceRead<'b>
    ensures failed { result ≡ failed_read error }
{
    match error.raw_os_error() {
        Some(EINTR | ENOENT) => DeviceRead::Again,
        Some(ENODEV) => DeviceRead::Unmounted,
        _ => DeviceRead::Broken(error),
    }
}

/// Writes a reply to the kernel by one call, and returns what became of it.
pub(crate) fn give<D: Write>(device: &mut D, reply: &[u8]) -> Given
    ensures gives { Gives reply.now result (D.contents device.old) (D.contents device.new) }
{
    given_by(device.write(reply))
}

/// Returns what became of a reply, by the result of its write.
fn given_by(written: io::Result<usize>) -> Given
    ensures given { result ≡ given_by written }
{
    match written {
        Ok(_len) => Given::Taken,
        Err(error) => refused_by(error),
    }
}

/// Returns what became of a reply whose write failed with `error`.
fn refused_by(error: io::Error) -> Given
    ensures given { result ≡ refused_by error }
{
    match error.raw_os_error() {
        Some(ENOENT) => Given::Withdrawn,
        _ => Given::Refused(error),
    }
}
