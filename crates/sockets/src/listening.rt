//! A socket that listens.
ghost use Rattle.std.specs.Prelude.{◌≡◌};
ghost use Rattle.std.specs.Time.{system_time_nanos};
ghost use Rattle.sockets.specs.Folders.{is_old};

use std::alloc::Global;
use std::fs::{self, DirBuilder, Permissions};
use std::io::{self, ErrorKind};
use std::net::Net;
use std::os::unix::fs::{DirBuilderExt, FileTypeExt, PermissionsExt};
use std::os::unix::net::{UnixListener, UnixStream};
use std::rt::{Clock, Files};
use std::time::{Duration, SystemTime};

/// How many folders of other processes may stand beside a socket.
const MOST_FOLDERS: usize = 64;

/// How old an empty folder is at least that a process left which is gone, in seconds. Who makes a folder listens there at
/// once.
const OLD: u64 = 60;

/// A socket that listens in a folder of its own, where nobody finds it yet.
#[derive(Drop)]
pub struct Hidden {
    listener: UnixListener,
    folder: String,
    name: String,
}

/// Listens at `path`, for this user alone. A socket that a process before left at `path` is replaced, and there is one at
/// every moment. Any other file at `path` is left alone, and is an error. A daemon takes the two steps one by one, since it
/// listens before it has the seat, and shows the socket once it has it.
pub fn listen_at<R: Files + Net + Clock>(
    rt: &R,
    alloc: Global,
    path: &str,
) -> io::Result<UnixListener> {
    Hidden::beside(rt, alloc, path)?.show(rt, path)
}

/// Listens at `path` as `listen_at` does, unless another process listens there: that is an error.
pub fn listen_alone_at<R: Files + Net + Clock>(
    rt: &R,
    alloc: Global,
    path: &str,
) -> io::Result<UnixListener> {
    if UnixStream::connect(rt, path).is_ok() {
        return Err(io::Error::from(ErrorKind::AddrInUse));
    }
    listen_at(rt, alloc, path)
}

/// Returns when the file at `path` was last changed. A socket that stands there is told from another one by that.
pub fn changed_at<R: Files>(rt: &R, path: &str) -> Option<SystemTime> {
    rt.symlink_metadata(path).ok()?.modified().ok()
}

/// Removes the socket at `path`, unless it is another one than that which was last changed at `changed`.
pub fn remove_unchanged<R: Files>(rt: &R, path: &str, changed: Option<SystemTime>) {
    if changed.is_some() && changed_at(rt, path) == changed {
        let _removed = fs::remove_file(rt, path);
    }
}

/// Checks that there is a socket or nothing at `path`, else returns an error.
fn check_place<R: Files>(rt: &R, path: &str) -> io::Result<()> {
    match rt.symlink_metadata(path) {
        Ok(found) if found.file_type().is_socket() => Ok(()),
        Ok(_other) => Err(io::Error::other("no socket")),
        Err(error) if error.kind() == ErrorKind::NotFound => Ok(()),
        Err(error) => Err(error),
    }
}

/// Makes a folder beside `path` that this user alone may enter, and returns the folder's name.
fn make_folder<R: Files>(rt: &R, alloc: Global, path: &str) -> io::Result<String> {
    for number in 1..=MOST_FOLDERS {
        let folder = format!(in alloc; "{path}.{number}")?;
        match DirBuilder::new().mode(0o700).create(rt, folder.as_str()) {
            Ok(()) => return Ok(folder),
            Err(error) if error.kind() == ErrorKind::AlreadyExists => {}
            Err(error) => return Err(error),
        }
    }
    Err(io::Error::from(ErrorKind::AlreadyExists))
}

/// Removes the folders beside `path` that processes left which are gone.
fn clear_folders<R: Files + Net + Clock>(rt: &R, alloc: Global, path: &str) -> io::Result<()> {
    for number in 1..=MOST_FOLDERS {
        let folder = format!(in alloc; "{path}.{number}")?;
        clear_left(rt, alloc, folder.as_str())?;
    }
    Ok(())
}

/// Removes `folder` if a process left it that is gone: nobody listens any more at the socket in it, or no socket is in it
/// though it is old.
fn clear_left<R: Files + Net + Clock>(rt: &R, alloc: Global, folder: &str) -> io::Result<()> {
    let name = format!(in alloc; "{folder}/s")?;
    match UnixStream::connect(rt, name.as_str()) {
        Err(error) if error.kind() == ErrorKind::ConnectionRefused => {
            let _removed = fs::remove_file(rt, name.as_str());
            let _removed = fs::remove_dir(rt, folder);
        }
        Err(error) if error.kind() == ErrorKind::NotFound => clear_empty(rt, folder),
        _ => {}
    }
    Ok(())
}

/// Removes `folder` if it is old and empty.
fn clear_empty<R: Files + Clock>(rt: &R, folder: &str) {
    if let (Some(changed), Ok(now)) = (changed_at(rt, folder), SystemTime::now(rt)) {
        if is_old(changed, now) {
            let _removed = fs::remove_dir(rt, folder);
        }
    }
}

/// Returns whether a folder is old at `now` that was changed last at `changed`.
fn is_old(changed: SystemTime, now: SystemTime) -> bool
    ensures old { result ≡ is_old (system_time_nanos changed) (system_time_nanos now) }
{
    match now.duration_since(changed) {
        Ok(age) => age.as_nanos() > Duration::from_secs(OLD).as_nanos(),
        Err(_later) => false,
    }
}

/// Listens at `name`, for this user alone.
fn bind_private<R: Files + Net>(rt: &R, name: &str) -> io::Result<UnixListener> {
    let listener = UnixListener::bind(rt, name)?;
    fs::set_permissions(rt, name, Permissions::from_mode(0o600))?;
    Ok(listener)
}

impl Hidden {
    /// Listens in a new folder beside `path`. So a failure to listen comes before anyone can find the socket.
    pub fn beside<R: Files + Net + Clock>(rt: &R, alloc: Global, path: &str) -> io::Result<Hidden> {
        check_place(rt, path)?;
        clear_folders(rt, alloc, path)?;
        let folder = make_folder(rt, alloc, path)?;
        match Hidden::within(rt, alloc, folder.as_str()) {
            Ok((name, listener)) => Ok(Hidden {
                listener,
                folder,
                name,
            }),
            Err(error) => {
                let _removed = fs::remove_dir(rt, folder.as_str());
                Err(error)
            }
        }
    }

    /// Listens in `folder`. If that fails, `folder` is left empty.
    fn within<R: Files + Net>(
        rt: &R,
        alloc: Global,
        folder: &str,
    ) -> io::Result<(String, UnixListener)> {
        let name = format!(in alloc; "{folder}/s")?;
        match bind_private(rt, name.as_str()) {
            Ok(listener) => Ok((name, listener)),
            Err(error) => {
                let _removed = fs::remove_file(rt, name.as_str());
                Err(error)
            }
        }
    }

    /// Moves the socket to `path`, where others find it. It replaces a socket that is there.
    pub fn show<R: Files>(self, rt: &R, path: &str) -> io::Result<UnixListener> {
        let shown = fs::rename(rt, self.name.as_str(), path);
        if shown.is_err() {
            let _removed = fs::remove_file(rt, self.name.as_str());
        }
        let _removed = fs::remove_dir(rt, self.folder.as_str());
        shown?;
        Ok(self.listener)
    }

    /// Removes the socket, which nobody could find, and its folder.
    pub fn remove<R: Files>(self, rt: &R) {
        let _removed = fs::remove_file(rt, self.name.as_str());
        let _removed = fs::remove_dir(rt, self.folder.as_str());
    }
}
