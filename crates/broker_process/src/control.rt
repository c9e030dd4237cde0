//! The end of a mount's connection, which the kernel does at once, wherever the mount stands by then.
use crate::system_command::SystemCommand;
use std::alloc::Global;
use std::fs::{File, OpenOptions};
use std::io::{self, Write};
use std::process::{Processes, Stdio};
use std::rt::Files;
use std::str;

/// Where the kernel shows a folder for each connection (`Documentation/filesystems/fuse.rst` of Linux).
const CONNECTIONS: &str = "/sys/fs/fuse/connections";

/// The control file of one mount's connection.
#[derive(Drop)]
pub(crate) struct Control {
    /// What is written to it ends the connection. It is none where the system shows no such file.
    abort: Option<File>,
}

impl Control {
    /// Opens the control file of the mount that the system's table has by the name `source`.
    pub(crate) fn open<R: Files<File = File> + Processes>(
        rt: &R,
        alloc: Global,
        source: &str,
    ) -> Control {
        Control {
            abort: open_abort(rt, alloc, source),
        }
    }

    /// Ends the connection: programs that wait in the mount get an error, and a read of the device fails with ENODEV.
    /// Where the system shows no control file, a child looks at `mountpoint`, so that the kernel asks for something.
    pub(crate) fn end<R: Processes>(&mut self, rt: &R, alloc: Global, mountpoint: &str) {
        let is_ended = match &mut self.abort {
            Some(abort) => abort.write(b"1\n").is_ok(),
            None => false,
        };
        if !is_ended {
            let _looks = look_from_a_child(rt, alloc, mountpoint);
        }
    }
}

/// Opens the file by which the connection of a mount is ended, or returns none if there is none.
fn open_abort<R: Files<File = File> + Processes>(
    rt: &R,
    alloc: Global,
    source: &str,
) -> Option<File> {
    let device = device_of(rt, alloc, source).ok()?;
    let text = str::from_utf8(device.as_slice()).ok()?;
    let (_major, number) = text.trim().split_once(':')?;
    let path = format!(in alloc; "{CONNECTIONS}/{number}/abort").ok()?;
    let mut options = OpenOptions::new();
    options.write(true);
    if let Ok(file) = options.open(rt, path.as_str()) {
        return Some(file);
    }
    show_connections(rt, alloc).ok()?;
    options.open(rt, path.as_str()).ok()
}

/// Returns the numbers of the device that a mount is, as `findmnt` prints them: `0:53` with spaces round it.
fn device_of<R: Processes>(rt: &R, alloc: Global, source: &str) -> io::Result<Vec<u8>> {
    let command = SystemCommand {
        program: "findmnt",
        words: &["-cno", "MAJ:MIN", "-S", source],
        is_quiet: true,
    };
    Ok(command.run(rt, alloc, Stdio::null())?.stdout)
}

/// Mounts the kernel's file system of connections, as some systems do only at need.
fn show_connections<R: Processes>(rt: &R, alloc: Global) -> io::Result<()> {
    let command = SystemCommand {
        program: "mount",
        words: &["-t", "fusectl", "fusectl", CONNECTIONS],
        is_quiet: true,
    };
    let _succeeds = command.succeeds(rt, alloc)?;
    Ok(())
}

/// Starts a child that looks at `mountpoint`. Nobody waits for it, since that look may wait for long.
fn look_from_a_child<R: Processes>(rt: &R, alloc: Global, mountpoint: &str) -> io::Result<()> {
    let command = SystemCommand {
        program: "stat",
        words: &["--", mountpoint],
        is_quiet: true,
    };
    let _child = command.start(rt, alloc, Stdio::null())?;
    Ok(())
}
