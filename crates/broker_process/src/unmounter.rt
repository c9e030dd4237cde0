//! A child that unmounts what a broker left mounted, whatever ended the broker.
use crate::system_command::SystemCommand;
use mount_wire::FileOwner;
use std::alloc::{AllocError, Global};
use std::io;
use std::process::{Child, OpenProcess, Processes, Stdio};

/// What the child does. Its input is a pipe whose end comes with the broker's own. Then it unmounts lazily each mount
/// whose source has its number: `umount` finds a mount by that, wherever it was moved. It ignores the signals that a
/// service manager sends to each process of a service.
const SCRIPT: &str = "trap '' HUP INT TERM
cd /
cat >/dev/null
sed -n \"s/.* - fuse \\(edend-$$-[0-9]*\\) .*/\\1/p\" /proc/self/mountinfo |
while read -r source; do umount -il \"$source\"; done";

/// The child, and the pipe to it, which is open for as long as this process runs.
#[derive(Drop)]
pub(crate) struct Unmounter<P: OpenProcess + Drop> {
    child: Child<P>,
}

impl<P: OpenProcess + Drop> Unmounter<P> {
    /// Starts the child, in a session of its own: a signal to the broker's group of processes leaves it alone.
    pub(crate) fn start<R: Processes<Started = P>>(
        rt: &R,
        alloc: Global,
    ) -> io::Result<Unmounter<P>> {
        let command = SystemCommand {
            program: "setsid",
            words: &["sh", "-c", SCRIPT],
            is_quiet: true,
        };
        let child = command.start(rt, alloc, Stdio::piped())?;
        Ok(Unmounter { child })
    }

    /// Returns the number of the child, which no other process has while this one runs.
    pub(crate) fn number(&self) -> u32 {
        self.child.id()
    }
}

/// Where a broker mounts, and whose the files are.
#[derive(Clone, Copy)]
pub(crate) struct MountPoint<'a> {
    /// The path of the directory at which it is mounted.
    pub path: &'a str,
    /// The number of the child that unmounts what is left here.
    pub unmounter: u32,
    /// Who owns each file.
    pub owner: FileOwner,
    /// For how many seconds the kernel may keep what it is told.
    pub valid: u64,
}

impl MountPoint<'_> {
    /// Returns the name that the mount for the seat at `generation` has in the system's table. No other mount has it.
    pub(crate) fn source(&self, alloc: Global, generation: u64) -> Result<String, AllocError> {
        let child = self.unmounter;
        format!(in alloc; "edend-{child}-{generation}")
    }
}
