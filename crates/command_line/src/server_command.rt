//! What words may ask for beside a script: to start a process that serves over sockets.
use crate::Owner;

/// A command that starts a process which serves over sockets.
#[derive(Clone, Copy)]
pub enum ServerCommand<'a> {
    Broker(BrokerWords<'a>),
    Daemon(DaemonWords<'a>),
    Mount(MountWords<'a>),
}

/// The words of `broker`.
#[derive(Clone, Copy)]
pub struct BrokerWords<'a> {
    /// The path of the socket at which the broker listens.
    pub socket: &'a str,
    /// The path of a broker's script, or `-` for standard input.
    pub script: &'a str,
}

/// How a daemon comes to serve.
#[derive(Clone, Copy, Debug, PartialEq, Eq)]
pub enum StartMode {
    /// It mounts.
    Mount,
    /// It takes over from the daemon that listens.
    Takeover,
}

/// The words of `daemon`.
#[derive(Clone, Copy)]
pub struct DaemonWords<'a> {
    pub start: StartMode,
    /// The path of the broker's socket.
    pub broker: &'a str,
    /// The path of the socket at which the daemon listens for its successor.
    pub takeover: &'a str,
    /// The path of a manifest, or `-` for standard input, where no repository is named.
    pub manifest: &'a str,
    /// How many threads serve, from 1 to 16.
    pub workers: usize,
    /// How many files are kept loaded, from 1 to 65,536.
    pub limit: usize,
    /// For how many milliseconds a peer may be silent, from 1 to 600,000.
    pub patience: u64,
    /// Whether the daemon ends when standard input ends.
    pub until_closed: bool,
    /// The path of a directory with the contents of files; empty if no directory is named.
    pub files: &'a str,
    /// The path of a git repository; empty if none is named.
    pub git: &'a str,
    /// The commit of the repository that is served.
    pub commit: &'a str,
    /// How many megabytes of contents are kept of the repository, from 1 to 1,048,576.
    pub cache: u64,
}

/// The words of `mount`.
#[derive(Clone, Copy)]
pub struct MountWords<'a> {
    /// The path of the directory at which the checkout is mounted.
    pub mountpoint: &'a str,
    /// The path of the socket at which daemons reach the broker.
    pub socket: &'a str,
    /// The path of a file for what the kernel holds at each takeover; empty if no file is asked for.
    pub held: &'a str,
    /// Who owns each file; none if the words don't say.
    pub owner: Option<Owner>,
    /// For how many seconds the kernel may keep what it is told, from 0 to 86,400.
    pub valid: u64,
}
