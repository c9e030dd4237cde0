//! The options of a daemon, and what it serves.
use git_tree::Objects;
use manifest::Manifest;
use std::time::Duration;

/// How a daemon begins.
#[derive(Clone, Copy, PartialEq, Eq)]
pub enum DaemonStart {
    /// It mounts.
    Mount,
    /// It takes over from the daemon that listens at the path `takeover`.
    Takeover,
}

/// The options of a daemon.
#[derive(Clone, Copy)]
pub struct DaemonOptions<'a> {
    pub start: DaemonStart,
    /// The path of the broker's socket.
    pub broker: &'a str,
    /// The path of the socket at which the next daemon reaches this one.
    pub takeover: &'a str,
    /// How many workers serve, from 1 to 16.
    pub workers: usize,
    /// How many files it keeps loaded, at least 1.
    pub limit: usize,
    /// How long another daemon may be silent in a takeover. Once this daemon handed the data over, ten times as long.
    pub patience: Duration,
    /// Whether it ends when standard input ends, which it reads then.
    pub until_closed: bool,
}

/// Where the contents of a manifest's files come from.
#[derive(Drop)]
pub enum ContentsSource<'a> {
    /// They aren't served.
    None,
    /// A directory, by its path.
    Directory(&'a str),
    /// A git repository.
    Repository(RepositorySource<'a>),
}

/// A git repository with the contents of a manifest's files.
#[derive(Drop)]
pub struct RepositorySource<'a> {
    pub path: &'a str,
    /// The object of each file.
    pub names: Objects,
    /// How many bytes of contents are kept at most.
    pub bound: u64,
}

/// The files that a daemon serves, and where their contents come from.
#[derive(Drop)]
pub struct DaemonTree<'a> {
    pub manifest: Manifest,
    pub contents: ContentsSource<'a>,
}
