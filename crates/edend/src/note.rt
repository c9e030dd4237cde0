//! The command that words ask for, noted until it is run.
ghost use Rattle.std.specs.Prelude.{◌≡◌, IfSome, string_bytes};
ghost use Rattle.edend.specs.Note.{IsBroker, IsDaemon, IsMount, IsNoted, Notes};

use std::alloc::Global;
use std::io::Write;
use world_script::{
    BrokerWords, CommandHandler, DaemonWords, Failure, MountWords, Owner, ProgramFault,
    ServerCommand, Sources, StartMode,
};

/// The words of a broker, with owned strings in place of borrowed ones.
#[derive(Drop)]
pub struct NotedBroker {
    pub socket: String,
    pub script: String,
}

/// The words of a daemon, with owned strings in place of borrowed ones.
#[derive(Drop)]
pub struct NotedDaemon {
    pub start: StartMode,
    pub broker: String,
    pub takeover: String,
    pub manifest: String,
    pub workers: usize,
    pub limit: usize,
    pub patience: u64,
    pub until_closed: bool,
    pub files: String,
    pub git: String,
    pub commit: String,
    pub cache: u64,
}

/// The words of a mount, with owned strings in place of borrowed ones.
#[derive(Drop)]
pub struct NotedMount {
    pub mountpoint: String,
    pub socket: String,
    pub held: String,
    pub owner: Option<Owner>,
    pub valid: u64,
}

/// A command, with owned strings in place of borrowed ones.
#[derive(Drop)]
pub enum Noted {
    Broker(NotedBroker),
    Daemon(NotedDaemon),
    Mount(NotedMount),
}

/// Notes commands in place of running them, and keeps the last one. A trait's method can't start threads that share the
/// runtime. So a noted command is run after the words were answered.
#[derive(Drop)]
pub struct Note {
    pub command: Option<Noted>,
}

/// Copies `text`, and returns none if memory is refused.
fn copied(alloc: Global, text: &str) -> Option<String>
    ensures same { IfSome result (λ copy. string_bytes copy ≡ text.now) }
{
    format!(in alloc; "{text}").ok()
}

impl NotedBroker {
    /// Copies the words of a broker.
    fn of(alloc: Global, words: &BrokerWords<'_>) -> Option<NotedBroker>
        ensures same { IfSome result (λ noted. IsBroker noted words.now) }
    {
        let socket = copied(alloc, words.socket)?;
        let script = copied(alloc, words.script)?;
        Some(NotedBroker { socket, script })
    }

    /// Returns the words.
    pub fn words(&self) -> BrokerWords<'_>
        ensures same { IsBroker self.now result }
    {
        BrokerWords {
            socket: self.socket.as_str(),
            script: self.script.as_str(),
        }
    }
}

impl NotedDaemon {
    /// Copies the words of a daemon.
    fn of(alloc: Global, words: &DaemonWords<'_>) -> Option<NotedDaemon>
        ensures same { IfSome result (λ noted. IsDaemon noted words.now) }
    {
        let broker = copied(alloc, words.broker)?;
        let takeover = copied(alloc, words.takeover)?;
        let manifest = copied(alloc, words.manifest)?;
        let files = copied(alloc, words.files)?;
        let git = copied(alloc, words.git)?;
        let commit = copied(alloc, words.commit)?;
        Some(NotedDaemon {
            start: words.start,
            broker,
            takeover,
            manifest,
            workers: words.workers,
            limit: words.limit,
            patience: words.patience,
            until_closed: words.until_closed,
            files,
            git,
            commit,
            cache: words.cache,
        })
    }

    /// Returns the words.
    pub fn words(&self) -> DaemonWords<'_>
        ensures same { IsDaemon self.now result }
    {
        DaemonWords {
            start: self.start,
            broker: self.broker.as_str(),
            takeover: self.takeover.as_str(),
            manifest: self.manifest.as_str(),
            workers: self.workers,
            limit: self.limit,
            patience: self.patience,
            until_closed: self.until_closed,
            files: self.files.as_str(),
            git: self.git.as_str(),
            commit: self.commit.as_str(),
            cache: self.cache,
        }
    }
}

impl NotedMount {
    /// Copies the words of a mount.
    fn of(alloc: Global, words: &MountWords<'_>) -> Option<NotedMount>
        ensures same { IfSome result (λ noted. IsMount noted words.now) }
    {
        let mountpoint = copied(alloc, words.mountpoint)?;
        let socket = copied(alloc, words.socket)?;
        let held = copied(alloc, words.held)?;
        Some(NotedMount {
            mountpoint,
            socket,
            held,
            owner: words.owner,
            valid: words.valid,
        })
    }

    /// Returns the words.
    pub fn words(&self) -> MountWords<'_>
        ensures same { IsMount self.now result }
    {
        MountWords {
            mountpoint: self.mountpoint.as_str(),
            socket: self.socket.as_str(),
            held: self.held.as_str(),
            owner: self.owner,
            valid: self.valid,
        }
    }
}

impl Noted {
    /// Copies `command`, and returns none if memory is refused.
    fn of(alloc: Global, command: &ServerCommand<'_>) -> Option<Noted>
        ensures same { IfSome result (λ noted. IsNoted noted command.now) }
    {
        match command {
            ServerCommand::Broker(words) => Some(Noted::Broker(NotedBroker::of(alloc, words)?)),
            ServerCommand::Daemon(words) => Some(Noted::Daemon(NotedDaemon::of(alloc, words)?)),
            ServerCommand::Mount(words) => Some(Noted::Mount(NotedMount::of(alloc, words)?)),
        }
    }

    /// Returns the command.
    pub fn command(&self) -> ServerCommand<'_>
        ensures same { IsNoted self.now result }
    {
        match self {
            Noted::Broker(noted) => ServerCommand::Broker(noted.words()),
            Noted::Daemon(noted) => ServerCommand::Daemon(noted.words()),
            Noted::Mount(noted) => ServerCommand::Mount(noted.words()),
        }
    }
}

impl CommandHandler for Note {
    ghost ends = { Notes };

    fn run<'a, S: Sources, W: Write>(
        &mut self,
        alloc: Global,
        _sources: &S,
        command: &ServerCommand<'a>,
        _out: &mut W,
    ) -> Result<(), Failure<'a>> {
        let Some(noted) = Noted::of(alloc, command) else {
            return Err(Failure::plain(ProgramFault::NoMemory));
        };
        self.command = Some(noted);
        Ok(())
    }
}
