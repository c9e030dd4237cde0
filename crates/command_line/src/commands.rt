//! The commands that the program has, as `clap` reads them.
ghost use Rattle.std.specs.Prelude.{◌≡◌, false, IfOk};
ghost use Rattle.clap.specs.Words.{app_of, rule_of};
ghost use Rattle.command_line.specs.CommandLine.{IsReadAs, broker_app, cache_rule, daemon_app, edend_app, files_rule, flag_rule, git_rule, held_rule, limit_rule, manifest_rule, mount_app, owner_rule, patience_rule, valid_rule, word_rule, workers_rule, world_app};

use clap::builder::ValueParser;
use clap::{Arg, ArgAction, Command};
use std::alloc::{AllocError, Global};

pub const WORLD: &str = "world";

pub const BROKER: &str = "broker";

pub const DAEMON: &str = "daemon";

pub const SCRIPT: &str = "SCRIPT";

pub const SOCKET: &str = "SOCKET";

pub const MOUNTPOINT: &str = "MOUNTPOINT";

pub const HELD: &str = "held";

pub const OWNER: &str = "owner";

pub const VALID: &str = "valid";

/// A command, and an option of `daemon`.
pub const MOUNT: &str = "mount";

pub const TAKEOVER: &str = "takeover";

/// The name of an argument: the socket by which a daemon reaches the broker.
pub const BROKER_SOCKET: &str = "BROKER";

/// The name of an argument: the socket at which a daemon listens for the next daemon.
pub const LISTEN_SOCKET: &str = "TAKEOVER";

pub const MANIFEST: &str = "MANIFEST";

pub const WORKERS: &str = "workers";

pub const LIMIT: &str = "limit";

pub const PATIENCE: &str = "patience";

pub const UNTIL_CLOSED: &str = "until-closed";

pub const FILES: &str = "files";

pub const GIT: &str = "git";

pub const CACHE: &str = "cache";

/// The end of the help of `world`.
const WORLD_HELP: &str = "\
Example:
  printf 'commit %040d\\ndir src\\n--\\nstart\\nmount 1\\ndo lookup 1 src\\nshow\\n' 0 | edend world -

Exit status:
  0  the script was run; a refused event is no fault
  1  a fault, told by a line 'fault: TEXT' on standard output
  2  the command line was refused";

/// The end of the help of `broker`.
const BROKER_HELP: &str = "\
Example:
  printf 'seat 1\\nask getattr 1\\n' | edend broker broker.socket -

Exit status:
  0  the script was run, and the mount has ended
  1  a fault, told by a line 'fault: TEXT' on standard output
  2  the command line was refused";

/// The usage of `daemon`.
const DAEMON_USAGE: &str = "\
edend daemon [OPTIONS] <--mount|--takeover> <BROKER> <TAKEOVER> <MANIFEST>
       edend daemon [OPTIONS] <--mount|--takeover> <BROKER> <TAKEOVER> --git <REPOSITORY> [COMMIT]";

/// The end of the help of `daemon`.
const DAEMON_HELP: &str = "\
Example:
  printf 'commit %040d\\ndir src\\n' 0 > manifest
  edend daemon --mount broker.socket takeover.socket manifest &
  edend daemon --takeover broker.socket takeover.socket manifest
  edend daemon --mount broker.socket takeover.socket --git repository HEAD

Exit status:
  0  the daemon has handed over, or the mount or standard input has ended
  1  a fault, told by a line 'fault: TEXT' on standard output
  2  the command line was refused";

/// The usage of `mount`.
const MOUNT_USAGE: &str = "edend mount [OPTIONS] <MOUNTPOINT> <SOCKET>";

/// What the help of `mount` ends with.
const MOUNT_HELP: &str = "\
Example:
  mkdir checkout
  edend mount checkout broker.socket &
  edend daemon --mount broker.socket takeover.socket manifest &
  stat checkout/src
  umount checkout

Exit status:
  0  the checkout was unmounted
  1  a fault, told by a line 'fault: TEXT' on standard output
  2  the command line was refused";

/// Returns the program's command, with its four subcommands.
pub fn edend_command<'a>(alloc: Global) -> Result<Command<'a>, AllocError>
    ensures { IfOk result (λ command. app_of command ≡ edend_app) }
{
    let world = world_command(alloc)?;
    let broker = broker_command(alloc)?;
    let daemon = daemon_command(alloc)?;
    let mount = mount_command(alloc)?;
    Command::new(alloc, "edend")
        .version("0.1.0")
        .about(
            "Graceful restart of a FUSE daemon, as EdenFS does it. Without a command: edend world -",
        )
        .subcommand(world)?
        .subcommand(broker)?
        .subcommand(daemon)?
        .subcommand(mount)
}

/// Returns the command `world`, which runs a script.
fn world_command<'a>(alloc: Global) -> Result<Command<'a>, AllocError>
    ensures { IfOk result (IsReadAs world_app) }
{
    Command::new(alloc, WORLD)
        .about("Runs a script: a manifest, a line --, and lines of events")
        .after_help(WORLD_HELP)
        .arg(word_arg(alloc, SCRIPT, SCRIPT_HELP))?
        .arg(limit_arg(alloc))
}

/// Returns the command `broker`, which runs the kernel's side of a mount.
fn broker_command<'a>(alloc: Global) -> Result<Command<'a>, AllocError>
    ensures { IfOk result (IsReadAs broker_app) }
{
    Command::new(alloc, BROKER)
        .about("Runs the kernel's side of a mount, and asks its daemons what a script says")
        .after_help(BROKER_HELP)
        .arg(word_arg(alloc, SOCKET, "The socket to listen at"))?
        .arg(word_arg(alloc, SCRIPT, SCRIPT_HELP))
}

/// Returns the command `daemon`, which serves a mount.
pub fn daemon_command<'a>(alloc: Global) -> Result<Command<'a>, AllocError>
    ensures { IfOk result (IsReadAs daemon_app) }
{
    Command::new(alloc, DAEMON)
        .about("Serves a mount: mounts, or takes over from the daemon that serves")
        .override_usage(DAEMON_USAGE)
        .after_help(DAEMON_HELP)
        .arg(flag_arg(alloc, MOUNT, "Mounts"))?
        .arg(flag_arg(alloc, TAKEOVER, TAKEOVER_HELP))?
        .arg(word_arg(alloc, BROKER_SOCKET, "The broker's socket"))?
        .arg(word_arg(alloc, LISTEN_SOCKET, LISTEN_HELP))?
        .arg(manifest_arg(alloc))?
        .arg(workers_arg(alloc))?
        .arg(limit_arg(alloc))?
        .arg(patience_arg(alloc))?
        .arg(flag_arg(alloc, UNTIL_CLOSED, UNTIL_CLOSED_HELP))?
        .arg(files_arg(alloc))?
        .arg(git_arg(alloc))?
        .arg(cache_arg(alloc))
}

/// Returns the command `mount`, which mounts what daemons serve.
pub fn mount_command<'a>(alloc: Global) -> Result<Command<'a>, AllocError>
    ensures { IfOk result (IsReadAs mount_app) }
{
    Command::new(alloc, MOUNT)
        .about("Mounts a checkout: the Linux kernel asks, and daemons answer")
        .override_usage(MOUNT_USAGE)
        .after_help(MOUNT_HELP)
        .arg(word_arg(alloc, MOUNTPOINT, "The directory to mount at"))?
        .arg(word_arg(alloc, SOCKET, "The socket to listen at"))?
        .arg(held_arg(alloc))?
        .arg(owner_arg(alloc))?
        .arg(valid_arg(alloc))
}

const SCRIPT_HELP: &str = "The script, or - for standard input";

const TAKEOVER_HELP: &str = "Takes over from the daemon that listens at TAKEOVER";

const UNTIL_CLOSED_HELP: &str = "Ends when standard input ends";

const LISTEN_HELP: &str = "The socket at which a daemon listens for the next one";

const MANIFEST_HELP: &str =
    "The manifest, or - for standard input; with --git a commit, or HEAD if none is named";

/// Returns the argument `name`, a word that a command has to have.
fn word_arg<'a>(alloc: Global, name: &'a str, help: &'a str) -> Arg<'a>
    ensures rule { rule_of result ≡ word_rule name.now }
    ensures own { result.global ≡ false }
{
    Arg::new(alloc, name)
        .help(help)
        .required(true)
        .action(ArgAction::Set)
}

/// Returns the option `name`, which has no value.
fn flag_arg<'a>(alloc: Global, name: &'a str, help: &'a str) -> Arg<'a>
    ensures rule { rule_of result ≡ flag_rule name.now }
    ensures own { result.global ≡ false }
{
    Arg::new(alloc, name)
        .long(name)
        .help(help)
        .action(ArgAction::SetTrue)
}

/// Returns the option that names a file for what the kernel holds.
fn held_arg<'a>(alloc: Global) -> Arg<'a>
    ensures rule { rule_of result ≡ held_rule }
    ensures own { result.global ≡ false }
{
    Arg::new(alloc, HELD)
        .long(HELD)
        .value_name("FILE")
        .help("Notes in FILE at each takeover how often the kernel holds each number")
        .action(ArgAction::Set)
}

/// Returns the option that names a directory with the contents of files.
fn files_arg<'a>(alloc: Global) -> Arg<'a>
    ensures rule { rule_of result ≡ files_rule }
    ensures own { result.global ≡ false }
{
    Arg::new(alloc, FILES)
        .long(FILES)
        .value_name("DIRECTORY")
        .help("Serves the contents of files from DIRECTORY, each from its path there")
        .action(ArgAction::Set)
}

/// Returns the argument that names a manifest or a commit.
fn manifest_arg<'a>(alloc: Global) -> Arg<'a>
    ensures rule { rule_of result ≡ manifest_rule }
    ensures own { result.global ≡ false }
{
    Arg::new(alloc, MANIFEST)
        .help(MANIFEST_HELP)
        .action(ArgAction::Set)
}

/// Returns the option that names a repository of git.
fn git_arg<'a>(alloc: Global) -> Arg<'a>
    ensures rule { rule_of result ≡ git_rule }
    ensures own { result.global ≡ false }
{
    Arg::new(alloc, GIT)
        .long(GIT)
        .value_name("REPOSITORY")
        .help("Serves a commit of the git repository at REPOSITORY")
        .action(ArgAction::Set)
}

/// Returns the option that says how much memory the contents of files have.
fn cache_arg<'a>(alloc: Global) -> Arg<'a>
    ensures rule { rule_of result ≡ cache_rule }
    ensures own { result.global ≡ false }
{
    Arg::new(alloc, CACHE)
        .long(CACHE)
        .value_name("MB")
        .help("How many megabytes of contents are kept with --git, from 1 to 1048576; else 256")
        .value_parser(ValueParser::unsigned(1, 1_048_576))
        .action(ArgAction::Set)
}

/// Returns the option that names the user and the group that own each file.
fn owner_arg<'a>(alloc: Global) -> Arg<'a>
    ensures rule { rule_of result ≡ owner_rule }
    ensures own { result.global ≡ false }
{
    Arg::new(alloc, OWNER)
        .long(OWNER)
        .value_name("UID:GID")
        .help("Who owns each file, by numbers; else the user and the group of this process")
        .action(ArgAction::Set)
}

/// Returns the option that says how long the kernel may keep what it is told.
fn valid_arg<'a>(alloc: Global) -> Arg<'a>
    ensures rule { rule_of result ≡ valid_rule }
    ensures own { result.global ≡ false }
{
    Arg::new(alloc, VALID)
        .long(VALID)
        .value_name("SECONDS")
        .help("For how many seconds the kernel asks no daemon again, from 0 to 86400")
        .value_parser(ValueParser::unsigned(0, 86_400))
        .default_value("86400")
        .action(ArgAction::Set)
}

/// Returns the option that says how many files are kept loaded.
fn limit_arg<'a>(alloc: Global) -> Arg<'a>
    ensures rule { rule_of result ≡ limit_rule }
    ensures own { result.global ≡ false }
{
    Arg::new(alloc, LIMIT)
        .long(LIMIT)
        .value_name("N")
        .help("How many files a daemon keeps loaded, from 1 to 65536")
        .value_parser(ValueParser::unsigned(1, 65_536))
        .default_value("1024")
        .action(ArgAction::Set)
}

/// Returns the option that says how many threads serve.
fn workers_arg<'a>(alloc: Global) -> Arg<'a>
    ensures rule { rule_of result ≡ workers_rule }
    ensures own { result.global ≡ false }
{
    Arg::new(alloc, WORKERS)
        .long(WORKERS)
        .value_name("N")
        .help("How many threads serve, from 1 to 16")
        .value_parser(ValueParser::unsigned(1, 16))
        .default_value("2")
        .action(ArgAction::Set)
}

/// Returns the option that says how long a peer may be silent.
fn patience_arg<'a>(alloc: Global) -> Arg<'a>
    ensures rule { rule_of result ≡ patience_rule }
    ensures own { result.global ≡ false }
{
    Arg::new(alloc, PATIENCE)
        .long(PATIENCE)
        .value_name("MS")
        .help("For how many milliseconds a peer may be silent, from 1 to 600000")
        .value_parser(ValueParser::unsigned(1, 600_000))
        .default_value("2000")
        .action(ArgAction::Set)
}
