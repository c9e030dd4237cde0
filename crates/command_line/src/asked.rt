//! The words that the program is started with.
ghost use Rattle.std.specs.Prelude.{◌≡◌, map, IfOk, MatchResult, codes, option_and_then, string_bytes};
ghost use Rattle.std.specs.Option.{option_map};
ghost use Rattle.clap.specs.Words.{FailsBy, first_of, found_of, kind_of, rows_of, subcommand_rows_of};
ghost use Rattle.command_line.specs.Asked.{IsAsked, IsBroker, IsDaemon, IsMount, IsScript};
ghost use Rattle.command_line.specs.CommandLine.{NamesPlainly, command_of, daemon_fault, has_flag, limit_in, number_or, script_in, start_by, is_given, commit_in, manifest_fault, origin_fault, owner_fault, start_fault, word_in, words_fault_in, wrong_of};
ghost use Rattle.command_line.specs.Owner.{owner_of};

use crate::commands::{
    BROKER, BROKER_SOCKET, CACHE, DAEMON, FILES, GIT, HELD, LIMIT, LISTEN_SOCKET, MANIFEST, MOUNT,
    MOUNTPOINT, OWNER, PATIENCE, SCRIPT, SOCKET, TAKEOVER, UNTIL_CLOSED, VALID, WORKERS, WORLD,
    daemon_command, edend_command, mount_command,
};
use crate::{BrokerWords, DaemonWords, MountWords, Owner, ServerCommand, StartMode, read_owner};
use clap::error::ErrorKind;
use clap::{ArgMatches, Command, Error};
use script_lines::number;
use std::alloc::{AllocError, Global};

/// How many files' attributes a daemon keeps loaded where the words say no number.
pub const DEFAULT_LIMIT: usize = 1024;

/// How many threads serve where the words say no number.
const DEFAULT_WORKERS: u64 = 2;

/// For how many milliseconds a peer may be silent where the words say no number.
const DEFAULT_PATIENCE: u64 = 2_000;

/// How many megabytes of contents are kept of a repository where the words say no number.
const DEFAULT_CACHE: u64 = 256;

/// For how many seconds the kernel may keep what it is told if no option names another time: a day.
const DEFAULT_VALID: u64 = 86_400;

/// What the words ask for.
#[derive(Clone, Copy)]
pub enum Asked<'a> {
    /// A script is to be run.
    World(WorldWords<'a>),
    /// A process is to serve.
    Serve(ServerCommand<'a>),
}

/// The words of `world`.
#[derive(Clone, Copy)]
pub struct WorldWords<'a> {
    /// The path of a script, or `-` for standard input.
    pub script: &'a str,
    /// How many files a daemon keeps loaded.
    pub limit: usize,
}

/// Returns what `words` ask for. Without a command they ask for the script of standard input. The first word is the
/// program's name.
pub fn asked_of<'a>(alloc: Global, words: &'a [String]) -> Result<Asked<'a>, Error>
    ensures asked { IfOk result (IsAsked (command_of (map string_bytes words.now))) }
    ensures plain { (script : _) → NamesPlainly (map string_bytes words.now) script
        → MatchResult result (IsScript script) (λ error. kind_of error ≡ ErrorKind.OutOfMemory) }
    ensures refused { FailsBy (wrong_of (map string_bytes words.now)) result }
{
    let command = edend_command(alloc)?;
    let matches = command.try_get_matches_from(words)?;
    asked_in(alloc, &matches)
}

/// Returns what is asked for by the command that the words have.
fn asked_in<'a>(alloc: Global, matches: &ArgMatches<'a>) -> Result<Asked<'a>, Error>
    ensures asked { IfOk result (IsAsked (subcommand_rows_of matches.now)) }
    ensures refused { FailsBy (words_fault_in (subcommand_rows_of matches.now)) result }
{
    match (
        matches.subcommand_matches(BROKER),
        matches.subcommand_matches(DAEMON),
        matches.subcommand_matches(MOUNT),
    ) {
        (Some(broker), _, _) => Ok(Asked::Serve(ServerCommand::Broker(broker_in(broker)))),
        (None, Some(daemon), _) => Ok(Asked::Serve(ServerCommand::Daemon(daemon_in(
            alloc, daemon,
        )?))),
        (None, None, Some(mount)) => Ok(Asked::Serve(ServerCommand::Mount(mount_in(
            alloc, mount,
        )?))),
        (None, None, None) => Ok(Asked::World(world_in(matches))),
    }
}

/// Returns the words of `world`, or the default ones if the command is not `world`.
fn world_in<'a>(matches: &ArgMatches<'a>) -> WorldWords<'a>
    ensures script { result.script.now ≡ script_in (subcommand_rows_of matches.now) }
    ensures limit { result.limit ≡ limit_in (subcommand_rows_of matches.now) }
{
    WorldWords {
        script: script_in(matches),
        limit: limit_in(matches),
    }
}

/// Returns the script that the words of `world` name, or `-` if the command is not `world`.
fn script_in<'a>(matches: &ArgMatches<'a>) -> &'a str
    ensures { result.now ≡ script_in (subcommand_rows_of matches.now) }
{
    match matches.subcommand_matches(WORLD) {
        Some(world) => world.get_str(SCRIPT).unwrap_or("-"),
        None => "-",
    }
}

/// Returns the limit that the words of `world` name, or the default one if the command is not `world`.
fn limit_in(matches: &ArgMatches<'_>) -> usize
    ensures { result ≡ limit_in (subcommand_rows_of matches.now) }
{
    match matches.subcommand_matches(WORLD) {
        Some(world) => number_or(DEFAULT_LIMIT as u64, world.get_str(LIMIT)) as usize,
        None => DEFAULT_LIMIT,
    }
}

/// Returns the words of `broker`.
fn broker_in<'a>(broker: &ArgMatches<'a>) -> BrokerWords<'a>
    ensures { IsBroker (rows_of (found_of broker.now)) result }
{
    BrokerWords {
        socket: word_in(broker, SOCKET),
        script: word_in(broker, SCRIPT),
    }
}

/// Returns the words of `mount`. They are refused where `--owner` names no owner.
fn mount_in<'a>(alloc: Global, mount: &ArgMatches<'a>) -> Result<MountWords<'a>, Error>
    ensures words { IfOk result (IsMount (rows_of (found_of mount.now))) }
    ensures refused { FailsBy (owner_fault (rows_of (found_of mount.now))) result }
{
    let owner = owner_in(alloc, mount)?;
    Ok(MountWords {
        mountpoint: word_in(mount, MOUNTPOINT),
        socket: word_in(mount, SOCKET),
        held: word_in(mount, HELD),
        owner,
        valid: number_or(DEFAULT_VALID, mount.get_str(VALID)),
    })
}

/// Returns the owner that the words of `mount` name, or none if they name none. A word that is no owner is refused.
fn owner_in(alloc: Global, mount: &ArgMatches<'_>) -> Result<Option<Owner>, Error>
    ensures owner { IfOk result (λ owner.
        owner ≡ option_and_then owner_of (first_of (codes "owner") (rows_of (found_of mount.now)))) }
    ensures refused { FailsBy (owner_fault (rows_of (found_of mount.now))) result }
{
    let Some(word) = mount.get_str(OWNER) else {
        return Ok(None);
    };
    match read_owner(word.as_bytes()) {
        Some(owner) => Ok(Some(owner)),
        None => Err(owner_refusal(alloc)?),
    }
}

/// Returns the error that refuses a word of `--owner`, with the usage of `mount`.
fn owner_refusal(alloc: Global) -> Result<Error, AllocError>
    ensures kind { IfOk result (λ error. kind_of error ≡ ErrorKind.InvalidValue) }
{
    refusal_by(mount_command(alloc)?, ErrorKind::InvalidValue, BAD_OWNER)
}

/// The error text for a word of `--owner` that names no owner.
const BAD_OWNER: &str =
    "'--owner <UID:GID>' wants a user's and a group's number, with a colon between them";

/// Returns the words of `daemon`. They are refused unless they name exactly one way to start, and where the files and their
/// contents come from.
fn daemon_in<'a>(alloc: Global, daemon: &ArgMatches<'a>) -> Result<DaemonWords<'a>, Error>
    ensures words { IfOk result (IsDaemon (rows_of (found_of daemon.now))) }
    ensures refused { FailsBy (daemon_fault (rows_of (found_of daemon.now))) result }
{
    let start = start_in(alloc, daemon)?;
    check_origin(alloc, daemon)?;
    Ok(DaemonWords {
        start,
        broker: word_in(daemon, BROKER_SOCKET),
        takeover: word_in(daemon, LISTEN_SOCKET),
        manifest: word_in(daemon, MANIFEST),
        workers: number_or(DEFAULT_WORKERS, daemon.get_str(WORKERS)) as usize,
        limit: number_or(DEFAULT_LIMIT as u64, daemon.get_str(LIMIT)) as usize,
        patience: number_or(DEFAULT_PATIENCE, daemon.get_str(PATIENCE)),
        until_closed: has_flag(daemon, UNTIL_CLOSED),
        files: word_in(daemon, FILES),
        git: word_in(daemon, GIT),
        commit: commit_in(daemon),
        cache: number_or(DEFAULT_CACHE, daemon.get_str(CACHE)),
    })
}

/// The commit that is served where the words name none.
const HEAD: &str = "HEAD";

/// Returns the commit that the words of `daemon` name, or `HEAD`.
fn commit_in<'a>(daemon: &ArgMatches<'a>) -> &'a str
    ensures commit { result.now ≡ commit_in (rows_of (found_of daemon.now)) }
{
    daemon.get_str(MANIFEST).unwrap_or(HEAD)
}

/// Returns whether a command was given a word for the argument `place`.
fn is_given(matches: &ArgMatches<'_>, place: &str) -> bool
    ensures given { result ≡ is_given place.now (rows_of (found_of matches.now)) }
{
    matches.get_str(place).is_some()
}

/// Refuses words of `daemon` that name a repository and a directory for contents, and those without a repository that name
/// no manifest.
fn check_origin(alloc: Global, daemon: &ArgMatches<'_>) -> Result<(), Error>
    ensures refused { FailsBy (origin_fault (rows_of (found_of daemon.now))) result }
{
    match (is_given(daemon, GIT), is_given(daemon, FILES)) {
        (true, true) => Err(refusal(alloc, ErrorKind::ArgumentConflict, GIT_AND_FILES)?),
        (true, false) => Ok(()),
        (false, true) => check_manifest(alloc, daemon),
        (false, false) => check_manifest(alloc, daemon),
    }
}

/// Refuses words of `daemon` without a repository that bound what is kept of one, or name no manifest.
fn check_manifest(alloc: Global, daemon: &ArgMatches<'_>) -> Result<(), Error>
    ensures refused { FailsBy (manifest_fault (rows_of (found_of daemon.now))) result }
{
    match (is_given(daemon, CACHE), is_given(daemon, MANIFEST)) {
        (true, true) => Err(refusal(alloc, ErrorKind::ArgumentConflict, CACHE_ALONE)?),
        (true, false) => Err(refusal(alloc, ErrorKind::ArgumentConflict, CACHE_ALONE)?),
        (false, true) => Ok(()),
        (false, false) => Err(refusal(alloc, ErrorKind::MissingRequiredArgument, NO_MANIFEST)?),
    }
}

/// The error text for words that name a repository and a directory.
const GIT_AND_FILES: &str =
    "the argument '--git <REPOSITORY>' cannot be used with '--files <DIRECTORY>'";

/// The error text for words that bound what is kept of no repository.
const CACHE_ALONE: &str = "the argument '--cache <MB>' cannot be used without '--git <REPOSITORY>'";

/// The error text for words that name neither a manifest nor a repository.
const NO_MANIFEST: &str = "the following required arguments were not provided:\n  <MANIFEST>";

/// Returns how a daemon comes to serve. Words that name both ways or none are refused.
fn start_in(alloc: Global, daemon: &ArgMatches<'_>) -> Result<StartMode, Error>
    ensures start { IfOk result (λ start.
        start ≡ start_by (has_flag (codes "mount") (rows_of (found_of daemon.now)))) }
    ensures refused { FailsBy (start_fault (rows_of (found_of daemon.now))) result }
{
    match (has_flag(daemon, MOUNT), has_flag(daemon, TAKEOVER)) {
        (true, false) => Ok(StartMode::Mount),
        (false, true) => Ok(StartMode::Takeover),
        (true, true) => Err(refusal(alloc, ErrorKind::ArgumentConflict, BOTH_STARTS)?),
        (false, false) => Err(refusal(alloc, ErrorKind::MissingRequiredArgument, NO_START)?),
    }
}

/// The error text for words that have both ways to start.
const BOTH_STARTS: &str = "the argument '--mount' cannot be used with '--takeover'";

/// The error text for words that have neither way to start.
const NO_START: &str =
    "the following required arguments were not provided:\n  <--mount|--takeover>";

/// Returns the error of `kind` that refuses a daemon's words with `text` and the usage of `daemon`.
fn refusal(alloc: Global, kind: ErrorKind, text: &str) -> Result<Error, AllocError>
    ensures kind { IfOk result (λ error. kind_of error ≡ kind) }
{
    refusal_by(daemon_command(alloc)?, kind, text)
}

/// Returns the error of `kind` that refuses words with `text` and the usage of `command`.
fn refusal_by(command: Command<'_>, kind: ErrorKind, text: &str) -> Result<Error, AllocError>
    ensures kind { IfOk result (λ error. kind_of error ≡ kind) }
{
    let mut command = command;
    let refusal = command.error(kind, text);
    drop(command);
    refusal
}

/// Returns the word that a command has for the argument `place`, and an empty word if it has none.
fn word_in<'a>(matches: &ArgMatches<'a>, place: &str) -> &'a str
    ensures { result.now ≡ word_in place.now (rows_of (found_of matches.now)) }
{
    matches.get_str(place).unwrap_or("")
}

/// Returns whether a command has `flag`. `clap` keeps the word `true` for a flag that is there.
fn has_flag(matches: &ArgMatches<'_>, flag: &str) -> bool
    ensures { result ≡ has_flag flag.now (rows_of (found_of matches.now)) }
{
    word_in(matches, flag) == "true"
}

/// Returns the number that an option's word writes, or `other` if there is no word or no number. A plus sign may come
/// first, as `clap` has it.
fn number_or(other: u64, word: Option<&str>) -> u64
    ensures { result ≡ number_or other (option_map (λ w. w.now) word.entry) }
{
    let Some(word) = word else {
        return other;
    };
    let digits = match word.as_bytes() {
        [b'+', digits @ ..] => digits,
        digits => digits,
    };
    number(digits).unwrap_or(other)
}

/// The error text for words that are not UTF-8.
const NOT_TEXT: &str = "a word of the command line is not UTF-8";

/// Returns the refusal of words that are not UTF-8, with the program's usage.
pub fn not_text(alloc: Global) -> Result<Error, AllocError>
    ensures kind { IfOk result (λ error. kind_of error ≡ ErrorKind.InvalidValue) }
{
    let mut command = edend_command(alloc)?;
    let refusal = command.error(ErrorKind::InvalidValue, NOT_TEXT);
    drop(command);
    refusal
}
