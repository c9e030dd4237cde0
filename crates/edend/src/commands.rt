//! The program in a process, and the commands that it runs over sockets.
ghost use Rattle.std.specs.Prelude.{◌≡◌, ◌⊎◌, ◌*◌, ℕ, List, Option, Some, Err, IfErr};
ghost use Rattle.world_script.specs.Source.{script_at};
ghost use Rattle.std.specs.Duration.{as_nanos};
ghost use Rattle.std.specs.Option.{option_map};
ghost use Rattle.broker_process.specs.Playing.{RunsBroker};
ghost use Rattle.command_line.specs.declared.server_command.ServerCommand.TheVariants.{Broker as BrokerCommand, Daemon as DaemonCommand, Mount as MountCommand};
ghost use Rattle.world_script.specs.Process.{RunsIn};
ghost use Rattle.world_script.specs.ProgramEnd.{name_of};
ghost use Rattle.script_lines.specs.declared.broker_line.BrokerLine.{BrokerLine};
ghost use Rattle.world_script.specs.declared.program_fault.ProgramFault.TheVariants.{CannotWrite};
ghost use Rattle.edend.specs.Commands.{IsManifestRefusal, IsTreeRefusal, Names, PrintsFirst, RunsOver, RunsTo, fault_of_broker, fault_of_daemon, fault_of_mount, fault_of_script, fault_of_tree, over_sockets, owner_of, start_of};
ghost use Rattle.edend.specs.Note.{IsNoted};

use crate::note::{Note, Noted};
use broker_process::{BrokerFault, DEVICE, MountOptions, MountRunFault, run_broker, run_mount};
use broker_script::{BrokerScriptFault, read_broker_script};
use daemon_process::{
    ContentsSource, DaemonFault, DaemonOptions, DaemonStart, DaemonStreams, DaemonTree,
    RepositorySource, check_directory, run_daemon,
};
use git_blobs::{TreeFault, TreeReader};
use git_tree::GitTree;
use mount_wire::FileOwner;
use non_blocking::{Notes, Unblock, write_behind};
use std::alloc::Global;
use std::fs::File;
use std::io::{self, ErrorKind, Read, Write};
use std::net::{Net, TcpListener, TcpStream};
use std::process::{Processes, SystemProcess};
use std::rt::{Clock, Files};
use std::sync::Wait;
use std::thread::Threads;
use std::time::Duration;
use world_script::{
    BrokerWords, Cause, DaemonWords, Failure, MountWords, Owner, Process, ProgramFault, RunIn,
    STANDARD_OUTPUT, ServerCommand, Sources, StartMode, end_command, end_ungathered, gather_lines,
    read_manifest, read_path, run_process,
};

/// Runs the program in a process: plays a script of a whole mount, or runs a command over sockets. A daemon that is to run
/// until standard input ends reads that by `input`.
pub fn run_edend<
    R: Threads
        + Wait
        + Clock
        + Files<File = File>
        + Net<Listener = TcpListener, Stream = TcpStream>
        + Processes<Started = SystemProcess>
        + Copy
        + Send
        + Sync
        + 'static,
    P: Process,
    I: Read + Drop + Send + 'static,
>(host: &R, alloc: Global, process: &P, input: I) -> RunIn<P::Output, P::Errors>
where
    R::Dir: Send + Sync,
    P::Output: Unblock,
    P::Errors: Unblock,
    ensures runs { RunsIn (P.known_words process.now)
        (P.input_bytes process.now) (P.file_bytes process.now)
        (over_sockets (P.input_bytes process.now) (P.file_bytes process.now))
        (P.output_bytes process.now) (P.Output.contents result.output)
        (P.errors_bytes process.now) (P.Errors.contents result.errors)
        result.status result.said }
{
    let mut note = Note { command: None };
    let ran = run_process(alloc, process, &mut note);
    match &note.command {
        Some(noted) => run_noted(host, alloc, process, noted, input),
        None => ran,
    }
}

/// Runs the command that was noted, and ends the process with it.
fn run_noted<
    R: Threads
        + Wait
        + Clock
        + Files<File = File>
        + Net<Listener = TcpListener, Stream = TcpStream>
        + Processes<Started = SystemProcess>
        + Copy
        + Send
        + Sync
        + 'static,
    P: Process,
    I: Read + Drop + Send + 'static,
>(host: &R, alloc: Global, process: &P, noted: &Noted, input: I) -> RunIn<P::Output, P::Errors>
where
    R::Dir: Send + Sync,
    P::Output: Unblock,
    P::Errors: Unblock,
    ensures { (command : _) → IsNoted noted.now command → RunsOver
        (P.input_bytes process.now) (P.file_bytes process.now) command
        (P.output_bytes process.now) (P.Output.contents result.output)
        (P.errors_bytes process.now) (P.Errors.contents result.errors)
        result.status result.said }
{
    match noted.command() {
        ServerCommand::Broker(words) => play(host, alloc, process, &words),
        ServerCommand::Daemon(words) => serve(host, alloc, process, &words, input),
        ServerCommand::Mount(words) => keep(host, alloc, process, &words),
    }
}

/// Plays the kernel by a broker's script, and ends the process with that.
fn play<R: Threads + Wait + Clock + Files + Net + Sync, P: Process>(
    host: &R,
    alloc: Global,
    process: &P,
    words: &BrokerWords<'_>,
) -> RunIn<P::Output, P::Errors>
    ensures { RunsOver (P.input_bytes process.now) (P.file_bytes process.now) (BrokerCommand words.now)
        (P.output_bytes process.now) (P.Output.contents result.output)
        (P.errors_bytes process.now) (P.Errors.contents result.errors)
        result.status result.said }
{
    let lines = match gather_lines(alloc, process) {
        Ok(lines) => lines,
        Err(ended) => return ended,
    };
    let CommandRun { out, ended } = broker(host, alloc, process, words, lines);
    end_command(ended, out, process.errors())
}

/// Runs a daemon, and ends the process with it. Nobody waits for what is written to standard error.
fn serve<
    R: Threads
        + Wait
        + Clock
        + Files<File = File>
        + Net<Listener = TcpListener, Stream = TcpStream>
        + Processes<Started = SystemProcess>
        + Copy
        + Send
        + Sync
        + 'static,
    P: Process,
    I: Read + Drop + Send + 'static,
>(
    host: &R,
    alloc: Global,
    process: &P,
    words: &DaemonWords<'_>,
    input: I,
) -> RunIn<P::Output, P::Errors>
where
    R::Dir: Send + Sync,
    P::Output: Unblock,
    P::Errors: Unblock,
    ensures { RunsOver (P.input_bytes process.now) (P.file_bytes process.now) (DaemonCommand words.now)
        (P.output_bytes process.now) (P.Output.contents result.output)
        (P.errors_bytes process.now) (P.Errors.contents result.errors)
        result.status result.said }
{
    let mut errors = process.errors();
    let _refused = write_behind(host, alloc, &mut errors);
    let notes = errors.notes();
    let out = process.output();
    let streams = DaemonStreams { input, out, notes };
    let CommandRun { out, ended } = daemon(host, alloc, process, words, streams);
    end_ungathered(ended, out, errors)
}

/// Keeps a mount, and ends the process with it. Nobody waits for what is written to standard error.
fn keep<
    R: Threads
        + Wait
        + Clock
        + Files<File = File>
        + Net<Listener = TcpListener, Stream = TcpStream>
        + Processes<Started = SystemProcess>
        + Copy
        + Send
        + Sync
        + 'static,
    P: Process,
>(host: &R, alloc: Global, process: &P, words: &MountWords<'_>) -> RunIn<P::Output, P::Errors>
where
    P::Output: Unblock,
    P::Errors: Unblock,
    ensures { RunsOver (P.input_bytes process.now) (P.file_bytes process.now) (MountCommand words.now)
        (P.output_bytes process.now) (P.Output.contents result.output)
        (P.errors_bytes process.now) (P.Errors.contents result.errors)
        result.status result.said }
{
    let mut errors = process.errors();
    let _refused = write_behind(host, alloc, &mut errors);
    let CommandRun { out, ended } = mount(host, alloc, words, process.output());
    end_ungathered(ended, out, errors)
}

/// How a command over sockets ended, with the writer of its lines.
#[derive(Drop)]
struct CommandRun<'a, W> {
    out: W,
    ended: Result<(), Failure<'a>>,
}

/// Returns the run of a command that printed nothing more to `out` and failed by `failure`.
fn fails<'a, W: Write + Drop>(out: W, failure: Failure<'a>) -> CommandRun<'a, W>
    ensures ended { result.ended ≡ Err failure.entry }
    ensures same { W.contents result.out ≡ W.contents out }
{
    CommandRun {
        out,
        ended: Err(failure),
    }
}

/// Returns the failure of `fault`, which the system's error with the file, socket or stream `name` caused.
fn caused<'a>(fault: ProgramFault, name: &'a str, error: io::Error) -> Failure<'a>
    ensures fault { result.fault ≡ fault }
    ensures name { name_of result ≡ Some name.now }
{
    Failure {
        fault,
        cause: Some(Cause { name, error }),
    }
}

/// Reads a broker's script, plays the kernel by it, and returns how the command ended.
fn broker<'a, R: Threads + Wait + Clock + Files + Net + Sync, S: Sources, W: Write + Drop>(
    host: &R,
    alloc: Global,
    sources: &S,
    words: &BrokerWords<'a>,
    out: W,
) -> CommandRun<'a, W>
    ensures { RunsTo (S.input_bytes sources.now) (S.file_bytes sources.now)
        (BrokerCommand words.now) result.ended (W.contents out) (W.contents result.out) }
{
    let text = match read_path(alloc, sources, words.script) {
        Ok(text) => text,
        Err(error) => return fails(out, Failure::of_run(&error, words.script)),
    };
    let script = match read_broker_script(alloc, text.as_slice()) {
        Ok(script) => script,
        Err(fault) => return fails(out, failure_of_script(fault, words)),
    };
    let run = run_broker(host, alloc, words.socket, script.as_slice(), out);
    match run.ended {
        Ok(()) => CommandRun {
            out: run.out,
            ended: Ok(()),
        },
        Err(fault) => CommandRun {
            out: run.out,
            ended: Err(failure_of_broker(fault, words)),
        },
    }
}

/// Returns the failure of a broker whose script was refused.
fn failure_of_script<'a>(fault: BrokerScriptFault, _words: &BrokerWords<'a>) -> Failure<'a>
    ensures names { Names (BrokerCommand _words.now) result }
    ensures told { result.fault ≡ fault_of_script fault }
{
    match fault {
        BrokerScriptFault::BadLine(line) => Failure::plain(ProgramFault::BadLine(line)),
        BrokerScriptFault::NoMemory => Failure::plain(ProgramFault::NoMemory),
    }
}

/// Returns the failure of a broker that ended by `fault`, run with these words.
fn failure_of_broker<'a>(fault: BrokerFault, words: &BrokerWords<'a>) -> Failure<'a>
    ensures names { Names (BrokerCommand words.now) result }
    ensures told { result.fault ≡ fault_of_broker fault }
    ensures first { (script : List BrokerLine) (old new : Option (List ℕ))
        → RunsBroker script (Err fault) old new
        → (result.fault ≡ CannotWrite) ⊎ PrintsFirst (BrokerCommand words.now) old new }
{
    match fault {
        BrokerFault::CannotListen(error) => caused(ProgramFault::CannotListen, words.socket, error),
        BrokerFault::NoMemory => Failure::plain(ProgramFault::NoMemory),
        BrokerFault::NoThread => Failure::plain(ProgramFault::NoThread),
        BrokerFault::CannotWrite(error) => caused(
            ProgramFault::CannotWrite,
            STANDARD_OUTPUT,
            error,
        ),
    }
}

/// Runs a daemon over the checkout that its words name, and returns how the command ended.
fn daemon<
    'a,
    R: Threads
        + Wait
        + Clock
        + Files<File = File>
        + Net<Listener = TcpListener, Stream = TcpStream>
        + Processes<Started = SystemProcess>
        + Copy
        + Send
        + Sync
        + 'static,
    S: Sources,
    I: Read + Drop + Send + 'static,
    W: Unblock + Drop,
>(
    host: &R,
    alloc: Global,
    sources: &S,
    words: &DaemonWords<'a>,
    streams: DaemonStreams<I, W>,
) -> CommandRun<'a, W>
where
    R::Dir: Send + Sync,
    ensures { RunsTo (S.input_bytes sources.now) (S.file_bytes sources.now)
        (DaemonCommand words.now) result.ended (W.contents streams.out) (W.contents result.out) }
{
    let tree = match tree_of(host, alloc, sources, words, &streams.notes) {
        Ok(tree) => tree,
        Err(failure) => return fails(streams.out, failure),
    };
    let run = run_daemon(host, alloc, &daemon_options_of(words), tree, streams);
    match run.ended {
        Ok(()) => CommandRun {
            out: run.out,
            ended: Ok(()),
        },
        Err(fault) => CommandRun {
            out: run.out,
            ended: Err(failure_of_daemon(fault, words)),
        },
    }
}

/// Returns the files that a daemon serves: those of a commit where its words name a repository, and else those of a
/// manifest.
fn tree_of<'a, R: Wait + Files<File = File> + Processes, S: Sources>(
    host: &R,
    alloc: Global,
    sources: &S,
    words: &DaemonWords<'a>,
    notes: &Notes,
) -> Result<DaemonTree<'a>, Failure<'a>>
    ensures refused { IfErr result (λ failure. IsTreeRefusal (S.input_bytes sources.now) (S.file_bytes sources.now) words.now failure) }
{
    if words.git.is_empty() {
        let tree = match manifest_tree(alloc, sources, words) {
            Ok(tree) => tree,
            Err(failure) => return Err(failure),
        };
        return Ok(tree);
    }
    let tree = match commit_tree(host, alloc, words, notes) {
        Ok(tree) => tree,
        Err(fault) => return Err(failure_of_tree(fault, words)),
    };
    Ok(tree)
}

/// Reads the manifest that a daemon serves.
fn manifest_tree<'a, S: Sources>(
    alloc: Global,
    sources: &S,
    words: &DaemonWords<'a>,
) -> Result<DaemonTree<'a>, Failure<'a>>
    ensures refused { IfErr result (λ failure. IsManifestRefusal (script_at (S.input_bytes sources.now) (S.file_bytes sources.now) words.now.manifest.now) words.now failure) }
{
    let text = match read_path(alloc, sources, words.manifest) {
        Ok(text) => text,
        Err(error) => return Err(Failure::of_run(&error, words.manifest)),
    };
    let manifest = match read_manifest(alloc, text.as_slice()) {
        Ok(manifest) => manifest,
        Err(fault) => return Err(Failure::plain(fault)),
    };
    Ok(DaemonTree {
        manifest,
        contents: directory_at(words.files),
    })
}

/// Returns where contents come from by the path of their directory, which is empty if they aren't served.
fn directory_at(path: &str) -> ContentsSource<'_> {
    if path.is_empty() {
        ContentsSource::None
    } else {
        ContentsSource::Directory(path)
    }
}

/// Reads the files of the commit that a daemon serves. Git is not run in a mount of this program, where it would wait for
/// the daemon.
fn commit_tree<'a, R: Wait + Files<File = File> + Processes>(
    host: &R,
    alloc: Global,
    words: &DaemonWords<'a>,
    notes: &Notes,
) -> Result<DaemonTree<'a>, TreeFault> {
    check_directory(host, alloc, words.git).map_err(unserved)?;
    let reader = TreeReader {
        rt: host,
        alloc,
        repository: words.git,
        notes,
    };
    let GitTree { manifest, objects } = reader.read(words.commit)?;
    let repository = RepositorySource {
        path: words.git,
        names: objects,
        bound: words.cache.saturating_mul(MEGABYTE),
    };
    Ok(DaemonTree {
        manifest,
        contents: ContentsSource::Repository(repository),
    })
}

/// How many bytes a megabyte of contents has.
const MEGABYTE: u64 = 1 << 20;

/// Returns the fault of a repository at whose path no directory can be served, for `error`.
fn unserved(error: io::Error) -> TreeFault {
    match error.kind() {
        ErrorKind::OutOfMemory => TreeFault::NoMemory,
        _ => TreeFault::NoRepository(error),
    }
}

/// The name that the program git has on standard error.
const GIT: &str = "git";

/// Returns the failure of a daemon whose commit was not read for `fault`.
fn failure_of_tree<'a>(fault: TreeFault, words: &DaemonWords<'a>) -> Failure<'a>
    ensures names { Names (DaemonCommand words.now) result }
    ensures told { result.fault ≡ fault_of_tree fault }
{
    match fault {
        TreeFault::NoGit(error) => caused(ProgramFault::NoGit, GIT, error),
        TreeFault::NoRepository(error) => caused(ProgramFault::NoRepository, words.git, error),
        TreeFault::NoCommit(error) => caused(ProgramFault::NoCommit, words.commit, error),
        TreeFault::Sha256(error) => caused(ProgramFault::Sha256, words.git, error),
        TreeFault::BadTree(_fault) => Failure::plain(ProgramFault::BadTree),
        TreeFault::NoMemory => Failure::plain(ProgramFault::NoMemory),
    }
}

/// Returns a daemon's options, as `words` give them.
fn daemon_options_of<'a>(words: &DaemonWords<'a>) -> DaemonOptions<'a>
    ensures start { result.start ≡ start_of words.now.start }
    ensures broker { result.broker.now ≡ words.now.broker.now }
    ensures takeover { result.takeover.now ≡ words.now.takeover.now }
    ensures workers { result.workers ≡ words.now.workers }
    ensures limit { result.limit ≡ words.now.limit }
    ensures patience { as_nanos result.patience ≡ words.now.patience * 1000000 }
    ensures until_closed { result.until_closed ≡ words.now.until_closed }
{
    DaemonOptions {
        start: start_of(words.start),
        broker: words.broker,
        takeover: words.takeover,
        workers: words.workers,
        limit: words.limit,
        patience: Duration::from_millis(words.patience),
        until_closed: words.until_closed,
    }
}

/// Returns how a daemon begins: it mounts, or takes over.
fn start_of(start: StartMode) -> DaemonStart
    ensures start { result ≡ start_of start }
{
    match start {
        StartMode::Mount => DaemonStart::Mount,
        StartMode::Takeover => DaemonStart::Takeover,
    }
}

/// Returns the failure of a daemon that ended by `fault`, run with these words.
fn failure_of_daemon<'a>(fault: DaemonFault, words: &DaemonWords<'a>) -> Failure<'a>
    ensures names { Names (DaemonCommand words.now) result }
    ensures told { result.fault ≡ fault_of_daemon fault }
{
    match fault {
        DaemonFault::NoBroker(error) => caused(ProgramFault::NoBroker, words.broker, error),
        DaemonFault::Seated => Failure::plain(ProgramFault::Seated),
        DaemonFault::Full => Failure::plain(ProgramFault::Full),
        DaemonFault::NoDaemon(error) => caused(ProgramFault::NoDaemon, words.takeover, error),
        DaemonFault::OfferRefused => Failure::plain(ProgramFault::OfferRefused),
        DaemonFault::TakeoverFailed => Failure::plain(ProgramFault::TakeoverFailed),
        DaemonFault::CannotListen(error) => caused(
            ProgramFault::CannotListen,
            words.takeover,
            error,
        ),
        DaemonFault::NoFiles(error) => caused(ProgramFault::NoFiles, words.files, error),
        DaemonFault::NoMemory => Failure::plain(ProgramFault::NoMemory),
        DaemonFault::NoThread => Failure::plain(ProgramFault::NoThread),
        DaemonFault::Broken => Failure::plain(ProgramFault::Broken),
    }
}

/// Mounts a checkout, and returns how the command ended.
fn mount<
    'a,
    R: Threads
        + Wait
        + Clock
        + Files<File = File>
        + Net<Listener = TcpListener, Stream = TcpStream>
        + Processes<Started = SystemProcess>
        + Copy
        + Send
        + Sync
        + 'static,
    W: Unblock + Drop,
>(host: &R, alloc: Global, words: &MountWords<'a>, out: W) -> CommandRun<'a, W>
    ensures { (input : Option (List ℕ)) (file : List ℕ → Option (List ℕ)) → RunsTo input file
        (MountCommand words.now) result.ended (W.contents out) (W.contents result.out) }
{
    let run = run_mount(host, alloc, &options_of(words), out);
    match run.ended {
        Ok(()) => CommandRun {
            out: run.out,
            ended: Ok(()),
        },
        Err(fault) => CommandRun {
            out: run.out,
            ended: Err(failure_of_mount(fault, words)),
        },
    }
}

/// Returns where a mount is made, as `words` say.
fn options_of<'a>(words: &MountWords<'a>) -> MountOptions<'a>
    ensures mountpoint { result.mountpoint.now ≡ words.now.mountpoint.now }
    ensures socket { result.socket.now ≡ words.now.socket.now }
    ensures log { result.log.now ≡ words.now.held.now }
    ensures owner { result.owner ≡ option_map owner_of words.now.owner }
    ensures valid { result.valid ≡ words.now.valid }
{
    MountOptions {
        mountpoint: words.mountpoint,
        socket: words.socket,
        log: words.held,
        owner: words.owner.map(owner_of),
        valid: words.valid,
    }
}

/// Returns the owner of a mount's files, as its words name it.
fn owner_of(owner: Owner) -> FileOwner
    ensures owner { result ≡ owner_of owner }
{
    FileOwner {
        user: owner.user,
        group: owner.group,
    }
}

/// Returns the failure of a mount that ended by `fault`, run with these words.
fn failure_of_mount<'a>(fault: MountRunFault, words: &MountWords<'a>) -> Failure<'a>
    ensures names { Names (MountCommand words.now) result }
    ensures told { result.fault ≡ fault_of_mount fault }
{
    match fault {
        MountRunFault::CannotListen(error) => caused(
            ProgramFault::CannotListen,
            words.socket,
            error,
        ),
        MountRunFault::NoMemory => Failure::plain(ProgramFault::NoMemory),
        MountRunFault::NoThread => Failure::plain(ProgramFault::NoThread),
        MountRunFault::NoLog(error) => caused(ProgramFault::NoLog, words.held, error),
        MountRunFault::NoDevice(error) => caused(ProgramFault::NoDevice, DEVICE, error),
        MountRunFault::CannotMount(error) => caused(
            ProgramFault::CannotMount,
            words.mountpoint,
            error,
        ),
        MountRunFault::Broken(error) => caused(ProgramFault::Broken, DEVICE, error),
    }
}
