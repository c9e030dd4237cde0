//! A daemon, from its start to its end.
ghost use Rattle.std.specs.Prelude.{◌≡◌, ℕ, Bool, List, [], ◌∷◌, Option};
ghost use Rattle.daemon_process.specs.Ending.{MayEnd, PrintsEnding, PrintsServing, RunsDaemon};

use crate::arrival::Arrival;
use crate::contents::open_contents;
use crate::context::DaemonContext;
use crate::exit::{DaemonEnd, Exit};
use crate::fault::DaemonFault;
use crate::handover::HandoverLoop;
use crate::input_end::close_with_input;
use crate::options::{DaemonOptions, DaemonTree};
use crate::peer_accept_loop::PeerAcceptLoop;
use crate::peer_connections::PeerConnections;
use crate::round_loop::RoundLoop;
use crate::seat::Seated;
use crate::shared::Shared;
use daemon_desk::DaemonDesk;
use non_blocking::{Notes, Unblock, write_behind};
use sockets::{Closer, Connection};
use std::alloc::Global;
use std::fs::File;
use std::io::{self, ErrorKind, Read};
use std::net::{Net, TcpListener, TcpStream};
use std::process::{Processes, SystemProcess};
use std::rt::{Clock, Files};
use std::sync::{Arc, Wait};
use std::thread;
use std::thread::{Scope, Threads};
use takeover_core::Versions;

/// The versions of the image that a daemon writes and reads: 1 is whole, 2 is in parts, 3 has wider counts, 4 names the
/// manifest by a digest of its text.
const VERSIONS: [u16; 4] = [1, 2, 3, 4];

/// What a daemon reads and writes.
#[derive(Drop)]
pub struct DaemonStreams<I, W> {
    /// Standard input, of which only the end counts.
    pub input: I,
    /// The writer of the daemon's lines.
    pub out: W,
    /// The notes on standard error, of what else happened.
    pub notes: Notes,
}

/// How a daemon's run ended, with the writer of the daemon's lines.
#[derive(Drop)]
pub struct DaemonRun<W> {
    pub out: W,
    pub ended: Result<(), DaemonFault>,
}

/// How a daemon ends that served, with the writer of its lines.
#[derive(Drop)]
struct Service<W> {
    out: W,
    ending: DaemonEnd,
}

/// Runs a daemon over the checkout of `tree`, and prints each line to `streams.out` as soon as it is known: a line
/// that can't be written is dropped, and nobody waits for one. Returns when another daemon took over, the mount is
/// over, or a fault ended the daemon; where `options` say so, also when `streams.input` ends.
pub fn run_daemon<
    R: Threads
        + Wait
        + Clock
        + Files<File = File>
        + Net<Listener = TcpListener, Stream = TcpStream>
        + Processes<Started = SystemProcess>
        + Copy
        + Send
        + Sync
        + 'static,
    I: Read + Drop + Send + 'static,
    W: Unblock + Drop,
>(
    rt: &R,
    alloc: Global,
    options: &DaemonOptions<'_>,
    tree: DaemonTree<'_>,
    streams: DaemonStreams<I, W>,
) -> DaemonRun<W>
where
    R::Dir: Send + Sync,
    ensures runs { RunsDaemon options.now.until_closed result.ended
        (W.contents streams.out) (W.contents result.out) }
{
    let DaemonStreams { input, out, notes } = streams;
    let mut out = out;
    if let Err(error) = write_behind(rt, alloc, &mut out) {
        return end_run(out, DaemonEnd::Exits(Exit::Faulty(unmade(&error))));
    }
    let DaemonTree { manifest, contents } = tree;
    let contents = match open_contents(rt, alloc, contents, &manifest, &notes) {
        Ok(contents) => contents,
        Err(fault) => return end_run(out, DaemonEnd::Exits(Exit::Faulty(fault))),
    };
    let daemon = DaemonDesk::new(alloc, manifest, options.limit, versions());
    let Ok(shared) = Arc::new(alloc, Shared::new(daemon, notes)) else {
        return end_run(out, DaemonEnd::Exits(Exit::Faulty(DaemonFault::NoMemory)));
    };
    if options.until_closed {
        if let Err(exit) = close_with_input(rt, &shared, input) {
            return end_run(out, DaemonEnd::Exits(exit));
        }
    }
    let context = DaemonContext {
        rt,
        alloc,
        shared: &shared,
        contents: &contents,
    };
    let Service { out, ending } = serve_mount(&context, options, out);
    end_run(out, ending)
}

/// Gets the seat, serves until the daemon ends, and returns how it ends.
fn serve_mount<
    R: Threads + Wait + Clock + Files<File = File> + Net + Send + Sync,
    W: Unblock + Drop,
>(context: &DaemonContext<'_, R>, options: &DaemonOptions<'_>, out: W) -> Service<W>
where
    R::Dir: Send + Sync,
    ensures prints { PrintsServing (W.contents out) (W.contents result.out) }
    ensures may_end { MayEnd options.now.until_closed result.ending }
{
    match context.begin(options) {
        Ok(seated) => run(context, options, seated, out),
        Err(exit) => {
            let until_closed = options.until_closed;
            let ending = context.shared.ending_before(context.rt, exit, until_closed);
            Service { out, ending }
        }
    }
}

/// Prints the last line of a daemon, if its ending has one, and returns how its run ended.
fn end_run<W: Unblock + Drop>(out: W, ending: DaemonEnd) -> DaemonRun<W>
    ensures runs { (until_closed : Bool) (old : Option (List ℕ))
        → MayEnd until_closed ending → PrintsServing old (W.contents out)
        → RunsDaemon until_closed result.ended old (W.contents result.out) }
{
    let mut out = out;
    let ended = print_ending(&mut out, ending);
    DaemonRun { out, ended }
}

/// Returns the fault of a daemon whose thread for its lines was not made for this error.
fn unmade(error: &io::Error) -> DaemonFault {
    match error.kind() {
        ErrorKind::OutOfMemory => DaemonFault::NoMemory,
        _ => DaemonFault::NoThread,
    }
}

/// Returns the versions of the image that a daemon offers and accepts.
fn versions() -> Versions
    ensures versions { result ≡ 1 ∷ 2 ∷ 3 ∷ 4 ∷ [] }
{
    Versions::of(&VERSIONS)
}

/// Prints the last line of a daemon and returns `Ok`, or prints nothing and returns the fault that ended the daemon.
fn print_ending<W: Unblock>(out: &mut W, ending: DaemonEnd) -> Result<(), DaemonFault>
    ensures prints { PrintsEnding ending result (W.contents out.old) (W.contents out.new) }
{
    match ending {
        DaemonEnd::Exits(Exit::HandedOver) => out.print("handed over"),
        DaemonEnd::Exits(Exit::Ended) => out.print("ended"),
        DaemonEnd::Exits(Exit::Faulty(fault)) => return Err(fault),
        DaemonEnd::Closed => out.print("closed"),
    }
    Ok(())
}

/// Serves the mount and takeovers in separate threads until the daemon ends, and returns how it ends.
fn run<R: Threads + Wait + Clock + Files<File = File> + Send + Sync, W: Unblock + Drop>(
    context: &DaemonContext<'_, R>,
    options: &DaemonOptions<'_>,
    seated: Seated<'_, R>,
    out: W,
) -> Service<W>
where
    R::Dir: Send + Sync,
    ensures prints { PrintsServing (W.contents out) (W.contents result.out) }
    ensures may_end { MayEnd options.now.until_closed result.ending }
{
    let Seated { arrival, listener } = seated;
    let Arrival {
        connection,
        workers,
    } = arrival;
    let closer = match Closer::of(&listener) {
        Ok(closer) => closer,
        Err(error) => {
            let ending = DaemonEnd::Exits(Exit::Faulty(DaemonFault::CannotListen(error)));
            return Service { out, ending };
        }
    };
    let peers = PeerConnections::new(context.alloc);
    let threads = DaemonThreads {
        accept_loop: PeerAcceptLoop {
            context: &*context,
            peers: &peers,
            listener: &listener,
            closer: &closer,
            patience: options.patience,
        },
        handover: HandoverLoop {
            context: &*context,
            peers: &peers,
            patience: options.patience,
        },
        rounds: RoundLoop {
            context: &*context,
            streams: workers.as_slice(),
            until_closed: options.until_closed,
        },
    };
    run_threads(&threads, connection, out)
}

/// Runs the threads of a daemon in a scope until it ends, and returns how it ends. The seat is claimed over the connection
/// `broker`.
fn run_threads<R: Threads + Wait + Clock + Files<File = File> + Send + Sync, W: Unblock + Drop>(
    threads: &DaemonThreads<'_, R>,
    broker: Connection<'_, R>,
    out: W,
) -> Service<W>
where
    R::Dir: Send + Sync,
    ensures prints { PrintsServing (W.contents out) (W.contents result.out) }
    ensures may_end { MayEnd threads.now.rounds.until_closed result.ending }
{
    thread::scope(
        thread::scope_env(),
        threads.handover.context.rt,
        move |scope| -> Service<W>
            ensures { PrintsServing (W.contents out) (W.contents result.out)
                × MayEnd threads.entry.now.rounds.until_closed result.ending }
        { threads.run(scope, broker, out) },
    )
}

/// What the threads of a daemon with the seat do.
#[derive(Drop)]
struct DaemonThreads<'a, R> {
    accept_loop: PeerAcceptLoop<'a, R>,
    handover: HandoverLoop<'a, R>,
    rounds: RoundLoop<'a, R>,
}

impl<R: Threads + Wait + Clock + Files<File = File> + Send + Sync> DaemonThreads<'_, R>
where
    R::Dir: Send + Sync,
{
    /// Serves the mount in this thread, and takeovers in two more: one accepts connections, one serves those that
    /// offer.
    fn run<'s, 'e: 's, W: Unblock + Drop>(
        &'e self,
        scope: &Scope<'s, &'e ()>,
        broker: Connection<'e, R>,
        out: W,
    ) -> Service<W>
    where
        R: 's,
        ensures prints { PrintsServing (W.contents out) (W.contents result.out) }
        ensures may_end { MayEnd self.now.rounds.until_closed result.ending }
    {
        let mut out = out;
        let (accept_loop, handover) = (&self.accept_loop, &self.handover);
        let accepting = scope.spawn(move || accept_loop.run());
        let handing = scope.spawn(move || handover.run(broker));
        let are_made = accepting.is_ok() && handing.is_ok();
        let ending = self.serve_if(are_made, &mut out);
        handover.context.shared.finish(handover.context.rt);
        accept_loop.end();
        Service { out, ending }
    }

    /// Serves if `are_made`: the threads that takeovers need were made. Returns how the daemon ends.
    fn serve_if<W: Unblock>(&self, are_made: bool, out: &mut W) -> DaemonEnd
        ensures prints { PrintsServing (W.contents out.old) (W.contents out.new) }
        ensures may_end { MayEnd self.now.rounds.until_closed result }
    {
        if !are_made {
            return DaemonEnd::Exits(Exit::Faulty(DaemonFault::NoThread));
        }
        self.rounds.serve(out)
    }
}
