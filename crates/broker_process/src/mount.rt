//! A broker whose kernel is a real one: it mounts, and mounts anew for the next daemon where one dies.
ghost use Rattle.std.specs.Prelude.{◌≡◌, Err};
ghost use Rattle.std.specs.Io.KnownBytes.{Appends};
ghost use Rattle.broker_process.specs.Mounting.{PrintsMount, RunsMount, end_line, mounted_line};

use crate::accept_loop::AcceptLoop;
use crate::broker_socket::BrokerSocket;
use crate::context::BrokerContext;
use crate::control::Control;
use crate::device::{check_place, clear_dead_mount, mount, open_device, own_user};
use crate::fault::MountRunFault;
use crate::service::{MountEnd, MountService, Mounted};
use crate::shared_desk::SharedDesk;
use crate::unmounter::{MountPoint, Unmounter};
use eden_base::NoMemory;
use mount_wire::{FileOwner, MountAttributes, MountTime};
use non_blocking::{Unblock, write_behind};
use std::alloc::Global;
use std::fs::File;
use std::io::{self, BufWriter, ErrorKind};
use std::net::Net;
use std::process::{OpenProcess, Processes};
use std::rt::{Clock, Files};
use std::sync::Wait;
use std::thread::{self, Scope, Threads};
use std::time::{Duration, SystemTime, UNIX_EPOCH};

/// How a broker over a real mount ran, with the writer of its lines.
#[derive(Drop)]
pub struct MountRun<W> {
    pub out: W,
    pub ended: Result<(), MountRunFault>,
}

/// Where a mount is made, and for which daemons.
#[derive(Clone, Copy)]
pub struct MountOptions<'a> {
    /// The path of the directory at which it is mounted.
    pub mountpoint: &'a str,
    /// The path of the socket at which daemons reach the broker.
    pub socket: &'a str,
    /// The path of a file for what the kernel holds at each takeover; empty if no file is asked for.
    pub log: &'a str,
    /// Who owns each file; none for the user and the group of this process.
    pub owner: Option<FileOwner>,
    /// For how many seconds the kernel may keep what it is told of names and attributes.
    pub valid: u64,
}

/// Mounts by these `options` what daemons serve that reach the broker, and prints to `out` when a mount begins and
/// ends: a line that can't be written is dropped, and nobody waits for one. Returns after somebody unmounted and every
/// daemon left, and removes the socket.
pub fn run_mount<
    R: Threads + Wait + Clock + Files<File = File> + Net + Processes + Copy + Send + Sync + 'static,
    W: Unblock + Drop,
>(rt: &R, alloc: Global, options: &MountOptions<'_>, out: W) -> MountRun<W>
    ensures runs { RunsMount result.ended (W.contents out) (W.contents result.out) }
{
    let mut out = out;
    if let Err(error) = write_behind(rt, alloc, &mut out) {
        return fails(out, unmade(&error));
    }
    let prepared = match prepare(rt, alloc, options) {
        Ok(prepared) => prepared,
        Err(fault) => return fails(out, fault),
    };
    let context = BrokerContext {
        rt,
        alloc,
        shared: &prepared.shared,
    };
    let accept_loop = AcceptLoop {
        context: &context,
        socket: &prepared.socket,
    };
    let mounts = MountLoop {
        context: &context,
        point: MountPoint {
            path: options.mountpoint,
            unmounter: prepared.unmounter.number(),
            owner: prepared.owner,
            valid: options.valid,
        },
    };
    let ran = open(&accept_loop, &mounts, out);
    prepared.socket.remove(rt, options.socket);
    ran
}

/// What is made before a daemon comes.
#[derive(Drop)]
struct Prepared<P: OpenProcess + Drop> {
    shared: SharedDesk,
    owner: FileOwner,
    unmounter: Unmounter<P>,
    socket: BrokerSocket,
}

/// Makes what a mount with these `options` wants before a daemon comes. The socket is the last of it, so that no daemon
/// comes to a broker that can't mount.
fn prepare<R: Clock + Files<File = File> + Net + Processes>(
    rt: &R,
    alloc: Global,
    options: &MountOptions<'_>,
) -> Result<Prepared<R::Started>, MountRunFault> {
    let shared = make_shared_desk(rt, alloc, options)?;
    let owner = owner_by(rt, options).map_err(MountRunFault::CannotMount)?;
    let unmounter = Unmounter::start(rt, alloc).map_err(MountRunFault::CannotMount)?;
    let socket = BrokerSocket::listen(rt, alloc, options.socket).map_err(
        MountRunFault::CannotListen,
    )?;
    Ok(Prepared {
        shared,
        owner,
        unmounter,
        socket,
    })
}

/// Makes the shared desk, once the file of what the kernel holds is made, and device and mountpoint are as a mount
/// wants them.
fn make_shared_desk<R: Files<File = File> + Processes>(
    rt: &R,
    alloc: Global,
    options: &MountOptions<'_>,
) -> Result<SharedDesk, MountRunFault> {
    let log = open_log(rt, alloc, options.log)?;
    let _device = open_device(rt).map_err(MountRunFault::NoDevice)?;
    check_place(rt, alloc, options.mountpoint).map_err(MountRunFault::CannotMount)?;
    match SharedDesk::of_mount(alloc, log) {
        Ok(shared) => Ok(shared),
        Err(NoMemory) => Err(MountRunFault::NoMemory),
    }
}

/// Returns who owns the files of a mount with these `options`.
fn owner_by<R: Files>(rt: &R, options: &MountOptions<'_>) -> io::Result<FileOwner> {
    match options.owner {
        Some(owner) => Ok(owner),
        None => own_user(rt),
    }
}

/// Opens the file in which it is noted what the kernel holds, unless `path` is empty.
fn open_log<R: Files<File = File>>(
    rt: &R,
    alloc: Global,
    path: &str,
) -> Result<Option<BufWriter<File>>, MountRunFault> {
    if path.is_empty() {
        return Ok(None);
    }
    let file = File::create(rt, path).map_err(MountRunFault::NoLog)?;
    match BufWriter::new(alloc, file) {
        Ok(log) => Ok(Some(log)),
        Err(_refused) => Err(MountRunFault::NoMemory),
    }
}

/// Returns the fault of a broker whose thread for its lines was not made for this error.
fn unmade(error: &io::Error) -> MountRunFault {
    match error.kind() {
        ErrorKind::OutOfMemory => MountRunFault::NoMemory,
        _ => MountRunFault::NoThread,
    }
}

/// Returns how a broker ran that printed nothing, and ends by `fault`.
fn fails<W: Unblock + Drop>(out: W, fault: MountRunFault) -> MountRun<W>
    ensures runs { RunsMount result.ended (W.contents out) (W.contents result.out) }
{
    MountRun {
        out,
        ended: Err(fault),
    }
}

/// Accepts connections in a thread while mounts are served.
fn open<R: Threads + Wait + Clock + Files<File = File> + Processes + Sync, W: Unblock + Drop>(
    accept_loop: &AcceptLoop<'_, R>,
    mounts: &MountLoop<'_, R>,
    out: W,
) -> MountRun<W>
    ensures runs { RunsMount result.ended (W.contents out) (W.contents result.out) }
{
    thread::scope(
        thread::scope_env(),
        accept_loop.context.rt,
        move |scope| -> MountRun<W>
            ensures { RunsMount result.ended (W.contents out) (W.contents result.out) }
        { open_within(scope, accept_loop, mounts, out) },
    )
}

/// Accepts connections in a thread of a scope while mounts are served, and ends them all then.
fn open_within<
    's,
    'e: 's,
    R: Threads + Wait + Clock + Files<File = File> + Processes + Sync + 's,
    W: Unblock + Drop,
>(
    scope: &Scope<'s, &'e ()>,
    accept_loop: &'e AcceptLoop<'e, R>,
    mounts: &MountLoop<'_, R>,
    out: W,
) -> MountRun<W>
    ensures runs { RunsMount result.ended (W.contents out) (W.contents result.out) }
{
    if !accept_loop.start(scope) {
        return fails(out, MountRunFault::NoThread);
    }
    let (rt, shared) = (accept_loop.context.rt, accept_loop.context.shared);
    let mut out = out;
    let ended = mounts.serve_mounts(&mut out);
    shared.close(rt);
    if ended.is_ok() {
        shared.wait_for_all(rt);
    }
    accept_loop.end();
    MountRun { out, ended }
}

/// The mounts of a broker, one after another at the same place.
#[derive(Drop)]
struct MountLoop<'a, R> {
    context: &'a BrokerContext<'a, R>,
    point: MountPoint<'a>,
}

impl<R: Threads + Wait + Clock + Files<File = File> + Processes + Sync> MountLoop<'_, R> {
    /// Serves a mount for each daemon that mounts, one after another, until somebody unmounts.
    fn serve_mounts<W: Unblock>(&self, out: &mut W) -> Result<(), MountRunFault>
        ensures runs { RunsMount result (W.contents out.old) (W.contents out.new) }
    {
        let (rt, shared) = (self.context.rt, self.context.shared);
        for _ in rt.forever() {
            let generation = shared.begin_mount(rt);
            let ended = self.serve_mount(generation, out);
            shared.end_mount(rt);
            let end = match ended {
                Ok(end) => end,
                Err(fault) => return Err(fault),
            };
            print_end(out, end);
            match end {
                MountEnd::Unmounted => return Ok(()),
                MountEnd::Dead => {}
            }
        }
        unreachable!()
    }

    /// Mounts for the daemon of the seat at `generation`, and serves until the mount ends.
    fn serve_mount<W: Unblock>(
        &self,
        generation: u64,
        out: &mut W,
    ) -> Result<MountEnd, MountRunFault>
        ensures prints { PrintsMount generation result (W.contents out.old) (W.contents out.new) }
    {
        let mounted = match self.make_mount(generation) {
            Ok(mounted) => mounted,
            Err(fault) => return Err(fault),
        };
        let rt = self.context.rt;
        self.context.shared.note_agreed(rt, generation);
        print_mounted(out, generation);
        let service = MountService {
            context: self.context,
            mountpoint: self.point.path,
            began: generation,
            own: MountAttributes {
                since: now(rt),
                owner: self.point.owner,
                valid: self.point.valid,
            },
        };
        service.serve(mounted)
    }

    /// Mounts for the daemon that has the seat at `generation`.
    fn make_mount(&self, generation: u64) -> Result<Mounted, MountRunFault> {
        let (rt, alloc) = (self.context.rt, self.context.alloc);
        let path = self.point.path;
        clear_dead_mount(rt, alloc, path).map_err(MountRunFault::CannotMount)?;
        let source = self.point.source(alloc, generation)?;
        let device = open_device(rt).map_err(MountRunFault::NoDevice)?;
        mount(rt, alloc, &device, source.as_str(), path).map_err(MountRunFault::CannotMount)?;
        let control = Control::open(rt, alloc, source.as_str());
        Ok(Mounted { device, control })
    }
}

/// Prints that a mount began at `generation`.
fn print_mounted<W: Unblock>(out: &mut W, generation: u64)
    ensures printed { Appends (W.contents out.old) (W.contents out.new) (mounted_line generation) }
{
    out.print(format_args!("mounted {generation}"));
}

/// Prints how a mount ended.
fn print_end<W: Unblock>(out: &mut W, end: MountEnd)
    ensures printed { Appends (W.contents out.old) (W.contents out.new) (end_line end) }
{
    match end {
        MountEnd::Unmounted => out.print("ended"),
        MountEnd::Dead => out.print("dead"),
    }
}

/// Returns the time, or 1970 where the clock tells none.
fn now<R: Clock>(rt: &R) -> MountTime {
    let since = match SystemTime::now(rt) {
        Ok(time) => time.duration_since(UNIX_EPOCH).unwrap_or_default(),
        Err(_) => Duration::default(),
    };
    MountTime {
        seconds: since.as_secs(),
        nanoseconds: since.subsec_nanos(),
    }
}
