//! A broker whose kernel is a script, from the start of its socket to the end.
ghost use Rattle.std.specs.Prelude.{◌≡◌, Err, All};
ghost use Rattle.broker_process.specs.Playing.{RunsBroker};
ghost use Rattle.script_lines.specs.BrokerLine.{IsSendableLine};

use crate::accept_loop::AcceptLoop;
use crate::broker_socket::BrokerSocket;
use crate::context::BrokerContext;
use crate::fault::BrokerFault;
use crate::script::play;
use crate::shared_desk::SharedDesk;
use broker_script::BrokerLine;
use eden_base::NoMemory;
use std::alloc::Global;
use std::io::Write;
use std::net::Net;
use std::rt::{Clock, Files};
use std::sync::Wait;
use std::thread;
use std::thread::{Scope, Threads};

/// How a broker ran, with the writer of its lines.
#[derive(Drop)]
pub struct BrokerRun<W> {
    pub out: W,
    pub ended: Result<(), BrokerFault>,
}

/// Plays the kernel by `script` for daemons that connect to the socket at a path, and writes the result of each line to
/// `out`. Returns when every daemon left, and removes the socket.
pub fn run_broker<R: Threads + Wait + Clock + Files + Net + Sync, W: Write + Drop>(
    rt: &R,
    alloc: Global,
    socket: &str,
    script: &[BrokerLine],
    out: W,
) -> BrokerRun<W>
    requires sendable { All IsSendableLine script.now }
    ensures runs { RunsBroker script.now result.ended (W.contents out) (W.contents result.out) }
{
    let shared = match SharedDesk::of_script(alloc) {
        Ok(shared) => shared,
        Err(NoMemory) => return fails(out, BrokerFault::NoMemory),
    };
    let listening = match BrokerSocket::listen(rt, alloc, socket) {
        Ok(listening) => listening,
        Err(error) => return fails(out, BrokerFault::CannotListen(error)),
    };
    let context = BrokerContext {
        rt,
        alloc,
        shared: &shared,
    };
    let accept_loop = AcceptLoop {
        context: &context,
        socket: &listening,
    };
    let ran = open(&accept_loop, script, out);
    listening.remove(rt, socket);
    ran
}

/// Returns how a broker ran that printed nothing, and ends by `fault`.
fn fails<W: Write + Drop>(out: W, fault: BrokerFault) -> BrokerRun<W>
    ensures ended { result.ended ≡ Err fault }
    ensures same { W.contents result.out ≡ W.contents out }
{
    BrokerRun {
        out,
        ended: Err(fault),
    }
}

/// Accepts connections in a thread while the script is played.
fn open<R: Threads + Wait + Clock + Sync, W: Write + Drop>(
    accept_loop: &AcceptLoop<'_, R>,
    script: &[BrokerLine],
    out: W,
) -> BrokerRun<W>
    requires sendable { All IsSendableLine script.now }
    ensures runs { RunsBroker script.now result.ended (W.contents out) (W.contents result.out) }
{
    thread::scope(
        thread::scope_env(),
        accept_loop.context.rt,
        move |scope| -> BrokerRun<W>
            requires { All IsSendableLine script.now }
            ensures { RunsBroker script.entry.now result.ended
                (W.contents out) (W.contents result.out) }
        { open_within(scope, accept_loop, script, out) },
    )
}

/// Accepts connections in a thread of a scope while the script is played, and ends them all then.
fn open_within<'s, 'e: 's, R: Threads + Wait + Clock + Sync + 's, W: Write + Drop>(
    scope: &Scope<'s, &'e ()>,
    accept_loop: &'e AcceptLoop<'e, R>,
    script: &[BrokerLine],
    out: W,
) -> BrokerRun<W>
    requires sendable { All IsSendableLine script.now }
    ensures runs { RunsBroker script.now result.ended (W.contents out) (W.contents result.out) }
{
    if !accept_loop.start(scope) {
        return fails(out, BrokerFault::NoThread);
    }
    let (rt, shared) = (accept_loop.context.rt, accept_loop.context.shared);
    let mut out = out;
    let played = play(rt, shared, script, &mut out);
    accept_loop.end();
    match played {
        Ok(()) => BrokerRun { out, ended: Ok(()) },
        Err(error) => BrokerRun {
            out,
            ended: Err(BrokerFault::CannotWrite(error)),
        },
    }
}
