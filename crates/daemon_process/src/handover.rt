//! A serving daemon's part in takeovers.
ghost use Rattle.std.specs.Prelude.{◌≡◌};
ghost use Rattle.daemon_process.specs.Ending.{exit_behind_handover};
ghost use Rattle.daemon_process.specs.Takeovers.{times_of};

use crate::cause::{TakeoverFault, awaited_in, failed_by, is_under_way, loss_by, report};
use crate::context::DaemonContext;
use crate::exit::Exit;
use crate::fault::DaemonFault;
use crate::peer_connections::PeerConnections;
use crate::peer_queue::OfferingPeer;
use crate::sent_frames::send_all;
use crate::shared::Draining;
use daemon_desk::{Claiming, Hearing};
use links::Frame;
use sockets::{Connection, Deadline};
use std::rt::Clock;
use std::sync::Wait;
use std::time::Duration;
use takeover_core::Phase;

/// A silence may last for this many times the patience once the data is out.
const LONGER: u32 = 10;

/// A serving daemon's part in takeovers, and the connections of the daemons that may take over.
#[derive(Drop)]
pub(crate) struct HandoverLoop<'a, R> {
    pub(crate) context: &'a DaemonContext<'a, R>,
    pub(crate) peers: &'a PeerConnections,
    /// How long another daemon may be silent.
    pub(crate) patience: Duration,
}

/// What becomes of a connection by a frame of another daemon.
#[derive(Clone, Copy)]
enum Course {
    GoesOn,
    Ends,
    /// It ends, and with it the takeover that is under way, for this cause.
    Fails(TakeoverFault),
}

impl<R: Wait + Clock> HandoverLoop<'_, R> {
    /// Serves the connections of other daemons that offered one after another, until the daemon ends. It claims the
    /// seat by `broker`.
    pub(crate) fn run(&self, broker: Connection<'_, R>) {
        let (rt, alloc, shared) = (self.context.rt, self.context.alloc, self.context.shared);
        let mut broker = broker;
        for _ in rt.forever() {
            let Some(OfferingPeer { stream, frame }) = self.peers.next(rt) else {
                return;
            };
            let mut cause = None;
            if let Ok(mut connection) = Connection::over(alloc, rt, stream, Some(self.patience)) {
                cause = self.attend(&mut connection, frame);
            }
            self.peers.finish(rt);
            if let (true, Some(cause)) = (self.serves_on(&mut broker), cause) {
                report(rt, shared.notes(), cause);
            }
        }
        unreachable!()
    }

    /// Serves the connection of another daemon, which began by `first`, until it ends. A takeover that is still under
    /// way is given up then. Returns why the takeover failed, if one did and this daemon has the seat still.
    fn attend(&self, connection: &mut Connection<'_, R>, first: Frame) -> Option<TakeoverFault> {
        let cause = self.converse(connection, first);
        if let Some(last) = self.context.shared.give_up(self.context.rt) {
            let _written = connection.write(&last);
        }
        connection.end();
        cause
    }

    /// Hears the frames of another daemon from the first one on, and answers them. It returns when the connection ends,
    /// the other daemon is silent for too long, or this daemon is to claim the seat: with the cause, if that ends a
    /// takeover.
    fn converse(&self, connection: &mut Connection<'_, R>, first: Frame) -> Option<TakeoverFault> {
        let (rt, shared) = (self.context.rt, self.context.shared);
        let mut phase = shared.phase(rt);
        let mut frame = first;
        connection.end_by(Deadline::after(rt, self.patience));
        for _ in rt.forever() {
            if !self.peers.stay(rt) {
                return None;
            }
            let course = self.answer(connection, &frame);
            let now = shared.phase(rt);
            if let Some(failed) = failed_by(phase, &frame, now) {
                if !is_serving(now) {
                    return Some(failed);
                }
                report(rt, shared.notes(), failed);
            }
            match course {
                Course::GoesOn => {}
                Course::Ends => return None,
                Course::Fails(cause) => return cause_under_way(now, cause),
            }
            if now != phase {
                phase = now;
                let silence = self.patience.saturating_mul(times_of(phase));
                connection.end_by(Deadline::after(rt, silence));
            }
            if is_serving(now) {
                self.peers.make_way(rt);
            }
            match connection.read_next() {
                Ok(Some(next)) => frame = next,
                read => {
                    let cause = loss_by(read.err(), connection.is_late(), awaited_in(false, now));
                    return cause_under_way(now, cause);
                }
            }
        }
        unreachable!()
    }

    /// Answers a frame of another daemon.
    fn answer(&self, connection: &mut Connection<'_, R>, frame: &Frame) -> Course {
        let (rt, shared) = (self.context.rt, self.context.shared);
        let heard = shared.hear(rt, frame);
        let phase = shared.phase(rt);
        let awaited = awaited_in(false, phase);
        match heard {
            Hearing::Tells(answers) => {
                if !send_all(connection, answers) {
                    return Course::Fails(TakeoverFault::Unsent(awaited));
                }
            }
            Hearing::Accepts | Hearing::Ignores => {}
            Hearing::Closes => return Course::Fails(TakeoverFault::Unreadable(awaited)),
            Hearing::NoMemory => return Course::Fails(TakeoverFault::NoMemory),
        }
        match phase {
            Phase::Draining { .. } => self.ask_whether_there(connection),
            Phase::Holding { .. } => Course::Ends,
            _ => Course::GoesOn,
        }
    }

    /// Waits until the daemon has drained, for the patience at most, and asks the other one whether it is there to take the data.
    fn ask_whether_there(&self, connection: &mut Connection<'_, R>) -> Course {
        let (rt, shared) = (self.context.rt, self.context.shared);
        let ready = match shared.drain(rt, self.patience) {
            Draining::Ready(ready) => ready,
            Draining::Late => return Course::Fails(TakeoverFault::SlowReads),
            Draining::Over => return Course::Ends,
        };
        match connection.write(&ready) {
            Ok(()) => Course::GoesOn,
            Err(_fault) => Course::Fails(TakeoverFault::Unsent(awaited_in(
                false,
                shared.phase(rt),
            ))),
        }
    }

    /// Claims the seat if the daemon wants to, as it does after a handover. If the daemon ends by that, notes its exit.
    /// Returns whether it serves on.
    fn serves_on(&self, broker: &mut Connection<'_, R>) -> bool {
        let (rt, shared) = (self.context.rt, self.context.shared);
        if shared.is_over(rt) {
            return false;
        }
        if shared.claim(rt).is_none() {
            return true;
        }
        match exit_behind_handover(self.context.claim(broker)) {
            Some(exit) => {
                shared.end(rt, exit);
                false
            }
            None => true,
        }
    }
}

/// Returns `cause`, if a daemon in this phase has a takeover under way.
fn cause_under_way(phase: Phase, cause: TakeoverFault) -> Option<TakeoverFault> {
    is_under_way(phase).then_some(cause)
}

/// Returns whether a daemon in this phase serves, and has no takeover under way.
fn is_serving(phase: Phase) -> bool {
    matches!(phase, Phase::Serving { .. })
}

/// Returns how long another daemon may be silent in a phase, as a multiple of the patience.
fn times_of(phase: Phase) -> u32
    ensures times { result ≡ times_of phase }
{
    match phase {
        Phase::Handed { .. } => LONGER,
        _ => 1,
    }
}

/// Returns how a daemon ends that handed over and then claimed the seat, by the claim's answer; none if it serves on.
fn exit_behind_handover(claiming: Claiming) -> Option<Exit>
    ensures exit { result ≡ exit_behind_handover claiming }
{
    match claiming {
        Claiming::Serves(_) => None,
        Claiming::Stale => Some(Exit::HandedOver),
        Claiming::Ended => Some(Exit::Ended),
        Claiming::Waits | Claiming::LastGeneration | Claiming::Broken => {
            Some(Exit::Faulty(DaemonFault::Broken))
        }
    }
}
