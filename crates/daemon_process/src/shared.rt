//! What the threads of a daemon share.
ghost use Rattle.std.specs.Prelude.{◌≡◌, ◌⊎◌, ◌&&◌, ◌||◌, None, Some, false, is_some, true};
ghost use Rattle.std.specs.Option.{IfSome};
ghost use Rattle.takeover_core.specs.declared.phase.Phase.TheVariants.{Serving};
ghost use Rattle.daemon.specs.Daemon.{lent_server};
ghost use Rattle.daemon_desk.specs.Desk.{Hears, returned};
ghost use Rattle.daemon_process.specs.Ending.{ending_before};
ghost use Rattle.daemon_process.specs.Serving.{ComesNext, DrainsWith, EndsDrain, IsServing, ends_in, last_step, served_next, stops_behind, stops_next};
ghost use Rattle.daemon_process.specs.declared.exit.DaemonEnd.TheVariants.{Closed};
ghost use Rattle.daemon_process.specs.declared.shared.NextStep.TheVariants.{Close};

use crate::exit::{DaemonEnd, Exit};
use crate::fault::DaemonFault;
use crate::silence::Silences;
use daemon::Lease;
use daemon_desk::{Claiming, DaemonDesk, Hearing, Mounting};
use eden_base::NoMemory;
use links::Frame;
use monitor::{Condition, Look, Monitor, Patience};
use non_blocking::Notes;
use std::alloc::Global;
use std::mem;
use std::net::Shutdown;
use std::os::unix::net::UnixStream;
use std::rt::Clock;
use std::sync::{Arc, Wait};
use std::time::Duration;
use takeover_core::Phase;
use workers::Stop;

/// The state of a daemon, which the lock protects.
#[derive(Drop)]
struct SharedState {
    desk: DaemonDesk,
    /// The stop of the round that runs or comes next, until a round is asked to stop.
    stop: Option<Arc<Stop>>,
    /// How often a round was asked to stop; 0 follows the greatest count.
    stops: u64,
    exit: Option<Exit>,
    /// Whether the main thread has ended.
    is_finished: bool,
    /// Whether standard input ended, so that the daemon is to end.
    is_closed: bool,
    /// Whether replies wait in the workers' channels for the bytes of files. While a round runs it posts them, and this is
    /// false.
    is_waiting: bool,
    /// A handle of the connection at which the daemon waits before it serves, if it waits.
    waits_at: Option<UnixStream>,
}

/// The stop of a round.
#[derive(Drop)]
pub(crate) struct RoundStop {
    pub(crate) stop: Arc<Stop>,
    /// How often rounds were asked to stop before.
    pub(crate) stops: u64,
}

/// The next step of a daemon's main thread.
#[derive(Drop)]
pub(crate) enum NextStep {
    /// Serves a round until the round is asked to stop.
    Serve(Lease, RoundStop),
    /// Waits a moment, since memory was refused.
    Pause,
    /// Posts the replies whose bytes have come: a daemon that drains waits for all of them.
    PostReady,
    /// Posts all replies that wait for the bytes of files, since the daemon ends.
    Finish,
    Exit(Exit),
    /// Ends, since standard input ended.
    Close,
}

/// What came of waiting until a daemon has drained.
#[derive(Drop)]
pub(crate) enum Draining {
    /// It has drained, and says this to the other daemon.
    Ready(Frame),
    /// Replies waited too long for the bytes of files.
    Late,
    /// The daemon is over.
    Over,
}

/// The state of a daemon under a lock, and the condition by which its threads hear of changes.
#[derive(Drop)]
pub(crate) struct Shared {
    state: Monitor<SharedState>,
    changes: Condition,
    notes: Notes,
    silences: Silences,
}

impl SharedState {
    /// Returns what the main thread does next; none if it waits for a change. The end of standard input ends the daemon
    /// if `until_closed`.
    #[tactic(auto, using(crate::proofs::NextRound::serves_at))]
    fn next(&mut self, alloc: Global, until_closed: bool) -> Option<NextStep>
        ensures next { ComesNext self.old.exit (until_closed && self.old.is_closed) self.old.is_waiting self.old.desk result }
        ensures closes { result ≡ Some Close → until_closed ≡ true }
        ensures serves { IfSome (served_next result) (λ lease.
            self.old.desk.daemon.node.phase ≡ Serving lease.generation) }
        ensures stops { IfSome (stops_next result) (λ stops. stops ≡ self.old.stops) }
        ensures kept { self.new.stops ≡ self.old.stops }
        ensures posts { IfSome (served_next result) (λ lease. self.new.is_waiting ≡ false) }
    {
        if let Some(exit) = self.exit {
            return Some(NextStep::Exit(exit));
        }
        if self.ends(until_closed) {
            return Some(self.last_step());
        }
        if self.desk.drains() {
            return self.is_waiting.then_some(NextStep::PostReady);
        }
        let Ok(stop) = self.stop_of_round(alloc) else {
            return Some(NextStep::Pause);
        };
        let lease = self.desk.lend()?;
        self.is_waiting = false;
        let stops = self.stops;
        Some(NextStep::Serve(lease, RoundStop { stop, stops }))
    }

    /// Returns whether the daemon ends, since standard input ended, it is to end by that if `until_closed`, and no takeover is
    /// under way.
    fn ends(&self, until_closed: bool) -> bool
        ensures ends { result ≡ ends_in (until_closed && self.now.is_closed) self.now.desk.daemon.node.phase }
    {
        if !until_closed || !self.is_closed {
            return false;
        }
        matches!(self.desk.phase(), Phase::Serving { .. })
    }

    /// Returns the last step of a daemon that ends: to end, behind the one in which the replies are posted that wait.
    fn last_step(&self) -> NextStep
        ensures last { result ≡ last_step self.now.is_waiting }
    {
        if self.is_waiting {
            NextStep::Finish
        } else {
            NextStep::Close
        }
    }

    /// Takes back the lease of a round, behind which replies wait if `is_waiting`.
    fn take_back(&mut self, lease: Lease, is_waiting: bool)
        ensures desk { self.new.desk ≡ returned self.old.desk (lent_server lease) }
        ensures waiting { self.new.is_waiting ≡ is_waiting }
        ensures exit { self.new.exit ≡ self.old.exit }
    {
        self.desk.take_back(lease);
        self.is_waiting = is_waiting;
    }

    /// Returns the frame that says that the daemon is ready to hand over, if it has drained: no workers have a lease, and no
    /// reply waits.
    fn drained(&mut self) -> Option<Frame>
        ensures drains { DrainsWith self.old.is_waiting self.old.desk result self.new.desk }
        ensures exit { self.new.exit ≡ self.old.exit }
        ensures waiting { self.new.is_waiting ≡ self.old.is_waiting }
    {
        if self.is_waiting {
            return None;
        }
        self.desk.drained()
    }

    /// Returns what ends a drain whose patience is over if `is_spent`; none if the drain goes on. It is late only for replies
    /// that wait: a round that doesn't end is waited for.
    fn drain(&mut self, is_spent: bool) -> Option<Draining>
        ensures ends { EndsDrain (is_some self.old.exit || self.old.is_finished) self.old.is_waiting is_spent self.old.desk
            result self.new.desk }
        ensures exit { self.new.exit ≡ self.old.exit }
    {
        if self.is_over() {
            return Some(Draining::Over);
        }
        match self.drained() {
            Some(ready) => Some(Draining::Ready(ready)),
            None => (self.is_waiting && is_spent).then_some(Draining::Late),
        }
    }

    /// Returns whether the daemon's exit is noted, or its main thread has ended.
    fn is_over(&self) -> bool
        ensures over { result ≡ (is_some self.now.exit || self.now.is_finished) }
    {
        self.exit.is_some() || self.is_finished
    }

    /// Returns the stop of the next round: that of the last round, or a new one if the last round was asked to stop.
    fn stop_of_round(&mut self, alloc: Global) -> Result<Arc<Stop>, NoMemory>
        ensures desk { self.new.desk ≡ self.old.desk }
        ensures exit { self.new.exit ≡ self.old.exit }
        ensures stops { self.new.stops ≡ self.old.stops }
    {
        if let Some(stop) = &self.stop {
            return Ok(Arc::try_clone(stop)?);
        }
        let stop = Arc::new(alloc, Stop::new())?;
        let again = Arc::try_clone(&stop)?;
        self.stop = Some(stop);
        Ok(again)
    }

    /// Takes in a frame of another daemon. Asks the round to stop if the daemon doesn't serve after that.
    fn hear(&mut self, frame: &Frame) -> Hearing
        ensures hears { Hears self.old.desk frame.now result self.new.desk }
        ensures exit { self.new.exit ≡ self.old.exit }
        ensures stops { IsServing self.new.desk.daemon.node.phase ⊎ (self.new.stop ≡ None) }
    {
        let heard = self.desk.hear(frame);
        if !matches!(self.desk.phase(), Phase::Serving { .. }) {
            self.stop_round();
        }
        heard
    }

    /// Notes that standard input ended. Asks the round to stop, and ends the connection at which the daemon waits.
    fn close(&mut self)
        ensures closed { self.new.is_closed ≡ true }
        ensures none { self.new.stop ≡ None }
        ensures desk { self.new.desk ≡ self.old.desk }
        ensures exit { self.new.exit ≡ self.old.exit }
    {
        self.stop_round();
        if let Some(stream) = self.waits_at.take() {
            let _ended = stream.shutdown(Shutdown::Both);
        }
        self.is_closed = true;
    }

    /// Asks the round that runs to stop, if one may run.
    fn stop_round(&mut self)
        ensures stops { self.new.stops ≡ stops_behind (is_some self.old.stop) self.old.stops }
        ensures none { self.new.stop ≡ None }
        ensures desk { self.new.desk ≡ self.old.desk }
        ensures exit { self.new.exit ≡ self.old.exit }
    {
        if let Some(stop) = self.stop.take() {
            stop.ask();
            self.stops = self.stops.wrapping_add(1);
        }
    }
}

impl Shared {
    /// Makes the shared state over `daemon`, with no exit and no round. Notes are said by `notes`.
    pub(crate) fn new(daemon: DaemonDesk, notes: Notes) -> Shared {
        Shared {
            state: Monitor::new(SharedState {
                desk: daemon,
                stop: None,
                stops: 0,
                exit: None,
                is_finished: false,
                is_closed: false,
                is_waiting: false,
                waits_at: None,
            }),
            changes: Condition::new(),
            silences: Silences::new(notes.again()),
            notes,
        }
    }

    /// Returns where it is noted that the broker is silent.
    pub(crate) fn silences(&self) -> &Silences {
        &self.silences
    }

    /// Returns the handle by which threads say notes.
    pub(crate) fn notes(&self) -> &Notes {
        &self.notes
    }

    /// Makes the state that the daemon serves once it mounts, before it asks for the mount.
    pub(crate) fn prepare<R: Wait>(&self, rt: &R) -> Result<(), NoMemory> {
        self.state.lock(rt).desk.prepare()
    }

    /// Takes in the broker's answer to a Mount frame.
    pub(crate) fn take_mount<R: Wait>(&self, rt: &R, answer: &Frame) -> Mounting {
        self.state.lock(rt).desk.take_mount(answer)
    }

    /// Returns the frame in which a new daemon offers its versions of the image.
    pub(crate) fn offer<R: Wait>(&self, rt: &R) -> Frame {
        self.state.lock(rt).desk.offer()
    }

    /// Returns the daemon's phase: how far it is in a takeover.
    pub(crate) fn phase<R: Wait>(&self, rt: &R) -> Phase {
        self.state.lock(rt).desk.phase()
    }

    /// Returns whether `frame` brings the beginning of data that names another manifest than the daemon's.
    pub(crate) fn is_of_another_manifest<R: Wait>(&self, rt: &R, frame: &Frame) -> bool {
        self.state.lock(rt).desk.is_of_another_manifest(frame)
    }

    /// Takes in a frame of another daemon, and signals a change.
    pub(crate) fn hear<R: Wait>(&self, rt: &R, frame: &Frame) -> Hearing {
        self.state
            .change(rt, &self.changes, |state| state.hear(frame))
    }

    /// Ends the daemon's part in a takeover, and returns the frame to send to the other daemon, if there is one.
    pub(crate) fn give_up<R: Wait>(&self, rt: &R) -> Option<Frame> {
        self.state
            .change(rt, &self.changes, |state| state.desk.give_up())
    }

    /// Returns the frame of the claim that the daemon wants to make, if it wants to make one.
    pub(crate) fn claim<R: Wait>(&self, rt: &R) -> Option<Frame> {
        self.state.lock(rt).desk.claim()
    }

    /// Takes in the broker's answer to a Claim frame.
    pub(crate) fn take_claim<R: Wait>(&self, rt: &R, answer: &Frame) -> Claiming {
        self.state
            .change(rt, &self.changes, |state| state.desk.take_claim(answer))
    }

    /// Waits until the main thread has something to do, and returns what that is. The end of standard input ends
    /// the daemon if `until_closed`.
    pub(crate) fn next<R: Wait>(&self, rt: &R, alloc: Global, until_closed: bool) -> NextStep
        ensures closes { result ≡ Close → until_closed ≡ true }
    {
        self.state.wait_until(rt, &self.changes, |state| {
            Look::of(state.next(alloc, until_closed))
        })
    }

    /// Takes a round's lease back. `is_waiting` says whether replies wait in the workers' channels.
    pub(crate) fn take_back<R: Wait>(&self, rt: &R, lease: Lease, is_waiting: bool) {
        self.state.change(rt, &self.changes, |state| {
            state.take_back(lease, is_waiting)
        });
    }

    /// Notes whether replies wait in the workers' channels, of which some may have been posted.
    pub(crate) fn note_waiting<R: Wait>(&self, rt: &R, is_waiting: bool) {
        self.state
            .change(rt, &self.changes, |state| state.is_waiting = is_waiting);
    }

    /// Waits until the workers gave their lease back, and then for `longest` at most until no reply waits for the bytes of a
    /// file.
    pub(crate) fn drain<R: Wait + Clock>(&self, rt: &R, longest: Duration) -> Draining {
        let mut patience = Patience::start(rt, longest);
        self.state.wait_until(rt, &self.changes, |state| {
            if !state.is_waiting {
                patience = Patience::start(rt, longest);
            }
            match state.drain(patience.look(rt)) {
                Some(end) => Look::Found(end),
                None => Look::Again(patience.slice()),
            }
        })
    }

    /// Notes that standard input ended, and signals a change.
    pub(crate) fn close<R: Wait>(&self, rt: &R) {
        self.state.change(rt, &self.changes, |state| state.close());
    }

    /// Notes the connection at which the daemon waits before it serves; none if it waits at none. The end of standard
    /// input ends that connection. Returns an exit, if standard input has ended.
    pub(crate) fn wait_at<R: Wait>(&self, rt: &R, stream: Option<UnixStream>) -> Result<(), Exit> {
        let mut state = self.state.lock(rt);
        let is_closed = state.is_closed;
        let before = mem::replace(&mut state.waits_at, stream);
        drop(state);
        drop(before);
        if is_closed {
            return Err(Exit::Faulty(DaemonFault::Broken));
        }
        Ok(())
    }

    /// Returns how a daemon ends that did not get to serve: by the end of standard input, if that has come and
    /// `until_closed`, else by `exit`.
    pub(crate) fn ending_before<R: Wait>(&self, rt: &R, exit: Exit, until_closed: bool) -> DaemonEnd
        ensures closes { result ≡ Closed → until_closed ≡ true }
    {
        ending_before(until_closed && self.state.lock(rt).is_closed, exit)
    }

    /// Notes the daemon's exit, unless one is noted.
    pub(crate) fn end<R: Wait>(&self, rt: &R, exit: Exit) {
        self.state.change(rt, &self.changes, |state| {
            if state.exit.is_none() {
                state.exit = Some(exit);
            }
        });
    }

    /// Notes that the main thread has ended.
    pub(crate) fn finish<R: Wait>(&self, rt: &R) {
        self.state
            .change(rt, &self.changes, |state| state.is_finished = true);
    }

    /// Returns whether the daemon's exit is noted, or its main thread has ended.
    pub(crate) fn is_over<R: Wait>(&self, rt: &R) -> bool {
        self.state.lock(rt).is_over()
    }
}

/// Returns how a daemon ends that did not get to serve: by the end of standard input if `is_closed`, else by `exit`.
fn ending_before(is_closed: bool, exit: Exit) -> DaemonEnd
    ensures ending { result ≡ ending_before is_closed exit }
{
    if is_closed {
        DaemonEnd::Closed
    } else {
        DaemonEnd::Exits(exit)
    }
}
