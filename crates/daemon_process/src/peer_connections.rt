//! The connections of peers, which are other daemons.
ghost use Rattle.std.specs.Prelude.{◌≡◌, ◌||◌, false, true, not, length, IsSome};
ghost use Rattle.daemon_process.specs.PeerQueue.{TakesFirst, admission, gives_way, has_place, silent_for};

use crate::peer_queue::{Admission, OfferingPeer, PeerQueue};
use links::Frame;
use monitor::{Condition, Look, Monitor};
use std::alloc::Global;
use std::mem;
use std::net::Shutdown;
use std::os::unix::net::UnixStream;
use std::sync::Wait;
use std::time::Duration;

/// How long a connection waits for a place before it takes that of another one, in microseconds. Each of 64 that said
/// nothing yet so has 12 milliseconds to offer, however many come.
const MOMENT: u64 = 200;

/// How long a connection waits for a place where all others offered, in milliseconds.
const PAUSE: u64 = 10;

/// The state of the peers' connections, which the lock protects.
#[derive(Drop)]
struct PeerConnectionsState {
    queue: PeerQueue,
    /// A handle of the connection that is served now.
    current: Option<UnixStream>,
    /// Whether the connection that is served now has a takeover under way.
    is_engaged: bool,
    /// Whether the connection that is served now was sent away: it was shut down, since another one offered.
    is_sent_away: bool,
    is_over: bool,
}

/// The connections of other daemons: at most 64 are heard side by side, and of those that offered one is served at a
/// time.
#[derive(Drop)]
pub(crate) struct PeerConnections {
    state: Monitor<PeerConnectionsState>,
    changes: Condition,
}

/// How a connection enters.
#[derive(Clone, Copy)]
pub(crate) enum Admitted {
    /// It is heard by this number.
    Heard(u64),
    /// Memory was refused.
    Refused,
    /// No connection is let in any more.
    Over,
}

impl PeerConnectionsState {
    /// Shuts down the connection that is served now, if another one offered and no takeover is under way.
    fn send_away(&mut self)
        ensures sent { self.new.is_sent_away ≡ (self.old.is_sent_away
            || gives_way self.old.is_engaged (length self.old.queue.offers.items)) }
        ensures engaged { self.new.is_engaged ≡ self.old.is_engaged }
        ensures queue { self.new.queue ≡ self.old.queue }
    {
        if self.is_engaged || !self.queue.has_offer() {
            return;
        }
        if let Some(current) = &self.current {
            let _ended = current.shutdown(Shutdown::Both);
        }
        self.is_sent_away = true;
    }

    /// Takes the connection that offered first, which has a takeover under way by that.
    fn take(&mut self) -> Option<OfferingPeer>
        ensures first { TakesFirst result self.old.queue.offers.items self.new.queue.offers.items }
        ensures silent { self.new.queue.silent.items ≡ self.old.queue.silent.items }
        ensures engaged { IsSome result → self.new.is_engaged ≡ true }
        ensures sent { IsSome result → self.new.is_sent_away ≡ false }
    {
        let offer = self.queue.take()?;
        self.current = offer.stream.try_clone().ok();
        self.is_engaged = true;
        self.is_sent_away = false;
        Some(offer)
    }

    /// Makes a place for a connection that comes, if there may be one by now. Returns whether there is.
    fn has_place(&mut self, is_late: bool) -> bool
        ensures place { result ≡ has_place (admission (length self.old.queue.silent.items)
            (length self.old.queue.offers.items) is_late) }
        ensures silent { self.new.queue.silent.items ≡ silent_for (admission
            (length self.old.queue.silent.items) (length self.old.queue.offers.items) is_late)
            self.old.queue.silent.items }
        ensures offers { self.new.queue.offers.items ≡ self.old.queue.offers.items }
    {
        match self.queue.admission(is_late) {
            Admission::Enters => true,
            Admission::Replaces => {
                self.queue.replace();
                true
            }
            Admission::Waits => false,
        }
    }

    /// Lets the connection `entering` in, for which there is a place.
    fn admit(&mut self, entering: Option<UnixStream>) -> Admitted {
        match entering.and_then(|stream| self.queue.enter(stream)) {
            Some(number) => Admitted::Heard(number),
            None => Admitted::Refused,
        }
    }

    /// Notes that the served connection has a takeover under way, unless that was sent away. Returns whether it may
    /// stay.
    fn stay(&mut self) -> bool
        ensures stays { result ≡ not self.old.is_sent_away }
        ensures engaged { self.new.is_engaged ≡ (self.old.is_engaged || not self.old.is_sent_away) }
        ensures sent { self.new.is_sent_away ≡ self.old.is_sent_away }
        ensures queue { self.new.queue ≡ self.old.queue }
    {
        if self.is_sent_away {
            return false;
        }
        self.is_engaged = true;
        true
    }

    /// Notes that the served connection has no takeover under way, and sends it away if another one offered.
    fn make_way(&mut self)
        ensures sent { self.new.is_sent_away ≡ (self.old.is_sent_away
            || gives_way false (length self.old.queue.offers.items)) }
        ensures engaged { self.new.is_engaged ≡ false }
        ensures queue { self.new.queue ≡ self.old.queue }
    {
        self.is_engaged = false;
        self.send_away();
    }
}

impl PeerConnections {
    /// Makes the connections of peers. None is there yet.
    pub(crate) fn new(alloc: Global) -> PeerConnections {
        PeerConnections {
            state: Monitor::new(PeerConnectionsState {
                queue: PeerQueue::new(alloc),
                current: None,
                is_engaged: false,
                is_sent_away: false,
                is_over: false,
            }),
            changes: Condition::new(),
        }
    }

    /// Lets a connection in by a handle of it, once there is a place. Where all are taken it soon takes that of the
    /// oldest one that said nothing yet.
    pub(crate) fn enter<R: Wait>(&self, rt: &R, stream: UnixStream) -> Admitted {
        let mut entering = Some(stream);
        let mut pause = Duration::from_micros(MOMENT);
        let mut is_late = false;
        self.state.wait_until(rt, &self.changes, |state| {
            if state.is_over {
                return Look::Found(Admitted::Over);
            }
            if state.has_place(is_late) {
                return Look::Found(state.admit(entering.take()));
            }
            is_late = true;
            Look::Again(mem::replace(&mut pause, Duration::from_millis(PAUSE)))
        })
    }

    /// Notes that a connection ended, or said what is no offer.
    pub(crate) fn leave<R: Wait>(&self, rt: &R, number: u64) {
        let left = self.state.lock(rt).queue.leave(number);
        drop(left);
        self.changes.notify_all();
    }

    /// Notes that a connection offered by `frame`. If the served connection has no takeover under way, it is sent away.
    pub(crate) fn offer<R: Wait>(&self, rt: &R, number: u64, frame: Frame) {
        self.state.change(rt, &self.changes, |state| {
            state.queue.offer(number, frame);
            state.send_away();
        });
    }

    /// Returns the connection that offered first, which is served from then on; none where no connection is let in any
    /// more.
    pub(crate) fn next<R: Wait>(&self, rt: &R) -> Option<OfferingPeer> {
        let offer = self.state.wait_until(rt, &self.changes, |state| {
            if state.is_over {
                return Look::Found(None);
            }
            Look::of(state.take().map(Some))
        })?;
        self.changes.notify_all();
        Some(offer)
    }

    /// Notes that the served connection has a takeover under way, unless that connection was sent away. Returns whether
    /// it may stay.
    pub(crate) fn stay<R: Wait>(&self, rt: &R) -> bool {
        self.state.lock(rt).stay()
    }

    /// Notes that the served connection has no takeover under way, and sends it away if another one offered.
    pub(crate) fn make_way<R: Wait>(&self, rt: &R) {
        self.state.lock(rt).make_way();
    }

    /// Notes that the connection that was served is served no more.
    pub(crate) fn finish<R: Wait>(&self, rt: &R) {
        let mut state = self.state.lock(rt);
        let before = state.current.take();
        drop(state);
        drop(before);
    }

    /// Ends all connections, and lets none in any more.
    pub(crate) fn end<R: Wait>(&self, rt: &R) {
        self.state.change(rt, &self.changes, |state| {
            state.is_over = true;
            state.queue.end_all();
            if let Some(current) = &state.current {
                let _ended = current.shutdown(Shutdown::Both);
            }
        });
    }

    /// Returns whether no connection is let in any more.
    pub(crate) fn is_over<R: Wait>(&self, rt: &R) -> bool {
        self.state.lock(rt).is_over
    }
}
