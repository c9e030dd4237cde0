//! The accept loop for peers. The first frame of each connection is heard in a thread of its own.
ghost use Rattle.std.specs.Prelude.{◌≡◌};
ghost use Rattle.daemon_process.specs.PeerQueue.{is_offer};

use crate::context::DaemonContext;
use crate::peer_connections::{Admitted, PeerConnections};
use links::Frame;
use sockets::{Closer, Deadline, First};
use std::os::unix::net::{UnixListener, UnixStream};
use std::rt::Clock;
use std::sync::Wait;
use std::thread;
use std::thread::{Scope, Threads};
use std::time::Duration;
use takeover_core::Message;

/// How long no connection is accepted after an accept failed, in milliseconds.
const PAUSE: u64 = 10;

/// The accept loop for peers: where it accepts connections, and where it lets them in.
#[derive(Drop)]
pub(crate) struct PeerAcceptLoop<'a, R> {
    pub(crate) context: &'a DaemonContext<'a, R>,
    pub(crate) peers: &'a PeerConnections,
    pub(crate) listener: &'a UnixListener,
    /// By it the wait for a connection is ended.
    pub(crate) closer: &'a Closer,
    /// How long a connection may take to offer, before it is closed.
    pub(crate) patience: Duration,
}

impl<R: Threads + Wait + Clock + Send + Sync> PeerAcceptLoop<'_, R> {
    /// Accepts connections until no more are let in, and returns when each of them was heard.
    pub(crate) fn run(&self) {
        thread::scope(
            thread::scope_env(),
            self.context.rt,
            |scope| self.accept_all(scope),
        )
    }

    /// Ends all connections, and lets none in any more.
    pub(crate) fn end(&self) {
        self.peers.end(self.context.rt);
        self.closer.close();
    }

    /// Accepts connections until no more are let in.
    fn accept_all<'s, 'e: 's>(&'e self, scope: &Scope<'s, &'e ()>)
    where
        R: 's,
    {
        for stream in self.listener.incoming() {
            if self.peers.is_over(self.context.rt) {
                return;
            }
            match stream {
                Ok(stream) => self.admit(scope, stream),
                Err(_failed) => thread::sleep(self.context.rt, Duration::from_millis(PAUSE)),
            }
        }
    }

    /// Lets a connection in once it may come, unless it is gone by then or said what is no offer.
    fn admit<'s, 'e: 's>(&'e self, scope: &Scope<'s, &'e ()>, stream: UnixStream)
    where
        R: 's,
    {
        match First::look(self.context.alloc, stream) {
            First::Frame(frame, stream) => {
                if is_offer(&frame) {
                    self.admit_offer(stream, frame);
                }
            }
            First::Silent(stream) => self.admit_silent(scope, stream),
            First::Gone => {}
        }
    }

    /// Lets a connection in that offered.
    fn admit_offer(&self, stream: UnixStream, frame: Frame) {
        if let Admitted::Heard(number) = self.peers.enter(self.context.rt, stream) {
            self.peers.offer(self.context.rt, number, frame);
        }
    }

    /// Lets a connection in that said nothing yet, and hears it in a thread of its own. It is closed if none can be
    /// made.
    fn admit_silent<'s, 'e: 's>(&'e self, scope: &Scope<'s, &'e ()>, stream: UnixStream)
    where
        R: 's,
    {
        let Ok(handle) = stream.try_clone() else {
            return;
        };
        if let Admitted::Heard(number) = self.peers.enter(self.context.rt, handle) {
            if scope.spawn(move || self.hear(number, stream)).is_err() {
                self.peers.leave(self.context.rt, number);
            }
        }
    }

    /// Hears the first frame of a connection.
    fn hear(&self, number: u64, stream: UnixStream) {
        let deadline = Deadline::after(self.context.rt, self.patience);
        match First::wait(self.context.alloc, self.context.rt, stream, deadline) {
            Some(frame) if is_offer(&frame) => self.peers.offer(self.context.rt, number, frame),
            _ => self.peers.leave(self.context.rt, number),
        }
    }
}

/// Returns whether a frame is a daemon's offer.
fn is_offer(frame: &Frame) -> bool
    ensures offer { result ≡ is_offer frame.now }
{
    matches!(frame, Frame::Takeover(Message::Offer(_)))
}
