//! How a daemon gets the seat.
use crate::arrival::{Arrival, answer_by};
use crate::context::DaemonContext;
use crate::exit::Exit;
use crate::fault::DaemonFault;
use crate::options::{DaemonOptions, DaemonStart};
use daemon_desk::Mounting;
use links::Frame;
use sockets::{Connection, Hidden, connect};
use std::io::{self, ErrorKind};
use std::net::Net;
use std::os::unix::net::UnixListener;
use std::rt::{Clock, Files};
use std::sync::Wait;

/// A daemon with the seat: its connections to the broker, and the socket at which the next daemon reaches it.
#[derive(Drop)]
pub(crate) struct Seated<'a, R> {
    pub(crate) arrival: Arrival<'a, R>,
    pub(crate) listener: UnixListener,
}

impl<'a, R: Wait + Clock + Files + Net> DaemonContext<'a, R> {
    /// Connects to the broker, gets the seat, and listens for other daemons. After the daemon has the seat, only the
    /// socket's last step may fail.
    pub(crate) fn begin(&self, options: &DaemonOptions<'_>) -> Result<Seated<'a, R>, Exit> {
        let mut arrival = self.arrive(options)?;
        let hidden = match options.start {
            DaemonStart::Mount => self.begin_new(&mut arrival.connection, options)?,
            DaemonStart::Takeover => self.begin_next(&mut arrival.connection, options)?,
        };
        match hidden.show(self.rt, options.takeover) {
            Ok(listener) => Ok(Seated { arrival, listener }),
            Err(error) => Err(Exit::Faulty(DaemonFault::CannotListen(error))),
        }
    }

    /// Prepares what the daemon is to serve, makes its socket, and mounts.
    fn begin_new(
        &self,
        broker: &mut Connection<'_, R>,
        options: &DaemonOptions<'_>,
    ) -> Result<Hidden, Exit> {
        self.shared.prepare(self.rt)?;
        let hidden = self.hide(options.takeover)?;
        match self.mount(broker) {
            Ok(()) => Ok(hidden),
            Err(exit) => {
                hidden.remove(self.rt);
                Err(exit)
            }
        }
    }

    /// Asks the broker for the free seat.
    fn mount(&self, broker: &mut Connection<'_, R>) -> Result<(), Exit> {
        self.shared.wait_at(self.rt, broker.handle().ok())?;
        let Some(answer) = broker.ask(&Frame::Mount, answer_by(self.rt)) else {
            return Err(Exit::Faulty(DaemonFault::Broken));
        };
        self.shared.wait_at(self.rt, None)?;
        match self.shared.take_mount(self.rt, &answer) {
            Mounting::Serves(_) => Ok(()),
            Mounting::Seated => Err(Exit::Faulty(DaemonFault::Seated)),
            Mounting::Ended => Err(Exit::Ended),
            Mounting::LastGeneration | Mounting::Broken => Err(Exit::Faulty(DaemonFault::Broken)),
        }
    }

    /// Takes over from the daemon that listens at the path where this one is to listen. All that this one needs is made
    /// before it connects, since a connection that doesn't offer is sent away when another one comes.
    fn begin_next(
        &self,
        broker: &mut Connection<'_, R>,
        options: &DaemonOptions<'_>,
    ) -> Result<Hidden, Exit> {
        let hidden = self.hide(options.takeover)?;
        match self.reach_and_take_over(broker, options) {
            Ok(()) => Ok(hidden),
            Err(exit) => {
                hidden.remove(self.rt);
                Err(exit)
            }
        }
    }

    /// Connects to the other daemon, and takes over from it. The connection closes after the answer to the claim.
    fn reach_and_take_over(
        &self,
        broker: &mut Connection<'_, R>,
        options: &DaemonOptions<'_>,
    ) -> Result<(), Exit> {
        let mut old = self.reach_daemon(options)?;
        self.take_over(broker, &mut old, options.patience)
    }

    /// Connects to the other daemon.
    fn reach_daemon(&self, options: &DaemonOptions<'_>) -> Result<Connection<'a, R>, Exit> {
        let stream = match connect(self.rt, options.takeover) {
            Ok(stream) => stream,
            Err(error) => return Err(Exit::Faulty(DaemonFault::NoDaemon(error))),
        };
        match Connection::over(self.alloc, self.rt, stream, Some(options.patience)) {
            Ok(connection) => Ok(connection),
            Err(error) if is_no_memory(&error) => Err(Exit::Faulty(DaemonFault::NoMemory)),
            Err(error) => Err(Exit::Faulty(DaemonFault::NoDaemon(error))),
        }
    }

    /// Listens at a hidden socket beside `path`.
    fn hide(&self, path: &str) -> Result<Hidden, Exit> {
        match Hidden::beside(self.rt, self.alloc, path) {
            Ok(hidden) => Ok(hidden),
            Err(error) if is_no_memory(&error) => Err(Exit::Faulty(DaemonFault::NoMemory)),
            Err(error) => Err(Exit::Faulty(DaemonFault::CannotListen(error))),
        }
    }
}

/// Returns whether an error says that memory was refused.
fn is_no_memory(error: &io::Error) -> bool {
    error.kind() == ErrorKind::OutOfMemory
}
