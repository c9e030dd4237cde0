//! A daemon's connections to the broker.
use crate::contents::Contents;
use crate::context::DaemonContext;
use crate::exit::Exit;
use crate::fault::DaemonFault;
use crate::options::DaemonOptions;
use crate::patient::Patient;
use crate::watched::Watched;
use blob_store::FetchingChannel;
use eden_base::DaemonId;
use links::{Frame, SocketChannel};
use sockets::{Connection, Deadline, Timed, TimeoutWriter, connect};
use std::alloc::Global;
use std::fs::File;
use std::io::{self, BufReader, BufWriter, ErrorKind};
use std::net::Net;
use std::os::unix::net::UnixStream;
use std::rt::{Clock, Files};
use std::sync::{Arc, Wait};
use std::time::Duration;
use takeover_core::Message;
use workers::Stop;

/// How long the broker may take for an answer to a daemon that has no seat yet, in milliseconds. Who has one has no
/// better place to go than its broker, so it waits for as long as the connection stands.
const BROKER_PATIENCE: u64 = 5000;

/// Returns how long the broker may be silent before the seat, and how long a write may wait for it then.
fn broker_patience() -> Duration {
    Duration::from_millis(BROKER_PATIENCE)
}

/// Returns the deadline for an answer of the broker before the seat.
pub(crate) fn answer_by<R: Clock>(clock: &R) -> Deadline {
    Deadline::after(clock, broker_patience())
}

/// How many bytes a worker reads ahead.
const AHEAD: usize = 65_536;

/// How many bytes are written at once: a reply with the request for the next ask behind it. A longer reply goes by itself.
const BEHIND: usize = 16_384;

/// The channel of a worker.
pub(crate) type Worker<'a, R> = Patient<FetchingChannel<Asking<'a, R>, &'a Contents<'a, R>>>;

/// A daemon's first connection to the broker, and those of its workers.
#[derive(Drop)]
pub(crate) struct Arrival<'a, R> {
    pub(crate) connection: Connection<'a, R>,
    pub(crate) workers: Vec<UnixStream>,
}

/// How many descriptors a worker's channels take, where those of one generation stand beside those of the last one, and the
/// file that it reads.
const DESCRIPTORS_OF_A_WORKER: usize = 5;

/// How many descriptors takeovers take.
const DESCRIPTORS_OF_TAKEOVERS: usize = 8;

/// A worker's channel, which asks the broker once for each take.
type Asking<'a, R> = SocketChannel<BufReader<Watched<'a, R>>, BufWriter<TimeoutWriter<'a, R>>>;

impl<'a, R: Net + Clock + Wait> DaemonContext<'a, R> {
    /// Connects to the broker as a new daemon, and for each of its workers. As many descriptors are left
    /// then as the daemon opens once it has the seat: their lack would leave a mount without service.
    pub(crate) fn arrive(&self, options: &DaemonOptions<'_>) -> Result<Arrival<'a, R>, Exit> {
        let mut connection = self.reach_broker(options.broker)?;
        let daemon = self.attach(&mut connection, DaemonId(0))?;
        let workers = self.arrive_each(options, daemon)?;
        let others = DESCRIPTORS_OF_TAKEOVERS.saturating_add(self.contents.descriptors());
        check_descriptors(self.alloc, &connection, workers.len(), others)?;
        Ok(Arrival {
            connection,
            workers,
        })
    }

    /// Connects to the broker for each worker.
    fn arrive_each(
        &self,
        options: &DaemonOptions<'_>,
        daemon: DaemonId,
    ) -> Result<Vec<UnixStream>, Exit> {
        let Ok(mut workers) = Vec::with_capacity(self.alloc, options.workers) else {
            return Err(Exit::Faulty(DaemonFault::NoMemory));
        };
        for _worker in 0..options.workers {
            let stream = self.arrive_worker(options.broker, daemon)?;
            if workers.push(stream).is_err() {
                return Err(Exit::Faulty(DaemonFault::NoMemory));
            }
        }
        Ok(workers)
    }

    /// Connects to the broker for a worker of `daemon`, and returns the connection.
    fn arrive_worker(&self, broker: &str, daemon: DaemonId) -> Result<UnixStream, Exit> {
        let mut connection = self.reach_broker(broker)?;
        let _same = self.attach(&mut connection, daemon)?;
        match connection.handle() {
            Ok(stream) => Ok(stream),
            Err(_refused) => Err(Exit::Faulty(DaemonFault::Broken)),
        }
    }

    /// Connects to the broker at `path`. A write there waits as long as `broker_patience` says.
    fn reach_broker(&self, path: &str) -> Result<Connection<'a, R>, Exit> {
        let stream = match connect(self.rt, path) {
            Ok(stream) => stream,
            Err(error) => return Err(Exit::Faulty(DaemonFault::NoBroker(error))),
        };
        match Connection::over(self.alloc, self.rt, stream, Some(broker_patience())) {
            Ok(connection) => Ok(connection),
            Err(error) if error.kind() == ErrorKind::OutOfMemory => {
                Err(Exit::Faulty(DaemonFault::NoMemory))
            }
            Err(error) => Err(Exit::Faulty(DaemonFault::NoBroker(error))),
        }
    }

    /// Attaches as `daemon`, or as a new daemon if that has the number 0. Returns the daemon that attached.
    fn attach(
        &self,
        connection: &mut Connection<'_, R>,
        daemon: DaemonId,
    ) -> Result<DaemonId, Exit> {
        self.shared.wait_at(self.rt, connection.handle().ok())?;
        match connection.ask(&Frame::Attach(daemon), answer_by(self.rt)) {
            Some(Frame::Attached(daemon)) => Ok(daemon),
            Some(Frame::Ended) => Err(Exit::Ended),
            Some(Frame::Takeover(Message::Busy)) => Err(Exit::Faulty(DaemonFault::Full)),
            _ => Err(Exit::Faulty(DaemonFault::Broken)),
        }
    }
}

impl<'a, R: Files<File = File> + Clock + Wait> DaemonContext<'a, R> {
    /// Makes a channel at `generation` for each worker's connection, patient until `stop` is asked. No frame that was
    /// sent on these connections may still lack its answer.
    pub(crate) fn channels(
        &self,
        workers: &[UnixStream],
        generation: u64,
        stop: &Arc<Stop>,
    ) -> io::Result<Vec<Worker<'a, R>>> {
        let mut channels = Vec::with_capacity(self.alloc, workers.len())?;
        for worker in workers {
            let channel = self.channel(worker, generation)?;
            let Ok(fetching) = FetchingChannel::new(self.alloc, channel, self.contents) else {
                return Err(io::Error::from(ErrorKind::OutOfMemory));
            };
            channels.push(Patient::new(fetching, Arc::try_clone(stop)?))?;
        }
        Ok(channels)
    }

    /// Returns a channel at a generation over a worker's connection. It waits for the broker for as long as that
    /// stands.
    fn channel(&self, worker: &UnixStream, generation: u64) -> io::Result<Asking<'a, R>> {
        let writer = TimeoutWriter::over(self.rt, worker.try_clone()?, None)?;
        let writer = BufWriter::with_capacity(self.alloc, BEHIND, writer)?;
        let timed = Timed::over(self.rt, worker.try_clone()?);
        let watched = Watched::over(self.rt, timed, self.shared.silences());
        let reader = BufReader::with_capacity(self.alloc, AHEAD, watched)?;
        match SocketChannel::new(self.alloc, reader, writer, generation) {
            Ok(channel) => Ok(channel),
            Err(_refused) => Err(io::Error::from(ErrorKind::OutOfMemory)),
        }
    }
}

/// Checks that a daemon of this many workers can open what it needs once it has the seat, and `others` beside that.
fn check_descriptors<R: Clock>(
    alloc: Global,
    connection: &Connection<'_, R>,
    workers: usize,
    others: usize,
) -> Result<(), Exit> {
    let count = workers
        .saturating_mul(DESCRIPTORS_OF_A_WORKER)
        .saturating_add(others);
    let Ok(mut spare) = Vec::with_capacity(alloc, count) else {
        return Err(Exit::Faulty(DaemonFault::NoMemory));
    };
    for _descriptor in 0..count {
        let handle = connection
            .handle()
            .map_err(|error| Exit::Faulty(DaemonFault::NoBroker(error)))?;
        if spare.push(handle).is_err() {
            return Err(Exit::Faulty(DaemonFault::NoMemory));
        }
    }
    Ok(())
}
