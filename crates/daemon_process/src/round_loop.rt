//! The loop of rounds in which a daemon serves.
ghost use Rattle.std.specs.Prelude.{◌≡◌, vec_len, IfOk, OnErr, OnOk, None, Some, if◌then◌else◌};
ghost use Rattle.std.specs.Io.KnownBytes.{Appends};
ghost use Rattle.daemon_process.specs.Ending.{MayEnd, PrintsServing, exit_of_broken};
ghost use Rattle.daemon_process.specs.Rounds.{EndsByWorkers, one_is_over};
ghost use Rattle.daemon_process.specs.Serving.{IsSameSpell, PrintsRound, begins, printed_of, serving_line};

use crate::arrival::Worker;
use crate::channel_end::ChannelEnd;
use crate::context::DaemonContext;
use crate::exit::{DaemonEnd, Exit};
use crate::rounds::{RoundParts, exit_of, exit_of_broken, one_is_over, serve_one};
use crate::shared::{NextStep, RoundStop};
use crate::waiting::{WaitingChannel, finish_all, has_waiting, post_all_ready};
use daemon::Lease;
use non_blocking::Unblock;
use std::fs::File;
use std::os::unix::net::UnixStream;
use std::rt::{Clock, Files};
use std::sync::{Arc, Wait};
use std::thread::Threads;
use std::time::Duration;
use std::{io, mem, thread};
use workers::{Channel, RoundBuffers, Stop};

/// How long a daemon waits after memory was refused, in milliseconds.
const PAUSE: u64 = 1;

/// The channels of a daemon's workers, the generation at which they were made, and the buffers that rounds work in.
/// Before the first round there are no channels.
#[derive(Drop)]
struct Workers<C: Channel + Drop> {
    generation: u64,
    /// How often rounds were asked to stop before the last round began.
    stops: u64,
    channels: Vec<C>,
    buffers: RoundBuffers,
}

/// The loop of rounds by which a daemon serves its mount.
#[derive(Drop)]
pub(crate) struct RoundLoop<'a, R> {
    pub(crate) context: &'a DaemonContext<'a, R>,
    /// The workers' connections to the broker.
    pub(crate) streams: &'a [UnixStream],
    /// Whether the daemon ends when standard input ends.
    pub(crate) until_closed: bool,
}

impl<'a, R: Files<File = File> + Threads + Wait + Clock + Send + Sync> RoundLoop<'a, R>
where
    R::Dir: Send + Sync,
{
    /// Serves by rounds of workers, whenever something may be lent, and returns how the daemon ends.
    pub(crate) fn serve<W: Unblock>(&self, out: &mut W) -> DaemonEnd
        ensures prints { PrintsServing (W.contents out.old) (W.contents out.new) }
        ensures may_end { MayEnd self.now.until_closed result }
    {
        let (rt, alloc) = (self.context.rt, self.context.alloc);
        let mut workers = Workers {
            generation: 0,
            stops: 0,
            channels: Vec::new(alloc),
            buffers: RoundBuffers::new(alloc),
        };
        for _ in rt.forever() {
            match self.context.shared.next(rt, alloc, self.until_closed) {
                NextStep::Serve(lease, stop) => {
                    if let Some(exit) = self.serve_lease(&mut workers, lease, &stop, out) {
                        return DaemonEnd::Exits(exit);
                    }
                }
                NextStep::Pause => thread::sleep(rt, Duration::from_millis(PAUSE)),
                NextStep::PostReady => {
                    if let Some(exit) = self.post_ready(&mut workers) {
                        return DaemonEnd::Exits(exit);
                    }
                }
                NextStep::Finish => {
                    if let Some(exit) = self.finish_replies(&mut workers) {
                        return DaemonEnd::Exits(exit);
                    }
                }
                NextStep::Exit(exit) => return DaemonEnd::Exits(exit),
                NextStep::Close => return DaemonEnd::Closed,
            }
        }
        unreachable!()
    }

    /// Serves a round over `lease` by channels at the lease's generation, and gives the lease back. Returns the
    /// daemon's exit, if the daemon ends.
    fn serve_lease<W: Unblock>(
        &self,
        workers: &mut Workers<Worker<'a, R>>,
        lease: Lease,
        stop: &RoundStop,
        out: &mut W,
    ) -> Option<Exit>
        ensures prints { PrintsRound (workers.old.generation, workers.old.stops) (lease.generation, stop.now.stops)
            (workers.new.generation, workers.new.stops) (W.contents out.old) (W.contents out.new) }
    {
        let generation = lease.generation;
        let Ok(is_new) = self.prepare_workers(workers, generation, stop) else {
            self.give_back(workers.channels.as_slice(), lease);
            return None;
        };
        print_round(out, is_new, lease.generation);
        self.serve_by_workers(workers, lease, &stop.stop)
    }

    /// Gives back a lease over which no round could be served, and waits a moment.
    fn give_back<C: WaitingChannel>(&self, channels: &[C], lease: Lease) {
        let (rt, shared) = (self.context.rt, self.context.shared);
        shared.take_back(rt, lease, has_waiting(channels));
        thread::sleep(rt, Duration::from_millis(PAUSE));
    }

    /// Serves a round over `lease` by the workers' channels, and gives the lease back. Returns the daemon's exit, if
    /// the daemon ends.
    fn serve_by_workers<C: Channel + ChannelEnd + WaitingChannel + Drop + Send>(
        &self,
        workers: &mut Workers<C>,
        lease: Lease,
        stop: &Stop,
    ) -> Option<Exit>
        ensures ends { EndsByWorkers C.takes C.posts C.reports C.reported C.why_ended (vec_len workers.old.channels)
            workers.old.channels.items workers.new.channels.items result }
        ensures same { IsSameSpell (workers.new.generation, workers.new.stops)
            (workers.old.generation, workers.old.stops) }
    {
        let (rt, alloc, shared) = (self.context.rt, self.context.alloc, self.context.shared);
        let channels = mem::replace(&mut workers.channels, Vec::new(alloc));
        let buffers = mem::replace(&mut workers.buffers, RoundBuffers::new(alloc));
        let parts = RoundParts {
            lease,
            channels,
            buffers,
        };
        match serve_one(rt, alloc, parts, stop) {
            Ok(left) => {
                workers.channels = left.channels;
                workers.buffers = left.buffers;
                let is_waiting = has_waiting(workers.channels.as_slice());
                shared.take_back(rt, left.lease, is_waiting);
                exit_of(workers.channels.as_slice())
            }
            Err(exit) => Some(exit),
        }
    }

    /// Posts the replies whose bytes come within a moment, and notes whether others wait. Returns the daemon's exit, if one of
    /// the channels is broken.
    fn post_ready<C: Channel + ChannelEnd + WaitingChannel + Drop>(
        &self,
        workers: &mut Workers<C>,
    ) -> Option<Exit>
        ensures same { IsSameSpell (workers.new.generation, workers.new.stops)
            (workers.old.generation, workers.old.stops) }
    {
        let is_well = post_all_ready(&mut workers.channels);
        self.note_posted(workers.channels.as_slice(), is_well)
    }

    /// Posts all replies that wait, and notes that none does. Returns the daemon's exit, if one of the channels is broken.
    fn finish_replies<C: Channel + ChannelEnd + WaitingChannel + Drop>(
        &self,
        workers: &mut Workers<C>,
    ) -> Option<Exit>
        ensures same { IsSameSpell (workers.new.generation, workers.new.stops)
            (workers.old.generation, workers.old.stops) }
    {
        let is_well = finish_all(&mut workers.channels);
        self.note_posted(workers.channels.as_slice(), is_well)
    }

    /// Notes whether replies wait in these channels. Returns the daemon's exit, if one of them is broken.
    fn note_posted<C: ChannelEnd + WaitingChannel>(
        &self,
        channels: &[C],
        is_well: bool,
    ) -> Option<Exit>
        ensures ends { result ≡ (if is_well then None else Some (exit_of_broken (one_is_over C.why_ended channels.now))) }
    {
        if !is_well {
            return Some(exit_of_broken(one_is_over(channels)));
        }
        self.context
            .shared
            .note_waiting(self.context.rt, has_waiting(channels));
        None
    }

    /// Makes channels at `generation` if the present ones are of another generation, else lets the present ones end by
    /// `stop`. Returns whether the daemon begins to serve: at another generation, or again after a round was asked to
    /// stop.
    fn prepare_workers(
        &self,
        workers: &mut Workers<Worker<'a, R>>,
        generation: u64,
        stop: &RoundStop,
    ) -> io::Result<bool>
        ensures new { IfOk result (λ is_new.
            is_new ≡ begins (workers.old.generation, workers.old.stops) (generation, stop.now.stops)) }
        ensures at { OnOk result
            (IsSameSpell (workers.new.generation, workers.new.stops) (generation, stop.now.stops)) }
        ensures same { OnErr result (IsSameSpell (workers.new.generation, workers.new.stops)
            (workers.old.generation, workers.old.stops)) }
    {
        if workers.generation == generation {
            for channel in workers.channels.iter_mut() {
                channel.set_stop(Arc::try_clone(&stop.stop)?);
            }
            let is_new = workers.stops != stop.stops;
            workers.stops = stop.stops;
            return Ok(is_new);
        }
        workers.channels = self.context.channels(self.streams, generation, &stop.stop)?;
        workers.generation = generation;
        workers.stops = stop.stops;
        Ok(true)
    }
}

/// Prints that the daemon serves at `generation`, if `is_new`.
fn print_round<W: Unblock>(out: &mut W, is_new: bool, generation: u64)
    ensures line { Appends (W.contents out.old) (W.contents out.new) (printed_of is_new generation) }
{
    if !is_new {
        return;
    }
    print_serving(out, generation);
}

/// Prints that the daemon serves at `generation`.
fn print_serving<W: Unblock>(out: &mut W, generation: u64)
    ensures line { Appends (W.contents out.old) (W.contents out.new) (serving_line generation) }
{
    out.print(format_args!("serving {generation}"));
}
