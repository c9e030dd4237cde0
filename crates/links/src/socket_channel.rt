//! A worker's channel over a connection to the broker.
ghost use Rattle.std.specs.Prelude.{◌≡◌, [], None, false, IfOk, IsSome, IsTrue};
ghost use Rattle.fuse_wire.specs.RequestReading.{request_of};
ghost use Rattle.links.specs.Channel.{Answers, Asks, Hears, HearsFrame, HearsNext, Posts, PostsAlone, PostsAndTakes, Refuses, Serves, Stops, Takes, WritesBoth, ended_by, post_of, posted_of, state_of, take_of};

use crate::frame_room::FrameRoom;
use broker_core::TakeFault;
use eden_base::{NameRoom, NoMemory};
use frames::BrokerAnswer;
use fuse_wire::{Ask, BatchRoom, Reply, WireFault, fault_reply, read_request, read_request_to};
use std::alloc::Global;
use std::io::{Read, Write};
use workers::{Channel, NextAsk, Posted};

/// Buffers for two names and a batch. A request holds a name or a batch at most.
#[derive(Drop)]
struct ChannelBuffers {
    first: NameRoom,
    second: NameRoom,
    batch: BatchRoom,
}

impl ChannelBuffers {
    /// Takes memory for any one request.
    fn new(alloc: Global) -> Result<ChannelBuffers, NoMemory> {
        let first = NameRoom::new(alloc)?;
        let second = NameRoom::new(alloc)?;
        let batch = BatchRoom::new(alloc)?;
        Ok(ChannelBuffers {
            first,
            second,
            batch,
        })
    }

    /// Reads the request that `bytes` are, in these rooms.
    fn read(self, bytes: &[u8]) -> Result<Ask, WireFault>
        ensures exact { result ≡ request_of bytes.now }
    {
        read_request_to(self.first, self.second, self.batch, bytes)
    }
}

/// A worker's channel over its connection to the broker: a reader and a writer, for which a socket has two handles. It
/// has the memory that a Take and a Post need from its first moment on.
#[derive(Drop)]
pub struct SocketChannel<R, W> {
    alloc: Global,
    reader: R,
    writer: W,
    generation: u64,
    ended: Option<TakeFault>,
    /// The result of a Take that was asked for behind the last reply.
    ahead: Option<NextAsk>,
    rooms: Option<ChannelBuffers>,
    frame_room: FrameRoom,
}

impl<R: Read, W: Write> SocketChannel<R, W> {
    /// Makes a channel at a generation, over a connection on which the daemon is attached. If memory is refused,
    /// `reader` and `writer` are dropped.
    pub fn new(
        alloc: Global,
        reader: R,
        writer: W,
        generation: u64,
    ) -> Result<SocketChannel<R, W>, NoMemory>
    where
        R: Drop,
        W: Drop,
        ensures channel { IfOk result (λ channel. state_of R.remaining W.contents channel
            ≡ record {
              generation = generation;
              ended = None;
              ahead = None;
              incoming = R.remaining reader;
              outgoing = W.contents writer;
            }) }
    {
        let rooms = ChannelBuffers::new(alloc)?;
        let frame_room = FrameRoom::new(alloc)?;
        Ok(SocketChannel {
            alloc,
            reader,
            writer,
            generation,
            ended: None,
            ahead: None,
            rooms: Some(rooms),
            frame_room,
        })
    }

    /// Returns why the broker has no more for this channel, if it said so: in its answer to a `take` or a `post`.
    pub fn ended(&self) -> Option<TakeFault>
        ensures ended { result ≡ (state_of R.remaining W.contents self.now).ended }
    {
        self.ended
    }

    /// Sends what was written, and reads the next answer. Returns none if either fails.
    fn read_answer(&mut self) -> Option<BrokerAnswer>
        ensures hears { HearsFrame (state_of R.remaining W.contents self.old) result self.new.frame_room
            (state_of R.remaining W.contents self.new) }
        ensures rooms { self.new.rooms ≡ self.old.rooms }
    {
        if self.writer.flush().is_err() {
            return None;
        }
        match self.frame_room.read(&mut self.reader) {
            Ok(answer) => answer,
            Err(_fault) => None,
        }
    }

    /// Writes a Take and reads the answer. Returns none if either fails.
    fn ask_next(&mut self) -> Option<BrokerAnswer>
        ensures answers { Answers (state_of R.remaining W.contents self.old)
            (take_of (state_of R.remaining W.contents self.old)) result self.new.frame_room
            (state_of R.remaining W.contents self.new) }
        ensures rooms { self.new.rooms ≡ self.old.rooms }
    {
        match self
            .frame_room
            .write_take(&mut self.writer, self.generation)
        {
            Ok(()) => self.read_answer(),
            Err(_fault) => None,
        }
    }

    /// Writes the Post of a reply and reads the answer. Returns none if either fails.
    fn ask_posted(&mut self, reply: &Reply) -> Option<BrokerAnswer>
        ensures answers { Answers (state_of R.remaining W.contents self.old)
            (post_of (state_of R.remaining W.contents self.old) reply.now) result self.new.frame_room
            (state_of R.remaining W.contents self.new) }
        ensures ahead { self.new.ahead ≡ self.old.ahead }
    {
        match self
            .frame_room
            .write_post(&mut self.writer, self.generation, reply)
        {
            Ok(()) => self.read_answer(),
            Err(_fault) => None,
        }
    }

    /// Makes room for any request, if there is none, and returns whether there is room.
    fn has_rooms(&mut self) -> bool
        ensures rooms { IsTrue result → IsSome self.new.rooms }
        ensures same { state_of R.remaining W.contents self.new
            ≡ state_of R.remaining W.contents self.old }
    {
        if self.rooms.is_some() {
            return true;
        }
        match ChannelBuffers::new(self.alloc) {
            Ok(rooms) => {
                self.rooms = Some(rooms);
                true
            }
            Err(NoMemory) => false,
        }
    }

    /// Reads the request that came, in new memory, or in the rooms if memory is refused.
    fn read(&mut self) -> Result<Ask, WireFault>
        requires rooms { IsSome self.old.rooms }
        ensures exact { result ≡ request_of self.old.frame_room }
        ensures same { state_of R.remaining W.contents self.new
            ≡ state_of R.remaining W.contents self.old }
        ensures room { self.new.frame_room ≡ self.old.frame_room }
    {
        match read_request(self.alloc, self.frame_room.body()) {
            Ok(ask) => Ok(ask),
            Err(WireFault::NoMemory) => match self.rooms.take() {
                Some(rooms) => rooms.read(self.frame_room.body()),
                None => Err(WireFault::NoMemory),
            },
            Err(fault) => Err(fault),
        }
    }

    /// Answers a request that came and cannot be read by an error, if the kernel waits for a reply. Otherwise returns
    /// Broken.
    fn refuse(&mut self, fault: WireFault) -> NextAsk
        ensures refuses { Refuses (state_of R.remaining W.contents self.old) self.old.frame_room fault result
            (state_of R.remaining W.contents self.new) }
    {
        let Some(reply) = fault_reply(self.frame_room.body(), &fault) else {
            return NextAsk::Broken;
        };
        match self.post_alone(&reply) {
            Posted::Done => NextAsk::Empty,
            Posted::Broken => NextAsk::Broken,
        }
    }

    /// Returns the ask that came. A request that cannot be read is refused.
    fn serve(&mut self) -> NextAsk
        requires rooms { IsSome self.old.rooms }
        ensures serves { Serves (state_of R.remaining W.contents self.old) self.old.frame_room
            (request_of self.old.frame_room) result (state_of R.remaining W.contents self.new) }
    {
        match self.read() {
            Ok(ask) => NextAsk::Ask(ask),
            Err(fault) => self.refuse(fault),
        }
    }

    /// Notes why the channel stopped, and returns Stopped.
    fn stop(&mut self, why: TakeFault) -> NextAsk
        ensures stops { Stops (state_of R.remaining W.contents self.old) why result
            (state_of R.remaining W.contents self.new) }
    {
        self.ended = Some(why);
        NextAsk::Stopped
    }

    /// Takes in the broker's answer to a Take, and returns the result of the `take`.
    fn hear(&mut self, answer: BrokerAnswer) -> NextAsk
        requires rooms { IsSome self.old.rooms }
        ensures hears { Hears (state_of R.remaining W.contents self.old) answer self.old.frame_room result
            (state_of R.remaining W.contents self.new) }
    {
        match answer {
            BrokerAnswer::Ask => self.serve(),
            BrokerAnswer::Empty => NextAsk::Empty,
            BrokerAnswer::Ended => self.stop(TakeFault::Ended),
            BrokerAnswer::Stale { now } => self.stop(TakeFault::Stale(now)),
            _ => NextAsk::Broken,
        }
    }

    /// Takes the next ask from the broker. One that was asked for behind the last reply is at hand. Else makes room for any
    /// request first. If that is refused, asks nothing and returns Empty, so that no request is lost for lack of memory. A
    /// request that can't be read is answered by its error, and Empty is returned. If the result is Broken, close the
    /// connection.
    pub fn take(&mut self) -> NextAsk
        ensures takes { Takes (state_of R.remaining W.contents self.old) result
            (state_of R.remaining W.contents self.new) }
    {
        match self.ahead.take() {
            Some(next) => next,
            None => self.ask(),
        }
    }

    /// Asks the broker for the next ask, once there is room for any request.
    fn ask(&mut self) -> NextAsk
        ensures asks { Asks (state_of R.remaining W.contents self.old) result
            (state_of R.remaining W.contents self.new) }
    {
        if !self.has_rooms() {
            return NextAsk::Empty;
        }
        match self.ask_next() {
            Some(answer) => self.hear(answer),
            None => NextAsk::Broken,
        }
    }

    /// Posts the reply to an ask that was taken. If `takes_next`, it asks for the next ask by the same write, and waits for both
    /// answers, so that one wake of each process does: the next `take` returns that ask. Takes no memory. If the result is
    /// Broken, close the connection; `ended` tells whether the broker said why.
    pub fn post(&mut self, reply: &Reply, takes_next: bool) -> Posted
        ensures posts { Posts (state_of R.remaining W.contents self.old) reply.now result
            (state_of R.remaining W.contents self.new) }
        ensures alone { takes_next ≡ false → (state_of R.remaining W.contents self.new).ahead
            ≡ (state_of R.remaining W.contents self.old).ahead }
    {
        if takes_next && self.ahead.is_none() && self.has_rooms() {
            return self.post_and_take(reply);
        }
        self.post_alone(reply)
    }

    /// Posts a reply, and asks for nothing.
    fn post_alone(&mut self, reply: &Reply) -> Posted
        ensures posts { PostsAlone (state_of R.remaining W.contents self.old) reply.now result
            (state_of R.remaining W.contents self.new) }
        ensures ahead { self.new.ahead ≡ self.old.ahead }
    {
        match self.ask_posted(reply) {
            Some(answer) => {
                self.ended = ended_by(answer, self.ended);
                posted_of(answer)
            }
            None => Posted::Broken,
        }
    }

    /// Posts a reply and takes the next ask, whose result it keeps for the next `take`.
    fn post_and_take(&mut self, reply: &Reply) -> Posted
        requires none { self.old.ahead ≡ None }
        requires rooms { IsSome self.old.rooms }
        ensures posts { PostsAndTakes (state_of R.remaining W.contents self.old) reply.now result
            (state_of R.remaining W.contents self.new) }
    {
        if !self.write_both(reply) {
            return Posted::Broken;
        }
        let Some(answer) = self.read_answer() else {
            return Posted::Broken;
        };
        self.ended = ended_by(answer, self.ended);
        let posted = posted_of(answer);
        if let Posted::Done = posted {
            let next = self.hear_next();
            self.ahead = Some(next);
        }
        posted
    }

    /// Writes the Post of a reply, and a Take behind it. Returns whether both are written.
    fn write_both(&mut self, reply: &Reply) -> bool
        ensures writes { WritesBoth (state_of R.remaining W.contents self.old) reply.now result
            (state_of R.remaining W.contents self.new) }
        ensures rooms { self.new.rooms ≡ self.old.rooms }
    {
        let posts = self
            .frame_room
            .write_post(&mut self.writer, self.generation, reply);
        if posts.is_err() {
            return false;
        }
        self.frame_room
            .write_take(&mut self.writer, self.generation)
            .is_ok()
    }

    /// Reads the answer to a Take that was written, and returns the result of the `take`.
    fn hear_next(&mut self) -> NextAsk
        requires rooms { IsSome self.old.rooms }
        ensures hears { HearsNext (state_of R.remaining W.contents self.old) result
            (state_of R.remaining W.contents self.new) }
    {
        match self.read_answer() {
            Some(answer) => self.hear(answer),
            None => NextAsk::Broken,
        }
    }
}

/// Returns the result of a `post`, by the broker's answer.
fn posted_of(answer: BrokerAnswer) -> Posted
    ensures { result ≡ posted_of answer }
{
    match answer {
        BrokerAnswer::Posted => Posted::Done,
        _ => Posted::Broken,
    }
}

/// Returns why the broker has no more for a channel, if its answer to a Post says so; else returns `noted`.
fn ended_by(answer: BrokerAnswer, noted: Option<TakeFault>) -> Option<TakeFault>
    ensures { result ≡ ended_by answer noted }
{
    match answer {
        BrokerAnswer::Ended => Some(TakeFault::Ended),
        BrokerAnswer::Stale { now } => Some(TakeFault::Stale(now)),
        _ => noted,
    }
}

impl<R: Read, W: Write> Channel for SocketChannel<R, W> {
    ghost takes = { λ before taken after. Takes (state_of R.remaining W.contents before) taken
        (state_of R.remaining W.contents after) };

    ghost posts = { λ before reply posted after. Posts (state_of R.remaining W.contents before) reply posted
        (state_of R.remaining W.contents after) };

    ghost reports = { false };

    ghost reported = { λ _. record { taken = []; posted = [] } };

    fn take(&mut self) -> NextAsk {
        SocketChannel::take(self)
    }

    fn post(&mut self, reply: &Reply, takes_next: bool) -> Posted {
        SocketChannel::post(self, reply, takes_next)
    }
}
