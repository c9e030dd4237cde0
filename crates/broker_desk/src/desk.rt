//! The broker's desk, which answers frames.
ghost use Rattle.std.specs.Prelude.{◌≡◌, ◌<◌, ◌⊎◌, Some, None, false, length, IfOk, IfErr, OnOk, OnErr, if◌then◌else◌};
ghost use Rattle.std.specs.Option.{IfSome};
ghost use Rattle.frames.specs.declared.frame.Frame.TheVariants.{Take as ATake};
ghost use Rattle.fuse_wire.specs.ReplyReading.{reply_to};
ghost use Rattle.fuse_wire.specs.Request.{IsSendable};
ghost use Rattle.broker_core.specs.Broker.{claim_fault, delivered, issued, issue_fault, mount_fault, take_fault, unique_of, IsDeliverRefusal, IsIssueRefusal};
ghost use Rattle.broker_core.specs.Traffic.{front};
ghost use Rattle.broker_desk.specs.Desk.{new_desk, mount_desk, desk_of, closed, left_by, is_post, is_present, is_over_for, is_full, next_daemon, place_of, struck, form_named, peer_after, enrolls, meets, hears, takes, posts, claims, mounts, is_sent_by_daemons, Answers, Makes, TakesLater};
ghost use Rattle.broker_desk.specs.declared.peer.Peer.TheVariants.{Unattached, Daemon as ADaemon};

use crate::peer::{Peer, Response};
use broker_core::{Broker, DeliverFault, IssueFault, MountFault, PostFault, TakeFault};
use byte_codec::Bytes;
use eden_base::{ClaimFault, DaemonId, NoMemory};
use frames::Frame;
use fuse_wire::{
    Form, Reply, Request, RequestRoom, WireFault, read_buffer_reply, read_reply, unique_of,
    write_request_to,
};
use std::alloc::Global;
use std::marker::Model;
use std::mem;
use takeover_core::Message;

/// How many daemons run at once, and how many may come at all to the desk of a script.
pub const MAX_DAEMONS: usize = 1024;

/// The broker, the daemons that attached to it and still run, and whether the desk is closed for all. Contracts see a
/// `DeskState`.
pub struct Desk {
    alloc: Global,
    broker: Broker,
    daemons: Vec<DaemonId>,
    /// The number of the daemon that came last, or 0.
    last: u64,
    /// How many daemons may come.
    most: u64,
    is_closed: bool,
}

impl Drop for Desk {
    fn drop(self) {
        let Desk {
            alloc: _,
            broker: _,
            daemons: _,
            last: _,
            most: _,
            is_closed: _,
        } = self;
    }
}

impl Model for Desk {
    ghost use Rattle.std.specs.Coded.{codes};
    ghost use Rattle.broker_core.specs.Held.{held_map_code};
    ghost use Rattle.broker_desk.specs.Desk.{DeskState};

    ghost Value = { DeskState };

    ghost coded = { Prim.hlevel (codes, held_map_code) };

    ghost view = { λ desk. record {
      broker = desk.broker;
      daemons = desk.daemons.items;
      last = desk.last;
      most = desk.most;
      is_closed = desk.is_closed;
    } };

    ghost use Rattle.broker_desk.specs.Inside.{IsOrderly};

    ghost invariant = { IsOrderly };
}

impl Desk {
    /// Makes a desk for a script, to which no daemon came yet, with room for all of them.
    pub fn new(alloc: Global) -> Result<Desk, NoMemory>
        ensures new { IfOk result (λ desk. desk ≡ new_desk) }
    {
        Desk::of(alloc, MAX_DAEMONS as u64)
    }

    /// Makes a desk for a mount, to which no daemon came yet: as many may come, one after another, as there are numbers.
    pub fn for_mount(alloc: Global) -> Result<Desk, NoMemory>
        ensures new { IfOk result (λ desk. desk ≡ mount_desk) }
    {
        Desk::of(alloc, u64::MAX)
    }

    /// Makes a desk to which at most `most` daemons come, with room for all that run at once.
    fn of(alloc: Global, most: u64) -> Result<Desk, NoMemory>
        ensures new { IfOk result (λ desk. desk ≡ desk_of most) }
    {
        let daemons = Vec::with_capacity(alloc, MAX_DAEMONS)?;
        let broker = Broker::new(alloc)?;
        Ok(Desk {
            alloc,
            broker,
            daemons,
            last: 0,
            most,
            is_closed: false,
        })
    }

    /// Returns the broker, the kernel's side of the mount.
    pub fn broker(&self) -> &Broker
        ensures broker { result.now ≡ self.now.broker }
    {
        &self.broker
    }

    /// Returns how many daemons got a number and still run. Each has its first connection open.
    pub fn running(&self) -> usize
        ensures count { result ≡ length self.now.daemons }
    {
        self.daemons.len()
    }

    /// Accepts a request of the kernel, as `Broker::issue` does. An `Other` must have an opcode that no other variant
    /// has, so that its bytes are read as the same request.
    pub fn issue(&mut self, request: &Request) -> Result<Option<u64>, IssueFault>
        requires sendable { IsSendable request.now }
        ensures unique { IfOk result (λ unique. unique ≡ unique_of self.old.broker request.now) }
        ensures issued { OnOk result (self.new ≡ record self.old { broker = issued self.old.broker request.now }) }
        ensures accepted { OnOk result (issue_fault self.old.broker request.now ≡ None) }
        ensures refused { IfErr result (IsIssueRefusal self.old.broker request.now) }
        ensures unchanged { OnErr result (self.new ≡ self.old) }
    {
        self.broker.issue(request)
    }

    /// Hands the first posted reply to the kernel, as `Broker::deliver` does.
    pub fn deliver(&mut self) -> Result<Reply, DeliverFault>
        ensures first { IfOk result (λ reply. front self.old.broker.traffic.posted ≡ Some reply) }
        ensures delivered { OnOk result (self.new ≡ record self.old { broker = delivered self.old.broker }) }
        ensures refused { IfErr result (IsDeliverRefusal self.old.broker) }
        ensures unchanged { OnErr result (self.new ≡ self.old) }
    {
        self.broker.deliver()
    }

    /// Answers a frame of `peer`. An Attach that is granted makes `peer` a daemon or a worker. Only a Take takes
    /// memory, for the text of the ask: if that is refused, the answer is Empty, and the ask waits on. A Post leaves its
    /// bytes here if they are a buffer's.
    pub fn answer(&mut self, peer: &mut Peer, frame: &mut Frame) -> Response
        ensures answers { Answers self.old peer.old frame.old result self.new }
        ensures peer { peer.new ≡ peer_after self.old peer.old frame.old }
        ensures frame { is_post frame.old ≡ false → frame.new ≡ frame.old }
    {
        match *peer {
            Peer::Unattached => self.meet(peer, frame),
            Peer::Daemon(daemon) | Peer::Worker(daemon) => self.hear(daemon, frame),
        }
    }

    /// Notes that the connection of `peer` ended. If it was the first connection of a daemon, that daemon is gone, and
    /// the mount ends if the daemon has the seat.
    pub fn leave(&mut self, peer: Peer)
        ensures left { self.new ≡ left_by self.old peer }
    {
        if let Peer::Daemon(daemon) = peer {
            self.strike(daemon);
            self.broker.gone(daemon);
        }
    }

    /// Ends the mount for all: every frame that a daemon may send is answered Ended from then on.
    pub fn close(&mut self)
        ensures closed { self.new ≡ closed self.old }
    {
        if let Some(seat) = self.broker.seat() {
            self.broker.gone(seat.daemon);
        }
        self.is_closed = true;
    }

    /// Answers a frame of an unattached peer. Any other frame than an Attach closes the connection.
    fn meet(&mut self, peer: &mut Peer, frame: &Frame) -> Response
        requires unattached { peer.old ≡ Unattached }
        ensures meets { Makes (meets self.old frame.now) result self.new }
        ensures peer { peer.new ≡ peer_after self.old Unattached frame.now }
    {
        let Frame::Attach(daemon) = frame else {
            return Response::Closes;
        };
        if daemon.0 == 0 {
            return self.enroll(peer);
        }
        if self.is_over_for(*daemon) {
            return Response::Tells(Frame::Ended);
        }
        *peer = Peer::Worker(*daemon);
        Response::Tells(Frame::Attached(*daemon))
    }

    /// Gives a new daemon its number. Answers Ended if the desk is closed or no number is left, and Busy if as many daemons
    /// run as may.
    fn enroll(&mut self, peer: &mut Peer) -> Response
        requires unattached { peer.old ≡ Unattached }
        ensures enrolls { Makes (enrolls self.old) result self.new }
        ensures peer { peer.new ≡ (if is_full self.old then Unattached else ADaemon (next_daemon self.old)) }
    {
        if self.is_closed || self.last >= self.most {
            return Response::Tells(Frame::Ended);
        }
        if self.daemons.len() >= MAX_DAEMONS {
            return Response::Tells(Frame::Takeover(Message::Busy));
        }
        self.last += 1;
        let daemon = DaemonId(self.last);
        self.daemons.push_reserved(daemon);
        *peer = Peer::Daemon(daemon);
        Response::Tells(Frame::Attached(daemon))
    }

    /// Returns whether the mount is over for `daemon`: the desk is closed, or the daemon is gone or never got a number.
    fn is_over_for(&self, daemon: DaemonId) -> bool
        ensures { result ≡ is_over_for self.now daemon }
    {
        self.is_closed || !self.is_present(daemon)
    }

    /// Returns whether a daemon got this number and still runs.
    fn is_present(&self, daemon: DaemonId) -> bool
        ensures { result ≡ is_present self.now daemon }
    {
        self.place_of(daemon).is_some()
    }

    /// Answers a frame of an attached daemon.
    fn hear(&mut self, daemon: DaemonId, frame: &mut Frame) -> Response
        ensures hears { Makes (hears self.old daemon frame.old) result self.new
            ⊎ TakesLater self.old (Some daemon) frame.old result self.new }
        ensures frame { is_post frame.old ≡ false → frame.new ≡ frame.old }
    {
        if !is_sent_by_daemons(frame) {
            return Response::Closes;
        }
        if self.is_over_for(daemon) {
            return Response::Tells(Frame::Ended);
        }
        match frame {
            Frame::Take { generation } => self.take(daemon, *generation),
            Frame::Post { generation, reply } => self.post(daemon, *generation, reply),
            Frame::Claim { generation } => self.claim(daemon, *generation),
            Frame::Mount => self.mount(daemon),
            _ => unreachable!(),
        }
    }

    /// Answers a Take: hands out what goes first. Memory for its text is taken before that.
    fn take(&mut self, daemon: DaemonId, generation: u64) -> Response
        requires here { is_over_for self.old daemon ≡ false }
        ensures takes { Makes (takes self.old (take_fault self.old.broker daemon generation)) result self.new
            ⊎ TakesLater self.old (Some daemon) (ATake generation) result self.new }
    {
        match self.broker.take_refusal(daemon, generation) {
            Some(TakeFault::Ended) => return Response::Tells(Frame::Ended),
            Some(TakeFault::Stale(now)) => return Response::Tells(Frame::Stale { now }),
            Some(TakeFault::Empty) => return Response::Tells(Frame::Empty),
            None => {}
        }
        let Ok(room) = RequestRoom::new(self.alloc) else {
            return Response::Tells(Frame::Empty);
        };
        self.hand_out(room, daemon, generation)
    }

    /// Hands out what goes first, with its text in the memory of `room`.
    fn hand_out(&mut self, room: RequestRoom, daemon: DaemonId, generation: u64) -> Response
        requires accepted { take_fault self.old.broker daemon generation ≡ None }
        ensures takes { Makes (takes self.old None) result self.new }
    {
        match self.broker.take(daemon, generation) {
            Ok(ask) => Response::Tells(Frame::Ask(Bytes::of(write_request_to(room, &ask)))),
            Err(_refused) => unreachable!(),
        }
    }

    /// Returns the form of the answer to the ask that `reply` names, if a daemon took that ask and it has no reply.
    fn form_named(&self, reply: &[u8]) -> Option<Form>
        ensures form { result ≡ form_named self.now reply.now }
    {
        self.broker.form_asked(unique_of(reply)?)
    }

    /// Answers a Post: accepts the reply for the kernel, or returns why not.
    fn post(&mut self, daemon: DaemonId, generation: u64, reply: &mut Bytes) -> Response
        ensures posts { Makes (posts self.old daemon generation (reply_to (form_named self.old reply.old) reply.old))
            result self.new }
    {
        let form = self.form_named(reply.as_slice());
        let Ok(reply) = read_reply_to(self.alloc, form, reply) else {
            return Response::Tells(Frame::NotAsked);
        };
        Response::Tells(match self.broker.post(daemon, generation, reply) {
            Ok(()) => Frame::Posted,
            Err(PostFault::Ended) => Frame::Ended,
            Err(PostFault::Stale(now)) => Frame::Stale { now },
            Err(PostFault::NotAsked) => Frame::NotAsked,
        })
    }

    /// Answers a Claim: gives the seat to `daemon`, or returns why not.
    fn claim(&mut self, daemon: DaemonId, generation: u64) -> Response
        ensures claims { Makes (claims self.old daemon generation (claim_fault self.old.broker generation)) result self.new }
    {
        Response::Tells(match self.broker.claim(daemon, generation) {
            Ok(generation) => Frame::Claimed { generation },
            Err(ClaimFault::Ended) => Frame::Ended,
            Err(ClaimFault::Stale { now }) => Frame::Stale { now },
            Err(ClaimFault::Unanswered { asks }) => Frame::Unanswered { asks },
            Err(ClaimFault::LastGeneration) => Frame::LastGeneration,
        })
    }

    /// Answers a Mount: gives the free seat to `daemon`, or returns why not.
    fn mount(&mut self, daemon: DaemonId) -> Response
        ensures mounts { Makes (mounts self.old daemon (mount_fault self.old.broker)) result self.new }
    {
        Response::Tells(match self.broker.try_mount(daemon) {
            Ok(generation) => Frame::Mounted { generation },
            Err(MountFault::Seated) => Frame::Seated,
            Err(MountFault::LastGeneration) => Frame::LastGeneration,
        })
    }

    /// Notes that `daemon` is gone.
    fn strike(&mut self, daemon: DaemonId)
        ensures { self.new ≡ record self.old { daemons = struck self.old.daemons (place_of self.old daemon) } }
    {
        if let Some(place) = self.place_of(daemon) {
            self.daemons.remove(place);
        }
    }

    /// Returns where `daemon` stands among those that run, if it does.
    fn place_of(&self, daemon: DaemonId) -> Option<usize>
        ensures place { result ≡ place_of self.now daemon }
        ensures below { IfSome result (λ place. place < length self.now.daemons) }
    {
        self.daemons.iter().position(|known| known.0 == daemon.0)
    }
}

/// Reads the reply to an ask whose answer has this `form`, or with none, to an ask that nobody knows. A buffer, as bytes
/// of a file come in, keeps the memory of `reply`, which is empty then.
fn read_reply_to(alloc: Global, form: Option<Form>, reply: &mut Bytes) -> Result<Reply, WireFault>
    ensures read { result ≡ reply_to form reply.old }
{
    match form {
        Some(Form::ABuffer | Form::FileBytes) => {
            let none = Bytes::of(Vec::new(alloc));
            read_buffer_reply(mem::replace(reply, none))
        }
        _ => read_reply(reply.as_slice()),
    }
}

/// Returns whether `frame` is of a kind that attached daemons send.
fn is_sent_by_daemons(frame: &Frame) -> bool
    ensures { result ≡ is_sent_by_daemons frame.now }
{
    matches!(
        frame,
        Frame::Take { .. } | Frame::Post { .. } | Frame::Claim { .. } | Frame::Mount
    )
}
