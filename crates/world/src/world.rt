//! All daemons and the kernel's side of their mount.
ghost use Rattle.std.specs.Prelude.{◌≡◌, [], IfOk, is_some};
ghost use Rattle.std.specs.Option.{option_copied, option_map_or};
ghost use Rattle.world.specs.State.{started, server_of, served_of, hand_of, unposted_of, handed_of};
ghost use Rattle.world.specs.Step.{Once, Step};
ghost use Rattle.world.specs.Beginning.{Begins};
ghost use Rattle.world.specs.World.{first_world, World as Ideal};
ghost use Rattle.world.specs.Agreement.{Matches, MovesOn};

use crate::event::Event;
use crate::outcome::Outcome;
use crate::said::{index_of_data, let_turn, say};
use block_queue::BlockQueue;
use broker_core::{Broker, DeliverFault};
use daemon::{Daemon, Effect, Happened, Refusal, Server, Task, index_of, opening};
use eden_base::{DaemonId, NoMemory};
use fuse_ops::Served;
use fuse_wire::{Reply, Request};
use manifest::Manifest;
use std::alloc::Global;
use std::marker::Model;
use takeover_core::{Message, Versions};

/// All daemons in the order of their start, the kernel's side, and every message that a daemon said. No message is
/// removed: any daemon may hear it, any number of times or never.
pub struct World {
    alloc: Global,
    manifest: Manifest,
    limit: usize,
    broker: Broker,
    daemons: Vec<Daemon>,
    messages: Vec<Message>,
}

impl Drop for World {
    fn drop(self) {
        let World {
            alloc: _,
            manifest: _,
            limit: _,
            broker: _,
            daemons: _,
            messages: _,
        } = self;
    }
}

impl Model for World {
    ghost use Rattle.std.specs.Coded.{codes};
    ghost use Rattle.manifest.specs.Codes.{tree_code, manifest_code};
    ghost use Rattle.broker_core.specs.Held.{held_map_code};
    ghost use Rattle.world.specs.State.{State};

    ghost Value = { State };

    ghost coded = { Prim.hlevel (codes, tree_code, manifest_code, held_map_code) };

    ghost view = { λ w. record {
      manifest = w.manifest;
      limit = w.limit;
      broker = w.broker;
      daemons = w.daemons.items;
      messages = w.messages.items;
    } };
}

impl World {
    /// How many daemons a world starts at most, including those that ended.
    pub const MOST_DAEMONS: usize = 1024;

    /// Makes a world without daemons and without a mount.
    pub fn new(alloc: Global, manifest: &Manifest, limit: usize) -> Result<World, NoMemory>
        ensures new { IfOk result (λ world. world ≡ started manifest.now limit) }
        ensures matches { IfOk result (Matches (first_world manifest.now)) }
    {
        let manifest = manifest.share()?;
        let broker = Broker::new(alloc)?;
        Ok(World {
            alloc,
            manifest,
            limit,
            broker,
            daemons: Vec::new(alloc),
            messages: Vec::new(alloc),
        })
    }

    /// Returns the kernel's side.
    pub fn broker(&self) -> &Broker
        ensures broker { result.now ≡ self.now.broker }
    {
        &self.broker
    }

    /// Returns what a daemon serves, for who prints or checks it: its numbers and its tree. Returns none if there is no such
    /// daemon, or it serves nothing.
    pub fn served(&self, daemon: DaemonId) -> Option<&Served>
        ensures served { option_copied result ≡ served_of self.now daemon }
    {
        Some(self.server(daemon)?.served())
    }

    /// Returns the asks and single items that a daemon took and did not work yet, if the daemon serves.
    pub fn hand(&self, daemon: DaemonId) -> Option<&BlockQueue<Task>>
        ensures hand { option_map_or (λ queue. queue.members) (option_copied result) [] ≡ hand_of self.now daemon }
        ensures serves { is_some result ≡ is_some (served_of self.now daemon) }
    {
        Some(self.server(daemon)?.hand())
    }

    /// Returns the replies that a daemon did not post yet, if the daemon serves.
    pub fn unposted(&self, daemon: DaemonId) -> Option<&BlockQueue<Reply>>
        ensures unposted { option_map_or (λ queue. queue.members) (option_copied result) [] ≡ unposted_of self.now daemon }
        ensures serves { is_some result ≡ is_some (served_of self.now daemon) }
    {
        Some(self.server(daemon)?.unposted())
    }

    /// Returns every message that a daemon said, in order.
    pub fn messages(&self) -> &[Message]
        ensures messages { result.now ≡ self.now.messages }
    {
        self.messages.as_slice()
    }

    /// Returns the position of the message in which the seat's daemon handed over what it serves: the whole data, or
    /// the first part. Returns none if nobody has the seat, or if nothing was handed over. The first position is 1.
    /// Looks through all messages.
    pub fn handed(&self) -> Option<usize>
        ensures handed { result ≡ handed_of self.now }
    {
        let seat = self.broker.seat()?;
        let index = index_of_data(self.messages.as_slice(), seat.generation)?;
        Some(index + 1)
    }

    /// Lets `event` happen, or refuses it for the first cause that holds. A refusal changes nothing, except that a
    /// daemon whose claim can never succeed is gone.
    pub fn step(&mut self, event: &Event) -> Outcome
        ensures step { Step self.old event.now result self.new }

        // In any ideal world that the state matches, the event's moves may happen. The new state matches the world
        // after them.
        ensures moves_on { (ideal : Ideal) → Matches ideal self.old
            → MovesOn ideal self.old event.now result self.new }
    {
        let mut outcome = Outcome::nothing();
        self.step_into(event, &mut outcome);
        outcome
    }

    /// Lets `event` happen as `step` does, and writes what happened into `outcome`, which is emptied first.
    pub fn step_into(&mut self, event: &Event, outcome: &mut Outcome)
        ensures step { Step self.old event.now outcome.new self.new }

        // The event's moves may happen, and the new state matches the world after them, as `step` says.
        ensures moves_on { (ideal : Ideal) → Matches ideal self.old
            → MovesOn ideal self.old event.now outcome.new self.new }
    {
        outcome.clear();
        self.decide(event, outcome);
    }

    /// Lets the events of which `event` consists happen, until one is refused. Appends what happened at each to
    /// `outcome`.
    fn decide(&mut self, event: &Event, outcome: &mut Outcome)
        requires nothing { outcome.old ≡ [] }
        ensures step { Step self.old event.now outcome.new self.new }
    {
        match event {
            Event::Start(versions) => outcome.tell(self.start(versions)),
            Event::Mount(daemon) => outcome.tell(self.mount(*daemon)),
            Event::Issue(request) => outcome.tell(self.issue(request)),
            Event::Take(daemon) => outcome.tell(self.take(*daemon)),
            Event::Work {
                daemon,
                position,
                fails,
            } => outcome.tell(self.work(*daemon, *position, *fails)),
            Event::Post { daemon, position } => outcome.tell(self.post(*daemon, *position)),
            Event::Deliver => outcome.tell(self.deliver()),
            Event::Hear { daemon, position } => outcome.tell(self.hear(*daemon, *position)),
            Event::Drained(daemon) => outcome.tell(self.drained(*daemon)),
            Event::GiveUp(daemon) => outcome.tell(self.give_up(*daemon)),
            Event::Claim(daemon) => outcome.tell(self.claim(*daemon)),
            Event::Crash(daemon) => outcome.tell(self.crash(*daemon)),
            Event::Do(request) => self.carry_out(request, outcome),
            Event::Show => {}
        }
    }

    /// Starts a daemon with `versions` and says its offer, unless there are `MOST_DAEMONS` daemons already.
    fn start(&mut self, versions: &Versions) -> Happened
        ensures once { Once self.old (Event.Start versions.now) result self.new }
    {
        if self.daemons.len() >= World::MOST_DAEMONS {
            return Happened::Refused(Refusal::Full);
        }
        let number = DaemonId(self.daemons.len() as u64 + 1);
        if self.daemons.reserve(1).is_err() {
            return Happened::Refused(Refusal::NoMemory);
        }
        if self.messages.reserve(1).is_err() {
            return Happened::Refused(Refusal::NoMemory);
        }
        let daemon = Daemon::new(versions.copy());
        self.messages.push_reserved(daemon.offer());
        self.daemons.push_reserved(daemon);
        Happened::Started(number)
    }

    /// Gives a waiting daemon the seat. Other refusals are looked for before memory is taken for what the daemon
    /// serves.
    fn mount(&mut self, daemon: DaemonId) -> Happened
        ensures once { Once self.old (Event.Mount daemon) result self.new }
    {
        let Some(index) = index_of(daemon.0, self.daemons.len()) else {
            return Happened::Refused(Refusal::NoDaemon);
        };
        if !self.daemons[index].is_waiting() {
            return Happened::Refused(Refusal::WrongPhase);
        }
        if let Some(fault) = self.broker.mount_refusal() {
            return Happened::Refused(Refusal::from(fault));
        }
        let Ok((manifest, served)) = opening(self.alloc, &self.manifest, self.limit) else {
            return Happened::Refused(Refusal::NoMemory);
        };
        let generation = self.broker.mount(daemon);
        let server = Server::new(self.alloc, generation, manifest, served);
        let waited = &mut self.daemons[index];
        waited.mount(generation, server);
        Happened::Mounted(generation)
    }

    /// Issues the kernel's ask or forget.
    fn issue(&mut self, request: &Request) -> Happened
        ensures once { Once self.old (Event.Issue request.now) result self.new }
    {
        match self.broker.issue(request) {
            Ok(unique) => Happened::Asked(unique),
            Err(fault) => Happened::Refused(Refusal::from(fault)),
        }
    }

    /// Lets a daemon take what waits first at the broker.
    fn take(&mut self, daemon: DaemonId) -> Happened
        ensures once { Once self.old (Event.Take daemon) result self.new }
    {
        let Some(index) = index_of(daemon.0, self.daemons.len()) else {
            return Happened::Refused(Refusal::NoDaemon);
        };
        let taker = &mut self.daemons[index];
        taker.take(&mut self.broker, daemon)
    }

    /// Lets a daemon work the request at `position` of its hand. If `fails`, the backing fails the first time it is
    /// asked.
    fn work(&mut self, daemon: DaemonId, position: u64, fails: bool) -> Happened
        ensures once { Once self.old (Event.Work daemon position fails) result self.new }
    {
        let Some(index) = index_of(daemon.0, self.daemons.len()) else {
            return Happened::Refused(Refusal::NoDaemon);
        };
        let worker = &mut self.daemons[index];
        worker.work(position, fails)
    }

    /// Lets a daemon post the reply at `position` of those that it did not post yet. It takes no memory.
    fn post(&mut self, daemon: DaemonId, position: u64) -> Happened
        ensures once { Once self.old (Event.Post daemon position) result self.new }
    {
        let Some(index) = index_of(daemon.0, self.daemons.len()) else {
            return Happened::Refused(Refusal::NoDaemon);
        };
        let poster = &mut self.daemons[index];
        poster.post(&mut self.broker, daemon, position)
    }

    /// Delivers the reply that was posted first to the kernel.
    fn deliver(&mut self) -> Happened
        ensures once { Once self.old Event.Deliver result self.new }
    {
        match self.broker.deliver() {
            Ok(reply) => Happened::Answered(reply),
            Err(DeliverFault::Empty) => Happened::Refused(Refusal::Empty),
            Err(DeliverFault::NoMemory) => Happened::Refused(Refusal::NoMemory),
        }
    }

    /// Lets a daemon hear the message at `position`. Memory for what the daemon says is reserved before the daemon
    /// changes, and before it reads a part.
    fn hear(&mut self, daemon: DaemonId, position: u64) -> Happened
        ensures once { Once self.old (Event.Hear daemon position) result self.new }
    {
        let Some(index) = index_of(daemon.0, self.daemons.len()) else {
            return Happened::Refused(Refusal::NoDaemon);
        };
        let Some(at) = index_of(position, self.messages.len()) else {
            return Happened::Refused(Refusal::NoSuch);
        };
        let said = &self.messages[at];
        let hearer = &self.daemons[index];
        let Ok(effect) = hearer.hear(self.alloc, &self.manifest, self.limit, said) else {
            return Happened::Refused(Refusal::NoMemory);
        };
        match effect {
            Effect::Turn(turn) => {
                if self.messages.reserve(turn.count()).is_err() {
                    return Happened::Refused(Refusal::NoMemory);
                }
                let reaction = let_turn(&mut self.daemons, index, turn);
                say(&mut self.messages, reaction)
            }
            Effect::Part(node) => {
                if self.messages.reserve(1).is_err() {
                    return Happened::Refused(Refusal::NoMemory);
                }
                let reader = &mut self.daemons[index];
                let Ok(reaction) = reader.read_part(self.alloc, node, &self.messages[at]) else {
                    return Happened::Refused(Refusal::NoMemory);
                };
                say(&mut self.messages, reaction)
            }
        }
    }

    /// Lets a daemon say that it is ready to hand over. Every other refusal comes before out of memory.
    fn drained(&mut self, daemon: DaemonId) -> Happened
        ensures once { Once self.old (Event.Drained daemon) result self.new }
    {
        let Some(index) = index_of(daemon.0, self.daemons.len()) else {
            return Happened::Refused(Refusal::NoDaemon);
        };
        if self.messages.reserve(1).is_err() {
            return match self.daemons[index].drain_refusal() {
                Some(fault) => Happened::Refused(Refusal::from(fault)),
                None => Happened::Refused(Refusal::NoMemory),
            };
        }
        let drainer = &mut self.daemons[index];
        match drainer.drain() {
            Ok(reaction) => say(&mut self.messages, reaction),
            Err(fault) => Happened::Refused(Refusal::from(fault)),
        }
    }

    /// Lets a daemon give its takeover up. Memory for what the daemon says is reserved first.
    fn give_up(&mut self, daemon: DaemonId) -> Happened
        ensures once { Once self.old (Event.GiveUp daemon) result self.new }
    {
        let Some(index) = index_of(daemon.0, self.daemons.len()) else {
            return Happened::Refused(Refusal::NoDaemon);
        };
        if self.messages.reserve(1).is_err() {
            return Happened::Refused(Refusal::NoMemory);
        }
        let doubter = &mut self.daemons[index];
        let reaction = doubter.give_up();
        say(&mut self.messages, reaction)
    }

    /// Lets a daemon claim the seat. A daemon whose claim can never succeed is gone. It takes no memory.
    fn claim(&mut self, daemon: DaemonId) -> Happened
        ensures once { Once self.old (Event.Claim daemon) result self.new }
    {
        let Some(index) = index_of(daemon.0, self.daemons.len()) else {
            return Happened::Refused(Refusal::NoDaemon);
        };
        let Some(generation) = self.daemons[index].claim_wanted() else {
            return Happened::Refused(Refusal::WrongPhase);
        };
        match self.broker.claim(daemon, generation) {
            Ok(next) => {
                let holder = &mut self.daemons[index];
                holder.take_answer(Ok(next));
                Happened::Claimed(next)
            }
            Err(fault) => {
                let holder = &mut self.daemons[index];
                holder.take_answer(Err(fault));
                Happened::Refused(Refusal::from(fault))
            }
        }
    }

    /// Ends a daemon, and also the mount if the daemon has the seat. It takes no memory.
    fn crash(&mut self, daemon: DaemonId) -> Happened
        ensures once { Once self.old (Event.Crash daemon) result self.new }
    {
        let Some(index) = index_of(daemon.0, self.daemons.len()) else {
            return Happened::Refused(Refusal::NoDaemon);
        };
        let ended = &mut self.daemons[index];
        ended.crash();
        self.broker.gone(daemon);
        Happened::Crashed
    }

    /// Lets the events of a `do` happen, until one is refused. Appends what happened at each to `outcome`.
    fn carry_out(&mut self, request: &Request, outcome: &mut Outcome)
        requires nothing { outcome.old ≡ [] }
        ensures step { Step self.old (Event.Do request.now) outcome.new self.new }
    {
        let Some(seat) = self.broker.seat() else {
            outcome.tell(self.issue(request));
            return;
        };
        if !self.begin(seat.daemon, request, outcome) {
            return;
        }
        if !outcome.add(self.work(seat.daemon, 1, false)) {
            return;
        }
        if !request.is_ask() {
            return;
        }
        if !outcome.add(self.post(seat.daemon, 1)) {
            return;
        }
        let _is_made = outcome.add(self.deliver());
    }

    /// Issues `request`, lets `daemon` take what waits first, and returns whether both were made. Memory that the
    /// daemon needs for the take is reserved before the issue.
    fn begin(&mut self, daemon: DaemonId, request: &Request, outcome: &mut Outcome) -> bool
        requires nothing { outcome.old ≡ [] }
        ensures begins { Begins self.old request.now daemon result outcome.new self.new }
    {
        let Some(index) = index_of(daemon.0, self.daemons.len()) else {
            if !outcome.add(self.issue(request)) {
                return false;
            }
            outcome.tell(Happened::Refused(Refusal::NoDaemon));
            return false;
        };
        let beginner = &mut self.daemons[index];
        let begun = beginner.begin(&mut self.broker, daemon, request);
        let is_made = begun.is_made();
        outcome.tell_begun(begun);
        is_made
    }

    /// Returns what `daemon` serves and has in hand, if there is such a daemon and it serves.
    fn server(&self, daemon: DaemonId) -> Option<&Server>
        ensures server { option_copied result ≡ server_of self.now daemon }
    {
        let index = index_of(daemon.0, self.daemons.len())?;
        self.daemons[index].server()
    }
}
