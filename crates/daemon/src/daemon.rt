//! One daemon: its part in takeovers, what it serves, and its calls.
ghost use Rattle.std.specs.Option.{option_copied, option_map};
ghost use Rattle.std.specs.Prelude.{◌≡◌, ◌≤◌, ◌⊎◌, ◌++◌, ℕ, true, false, Some, None, is_none, length, IsTrue, IfOk, OnErr, OnOk};
ghost use Rattle.manifest.specs.Manifest.{Manifest};
ghost use Rattle.map_image.specs.Feeding.{standing_fault};
ghost use Rattle.takeover_core.specs.Phases.{heard, Hear, is_holding, drain_fault, claim_wanted};
ghost use Rattle.daemon.specs.Daemon.{new_daemon, turned_to, is_waiting, in_hand, unposted, lendable, lent_server, with_lent, with_server};
ghost use Rattle.daemon.specs.Saying.{turned, what_is_said};
ghost use Rattle.daemon.specs.Beginning.{DaemonBegins, NobodyBegins};
ghost use Rattle.daemon.specs.Serving.{beginning, DaemonTakes, DaemonWorks, DaemonPosts};
ghost use Rattle.daemon.specs.Talking.{MountsSo, EndsSo, BringsPart, ComesTo, HearsSo, GivesUpSo, DrainsSo, ClaimsSo, brings_data, brings_part, makes_parts, said_by, read_before, at_generation};

use crate::handing::{Handover, make_data};
use crate::happened::{Begun, Happened, Refusal};
use crate::lease::Lease;
use crate::messages::Messages;
use crate::server::Server;
use crate::taking::{Restorer, bytes_of, feed, read_first};
use crate::turn::{Effect, Reaction, Turn};
use broker_core::Broker;
use eden_base::{ClaimFault, DaemonId, NoMemory};
use fuse_wire::Request;
use manifest::Manifest;
use map_image::PartReader;
use std::alloc::Global;
use std::marker::Model;
use takeover_core::{DrainFault, Heard, Message, Node, Phase, Versions};

/// A daemon. `node` is its part in takeovers, and `server` is what it serves, if it serves. `reading` has the parts of
/// an image that it read, while it waits for another part. Clauses see a daemon as a `DaemonState`.
pub struct Daemon {
    node: Node,
    server: Option<Server>,
    reading: Option<PartReader>,
}

impl Drop for Daemon {
    fn drop(self) {
        let Daemon {
            node: _,
            server: _,
            reading: _,
        } = self;
    }
}

impl Model for Daemon {
    ghost use Rattle.std.specs.Coded.{codes};
    ghost use Rattle.manifest.specs.Codes.{tree_code};
    ghost use Rattle.takeover_core.specs.Node.{node_state_code};
    ghost use Rattle.daemon.specs.Daemon.{DaemonState};

    ghost Value = { DaemonState };

    ghost coded = { Prim.hlevel (codes, tree_code, node_state_code) };

    ghost view = { λ daemon. record {
      node = daemon.node;
      server = daemon.server;
      reading = daemon.reading;
    } };
}

impl Daemon {
    /// Returns a daemon that just started, and that has `versions` of the image.
    pub fn new(versions: Versions) -> Daemon
        ensures new { result ≡ new_daemon versions }
    {
        Daemon {
            node: Node::waiting(versions),
            server: None,
            reading: None,
        }
    }

    /// Returns the message in which the daemon offers its versions when it is started.
    pub fn offer(&self) -> Message
        ensures offer { result ≡ Message.Offer self.now.node.versions }
    {
        self.node.offer()
    }

    /// Returns the daemon's phase: how far it is in a takeover.
    pub fn phase(&self) -> Phase
        ensures phase { result ≡ self.now.node.phase }
    {
        self.node.phase()
    }

    /// Returns whether the daemon has started, and has neither mounted nor taken part in a takeover.
    pub fn is_waiting(&self) -> bool
        ensures waiting { result ≡ is_waiting self.now }
    {
        matches!(self.node.phase(), Phase::Waiting)
    }

    /// Returns what the daemon serves and has in hand, if it serves.
    pub fn server(&self) -> Option<&Server>
        ensures server { option_copied result ≡ self.now.server }
    {
        self.server.as_ref()
    }

    /// Returns the reader of the parts that came before the next one, if the daemon waits for another part.
    pub(crate) fn reading(&self) -> Option<&PartReader>
        ensures reading { option_copied result ≡ self.now.reading }
    {
        self.reading.as_ref()
    }

    /// Lends what the daemon serves, with its share of the manifest, to a round of workers: they serve it without the
    /// daemon. Returns none if the daemon has a request in hand, or a reply that isn't posted. It serves nothing until
    /// `take_back` returns the lease to it, in this phase or another.
    pub fn lend(&mut self) -> Option<Lease>
        ensures lent { option_map lent_server result ≡ lendable self.old.server }
        ensures becomes { self.new ≡ with_lent self.old }
    {
        let (0, 0) = self.left() else {
            return None;
        };
        let server = self.server.take()?;
        Some(server.into_lease())
    }

    /// Serves on what `lease` lent. What the daemon serves in the meantime, if anything, is dropped.
    pub fn take_back(&mut self, alloc: Global, lease: Lease)
        ensures back { self.new ≡ with_server self.old (beginning lease.generation lease.served) }
    {
        let Lease {
            generation,
            manifest,
            served,
        } = lease;
        let server = Server::new(alloc, generation, manifest, served);
        let before = self.server.replace(server);
        drop(before);
    }

    /// Takes what waits first at the broker into the daemon's hand.
    pub fn take(&mut self, broker: &mut Broker, daemon: DaemonId) -> Happened
        ensures takes { DaemonTakes broker.old daemon result broker.new self.old self.new }
    {
        if !self.node.may_take() {
            return Happened::Refused(Refusal::WrongPhase);
        }
        let Some(server) = &mut self.server else {
            return Happened::Refused(Refusal::WrongPhase);
        };
        server.take(broker, daemon)
    }

    /// Works the request at `position` of the daemon's hand. If `fails`, the backing fails the first time it is asked.
    pub fn work(&mut self, position: u64, fails: bool) -> Happened
        ensures works { DaemonWorks position fails result self.old self.new }
    {
        let Some(server) = &mut self.server else {
            return Happened::Refused(Refusal::NoSuch);
        };
        server.work(position, fails)
    }

    /// Posts the reply at `position` of the replies that the daemon did not post yet.
    pub fn post(&mut self, broker: &mut Broker, daemon: DaemonId, position: u64) -> Happened
        ensures posts { DaemonPosts broker.old daemon position result broker.new self.old self.new }
    {
        let Some(server) = &mut self.server else {
            return Happened::Refused(Refusal::NoSuch);
        };
        server.post(broker, daemon, position)
    }

    /// Issues `request`, and then takes what waits first at the broker. Memory for the take is reserved before the
    /// issue.
    pub fn begin(&mut self, broker: &mut Broker, daemon: DaemonId, request: &Request) -> Begun
        ensures begins { DaemonBegins broker.old daemon request.now result broker.new self.old self.new }
    {
        let Some(server) = &mut self.server else {
            return issue_untaken(broker, request);
        };
        if self.node.may_take() {
            return server.begin(broker, daemon, request);
        }
        issue_untaken(broker, request)
    }

    /// Begins to serve `server` at `generation`, at which the broker gave this daemon the seat.
    pub fn mount(&mut self, generation: u64, server: Server)
        requires waiting { IsTrue (is_waiting self.old) }
        ensures mounts { MountsSo generation server self.old self.new }
    {
        self.node.mounted(generation);
        drop(self.server.replace(server));
    }

    /// Ends the daemon, and drops all that it had.
    pub fn crash(&mut self)
        ensures gone { EndsSo self.old self.new }
    {
        self.node.crash();
        drop(self.server.take());
        drop(self.reading.take());
    }

    /// Returns what a message of another daemon comes to. Data to hand over is made of what the daemon serves. Data
    /// handed to the daemon is read, and restored over `manifest`. Before the last part the parts that came are read once
    /// more, from their bytes. So the last part may be heard again where memory is refused.
    pub fn hear(
        &self,
        alloc: Global,
        manifest: &Manifest,
        limit: usize,
        message: &Message,
    ) -> Result<Effect, NoMemory>
        ensures hears { IfOk result (ComesTo manifest.now limit self.now message.now) }
        ensures at_most_one { makes_parts (heard self.now.node (Hear message.now)) ≡ false
            → IfOk result (λ effect. length (said_by effect) ≤ 1) }
        ensures memory { OnErr result (IsTrue (brings_data (heard self.now.node (Hear message.now)))) }
        ensures no_part { OnErr result (brings_part (heard self.now.node (Hear message.now)) ≡ false) }
    {
        let restorer = Restorer {
            alloc,
            daemon: self,
            manifest,
            limit,
        };
        let mut node = self.node.copy();
        match node.hear(message) {
            Heard::Ignored => Ok(Effect::Turn(Turn::to(node, Reaction::Ignores))),
            Heard::Heard => Ok(Effect::Turn(Turn::to(node, Reaction::Accepts))),
            Heard::Say(said) => Ok(Effect::Turn(Turn::to(node, Reaction::saying(Some(said))))),
            Heard::MakeData {
                session,
                generation,
                version,
            } => {
                let handover = Handover {
                    session,
                    generation,
                    version,
                };
                Ok(Effect::Turn(make_data(alloc, self, node, handover)?))
            }
            Heard::GotData { generation, .. } => {
                let turn = restorer.take_data(node, generation, bytes_of(message))?;
                Ok(Effect::Turn(turn))
            }
            Heard::GotPart {
                generation,
                position,
                count,
                ..
            } => {
                if position < count {
                    return Ok(Effect::Part(node));
                }
                let turn = restorer.take_last(node, generation, position, bytes_of(message))?;
                Ok(Effect::Turn(turn))
            }
        }
    }

    /// Makes the daemon what `turn` says that it becomes, and returns the reaction of `turn`. Takes no memory.
    pub fn turn(&mut self, turn: Turn) -> Reaction
        ensures reacts { result ≡ turn.reaction }
        ensures becomes { self.new ≡ turned self.old turn }
    {
        let (node, held, reaction) = turn.into_parts();
        self.turn_to(node);
        if let Some(server) = held {
            let before = self.server.replace(server);
            drop(before);
        }
        reaction
    }

    /// Reads the part that `message` brings, and returns the reaction. `node` is what `hear` gave for this message. The
    /// first part gets a new reader, which reads each later part in place, and keeps the bytes of each.
    pub fn read_part(
        &mut self,
        alloc: Global,
        node: Node,
        message: &Message,
    ) -> Result<Reaction, NoMemory>
        requires part { BringsPart self.old message.now node }
        ensures hears { IfOk result (λ reaction. (manifest : Manifest) (limit : ℕ) →
            HearsSo manifest limit self.old message.now reaction self.new) }
        ensures at_most_one { IfOk result (λ reaction. length (what_is_said reaction) ≤ 1) }
        ensures unchanged { OnErr result (self.new ≡ self.old) }
    {
        let Phase::Taking { position, .. } = node.phase() else {
            unreachable!();
        };
        let mut node = node;
        let fits = self.read(alloc, position, bytes_of(message))?;
        let said = node.fed(fits);
        self.turn_to(node);
        Ok(Reaction::saying(said))
    }

    /// Reads `bytes`, the part at `position`, after the parts before. Returns whether an image may begin with all that
    /// was read.
    fn read(&mut self, alloc: Global, position: u32, bytes: &[u8]) -> Result<bool, NoMemory>
        ensures reads { OnOk result (self.new ≡ record self.old {
          reading = Some (read_before position self.old ++ bytes.now);
        }) }
        ensures fits { IfOk result (λ fits.
            fits ≡ is_none (standing_fault (read_before position self.old ++ bytes.now))) }
        ensures unchanged { OnErr result (self.new ≡ self.old) }
    {
        if position != 1 {
            if let Some(reader) = &mut self.reading {
                return feed(reader, bytes);
            }
        }
        let (reader, fits) = read_first(alloc, bytes)?;
        drop(self.reading.replace(reader));
        Ok(fits)
    }

    /// Makes `node` the daemon's part in takeovers. What was read is dropped, unless the daemon waits for another part.
    fn turn_to(&mut self, node: Node)
        ensures turns { self.new ≡ turned_to self.old node }
    {
        if !matches!(node.phase(), Phase::Reading { .. }) {
            drop(self.reading.take());
        }
        self.node = node;
    }

    /// Returns what stops the daemon from handing over, if anything does: its phase, or requests in hand and replies
    /// that are not posted.
    pub fn drain_refusal(&self) -> Option<DrainFault>
        ensures refusal { result ≡ drain_fault self.now.node.phase (in_hand self.now) (unposted self.now) }
    {
        let (in_hand, unposted) = self.left();
        self.node.copy().drained(in_hand, unposted).err()
    }

    /// Says that the daemon is ready to hand over, if it drains, its hand is empty and every reply is posted. Else
    /// returns what stops it.
    pub fn drain(&mut self) -> Result<Reaction, DrainFault>
        ensures drains { DrainsSo self.old result self.new }
        ensures at_most_one { IfOk result (λ reaction. length (what_is_said reaction) ≤ 1) }
    {
        let (in_hand, unposted) = self.left();
        let said = self.node.drained(in_hand, unposted)?;
        Ok(Reaction::Says(said, Messages::none()))
    }

    /// Returns the generation from which the daemon wants to claim the seat, if it wants to claim.
    pub fn claim_wanted(&self) -> Option<u64>
        ensures wanted { result ≡ claim_wanted self.now.node.phase }
    {
        self.node.claim_wanted()
    }

    /// Takes in the answer to the daemon's claim. If the claim can never succeed, the daemon drops what it serves.
    pub fn take_answer(&mut self, answer: Result<u64, ClaimFault>)
        requires holding { IsTrue (is_holding self.old.node.phase) }
        ensures claims { ClaimsSo answer self.old self.new }
    {
        self.node.claimed(answer);
        match answer {
            Ok(generation) => self.serve_at(generation),
            Err(ClaimFault::Unanswered { .. }) => {}
            Err(_) => drop(self.server.take()),
        }
    }

    /// Moves what the daemon serves, if it serves, to `generation`.
    fn serve_at(&mut self, generation: u64)
        ensures at { self.new ≡ record self.old {
          server = option_map (at_generation generation) self.old.server;
        } }
    {
        if let Some(server) = &mut self.server {
            server.serve_at(generation);
        }
    }

    /// Returns how many requests the daemon has in hand, and how many replies it did not post.
    fn left(&self) -> (usize, usize)
        ensures in_hand { result.0 ≡ in_hand self.now }
        ensures unposted { result.1 ≡ unposted self.now }
    {
        match &self.server {
            Some(server) => (server.hand().len(), server.unposted().len()),
            None => (0, 0),
        }
    }

    /// Gives up the daemon's part in a takeover, for example when the other daemon cannot be reached any more.
    pub fn give_up(&mut self) -> Reaction
        ensures gives_up { GivesUpSo self.old result self.new }
        ensures at_most_one { length (what_is_said result) ≤ 1 }
    {
        drop(self.reading.take());
        match self.node.give_up() {
            Heard::Ignored => Reaction::Ignores,
            Heard::Heard => Reaction::Accepts,
            Heard::Say(said) => Reaction::Says(said, Messages::none()),
            Heard::MakeData { .. } | Heard::GotData { .. } | Heard::GotPart { .. } =>
                unreachable!(),
        }
    }
}

/// Issues `request`, and refuses the take as `WrongPhase`: the daemon's phase is one in which it takes nothing.
fn issue_untaken(broker: &mut Broker, request: &Request) -> Begun
    ensures begins { NobodyBegins broker.old request.now result broker.new }
{
    match broker.issue(request) {
        Ok(unique) => Begun::Issued {
            unique,
            taken: Happened::Refused(Refusal::WrongPhase),
        },
        Err(fault) => Begun::Refused(Refusal::from(fault)),
    }
}
