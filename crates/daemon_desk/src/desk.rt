//! A daemon with the frames of its connections: what each frame leads to.
ghost use Rattle.std.specs.Option.{option_map, IfSome};
ghost use Rattle.std.specs.Prelude.{◌≡◌, ◌≢◌, ◌≤◌, ◌⊎◌, ◌↔◌, Some, None, true, false, length, is_some, IsSome, IsTrue, OnOk, OnErr};
ghost use Rattle.fuse_ops.specs.Served.{new_served};
ghost use Rattle.takeover_core.specs.Histories.{seat_of};
ghost use Rattle.takeover_core.specs.Phases.{may_take, claim_wanted};
ghost use Rattle.takeover_core.specs.declared.phase.Phase.TheVariants.{Serving};
ghost use Rattle.frames.specs.declared.frame.Frame.TheVariants.{Takeover};
ghost use Rattle.daemon.specs.Daemon.{is_waiting, lent_server};
ghost use Rattle.daemon.specs.Saying.{what_is_said};
ghost use Rattle.daemon.specs.Talking.{BringsPart};
ghost use Rattle.daemon_desk.specs.Desk.{BringsAnother, new_desk, taking_at, is_draining, is_lent_at, lendable, lent, mounted_at, claimed_at, returned, ready_in, ready_of, claim_of, claim_answer, Hears, HearsMessage, LacksMemory, IsTold, IsSaid, MountsAt, Mounts, Drains, DrainsNow, GivesUp, ClaimsBy, Claims};

use crate::answers::{Claiming, Hearing, Mounting};
use crate::frame_list::FrameList;
use daemon::{Daemon, Effect, Lease, Reaction, Server, opening};
use eden_base::{ClaimFault, NoMemory};
use frames::Frame;
use fuse_ops::Served;
use manifest::Manifest;
use map_codec::names_another;
use std::alloc::Global;
use std::marker::Model;
use takeover_core::{Message, Node, Phase, Versions};

/// What a daemon serves once it mounts: a served state, with its share of the manifest.
#[derive(Drop)]
struct Prepared {
    manifest: Manifest,
    served: Served,
    ghost over: { served.tree.manifest ≡ manifest },
}

/// A daemon, the manifest of its checkout, what it prepared for a mount, and whether workers have its lease. Contracts
/// see it as a `DeskState`.
pub struct DaemonDesk {
    alloc: Global,
    daemon: Daemon,
    manifest: Manifest,
    limit: usize,
    prepared: Option<Prepared>,
    is_lent: bool,
}

impl Drop for DaemonDesk {
    fn drop(self) {
        let DaemonDesk {
            alloc: _,
            daemon: _,
            manifest: _,
            limit: _,
            prepared: _,
            is_lent: _,
        } = self;
    }
}

impl Model for DaemonDesk {
    ghost use Rattle.std.specs.Coded.{codes};
    ghost use Rattle.std.specs.Option.{option_map};
    ghost use Rattle.manifest.specs.Codes.{manifest_code, tree_code};
    ghost use Rattle.takeover_core.specs.Node.{node_state_code};
    ghost use Rattle.daemon_desk.specs.Desk.{DeskState};
    ghost use Rattle.daemon_desk.specs.Inside.{IsOrderly};

    ghost Value = { DeskState };

    ghost coded = { Prim.hlevel (codes, manifest_code, tree_code, node_state_code) };

    ghost view = { λ desk. record {
      daemon = desk.daemon;
      manifest = desk.manifest;
      limit = desk.limit;
      prepared = option_map (λ prepared. prepared.served) desk.prepared;
      is_lent = desk.is_lent;
    } };

    ghost invariant = { λ desk. IsOrderly desk.is_lent desk.daemon };
}

impl DaemonDesk {
    /// Returns the desk of a daemon that just started, and that has `versions` of the image. The daemon has at most
    /// `limit` attributes loaded at once.
    pub fn new(alloc: Global, manifest: Manifest, limit: usize, versions: Versions) -> DaemonDesk
        ensures new { result ≡ new_desk manifest limit versions }
    {
        DaemonDesk {
            alloc,
            daemon: Daemon::new(versions),
            manifest,
            limit,
            prepared: None,
            is_lent: false,
        }
    }

    /// Makes the state that the daemon serves once it mounts. So taking the broker's answer to a Mount takes no memory.
    pub fn prepare(&mut self) -> Result<(), NoMemory>
        ensures prepared { OnOk result (self.new ≡ record self.old {
          prepared = Some (new_served self.old.manifest self.old.limit);
        }) }
        ensures unchanged { OnErr result (self.new ≡ self.old) }
    {
        let (manifest, served) = opening(self.alloc, &self.manifest, self.limit)?;
        self.prepared = Some(Prepared { manifest, served });
        Ok(())
    }

    /// Takes in the broker's answer to a Mount. It takes no memory.
    pub fn take_mount(&mut self, answer: &Frame) -> Mounting
        ensures mounts { Mounts self.old answer.now result self.new }
        ensures serves { IfSome (mounted_at result) (λ generation.
            self.new.daemon.node.phase ≡ Serving generation) }
    {
        if !self.daemon.is_waiting() {
            return Mounting::Broken;
        }
        if self.prepared.is_none() {
            return Mounting::Broken;
        }
        match answer {
            Frame::Mounted { generation } => self.mount(*generation),
            Frame::Seated => Mounting::Seated,
            Frame::LastGeneration => Mounting::LastGeneration,
            Frame::Ended => Mounting::Ended,
            _ => Mounting::Broken,
        }
    }

    /// Begins to serve what was prepared, at `generation`.
    fn mount(&mut self, generation: u64) -> Mounting
        requires waiting { IsTrue (is_waiting self.old.daemon) }
        requires prepared { IsTrue (is_some self.old.prepared) }
        ensures mounts { IfSome self.old.prepared (λ served. MountsAt generation served self.old result self.new) }
        ensures serves { IfSome (mounted_at result) (λ generation.
            self.new.daemon.node.phase ≡ Serving generation) }
    {
        let Some(prepared) = self.prepared.take() else {
            unreachable!();
        };
        let Prepared { manifest, served } = prepared;
        let server = Server::new(self.alloc, generation, manifest, served);
        self.daemon.mount(generation, server);
        Mounting::Serves(generation)
    }

    /// Returns the frame in which the daemon offers its versions of the image.
    pub fn offer(&self) -> Frame
        ensures offer { result ≡ Takeover (Message.Offer self.now.daemon.node.versions) }
    {
        Frame::Takeover(self.daemon.offer())
    }

    /// Returns whether `frame` brings an image or the first part of one, and that names another manifest than the
    /// daemon's.
    pub fn is_of_another_manifest(&self, frame: &Frame) -> bool
        ensures another { IsTrue result ↔ BringsAnother self.now.manifest frame.now }
    {
        match frame {
            Frame::Takeover(Message::Data { bytes, .. }) => {
                names_another(bytes.as_slice(), &self.manifest)
            }
            Frame::Takeover(
                Message::Part {
                    position: 1,
                    bytes,
                    ..
                },
            ) => names_another(bytes.as_slice(), &self.manifest),
            _ => false,
        }
    }

    /// Hears a frame of another daemon. In this call an image to hand over is written, and an image that comes is read
    /// and restored.
    pub fn hear(&mut self, frame: &Frame) -> Hearing
        ensures hears { Hears self.old frame.now result self.new }
    {
        match frame {
            Frame::Takeover(message) => self.hear_message(message),
            _ => Hearing::Closes,
        }
    }

    /// Hears a message of another daemon.
    fn hear_message(&mut self, message: &Message) -> Hearing
        ensures hears { HearsMessage self.old message.now result self.new
            ⊎ LacksMemory self.old message.now result self.new }
    {
        let Ok(effect) = self
            .daemon
            .hear(self.alloc, &self.manifest, self.limit, message)
        else {
            return Hearing::NoMemory;
        };
        match effect {
            Effect::Turn(turn) => {
                let reaction = self.daemon.turn(turn);
                hearing_of(reaction)
            }
            Effect::Part(node) => self.read_part(node, message),
        }
    }

    /// Reads the part that `message` brings. `node` is the daemon's part in takeovers since it heard of that.
    fn read_part(&mut self, node: Node, message: &Message) -> Hearing
        requires part { BringsPart self.old.daemon message.now node }
        ensures hears { HearsMessage self.old message.now result self.new
            ⊎ LacksMemory self.old message.now result self.new }
    {
        if let Ok(reaction) = self.daemon.read_part(self.alloc, node, message) {
            return hearing_of(reaction);
        }
        Hearing::NoMemory
    }

    /// Returns the daemon's phase: how far it is in a takeover.
    pub fn phase(&self) -> Phase
        ensures phase { result ≡ self.now.daemon.node.phase }
        // While workers have the lease, the daemon is in a phase in which they may take.
        ensures lent { self.now.is_lent ≡ true → IsTrue (may_take result) }
    {
        self.daemon.phase()
    }

    /// Returns the generation at which workers may take, if they may. They may while the daemon serves or drains.
    pub fn serving(&self) -> Option<u64>
        ensures serving { result ≡ taking_at self.now.daemon.node.phase }
        ensures seat { IfSome result (λ generation. seat_of self.now.daemon.node.phase ≡ Some generation) }
    {
        match self.daemon.phase() {
            Phase::Serving { generation } | Phase::Draining { generation, .. } => Some(generation),
            _ => None,
        }
    }

    /// Returns whether the daemon drains: a takeover waits until its hand is empty.
    pub fn drains(&self) -> bool
        ensures drains { result ≡ is_draining self.now.daemon.node.phase }
    {
        matches!(self.daemon.phase(), Phase::Draining { .. })
    }

    /// Lends workers what the daemon serves, if they may take and it is not lent already.
    #[tactic(auto, using(crate::proofs::Lending::lends_it))]
    pub fn lend(&mut self) -> Option<Lease>
        ensures lent { option_map lent_server result ≡ lendable self.old }
        ensures becomes { self.new ≡ lent self.old }
        ensures there { IsTrue (may_take self.old.daemon.node.phase) → self.old.is_lent ≡ false → IsSome result }
        ensures generation { IfSome result (λ lease. seat_of self.old.daemon.node.phase ≡ Some lease.generation) }
    {
        if self.serving().is_none() {
            return None;
        }
        let lease = self.daemon.lend()?;
        self.is_lent = true;
        Some(lease)
    }

    /// Takes `lease` back after a round that is settled, and serves it on. Drops `lease` if no lease is out, or one
    /// of another generation.
    #[tactic(auto, using(crate::proofs::Lending::not_lent_at))]
    pub fn take_back(&mut self, lease: Lease)
        ensures returned { self.new ≡ returned self.old (lent_server lease) }
        ensures generation { seat_of self.old.daemon.node.phase ≢ Some lease.generation → self.new ≡ self.old }
    {
        if !self.has_lent_at(lease.generation) {
            drop(lease);
            return;
        }
        self.is_lent = false;
        self.daemon.take_back(self.alloc, lease);
    }

    /// Returns whether workers have a lease, at this generation.
    fn has_lent_at(&self, generation: u64) -> bool
        ensures lent { result ≡ is_lent_at self.now generation }
    {
        match self.serving() {
            Some(taking) => self.is_lent && generation == taking,
            None => false,
        }
    }

    /// Returns the frame that says that the daemon is ready to hand over, if it drains and no workers have a lease.
    pub fn drained(&mut self) -> Option<Frame>
        ensures drains { Drains self.old result self.new }
        ensures ready { result ≡ ready_of self.old }
    {
        if self.is_lent {
            return None;
        }
        self.drain()
    }

    /// Returns the frame that says that the daemon is ready to hand over, if it drains.
    fn drain(&mut self) -> Option<Frame>
        requires own { self.old.is_lent ≡ false }
        ensures drains { DrainsNow self.old result self.new }
        ensures ready { result ≡ ready_in false self.old.daemon.node.phase }
    {
        let Ok(reaction) = self.daemon.drain() else {
            return None;
        };
        frame_of(reaction)
    }

    /// Gives up the daemon's part in a takeover, for example when the connection to the other daemon ended. Returns the
    /// frame to send to the other daemon, if there is one.
    pub fn give_up(&mut self) -> Option<Frame>
        ensures gives_up { GivesUp self.old result self.new }
    {
        frame_of(self.daemon.give_up())
    }

    /// Returns the frame of the claim that the daemon wants to make, if it wants to make one.
    pub fn claim(&self) -> Option<Frame>
        ensures claim { result ≡ claim_of self.now }
    {
        match self.daemon.claim_wanted() {
            Some(generation) => Some(Frame::Claim { generation }),
            None => None,
        }
    }

    /// Takes in the broker's answer to a Claim.
    pub fn take_claim(&mut self, answer: &Frame) -> Claiming
        ensures claims { Claims self.old answer.now result self.new }
        ensures serves { IfSome (claimed_at result) (λ generation.
            self.new.daemon.node.phase ≡ Serving generation) }
    {
        if self.daemon.claim_wanted().is_none() {
            return Claiming::Broken;
        }
        match claim_answer(answer) {
            Some(answer) => self.take_answer(answer),
            None => Claiming::Broken,
        }
    }

    /// Takes in the answer to a claim.
    fn take_answer(&mut self, answer: Result<u64, ClaimFault>) -> Claiming
        requires wanted { IsTrue (is_some (claim_wanted self.old.daemon.node.phase)) }
        ensures claims { ClaimsBy answer self.old result self.new }
        ensures serves { IfSome (claimed_at result) (λ generation.
            self.new.daemon.node.phase ≡ Serving generation) }
    {
        self.daemon.take_answer(answer);
        match answer {
            Ok(generation) => Claiming::Serves(generation),
            Err(ClaimFault::Unanswered { .. }) => Claiming::Waits,
            Err(ClaimFault::Stale { .. }) => Claiming::Stale,
            Err(ClaimFault::Ended) => Claiming::Ended,
            Err(ClaimFault::LastGeneration) => Claiming::LastGeneration,
        }
    }
}

/// Returns the `Hearing` of a frame to which the daemon has this reaction.
fn hearing_of(reaction: Reaction) -> Hearing
    ensures told { IsTold reaction result }
{
    match reaction {
        Reaction::Ignores => Hearing::Ignores,
        Reaction::Accepts => Hearing::Accepts,
        Reaction::Says(said, others) => Hearing::Tells(FrameList::of(said, others)),
    }
}

/// Returns the frame of the message that `reaction` says, if it says one. It says one at most.
fn frame_of(reaction: Reaction) -> Option<Frame>
    requires at_most_one { length (what_is_said reaction) ≤ 1 }
    ensures said { IsSaid reaction result }
{
    match reaction {
        Reaction::Ignores | Reaction::Accepts => None,
        Reaction::Says(said, others) => {
            drop(others);
            Some(Frame::Takeover(said))
        }
    }
}

/// Returns the answer to a Claim that `frame` is, if it is one.
fn claim_answer(frame: &Frame) -> Option<Result<u64, ClaimFault>>
    ensures answer { result ≡ claim_answer frame.now }
{
    match frame {
        Frame::Claimed { generation } => Some(Ok(*generation)),
        Frame::Unanswered { asks } => Some(Err(ClaimFault::Unanswered { asks: *asks })),
        Frame::Stale { now } => Some(Err(ClaimFault::Stale { now: *now })),
        Frame::Ended => Some(Err(ClaimFault::Ended)),
        Frame::LastGeneration => Some(Err(ClaimFault::LastGeneration)),
        _ => None,
    }
}
