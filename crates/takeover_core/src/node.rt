//! The phases of one daemon.
ghost use Rattle.std.specs.Prelude.{◌≡◌, ℕ, List, Some, None, IsTrue, IfOk, IfErr, OnOk, OnErr};
ghost use Rattle.takeover_core.specs.Node.{new_node};
ghost use Rattle.takeover_core.specs.Phases.{after, heard, said, drain_fault, is_taking, is_raising, is_making, is_making_whole, is_making_parts, is_holding, may_take, claim_wanted, Mounted, Hear, Fed, Raised, Drained, DataMade, PartsMade, DataFailed, GiveUp, Claimed, Crash};

use crate::{Heard, Message, Phase, Versions};
use byte_codec::Bytes;
use eden_base::ClaimFault;
use std::marker::Model;
use thiserror::Error;

mod hearing;

/// Why a daemon is not drained. The text of a fault is that of a printed refusal.
#[derive(Clone, Copy, Debug, PartialEq, Eq, Error)]
pub enum DrainFault {
    /// The daemon is in another phase than Draining.
    #[error("WrongPhase")]
    WrongPhase,
    /// `in_hand` asks and items are in hand, or `unposted` replies are not posted.
    #[error("Undrained {in_hand} {unposted}")]
    Undrained { in_hand: usize, unposted: usize },
}

/// A daemon's part in takeovers: its phase, the image versions that it reads and writes, and how many sessions it has
/// begun. Contracts see a `NodeState`. No call takes memory.
#[derive(Drop)]
pub struct Node {
    phase: Phase,
    versions: Versions,
    sessions: u32,
}

impl Model for Node {
    ghost use Rattle.takeover_core.specs.Node.{NodeState, node_state_code};

    ghost Value = { NodeState };

    ghost coded = { node_state_code };

    ghost view = { λ n. record {
      phase = n.phase;
      versions = n.versions;
      sessions = n.sessions;
    } };
}

impl Node {
    /// Makes the node of a daemon that was just started.
    pub fn waiting(versions: Versions) -> Node
        ensures node { result ≡ new_node versions }
    {
        Node {
            phase: Phase::Waiting,
            versions,
            sessions: 0,
        }
    }

    /// Returns the phase of the daemon.
    pub fn phase(&self) -> Phase
        ensures phase { result ≡ self.now.phase }
    {
        self.phase
    }

    /// Returns the offer, which a new daemon says first.
    pub fn offer(&self) -> Message
        ensures offer { result ≡ Message.Offer self.now.versions }
    {
        Message::Offer(self.versions.copy())
    }

    /// Makes a copy of the node.
    pub fn copy(&self) -> Node
        ensures copy { result ≡ self.now }
    {
        Node {
            phase: self.phase,
            versions: self.versions.copy(),
            sessions: self.sessions,
        }
    }

    /// Begins to serve, after the broker gave this daemon the seat at `generation`.
    pub fn mounted(&mut self, generation: u64)
        requires waiting { self.old.phase ≡ Phase.Waiting }
        ensures after { self.new ≡ after self.old (Mounted generation) }
    {
        self.phase = Phase::Serving { generation };
    }

    /// Hears a message of another daemon, and returns what the caller has to do.
    pub fn hear(&mut self, message: &Message) -> Heard
        ensures heard { result ≡ heard self.old (Hear message.now) }
        ensures after { self.new ≡ after self.old (Hear message.now) }
    {
        match message {
            Message::Offer(offered) => self.hear_offer(offered),
            Message::Choice { session, version } => self.hear_choice(*session, *version),
            Message::NoCommon => self.hear_refusal(),
            Message::Busy => self.hear_refusal(),
            Message::Ready {
                session,
                generation,
            } => self.hear_ready(*session, *generation),
            Message::Pong { session } => self.hear_pong(*session),
            Message::Data {
                session,
                generation,
                ..
            } => self.hear_data(*session, *generation),
            Message::Part {
                session,
                generation,
                position,
                count,
                ..
            } => self.hear_part(*session, *generation, *position, *count),
            Message::Failed { session } => self.hear_failed(*session),
        }
    }

    /// Notes whether the part was read. If so, the daemon waits for the next part, or has all the data. If not, the
    /// daemon is gone, and the message that is to be said is returned.
    pub fn fed(&mut self, succeeded: bool) -> Option<Message>
        requires taking { IsTrue (is_taking self.old.phase) }
        ensures message { result ≡ said (heard self.old (Fed succeeded)) }
        ensures after { self.new ≡ after self.old (Fed succeeded) }
    {
        match self.phase {
            Phase::Taking { session, .. } if !succeeded => {
                self.phase = Phase::Gone;
                Some(Message::Failed { session })
            }
            Phase::Taking {
                session,
                generation,
                version,
                position,
                count,
            } if position < count => {
                self.phase = Phase::Reading {
                    session,
                    generation,
                    version,
                    position: position + 1,
                    count,
                };
                None
            }
            Phase::Taking {
                session,
                generation,
                ..
            } => {
                self.phase = Phase::Raising {
                    session,
                    generation,
                };
                None
            }
            _ => unreachable!(),
        }
    }

    /// Notes whether the data was read and restored. If so, the daemon may claim the seat. If not, the daemon is gone,
    /// and the message that is to be said is returned.
    pub fn raised(&mut self, succeeded: bool) -> Option<Message>
        requires raising { IsTrue (is_raising self.old.phase) }
        ensures message { result ≡ said (heard self.old (Raised succeeded)) }
        ensures after { self.new ≡ after self.old (Raised succeeded) }
    {
        match self.phase {
            Phase::Raising { generation, .. } if succeeded => {
                self.phase = Phase::Holding { generation };
                None
            }
            Phase::Raising { session, .. } => {
                self.phase = Phase::Gone;
                Some(Message::Failed { session })
            }
            _ => unreachable!(),
        }
    }

    /// Returns the message that the daemon is ready to hand over, if it drains and has nothing left. `in_hand` counts
    /// its asks and items in hand, and `unposted` its unposted replies.
    pub fn drained(&mut self, in_hand: usize, unposted: usize) -> Result<Message, DrainFault>
        ensures ready { IfOk result (λ message.
            heard self.old (Drained in_hand unposted) ≡ Heard.Say message) }
        ensures nothing_left { OnOk result ((in_hand ≡ 0) × (unposted ≡ 0)) }
        ensures refused { IfErr result (λ fault.
            drain_fault self.old.phase in_hand unposted ≡ Some fault) }
        ensures after { self.new ≡ after self.old (Drained in_hand unposted) }
        ensures unchanged { OnErr result (self.new ≡ self.old) }
    {
        match self.phase {
            Phase::Draining {
                generation,
                session,
                version,
            } => {
                if in_hand > 0 || unposted > 0 {
                    return Err(DrainFault::Undrained { in_hand, unposted });
                }
                self.phase = Phase::Pinged {
                    generation,
                    session,
                    version,
                };
                Ok(Message::Ready {
                    session,
                    generation,
                })
            }
            _ => Err(DrainFault::WrongPhase),
        }
    }

    /// Hands the data over in one message, which is returned and keeps the memory of `bytes`. From then on the daemon
    /// serves only after a claim.
    pub fn data_made(&mut self, bytes: Bytes) -> Message
        requires making { IsTrue (is_making_whole self.old.phase) }
        ensures message { Some result ≡ said (heard self.old (DataMade bytes)) }
        ensures after { self.new ≡ after self.old (DataMade bytes) }
    {
        match self.phase {
            Phase::Making {
                generation,
                session,
                ..
            } => {
                self.phase = Phase::Handed {
                    generation,
                    session,
                };
                Message::Data {
                    session,
                    generation,
                    bytes,
                }
            }
            _ => unreachable!(),
        }
    }

    /// Notes that the data goes in parts, which the caller says. From then on the daemon serves only after a claim.
    pub fn parts_made(&mut self)
        requires making { IsTrue (is_making_parts self.old.phase) }
        ensures after { self.new ≡ after self.old PartsMade }
    {
        match self.phase {
            Phase::Making {
                generation,
                session,
                ..
            } => self.phase = Phase::Handed {
                generation,
                session,
            },
            _ => unreachable!(),
        }
    }

    /// Notes that the data could not be made, and returns the message that is to be said. The daemon serves on.
    pub fn data_failed(&mut self) -> Message
        requires making { IsTrue (is_making self.old.phase) }
        ensures message { Some result ≡ said (heard self.old DataFailed) }
        ensures after { self.new ≡ after self.old DataFailed }
    {
        match self.phase {
            Phase::Making {
                generation,
                session,
                ..
            } => {
                self.phase = Phase::Serving { generation };
                Message::Failed { session }
            }
            _ => unreachable!(),
        }
    }

    /// Ends the daemon's part in a takeover, for example when the other daemon cannot be reached any more. Returns what
    /// the caller has to do.
    pub fn give_up(&mut self) -> Heard
        ensures heard { result ≡ heard self.old GiveUp }
        ensures after { self.new ≡ after self.old GiveUp }
    {
        match self.phase {
            Phase::Waiting | Phase::Chosen { .. } | Phase::Reading { .. } => {
                self.phase = Phase::Gone;
                Heard::Heard
            }
            Phase::Draining {
                generation,
                session,
                ..
            }
            | Phase::Pinged {
                generation,
                session,
                ..
            }
            | Phase::Making {
                generation,
                session,
                ..
            } => {
                self.phase = Phase::Serving { generation };
                Heard::Say(Message::Failed { session })
            }
            Phase::Handed {
                generation,
                session,
            } => {
                self.phase = Phase::Holding { generation };
                Heard::Say(Message::Failed { session })
            }
            _ => Heard::Ignored,
        }
    }

    /// Returns whether the daemon may take requests: while it serves, and while it drains. In Draining, a round of its
    /// workers takes requests until it sees that it is to stop.
    pub fn may_take(&self) -> bool
        ensures may_take { result ≡ may_take self.now.phase }
    {
        matches!(&self.phase, Phase::Serving { .. } | Phase::Draining { .. })
    }

    /// Returns the generation from which the daemon wants to claim the seat, if it wants to.
    pub fn claim_wanted(&self) -> Option<u64>
        ensures generation { result ≡ claim_wanted self.now.phase }
    {
        match self.phase {
            Phase::Holding { generation } => Some(generation),
            _ => None,
        }
    }

    /// Notes the answer to the claim: the generation at which the daemon serves from then on, or why it may not. If
    /// asks were unanswered, the daemon may claim again; after any other fault it is gone.
    pub fn claimed(&mut self, answer: Result<u64, ClaimFault>)
        requires holding { IsTrue (is_holding self.old.phase) }
        ensures after { self.new ≡ after self.old (Claimed answer) }
    {
        match answer {
            Ok(generation) => self.phase = Phase::Serving { generation },
            Err(ClaimFault::Unanswered { .. }) => {}
            Err(_) => self.phase = Phase::Gone,
        }
    }

    /// Ends the daemon.
    pub fn crash(&mut self)
        ensures after { self.new ≡ after self.old Crash }
    {
        self.phase = Phase::Gone;
    }
}

#[cfg(test)]
mod tests;
