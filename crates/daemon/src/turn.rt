//! What a message comes to: what a daemon says to it, and what the daemon becomes by it.
ghost use Rattle.std.specs.Prelude.{◌≡◌, ◌≤◌, Some, None, length};
ghost use Rattle.daemon.specs.Saying.{of_said, what_is_said};

use crate::messages::Messages;
use crate::server::Server;
use std::marker::Model;
use takeover_core::{Message, Node};

/// What a daemon says to a message, or to a call of its program in a takeover.
#[derive(Drop)]
pub enum Reaction {
    /// The message or call is not for this phase or session, and changes nothing.
    Ignores,
    /// The message or call is taken in, and the daemon says nothing.
    Accepts,
    /// The daemon says this message, and then the others.
    Says(Message, Messages),
}

impl Reaction {
    /// Returns the reaction that says `said`, if there is a message. Else returns the reaction that says nothing.
    pub(crate) fn saying(said: Option<Message>) -> Reaction
        ensures of { result ≡ of_said said }
        ensures at_most_one { length (what_is_said result) ≤ 1 }
    {
        match said {
            Some(said) => Reaction::Says(said, Messages::none()),
            None => Reaction::Accepts,
        }
    }
}

/// What a message comes to.
#[derive(Drop)]
pub enum Effect {
    /// The daemon turns, by `Daemon::turn`.
    Turn(Turn),
    /// The message brings a part that other parts follow. The daemon reads it, by `Daemon::read_part`, which takes this
    /// node.
    Part(Node),
}

/// What a daemon becomes by a message, and what it says. Clauses see it as a `TurnState`.
#[derive(Drop)]
pub struct Turn {
    node: Node,
    /// What the daemon holds from then on, if it took data over.
    held: Option<Server>,
    reaction: Reaction,
}

impl Model for Turn {
    ghost use Rattle.std.specs.Coded.{codes};
    ghost use Rattle.manifest.specs.Codes.{tree_code};
    ghost use Rattle.takeover_core.specs.Node.{node_state_code};
    ghost use Rattle.daemon.specs.Saying.{TurnState};

    ghost Value = { TurnState };

    ghost coded = { Prim.hlevel (codes, tree_code, node_state_code) };

    ghost view = { λ turn. record {
      node = turn.node;
      held = turn.held;
      reaction = turn.reaction;
    } };
}

impl Turn {
    /// Returns a turn to `node` as the daemon's part in takeovers, with `reaction`. What the daemon serves stays as it
    /// is.
    pub(crate) fn to(node: Node, reaction: Reaction) -> Turn
        ensures to { result ≡ record { node = node; held = None; reaction = reaction } }
    {
        Turn {
            node,
            held: None,
            reaction,
        }
    }

    /// Returns a turn to `node` as the daemon's part in takeovers. From then on the daemon holds `held`, which it took
    /// over.
    pub(crate) fn holding(node: Node, held: Server) -> Turn
        ensures holding { result ≡ record { node = node; held = Some held; reaction = Reaction.Accepts } }
    {
        Turn {
            node,
            held: Some(held),
            reaction: Reaction::Accepts,
        }
    }

    /// Returns the daemon's part in takeovers, what the daemon holds from then on if it took data over, and the
    /// reaction.
    pub(crate) fn into_parts(self) -> (Node, Option<Server>, Reaction)
        ensures parts { result ≡ (self.node, self.held, self.reaction) }
    {
        let Turn {
            node,
            held,
            reaction,
        } = self;
        (node, held, reaction)
    }

    /// Returns how many messages the turn says.
    pub fn count(&self) -> usize
        ensures count { result ≡ length (what_is_said self.now.reaction) }
    {
        match &self.reaction {
            Reaction::Says(_, others) => others.len() + 1,
            Reaction::Ignores | Reaction::Accepts => 0,
        }
    }
}
