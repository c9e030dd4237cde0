//! What a daemon hands over: the image of what it serves, in one message or in numbered parts.
ghost use Rattle.std.specs.Prelude.{◌≡◌, ◌<◌, ◌≤◌, ◌⊎◌, ◌∷◌, List, ℕ, false, Some, None, length, IsTrue, IfOk, IfErr};
ghost use Rattle.map_image.specs.Parts.{AreParts};
ghost use Rattle.map_image.specs.Versions.{most_parts};
ghost use Rattle.takeover_core.specs.Phases.{after, goes_in_parts, is_making_parts, PartsMade};
ghost use Rattle.daemon.specs.Saying.{turned, what_is_said};
ghost use Rattle.daemon.specs.Talking.{in_parts, HandsOver, ServesOn, HasData, HasNoData, GoesInParts};

use crate::daemon::Daemon;
use crate::messages::Messages;
use crate::turn::{Reaction, Turn};
use byte_codec::Bytes;
use eden_base::NoMemory;
use map_codec::{HandoverFault, hand_over};
use map_image::{Sending, cut, form_of};
use std::alloc::Global;
use takeover_core::{Message, Node, Phase};

/// What an old daemon is asked to hand over: the image of a session, at the generation of the seat, in a version.
#[derive(Clone, Copy)]
pub(crate) struct Handover {
    pub(crate) session: u32,
    pub(crate) generation: u64,
    pub(crate) version: u16,
}

/// Returns the turn in which `daemon` hands over what it serves, as `handover` asks. If that cannot be written in the
/// version of `handover`, the daemon says Failed and serves on.
pub(crate) fn make_data(
    alloc: Global,
    daemon: &Daemon,
    node: Node,
    handover: Handover,
) -> Result<Turn, NoMemory>
    requires making { node.phase ≡ Phase.Making handover.generation handover.session handover.version }
    ensures made { IfOk result (λ turn.
        HandsOver daemon.now node handover.session handover.generation handover.version turn.reaction
        (turned daemon.now turn)
        ⊎ ServesOn daemon.now node handover.generation handover.version turn.reaction (turned daemon.now turn)) }
    ensures at_most_one { goes_in_parts handover.version ≡ false
        → IfOk result (λ turn. length (what_is_said turn.reaction) ≤ 1) }
{
    match data(alloc, daemon, handover.generation, handover.version) {
        Ok(text) => hand(alloc, daemon, node, handover, text),
        Err(HandoverFault::Refused) => {
            let mut node = node;
            let said = node.data_failed();
            Ok(Turn::to(node, Reaction::Says(said, Messages::none())))
        }
        Err(HandoverFault::NoMemory) => Err(NoMemory),
    }
}

/// Returns the bytes of the image of what `daemon` serves, written in `version`. Returns `Refused` if the daemon serves
/// nothing, or if `version` has no such bytes.
fn data(
    alloc: Global,
    daemon: &Daemon,
    generation: u64,
    version: u16,
) -> Result<Vec<u8>, HandoverFault>
    ensures data { IfOk result (λ text. HasData daemon.now.server generation version text.items) }
    ensures refused { IfErr result (λ fault. fault ≡ HandoverFault.Refused
        → HasNoData daemon.now.server generation version) }
{
    match daemon.server() {
        Some(server) => hand_over(alloc, server.served(), generation, version),
        None => Err(HandoverFault::Refused),
    }
}

/// Returns the turn in which `daemon` hands `text` over: whole or in parts, as the version of `handover` has it.
fn hand(
    alloc: Global,
    daemon: &Daemon,
    node: Node,
    handover: Handover,
    text: Vec<u8>,
) -> Result<Turn, NoMemory>
    requires making { node.phase ≡ Phase.Making handover.generation handover.session handover.version }
    requires data { HasData daemon.now.server handover.generation handover.version text.items }
    ensures handed { IfOk result (λ turn.
        HandsOver daemon.now node handover.session handover.generation handover.version turn.reaction
        (turned daemon.now turn)) }
    ensures at_most_one { goes_in_parts handover.version ≡ false
        → IfOk result (λ turn. length (what_is_said turn.reaction) ≤ 1) }
{
    let Some(form) = form_of(handover.version) else {
        unreachable!();
    };
    match form.sending {
        Sending::Whole => {
            let mut node = node;
            let said = node.data_made(Bytes::of(text));
            Ok(Turn::to(node, Reaction::Says(said, Messages::none())))
        }
        Sending::Parts => hand_parts(alloc, node, handover.session, handover.generation, text),
    }
}

/// Returns the turn in which a daemon hands `text` over in parts.
fn hand_parts(
    alloc: Global,
    node: Node,
    session: u32,
    generation: u64,
    text: Vec<u8>,
) -> Result<Turn, NoMemory>
    requires making { IsTrue (is_making_parts node.phase) }
    requires some { 1 ≤ length text.items }
    requires few { (parts : List (List ℕ)) → AreParts text.items parts → length parts ≤ most_parts }
    ensures handed { IfOk result (GoesInParts node session generation text.items) }
{
    let parts = cut(alloc, text)?;
    let (first, others) = messages_of(alloc, session, generation, parts)?;
    let mut node = node;
    node.parts_made();
    Ok(Turn::to(node, Reaction::Says(first, others)))
}

/// Makes a message of each part, and returns the first message and the other messages.
fn messages_of(
    alloc: Global,
    session: u32,
    generation: u64,
    parts: Vec<Bytes>,
) -> Result<(Message, Messages), NoMemory>
    requires some { 0 < length parts.items }
    requires few { length parts.items ≤ most_parts }
    ensures messages { IfOk result (λ said. said.0 ∷ said.1 ≡ in_parts session generation parts.items) }
{
    let count = parts.len() as u32;
    let mut others = Vec::with_capacity(alloc, parts.len())?;
    let mut parts = parts.into_iter();
    let Some(first) = parts.next() else {
        unreachable!();
    };
    let mut position = 1;
    for part in parts {
        position += 1;
        others.push_reserved(Message::Part {
            session,
            generation,
            position,
            count,
            bytes: part,
        });
    }
    let first = Message::Part {
        session,
        generation,
        position: 1,
        count,
        bytes: first,
    };
    Ok((first, Messages::of(others)))
}
