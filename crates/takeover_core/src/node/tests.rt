//! The last session, to which no list of public calls comes in time.
ghost use Rattle.std.specs.Prelude.{◌≤◌, length};

use super::Node;
use crate::{Heard, Message, Phase, Versions};

/// Returns whether `node` answers an offer of `versions` by saying `expected`.
fn offers(node: &mut Node, versions: &[u16], expected: Message) -> bool
    requires { length versions.now ≤ 8 }
{
    let offer = Message::Offer(Versions::of(versions));
    is(node.hear(&offer), Heard::Say(expected))
}

/// Returns whether `heard` equals `expected`.
fn is(heard: Heard, expected: Heard) -> bool {
    let same = heard == expected;
    drop(heard);
    drop(expected);
    same
}

/// Returns whether a daemon that has one session left begins it, and begins none after that one is given up.
fn begins_the_last(node: &mut Node) -> bool {
    let session = 4_294_967_295;
    let choice = Message::Choice {
        session,
        version: 1,
    };
    offers(node, &[1], choice)
        && is(node.give_up(), Heard::Say(Message::Failed { session }))
        && offers(node, &[1], Message::Busy)
        && offers(node, &[9], Message::NoCommon)
        && node.phase() == Phase::Serving { generation: 1 }
}

#[test]
fn begins_the_last_session_and_none_after_it(rt: HostRuntime) {
    let mut node = Node {
        phase: Phase::Serving { generation: 1 },
        versions: Versions::of(&[1]),
        sessions: 4_294_967_294,
    };
    let so = begins_the_last(&mut node);
    drop(node);
    assert!(rt; so);
}
