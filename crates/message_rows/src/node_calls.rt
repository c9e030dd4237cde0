//! Calls of `takeover_core`, of the daemons `old` and `new`. V is a version, G a generation; messages are those of
//! `frame_calls`. A call whose condition does not hold is no row. Behind each result stands `then` and the phase that is
//! reached: its name in Rust; then session, generation, version, position and count, as far as there are any. Not so for
//! the last four.
//!
//! - `node old waiting V ..`: makes the daemon
//! - `node old mounted G`, `node old parts-made`, `node old crash`, `node old claimed CLAIM`: ok. CLAIM is `at G`, or a
//!   fault
//! - `node old hear MESSAGE`, `node old give-up`: Ignored, Heard, `say MESSAGE`, or what is to be done
//! - `node old fed`, `node old raised`: ok; `node old not-fed`, `node old not-raised`, `node old data-made BYTES`,
//!   `node old data-failed`: `say MESSAGE`
//! - `node old drained H U`, with H asks in hand and U replies unposted: `say MESSAGE`, or the fault
//! - `node old try CALL`: makes one of these calls on a copy
//! - `node old offer`: the message; `node old may-take`: yes or no; `node old claim-wanted`: the generation, or none
//! - `node old fault CLAIM`: how the fault of a claim prints itself
use crate::frame_calls::{read_message, read_versions, tell_message, tell_numbers};
use crate::{Called, tell_number, tell_printed};
use byte_codec::Bytes;
use eden_base::ClaimFault;
use row_words::{Output, RowFault, Words, chosen};
use takeover_core::{Heard, Message, Node, Phase};

/// The calls that leave the daemon as it is.
#[derive(Clone, Copy)]
enum NodeCall {
    Try,
    Offer,
    MayTake,
    ClaimWanted,
    Fault,
}

static NODE_CALLS: [(&str, NodeCall); 5] = [
    ("try", NodeCall::Try),
    ("offer", NodeCall::Offer),
    ("may-take", NodeCall::MayTake),
    ("claim-wanted", NodeCall::ClaimWanted),
    ("fault", NodeCall::Fault),
];

/// The calls that may change the phase.
#[derive(Clone, Copy)]
enum Step {
    Mounted,
    PartsMade,
    Crash,
    Claimed,
    Hear,
    GiveUp,
    Fed,
    NotFed,
    Raised,
    NotRaised,
    DataMade,
    DataFailed,
    Drained,
}

static STEPS: [(&str, Step); 13] = [
    ("mounted", Step::Mounted),
    ("parts-made", Step::PartsMade),
    ("crash", Step::Crash),
    ("claimed", Step::Claimed),
    ("hear", Step::Hear),
    ("give-up", Step::GiveUp),
    ("fed", Step::Fed),
    ("not-fed", Step::NotFed),
    ("raised", Step::Raised),
    ("not-raised", Step::NotRaised),
    ("data-made", Step::DataMade),
    ("data-failed", Step::DataFailed),
    ("drained", Step::Drained),
];

/// Returns the name of a phase.
fn name_of(phase: Phase) -> &'static str {
    match phase {
        Phase::Waiting => "Waiting",
        Phase::Chosen { .. } => "Chosen",
        Phase::Taking { .. } => "Taking",
        Phase::Reading { .. } => "Reading",
        Phase::Raising { .. } => "Raising",
        Phase::Holding { .. } => "Holding",
        Phase::Serving { .. } => "Serving",
        Phase::Draining { .. } => "Draining",
        Phase::Pinged { .. } => "Pinged",
        Phase::Making { .. } => "Making",
        Phase::Handed { .. } => "Handed",
        Phase::Gone => "Gone",
    }
}

/// Writes the version of data, and the place of a part.
fn tell_place(output: &mut Output, version: u16, position: u32, count: u32) {
    output.number(u64::from(version));
    output.number(u64::from(position));
    output.number(u64::from(count));
}

/// Writes `word`, a session and a generation.
fn tell_session(output: &mut Output, word: &str, session: u32, generation: u64) {
    tell_numbers(output, word, &[u64::from(session), generation]);
}

/// Writes a phase.
fn tell_phase(output: &mut Output, phase: Phase) {
    let name = name_of(phase);
    match phase {
        Phase::Waiting | Phase::Gone => output.word(name),
        Phase::Holding { generation } | Phase::Serving { generation } => {
            tell_numbers(output, name, &[generation]);
        }
        Phase::Chosen { session, version } => {
            tell_numbers(output, name, &[u64::from(session), u64::from(version)]);
        }
        Phase::Raising {
            session,
            generation,
        }
        | Phase::Handed {
            session,
            generation,
        } => tell_session(output, name, session, generation),
        _ => tell_phase_of_version(output, name, phase),
    }
}

/// Writes a phase in which the version of a session counts; of any other one only its `name`.
fn tell_phase_of_version(output: &mut Output, name: &'static str, phase: Phase) {
    match phase {
        Phase::Draining {
            session,
            generation,
            version,
        }
        | Phase::Pinged {
            session,
            generation,
            version,
        }
        | Phase::Making {
            session,
            generation,
            version,
        } => {
            tell_session(output, name, session, generation);
            output.number(u64::from(version));
        }
        Phase::Taking {
            session,
            generation,
            version,
            position,
            count,
        }
        | Phase::Reading {
            session,
            generation,
            version,
            position,
            count,
        } => {
            tell_session(output, name, session, generation);
            tell_place(output, version, position, count);
        }
        _ => output.word(name),
    }
}

/// Writes what a daemon answers.
fn tell_heard(output: &mut Output, heard: &Heard) {
    match heard {
        Heard::Ignored => output.word("Ignored"),
        Heard::Heard => output.word("Heard"),
        Heard::Say(message) => {
            output.word("say");
            tell_message(output, message);
        }
        Heard::MakeData {
            session,
            generation,
            version,
        } => {
            tell_session(output, "MakeData", *session, *generation);
            output.number(u64::from(*version));
        }
        Heard::GotData {
            session,
            generation,
            version,
        } => {
            tell_session(output, "GotData", *session, *generation);
            output.number(u64::from(*version));
        }
        Heard::GotPart {
            session,
            generation,
            version,
            position,
            count,
        } => {
            tell_session(output, "GotPart", *session, *generation);
            tell_place(output, *version, *position, *count);
        }
    }
}

/// Reads the answer to a claim.
fn read_claim(words: &mut Words<'_>) -> Result<u64, ClaimFault> {
    match words.word() {
        b"at" => Ok(words.number()),
        b"Ended" => Err(ClaimFault::Ended),
        b"LastGeneration" => Err(ClaimFault::LastGeneration),
        b"Stale" => Err(ClaimFault::Stale {
            now: words.number(),
        }),
        _ => Err(ClaimFault::Unanswered {
            asks: words.number(),
        }),
    }
}

/// Writes that a daemon says `message`, if there is one.
fn tell_said(output: &mut Output, message: Option<Message>) {
    if let Some(message) = message {
        output.word("say");
        tell_message(output, &message);
    }
}

/// Asks whether a daemon is drained, and writes the fault as it prints itself.
fn drained(node: &mut Node, in_hand: u64, unposted: u64, output: &mut Output) {
    match node.drained(in_hand as usize, unposted as usize) {
        Ok(message) => tell_said(output, Some(message)),
        Err(fault) => tell_printed(output, fault),
    }
}

/// Hears a message.
fn hear(node: &mut Node, words: &mut Words<'_>, output: &mut Output) -> Called {
    let word = words.word();
    let message = read_message(word, words)?;
    words.end()?;
    tell_heard(output, &node.hear(&message));
    Ok(())
}

/// Takes a step. One that is not of the phase is no row.
fn go(node: &mut Node, step: Step, words: &mut Words<'_>, output: &mut Output) -> Called {
    match (step, node.phase()) {
        (Step::Mounted, Phase::Waiting) => node.mounted(words.number()),
        (Step::PartsMade, Phase::Making { version: 2, .. }) => node.parts_made(),
        (Step::Crash, _) => node.crash(),
        (Step::Claimed, Phase::Holding { .. }) => node.claimed(read_claim(words)),
        (Step::Hear, _) => hear(node, words, output)?,
        (Step::GiveUp, _) => tell_heard(output, &node.give_up()),
        (Step::Fed, Phase::Taking { .. }) => tell_said(output, node.fed(true)),
        (Step::NotFed, Phase::Taking { .. }) => tell_said(output, node.fed(false)),
        (Step::Raised, Phase::Raising { .. }) => tell_said(output, node.raised(true)),
        (Step::NotRaised, Phase::Raising { .. }) => tell_said(output, node.raised(false)),
        (Step::DataMade, Phase::Making { version: 1, .. }) => {
            tell_said(output, Some(node.data_made(Bytes::of(words.bytes()))));
        }
        (Step::DataFailed, Phase::Making { .. }) => tell_said(output, Some(node.data_failed())),
        (Step::Drained, _) => {
            let in_hand = words.number();
            drained(node, in_hand, words.number(), output);
        }
        _ => return Err(RowFault::BadRow),
    }
    words.end()
}

/// Makes a call that may change the phase, and writes the phase that is reached.
fn call_step(node: &mut Node, word: &[u8], words: &mut Words<'_>, output: &mut Output) -> Called {
    let step = chosen(&STEPS, word).ok_or(RowFault::BadRow)?;
    go(node, step, words, output)?;
    if output.as_str().is_empty() {
        output.word("ok");
    }
    output.word("then");
    tell_phase(output, node.phase());
    Ok(())
}

/// Makes a step on a copy of `node`.
fn call_copy(node: &Node, words: &mut Words<'_>, output: &mut Output) -> Called {
    let mut copy = node.copy();
    let word = words.word();
    call_step(&mut copy, word, words, output)
}

/// Makes a call of `node`.
fn call_node(node: &mut Node, word: &[u8], words: &mut Words<'_>, output: &mut Output) -> Called {
    let Some(call) = chosen(&NODE_CALLS, word) else {
        return call_step(node, word, words, output);
    };
    match call {
        NodeCall::Try => return call_copy(node, words, output),
        NodeCall::Offer => tell_message(output, &node.offer()),
        NodeCall::MayTake => output.flag(node.may_take()),
        NodeCall::ClaimWanted => tell_number(output, node.claim_wanted()),
        NodeCall::Fault => match read_claim(words) {
            Ok(_generation) => return Err(RowFault::BadRow),
            Err(fault) => tell_printed(output, fault),
        },
    }
    Ok(())
}

/// Makes a call of the daemon in `place`.
pub(crate) fn call_place(
    place: &mut Option<Node>,
    words: &mut Words<'_>,
    output: &mut Output,
) -> Called {
    let word = words.word();
    if word == b"waiting".as_slice() {
        *place = Some(Node::waiting(read_versions(words)?));
        output.word("ok");
        return words.end();
    }
    let node = place.as_mut().ok_or(RowFault::BadRow)?;
    call_node(node, word, words, output)
}
