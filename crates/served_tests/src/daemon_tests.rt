//! A new daemon hears data that no daemon of a world says. In a world all daemons have one manifest, and each part but
//! the last has 4,096 bytes.

mod count_tests;

use crate::again::manifest_of;
use byte_codec::Bytes;
use daemon::{Daemon, Effect, Reaction};
use eden_base::NoMemory;
use manifest::Manifest;
use std::alloc::{AllocError, Global};
use takeover_core::{Message, Versions};

/// A manifest without files.
const CHECKOUT: &[u8] = b"commit 0123456789abcdef0123456789abcdef01234567\n";

/// The image of `CHECKOUT` at generation 1, with no number given: magic, version, commit, generation, next number, next
/// file, and three empty lists.
static IMAGE: [u8; 62] = [
    0x45, 0x44, 0x54, 0x4b, 0x00, 0x01, 0x01, 0x23, 0x45, 0x67, 0x89, 0xab, 0xcd, 0xef, 0x01, 0x23,
    0x45, 0x67, 0x89, 0xab, 0xcd, 0xef, 0x01, 0x23, 0x45, 0x67, 0x00, 0x00, 0x00, 0x00, 0x00, 0x00,
    0x00, 0x01, 0x00, 0x00, 0x00, 0x00, 0x00, 0x00, 0x00, 0x02, 0x00, 0x00, 0x00, 0x00, 0x00, 0x00,
    0x00, 0x02, 0x00, 0x00, 0x00, 0x00, 0x00, 0x00, 0x00, 0x00, 0x00, 0x00, 0x00, 0x00,
];

/// A daemon's reaction to data, or to a part.
#[derive(Clone, Copy, PartialEq, Eq)]
enum Makes {
    /// The daemon takes the message in, and says nothing.
    Holds,
    Ignores,
    Fails,
    Other,
}

/// Lets `daemon` hear `message`: makes the turn that follows, or reads the part. Returns its reaction.
fn heard_once(
    alloc: Global,
    daemon: &mut Daemon,
    manifest: &Manifest,
    message: &Message,
) -> Result<Reaction, NoMemory> {
    match daemon.hear(alloc, manifest, 8, message)? {
        Effect::Turn(turn) => Ok(daemon.turn(turn)),
        Effect::Part(node) => daemon.read_part(alloc, node, message),
    }
}

/// Lets `daemon` hear `message`, and once more if memory was refused. Returns its reaction.
fn heard(
    alloc: Global,
    daemon: &mut Daemon,
    manifest: &Manifest,
    message: &Message,
) -> Result<Reaction, NoMemory> {
    match heard_once(alloc, daemon, manifest, message) {
        Err(NoMemory) => heard_once(alloc, daemon, manifest, message),
        reaction => reaction,
    }
}

/// Returns `reaction` as a `Makes`.
fn made(reaction: &Result<Reaction, NoMemory>) -> Makes {
    let Ok(reaction) = reaction else {
        return Makes::Other;
    };
    match reaction {
        Reaction::Accepts => Makes::Holds,
        Reaction::Ignores => Makes::Ignores,
        Reaction::Says(message, _others) => match message {
            Message::Failed { session: 1 } => Makes::Fails,
            _ => Makes::Other,
        },
    }
}

/// Returns the reaction of `daemon` to `message`.
fn reacts(alloc: Global, daemon: &mut Daemon, manifest: &Manifest, message: &Message) -> Makes {
    let reaction = heard(alloc, daemon, manifest, message);
    let makes = made(&reaction);
    drop(reaction);
    makes
}

/// Returns the list of the versions up to the `greatest`.
fn list_of(greatest: u16) -> Versions {
    match greatest {
        1 => Versions::of(&[1]),
        2 => Versions::of(&[1, 2]),
        _ => Versions::of(&[1, 2, 3]),
    }
}

/// Lets `daemon` hear that `version` is chosen in session 1.
fn chooses(alloc: Global, daemon: &mut Daemon, manifest: &Manifest, version: u16) {
    let choice = Message::Choice {
        session: 1,
        version,
    };
    reacts(alloc, daemon, manifest, &choice);
    drop(choice)
}

/// What a daemon hears in session 1 at generation 1.
#[derive(Clone, Copy)]
enum Hears {
    /// `IMAGE` as data, with this byte at this index.
    Data(usize, u8),
    /// A part of `IMAGE` in version 2: its position, the count of parts, and the indexes where its bytes begin and end.
    Part(u32, u32, usize, usize),
}

/// What a daemon hears, and its reaction.
type Row = (Hears, Makes);

/// What a new daemon hears one after another, and the generation from which it wants to claim then.
type Case = (&'static [Row], Option<u64>);

/// Returns the bytes of `IMAGE` from an index on and up to another one, with `byte` at the index `at`.
fn image_with(
    alloc: Global,
    at: usize,
    byte: u8,
    from: usize,
    to: usize,
) -> Result<Vec<u8>, AllocError> {
    let mut bytes = Vec::new(alloc);
    for (index, own) in IMAGE.iter().enumerate() {
        if from <= index && index < to {
            bytes.push(if index == at { byte } else { *own })?;
        }
    }
    Ok(bytes)
}

/// Makes the message of `hears`. The image of a part has a 2 in its byte 5, so it is one of version 2.
fn message_of(alloc: Global, hears: Hears) -> Result<Message, AllocError> {
    match hears {
        Hears::Data(at, byte) => Ok(Message::Data {
            session: 1,
            generation: 1,
            bytes: Bytes::of(image_with(alloc, at, byte, 0, 62)?),
        }),
        Hears::Part(position, count, from, to) => Ok(Message::Part {
            session: 1,
            generation: 1,
            position,
            count,
            bytes: Bytes::of(image_with(alloc, 5, 2, from, to)?),
        }),
    }
}

/// Makes the message of `hears`, and tries once more if memory was refused.
fn message_again(alloc: Global, hears: Hears) -> Result<Message, AllocError> {
    match message_of(alloc, hears) {
        Err(AllocError) => message_of(alloc, hears),
        message => message,
    }
}

/// Returns whether `daemon` reacts to the message of `row` as `row` says.
fn takes(alloc: Global, daemon: &mut Daemon, manifest: &Manifest, row: &Row) -> bool {
    match message_again(alloc, row.0) {
        Ok(message) => {
            let makes = reacts(alloc, daemon, manifest, &message);
            drop(message);
            makes == row.1
        }
        Err(AllocError) => false,
    }
}

/// Lets a new daemon with the versions up to `version` hear what `case` says in that version. Returns whether it reacts
/// so.
fn goes_so(alloc: Global, manifest: &Manifest, version: u16, case: &Case) -> bool {
    let mut daemon = Daemon::new(list_of(version));
    chooses(alloc, &mut daemon, manifest, version);
    let mut so = true;
    for row in case.0 {
        so = so && takes(alloc, &mut daemon, manifest, row);
    }
    so = so && daemon.claim_wanted() == case.1;
    drop(daemon);
    so
}

/// Calls `goes_so` with each of `cases` and the manifest `CHECKOUT`.
fn all_go_so(alloc: Global, version: u16, cases: &[Case]) -> bool {
    let Ok(manifest) = manifest_of(alloc, CHECKOUT) else {
        return false;
    };
    let mut so = true;
    for case in cases {
        so = so && goes_so(alloc, &manifest, version, case);
    }
    drop(manifest);
    so
}

/// `IMAGE` as it is, and with one byte changed: in the magic, commit, generation, next number and next file.
static DATA: [Case; 6] = [
    (&[(Hears::Data(0, 0x45), Makes::Holds)], Some(1)),
    (&[(Hears::Data(0, 0x46), Makes::Fails)], None),
    (&[(Hears::Data(6, 0x02), Makes::Fails)], None),
    (&[(Hears::Data(33, 0x02), Makes::Fails)], None),
    (&[(Hears::Data(41, 0x01), Makes::Fails)], None),
    (&[(Hears::Data(49, 0x01), Makes::Fails)], None),
];

#[test]
fn says_failed_where_nothing_is_restored(rt: HostRuntime) {
    assert!(rt; all_go_so(rt.alloc(), 1, &DATA));
}

/// A claim is wanted after the two lists of parts that are a whole image, and after no other.
static PARTS: [Case; 6] = [
    // Three parts, each of which is ignored out of turn.
    (
        &[
            (Hears::Part(2, 3, 20, 40), Makes::Ignores),
            (Hears::Part(1, 3, 0, 20), Makes::Holds),
            (Hears::Part(1, 3, 0, 20), Makes::Ignores),
            (Hears::Part(3, 3, 40, 62), Makes::Ignores),
            (Hears::Part(2, 4, 20, 40), Makes::Ignores),
            (Hears::Part(2, 3, 20, 40), Makes::Holds),
            (Hears::Part(3, 3, 40, 62), Makes::Holds),
            (Hears::Part(3, 3, 40, 62), Makes::Ignores),
        ],
        Some(1),
    ),
    (&[(Hears::Part(1, 1, 0, 62), Makes::Holds)], Some(1)),
    // A part with a bad count of parts: 0, or more than 65,536.
    (
        &[
            (Hears::Part(1, 0, 0, 62), Makes::Ignores),
            (Hears::Part(1, 65_537, 0, 62), Makes::Ignores),
        ],
        None,
    ),
    // A first part that begins no image. The daemon fails before the other parts come.
    (
        &[
            (Hears::Part(1, 3, 4, 20), Makes::Fails),
            (Hears::Part(2, 3, 20, 40), Makes::Ignores),
        ],
        None,
    ),
    // A last part without the last byte, at which the daemon fails.
    (
        &[
            (Hears::Part(1, 3, 0, 20), Makes::Holds),
            (Hears::Part(2, 3, 20, 40), Makes::Holds),
            (Hears::Part(3, 3, 40, 61), Makes::Fails),
        ],
        None,
    ),
    // A last part with a byte too many.
    (
        &[
            (Hears::Part(1, 2, 0, 61), Makes::Holds),
            (Hears::Part(2, 2, 60, 62), Makes::Fails),
        ],
        None,
    ),
];

#[test]
fn reads_parts_in_their_order_alone(rt: HostRuntime) {
    assert!(rt; all_go_so(rt.alloc(), 2, &PARTS));
}
