//! A takeover by each pair of lists of versions, with a count below and above 2^32. What the old daemon serves comes from
//! an image that the test makes.
use super::{Makes, chooses, heard, list_of, reacts};
use crate::again::{are_put, manifest_of};
use byte_codec::Bytes;
use daemon::{Daemon, Reaction};
use manifest::Manifest;
use std::alloc::Global;
use takeover_core::{Message, Phase};

/// A manifest of one file, whose name is `a`.
const CHECKOUT: &[u8] = b"commit 0123456789abcdef0123456789abcdef01234567
file 0644 7 a
";

static COMMIT: [u8; 20] = [
    0x01, 0x23, 0x45, 0x67, 0x89, 0xab, 0xcd, 0xef, 0x01, 0x23, 0x45, 0x67, 0x89, 0xab, 0xcd, 0xef,
    0x01, 0x23, 0x45, 0x67,
];

/// The greatest count of versions 1 and 2, and counts about it; the greatest count of all.
static COUNTS: [u64; 5] = [
    7,
    4_294_967_295,
    4_294_967_296,
    4_294_967_297,
    9_223_372_036_854_775_807,
];

/// Returns the bytes of a count in `version`: all eight, or the four last ones.
fn width_in(version: u16, count: &[u8; 8]) -> &[u8] {
    if version == 3 {
        return count.as_slice();
    }
    let (_, low) = count.split_at(4);
    low
}

/// Appends the image of `version` at `generation` in which `a` has number 2 and `count`. Returns whether memory sufficed.
fn is_image_put(bytes: &mut Vec<u8>, version: u16, generation: u64, count: u64) -> bool {
    let wide = count.to_be_bytes();
    are_put(
        bytes,
        &[
            b"EDTK".as_slice(),
            version.to_be_bytes().as_slice(),
            COMMIT.as_slice(),
            generation.to_be_bytes().as_slice(),
            // the next number, the next file, and how many entries there are
            3u64.to_be_bytes().as_slice(),
            3u64.to_be_bytes().as_slice(),
            1u32.to_be_bytes().as_slice(),
            // the entry: its number, the mark, the count, the directory and the name
            2u64.to_be_bytes().as_slice(),
            [0].as_slice(),
            width_in(version, &wide),
            1u64.to_be_bytes().as_slice(),
            b"\x01a".as_slice(),
            // no file was made, and no link changed
            [0; 8].as_slice(),
        ],
    )
}

/// Makes the message with which `bytes` are handed over in session 1, in `version`: whole, or as the only part.
fn message_of(version: u16, generation: u64, bytes: Vec<u8>) -> Message {
    let bytes = Bytes::of(bytes);
    if version == 1 {
        return Message::Data {
            session: 1,
            generation,
            bytes,
        };
    }
    Message::Part {
        session: 1,
        generation,
        position: 1,
        count: 1,
        bytes,
    }
}

/// Makes the message with which the image of `version` at `generation` with `count` is handed over in session 1, in the
/// version `sent`.
fn data_of(alloc: Global, sent: u16, version: u16, generation: u64, count: u64) -> Option<Message> {
    let mut bytes = Vec::new(alloc);
    if is_image_put(&mut bytes, version, generation, count) {
        return Some(message_of(sent, generation, bytes));
    }
    drop(bytes);
    None
}

/// Returns the message that is said in `reaction`, if there is one.
fn said(reaction: Option<Reaction>) -> Option<Message> {
    match reaction {
        Some(Reaction::Says(message, others)) => {
            drop(others);
            Some(message)
        }
        _ => None,
    }
}

/// Lets `daemon` hear `message`, if there is one. Returns the message that the daemon says, if there is one.
fn answer_of(
    alloc: Global,
    daemon: &mut Daemon,
    manifest: &Manifest,
    message: Option<Message>,
) -> Option<Message> {
    let Some(message) = message else {
        return None;
    };
    let answer = said(heard(alloc, daemon, manifest, &message).ok());
    drop(message);
    answer
}

/// Answers the claim of `daemon` with `next` if it holds data, and returns whether it serves at `next` then.
fn claims(daemon: &mut Daemon, next: u64) -> bool {
    if let Phase::Holding { .. } = daemon.phase() {
        daemon.take_answer(Ok(next));
        return daemon.phase() == Phase::Serving { generation: next };
    }
    false
}

/// Lets `daemon` choose version 1 and take over the image of version 3 with `count`, which comes whole. Returns whether it
/// serves at generation 2 then.
fn serves(alloc: Global, daemon: &mut Daemon, manifest: &Manifest, count: u64) -> bool {
    chooses(alloc, daemon, manifest, 1);
    let data = data_of(alloc, 1, 3, 1, count);
    drop(answer_of(alloc, daemon, manifest, data));
    claims(daemon, 2)
}

/// Returns the version of `choice`, if it is a Choice.
fn version_of(choice: &Option<Message>) -> Option<u16> {
    let Some(message) = choice else {
        return None;
    };
    match message {
        Message::Choice { version, .. } => Some(*version),
        _ => None,
    }
}

/// Carries the messages of a takeover between `old` and `new`, up to that in which `old` hands its data over or says
/// Failed. Returns the version that `old` chose, and that message.
fn handed(
    alloc: Global,
    manifest: &Manifest,
    old: &mut Daemon,
    new: &mut Daemon,
) -> (Option<u16>, Option<Message>) {
    let choice = answer_of(alloc, old, manifest, Some(new.offer()));
    let version = version_of(&choice);
    drop(answer_of(alloc, new, manifest, choice));
    let ready = said(old.drain().ok());
    let pong = answer_of(alloc, new, manifest, ready);
    (version, answer_of(alloc, old, manifest, pong))
}

/// Returns whether `data` is the image of `version` at generation 2 with `count`.
fn is_image(alloc: Global, data: &Message, version: u16, count: u64) -> bool {
    match data_of(alloc, version, version, 2, count) {
        Some(expected) => {
            let so = *data == expected;
            drop(expected);
            so
        }
        None => false,
    }
}

/// A takeover of what `old` serves by `new`: the count of the one file, and the version in which it is handed over.
#[derive(Drop)]
struct Takeover {
    old: Daemon,
    new: Daemon,
    version: u16,
    count: u64,
}

impl Takeover {
    /// Returns whether `data` is the image of the takeover, the old daemon handed it over, and the new one holds it
    /// once it heard it.
    fn is_held(&mut self, alloc: Global, manifest: &Manifest, data: &Message) -> bool {
        let makes = reacts(alloc, &mut self.new, manifest, data);
        is_image(alloc, data, self.version, self.count)
            && makes == Makes::Holds
            && self.new.claim_wanted() == Some(2)
            && matches!(self.old.phase(), Phase::Handed { .. })
    }

    /// Returns whether `data` is Failed, the old daemon serves on, and the new one is gone once it heard it.
    fn is_served_on(&mut self, alloc: Global, manifest: &Manifest, data: &Message) -> bool {
        reacts(alloc, &mut self.new, manifest, data);
        *data == Message::Failed { session: 1 }
            && self.old.phase() == Phase::Serving { generation: 2 }
            && self.new.phase() == Phase::Gone
    }

    /// Returns whether the old daemon, which serves the count, hands over to the new one in the version, or serves on
    /// if a count of that version can't be so great.
    fn goes_so(&mut self, alloc: Global, manifest: &Manifest) -> bool {
        let (chosen, data) = handed(alloc, manifest, &mut self.old, &mut self.new);
        let so = match &data {
            Some(data) if self.version < 3 && self.count > 4_294_967_295 => {
                self.is_served_on(alloc, manifest, data)
            }
            Some(data) => self.is_held(alloc, manifest, data),
            None => false,
        };
        drop(data);
        so && chosen == Some(self.version)
    }
}

/// Lets a daemon of the list `old`, which serves `count`, be taken over by one of the list `new`, and returns whether
/// that goes as it has to. A list is named by its greatest version. The greatest version that both have is chosen.
fn is_taken_over(alloc: Global, manifest: &Manifest, old: u16, new: u16, count: u64) -> bool {
    let mut takeover = Takeover {
        old: Daemon::new(list_of(old)),
        new: Daemon::new(list_of(new)),
        version: old.min(new),
        count,
    };
    let so = serves(alloc, &mut takeover.old, manifest, count) && takeover.goes_so(alloc, manifest);
    drop(takeover);
    so
}

/// Calls `is_taken_over` with each count of `COUNTS`.
fn is_each_taken_over(alloc: Global, manifest: &Manifest, old: u16, new: u16) -> bool {
    let mut so = true;
    for count in COUNTS.iter() {
        so = so && is_taken_over(alloc, manifest, old, new, *count);
    }
    so
}

/// Calls `is_each_taken_over` with each pair of lists.
fn are_all_taken_over(alloc: Global) -> bool {
    let Ok(manifest) = manifest_of(alloc, CHECKOUT) else {
        return false;
    };
    let mut so = true;
    for pair in 0..9u16 {
        so = so && is_each_taken_over(alloc, &manifest, pair / 3 + 1, pair % 3 + 1);
    }
    drop(manifest);
    so
}

#[test]
fn hands_over_in_each_version_or_serves_on(rt: HostRuntime) {
    assert!(rt; are_all_taken_over(rt.alloc()));
}

/// Returns the reaction of a new daemon with the versions up to `own` to the image of `version` with `count`, sent as
/// version `own` is sent.
fn makes_of(alloc: Global, manifest: &Manifest, own: u16, version: u16, count: u64) -> Makes {
    let Some(data) = data_of(alloc, own, version, 1, count) else {
        return Makes::Other;
    };
    let mut daemon = Daemon::new(list_of(own));
    chooses(alloc, &mut daemon, manifest, own);
    let makes = reacts(alloc, &mut daemon, manifest, &data);
    drop(data);
    drop(daemon);
    makes
}

/// An image's version and count, and the reaction of a daemon of any list to it.
static IMAGES: [(u16, u64, Makes); 8] = [
    (1, 7, Makes::Holds),
    (1, 4_294_967_295, Makes::Holds),
    (2, 7, Makes::Holds),
    (2, 4_294_967_295, Makes::Holds),
    (3, 4_294_967_296, Makes::Holds),
    (3, 9_223_372_036_854_775_807, Makes::Holds),
    (3, 9_223_372_036_854_775_808, Makes::Fails),
    (4, 7, Makes::Fails),
];

/// Returns whether a daemon of each list has the reaction to `image` that the image's row says.
fn is_read_by_each(alloc: Global, manifest: &Manifest, image: &(u16, u64, Makes)) -> bool {
    let mut so = true;
    for own in 1..4u16 {
        so = so && makes_of(alloc, manifest, own, image.0, image.1) == image.2;
    }
    so
}

/// Calls `is_read_by_each` with each row of `images`.
fn are_all_read(alloc: Global, images: &[(u16, u64, Makes)]) -> bool {
    let Ok(manifest) = manifest_of(alloc, CHECKOUT) else {
        return false;
    };
    let mut so = true;
    for image in images {
        so = so && is_read_by_each(alloc, &manifest, image);
    }
    drop(manifest);
    so
}

#[test]
fn reads_an_image_of_each_version(rt: HostRuntime) {
    assert!(rt; are_all_read(rt.alloc(), &IMAGES));
}
