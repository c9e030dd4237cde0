//! The lines that a script's events print.
ghost use Rattle.std.specs.Prelude.{◌≡◌, ◌≤◌, ◌<◌, ◌^◌, ◌∷◌, [], codes, length, IfSome, OnOk};
ghost use Rattle.std.specs.Fmt.{decimal};
ghost use Rattle.std.specs.Io.KnownBytes.{Appends};
ghost use Rattle.std.specs.Option.{option_copied};
ghost use Rattle.entry_table.specs.declared.kept.Kept.{Kept};
ghost use Rattle.daemon.specs.Server.{at_position};
ghost use Rattle.inode_map.specs.Words.{forgot_name};
ghost use Rattle.script_lines.specs.Gathered.{AreUnderWay};
ghost use Rattle.script_lines.specs.Printed.{printed, line, line_of, said_line, message_words, total_length, length_at, refusal_line, asked_words, spaced, reply_line, answer_lines, extent_line, file_words, octal, world_lines, served_lines, kept_lines, kept_line, count_words, place_line};

use crate::listing::print_buffer;
use crate::under_way::{Counts, UnderWay};
use broker_core::Seat;
use eden_base::{Attr, DaemonId, Number, Perm, Place};
use fuse_ops::Served;
use fuse_wire::{Answer, Extent, Reply};
use inode_map::{Forgot, InodeMap};
use map_image::PART_LEN;
use std::io::{self, Write};
use takeover_core::Message;
use world::{Event, Happened, Outcome, Refusal, World};

/// Prints the outcome of `event`, or the world if `event` is `Show`.
pub fn print_event<W: Write>(
    out: &mut W,
    world: &World,
    event: &Event,
    outcome: &Outcome,
) -> io::Result<()>
    ensures printed { OnOk result (Appends (W.contents out.old) (W.contents out.new)
        (printed world.now event.now outcome.now)) }
{
    if let Event::Show = event {
        return print_world(out, world);
    }
    match outcome.happened().last() {
        Some(happened) => print_happened(out, world.messages(), happened),
        None => Ok(()),
    }
}

/// Prints the line of what happened, in a world with these messages.
fn print_happened<W: Write>(
    out: &mut W,
    messages: &[Message],
    happened: &Happened,
) -> io::Result<()>
    ensures { OnOk result (Appends (W.contents out.old) (W.contents out.new)
        (line_of messages.now happened.now)) }
{
    match happened {
        Happened::Started(daemon) => print_numbered(out, "daemon", daemon.0),
        Happened::Mounted(generation) => print_numbered(out, "mounted", *generation),
        Happened::Asked(unique) => print_asked(out, *unique),
        Happened::Took(unique) => print_numbered(out, "took", *unique),
        Happened::TookForgets(count) => writeln!(out, "took forgets {count}"),
        Happened::Made(reply) => print_reply(out, "made", reply),
        Happened::Forgot { forgot, .. } => print_forgot(out, *forgot),
        Happened::Posted(unique) => print_numbered(out, "posted", *unique),
        Happened::Answered(reply) => print_reply(out, "answer", reply),
        Happened::Said(position) => print_said(out, messages, *position),
        Happened::Heard => writeln!(out, "heard"),
        Happened::Ignored => writeln!(out, "ignored"),
        Happened::Claimed(generation) => print_numbered(out, "claimed", *generation),
        Happened::Crashed => writeln!(out, "crashed"),
        Happened::Refused(refusal) => print_refusal(out, *refusal),
    }
}

/// Prints what became of a forget. The words are written as they are, since a form costs more than they do.
fn print_forgot<W: Write>(out: &mut W, forgot: Forgot) -> io::Result<()>
    ensures { OnOk result (Appends (W.contents out.old) (W.contents out.new)
        (line (codes "forgot" ∷ forgot_name forgot ∷ []))) }
{
    out.write_all(b"forgot ")?;
    out.write_all(forgot.name().as_bytes())?;
    out.write_all(b"\n")
}

/// Prints a line of a word and a number.
pub fn print_numbered<W: Write>(out: &mut W, word: &str, number: u64) -> io::Result<()>
    ensures { OnOk result (Appends (W.contents out.old) (W.contents out.new)
        (line (word.now ∷ decimal number ∷ []))) }
{
    writeln!(out, "{word} {number}")
}

/// Prints the message at `position`, and nothing if there is no such message. The first position is 1.
fn print_said<W: Write>(out: &mut W, messages: &[Message], position: usize) -> io::Result<()>
    ensures { OnOk result (Appends (W.contents out.old) (W.contents out.new)
        (said_line messages.now position (at_position messages.now position))) }
{
    match message_at(messages, position) {
        Some(message) => {
            write!(out, "said {position} ")?;
            print_message(out, messages, position, message)
        }
        None => Ok(()),
    }
}

/// Returns the message at `position`, if there is one. The first position is 1.
fn message_at(messages: &[Message], position: usize) -> Option<&Message>
    ensures message { option_copied result ≡ at_position messages.now position }
    ensures within { IfSome result (λ said. position ≤ length messages.now) }
{
    let index = position.checked_sub(1)?;
    messages.get(index)
}

/// Prints `message`, which is at `position` of `messages`, by its kind.
fn print_message<W: Write>(
    out: &mut W,
    messages: &[Message],
    position: usize,
    message: &Message,
) -> io::Result<()>
    requires within { position ≤ length messages.now }
    ensures { OnOk result (Appends (W.contents out.old) (W.contents out.new)
        (line (message_words messages.now position message.now))) }
{
    match message {
        Message::Offer(_) => writeln!(out, "offer"),
        Message::Choice { session, version } => writeln!(out, "choice {session} {version}"),
        Message::NoCommon => writeln!(out, "nocommon"),
        Message::Busy => writeln!(out, "busy"),
        Message::Ready {
            session,
            generation,
        } => writeln!(out, "ready {session} {generation}"),
        Message::Pong { session } => print_numbered(out, "pong", u64::from(*session)),
        Message::Data {
            session,
            generation,
            bytes,
        } => {
            let length = bytes.as_slice().len();
            writeln!(out, "data {session} {generation} {length}")
        }
        Message::Part {
            session,
            generation,
            count,
            ..
        } => {
            let total = total_length(messages, position, *count);
            writeln!(out, "parts {session} {generation} {count} {total}")
        }
        Message::Failed { session } => print_numbered(out, "failed", u64::from(*session)),
    }
}

/// Returns the length of a text in `count` parts. The first part is the message at `position`. Each part but the last
/// is full.
fn total_length(messages: &[Message], position: usize, count: u32) -> u64
    requires within { position ≤ length messages.now }
    ensures { result ≡ total_length messages.now position count }
{
    let full = count.saturating_sub(1);
    let last = length_at(messages, position + full as usize);
    u64::from(full) * PART_LEN as u64 + last as u64
}

/// Returns how many bytes of data the message at `position` carries. Returns 0 if there is no such message.
fn length_at(messages: &[Message], position: usize) -> usize
    ensures length { result ≡ length_at messages.now position }
    ensures below { result < 2 ^ 63 }
{
    match message_at(messages, position) {
        Some(Message::Data { bytes, .. } | Message::Part { bytes, .. }) => bytes.as_slice().len(),
        _ => 0,
    }
}

/// Prints that a request waits: an ask with its unique, a forget without.
pub fn print_asked<W: Write>(out: &mut W, unique: Option<u64>) -> io::Result<()>
    ensures { OnOk result (Appends (W.contents out.old) (W.contents out.new)
        (line (asked_words unique))) }
{
    match unique {
        Some(unique) => writeln!(out, "asked {unique}"),
        None => out.write_all(b"asked\n"),
    }
}

/// Prints a refusal, with its values.
pub fn print_refusal<W: Write>(out: &mut W, refusal: Refusal) -> io::Result<()>
    ensures { OnOk result (Appends (W.contents out.old) (W.contents out.new)
        (refusal_line refusal)) }
{
    let name = refusal.name();
    match refusal {
        Refusal::Stale(now) => writeln!(out, "refused {name} {now}"),
        Refusal::Unanswered(asks) => writeln!(out, "refused {name} {asks}"),
        Refusal::Undrained { in_hand, unposted } => {
            writeln!(out, "refused {name} {in_hand} {unposted}")
        }
        _ => writeln!(out, "refused {name}"),
    }
}

/// Prints a word, the unique of `reply`, and the answer of `reply`.
pub fn print_reply<W: Write>(out: &mut W, word: &str, reply: &Reply) -> io::Result<()>
    ensures { OnOk result (Appends (W.contents out.old) (W.contents out.new)
        (reply_line word.now reply.now)) }
{
    let unique = reply.unique;
    write!(out, "{word} {unique} ")?;
    print_answer(out, &reply.answer)
}

/// Prints an answer, by its kind.
fn print_answer<W: Write>(out: &mut W, answer: &Answer) -> io::Result<()>
    ensures { OnOk result (Appends (W.contents out.old) (W.contents out.new)
        (answer_lines answer.now)) }
{
    match answer {
        Answer::Entry { number, attr } => print_file(out, "entry", *number, attr),
        Answer::Opened { number, attr } => print_file(out, "opened", *number, attr),
        Answer::Attrs { number, attr } => print_file(out, "attr", *number, attr),
        Answer::Done => writeln!(out, "done"),
        Answer::Buffer(buffer) => print_buffer(out, buffer.as_slice()),
        Answer::Extent(extent) => print_extent(out, *extent),
        Answer::Error(errno) => {
            let name = errno.name();
            writeln!(out, "error {name}")
        }
    }
}

/// Prints which bytes of a file were read: the file's id, the offset of the first, and how many they are.
fn print_extent<W: Write>(out: &mut W, extent: Extent) -> io::Result<()>
    ensures { OnOk result (Appends (W.contents out.old) (W.contents out.new)
        (extent_line extent)) }
{
    let Extent { file, offset, len } = extent;
    let file = file.0;
    writeln!(out, "extent {file} {offset} {len}")
}

/// Prints a word, a number, and the attributes of the number's file.
fn print_file<W: Write>(out: &mut W, word: &str, number: Number, attr: &Attr) -> io::Result<()>
    ensures { OnOk result (Appends (W.contents out.old) (W.contents out.new)
        (line (file_words word.now number attr.now))) }
{
    let number = number.0;
    let kind = attr.kind.name();
    write!(out, "{word} {number} {kind} ")?;
    print_perm(out, attr.perm)?;
    let size = attr.size;
    let nlink = attr.nlink;
    writeln!(out, " {size} {nlink}")
}

/// Prints permissions in four octal digits.
fn print_perm<W: Write>(out: &mut W, perm: Perm) -> io::Result<()>
    ensures { OnOk result (Appends (W.contents out.old) (W.contents out.new)
        (octal perm.bits)) }
{
    let bits = perm.bits();
    write!(out, "{bits:04o}")
}

/// Prints which daemon has the seat, and what it serves.
fn print_world<W: Write>(out: &mut W, world: &World) -> io::Result<()>
    ensures { OnOk result (Appends (W.contents out.old) (W.contents out.new)
        (world_lines world.now)) }
{
    let Some(seat) = world.broker().seat() else {
        return writeln!(out, "seat none");
    };
    match world.served(seat.daemon) {
        Some(served) => print_served(out, world, seat, served),
        None => writeln!(out, "seat none"),
    }
}

/// Prints the seat, the next number of its daemon, and all numbers that the daemon keeps.
fn print_served<W: Write>(out: &mut W, world: &World, seat: Seat, served: &Served) -> io::Result<()>
    ensures { OnOk result (Appends (W.contents out.old) (W.contents out.new)
        (served_lines world.now seat served.now)) }
{
    let generation = seat.generation;
    let daemon = seat.daemon.0;
    let next = served.map().next();
    writeln!(out, "seat {generation} {daemon} next {next}")?;
    print_all_kept(out, world, seat.daemon, served.map())
}

/// Prints each number that a daemon keeps, the least first. The root has no entry, so the first one is looked for after
/// the root.
fn print_all_kept<W: Write>(
    out: &mut W,
    world: &World,
    daemon: DaemonId,
    map: &InodeMap,
) -> io::Result<()>
    ensures { OnOk result (Appends (W.contents out.old) (W.contents out.new)
        (kept_lines world.now daemon map.now.entries)) }
{
    let mut under_way = UnderWay::nothing(Number::ROOT.0);
    under_way.add_all(world, daemon);
    let mut last = Number::ROOT;
    while let Some(number) = map.after(last) {
        let Some(place) = map.entry(number) else {
            unreachable!()
        };
        let counts = under_way.of(world, daemon, number);
        let count = map.count(number);
        print_kept(out, world, daemon, number, counts, count, place)?;
        last = number;
    }
    Ok(())
}

/// Prints the line of a number that a daemon keeps: its counts, and its place.
fn print_kept<W: Write>(
    out: &mut W,
    world: &World,
    daemon: DaemonId,
    number: Number,
    counts: Counts,
    count: u64,
    place: &Place,
) -> io::Result<()>
    requires counts { AreUnderWay world.now daemon number.0 counts }
    ensures { (kept : Kept) → kept ≡ record { number = number; place = place.now; count = count }
        → OnOk result (Appends (W.contents out.old) (W.contents out.new)
        (kept_line world.now daemon kept)) }
{
    let n = number.0;
    write!(out, "number {n} ")?;
    print_counts(out, world, daemon, number, counts, count)?;
    print_place(out, place)
}

/// Prints how often the kernel holds a number, how many lookups of it forgets under way take back (`up`, to the daemon) and
/// replies under way give out (`down`, to the kernel), and `count`, its daemon's own count.
fn print_counts<W: Write>(
    out: &mut W,
    world: &World,
    daemon: DaemonId,
    number: Number,
    counts: Counts,
    count: u64,
) -> io::Result<()>
    requires counts { AreUnderWay world.now daemon number.0 counts }
    ensures { OnOk result (Appends (W.contents out.old) (W.contents out.new)
        (spaced (count_words world.now daemon number.0 count))) }
{
    let held = world.broker().held(number);
    let Counts { up, down } = counts;
    write!(out, "held {held} up {up} down {down} count {count} ")
}

/// Prints the place of a number. A name is written byte for byte.
fn print_place<W: Write>(out: &mut W, place: &Place) -> io::Result<()>
    ensures { OnOk result (Appends (W.contents out.old) (W.contents out.new)
        (place_line place.now)) }
{
    match place {
        Place::Linked { parent, name } => {
            let parent = parent.0;
            write!(out, "at {parent} ")?;
            out.write_all(name.bytes())?;
            out.write_all(b"\n")
        }
        Place::Unlinked { file } => {
            let file = file.0;
            writeln!(out, "unlinked {file}")
        }
    }
}
