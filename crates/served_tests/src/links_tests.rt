//! Frames through readers and writers that give and take a few bytes at a time or fail, and a channel over memory.
mod channels;
mod streams;

use crate::links_tests::streams::{Pieces, Sink};
use byte_codec::Bytes;
use links::{Frame, FrameFault, read_frame, write_frame};
use std::alloc::Global;
use std::io::BufReader;

/// The text of a Claim from generation 1.
const CLAIM_TEXT: [u8; 13] = [0, 0, 0, 8, 9, 0, 0, 0, 0, 0, 0, 0, 1];

static CLAIM: [u8; 13] = CLAIM_TEXT;

/// `CLAIM`, and after it the text of an Empty, which has no body.
static TWO: [u8; 18] = [0, 0, 0, 8, 9, 0, 0, 0, 0, 0, 0, 0, 1, 0, 0, 0, 0, 3];

/// What a read gives.
#[derive(Clone, Copy, PartialEq, Eq)]
enum Comes {
    /// A Claim from generation 1.
    Claim,
    Empty,
    /// Another frame.
    Other,
    /// The end between two frames.
    End,
    Fault(FrameFault),
}

/// Returns the frame that `read` gives, if it gives one.
fn found(read: &Result<Option<Frame>, FrameFault>) -> Option<&Frame> {
    match read {
        Ok(frame) => frame.as_ref(),
        Err(_fault) => None,
    }
}

/// Returns what `read` gives.
fn coming(read: &Result<Option<Frame>, FrameFault>) -> Comes {
    let frame = match read {
        Ok(frame) => frame,
        Err(fault) => return Comes::Fault(*fault),
    };
    match frame {
        None => Comes::End,
        Some(frame) => match frame {
            Frame::Claim { generation: 1 } => Comes::Claim,
            Frame::Empty => Comes::Empty,
            _ => Comes::Other,
        },
    }
}

/// Reads a frame from `bytes`, and once more from the same byte on if memory was refused.
fn read_slice(alloc: Global, bytes: &mut &[u8]) -> Result<Option<Frame>, FrameFault> {
    let all: &[u8] = *bytes;
    match read_frame(alloc, bytes) {
        Err(FrameFault::NoMemory) => {
            *bytes = all;
            read_frame(alloc, bytes)
        }
        read => read,
    }
}

/// Returns whether a read from `stream` gives what is `expected`, and leaves the bytes of `rest`.
fn stream_gives(alloc: Global, stream: &[u8], expected: Comes, rest: &[u8]) -> bool {
    let mut bytes = stream;
    let read = read_slice(alloc, &mut bytes);
    let given = coming(&read);
    drop(read);
    given == expected && bytes == rest
}

/// Streams, each with what a read gives, and the bytes that it leaves. They are the end; `TWO`; and streams that begin
/// with a faulty frame, and end with the byte that shows its fault.
static GIVEN: [(&[u8], Comes, &[u8]); 5] = [
    (&[], Comes::End, &[]),
    (
        &[0, 0, 0, 8, 9, 0, 0, 0, 0, 0, 0, 0, 1, 0, 0, 0, 0, 3],
        Comes::Claim,
        &[0, 0, 0, 0, 3],
    ),
    (&[0, 1, 0, 1], Comes::Fault(FrameFault::TooLong), &[]),
    (&[0, 0, 0, 0, 200], Comes::Fault(FrameFault::BadKind), &[]),
    (
        &[0, 0, 0, 7, 9, 0, 0, 0, 0, 0, 0, 1],
        Comes::Fault(FrameFault::BadBody),
        &[],
    ),
];

/// Returns whether each stream of `given` gives what its row says, and each prefix of `CLAIM` of 1 to 12 bytes is
/// `Torn`.
fn all_streams_give(alloc: Global, given: &[(&[u8], Comes, &[u8])]) -> bool {
    let mut so = true;
    for (stream, expected, rest) in given {
        so = so && stream_gives(alloc, stream, *expected, rest);
    }
    for len in 1..13usize {
        let (front, _) = CLAIM.split_at(len);
        so = so && stream_gives(alloc, front, Comes::Fault(FrameFault::Torn), &[]);
    }
    so
}

#[test]
fn a_faulty_frame_is_told_where_it_shows(rt: HostRuntime) {
    assert!(rt; all_streams_give(rt.alloc(), &GIVEN));
}

/// Makes a reader of `rest`. Its first reads are `interrupted`, the very first read gives `first` bytes, and later ones
/// give `later`. The read `fails` fails.
fn pieces(rest: &[u8], first: usize, later: usize, fails: usize, interrupted: usize) -> Pieces<'_> {
    Pieces {
        rest,
        first,
        later,
        fails,
        interrupted,
        reads: 0,
    }
}

/// Reads a frame from `reader`, and returns what the read gives.
fn read(alloc: Global, reader: &mut Pieces<'_>) -> Comes {
    let read = read_frame(alloc, reader);
    let given = coming(&read);
    drop(read);
    given
}

/// Reads `CLAIM` by a first read of `first` bytes and later reads of `later` bytes, after `interrupted` reads. Returns
/// whether the Claim comes, and then the end.
fn comes_by(alloc: Global, first: usize, later: usize, interrupted: usize) -> bool {
    let mut reader = pieces(&CLAIM, first, later, 0, interrupted);
    read(alloc, &mut reader) == Comes::Claim && read(alloc, &mut reader) == Comes::End
}

/// Calls `comes_by` with each two sizes from 1 to 13, and once more if the first call returned false.
fn comes_by_all(alloc: Global) -> bool {
    let mut so = true;
    for pair in 0..169usize {
        let (first, later) = (pair / 13 + 1, pair % 13 + 1);
        so = so && (comes_by(alloc, first, later, 0) || comes_by(alloc, first, later, 0));
    }
    so
}

#[test]
fn a_claim_comes_by_reads_of_every_size(rt: HostRuntime) {
    assert!(rt; comes_by_all(rt.alloc()));
}

/// Streams, each with how many reads of one byte it takes to its end or fault. They are the Claim, each faulty stream,
/// and one that ends within a length. An Empty, an Offer, and data of two bytes follow.
static STREAMS: [(&[u8], usize); 8] = [
    (&CLAIM_TEXT, 13),
    (&[0, 1, 0, 1], 4),
    (&[0, 0, 0, 0, 200], 5),
    (&[0, 0, 0, 7, 9, 0, 0, 0, 0, 0, 0, 1], 12),
    (&[0, 0, 0], 4),
    (&[0, 0, 0, 0, 3], 5),
    (&[0, 0, 0, 3, 32, 1, 0, 1], 8),
    (
        &[0, 0, 0, 14, 38, 0, 0, 0, 3, 0, 0, 0, 0, 0, 0, 0, 1, 7, 8],
        19,
    ),
];

/// Reads `rest` by single bytes after `interrupted` reads, and lets the read `fails` fail. Returns whether the frame
/// ends by the fault `Read` after as many reads as `reads` says.
fn read_fails(alloc: Global, rest: &[u8], fails: usize, interrupted: usize, reads: usize) -> bool {
    let mut reader = pieces(rest, 1, 1, fails, interrupted);
    read(alloc, &mut reader) == Comes::Fault(FrameFault::Read) && reader.reads == reads
}

/// Returns whether a failure of any of the first `reads` reads ends the frame at once, and a later failure isn't met.
fn each_read_fails(alloc: Global, stream: &[u8], reads: usize) -> bool {
    let end = reads.saturating_add(1);
    let mut so = !read_fails(alloc, stream, end, 0, end);
    for fails in 1..end {
        so = so
            && (read_fails(alloc, stream, fails, 0, fails)
                || read_fails(alloc, stream, fails, 0, fails));
    }
    so
}

/// Calls `each_read_fails` with each stream, and returns whether all calls return true.
fn all_reads_fail(alloc: Global, streams: &[(&[u8], usize)]) -> bool {
    let mut so = true;
    for (stream, reads) in streams {
        so = so && each_read_fails(alloc, stream, *reads);
    }
    so
}

#[test]
fn a_read_that_fails_is_told(rt: HostRuntime) {
    assert!(rt; all_reads_fail(rt.alloc(), &STREAMS));
}

/// Returns whether interrupted reads are made again, and count among the 131,072 reads allowed: the Claim takes 13
/// more. After 131,072 of them the fault is `Read`.
fn interrupted_reads_count(alloc: Global) -> bool {
    comes_by(alloc, 1, 1, 1)
        && comes_by(alloc, 1, 1, 131_059)
        && !comes_by(alloc, 1, 1, 131_060)
        && read_fails(alloc, &[], 0, 200_000, 131_072)
}

#[test]
fn an_interrupted_read_counts(rt: HostRuntime) {
    assert!(rt; interrupted_reads_count(rt.alloc()) || interrupted_reads_count(rt.alloc()));
}

/// Reads both frames of `TWO` through a buffer. Returns whether one read of the reader below the buffer suffices.
fn is_read_once(alloc: Global) -> bool {
    let below = pieces(&TWO, 18, 0, 2, 0);
    let Ok(mut reader) = BufReader::with_capacity(alloc, 65_536, below) else {
        return false;
    };
    let first = read_frame(alloc, &mut reader);
    let second = read_frame(alloc, &mut reader);
    drop(reader);
    let so = coming(&first) == Comes::Claim && coming(&second) == Comes::Empty;
    drop(first);
    drop(second);
    so
}

#[test]
fn small_frames_cost_one_read_behind_a_buffer(rt: HostRuntime) {
    assert!(rt; is_read_once(rt.alloc()) || is_read_once(rt.alloc()));
}

/// A writer that takes `most` bytes at a time, whose first writes are `interrupted`, and whose write `fails` fails. Then
/// the fault of a frame, how many bytes of its text were written, and by how many writes.
#[derive(Clone, Copy)]
struct Writing {
    most: usize,
    interrupted: usize,
    fails: usize,
    fault: Option<FrameFault>,
    len: usize,
    writes: usize,
}

/// Returns the fault of a write.
fn fault_of(told: Result<(), FrameFault>) -> Option<FrameFault> {
    match told {
        Ok(()) => None,
        Err(fault) => Some(fault),
    }
}

/// Writes `frame` of `text` by the writer that `written` says. Returns whether that comes to what `written` says.
fn is_written(alloc: Global, frame: &Frame, text: &[u8], written: Writing) -> bool {
    let mut writer = Sink {
        held: Vec::new(alloc),
        most: written.most,
        fails: written.fails,
        interrupted: written.interrupted,
        writes: 0,
    };
    let fault = fault_of(write_frame(alloc, &mut writer, frame));
    let so = fault == written.fault
        && writer.writes == written.writes
        && text.get(..written.len) == Some(writer.held.as_slice());
    drop(writer);
    so
}

/// Texts of frames, and how they are written. A Claim is written by one write, by two if the first is interrupted, and
/// by 13 of one byte each. A writer that takes nothing causes a fault, and so do 131,072 interrupted writes.
static WRITINGS: [(&[u8], Writing); 5] = [
    (
        &CLAIM_TEXT,
        Writing {
            most: 64,
            interrupted: 0,
            fails: 0,
            fault: None,
            len: 13,
            writes: 1,
        },
    ),
    (
        &CLAIM_TEXT,
        Writing {
            most: 64,
            interrupted: 1,
            fails: 0,
            fault: None,
            len: 13,
            writes: 2,
        },
    ),
    (
        &CLAIM_TEXT,
        Writing {
            most: 1,
            interrupted: 0,
            fails: 0,
            fault: None,
            len: 13,
            writes: 13,
        },
    ),
    (
        &CLAIM_TEXT,
        Writing {
            most: 0,
            interrupted: 0,
            fails: 0,
            fault: Some(FrameFault::Write),
            len: 0,
            writes: 1,
        },
    ),
    (
        &[0, 0, 0, 0, 3],
        Writing {
            most: 64,
            interrupted: 200_000,
            fails: 0,
            fault: Some(FrameFault::Write),
            len: 0,
            writes: 131_072,
        },
    ),
];

/// Reads the frame of `text`, and calls `is_written` with it, once more if the first call returned false.
fn text_is_written(alloc: Global, text: &[u8], written: Writing) -> bool {
    let mut bytes = text;
    let read = read_slice(alloc, &mut bytes);
    let so = match found(&read) {
        Some(frame) => {
            is_written(alloc, frame, text, written) || is_written(alloc, frame, text, written)
        }
        None => false,
    };
    drop(read);
    so
}

/// Calls `text_is_written` with each of `rows`, and returns whether all calls return true.
fn are_all_written(alloc: Global, rows: &[(&[u8], Writing)]) -> bool {
    let mut so = true;
    for (text, written) in rows {
        so = so && text_is_written(alloc, text, *written);
    }
    so
}

#[test]
fn a_frame_is_one_write(rt: HostRuntime) {
    assert!(rt; are_all_written(rt.alloc(), &WRITINGS));
}

/// The streams of `STREAMS` that are frames: a Claim, an Empty, an Offer, and data of two bytes.
static FRAMES: [&[u8]; 4] = [
    &CLAIM_TEXT,
    &[0, 0, 0, 0, 3],
    &[0, 0, 0, 3, 32, 1, 0, 1],
    &[0, 0, 0, 14, 38, 0, 0, 0, 3, 0, 0, 0, 0, 0, 0, 0, 1, 7, 8],
];

/// Writes the frame of `text` by single bytes. Returns whether a failure of any write ends it, after the bytes before.
fn each_write_fails(alloc: Global, text: &[u8]) -> bool {
    let mut so = true;
    for len in 0..text.len() {
        let fails = len + 1;
        let written = Writing {
            most: 1,
            interrupted: 0,
            fails,
            fault: Some(FrameFault::Write),
            len,
            writes: fails,
        };
        so = so && text_is_written(alloc, text, written);
    }
    so
}

/// Calls `each_write_fails` with each text, and returns whether all calls return true.
fn frames_are_not_written(alloc: Global, texts: &[&[u8]]) -> bool {
    let mut so = true;
    for text in texts {
        so = so && each_write_fails(alloc, text);
    }
    so
}

#[test]
fn a_write_that_fails_is_told(rt: HostRuntime) {
    assert!(rt; frames_are_not_written(rt.alloc(), &FRAMES));
}

/// Writes an Ask of `len` bytes. Returns whether the result is `fault`, and `written` bytes are written.
fn writes_ask(alloc: Global, len: usize, fault: Option<FrameFault>, written: usize) -> bool {
    let mut writer = Vec::new(alloc);
    let Ok(bytes) = Vec::from_elem(alloc, 7, len) else {
        return false;
    };
    let ask = Frame::Ask(Bytes::of(bytes));
    let told = fault_of(write_frame(alloc, &mut writer, &ask));
    drop(ask);
    told == fault && writer.len() == written
}

/// Returns whether an Ask of the longest body is written, and no byte of an Ask that is one byte longer.
fn writes_long(alloc: Global) -> bool {
    writes_ask(alloc, 65_536, None, 65_541)
        && writes_ask(alloc, 65_537, Some(FrameFault::TooLong), 0)
}

#[test]
fn nothing_of_a_body_too_long_is_written(rt: HostRuntime) {
    assert!(rt; writes_long(rt.alloc()) || writes_long(rt.alloc()));
}
