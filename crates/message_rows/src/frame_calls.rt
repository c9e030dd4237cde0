//! Calls of `frames`, over a stream of nothing at first, and again behind a `finish`.
//!
//! `frames feed BYTES`: ok. `frames finish`: Torn where the stream ends within a frame, else ok.
//! `frames next`: `frame`, which is kept, or none, or the fault.
//! `frames taken`: the frame that was kept, in words.
//! `frames rewrite BYTES`: whether it is written as these bytes, yes or no.
//! `frames write BYTES FRAME`: whether it is written as these bytes, or the fault.
//!
//! In a FRAME, S is a session, V a version, G a generation, P a position, C a count, D a daemon; bytes are read and not
//! written. The messages of a takeover are as docs/SCRIPTS.md spells them: `offer V ..`, `choice S V`, `nocommon`, `busy`,
//! `ready S G`, `pong S`, `data S G BYTES`, `part S G P C BYTES`, `failed S`. Others: `take G`, `ask BYTES`, `post G BYTES`,
//! `posted`, `claim G`, `mount`, `attach D`; and, only written, `empty`, `ended`, `stale G`, `notasked`, `claimed G`,
//! `unanswered C`, `lastgeneration`, `mounted G`, `seated`, `attached D`.
use crate::{Called, tell_fault};
use byte_codec::Bytes;
use eden_base::DaemonId;
use frames::{Frame, FrameFault, missing};
use row_words::{Output, RowFault, Words, chosen, read_u32};
use std::alloc::Global;
use takeover_core::{Message, Versions};

/// The messages that begin with their session.
#[derive(Clone, Copy)]
enum SessionMessage {
    Choice,
    Ready,
    Pong,
    Data,
    Part,
    Failed,
}

/// The kind of a takeover's message.
#[derive(Clone, Copy)]
enum TakeoverMessageKind {
    Offer,
    NoCommon,
    Busy,
    OfSession(SessionMessage),
}

static MESSAGE_KINDS: [(&str, TakeoverMessageKind); 9] = [
    ("offer", TakeoverMessageKind::Offer),
    ("nocommon", TakeoverMessageKind::NoCommon),
    ("busy", TakeoverMessageKind::Busy),
    (
        "choice",
        TakeoverMessageKind::OfSession(SessionMessage::Choice),
    ),
    (
        "ready",
        TakeoverMessageKind::OfSession(SessionMessage::Ready),
    ),
    ("pong", TakeoverMessageKind::OfSession(SessionMessage::Pong)),
    ("data", TakeoverMessageKind::OfSession(SessionMessage::Data)),
    ("part", TakeoverMessageKind::OfSession(SessionMessage::Part)),
    (
        "failed",
        TakeoverMessageKind::OfSession(SessionMessage::Failed),
    ),
];

/// The frames that are read and are no message of a takeover.
#[derive(Clone, Copy)]
enum BrokerFrame {
    Take,
    Ask,
    Post,
    Posted,
    Claim,
    Mount,
    Attach,
}

static BROKER_FRAMES: [(&str, BrokerFrame); 7] = [
    ("take", BrokerFrame::Take),
    ("ask", BrokerFrame::Ask),
    ("post", BrokerFrame::Post),
    ("posted", BrokerFrame::Posted),
    ("claim", BrokerFrame::Claim),
    ("mount", BrokerFrame::Mount),
    ("attach", BrokerFrame::Attach),
];

/// How many bytes stand before a body.
const HEAD: usize = 5;

/// The calls of a stream.
#[derive(Clone, Copy)]
enum StreamCall {
    Feed,
    Finish,
    Next,
    Taken,
    Rewrite,
    Write,
}

static STREAM_CALLS: [(&str, StreamCall); 6] = [
    ("feed", StreamCall::Feed),
    ("finish", StreamCall::Finish),
    ("next", StreamCall::Next),
    ("taken", StreamCall::Taken),
    ("rewrite", StreamCall::Rewrite),
    ("write", StreamCall::Write),
];

/// Reads the next word as a number of 16 bits.
fn read_u16(words: &mut Words<'_>) -> u16 {
    match u16::try_from(words.number()) {
        Ok(number) => number,
        Err(_) => {
            words.refuse();
            0
        }
    }
}

/// Reads the words that are left as versions.
pub(crate) fn read_versions(words: &mut Words<'_>) -> Result<Versions, RowFault> {
    let mut versions = [0u16; 8];
    let mut count = 0usize;
    for version in &mut versions {
        if !words.has_more() {
            break;
        }
        *version = read_u16(words);
        count = count.wrapping_add(1);
    }
    match versions.get(..count) {
        Some(list) if list.len() <= Versions::MAX_LEN => Ok(Versions::of(list)),
        _ => Err(RowFault::BadRow),
    }
}

/// Reads the words behind `part` and its session.
fn read_part(session: u32, words: &mut Words<'_>) -> Message {
    let generation = words.number();
    let position = read_u32(words);
    let count = read_u32(words);
    Message::Part {
        session,
        generation,
        position,
        count,
        bytes: Bytes::of(words.bytes()),
    }
}

/// Reads a message of a session.
fn read_of_session(message: SessionMessage, words: &mut Words<'_>) -> Message {
    let session = read_u32(words);
    match message {
        SessionMessage::Choice => Message::Choice {
            session,
            version: read_u16(words),
        },
        SessionMessage::Ready => Message::Ready {
            session,
            generation: words.number(),
        },
        SessionMessage::Pong => Message::Pong { session },
        SessionMessage::Data => Message::Data {
            session,
            generation: words.number(),
            bytes: Bytes::of(words.bytes()),
        },
        SessionMessage::Part => read_part(session, words),
        SessionMessage::Failed => Message::Failed { session },
    }
}

/// Reads a message, which begins with `word`.
pub(crate) fn read_message(word: &[u8], words: &mut Words<'_>) -> Result<Message, RowFault> {
    Ok(
        match chosen(&MESSAGE_KINDS, word).ok_or(RowFault::BadRow)? {
            TakeoverMessageKind::Offer => Message::Offer(read_versions(words)?),
            TakeoverMessageKind::NoCommon => Message::NoCommon,
            TakeoverMessageKind::Busy => Message::Busy,
            TakeoverMessageKind::OfSession(message) => read_of_session(message, words),
        },
    )
}

/// Writes a word and numbers.
pub(crate) fn tell_numbers(output: &mut Output, word: &str, numbers: &[u64]) {
    output.word(word);
    for number in numbers {
        output.number(*number);
    }
}

/// Writes an offer of `versions`.
fn tell_offer(output: &mut Output, versions: &[u16]) {
    output.word("offer");
    for version in versions {
        output.number(u64::from(*version));
    }
}

/// Writes a message.
pub(crate) fn tell_message(output: &mut Output, message: &Message) {
    match message {
        Message::Offer(versions) => tell_offer(output, versions.as_slice()),
        Message::NoCommon => output.word("nocommon"),
        Message::Busy => output.word("busy"),
        Message::Choice { session, version } => {
            tell_numbers(
                output,
                "choice",
                &[u64::from(*session), u64::from(*version)],
            );
        }
        Message::Ready {
            session,
            generation,
        } => tell_numbers(output, "ready", &[u64::from(*session), *generation]),
        Message::Pong { session } => tell_numbers(output, "pong", &[u64::from(*session)]),
        Message::Failed { session } => tell_numbers(output, "failed", &[u64::from(*session)]),
        Message::Data {
            session,
            generation,
            ..
        } => tell_numbers(output, "data", &[u64::from(*session), *generation]),
        Message::Part {
            session,
            generation,
            position,
            count,
            ..
        } => {
            tell_numbers(output, "part", &[u64::from(*session), *generation]);
            output.number(u64::from(*position));
            output.number(u64::from(*count));
        }
    }
}

/// Reads a frame.
pub(crate) fn read_frame(words: &mut Words<'_>) -> Result<Frame, RowFault> {
    let word = words.word();
    let Some(frame) = chosen(&BROKER_FRAMES, word) else {
        return Ok(Frame::Takeover(read_message(word, words)?));
    };
    Ok(match frame {
        BrokerFrame::Take => Frame::Take {
            generation: words.number(),
        },
        BrokerFrame::Ask => Frame::Ask(Bytes::of(words.bytes())),
        BrokerFrame::Post => Frame::Post {
            generation: words.number(),
            reply: Bytes::of(words.bytes()),
        },
        BrokerFrame::Posted => Frame::Posted,
        BrokerFrame::Claim => Frame::Claim {
            generation: words.number(),
        },
        BrokerFrame::Mount => Frame::Mount,
        BrokerFrame::Attach => Frame::Attach(DaemonId(words.number())),
    })
}

/// Writes a frame.
pub(crate) fn tell_frame(output: &mut Output, frame: &Frame) {
    let (word, number) = match frame {
        Frame::Take { generation } => ("take", Some(*generation)),
        Frame::Ask(_) => ("ask", None),
        Frame::Empty => ("empty", None),
        Frame::Post { generation, .. } => ("post", Some(*generation)),
        Frame::Posted => ("posted", None),
        Frame::Ended => ("ended", None),
        Frame::Stale { now } => ("stale", Some(*now)),
        Frame::NotAsked => ("notasked", None),
        Frame::Claim { generation } => ("claim", Some(*generation)),
        Frame::Claimed { generation } => ("claimed", Some(*generation)),
        Frame::Unanswered { asks } => ("unanswered", Some(*asks)),
        Frame::LastGeneration => ("lastgeneration", None),
        Frame::Mount => ("mount", None),
        Frame::Mounted { generation } => ("mounted", Some(*generation)),
        Frame::Seated => ("seated", None),
        Frame::Attach(daemon) => ("attach", Some(daemon.0)),
        Frame::Attached(daemon) => ("attached", Some(daemon.0)),
        Frame::Takeover(message) => return tell_message(output, message),
    };
    output.word(word);
    if let Some(number) = number {
        output.number(number);
    }
}

/// The bytes of a stream that no frame took, and the frame that was taken last.
#[derive(Drop)]
pub(crate) struct Stream {
    unread: Vec<u8>,
    taken: Frame,
}

/// Writes `word`, or the fault, or returns that memory was refused.
fn tell_done(output: &mut Output, word: &str, done: Result<(), FrameFault>) -> Called {
    match done {
        Ok(()) => output.word(word),
        Err(FrameFault::NoMemory) => return Err(RowFault::NoMemory),
        Err(fault) => tell_fault(output, fault),
    }
    Ok(())
}

/// Writes whether the bytes of a frame are `text`, or the fault.
fn tell_written(alloc: Global, output: &mut Output, frame: &Frame, text: &[u8]) -> Called {
    match frame.write(alloc) {
        Ok(bytes) => {
            output.flag(bytes.as_slice() == text);
            Ok(())
        }
        Err(fault) => tell_done(output, "", Err(fault)),
    }
}

/// Returns the frame in front of `bytes`, read as a connection reads it, and how many bytes it takes up; or none.
fn first_of(alloc: Global, bytes: &[u8]) -> Result<Option<(Frame, usize)>, FrameFault> {
    let (head, rest) = bytes.split_at(bytes.len().min(HEAD));
    let lacking = missing(head)?;
    if head.len() < HEAD || rest.len() < lacking {
        return Ok(None);
    }
    let Ok(copied) = rest[..lacking].to_vec(alloc) else {
        return Err(FrameFault::NoMemory);
    };
    let mut body = copied;
    let frame = Frame::of_parts(head, &mut body)?;
    Ok(Some((frame, HEAD + lacking)))
}

impl Stream {
    /// Makes a stream of nothing.
    pub(crate) fn new(alloc: Global) -> Stream {
        Stream {
            unread: Vec::new(alloc),
            taken: Frame::Empty,
        }
    }

    /// Appends a piece.
    fn feed(&mut self, words: &mut Words<'_>, output: &mut Output) -> Called {
        let bytes = words.bytes();
        words.end()?;
        self.unread.extend_from_slice(bytes.as_slice())?;
        output.word("ok");
        Ok(())
    }

    /// Takes the next frame.
    fn next(&mut self, alloc: Global, output: &mut Output) -> Called {
        match first_of(alloc, self.unread.as_slice()) {
            Ok(Some((frame, used))) => {
                self.taken = frame;
                drop(self.unread.drain(..used.min(self.unread.len())));
                tell_done(output, "frame", Ok(()))
            }
            Ok(None) => tell_done(output, "none", Ok(())),
            Err(fault) => tell_done(output, "", Err(fault)),
        }
    }

    /// Drops the bytes that are left, and tells whether they end within a frame.
    fn finish(&mut self, alloc: Global, output: &mut Output) {
        let torn = !self.unread.is_empty()
            && matches!(first_of(alloc, self.unread.as_slice()), Ok(None));
        self.unread.clear();
        output.word(if torn { "Torn" } else { "ok" });
    }

    /// Makes a call of frames.
    pub(crate) fn call(
        &mut self,
        alloc: Global,
        words: &mut Words<'_>,
        output: &mut Output,
    ) -> Called {
        match chosen(&STREAM_CALLS, words.word()).ok_or(RowFault::BadRow)? {
            StreamCall::Feed => self.feed(words, output),
            StreamCall::Next => self.next(alloc, output),
            StreamCall::Taken => {
                tell_frame(output, &self.taken);
                Ok(())
            }
            StreamCall::Rewrite => {
                let text = words.bytes();
                words.end()?;
                tell_written(alloc, output, &self.taken, text.as_slice())
            }
            StreamCall::Finish => {
                self.finish(alloc, output);
                Ok(())
            }
            StreamCall::Write => {
                let text = words.bytes();
                let frame = read_frame(words)?;
                words.end()?;
                tell_written(alloc, output, &frame, text.as_slice())
            }
        }
    }
}
