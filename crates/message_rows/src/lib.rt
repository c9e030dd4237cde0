//! Messages and who passes them on: the broker, its desk, a kernel at the desk, the frames of connections, and a daemon's
//! part in a takeover.
#![tactic(auto)]

mod broker_calls;
mod frame_calls;
mod mount_calls;
mod node_calls;

use crate::broker_calls::call_broker;
use crate::frame_calls::Stream;
use crate::mount_calls::{Mount, call_desk, call_mount};
use crate::node_calls::call_place;
use arrayvec::ArrayString;
use broker_core::Broker;
use row_words::{Output, RowFault, Words, chosen};
use std::alloc::Global;
use std::fmt::{Debug, Display, Write};
use takeover_core::Node;

/// What became of a row: its result is written, or it has none.
pub type Called = Result<(), RowFault>;

/// The subject of a call.
#[derive(Clone, Copy)]
enum MessageSubject {
    Broker,
    Desk,
    Mount,
    Frames,
    Node,
}

static SUBJECTS: [(&str, MessageSubject); 5] = [
    ("broker", MessageSubject::Broker),
    ("desk", MessageSubject::Desk),
    ("mount", MessageSubject::Mount),
    ("frames", MessageSubject::Frames),
    ("node", MessageSubject::Node),
];

/// The values that these calls change.
pub struct MessageValues {
    broker: Option<Broker>,
    mount: Option<Mount>,
    stream: Stream,
    old: Option<Node>,
    new: Option<Node>,
}

impl Drop for MessageValues {
    fn drop(self) {
        let MessageValues {
            broker: _,
            mount: _,
            stream: _,
            old: _,
            new: _,
        } = self;
    }
}

/// Writes a fault as Rust names it.
pub(crate) fn tell_fault<F: Debug + Copy>(output: &mut Output, fault: F) {
    let mut text: ArrayString<80> = ArrayString::new();
    let _written = write!(text, "{fault:?}");
    output.word(text.as_str());
}

/// Writes a fault as it prints itself.
pub(crate) fn tell_printed<F: Display + Copy>(output: &mut Output, fault: F) {
    let mut text: ArrayString<80> = ArrayString::new();
    let _written = write!(text, "{fault}");
    output.word(text.as_str());
}

/// Writes a number, or none.
pub(crate) fn tell_number(output: &mut Output, number: Option<u64>) {
    match number {
        Some(number) => output.number(number),
        None => output.word("none"),
    }
}

impl MessageValues {
    /// Makes the values that a case begins with.
    pub fn new(alloc: Global) -> MessageValues {
        MessageValues {
            broker: None,
            mount: None,
            stream: Stream::new(alloc),
            old: None,
            new: None,
        }
    }

    /// Makes a call of a daemon, which the first word names.
    fn call_daemon(&mut self, words: &mut Words<'_>, output: &mut Output) -> Called {
        match words.word() {
            b"old" => call_place(&mut self.old, words, output),
            b"new" => call_place(&mut self.new, words, output),
            _ => Err(RowFault::BadRow),
        }
    }

    /// Makes a call of `subject`.
    pub fn call(
        &mut self,
        alloc: Global,
        subject: &[u8],
        words: &mut Words<'_>,
        output: &mut Output,
    ) -> Called {
        match chosen(&SUBJECTS, subject).ok_or(RowFault::BadRow)? {
            MessageSubject::Broker => call_broker(alloc, &mut self.broker, words, output),
            MessageSubject::Desk => call_desk(alloc, &mut self.mount, words, output),
            MessageSubject::Mount => call_mount(alloc, &mut self.mount, words, output),
            MessageSubject::Frames => self.stream.call(alloc, words, output),
            MessageSubject::Node => self.call_daemon(words, output),
        }
    }
}
