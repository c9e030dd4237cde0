//! A reply on its way to the kernel, which is written until the kernel takes it.
ghost use Rattle.std.specs.Prelude.{◌≡◌};
ghost use Rattle.broker_process.specs.Writing.{next_text, written_by, Writes};

use crate::device::{Given, give};
use std::io::Write;
use std::rt::Clock;
use std::sync::Wait;
use std::thread;
use std::time::Duration;

/// How often a reply is written at most before the program that waits gets an error in its place.
const TRIES: u32 = 3;

/// How often it is written at most, with the error.
const ALL_TRIES: u32 = 6;

/// How long a write that was refused is waited for, in milliseconds.
const PAUSE: u64 = 10;

/// A reply's bytes, and those of the error that the program gets where the device refuses them. Neither takes memory.
#[derive(Clone, Copy)]
pub(crate) struct Texts<'a> {
    pub reply: &'a [u8],
    pub error: &'a [u8],
}

/// What the program that waits got at the end.
#[derive(Clone, Copy, PartialEq, Eq)]
pub(crate) enum Written {
    /// The reply.
    Reply,
    /// The error in its place.
    Error,
    /// Nothing: it waits no more.
    Withdrawn,
    /// Nothing: the device refuses everything.
    Refused,
}

/// Returns what is written next where `refusals` writes were refused.
fn next_text<'a>(texts: &Texts<'a>, refusals: u32) -> &'a [u8]
    ensures text { result.now ≡ next_text texts.now.reply.now texts.now.error.now refusals }
{
    if refusals < TRIES {
        texts.reply
    } else {
        texts.error
    }
}

/// Returns what the program got by a write that followed `refusals` others, or none where it is to be made again.
fn written_by(given: &Given, refusals: u32) -> Option<Written>
    ensures written { result ≡ written_by given.now refusals }
{
    match given {
        Given::Taken if refusals < TRIES => Some(Written::Reply),
        Given::Taken => Some(Written::Error),
        Given::Withdrawn => Some(Written::Withdrawn),
        Given::Refused(_) => None,
    }
}

/// Writes a reply to the kernel until it is taken, or an error in its place where the device refuses it again and
/// again.
pub(crate) fn write_reply<R: Wait + Clock, D: Write>(
    rt: &R,
    device: &mut D,
    texts: &Texts<'_>,
) -> Written
    ensures writes { Writes texts.now.reply.now texts.now.error.now result
        (D.contents device.old) (D.contents device.new) }
{
    for refusals in 0..ALL_TRIES {
        let given = give(device, next_text(texts, refusals));
        if let Some(written) = written_by(&given, refusals) {
            return written;
        }
        thread::sleep(rt, Duration::from_millis(PAUSE));
    }
    Written::Refused
}
