//! A line of the broker's script.
ghost use Rattle.std.specs.Prelude.{◌≡◌, IfOk};
ghost use Rattle.script_lines.specs.BrokerLine.{ask_of, broker_line_by, broker_line_of, forgets_of, seat_of};

use crate::decimal::number;
use crate::event_line::{read_pair, read_request};
use eden_base::{NoMemory, Number, cut};
use fuse_wire::{Item, Request};
use std::alloc::Global;

/// What the kernel does, or what the script waits for.
#[derive(Drop)]
pub enum BrokerLine {
    /// The kernel asks, and the script waits for the answer.
    Ask(Request),
    /// The kernel forgets.
    Forget(Item),
    /// The script waits until the seat is at this generation or a later one.
    Seat(u64),
    /// The script waits until every forget was taken.
    Idle,
    /// The script prints which numbers the kernel holds, and how often.
    Held,
}

/// Reads a line, which comes without its LF. Returns none if the line is bad.
pub fn read_broker_line(alloc: Global, line: &[u8]) -> Result<Option<BrokerLine>, NoMemory>
    ensures says { IfOk result (λ read. read ≡ broker_line_of line.now) }
{
    if line == b"idle".as_slice() {
        return Ok(Some(BrokerLine::Idle));
    }
    if line == b"held".as_slice() {
        return Ok(Some(BrokerLine::Held));
    }
    match cut(line, b' ') {
        Some((word, rest)) => read_by(alloc, word, rest),
        None => Ok(None),
    }
}

/// Reads a line by its first word and the rest. Returns none if the line is bad.
fn read_by(alloc: Global, word: &[u8], rest: &[u8]) -> Result<Option<BrokerLine>, NoMemory>
    ensures { IfOk result (λ read. read ≡ broker_line_by word.now rest.now) }
{
    if word == b"ask".as_slice() {
        return read_ask(alloc, rest);
    }
    if word == b"forget".as_slice() {
        return Ok(read_forgets(rest));
    }
    if word == b"seat".as_slice() {
        return Ok(read_seat(rest));
    }
    Ok(None)
}

/// Reads the request of an `ask` line. Returns none for a forget, as nobody answers one.
fn read_ask(alloc: Global, words: &[u8]) -> Result<Option<BrokerLine>, NoMemory>
    ensures { IfOk result (λ read. read ≡ ask_of words.now) }
{
    match read_request(alloc, words)? {
        Some(request) if request.is_ask() => Ok(Some(BrokerLine::Ask(request))),
        _ => Ok(None),
    }
}

/// Reads the words of a `forget` line: a number, and how many lookups are taken back.
fn read_forgets(words: &[u8]) -> Option<BrokerLine>
    ensures { result ≡ forgets_of words.now }
{
    let (node, k) = read_pair(words)?;
    let node = Number(node);
    Some(BrokerLine::Forget(Item { node, k }))
}

/// Reads the words of a `seat` line: the generation to wait for.
fn read_seat(words: &[u8]) -> Option<BrokerLine>
    ensures { result ≡ seat_of words.now }
{
    let generation = number(words)?;
    Some(BrokerLine::Seat(generation))
}
