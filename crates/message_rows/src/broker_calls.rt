//! Calls of `broker_core`. The first one of a case makes the broker. D is a daemon, G a generation, U the unique of an ask,
//! N a number; requests and answers are those of `spelled`.
//!
//! `broker seat`: generation and daemon, or none.
//! `broker mount-refusal`, `broker take-refusal D G`: the fault, or none.
//! `broker mount D`, `broker try-mount D`, `broker claim D G`: the generation, or the fault.
//! `broker issue REQUEST`: the unique, or none for a forget, or the fault.
//! `broker take D G`: unique and request, or the fault. `broker take-many D G`: how many items were taken.
//! `broker post D G U ANSWER`: ok, or the fault.
//! `broker deliver`: unique and answer, or the fault.
//! `broker rounds K N STEP`: how many of K rounds go so, up to the first that does not. In a round the root is looked up,
//! and daemon 1 at generation 1 answers by an entry of N, of N + STEP in the second round, and so on.
//! `broker gone D`: ok.
//! `broker held N`: how often. `broker held-after N`: the number, or none.
//! `broker stand N`: how often N is held. How many posted replies give it out. How often waiting items take it back.
use crate::{Called, tell_fault, tell_number, tell_printed};
use broker_core::{Broker, DeliverFault, IssueFault};
use eden_base::{Attr, DaemonId, Kind, Number, Perm};
use fuse_wire::{Answer, Reply, Request};
use row_words::{
    Output, RowFault, Words, chosen, name_of, read_answer, read_request, tell_answer, tell_request,
};
use std::alloc::Global;
use std::fmt::Debug;

const FILE: Attr = Attr {
    kind: Kind::File,
    perm: Perm { bits: 0o644 },
    size: 3,
    nlink: 1,
};

/// The calls that change a broker, by numbers alone.
#[derive(Clone, Copy)]
enum Change {
    TryMount,
    Mount,
    Gone,
    Claim,
    Take,
    TakeMany,
}

/// The calls that change nothing.
#[derive(Clone, Copy)]
enum Look {
    Held,
    HeldAfter,
    Stand,
    TakeRefusal,
    MountRefusal,
    Seat,
}

/// The calls of a broker.
#[derive(Clone, Copy)]
enum BrokerCall {
    Issue,
    Post,
    Deliver,
    Rounds,
    Change(Change),
    Look(Look),
}

static BROKER_CALLS: [(&str, BrokerCall); 16] = [
    ("issue", BrokerCall::Issue),
    ("post", BrokerCall::Post),
    ("deliver", BrokerCall::Deliver),
    ("rounds", BrokerCall::Rounds),
    ("try-mount", BrokerCall::Change(Change::TryMount)),
    ("mount", BrokerCall::Change(Change::Mount)),
    ("gone", BrokerCall::Change(Change::Gone)),
    ("claim", BrokerCall::Change(Change::Claim)),
    ("take", BrokerCall::Change(Change::Take)),
    ("take-many", BrokerCall::Change(Change::TakeMany)),
    ("held", BrokerCall::Look(Look::Held)),
    ("held-after", BrokerCall::Look(Look::HeldAfter)),
    ("stand", BrokerCall::Look(Look::Stand)),
    ("take-refusal", BrokerCall::Look(Look::TakeRefusal)),
    ("mount-refusal", BrokerCall::Look(Look::MountRefusal)),
    ("seat", BrokerCall::Look(Look::Seat)),
];

/// Writes a fault, or none.
fn tell_refusal<F: Debug + Copy>(output: &mut Output, fault: Option<F>) {
    match fault {
        Some(fault) => tell_fault(output, fault),
        None => output.word("none"),
    }
}

/// Returns the broker in `place`, and makes one if there is none.
fn broker_in(alloc: Global, place: &mut Option<Broker>) -> Result<&mut Broker, RowFault> {
    if place.is_none() {
        *place = Some(Broker::new(alloc)?);
    }
    place.as_mut().ok_or(RowFault::BadRow)
}

/// Writes the result of an issue.
pub(crate) fn tell_issued(output: &mut Output, issued: Result<Option<u64>, IssueFault>) -> Called {
    match issued {
        Ok(unique) => tell_number(output, unique),
        Err(IssueFault::NoMemory) => return Err(RowFault::NoMemory),
        Err(fault) => tell_fault(output, fault),
    }
    Ok(())
}

/// Writes a reply.
pub(crate) fn tell_reply(output: &mut Output, reply: &Reply) {
    output.number(reply.unique);
    tell_answer(output, &reply.answer);
}

/// Writes the result of a delivery.
pub(crate) fn tell_delivered(
    output: &mut Output,
    delivered: Result<Reply, DeliverFault>,
) -> Called {
    match delivered {
        Ok(reply) => tell_reply(output, &reply),
        Err(DeliverFault::NoMemory) => return Err(RowFault::NoMemory),
        Err(fault) => tell_fault(output, fault),
    }
    Ok(())
}

/// Takes what waits first, and writes it, or only how many items it has where `is_many`.
fn take(broker: &mut Broker, is_many: bool, words: &mut Words<'_>, output: &mut Output) {
    let daemon = DaemonId(words.number());
    match broker.take(daemon, words.number()) {
        Ok(ask) if is_many => output.number(ask.what.items().len() as u64),
        Ok(ask) => {
            output.number(ask.unique);
            tell_request(output, &ask.what);
        }
        Err(fault) => tell_fault(output, fault),
    }
}

/// Posts an answer.
fn post(broker: &mut Broker, words: &mut Words<'_>, output: &mut Output) -> Called {
    let daemon = DaemonId(words.number());
    let generation = words.number();
    let unique = words.number();
    let answer = read_answer(words)?;
    match broker.post(daemon, generation, Reply { unique, answer }) {
        Ok(()) => output.word("ok"),
        Err(fault) => tell_fault(output, fault),
    }
    Ok(())
}

/// Has daemon 1 answer `request` by an entry of `number`. Returns whether the answer comes to the kernel.
fn is_answered(broker: &mut Broker, request: &Request, number: u64) -> bool {
    let Ok(Some(unique)) = broker.issue(request) else {
        return false;
    };
    let is_taken = match broker.take(DaemonId(1), 1) {
        Ok(ask) => ask.unique == unique,
        Err(_) => false,
    };
    let number = Number(number);
    let answer = Answer::Entry { number, attr: FILE };
    let reply = Reply { unique, answer };
    is_taken
        && broker.post(DaemonId(1), 1, reply).is_ok()
        && matches!(broker.deliver(), Ok(told) if told.unique == unique)
}

/// Returns how many of `count` rounds are answered, up to the first that is not.
fn count_answered(
    broker: &mut Broker,
    request: &Request,
    count: u64,
    number: u64,
    step: u64,
) -> u64 {
    let mut number = number;
    for round in 0..count {
        if !is_answered(broker, request, number) {
            return round;
        }
        number = number.wrapping_add(step);
    }
    count
}

/// Makes rounds.
fn rounds(
    alloc: Global,
    broker: &mut Broker,
    words: &mut Words<'_>,
    output: &mut Output,
) -> Called {
    let count = words.number();
    let number = words.number();
    let step = words.number();
    words.end()?;
    let request = Request::Lookup {
        dir: Number::ROOT,
        name: name_of(alloc, b"name")?,
    };
    output.number(count_answered(broker, &request, count, number, step));
    Ok(())
}

/// Counts the posted replies that give `number` out.
fn given_out(broker: &Broker, number: Number) -> u64 {
    let mut count = 0u64;
    for reply in broker.replies().iter() {
        if reply.answer.given_out() == Some(number) {
            count = count.wrapping_add(1);
        }
    }
    count
}

/// Counts how often the waiting items take `number` back.
fn taken_back(broker: &Broker, number: Number) -> u64 {
    let mut sum = 0u64;
    for item in broker.items().iter() {
        if item.node == number {
            sum = sum.wrapping_add(item.k);
        }
    }
    sum
}

/// Writes how `number` stands.
fn tell_stand(broker: &Broker, number: Number, output: &mut Output) {
    output.number(broker.held(number));
    output.number(given_out(broker, number));
    output.number(taken_back(broker, number));
}

/// Writes the generation and the daemon of the seat, or none.
fn tell_seat(broker: &Broker, output: &mut Output) {
    match broker.seat() {
        Some(seat) => {
            output.number(seat.generation);
            output.number(seat.daemon.0);
        }
        None => output.word("none"),
    }
}

/// Makes a call that changes nothing.
fn look_at(broker: &Broker, look: Look, words: &mut Words<'_>, output: &mut Output) -> Called {
    match look {
        Look::Held => output.number(broker.held(Number(words.number()))),
        Look::HeldAfter => {
            let after = broker.held_after(Number(words.number()));
            tell_number(output, after.map(|number| number.0));
        }
        Look::Stand => tell_stand(broker, Number(words.number()), output),
        Look::TakeRefusal => {
            let daemon = DaemonId(words.number());
            tell_refusal(output, broker.take_refusal(daemon, words.number()));
        }
        Look::MountRefusal => tell_refusal(output, broker.mount_refusal()),
        Look::Seat => tell_seat(broker, output),
    }
    words.end()
}

/// Mounts, unless something refuses that: then the call is no row.
fn mount(broker: &mut Broker, words: &mut Words<'_>, output: &mut Output) {
    if broker.mount_refusal().is_none() {
        output.number(broker.mount(DaemonId(words.number())));
    } else {
        words.refuse();
    }
}

/// Mounts, or writes the fault.
fn try_mount(broker: &mut Broker, words: &mut Words<'_>, output: &mut Output) {
    match broker.try_mount(DaemonId(words.number())) {
        Ok(generation) => output.number(generation),
        Err(fault) => tell_fault(output, fault),
    }
}

/// Claims the next generation.
fn claim(broker: &mut Broker, words: &mut Words<'_>, output: &mut Output) {
    let daemon = DaemonId(words.number());
    match broker.claim(daemon, words.number()) {
        Ok(next) => output.number(next),
        Err(fault) => tell_printed(output, fault),
    }
}

/// Makes a call that changes `broker`, by numbers alone.
fn change_by(
    broker: &mut Broker,
    change: Change,
    words: &mut Words<'_>,
    output: &mut Output,
) -> Called {
    match change {
        Change::TryMount => try_mount(broker, words, output),
        Change::Mount => mount(broker, words, output),
        Change::Gone => {
            broker.gone(DaemonId(words.number()));
            output.word("ok");
        }
        Change::Claim => claim(broker, words, output),
        Change::Take => take(broker, false, words, output),
        Change::TakeMany => take(broker, true, words, output),
    }
    words.end()
}

/// Issues a request.
fn issue(alloc: Global, broker: &mut Broker, words: &mut Words<'_>, output: &mut Output) -> Called {
    let request = read_request(alloc, words)?;
    tell_issued(output, broker.issue(&request))
}

/// Delivers a reply.
fn deliver(broker: &mut Broker, words: &Words<'_>, output: &mut Output) -> Called {
    tell_delivered(output, broker.deliver())?;
    words.end()
}

/// Makes a call of the broker in `place`.
pub(crate) fn call_broker(
    alloc: Global,
    place: &mut Option<Broker>,
    words: &mut Words<'_>,
    output: &mut Output,
) -> Called {
    let broker = broker_in(alloc, place)?;
    match chosen(&BROKER_CALLS, words.word()).ok_or(RowFault::BadRow)? {
        BrokerCall::Issue => issue(alloc, broker, words, output),
        BrokerCall::Post => post(broker, words, output),
        BrokerCall::Deliver => deliver(broker, words, output),
        BrokerCall::Rounds => rounds(alloc, broker, words, output),
        BrokerCall::Change(change) => change_by(broker, change, words, output),
        BrokerCall::Look(look) => look_at(broker, look, words, output),
    }
}
