//! What a line of a broker's script waits for, and the results of such waits.
ghost use Rattle.std.specs.Prelude.{◌≡◌};
ghost use Rattle.broker_script.specs.Looking.{idle_come, seat_come, Looks};
ghost use Rattle.broker_script.specs.declared.awaited.Awaited.TheVariants.{Reply as AReply};

use broker_core::{Broker, DeliverFault};
use broker_desk::Desk;
use fuse_wire::Reply;

/// What a line waits for.
#[derive(Clone, Copy, PartialEq, Eq)]
pub enum Awaited {
    /// The reply to the ask with this unique.
    Reply(u64),
    /// A seat at this generation or a later one.
    Seat(u64),
    /// A moment in which no forget waits for a daemon.
    Idle,
}

/// The result of a wait.
#[derive(Drop)]
pub enum Came {
    /// The awaited reply, which reached the kernel.
    Answered(Reply),
    /// The end of the mount: the ask with this unique gets no reply.
    Lost(u64),
    /// A seat at this generation.
    Seat(u64),
    /// Every forget was taken.
    Idle,
    /// The reply came, but memory to hold its number was refused. The reply stays posted, and a later look may take it.
    Lacks,
}

/// Returns the result of the wait for `awaited`, or none if the wait goes on. Delivers an awaited reply to the kernel
/// once no other posted reply is before it, and else changes nothing.
pub fn look(desk: &mut Desk, awaited: &Awaited) -> Option<Came>
    ensures looks { Looks desk.old awaited.now result desk.new }
{
    match *awaited {
        Awaited::Reply(unique) => look_for_reply(desk, unique),
        Awaited::Seat(generation) => look_at_seat(desk.broker(), generation),
        Awaited::Idle => look_at_forgets(desk.broker()),
    }
}

/// Delivers the first posted reply to the kernel, if it is the reply to the ask with this unique. An ask that is not
/// under way any more is lost.
fn look_for_reply(desk: &mut Desk, unique: u64) -> Option<Came>
    ensures { Looks desk.old (AReply unique) result desk.new }
{
    if !desk.broker().is_under_way(unique) {
        return Some(Came::Lost(unique));
    }
    let reply = desk.broker().next_reply()?;
    if reply.unique != unique {
        return None;
    }
    match desk.deliver() {
        Ok(reply) => Some(Came::Answered(reply)),
        Err(DeliverFault::NoMemory) => Some(Came::Lacks),
        Err(DeliverFault::Empty) => unreachable!(),
    }
}

/// Returns the seat's generation, if it is `generation` or a later one.
fn look_at_seat(broker: &Broker, generation: u64) -> Option<Came>
    ensures { result ≡ seat_come broker.now.seat generation }
{
    match broker.seat() {
        Some(seat) if generation <= seat.generation => Some(Came::Seat(seat.generation)),
        _ => None,
    }
}

/// Returns `Idle` if no forget waits for a daemon.
fn look_at_forgets(broker: &Broker) -> Option<Came>
    ensures { result ≡ idle_come broker.now.traffic }
{
    if broker.items_waiting() == 0 {
        return Some(Came::Idle);
    }
    None
}
