//! Takes that wait for an ask.
ghost use Rattle.std.specs.Prelude.{◌≡◌, ◌<◌, ◌++◌, ◌∷◌, [], true, false, length, position, vec_capacity, vec_len, IsSome};
ghost use Rattle.std.specs.Option.{IfSome};
ghost use Rattle.broker_process.specs.HeldTakes.{has_answer, is_expired, is_of, Removes};

use crate::connection_handle::ConnectionHandle;
use broker_core::{Broker, TakeFault};
use broker_desk::Peer;
use eden_base::DaemonId;
use std::alloc::Global;

/// A Take that waits for an ask: by which connection it came, who sent it at which generation, where its answer goes, and what
/// is to be told before it.
#[derive(Drop)]
pub(crate) struct HeldTake {
    /// The number of the connection.
    pub number: u64,
    pub peer: Peer,
    pub generation: u64,
    /// In which tick it came.
    pub tick: u64,
    pub handle: ConnectionHandle,
    /// Whether its sender has yet to be told that the reply before it is posted.
    pub owes_posted: bool,
}

impl HeldTake {
    /// Returns whether the Take came by connection `number`.
    fn is_of(&self, number: u64) -> bool
        ensures exact { result ≡ is_of number self.now }
    {
        self.number == number
    }

    /// Returns whether the `broker` has an answer for the Take: something to take, or why there will be nothing.
    fn has_answer(&self, broker: &Broker) -> bool
        ensures exact { result ≡ has_answer broker.now self.now }
    {
        let daemon = match self.peer {
            Peer::Daemon(daemon) | Peer::Worker(daemon) => daemon,
            Peer::Unattached => DaemonId(0),
        };
        !matches!(
            broker.take_refusal(daemon, self.generation),
            Some(TakeFault::Empty)
        )
    }

    /// Returns whether the Take came before `tick` began.
    fn is_expired(&self, tick: u64) -> bool
        ensures exact { result ≡ is_expired tick self.now }
    {
        self.tick < tick
    }
}

/// The Takes that wait, one of a connection at most, in the order in which they came.
#[derive(Drop)]
pub(crate) struct HeldTakes {
    pub takes: Vec<HeldTake>,
    /// How many ticks passed. A Take waits until the tick ends in which it came.
    pub tick: u64,
}

impl HeldTakes {
    /// Makes an empty list.
    pub(crate) fn new(alloc: Global) -> HeldTakes
        ensures none { result.takes.items ≡ [] }
    {
        HeldTakes {
            takes: Vec::new(alloc),
            tick: 0,
        }
    }

    /// Lets a Take wait behind the others. Returns whether it does: memory for it may be refused.
    pub(crate) fn hold(&mut self, take: HeldTake) -> bool
        ensures held { result ≡ true → self.new.takes.items ≡ self.old.takes.items ++ take ∷ [] }
        ensures refused { result ≡ false → self.new.takes.items ≡ self.old.takes.items }
        ensures tick { self.new.tick ≡ self.old.tick }
    {
        self.takes.push(take).is_ok()
    }

    /// Takes the Take of connection `number` out of the list, if one waits.
    pub(crate) fn remove(&mut self, number: u64) -> Option<HeldTake>
        ensures removes { Removes (position (is_of number) self.old.takes.items) self.old.takes.items result
            self.new.takes.items }
        ensures tick { self.new.tick ≡ self.old.tick }
    {
        let place = place_of(self.takes.as_slice(), number)?;
        Some(self.takes.remove(place))
    }

    /// Takes the first Take out of the list for which the `broker` has an answer, if there is one.
    pub(crate) fn next(&mut self, broker: &Broker) -> Option<HeldTake>
        ensures removes { Removes (position (has_answer broker.now) self.old.takes.items) self.old.takes.items result
            self.new.takes.items }
        ensures tick { self.new.tick ≡ self.old.tick }
        ensures room { IsSome result → vec_len self.new.takes < vec_capacity self.new.takes }
    {
        let place = place_of_answered(self.takes.as_slice(), broker)?;
        Some(self.takes.remove(place))
    }

    /// Takes the first Take out of the list that came before this tick, if there is one.
    pub(crate) fn expire(&mut self) -> Option<HeldTake>
        ensures removes { Removes (position (is_expired self.old.tick) self.old.takes.items) self.old.takes.items result
            self.new.takes.items }
        ensures tick { self.new.tick ≡ self.old.tick }
    {
        let place = place_of_expired(self.takes.as_slice(), self.tick)?;
        Some(self.takes.remove(place))
    }

    /// Lets a Take that was taken out of the list wait on, behind the others.
    pub(crate) fn give_back(&mut self, take: HeldTake)
        requires room { vec_len self.old.takes < vec_capacity self.old.takes }
        ensures last { self.new.takes.items ≡ self.old.takes.items ++ take ∷ [] }
        ensures tick { self.new.tick ≡ self.old.tick }
    {
        self.takes.push_reserved(take);
    }

    /// Begins the next tick.
    pub(crate) fn pass_tick(&mut self)
        ensures same { self.new.takes.items ≡ self.old.takes.items }
    {
        self.tick = self.tick.saturating_add(1);
    }
}

/// Returns the place of the Take of connection `number`, if one waits.
fn place_of(takes: &[HeldTake], number: u64) -> Option<usize>
    ensures place { result ≡ position (is_of number) takes.now }
    ensures within { IfSome result (λ place. place < length takes.now) }
{
    takes.iter().position(|take| take.is_of(number))
}

/// Returns the place of the first Take for which the `broker` has an answer, if there is one.
fn place_of_answered(takes: &[HeldTake], broker: &Broker) -> Option<usize>
    ensures place { result ≡ position (has_answer broker.now) takes.now }
    ensures within { IfSome result (λ place. place < length takes.now) }
{
    takes.iter().position(|take| take.has_answer(broker))
}

/// Returns the place of the first Take that came before `tick` began, if there is one.
fn place_of_expired(takes: &[HeldTake], tick: u64) -> Option<usize>
    ensures place { result ≡ position (is_expired tick) takes.now }
    ensures within { IfSome result (λ place. place < length takes.now) }
{
    takes.iter().position(|take| take.is_expired(tick))
}
