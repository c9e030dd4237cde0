//! The connections of other daemons that wait to be served.
ghost use Rattle.std.specs.Prelude.{◌≡◌, ◌<◌, ◌++◌, ◌∷◌, [], None, length, remove, nat_lt, IfSome};
ghost use Rattle.daemon_process.specs.PeerQueue.{Offers, TakesFirst, admission, left_at, place_of};

use links::Frame;
use std::alloc::Global;
use std::collections::VecDeque;
use std::net::Shutdown;
use std::os::unix::net::UnixStream;

/// How many connections may wait.
const MAX_PEERS: usize = 64;

/// A connection that said nothing yet, and a handle to end it by.
#[derive(Drop)]
pub(crate) struct SilentPeer {
    number: u64,
    stream: UnixStream,
}

/// A peer that offered: its connection, and its offer.
#[derive(Drop)]
pub(crate) struct OfferingPeer {
    pub(crate) stream: UnixStream,
    /// The frame by which it offered.
    pub(crate) frame: Frame,
}

/// What becomes of a connection that comes.
#[derive(Clone, Copy)]
pub(crate) enum Admission {
    Enters,
    /// It enters in place of the oldest of those that said nothing yet.
    Replaces,
    /// It waits until there is a place.
    Waits,
}

/// The connections that wait, at most 64.
#[derive(Drop)]
pub(crate) struct PeerQueue {
    /// Those that said nothing yet, in the order in which they came.
    silent: Vec<SilentPeer>,
    /// Those that offered, in the order in which they did.
    offers: VecDeque<OfferingPeer>,
    /// The number of the next one that comes.
    next: u64,
}

impl PeerQueue {
    /// Returns an empty queue.
    pub(crate) fn new(alloc: Global) -> PeerQueue
        ensures silent { result.silent.items ≡ [] }
        ensures offers { result.offers.items ≡ [] }
    {
        PeerQueue {
            silent: Vec::new(alloc),
            offers: VecDeque::new(alloc),
            next: 0,
        }
    }

    /// Returns what becomes of a connection that comes, by whether it waited for a while.
    pub(crate) fn admission(&self, is_late: bool) -> Admission
        ensures admission { result ≡ admission (length self.now.silent.items)
            (length self.now.offers.items) is_late }
    {
        if self.silent.len().saturating_add(self.offers.len()) < MAX_PEERS {
            return Admission::Enters;
        }
        if is_late && !self.silent.is_empty() {
            return Admission::Replaces;
        }
        Admission::Waits
    }

    /// Lets a connection in by a handle of it, and returns its number. Returns none where memory is refused.
    pub(crate) fn enter(&mut self, stream: UnixStream) -> Option<u64>
        ensures number { IfSome result (λ number. number ≡ self.old.next) }
        ensures last { IfSome result (λ number. self.new.silent.items
            ≡ self.old.silent.items ++ record { number = number; stream = stream } ∷ []) }
        ensures refused { result ≡ None → self.new.silent.items ≡ self.old.silent.items }
        ensures offers { self.new.offers.items ≡ self.old.offers.items }
    {
        let number = self.next;
        match self.silent.push(SilentPeer { number, stream }) {
            Ok(()) => {
                self.next = number.wrapping_add(1);
                Some(number)
            }
            Err(_refused) => None,
        }
    }

    /// Sends the oldest of the connections away that said nothing yet.
    pub(crate) fn replace(&mut self)
        ensures silent { self.new.silent.items ≡ remove self.old.silent.items 0 }
        ensures offers { self.new.offers.items ≡ self.old.offers.items }
    {
        if !self.silent.is_empty() {
            let peer = self.silent.remove(0);
            let _ended = peer.stream.shutdown(Shutdown::Both);
        }
    }

    /// Returns the place of a connection that said nothing yet, by its number.
    fn place_of(&self, number: u64) -> Option<usize>
        ensures place { result ≡ place_of number self.now.silent.items }
        ensures below { IfSome result (λ place. place < length self.now.silent.items) }
    {
        self.silent.iter().position(|peer| peer.number == number)
    }

    /// Takes a connection that said nothing yet out, by its number, and returns its handle.
    pub(crate) fn leave(&mut self, number: u64) -> Option<UnixStream>
        ensures silent { self.new.silent.items
            ≡ left_at self.old.silent.items (place_of number self.old.silent.items) }
        ensures none { place_of number self.old.silent.items ≡ None → result ≡ None }
        ensures offers { self.new.offers.items ≡ self.old.offers.items }
    {
        match self.place_of(number) {
            Some(place) => {
                let peer = self.silent.remove(place);
                Some(peer.stream)
            }
            None => None,
        }
    }

    /// Notes that a connection offered by `frame`, unless it was sent away or memory is refused.
    pub(crate) fn offer(&mut self, number: u64, frame: Frame)
        ensures silent { self.new.silent.items
            ≡ left_at self.old.silent.items (place_of number self.old.silent.items) }
        ensures offers { Offers (place_of number self.old.silent.items) frame
            self.old.offers.items self.new.offers.items }
    {
        match self.leave(number) {
            Some(stream) => {
                let _kept = self.offers.push_back(OfferingPeer { stream, frame });
            }
            None => {}
        }
    }

    /// Takes the connection that offered first, which is served next.
    pub(crate) fn take(&mut self) -> Option<OfferingPeer>
        ensures first { TakesFirst result self.old.offers.items self.new.offers.items }
        ensures silent { self.new.silent.items ≡ self.old.silent.items }
    {
        self.offers.pop_front()
    }

    /// Returns whether a connection offered, and waits.
    pub(crate) fn has_offer(&self) -> bool
        ensures offer { result ≡ nat_lt 0 (length self.now.offers.items) }
    {
        !self.offers.is_empty()
    }

    /// Ends all connections that said nothing yet.
    pub(crate) fn end_all(&self) {
        for peer in self.silent.iter() {
            let _ended = peer.stream.shutdown(Shutdown::Both);
        }
    }
}
