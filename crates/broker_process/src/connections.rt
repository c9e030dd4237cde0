//! The connections that are open.
ghost use Rattle.std.specs.Prelude.{◌≡◌, ◌<◌, [], ◌∷◌, ◌++◌, None, true, count_by, is_some, length, map, nat_lt, position, vec_capacity, vec_len};
ghost use Rattle.std.specs.Option.{IfSome};
ghost use Rattle.broker_process.specs.Connections.{entered, has_number, has_room, heard_of, is_unattached, is_silent, has_begun, named, noted, place_to_give, with_room, without_at, works_for};

use crate::connection_handle::ConnectionHandle;
use broker_desk::Peer;
use eden_base::DaemonId;
use frames::missing;
use std::alloc::Global;

/// How many unattached connections may be open.
pub(crate) const MAX_UNATTACHED: usize = 64;

/// How many connections a daemon's workers may have.
pub(crate) const MAX_WORKERS: usize = 16;

/// What came by an unattached connection.
#[derive(Clone, Copy, PartialEq, Eq)]
pub(crate) enum Heard {
    /// Nobody looked yet.
    Unknown,
    /// Nothing for a moment.
    Silence,
    /// A whole frame, which is not answered yet.
    Frame,
    /// The beginning of a frame, the end, what is no frame, or a frame that was answered.
    Something,
}

impl Heard {
    /// Returns what the first `bytes` of a connection are.
    pub(crate) fn of(bytes: &[u8]) -> Heard
        ensures heard { result ≡ heard_of bytes.now }
    {
        match missing(bytes) {
            Ok(0) => Heard::Frame,
            Ok(_) | Err(_) => Heard::Something,
        }
    }
}

/// A connection that is open, who is at its other end, what came by it, and a handle to end it by.
#[derive(Drop)]
pub(crate) struct OpenConnection {
    number: u64,
    peer: Peer,
    heard: Heard,
    handle: ConnectionHandle,
}

impl OpenConnection {
    /// Returns whether the connection is unattached: nobody attached by it yet.
    fn is_unattached(&self) -> bool
        ensures unattached { result ≡ is_unattached self.now }
    {
        matches!(self.peer, Peer::Unattached)
    }

    /// Returns whether the connection is unattached, and nothing came by it for a moment.
    fn is_silent(&self) -> bool
        ensures silent { result ≡ is_silent self.now }
    {
        self.is_unattached() && matches!(self.heard, Heard::Silence)
    }

    /// Returns whether the connection is unattached, though something came by it, and no frame of it waits for an answer.
    fn has_begun(&self) -> bool
        ensures begun { result ≡ has_begun self.now }
    {
        self.is_unattached() && matches!(self.heard, Heard::Something)
    }

    /// Notes what came by the connection, if it has this `number`.
    fn note(&mut self, number: u64, heard: Heard)
        ensures noted { self.new ≡ noted number heard self.old }
    {
        if self.number == number {
            self.heard = heard;
        }
    }

    /// Notes that the first frame of the connection is answered, and made it one of `peer`, if it has this `number`.
    fn name(&mut self, number: u64, peer: Peer)
        ensures named { self.new ≡ named number peer self.old }
    {
        if self.number == number {
            self.peer = peer;
            self.heard = Heard::Something;
        }
    }

    /// Returns whether this is the connection of a worker of `daemon`.
    fn works_for(&self, daemon: DaemonId) -> bool
        ensures works { result ≡ works_for daemon self.now }
    {
        match self.peer {
            Peer::Worker(served) => served.0 == daemon.0,
            Peer::Unattached | Peer::Daemon(_) => false,
        }
    }
}

/// The connections that are open, each with a number of its own, in the order in which they came.
#[derive(Drop)]
pub(crate) struct Connections {
    list: Vec<OpenConnection>,
    next: u64,
}

impl Connections {
    /// Makes an empty list of connections.
    pub(crate) fn new(alloc: Global) -> Connections {
        Connections {
            list: Vec::new(alloc),
            next: 0,
        }
    }

    /// Lets a connection in by a handle of it, and returns its number. At the limit another unattached connection has to go
    /// for it, and is ended. Returns none where none may go, or memory is refused: then nothing changes.
    pub(crate) fn enter(&mut self, handle: ConnectionHandle) -> Option<u64>
        ensures entered { IfSome result (λ number. (number ≡ self.old.next) × (has_room self.old.list.items ≡ true)
            × (self.new.list.items ≡ with_room self.old.list.items ++ entered self.old.next handle ∷ [])) }
        ensures unchanged { result ≡ None → self.new.list.items ≡ self.old.list.items }
    {
        if !self.has_room() {
            return None;
        }
        self.list.reserve(1).ok()?;
        self.make_room();
        let number = self.next;
        self.list.push_reserved(OpenConnection {
            number,
            peer: Peer::Unattached,
            heard: Heard::Unknown,
            handle,
        });
        self.next = number.wrapping_add(1);
        Some(number)
    }

    /// Returns whether a connection may come: fewer are unattached than may be, or one of those may go.
    pub(crate) fn has_room(&self) -> bool
        ensures room { result ≡ has_room self.now.list.items }
    {
        self.unattached() < MAX_UNATTACHED || self.place_to_give().is_some()
    }

    /// Ends the unattached connection that goes first, where as many are unattached as may be.
    fn make_room(&mut self)
        ensures room { self.new.list.items ≡ with_room self.old.list.items }
        ensures next { self.new.next ≡ self.old.next }
        ensures capacity { vec_len self.old.list < vec_capacity self.old.list
            → vec_len self.new.list < vec_capacity self.new.list }
    {
        if self.unattached() < MAX_UNATTACHED {
            return;
        }
        if let Some(place) = self.place_to_give() {
            let connection = self.list.remove(place);
            connection.handle.end();
        }
    }

    /// Returns the place of the unattached connection that goes first: the oldest one by which nothing came, or else the
    /// oldest one by which something came that waits for no answer. One that nobody looked at stays, and so does one whose
    /// frame is not answered yet.
    fn place_to_give(&self) -> Option<usize>
        ensures place { result ≡ place_to_give self.now.list.items }
        ensures below { IfSome result (λ place. place < length self.now.list.items) }
    {
        match self.place_of_silent() {
            Some(place) => Some(place),
            None => self.place_of_begun(),
        }
    }

    /// Returns the place of the oldest unattached connection by which nothing came.
    fn place_of_silent(&self) -> Option<usize>
        ensures place { result ≡ position is_silent self.now.list.items }
        ensures below { IfSome result (λ place. place < length self.now.list.items) }
    {
        self.list
            .iter()
            .position(|connection| connection.is_silent())
    }

    /// Returns the place of the oldest unattached connection by which something came.
    fn place_of_begun(&self) -> Option<usize>
        ensures place { result ≡ position has_begun self.now.list.items }
        ensures below { IfSome result (λ place. place < length self.now.list.items) }
    {
        self.list
            .iter()
            .position(|connection| connection.has_begun())
    }

    /// Notes what came by connection `number`.
    pub(crate) fn note(&mut self, number: u64, heard: Heard)
        ensures noted { self.new.list.items ≡ map (noted number heard) self.old.list.items }
        ensures next { self.new.next ≡ self.old.next }
    {
        for connection in self.list.iter_mut() {
            connection.note(number, heard);
        }
    }

    /// Returns how many connections are unattached. At `MAX_UNATTACHED` one of them has to go before another one comes.
    fn unattached(&self) -> usize
        ensures count { result ≡ count_by is_unattached self.now.list.items }
    {
        self.list
            .iter()
            .filter(|connection| connection.is_unattached())
            .count()
    }

    /// Returns whether one more worker of a daemon may have a connection.
    pub(crate) fn has_place(&self, daemon: DaemonId) -> bool
        ensures place { result ≡ nat_lt (count_by (works_for daemon) self.now.list.items) 16 }
    {
        let there = self
            .list
            .iter()
            .filter(|connection| connection.works_for(daemon))
            .count();
        there < MAX_WORKERS
    }

    /// Returns whether connection `number` is here: it came, and did not leave or have to go.
    pub(crate) fn knows(&self, number: u64) -> bool
        ensures known { result ≡ is_some (position (has_number number) self.now.list.items) }
    {
        self.place_of(number).is_some()
    }

    /// Returns where connection `number` stands, if it is here.
    fn place_of(&self, number: u64) -> Option<usize>
        ensures place { result ≡ position (has_number number) self.now.list.items }
        ensures below { IfSome result (λ place. place < length self.now.list.items) }
    {
        self.list
            .iter()
            .position(|connection| connection.number == number)
    }

    /// Notes that the first frame of connection `number` is answered, and made it one of `peer`.
    pub(crate) fn name(&mut self, number: u64, peer: Peer)
        ensures named { self.new.list.items ≡ map (named number peer) self.old.list.items }
        ensures next { self.new.next ≡ self.old.next }
    {
        for connection in self.list.iter_mut() {
            connection.name(number, peer);
        }
    }

    /// Removes connection `number`, which ended. Those that are left stand in the order in which they came.
    pub(crate) fn leave(&mut self, number: u64)
        ensures left { self.new.list.items ≡ without_at self.old.list.items (position (has_number number) self.old.list.items) }
    {
        if let Some(place) = self.place_of(number) {
            drop(self.list.remove(place));
        }
    }

    /// Ends all connections.
    pub(crate) fn end_all(&self) {
        for connection in self.list.iter() {
            connection.handle.end();
        }
    }
}
