//! How far a daemon is in a takeover.

/// The phase of a daemon: first those of a new daemon up to the claim, then those of a daemon that serves and hands
/// over.
#[derive(Clone, Copy, PartialEq, Eq)]
pub enum Phase {
    /// It was started. It may mount, or its offer may be taken.
    Waiting,
    /// Its offer was taken, and it waits for the data.
    Chosen {
        session: u32,
        version: u16,
    },
    /// It reads the part at this position.
    Taking {
        session: u32,
        generation: u64,
        version: u16,
        position: u32,
        count: u32,
    },
    /// It waits for the part at this position.
    Reading {
        session: u32,
        generation: u64,
        version: u16,
        position: u32,
        count: u32,
    },
    /// It has all the data, and reads and restores it.
    Raising {
        session: u32,
        generation: u64,
    },
    /// It knows all that the serving daemon knows at this generation, and claims the seat from this generation.
    Holding {
        generation: u64,
    },
    /// It serves.
    Serving {
        generation: u64,
    },
    /// It has taken an offer, and works on what it has in hand.
    Draining {
        generation: u64,
        session: u32,
        version: u16,
    },
    /// It has drained, and waits for the new daemon's answer.
    Pinged {
        generation: u64,
        session: u32,
        version: u16,
    },
    /// It makes the data.
    Making {
        generation: u64,
        session: u32,
        version: u16,
    },
    /// It has handed the data over, and so may serve only after a claim.
    Handed {
        generation: u64,
        session: u32,
    },
    /// It has no part in any takeover, for ever.
    Gone,
}
