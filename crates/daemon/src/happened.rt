//! The outcomes of events.
ghost use Rattle.std.specs.Prelude.{◌≡◌};
ghost use Rattle.daemon.specs.Refusals.{refusal_name, refusal_of_mount, refusal_of_issue, refusal_of_take, refusal_of_post, refusal_of_drain, refusal_of_claim, is_made, is_begun};

use broker_core::{IssueFault, MountFault, PostFault, TakeFault};
use eden_base::{ClaimFault, DaemonId};
use fuse_wire::{Item, Reply};
use inode_map::Forgot;
use takeover_core::DrainFault;

/// Why an event was refused. A refusal changes nothing, with one exception: a daemon whose claim can never succeed is
/// gone.
#[derive(Clone, Copy, PartialEq, Eq)]
pub enum Refusal {
    NoDaemon,
    WrongPhase,
    /// The list has no member at the position.
    NoSuch,
    Seated,
    LastGeneration,
    NotMounted,
    NotHeld,
    BadForget,
    Full,
    Ended,
    /// The seat is at this generation, which is not the daemon's.
    Stale(u64),
    Empty,
    NotAsked,
    /// This many asks were taken and have no reply yet.
    Unanswered(u64),
    /// The daemon has requests in hand, or replies that it did not post.
    Undrained { in_hand: usize, unposted: usize },
    NoMemory,
}

impl Refusal {
    /// Returns the word that a printed line has for this refusal.
    pub fn name(self) -> &'static str
        ensures name { result.now ≡ refusal_name self }
    {
        match self {
            Refusal::NoDaemon => "NoDaemon",
            Refusal::WrongPhase => "WrongPhase",
            Refusal::NoSuch => "NoSuch",
            Refusal::Seated => "Seated",
            Refusal::LastGeneration => "LastGeneration",
            Refusal::NotMounted => "NotMounted",
            Refusal::NotHeld => "NotHeld",
            Refusal::BadForget => "BadForget",
            Refusal::Full => "Full",
            Refusal::Ended => "Ended",
            Refusal::Stale(_) => "Stale",
            Refusal::Empty => "Empty",
            Refusal::NotAsked => "NotAsked",
            Refusal::Unanswered(_) => "Unanswered",
            Refusal::Undrained { .. } => "Undrained",
            Refusal::NoMemory => "NoMemory",
        }
    }
}

/// One thing that an event made happen.
#[derive(PartialEq, Eq, Drop)]
pub enum Happened {
    Started(DaemonId),
    /// A daemon took the seat, at this generation.
    Mounted(u64),
    /// The kernel's request waits: an ask under this unique, a forget without one.
    Asked(Option<u64>),
    /// The ask with this unique is in the daemon's hand.
    Took(u64),
    /// This many items of a forget joined the daemon's hand.
    TookForgets(usize),
    /// The daemon answered an ask with this reply, and did not post the reply yet.
    Made(Reply),
    /// The daemon applied `item`, and `forgot` is what became of it.
    Forgot { item: Item, forgot: Forgot },
    /// The reply with this unique waits for the kernel.
    Posted(u64),
    /// This reply reached the kernel.
    Answered(Reply),
    /// The daemon said a message, which is at this position of the messages.
    Said(usize),
    /// The daemon took the message in, or gave up, and said nothing.
    Heard,
    /// The message is not for the daemon's phase or session, or there was nothing to give up.
    Ignored,
    /// The daemon has the seat, at this generation.
    Claimed(u64),
    /// The daemon is gone.
    Crashed,
    Refused(Refusal),
}

/// The result of issuing a request that a daemon takes at once.
#[derive(Drop)]
pub enum Begun {
    /// The request was not issued.
    Refused(Refusal),
    /// The request was issued. `unique` is the unique of an ask; a forget has none. `taken` is the result of the take.
    Issued {
        unique: Option<u64>,
        taken: Happened,
    },
}

impl Begun {
    /// Returns whether the request was issued and taken.
    pub fn is_made(&self) -> bool
        ensures made { result ≡ is_begun self.now }
    {
        match self {
            Begun::Refused(_) => false,
            Begun::Issued { taken, .. } => taken.is_made(),
        }
    }
}

impl Happened {
    /// Returns whether the event was made.
    pub fn is_made(&self) -> bool
        ensures made { result ≡ is_made self.now }
    {
        !matches!(self, Happened::Refused(_))
    }
}

impl From<MountFault> for Refusal {
    ghost from_gives = { λ fault refusal. refusal ≡ refusal_of_mount fault };

    fn from(fault: MountFault) -> Refusal {
        match fault {
            MountFault::Seated => Refusal::Seated,
            MountFault::LastGeneration => Refusal::LastGeneration,
        }
    }
}

impl From<IssueFault> for Refusal {
    ghost from_gives = { λ fault refusal. refusal ≡ refusal_of_issue fault };

    fn from(fault: IssueFault) -> Refusal {
        match fault {
            IssueFault::NotMounted => Refusal::NotMounted,
            IssueFault::NotHeld => Refusal::NotHeld,
            IssueFault::BadForget => Refusal::BadForget,
            IssueFault::Full => Refusal::Full,
            IssueFault::NoMemory => Refusal::NoMemory,
        }
    }
}

impl From<TakeFault> for Refusal {
    ghost from_gives = { λ fault refusal. refusal ≡ refusal_of_take fault };

    fn from(fault: TakeFault) -> Refusal {
        match fault {
            TakeFault::Ended => Refusal::Ended,
            TakeFault::Stale(now) => Refusal::Stale(now),
            TakeFault::Empty => Refusal::Empty,
        }
    }
}

impl From<PostFault> for Refusal {
    ghost from_gives = { λ fault refusal. refusal ≡ refusal_of_post fault };

    fn from(fault: PostFault) -> Refusal {
        match fault {
            PostFault::Ended => Refusal::Ended,
            PostFault::Stale(now) => Refusal::Stale(now),
            PostFault::NotAsked => Refusal::NotAsked,
        }
    }
}

impl From<ClaimFault> for Refusal {
    ghost from_gives = { λ fault refusal. refusal ≡ refusal_of_claim fault };

    fn from(fault: ClaimFault) -> Refusal {
        match fault {
            ClaimFault::Ended => Refusal::Ended,
            ClaimFault::Stale { now } => Refusal::Stale(now),
            ClaimFault::Unanswered { asks } => Refusal::Unanswered(asks),
            ClaimFault::LastGeneration => Refusal::LastGeneration,
        }
    }
}

impl From<DrainFault> for Refusal {
    ghost from_gives = { λ fault refusal. refusal ≡ refusal_of_drain fault };

    fn from(fault: DrainFault) -> Refusal {
        match fault {
            DrainFault::WrongPhase => Refusal::WrongPhase,
            DrainFault::Undrained { in_hand, unposted } => Refusal::Undrained { in_hand, unposted },
        }
    }
}

/// The value that fills the unused rest of an outcome's array.
impl Default for Happened {
    fn default() -> Happened {
        Happened::Refused(Refusal::NoMemory)
    }
}
