//! The events of a world.
use eden_base::DaemonId;
use fuse_wire::Request;
use takeover_core::Versions;

/// One thing that happens, atomically. The first position is 1.
#[derive(Drop)]
pub enum Event {
    /// A new daemon starts, with these versions of the image. Daemons are numbered from 1, in the order of their start.
    Start(Versions),
    /// The daemon takes the seat, and serves the manifest's tree from then on.
    Mount(DaemonId),
    /// The kernel issues this ask or forget.
    Issue(Request),
    /// What waits first at the broker joins the end of the daemon's hand: an ask as it is, each item of a forget by
    /// itself.
    Take(DaemonId),
    /// The daemon answers the ask, or applies the item, at `position` of its hand. If `fails`, its backing fails the
    /// first time it is asked.
    Work {
        daemon: DaemonId,
        position: u64,
        fails: bool,
    },
    /// The daemon posts the reply at `position` of those that it did not post yet. The reply then waits for the kernel.
    Post {
        daemon: DaemonId,
        position: u64,
    },
    /// Of the posted replies, the one that was posted first reaches the kernel.
    Deliver,
    /// The daemon hears the message at `position` of all that were said. Any daemon may have heard that message before.
    Hear {
        daemon: DaemonId,
        position: u64,
    },
    /// The daemon says that it is ready to hand over, if it drains, its hand is empty and every reply is posted.
    Drained(DaemonId),
    /// The daemon gives its takeover up, for example because the connection to the other daemon has closed.
    GiveUp(DaemonId),
    /// The daemon claims the seat from the generation whose data it holds.
    Claim(DaemonId),
    /// The daemon ends, and all that it had is lost. If the daemon has the seat, the mount ends too.
    Crash(DaemonId),
    /// The request is issued. The daemon of the seat takes what waits first, and works the first member of its hand. If
    /// the request is an ask, the daemon also posts its first unposted reply, and the first posted reply is delivered.
    /// No event follows one that is refused.
    Do(Request),
    /// Nothing happens: a script prints the world here.
    Show,
}
