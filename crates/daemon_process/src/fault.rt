//! Why a daemon ended that neither handed over nor saw the mount end.
use std::io;

/// Why a daemon ended that neither handed over nor saw the mount end, with the system's error that caused it.
#[derive(Clone, Copy)]
pub enum DaemonFault {
    /// The broker's socket can't be connected to.
    NoBroker(io::Error),
    /// Another daemon has the seat.
    Seated,
    /// As many daemons are at the broker as may be.
    Full,
    /// The other daemon's socket can't be connected to.
    NoDaemon(io::Error),
    /// The two daemons have no version of the image in common, or the other daemon takes no offer at present.
    OfferRefused,
    /// The takeover ended without the seat.
    TakeoverFailed,
    /// The daemon's own socket can't be listened at.
    CannotListen(io::Error),
    /// The directory with the contents of files can't be served.
    NoFiles(io::Error),
    NoMemory,
    /// No thread could be made in which takeovers are served.
    NoThread,
    /// The broker closed a connection, or said what no broker says there.
    Broken,
}
