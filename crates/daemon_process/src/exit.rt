//! How a daemon ends.
use crate::fault::DaemonFault;
use eden_base::NoMemory;

/// How a daemon ends.
#[derive(Clone, Copy)]
pub(crate) enum Exit {
    /// Another daemon took over from it.
    HandedOver,
    /// The mount is over.
    Ended,
    Faulty(DaemonFault),
}

/// The end of a daemon: by an exit, or by its standard input.
#[derive(Clone, Copy)]
pub(crate) enum DaemonEnd {
    Exits(Exit),
    /// Standard input ended, and the daemon was to run until then.
    Closed,
}

impl From<NoMemory> for Exit {
    fn from(_refused: NoMemory) -> Exit {
        Exit::Faulty(DaemonFault::NoMemory)
    }
}
