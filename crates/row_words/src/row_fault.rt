//! Why a row has no result.
use eden_base::NoMemory;
use std::alloc::{AllocError, AllocFailed};

/// Why a row has no result.
#[derive(Clone, Copy, PartialEq, Eq)]
pub enum RowFault {
    /// Memory was refused, so the call changed nothing.
    NoMemory,
    /// The row is no call: a word is missing, or is none of those that may stand there.
    BadRow,
}

impl RowFault {
    /// Returns what is told of such a row.
    pub fn name(self) -> &'static str {
        match self {
            RowFault::NoMemory => "NoMemory",
            RowFault::BadRow => "bad row",
        }
    }
}

impl From<AllocError> for RowFault {
    fn from(_refused: AllocError) -> RowFault {
        RowFault::NoMemory
    }
}

impl<T: Drop> From<AllocFailed<T>> for RowFault {
    fn from(_refused: AllocFailed<T>) -> RowFault {
        RowFault::NoMemory
    }
}

impl From<NoMemory> for RowFault {
    fn from(_refused: NoMemory) -> RowFault {
        RowFault::NoMemory
    }
}
