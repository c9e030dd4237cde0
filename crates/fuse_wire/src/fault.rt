//! Why bytes are no message.
use eden_base::NameFault;
use thiserror::Error;

/// Why bytes are no message. If several variants apply, the first in this order is the fault.
#[derive(Clone, Copy, Debug, PartialEq, Eq, Error)]
pub enum WireFault {
    #[error("the header is cut")]
    Short,
    #[error("the length in the header is another")]
    BadLength,
    #[error("the body does not fit its opcode")]
    BadBody,
    #[error("the number of forgets does not fit the length, or is above 256")]
    BadCount,
    #[error("{0}")]
    BadName(NameFault),
    #[error("out of memory")]
    NoMemory,
}
