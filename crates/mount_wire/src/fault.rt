//! Why a kernel's message isn't taken.
use thiserror::Error;

/// Why a kernel's message isn't taken. If several variants apply, the first in this order is the fault.
#[derive(Clone, Copy, Debug, PartialEq, Eq, Error)]
pub enum KernelMessageFault {
    #[error("the header is cut")]
    Short,
    #[error("the length in the header is another")]
    BadLength,
    #[error("the request has another opcode")]
    BadOpcode,
    #[error("the body does not fit its opcode")]
    BadBody,
    #[error("the number of forgets does not fit the length")]
    BadCount,
    #[error("the kernel's version of the protocol is below 7.12")]
    TooOld,
}
