//! Why a claim of the seat fails.
use thiserror::Error;

/// Why a daemon cannot claim the seat. If several variants apply, the first in this order is the fault. The text of a
/// fault is that of a printed refusal.
#[derive(Clone, Copy, Debug, PartialEq, Eq, Error)]
pub enum ClaimFault {
    /// No daemon has the seat.
    #[error("Ended")]
    Ended,
    /// The seat is not at the generation that the claim names, but at generation `now`.
    #[error("Stale {now}")]
    Stale { now: u64 },
    /// Of the asks that were taken, `asks` have no reply yet.
    #[error("Unanswered {asks}")]
    Unanswered { asks: u64 },
    /// The seat is at the last generation.
    #[error("LastGeneration")]
    LastGeneration,
}
